//! Whether rows may be printed in a session and are read again.

ghost use Rattle.std.specs.Prelude.{◌≡◌, ◌≢◌, ◌↔◌, ℕ, List, IfOk, IfSome, IsTrue, Ok, Some, true, slice_get};
ghost use Rattle.str0m_signal.specs.Prelude.{Consistent, MediaLine, PayloadParams, SessionAttribute, bandwidth_text, session_attribute_text};
ghost use Rattle.str0m_signal.specs.back.ReadBack.{CanRowsBeReadBack, ReadsBack};
ghost use Rattle.str0m_signal.specs.back.Writable.{AreReadAs, IsReadBackLine, IsMediaReadAs, SessionGoesWith, Writable};
ghost use Rattle.str0m_signal.specs.back.WritableAgain.{IsWritableOverSrtp, IsRead, MayBeWrittenAgain};
ghost use Rattle.str0m_signal.specs.form.SessionAttribute.{IsSessionLine};
ghost use Rattle.str0m_signal.specs.session.Section.{IsBandwidth};

use crate::back::attributes_back::session_back;
use crate::back::section_back::{bandwidth_comes_back, comes_back, frame_comes_back};
use std::alloc::{AllocError, Global};
use str0m_sdp::{MediaLine, Sdp, Session};

/// Whether the lines of the session are read as what it holds.
fn session_comes_back(alloc: Global, session: &Session) -> Result<bool, AllocError>
    ensures { IfOk result (λ answer. IsTrue answer ↔
        (((reads : List SessionAttribute) × AreReadAs session_attribute_text IsSessionLine SessionGoesWith session.now.attrs reads)
        × IfSome session.now.bw (λ bw. IsReadBackLine IsBandwidth (bandwidth_text bw) bw))) }
{
    match session_back(alloc, session.attrs.as_slice())? {
        Some(_) => bandwidth_comes_back(alloc, &session.bw),
        None => Ok(false),
    }
}

/// Whether each section but one comes back.
fn others_come_back(alloc: Global, sections: &[MediaLine], own: usize) -> Result<bool, AllocError>
    ensures { IfOk result (λ answer. IsTrue answer ↔ ((j : ℕ) (m : MediaLine) → slice_get sections.now j ≡ Some m → j ≢ own
        → (read : MediaLine) × IsMediaReadAs m read × Consistent read)) }
{
    for (i, section) in sections.iter().enumerate() {
        if i != own && !comes_back(alloc, section)? {
            return Ok(false);
        }
    }
    Ok(true)
}

/// Whether what stands around the rows of a section is read again.
fn surroundings_come_back(sdp: &Sdp, section: usize) -> Result<bool, AllocError>
    ensures { IfOk result (λ answer. IsTrue answer ↔ Writable sdp.now section) }
{
    let alloc = *sdp.media_lines.allocator();
    let sections = sdp.media_lines.as_slice();
    let Some(own) = sections.get(section) else {
        return Ok(false);
    };
    if !session_comes_back(alloc, &sdp.session)? || !frame_comes_back(alloc, own)? {
        return Ok(false);
    }
    others_come_back(alloc, sections, section)
}

/// Whether rows may be printed in the section at this index and are read again: each line of the
/// session, of the other sections and of the section's frame (its attributes but rtpmap, rtcp-fb and
/// fmtp lines) is read as what it was printed of, or is kept unread; the other sections are
/// consistent then, and the frame has one mid, at most one setup and one direction. `false` where
/// there is no such section.
///
/// Where it is `true`, one row or more, each plain (`PayloadParams::is_plain`), none of whose types
/// stands twice, come back: where an audio or video section stands there, the text of the session with
/// `section_of` of it and the rows in its place is read to its end, and the section there describes
/// these rows, in order. Whether a row is locked isn't printed.
///
/// It is `true` of a session that was read of a text, at each section over Srtp, where each application
/// section is on Sctp, each other one has payload types, and no rid has a restriction of the key `pt`,
/// which would be read as its list of payload types. Rows printed there come back even where this
/// call answers that memory was refused.
///
/// The only error is that memory was refused. Nothing is changed.
pub fn is_writable(sdp: &Sdp, section: usize) -> Result<bool, AllocError>
    ensures exact { IfOk result (λ answer. IsTrue answer ↔ Writable sdp.now section) }
    ensures read_is_writable { IsRead sdp.now → MayBeWrittenAgain sdp.now → IsWritableOverSrtp sdp.now section → Writable sdp.now section }
    ensures of_reading { IfOk result (λ answer. IsRead sdp.now → MayBeWrittenAgain sdp.now → IsWritableOverSrtp sdp.now section → IsTrue answer) }
    ensures read_back { result ≡ Ok true → (rows : List PayloadParams) → CanRowsBeReadBack rows → ReadsBack sdp.now section rows }
{
    surroundings_come_back(sdp, section)
}
