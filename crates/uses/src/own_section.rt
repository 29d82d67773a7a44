//! A section of one's own, made of nothing but values.

ghost use Rattle.std.specs.Prelude.{◌≡◌, IfOk, IfSome, None, Some, slice_get, string_bytes};
ghost use Rattle.str0m_sdp.specs.declared.section.media_line.MediaLine.{MediaLine};
ghost use Rattle.str0m_sdp.specs.session.Session.{sdp_text};
ghost use Rattle.str0m_signal.specs.back.ReadBack.{CanRowsBeReadBack, ReadsBack, with_rows};
ghost use Rattle.str0m_signal.specs.back.Writable.{Writable};
ghost use Rattle.uses.specs.OwnSection.{own_frame, own_sdp};

use crate::answer::{answer_with_section, printable_answer_section};
use std::alloc::{AllocError, Global};
use str0m_signal::{
    CodecConfig, Fingerprint, IceCreds, Items, MediaAttribute, MediaLine, Mid, Sdp, Session,
    SessionAttribute, Setup, Text,
};

/// A section of audio without rows yet: its name, and how this side's transport is reached. The only
/// error is that memory was refused.
pub fn own_frame(
    alloc: Global,
    mid: Mid,
    creds: IceCreds,
    fingerprint: Fingerprint,
) -> Result<MediaLine, AllocError>
    ensures { IfOk result (λ frame. frame ≡ own_frame mid creds fingerprint) }
{
    let attrs = vec![in alloc;
        MediaAttribute::Mid(mid),
        MediaAttribute::SendRecv,
        MediaAttribute::Setup(Setup::ActPass),
        MediaAttribute::IceUfrag(creds.ufrag),
        MediaAttribute::IcePwd(creds.pass),
        MediaAttribute::Fingerprint(fingerprint),
        MediaAttribute::RtcpMux,
    ]?;
    let mut frame = MediaLine::new(alloc);
    frame.attrs = Items::from(attrs);
    Ok(frame)
}

/// A description of one section, which its `BUNDLE` group lists. The only error is that memory was
/// refused.
pub fn own_sdp(alloc: Global, id: u64, mid: Mid, frame: MediaLine) -> Result<Sdp, AllocError>
    ensures { IfOk result (λ own. own ≡ own_sdp id mid frame) }
{
    let typ = Text::from_str(alloc, "BUNDLE")?;
    let mut mids = Items::empty(alloc);
    mids.push(mid)?;
    let mut attrs = Items::empty(alloc);
    attrs.push(SessionAttribute::Group { typ, mids })?;
    let mut media_lines = Items::empty(alloc);
    media_lines.push(frame)?;
    let session = Session {
        id: id.into(),
        bw: None,
        attrs,
    };
    Ok(Sdp {
        session,
        media_lines,
    })
}

/// The text of `own` with the rows of a configuration in its section at `at`, counted from 0. `None` exactly
/// where there is no such section, or where what stands around the rows wouldn't be read again, as a
/// name with a line end in it: where `is_writable` is false.
///
/// The other side reads the text to its end, and finds these rows in that section, in order, where it
/// is one of audio or video and they are plain and distinct.
///
/// The only error is that memory was refused.
pub fn own_offer(config: &CodecConfig, own: Sdp, at: usize) -> Result<Option<String>, AllocError>
    ensures text { IfOk result (λ offer. IfSome offer (λ text.
        (frame : MediaLine) × (slice_get own.media_lines at ≡ Some frame)
        × (string_bytes text ≡ sdp_text (with_rows own at frame config.now.params.items)))) }
    ensures read_back { CanRowsBeReadBack config.now.params.items → IfOk result (λ offer. IfSome offer (λ text.
        ReadsBack own at config.now.params.items)) }
    ensures none { IfOk result (λ offer. offer ≡ None → Writable own at → ⊥) }
    ensures some { IfOk result (λ offer. IfSome offer (λ _. Writable own at)) }
{
    match printable_answer_section(&own, at, config.params())? {
        Some(section) => Ok(Some(answer_with_section(own, at, section)?)),
        None => Ok(None),
    }
}
