//! Descriptions each of whose lines is read as what it says.

ghost use Rattle.exchange.specs.Prelude.{Alike, Consistent};
ghost use Rattle.exchange.specs.state.LineByLine.{AreRtpTypes, IsFrameTold, IsHeadTold, IsLineReadAlike, IsReadByLines, IsSectionReadByLines, IsSessionLineRead};
ghost use Rattle.std.specs.Prelude.{All, ◌≡◌, ◌<◌, ◌^◌, [], IfOk, IsTrue, None};
ghost use Rattle.str0m_sdp.specs.attribute.Attribute.{media_attribute_text, session_attribute_text};

use crate::state::line_told::{HIGHEST_TYPE, is_line_told};
use std::alloc::{AllocError, Global};
use str0m_signal::{
    Bandwidth, MediaAttribute, MediaLine, MediaType, Pt, Sdp, SdpError, SessionAttribute,
    SessionId, media_attribute_line, session_attribute_line,
};

/// The room that the text of most lines fits in, in bytes: no answer depends on it.
const USUAL_LINE: usize = 128;

/// Whether an attribute was read as one alike, with nothing left.
fn is_read_alike(attr: &MediaAttribute, read: &MediaAttribute, rest: &str) -> bool
    ensures { IsTrue result → (rest.now ≡ []) × Alike attr.now read.now }
{
    rest.is_empty() && attr.is_alike(read)
}

/// Whether the text of an attribute is one line, which is read as one alike.
fn is_text_read_alike(alloc: Global, attr: &MediaAttribute, text: &str) -> Result<bool, AllocError>
    requires { text.now ≡ media_attribute_text attr.now }
    ensures { IfOk result (λ answer. IsTrue answer → IsLineReadAlike attr.now) }
{
    let Some(_line) = text.strip_suffix("\r\n") else {
        return Ok(false);
    };
    match media_attribute_line(alloc, text) {
        Ok((read, rest)) => {
            let is_alike = is_read_alike(attr, &read, rest);
            // Dropped by a call, so that what it may hold is no case of this proof.
            drop(read);
            Ok(is_alike)
        }
        Err(SdpError::Memory) => Err(AllocError),
        Err(SdpError::ParseError(_) | SdpError::Inconsistent(_)) => Ok(false),
    }
}

/// Whether the line of an attribute is read as one alike; `text` is room for it.
fn is_line_read_alike(
    alloc: Global,
    attr: &MediaAttribute,
    text: &mut String,
) -> Result<bool, AllocError>
    ensures { IfOk result (λ answer. IsTrue answer → IsLineReadAlike attr.now) }
{
    if is_line_told(attr) {
        return Ok(true);
    }
    text.clear();
    write!(text, "{attr}")?;
    is_text_read_alike(alloc, attr, text.as_str())
}

fn are_lines_read_alike(
    alloc: Global,
    attrs: &[MediaAttribute],
    text: &mut String,
) -> Result<bool, AllocError>
    ensures { IfOk result (λ answer. IsTrue answer → All IsLineReadAlike attrs.now) }
{
    for attr in attrs {
        if !is_line_read_alike(alloc, attr, text)? {
            return Ok(false);
        }
    }
    Ok(true)
}

fn are_rtp_types(pts: &[Pt]) -> bool
    ensures { IsTrue result → AreRtpTypes pts.now }
{
    !pts.is_empty() && pts.iter().all(|pt| pt.value() <= HIGHEST_TYPE)
}

fn is_head_told(section: &MediaLine) -> bool
    ensures { IsTrue result → IsHeadTold section.now }
{
    let pts = section.pts.as_slice();
    match section.typ {
        MediaType::Audio | MediaType::Video => are_rtp_types(pts),
        MediaType::Application => pts.is_empty(),
        MediaType::Unknown(_) => false,
    }
}

fn says_no_bandwidth(bw: &Option<Bandwidth>) -> bool
    ensures { IsTrue result → bw.now ≡ None }
{
    bw.is_none()
}

fn is_told_consistent(section: &MediaLine) -> Result<bool, AllocError>
    ensures { IfOk result (λ answer. IsTrue answer → Consistent section.now) }
{
    Ok(section.check_consistent()?.is_none())
}

/// Whether a section is consistent, and its first lines are read as what they say.
fn is_frame_told(section: &MediaLine) -> Result<bool, AllocError>
    ensures { IfOk result (λ answer. IsTrue answer → IsFrameTold section.now) }
{
    if says_no_bandwidth(&section.bw) && is_head_told(section) {
        is_told_consistent(section)
    } else {
        Ok(false)
    }
}

fn is_section_read_by_lines(
    alloc: Global,
    section: &MediaLine,
    text: &mut String,
) -> Result<bool, AllocError>
    ensures { IfOk result (λ answer. IsTrue answer → IsSectionReadByLines section.now) }
{
    if !is_frame_told(section)? {
        return Ok(false);
    }
    are_lines_read_alike(alloc, section.attrs.as_slice(), text)
}

fn are_sections_read_by_lines(
    alloc: Global,
    sections: &[MediaLine],
    text: &mut String,
) -> Result<bool, AllocError>
    ensures { IfOk result (λ answer. IsTrue answer → All IsSectionReadByLines sections.now) }
{
    for section in sections {
        if !is_section_read_by_lines(alloc, section, text)? {
            return Ok(false);
        }
    }
    Ok(true)
}

#[tactic(auto, using(str0m_sdp::proofs::session_Decides))]
fn is_same_session_line(attr: &SessionAttribute, other: &SessionAttribute) -> bool
    ensures { IsTrue result → (other.now ≡ attr.now) }
{
    attr == other
}

/// Whether an attribute of the session was read as it, with nothing left.
fn is_session_line_same(attr: &SessionAttribute, read: &SessionAttribute, rest: &str) -> bool
    ensures { IsTrue result → (rest.now ≡ []) × (read.now ≡ attr.now) }
{
    rest.is_empty() && is_same_session_line(attr, read)
}

/// Whether the text of a session's attribute is one line, which is read as it.
fn is_session_text_read(
    alloc: Global,
    attr: &SessionAttribute,
    text: &str,
) -> Result<bool, AllocError>
    requires { text.now ≡ session_attribute_text attr.now }
    ensures { IfOk result (λ answer. IsTrue answer → IsSessionLineRead attr.now) }
{
    let Some(_line) = text.strip_suffix("\r\n") else {
        return Ok(false);
    };
    match session_attribute_line(alloc, text) {
        Ok((read, rest)) => {
            let is_same = is_session_line_same(attr, &read, rest);
            // Dropped by a call, so that what it may hold is no case of this proof.
            drop(read);
            Ok(is_same)
        }
        Err(SdpError::Memory) => Err(AllocError),
        Err(SdpError::ParseError(_) | SdpError::Inconsistent(_)) => Ok(false),
    }
}

fn are_session_lines_read(
    alloc: Global,
    attrs: &[SessionAttribute],
    text: &mut String,
) -> Result<bool, AllocError>
    ensures { IfOk result (λ answer. IsTrue answer → All IsSessionLineRead attrs.now) }
{
    for attr in attrs {
        text.clear();
        write!(text, "{attr}")?;
        if !is_session_text_read(alloc, attr, text.as_str())? {
            return Ok(false);
        }
    }
    Ok(true)
}

/// Whether each line of a description is read as what it says, so that its whole text is read back. `false` says nothing.
///
/// The only error is that memory was refused.
pub(crate) fn is_read_by_lines(alloc: Global, sdp: &Sdp) -> Result<bool, AllocError>
    ensures { IfOk result (λ answer. IsTrue answer → IsReadByLines sdp.now) }
{
    if !says_no_bandwidth(&sdp.session.bw) {
        return Ok(false);
    }
    let mut text = String::with_capacity(alloc, USUAL_LINE)?;
    if !are_session_lines_read(alloc, sdp.session.attrs.as_slice(), &mut text)? {
        return Ok(false);
    }
    are_sections_read_by_lines(alloc, sdp.media_lines.as_slice(), &mut text)
}

/// The number of a session, which has 64 bits.
pub(crate) fn session_number(id: SessionId) -> u64
    ensures number { result ≡ id }
    ensures range { id < 2 ^ 64 }
{
    *id
}
