//! The readers of whole texts and of single lines.

ghost use Rattle.std.specs.Prelude.{◌≡◌, ◌++◌, ◌∷◌, [], All, IfOk};
ghost use Rattle.str0m_signal.specs.Prelude.{HasBoundedRows};
ghost use Rattle.str0m_signal.specs.form.CandidateLine.{IsCandidateLine};
ghost use Rattle.str0m_signal.specs.form.MediaAttribute.{IsMediaLine};
ghost use Rattle.str0m_signal.specs.form.SessionAttribute.{IsSessionLine};
ghost use Rattle.str0m_signal.specs.line.Lines.{FirstLine};
ghost use Rattle.str0m_signal.specs.line.LinesReading.{lines_left, line_read, lines_of, read_attribute};
ghost use Rattle.str0m_signal.specs.session.Reader.{IsFromLine, Sections, IsSession, IsReading, Reading, SessionReading};
ghost use Rattle.str0m_signal.specs.session.ReaderAnswers.{Answers, AtMostOneAnswer, GivesRead, IsReaderRefusal, unread};

use crate::form::session_attribute::session_attributes;
use crate::line::attributes::{Attribute, next_line};
use crate::session::header::{SessionHead, next_header};
use crate::session::section::section;
use std::alloc::{AllocError, Global};
use str0m_sdp::{MediaAttribute, MediaLine, Sdp, SdpError, Session, SessionAttribute};
use str0m_values::{Candidate, Items};

/// The refusal with a message, or out of memory.
pub(crate) fn reader_refusal(alloc: Global, message: &str) -> SdpError
    ensures { IsReaderRefusal result }
{
    match String::from_str(alloc, message) {
        Ok(message) => SdpError::ParseError(message),
        Err(_) => SdpError::Memory,
    }
}

/// Puts a section behind the others. Most descriptions have one or two, so that room is made for no more at first.
fn push_section(sections: &mut Vec<MediaLine>, section: MediaLine) -> Result<(), AllocError>
    ensures { IfOk result (λ _. sections.new.items ≡ sections.old.items ++ section ∷ []) }
{
    if sections.len() == sections.capacity() {
        sections.reserve_exact(sections.len().max(1))?;
    }
    sections.push(section)?;
    Ok(())
}

/// The consistent sections that stand next.
fn sections(alloc: Global, text: &str) -> Result<(Items<MediaLine>, &str), SdpError>
    ensures { Answers lines_left result (λ v. Sections (lines_of text.now) v.0 v.1) }
{
    let mut sections = Vec::new(alloc);
    let mut rest = text;
    while let Some((m, after)) = section(alloc, rest)? {
        if let Some(message) = m.check_consistent()? {
            return Err(SdpError::ParseError(message));
        }
        push_section(&mut sections, m)?;
        rest = after;
    }
    Ok((Items::from(sections), rest))
}

fn read_session(alloc: Global, text: &str) -> Result<(Session, &str), SdpError>
    ensures { Answers lines_left result (λ v. IsSession (lines_of text.now) v.0 v.1) }
{
    let Some((head, rest)) = next_header(alloc, text)? else {
        return Err(reader_refusal(alloc, "bad session header"));
    };
    let (attrs, rest) = session_attributes(alloc, rest)?;
    let SessionHead { id, bw } = head;
    Ok((Session { id, bw, attrs }, rest))
}

fn read_sdp(alloc: Global, text: &str) -> Result<(Sdp, &str), SdpError>
    ensures { Answers lines_left result (λ v. IsReading (lines_of text.now) v.0 v.1) }
{
    let (session, rest) = read_session(alloc, text)?;
    let (media_lines, rest) = sections(alloc, rest)?;
    let sdp = Sdp {
        session,
        media_lines,
    };
    Ok((sdp, rest))
}

/// The attribute of the first line, where it is one.
fn first_attribute<A: Attribute>(alloc: Global, text: &str) -> Result<(A, &str), SdpError>
    ensures { GivesRead lines_left result (line_read (read_attribute A.reading) (lines_of text.now)) }
{
    match next_line(alloc, text)? {
        Some(found) => Ok(found),
        None => Err(reader_refusal(alloc, "line does not fit")),
    }
}

/// Reads the session that a text begins with: its header and its attribute lines (RFC 8866,
/// section 5). Answers the session and the unread rest, a slice of the text, which begins at the
/// first line that is no session attribute. What stands in the rest refuses nothing.
///
/// # Errors
///
/// `ParseError` exactly where a header line is missing or wrong; `Memory` where a growth was
/// refused.
pub fn session_parser(alloc: Global, text: &str) -> Result<(Session, &str), SdpError>
    ensures read { Answers unread result (SessionReading text.now) }
    ensures one { AtMostOneAnswer (SessionReading text.now) }

    // The rest begins a line, or is nothing.
    ensures rest { IfOk result (λ found. IsFromLine text.now found.1.now) }
{
    read_session(alloc, text)
}

/// Reads the description that a text begins with: the session and all sections that follow
/// (RFC 8866, section 5). Answers it and the unread rest, a slice of the text, which begins at the
/// first line that fits nowhere.
///
/// # Errors
///
/// `ParseError` exactly where a header line is missing or wrong, or where a section that is reached
/// isn't consistent; `Memory` where a growth was refused.
pub fn sdp_parser(alloc: Global, text: &str) -> Result<(Sdp, &str), SdpError>
    ensures read { Answers unread result (Reading text.now) }
    ensures one { AtMostOneAnswer (Reading text.now) }

    // The rest begins a line, or is nothing.
    ensures rest { IfOk result (λ found. IsFromLine text.now found.1.now) }

    // The rows of its sections have types of seven bits, and modes and distances in their ranges.
    ensures bounded { IfOk result (λ read. All HasBoundedRows read.0.media_lines) }
{
    read_sdp(alloc, text)
}

/// Reads the first line of a text as an attribute line of a session. Answers the attribute and the
/// rest after the line, a slice of the text.
///
/// # Errors
///
/// `ParseError` exactly where the first line is no attribute line; `Memory` where a growth was
/// refused.
pub fn session_attribute_line(
    alloc: Global,
    text: &str,
) -> Result<(SessionAttribute, &str), SdpError>
    ensures read { Answers unread result (FirstLine IsSessionLine text.now) }
    ensures one { AtMostOneAnswer (FirstLine IsSessionLine text.now) }

    // The rest begins a line, or is nothing.
    ensures rest { IfOk result (λ found. IsFromLine text.now found.1.now) }
{
    first_attribute(alloc, text)
}

/// Reads the first line of a text as an attribute line of a section. Answers the attribute and the
/// rest after the line, a slice of the text.
///
/// # Errors
///
/// `ParseError` exactly where the first line is no attribute line; `Memory` where a growth was
/// refused.
pub fn media_attribute_line(alloc: Global, text: &str) -> Result<(MediaAttribute, &str), SdpError>
    ensures read { Answers unread result (FirstLine IsMediaLine text.now) }
    ensures one { AtMostOneAnswer (FirstLine IsMediaLine text.now) }

    // The rest begins a line, or is nothing.
    ensures rest { IfOk result (λ found. IsFromLine text.now found.1.now) }
{
    first_attribute(alloc, text)
}

/// Reads the first line of a text as the line of a candidate (RFC 8839, section 5.1). Answers the
/// candidate and the rest after the line, a slice of the text.
///
/// # Errors
///
/// `ParseError` exactly where the first line is no candidate's; `Memory` where a growth was refused.
pub fn candidate_attribute(alloc: Global, text: &str) -> Result<(Candidate, &str), SdpError>
    ensures read { Answers unread result (FirstLine IsCandidateLine text.now) }
    ensures one { AtMostOneAnswer (FirstLine IsCandidateLine text.now) }

    // The rest begins a line, or is nothing.
    ensures rest { IfOk result (λ found. IsFromLine text.now found.1.now) }
{
    first_attribute(alloc, text)
}
