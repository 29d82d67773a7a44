//! Why a text is refused.
ghost use Rattle.lint.specs.Findings.{is_refused};
ghost use Rattle.std.specs.Prelude.{◌≡◌, true, OnOk};

use crate::attribute_lines::note_attributes;
use crate::changes::note_printed;
use crate::code::{Code, Refusal};
use crate::contradiction::contradiction;
use crate::header::note_header;
use crate::lines::{line_count, lines_before_rest, next_line};
use crate::mark::{add_section, session_marks};
use crate::notes::Notes;
use crate::part::Place;
use crate::section::{Section, next_section};
use crate::unfit::note_end;
use std::alloc::AllocError;
use str0m_sdp::{SdpError, Session};
use str0m_signal::session_parser;
use str0m_values::cuts::strip;

/// Says where the reading of a section ended before the next m-line, if it did: what is missing may stand after that line. Returns
/// what is said of the section itself.
fn note_inner_end(
    notes: &mut Notes,
    number: usize,
    rest: &str,
    detail: String,
) -> Result<String, AllocError>
    ensures { notes.new.last ≡ notes.old.last }
{
    let Some((line, _)) = next_line(rest) else {
        return Ok(detail);
    };
    if strip(line, "m=").is_some() {
        return Ok(detail);
    }
    note_end(notes, number, rest)?;
    let comma = if detail.is_empty() { "" } else { ", " };
    format!(in notes.alloc(); "{detail}{comma}its reading ended at line {number}")
}

/// Says what is at fault in a section after so many lines, whose attributes are said already.
fn note_refused_section(
    notes: &mut Notes,
    before: usize,
    section: &Section<'_>,
) -> Result<(), AllocError>
    ensures refused { OnOk result (is_refused notes.new.findings ≡ true) }
    ensures last { notes.new.last ≡ notes.old.last }
{
    let lead = before.saturating_add(section.lead);
    let fault = contradiction(&section.line, lead)?;
    let end = lead.saturating_add(section.line.attrs.len());
    let number = end.saturating_add(1);
    let detail = note_inner_end(notes, number, section.rest, fault.detail)?;
    let place = Place {
        line: before.saturating_add(1),
        column: 1,
    };
    notes.add(place, Code::Refused(fault.refusal), detail.as_str())
}

/// Says what stands on the lines of a section after so many lines.
fn note_lines(
    notes: &mut Notes,
    before: usize,
    text: &str,
    section: &Section<'_>,
) -> Result<(), AllocError>
    ensures { notes.new.last ≡ notes.old.last }
{
    let mut marks = Vec::new(notes.alloc());
    add_section(&mut marks, &section.line)?;
    let lead = before.saturating_add(section.lead);
    note_attributes(notes, lead, section.attributes, marks.as_slice())?;
    let printed = section.line.to_string(notes.alloc())?;
    note_printed(notes, before, text, printed.as_str(), marks.as_slice())
}

/// Says which section of those that the text begins with contradicts itself, and what stands in it and those before it.
fn note_refused_sections(notes: &mut Notes, before: usize, text: &str) -> Result<(), AllocError>
    ensures refused { OnOk result (is_refused notes.new.findings ≡ true) }
    ensures last { notes.new.last ≡ notes.old.last }
{
    let alloc = notes.alloc();
    let mut before = before;
    let mut rest = text;
    while let Some(found) = next_section(alloc, rest)? {
        let lead = before.saturating_add(found.lead);
        note_lines(notes, before, lines_before_rest(rest, found.rest), &found)?;
        if found.line.check_consistent()?.is_some() {
            return note_refused_section(notes, before, &found);
        }
        before = lead.saturating_add(found.line.attrs.len());
        rest = found.rest;
    }
    // (not reached: a text whose session is read is refused for one of its sections)
    let place = Place {
        line: before,
        column: 1,
    };
    notes.add(place, Code::Refused(Refusal::MissingMid), "")
}

/// Says what stands on the lines of a session.
fn note_session(notes: &mut Notes, text: &str, session: &Session) -> Result<(), AllocError>
    ensures { notes.new.last ≡ notes.old.last }
{
    let marks = session_marks(notes.alloc(), session.attrs.as_slice())?;
    note_attributes(notes, 0, text, marks.as_slice())?;
    let printed = session.to_string(notes.alloc())?;
    note_printed(notes, 0, text, printed.as_str(), marks.as_slice())
}

/// Says why a text is refused: which line of its header is at fault, or which section contradicts itself.
pub(crate) fn note_refused(notes: &mut Notes, text: &str) -> Result<(), AllocError>
    ensures refused { OnOk result (is_refused notes.new.findings ≡ true) }
    ensures last { notes.new.last ≡ notes.old.last }
{
    match session_parser(notes.alloc(), text) {
        Ok((session, rest)) => {
            note_session(notes, lines_before_rest(text, rest), &session)?;
            let before = line_count(text).saturating_sub(line_count(rest));
            note_refused_sections(notes, before, rest)
        }
        Err(SdpError::Memory) => Err(AllocError),
        Err(_) => note_header(notes, text),
    }
}
