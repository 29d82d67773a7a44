//! Which line of a header is at fault.
ghost use Rattle.lint.specs.Findings.{is_refused};
ghost use Rattle.std.specs.Prelude.{◌≡◌, true, OnOk};

use crate::code::{Code, Refusal};
use crate::fields::{is_bandwidth_field, is_field, is_info_field, is_origin_field};
use crate::lines::next_line;
use crate::notes::Notes;
use crate::part::{Part, Place};
use std::alloc::{AllocError, Global};

/// Why a text is refused by its first characters.
fn header_first_characters(text: &str) -> Option<Refusal> {
    if text.is_empty() {
        return Some(Refusal::EmptyText);
    }
    if text.starts_with('\u{feff}') {
        return Some(Refusal::ByteOrderMark);
    }
    match text.trim_start().bytes().next() {
        Some(b'{' | b'[' | b'"') => Some(Refusal::Json),
        _ => None,
    }
}

/// Which line of a header stands at a place.
#[derive(Clone, Copy)]
enum HeaderLine {
    Version,
    Origin,
    Name,
    Fields,
    Timing,
}

impl HeaderLine {
    /// The place after the line, where it is one that may stand at this place.
    fn behind(self, line: &str) -> Option<HeaderLine> {
        match self {
            HeaderLine::Version if line == "v=0" => Some(HeaderLine::Origin),
            HeaderLine::Origin if is_origin_field(line) => Some(HeaderLine::Name),
            HeaderLine::Name if is_field(line, "s=") => Some(HeaderLine::Fields),
            HeaderLine::Fields if is_info_field(line) => Some(HeaderLine::Fields),
            HeaderLine::Fields if is_bandwidth_field(line) => Some(HeaderLine::Timing),
            _ => None,
        }
    }

    /// What is said where another line stands there.
    fn refusal(self) -> Refusal {
        match self {
            HeaderLine::Version => Refusal::Version,
            HeaderLine::Origin => Refusal::Origin,
            HeaderLine::Name => Refusal::Name,
            HeaderLine::Fields | HeaderLine::Timing => Refusal::Timing,
        }
    }
}

/// The first line that may not stand where it does: what is said of it, how many lines stand before it, and the line, if the text has
/// it.
fn header_fault(text: &str) -> (Refusal, usize, Option<&str>) {
    let mut step = HeaderLine::Version;
    let mut before = 0usize;
    let mut rest = text;
    while let Some((line, after)) = next_line(rest) {
        match step.behind(line) {
            Some(next) => step = next,
            None => return (step.refusal(), before, Some(line)),
        }
        before = before.saturating_add(1);
        rest = after;
    }
    (step.refusal(), before, None)
}

/// What stands in a place.
fn header_line_standing(alloc: Global, line: Option<&str>) -> Result<String, AllocError> {
    let Some(line) = line else {
        return String::from_str(alloc, "the text ends before it");
    };
    if line.is_empty() {
        return String::from_str(alloc, "a blank line stands here");
    }
    let shown = Part::to_end(line).quoted(alloc)?;
    format!(in alloc; "{shown} stands here")
}

/// Says why the first lines of a text refuse it.
pub(crate) fn note_header(notes: &mut Notes, text: &str) -> Result<(), AllocError>
    ensures refused { OnOk result (is_refused notes.new.findings ≡ true) }
    ensures last { notes.new.last ≡ notes.old.last }
{
    if let Some(refusal) = header_first_characters(text) {
        let place = Place { line: 1, column: 1 };
        return notes.add(place, Code::Refused(refusal), "");
    }
    let (refusal, before, line) = header_fault(text);
    let detail = header_line_standing(notes.alloc(), line)?;
    let place = Place {
        line: before.saturating_add(1),
        column: 1,
    };
    notes.add(place, Code::Refused(refusal), detail.as_str())
}
