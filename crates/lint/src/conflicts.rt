//! What lines of a description say against each other.
ghost use Rattle.lint.specs.Findings.{AddsOtherFindings};
ghost use Rattle.std.specs.Prelude.{◌≡◌, OnOk};

use crate::code::{Code, Conflict};
use crate::groups::{note_grouping, note_groups};
use crate::lines::next_line;
use crate::notes::Notes;
use crate::part::{Part, Place};
use crate::types::Types;
use crate::written::{gains_written_types, head_fault, takes_rows};
use std::alloc::{AllocError, Global};
use std::collections::BTreeSet;
use str0m_sdp::{MediaAttribute, MediaLine, Sdp};
use str0m_values::cuts::strip;
use str0m_values::{Mid, Pt};

/// The numbers of the lines of attributes and of m-lines, in order: of the session, and of each section its m-line first.
fn lines_of(alloc: Global, text: &str) -> Result<Vec<usize>, AllocError> {
    let mut lines = Vec::new(alloc);
    let mut rest = text;
    let mut passed = 0usize;
    while let Some((line, after)) = next_line(rest) {
        passed = passed.saturating_add(1);
        if strip(line, "a=").is_some() || strip(line, "m=").is_some() {
            lines.push(passed)?;
        }
        rest = after;
    }
    Ok(lines)
}

/// The number of the line that stands there; a number after all lines where there is none.
pub(crate) fn conflict_line_number(lines: &[usize], at: usize) -> usize {
    lines.get(at).copied().unwrap_or(usize::MAX)
}

/// The lines after so many.
fn lines_behind(lines: &[usize], count: usize) -> &[usize] {
    lines.get(count..).unwrap_or(&[])
}

/// Says that a line contradicts others.
pub(crate) fn note_conflict(
    notes: &mut Notes,
    number: usize,
    conflict: Conflict,
    detail: &str,
) -> Result<(), AllocError>
    ensures others { OnOk result (AddsOtherFindings notes.old notes.new) }
    ensures last { notes.new.last ≡ notes.old.last }
{
    let place = Place {
        line: number,
        column: 1,
    };
    notes.add(place, Code::Contradiction(conflict), detail)
}

/// Says that a line contradicts others by the name of a section.
pub(crate) fn note_mid(
    notes: &mut Notes,
    number: usize,
    conflict: Conflict,
    mid: Mid,
) -> Result<(), AllocError>
    ensures others { OnOk result (AddsOtherFindings notes.old notes.new) }
    ensures last { notes.new.last ≡ notes.old.last }
{
    let name = Part::to_end(mid.as_str()).quoted(notes.alloc())?;
    note_conflict(notes, number, conflict, name.as_str())
}

/// Says that a line contradicts others by what it says of a payload type.
fn note_type(notes: &mut Notes, number: usize, conflict: Conflict, pt: Pt) -> Result<(), AllocError>
    ensures others { OnOk result (AddsOtherFindings notes.old notes.new) }
    ensures last { notes.new.last ≡ notes.old.last }
{
    let detail = format!(in notes.alloc(); "type {pt}")?;
    note_conflict(notes, number, conflict, detail.as_str())
}

/// What the lines of a section are looked at with: the numbers of its m-line and of the lines of its attributes, and whether rows may be
/// written into it and into another one.
#[derive(Clone, Copy)]
struct SectionLines<'a> {
    line: &'a MediaLine,
    numbers: &'a [usize],
    some_take_rows: bool,
    others_take_rows: bool,
}

/// Says what an m-line says against the lines of its section.
fn note_head(
    notes: &mut Notes,
    section: SectionLines<'_>,
    types: &Types<'_>,
) -> Result<(), AllocError>
    ensures others { OnOk result (AddsOtherFindings notes.old notes.new) }
    ensures last { notes.new.last ≡ notes.old.last }
{
    let number = conflict_line_number(section.numbers, 0);
    if let Some(pt) = types.static_of_other_kind() {
        note_type(notes, number, Conflict::OtherKind, pt)?;
    }
    match head_fault(section.line) {
        Some(fault) if section.others_take_rows => note_conflict(
            notes,
            number,
            Conflict::NotWritable,
            fault,
        ),
        _ => Ok(()),
    }
}

/// Says what a line of a section says against the others.
fn note_line_conflict(
    notes: &mut Notes,
    number: usize,
    types: &Types<'_>,
    attribute: &MediaAttribute,
) -> Result<(), AllocError>
    ensures others { OnOk result (AddsOtherFindings notes.old notes.new) }
    ensures last { notes.new.last ≡ notes.old.last }
{
    match types.conflict(attribute) {
        Some((conflict, pt)) => note_type(notes, number, conflict, pt),
        None => Ok(()),
    }
}

/// Says that the line of a stream is printed with payload types, where it is.
fn note_stream(
    notes: &mut Notes,
    number: usize,
    attribute: &MediaAttribute,
) -> Result<(), AllocError>
    ensures others { OnOk result (AddsOtherFindings notes.old notes.new) }
    ensures last { notes.new.last ≡ notes.old.last }
{
    if gains_written_types(notes.alloc(), attribute)? {
        return note_conflict(
            notes,
            number,
            Conflict::NotWritable,
            "`pt` is printed as payload types",
        );
    }
    Ok(())
}

/// Says what the lines of a section say against each other.
fn note_section(notes: &mut Notes, section: SectionLines<'_>) -> Result<(), AllocError>
    ensures others { OnOk result (AddsOtherFindings notes.old notes.new) }
    ensures last { notes.new.last ≡ notes.old.last }
{
    let types = Types::of(section.line);
    note_head(notes, section, &types)?;
    let numbers = lines_behind(section.numbers, 1);
    for (i, attribute) in section.line.attrs.as_slice().iter().enumerate() {
        let number = conflict_line_number(numbers, i);
        note_line_conflict(notes, number, &types, attribute)?;
        if section.some_take_rows {
            note_stream(notes, number, attribute)?;
        }
    }
    Ok(())
}

/// The mid of a section, and how many attributes stand before it.
fn conflict_mid_of(section: &MediaLine) -> Option<(usize, &Mid)> {
    for (i, attribute) in section.attrs.as_slice().iter().enumerate() {
        if let MediaAttribute::Mid(mid) = attribute {
            return Some((i, mid));
        }
    }
    None
}

/// How many sections rows may be written into.
fn count_sections_taking(sections: &[MediaLine]) -> usize {
    sections
        .iter()
        .filter(|section| takes_rows(section))
        .count()
}

/// Says what the lines of sections say against each other, which stand on these lines.
fn note_sections(
    notes: &mut Notes,
    lines: &[usize],
    sections: &[MediaLine],
) -> Result<(), AllocError>
    ensures others { OnOk result (AddsOtherFindings notes.old notes.new) }
    ensures last { notes.new.last ≡ notes.old.last }
{
    let taking = count_sections_taking(sections);
    let mut seen = BTreeSet::new(notes.alloc());
    let mut numbers = lines;
    for line in sections {
        if let Some((i, mid)) = conflict_mid_of(line) {
            if !seen.insert(mid.as_str())? {
                let number = conflict_line_number(numbers, i.saturating_add(1));
                note_mid(notes, number, Conflict::RepeatedMid, *mid)?;
            }
        }
        let section = SectionLines {
            line,
            numbers,
            some_take_rows: taking > 0,
            others_take_rows: taking > usize::from(takes_rows(line)),
        };
        note_section(notes, section)?;
        numbers = lines_behind(numbers, line.attrs.len().saturating_add(1));
    }
    Ok(())
}

/// The mids of sections.
fn mids_of_sections(alloc: Global, sections: &[MediaLine]) -> Result<BTreeSet<&str>, AllocError> {
    let mut names = BTreeSet::new(alloc);
    for section in sections {
        if let Some((_, mid)) = conflict_mid_of(section) {
            names.insert(mid.as_str())?;
        }
    }
    Ok(names)
}

/// Says what the lines of a text say against each other, and whether its sections are grouped as they stand. A group may stand after a
/// text of which no section is read and the reading ended.
pub(crate) fn note_conflicts(
    notes: &mut Notes,
    text: &str,
    sdp: &Sdp,
    is_whole: bool,
) -> Result<(), AllocError>
    ensures others { OnOk result (AddsOtherFindings notes.old notes.new) }
    ensures last { notes.new.last ≡ notes.old.last }
{
    let alloc = notes.alloc();
    let lines = lines_of(alloc, text)?;
    let lines = lines.as_slice();
    let sections = sdp.media_lines.as_slice();
    let names = mids_of_sections(alloc, sections)?;
    let attributes = sdp.session.attrs.as_slice();
    note_groups(notes, lines, attributes, &names)?;
    if is_whole || !sections.is_empty() {
        note_grouping(notes, lines, sdp, &names)?;
    }
    note_sections(notes, lines_behind(lines, attributes.len()), sections)
}
