//! Lines that are printed otherwise than they stand.
ghost use Rattle.lint.specs.Findings.{OnlyChanges, is_changed};
ghost use Rattle.lint.specs.Told.{told_of};
ghost use Rattle.std.specs.Prelude.{◌≡◌, ◌↔◌, OnOk, false, true};

use crate::code::{Change, Code};
use crate::fork::{fork, is_fork_of_spelling};
use crate::lines::{line_behind_space, line_column, next_line};
use crate::mark::Mark;
use crate::notes::Notes;
use crate::part::{Part, Place};
use crate::told::{Told, first_change};
use std::alloc::{AllocError, Global};
use str0m_values::cuts::strip;

/// The attributes and the printed text that are left.
#[derive(Clone, Copy)]
struct LeftForChanges<'a> {
    marks: &'a [Mark],
    printed: &'a str,
}

/// The next printed line that begins so, and the text after it.
fn next_printed<'a>(text: &'a str, letter: &str) -> Option<(&'a str, &'a str)> {
    let mut rest = text;
    while let Some((line, after)) = next_line(rest) {
        if strip(line, letter).is_some() {
            return Some((line, after));
        }
        rest = after;
    }
    None
}

/// What a text becomes where it is printed.
fn printed_change(alloc: Global, text: &str, printed: &str) -> Result<String, AllocError> {
    let shown = Part::to_end(text).quoted(alloc)?;
    if printed.is_empty() {
        return format!(in alloc; "{shown} is left out");
    }
    let printed = Part::to_end(printed).quoted(alloc)?;
    format!(in alloc; "{shown} becomes {printed}")
}

/// Says that a line of this number is printed otherwise, by what ends it and what is printed in the place of that.
fn note_change(
    notes: &mut Notes,
    number: usize,
    line: &str,
    ends: (&str, &str),
    change: Change,
) -> Result<(), AllocError>
    ensures only { OnOk result (OnlyChanges notes.old notes.new) }
    ensures last { notes.new.last ≡ notes.old.last }
{
    let (behind, printed) = ends;
    let detail = printed_change(notes.alloc(), behind, printed)?;
    let place = Place {
        line: number,
        column: line_column(line, behind),
    };
    notes.add(place, Code::Changed(change), detail.as_str())
}

/// Says what is lost of an attribute line, the next of those that are left. Returns what is left then.
fn note_lost_attribute<'a>(
    notes: &mut Notes,
    number: usize,
    line: &str,
    left: LeftForChanges<'a>,
) -> Result<LeftForChanges<'a>, AllocError>
    ensures only { OnOk result (OnlyChanges notes.old notes.new) }
    ensures last { notes.new.last ≡ notes.old.last }
{
    let Some((mark, marks)) = left.marks.split_first() else {
        return Ok(left);
    };
    let printed = left.printed;
    if let Mark::Unprinted = mark {
        note_change(
            notes,
            number,
            line,
            (line_behind_space(line), ""),
            mark.change(),
        )?;
        return Ok(LeftForChanges { marks, printed });
    }
    let Some((written, printed)) = next_printed(printed, "a=") else {
        return Ok(left);
    };
    if line != written {
        let change = if is_fork_of_spelling(line, written) {
            Change::Spelling
        } else {
            mark.change()
        };
        note_change(notes, number, line, fork(line, written), change)?;
    }
    Ok(LeftForChanges { marks, printed })
}

/// What is lost of an m-line, by what stands after its port and what is printed there.
fn media_change(rest: &str, written: &str) -> Change {
    if line_behind_space(rest) == line_behind_space(written) {
        Change::Protocol
    } else {
        Change::Formats
    }
}

/// Says what is lost of an m-line. Returns what is left then.
fn note_media<'a>(
    notes: &mut Notes,
    number: usize,
    line: &str,
    left: LeftForChanges<'a>,
) -> Result<LeftForChanges<'a>, AllocError>
    ensures only { OnOk result (OnlyChanges notes.old notes.new) }
    ensures last { notes.new.last ≡ notes.old.last }
{
    let Some((written, printed)) = next_printed(left.printed, "m=") else {
        return Ok(left);
    };
    let (told, other) = (Told::of(line), Told::of(written));
    if !told.is_same(other) {
        let change = media_change(told.rest, other.rest);
        note_change(notes, number, line, fork(told.rest, other.rest), change)?;
    }
    let marks = left.marks;
    Ok(LeftForChanges { marks, printed })
}

/// Says what is lost of a line. Returns what is left then.
fn note_lost<'a>(
    notes: &mut Notes,
    number: usize,
    line: &str,
    left: LeftForChanges<'a>,
) -> Result<LeftForChanges<'a>, AllocError>
    ensures only { OnOk result (OnlyChanges notes.old notes.new) }
    ensures last { notes.new.last ≡ notes.old.last }
{
    match line.get(..2) {
        Some("a=") => note_lost_attribute(notes, number, line, left),
        Some("m=") => note_media(notes, number, line, left),
        Some("i=" | "u=" | "e=" | "p=" | "z=" | "k=") => {
            note_change(notes, number, line, (line, ""), Change::HeaderLine)?;
            Ok(left)
        }
        _ => Ok(left),
    }
}

/// Says what is lost of each line of a text after so many lines, by what is printed of all, and the marks of its attributes.
pub(crate) fn note_printed(
    notes: &mut Notes,
    before: usize,
    text: &str,
    printed: &str,
    marks: &[Mark],
) -> Result<(), AllocError>
    ensures only { OnOk result (OnlyChanges notes.old notes.new) }
    ensures last { notes.new.last ≡ notes.old.last }
{
    let mut left = LeftForChanges { marks, printed };
    let mut rest = text;
    let mut passed = before;
    while let Some((line, after)) = next_line(rest) {
        passed = passed.saturating_add(1);
        left = note_lost(notes, passed, line, left)?;
        rest = after;
    }
    Ok(())
}

/// Says that a line is printed otherwise, where this isn't said yet.
fn note_first(notes: &mut Notes, number: usize) -> Result<(), AllocError>
    ensures only { OnOk result (OnlyChanges notes.old notes.new) }
    ensures said { OnOk result (is_changed notes.new.findings ≡ true) }
    ensures last { notes.new.last ≡ notes.old.last }
{
    if notes.say_change() {
        return Ok(());
    }
    let place = Place {
        line: number,
        column: 1,
    };
    notes.add(place, Code::Changed(Change::Spelling), "")
}

/// Says which lines of a text are printed otherwise than they stand, by what is printed of it and the marks of its attributes.
pub(crate) fn note_changes(
    notes: &mut Notes,
    text: &str,
    printed: &str,
    marks: &[Mark],
) -> Result<(), AllocError>
    ensures only { OnOk result (OnlyChanges notes.old notes.new) }
    ensures changed { is_changed notes.old.findings ≡ false
        → OnOk result ((is_changed notes.new.findings ≡ false) ↔ (told_of text.now ≡ told_of printed.now)) }
    ensures last { notes.new.last ≡ notes.old.last }
{
    let Some(first) = first_change(text, printed) else {
        return Ok(());
    };
    note_printed(notes, 0, text, printed, marks)?;
    note_first(notes, first)
}
