//! What is found on attribute lines.
ghost use Rattle.lint.specs.Findings.{KeepsUnread, NotesLine};
ghost use Rattle.lint.specs.Kept.{is_unread, kept_at};
ghost use Rattle.lint.specs.Lines.{IsLineNumber, attribute_numbers};
ghost use Rattle.lint.specs.Prelude.{lines_of};
ghost use Rattle.std.specs.Prelude.{◌≡◌, ◌+◌, ◌≤◌, IfOk, OnOk, [], ◌∷◌, length, map, if◌then◌else◌};

use crate::code::Code;
use crate::kept::why_kept;
use crate::lines::{line_behind_space, next_line};
use crate::mark::Mark;
use crate::notes::Notes;
use crate::part::Part;
use std::alloc::AllocError;
use str0m_values::cuts::strip;

/// Says what there is to be said of an attribute by its mark, whose text after `a=` is handed over with its line.
fn note_attribute(
    notes: &mut Notes,
    number: usize,
    line: &str,
    text: &str,
    mark: Mark,
) -> Result<(), AllocError>
    ensures keeps { IsLineNumber notes.old.last number
        → OnOk result (KeepsUnread (if is_unread mark then number ∷ [] else []) notes.old notes.new) }
    ensures last { notes.new.last ≡ notes.old.last }
{
    match mark {
        Mark::Kept(level) => {
            let found = why_kept(level, text);
            notes.add_part(number, line, found.code, found.part)
        }
        Mark::Unseen(unseen) => {
            let part = Part::to_end(line_behind_space(line));
            notes.add_part(number, line, Code::Unseen(unseen), part)
        }
        Mark::Read(_) | Mark::Unprinted => Ok(()),
    }
}

/// Says what there is to be said of a line of this number, where it is an attribute line: of the first of the attributes that are left.
/// Returns those that are left then.
fn note_line<'a>(
    notes: &mut Notes,
    number: usize,
    line: &str,
    left: &'a [Mark],
) -> Result<&'a [Mark], AllocError>
    ensures notes { IsLineNumber notes.old.last number
        → IfOk result (λ more. NotesLine number line.now left.now more.now notes.old notes.new) }
    ensures last { notes.new.last ≡ notes.old.last }
{
    let Some(text) = strip(line, "a=") else {
        return Ok(left);
    };
    let Some((one, more)) = left.split_first() else {
        return Ok(left);
    };
    note_attribute(notes, number, line, text, *one)?;
    Ok(more)
}

/// Says what there is to be said of attributes, each of which stands on the next attribute line; so many lines stand before these.
pub(crate) fn note_attributes(
    notes: &mut Notes,
    before: usize,
    text: &str,
    marks: &[Mark],
) -> Result<(), AllocError>
    ensures keeps { before + length (lines_of text.now) ≤ notes.old.last
        → OnOk result (KeepsUnread (kept_at (map is_unread marks.now) (attribute_numbers (before + 1) (lines_of text.now))) notes.old notes.new) }
    ensures last { notes.new.last ≡ notes.old.last }
{
    let mut left = marks;
    let mut rest = text;
    let mut passed = before;
    while let Some((line, after)) = next_line(rest) {
        passed = passed.saturating_add(1);
        left = note_line(notes, passed, line, left)?;
        rest = after;
    }
    Ok(())
}
