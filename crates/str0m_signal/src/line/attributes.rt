//! Attribute lines, and runs of them.

ghost use Rattle.std.specs.Prelude.{◌≡◌, ℕ, List, Ok, Option, IfOk, codes, option_map};
ghost use Rattle.str0m_signal.specs.Prelude.{strip};
ghost use Rattle.str0m_signal.specs.line.Lines.{Run};
ghost use Rattle.str0m_signal.specs.line.LinesReading.{both_lines_left, lines_of, line_read, read_attribute, lines_left, ReadsTo, TakesLast};

use crate::line::lines::{BYTES_OF_A_LINE, behind_end, clean_line, cut_at_end};
use std::alloc::{AllocError, Global};
use str0m_values::Items;
use str0m_values::cuts::strip;

/// What a line of `a=` and a text may say: the attributes of sessions are one such table of forms,
/// those of sections another.
pub(crate) trait Attribute: Drop {
    /// Which attribute a text after `a=` stands for.
    ghost reading: { List ℕ → Option Self };

    /// Puts the attribute of the text after `a=` behind the others, where it is one; whether it is.
    fn take(alloc: Global, text: &str, place: &mut Vec<Self>) -> Result<bool, AllocError>
    where
        Self: Sized,
        ensures { IfOk result (TakesLast (reading text.now) place.old.items place.new.items) };
}

/// Puts what was found behind the others; whether there was anything.
#[inline(always)]
pub(crate) fn taken<A: Drop>(found: Option<A>, place: &mut Vec<A>) -> Result<bool, AllocError>
    ensures { IfOk result (TakesLast found place.old.items place.new.items) }
{
    match found {
        Some(item) => {
            place.push(item)?;
            Ok(true)
        }
        None => Ok(false),
    }
}

/// The same of what a form answers that asks for memory.
#[inline(always)]
pub(crate) fn taken_attribute_result<A: Drop>(
    answer: Result<Option<A>, AllocError>,
    place: &mut Vec<A>,
) -> Result<bool, AllocError>
    ensures { IfOk result (λ taken. (found : Option A) × (answer ≡ Ok found) × TakesLast found place.old.items place.new.items taken) }
{
    taken(answer?, place)
}

/// What the first line says after `a=`, and what follows that line. Where the text begins otherwise, as behind a run of such lines, the
/// line's end isn't looked for.
#[inline(always)]
fn attribute_content(text: &str) -> Option<(&str, &str)>
    ensures { option_map both_lines_left result ≡ line_read (strip (codes "a=")) (lines_of text.now) }
{
    let Some(body) = strip(text, "a=") else {
        return None;
    };
    let (content, end) = cut_at_end(body);
    match behind_end(end) {
        Some(rest) => Some((content, rest)),
        None => None,
    }
}

/// Puts the attribute of the line behind the others, where it is one; whether it is.
fn take_attribute_content<A: Attribute>(
    alloc: Global,
    line: &str,
    place: &mut Vec<A>,
) -> Result<bool, AllocError>
    ensures { IfOk result (TakesLast (read_attribute A.reading line.now) place.old.items place.new.items) }
{
    match strip(line, "a=") {
        Some(text) => A::take(alloc, text, place),
        None => Ok(false),
    }
}

/// The attribute of the line: of a list of one, so that the forms are compiled once, for lists.
pub(crate) fn line<A: Attribute>(alloc: Global, line: &str) -> Result<Option<A>, AllocError>
    ensures { IfOk result (λ found. found ≡ read_attribute A.reading line.now) }
{
    let mut found = Vec::with_capacity(alloc, 1)?;
    take_attribute_content(alloc, line, &mut found)?;
    Ok(found.pop())
}

/// The attribute of the first line, and what follows that line.
pub(crate) fn next_line<A: Attribute>(
    alloc: Global,
    text: &str,
) -> Result<Option<(A, &str)>, AllocError>
    ensures { IfOk result (λ found. option_map lines_left found ≡ line_read (read_attribute A.reading) (lines_of text.now)) }
{
    let Some((content, rest)) = clean_line(text) else {
        return Ok(None);
    };
    match line(alloc, content)? {
        Some(attribute) => Ok(Some((attribute, rest))),
        None => Ok(None),
    }
}

/// How many further items a list may keep room for.
const SPARE_ITEMS: usize = 4;

/// The items as they are held, which is for longer than they are read: room for many further ones is given back.
pub(crate) fn without_spare_room<T: Drop>(mut items: Vec<T>) -> Items<T>
    ensures { result ≡ items.items }
{
    if items.capacity().saturating_sub(items.len()) > SPARE_ITEMS {
        items.shrink_to_fit();
    }
    Items::from(items)
}

/// The run of attribute lines that stands next, in a list that has room for `usual` lines at first, where the text may have so
/// many: no answer depends on it.
pub(crate) fn attribute_run<A: Attribute>(
    alloc: Global,
    text: &str,
    usual: usize,
) -> Result<(Items<A>, &str), AllocError>
    ensures { IfOk result (λ found. Run (ReadsTo (read_attribute A.reading)) (lines_of text.now) found.0 (lines_of found.1.now)) }
{
    let likely = text.len() / BYTES_OF_A_LINE;
    let mut attributes = Vec::with_capacity(alloc, likely.min(usual))?;
    let mut rest = text;
    while let Some((content, after)) = attribute_content(rest) {
        if !A::take(alloc, content, &mut attributes)? {
            break;
        }
        rest = after;
    }
    Ok((without_spare_room(attributes), rest))
}
