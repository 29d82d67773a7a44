//! Lists whose items have a character between them.
ghost use Rattle.std.specs.Prelude.{◌≡◌, ℕ, List, Option, IfOk, is_some};
ghost use Rattle.str0m_signal.specs.Prelude.{code};
ghost use Rattle.str0m_signal.specs.form.FormReading.{parted_read};

use crate::line::attributes::taken_attribute_result;
use std::alloc::{AllocError, Global};
use str0m_values::cuts::cut;
use str0m_values::{Items, Separator};

/// An item of a list.
pub(crate) trait Part {
    /// What it stands for.
    type Value: Drop;

    /// Which item a text is.
    ghost reading: { List ℕ → Option Self.Value };

    /// Whether the text is an item. Takes no memory.
    fn is_part(text: &str) -> bool
        ensures { result ≡ is_some (reading text.now) };

    /// The item of the text.
    fn read(alloc: Global, text: &str) -> Result<Option<Self::Value>, AllocError>
        ensures { IfOk result (λ found. found ≡ reading text.now) };
}

/// How many items the text is, with `at` between each two; `None` where it isn't items.
fn part_count<T: Part>(text: &str, at: Separator) -> Option<usize>
    ensures { is_some result ≡ is_some (parted_read (code at) T.reading text.now) }
{
    let mut count: usize = 1;
    let mut rest = text;
    while let Some((part, more)) = cut(rest, at) {
        if !T::is_part(part) {
            return None;
        }
        count = count.saturating_add(1);
        rest = more;
    }
    if T::is_part(rest) { Some(count) } else { None }
}

/// Whether the text is items with `at` between each two.
pub(crate) fn are_parts<T: Part>(text: &str, at: Separator) -> bool
    ensures { result ≡ is_some (parted_read (code at) T.reading text.now) }
{
    part_count::<T>(text, at).is_some()
}

/// The items of the text, in a list that has room for so many: no answer depends on it. Memory is taken for those that stand before
/// one that can't be read, too.
fn read_parts<T: Part>(
    alloc: Global,
    text: &str,
    at: Separator,
    count: usize,
) -> Result<Option<Items<T::Value>>, AllocError>
    ensures { IfOk result (λ found. found ≡ parted_read (code at) T.reading text.now) }
{
    let mut parts = Vec::with_capacity(alloc, count)?;
    let mut rest = text;
    while let Some((part, more)) = cut(rest, at) {
        if !taken_attribute_result(T::read(alloc, part), &mut parts)? {
            return Ok(None);
        }
        rest = more;
    }
    if taken_attribute_result(T::read(alloc, rest), &mut parts)? {
        Ok(Some(Items::from(parts)))
    } else {
        Ok(None)
    }
}

/// The items of the text, with `at` between each two. Memory is asked for only where all are items.
pub(crate) fn parts<T: Part>(
    alloc: Global,
    text: &str,
    at: Separator,
) -> Result<Option<Items<T::Value>>, AllocError>
    ensures { IfOk result (λ found. found ≡ parted_read (code at) T.reading text.now) }
{
    match part_count::<T>(text, at) {
        Some(count) => read_parts::<T>(alloc, text, at, count),
        None => Ok(None),
    }
}
