//! What is printed, read again line by line.

ghost use Rattle.std.specs.Prelude.{◌≡◌, ◌∷◌, ◌++◌, ◌↔◌, ◌&&◌, [], ℕ, List, Some, IfOk, IsTrue, option_copied};
ghost use Rattle.str0m_signal.specs.Prelude.{IsTheOnly, Lacks, lacks, printed_line_end};
ghost use Rattle.str0m_signal.specs.back.Writable.{AreReadAs, IsReadBackLine, IsReadBy, PutsBack};

use crate::line::attributes::{Attribute, line, taken_attribute_result};
use std::alloc::{AllocError, Global};
use std::fmt;
use str0m_values::cuts::has;
use str0m_values::{Items, Separator};

/// What prints one text, whatever writes it: `text` says which.
pub(crate) trait PrintedBack: fmt::Display {
    ghost text: { Self → List ℕ };

    ghost prints: { (item : Self) → Self.output item ≡ Some (text item) };
}

/// An attribute, and what may be read in its place.
pub(crate) trait ReadBack: Attribute {
    ghost GoesWith: { Self → Self → Type 0 };

    /// Whether the one that was read may stand in the place of this one.
    fn goes_with(&self, read: &Self) -> bool
        ensures { IsTrue result ↔ GoesWith self.now read.now };
}

fn has_no_end(line: &str) -> bool
    ensures { result ≡ lacks 10 line.now && lacks 13 line.now }
{
    !has(line, Separator::LineFeed) && !has(line, Separator::CarriageReturn)
}

/// The line without its end, where the text is one whole line.
pub(crate) fn line_content(text: &str) -> Option<&str>
    ensures { IsTheOnly (λ line. (text.now ≡ line ++ printed_line_end) × Lacks 10 line × Lacks 13 line) (option_copied result) }
{
    let line = text.strip_suffix("\r\n")?;
    if has_no_end(line) { Some(line) } else { None }
}

/// What was read, where it goes with the attribute.
fn fitting<A: ReadBack>(attr: &A, read: Option<A>) -> Option<A>
    ensures { IsTheOnly (λ fit. (read ≡ Some fit) × A.GoesWith attr.now fit) result }
{
    match read {
        Some(read) if attr.goes_with(&read) => Some(read),
        _ => None,
    }
}

/// What the attribute's line is read as, where it goes with the attribute.
fn line_back<A: ReadBack>(alloc: Global, attr: &A, text: &str) -> Result<Option<A>, AllocError>
    ensures { IfOk result (IsTheOnly (λ read. IsReadBackLine (IsReadBy A.reading) text.now read × A.GoesWith attr.now read)) }
{
    match line_content(text) {
        Some(content) => Ok(fitting(attr, line(alloc, content)?)),
        None => Ok(None),
    }
}

/// Puts what the text of the attribute is read as after the others, nothing where it is empty; whether it comes back.
fn text_back<A: ReadBack>(
    alloc: Global,
    attr: &A,
    text: &str,
    reads: &mut Vec<A>,
) -> Result<bool, AllocError>
    ensures { IfOk result (PutsBack (AreReadAs (λ _. text.now) (IsReadBy A.reading) A.GoesWith (attr.now ∷ [])) reads.old.items reads.new.items) }
{
    if text.is_empty() {
        return Ok(true);
    }
    taken_attribute_result(line_back(alloc, attr, text), reads)
}

/// Puts what the attribute comes back as, once it is printed and read, after the others; whether it comes back.
fn item_back<A: ReadBack + PrintedBack>(
    alloc: Global,
    attr: &A,
    reads: &mut Vec<A>,
) -> Result<bool, AllocError>
    ensures { IfOk result (PutsBack (AreReadAs A.text (IsReadBy A.reading) A.GoesWith (attr.now ∷ [])) reads.old.items reads.new.items) }
{
    let text = attr.to_string(alloc)?;
    text_back(alloc, attr, text.as_str(), reads)
}

/// What the attributes come back as, in order; `None` where one doesn't come back.
pub(crate) fn read_back<A: ReadBack + PrintedBack>(
    alloc: Global,
    attrs: &[A],
) -> Result<Option<Items<A>>, AllocError>
    ensures { IfOk result (IsTheOnly (AreReadAs A.text (IsReadBy A.reading) A.GoesWith attrs.now)) }
{
    let mut reads = Vec::new(alloc);
    for attr in attrs {
        if !item_back(alloc, attr, &mut reads)? {
            return Ok(None);
        }
    }
    Ok(Some(Items::from(reads)))
}
