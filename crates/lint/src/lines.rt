//! The lines of a text, and how many there are.
ghost use Rattle.lint.specs.Lines.{IsLineWithoutReturn, NextLine};
ghost use Rattle.lint.specs.Prelude.{lines_of};
ghost use Rattle.std.specs.Prelude.{◌≡◌, ◌<◌, IfSome, [], length};

use str0m_values::Separator;
use str0m_values::cuts::cut;

/// The text without the carriage return that ends it.
fn line_without_return(line: &str) -> &str
    ensures { IsLineWithoutReturn line.now result.now }
{
    line.strip_suffix('\r').unwrap_or(line)
}

/// The first line without its end, and the text after it.
#[tactic(auto, using(crate::proofs::LineLaws::line_at_end, crate::proofs::LineLaws::no_line))]
pub(crate) fn next_line(text: &str) -> Option<(&str, &str)>
    ensures line { NextLine text.now result }
    ensures shorter { IfSome result (λ found. length found.1.now < length text.now) }
{
    if text.is_empty() {
        return None;
    }
    match cut(text, Separator::LineFeed) {
        Some((line, rest)) => Some((line_without_return(line), rest)),
        None => Some((text, "")),
    }
}

/// How many lines a text has.
pub(crate) fn line_count(text: &str) -> usize
    ensures { result ≡ length (lines_of text.now) }
{
    let mut count = 0;
    let mut rest = text;
    while let Some((_, after)) = next_line(rest) {
        count += 1;
        rest = after;
    }
    count
}

/// How many characters stand before a text that ends the line, counted from 1: the column at which that text begins.
pub(crate) fn line_column(line: &str, behind: &str) -> usize {
    let before = line.chars().count().saturating_sub(behind.chars().count());
    before.saturating_add(1)
}

/// What stands after the first space of a line, or the line.
pub(crate) fn line_behind_space(line: &str) -> &str {
    match cut(line, Separator::Space) {
        Some((_, value)) => value,
        None => line,
    }
}

/// The text before the rest of it; all of it where there is no rest.
pub(crate) fn lines_before_rest<'a>(text: &'a str, rest: &str) -> &'a str
    ensures { rest.now ≡ [] → result.now ≡ text.now }
{
    if rest.is_empty() {
        return text;
    }
    let end = text.len().saturating_sub(rest.len());
    text.get(..end).unwrap_or(text)
}
