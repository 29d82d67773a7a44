//! What the lines of a text say, but for what printing fixes.
ghost use Rattle.lint.specs.Told.{NextTold, line_told, shown_told, told_of, told_ported, told_whole};
ghost use Rattle.std.specs.Prelude.{◌≡◌, ◌<◌, ◌↔◌, IsTrue, IfSome, MatchOption, length, option_map};

use crate::lines::next_line;
use str0m_values::Separator;
use str0m_values::cuts::{cut, strip};

/// Of an m-line its type with `m=`, whether its port is 0, and what stands after the port; of another line the whole of it.
#[derive(Clone, Copy)]
pub(crate) struct Told<'a> {
    pub(crate) kind: &'a str,
    pub(crate) stopped: bool,
    pub(crate) rest: &'a str,
}

impl<'a> Told<'a> {
    fn whole(line: &'a str) -> Told<'a>
        ensures { shown_told result ≡ told_whole line.now }
    {
        Told {
            kind: "",
            stopped: false,
            rest: line,
        }
    }

    /// An m-line by its parts, where a space stands before and after its port.
    fn ported(line: &'a str) -> Option<Told<'a>>
        ensures { option_map shown_told result ≡ told_ported line.now }
    {
        let (kind, behind) = cut(line, Separator::Space)?;
        let (port, rest) = cut(behind, Separator::Space)?;
        let stopped = port == "0";
        Some(Told {
            kind,
            stopped,
            rest,
        })
    }

    /// What a line says: printing fixes origin and name of a session, and each port but 0.
    pub(crate) fn of(line: &'a str) -> Told<'a>
        ensures { shown_told result ≡ line_told line.now }
    {
        if strip(line, "o=").is_some() {
            return Told::whole("o=");
        }
        if strip(line, "s=").is_some() {
            return Told::whole("s=");
        }
        if strip(line, "m=").is_none() {
            return Told::whole(line);
        }
        match Told::ported(line) {
            Some(told) => told,
            None => Told::whole(line),
        }
    }

    /// Whether two lines say the same.
    pub(crate) fn is_same(self, other: Told<'_>) -> bool
        ensures { IsTrue result ↔ (shown_told self.entry ≡ shown_told other.entry) }
    {
        self.kind == other.kind && self.stopped == other.stopped && self.rest == other.rest
    }
}

/// A line that is told, how many lines stand before the text after it, and that text.
#[derive(Clone, Copy)]
pub(crate) struct NextToldLine<'a> {
    pub(crate) line: Told<'a>,
    pub(crate) lines: usize,
    pub(crate) rest: &'a str,
}

/// The first line of a text but for `c=` lines, which printing fixes.
fn next_told(text: &str) -> Option<NextToldLine<'_>>
    ensures told { NextTold text.now result }
    ensures shorter { IfSome result (λ next. length next.rest.now < length text.now) }
{
    let mut lines = 0usize;
    let mut rest = text;
    while let Some((line, after)) = next_line(rest) {
        lines = lines.saturating_add(1);
        if strip(line, "c=").is_none() {
            return Some(NextToldLine {
                line: Told::of(line),
                lines,
                rest: after,
            });
        }
        rest = after;
    }
    None
}

/// The number of the first line of a text that says something else than what is printed of it, counted without what printing fixes;
/// that of its last line where more is printed. None where both say the same.
pub(crate) fn first_change(text: &str, printed: &str) -> Option<usize>
    ensures { MatchOption result (told_of text.now ≡ told_of printed.now) (λ line. told_of text.now ≡ told_of printed.now → ⊥) }
{
    let mut passed = 0usize;
    let (mut left, mut right) = (text, printed);
    while let Some(next) = next_told(left) {
        passed = passed.saturating_add(next.lines);
        match next_told(right) {
            Some(other) if next.line.is_same(other.line) => right = other.rest,
            _ => return Some(passed),
        }
        left = next.rest;
    }
    match next_told(right) {
        Some(_) => Some(passed),
        None => None,
    }
}
