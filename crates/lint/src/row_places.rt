//! On which lines the rows of sections stand.

use crate::lines::next_line;
use str0m_sdp::{MediaAttribute, MediaLine};
use str0m_values::Pt;
use str0m_values::cuts::strip;

/// The lines of a section: of its m-line, and of the mapping of each payload type, that of the m-line where there is none.
#[derive(Clone, Copy)]
pub(crate) struct RowPlaces {
    pub(crate) head: usize,
    mapped: [usize; 256],
}

impl RowPlaces {
    /// The line of a row under this type.
    pub(crate) fn of(&self, pt: Pt) -> usize {
        self.mapped[usize::from(pt.value())]
    }
}

/// The text that is left, and how many lines stand before it.
#[derive(Clone, Copy)]
pub(crate) struct PlaceCursor<'a> {
    rest: &'a str,
    passed: usize,
}

impl<'a> PlaceCursor<'a> {
    pub(crate) fn of(text: &'a str) -> PlaceCursor<'a> {
        PlaceCursor {
            rest: text,
            passed: 0,
        }
    }
}

/// After the next line that begins so; where none does, after the last line.
fn next_place<'a>(from: PlaceCursor<'a>, letter: &str) -> PlaceCursor<'a> {
    let mut rest = from.rest;
    let mut passed = from.passed;
    while let Some((line, after)) = next_line(rest) {
        passed = passed.saturating_add(1);
        if strip(line, letter).is_some() {
            return PlaceCursor {
                rest: after,
                passed,
            };
        }
        rest = after;
    }
    PlaceCursor { rest, passed }
}

/// The lines of the section that stands next, and the place after it.
pub(crate) fn next_places<'a>(
    from: PlaceCursor<'a>,
    section: &MediaLine,
) -> (RowPlaces, PlaceCursor<'a>) {
    let mut at = next_place(from, "m=");
    let head = at.passed;
    let mut mapped = [head; 256];
    for attribute in section.attrs.as_slice() {
        at = next_place(at, "a=");
        if let MediaAttribute::RtpMap { pt, .. } = attribute {
            mapped[usize::from(pt.value())] = at.passed;
        }
    }
    (RowPlaces { head, mapped }, at)
}
