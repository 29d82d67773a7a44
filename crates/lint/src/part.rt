//! Places of a text, and parts of its lines as they are shown.

use std::alloc::{AllocError, Global};

/// Where in a text something is found: the number of the line and the column, each from 1.
#[derive(Clone, Copy)]
pub(crate) struct Place {
    pub(crate) line: usize,
    pub(crate) column: usize,
}

/// A part of a line that is at fault: as it is shown, and with what stands after it up to the line's end.
#[derive(Clone, Copy)]
pub(crate) struct Part<'a> {
    pub(crate) shown: &'a str,
    pub(crate) behind: &'a str,
}

/// The most bytes that are shown of a part.
const SHOWN_PART_BYTES: usize = 60;

impl<'a> Part<'a> {
    /// A part that ends the line.
    pub(crate) fn to_end(text: &'a str) -> Part<'a> {
        Part {
            shown: text,
            behind: text,
        }
    }

    /// The part in quotes, or its beginning where it is long; nothing for an empty one.
    pub(crate) fn quoted(self, alloc: Global) -> Result<String, AllocError> {
        let whole = self.shown;
        if whole.is_empty() {
            return Ok(String::new(alloc));
        }
        let shown = whole
            .get(..whole.floor_char_boundary(SHOWN_PART_BYTES))
            .unwrap_or("");
        let dots = if shown.len() < whole.len() { ".." } else { "" };
        format!(in alloc; "`{shown}{dots}`")
    }
}
