//! Sections of descriptions, and what is asked of each.

pub(crate) mod places;
pub(crate) mod reached;
pub(crate) mod repeated_lines;
pub(crate) mod restart;
pub(crate) mod round_names;
pub(crate) mod stopped;
pub(crate) mod trickled;
