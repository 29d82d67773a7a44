//! The forms in which lines print.

pub(crate) mod printed;
pub(crate) mod word;
