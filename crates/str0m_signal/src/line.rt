//! Lines, and the pieces of which they are read.

pub(crate) mod attributes;
pub(crate) mod bare_values;
pub(crate) mod fields;
pub(crate) mod front;
pub(crate) mod heads;
pub(crate) mod lines;
pub(crate) mod pairs;
pub(crate) mod parts;
pub(crate) mod words;
