//! What is printed, read again.

pub(crate) mod attributes_back;
pub(crate) mod read_back;
pub(crate) mod section_back;
pub(crate) mod writable;
