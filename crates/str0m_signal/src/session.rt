//! Descriptions whole: their parts, their readers, and rounds over their texts.

pub(crate) mod bandwidth;
pub(crate) mod header;
pub(crate) mod locked;
pub(crate) mod negotiation;
pub(crate) mod offer;
pub(crate) mod reader;
pub(crate) mod section;
