//! Sections: what they say, when they are consistent, and their rows.

pub(crate) mod alike;
pub(crate) mod attribute_values;
pub(crate) mod companions;
pub(crate) mod consistency;
pub(crate) mod fmtp_lines;
pub(crate) mod known_formats;
pub(crate) mod made_section;
pub(crate) mod mappings;
pub(crate) mod media_line;
pub(crate) mod row_attributes;
pub(crate) mod section_accessors;
pub(crate) mod section_direction;
pub(crate) mod section_rows;
pub(crate) mod sources;
pub(crate) mod ssrc_info;
pub(crate) mod type_lines;
pub(crate) mod type_tables;
