//! A description as JSON (RFC 8259), by the keys of sdp-transform, which reads descriptions in JavaScript. `description` has the
//! whole, `session` and `section` have their members in the order of the keys; `json_writer` writes; `head` has what stands in front
//! of attributes; the others what attributes and rows say. `findings` has what is found in a text.
//!
//! - `candidate`: Candidates (RFC 8839, section 5.1).
//! - `description`: The whole of a description.
//! - `findings`: What is found in a text.
//! - `formats`: What a section says of payload types and header extensions.
//! - `head`: What stands in front of the attributes of a session or of a section, as it prints (RFC 8866, sections 5.1 to 5.14).
//! - `json_writer`: JSON as it is written: objects and lists, one in another, each member and each item straight into the text.
//! - `lists`: Lists whose items are attributes.
//! - `rows`: The rows of a section.
//! - `section`: The members of a section, in the order of their keys.
//! - `section_lists`: The lists of a section.
//! - `session`: The members of a session, in the order of their keys.
//! - `session_lists`: The lists of a session.
//! - `streams`: What a section says of streams and sources.
//! - `transport`: What sessions and sections both say: of their transport, and lines that are kept unread.
//! - `words`: Parts of printed lines.
#![tactic(auto)]

mod candidate;
mod description;
mod findings;
mod formats;
mod head;
mod json_writer;
mod lists;
mod rows;
mod section;
mod section_lists;
mod session;
mod session_lists;
mod streams;
mod transport;
mod words;

pub use description::json_text;
pub use findings::{findings_text, record};
