//! Session descriptions as values: what a session and its sections say, when a section is
//! consistent, and how each item prints.
//!
//! - `attribute`: The attributes of sessions and of sections.
//!   - `bandwidth`: Proposed bandwidths.
//!   - `ext_map`: The lines of header extensions.
//!   - `feedback`: The feedback that a section speaks of, by payload type.
//!   - `fmtp`: The lines of format parameters.
//!   - `group`: The lines of a session that list names.
//!   - `media_type`: What a section carries.
//!   - `msid`: The streams that a section's media belongs to.
//!   - `proto`: What carries a section.
//!   - `random_msid`: Ids of streams and tracks that a generator draws.
//!   - `rid`: The lines of streams that may be restricted.
//!   - `rtp_map`: What a payload type stands for.
//!   - `setup`: Who begins the DTLS handshake.
//!   - `simulcast`: Streams that are sent and received in several layers.
//!   - `source`: The lines of sources.
//!   - `ssrc_group`: The lines of groups of sources.
//! - `form`: The forms in which lines print.
//!   - `printed`: Lists, pairs and lines of values as text.
//!   - `word`: Words of the program's own.
//! - `label`: The labels of attributes, as they stand after `a=`.
//! - `section`: Sections: what they say, when they are consistent, and their rows.
//!   - `alike`: Attributes that say the same once they are printed and read.
//!   - `attribute_values`: What an attribute of a section is, and what it holds.
//!   - `companions`: The payload types that go with another type, by type.
//!   - `consistency`: Which sections are consistent.
//!   - `fmtp_lines`: The fmtp lines of a payload type among those of a section.
//!   - `known_formats`: What the fmtp lines of a payload type say of a codec.
//!   - `made_section`: Sections that are made of rows.
//!   - `mappings`: Which codec each payload type of a section stands for.
//!   - `media_line`: The sections of a session description.
//!   - `row_attributes`: The attribute lines of a row.
//!   - `section_accessors`: What a section says, and its first fault.
//!   - `section_direction`: Which attribute says the direction of a section.
//!   - `section_rows`: The rows that a section describes.
//!   - `sources`: What is said of the sources of a section, in order of first appearance.
//!   - `ssrc_info`: The sources of a section.
//!   - `type_lines`: The fmtp lines of a section by payload type, and what they say of codecs, each made once.
//!   - `type_tables`: What a section says of each payload type, gathered in one pass over its attributes.
//! - `session`: Session descriptions.
//!   - `candidate_key`: Candidates in the order of their parts.
//!   - `candidates`: The candidates of sessions and of sections.
//!   - `distinct_candidates`: The candidates of a whole description, each once.
//!   - `error`: The error of reading and of checking session descriptions.
//!   - `fault`: Why sections and sessions aren't consistent.
//!   - `ordered_mids`: Mids in the order of their bytes.
//!   - `preferred_fingerprint`: Which of several fingerprints is preferred.
//!   - `sdp_accessors`: What a description says, in its session or in its sections.
//!   - `seen_candidates`: Candidates, each once, in order of first appearance.
//!   - `session_accessors`: What a session says.
//!   - `session_consistency`: Which sessions are consistent.
//!   - `transport`: What sessions and sections both say of their transport.
#![tactic(auto)]

mod attribute;
mod form;
pub mod label;
mod section;
mod session;

pub use attribute::bandwidth::Bandwidth;
pub use attribute::media_type::MediaType;
pub use attribute::msid::{Msid, is_no_stream};
pub use attribute::proto::Proto;
pub use attribute::rtp_map::RtpMap;
pub use attribute::setup::{SETUPS, Setup};
pub use attribute::simulcast::{RestrictionId, Simulcast, SimulcastGroups, SimulcastLayer};
pub use attribute::{MediaAttribute, SessionAttribute};
pub use form::word::Word;
pub use section::made_section::section_of;
pub use section::media_line::MediaLine;
pub use section::row_attributes::AsMediaAttrs;
pub use section::ssrc_info::SsrcInfo;
pub use session::candidates::Candidates;
pub use session::distinct_candidates::DistinctCandidates;
pub use session::error::SdpError;
pub use session::{Sdp, Session, VersionedSdp};
pub use str0m_values::FingerprintFmt;
