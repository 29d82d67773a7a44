//! Values that session descriptions speak of, and the parts that their lines are made of.
//!
//! - `address`: IP addresses.
//! - `boxed`: A value in memory of its own that contracts see as the value.
//! - `candidate`: Candidates.
//! - `candidate_kind`: Where the address of a candidate comes from.
//! - `candidate_label`: What stands in front of each part of a candidate.
//! - `candidate_text`: The text of a candidate, for the readers of lines.
//! - `cuts`: The parts of a line: what the readers of the crates above cut texts with.
//! - `digit_values`: What a byte is worth as a digit.
//! - `direction`: The ways in which media flow.
//! - `direction_label`: The words of directions, as attributes of a section say them (RFC 8866, section 6.7).
//! - `extension`: Header extensions of RTP.
//! - `fingerprint`: Fingerprints of certificates.
//! - `frequency`: Clock rates.
//! - `h264`: Profiles and levels of H264.
//! - `h265`: Profiles, tiers and levels of H265.
//! - `h266`: Profiles, tiers and levels of H266.
//! - `ice_creds`: The credentials of an ICE agent.
//! - `identifier`: The names of media sections, and of the streams in them.
//! - `items`: A list of values that contracts see as the list of its items.
//! - `known_extension`: The header extensions that browsers write.
//! - `labels`: Words after labels.
//! - `media_kind`: Kinds of media.
//! - `name`: A name that contracts see as its bytes.
//! - `payload_type`: Payload types.
//! - `profile_tier_level`: What H265 and H266 say of a stream: a profile, a tier and a level.
//! - `protocol`: The transports that carry a candidate.
//! - `separator`: The characters that lines are cut at.
//! - `session_id`: The numbers of sessions.
//! - `short_text`: Texts of at most sixteen bytes, kept in place.
//! - `ssrc`: Synchronization sources.
//! - `text`: A text that contracts see as its bytes.
//! - `words`: Enumerations each of whose cases has a word.
#![tactic(auto)]

mod address;
mod boxed;
mod candidate;
mod candidate_kind;
pub mod candidate_label;
pub mod candidate_text;
pub mod cuts;
pub mod digit_values;
mod direction;
pub mod direction_label;
mod extension;
mod fingerprint;
mod frequency;
mod h264;
mod h265;
mod h266;
mod ice_creds;
mod identifier;
mod items;
mod known_extension;
mod labels;
mod media_kind;
mod name;
mod payload_type;
mod profile_tier_level;
mod protocol;
mod separator;
mod session_id;
mod short_text;
mod ssrc;
mod text;
mod words;

pub use address::{IpAddr, SocketAddr};
pub use boxed::Boxed;
pub use candidate::Candidate;
pub use candidate_kind::CandidateKind;
pub use direction::Direction;
pub use extension::Extension;
pub use fingerprint::{Fingerprint, FingerprintError, FingerprintFmt};
pub use frequency::Frequency;
pub use h264::{H264Level, H264Profile, H264ProfileLevel, NoProfileLevel, lower_level};
pub use h265::{H265Level, H265Profile, H265ProfileTierLevel, H265Tier};
pub use h266::{H266Level, H266Profile, H266ProfileTierLevel, H266Tier};
pub use ice_creds::IceCreds;
pub use identifier::{Mid, Rid};
pub use items::Items;
pub use media_kind::MediaKind;
pub use name::Name;
pub use payload_type::Pt;
pub use profile_tier_level::{Leveled, Numbered, ProfileTierLevel};
pub use protocol::{Protocol, TcpType};
pub use separator::Separator;
pub use session_id::SessionId;
pub use ssrc::Ssrc;
pub use text::Text;
pub use words::{Worded, case_alike, case_of};
