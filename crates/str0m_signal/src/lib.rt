//! Session descriptions read by the line grammar, and offers and answers made of them.
//!
//! - `back`: What is printed, read again.
//!   - `attributes_back`: Attributes of sessions and of sections, printed and read again.
//!   - `read_back`: What is printed, read again line by line.
//!   - `section_back`: The lines of a section, printed and read again.
//!   - `writable`: Whether rows may be printed in a session and are read again.
//! - `form`: The forms of attribute lines, and how each is read.
//!   - `candidate_line`: Lines with a candidate.
//!   - `ext_map`: Lines of header extensions.
//!   - `fingerprint`: Lines with the fingerprint of a certificate.
//!   - `fmtp`: Lines with the parameters of a format.
//!   - `groups`: Lines of a session that list names.
//!   - `media_attribute`: The attributes of a section.
//!   - `rid`: Lines of streams that may be restricted.
//!   - `rtp_map`: Lines that map a payload type to a codec.
//!   - `session_attribute`: The attributes of a session.
//!   - `simulcast`: Lines of streams in several layers.
//!   - `sources`: Lines of sources and of feedback.
//! - `line`: Lines, and the pieces of which they are read.
//!   - `attributes`: Attribute lines, and runs of them.
//!   - `bare_values`: The values of fmtp lines that have no keys.
//!   - `fields`: What fields of several lines share.
//!   - `front`: Numbers at the front of lines, before a space.
//!   - `heads`: The m-lines of sections.
//!   - `lines`: The lines of a text.
//!   - `pairs`: Pairs of a key and a value, parted by `;`.
//!   - `parts`: Lists whose items have a character between them.
//!   - `words`: The items of lists.
//! - `session`: Descriptions whole: their parts, their readers, and rounds over their texts.
//!   - `bandwidth`: Lines with a bandwidth.
//!   - `header`: The header of a description.
//!   - `locked`: The rows that rounds have locked.
//!   - `negotiation`: Rounds of negotiation over a whole text.
//!   - `offer`: Offers and answers: the description that one side proposes, and the one that settles it (RFC 3264).
//!   - `reader`: The readers of whole texts and of single lines.
//!   - `section`: The sections of a description.
#![tactic(auto)]

mod back;
mod form;
mod line;
mod session;

pub use back::writable::is_writable;
pub use session::locked::locked_rows;
pub use session::negotiation::negotiate_text;
pub use session::offer::{SdpAnswer, SdpOffer};
pub use session::reader::{
    candidate_attribute, media_attribute_line, sdp_parser, session_attribute_line, session_parser,
};
pub use str0m_formats::{
    ClaimMask, Claimed, Codec, CodecConfig, CodecSpec, FormatParam, FormatParams, KindRows,
    NegotiationError, PayloadParams, Round,
};
pub use str0m_sdp::{
    AsMediaAttrs, Bandwidth, Candidates, DistinctCandidates, MediaAttribute, MediaLine, MediaType,
    Msid, Proto, RestrictionId, RtpMap, SETUPS, Sdp, SdpError, Session, SessionAttribute, Setup,
    Simulcast, SimulcastGroups, SimulcastLayer, SsrcInfo, VersionedSdp, Word, is_no_stream,
    section_of,
};
pub use str0m_values::{
    Boxed, Candidate, CandidateKind, Direction, Extension, Fingerprint, FingerprintError,
    FingerprintFmt, Frequency, H264Level, H264Profile, H264ProfileLevel, H265Level, H265Profile,
    H265ProfileTierLevel, H265Tier, H266Level, H266Profile, H266ProfileTierLevel, H266Tier,
    IceCreds, IpAddr, Items, Leveled, MediaKind, Mid, Name, NoProfileLevel, Numbered,
    ProfileTierLevel, Protocol, Pt, Rid, SessionId, SocketAddr, Ssrc, TcpType, Text, lower_level,
};
