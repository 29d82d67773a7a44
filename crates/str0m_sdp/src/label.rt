//! The labels of attributes, as they stand after `a=`, with the colon where a value follows (RFC 8866,
//! section 6; an attribute without a value is its label alone), media types, protocols and feedback.

pub use str0m_values::direction_label::{INACTIVE, RECV_ONLY, SEND_ONLY, SEND_RECV};

/// The port and address of RTCP (RFC 3605).
pub const RTCP: &str = "rtcp:";
/// The user fragment of ICE (RFC 8839, section 5.4).
pub const ICE_UFRAG: &str = "ice-ufrag:";
/// The password of ICE (RFC 8839, section 5.4).
pub const ICE_PWD: &str = "ice-pwd:";
/// Options of ICE (RFC 8839, section 5.6).
pub const ICE_OPTIONS: &str = "ice-options:";
/// The fingerprint of a certificate (RFC 8122, section 5).
pub const FINGERPRINT: &str = "fingerprint:";
/// The role in DTLS (RFC 4145, section 4; RFC 8842).
pub const SETUP: &str = "setup:";
/// The identification of a section (RFC 5888, section 4).
pub const MID: &str = "mid:";
/// The port of SCTP (RFC 8841, section 5).
pub const SCTP_PORT: &str = "sctp-port:";
/// The largest message in bytes (RFC 8841, section 6).
pub const MAX_MESSAGE_SIZE: &str = "max-message-size:";
/// The first packet of SCTP, as browsers send it ahead.
pub const SCTP_INIT: &str = "sctp-init:";
/// A header extension (RFC 8285, section 5).
pub const EXTMAP: &str = "extmap:";
/// The stream and track of a section (RFC 8830, section 2).
pub const MSID: &str = "msid:";
/// The codec of a payload type (RFC 8866, section 6.6).
pub const RTPMAP: &str = "rtpmap:";
/// Feedback for a payload type (RFC 4585, section 4.2).
pub const RTCP_FB: &str = "rtcp-fb:";
/// Parameters of a payload type (RFC 8866, section 6.15).
pub const FMTP: &str = "fmtp:";
/// A restriction of a stream (RFC 8851, section 4).
pub const RID: &str = "rid:";
/// The streams of simulcast (RFC 8853, section 5.1).
pub const SIMULCAST: &str = "simulcast:";
/// Sources that belong together (RFC 5576, section 4.2).
pub const SSRC_GROUP: &str = "ssrc-group:";
/// What is said of a source (RFC 5576, section 4.1).
pub const SSRC: &str = "ssrc:";
/// Sections that belong together (RFC 5888, section 5).
pub const GROUP: &str = "group:";
/// What stream names stand for (draft-ietf-mmusic-msid-05).
pub const MSID_SEMANTIC: &str = "msid-semantic:";
/// RTP and RTCP share a port (RFC 5761, section 5.1.1).
pub const RTCP_MUX: &str = "rtcp-mux";
/// RTP and RTCP share a port, or nothing is sent (RFC 8858, section 3).
pub const RTCP_MUX_ONLY: &str = "rtcp-mux-only";
/// RTCP packets of reduced size (RFC 5506, section 5).
pub const RTCP_RSIZE: &str = "rtcp-rsize";
/// No further candidates follow (RFC 8840, section 8.2).
pub const END_OF_CANDIDATES: &str = "end-of-candidates";
/// Short and long header extensions may be mixed (RFC 8285, section 6).
pub const EXTMAP_ALLOW_MIXED: &str = "extmap-allow-mixed";
/// This side is ICE lite (RFC 8839, section 5.3).
pub const ICE_LITE: &str = "ice-lite";

/// The media type of audio (RFC 8866, section 5.14).
pub const AUDIO: &str = "audio";
/// The media type of video (RFC 8866, section 5.14).
pub const VIDEO: &str = "video";
/// The media type of data channels (RFC 8841, section 4).
pub const APPLICATION: &str = "application";

/// RTP over DTLS and UDP, with feedback (RFC 5764, section 8).
pub const SRTP: &str = "UDP/TLS/RTP/SAVPF";
/// SCTP over DTLS and UDP (RFC 8841, section 4).
pub const SCTP: &str = "UDP/DTLS/SCTP";
/// What drafts called that. It is read, and never printed.
pub const OLD_SCTP: &str = "DTLS/SCTP";

/// Feedback for congestion control (draft-holmer-rmcat-transport-wide-cc-extensions).
pub const TRANSPORT_CC: &str = "transport-cc";
/// Feedback of the bandwidth that the receiver estimates (draft-alvestrand-rmcat-remb).
pub const REMB: &str = "goog-remb";
/// A request for a full picture (RFC 5104, section 7.1).
pub const FIR: &str = "ccm fir";
/// Packets that are missing (RFC 4585, section 4.2).
pub const NACK: &str = "nack";
/// Video that is missing (RFC 4585, section 4.2).
pub const PLI: &str = "nack pli";
