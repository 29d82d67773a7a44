//! Texts that several files read, the description that a text begins with, and what values print.

use std::alloc::{AllocError, Global};
use std::fmt::Display;
use str0m_signal::{Sdp, SdpError, sdp_parser};

/// A header and a section of Opus.
pub(crate) const OPUS_TEXT: &str =
    "v=0\r\no=- 7 2 IN IP4 127.0.0.1\r\ns=-\r\nt=0 0\r\nm=audio 9 UDP/TLS/RTP/SAVPF 111\r\nc=IN IP4 0.0.0.0\r\na=setup:actpass\r\na=mid:0\r\na=sendrecv\r\na=rtpmap:111 opus/48000/2\r\na=fmtp:111 minptime=10;useinbandfec=1\r\n";

/// The example of docs/HEADLINE.md: an offer of Opus under type 109.
pub(crate) const OFFER_TEXT: &str =
    "v=0\r\no=str0m-0.25.0 7 2 IN IP4 0.0.0.0\r\ns=-\r\nt=0 0\r\nm=audio 9 UDP/TLS/RTP/SAVPF 109\r\nc=IN IP4 0.0.0.0\r\na=mid:0\r\na=sendrecv\r\na=rtpmap:109 opus/48000/2\r\na=fmtp:109 minptime=10;useinbandfec=1\r\n";

/// An offer of the default row of Opus, with the lines of docs/GRAMMAR.md.
pub(crate) const OWN_OFFER_TEXT: &str =
    "v=0\r\no=str0m-0.25.0 7 2 IN IP4 0.0.0.0\r\ns=-\r\nt=0 0\r\na=group:BUNDLE 0\r\nm=audio 9 UDP/TLS/RTP/SAVPF 111\r\nc=IN IP4 0.0.0.0\r\na=mid:0\r\na=sendrecv\r\na=setup:actpass\r\na=ice-ufrag:abcd\r\na=ice-pwd:0123456789abcdef012345\r\na=fingerprint:sha-256 AB:CD\r\na=rtcp-mux\r\na=rtpmap:111 opus/48000/2\r\na=rtcp-fb:111 transport-cc\r\na=fmtp:111 minptime=10;useinbandfec=1\r\n";

/// Audio, data channels between, and disabled video.
pub(crate) const CALL_TEXT: &str =
    "v=0\r\no=- 7 2 IN IP4 0.0.0.0\r\ns=-\r\nt=0 0\r\nm=audio 9 UDP/TLS/RTP/SAVPF 109\r\nc=IN IP4 0.0.0.0\r\na=mid:audio\r\na=sendrecv\r\na=rtpmap:109 opus/48000/2\r\nm=application 9 UDP/DTLS/SCTP webrtc-datachannel\r\nc=IN IP4 0.0.0.0\r\na=mid:data\r\na=sctp-port:5000\r\nm=video 0 UDP/TLS/RTP/SAVPF 120\r\nc=IN IP4 0.0.0.0\r\na=mid:video\r\na=sendrecv\r\na=rtpmap:120 VP8/90000\r\n";

/// Four sections: one with a transport of its own, one bundled alone, one stopped, and one that says
/// bundle-only outside the group.
pub(crate) const FOUR_SECTIONS_TEXT: &str =
    "v=0\r\no=- 7 2 IN IP4 0.0.0.0\r\ns=-\r\nt=0 0\r\na=group:LS 2\r\na=group:BUNDLE 1 0\r\na=setup:actpass\r\na=ice-ufrag:sess\r\na=ice-pwd:session-password-of-22\r\na=fingerprint:sha-256 AB:CD\r\nm=audio 9 UDP/TLS/RTP/SAVPF 109\r\nc=IN IP4 0.0.0.0\r\na=mid:0\r\na=sendrecv\r\na=setup:passive\r\na=ice-ufrag:own1\r\na=rtpmap:109 opus/48000/2\r\nm=video 0 UDP/TLS/RTP/SAVPF 120\r\nc=IN IP4 0.0.0.0\r\na=mid:1\r\na=bundle-only\r\na=sendrecv\r\na=rtpmap:120 VP8/90000\r\nm=video 0 UDP/TLS/RTP/SAVPF 120\r\nc=IN IP4 0.0.0.0\r\na=mid:2\r\na=sendrecv\r\na=rtpmap:120 VP8/90000\r\nm=video 0 UDP/TLS/RTP/SAVPF 120\r\nc=IN IP4 0.0.0.0\r\na=mid:3\r\na=bundle-only\r\na=sendrecv\r\na=fingerprint:sha-1 01:02\r\na=rtpmap:120 VP8/90000\r\n";

/// The description that the text begins with.
pub(crate) fn description_of_text(alloc: Global, text: &str) -> Result<Sdp, SdpError> {
    Ok(sdp_parser(alloc, text)?.0)
}

/// Whether the value prints this text.
pub(crate) fn prints_text<T: Display>(
    alloc: Global,
    value: &T,
    text: &str,
) -> Result<bool, AllocError> {
    let printed = value.to_string(alloc)?;
    Ok(printed.as_str() == text)
}
