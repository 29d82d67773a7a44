//! The header extensions that browsers write.
ghost use Rattle.std.specs.Prelude.{◌≡◌, bytes_eq};
ghost use Rattle.str0m_values.specs.KnownExtension.{known_uri};
ghost use Rattle.str0m_values.specs.Words.{case_of};
ghost use Rattle.str0m_values.specs.declared.known_extension.TheConstants.{KNOWN_EXTENSIONS};

use crate::words::Worded;

/// The name of the section (RFC 8843, section 15).
const MID: &str = "urn:ietf:params:rtp-hdrext:sdes:mid";
/// Numbers of packets for congestion control (draft-holmer-rmcat-transport-wide-cc-extensions).
const TRANSPORT_WIDE_CC: &str =
    "http://www.ietf.org/id/draft-holmer-rmcat-transport-wide-cc-extensions-01";
/// When the packet was sent.
const ABS_SEND_TIME: &str = "http://www.webrtc.org/experiments/rtp-hdrext/abs-send-time";
/// How loud the sender is (RFC 6464).
const AUDIO_LEVEL: &str = "urn:ietf:params:rtp-hdrext:ssrc-audio-level";
/// How long after its time stamp the packet was sent (RFC 5450).
const TIME_OFFSET: &str = "urn:ietf:params:rtp-hdrext:toffset";
/// How long playing may be delayed.
const PLAYOUT_DELAY: &str = "http://www.webrtc.org/experiments/rtp-hdrext/playout-delay";
/// The name of the layer (RFC 8852, section 3.1).
const RTP_STREAM_ID: &str = "urn:ietf:params:rtp-hdrext:sdes:rtp-stream-id";
/// The name of the layer that the packet repairs (RFC 8852, section 3.2).
const REPAIRED_RTP_STREAM_ID: &str = "urn:ietf:params:rtp-hdrext:sdes:repaired-rtp-stream-id";
/// How a picture is turned (3GPP TS 26.114).
const VIDEO_ORIENTATION: &str = "urn:3gpp:video-orientation";
/// When a picture passed each step.
const VIDEO_TIMING: &str = "http://www.webrtc.org/experiments/rtp-hdrext/video-timing";
/// Whether a picture shows a screen.
const VIDEO_CONTENT_TYPE: &str = "http://www.webrtc.org/experiments/rtp-hdrext/video-content-type";
/// The colors of a picture.
const COLOR_SPACE: &str = "http://www.webrtc.org/experiments/rtp-hdrext/color-space";
/// How loud each source of a mix is (RFC 6465).
const MIXED_AUDIO_LEVELS: &str = "urn:ietf:params:rtp-hdrext:csrc-audio-level";
/// The rates of the layers that are sent.
const VIDEO_LAYERS_ALLOCATION: &str =
    "http://www.webrtc.org/experiments/rtp-hdrext/video-layers-allocation00";
/// Which frames a frame needs (AV1's RTP payload format, appendix A).
const DEPENDENCY_DESCRIPTOR: &str =
    "https://aomediacodec.github.io/av1-rtp-spec/#dependency-descriptor-rtp-header-extension";

/// A header extension that browsers write.
#[derive(Clone, Copy)]
pub(crate) enum KnownExtension {
    Mid,
    TransportWideCc,
    AbsSendTime,
    AudioLevel,
    TimeOffset,
    PlayoutDelay,
    RtpStreamId,
    RepairedRtpStreamId,
    VideoOrientation,
    VideoTiming,
    VideoContentType,
    ColorSpace,
    MixedAudioLevels,
    VideoLayersAllocation,
    DependencyDescriptor,
}

/// All of them, the commonest first.
pub(crate) const KNOWN_EXTENSIONS: [KnownExtension; 15] = [
    KnownExtension::Mid,
    KnownExtension::TransportWideCc,
    KnownExtension::AbsSendTime,
    KnownExtension::AudioLevel,
    KnownExtension::TimeOffset,
    KnownExtension::PlayoutDelay,
    KnownExtension::RtpStreamId,
    KnownExtension::RepairedRtpStreamId,
    KnownExtension::VideoOrientation,
    KnownExtension::VideoTiming,
    KnownExtension::VideoContentType,
    KnownExtension::ColorSpace,
    KnownExtension::MixedAudioLevels,
    KnownExtension::VideoLayersAllocation,
    KnownExtension::DependencyDescriptor,
];

impl Worded for KnownExtension {
    ghost word_of = { known_uri };

    fn word(self) -> &'static str {
        match self {
            KnownExtension::Mid => MID,
            KnownExtension::TransportWideCc => TRANSPORT_WIDE_CC,
            KnownExtension::AbsSendTime => ABS_SEND_TIME,
            KnownExtension::AudioLevel => AUDIO_LEVEL,
            KnownExtension::TimeOffset => TIME_OFFSET,
            KnownExtension::PlayoutDelay => PLAYOUT_DELAY,
            KnownExtension::RtpStreamId => RTP_STREAM_ID,
            KnownExtension::RepairedRtpStreamId => REPAIRED_RTP_STREAM_ID,
            KnownExtension::VideoOrientation => VIDEO_ORIENTATION,
            KnownExtension::VideoTiming => VIDEO_TIMING,
            KnownExtension::VideoContentType => VIDEO_CONTENT_TYPE,
            KnownExtension::ColorSpace => COLOR_SPACE,
            KnownExtension::MixedAudioLevels => MIXED_AUDIO_LEVELS,
            KnownExtension::VideoLayersAllocation => VIDEO_LAYERS_ALLOCATION,
            KnownExtension::DependencyDescriptor => DEPENDENCY_DESCRIPTOR,
        }
    }
}

/// Whether the extension has this URI. Nearly all have a length of their own.
#[inline(always)]
fn has_uri(known: KnownExtension, uri: &str) -> bool
    ensures { result ≡ bytes_eq uri.now (known_uri known) }
{
    let known = known.word();
    known.len() == uri.len() && uri == known
}

/// The extension of a URI; none where the program has it not.
#[tactic(auto, unfolding(crate::specs::Words::case_of))]
pub(crate) fn known_extension(uri: &str) -> Option<KnownExtension>
    ensures { result ≡ case_of known_uri KNOWN_EXTENSIONS uri.now }
{
    KNOWN_EXTENSIONS
        .iter()
        .copied()
        .find(|known| has_uri(*known, uri))
}
