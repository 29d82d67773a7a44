//! Codecs.
ghost use Rattle.std.specs.Prelude.{◌≡◌, ◌↔◌, IfSome, IsTrue, Some};
ghost use Rattle.str0m_formats.specs.codec.Codec.{codec_text, codec_content, static_entry, audio, video, events, media_kind, codec_of, IsReadAsCodec, codec_printed_and_read};
ghost use Rattle.str0m_formats.specs.codec.CodecSpec.{is_spec_at, static_codec};

use std::fmt;
use str0m_values::{Frequency, MediaKind, Pt, Worded, case_alike};

pub(crate) mod codec_spec;

/// A codec, or what else an `a=rtpmap` line may name (RFC 8866, section 6.6).
#[derive(Clone, Copy, Debug, PartialEq, Eq)]
pub enum Codec {
    /// Opus (RFC 7587).
    Opus,
    /// G.711 with the mu-law (RFC 3551, section 4.5.14).
    PCMU,
    /// G.711 with the A-law (RFC 3551, section 4.5.14).
    PCMA,
    /// G.722 (RFC 3551, section 4.5.2).
    G722,
    /// Comfort noise (RFC 3389).
    CN,
    /// Adaptive multi-rate wideband (RFC 4867).
    AmrWb,
    /// H.264 (RFC 6184).
    H264,
    /// H.265 (RFC 7798).
    H265,
    /// H.266 (RFC 9328).
    H266,
    /// VP8 (RFC 7741).
    Vp8,
    /// VP9 (RFC 9628).
    Vp9,
    /// AV1, by the payload format of the Alliance for Open Media.
    Av1,
    /// Telephone events (RFC 4733).
    Tele,
    /// Retransmissions (RFC 4588).
    Rtx,
    /// Redundant audio (RFC 2198).
    Red,
    /// The codec of packets that carry nothing. No text names it.
    Null,
    /// A codec that isn't known.
    Unknown,
}

/// The codecs that a text can name, first those of which most lines speak.
const NAMED: [Codec; 15] = [
    Codec::Rtx,
    Codec::H264,
    Codec::Vp8,
    Codec::Vp9,
    Codec::Av1,
    Codec::Opus,
    Codec::Red,
    Codec::Tele,
    Codec::H265,
    Codec::PCMU,
    Codec::PCMA,
    Codec::G722,
    Codec::CN,
    Codec::AmrWb,
    Codec::H266,
];

impl Codec {
    /// Whether the codec carries audio: `Opus`, `PCMU`, `PCMA`, `G722`, `CN` or `AmrWb`.
    pub fn is_audio(self) -> bool
        ensures { IsTrue result ↔ (codec_content self ≡ audio) }
    {
        matches!(
            self,
            Codec::Opus | Codec::PCMU | Codec::PCMA | Codec::G722 | Codec::CN | Codec::AmrWb
        )
    }

    /// Whether the codec carries video: `H264`, `H265`, `H266`, `Vp8`, `Vp9` or `Av1`.
    pub fn is_video(self) -> bool
        ensures { IsTrue result ↔ (codec_content self ≡ video) }
    {
        matches!(
            self,
            Codec::H264 | Codec::H265 | Codec::H266 | Codec::Vp8 | Codec::Vp9 | Codec::Av1
        )
    }

    /// Whether the codec carries telephone events (RFC 4733).
    pub fn is_tele(self) -> bool
        ensures { IsTrue result ↔ (codec_content self ≡ events) }
    {
        matches!(self, Codec::Tele)
    }

    /// The kind of the sections that the codec stands in: audio for what carries audio or telephone
    /// events, video for all else.
    pub fn kind(self) -> MediaKind
        ensures { result ≡ media_kind (codec_content self) }
    {
        if self.is_audio() || self.is_tele() {
            MediaKind::Audio
        } else {
            MediaKind::Video
        }
    }
}

/// What stands for a codec without a mapping (RFC 3551, section 6).
impl Codec {
    /// The payload type that stands for it, and the rate at which it samples then.
    pub(crate) fn static_type(self) -> Option<(u8, Frequency)>
        ensures { result ≡ static_entry self }
    {
        match self {
            Codec::PCMU => Some((0, Frequency::EIGHT_KHZ)),
            Codec::PCMA => Some((8, Frequency::EIGHT_KHZ)),
            Codec::G722 => Some((9, Frequency::SIXTEEN_KHZ)),
            Codec::CN => Some((13, Frequency::EIGHT_KHZ)),
            _ => None,
        }
    }

    fn has_static_type(self, pt: u8) -> bool
        ensures { result ≡ is_spec_at pt (static_entry self) }
    {
        match self.static_type() {
            Some((own, _)) => own == pt,
            None => false,
        }
    }

    /// The codec that a payload type stands for.
    pub(crate) fn at_static_type(pt: Pt) -> Option<Codec>
        ensures { result ≡ static_codec pt }
    {
        let pt = pt.value();
        NAMED
            .iter()
            .copied()
            .find(|codec| codec.has_static_type(pt))
    }
}

/// The names that rtpmap lines carry.
impl Worded for Codec {
    ghost word_of = { codec_text };

    fn word(self) -> &'static str {
        match self {
            Codec::Opus => "opus",
            Codec::PCMU => "PCMU",
            Codec::PCMA => "PCMA",
            Codec::G722 => "G722",
            Codec::CN => "CN",
            Codec::AmrWb => "AMR-WB",
            Codec::H264 => "H264",
            Codec::H265 => "H265",
            Codec::H266 => "H266",
            Codec::Vp8 => "VP8",
            Codec::Vp9 => "VP9",
            Codec::Av1 => "AV1",
            Codec::Tele => "telephone-event",
            Codec::Rtx => "rtx",
            Codec::Red => "red",
            Codec::Null => "null",
            Codec::Unknown => "unknown",
        }
    }
}

impl Codec {
    /// Of the codecs whose names have so many bytes, the one whose name ends in this byte: no two are alike in both.
    fn as_long(len: usize, last: u8) -> Codec
        ensures { codec_printed_and_read result ≡ result }
    {
        match (len, last) {
            (2, _) => Codec::CN,
            (3, b'8') => Codec::Vp8,
            (3, b'9') => Codec::Vp9,
            (3, b'1') => Codec::Av1,
            (3, b'd') => Codec::Red,
            (4, b'4') => Codec::H264,
            (4, b'5') => Codec::H265,
            (4, b'6') => Codec::H266,
            (4, b's') => Codec::Opus,
            (4, b'U') => Codec::PCMU,
            (4, b'A') => Codec::PCMA,
            (4, _) => Codec::G722,
            (6, _) => Codec::AmrWb,
            (15, _) => Codec::Tele,
            _ => Codec::Rtx,
        }
    }

    /// The codec of this very name.
    fn written(name: &str) -> Option<Codec>
        ensures { IfSome result (λ codec. (name.now ≡ codec_text codec) × (codec_printed_and_read codec ≡ codec)) }
    {
        let codec = Codec::as_long(name.len(), *name.as_bytes().last()?);
        if name == codec.word() {
            Some(codec)
        } else {
            None
        }
    }
}

#[tactic(auto, unfolding(crate::specs::codec::Codec::codec_of, str0m_values::specs::Words::case_alike))]
fn codec_alike(name: &str) -> Codec
    ensures { result ≡ codec_of name.now }
{
    case_alike(&NAMED, name).unwrap_or(Codec::Unknown)
}

/// The codec of a name. Nearly all names stand in their own case, and then one comparison is enough.
fn named(name: &str) -> Codec
    ensures { result ≡ codec_of name.now }
{
    match Codec::written(name) {
        Some(codec) => codec,
        None => codec_alike(name),
    }
}

/// Reads a name without regard to the case of ASCII letters. A name that isn't known is `Unknown`,
/// and so is that of `Null`.
impl From<&str> for Codec {
    ghost from_gives = { λ name codec. IsReadAsCodec name.now codec };

    #[tactic(auto, using(crate::proofs::codec::CodecNames::codec_read_as))]
    fn from(name: &str) -> Codec
        ensures read { IsReadAsCodec name.now result }

        // What a codec prints reads as that codec, and what `Null` prints as `Unknown`.
        ensures printed { (codec : Codec) → name.now ≡ codec_text codec → result ≡ codec_printed_and_read codec }
    {
        named(name)
    }
}

impl fmt::Display for Codec {
    ghost output = { λ codec. Some (codec_text codec) };

    fn fmt<W: fmt::Write>(&self, f: &mut fmt::Formatter<W>) -> fmt::Result {
        f.write_str(self.word())
    }
}
