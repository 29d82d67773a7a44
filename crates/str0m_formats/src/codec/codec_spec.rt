//! Codecs with their clock rates, channels and formats.
ghost use Rattle.std.specs.Prelude.{◌≡◌};
ghost use Rattle.str0m_formats.specs.Prelude.{IsTheOnly};
ghost use Rattle.str0m_formats.specs.codec.CodecSpec.{IsStaticSpec, static_spec, codec_rtp_rate};

use crate::codec::Codec;
use crate::format::format_params::FormatParams;
use str0m_values::{Frequency, Pt};

/// A codec with its clock rate, its channels and its format.
#[derive(Clone, Copy, Debug, PartialEq, Eq)]
pub struct CodecSpec {
    /// The codec.
    pub codec: Codec,
    /// The rate at which the codec samples, in Hz.
    pub clock_rate: Frequency,
    /// The channels, where they are given.
    pub channels: Option<u8>,
    /// What its fmtp lines say.
    pub format: FormatParams,
}

impl CodecSpec {
    /// The clock rate of RTP timestamps, in Hz: 8000 for G722, which samples at 16000 (RFC 3551,
    /// section 4.5.2), else the clock rate.
    pub fn rtp_clock_rate(self) -> Frequency
        ensures { result ≡ codec_rtp_rate self.codec self.clock_rate }
    {
        match self.codec {
            Codec::G722 => Frequency::EIGHT_KHZ,
            _ => self.clock_rate,
        }
    }

    /// What a payload type stands for without a mapping, which is static (RFC 3551, section 6): the codec
    /// of this type in docs/FORMATS.md, at the rate there. `None` for any other type.
    pub fn from_static_pt(pt: Pt) -> Option<CodecSpec>
        ensures { IsTheOnly (IsStaticSpec pt) result }
    {
        static_spec(pt)
    }
}

#[tactic(auto, unfolding(crate::specs::codec::CodecSpec::static_spec))]
fn static_spec(pt: Pt) -> Option<CodecSpec>
    ensures { result ≡ static_spec pt }
{
    let codec = Codec::at_static_type(pt)?;
    let (_, clock_rate) = codec.static_type()?;
    Some(CodecSpec {
        codec,
        clock_rate,
        channels: None,
        format: FormatParams::default(),
    })
}
