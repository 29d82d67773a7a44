//! What a payload type stands for.
ghost use Rattle.std.specs.Fmt.{WritesOnOk};
ghost use Rattle.std.specs.Prelude.{◌≡◌, ◌++◌, Some, codes, decimal};
ghost use Rattle.str0m_sdp.specs.attribute.RtpMap.{rtp_map_text, rtp_map_channels_text, sampling_rate, rtp_map_channels_of, spec_of_map, map_of_spec};
ghost use Rattle.str0m_sdp.specs.declared.label.TheConstants as label;
ghost use Rattle.str0m_sdp.specs.form.Printed.{labelled_line};

use crate::form::printed::{write_end, write_numbered};
use crate::label;
use std::fmt::{self, Display};
use str0m_formats::{Codec, CodecSpec, FormatParams};
use str0m_values::{Frequency, Pt, Worded};

/// The codec of a payload type, its clock rate and its channels (RFC 8866, section 6.6).
#[derive(Clone, Copy, Debug, PartialEq, Eq)]
pub struct RtpMap {
    /// The codec, by the name in the mapping.
    pub codec: Codec,
    /// The clock rate of RTP timestamps, in Hz.
    pub clock_rate: Frequency,
    /// How many channels audio has, 0 to 255; `None` where the mapping doesn't count them.
    pub channels: Option<u8>,
}

/// The mapping as it stands after the payload type of an rtpmap line.
impl fmt::Display for RtpMap {
    ghost output = { λ map. Some (rtp_map_text map) };

    fn fmt<W: fmt::Write>(&self, f: &mut fmt::Formatter<W>) -> fmt::Result {
        f.write_str(self.codec.word())?;
        RtpMapRate(self.clock_rate).fmt(f)?;
        RtpMapChannels(self.channels).fmt(f)
    }
}

/// Writes the `a=rtpmap` line of a payload type, with its end.
pub(crate) fn write_rtp_map<W: fmt::Write>(
    f: &mut fmt::Formatter<W>,
    pt: Pt,
    map: RtpMap,
) -> fmt::Result
    ensures { WritesOnOk W.write_str_gives f.old result (labelled_line label.RTPMAP.now (decimal pt ++ (codes " " ++ rtp_map_text map))) f.new }
{
    write_numbered(f, label::RTPMAP, pt.value())?;
    map.fmt(f)?;
    write_end(f)
}

/// The clock rate of a mapping, after `/`. The rates that nearly all mappings have are written whole.
#[derive(Drop)]
struct RtpMapRate(Frequency);

impl fmt::Display for RtpMapRate {
    ghost output = { λ rate. Some (codes "/" ++ decimal rate.0) };

    #[tactic(auto, using(crate::proofs::attribute::RtpMapRates::rate_90000, crate::proofs::attribute::RtpMapRates::rate_48000, crate::proofs::attribute::RtpMapRates::rate_8000))]
    fn fmt<W: fmt::Write>(&self, f: &mut fmt::Formatter<W>) -> fmt::Result {
        match self.0.get() {
            90_000 => f.write_str("/90000"),
            48_000 => f.write_str("/48000"),
            8_000 => f.write_str("/8000"),
            hertz => {
                f.write_str("/")?;
                fmt::Display::fmt(&hertz, f)
            }
        }
    }
}

/// How many channels a mapping counts, after `/`; nothing where it counts none.
#[derive(Drop)]
struct RtpMapChannels(Option<u8>);

impl fmt::Display for RtpMapChannels {
    ghost output = { λ channels. Some (rtp_map_channels_text channels.0) };

    fn fmt<W: fmt::Write>(&self, f: &mut fmt::Formatter<W>) -> fmt::Result {
        match self.0 {
            None => Ok(()),
            Some(channels) => {
                f.write_str("/")?;
                fmt::Display::fmt(&channels, f)
            }
        }
    }
}

/// The rate at which the codec samples.
fn sampling_rate(codec: Codec, clock_rate: Frequency) -> Frequency
    ensures { result ≡ sampling_rate codec clock_rate }
{
    let [_, sixteen, _, _] = Frequency::named();
    match codec {
        Codec::G722 => sixteen,
        _ => clock_rate,
    }
}

/// The channels of the codec, without a count that says no more than none does.
fn rtp_map_channels_of(codec: Codec, channels: Option<u8>) -> Option<u8>
    ensures { result ≡ rtp_map_channels_of codec channels }
{
    match (codec, channels) {
        (Codec::G722, Some(1)) => None,
        _ => channels,
    }
}

/// The codec that a mapping names, with its rate and channels, and the default format.
///
/// G722 samples at 16 kHz though its mapping says 8 kHz for historical reasons (RFC 3551, section
/// 4.5.2), and where its mapping counts one channel, the spec counts none.
impl From<RtpMap> for CodecSpec {
    ghost from_gives = { λ map spec. spec ≡ spec_of_map map };

    fn from(map: RtpMap) -> CodecSpec {
        CodecSpec {
            codec: map.codec,
            clock_rate: sampling_rate(map.codec, map.clock_rate),
            channels: rtp_map_channels_of(map.codec, map.channels),
            format: FormatParams::default(),
        }
    }
}

/// The mapping that names a codec (RFC 8866, section 6.6), at its clock rate in RTP, which for G722
/// is 8 kHz (RFC 3551, section 4.5.2). Its format stands in fmtp lines.
impl From<CodecSpec> for RtpMap {
    ghost from_gives = { λ spec map. map ≡ map_of_spec spec };

    fn from(spec: CodecSpec) -> RtpMap {
        let CodecSpec {
            codec,
            channels,
            ..
        } = spec;
        RtpMap {
            codec,
            clock_rate: spec.rtp_clock_rate(),
            channels,
        }
    }
}
