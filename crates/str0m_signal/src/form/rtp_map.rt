//! Lines that map a payload type to a codec.

ghost use Rattle.std.specs.Prelude.{◌≡◌};
ghost use Rattle.str0m_signal.specs.Prelude.{codec_of, cut};
ghost use Rattle.str0m_signal.specs.form.MediaAttribute.{rtpmap};
ghost use Rattle.str0m_signal.specs.form.RtpMapReading.{frequency_read, clock_read, mapping_read};

use crate::line::front::number_and_rest;
use str0m_formats::Codec;
use str0m_sdp::{MediaAttribute, RtpMap, label};
use str0m_values::cuts::{cut, num_u8, num_u32, strip};
use str0m_values::{Frequency, Pt, Separator};

#[tactic(auto, using(str0m_formats::proofs::codec_read_only))]
fn mapping_codec(name: &str) -> Codec
    ensures { result ≡ codec_of name.now }
{
    Codec::from(name)
}

fn mapping_frequency(text: &str) -> Option<Frequency>
    ensures { result ≡ frequency_read text.now }
{
    Frequency::new(num_u32(text)?)
}

#[tactic(auto, using(crate::proofs::form::RtpMapLaws::clock_whole))]
fn mapping_clock(text: &str) -> Option<(Frequency, Option<u8>)>
    ensures { result ≡ clock_read text.now (cut 47 text.now) }
{
    // Most rates stand alone, and a number holds no slash.
    if let Some(rate) = mapping_frequency(text) {
        return Some((rate, None));
    }
    match cut(text, Separator::Slash) {
        None => Some((mapping_frequency(text)?, None)),
        Some((hertz, channels)) => Some((mapping_frequency(hertz)?, Some(num_u8(channels, 255)?))),
    }
}

fn mapping(text: &str) -> Option<RtpMap>
    ensures { result ≡ mapping_read text.now }
{
    let (name, rates) = cut(text, Separator::Slash)?;
    if name.is_empty() {
        return None;
    }
    let (clock_rate, channels) = mapping_clock(rates)?;
    Some(RtpMap {
        codec: mapping_codec(name),
        clock_rate,
        channels,
    })
}

/// The rtpmap line of the text after `a=`.
#[inline(always)]
pub(crate) fn rtp_map(text: &str) -> Option<MediaAttribute>
    ensures { result ≡ rtpmap.read text.now }
{
    let body = strip(text, label::RTPMAP)?;
    let (pt, mapped) = number_and_rest(body, 127)?;
    let value = mapping(mapped)?;
    Some(MediaAttribute::RtpMap {
        pt: Pt::new_with_value(pt),
        value,
    })
}
