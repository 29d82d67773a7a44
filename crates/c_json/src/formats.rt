//! What a section says of payload types and header extensions.

ghost use Rattle.c_json.specs.JsonWriter.{InList};
ghost use Rattle.std.specs.Prelude.{◌≡◌, OnOk};

use crate::json_writer::JsonWriter;
use crate::words::{first_word, words_after_label};
use std::alloc::{AllocError, Global};
use str0m_sdp::label;
use str0m_signal::{Extension, MediaAttribute, Pt, RtpMap};
use str0m_values::Worded;

/// Adds the codec of a payload type (RFC 8866, section 6.6).
pub(crate) fn add_rtp_map(json: &mut JsonWriter, pt: Pt, map: &RtpMap) -> Result<(), AllocError>
    requires { InList json.old }
    ensures { OnOk result (json.new ≡ json.old) }
{
    json.begin_item()?;
    json.text("codec", map.codec.word())?;
    json.maybe_number("encoding", map.channels.map(|channels| u64::from(channels)))?;
    json.number("payload", u64::from(pt.value()))?;
    json.number("rate", u64::from(map.clock_rate.get()))?;
    json.end_object()
}

/// Adds feedback for a payload type (RFC 4585, section 4.2).
pub(crate) fn add_feedback(json: &mut JsonWriter, pt: Pt, said: &str) -> Result<(), AllocError>
    requires { InList json.old }
    ensures { OnOk result (json.new ≡ json.old) }
{
    let (kind, more) = match said.split_once(' ') {
        Some((kind, more)) => (kind, Some(more)),
        None => (said, None),
    };
    json.begin_item()?;
    json.number("payload", u64::from(pt.value()))?;
    json.maybe_text("subtype", more)?;
    json.text("type", kind)?;
    json.end_object()
}

/// Adds the parameters of a payload type as they print (RFC 8866, section 6.15).
pub(crate) fn add_fmtp(
    alloc: Global,
    json: &mut JsonWriter,
    pt: Pt,
    attr: &MediaAttribute,
) -> Result<(), AllocError>
    requires { InList json.old }
    ensures { OnOk result (json.new ≡ json.old) }
{
    let line = attr.to_string(alloc)?;
    let (_, config) = first_word(words_after_label(line.as_str(), label::FMTP).unwrap_or(""));
    json.begin_item()?;
    json.text("config", config)?;
    json.number("payload", u64::from(pt.value()))?;
    json.end_object()
}

/// Adds a header extension (RFC 8285, section 5).
pub(crate) fn add_extension(
    json: &mut JsonWriter,
    id: u8,
    ext: &Extension,
) -> Result<(), AllocError>
    requires { InList json.old }
    ensures { OnOk result (json.new ≡ json.old) }
{
    json.begin_item()?;
    json.text("uri", ext.as_uri())?;
    json.number("value", u64::from(id))?;
    json.end_object()
}
