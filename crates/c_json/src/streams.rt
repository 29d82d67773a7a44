//! What a section says of streams and sources.

ghost use Rattle.c_json.specs.JsonWriter.{InList, InObject};
ghost use Rattle.std.specs.Prelude.{◌≡◌, OnOk};

use crate::json_writer::JsonWriter;
use crate::words::{first_word, words_after_label};
use std::alloc::{AllocError, Global};
use str0m_sdp::label;
use str0m_signal::{MediaAttribute, Name, Simulcast, Ssrc, Text};

/// The text, where it isn't empty.
fn some_stream_text(text: &str) -> Option<&str> {
    if text.is_empty() { None } else { Some(text) }
}

/// Adds a stream that may be restricted, as its line prints (RFC 8851, section 4).
pub(crate) fn add_rid(
    alloc: Global,
    json: &mut JsonWriter,
    attr: &MediaAttribute,
) -> Result<(), AllocError>
    requires { InList json.old }
    ensures { OnOk result (json.new ≡ json.old) }
{
    let line = attr.to_string(alloc)?;
    let (id, rest) = first_word(words_after_label(line.as_str(), label::RID).unwrap_or(""));
    let (direction, params) = first_word(rest);
    json.begin_item()?;
    json.text("direction", direction)?;
    json.text("id", id)?;
    json.maybe_text("params", some_stream_text(params))?;
    json.end_object()
}

/// Whether a line says these layers.
pub(crate) fn are_layers_printed(layers: &Simulcast) -> bool {
    let has_layers = !layers.send.is_empty() || !layers.recv.is_empty();
    has_layers && !layers.is_munged
}

/// Adds the layers that are sent and received, as their line prints (RFC 8853, section 5.1).
pub(crate) fn add_layers(
    alloc: Global,
    json: &mut JsonWriter,
    said: Option<&MediaAttribute>,
) -> Result<(), AllocError>
    requires { InObject json.old }
    ensures { OnOk result (json.new ≡ json.old) }
{
    let Some(attr) = said else {
        return Ok(());
    };
    let line = attr.to_string(alloc)?;
    let (first, rest) = first_word(words_after_label(line.as_str(), label::SIMULCAST).unwrap_or(
        "",
    ));
    let (first_list, rest) = first_word(rest);
    let (second, second_list) = first_word(rest);
    json.begin_object("simulcast")?;
    json.text("dir1", first)?;
    json.maybe_text("dir2", some_stream_text(second))?;
    json.text("list1", first_list)?;
    json.maybe_text("list2", some_stream_text(second_list))?;
    json.end_object()
}

/// Adds sources that belong together (RFC 5576, section 4.2).
pub(crate) fn add_source_group(
    json: &mut JsonWriter,
    semantics: &Text,
    ssrcs: &[Ssrc],
) -> Result<(), AllocError>
    requires { InList json.old }
    ensures { OnOk result (json.new ≡ json.old) }
{
    json.begin_item()?;
    json.text("semantics", semantics.as_str())?;
    json.spaced("ssrcs", ssrcs)?;
    json.end_object()
}

/// Adds what is said of a source (RFC 5576, section 4.1).
pub(crate) fn add_source(
    json: &mut JsonWriter,
    ssrc: Ssrc,
    attribute: &Name,
    value: &Text,
) -> Result<(), AllocError>
    requires { InList json.old }
    ensures { OnOk result (json.new ≡ json.old) }
{
    json.begin_item()?;
    json.text("attribute", attribute.as_str())?;
    json.number("id", u64::from(*ssrc))?;
    json.text("value", value.as_str())?;
    json.end_object()
}
