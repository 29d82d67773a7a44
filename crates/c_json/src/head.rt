//! What stands in front of the attributes of a session or of a section, as it prints (RFC 8866, sections 5.1 to 5.14).

ghost use Rattle.c_json.specs.JsonWriter.{InObject};
ghost use Rattle.std.specs.Prelude.{◌≡◌, OnOk};

use crate::json_writer::JsonWriter;
use crate::words::{first_word, words_after_beginning};
use std::alloc::{AllocError, Global};
use str0m_signal::{Items, MediaLine, Session};

/// The lines of a session in front of its attributes.
pub(crate) fn session_head(alloc: Global, session: &Session) -> Result<String, AllocError> {
    let head = Session {
        id: session.id,
        bw: session.bw.clone()?,
        attrs: Items::empty(alloc),
    };
    head.to_string(alloc)
}

/// The lines of a section in front of its attributes.
pub(crate) fn section_head(alloc: Global, section: &MediaLine) -> Result<String, AllocError> {
    let head = MediaLine {
        typ: section.typ.clone()?,
        disabled: section.disabled,
        proto: section.proto,
        pts: section.pts.clone()?,
        bw: section.bw.clone()?,
        attrs: Items::empty(alloc),
    };
    head.to_string(alloc)
}

/// An address with its type of network and its version of IP (RFC 8866, section 5.7).
#[derive(Clone, Copy)]
struct HeadAddress<'a> {
    net_type: &'a str,
    version: &'a str,
    address: &'a str,
}

/// What a text as `IN IP4 0.0.0.0` says.
fn read_head_address(text: &str) -> Option<HeadAddress<'_>> {
    let (net_type, rest) = text.split_once(" IP")?;
    let (version, address) = rest.split_once(' ')?;
    Some(HeadAddress {
        net_type,
        version,
        address,
    })
}

/// Adds such an address to what has a port or a session.
fn add_head_address(json: &mut JsonWriter, found: Option<HeadAddress<'_>>) -> Result<(), AllocError>
    requires { InObject json.old }
    ensures { OnOk result (json.new ≡ json.old) }
{
    let Some(at) = found else {
        return Ok(());
    };
    json.text("address", at.address)?;
    json.number_or_text("ipVer", at.version)?;
    json.text("netType", at.net_type)
}

/// Adds who made the session, and when (RFC 8866, section 5.2).
pub(crate) fn add_head_origin(json: &mut JsonWriter, head: &str) -> Result<(), AllocError>
    requires { InObject json.old }
    ensures { OnOk result (json.new ≡ json.old) }
{
    let Some(text) = words_after_beginning(head, "o=") else {
        return Ok(());
    };
    let (username, rest) = first_word(text);
    let (id, rest) = first_word(rest);
    let (version, rest) = first_word(rest);
    json.begin_object("origin")?;
    add_head_address(json, read_head_address(rest))?;
    json.number_or_text("sessionId", id)?;
    json.number_or_text("sessionVersion", version)?;
    json.text("username", username)?;
    json.end_object()
}

/// Adds from when to when the session is (RFC 8866, section 5.9).
pub(crate) fn add_head_timing(json: &mut JsonWriter, head: &str) -> Result<(), AllocError>
    requires { InObject json.old }
    ensures { OnOk result (json.new ≡ json.old) }
{
    let Some(text) = words_after_beginning(head, "t=") else {
        return Ok(());
    };
    let (start, stop) = first_word(text);
    json.begin_object("timing")?;
    json.number_or_text("start", start)?;
    json.number_or_text("stop", stop)?;
    json.end_object()
}

/// Adds the version of the protocol (RFC 8866, section 5.1).
pub(crate) fn add_head_version(json: &mut JsonWriter, head: &str) -> Result<(), AllocError>
    requires { InObject json.old }
    ensures { OnOk result (json.new ≡ json.old) }
{
    json.number_or_text("version", words_after_beginning(head, "v=").unwrap_or(""))
}

/// Adds what the section carries (RFC 8866, section 5.14), but for its type.
pub(crate) fn add_head_formats(json: &mut JsonWriter, head: &str) -> Result<(), AllocError>
    requires { InObject json.old }
    ensures { OnOk result (json.new ≡ json.old) }
{
    let (_, rest) = first_word(words_after_beginning(head, "m=").unwrap_or(""));
    let (port, rest) = first_word(rest);
    let (protocol, payloads) = first_word(rest);
    json.text("payloads", payloads)?;
    json.number_or_text("port", port)?;
    json.text("protocol", protocol)
}

/// Adds the address that the section has by its `c=` line (RFC 8866, section 5.7).
pub(crate) fn add_head_connection(json: &mut JsonWriter, head: &str) -> Result<(), AllocError>
    requires { InObject json.old }
    ensures { OnOk result (json.new ≡ json.old) }
{
    let Some(at) = read_head_address(words_after_beginning(head, "c=").unwrap_or("")) else {
        return Ok(());
    };
    json.begin_object("connection")?;
    json.text("ip", at.address)?;
    json.number_or_text("version", at.version)?;
    json.end_object()
}

/// Adds the proposed bandwidth, as the item of a list (RFC 8866, section 5.8).
pub(crate) fn add_head_bandwidth(json: &mut JsonWriter, head: &str) -> Result<(), AllocError>
    requires { InObject json.old }
    ensures { OnOk result (json.new ≡ json.old) }
{
    let Some(text) = words_after_beginning(head, "b=") else {
        return Ok(());
    };
    let (kind, limit) = text.split_once(':').unwrap_or((text, ""));
    json.begin_list("bandwidth")?;
    json.begin_item()?;
    json.number_or_text("limit", limit)?;
    json.text("type", kind)?;
    json.end_object()?;
    json.end_list()
}

/// Adds where RTCP goes (RFC 3605, section 2.1). What has another form is a port as a whole.
pub(crate) fn add_head_rtcp(json: &mut JsonWriter, said: Option<&str>) -> Result<(), AllocError>
    requires { InObject json.old }
    ensures { OnOk result (json.new ≡ json.old) }
{
    let Some(text) = said else {
        return Ok(());
    };
    let (port, rest) = first_word(text);
    let at = read_head_address(rest);
    json.begin_object("rtcp")?;
    add_head_address(json, at)?;
    json.number_or_text("port", if at.is_some() { port } else { text })?;
    json.end_object()
}
