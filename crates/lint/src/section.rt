//! A section by itself, consistent or not.
ghost use Rattle.std.specs.Prelude.{◌<◌, ◌≤◌, IfOk, IfSome, length};

use crate::fields::{is_bandwidth_field, is_field};
use crate::lines::next_line;
use crate::unfit::{MediaLineParts, media_line};
use std::alloc::{AllocError, Global};
use str0m_sdp::label::{APPLICATION, AUDIO, SRTP, VIDEO};
use str0m_sdp::{MediaAttribute, MediaLine, MediaType, Proto, SdpError};
use str0m_signal::media_attribute_line;
use str0m_values::cuts::num_u8;
use str0m_values::{Items, Pt, Text};

/// A section, how many lines stand before its attributes, the text that begins with these, and the text after them.
#[derive(Drop)]
pub(crate) struct Section<'a> {
    pub(crate) line: MediaLine,
    pub(crate) lead: usize,
    pub(crate) attributes: &'a str,
    pub(crate) rest: &'a str,
}

fn section_media_type(alloc: Global, text: &str) -> Result<MediaType, AllocError> {
    match text {
        AUDIO => Ok(MediaType::Audio),
        VIDEO => Ok(MediaType::Video),
        APPLICATION => Ok(MediaType::Application),
        _ => Ok(MediaType::Unknown(Text::from_str(alloc, text)?)),
    }
}

/// The payload types of an m-line; none where the text isn't numbers with a space between each two.
fn section_types(alloc: Global, text: &str) -> Result<Items<Pt>, AllocError> {
    let mut types = Items::empty(alloc);
    for word in text.split(' ') {
        match num_u8(word, 255) {
            Some(number) => types.push(Pt::new_with_value(number))?,
            None => return Ok(Items::empty(alloc)),
        }
    }
    Ok(types)
}

/// The section of an m-line, without attributes.
fn head(alloc: Global, parts: MediaLineParts<'_>) -> Result<MediaLine, AllocError> {
    let mut section = MediaLine::new(alloc);
    section.typ = section_media_type(alloc, parts.kind)?;
    section.disabled = parts.port == "0";
    if parts.protocol != SRTP {
        section.proto = Proto::Sctp;
    }
    section.pts = section_types(alloc, parts.formats)?;
    Ok(section)
}

/// The attribute of a line of a section, where it is one.
fn attribute(alloc: Global, line: &str) -> Result<Option<MediaAttribute>, AllocError> {
    match media_attribute_line(alloc, line) {
        Ok((attribute, _)) => Ok(Some(attribute)),
        Err(SdpError::Memory) => Err(AllocError),
        Err(_) => Ok(None),
    }
}

/// The attributes of the lines that stand next, and the text after them.
fn attributes(alloc: Global, text: &str) -> Result<(Items<MediaAttribute>, &str), AllocError>
    ensures { IfOk result (λ found. length found.1.now ≤ length text.now) }
{
    let mut attributes = Items::empty(alloc);
    let mut rest = text;
    while let Some((line, after)) = next_line(rest) {
        match attribute(alloc, line)? {
            Some(attribute) => attributes.push(attribute)?,
            None => return Ok((attributes, rest)),
        }
        rest = after;
    }
    Ok((attributes, rest))
}

/// The text after a `c=` line that stands next, and how many lines that are.
fn section_behind_connection(text: &str) -> (usize, &str)
    ensures rest { length result.1.now ≤ length text.now }
    ensures one { result.0 ≤ 1 }
{
    match next_line(text) {
        Some((line, rest)) if is_field(line, "c=") => (1, rest),
        _ => (0, text),
    }
}

/// The text after a `b=` line that stands next, and how many lines that are.
fn section_behind_bandwidth(text: &str) -> (usize, &str)
    ensures rest { length result.1.now ≤ length text.now }
    ensures one { result.0 ≤ 1 }
{
    match next_line(text) {
        Some((line, rest)) if is_bandwidth_field(line) => (1, rest),
        _ => (0, text),
    }
}

/// The section whose m-line stands next; none where no m-line does.
pub(crate) fn next_section(alloc: Global, text: &str) -> Result<Option<Section<'_>>, AllocError>
    ensures { IfOk result (λ found. IfSome found (λ section. length section.rest.now < length text.now)) }
{
    let Some((line, rest)) = next_line(text) else {
        return Ok(None);
    };
    let Ok(parts) = media_line(line) else {
        return Ok(None);
    };
    let mut head = head(alloc, parts)?;
    let (connections, rest) = section_behind_connection(rest);
    let (bandwidths, start) = section_behind_bandwidth(rest);
    let (attrs, rest) = attributes(alloc, start)?;
    head.attrs = attrs;
    Ok(Some(Section {
        line: head,
        lead: 1 + connections + bandwidths,
        attributes: start,
        rest,
    }))
}
