//! The m-lines of sections.

ghost use Rattle.std.specs.Prelude.{◌≡◌, IfOk, IfSome, Some, codes, is_some, option_map, bytes_eq};
ghost use Rattle.str0m_signal.specs.line.Heads.{head_kind_is, media_head};
ghost use Rattle.str0m_signal.specs.session.SectionReading.{unknown_read, media_kind_read, numbers_read, proto_read, types_read, head_read};

use crate::line::front::number_and_rest;
use crate::line::parts::parts;
use crate::line::words::Number;
use arrayvec::ArrayVec;
use std::alloc::{AllocError, Global};
use str0m_sdp::label::{APPLICATION, AUDIO, OLD_SCTP, SCTP, SRTP, VIDEO};
use str0m_sdp::{MediaType, Proto};
use str0m_values::cuts::{cut, num_u8, strip};
use str0m_values::{Items, Pt, Separator, Text};

/// What an m-line says.
#[derive(Debug, Drop)]
pub(crate) struct MediaHead {
    pub(crate) typ: MediaType,
    pub(crate) disabled: bool,
    pub(crate) proto: Proto,
    pub(crate) pts: Items<Pt>,
}

/// A media type that isn't copied out of its line yet.
#[derive(Clone, Copy, Debug)]
enum HeadKind<'a> {
    Audio,
    Video,
    Application,
    Unknown(&'a str),
}

impl<'a> HeadKind<'a> {
    fn to_media_type(self, alloc: Global) -> Result<MediaType, AllocError>
        ensures { IfOk result (λ typ. typ ≡ head_kind_is self.entry) }
    {
        match self {
            HeadKind::Audio => Ok(MediaType::Audio),
            HeadKind::Video => Ok(MediaType::Video),
            HeadKind::Application => Ok(MediaType::Application),
            HeadKind::Unknown(text) => Ok(MediaType::Unknown(Text::from_str(alloc, text)?)),
        }
    }
}

fn unknown_head_kind(text: &str) -> Option<HeadKind<'_>>
    ensures { option_map head_kind_is result ≡ unknown_read text.now }
{
    if strip(text, AUDIO).is_some()
        || strip(text, VIDEO).is_some()
        || strip(text, APPLICATION).is_some()
        || text.is_empty()
    {
        return None;
    }
    Some(HeadKind::Unknown(text))
}

fn head_kind(text: &str) -> Option<HeadKind<'_>>
    ensures { option_map head_kind_is result ≡ media_kind_read text.now }
{
    match text {
        AUDIO => Some(HeadKind::Audio),
        VIDEO => Some(HeadKind::Video),
        APPLICATION => Some(HeadKind::Application),
        _ => unknown_head_kind(text),
    }
}

fn proto(text: &str) -> Option<Proto>
    ensures { result ≡ proto_read text.now }
{
    match text {
        SRTP => Some(Proto::Srtp),
        OLD_SCTP | SCTP => Some(Proto::Sctp),
        _ => None,
    }
}

/// Whether a section on this port is disabled.
fn is_head_disabled(port: &str) -> bool
    ensures { result ≡ bytes_eq port.now (codes "0") }
{
    port == "0"
}

/// How many types are read in place, so that their list asks for memory once: most m-lines have no more.
const FEW_TYPES: usize = 64;

/// The types of these numbers.
fn types_numbered(alloc: Global, numbers: &[u8]) -> Result<Items<Pt>, AllocError>
    ensures { IfOk result (λ types. types ≡ numbers.now) }
{
    let mut types = Vec::with_capacity(alloc, numbers.len())?;
    for number in numbers {
        types.push(Pt::new_with_value(*number))?;
    }
    Ok(Items::from(types))
}

/// The types of an m-line, where they are few numbers.
fn few_types(alloc: Global, text: &str) -> Result<Option<Items<Pt>>, AllocError>
    ensures { IfOk result (λ found. IfSome found (λ types. Some types ≡ numbers_read text.now)) }
{
    let mut few: ArrayVec<u8, FEW_TYPES> = ArrayVec::new();
    let mut rest = text;
    while let Some((number, more)) = number_and_rest(rest, 255) {
        if few.is_full() {
            return Ok(None);
        }
        few.push(number);
        rest = more;
    }
    match num_u8(rest, 255) {
        Some(last) if !few.is_full() => {
            few.push(last);
            Ok(Some(types_numbered(alloc, few.as_slice())?))
        }
        _ => Ok(None),
    }
}

/// The types of an m-line. Memory is asked for only where they are numbers.
fn types(alloc: Global, text: &str) -> Result<Option<Items<Pt>>, AllocError>
    ensures { IfOk result (λ found. found ≡ types_read text.now) }
{
    if let Some(types) = few_types(alloc, text)? {
        return Ok(Some(types));
    }
    if let Some(numbers) = parts::<Number<255>>(alloc, text, Separator::Space)? {
        return Ok(Some(numbers));
    }
    if strip(text, " ").is_some() {
        return Ok(None);
    }
    Ok(Some(Items::empty(alloc)))
}

/// The m-line of a section. Memory is asked for only where it is one.
pub(crate) fn head(alloc: Global, line: &str) -> Result<Option<MediaHead>, AllocError>
    ensures { IfOk result (λ found. option_map media_head found ≡ head_read line.now) }
{
    let Some(body) = strip(line, "m=") else {
        return Ok(None);
    };
    let Some((kind_text, body)) = cut(body, Separator::Space) else {
        return Ok(None);
    };
    let Some((port, body)) = cut(body, Separator::Space) else {
        return Ok(None);
    };
    let Some((protocol, body)) = cut(body, Separator::Space) else {
        return Ok(None);
    };
    let Some(kind) = head_kind(kind_text) else {
        return Ok(None);
    };
    if port.is_empty() {
        return Ok(None);
    }
    let Some(proto) = proto(protocol) else {
        return Ok(None);
    };
    let Some(pts) = types(alloc, body)? else {
        return Ok(None);
    };
    let typ = kind.to_media_type(alloc)?;
    Ok(Some(MediaHead {
        typ,
        disabled: is_head_disabled(port),
        proto,
        pts,
    }))
}
