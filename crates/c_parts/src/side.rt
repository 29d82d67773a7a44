//! What this side says of itself, as C says it.

ghost use Rattle.c_parts.specs.Fault.{FaultRefusesBytes};
ghost use Rattle.c_parts.specs.Side.{RefusesSideCandidate, RefusesSideCandidates, RefusesSideFingerprint, RefusesSideList, RefusesOwnSide, SaysOwnSide, own_channels_of, side_direction_numbered, side_kind_numbered, listed_texts};
ghost use Rattle.exchange.specs.declared.state.exchange_error.ExchangeError.TheVariants.{Memory};
ghost use Rattle.exchange.specs.section.Trickled.{IsTrickled};
ghost use Rattle.std.specs.List.{AllZip};
ghost use Rattle.std.specs.Prelude.{◌≡◌, IfErr, IfOk};
ghost use Rattle.str0m_values.specs.Fingerprint.{IsFingerprint};

use crate::fault::Fault;
use exchange::{DataChannels, ExchangeError, OwnSide, trickled_candidate};
use std::alloc::Global;
use std::str;
use str0m_signal::{
    Candidate, Direction, Fingerprint, FingerprintError, IceCreds, Items, MediaKind, SdpError,
    SessionId, Text,
};

/// Its numbers.
#[repr(C)]
#[derive(Clone, Copy)]
pub struct OwnNumbers {
    pub session_id: u64,
    pub max_message_size: u64,
    pub sctp_port: u16,
    pub has_channels: u8,
    pub audio: u8,
    pub video: u8,
    pub receives_simulcast: u8,
}

/// Its texts.
#[derive(Clone, Copy)]
pub struct OwnTexts<'a> {
    pub ice_ufrag: &'a [u8],
    pub ice_pwd: &'a [u8],
    pub fingerprint: &'a [u8],
    pub stream_id: &'a [u8],
    pub extensions: &'a [&'a [u8]],
    pub candidates: &'a [&'a [u8]],
}

/// The direction of a number (`zax_direction`).
pub fn side_direction_numbered(number: u8) -> Direction
    ensures { result ≡ side_direction_numbered number }
{
    match number {
        0 => Direction::SendRecv,
        1 => Direction::SendOnly,
        2 => Direction::RecvOnly,
        _ => Direction::Inactive,
    }
}

/// The kind of media of a number (`zax_kind`).
pub fn side_kind_numbered(number: u8) -> MediaKind
    ensures { result ≡ side_kind_numbered number }
{
    match number {
        0 => MediaKind::Audio,
        _ => MediaKind::Video,
    }
}

fn own_channels_of(numbers: &OwnNumbers) -> Option<DataChannels>
    ensures { result ≡ own_channels_of numbers.now }
{
    if numbers.has_channels == 0 {
        return None;
    }
    Some(DataChannels {
        port: numbers.sctp_port,
        max_message_size: numbers.max_message_size,
    })
}

/// The text of bytes.
pub fn text_of(alloc: Global, bytes: &[u8]) -> Result<Text, Fault>
    ensures read { IfOk result (λ text. text ≡ bytes.now) }
    ensures refused { IfErr result (FaultRefusesBytes bytes.now (λ error. error ≡ Memory)) }
{
    match str::from_utf8(bytes) {
        Ok(text) => Ok(Text::from_str(alloc, text)?),
        Err(_) => Err(Fault::NotUtf8),
    }
}

fn texts_of(alloc: Global, list: &[&[u8]]) -> Result<Items<Text>, Fault>
    ensures read { IfOk result (λ texts. texts ≡ listed_texts list.now) }
    ensures refused { IfErr result (RefusesSideList (listed_texts list.now)) }
{
    let mut texts = Items::empty(alloc);
    for bytes in list {
        let text = text_of(alloc, bytes)?;
        texts.push(text)?;
    }
    Ok(texts)
}

fn side_fingerprint_in(alloc: Global, text: &str) -> Result<Fingerprint, Fault>
    ensures read { IfOk result (IsFingerprint text.now) }
    ensures refused { IfErr result (RefusesSideFingerprint text.now) }
{
    match Fingerprint::from_str(alloc, text) {
        Ok(fingerprint) => Ok(fingerprint),
        Err(FingerprintError::NoSpace) => Err(Fault::NoFingerprint),
        Err(FingerprintError::BadByte) => Err(Fault::NoFingerprint),
        Err(FingerprintError::Memory) => Err(Fault::Refused(ExchangeError::Memory)),
    }
}

fn side_fingerprint_of(alloc: Global, bytes: &[u8]) -> Result<Fingerprint, Fault>
    ensures read { IfOk result (IsFingerprint bytes.now) }
    ensures refused { IfErr result (RefusesSideFingerprint bytes.now) }
{
    match str::from_utf8(bytes) {
        Ok(text) => side_fingerprint_in(alloc, text),
        Err(_) => Err(Fault::NotUtf8),
    }
}

fn side_candidate_in(alloc: Global, text: &str) -> Result<Candidate, Fault>
    ensures read { IfOk result (IsTrickled text.now) }
    ensures refused { IfErr result (RefusesSideCandidate text.now) }
{
    match trickled_candidate(alloc, text) {
        Ok(candidate) => Ok(candidate),
        Err(SdpError::ParseError(_)) => Err(Fault::NoCandidate),
        Err(SdpError::Inconsistent(_)) => Err(Fault::NoCandidate),
        Err(SdpError::Memory) => Err(Fault::Refused(ExchangeError::Memory)),
    }
}

fn side_candidate_of(alloc: Global, bytes: &[u8]) -> Result<Candidate, Fault>
    ensures read { IfOk result (IsTrickled bytes.now) }
    ensures refused { IfErr result (RefusesSideCandidate bytes.now) }
{
    match str::from_utf8(bytes) {
        Ok(text) => side_candidate_in(alloc, text),
        Err(_) => Err(Fault::NotUtf8),
    }
}

fn side_candidates_of(alloc: Global, lines: &[&[u8]]) -> Result<Items<Candidate>, Fault>
    ensures read { IfOk result (λ candidates. AllZip IsTrickled (listed_texts lines.now) candidates) }
    ensures refused { IfErr result (RefusesSideCandidates (listed_texts lines.now)) }
{
    let mut candidates = Items::empty(alloc);
    for line in lines {
        let candidate = side_candidate_of(alloc, line)?;
        candidates.push(candidate)?;
    }
    Ok(candidates)
}

/// What the numbers and the texts say.
pub fn own_side(alloc: Global, numbers: &OwnNumbers, texts: &OwnTexts<'_>) -> Result<OwnSide, Fault>
    ensures says { IfOk result (SaysOwnSide numbers.now texts.now) }
    ensures refused { IfErr result (RefusesOwnSide texts.now) }
{
    let creds = IceCreds {
        ufrag: text_of(alloc, texts.ice_ufrag)?,
        pass: text_of(alloc, texts.ice_pwd)?,
    };
    Ok(OwnSide {
        session_id: SessionId::from(numbers.session_id),
        creds,
        fingerprint: side_fingerprint_of(alloc, texts.fingerprint)?,
        audio: side_direction_numbered(numbers.audio),
        video: side_direction_numbered(numbers.video),
        directions: Items::empty(alloc),
        stream_id: text_of(alloc, texts.stream_id)?,
        extensions: texts_of(alloc, texts.extensions)?,
        candidates: side_candidates_of(alloc, texts.candidates)?,
        channels: own_channels_of(numbers),
        receives_simulcast: numbers.receives_simulcast != 0,
    })
}

/// A side that says nothing, for which no memory is wanted.
pub fn no_side(alloc: Global) -> OwnSide {
    OwnSide {
        session_id: SessionId::from(0_u64),
        creds: IceCreds {
            ufrag: Text::empty(),
            pass: Text::empty(),
        },
        fingerprint: Fingerprint {
            hash_func: Text::empty(),
            bytes: Items::empty(alloc),
        },
        audio: Direction::Inactive,
        video: Direction::Inactive,
        directions: Items::empty(alloc),
        stream_id: Text::empty(),
        extensions: Items::empty(alloc),
        candidates: Items::empty(alloc),
        channels: None,
        receives_simulcast: false,
    }
}
