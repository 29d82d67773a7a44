//! Rows and outcomes as C holds them.

ghost use Rattle.c_parts.specs.Row.{bit, c_outcome, c_row, c_rows, row_codec_among, row_codec_numbered, row_codec_number, row_feedback_bits, row_number_or, row_number_unless};
ghost use Rattle.std.specs.Prelude.{◌≡◌, ◌≤◌, IfOk, length, map};

use crate::section_item::SectionItem;
use std::alloc::{AllocError, Global};
use str0m_signal::{Codec, MediaLine, NegotiationError, PayloadParams, Pt};

/// A row.
#[repr(C)]
#[derive(Clone, Copy)]
pub struct Row {
    pub clock_rate: u32,
    pub pt: u8,
    pub rtx: u8,
    pub red: u8,
    pub channels: u8,
    pub codec: u8,
    pub feedback: u8,
    pub locked: u8,
    pub reserved: u8,
}

/// The outcome of a round: 0 where it was accepted, else why not, and the payload type at fault, or 255.
#[repr(C)]
#[derive(Clone, Copy)]
pub struct Outcome {
    pub cause: u8,
    pub pt: u8,
}

/// The codecs that have a number in the header.
static NUMBERED_ROW_CODECS: [Codec; 16] = [
    Codec::Opus,
    Codec::PCMU,
    Codec::PCMA,
    Codec::G722,
    Codec::CN,
    Codec::AmrWb,
    Codec::H264,
    Codec::H265,
    Codec::H266,
    Codec::Vp8,
    Codec::Vp9,
    Codec::Av1,
    Codec::Tele,
    Codec::Rtx,
    Codec::Red,
    Codec::Null,
];

fn numbered_row_codecs() -> &'static [Codec]
    ensures { result.now ≡ NUMBERED_ROW_CODECS }
{
    NUMBERED_ROW_CODECS.as_slice()
}

fn row_type_or_none(pt: Option<Pt>) -> u8
    ensures { result ≡ row_number_or 255 pt }
{
    match pt {
        Some(pt) => pt.value(),
        None => 255,
    }
}

fn row_channels_or_zero(channels: Option<u8>) -> u8
    ensures { result ≡ row_number_or 0 channels }
{
    match channels {
        Some(channels) => channels,
        None => 0,
    }
}

/// The number that the header has for a codec; 0 where it has none.
fn row_codec_code_of(codec: Codec) -> u8
    ensures { result ≡ row_codec_number codec }
{
    match codec {
        Codec::Opus => 1,
        Codec::PCMU => 2,
        Codec::PCMA => 3,
        Codec::G722 => 4,
        Codec::CN => 5,
        Codec::AmrWb => 6,
        Codec::H264 => 7,
        Codec::H265 => 8,
        Codec::H266 => 9,
        Codec::Vp8 => 10,
        Codec::Vp9 => 11,
        Codec::Av1 => 12,
        Codec::Tele => 13,
        Codec::Rtx => 14,
        Codec::Red => 15,
        Codec::Null => 16,
        _ => 0,
    }
}

/// The codec of this number among those that are listed.
fn row_codec_among(codecs: &[Codec], number: u8) -> Option<Codec>
    ensures { result ≡ row_codec_among codecs.now number }
{
    codecs
        .iter()
        .copied()
        .find(|codec| row_codec_code_of(*codec) == number)
}

/// The codec of a number; none has 0.
pub fn row_codec_numbered(number: u8) -> Option<Codec>
    ensures { result ≡ row_codec_numbered number }
{
    row_codec_among(numbered_row_codecs(), number)
}

/// The number, unless it stands for none.
pub fn row_number_unless(none: u8, number: u8) -> Option<u8>
    ensures { result ≡ row_number_unless none number }
{
    if number == none { None } else { Some(number) }
}

pub(crate) fn flag(value: u8, is_on: bool) -> u8
    ensures value { result ≡ bit value is_on }
    ensures low { result ≤ value }
{
    if is_on { value } else { 0 }
}

fn row_feedback_of(row: &PayloadParams) -> u8
    ensures { result ≡ row_feedback_bits row.now }
{
    let lost = flag(2, row.fb_nack())
        + (flag(4, row.fb_pli()) + (flag(8, row.fb_fir()) + flag(16, row.fb_remb())));
    flag(1, row.fb_transport_cc()) + lost
}

pub fn row_of(row: &PayloadParams) -> Row
    ensures { result ≡ c_row row.now }
{
    let spec = row.spec();
    Row {
        clock_rate: spec.clock_rate.get(),
        pt: row.pt().value(),
        rtx: row_type_or_none(row.resend()),
        red: row_type_or_none(row.red()),
        channels: row_channels_or_zero(spec.channels),
        codec: row_codec_code_of(spec.codec),
        feedback: row_feedback_of(row),
        locked: flag(1, row.locked()),
        reserved: 0,
    }
}

pub fn rows_of(alloc: Global, rows: &[PayloadParams]) -> Result<Vec<Row>, AllocError>
    ensures { IfOk result (λ made. made.items ≡ map c_row rows.now) }
{
    let mut made = Vec::new(alloc);
    for row in rows {
        made.push(row_of(row))?;
    }
    Ok(made)
}

/// The rows of a section.
impl SectionItem for Row {
    ghost listed = { c_rows };

    fn all_of(alloc: Global, section: &MediaLine) -> Result<Vec<Row>, AllocError> {
        let found = section.rtp_params()?;
        rows_of(alloc, found.as_slice())
    }
}

pub fn outcome_of(outcome: &Result<(), NegotiationError>) -> Outcome
    ensures { result ≡ c_outcome outcome.now }
{
    let (cause, pt) = match *outcome {
        Ok(()) => (0, 255),
        Err(NegotiationError::TypeTooLarge(pt)) => (1, pt.value()),
        Err(NegotiationError::ClaimedTwice(pt)) => (2, pt.value()),
        Err(NegotiationError::Exhausted) => (3, 255),
        Err(NegotiationError::Memory) => (4, 255),
    };
    Outcome { cause, pt }
}
