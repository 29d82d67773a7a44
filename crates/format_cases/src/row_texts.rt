//! Rows as cases write them, and as answers show them: `96 97 - VP8/90000 -`, which is the primary type, those of RTX
//! and RED, the codec with its clock rate (and its channels, as `opus/48000/2`), and the format; `-` stands for what is
//! absent. After it may stand what feedback is off, as `no-transport-cc`. Rows are parted by ` + `; `none` is no row.
//! Of a text that names no such thing the answer says so, and anything stands for it.

use crate::answer::Answer;
use crate::lists::listed_word;
use str0m_formats::{Codec, CodecSpec, FormatParams, PayloadParams};
use str0m_values::{Frequency, Pt};

/// A number of 8 bits.
pub(crate) fn row_byte_of(answer: &mut Answer, text: &str, what: &str) -> u8 {
    match text.parse::<u8>() {
        Ok(number) => number,
        Err(_) => {
            answer.no_such(what);
            0
        }
    }
}

/// A payload type, 0 to 255.
pub(crate) fn row_type_of(answer: &mut Answer, text: &str) -> Pt {
    Pt::from(row_byte_of(answer, text, "payload type"))
}

/// A payload type, or `-` for none.
pub(crate) fn row_type_or_dash(answer: &mut Answer, text: &str) -> Option<Pt> {
    match text {
        "-" => None,
        _ => Some(row_type_of(answer, text)),
    }
}

/// The codec that prints this very name.
pub(crate) fn codec_of(answer: &mut Answer, name: &str) -> Codec {
    let codec = Codec::from(name);
    if answer.printed(&codec).as_str() != name {
        answer.no_such("codec");
    }
    codec
}

/// The format that a line says, of which no piece is passed over: what it prints is as long.
pub(crate) fn format_of(answer: &mut Answer, line: &str) -> FormatParams {
    match line {
        "-" => FormatParams::default(),
        _ => format_said(answer, line),
    }
}

fn format_said(answer: &mut Answer, line: &str) -> FormatParams {
    let read = FormatParams::parse_line(answer.alloc(), line);
    let format = answer.kept(read, FormatParams::default());
    let printed = answer.printed(&format);
    if line.is_empty() || printed.len() != line.len() {
        answer.no_such("format");
    }
    format
}

/// A codec with its rates and its format, as `opus/48000/2 minptime=10`.
pub(crate) fn row_spec_of(answer: &mut Answer, map: &str, format: &str) -> CodecSpec {
    let (name, rates) = split_row_at_slash(answer, map);
    let (rate, channels) = row_rate_and_channels(rates);
    CodecSpec {
        codec: codec_of(answer, name),
        clock_rate: row_rate_of(answer, rate),
        channels: row_channels_of(answer, channels),
        format: format_of(answer, format),
    }
}

/// A rate, and the channels after it where there are some.
fn row_rate_and_channels(rates: &str) -> (&str, Option<&str>) {
    match rates.split_once('/') {
        None => (rates, None),
        Some((rate, channels)) => (rate, Some(channels)),
    }
}

fn row_channels_of(answer: &mut Answer, text: Option<&str>) -> Option<u8> {
    Some(row_byte_of(answer, text?, "row"))
}

fn split_row_at_slash<'a>(answer: &mut Answer, map: &'a str) -> (&'a str, &'a str) {
    match map.split_once('/') {
        Some(parts) => parts,
        None => {
            answer.no_such("row");
            (map, "")
        }
    }
}

fn row_rate_of(answer: &mut Answer, text: &str) -> Frequency {
    match Frequency::from_str(text) {
        Some(rate) => rate,
        None => {
            answer.no_such("row");
            Frequency::NINETY_KHZ
        }
    }
}

/// Turns off the feedback that a word such as `no-nack` names.
fn turn_row_feedback_off(answer: &mut Answer, row: &mut PayloadParams, word: &str) {
    match word {
        "no-transport-cc" => row.set_fb_transport_cc(false),
        "no-nack" => row.set_fb_nack(false),
        "no-pli" => row.set_fb_pli(false),
        "no-fir" => row.set_fb_fir(false),
        "no-remb" => row.set_fb_remb(false),
        _ => answer.no_such("feedback"),
    }
}

/// A codec with its rates and its format, and the text after them.
fn row_spec_and_rest<'a>(answer: &mut Answer, text: &'a str) -> (CodecSpec, &'a str) {
    let (map, rest) = listed_word(text);
    let (format, rest) = listed_word(rest);
    (row_spec_of(answer, map, format), rest)
}

/// The row, without the feedback that is turned off in it, a word each.
pub(crate) fn row_of(answer: &mut Answer, text: &str) -> PayloadParams {
    let (pt, rest) = listed_word(text);
    let (resend, rest) = listed_word(rest);
    let (red, rest) = listed_word(rest);
    let (spec, feedback) = row_spec_and_rest(answer, rest);
    let (pt, resend) = (row_type_of(answer, pt), row_type_or_dash(answer, resend));
    let mut row = PayloadParams::new(pt, resend, spec).with_red(row_type_or_dash(answer, red));
    for word in feedback.split_whitespace() {
        turn_row_feedback_off(answer, &mut row, word);
    }
    row
}

/// Appends the rows that a text names.
pub(crate) fn add_rows(answer: &mut Answer, rows: &mut Vec<PayloadParams>, text: &str) {
    if text == "none" {
        return;
    }
    for one in text.split(" + ") {
        let row = row_of(answer, one);
        answer.note(rows.extend_from_slice(&[row]));
    }
}

/// The rows that a text names.
pub fn rows_of(answer: &mut Answer, text: &str) -> Vec<PayloadParams> {
    let mut rows = Vec::new(answer.alloc());
    add_rows(answer, &mut rows, text);
    rows
}
