//! Codecs, parameters and formats: what is read and what is printed. `-` stands for what prints nothing.

use crate::answer::Answer;
use crate::lists::listed_word;
use crate::row_answers::{push_answer_or_dash, show_codec};
use crate::row_texts::{format_of, row_type_of};
use std::alloc::AllocError;
use std::fmt::Display;
use str0m_formats::{Codec, CodecSpec, FormatParam, FormatParams};
use str0m_values::MediaKind;

/// What the value prints, and `-` for nothing.
fn show_format_or_dash<T: Display>(answer: &mut Answer, value: &T) {
    let printed = answer.printed(value);
    push_answer_or_dash(answer, printed.as_str());
}

/// What packets of the codec carry.
fn content_of_codec(codec: Codec) -> &'static str {
    match (codec.is_audio(), codec.is_video(), codec.is_tele()) {
        (true, false, false) => "audio",
        (false, true, false) => "video",
        (false, false, true) => "events",
        (false, false, false) => "nothing of these",
        _ => "more than one of these",
    }
}

/// `codec NAME`: the codec that the name reads as.
pub(crate) fn codec(answer: &mut Answer, name: &str) {
    let codec = Codec::from(name);
    answer.show(&codec);
    answer.push(" carries ");
    answer.push(content_of_codec(codec));
    answer.push(", stands in ");
    answer.push(match codec.kind() {
        MediaKind::Audio => "audio",
        MediaKind::Video => "video",
    });
}

/// `static TYPE`: what a payload type stands for without a mapping.
pub(crate) fn static_format(answer: &mut Answer, text: &str) {
    match CodecSpec::from_static_pt(row_type_of(answer, text)) {
        Some(spec) => show_codec_spec(answer, &spec),
        None => answer.push("none"),
    }
}

fn show_codec_spec(answer: &mut Answer, spec: &CodecSpec) {
    show_codec(answer, spec);
    answer.push(", in RTP at ");
    answer.show(&spec.rtp_clock_rate());
}

/// What stands before and after the first `=`.
fn format_pair<'a>(answer: &mut Answer, text: &'a str) -> (&'a str, &'a str) {
    match text.split_once('=') {
        Some(pair) => pair,
        None => {
            answer.no_such("pair");
            (text, "")
        }
    }
}

/// `param KEY=VALUE`: the parameter that the value reads as after the key.
pub(crate) fn param(answer: &mut Answer, text: &str) {
    let (key, value) = format_pair(answer, text);
    show_format_or_dash(answer, &FormatParam::parse(key, value));
}

/// `events VALUE`: what a value without a key reads as.
pub(crate) fn telephone_events(answer: &mut Answer, value: &str) {
    show_format_or_dash(answer, &FormatParam::parse_telephone_events(value));
}

fn format_pairs_of<'a>(answer: &mut Answer, text: &'a str) -> Vec<(&'a str, &'a str)> {
    let mut pairs = Vec::new(answer.alloc());
    for piece in text.split(';') {
        let pair = format_pair(answer, piece);
        answer.note(pairs.extend_from_slice(&[pair]));
    }
    pairs
}

fn joined_words(answer: &mut Answer, params: &Result<Vec<FormatParam>, AllocError>) {
    match params {
        Ok(params) => show_params(answer, params.as_slice()),
        Err(_) => answer.refuse(),
    }
}

fn show_params(answer: &mut Answer, params: &[FormatParam]) {
    answer.push_if(params.is_empty(), "none");
    let mut separator = "";
    for param in params {
        answer.push(separator);
        show_format_or_dash(answer, param);
        separator = " + ";
    }
}

/// `pairs KEY=VALUE;KEY=VALUE`: the parameters that pairs read as together.
pub(crate) fn format_of_pairs(answer: &mut Answer, text: &str) {
    let pairs = format_pairs_of(answer, text);
    let read = FormatParam::parse_pairs(answer.alloc(), pairs.as_slice());
    joined_words(answer, &read);
}

/// The format that the line says.
fn said_format(answer: &mut Answer, line: &str) -> FormatParams {
    let read = FormatParams::parse_line(answer.alloc(), line);
    answer.kept(read, FormatParams::default())
}

/// `line LINE`: the format that the line says.
pub(crate) fn format_of_line(answer: &mut Answer, text: &str) {
    let format = said_format(answer, text);
    show_format_or_dash(answer, &format);
}

/// `parameters LINE`: the parameters of the format that the line says.
pub(crate) fn parameters_of_format(answer: &mut Answer, text: &str) {
    let format = said_format(answer, text);
    let params = format.to_format_param(answer.alloc());
    joined_words(answer, &params);
}

/// `triple LINE`: whose profile, tier and level the format of the line has.
pub(crate) fn format_triple(answer: &mut Answer, text: &str) {
    let format = said_format(answer, text);
    let (h265, h266) = (
        format.h265_profile_tier_level.is_some(),
        format.h266_profile_tier_level.is_some(),
    );
    answer.push(match (h265, h266) {
        (true, false) => "H265",
        (false, true) => "H266",
        (false, false) => "none",
        (true, true) => "both",
    });
}

/// `set FORMAT KEY=VALUE`: the format once the parameter is set.
pub(crate) fn set_format(answer: &mut Answer, text: &str) {
    let (line, said) = listed_word(text);
    let mut format = format_of(answer, line);
    let (key, value) = format_pair(answer, said);
    format.set_param(&FormatParam::parse(key, value));
    show_format_or_dash(answer, &format);
}
