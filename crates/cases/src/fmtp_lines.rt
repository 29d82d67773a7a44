//! What fmtp lines say of a codec.

use crate::said_rows::{printed, show_row_format};
use crate::spoken::spoken_section;
use format_cases::Answer;
use std::alloc::{AllocError, Global};
use str0m_signal::{Codec, FormatParam, FormatParams, Items, MediaAttribute};

/// Answers what the word asks of the text; whether it is one of these words.
pub(crate) fn answers(answer: &mut Answer, word: &str, text: &str) -> bool {
    if word != "fmtp" {
        return false;
    }
    fmtp_format(answer, text);
    true
}

/// `fmtp CODEC VALUES | VALUES`: the format that the values of fmtp lines say of the codec.
fn fmtp_format(answer: &mut Answer, text: &str) {
    let (name, values) = text.split_once(' ').unwrap_or((text, ""));
    let codec = Codec::from(name);
    if printed(answer, &codec).as_str() != name {
        answer.no_such("codec");
    }
    let lines = lines_of(answer, values);
    show_said(answer, codec, lines.as_slice());
}

/// The values of each line, in room that is asked for once.
fn fmtp_values_of(
    alloc: Global,
    lines: &[Items<FormatParam>],
) -> Result<Vec<&[FormatParam]>, AllocError> {
    let mut values = Vec::with_capacity(alloc, lines.len())?;
    for line in lines {
        values.push(line.as_slice())?;
    }
    Ok(values)
}

/// What these lines say of the codec.
fn show_said(answer: &mut Answer, codec: Codec, lines: &[Items<FormatParam>]) {
    let lines = fmtp_values_of(answer.alloc(), lines);
    if let Some(lines) = answer.made(&lines) {
        match FormatParams::from_sdp_fmtp(codec, lines.as_slice()) {
            Some(fmtp_format) => show_row_format(answer, &fmtp_format),
            None => answer.push("refused"),
        }
    }
}

/// The values of fmtp lines, by the reader of attributes; what is no such line is left out.
fn lines_of(answer: &mut Answer, text: &str) -> Vec<Items<FormatParam>> {
    let mut lines = Vec::new(answer.alloc());
    for values in text.split(" | ").filter(|values| !values.is_empty()) {
        add_line(answer, &mut lines, values);
    }
    lines
}

/// Adds the values of one fmtp line.
fn add_line(answer: &mut Answer, lines: &mut Vec<Items<FormatParam>>, values: &str) {
    let alloc = answer.alloc();
    let line = answer.kept(format!(in alloc; "a=fmtp:96 {values}"), String::new(alloc));
    let section = spoken_section(answer, line.as_str());
    if let Some(MediaAttribute::Fmtp { values, .. }) = section.attrs.as_slice().first() {
        add_fmtp_values(answer, lines, values);
    }
}

fn add_fmtp_values(
    answer: &mut Answer,
    lines: &mut Vec<Items<FormatParam>>,
    values: &Items<FormatParam>,
) {
    let none = Items::empty(answer.alloc());
    let copy = answer.kept(values.clone(), none);
    if lines.push(copy).is_err() {
        answer.refuse();
    }
}
