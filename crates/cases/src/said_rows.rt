//! The rows that sections describe, as `sdpshow rows` prints them without the mid.

use crate::spoken::{fail_to_speak, spoken_behind_header, spoken_section};
use format_cases::Answer;
use std::fmt::Display;
use str0m_signal::{
    CodecSpec, FormatParams, MediaAttribute, MediaLine, PayloadParams, RtpMap, Sdp, SdpError,
    sdp_parser,
};

/// Answers what the word asks of the text; whether it is one of these words.
pub(crate) fn answers(answer: &mut Answer, word: &str, text: &str) -> bool {
    match word {
        "rows" => rows(answer, text),
        "section-rows" => rows_alone(answer, text),
        "row-feedback" => first_row_feedback(answer, text),
        "spec-of" => row_spec_and_back(answer, text),
        _ => return false,
    }
    true
}

/// The rows of each section of a description, a line each, and a line of what is left of the text.
fn rows(answer: &mut Answer, text: &str) {
    let text = spoken_behind_header(answer, text);
    let read = sdp_parser(answer.alloc(), text.as_str());
    rows_read(answer, &read);
}

fn rows_read(answer: &mut Answer, read: &Result<(Sdp, &str), SdpError>) {
    match read {
        Ok((sdp, rest)) => show_section_rows(answer, sdp, rest),
        Err(error) => fail_to_speak(answer, error),
    }
}

fn show_section_rows(answer: &mut Answer, sdp: &Sdp, rest: &str) {
    for section in sdp.media_lines.as_slice() {
        answer.item("\n");
        show_rows(answer, section);
    }
    if !rest.is_empty() {
        answer.item("\n");
        answer.push("unread lines");
    }
    answer.or_word("no section");
}

/// The rows of a section of these attributes.
fn rows_alone(answer: &mut Answer, text: &str) {
    let section = spoken_section(answer, text);
    show_rows(answer, &section);
}

fn show_rows(answer: &mut Answer, section: &MediaLine) {
    let rows = section.rtp_params();
    if let Some(rows) = answer.made(&rows) {
        answer.push_if(rows.is_empty(), "no rows");
        let mut separator = "";
        for row in rows.iter() {
            answer.push(separator);
            show_row(answer, row);
            separator = " + ";
        }
    }
}

/// A row's type, those of its RTX and RED, its mapping and its format.
fn show_row(answer: &mut Answer, row: &PayloadParams) {
    answer.show(&row.pt());
    answer.push(" ");
    answer.show_or(&row.resend(), "-");
    answer.push(" ");
    answer.show_or(&row.red(), "-");
    answer.push(" ");
    show_row_spec(answer, &row.spec());
}

/// The mapping that a spec stands for, and its format.
fn show_row_spec(answer: &mut Answer, spec: &CodecSpec) {
    answer.show(&RtpMap {
        codec: spec.codec,
        clock_rate: spec.clock_rate,
        channels: spec.channels,
    });
    answer.push(" ");
    show_row_format(answer, &spec.format);
}

/// The format, and `-` for what prints nothing.
pub(crate) fn show_row_format(answer: &mut Answer, format: &FormatParams) {
    let printed = printed(answer, format);
    answer.push(printed.as_str());
    answer.push_if(printed.is_empty(), "-");
}

/// What the value prints.
pub(crate) fn printed<T: Display>(answer: &mut Answer, value: &T) -> String {
    let alloc = answer.alloc();
    answer.kept(value.to_string(alloc), String::new(alloc))
}

/// The feedback of the first row of a section.
fn first_row_feedback(answer: &mut Answer, text: &str) {
    let section = spoken_section(answer, text);
    let rows = section.rtp_params();
    if let Some(rows) = answer.made(&rows) {
        show_first_row_feedback(answer, rows.as_slice());
    }
}

fn show_first_row_feedback(answer: &mut Answer, rows: &[PayloadParams]) {
    match rows.first() {
        None => answer.push("no rows"),
        Some(row) => show_row_feedback(answer, row),
    }
}

/// Which feedback of a row is on.
fn show_row_feedback(answer: &mut Answer, row: &PayloadParams) {
    add_row_feedback_if(answer, "transport-cc", row.fb_transport_cc());
    add_row_feedback_if(answer, "goog-remb", row.fb_remb());
    add_row_feedback_if(answer, "ccm fir", row.fb_fir());
    add_row_feedback_if(answer, "nack", row.fb_nack());
    add_row_feedback_if(answer, "nack pli", row.fb_pli());
    answer.or_word("none");
}

fn add_row_feedback_if(answer: &mut Answer, feedback: &str, is_on: bool) {
    if is_on {
        answer.item(" + ");
        answer.push(feedback);
    }
}

/// What a mapping makes of a row, and the mapping that this stands for.
fn row_spec_and_back(answer: &mut Answer, text: &str) {
    let alloc = answer.alloc();
    let line = answer.kept(format!(in alloc; "a=rtpmap:96 {text}"), String::new(alloc));
    let section = spoken_section(answer, line.as_str());
    row_mapping_both_ways(answer, section.attrs.as_slice());
}

fn row_mapping_both_ways(answer: &mut Answer, said: &[MediaAttribute]) {
    match said.first() {
        Some(MediaAttribute::RtpMap { value, .. }) => row_both_ways(answer, *value),
        _ => answer.push("no mapping"),
    }
}

fn row_both_ways(answer: &mut Answer, map: RtpMap) {
    let spec = CodecSpec::from(map);
    show_row_spec(answer, &spec);
    let back = RtpMap::from(spec);
    answer.push(", back ");
    answer.show(&back);
    answer.push(if CodecSpec::from(back) == spec {
        ", the same again"
    } else {
        ", another"
    });
}
