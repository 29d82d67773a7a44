//! Rows that are put into a section of a description, printed with it and read again.

use crate::made_sections::push_made_section;
use crate::negotiated::show_negotiated_outcomes;
use crate::spoken::{fail_to_speak, spoken_description};
use crate::writable::changed_attribute;
use format_cases::{Answer, configuration, show_rows};
use str0m_signal::{
    CodecConfig, PayloadParams, Sdp, SdpError, is_writable, negotiate_text, sdp_parser, section_of,
};

/// Answers what the word asks of the text; whether it is one of these words.
pub(crate) fn answers(answer: &mut Answer, word: &str, text: &str) -> bool {
    if !matches!(
        word,
        "section-of" | "read-back" | "negotiate-back" | "first-back"
    ) {
        return false;
    }
    let (own, text) = text.split_once(" | ").unwrap_or((text, ""));
    let mut config = configuration(answer, own);
    match word {
        "section-of" => section_printed(answer, config.params(), text),
        "read-back" => read_back(answer, config.params(), text),
        "first-back" => first_back(answer, &mut config, text),
        _ => negotiated_back(answer, &mut config, text),
    }
    true
}

/// The rows in the frame of a description's first section, printed.
fn section_printed(answer: &mut Answer, rows: &[PayloadParams], lines: &str) {
    if let Some(sdp) = &spoken_description(answer, lines) {
        push_first_to_read_back(answer, sdp, rows);
    }
}

fn push_first_to_read_back(answer: &mut Answer, sdp: &Sdp, rows: &[PayloadParams]) {
    match sdp.media_lines.as_slice().first() {
        Some(frame) => push_made_section(answer, frame, rows),
        None => answer.push("no section"),
    }
}

/// `read-back ROWS | INDEX LINES | CHANGE`: whether the rows come back from the section at the index.
fn read_back(answer: &mut Answer, rows: &[PayloadParams], text: &str) {
    let (index, text) = text.split_once(' ').unwrap_or((text, ""));
    if let Some(sdp) = &changed_attribute(answer, text) {
        come_back_at(answer, sdp, index, rows);
    }
}

fn come_back_at(answer: &mut Answer, sdp: &Sdp, index: &str, rows: &[PayloadParams]) {
    match index.parse::<usize>() {
        Ok(index) => come_back(answer, sdp, index, rows),
        Err(_) => answer.push("no index"),
    }
}

/// Runs the rounds of the text: what each comes to, and whether the rows that they leave come back from each of its
/// audio and video sections.
fn negotiated_back(answer: &mut Answer, config: &mut CodecConfig, text: &str) {
    negotiated_and_back(answer, config, text);
    let read = sdp_parser(answer.alloc(), text);
    add_back(answer, &read, config.params());
}

fn negotiated_and_back(answer: &mut Answer, config: &mut CodecConfig, text: &str) {
    match &negotiate_text(config, text) {
        Ok(outcomes) => show_negotiated_outcomes(answer, outcomes.as_slice()),
        Err(error) => fail_to_speak(answer, error),
    }
}

/// `first-back ROWS | LINES | TEXT`: runs the rounds of the text, and puts the first row that they leave, alone, into the first
/// section that the lines describe: what each round comes to, what the section prints, and whether the row comes back.
fn first_back(answer: &mut Answer, config: &mut CodecConfig, text: &str) {
    let (lines, text) = text.split_once(" | ").unwrap_or((text, ""));
    negotiated_and_back(answer, config, text);
    if let (Some(sdp), Some(first)) = (
        &spoken_description(answer, lines),
        config.params().first(),
    ) {
        answer.item("\n");
        push_first_to_read_back(answer, sdp, &[*first]);
        answer.item("\n");
        come_back(answer, sdp, 0, &[*first]);
    }
}

fn add_back(answer: &mut Answer, read: &Result<(Sdp, &str), SdpError>, rows: &[PayloadParams]) {
    match read {
        Ok((sdp, _)) => add_sections_back(answer, sdp, rows),
        Err(error) => fail_to_speak(answer, error),
    }
}

fn add_sections_back(answer: &mut Answer, sdp: &Sdp, rows: &[PayloadParams]) {
    for (index, section) in sdp.media_lines.as_slice().iter().enumerate() {
        if section.typ.is_media() {
            answer.item("\n");
            answer.push("section ");
            answer.show(&index);
            answer.push(": ");
            come_back(answer, sdp, index, rows);
        }
    }
}

/// Prints the description with the rows in the section at the index, if that is writable, and reads it again: whether
/// all of it is read, and that section describes these rows in this order.
fn come_back(answer: &mut Answer, sdp: &Sdp, index: usize, rows: &[PayloadParams]) {
    match is_writable(sdp, index) {
        Ok(true) => put_and_read(answer, sdp, index, rows),
        Ok(false) => answer.push("not writable"),
        Err(_) => answer.refuse(),
    }
}

fn put_and_read(answer: &mut Answer, sdp: &Sdp, index: usize, rows: &[PayloadParams]) {
    match &mut sdp.clone() {
        Ok(sdp) => {
            put_rows(answer, sdp, index, rows);
            read_again(answer, sdp, index, rows);
        }
        Err(_) => answer.refuse(),
    }
}

/// Puts the rows into the section at the index, if there is one.
fn put_rows(answer: &mut Answer, sdp: &mut Sdp, index: usize, rows: &[PayloadParams]) {
    if let Some(section) = sdp.media_lines.0.get_mut(index) {
        match section_of(section, rows) {
            Ok(made) => *section = made,
            Err(_) => answer.refuse(),
        }
    }
}

/// Whether all that the description prints is read, and its section at the index describes these rows.
fn read_again(answer: &mut Answer, sdp: &Sdp, index: usize, rows: &[PayloadParams]) {
    let printed = answer.printed(sdp);
    let read = sdp_parser(answer.alloc(), printed.as_str());
    compare_read(answer, &read, index, rows);
}

fn compare_read(
    answer: &mut Answer,
    read: &Result<(Sdp, &str), SdpError>,
    index: usize,
    rows: &[PayloadParams],
) {
    match read {
        Ok((sdp, rest)) if rest.is_empty() => compare_read_back_at(answer, sdp, index, rows),
        Ok(_) => answer.push("unread lines"),
        Err(error) => fail_to_speak(answer, error),
    }
}

/// Compares with the rows of the section at the index; none where there is no such section.
fn compare_read_back_at(answer: &mut Answer, sdp: &Sdp, index: usize, rows: &[PayloadParams]) {
    match sdp.media_lines.as_slice().get(index) {
        Some(section) => {
            let found = section.rtp_params();
            if let Some(found) = answer.made(&found) {
                compare_read_back(answer, found.as_slice(), rows);
            }
        }
        None => compare_read_back(answer, &[], rows),
    }
}

fn compare_read_back(answer: &mut Answer, found: &[PayloadParams], rows: &[PayloadParams]) {
    if found == rows {
        answer.push("equal");
    } else {
        answer.push("other rows: ");
        show_rows(answer, found);
    }
}
