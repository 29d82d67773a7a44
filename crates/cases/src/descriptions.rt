//! Descriptions: their sessions and sections, what is left after them, and why they are refused.

use crate::escapes::push_escaped;
use crate::lines::{push_printed, push_rest_of_line};
use crate::section_shown::{append_section, append_session};
use crate::spoken::{push_failure_to_speak, spoken_behind_header};
use crate::{copied_parts, cuts, without_memory};
use format_cases::Answer;
use std::alloc::AllocError;
use str0m_signal::{
    MediaLine, Sdp, SdpAnswer, SdpError, SdpOffer, Session, VersionedSdp, sdp_parser,
    session_parser,
};

/// The version with which `versioned` prints.
const DESCRIPTION_VERSION: u64 = 1234567890123;

/// Answers what the word asks of the text; whether it is one of these words.
pub(crate) fn answers(answer: &mut Answer, word: &str, text: &str) -> bool {
    match word {
        "header" => description_header(answer, text),
        "description" | "copied" | "versioned" => asked_description(answer, word, text),
        "offer-text" => offer(answer, text),
        "answer-text" => answer_printed(answer, text),
        "cut" => cuts::cut(answer, text),
        "copied-parts" => copied_parts::copied_layer(answer, text),
        "without-memory" => without_memory::read(answer, text),
        _ => return of_lines(answer, word, text),
    }
    true
}

/// What the word asks of lines after a header.
fn of_lines(answer: &mut Answer, word: &str, lines: &str) -> bool {
    let text = spoken_behind_header(answer, lines);
    match word {
        "header-with" => description_header(answer, text.as_str()),
        "description-with" | "consistent" | "section-printed" | "m-line" => {
            asked_description(answer, word, text.as_str());
        }
        _ => return false,
    }
    true
}

/// The session that the text begins with, and what is left.
fn description_header(answer: &mut Answer, text: &str) {
    let read = session_parser(answer.alloc(), text);
    description_header_of(answer, &read);
}

fn description_header_of(answer: &mut Answer, read: &Result<(Session, &str), SdpError>) {
    match read {
        Ok((session, rest)) => {
            append_session(answer, session);
            push_rest_of_line(answer, rest);
        }
        Err(error) => push_failure_to_speak(answer, error),
    }
}

/// What the word asks of the description that the text begins with.
fn asked_description(answer: &mut Answer, word: &str, text: &str) {
    let read = sdp_parser(answer.alloc(), text);
    description_of(answer, word, &read);
}

fn description_of(answer: &mut Answer, word: &str, read: &Result<(Sdp, &str), SdpError>) {
    match read {
        Ok((sdp, rest)) => show_description(answer, word, sdp, rest),
        Err(error) => push_failure_to_speak(answer, error),
    }
}

fn show_description(answer: &mut Answer, word: &str, sdp: &Sdp, rest: &str) {
    match word {
        "copied" => show_description_copy(answer, &sdp.clone()),
        "versioned" => push_printed(
            answer,
            &VersionedSdp {
                sdp,
                version: DESCRIPTION_VERSION,
            },
        ),
        "consistent" => answer.push("consistent"),
        "section-printed" => show_first_of_description(answer, sdp.media_lines.as_slice()),
        "m-line" => show_m_line(answer, sdp.media_lines.as_slice()),
        _ => {
            append_session(answer, &sdp.session);
            for section in sdp.media_lines.as_slice() {
                append_section(answer, section);
            }
            push_rest_of_line(answer, rest);
        }
    }
}

/// What a copy of the description prints: all of its parts are copied with it.
fn show_description_copy(answer: &mut Answer, copy: &Result<Sdp, AllocError>) {
    if let Some(copy) = answer.made(copy) {
        push_printed(answer, copy);
    }
}

/// What the first section prints.
fn show_first_of_description(answer: &mut Answer, sections: &[MediaLine]) {
    match sections.first() {
        Some(section) => push_printed(answer, section),
        None => answer.push("no section"),
    }
}

/// The m-line of the first section.
fn show_m_line(answer: &mut Answer, sections: &[MediaLine]) {
    if let Some(section) = sections.first() {
        push_made_text(answer, &section.m_line());
    }
    answer.or_word("no section");
}

/// What an offer of this text prints.
fn offer(answer: &mut Answer, text: &str) {
    let read = SdpOffer::from_sdp_string(answer.alloc(), text);
    offer_of(answer, &read);
}

fn offer_of(answer: &mut Answer, read: &Result<SdpOffer, SdpError>) {
    match read {
        Ok(offer) => push_made_text(answer, &offer.to_sdp_string()),
        Err(error) => push_failure_to_speak(answer, error),
    }
}

/// What an answer of this text prints.
fn answer_printed(answer: &mut Answer, text: &str) {
    let read = SdpAnswer::from_sdp_string(answer.alloc(), text);
    answer_of(answer, &read);
}

fn answer_of(answer: &mut Answer, read: &Result<SdpAnswer, SdpError>) {
    match read {
        Ok(read) => push_made_text(answer, &read.to_sdp_string()),
        Err(error) => push_failure_to_speak(answer, error),
    }
}

fn push_made_text(answer: &mut Answer, printed: &Result<String, AllocError>) {
    if let Some(printed) = answer.made(printed) {
        push_escaped(answer, printed.as_str());
    }
}
