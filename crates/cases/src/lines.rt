//! Lines of attributes: what each is read as, what it prints, and what is left after it.

use crate::attribute_parts::push_attribute_part;
use crate::escapes::push_escaped;
use crate::spoken::push_failure_to_speak;
use format_cases::Answer;
use std::fmt::{Debug, Display};
use str0m_signal::{
    Candidate, MediaAttribute, SdpError, SessionAttribute, candidate_attribute,
    media_attribute_line, session_attribute_line,
};

/// Answers what the word asks of the text; whether it is one of these words.
pub(crate) fn answers(answer: &mut Answer, word: &str, text: &str) -> bool {
    match word {
        "media" | "is-direction" | "rtpmap" | "fmtp-line" | "rid-line" => {
            media_line_read(answer, word, text);
        }
        "session" => session_line(answer, text),
        "candidate-line" => candidate_line(answer, text),
        _ => return false,
    }
    true
}

fn media_line_read(answer: &mut Answer, word: &str, text: &str) {
    let read = media_attribute_line(answer.alloc(), text);
    media_of_line(answer, word, &read);
}

fn media_of_line(answer: &mut Answer, word: &str, read: &Result<(MediaAttribute, &str), SdpError>) {
    match read {
        Ok((attribute, rest)) => media_read(answer, word, attribute, rest),
        Err(error) => push_failure_to_speak(answer, error),
    }
}

/// What the word asks of the line that was read: one part of it, or the whole.
fn media_read(answer: &mut Answer, word: &str, attribute: &MediaAttribute, rest: &str) {
    if word == "media" {
        show_line(answer, attribute);
        push_rest_of_line(answer, rest);
    } else {
        push_attribute_part(answer, word, attribute);
    }
}

fn session_line(answer: &mut Answer, text: &str) {
    let read = session_attribute_line(answer.alloc(), text);
    session_of(answer, &read);
}

fn session_of(answer: &mut Answer, read: &Result<(SessionAttribute, &str), SdpError>) {
    match read {
        Ok((attribute, rest)) => {
            show_line(answer, attribute);
            push_rest_of_line(answer, rest);
        }
        Err(error) => push_failure_to_speak(answer, error),
    }
}

fn candidate_line(answer: &mut Answer, text: &str) {
    let read = candidate_attribute(answer.alloc(), text);
    candidate_of_line(answer, &read);
}

fn candidate_of_line(answer: &mut Answer, read: &Result<(Candidate, &str), SdpError>) {
    match read {
        Ok((candidate, rest)) => {
            show_candidate_line(answer, candidate);
            push_rest_of_line(answer, rest);
        }
        Err(error) => push_failure_to_speak(answer, error),
    }
}

fn show_candidate_line(answer: &mut Answer, candidate: &Candidate) {
    let printed = candidate.to_sdp_string(answer.alloc());
    if let Some(printed) = answer.made(&printed) {
        answer.push(printed.as_str());
    }
}

/// The name of the attribute, and the line that it prints.
pub(crate) fn show_line<T: Debug + Display>(answer: &mut Answer, attribute: &T) {
    push_name_of_line(answer, attribute);
    let printed = attribute.to_string(answer.alloc());
    if let Some(line) = answer.made(&printed) {
        answer.push(if line.is_empty() {
            ", not printed"
        } else {
            " "
        });
        push_escaped(answer, line.as_str());
    }
}

/// The name of the attribute: what its `Debug` shows before the values that it holds.
fn push_name_of_line<T: Debug>(answer: &mut Answer, attribute: &T) {
    let shown = format!(in answer.alloc(); "{attribute:?}");
    if let Some(shown) = answer.made(&shown) {
        for character in shown.as_str().chars() {
            if character == '(' || character == ' ' {
                break;
            }
            answer.show(&character);
        }
    }
}

/// What the value prints.
pub(crate) fn push_printed<T: Display>(answer: &mut Answer, value: &T) {
    let printed = value.to_string(answer.alloc());
    if let Some(printed) = answer.made(&printed) {
        push_escaped(answer, printed.as_str());
    }
}

/// What is left after what was read, if anything is.
pub(crate) fn push_rest_of_line(answer: &mut Answer, rest: &str) {
    if !rest.is_empty() {
        answer.push("\nleft ");
        push_escaped(answer, rest);
    }
}
