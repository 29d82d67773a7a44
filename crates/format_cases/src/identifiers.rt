//! Names, directions and extensions.

use crate::answer::Answer;
use std::alloc::AllocError;
use str0m_values::cuts::is_same_text;
use str0m_values::{Direction, Extension, Mid, Rid, Text};

/// Answers what the word asks of the text; whether it is one of these words.
pub(crate) fn answers(answer: &mut Answer, word: &str, text: &str) -> bool {
    match word {
        "mid" => answer.push(Mid::from(text).as_str()),
        "mid-printed" => answer.show(&Mid::from(text)),
        "rid" => answer.push(Rid::from(text).as_str()),
        "rid-printed" => answer.show(&Rid::from(text)),
        "same-text" => answer.push(same_identifier(text)),
        "receiving" => answer.push(receiving_direction(text)),
        "direction" => direction_ways(answer, direction(text)),
        "direction-answered" => answered_direction(answer, text),
        _ => return of_identifier_texts(answer, word, text),
    }
    true
}

/// Of values that hold a text.
fn of_identifier_texts(answer: &mut Answer, word: &str, text: &str) -> bool {
    let alloc = answer.alloc();
    match word {
        "text" => kept_identifier_text(answer, text),
        "extension" => extension_listing(answer, &Extension::from_sdp_uri(alloc, text)),
        "own-extension" => extension_listing(answer, &Extension::new(alloc, text, false)),
        _ => return false,
    }
    true
}

fn kept_identifier_text(answer: &mut Answer, text: &str) {
    let alloc = answer.alloc();
    let kept = answer.kept(Text::from_str(alloc, text), Text::empty());
    let string = answer.kept(kept.into_string(alloc), String::new(alloc));
    answer.push(string.as_str());
}

/// Whether two words are one text without regard to the case of ASCII letters.
fn same_identifier(text: &str) -> &'static str {
    match text.split_once(' ') {
        Some((one, other)) if is_same_text(one, other) => "yes",
        Some(_) => "no",
        None => "no two words",
    }
}

/// Whether the side that describes itself so is ready to receive.
fn receiving_direction(text: &str) -> &'static str {
    match direction(text) {
        Some(direction) if direction.sdp_is_receiving() => "yes",
        Some(_) => "no",
        None => "no direction",
    }
}

/// The direction, what its side is ready for, and how the other side says the same.
fn direction_ways(answer: &mut Answer, direction: Option<Direction>) {
    answer.show_or(&direction, "no direction");
    if let Some(direction) = direction {
        answer.push_if(direction.sends(), " sends");
        answer.push_if(direction.receives(), " receives");
        answer.push(", the other side says ");
        answer.show(&direction.invert());
    }
}

/// The direction that answers the first, where this side is ready for the second.
fn answered_direction(answer: &mut Answer, text: &str) {
    let (offered, own) = text.split_once(' ').unwrap_or((text, ""));
    match (direction(offered), direction(own)) {
        (Some(offered), Some(own)) => answer.show(&offered.answer(own)),
        _ => answer.push("no direction"),
    }
}

pub(crate) fn direction(text: &str) -> Option<Direction> {
    match text {
        "sendrecv" => Some(Direction::SendRecv),
        "sendonly" => Some(Direction::SendOnly),
        "recvonly" => Some(Direction::RecvOnly),
        "inactive" => Some(Direction::Inactive),
        _ => None,
    }
}

/// The extension's URI, and whether descriptions list it: one that they name, or one of a program's own.
fn extension_listing(answer: &mut Answer, made: &Result<Extension, AllocError>) {
    match made {
        Ok(extension) => {
            answer.push(extension.as_uri());
            answer.push(if extension.is_serialized() {
                " listed"
            } else {
                " not listed"
            });
        }
        Err(_) => answer.refuse(),
    }
}
