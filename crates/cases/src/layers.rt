//! Layers with what is noted of them, which no line of a description makes; and values that hold nothing.

use crate::random_names;
use format_cases::Answer;
use std::alloc::{AllocError, Global};
use str0m_signal::{Items, RestrictionId, SimulcastLayer, Text};

/// Answers what the word asks of the text; whether it is one of these words.
pub(crate) fn answers(answer: &mut Answer, asked: &str, text: &str) -> bool {
    let alloc = answer.alloc();
    match asked {
        "layer" => copied_layer(answer, &layer_of(alloc, text)),
        "empty" => empty_layer_parts(answer),
        "random-msid" => random_names::drawn_name(answer, text),
        _ => return false,
    }
    true
}

/// What is noted of a layer, as `KEY=VALUE`.
fn layer_notes_of(alloc: Global, text: &str) -> Result<Items<(Text, Text)>, AllocError> {
    let (key, value) = text.split_once('=').unwrap_or((text, ""));
    let key = Text::from_str(alloc, key)?;
    let value = Text::from_str(alloc, value)?;
    let mut notes = Items::empty(alloc);
    notes.push((key, value))?;
    Ok(notes)
}

/// A paused layer, as `NAME KEY=VALUE`.
fn layer_of(alloc: Global, text: &str) -> Result<SimulcastLayer, AllocError> {
    let (name, note) = text.split_once(' ').unwrap_or((text, ""));
    let restriction_id = RestrictionId::new(Text::from_str(alloc, name)?, false);
    let attributes = Some(layer_notes_of(alloc, note)?);
    Ok(SimulcastLayer {
        restriction_id,
        attributes,
    })
}

/// The copy of a layer, and what is noted of it.
fn copied_layer(answer: &mut Answer, made: &Result<SimulcastLayer, AllocError>) {
    match made {
        Ok(layer) => shown_layer(answer, &layer.clone()),
        Err(_) => answer.refuse(),
    }
}

fn shown_layer(answer: &mut Answer, copy: &Result<SimulcastLayer, AllocError>) {
    match copy {
        Ok(copy) => {
            show_layer_id(answer, &copy.restriction_id);
            if let Some(notes) = &copy.attributes {
                with_layer_notes(answer, notes.as_slice());
            }
        }
        Err(_) => answer.refuse(),
    }
}

fn show_layer_id(answer: &mut Answer, id: &RestrictionId) {
    let alloc = answer.alloc();
    let printed = answer.kept(id.to_sdp(alloc), String::new(alloc));
    answer.push(printed.as_str());
}

fn with_layer_notes(answer: &mut Answer, notes: &[(Text, Text)]) {
    for (key, value) in notes {
        answer.push(" ");
        answer.show(key);
        answer.push("=");
        answer.show(value);
    }
}

/// An empty text, the id of no restriction and a list of nothing, which take no memory.
fn empty_layer_parts(answer: &mut Answer) {
    let alloc = answer.alloc();
    let items: Items<u8> = Items::empty(alloc);
    answer.push("text `");
    answer.show(&Text::empty());
    answer.push("`, id `");
    answer.show(&RestrictionId::empty(alloc));
    answer.push("`, ");
    answer.show(&items.len());
    answer.push(" items");
}
