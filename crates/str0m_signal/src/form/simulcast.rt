//! Lines of streams in several layers.
ghost use Rattle.std.specs.List.{list_all};
ghost use Rattle.std.specs.Prelude.{◌≡◌, IfOk, option_map, chars};
ghost use Rattle.str0m_signal.specs.form.MediaAttribute.{simulcast};
ghost use Rattle.str0m_signal.specs.form.RidStreamName.{is_name_character, is_stream_name};
ghost use Rattle.str0m_signal.specs.form.SimulcastReading.{simulcast_sides_of, alternative_read, first_name_read, layer_read, sides_read, layers_of, simulcast_fields_read};

use crate::line::parts::{Part, are_parts, parts};
use std::alloc::{AllocError, Global};
use str0m_sdp::{MediaAttribute, RestrictionId, Simulcast, SimulcastGroups, SimulcastLayer, label};
use str0m_values::cuts::{cut, has, strip};
use str0m_values::{Items, Separator, Text};
use unicode::properties::{GeneralCategory, is_alphabetic};

#[tactic(auto, unfolding(crate::specs::form::RidStreamName::is_name_character))]
fn is_name_character(character: char) -> bool
    ensures { result ≡ is_name_character character }
{
    if is_alphabetic(character) {
        return true;
    }
    match GeneralCategory::for_char(character) {
        GeneralCategory::DecimalNumber
        | GeneralCategory::LetterNumber
        | GeneralCategory::OtherNumber => true,
        _ => false,
    }
}

fn are_name_characters(text: &str) -> bool
    ensures { result ≡ list_all is_name_character (chars text.now) }
{
    text.chars().all(|character| is_name_character(character))
}

/// Whether the text is a stream's name.
pub(crate) fn is_stream_name(text: &str) -> bool
    ensures { result ≡ is_stream_name text.now }
{
    !text.is_empty()
        && are_name_characters(text)
        && !has(text, Separator::Space)
        && !has(text, Separator::Comma)
        && !has(text, Separator::Semicolon)
        && !has(text, Separator::Tilde)
}

/// A name, after `~` where it isn't active.
impl Part for RestrictionId {
    type Value = RestrictionId;

    ghost reading = { alternative_read };

    fn is_part(text: &str) -> bool {
        match strip(text, "~") {
            Some(name) => is_stream_name(name),
            None => is_stream_name(text),
        }
    }

    fn read(alloc: Global, text: &str) -> Result<Option<RestrictionId>, AllocError> {
        if let Some(name) = strip(text, "~") {
            if !is_stream_name(name) {
                return Ok(None);
            }
            let name = Text::from_str(alloc, name)?;
            return Ok(Some(RestrictionId(name, false)));
        }
        if !is_stream_name(text) {
            return Ok(None);
        }
        let name = Text::from_str(alloc, text)?;
        Ok(Some(RestrictionId(name, true)))
    }
}

/// The first of several names; the others aren't kept.
fn first_layer_name(alloc: Global, text: &str) -> Result<Option<RestrictionId>, AllocError>
    ensures { IfOk result (λ found. found ≡ first_name_read text.now) }
{
    let Some((first, others)) = cut(text, Separator::Comma) else {
        return RestrictionId::read(alloc, text);
    };
    if are_parts::<RestrictionId>(others, Separator::Comma) {
        RestrictionId::read(alloc, first)
    } else {
        Ok(None)
    }
}

/// The names of a layer.
impl Part for SimulcastLayer {
    type Value = SimulcastLayer;

    ghost reading = { layer_read };

    fn is_part(text: &str) -> bool {
        match cut(text, Separator::Comma) {
            None => RestrictionId::is_part(text),
            Some((first, others)) => {
                RestrictionId::is_part(first)
                    && are_parts::<RestrictionId>(others, Separator::Comma)
            }
        }
    }

    fn read(alloc: Global, text: &str) -> Result<Option<SimulcastLayer>, AllocError> {
        match first_layer_name(alloc, text)? {
            Some(restriction_id) => Ok(Some(SimulcastLayer {
                restriction_id,
                attributes: None,
            })),
            None => Ok(None),
        }
    }
}

/// The layers of a side, and of the other one where it follows.
#[derive(Drop)]
struct LayerSides {
    first: Items<SimulcastLayer>,
    second: Items<SimulcastLayer>,
}

/// Memory is asked for only where both sides can be read.
fn both_layer_sides(
    alloc: Global,
    text: &str,
    other: &str,
) -> Result<Option<LayerSides>, AllocError>
    ensures { IfOk result (λ found. option_map simulcast_sides_of found ≡ sides_read other.now text.now) }
{
    let Some((front, behind)) = cut(text, Separator::Space) else {
        return match parts::<SimulcastLayer>(alloc, text, Separator::Semicolon)? {
            Some(first) => {
                let second = Items::empty(alloc);
                Ok(Some(LayerSides { first, second }))
            }
            None => Ok(None),
        };
    };
    let Some(rest) = strip(behind, other) else {
        return Ok(None);
    };
    if !are_parts::<SimulcastLayer>(rest, Separator::Semicolon) {
        return Ok(None);
    }
    let Some(first) = parts::<SimulcastLayer>(alloc, front, Separator::Semicolon)? else {
        return Ok(None);
    };
    let Some(second) = parts::<SimulcastLayer>(alloc, rest, Separator::Semicolon)? else {
        return Ok(None);
    };
    Ok(Some(LayerSides { first, second }))
}

/// The layers of the text after the label.
fn simulcast_layers(alloc: Global, text: &str) -> Result<Option<Simulcast>, AllocError>
    ensures { IfOk result (λ found. found ≡ simulcast_fields_read text.now) }
{
    if let Some(body) = strip(text, "send ") {
        let Some(LayerSides { first, second }) = both_layer_sides(alloc, body, "recv ")? else {
            return Ok(None);
        };
        return Ok(Some(simulcast(first, second)));
    }
    let Some(body) = strip(text, "recv ") else {
        return Ok(None);
    };
    let Some(LayerSides { first, second }) = both_layer_sides(alloc, body, "send ")? else {
        return Ok(None);
    };
    Ok(Some(simulcast(second, first)))
}

fn simulcast(send: Items<SimulcastLayer>, recv: Items<SimulcastLayer>) -> Simulcast
    ensures { result ≡ layers_of send recv }
{
    Simulcast {
        send: SimulcastGroups(send),
        recv: SimulcastGroups(recv),
        is_munged: false,
    }
}

/// The simulcast line of the text after `a=`.
#[inline(never)]
pub(crate) fn simulcast_line(
    alloc: Global,
    text: &str,
) -> Result<Option<MediaAttribute>, AllocError>
    ensures { IfOk result (λ found. found ≡ simulcast.read text.now) }
{
    let Some(body) = strip(text, label::SIMULCAST) else {
        return Ok(None);
    };
    match simulcast_layers(alloc, body)? {
        Some(simulcast) => Ok(Some(MediaAttribute::Simulcast(simulcast))),
        None => Ok(None),
    }
}
