//! The steps of a session.

use crate::fault::Fault;
use crate::own::{own_direction_named, restarted_answer};
use clap::ArgMatches;
use exchange::{Exchange, is_ice_restart};
use std::alloc::Global;
use std::io::Read;
use std::{fs, io};
use str0m_signal::{MediaKind, Mid, SdpError, SdpOffer};

const STANDARD_INPUT: &str = "-";

/// The text of a file, or of standard input.
fn session_text_of(rt: &HostRuntime, file: &str) -> io::Result<String> {
    if file != STANDARD_INPUT {
        return fs::read_to_string(rt, file);
    }
    let mut text = String::new(rt.alloc());
    rt.stdin().read_to_string(&mut text)?;
    Ok(text)
}

/// The text of a file, or why there is none.
fn read_session_file(rt: &HostRuntime, file: &str) -> Result<String, Fault> {
    match session_text_of(rt, file) {
        Ok(text) => Ok(text),
        Err(error) => Err(Fault::of_reading(rt.alloc(), file, error)),
    }
}

/// Whether the offer restarts ICE. A text that is no offer restarts nothing: it is refused later.
fn session_restarts_ice(alloc: Global, exchange: &Exchange, offer: &str) -> Result<bool, Fault> {
    let Some(before) = exchange.remote() else {
        return Ok(false);
    };
    match SdpOffer::from_sdp_string(alloc, offer) {
        Ok(now) => Ok(is_ice_restart(before, &now)?),
        Err(SdpError::Memory) => Err(Fault::Memory),
        Err(_) => Ok(false),
    }
}

/// Answers an offer of the other side, the step with this number; the answer as text.
fn answer_to(
    rt: &HostRuntime,
    matches: &ArgMatches<'_>,
    exchange: &mut Exchange,
    number: usize,
    file: &str,
) -> Result<String, Fault> {
    let text = read_session_file(rt, file)?;
    // An answer to a restart says credentials of its own (RFC 8839, section 4.4.3.1).
    if session_restarts_ice(rt.alloc(), exchange, text.as_str())? {
        exchange.restart_ice(restarted_answer(rt.alloc(), matches, number)?);
    }
    answer_to_text(rt.alloc(), exchange, file, text.as_str())
}

/// Answers an offer of the other side, the text of a file; the answer as text.
fn answer_to_text(
    alloc: Global,
    exchange: &mut Exchange,
    file: &str,
    text: &str,
) -> Result<String, Fault> {
    match exchange.accept_offer(text) {
        Ok(answer) => Ok(answer.to_string(alloc)?),
        Err(error) => Err(Fault::of_text(alloc, file, error)),
    }
}

/// Takes the other side's answer to the offer of this side.
fn accept_session_answer(
    rt: &HostRuntime,
    exchange: &mut Exchange,
    file: &str,
) -> Result<(), Fault> {
    let text = read_session_file(rt, file)?;
    match exchange.accept_answer(text.as_str()) {
        Ok(()) => Ok(()),
        Err(error) => Err(Fault::of_text(rt.alloc(), file, error)),
    }
}

/// Makes an offer of this side; the offer as text.
pub(crate) fn offer(alloc: Global, exchange: &mut Exchange) -> Result<String, Fault> {
    match exchange.create_offer() {
        Ok(offer) => Ok(offer.to_string(alloc)?),
        Err(error) => Err(Fault::of_text(alloc, "offer", error)),
    }
}

/// Adds what is named, as `audio`, `video,recvonly` or `channels`.
fn add_offer(alloc: Global, exchange: &mut Exchange, step: &str, what: &str) -> Result<(), Fault> {
    let (kind, direction) = what.split_once(',').unwrap_or((what, "sendrecv"));
    let Some(direction) = own_direction_named(direction) else {
        return Err(Fault::of_step(alloc, step));
    };
    let added = match kind {
        "audio" => exchange.add_media(MediaKind::Audio, direction),
        "video" => exchange.add_media(MediaKind::Video, direction),
        "channels" => exchange.add_channels(),
        _ => return Err(Fault::of_step(alloc, step)),
    };
    added.map_err(|error| Fault::of_text(alloc, step, error))
}

/// Turns a section, as `0,inactive`.
fn turn_session(
    alloc: Global,
    exchange: &mut Exchange,
    step: &str,
    said: &str,
) -> Result<(), Fault> {
    let (mid, direction) = said.split_once(',').unwrap_or((said, ""));
    let Some(direction) = own_direction_named(direction) else {
        return Err(Fault::of_step(alloc, step));
    };
    let turned = exchange.set_direction(Mid::from(mid), direction);
    turned.map_err(|error| Fault::of_text(alloc, step, error))
}

/// Takes a step that is a word, or a file with an offer; what this side says then.
fn take_session_word(
    rt: &HostRuntime,
    matches: &ArgMatches<'_>,
    exchange: &mut Exchange,
    number: usize,
    step: &str,
) -> Result<Option<String>, Fault> {
    match step {
        "offer" => return Ok(Some(offer(rt.alloc(), exchange)?)),
        "rollback" => exchange.rollback(),
        "restart" => exchange.restart_ice(restarted_answer(rt.alloc(), matches, number)?),
        file => return Ok(Some(answer_to(rt, matches, exchange, number, file)?)),
    }
    Ok(None)
}

/// Takes the step with this number; what this side says then, as text, where it says something.
pub(crate) fn take_session_step(
    rt: &HostRuntime,
    matches: &ArgMatches<'_>,
    exchange: &mut Exchange,
    number: usize,
    step: &str,
) -> Result<Option<String>, Fault> {
    if let Some(file) = step.strip_prefix("answer=") {
        accept_session_answer(rt, exchange, file)?;
    } else if let Some(what) = step.strip_prefix("add=") {
        add_offer(rt.alloc(), exchange, step, what)?;
    } else if let Some(said) = step.strip_prefix("direction=") {
        turn_session(rt.alloc(), exchange, step, said)?;
    } else {
        return take_session_word(rt, matches, exchange, number, step);
    }
    Ok(None)
}
