//! What the options say of this side.

use crate::command::command_value;
use crate::fault::Fault;
use clap::ArgMatches;
use exchange::{DataChannels, OwnSide, trickled_candidate};
use std::alloc::{AllocError, Global};
use str0m_signal::{
    Candidate, Direction, Fingerprint, FingerprintError, IceCreds, Items, SdpError, SessionId, Text,
};

/// The direction of a word.
pub(crate) fn own_direction_named(word: &str) -> Option<Direction> {
    match word {
        "sendrecv" => Some(Direction::SendRecv),
        "sendonly" => Some(Direction::SendOnly),
        "recvonly" => Some(Direction::RecvOnly),
        "inactive" => Some(Direction::Inactive),
        _ => None,
    }
}

fn own_media_direction(matches: &ArgMatches<'_>, name: &str) -> Direction {
    own_direction_named(command_value(matches, name)).unwrap_or(Direction::SendRecv)
}

fn own_fingerprint(alloc: Global, matches: &ArgMatches<'_>) -> Result<Fingerprint, Fault> {
    Fingerprint::from_str(alloc, command_value(matches, "fingerprint")).map_err(
        |error| match error {
            FingerprintError::Memory => Fault::Memory,
            _ => Fault::Option {
                option: "fingerprint",
                why: "write the name of the hash, a space and its bytes in hex, parted by colons",
            },
        },
    )
}

fn own_option_texts(
    alloc: Global,
    matches: &ArgMatches<'_>,
    name: &str,
) -> Result<Items<Text>, AllocError> {
    let mut texts = Items::empty(alloc);
    if let Some(values) = matches.get_strs(name) {
        for text in values {
            add_own_text(alloc, &mut texts, text)?;
        }
    }
    Ok(texts)
}

fn add_own_text(alloc: Global, texts: &mut Items<Text>, text: &str) -> Result<(), AllocError> {
    texts.push(Text::from_str(alloc, text)?)
}

/// The candidate of a line, as `candidate:1 1 udp 2130706431 192.0.2.1 9999 typ host`.
fn own_candidate(alloc: Global, line: &str) -> Result<Candidate, Fault> {
    match trickled_candidate(alloc, line) {
        Ok(own_candidate) => Ok(own_candidate),
        Err(SdpError::Memory) => Err(Fault::Memory),
        Err(_) => Err(Fault::Option {
            option: "candidate",
            why: "write the line of a candidate that has an IP address, with or without 'a='",
        }),
    }
}

fn own_candidates(alloc: Global, matches: &ArgMatches<'_>) -> Result<Items<Candidate>, Fault> {
    let mut candidates = Items::empty(alloc);
    if let Some(lines) = matches.get_strs("candidate") {
        for line in lines {
            add_own_candidate(alloc, &mut candidates, line)?;
        }
    }
    Ok(candidates)
}

fn add_own_candidate(
    alloc: Global,
    candidates: &mut Items<Candidate>,
    line: &str,
) -> Result<(), Fault> {
    candidates.push(own_candidate(alloc, line)?)?;
    Ok(())
}

fn own_channels(matches: &ArgMatches<'_>) -> Option<DataChannels> {
    if matches.get_flag("no-channels") {
        return None;
    }
    Some(DataChannels {
        port: matches.get_one::<u16>("sctp-port").unwrap_or(5000),
        max_message_size: matches
            .get_one::<u64>("max-message-size")
            .unwrap_or(262_144),
    })
}

fn own_creds(alloc: Global, matches: &ArgMatches<'_>) -> Result<IceCreds, AllocError> {
    Ok(IceCreds {
        ufrag: Text::from_str(alloc, command_value(matches, "ufrag"))?,
        pass: Text::from_str(alloc, command_value(matches, "pwd"))?,
    })
}

/// The credentials after a restart of ICE: those of the options with the number of the offer after them.
pub(crate) fn restarted_answer(
    alloc: Global,
    matches: &ArgMatches<'_>,
    number: usize,
) -> Result<IceCreds, AllocError> {
    let (ufrag, pass) = (
        command_value(matches, "ufrag"),
        command_value(matches, "pwd"),
    );
    Ok(IceCreds {
        ufrag: Text::from(format!(in alloc; "{ufrag}{number}")?),
        pass: Text::from(format!(in alloc; "{pass}{number}")?),
    })
}

/// What the options say of this side, but for its stream, extensions and candidates.
fn bare_own_side(
    alloc: Global,
    matches: &ArgMatches<'_>,
    creds: IceCreds,
    fingerprint: Fingerprint,
) -> OwnSide {
    OwnSide {
        session_id: SessionId::from(matches.get_one::<u64>("session-id").unwrap_or(1)),
        creds,
        fingerprint,
        audio: own_media_direction(matches, "audio"),
        video: own_media_direction(matches, "video"),
        stream_id: Text::empty(),
        extensions: Items::empty(alloc),
        candidates: Items::empty(alloc),
        channels: own_channels(matches),
        directions: Items::empty(alloc),
        receives_simulcast: !matches.get_flag("no-simulcast"),
    }
}

/// What the options say of this side.
pub(crate) fn own_side(alloc: Global, matches: &ArgMatches<'_>) -> Result<OwnSide, Fault> {
    let creds = own_creds(alloc, matches)?;
    let fingerprint = own_fingerprint(alloc, matches)?;
    let mut side = bare_own_side(alloc, matches, creds, fingerprint);
    side.stream_id = Text::from_str(alloc, command_value(matches, "stream"))?;
    side.extensions = own_option_texts(alloc, matches, "extension")?;
    side.candidates = own_candidates(alloc, matches)?;
    Ok(side)
}
