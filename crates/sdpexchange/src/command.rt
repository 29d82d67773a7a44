//! The arguments that the program takes.

use clap::{Arg, ArgAction, ArgMatches, Command, value_parser};
use std::alloc::{AllocError, Global};

static COMMAND_DIRECTIONS: [&str; 4] = ["sendrecv", "sendonly", "recvonly", "inactive"];

static COMMAND_STEPS: &str =
    "what happens, in order: FILE, an offer of the other side, which is answered ('-' is standard input); add=audio, add=video or add=channels, \
also with a direction as add=audio,recvonly; direction=MID,DIRECTION; restart; offer, an offer of this side; answer=FILE, the other side's \
answer to it; rollback. Without any, an offer is read from standard input";

/// The codecs that can be named, in the order in which `--help` shows them.
pub(crate) static COMMAND_CODECS: [&str; 12] = [
    "opus", "pcmu", "pcma", "g722", "cn", "amr-wb", "vp8", "vp9", "av1", "h264", "h265", "h266",
];

/// What an option takes.
#[derive(Clone, Copy)]
enum CommandOptionTakes {
    /// A text, and the option has to be given.
    Required,
    /// A text, which is this one where the option isn't given.
    Text(&'static str),
    /// A direction, `sendrecv` where the option isn't given.
    Direction,
    /// A number of 16 bits, which is this one where the option isn't given.
    Short(&'static str),
    /// A number of 64 bits, which is this one where the option isn't given.
    Long(&'static str),
    /// A text each time that it is given.
    Texts,
    /// The name of a codec each time that it is given.
    Codecs,
    /// Nothing.
    Nothing,
}

/// The options in the order of `--help`: the name, how its value is called, what it takes, and what it says.
static OPTIONS: [(&str, &str, CommandOptionTakes, &str); 15] = [
    (
        "offer",
        "",
        CommandOptionTakes::Nothing,
        "end with an offer of this side",
    ),
    (
        "ufrag",
        "TEXT",
        CommandOptionTakes::Required,
        "ICE user fragment of this side",
    ),
    (
        "pwd",
        "TEXT",
        CommandOptionTakes::Required,
        "ICE password of this side",
    ),
    (
        "fingerprint",
        "HASH",
        CommandOptionTakes::Required,
        "hash of this side's certificate, as 'sha-256 AB:CD:..'",
    ),
    (
        "candidate",
        "LINE",
        CommandOptionTakes::Texts,
        "where this side is reached, a candidate with or without 'a='",
    ),
    (
        "session-id",
        "NUMBER",
        CommandOptionTakes::Long("1"),
        "number of the session in the 'o=' line",
    ),
    (
        "audio",
        "DIRECTION",
        CommandOptionTakes::Direction,
        "what this side is ready for in audio",
    ),
    (
        "video",
        "DIRECTION",
        CommandOptionTakes::Direction,
        "what this side is ready for in video",
    ),
    (
        "stream",
        "ID",
        CommandOptionTakes::Text("-"),
        "id of the stream that this side sends",
    ),
    (
        "codec",
        "NAME",
        CommandOptionTakes::Codecs,
        "a codec of this side, in order of preference; the default rows where none is named",
    ),
    (
        "extension",
        "URI",
        CommandOptionTakes::Texts,
        "a header extension that this side knows",
    ),
    (
        "no-simulcast",
        "",
        CommandOptionTakes::Nothing,
        "receive no layers of simulcast",
    ),
    (
        "sctp-port",
        "PORT",
        CommandOptionTakes::Short("5000"),
        "port of SCTP for data channels",
    ),
    (
        "max-message-size",
        "BYTES",
        CommandOptionTakes::Long("262144"),
        "longest message of a data channel; 0 for any",
    ),
    (
        "no-channels",
        "",
        CommandOptionTakes::Nothing,
        "take no data channels",
    ),
];

/// The option as `clap` has it, where it takes a value.
fn command_option_with_value<'a>(
    arg: Arg<'a>,
    value: &'a str,
    takes: CommandOptionTakes,
) -> Arg<'a> {
    let arg = arg.value_name(value);
    match takes {
        CommandOptionTakes::Required => arg.action(ArgAction::Set).required(true),
        CommandOptionTakes::Text(default) => arg.action(ArgAction::Set).default_value(default),
        CommandOptionTakes::Direction => arg
            .action(ArgAction::Set)
            .default_value("sendrecv")
            .value_parser(COMMAND_DIRECTIONS.as_slice()),
        CommandOptionTakes::Short(default) => arg
            .action(ArgAction::Set)
            .default_value(default)
            .value_parser(value_parser!(u16)),
        CommandOptionTakes::Long(default) => arg
            .action(ArgAction::Set)
            .default_value(default)
            .value_parser(value_parser!(u64)),
        CommandOptionTakes::Codecs => arg
            .action(ArgAction::Append)
            .value_parser(COMMAND_CODECS.as_slice()),
        CommandOptionTakes::Texts | CommandOptionTakes::Nothing => arg.action(ArgAction::Append),
    }
}

/// The program's arguments.
pub(crate) fn command<'a>(alloc: Global) -> Result<Command<'a>, AllocError> {
    let steps = Arg::new(alloc, "step")
        .value_name("STEP")
        .action(ArgAction::Append)
        .help(COMMAND_STEPS);
    let mut command = Command::new(alloc, "sdpexchange")
        .version("0.25.0")
        .about("Takes the steps of a session, and writes the last answer or offer of this side")
        .arg(steps)?;
    for &(name, value, takes, help) in &OPTIONS {
        let arg = Arg::new(alloc, name).long(name).help(help);
        let arg = match takes {
            CommandOptionTakes::Nothing => arg.action(ArgAction::SetTrue),
            _ => command_option_with_value(arg, value, takes),
        };
        command = command.arg(arg)?;
    }
    Ok(command)
}

/// The value of an option; empty where it isn't given.
pub(crate) fn command_value<'a>(matches: &ArgMatches<'a>, name: &str) -> &'a str {
    matches.get_str(name).unwrap_or("")
}
