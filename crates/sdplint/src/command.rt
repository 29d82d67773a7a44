//! The arguments that the program takes.

use clap::{Arg, ArgAction, ArgMatches, Command};
use std::alloc::{AllocError, Global};

static COMMAND_FORMATS: [&str; 3] = ["text", "json", "sarif"];

static LEVELS: [&str; 3] = ["error", "warning", "note"];

/// An option that takes one value, and has one where it isn't given.
fn option<'a>(alloc: Global, name: &'a str, default: &'a str, help: &'a str) -> Arg<'a> {
    Arg::new(alloc, name)
        .long(name)
        .action(ArgAction::Set)
        .default_value(default)
        .help(help)
}

/// An option that takes one value, and has none where it isn't given.
fn bare_option<'a>(alloc: Global, name: &'a str, value: &'a str, help: &'a str) -> Arg<'a> {
    Arg::new(alloc, name)
        .long(name)
        .value_name(value)
        .action(ArgAction::Set)
        .help(help)
}

/// The option that has rounds run against the default rows.
fn command_against_default<'a>(alloc: Global) -> Result<Arg<'a>, AllocError> {
    Arg::new(alloc, "against-default")
        .long("against-default")
        .action(ArgAction::SetTrue)
        .help("the same against the default rows")
        .conflicts_with("against")
}

/// The program without its options.
fn bare_command<'a>(alloc: Global) -> Result<Command<'a>, AllocError> {
    let files = Arg::new(alloc, "file")
        .value_name("FILE")
        .action(ArgAction::Append)
        .default_value("-")
        .help("files of session descriptions; '-' is standard input");
    Command::new(alloc, "sdplint")
        .version("0.25.0")
        .about("Says what session descriptions lose, and why they are refused, line by line")
        .arg(files)
}

/// The program with the options of what is written.
fn command_that_writes<'a>(alloc: Global) -> Result<Command<'a>, AllocError> {
    bare_command(alloc)?
        .arg(option(alloc, "format", "text", "how findings are written").value_parser(
            COMMAND_FORMATS.as_slice(),
        ))?
        .arg(option(
            alloc,
            "level",
            "note",
            "the least severity that is shown, and counts for the status",
        )
        .value_parser(LEVELS.as_slice()))
}

/// The program with the options of what is written, and those of rounds. What may fail for want of memory is made first, so that it leaves
/// no half-made program to drop.
fn command_with_rounds<'a>(alloc: Global) -> Result<Command<'a>, AllocError> {
    let against_default = command_against_default(alloc)?;
    command_that_writes(alloc)?
        .arg(bare_option(
            alloc,
            "against",
            "FILE",
            "say what would come of rounds with each file as the other side, against the rows of this description",
        ))?
        .arg(against_default)
}

/// The program's arguments.
pub(crate) fn command<'a>(alloc: Global) -> Result<Command<'a>, AllocError> {
    command_with_rounds(alloc)?.arg(bare_option(
        alloc,
        "explain",
        "CODE",
        "say what a code means, where it comes from and what to do, with an example",
    ))
}

/// The value of an option; empty where it isn't given.
pub(crate) fn command_value<'a>(matches: &ArgMatches<'a>, name: &str) -> &'a str {
    matches.get_str(name).unwrap_or("")
}
