//! Takes the steps of a session, and writes the last answer or offer of this side.
#![tactic(auto)]

mod codecs;
mod command;
mod fault;
mod own;
mod session;

use crate::codecs::configured_codecs;
use crate::command::command;
use crate::fault::Fault;
use crate::own::own_side;
use crate::session::{offer, take_session_step};
use clap::error::ErrorKind;
use clap::{ArgMatches, Error};
use exchange::Exchange;
use std::io::Write;
use std::process::ExitCode;
use std::{env, io};

/// Takes the steps, in order; what this side has said last, as text.
fn exchange_said_by(
    rt: &HostRuntime,
    matches: &ArgMatches<'_>,
    exchange: &mut Exchange,
    steps: &[&str],
) -> Result<String, Fault> {
    let mut said = String::new(rt.alloc());
    for (number, step) in steps.iter().enumerate() {
        if let Some(text) = take_session_step(rt, matches, exchange, number, step)? {
            said = text;
        }
    }
    Ok(said)
}

/// Takes the steps that are named; an offer is read from standard input where none is, and no offer of this side is asked for.
fn exchange_steps_taken(
    rt: &HostRuntime,
    matches: &ArgMatches<'_>,
    exchange: &mut Exchange,
) -> Result<String, Fault> {
    match matches.get_strs("step") {
        Some(steps) => exchange_said_by(rt, matches, exchange, steps),
        None if matches.get_flag("offer") => Ok(String::new(rt.alloc())),
        None => exchange_said_by(rt, matches, exchange, &["-"]),
    }
}

/// What this side says in the end, as text.
fn exchange_said_last(
    rt: &HostRuntime,
    matches: &ArgMatches<'_>,
    exchange: &mut Exchange,
) -> Result<String, Fault> {
    let said = exchange_steps_taken(rt, matches, exchange)?;
    if matches.get_flag("offer") {
        return offer(rt.alloc(), exchange);
    }
    Ok(said)
}

/// This side, before anything is said. The configuration is made first: to drop it takes less proof than to drop the side.
fn exchange_of_options(rt: &HostRuntime, matches: &ArgMatches<'_>) -> Result<Exchange, Fault> {
    let config = configured_codecs(rt.alloc(), matches)?;
    Ok(Exchange::new(own_side(rt.alloc(), matches)?, config))
}

/// What a session of this side comes to, as text.
fn exchange_session_text(rt: &HostRuntime, matches: &ArgMatches<'_>) -> Result<String, Fault> {
    let mut exchange = exchange_of_options(rt, matches)?;
    exchange_said_last(rt, matches, &mut exchange)
}

/// Writes what a session of this side comes to.
fn write_exchange_session(rt: &HostRuntime, matches: &ArgMatches<'_>) -> Result<(), Fault> {
    let said = exchange_session_text(rt, matches)?;
    let mut output = rt.stdout();
    output.write_all(said.as_bytes())?;
    output.flush()?;
    Ok(())
}

fn arguments(rt: &HostRuntime) -> io::Result<Vec<String>> {
    let mut words = Vec::new(rt.alloc());
    for word in env::args(rt)? {
        words.push(word)?;
    }
    Ok(words)
}

/// Says why the arguments are refused, or what `--help` and `--version` ask for; answers the exit status.
fn refuse_exchange_arguments(rt: &HostRuntime, error: Error) -> Result<u8, Fault> {
    if let ErrorKind::OutOfMemory = error.kind() {
        return Err(Fault::Memory);
    }
    error.print(rt)?;
    // (--help and --version end with 0)
    Ok(if error.use_stderr() { 2 } else { 0 })
}

/// Runs the program; answers its exit status.
fn run(rt: &HostRuntime) -> Result<u8, Fault> {
    let words = arguments(rt)?;
    let command = command(rt.alloc())?;
    match command.try_get_matches_from(words.as_slice()) {
        Ok(matches) => {
            write_exchange_session(rt, &matches)?;
            Ok(0)
        }
        Err(error) => refuse_exchange_arguments(rt, error),
    }
}

fn main(rt: HostRuntime) -> ExitCode {
    match run(&rt) {
        Ok(status) => ExitCode::from(status),
        Err(fault) => {
            // (nothing is left to be said where this can't be written)
            let _ = eprintln!(rt; "sdpexchange: {fault}");
            ExitCode::from(fault.status())
        }
    }
}
