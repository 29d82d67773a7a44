//! Says what session descriptions lose where this layer reads them, and why they are refused, line by line.
#![tactic(auto)]

mod against;
mod command;
mod explain;
mod fault;
mod output;
mod records;

use crate::against::side_against;
use crate::command::{command, command_value};
use crate::explain::explanation;
use crate::fault::Fault;
use crate::output::{Output, OutputFormat};
use clap::error::ErrorKind;
use clap::{ArgMatches, Error};
use lint::{Report, findings, rounds};
use std::alloc::AllocError;
use std::env::VarError;
use std::io::{IsTerminal, Read, Write};
use std::process::ExitCode;
use std::{env, fs, io};
use str0m_signal::CodecConfig;

const STANDARD_INPUT: &str = "-";

/// The text of a file, or of standard input.
fn text_of(rt: &HostRuntime, file: &str) -> io::Result<String> {
    if file != STANDARD_INPUT {
        return fs::read_to_string(rt, file);
    }
    let mut text = String::new(rt.alloc());
    rt.stdin().read_to_string(&mut text)?;
    Ok(text)
}

/// The rows of this side, where rounds are asked for.
fn lint_side(rt: &HostRuntime, matches: &ArgMatches<'_>) -> Result<Option<CodecConfig>, Fault> {
    if matches.get_flag("against-default") {
        return Ok(Some(CodecConfig::new_with_defaults(rt.alloc())?));
    }
    let Some(file) = matches.get_str("against") else {
        return Ok(None);
    };
    match fs::read_to_string(rt, file) {
        Ok(text) => Ok(Some(side_against(rt.alloc(), file, text.as_str())?)),
        Err(error) => Err(Fault::of_side(rt.alloc(), file, error)),
    }
}

/// What is found in a text, and then what would come of rounds with it.
fn lint_report_of(
    rt: &HostRuntime,
    text: &str,
    side: &Option<CodecConfig>,
) -> Result<Report, AllocError> {
    let mut report = findings(rt.alloc(), text)?;
    if let Some(side) = side {
        let more = rounds(rt.alloc(), text, side)?;
        for finding in more.findings.into_vec() {
            report.findings.push(finding)?;
        }
    }
    Ok(report)
}

/// Adds the findings of a file.
fn lint_file(
    rt: &HostRuntime,
    output: &mut Output,
    file: &str,
    side: &Option<CodecConfig>,
) -> Result<(), Fault> {
    let text = match text_of(rt, file) {
        Ok(text) => text,
        Err(error) => return Err(Fault::of_reading(rt.alloc(), file, error)),
    };
    let report = lint_report_of(rt, text.as_str(), side)?;
    output.add_report(file, report)?;
    Ok(())
}

fn write_lint_text(rt: &HostRuntime, text: &str) -> io::Result<()> {
    let mut output = rt.stdout();
    output.write_all(text.as_bytes())?;
    output.flush()
}

/// Whether severities are coloured: the output is a terminal, and the environment doesn't ask for none (https://no-color.org: by
/// `NO_COLOR`, where it isn't empty).
fn is_lint_coloured(rt: &HostRuntime) -> bool {
    if !rt.stdout().is_terminal() {
        return false;
    }
    match env::var(rt, "NO_COLOR") {
        Ok(value) => value.is_empty(),
        Err(VarError::NotPresent) => true,
        Err(_) => false,
    }
}

/// Says what is found in all files; answers the exit status.
fn lint(rt: &HostRuntime, matches: &ArgMatches<'_>) -> Result<u8, Fault> {
    let format = OutputFormat::named(command_value(matches, "format"), is_lint_coloured(rt));
    let mut output = Output::new(rt.alloc(), format, command_value(matches, "level"));
    let side = lint_side(rt, matches)?;
    if let Some(files) = matches.get_strs("file") {
        for file in files {
            lint_file(rt, &mut output, file, &side)?;
        }
    }
    let status = if output.is_silent() { 0 } else { 1 };
    write_lint_text(rt, output.into_text()?.as_str())?;
    Ok(status)
}

fn arguments(rt: &HostRuntime) -> io::Result<Vec<String>> {
    let mut words = Vec::new(rt.alloc());
    for word in env::args(rt)? {
        words.push(word)?;
    }
    Ok(words)
}

/// Says why the arguments are refused, or what `--help` and `--version` ask for; answers the exit status.
fn refuse_lint_arguments(rt: &HostRuntime, error: Error) -> Result<u8, Fault> {
    if let ErrorKind::OutOfMemory = error.kind() {
        return Err(Fault::Memory);
    }
    error.print(rt)?;
    // (--help and --version end with 0)
    Ok(if error.use_stderr() { 2 } else { 0 })
}

/// Says what a code means, or what is found in all files; answers the exit status.
fn lint_as_asked(rt: &HostRuntime, matches: &ArgMatches<'_>) -> Result<u8, Fault> {
    if matches.contains_id("explain") {
        let text = explanation(rt.alloc(), command_value(matches, "explain"))?;
        write_lint_text(rt, text.as_str())?;
        return Ok(0);
    }
    lint(rt, matches)
}

/// Runs the program; answers its exit status.
fn run(rt: &HostRuntime) -> Result<u8, Fault> {
    let words = arguments(rt)?;
    let command = command(rt.alloc())?;
    match command.try_get_matches_from(words.as_slice()) {
        Ok(matches) => lint_as_asked(rt, &matches),
        Err(error) => refuse_lint_arguments(rt, error),
    }
}

fn main(rt: HostRuntime) -> ExitCode {
    match run(&rt) {
        Ok(status) => ExitCode::from(status),
        Err(fault) => {
            // (nothing is left to be said where this can't be written)
            let _ = eprintln!(rt; "sdplint: {fault}");
            ExitCode::from(2)
        }
    }
}
