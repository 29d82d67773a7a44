//! Shows session descriptions: `sdpshow text` reads one from standard input and prints it again,
//! `sdpshow rows` prints the rows of its sections, `sdpshow negotiate` what rounds of negotiation
//! with it come to.
#![tactic(auto)]

use show::fault::Fault;
use show::run::{refuse_run, run, run_usage};
use std::io::ErrorKind;
use std::process::ExitCode;
use std::{env, io};

/// What stands after the program's name.
fn arguments(rt: &HostRuntime) -> io::Result<Vec<String>> {
    let mut words = Vec::new(rt.alloc());
    for word in env::args(rt)?.skip(1) {
        words.push(word)?;
    }
    Ok(words)
}

fn main(rt: HostRuntime) -> ExitCode {
    let ending = match arguments(&rt) {
        Ok(words) => run(
            rt.alloc(),
            words.as_slice(),
            &mut rt.stdin(),
            &mut rt.stdout(),
            &mut rt.stderr(),
        ),
        Err(error) => match error.kind() {
            ErrorKind::OutOfMemory => refuse_run(&mut rt.stderr(), &Fault::OUT_OF_MEMORY),
            _ => run_usage(&mut rt.stderr()),
        },
    };
    ExitCode::from(ending.status)
}
