//! Runs of the program where input or output fails.

use crate::program::{
    PROGRAM_HEADER, PROGRAM_HEADER_PRINTED, PROGRAM_USAGE, ProgramRan, program_arguments,
    run_program_over,
};
use show::run::run;
use std::alloc::{AllocError, Global};
use std::io;
use std::io::{ErrorKind, Read, Write};
use std::test::Fail;

/// Gives its bytes, one a read, and then fails.
#[derive(Drop)]
struct FaultyInput<'a> {
    bytes: &'a [u8],
    kind: ErrorKind,
}

impl<'a> Read for FaultyInput<'a> {
    fn read(&mut self, buf: &mut [u8]) -> io::Result<usize> {
        let Some((first, rest)) = self.bytes.split_first() else {
            return Err(io::Error::from(self.kind));
        };
        let Some(cell) = buf.first_mut() else {
            return Ok(0);
        };
        *cell = *first;
        self.bytes = rest;
        Ok(1)
    }
}

/// Takes so many bytes, one a write, and then fails; and fails to hand them on, where it is so made.
#[derive(Drop)]
struct FaultyOutput {
    room: usize,
    hands_on: bool,
    taken: Vec<u8>,
}

impl Write for FaultyOutput {
    fn write(&mut self, buf: &[u8]) -> io::Result<usize> {
        let (Some(first), true) = (buf.first(), self.taken.len() < self.room) else {
            return Err(io::Error::from(ErrorKind::BrokenPipe));
        };
        self.taken.push(*first)?;
        Ok(1)
    }

    fn flush(&mut self) -> io::Result<()> {
        if self.hands_on {
            Ok(())
        } else {
            Err(io::Error::from(ErrorKind::StorageFull))
        }
    }
}

/// A writer with so much room.
fn faulty_output(alloc: Global, room: usize, hands_on: bool) -> FaultyOutput {
    FaultyOutput {
        room,
        hands_on,
        taken: Vec::new(alloc),
    }
}

/// An argument, what is read before an error of which kind, the status, and what is said.
static INPUT_FAULT_RUNS: [(&str, &str, ErrorKind, u8, &str); 4] = [
    (
        "text",
        "",
        ErrorKind::PermissionDenied,
        1,
        "cannot read input\n",
    ),
    (
        "text",
        PROGRAM_HEADER,
        ErrorKind::BrokenPipe,
        1,
        "cannot read input\n",
    ),
    (
        "text",
        "",
        ErrorKind::OutOfMemory,
        1,
        "SDP: out of memory\n",
    ),
    ("show", "", ErrorKind::PermissionDenied, 2, PROGRAM_USAGE),
];

/// Arguments are compared before anything is read, and input that ends in an error is not shown.
#[test]
fn input_that_cannot_be_read(rt: HostRuntime) -> Result<(), Fail> {
    for (word, bytes, kind, status, said) in &INPUT_FAULT_RUNS {
        let mut input = FaultyInput {
            bytes: bytes.as_bytes(),
            kind: *kind,
        };
        let ran = run_program_over(rt.alloc(), &[word], &mut input)?;
        assert!(rt; ran.is(*status, "", said), "{said:?}: {ran:?}");
        assert_eq!(rt;
            input.bytes.len() == bytes.len(),
            *status == 2 || bytes.is_empty(),
            "{said:?}"
        );
    }
    Ok(())
}

/// Runs the program over the header, with so much room for faults.
fn run_program_into(
    alloc: Global,
    word: &str,
    mut output: FaultyOutput,
    faults_room: usize,
) -> Result<ProgramRan, AllocError> {
    let words = program_arguments(alloc, &[word])?;
    let mut input = PROGRAM_HEADER.as_bytes();
    let mut faults = faulty_output(alloc, faults_room, true);
    let ending = run(
        alloc,
        words.as_slice(),
        &mut input,
        &mut output,
        &mut faults,
    );
    Ok(ProgramRan {
        status: ending.status,
        could_say: ending.said.is_ok(),
        written: output.taken,
        said: faults.taken,
    })
}

/// Whether the run ended with this status and said just this, and wrote a beginning of what the header prints: all of it where
/// that is so, and else less.
fn is_whole_or_fault_told(ran: &ProgramRan, is_whole: bool, status: u8, said: &str) -> bool {
    ran.status == status
        && ran.could_say == (status == 0 || !said.is_empty())
        && ran.said.as_slice() == said.as_bytes()
        && PROGRAM_HEADER_PRINTED
            .as_bytes()
            .starts_with(ran.written.as_slice())
        && is_whole == (ran.written.len() == PROGRAM_HEADER_PRINTED.len())
}

/// An argument, the room for output, whether it is handed on, the room for faults, the status, and what is said.
static OUTPUT_FAULT_RUNS: [(&str, usize, bool, usize, u8, &str); 9] = [
    ("text", PROGRAM_HEADER_PRINTED.len(), true, 100, 0, ""),
    ("text", PROGRAM_HEADER_PRINTED.len(), true, 0, 0, ""),
    (
        "text",
        PROGRAM_HEADER_PRINTED.len() - 1,
        true,
        100,
        1,
        "cannot write output\n",
    ),
    ("text", PROGRAM_HEADER_PRINTED.len() - 1, true, 0, 1, ""),
    ("text", 0, true, 100, 1, "cannot write output\n"),
    ("text", 0, true, 0, 1, ""),
    ("show", 0, true, 100, 2, PROGRAM_USAGE),
    ("show", 0, true, 0, 2, ""),
    (
        "text",
        PROGRAM_HEADER_PRINTED.len(),
        false,
        100,
        1,
        "cannot write output\n",
    ),
];

/// A description is written whole or the run says so; a line of faults that can't be written leaves
/// the status as it is. What is written whole, and isn't handed on, is a fault.
#[test]
fn output_that_cannot_be_written(rt: HostRuntime) -> Result<(), Fail> {
    for (word, room, hands_on, faults_room, status, said) in &OUTPUT_FAULT_RUNS {
        let output = faulty_output(rt.alloc(), *room, *hands_on);
        let ran = run_program_into(rt.alloc(), word, output, *faults_room)?;
        let is_whole = *status == 0 || !*hands_on;
        assert!(rt;
            is_whole_or_fault_told(&ran, is_whole, *status, said),
            "{said:?}: {ran:?}"
        );
    }
    Ok(())
}
