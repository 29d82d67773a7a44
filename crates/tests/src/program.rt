//! The program `sdpshow` over memory, and what a run of it comes to.

use show::run::run;
use std::alloc::{AllocError, Global};
use std::io::Read;

pub(crate) const PROGRAM_USAGE: &str = "usage: sdpshow text|rows|negotiate\n";

pub(crate) const PROGRAM_HEADER: &str = "v=0\r\no=- 7 2 IN IP4 127.0.0.1\r\ns=-\r\nt=0 0\r\n";

/// The header, printed.
pub(crate) const PROGRAM_HEADER_PRINTED: &str =
    "v=0\r\no=str0m-0.25.0 7 2 IN IP4 0.0.0.0\r\ns=-\r\nt=0 0\r\n";

pub(crate) fn program_arguments(alloc: Global, words: &[&str]) -> Result<Vec<String>, AllocError> {
    let mut all = Vec::new(alloc);
    for word in words {
        all.push(String::from_str(alloc, word)?)?;
    }
    Ok(all)
}

/// What a run ends with.
#[derive(Debug, Drop)]
pub(crate) struct ProgramRan {
    pub(crate) status: u8,
    /// Whether the line that goes with the status could be written.
    pub(crate) could_say: bool,
    pub(crate) written: Vec<u8>,
    pub(crate) said: Vec<u8>,
}

impl ProgramRan {
    /// Whether the run ended with this status, and wrote and said just this.
    pub(crate) fn is(&self, status: u8, written: &str, said: &str) -> bool {
        self.status == status
            && self.could_say
            && self.written.as_slice() == written.as_bytes()
            && self.said.as_slice() == said.as_bytes()
    }
}

/// Runs the program into memory.
pub(crate) fn run_program_over<R: Read>(
    alloc: Global,
    words: &[&str],
    input: &mut R,
) -> Result<ProgramRan, AllocError> {
    let words = program_arguments(alloc, words)?;
    let mut written = Vec::new(alloc);
    let mut said = Vec::new(alloc);
    let ending = run(alloc, words.as_slice(), input, &mut written, &mut said);
    Ok(ProgramRan {
        status: ending.status,
        could_say: ending.said.is_ok(),
        written,
        said,
    })
}
