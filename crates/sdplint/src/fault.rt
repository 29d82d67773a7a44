//! Why a run doesn't end with findings.

use std::alloc::{AllocError, Global};
use std::io;
use str0m_signal::Text;
use thiserror::Error;

/// Why a run doesn't end with findings.
#[derive(Debug, Drop, Error)]
pub(crate) enum Fault {
    /// A file isn't there, can't be read or is no UTF-8.
    #[error("{file}: cannot be read: {error}")]
    Unreadable { file: Text, error: io::Error },
    /// The file of this side's rows isn't there, can't be read or is no UTF-8.
    #[error("--against: {file}: cannot be read: {error}; name a session description of this side, or take its default rows by --against-default")]
    NoSide { file: Text, error: io::Error },
    /// It describes no session.
    #[error("--against: {file}: is no session description; call sdplint with this file alone to see why")]
    NoDescription { file: Text },
    /// No code has this name.
    #[error("--explain: no code is called {name}: docs/LINT.md has them all")]
    NoCode { name: Text },
    /// The arguments or the findings can't be handed over.
    #[error("{0}")]
    Stream(io::Error),
    /// Memory was refused.
    #[error("out of memory")]
    Memory,
}

impl Fault {
    /// Why a file wasn't read.
    pub(crate) fn of_reading(alloc: Global, file: &str, error: io::Error) -> Fault {
        if let io::ErrorKind::OutOfMemory = error.kind() {
            return Fault::Memory;
        }
        match Text::from_str(alloc, file) {
            Ok(file) => Fault::Unreadable { file, error },
            Err(_) => Fault::Memory,
        }
    }
}

impl Fault {
    /// Why the file of this side's rows wasn't read.
    pub(crate) fn of_side(alloc: Global, file: &str, error: io::Error) -> Fault {
        match Fault::of_reading(alloc, file, error) {
            Fault::Unreadable { file, error } => Fault::NoSide { file, error },
            fault => fault,
        }
    }
}

impl From<AllocError> for Fault {
    fn from(_refused: AllocError) -> Fault {
        Fault::Memory
    }
}

impl From<io::Error> for Fault {
    fn from(error: io::Error) -> Fault {
        match error.kind() {
            io::ErrorKind::OutOfMemory => Fault::Memory,
            _ => Fault::Stream(error),
        }
    }
}
