//! Why nothing is written.

use exchange::ExchangeError;
use std::alloc::{AllocError, Global};
use std::io;
use str0m_signal::Text;
use thiserror::Error;

/// Why nothing is written.
#[derive(Debug, Drop, Error)]
pub(crate) enum Fault {
    /// The value of an option isn't well formed.
    #[error("--{option}: {why}")]
    Option {
        option: &'static str,
        why: &'static str,
    },
    /// A step isn't well formed.
    #[error("{0}: write a file, offer, answer=FILE, add=KIND,DIRECTION, direction=MID,DIRECTION, restart or rollback")]
    Step(Text),
    /// A file isn't there, can't be read or is no UTF-8.
    #[error("{file}: cannot be read: {error}")]
    Unreadable {
        file: Text,
        error: io::Error,
    },
    /// A line of a text fits nowhere.
    #[error("{file}:{line}: this line fits nowhere, so what follows it isn't known; mend it or take it out: {text}")]
    Unread {
        file: Text,
        line: usize,
        text: Text,
    },
    /// A text isn't taken, or an offer isn't made.
    #[error("{file}: {error}")]
    Refused {
        file: Text,
        error: ExchangeError,
    },
    /// The arguments or the answer can't be handed over.
    #[error("{0}")]
    Stream(io::Error),
    /// Memory was refused.
    #[error("out of memory")]
    Memory,
}

impl Fault {
    /// Why a file wasn't read.
    pub(crate) fn of_reading(alloc: Global, file: &str, error: io::Error) -> Fault {
        if let io::ErrorKind::OutOfMemory = error.kind() {
            return Fault::Memory;
        }
        match Text::from_str(alloc, file) {
            Ok(file) => Fault::Unreadable { file, error },
            Err(_) => Fault::Memory,
        }
    }

    /// A step of which it isn't known what it means.
    pub(crate) fn of_step(alloc: Global, step: &str) -> Fault {
        match Text::from_str(alloc, step) {
            Ok(step) => Fault::Step(step),
            Err(_) => Fault::Memory,
        }
    }

    /// Why the text of a file wasn't taken, or a step not made.
    pub(crate) fn of_text(alloc: Global, file: &str, error: ExchangeError) -> Fault {
        let Ok(file) = Text::from_str(alloc, file) else {
            return Fault::Memory;
        };
        match error {
            ExchangeError::Memory => Fault::Memory,
            ExchangeError::Unread { line, text } => Fault::Unread { file, line, text },
            _ => Fault::Refused { file, error },
        }
    }

    /// The exit status: 2 where the program is called wrongly, else 1.
    pub(crate) fn status(&self) -> u8 {
        match self {
            Fault::Option { .. } | Fault::Step(_) => 2,
            _ => 1,
        }
    }
}

impl From<AllocError> for Fault {
    fn from(_refused: AllocError) -> Fault {
        Fault::Memory
    }
}

impl From<io::Error> for Fault {
    fn from(error: io::Error) -> Fault {
        match error.kind() {
            io::ErrorKind::OutOfMemory => Fault::Memory,
            _ => Fault::Stream(error),
        }
    }
}
