//! Why a call of an exchange of offers and answers is refused.

ghost use Rattle.c_parts.specs.Fault.{fault_code_of_error, fault_line_of_error, fault_code, line_of_fault};
ghost use Rattle.c_parts.specs.declared.fault.Fault.TheVariants.{Refused};
ghost use Rattle.exchange.specs.declared.state.exchange_error.ExchangeError.TheVariants.{Memory};
ghost use Rattle.std.specs.Prelude.{◌≡◌, IfErr, IfOk, IsUtf8};

use exchange::ExchangeError;
use std::alloc::{AllocError, Global};

/// Why a call of an exchange is refused.
#[derive(Drop)]
pub enum Fault {
    /// A text isn't UTF-8.
    NotUtf8,
    /// What this side says of itself has no fingerprint.
    NoFingerprint,
    /// A line in it is no candidate.
    NoCandidate,
    /// The exchange refuses it.
    Refused(ExchangeError),
}

impl From<AllocError> for Fault {
    ghost from_gives = { λ _ fault. fault ≡ Refused Memory };

    fn from(_refused: AllocError) -> Fault {
        Fault::Refused(ExchangeError::Memory)
    }
}

impl From<ExchangeError> for Fault {
    ghost from_gives = { λ error fault. fault ≡ Refused error };

    fn from(error: ExchangeError) -> Fault {
        Fault::Refused(error)
    }
}

fn fault_code_of_error(error: &ExchangeError) -> u32
    ensures { result ≡ fault_code_of_error error.now }
{
    match error {
        ExchangeError::NotRead(_) => 1,
        ExchangeError::Memory => 3,
        ExchangeError::WrongState(_) => 8,
        ExchangeError::Unread { .. } => 9,
        ExchangeError::DoesNotFit { .. } => 10,
        ExchangeError::NotPrintable => 11,
        ExchangeError::NoRows => 12,
        ExchangeError::NoChannels => 13,
        ExchangeError::NoName => 14,
    }
}

fn fault_line_of_error(error: &ExchangeError) -> usize
    ensures { result ≡ fault_line_of_error error.now }
{
    match error {
        ExchangeError::Unread { line, .. } => *line,
        _ => 0,
    }
}

impl Fault {
    /// Its number in C.
    pub fn code(&self) -> u32
        ensures { result ≡ fault_code self.now }
    {
        match self {
            Fault::NotUtf8 => 2,
            Fault::NoFingerprint => 15,
            Fault::NoCandidate => 15,
            Fault::Refused(error) => fault_code_of_error(error),
        }
    }

    /// The line at fault, from 1; 0 where it isn't a line.
    pub fn line(&self) -> usize
        ensures { result ≡ line_of_fault self.now }
    {
        match self {
            Fault::Refused(error) => fault_line_of_error(error),
            _ => 0,
        }
    }

    /// Its message, a line of English without an end.
    pub fn message(&self, alloc: Global) -> Result<String, AllocError> {
        match self {
            Fault::NotUtf8 => String::from_str(alloc, "text is not UTF-8"),
            Fault::NoFingerprint => String::from_str(
                alloc,
                "fingerprint: write the name of the hash, a space and its bytes in hex, parted by colons",
            ),
            Fault::NoCandidate => String::from_str(
                alloc,
                "candidate: write the line of a candidate that has an IP address, with or without 'a='",
            ),
            Fault::Refused(error) => error.to_string(alloc),
        }
    }
}
