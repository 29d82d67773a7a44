//! A program's own error, in which those of the layer join.

ghost use Rattle.std.specs.Prelude.{◌≡◌};
ghost use Rattle.uses.specs.declared.call_error.CallError.TheVariants.{Memory, NotRead, Refused};

use std::alloc::AllocError;
use str0m_signal::{NegotiationError, SdpError};
use thiserror::Error;

/// Why a call can't go on.
#[derive(Debug, Drop, Error)]
pub enum CallError {
    /// The other side's text wasn't read, for its form or since memory ran out.
    #[error("{0}")]
    NotRead(SdpError),
    /// A round was refused.
    #[error("round refused: {0}")]
    Refused(NegotiationError),
    /// Memory was refused elsewhere.
    #[error("out of memory")]
    Memory,
}

impl From<AllocError> for CallError {
    ghost from_gives = { λ _ e. e ≡ Memory };

    fn from(_refused: AllocError) -> CallError {
        CallError::Memory
    }
}

impl From<SdpError> for CallError {
    ghost from_gives = { λ error e. e ≡ NotRead error };

    fn from(error: SdpError) -> CallError {
        CallError::NotRead(error)
    }
}

impl From<NegotiationError> for CallError {
    ghost from_gives = { λ cause e. e ≡ Refused cause };

    fn from(cause: NegotiationError) -> CallError {
        CallError::Refused(cause)
    }
}
