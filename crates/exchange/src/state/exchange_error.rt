//! Why a call of an exchange is refused.
ghost use Rattle.exchange.specs.declared.state.exchange_error.ExchangeError.TheVariants.{Memory};
ghost use Rattle.exchange.specs.state.ExchangeError.{not_read_error};
ghost use Rattle.std.specs.Prelude.{◌≡◌};

use crate::offer::rule::Rule;
use crate::state::signaling_state::SignalingState;
use std::alloc::AllocError;
use str0m_signal::{SdpError, Text};
use thiserror::Error;

/// Why a call of an exchange is refused. Nothing has changed then.
#[derive(Debug, Drop, Error)]
pub enum ExchangeError {
    /// The text describes no session, or one of its sections contradicts itself.
    #[error("the text is no session description: {0}")]
    NotRead(SdpError),
    /// A line fits nowhere, so that what follows it isn't known.
    #[error("line {line} of the text fits nowhere: {text}")]
    Unread {
        /// The number of the first line that isn't read, from 1.
        line: usize,
        /// The line, without its end.
        text: Text,
    },
    /// The call isn't one of this state (RFC 8829, section 3.2): offers are made and taken where none is open, answers where
    /// one is.
    #[error("the call is out of turn in the state {0}")]
    WrongState(SignalingState),
    /// A section breaks a rule of answers, or of later offers.
    #[error("section {section} breaks a rule: {rule}")]
    DoesNotFit {
        /// The section's place, from 0.
        section: usize,
        /// The rule that it breaks.
        rule: Rule,
    },
    /// No row of the configuration stands in sections of that kind.
    #[error("this side has no codec for media of that kind")]
    NoRows,
    /// This side takes no data channels (`OwnSide`).
    #[error("this side takes no data channels")]
    NoChannels,
    /// No name is left for a section: sections of the session have had each number of 32 bits.
    #[error("no name is left for a section that was added")]
    NoName,
    /// Something that this side says of itself would be read as something else, as a line end in an id.
    #[error("the description would be read as another one: a text of this side or of the offer fits no line")]
    NotPrintable,
    /// Memory was refused.
    #[error("out of memory")]
    Memory,
}

impl From<AllocError> for ExchangeError {
    ghost from_gives = { λ _ error. error ≡ Memory };

    fn from(_refused: AllocError) -> ExchangeError {
        ExchangeError::Memory
    }
}

/// What a reader refuses; out of memory stays out of memory.
impl From<SdpError> for ExchangeError {
    ghost from_gives = { λ cause error. error ≡ not_read_error cause };

    fn from(cause: SdpError) -> ExchangeError {
        match cause {
            SdpError::Memory => ExchangeError::Memory,
            _ => ExchangeError::NotRead(cause),
        }
    }
}
