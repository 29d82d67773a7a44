//! A later round: an offer that is sent again.

ghost use Rattle.std.specs.Prelude.{◌≡◌};
ghost use Rattle.str0m_formats.specs.round.RoundsPromises.{LockedStay};
ghost use Rattle.str0m_signal.specs.back.ReadBack.{CanRowsBeReadBack};
ghost use Rattle.uses.specs.LaterRound.{ComesToRound, IsFirstRoundRefusal, round_refusal};

use crate::call_error::CallError;
use str0m_signal::{CodecConfig, NegotiationError, negotiate_text};

/// The cause of a round that was refused.
fn round_refusal(outcome: &Result<(), NegotiationError>) -> Option<NegotiationError>
    ensures { result ≡ round_refusal outcome.now }
{
    match outcome {
        Ok(()) => None,
        Err(cause) => Some(*cause),
    }
}

fn first_round_refusal(outcomes: &[Result<(), NegotiationError>]) -> Option<NegotiationError>
    ensures { IsFirstRoundRefusal outcomes.now result }
{
    outcomes.iter().find_map(|outcome| round_refusal(outcome))
}

/// Negotiates with a later offer. `Ok` where every round was accepted; else the error is the first
/// refusal, and what the other rounds agreed on stays agreed. Whatever is answered, rows that were
/// locked stay locked and keep their types, whatever the offer asks for, and nothing but rows changes.
///
/// # Errors
///
/// `NotRead` where the text describes no session, or where memory was refused before the rounds: none
/// has run then, and nothing has changed. `Refused` with the cause of the first round that was
/// refused, which may be out of memory.
pub fn negotiate_again(config: &mut CodecConfig, offer: &str) -> Result<(), CallError>
    ensures outcome { ComesToRound offer.now config.old.params.items result config.new.params.items }
    ensures else_same { config.new ≡ record config.old { params = config.new.params } }
    ensures stay { LockedStay config.old.params.items config.new.params.items }
    ensures printable { CanRowsBeReadBack config.old.params.items → CanRowsBeReadBack config.new.params.items }
{
    let outcomes = negotiate_text(config, offer)?;
    match first_round_refusal(outcomes.as_slice()) {
        Some(cause) => Err(CallError::Refused(cause)),
        None => Ok(()),
    }
}
