//! Rounds of negotiation, one and many.
ghost use Rattle.std.specs.Prelude.{◌≡◌, OnOk, OnErr, IfErr, IfOk};
ghost use Rattle.str0m_formats.specs.Prelude.{receives};
ghost use Rattle.str0m_formats.specs.round.Rounds.{RoundLeaves, RoundRefused};
ghost use Rattle.str0m_formats.specs.round.RoundsPromises.{Negotiates, RoundsRunPromises, EveryRoundsRunPromises};
ghost use Rattle.str0m_formats.specs.round.RoundsRuns.{RunReached};

use crate::round::beginning::{check_types, claims_of};
use crate::round::claim_mask::ClaimMask;
use crate::round::claimed::Claimed;
use crate::round::claims::Claims;
use crate::round::negotiation_error::NegotiationError;
use crate::row::codec_config::CodecConfig;
use crate::row::payload_params::PayloadParams;
use std::alloc::AllocError;
use str0m_values::Direction;

/// What one round brings.
#[derive(Debug, Drop)]
pub struct Round {
    /// The rows of the other side.
    pub remote: Vec<PayloadParams>,
    /// The direction that the other side describes.
    pub direction: Direction,
}

/// One round over rows that may be left in any state where it is refused.
fn run_round<C: Claimed>(
    rows: &mut [PayloadParams],
    remote: &[PayloadParams],
    receives: bool,
) -> Result<(), NegotiationError>
    ensures ok { OnOk result (RoundLeaves rows.old remote.now receives rows.new) }
    ensures err { IfErr result (RoundRefused rows.old remote.now receives) }
{
    check_types(rows, remote)?;
    let mut claims: Claims<C> = claims_of(rows, receives)?;
    claims.lock_rows(rows, remote)?;
    claims.settle_rows(rows)
}

impl CodecConfig {
    /// One round of negotiation against the rows of the other side, whose direction is `dir` (RFC 3264).
    ///
    /// Each row that some remote row matches goes with the last remote row of greatest score, narrows
    /// its format to that one's, and is locked: its payload types then never change (section 8.3.2). An
    /// open row of AMR-WB leaves aside remote rows whose primary type is taken, where the other side
    /// receives: so it may go with one of lesser score, or stay open. A
    /// row that is newly locked has the primary and RTX types of that remote row where the other side
    /// receives, and otherwise where they aren't taken; else its own, or else a free type. A row that
    /// stays open keeps each type that no locked row has, and is given a free one for each other. A RED
    /// type that can't be had is dropped.
    ///
    /// The types of rows that were locked before are taken, and those that the round gives. Free types
    /// are sought in the order 96 to 127, 80 to 95, 77 to 78, 35 to 71.
    ///
    /// Answers, in this order and with nothing changed: `Memory`, where there was no room for a copy of
    /// the rows; `TypeTooLarge`, where a type of this side, or else of the other, is above 127;
    /// `ClaimedTwice`, where two roles of locked rows have one type, or where the other side receives and
    /// demands a primary or RTX type that is taken; `Exhausted`, where no type is free for a primary or
    /// RTX type, which can't be with fourteen rows or fewer.
    pub fn update_params(
        &mut self,
        remote: &[PayloadParams],
        dir: Direction,
    ) -> Result<(), NegotiationError>
        ensures { Negotiates remote.now (receives dir) self.old self.new result }
    {
        self.update_params_in::<ClaimMask>(remote, dir)
    }

    /// `update_params`, with what is claimed kept in a table of the caller's choice: what it answers, each
    /// error and what stays unchanged are the same with every table.
    pub fn update_params_in<C: Claimed>(
        &mut self,
        remote: &[PayloadParams],
        dir: Direction,
    ) -> Result<(), NegotiationError>
        ensures { Negotiates remote.now (receives dir) self.old self.new result }
    {
        // The room comes first, and then the causes: a round works on a copy, so that the rows are
        // as they were where it is refused.
        let mut rows = Vec::from_slice(*self.params.allocator(), self.params.as_slice())?;
        run_round::<C>(&mut rows, remote, dir.sdp_is_receiving())?;
        self.params = rows;
        Ok(())
    }

    /// Runs each round in turn, whatever the others answered, and gives the outcome of each in order.
    ///
    /// Answers `AllocError` where there was no room for the outcomes: no round has run then, and nothing
    /// is changed. Want of room within a round is that round's own outcome.
    pub fn update_all(
        &mut self,
        rounds: &[Round],
    ) -> Result<Vec<Result<(), NegotiationError>>, AllocError>
        ensures ok { IfOk result (λ outcomes. RunReached self.old.params.items rounds.now outcomes.items self.new.params.items) }
        // What each accepted round promises, and what holds from the first rows to the last: of this run,
        // and of every run that begins with these rows.
        ensures promises { IfOk result (λ outcomes. RoundsRunPromises self.old.params.items rounds.now outcomes.items self.new.params.items) }
        ensures every_run { EveryRoundsRunPromises self.old.params.items }
        ensures else_same { self.new ≡ record self.old { params = self.new.params } }
        ensures err { OnErr result (self.new ≡ self.old) }
    {
        let alloc = *self.params.allocator();
        let mut outcomes: Vec<Result<(), NegotiationError>> = vec![in alloc; Ok(()); rounds.len()]?;
        for (i, round) in rounds.iter().enumerate() {
            let outcome = self.update_params(&round.remote, round.direction);
            outcomes[i] = outcome;
        }
        Ok(outcomes)
    }
}
