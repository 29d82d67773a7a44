//! Offers that are read whole, and their rounds.
ghost use Rattle.exchange.specs.Prelude.{AllTypesDistinct, HasBoundedRows, HoldsMids, IsFromLine, IsPlain, LockedStay, MediaLine, rows, types};
ghost use Rattle.exchange.specs.answer.InBundle.{bundle_names};
ghost use Rattle.exchange.specs.answer.Offered.{AreOfferRounds, BringsRound, IsOffer, IsRoundOf, NegotiatesOffer, RefusesOfferedText};
ghost use Rattle.std.specs.Prelude.{◌≡◌, ◌≢◌, ◌==◌, ◌+◌, ◌∷◌, ◌↔◌, [], IfErr, IfOk, IsTrue, List, OnOk, All, count_by, length};

use crate::answer::in_bundle::ordered_bundle;
use crate::section::stopped::is_stopped_in;
use crate::state::exchange_error::ExchangeError;
use std::alloc::{AllocError, Global};
use std::collections::BTreeSet;
use str0m_signal::{
    CodecConfig, MediaLine, NegotiationError, PayloadParams, Proto, Round, Sdp, Text, sdp_parser,
};

fn offered_line_feeds(bytes: &[u8]) -> usize
    ensures { result ≡ count_by (λ byte. byte == 10) bytes.now }
{
    bytes.iter().filter(|byte| **byte == b'\n').count()
}

/// The number, counted from 1, of the line at which the rest of a text begins.
fn offered_rest_line_number(text: &str, rest: &str) -> usize
    ensures { (from : IsFromLine text.now rest.now) → rest.now ≢ [] → result ≡ length from.before + 1 }
{
    let read = text.len().saturating_sub(rest.len());
    let (before, _rest) = text.as_bytes().split_at(read);
    offered_line_feeds(before).saturating_add(1)
}

/// Its first line, without the end.
fn first_offered_rest_line(alloc: Global, rest: &str) -> Result<Text, AllocError> {
    Text::from_str(alloc, rest.lines().next().unwrap_or(""))
}

/// The description that the whole text is.
pub(crate) fn whole_offered_description(alloc: Global, text: &str) -> Result<Sdp, ExchangeError>
    ensures read { IfOk result (IsOffer text.now) }
    ensures refused { IfErr result (RefusesOfferedText text.now) }
    ensures bounded { IfOk result (λ offer. All HasBoundedRows offer.media_lines) }
{
    let (offer, rest) = sdp_parser(alloc, text)?;
    if rest.is_empty() {
        return Ok(offer);
    }
    Err(ExchangeError::Unread {
        line: offered_rest_line_number(text, rest),
        text: first_offered_rest_line(alloc, rest)?,
    })
}

/// Whether a section brings a round, where `group` has the names of the offer's group in order.
fn is_negotiated(group: &BTreeSet<&str>, offer: &Sdp, section: &MediaLine) -> bool
    requires { HoldsMids group.now (bundle_names offer.now) }
    ensures { IsTrue result ↔ BringsRound offer.now section.now }
{
    !is_stopped_in(group, offer, section)
        && section.typ.is_media()
        && matches!(section.proto, Proto::Srtp)
}

fn round_of(section: &MediaLine) -> Result<Round, AllocError>
    ensures { IfOk result (IsRoundOf section.now) }
{
    let remote = section.rtp_params()?;
    let direction = section.direction();
    Ok(Round { remote, direction })
}

/// The rounds of the sections of media that aren't stopped, in order.
#[tactic(auto, using(crate::proofs::answer::OfferedRoundLaws::no_round_more, crate::proofs::answer::OfferedRoundLaws::one_round_more))]
pub(crate) fn rounds_of(alloc: Global, offer: &Sdp) -> Result<Vec<Round>, AllocError>
    ensures { IfOk result (λ rounds. AreOfferRounds offer.now offer.now.media_lines rounds.items) }
{
    let group = ordered_bundle(alloc, offer)?;
    let sections = offer.media_lines.as_slice();
    let mut rounds = Vec::new(alloc);
    for section in sections {
        if is_negotiated(&group, offer, section) {
            rounds.push(round_of(section)?)?;
        }
    }
    Ok(rounds)
}

fn round_lacked_memory(outcomes: &[Result<(), NegotiationError>]) -> bool {
    outcomes
        .iter()
        .any(|outcome| matches!(outcome, Err(NegotiationError::Memory)))
}

/// The rows of a section that stands next, where it brings the round that does, and the rounds after it. `group` has the names of
/// the offer's group in order.
pub(crate) fn rows_of_next<'a>(
    group: &BTreeSet<&str>,
    offer: &Sdp,
    section: &MediaLine,
    rounds: &'a [Round],
) -> (&'a [PayloadParams], &'a [Round])
    requires { HoldsMids group.now (bundle_names offer.now) }
    ensures rows { (later : List MediaLine) → AreOfferRounds offer.now (section.now ∷ later) rounds.now → BringsRound offer.now section.now
        → result.0.now ≡ rows section.now }
    ensures later { (later : List MediaLine) → AreOfferRounds offer.now (section.now ∷ later) rounds.now → AreOfferRounds offer.now later result.1.now }
{
    if !is_negotiated(group, offer, section) {
        return (&[], rounds);
    }
    match rounds.split_first() {
        Some((round, later)) => (round.remote.as_slice(), later),
        None => (&[], rounds),
    }
}

/// Runs the rounds of an offer.
pub(crate) fn negotiate(
    config: &mut CodecConfig,
    offer: &Sdp,
    rounds: &[Round],
) -> Result<(), AllocError>
    requires { AreOfferRounds offer.now offer.now.media_lines rounds.now }
    ensures ok { OnOk result (NegotiatesOffer offer.now config.old.params.items config.new.params.items) }
    ensures stay { OnOk result (LockedStay config.old.params.items config.new.params.items) }
    ensures distinct { AllTypesDistinct (types config.old.params.items) → OnOk result (AllTypesDistinct (types config.new.params.items)) }
    ensures plain { All HasBoundedRows offer.now.media_lines → All IsPlain config.old.params.items → OnOk result (All IsPlain config.new.params.items) }
    ensures else_same { config.new ≡ record config.old { params = config.new.params } }
{
    let outcomes = config.update_all(rounds)?;
    if round_lacked_memory(outcomes.as_slice()) {
        return Err(AllocError);
    }
    Ok(())
}
