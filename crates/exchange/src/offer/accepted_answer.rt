//! Answers to offers of this side.
ghost use Rattle.exchange.specs.Prelude.{AllTypesDistinct, IsPlain, LockedStay, types};
ghost use Rattle.exchange.specs.answer.Offered.{NegotiatesOffer};
ghost use Rattle.exchange.specs.declared.state.signaling_state.SignalingState.TheVariants.{HaveLocalOffer, Stable};
ghost use Rattle.exchange.specs.offer.AcceptedAnswer.{IsAnswer, IsAnswerTakenWith, RefusesAnswer, RefusesOfferFit, offer_placed_of};
ghost use Rattle.exchange.specs.offer.Added.{with_offer_placed};
ghost use Rattle.exchange.specs.offer.Fits.{FitsOffer};
ghost use Rattle.exchange.specs.offer.Names.{grown_names};
ghost use Rattle.exchange.specs.state.ExchangeFollows.{Follows, IsExchangeSound};
ghost use Rattle.exchange.specs.state.State.{pending_sdp, sections_of, state_of};
ghost use Rattle.std.specs.Prelude.{All, ◌≡◌, IfErr, IfOk, IsSomeAnd, None, OnErr, OnOk, drop, length, option_map};

use crate::answer::offered::whole_offered_description;
use crate::offer::added::{Added, with_offer_placed};
use crate::offer::fits::first_offer_misfit;
use crate::offer::names::grown_names;
use crate::offer::pending::Pending;
use crate::state::exchange::{Exchange, negotiated};
use crate::state::exchange_error::ExchangeError;
use crate::state::own_side::SectionDirection;
use crate::state::signaling_state::SignalingState;
use std::alloc::{AllocError, Global};
use str0m_signal::{CodecConfig, Items, Mid, Sdp};

/// An error where an answer doesn't fit an offer of this side, which has this configuration after the rounds of the answer.
fn check_offer_fit(
    alloc: Global,
    ours: &CodecConfig,
    offer: &Sdp,
    answer: &Sdp,
) -> Result<(), ExchangeError>
    ensures fits { OnOk result (FitsOffer ours.now.params.items offer.now answer.now) }
    ensures refused { IfErr result (RefusesOfferFit ours.now.params.items offer.now answer.now) }
{
    match first_offer_misfit(alloc, ours, offer, answer)? {
        None => Ok(()),
        Some(misfit) => Err(ExchangeError::DoesNotFit {
            section: misfit.section,
            rule: misfit.rule,
        }),
    }
}

/// What was added after the first so many.
fn added_sections_behind(
    alloc: Global,
    added: &[Added],
    placed: usize,
) -> Result<Items<Added>, AllocError>
    ensures { IfOk result (λ left. left ≡ drop placed added.now) }
{
    if added.len() <= placed {
        return Ok(Items::empty(alloc));
    }
    let (_before, left) = added.split_at(placed);
    Ok(Items::from(Vec::from_slice(alloc, left)?))
}

/// The offer that waits for its answer, which waits no longer.
fn taken_offer(pending: &mut Option<Pending>) -> Option<Sdp>
    ensures was { result ≡ option_map (λ offer. offer.sdp) pending.old }
    ensures none { pending.new ≡ None }
{
    match pending.take() {
        Some(Pending { sdp, .. }) => Some(sdp),
        None => None,
    }
}

/// An answer that fits the open offer, and what it leads to, of which nothing is in force yet.
#[derive(Drop)]
struct OfferFitting {
    remote: Sdp,
    /// The rows after the rounds of the answer.
    config: CodecConfig,
    /// The names that sections have had, those of the offer among them.
    names: Items<Mid>,
    directions: Items<SectionDirection>,
    /// What no exchange has placed yet.
    added: Items<Added>,
}

impl Exchange {
    /// The answer that a text is, where it fits the open offer.
    fn fitting(&self, answer: &str) -> Result<OfferFitting, ExchangeError>
        ensures taken { IfOk result (λ it. IsAnswerTakenWith self.now answer.now it.remote it.config) }
        ensures names { IfOk result (λ it. it.names ≡ grown_names self.now.names (sections_of (pending_sdp self.now))) }
        ensures directions { IfOk result (λ it. it.directions ≡ with_offer_placed self.now.own.directions (offer_placed_of self.now)) }
        ensures added { IfOk result (λ it. it.added ≡ drop (length (offer_placed_of self.now)) self.now.added) }
        ensures refused { IfErr result (RefusesAnswer self.now answer.now) }
    {
        let Some(pending) = &self.pending else {
            return Err(ExchangeError::WrongState(SignalingState::Stable));
        };
        let alloc = *self.config.allocator();
        let remote = whole_offered_description(alloc, answer)?;
        let config = negotiated(&self.config, &remote)?;
        check_offer_fit(alloc, &config, &pending.sdp, &remote)?;
        let names = grown_names(alloc, &self.names, pending.sdp.media_lines.as_slice())?;
        let placed = pending.placed.as_slice();
        let directions = with_offer_placed(alloc, self.own.directions.as_slice(), placed)?;
        let added = added_sections_behind(alloc, self.added.as_slice(), placed.len())?;
        Ok(OfferFitting {
            remote,
            config,
            names,
            directions,
            added,
        })
    }

    /// Takes the answer to this side's open offer (RFC 8829, section 5.11). It has to fit the offer, `Rule` by `Rule`: as many
    /// sections of the same types, protocols and mids, each accepted one in a direction, a role, lines and layers that the
    /// offer leaves open, with a format that both sides have, and reached by credentials and a fingerprint; in its `BUNDLE`
    /// group accepted sections of the offer's group alone.
    ///
    /// The rounds of its accepted sections are run: rows that were locked stay locked under their types, and those that are
    /// answered are locked. The state is `Stable` then, the offer is `local` and the answer is `remote`. What the offer placed
    /// is no longer added, and `directions` says of each section of media what it was added for.
    ///
    /// # Errors
    ///
    /// Nothing is changed by an error. `WrongState` where no offer is open; `NotRead` where the text describes no session;
    /// `Unread` where a line of it is left; `DoesNotFit` exactly where it breaks a rule, with the first section that breaks
    /// one, and the first such rule in the order of `Rule`; `Memory` where memory was refused.
    #[tactic(auto, using(crate::proofs::state::ExchangeFollowLaws::follows_self))]
    pub fn accept_answer(&mut self, answer: &str) -> Result<(), ExchangeError>
        ensures waiting { OnOk result (state_of self.old ≡ HaveLocalOffer) }
        ensures read { OnOk result (IsSomeAnd self.new.remote (IsAnswer answer.now)) }
        ensures fits { OnOk result (IsSomeAnd self.new.local (λ offer. IsSomeAnd self.new.remote (FitsOffer self.new.config.params.items offer))) }
        ensures negotiated { OnOk result (IsSomeAnd self.new.remote (λ remote.
            NegotiatesOffer remote self.old.config.params.items self.new.config.params.items)) }
        ensures stay { OnOk result (LockedStay self.old.config.params.items self.new.config.params.items) }
        ensures distinct { AllTypesDistinct (types self.old.config.params.items) → OnOk result (AllTypesDistinct (types self.new.config.params.items)) }
        ensures plain { All IsPlain self.old.config.params.items → OnOk result (All IsPlain self.new.config.params.items) }
        ensures distances { self.new.config.red_distances ≡ self.old.config.red_distances }
        ensures local { OnOk result (self.new.local ≡ pending_sdp self.old) }
        ensures stable { OnOk result (state_of self.new ≡ Stable) }
        ensures names { OnOk result (self.new.names ≡ grown_names self.old.names (sections_of self.new.local)) }
        ensures own { OnOk result (self.new.own ≡ record self.old.own { directions = with_offer_placed self.old.own.directions (offer_placed_of self.old) }) }
        ensures added { OnOk result (self.new.added ≡ drop (length (offer_placed_of self.old)) self.old.added) }
        ensures version_same { self.new.version ≡ self.old.version }
        ensures sound { IsExchangeSound self.old → IsExchangeSound self.new }
        ensures follows { IsExchangeSound self.old → Follows self.old self.new }
        ensures refused { IfErr result (RefusesAnswer self.old answer.now) }
        ensures unchanged { OnErr result (self.new ≡ self.old) }
    {
        let found = self.fitting(answer)?;
        let local = taken_offer(&mut self.pending);
        self.settle(local, found.remote, found.config, found.names);
        self.own.directions = found.directions;
        self.added = found.added;
        Ok(())
    }
}
