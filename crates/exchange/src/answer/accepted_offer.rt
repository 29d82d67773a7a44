//! Answers of this side to offers.
ghost use Rattle.exchange.specs.Prelude.{AllTypesDistinct, AreMidsDistinct, HasBoundedRows, IsPlain, LockedStay, section_mids, types, versioned_text};
ghost use Rattle.exchange.specs.answer.AcceptedOffer.{IsAnsweredWith, tracks};
ghost use Rattle.exchange.specs.answer.AnsweredSession.{BundlesAccepted};
ghost use Rattle.exchange.specs.answer.Offered.{AreOfferRounds, IsOffer, NegotiatesOffer};
ghost use Rattle.exchange.specs.declared.state.signaling_state.SignalingState.TheVariants.{Stable};
ghost use Rattle.exchange.specs.offer.Names.{grown_names};
ghost use Rattle.exchange.specs.offer.Rules.{HasOfferedShape, IsAcceptedExactlyByRules, KeepsRules};
ghost use Rattle.exchange.specs.section.Places.{StaysInPlaces};
ghost use Rattle.exchange.specs.state.Exchange.{AnswersOffer, EachSection, RefusesOffer, RefusesSections, RefusesToAnswer};
ghost use Rattle.exchange.specs.state.ExchangeFollows.{Follows, IsExchangeSound};
ghost use Rattle.exchange.specs.state.ReadBack.{IsReadBack};
ghost use Rattle.exchange.specs.state.State.{sections_of, state_of};
ghost use Rattle.std.specs.List.{AllZip};
ghost use Rattle.std.specs.Prelude.{All, ◌≡◌, ◌+◌, ◌-◌, ◌^◌, ◌↔◌, IfErr, IfOk, IsSomeAnd, OnErr, OnOk, Some, min};

use crate::answer::Answer;
use crate::answer::answered_section::answered_sections;
use crate::answer::answered_session::answered_session;
use crate::answer::offered::{rounds_of, whole_offered_description};
use crate::offer::names::grown_names;
use crate::offer::own_names::first_named_again;
use crate::offer::rule::Rule;
use crate::section::places::{first_moved_place, sections_of};
use crate::state::exchange::{
    Exchange, exchange_copy_read_back, negotiated_by, next_exchange_version,
};
use crate::state::exchange_error::ExchangeError;
use crate::state::own_side::OwnSide;
use std::alloc::{AllocError, Global};
use str0m_signal::{CodecConfig, Items, Mid, Round, Sdp};

/// An offer and what answers it, of which nothing is in force yet.
#[derive(Drop)]
struct Answering {
    remote: Sdp,
    /// The rows after the rounds of the offer.
    config: CodecConfig,
    sdp: Sdp,
    /// A copy of the answer, which stays.
    local: Sdp,
    /// The names that sections have had, those of the answer among them.
    names: Items<Mid>,
}

/// The description that answers an offer.
#[tactic(auto, using(crate::proofs::answer::BundleLaws::bundles))]
fn answer_description_for(
    alloc: Global,
    own: &OwnSide,
    config: &CodecConfig,
    offer: &Sdp,
    rounds: &[Round],
) -> Result<Sdp, AllocError>
    requires { AreOfferRounds offer.now offer.now.media_lines rounds.now }
    ensures answers { IfOk result (AnswersOffer own.now config.now.params.items offer.now) }
    ensures shape { IfOk result (λ answer. AllZip HasOfferedShape offer.now.media_lines answer.media_lines) }
    ensures exactly { IfOk result (λ answer. AllZip (IsAcceptedExactlyByRules own.now config.now.params.items offer.now) offer.now.media_lines answer.media_lines) }
    ensures rules { IfOk result (λ answer. AllZip (KeepsRules own.now config.now.params.items offer.now) offer.now.media_lines answer.media_lines) }
    ensures bundle { IfOk result (BundlesAccepted offer.now) }
    ensures names { IfOk result (λ answer. section_mids answer.media_lines ≡ section_mids offer.now.media_lines) }
    ensures tracks { AreMidsDistinct (section_mids offer.now.media_lines) → IfOk result (λ answer. AreMidsDistinct (tracks answer)) }
{
    let media_lines = answered_sections(alloc, own, config, offer, rounds)?;
    let session = answered_session(alloc, own, offer, media_lines.as_slice())?;
    Ok(Sdp {
        session,
        media_lines,
    })
}

/// An error where two sections of an offer have one name, or one isn't in its place after the last exchange.
fn check_sections(
    alloc: Global,
    names: &Items<Mid>,
    local: &Option<Sdp>,
    remote: &Option<Sdp>,
    offer: &Sdp,
) -> Result<(), ExchangeError>
    ensures different { OnOk result (AreMidsDistinct (section_mids offer.now.media_lines)) }
    ensures placed { OnOk result (StaysInPlaces names.now (sections_of local.now) remote.now offer.now) }
    ensures refused { IfErr result (RefusesSections names.now (sections_of local.now) remote.now offer.now) }
{
    if let Some(section) = first_named_again(alloc, offer.media_lines.as_slice())? {
        return Err(ExchangeError::DoesNotFit {
            section,
            rule: Rule::OwnName,
        });
    }
    match first_moved_place(alloc, names.as_slice(), sections_of(local), remote, offer)? {
        None => Ok(()),
        Some(section) => Err(ExchangeError::DoesNotFit {
            section,
            rule: Rule::Place,
        }),
    }
}

impl Exchange {
    /// The offer that a text is, with each section in its place.
    fn placed_offer(&self, text: &str) -> Result<Sdp, ExchangeError>
        ensures read { IfOk result (IsOffer text.now) }
        ensures bounded { IfOk result (λ offer. All HasBoundedRows offer.media_lines) }
        ensures different { IfOk result (λ offer. AreMidsDistinct (section_mids offer.media_lines)) }
        ensures placed { IfOk result (StaysInPlaces self.now.names (sections_of self.now.local) self.now.remote) }
        ensures refused { IfErr result (RefusesOffer self.now text.now) }
    {
        let alloc = *self.config.allocator();
        let offer = whole_offered_description(alloc, text)?;
        check_sections(alloc, &self.names, &self.local, &self.remote, &offer)?;
        Ok(offer)
    }

    /// A copy of the answer, where the other side reads it as what it says.
    fn printable_answer(
        &self,
        config: &CodecConfig,
        offer: &Sdp,
        answer: &Sdp,
    ) -> Result<Sdp, ExchangeError>
        requires { AnswersOffer self.now.own config.now.params.items offer.now answer.now }
        ensures same { IfOk result (λ copy. copy ≡ answer.now) }
        ensures read_back { OnOk result (IsReadBack answer.now (versioned_text self.now.version answer.now)) }
        ensures refused { IfErr result (RefusesToAnswer self.now config.now.params.items offer.now) }
    {
        let alloc = *self.config.allocator();
        match exchange_copy_read_back(alloc, answer, self.version)? {
            Some(copy) => Ok(copy),
            None => Err(ExchangeError::NotPrintable),
        }
    }

    /// What this side answers to an offer.
    fn answering(&self, offer: &str) -> Result<Answering, ExchangeError>
        ensures answered { IfOk result (λ it. IsAnsweredWith self.now offer.now it.remote it.config it.sdp) }
        ensures same { IfOk result (λ it. it.local ≡ it.sdp) }
        ensures names { IfOk result (λ it. it.names ≡ grown_names self.now.names it.sdp.media_lines) }
        ensures refused { IfErr result (RefusesOffer self.now offer.now) }
    {
        let remote = self.placed_offer(offer)?;
        let alloc = *self.config.allocator();
        let rounds = rounds_of(alloc, &remote)?;
        let config = negotiated_by(&self.config, &remote, rounds.as_slice())?;
        let sdp = answer_description_for(alloc, &self.own, &config, &remote, rounds.as_slice())?;
        // As much memory as the offer takes: the copy of the answer takes it next.
        drop(rounds);
        let local = self.printable_answer(&config, &remote, &sdp)?;
        let names = grown_names(alloc, &self.names, local.media_lines.as_slice())?;
        Ok(Answering {
            remote,
            config,
            sdp,
            local,
            names,
        })
    }

    /// Answers an offer (RFC 3264, section 6; RFC 8829, section 5.3): with as many sections, in its order, of the same
    /// types, protocols and names. One is rejected exactly where it is stopped, where it is neither media over RTP nor
    /// data channels over SCTP, or where this side has nothing for it. Media flows where both sides are ready for it, with
    /// the rows that this section offers and that are agreed on, in the order of its m-line.
    ///
    /// The rounds of the offer's sections are run first: rows that were locked stay locked under their types. A round that
    /// is refused changes nothing, and the others count. The answer has a version of its own, and the other side reads it
    /// to its end as what it says. It is the description of this side from then on, `local`, and the offer is `remote`.
    ///
    /// # Errors
    ///
    /// Nothing is changed by an error. `WrongState` where the state isn't `Stable`; `NotRead` where the text
    /// describes no session; `Unread` where a line of it is left; `DoesNotFit` exactly where a section has the mid of an earlier
    /// one, with the first such one and `Rule::OwnName`, or else where one isn't in its place after the last exchange, with the
    /// first such one and `Rule::Place`; `NotPrintable` where the answer would be read as another one; `Memory` where memory was
    /// refused.
    #[tactic(auto, using(crate::proofs::state::ExchangeFollowLaws::follows_self))]
    pub fn accept_offer(&mut self, offer: &str) -> Result<Answer, ExchangeError>
        ensures stable { IfOk result (λ answer. state_of self.old ≡ Stable) }
        ensures read { IfOk result (λ answer. IsSomeAnd self.new.remote (IsOffer offer.now)) }
        ensures different { IfOk result (λ answer. IsSomeAnd self.new.remote (λ remote. AreMidsDistinct (section_mids remote.media_lines))) }
        ensures placed { IfOk result (λ answer. IsSomeAnd self.new.remote
            (StaysInPlaces self.old.names (sections_of self.old.local) self.old.remote)) }
        // Section by section: the shape, which are accepted, and the rules of the table.
        ensures shape { IfOk result (λ answer. EachSection (λ remote. HasOfferedShape) self.new.remote answer.sdp) }
        ensures exactly { IfOk result (λ answer. EachSection (IsAcceptedExactlyByRules self.old.own self.new.config.params.items) self.new.remote answer.sdp) }
        ensures rules { IfOk result (λ answer. EachSection (KeepsRules self.old.own self.new.config.params.items) self.new.remote answer.sdp) }
        // Line by line, and as a whole with its bundle.
        ensures answers { IfOk result (λ answer. IsSomeAnd self.new.remote (λ remote.
            AnswersOffer self.old.own self.new.config.params.items remote answer.sdp)) }
        ensures bundle { IfOk result (λ answer. IsSomeAnd self.new.remote (λ remote. BundlesAccepted remote answer.sdp)) }
        ensures tracks { IfOk result (λ answer. AreMidsDistinct (tracks answer.sdp)) }
        ensures read_back { IfOk result (λ answer. IsReadBack answer.sdp (versioned_text answer.version answer.sdp)) }
        ensures negotiated { IfOk result (λ answer. IsSomeAnd self.new.remote (λ remote.
            NegotiatesOffer remote self.old.config.params.items self.new.config.params.items)) }
        ensures stay { IfOk result (λ answer. LockedStay self.old.config.params.items self.new.config.params.items) }
        ensures distinct { AllTypesDistinct (types self.old.config.params.items) → IfOk result (λ answer. AllTypesDistinct (types self.new.config.params.items)) }
        ensures plain { All IsPlain self.old.config.params.items → IfOk result (λ answer. All IsPlain self.new.config.params.items) }
        ensures local { IfOk result (λ answer. self.new.local ≡ Some answer.sdp) }
        ensures version { IfOk result (λ answer. answer.version ≡ self.old.version) }
        ensures next { IfOk result (λ answer. self.new.version ≡ min (self.old.version + 1) (2 ^ 64 - 1)) }
        ensures distances { self.new.config.red_distances ≡ self.old.config.red_distances }
        ensures own_same { self.new.own ≡ self.old.own }
        ensures else_same { IfOk result (λ answer. (self.new.pending ≡ self.old.pending) × (self.new.added ≡ self.old.added)) }
        ensures names { IfOk result (λ answer. self.new.names ≡ grown_names self.old.names answer.sdp.media_lines) }
        ensures sound { IsExchangeSound self.old → IsExchangeSound self.new }
        ensures follows { Follows self.old self.new }
        ensures refused { IfErr result (RefusesOffer self.old offer.now) }
        ensures unchanged { OnErr result (self.new ≡ self.old) }
    {
        self.check_stable()?;
        let made = self.answering(offer)?;
        let answer = Answer::new(made.sdp, self.version);
        self.settle(Some(made.local), made.remote, made.config, made.names);
        self.version = next_exchange_version(self.version);
        Ok(answer)
    }
}
