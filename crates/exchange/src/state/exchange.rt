//! Exchanges of offers and answers.
ghost use Rattle.exchange.specs.Prelude.{AllTypesDistinct, AreMidsDistinct, HasBoundedRows, IsPlain, LockedStay, kind_rows, section_mids, types, versioned_text};
ghost use Rattle.exchange.specs.answer.Offered.{AreOfferRounds, NegotiatesOffer};
ghost use Rattle.exchange.specs.declared.state.exchange_error.ExchangeError.TheVariants.{Memory, WrongState};
ghost use Rattle.exchange.specs.declared.state.signaling_state.SignalingState.TheVariants.{Stable};
ghost use Rattle.exchange.specs.offer.Added.{offer_with_channels, with_media};
ghost use Rattle.exchange.specs.offer.FreshNames.{AreFresh};
ghost use Rattle.exchange.specs.offer.MadeOffer.{MakesOffer, offer_placed_as, offer_ready_with};
ghost use Rattle.exchange.specs.offer.OfferRules.{IsNewOfferName, IsOffered, IsOfferedWith, KeepsOfferPlaces};
ghost use Rattle.exchange.specs.state.Exchange.{ExchangeRefusesChannels, RefusesMedia, RefusesToOffer};
ghost use Rattle.exchange.specs.state.ExchangeFollows.{Follows, IsExchangeSound};
ghost use Rattle.exchange.specs.state.OwnSide.{with_own_side_entry};
ghost use Rattle.exchange.specs.state.ReadBack.{IsReadBack};
ghost use Rattle.exchange.specs.state.State.{pending_sdp, sections_of, state_of, exchange_taken_names};
ghost use Rattle.std.specs.Prelude.{All, ◌≡◌, ◌≢◌, ◌+◌, ◌-◌, ◌^◌, [], ℕ, true, IfErr, IfOk, MatchOption, OnErr, OnOk, None, Some, length, min, option_copied};

use crate::answer::offered::{negotiate, rounds_of};
use crate::offer::Offer;
use crate::offer::added::Added;
use crate::offer::fresh_names::fresh_names;
use crate::offer::made_offer::{exchange_taken_names, made_offer, offer_placed_as};
use crate::offer::offer_section::has_rows;
use crate::offer::pending::Pending;
use crate::section::places::sections_of;
use crate::state::copied_over::copy_over;
use crate::state::exchange_error::ExchangeError;
use crate::state::line_by_line::{is_read_by_lines, session_number};
use crate::state::own_side::{OwnSide, with_own_side_entry};
use crate::state::read_back::read_back;
use crate::state::signaling_state::SignalingState;
use std::alloc::{AllocError, Global};
use str0m_signal::{
    CodecConfig, Direction, IceCreds, Items, MediaKind, Mid, Round, Sdp, VersionedSdp,
};

/// One side of an exchange of offers and answers (RFC 3264; RFC 8829).
#[derive(Drop)]
pub struct Exchange {
    pub(crate) own: OwnSide,
    pub(crate) config: CodecConfig,
    pub(crate) local: Option<Sdp>,
    pub(crate) remote: Option<Sdp>,
    /// This side's offer that waits for its answer.
    pub(crate) pending: Option<Pending>,
    pub(crate) version: u64,
    /// What no exchange has placed yet, in the order in which it was added.
    pub(crate) added: Items<Added>,
    /// The names that sections have had, in exchanges that are done.
    pub(crate) names: Items<Mid>,
}

/// An offer of this side that isn't in force yet, and what of it is to wait for the answer.
#[derive(Drop)]
struct Offering {
    offer: Offer,
    pending: Pending,
}

/// The room that most printed descriptions fit in, in bytes: no answer depends on it.
const USUAL_EXCHANGE_ROOM: usize = 4096;

/// A copy of a description, where the text that it prints with this version is read to its end as what it says.
fn exchange_text_copy(alloc: Global, sdp: &Sdp, version: u64) -> Result<Option<Sdp>, AllocError>
    ensures { IfOk result (λ found. MatchOption found
        (IsReadBack sdp.now (versioned_text version sdp.now) → ⊥)
        (λ copy. (copy ≡ sdp.now) × IsReadBack sdp.now (versioned_text version sdp.now))) }
{
    let printed = VersionedSdp { sdp, version };
    let mut text = String::with_capacity(alloc, USUAL_EXCHANGE_ROOM)?;
    write!(text, "{printed}")?;
    let Some(mut copy) = read_back(alloc, sdp, text.as_str())? else {
        return Ok(None);
    };
    copy_over(sdp, &mut copy)?;
    Ok(Some(copy))
}

/// A copy of a description, where the other side reads the text that it prints with this version as what it says: told line
/// by line, and by its whole text where that says nothing.
pub(crate) fn exchange_copy_read_back(
    alloc: Global,
    sdp: &Sdp,
    version: u64,
) -> Result<Option<Sdp>, AllocError>
    ensures { IfOk result (λ found. MatchOption found
        (IsReadBack sdp.now (versioned_text version sdp.now) → ⊥)
        (λ copy. (copy ≡ sdp.now) × IsReadBack sdp.now (versioned_text version sdp.now))) }
{
    // Of 64 bits, as the `o=` line wants it.
    session_number(sdp.session.id);
    if is_read_by_lines(alloc, sdp)? {
        return Ok(Some(sdp.clone()?));
    }
    exchange_text_copy(alloc, sdp, version)
}

/// A copy of the configuration after these rounds of an offer.
pub(crate) fn negotiated_by(
    config: &CodecConfig,
    offer: &Sdp,
    rounds: &[Round],
) -> Result<CodecConfig, AllocError>
    requires { AreOfferRounds offer.now offer.now.media_lines rounds.now }
    ensures rounds { IfOk result (λ after. NegotiatesOffer offer.now config.now.params.items after.params.items) }
    ensures stay { IfOk result (λ after. LockedStay config.now.params.items after.params.items) }
    ensures distinct { AllTypesDistinct (types config.now.params.items) → IfOk result (λ after. AllTypesDistinct (types after.params.items)) }
    ensures plain { All HasBoundedRows offer.now.media_lines → All IsPlain config.now.params.items → IfOk result (λ after. All IsPlain after.params.items) }
    ensures distances { IfOk result (λ after. after.red_distances ≡ config.now.red_distances) }
{
    let mut config = config.clone()?;
    negotiate(&mut config, offer, rounds)?;
    Ok(config)
}

/// A copy of the configuration after the rounds of an offer.
pub(crate) fn negotiated(config: &CodecConfig, offer: &Sdp) -> Result<CodecConfig, AllocError>
    ensures rounds { IfOk result (λ after. NegotiatesOffer offer.now config.now.params.items after.params.items) }
    ensures stay { IfOk result (λ after. LockedStay config.now.params.items after.params.items) }
    ensures distinct { AllTypesDistinct (types config.now.params.items) → IfOk result (λ after. AllTypesDistinct (types after.params.items)) }
    ensures plain { All HasBoundedRows offer.now.media_lines → All IsPlain config.now.params.items → IfOk result (λ after. All IsPlain after.params.items) }
    ensures distances { IfOk result (λ after. after.red_distances ≡ config.now.red_distances) }
{
    let rounds = rounds_of(*config.allocator(), offer)?;
    negotiated_by(config, offer, rounds.as_slice())
}

/// The version of the description behind one (RFC 8866, section 5.2: it grows).
pub(crate) fn next_exchange_version(version: u64) -> u64
    ensures { result ≡ min (version + 1) (2 ^ 64 - 1) }
{
    version.saturating_add(1)
}

impl Exchange {
    /// An exchange in which nothing was said yet.
    #[tactic(auto, using(crate::proofs::state::ExchangeFollowLaws::exchange_sound_new))]
    pub fn new(own: OwnSide, config: CodecConfig) -> Exchange
        ensures is { result ≡ record { own = own; config = config; local = None; remote = None; pending = None; version = 1; added = []; names = [] } }
        ensures sound { IsExchangeSound result }
    {
        let alloc = *config.allocator();
        Exchange {
            own,
            config,
            local: None,
            remote: None,
            pending: None,
            version: 1,
            added: Items::empty(alloc),
            names: Items::empty(alloc),
        }
    }

    /// What this side says of itself.
    pub fn own(&self) -> &OwnSide
        ensures { result.now ≡ self.now.own }
    {
        &self.own
    }

    /// What the codecs of this side are, as far as they are agreed on.
    pub fn config(&self) -> &CodecConfig
        ensures { result.now ≡ self.now.config }
    {
        &self.config
    }

    /// The description of this side in the last exchange that is done; `None` before the first.
    pub fn local(&self) -> Option<&Sdp>
        ensures { option_copied result ≡ self.now.local }
    {
        self.local.as_ref()
    }

    /// The description of the other side in the last exchange that is done; `None` before the first.
    pub fn remote(&self) -> Option<&Sdp>
        ensures { option_copied result ≡ self.now.remote }
    {
        self.remote.as_ref()
    }

    /// The offer of this side that waits for its answer; `None` where none does.
    pub fn pending(&self) -> Option<&Sdp>
        ensures { option_copied result ≡ pending_sdp self.now }
    {
        let pending = self.pending.as_ref()?;
        Some(&pending.sdp)
    }

    /// Where the exchange stands (RFC 8829, section 3.2): `HaveLocalOffer` where an offer of this side waits for its answer.
    pub fn state(&self) -> SignalingState
        ensures { result ≡ state_of self.now }
    {
        match &self.pending {
            Some(_) => SignalingState::HaveLocalOffer,
            None => SignalingState::Stable,
        }
    }

    /// Has the next description say these credentials of ICE. Who answers a restart (`is_ice_restart`) calls it first, since
    /// both sides say other credentials then (RFC 8839, section 4.4.3.1). Nothing else changes.
    #[tactic(auto, using(crate::proofs::state::ExchangeFollowLaws::follows_same))]
    pub fn restart_ice(&mut self, creds: IceCreds)
        ensures is { self.new ≡ record self.old { own = record self.old.own { creds = creds } } }
        ensures sound { IsExchangeSound self.old → IsExchangeSound self.new }
        ensures follows { Follows self.old self.new }
    {
        self.own.creds = creds;
    }

    /// Has the next description say that this side is ready for this direction in the section of a name: to hold media, and to
    /// resume it (RFC 3264, section 8.4). It stands in place of what `directions` of `OwnSide` said of that name. The only error
    /// is that memory was refused; nothing has changed then.
    #[tactic(auto, using(crate::proofs::state::ExchangeFollowLaws::follows_same, crate::proofs::state::ExchangeFollowLaws::follows_self))]
    pub fn set_direction(&mut self, mid: Mid, direction: Direction) -> Result<(), ExchangeError>
        ensures ok { OnOk result (self.new ≡ record self.old {
          own = record self.old.own {
            directions = with_own_side_entry mid direction self.old.own.directions;
          };
        }) }
        ensures sound { IsExchangeSound self.old → IsExchangeSound self.new }
        ensures follows { Follows self.old self.new }
        ensures refused { IfErr result (λ error. error ≡ Memory) }
        ensures unchanged { OnErr result (self.new ≡ self.old) }
    {
        let alloc = *self.config.allocator();
        let entries = self.own.directions.as_slice();
        let directions = with_own_side_entry(alloc, entries, mid, direction)?;
        self.own.directions = directions;
        Ok(())
    }

    /// Has the next offer, and those after it until an exchange has placed it, offer media of a kind in a section of its own,
    /// for which this side is ready in this direction (JSEP: a transceiver is added). The offer names the section.
    ///
    /// # Errors
    ///
    /// Nothing is changed by an error. `NoRows` where no row of the configuration stands in sections of the kind; `Memory` where
    /// memory was refused.
    #[tactic(auto, using(crate::proofs::state::ExchangeFollowLaws::follows_same, crate::proofs::state::ExchangeFollowLaws::follows_self))]
    pub fn add_media(&mut self, kind: MediaKind, direction: Direction) -> Result<(), ExchangeError>
        ensures ok { OnOk result (self.new ≡ with_media kind direction self.old) }
        ensures has_rows { OnOk result (kind_rows kind true self.old.config.params.items ≢ []) }
        ensures sound { IsExchangeSound self.old → IsExchangeSound self.new }
        ensures follows { Follows self.old self.new }
        ensures refused { IfErr result (RefusesMedia self.old kind) }
        ensures unchanged { OnErr result (self.new ≡ self.old) }
    {
        if !has_rows(&self.config, kind) {
            return Err(ExchangeError::NoRows);
        }
        self.added.push(Added::Media(kind, direction))?;
        Ok(())
    }

    /// Has the next offer, and those after it until an exchange has placed them, offer data channels in a section of their own.
    ///
    /// # Errors
    ///
    /// Nothing is changed by an error. `NoChannels` where this side takes none (`OwnSide`); `Memory` where memory was refused.
    #[tactic(auto, using(crate::proofs::state::ExchangeFollowLaws::follows_same, crate::proofs::state::ExchangeFollowLaws::follows_self))]
    pub fn add_channels(&mut self) -> Result<(), ExchangeError>
        ensures ok { OnOk result (self.new ≡ offer_with_channels self.old) }
        ensures has_channels { OnOk result (self.old.own.channels ≢ None) }
        ensures sound { IsExchangeSound self.old → IsExchangeSound self.new }
        ensures follows { Follows self.old self.new }
        ensures refused { IfErr result (ExchangeRefusesChannels self.old) }
        ensures unchanged { OnErr result (self.new ≡ self.old) }
    {
        if self.own.channels.is_none() {
            return Err(ExchangeError::NoChannels);
        }
        self.added.push(Added::Channels)?;
        Ok(())
    }

    /// Drops the offer of this side that waits for its answer (RFC 8829, section 4.1.10.2); where none does, nothing changes.
    /// What was added stays added, and the next offer has a version of its own.
    #[tactic(auto, using(crate::proofs::state::ExchangeFollowLaws::follows_same, crate::proofs::state::ExchangeFollowLaws::follows_self))]
    pub fn rollback(&mut self)
        ensures is { self.new ≡ record self.old { pending = None } }
        ensures sound { IsExchangeSound self.old → IsExchangeSound self.new }
        ensures follows { Follows self.old self.new }
    {
        self.pending = None;
    }

    /// Offers what was added, and what goes on of the last exchange (RFC 3264, section 8; RFC 8829, section 5.2).
    ///
    /// Each section of the last exchange has its place again, with its name, type and protocol. Where it goes on, media flows as
    /// this side is ready for it, with the rows of its kind of the configuration, so that rows that are agreed on stand under
    /// their types; of `a=rtcp-mux`, `a=rtcp-rsize` and `a=extmap` lines it says those that both sides said last. A place is over
    /// where this side's section is disabled, or the other side has stopped its own: what is added next takes it, and where
    /// nothing is left it stays rejected. What is left of what was added stands after. It has names that no section of the
    /// session has had, `Offer::added`.
    ///
    /// All sections with a port share a bundle. The offer has a version of its own, and the other side reads it to its end as what
    /// it says. It waits for its answer from then on, `pending`; the configuration stays.
    ///
    /// # Errors
    ///
    /// Nothing is changed by an error. `WrongState` where the state isn't `Stable`; `NoName` where no name is left; `NotPrintable`
    /// where the offer would be read as another one; `Memory` where memory was refused.
    #[tactic(auto, using(crate::proofs::state::ExchangeFollowLaws::follows_same, crate::proofs::state::ExchangeFollowLaws::follows_self))]
    pub fn create_offer(&mut self) -> Result<Offer, ExchangeError>
        ensures stable { IfOk result (λ offer. state_of self.old ≡ Stable) }
        ensures names { IfOk result (λ offer. (to : ℕ) × AreFresh (exchange_taken_names self.old) 0 offer.added to) }
        ensures as_many { IfOk result (λ offer. length offer.added ≡ length self.old.added) }
        ensures new { IfOk result (λ offer. All (IsNewOfferName self.old) offer.added) }
        // Section by section, and as a whole with its bundle.
        ensures says { IfOk result (λ offer. MakesOffer self.old offer.added offer.sdp) }
        ensures places { IfOk result (λ offer. KeepsOfferPlaces self.old 0 (sections_of self.old.local) offer.sdp.media_lines) }
        ensures rules { IfOk result (λ offer. All (IsOffered self.old (offer_ready_with self.old offer.added)) offer.sdp.media_lines) }
        ensures different { AreMidsDistinct (section_mids (sections_of self.old.local)) → IfOk result (λ offer. AreMidsDistinct (section_mids offer.sdp.media_lines)) }
        ensures read_back { IfOk result (λ offer. IsReadBack offer.sdp (versioned_text offer.version offer.sdp)) }
        ensures version { IfOk result (λ offer. offer.version ≡ self.old.version) }
        ensures waits { IfOk result (λ offer. self.new ≡ record self.old {
          pending = Some (record { sdp = offer.sdp; placed = offer_placed_as self.old offer.added });
          version = min (self.old.version + 1) (2 ^ 64 - 1);
        }) }
        ensures sound { IsExchangeSound self.old → IsExchangeSound self.new }
        ensures follows { Follows self.old self.new }
        ensures refused { IfErr result (RefusesToOffer self.old) }
        ensures unchanged { OnErr result (self.new ≡ self.old) }
    {
        let made = self.offering()?;
        self.pending = Some(made.pending);
        self.version = next_exchange_version(self.version);
        Ok(made.offer)
    }

    /// The offer of what was added, and of what goes on of the last exchange.
    fn offering(&self) -> Result<Offering, ExchangeError>
        ensures made { IfOk result (λ it. IsOfferedWith self.now it.offer) }
        ensures waits { IfOk result (λ it. it.pending ≡ record { sdp = it.offer.sdp; placed = offer_placed_as self.now it.offer.added }) }
        ensures refused { IfErr result (RefusesToOffer self.now) }
    {
        self.check_stable()?;
        let (alloc, version) = (*self.config.allocator(), self.version);
        let taken = exchange_taken_names(self)?;
        let added = fresh_names(alloc, taken.as_slice(), self.added.len())?;
        let sdp = made_offer(self, added.as_slice())?;
        let Some(copy) = exchange_copy_read_back(alloc, &sdp, version)? else {
            return Err(ExchangeError::NotPrintable);
        };
        let placed = offer_placed_as(self, added.as_slice())?;
        let pending = Pending { sdp: copy, placed };
        let offer = Offer::new(sdp, version, added);
        Ok(Offering { offer, pending })
    }

    /// An error where an offer of this side waits for its answer.
    pub(crate) fn check_stable(&self) -> Result<(), ExchangeError>
        ensures stable { OnOk result (state_of self.now ≡ Stable) }
        ensures refused { IfErr result (λ error. (error ≡ WrongState (state_of self.now)) × (state_of self.now ≢ Stable)) }
    {
        match self.state() {
            SignalingState::Stable => Ok(()),
            state => Err(ExchangeError::WrongState(state)),
        }
    }

    /// Has these be the last descriptions of both sides, with the rows and the names that are in use after them.
    pub(crate) fn settle(
        &mut self,
        local: Option<Sdp>,
        remote: Sdp,
        config: CodecConfig,
        names: Items<Mid>,
    )
        ensures { self.new ≡ record self.old { config = config; local = local; remote = Some remote; names = names } }
    {
        self.local = local;
        self.remote = Some(remote);
        self.config = config;
        self.names = names;
    }
}
