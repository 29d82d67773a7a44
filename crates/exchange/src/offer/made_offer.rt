//! The offer that this side makes.
ghost use Rattle.exchange.specs.Prelude.{AreMidsDistinct, section_mids};
ghost use Rattle.exchange.specs.offer.MadeOffer.{MakesOffer, bundled_names, offer_session, offer_placed_as, offer_ready_with};
ghost use Rattle.exchange.specs.offer.OfferExtensions.{extension_lines};
ghost use Rattle.exchange.specs.offer.OfferRules.{IsNewOfferName, IsOffered, KeepsOfferPlaces};
ghost use Rattle.exchange.specs.offer.OfferSection.{new_section};
ghost use Rattle.exchange.specs.section.Places.{FollowsPlaces};
ghost use Rattle.exchange.specs.state.State.{sections_of, session_of, exchange_taken_names};
ghost use Rattle.std.specs.Prelude.{◌≡◌, All, IfOk, map};

use crate::answer::answered_session::{
    group_lines, session_mixed_lines, session_sections_accepted,
};
use crate::answer::bundle::answered_bundle_names;
use crate::offer::added::{AddedUnderMid, offer_placed_under, with_offer_placed};
use crate::offer::offer_extensions::extension_lines;
use crate::offer::offer_places::{filled_places, new_sections};
use crate::section::places::sections_of;
use crate::section::stopped::name_of;
use crate::state::exchange::Exchange;
use crate::state::own_side::SectionDirection;
use std::alloc::{AllocError, Global};
use str0m_signal::{Items, MediaLine, Mid, Sdp, Session, SessionAttribute};

/// The lines of this side's session there.
fn session_of(local: &Option<Sdp>) -> &[SessionAttribute]
    ensures { result.now ≡ session_of local.now }
{
    match local {
        Some(sdp) => sdp.session.attrs.as_slice(),
        None => &[],
    }
}

/// The names of sections, in order.
fn section_names(alloc: Global, sections: &[MediaLine]) -> Result<Vec<Mid>, AllocError>
    ensures { IfOk result (λ names. names.items ≡ section_mids sections.now) }
{
    let mut names = Vec::new(alloc);
    for section in sections {
        if let Some(name) = name_of(section) {
            names.push(name)?;
        }
    }
    Ok(names)
}

/// The names that sections of the session have, or have had.
pub(crate) fn exchange_taken_names(exchange: &Exchange) -> Result<Vec<Mid>, AllocError>
    ensures { IfOk result (λ names. names.items ≡ exchange_taken_names exchange.now) }
{
    let alloc = *exchange.config.allocator();
    let mut names = section_names(alloc, sections_of(&exchange.local))?;
    names.extend_from_slice(exchange.names.as_slice())?;
    Ok(names)
}

/// The names of the sections with a port, in order.
fn bundled_names(alloc: Global, sections: &[MediaLine]) -> Result<Items<Mid>, AllocError>
    ensures { IfOk result (λ names. names ≡ bundled_names sections.now) }
{
    let accepted = session_sections_accepted(alloc, sections)?;
    let names = answered_bundle_names(alloc, sections, accepted.as_slice())?;
    Ok(Items::from(names))
}

/// The session's part of an offer with these sections.
fn offer_session(exchange: &Exchange, sections: &[MediaLine]) -> Result<Session, AllocError>
    ensures { IfOk result (λ session. session ≡ offer_session exchange.now sections.now) }
{
    let alloc = *exchange.config.allocator();
    let names = bundled_names(alloc, sections)?;
    let mut attrs = group_lines(alloc, names)?;
    attrs.append(&mut session_mixed_lines(alloc, session_of(&exchange.local))?)?;
    Ok(Session {
        id: exchange.own.session_id,
        bw: None,
        attrs: Items::from(attrs),
    })
}

/// What was added, under these names.
pub(crate) fn offer_placed_as(
    exchange: &Exchange,
    names: &[Mid],
) -> Result<Items<AddedUnderMid>, AllocError>
    ensures { IfOk result (λ placed. placed ≡ offer_placed_as exchange.now names.now) }
{
    let alloc = *exchange.config.allocator();
    let placed = offer_placed_under(alloc, names, exchange.added.as_slice())?;
    Ok(Items::from(placed))
}

/// The sections of what is placed, in the directions of these entries.
fn sections_added(
    exchange: &Exchange,
    ready: &[SectionDirection],
    placed: &[AddedUnderMid],
) -> Result<Vec<MediaLine>, AllocError>
    ensures { IfOk result (λ sections. sections.items ≡ map (new_section exchange.now ready.now
        (extension_lines (sections_of exchange.now.local) exchange.now.own.extensions)) placed.now) }
{
    let alloc = *exchange.config.allocator();
    let known = exchange.own.extensions.as_slice();
    let extensions = extension_lines(alloc, sections_of(&exchange.local), known)?;
    new_sections(exchange, ready, extensions.as_slice(), placed)
}

/// The offer in which what was added has these names.
fn offer_under(exchange: &Exchange, names: &[Mid]) -> Result<Sdp, AllocError>
    ensures { IfOk result (MakesOffer exchange.now names.now) }
{
    let alloc = *exchange.config.allocator();
    let placed = offer_placed_as(exchange, names)?;
    let ready = with_offer_placed(alloc, exchange.own.directions.as_slice(), placed.as_slice())?;
    let added = sections_added(exchange, ready.as_slice(), placed.as_slice())?;
    let places = sections_of(&exchange.local);
    let sections = filled_places(exchange, ready.as_slice(), places, added.as_slice())?;
    let session = offer_session(exchange, sections.as_slice())?;
    Ok(Sdp {
        session,
        media_lines: Items::from(sections),
    })
}

/// The offer in which what was added has these names, which are new and different: it keeps the rules.
#[tactic(auto, using(crate::proofs::offer::OfferRuleLaws::offer_places, crate::proofs::offer::OfferNameLaws::offer_names, crate::proofs::offer::OfferFollows::offer_follows))]
pub(crate) fn made_offer(exchange: &Exchange, names: &[Mid]) -> Result<Sdp, AllocError>
    requires new { All (IsNewOfferName exchange.now) names.now }
    requires different { AreMidsDistinct names.now }
    ensures makes { IfOk result (MakesOffer exchange.now names.now) }
    ensures places { IfOk result (λ offer. KeepsOfferPlaces exchange.now 0 (sections_of exchange.now.local) offer.media_lines) }
    ensures follows { IfOk result (λ offer. FollowsPlaces exchange.now.names (sections_of exchange.now.local) offer.media_lines) }
    ensures rules { IfOk result (λ offer. All (IsOffered exchange.now (offer_ready_with exchange.now names.now)) offer.media_lines) }
    ensures different { AreMidsDistinct (section_mids (sections_of exchange.now.local)) → IfOk result (λ offer. AreMidsDistinct (section_mids offer.media_lines)) }
{
    let offer = offer_under(exchange, names)?;
    Ok(offer)
}
