//! The places of an offer.
ghost use Rattle.exchange.specs.offer.OfferPlaces.{FillsAllPlaces, offer_added_tail, over_section, their_section_at};
ghost use Rattle.exchange.specs.offer.OfferSection.{new_section, next_section};
ghost use Rattle.std.specs.Prelude.{◌≡◌, ◌++◌, IfOk, if◌then◌else◌, map, option_copied};

use crate::answer::rejected_section::rejected;
use crate::offer::added::AddedUnderMid;
use crate::offer::offer_section::{new_section, next_section};
use crate::section::places::{is_place_over, remote_bundle};
use crate::state::exchange::Exchange;
use crate::state::own_side::SectionDirection;
use std::alloc::{AllocError, Global};
use str0m_signal::{MediaAttribute, MediaLine, Sdp};

fn their_section_at(remote: &Option<Sdp>, at: usize) -> Option<&MediaLine>
    ensures { option_copied result ≡ their_section_at remote.now at }
{
    match remote {
        Some(remote) => remote.media_lines.get(at),
        None => None,
    }
}

/// The section at a place that is over: what is added next, else one that stays rejected.
fn over_section(
    alloc: Global,
    added: &[MediaLine],
    mine: &MediaLine,
) -> Result<MediaLine, AllocError>
    ensures { IfOk result (λ section. section ≡ over_section added.now mine.now) }
{
    match added {
        [first, ..] => first.clone(),
        [] => rejected(alloc, mine),
    }
}

fn offer_added_tail(added: &[MediaLine]) -> &[MediaLine]
    ensures { result.now ≡ offer_added_tail added.now }
{
    match added.split_first() {
        Some((_, more)) => more,
        None => added,
    }
}

/// The section at a place, whether it is over or goes on.
fn place_section(
    exchange: &Exchange,
    ready: &[SectionDirection],
    at: usize,
    mine: &MediaLine,
    is_over: bool,
    added: &[MediaLine],
) -> Result<MediaLine, AllocError>
    ensures { IfOk result (λ section. section ≡ (if is_over then over_section added.now mine.now
        else next_section exchange.now ready.now (their_section_at exchange.now.remote at) mine.now)) }
{
    if is_over {
        return over_section(*exchange.config.allocator(), added, mine);
    }
    next_section(
        exchange,
        ready,
        their_section_at(&exchange.remote, at),
        mine,
    )
}

fn offer_added_left(is_over: bool, added: &[MediaLine]) -> &[MediaLine]
    ensures { result.now ≡ (if is_over then offer_added_tail added.now else added.now) }
{
    if is_over {
        offer_added_tail(added)
    } else {
        added
    }
}

/// Copies of sections after others.
fn with_section_copies(
    mut sections: Vec<MediaLine>,
    behind: &[MediaLine],
) -> Result<Vec<MediaLine>, AllocError>
    ensures { IfOk result (λ all. all.items ≡ sections.items ++ behind.now) }
{
    for section in behind {
        sections.push(section.clone()?)?;
    }
    Ok(sections)
}

/// The sections of an offer: at each place of the last exchange, and after them what is left of what is added.
#[tactic(auto, using(crate::proofs::section::PlaceLaws::place_fills_more))]
pub(crate) fn filled_places(
    exchange: &Exchange,
    ready: &[SectionDirection],
    places: &[MediaLine],
    added: &[MediaLine],
) -> Result<Vec<MediaLine>, AllocError>
    ensures { IfOk result (λ sections. FillsAllPlaces exchange.now ready.now places.now added.now sections.items) }
{
    let alloc = *exchange.config.allocator();
    let group = remote_bundle(alloc, &exchange.remote)?;
    let mut sections = Vec::new(alloc);
    let mut left = added;
    for (at, mine) in places.iter().enumerate() {
        let is_over = is_place_over(&exchange.remote, &group, at, mine);
        sections.push(place_section(exchange, ready, at, mine, is_over, left)?)?;
        left = offer_added_left(is_over, left);
    }
    with_section_copies(sections, left)
}

/// The sections of what is added.
pub(crate) fn new_sections(
    exchange: &Exchange,
    ready: &[SectionDirection],
    extensions: &[MediaAttribute],
    placed: &[AddedUnderMid],
) -> Result<Vec<MediaLine>, AllocError>
    ensures { IfOk result (λ sections. sections.items ≡ map (new_section exchange.now ready.now extensions.now) placed.now) }
{
    let mut sections = Vec::new(*exchange.config.allocator());
    for it in placed {
        sections.push(new_section(exchange, ready, extensions, it)?)?;
    }
    Ok(sections)
}
