//! The places of sections over several exchanges.
ghost use Rattle.exchange.specs.Prelude.{HoldsMids};
ghost use Rattle.exchange.specs.section.Places.{HasPlaceNameAt, HoldsGroup, IsPlaceFree, IsPlaceOver, StaysInPlace, StaysInPlaceAt, StaysInPlaces, MovesPlaceAt};
ghost use Rattle.exchange.specs.section.Stopped.{IsStoppedAt};
ghost use Rattle.exchange.specs.state.State.{sections_of};
ghost use Rattle.std.specs.Prelude.{◌≡◌, ◌↔◌, IfOk, IsSomeAnd, IsTrue, MatchOption};

use crate::answer::in_bundle::ordered_bundle;
use crate::offer::names::{is_mid_held, ordered_names};
use crate::section::stopped::{is_stopped_at, name_of};
use std::alloc::{AllocError, Global};
use std::collections::BTreeSet;
use str0m_signal::{MediaLine, Mid, Sdp};

/// The sections of a description; none before the first.
pub(crate) fn sections_of(sdp: &Option<Sdp>) -> &[MediaLine]
    ensures { result.now ≡ sections_of sdp.now }
{
    match sdp {
        Some(sdp) => sdp.media_lines.as_slice(),
        None => &[],
    }
}

/// The names of the other side's first `BUNDLE` group in order; none before its first description.
pub(crate) fn remote_bundle(
    alloc: Global,
    remote: &Option<Sdp>,
) -> Result<BTreeSet<&str>, AllocError>
    ensures { IfOk result (HoldsGroup remote.now) }
{
    match remote {
        Some(sdp) => ordered_bundle(alloc, sdp),
        None => Ok(BTreeSet::new(alloc)),
    }
}

fn is_place_stopped(remote: &Option<Sdp>, group: &BTreeSet<&str>, at: usize) -> bool
    requires { HoldsGroup remote.now group.now }
    ensures { IsTrue result ↔ IsSomeAnd remote.now (λ sdp. IsStoppedAt sdp at) }
{
    match remote {
        Some(sdp) => is_stopped_at(group, sdp, at),
        None => false,
    }
}

/// Whether the place of a section of this side is over: it has port 0, or the other side has stopped its own. `group` has the
/// names of the other side's group in order.
pub(crate) fn is_place_over(
    remote: &Option<Sdp>,
    group: &BTreeSet<&str>,
    at: usize,
    mine: &MediaLine,
) -> bool
    requires { HoldsGroup remote.now group.now }
    ensures { IsTrue result ↔ IsPlaceOver remote.now at mine.now }
{
    mine.disabled || is_place_stopped(remote, group, at)
}

fn is_place_free(
    local: &[MediaLine],
    remote: &Option<Sdp>,
    group: &BTreeSet<&str>,
    at: usize,
) -> bool
    requires { HoldsGroup remote.now group.now }
    ensures { IsTrue result ↔ IsPlaceFree local.now remote.now at }
{
    match local.get(at) {
        Some(mine) => is_place_over(remote, group, at, mine),
        None => true,
    }
}

pub(crate) fn are_same_section_names(name: Option<Mid>, other: Option<Mid>) -> bool
    ensures { IsTrue result ↔ (name ≡ other) }
{
    match (name, other) {
        (Some(name), Some(other)) => name == other,
        (None, None) => true,
        _ => false,
    }
}

fn has_place_name_at(sections: &[MediaLine], at: usize, section: &MediaLine) -> bool
    ensures { IsTrue result ↔ HasPlaceNameAt sections.now at section.now }
{
    match sections.get(at) {
        Some(earlier) => are_same_section_names(name_of(section), name_of(earlier)),
        None => false,
    }
}

/// Whether a section has the name of its place, or a new one where the place is free.
fn keeps_place(
    had: &[Mid],
    names: &BTreeSet<&str>,
    local: &[MediaLine],
    remote: &Option<Sdp>,
    group: &BTreeSet<&str>,
    at: usize,
    section: &MediaLine,
) -> bool
    requires names { HoldsMids names.now had.now }
    requires group { HoldsGroup remote.now group.now }
    ensures { IsTrue result ↔ StaysInPlace had.now local.now remote.now at section.now }
{
    has_place_name_at(local, at, section)
        || (is_place_free(local, remote, group, at) && !is_mid_held(names, name_of(section)))
}

fn keeps_place_at(
    had: &[Mid],
    names: &BTreeSet<&str>,
    local: &[MediaLine],
    remote: &Option<Sdp>,
    group: &BTreeSet<&str>,
    offer: &Sdp,
    at: usize,
) -> bool
    requires names { HoldsMids names.now had.now }
    requires group { HoldsGroup remote.now group.now }
    ensures { IsTrue result ↔ StaysInPlaceAt had.now local.now remote.now offer.now at }
{
    match offer.media_lines.get(at) {
        Some(section) => keeps_place(had, names, local, remote, group, at, section),
        None => true,
    }
}

/// The first section of an offer that isn't in its place after the last exchange, with these sections of this side
/// and this description of the other, where sections have had these names; where it has too few sections, their number.
pub(crate) fn first_moved_place(
    alloc: Global,
    had: &[Mid],
    local: &[MediaLine],
    remote: &Option<Sdp>,
    offer: &Sdp,
) -> Result<Option<usize>, AllocError>
    ensures { IfOk result (λ found. MatchOption found (StaysInPlaces had.now local.now remote.now offer.now) (MovesPlaceAt had.now local.now remote.now offer.now)) }
{
    let names = ordered_names(alloc, had)?;
    let group = remote_bundle(alloc, remote)?;
    let many = offer.media_lines.len();
    for at in 0..many {
        if !keeps_place_at(had, &names, local, remote, &group, offer, at) {
            return Ok(Some(at));
        }
    }
    if many < local.len() {
        return Ok(Some(many));
    }
    Ok(None)
}
