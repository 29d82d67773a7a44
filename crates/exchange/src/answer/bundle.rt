//! The names that the group of an answer lists.

ghost use Rattle.exchange.specs.Prelude.{HoldsMids, is_group_listed};
ghost use Rattle.exchange.specs.answer.Bundle.{answered_bundle_names, answered_bundle, answered_bundle_among, answered_bundle_name};
ghost use Rattle.std.specs.Prelude.{◌≡◌, IfOk, Some};

use crate::offer::names::{is_mid_held, ordered_names};
use crate::section::stopped::name_of;
use std::alloc::{AllocError, Global};
use std::collections::BTreeSet;
use str0m_signal::{Items, MediaLine, Mid, Sdp};

fn answered_bundle_name(section: &MediaLine, is_accepted: bool) -> Option<Mid>
    ensures { result ≡ answered_bundle_name (section.now, is_accepted) }
{
    if is_accepted { name_of(section) } else { None }
}

/// The names of the accepted sections, in order.
pub(crate) fn answered_bundle_names(
    alloc: Global,
    sections: &[MediaLine],
    accepted: &[bool],
) -> Result<Vec<Mid>, AllocError>
    ensures { IfOk result (λ names. names.items ≡ answered_bundle_names sections.now accepted.now) }
{
    let mut names = Vec::new(alloc);
    let (mut left, mut marks) = (sections, accepted);
    while let Some((section, later)) = left.split_first() {
        let Some((is_accepted, more)) = marks.split_first() else {
            return Ok(names);
        };
        if let Some(name) = answered_bundle_name(section, *is_accepted) {
            names.push(name)?;
        }
        left = later;
        marks = more;
    }
    Ok(names)
}

/// Whether a name is among others, which `listed` has in order.
fn is_group_listed(names: &[Mid], listed: &BTreeSet<&str>, mid: Mid) -> bool
    requires { HoldsMids listed.now names.now }
    ensures { result ≡ is_group_listed names.now (Some mid) }
{
    is_mid_held(listed, Some(mid))
}

/// The names of a group that are among others, in the group's order.
fn answered_bundle_among(
    alloc: Global,
    names: &[Mid],
    group: &[Mid],
) -> Result<Vec<Mid>, AllocError>
    ensures { IfOk result (λ mids. mids.items ≡ answered_bundle_among names.now (Some group.now)) }
{
    let listed = ordered_names(alloc, names)?;
    let mut mids = Vec::new(alloc);
    for mid in group {
        if is_group_listed(names, &listed, *mid) {
            mids.push(*mid)?;
        }
    }
    Ok(mids)
}

/// The names that the `BUNDLE` group of an answer lists (RFC 9143, section 7.3): those of the offer's
/// first `BUNDLE` group, in that group's order, whose section is accepted. `accepted` says so of each
/// section in order; sections without a place in it aren't accepted. None where the offer has no such
/// group. The only error is that memory was refused.
pub fn answered_bundle(
    alloc: Global,
    offer: &Sdp,
    accepted: &[bool],
) -> Result<Items<Mid>, AllocError>
    ensures { IfOk result (λ mids. mids ≡ answered_bundle offer.now accepted.now) }
{
    let Some(group) = offer.bundle_mids() else {
        return Ok(Items::empty(alloc));
    };
    let names = answered_bundle_names(alloc, offer.media_lines.as_slice(), accepted)?;
    let mids = answered_bundle_among(alloc, names.as_slice(), group)?;
    Ok(Items::from(mids))
}
