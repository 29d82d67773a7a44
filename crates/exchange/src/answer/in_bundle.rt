//! Sections that share the transport of a bundle.
ghost use Rattle.exchange.specs.Prelude.{HoldsMids};
ghost use Rattle.exchange.specs.answer.InBundle.{bundle_names, is_same_bundle_name, is_bundle_tagged, tagged_section};
ghost use Rattle.std.specs.Prelude.{◌≡◌, IfOk, option_copied};

use crate::offer::names::ordered_names;
use crate::section::stopped::name_of;
use std::alloc::{AllocError, Global};
use std::collections::BTreeSet;
use str0m_signal::{MediaLine, Mid, Sdp};

/// The names of the first `BUNDLE` group; none where there is no such group.
pub(crate) fn bundle_names(sdp: &Sdp) -> &[Mid]
    ensures { result.now ≡ bundle_names sdp.now }
{
    match sdp.bundle_mids() {
        Some(names) => names,
        None => &[],
    }
}

/// The same in the order of their bytes.
pub(crate) fn ordered_bundle(alloc: Global, sdp: &Sdp) -> Result<BTreeSet<&str>, AllocError>
    ensures { IfOk result (λ group. HoldsMids group (bundle_names sdp.now)) }
{
    ordered_names(alloc, bundle_names(sdp))
}

fn is_same_bundle_name(name: Option<Mid>, other: Option<Mid>) -> bool
    ensures { result ≡ is_same_bundle_name name other }
{
    match (name, other) {
        (Some(name), Some(other)) => name == other,
        _ => false,
    }
}

/// Whether the section has the first of the names.
fn is_bundle_tagged(names: &[Mid], section: &MediaLine) -> bool
    ensures { result ≡ is_bundle_tagged names.now section.now }
{
    is_same_bundle_name(names.first().copied(), name_of(section))
}

/// The section whose transport all of the bundle share.
pub(crate) fn tagged_section(sdp: &Sdp) -> Option<&MediaLine>
    ensures { option_copied result ≡ tagged_section sdp.now }
{
    let names = bundle_names(sdp);
    let sections = sdp.media_lines.as_slice();
    sections
        .iter()
        .find(|section| is_bundle_tagged(names, section))
}
