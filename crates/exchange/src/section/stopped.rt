//! Which sections of an offer are stopped.

ghost use Rattle.exchange.specs.Prelude.{HoldsMids, mid_of};
ghost use Rattle.exchange.specs.answer.InBundle.{bundle_names};
ghost use Rattle.exchange.specs.section.Stopped.{IsBundled, IsBundleOnly, IsStopped, IsStoppedAt, name_of};
ghost use Rattle.std.specs.Prelude.{◌≡◌, ◌↔◌, IsTrue, Some, codes, Contains};
ghost use Rattle.str0m_sdp.specs.declared.attribute.MediaAttribute.TheVariants.{Unused};

use crate::offer::names::is_mid_held;
use std::collections::BTreeSet;
use str0m_signal::{MediaAttribute, MediaLine, Mid, Sdp};

/// The line by which a section takes part within a bundle alone, as it stands after `a=`.
const BUNDLE_ONLY: &str = "bundle-only";

fn says_bundle_only(attr: &MediaAttribute) -> bool
    ensures { IsTrue result ↔ (attr.now ≡ Unused (codes "bundle-only")) }
{
    match attr {
        MediaAttribute::Unused(text) => text.as_str() == BUNDLE_ONLY,
        _ => false,
    }
}

/// Whether a line `a=bundle-only` says that the section takes part within a bundle alone (RFC 9143,
/// section 6). Its port is 0 then, and yet it isn't stopped.
pub fn is_bundle_only(section: &MediaLine) -> bool
    ensures { IsTrue result ↔ IsBundleOnly section.now }
{
    let attrs = section.attrs.as_slice();
    attrs.iter().any(|attr| says_bundle_only(attr))
}

fn mid_of(attr: &MediaAttribute) -> Option<Mid>
    ensures { result ≡ mid_of attr.now }
{
    match attr {
        MediaAttribute::Mid(mid) => Some(*mid),
        _ => None,
    }
}

/// The name of a section (RFC 5888, section 4), by the first line that says one; `None` where none does.
pub fn name_of(section: &MediaLine) -> Option<Mid>
    ensures { result ≡ name_of section.now }
{
    let attrs = section.attrs.as_slice();
    attrs.iter().find_map(|attr| mid_of(attr))
}

fn is_one_mid(mid: Mid, other: Mid) -> bool
    ensures { IsTrue result ↔ (mid ≡ other) }
{
    mid == other
}

fn group_lists(group: &[Mid], mid: Mid) -> bool
    ensures { IsTrue result ↔ Contains group.now mid }
{
    group.iter().any(|other| is_one_mid(*other, mid))
}

/// Whether the first `BUNDLE` group of the description names the section.
fn is_bundled(sdp: &Sdp, section: &MediaLine) -> bool
    ensures { IsTrue result ↔ IsBundled sdp.now section.now }
{
    match (sdp.bundle_mids(), name_of(section)) {
        (Some(group), Some(mid)) => group_lists(group, mid),
        _ => false,
    }
}

fn is_section_stopped(offer: &Sdp, section: &MediaLine) -> bool
    ensures { IsTrue result ↔ IsStopped offer.now section.now }
{
    section.disabled && !(is_bundle_only(section) && is_bundled(offer, section))
}

/// Whether the group names the section, where `group` has its names in order.
fn is_bundled_in(group: &BTreeSet<&str>, sdp: &Sdp, section: &MediaLine) -> bool
    requires { HoldsMids group.now (bundle_names sdp.now) }
    ensures { IsTrue result ↔ IsBundled sdp.now section.now }
{
    is_mid_held(group, name_of(section))
}

/// Whether a section is stopped, where `group` has the names of the group in order: of many sections none looks through it.
pub(crate) fn is_stopped_in(group: &BTreeSet<&str>, offer: &Sdp, section: &MediaLine) -> bool
    requires { HoldsMids group.now (bundle_names offer.now) }
    ensures { IsTrue result ↔ IsStopped offer.now section.now }
{
    section.disabled && !(is_bundle_only(section) && is_bundled_in(group, offer, section))
}

/// `is_stopped`, where `group` has the names of the group in order.
pub(crate) fn is_stopped_at(group: &BTreeSet<&str>, offer: &Sdp, at: usize) -> bool
    requires { HoldsMids group.now (bundle_names offer.now) }
    ensures { IsTrue result ↔ IsStoppedAt offer.now at }
{
    match offer.media_lines.get(at) {
        Some(section) => is_stopped_in(group, offer, section),
        None => false,
    }
}

/// Whether the section at `at`, counted from 0, is stopped: its port is 0 (RFC 3264, section 8.2), and
/// not since it takes part within a bundle alone, as a section does that says `a=bundle-only` and that
/// the offer's first `BUNDLE` group names (RFC 9143, section 6). `false` where there is no such section.
pub fn is_stopped(offer: &Sdp, at: usize) -> bool
    ensures { IsTrue result ↔ IsStoppedAt offer.now at }
{
    match offer.media_lines.get(at) {
        Some(section) => is_section_stopped(offer, section),
        None => false,
    }
}
