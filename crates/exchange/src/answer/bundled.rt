//! What the sections of a bundle share, looked for once.
ghost use Rattle.exchange.specs.answer.Bundled.{IsBundledBy};
ghost use Rattle.exchange.specs.answer.InBundle.{is_so_in_bundle, is_so_of_bundle_tag, tagged_section};
ghost use Rattle.exchange.specs.section.Reached.{section_has_creds, has_fingerprint};
ghost use Rattle.std.specs.Prelude.{◌≡◌, IfOk};

use crate::answer::in_bundle::{bundle_names, tagged_section};
use crate::offer::names::{is_mid_held, ordered_names};
use crate::section::reached::{has_fingerprint, section_has_creds};
use crate::section::stopped::name_of;
use std::alloc::{AllocError, Global};
use std::collections::BTreeSet;
use str0m_signal::{MediaLine, Sdp};

/// What the sections of the first `BUNDLE` group share.
#[derive(Drop)]
pub(crate) struct Bundled<'a> {
    /// Their names.
    names: BTreeSet<&'a str>,
    /// Whether credentials of ICE are in force at the section whose transport they share.
    has_creds: bool,
    /// Whether a fingerprint is.
    has_fingerprint: bool,
}

fn has_bundle_tag_creds(sdp: &Sdp) -> bool
    ensures { result ≡ is_so_of_bundle_tag (section_has_creds sdp.now.session) (tagged_section sdp.now) }
{
    match tagged_section(sdp) {
        Some(section) => section_has_creds(&sdp.session, section),
        None => false,
    }
}

fn has_tagged_fingerprint(sdp: &Sdp) -> bool
    ensures { result ≡ is_so_of_bundle_tag (has_fingerprint sdp.now.session) (tagged_section sdp.now) }
{
    match tagged_section(sdp) {
        Some(section) => has_fingerprint(&sdp.session, section),
        None => false,
    }
}

/// What the sections of a description's bundle share.
pub(crate) fn bundle_shared_by(alloc: Global, sdp: &Sdp) -> Result<Bundled<'_>, AllocError>
    ensures { IfOk result (IsBundledBy sdp.now) }
{
    let names = ordered_names(alloc, bundle_names(sdp))?;
    Ok(Bundled {
        names,
        has_creds: has_bundle_tag_creds(sdp),
        has_fingerprint: has_tagged_fingerprint(sdp),
    })
}

impl<'a> Bundled<'a> {
    /// Whether credentials of ICE are in force at a section, its own or those of the section whose transport it shares.
    pub(crate) fn have_creds(&self, sdp: &Sdp, section: &MediaLine) -> bool
        requires { IsBundledBy sdp.now self.now }
        ensures { result ≡ is_so_in_bundle (section_has_creds sdp.now.session) sdp.now section.now }
    {
        section_has_creds(&sdp.session, section)
            || (is_mid_held(&self.names, name_of(section)) && self.has_creds)
    }

    /// Whether a fingerprint is in force there likewise.
    pub(crate) fn have_fingerprint(&self, sdp: &Sdp, section: &MediaLine) -> bool
        requires { IsBundledBy sdp.now self.now }
        ensures { result ≡ is_so_in_bundle (has_fingerprint sdp.now.session) sdp.now section.now }
    {
        has_fingerprint(&sdp.session, section)
            || (is_mid_held(&self.names, name_of(section)) && self.has_fingerprint)
    }
}
