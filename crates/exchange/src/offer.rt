//! Offers with their versions.
ghost use Rattle.exchange.specs.Prelude.{versioned_text};
ghost use Rattle.std.specs.Prelude.{◌≡◌, Some};

use std::fmt;
use std::ops::Deref;
use str0m_signal::{Items, Mid, Sdp, VersionedSdp};

pub(crate) mod accepted_answer;
pub(crate) mod added;
pub(crate) mod fits;
pub(crate) mod fits_section;
pub(crate) mod fresh_names;
pub(crate) mod made_offer;
pub(crate) mod names;
pub(crate) mod offer_extensions;
pub(crate) mod offer_places;
pub(crate) mod offer_section;
pub(crate) mod own_names;
pub(crate) mod pending;
pub(crate) mod rule;

/// A description that this side offers, with its version: of two descriptions of one session the later has the greater
/// (RFC 3264, section 8). It derefs to its description.
#[derive(Debug, Drop)]
pub struct Offer {
    pub(crate) sdp: Sdp,
    pub(crate) version: u64,
    pub(crate) added: Items<Mid>,
}

impl Offer {
    pub(crate) fn new(sdp: Sdp, version: u64, added: Items<Mid>) -> Offer
        ensures { result ≡ record { sdp = sdp; version = version; added = added } }
    {
        Offer {
            sdp,
            version,
            added,
        }
    }

    /// The version in the `o=` line (RFC 8866, section 5.2).
    pub fn version(&self) -> u64
        ensures { result ≡ self.now.version }
    {
        self.version
    }

    /// The names of the sections of what was added and isn't placed by an earlier exchange, in the order of the calls.
    pub fn added(&self) -> &[Mid]
        ensures { result.now ≡ self.now.added }
    {
        self.added.as_slice()
    }

    /// The description, without a copy.
    pub fn into_sdp(self) -> Sdp
        ensures { result ≡ self.sdp }
    {
        let Offer { sdp, .. } = self;
        sdp
    }
}

impl Deref for Offer {
    type Target = Sdp;

    ghost deref_gives = { λ offer sdp. sdp ≡ offer.sdp };

    fn deref(&self) -> &Sdp {
        &self.sdp
    }
}

/// The text of the offer, each line ended by CR LF.
impl fmt::Display for Offer {
    ghost output = { λ offer. Some (versioned_text offer.version offer.sdp) };

    fn fmt<W: fmt::Write>(&self, f: &mut fmt::Formatter<W>) -> fmt::Result {
        let sdp = &self.sdp;
        let version = self.version;
        VersionedSdp { sdp, version }.fmt(f)
    }
}
