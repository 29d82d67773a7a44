//! What a session says.
ghost use Rattle.std.specs.List.{list_any};
ghost use Rattle.std.specs.Prelude.{◌≡◌, IfOk, filter_map};
ghost use Rattle.str0m_sdp.specs.Common.{first};
ghost use Rattle.str0m_sdp.specs.session.Candidates.{candidates_left, session_candidates};
ghost use Rattle.str0m_sdp.specs.session.PreferredFingerprint.{IsPreferred};
ghost use Rattle.str0m_sdp.specs.session.Transport.{is_ice_lite, session_creds, session_ends, session_fingerprint, session_setup};

use crate::attribute::SessionAttribute;
use crate::attribute::setup::Setup;
use crate::session::Session;
use crate::session::candidates::Candidates;
use crate::session::preferred_fingerprint::{copied_fingerprint, preferred};
use crate::session::transport::{copied_transport_creds, ends, first_setup, first_transport_creds};
use std::alloc::AllocError;
use str0m_values::{Fingerprint, IceCreds};

impl Session {
    /// The role in the DTLS handshake (RFC 8842, section 5.2): of the first attribute that says one.
    pub fn setup(&self) -> Option<Setup>
        ensures { result ≡ first (filter_map session_setup self.now.attrs) }
    {
        first_setup(self.attrs.as_slice())
    }

    /// A copy of the first username fragment and the first password (RFC 8839, section 5.4); `None`
    /// where one of them is missing. The only error is that memory was refused.
    pub fn ice_creds(&self) -> Result<Option<IceCreds>, AllocError>
        ensures { IfOk result (λ found. found ≡ session_creds self.now.attrs) }
    {
        copied_transport_creds(first_transport_creds(self.attrs.as_slice()))
    }

    /// A copy of the preferred fingerprint (RFC 8122, section 5.1): the first of those with the
    /// least `hash_preference`; `None` where there is none. The only error is that memory was
    /// refused.
    pub fn fingerprint(&self) -> Result<Option<Fingerprint>, AllocError>
        ensures { IfOk result (IsPreferred (filter_map session_fingerprint self.now.attrs)) }
    {
        copied_fingerprint(preferred(self.attrs.as_slice()))
    }

    /// The candidates that the session lists itself, in attribute order (RFC 8839, section 5.1).
    pub fn ice_candidates(&self) -> Candidates<'_>
        ensures { candidates_left result ≡ session_candidates self.now }
    {
        Candidates {
            session: self.attrs.as_slice(),
            media: &[],
        }
    }

    /// Whether an attribute says that no candidate follows (RFC 8840, section 8.1).
    pub fn end_of_candidates(&self) -> bool
        ensures { result ≡ list_any session_ends self.now.attrs }
    {
        ends(self.attrs.as_slice())
    }

    /// Whether an attribute says that the agent is a lite one (RFC 8839, section 5.3).
    pub fn ice_lite(&self) -> bool
        ensures { result ≡ list_any is_ice_lite self.now.attrs }
    {
        let attrs = self.attrs.as_slice();
        attrs
            .iter()
            .any(|attr| matches!(attr, SessionAttribute::IceLite))
    }
}
