//! What a description says, in its session or in its sections.
ghost use Rattle.std.specs.Prelude.{◌≡◌, IfOk, filter_map, find, option_copied, option_map};
ghost use Rattle.str0m_sdp.specs.Common.{distinct, first};
ghost use Rattle.str0m_sdp.specs.attribute.MediaType.{is_channel};
ghost use Rattle.str0m_sdp.specs.declared.section.media_line.MediaLine.{MediaLine};
ghost use Rattle.str0m_sdp.specs.session.Candidates.{all_candidates, same_candidate};
ghost use Rattle.str0m_sdp.specs.session.DistinctCandidates.{IsEachCandidateOnce, distinct_left};
ghost use Rattle.str0m_sdp.specs.session.PreferredFingerprint.{IsPreferred, media_fingerprints, preferred, sdp_fingerprints};
ghost use Rattle.str0m_sdp.specs.session.SdpAccessors.{bundled_of, sdp_sctp_init};
ghost use Rattle.str0m_sdp.specs.session.Transport.{lent_transport_creds, media_creds, media_setup, sdp_creds, sdp_setup};

use crate::attribute::SessionAttribute;
use crate::attribute::setup::Setup;
use crate::section::media_line::MediaLine;
use crate::session::Sdp;
use crate::session::distinct_candidates::{DistinctCandidates, add_all_candidates};
use crate::session::preferred_fingerprint::{copied_fingerprint, preferred};
use crate::session::seen_candidates::SeenCandidates;
use crate::session::transport::{copied_transport_creds, first_transport_creds};
use std::alloc::AllocError;
use str0m_values::{Fingerprint, IceCreds, Mid, Text};

impl SessionAttribute {
    fn as_bundle(&self) -> Option<&[Mid]>
        ensures { option_copied result ≡ bundled_of self.now }
    {
        match self {
            SessionAttribute::Group { typ, mids } if typ.as_str() == "BUNDLE" => {
                Some(mids.as_slice())
            }
            _ => None,
        }
    }
}

impl Sdp {
    /// The names of the sections that share a transport, in order: of the first group whose type is
    /// `BUNDLE` (RFC 8843, section 5; now RFC 9143, section 5).
    pub fn bundle_mids(&self) -> Option<&[Mid]>
        ensures { option_copied result ≡ first (filter_map bundled_of self.now.session.attrs) }
    {
        let attrs = self.session.attrs.as_slice();
        attrs.iter().find_map(|attr| attr.as_bundle())
    }

    /// The role in the DTLS handshake (RFC 8842, section 5.2): what the session says, else the first
    /// section that says one.
    pub fn setup(&self) -> Option<Setup>
        ensures { result ≡ sdp_setup self.now }
    {
        match self.session.setup() {
            Some(setup) => Some(setup),
            None => setup_among(self.media_lines.as_slice()),
        }
    }

    /// A copy of the credentials (RFC 8839, section 5.4) of the session, else of the first section
    /// that has both a username fragment and a password; `None` where there is no such. The only
    /// error is that memory was refused.
    pub fn ice_creds(&self) -> Result<Option<IceCreds>, AllocError>
        ensures { IfOk result (λ found. found ≡ sdp_creds self.now) }
    {
        match first_transport_creds(self.session.attrs.as_slice()) {
            Some(found) => copied_transport_creds(Some(found)),
            None => copied_transport_creds(session_creds_among(self.media_lines.as_slice())),
        }
    }

    /// A copy of the preferred fingerprint (RFC 8122, section 5.1) of the session, else of the
    /// first section that has any; `None` where there is none. The only error is that memory was
    /// refused.
    pub fn fingerprint(&self) -> Result<Option<Fingerprint>, AllocError>
        ensures { IfOk result (IsPreferred (sdp_fingerprints self.now)) }
    {
        match preferred(self.session.attrs.as_slice()) {
            Some(print) => copied_fingerprint(Some(print)),
            None => copied_fingerprint(preferred_fingerprint_among(self.media_lines.as_slice())),
        }
    }

    /// Each candidate that the session or a section lists, once, in order of first appearance: those
    /// of the session before those of the sections (RFC 8839, section 5.1). Time grows as that of a
    /// sort, whatever they are. `AllocError` where memory is refused.
    pub fn ice_candidates(&self) -> Result<DistinctCandidates<'_>, AllocError>
        ensures distinct { IfOk result (λ candidates. distinct_left candidates ≡ distinct same_candidate (all_candidates self.now)) }
        ensures once { IfOk result (λ candidates. IsEachCandidateOnce (all_candidates self.now) (distinct_left candidates)) }
    {
        let mut found = SeenCandidates::new(*self.media_lines.allocator());
        add_all_candidates(&mut found, self.session.ice_candidates())?;
        for line in self.media_lines.as_slice() {
            add_all_candidates(&mut found, line.ice_candidates())?;
        }
        Ok(DistinctCandidates {
            left: found.into_iter(),
        })
    }

    /// The INIT chunk of SCTP, in base 64 (draft-hancke-tsvwg-snap), of the first application
    /// section; `None` where that one has none, or where there is no such section. Takes no memory.
    pub fn sctp_init(&self) -> Option<&str>
        ensures { option_copied result ≡ sdp_sctp_init self.now }
    {
        match first_session_channel(self.media_lines.as_slice()) {
            Some(line) => line.sctp_init(),
            None => None,
        }
    }
}

fn setup_among(lines: &[MediaLine]) -> Option<Setup>
    ensures { result ≡ first (filter_map (λ (m : MediaLine). first (filter_map media_setup m.attrs)) lines.now) }
{
    lines.iter().find_map(|line| line.setup())
}

fn session_creds_among(lines: &[MediaLine]) -> Option<(&Text, &Text)>
    ensures { option_map lent_transport_creds result ≡ first (filter_map (λ (m : MediaLine). media_creds m.attrs) lines.now) }
{
    lines
        .iter()
        .find_map(|line| first_transport_creds(line.attrs.as_slice()))
}

fn preferred_fingerprint_among(lines: &[MediaLine]) -> Option<&Fingerprint>
    ensures { option_copied result ≡ first (filter_map (λ m. preferred (media_fingerprints m)) lines.now) }
{
    lines
        .iter()
        .find_map(|line| preferred(line.attrs.as_slice()))
}

fn first_session_channel(lines: &[MediaLine]) -> Option<&MediaLine>
    ensures { option_copied result ≡ find (λ (m : MediaLine). is_channel m.typ) lines.now }
{
    lines.iter().find(|line| line.typ.is_channel())
}
