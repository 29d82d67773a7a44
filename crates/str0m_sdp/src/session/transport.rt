//! What sessions and sections both say of their transport.
ghost use Rattle.std.specs.List.{list_any};
ghost use Rattle.std.specs.Prelude.{◌≡◌, Bool, IfOk, List, Option, filter_map, ℕ, option_copied, option_map};
ghost use Rattle.str0m_sdp.specs.Common.{first};
ghost use Rattle.str0m_sdp.specs.Prelude.{Fingerprint};
ghost use Rattle.str0m_sdp.specs.declared.attribute.setup.Setup.{Setup};
ghost use Rattle.str0m_sdp.specs.session.Candidates.{session_candidate, media_candidate};
ghost use Rattle.str0m_sdp.specs.session.Transport.{session_setup, session_ufrag, session_pwd, session_fingerprint, session_ends, media_setup, media_ufrag, media_pwd, media_fingerprint, media_ends, creds, lent_transport_creds};
ghost use Rattle.str0m_values.specs.declared.candidate.Candidate.{Candidate as CandidateValue};

use crate::attribute::setup::Setup;
use crate::attribute::{MediaAttribute, SessionAttribute};
use std::alloc::AllocError;
use str0m_values::{Candidate, Fingerprint, IceCreds, Text};

/// An attribute of a session or of a section, which may say something of the transport.
pub(crate) trait TransportAttribute {
    ghost setup: { Self → Option Setup };

    ghost ufrag: { Self → Option (List ℕ) };

    ghost pwd: { Self → Option (List ℕ) };

    ghost fingerprint: { Self → Option Fingerprint };

    ghost candidate: { Self → Option CandidateValue };

    ghost ends: { Self → Bool };

    fn as_setup(&self) -> Option<Setup>
        ensures { result ≡ setup self.now };

    fn as_ufrag(&self) -> Option<&Text>
        ensures { option_copied result ≡ ufrag self.now };

    fn as_pwd(&self) -> Option<&Text>
        ensures { option_copied result ≡ pwd self.now };

    fn as_fingerprint(&self) -> Option<&Fingerprint>
        ensures { option_copied result ≡ fingerprint self.now };

    fn as_candidate(&self) -> Option<&Candidate>
        ensures { option_copied result ≡ candidate self.now };

    fn is_end(&self) -> bool
        ensures { result ≡ ends self.now };
}

impl TransportAttribute for SessionAttribute {
    ghost setup = { session_setup };

    ghost ufrag = { session_ufrag };

    ghost pwd = { session_pwd };

    ghost fingerprint = { session_fingerprint };

    ghost candidate = { session_candidate };

    ghost ends = { session_ends };

    fn as_setup(&self) -> Option<Setup> {
        match self {
            SessionAttribute::Setup(setup) => Some(*setup),
            _ => None,
        }
    }

    fn as_ufrag(&self) -> Option<&Text> {
        match self {
            SessionAttribute::IceUfrag(text) => Some(text),
            _ => None,
        }
    }

    fn as_pwd(&self) -> Option<&Text> {
        match self {
            SessionAttribute::IcePwd(text) => Some(text),
            _ => None,
        }
    }

    fn as_fingerprint(&self) -> Option<&Fingerprint> {
        match self {
            SessionAttribute::Fingerprint(hash) => Some(hash),
            _ => None,
        }
    }

    fn as_candidate(&self) -> Option<&Candidate> {
        match self {
            SessionAttribute::Candidate(candidate) => Some(candidate.get()),
            _ => None,
        }
    }

    fn is_end(&self) -> bool {
        matches!(self, SessionAttribute::EndOfCandidates)
    }
}

impl TransportAttribute for MediaAttribute {
    ghost setup = { media_setup };

    ghost ufrag = { media_ufrag };

    ghost pwd = { media_pwd };

    ghost fingerprint = { media_fingerprint };

    ghost candidate = { media_candidate };

    ghost ends = { media_ends };

    fn as_setup(&self) -> Option<Setup> {
        match self {
            MediaAttribute::Setup(setup) => Some(*setup),
            _ => None,
        }
    }

    fn as_ufrag(&self) -> Option<&Text> {
        match self {
            MediaAttribute::IceUfrag(text) => Some(text),
            _ => None,
        }
    }

    fn as_pwd(&self) -> Option<&Text> {
        match self {
            MediaAttribute::IcePwd(text) => Some(text),
            _ => None,
        }
    }

    fn as_fingerprint(&self) -> Option<&Fingerprint> {
        match self {
            MediaAttribute::Fingerprint(hash) => Some(hash),
            _ => None,
        }
    }

    fn as_candidate(&self) -> Option<&Candidate> {
        match self {
            MediaAttribute::Candidate(candidate) => Some(candidate.get()),
            _ => None,
        }
    }

    fn is_end(&self) -> bool {
        matches!(self, MediaAttribute::EndOfCandidates)
    }
}

/// The first role.
pub(crate) fn first_setup<A: TransportAttribute>(attrs: &[A]) -> Option<Setup>
    ensures { result ≡ first (filter_map A.setup attrs.now) }
{
    attrs.iter().find_map(|attr| attr.as_setup())
}

fn first_ufrag<A: TransportAttribute>(attrs: &[A]) -> Option<&Text>
    ensures { option_copied result ≡ first (filter_map A.ufrag attrs.now) }
{
    attrs.iter().find_map(|attr| attr.as_ufrag())
}

fn first_pwd<A: TransportAttribute>(attrs: &[A]) -> Option<&Text>
    ensures { option_copied result ≡ first (filter_map A.pwd attrs.now) }
{
    attrs.iter().find_map(|attr| attr.as_pwd())
}

/// Whether some attribute says that no candidate follows.
pub(crate) fn ends<A: TransportAttribute>(attrs: &[A]) -> bool
    ensures { result ≡ list_any A.ends attrs.now }
{
    attrs.iter().any(|attr| attr.is_end())
}

/// The first fragment and the first password, where there are both.
pub(crate) fn first_transport_creds<A: TransportAttribute>(attrs: &[A]) -> Option<(&Text, &Text)>
    ensures { option_map lent_transport_creds result ≡ creds (first (filter_map A.ufrag attrs.now)) (first (filter_map A.pwd attrs.now)) }
{
    first_ufrag(attrs).zip(first_pwd(attrs))
}

/// A copy of credentials.
pub(crate) fn copied_transport_creds(
    found: Option<(&Text, &Text)>,
) -> Result<Option<IceCreds>, AllocError>
    ensures { IfOk result (λ copy. copy ≡ option_map lent_transport_creds found.entry) }
{
    let Some((ufrag, pass)) = found else {
        return Ok(None);
    };
    let ufrag = ufrag.clone()?;
    let pass = pass.clone()?;
    Ok(Some(IceCreds { ufrag, pass }))
}
