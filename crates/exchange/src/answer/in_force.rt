//! What is in force at a section: what it says itself, else what the session says for all sections.

ghost use Rattle.exchange.specs.Prelude.{IsPreferred, first, media_pwd, media_ufrag, session_pwd, session_ufrag};
ghost use Rattle.exchange.specs.answer.InForce.{creds_at, fingerprints_at, fingerprints_of, pwd_in_force, setup_at, ufrag_in_force};
ghost use Rattle.std.specs.Prelude.{◌≡◌, IfOk, Some, filter_map, option_copied};

use std::alloc::AllocError;
use str0m_signal::{
    Fingerprint, IceCreds, MediaAttribute, MediaLine, Sdp, Session, SessionAttribute, Setup, Text,
};

fn media_ufrag_of(attr: &MediaAttribute) -> Option<&Text>
    ensures { option_copied result ≡ media_ufrag attr.now }
{
    match attr {
        MediaAttribute::IceUfrag(ufrag) => Some(ufrag),
        _ => None,
    }
}

fn media_pwd_of(attr: &MediaAttribute) -> Option<&Text>
    ensures { option_copied result ≡ media_pwd attr.now }
{
    match attr {
        MediaAttribute::IcePwd(pwd) => Some(pwd),
        _ => None,
    }
}

fn session_ufrag_of(attr: &SessionAttribute) -> Option<&Text>
    ensures { option_copied result ≡ session_ufrag attr.now }
{
    match attr {
        SessionAttribute::IceUfrag(ufrag) => Some(ufrag),
        _ => None,
    }
}

fn session_pwd_of(attr: &SessionAttribute) -> Option<&Text>
    ensures { option_copied result ≡ session_pwd attr.now }
{
    match attr {
        SessionAttribute::IcePwd(pwd) => Some(pwd),
        _ => None,
    }
}

fn section_ufrag(section: &MediaLine) -> Option<&Text>
    ensures { option_copied result ≡ first (filter_map media_ufrag section.now.attrs) }
{
    let attrs = section.attrs.as_slice();
    attrs.iter().find_map(|attr| media_ufrag_of(attr))
}

fn section_pwd(section: &MediaLine) -> Option<&Text>
    ensures { option_copied result ≡ first (filter_map media_pwd section.now.attrs) }
{
    let attrs = section.attrs.as_slice();
    attrs.iter().find_map(|attr| media_pwd_of(attr))
}

fn session_ufrag(session: &Session) -> Option<&Text>
    ensures { option_copied result ≡ first (filter_map session_ufrag session.now.attrs) }
{
    let attrs = session.attrs.as_slice();
    attrs.iter().find_map(|attr| session_ufrag_of(attr))
}

fn session_pwd(session: &Session) -> Option<&Text>
    ensures { option_copied result ≡ first (filter_map session_pwd session.now.attrs) }
{
    let attrs = session.attrs.as_slice();
    attrs.iter().find_map(|attr| session_pwd_of(attr))
}

fn ufrag_in_force(sdp: &Sdp, at: usize) -> Option<&Text>
    ensures { option_copied result ≡ ufrag_in_force sdp.now at }
{
    let section = sdp.media_lines.get(at)?;
    match section_ufrag(section) {
        Some(ufrag) => Some(ufrag),
        None => session_ufrag(&sdp.session),
    }
}

fn pwd_in_force(sdp: &Sdp, at: usize) -> Option<&Text>
    ensures { option_copied result ≡ pwd_in_force sdp.now at }
{
    let section = sdp.media_lines.get(at)?;
    match section_pwd(section) {
        Some(pwd) => Some(pwd),
        None => session_pwd(&sdp.session),
    }
}

/// The preferred fingerprint of the section, else of the session.
fn preferred_in_force(
    section: &MediaLine,
    session: &Session,
) -> Result<Option<Fingerprint>, AllocError>
    ensures { IfOk result (IsPreferred (fingerprints_of session.now.attrs (Some section.now))) }
{
    match section.fingerprint()? {
        Some(fingerprint) => Ok(Some(fingerprint)),
        None => session.fingerprint(),
    }
}

/// The role in the DTLS handshake that is said for the section at `at`, counted from 0 (RFC 4145,
/// section 4; RFC 8842, section 5.2): by the section's first `a=setup` line, else by the session's
/// first. `None` where neither says one, or where there is no such section.
pub fn setup_at(sdp: &Sdp, at: usize) -> Option<Setup>
    ensures { result ≡ setup_at sdp.now at }
{
    let section = sdp.media_lines.get(at)?;
    match section.setup() {
        Some(setup) => Some(setup),
        None => sdp.session.setup(),
    }
}

/// A copy of the ICE credentials of the section at `at`, counted from 0 (RFC 8839, section 5.4): the
/// username fragment and the password, each by the section's first line that says it, else by the
/// session's first. `None` where one of the two is said by neither, or where there is no such section.
/// The only error is that memory was refused.
pub fn creds_at(sdp: &Sdp, at: usize) -> Result<Option<IceCreds>, AllocError>
    ensures { IfOk result (λ found. found ≡ creds_at sdp.now at) }
{
    let (Some(ufrag), Some(pass)) = (ufrag_in_force(sdp, at), pwd_in_force(sdp, at)) else {
        return Ok(None);
    };
    let ufrag = ufrag.clone()?;
    let pass = pass.clone()?;
    Ok(Some(IceCreds { ufrag, pass }))
}

/// A copy of the preferred fingerprint of the section at `at`, counted from 0 (RFC 8122, section 5):
/// of those that the section has, else of those of the session; the first of those with the least
/// `hash_preference`. `None` where there is none, or where there is no such section. The only error is
/// that memory was refused.
pub fn fingerprint_at(sdp: &Sdp, at: usize) -> Result<Option<Fingerprint>, AllocError>
    ensures { IfOk result (IsPreferred (fingerprints_at sdp.now at)) }
{
    let Some(section) = sdp.media_lines.get(at) else {
        return Ok(None);
    };
    preferred_in_force(section, &sdp.session)
}
