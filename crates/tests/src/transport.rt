//! Credentials, fingerprints and roles: copied, compared and printed as no line says them, and what is in force at a section.

use crate::texts::{FOUR_SECTIONS_TEXT, description_of_text, prints_text};
use exchange::{creds_at, fingerprint_at, setup_at};
use std::alloc::{AllocError, Global};
use std::test::Fail;
use str0m_signal::{Sdp, Setup};
use str0m_values::{Fingerprint, FingerprintError, FingerprintFmt, IceCreds, Items, Text};

fn is_credential_pair_copied(creds: &IceCreds) -> Result<bool, AllocError> {
    let copy = creds.clone()?;
    Ok(copy == *creds && copy.pass.as_str() == "p")
}

fn are_credentials_copied(alloc: Global) -> Result<bool, AllocError> {
    let creds = IceCreds {
        ufrag: Text::from_str(alloc, "u")?,
        pass: Text::from_str(alloc, "p")?,
    };
    is_credential_pair_copied(&creds)
}

fn fingerprint(alloc: Global, bytes: &[u8]) -> Result<Fingerprint, AllocError> {
    let hash_func = Text::from_str(alloc, "foo")?;
    let bytes = Items::from(Vec::from_slice(alloc, bytes)?);
    Ok(Fingerprint { hash_func, bytes })
}

/// Whether the fingerprint is the one that is made of these bytes.
fn has_fingerprint_bytes(
    alloc: Global,
    read: &Fingerprint,
    bytes: &[u8],
) -> Result<bool, AllocError> {
    let made = fingerprint(alloc, bytes)?;
    Ok(*read == made)
}

fn is_fingerprint_copied(read: &Fingerprint) -> Result<bool, AllocError> {
    let copy = read.clone()?;
    Ok(copy == *read)
}

/// Whether the fingerprint equals its copy, the one of its bytes, and one of other bytes.
fn is_fingerprint_equal(
    alloc: Global,
    read: &Fingerprint,
) -> Result<(bool, bool, bool), AllocError> {
    let copy = is_fingerprint_copied(read)?;
    let made = has_fingerprint_bytes(alloc, read, &[9, 10, 17])?;
    Ok((
        copy,
        made,
        has_fingerprint_bytes(alloc, read, &[9, 10, 18])?,
    ))
}

fn fingerprint_equals(alloc: Global) -> Result<(bool, bool, bool), FingerprintError> {
    let read = Fingerprint::from_str(alloc, "foo 09:0A:11")?;
    Ok(is_fingerprint_equal(alloc, &read)?)
}

/// No text is read as a fingerprint of no bytes.
fn is_bare_fingerprint_printed(alloc: Global) -> Result<bool, AllocError> {
    let bare = fingerprint(alloc, &[])?;
    prints_text(alloc, &bare, "foo ")
}

#[test]
fn values_of_the_transport_are_copied_compared_and_printed(rt: HostRuntime) -> Result<(), Fail> {
    assert!(rt; are_credentials_copied(rt.alloc())?);
    assert_eq!(rt; fingerprint_equals(rt.alloc())?, (true, true, false));
    assert!(rt; is_bare_fingerprint_printed(rt.alloc())?);
    assert!(rt; prints_text(rt.alloc(), &FingerprintFmt(&[]), "")?);
    assert!(rt; prints_text(rt.alloc(), &FingerprintFmt(&[0, 255]), "00:FF")?);
    assert!(rt; prints_text(rt.alloc(), &FingerprintError::Memory, "out of memory")?);
    Ok(())
}

fn are_roles_in_force(offer: &Sdp) -> bool {
    setup_at(offer, 0) == Some(Setup::Passive)
        && setup_at(offer, 1) == Some(Setup::ActPass)
        && setup_at(offer, 4).is_none()
}

/// Whether the credentials are this user's fragment with the password of the session.
fn are_credentials_of_user(creds: &Option<IceCreds>, ufrag: &str) -> bool {
    match creds {
        Some(found) => {
            found.ufrag.as_str() == ufrag && found.pass.as_str() == "session-password-of-22"
        }
        None => false,
    }
}

/// Each credential is that of the section before that of the session.
fn are_credentials_in_force(offer: &Sdp) -> Result<bool, AllocError> {
    let own = are_credentials_of_user(&creds_at(offer, 0)?, "own1");
    let theirs = are_credentials_of_user(&creds_at(offer, 1)?, "sess");
    Ok(own && theirs && creds_at(offer, 4)?.is_none())
}

/// Whether a fingerprint of this hash is in force at the section.
fn is_hash_in_force(offer: &Sdp, at: usize, hash: &str) -> Result<bool, AllocError> {
    match &fingerprint_at(offer, at)? {
        Some(found) => Ok(found.hash_func.as_str() == hash),
        None => Ok(false),
    }
}

#[test]
fn a_sections_transport_comes_first(rt: HostRuntime) -> Result<(), Fail> {
    let offer = description_of_text(rt.alloc(), FOUR_SECTIONS_TEXT)?;
    assert!(rt; are_roles_in_force(&offer));
    assert!(rt; are_credentials_in_force(&offer)?);
    assert!(rt; is_hash_in_force(&offer, 2, "sha-256")?);
    assert!(rt; is_hash_in_force(&offer, 3, "sha-1")?);
    Ok(())
}
