//! Sections that say how their transport is reached, or for which the session says so.
ghost use Rattle.exchange.specs.section.Reached.{section_has_creds, has_fingerprint, section_has_pwd, section_has_ufrag, is_fingerprint, is_section_pwd, is_session_fingerprint, is_session_pwd, is_session_ufrag, is_section_ufrag};
ghost use Rattle.std.specs.List.{list_any};
ghost use Rattle.std.specs.Prelude.{◌≡◌};

use str0m_signal::{MediaAttribute, MediaLine, Session, SessionAttribute};

fn is_section_ufrag(attr: &MediaAttribute) -> bool
    ensures { result ≡ is_section_ufrag attr.now }
{
    matches!(attr, MediaAttribute::IceUfrag(_))
}

fn is_section_pwd(attr: &MediaAttribute) -> bool
    ensures { result ≡ is_section_pwd attr.now }
{
    matches!(attr, MediaAttribute::IcePwd(_))
}

fn is_fingerprint(attr: &MediaAttribute) -> bool
    ensures { result ≡ is_fingerprint attr.now }
{
    matches!(attr, MediaAttribute::Fingerprint(_))
}

fn is_session_ufrag(attr: &SessionAttribute) -> bool
    ensures { result ≡ is_session_ufrag attr.now }
{
    matches!(attr, SessionAttribute::IceUfrag(_))
}

fn is_session_pwd(attr: &SessionAttribute) -> bool
    ensures { result ≡ is_session_pwd attr.now }
{
    matches!(attr, SessionAttribute::IcePwd(_))
}

fn is_session_fingerprint(attr: &SessionAttribute) -> bool
    ensures { result ≡ is_session_fingerprint attr.now }
{
    matches!(attr, SessionAttribute::Fingerprint(_))
}

fn section_says_ufrag(attrs: &[MediaAttribute]) -> bool
    ensures { result ≡ list_any is_section_ufrag attrs.now }
{
    attrs.iter().any(|attr| is_section_ufrag(attr))
}

fn section_says_pwd(attrs: &[MediaAttribute]) -> bool
    ensures { result ≡ list_any is_section_pwd attrs.now }
{
    attrs.iter().any(|attr| is_section_pwd(attr))
}

fn say_fingerprint(attrs: &[MediaAttribute]) -> bool
    ensures { result ≡ list_any is_fingerprint attrs.now }
{
    attrs.iter().any(|attr| is_fingerprint(attr))
}

fn sections_share_ufrag(attrs: &[SessionAttribute]) -> bool
    ensures { result ≡ list_any is_session_ufrag attrs.now }
{
    attrs.iter().any(|attr| is_session_ufrag(attr))
}

fn sections_share_pwd(attrs: &[SessionAttribute]) -> bool
    ensures { result ≡ list_any is_session_pwd attrs.now }
{
    attrs.iter().any(|attr| is_session_pwd(attr))
}

fn share_fingerprint(attrs: &[SessionAttribute]) -> bool
    ensures { result ≡ list_any is_session_fingerprint attrs.now }
{
    attrs.iter().any(|attr| is_session_fingerprint(attr))
}

fn section_has_ufrag(session: &Session, section: &MediaLine) -> bool
    ensures { result ≡ section_has_ufrag session.now section.now }
{
    section_says_ufrag(section.attrs.as_slice()) || sections_share_ufrag(session.attrs.as_slice())
}

fn section_has_pwd(session: &Session, section: &MediaLine) -> bool
    ensures { result ≡ section_has_pwd session.now section.now }
{
    section_says_pwd(section.attrs.as_slice()) || sections_share_pwd(session.attrs.as_slice())
}

/// Whether credentials of ICE are in force at the section: a name fragment and a password, each of its own or the session's.
pub(crate) fn section_has_creds(session: &Session, section: &MediaLine) -> bool
    ensures { result ≡ section_has_creds session.now section.now }
{
    section_has_ufrag(session, section) && section_has_pwd(session, section)
}

/// Whether a fingerprint is in force at the section, of its own or the session's.
pub(crate) fn has_fingerprint(session: &Session, section: &MediaLine) -> bool
    ensures { result ≡ has_fingerprint session.now section.now }
{
    say_fingerprint(section.attrs.as_slice()) || share_fingerprint(session.attrs.as_slice())
}
