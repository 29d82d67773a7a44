//! What an answer says of the session as a whole.
ghost use Rattle.exchange.specs.answer.AnsweredSession.{session_allows_mixed, answered_session, group_lines, is_section_accepted, session_mixed_lines};
ghost use Rattle.std.specs.List.{list_any};
ghost use Rattle.std.specs.Prelude.{◌≡◌, IfOk, map};

use crate::answer::bundle::answered_bundle;
use crate::state::own_side::OwnSide;
use std::alloc::{AllocError, Global};
use str0m_signal::{Items, MediaLine, Mid, Sdp, Session, SessionAttribute, Text};

/// Whether each section is accepted.
pub(crate) fn session_sections_accepted(
    alloc: Global,
    sections: &[MediaLine],
) -> Result<Vec<bool>, AllocError>
    ensures { IfOk result (λ accepted. accepted.items ≡ map is_section_accepted sections.now) }
{
    let mut accepted = Vec::new(alloc);
    for section in sections {
        accepted.push(!section.disabled)?;
    }
    Ok(accepted)
}

/// The group of the sections that share a transport; no group where none does.
pub(crate) fn group_lines(
    alloc: Global,
    mids: Items<Mid>,
) -> Result<Vec<SessionAttribute>, AllocError>
    ensures { IfOk result (λ lines. lines.items ≡ group_lines mids) }
{
    if mids.is_empty() {
        return Ok(Vec::new(alloc));
    }
    let typ = Text::from_str(alloc, "BUNDLE")?;
    let lines = vec![in alloc; SessionAttribute::Group { typ, mids }]?;
    Ok(lines)
}

fn session_allows_mixed(attr: &SessionAttribute) -> bool
    ensures { result ≡ session_allows_mixed attr.now }
{
    matches!(attr, SessionAttribute::AllowMixedExts)
}

/// Whether an attribute allows header extensions of both lengths.
fn session_has_mixed(attrs: &[SessionAttribute]) -> bool
    ensures { result ≡ list_any session_allows_mixed attrs.now }
{
    attrs.iter().any(|attr| session_allows_mixed(attr))
}

pub(crate) fn session_mixed_lines(
    alloc: Global,
    offered: &[SessionAttribute],
) -> Result<Vec<SessionAttribute>, AllocError>
    ensures { IfOk result (λ lines. lines.items ≡ session_mixed_lines offered.now) }
{
    if !session_has_mixed(offered) {
        return Ok(Vec::new(alloc));
    }
    let lines = vec![in alloc; SessionAttribute::AllowMixedExts]?;
    Ok(lines)
}

/// The session's part of the answer with these sections: its number, and the group of those that share a transport.
pub(crate) fn answered_session(
    alloc: Global,
    own: &OwnSide,
    offer: &Sdp,
    sections: &[MediaLine],
) -> Result<Session, AllocError>
    ensures { IfOk result (λ session. session ≡ answered_session own.now offer.now sections.now) }
{
    let accepted = session_sections_accepted(alloc, sections)?;
    let mids = answered_bundle(alloc, offer, accepted.as_slice())?;
    let mut attrs = group_lines(alloc, mids)?;
    attrs.append(&mut session_mixed_lines(alloc, offer.session.attrs.as_slice())?)?;
    Ok(Session {
        id: own.session_id,
        bw: None,
        attrs: Items::from(attrs),
    })
}
