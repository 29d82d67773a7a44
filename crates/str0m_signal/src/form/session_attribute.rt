//! The attributes of a session.

ghost use Rattle.std.specs.Prelude.{◌≡◌, IfOk};
ghost use Rattle.str0m_sdp.specs.declared.attribute.SessionAttribute.TheVariants.{Setup, Fingerprint, Candidate, Unused};
ghost use Rattle.str0m_signal.specs.form.FormTable.{form_made_as, any_form, texts, unused_read};
ghost use Rattle.str0m_signal.specs.form.FormTransport.{candidate, fingerprint, setup};
ghost use Rattle.str0m_signal.specs.form.SessionAttribute.{session_texts, session_forms, session_read, IsSessionLine};
ghost use Rattle.str0m_signal.specs.line.Lines.{Run, OneLine};
ghost use Rattle.str0m_signal.specs.line.LinesReading.{lines_of};

use crate::form::fingerprint::fingerprint;
use crate::form::groups::{group, msid_semantic};
use crate::line::attributes::{Attribute, attribute_run, taken};
use crate::line::fields::{kept_field, role_field};
use std::alloc::{AllocError, Global};
use str0m_sdp::{SessionAttribute, label};
use str0m_values::candidate_text::candidate;
use str0m_values::cuts::strip;
use str0m_values::{Boxed, Items, Text};

fn session_setup(text: &str) -> Option<SessionAttribute>
    ensures { result ≡ (setup Setup).read text.now }
{
    let word = strip(text, label::SETUP)?;
    Some(SessionAttribute::Setup(role_field(word)?))
}

/// The attributes that are a label and a text.
fn session_text(alloc: Global, text: &str) -> Result<Option<SessionAttribute>, AllocError>
    ensures { IfOk result (λ found. found ≡ (texts session_texts).read text.now) }
{
    if let Some(value) = kept_field(alloc, text, label::ICE_UFRAG)? {
        return Ok(Some(SessionAttribute::IceUfrag(value)));
    }
    if let Some(value) = kept_field(alloc, text, label::ICE_PWD)? {
        return Ok(Some(SessionAttribute::IcePwd(value)));
    }
    if let Some(value) = kept_field(alloc, text, label::ICE_OPTIONS)? {
        return Ok(Some(SessionAttribute::IceOptions(value)));
    }
    Ok(None)
}

fn session_fingerprint(alloc: Global, text: &str) -> Result<Option<SessionAttribute>, AllocError>
    ensures { IfOk result (λ found. found ≡ (form_made_as fingerprint Fingerprint).read text.now) }
{
    match fingerprint(alloc, text)? {
        Some(hash) => Ok(Some(SessionAttribute::Fingerprint(hash))),
        None => Ok(None),
    }
}

fn session_candidate(alloc: Global, text: &str) -> Result<Option<SessionAttribute>, AllocError>
    ensures { IfOk result (λ found. found ≡ (form_made_as candidate Candidate).read text.now) }
{
    match candidate(alloc, text)? {
        Some(candidate) => Ok(Some(SessionAttribute::Candidate(Boxed::new(alloc, candidate)?))),
        None => Ok(None),
    }
}

fn session_named(alloc: Global, text: &str) -> Result<Option<SessionAttribute>, AllocError>
    ensures { IfOk result (λ found. found ≡ (any_form session_forms).read text.now) }
{
    if let Some(found) = SessionAttribute::from_word(text) {
        return Ok(Some(found));
    }
    if let Some(found) = session_setup(text) {
        return Ok(Some(found));
    }
    if let Some(found) = group(alloc, text)? {
        return Ok(Some(found));
    }
    if let Some(found) = msid_semantic(alloc, text)? {
        return Ok(Some(found));
    }
    if let Some(found) = session_text(alloc, text)? {
        return Ok(Some(found));
    }
    if let Some(found) = session_fingerprint(alloc, text)? {
        return Ok(Some(found));
    }
    session_candidate(alloc, text)
}

/// What isn't empty, as it stands.
fn session_unused(alloc: Global, text: &str) -> Result<Option<SessionAttribute>, AllocError>
    ensures { IfOk result (λ found. found ≡ unused_read Unused text.now) }
{
    if text.is_empty() {
        return Ok(None);
    }
    Ok(Some(SessionAttribute::Unused(Text::from_str(alloc, text)?)))
}

impl Attribute for SessionAttribute {
    ghost reading = { session_read };

    fn take(
        alloc: Global,
        text: &str,
        place: &mut Vec<SessionAttribute>,
    ) -> Result<bool, AllocError> {
        if taken(session_named(alloc, text)?, place)? {
            return Ok(true);
        }
        taken(session_unused(alloc, text)?, place)
    }
}

/// How many attribute lines browsers give a session.
const USUAL_SESSION_LINES: usize = 3;

/// The run of attribute lines that stands next.
pub(crate) fn session_attributes(
    alloc: Global,
    text: &str,
) -> Result<(Items<SessionAttribute>, &str), AllocError>
    ensures { IfOk result (λ found. Run (OneLine IsSessionLine) (lines_of text.now) found.0 (lines_of found.1.now)) }
{
    attribute_run(alloc, text, USUAL_SESSION_LINES)
}
