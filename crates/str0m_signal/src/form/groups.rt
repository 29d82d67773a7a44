//! Lines of a session that list names.
ghost use Rattle.std.specs.Prelude.{◌≡◌, IfOk};
ghost use Rattle.str0m_signal.specs.form.SessionAttribute.{names_form_read, group, msid_semantic};

use crate::line::parts::parts;
use crate::line::words::without_word_space;
use std::alloc::{AllocError, Global};
use str0m_sdp::{SessionAttribute, label};
use str0m_values::cuts::{cut, strip};
use str0m_values::{Items, Mid, Separator, Text};

/// The group of a word and of names after it.
fn group_names(alloc: Global, text: &str) -> Result<Option<SessionAttribute>, AllocError>
    ensures { IfOk result (λ found. found ≡ names_form_read text.now) }
{
    let Some((word, list)) = cut(text, Separator::Space) else {
        if text.is_empty() {
            return Ok(None);
        }
        let typ = Text::from_str(alloc, text)?;
        let mids = Items::empty(alloc);
        return Ok(Some(SessionAttribute::Group { typ, mids }));
    };
    if word.is_empty() {
        return Ok(None);
    }
    let Some(mids) = parts::<Mid>(alloc, list, Separator::Space)? else {
        return Ok(None);
    };
    let typ = Text::from_str(alloc, word)?;
    Ok(Some(SessionAttribute::Group { typ, mids }))
}

/// The group line of the text after `a=`.
pub(crate) fn group(alloc: Global, text: &str) -> Result<Option<SessionAttribute>, AllocError>
    ensures { IfOk result (λ found. found ≡ group.read text.now) }
{
    match strip(text, label::GROUP) {
        Some(body) => group_names(alloc, without_word_space(body)),
        None => Ok(None),
    }
}

/// The msid-semantic line of the text after `a=`.
pub(crate) fn msid_semantic(
    alloc: Global,
    text: &str,
) -> Result<Option<SessionAttribute>, AllocError>
    ensures { IfOk result (λ found. found ≡ msid_semantic.read text.now) }
{
    let Some(body) = strip(text, label::MSID_SEMANTIC) else {
        return Ok(None);
    };
    let words = match strip(body, " ") {
        Some(rest) => rest,
        None => body,
    };
    let Some((word, list)) = cut(words, Separator::Space) else {
        return Ok(None);
    };
    if word.is_empty() {
        return Ok(None);
    }
    let Some(stream_ids) = parts::<Text>(alloc, list, Separator::Space)? else {
        return Ok(None);
    };
    let semantic = Text::from_str(alloc, word)?;
    Ok(Some(SessionAttribute::MsidSemantic {
        semantic,
        stream_ids,
    }))
}
