//! What fields of several lines share.

ghost use Rattle.std.specs.Prelude.{◌≡◌, IfOk, option_map};
ghost use Rattle.str0m_signal.specs.Prelude.{text_beginning_of, code, parts};
ghost use Rattle.str0m_signal.specs.form.FormReading.{behind, text_read, two_read};
ghost use Rattle.str0m_signal.specs.form.FormTable.{two_texts};
ghost use Rattle.str0m_signal.specs.form.MediaAttributeReading.{role_read};
ghost use Rattle.str0m_signal.specs.line.LinesReading.{lines_of, line_read, both_lines_left};
ghost use Rattle.str0m_signal.specs.session.SectionReading.{field_read};

use crate::line::lines::clean_line;
use std::alloc::{AllocError, Global};
use str0m_sdp::{SETUPS, Setup};
use str0m_values::cuts::{cut, strip};
use str0m_values::{Mid, Separator, Text, case_of};

/// What follows `label`, where that is not nothing.
pub(crate) fn field<'a>(line: &'a str, label: &str) -> Option<&'a str>
    ensures { option_map (λ x. x.now) result ≡ field_read label.now line.now }
{
    let text = strip(line, label)?;
    if text.is_empty() { None } else { Some(text) }
}

/// What follows `label` in the first line, and what follows that line.
pub(crate) fn read_field<'a>(text: &'a str, label: &str) -> Option<(&'a str, &'a str)>
    ensures { option_map both_lines_left result ≡ line_read (field_read label.now) (lines_of text.now) }
{
    let (line, rest) = clean_line(text)?;
    Some((field(line, label)?, rest))
}

/// A copy of what follows `label`, where that is not nothing.
pub(crate) fn kept_field(alloc: Global, text: &str, label: &str) -> Result<Option<Text>, AllocError>
    ensures { IfOk result (λ found. found ≡ behind label.now text_read text.now) }
{
    match field(text, label) {
        Some(body) => Ok(Some(Text::from_str(alloc, body)?)),
        None => Ok(None),
    }
}

/// The texts before and after the first `at`, where neither is nothing.
pub(crate) fn two_texts(text: &str, at: Separator) -> Option<(&str, &str)>
    ensures { parts result ≡ two_read (code at) text_read text_read text.now }
{
    let (first, second) = cut(text, at)?;
    if first.is_empty() {
        return None;
    }
    if second.is_empty() {
        return None;
    }
    Some((first, second))
}

/// The two texts that follow `label` with a space between them, where neither is nothing.
#[inline(always)]
pub(crate) fn both_texts<'a>(text: &'a str, label: &str) -> Option<(&'a str, &'a str)>
    ensures { parts result ≡ behind label.now two_texts.read text.now }
{
    two_texts(strip(text, label)?, Separator::Space)
}

/// A name, as far as it is kept.
#[tactic(auto, using(str0m_values::proofs::IdentifierBeginnings::beginning_only))]
pub(crate) fn short_field(name: &str) -> Mid
    ensures { result ≡ text_beginning_of 16 name.now }
{
    Mid::from(name)
}

/// The setup that a word says.
pub(crate) fn role_field(word: &str) -> Option<Setup>
    ensures { result ≡ role_read word.now }
{
    case_of(&SETUPS, word)
}
