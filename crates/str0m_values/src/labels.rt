//! Words after labels.
ghost use Rattle.std.specs.Prelude.{◌≡◌, option_map};
ghost use Rattle.str0m_values.specs.Cuts.{parts};
ghost use Rattle.str0m_values.specs.LabelReading.{front_word_read, labelled_read, optional_label_read};

use crate::cuts::{before, strip};
use crate::separator::Separator;

/// The word at the front of a text, and what stands after it.
pub(crate) fn word(text: &str) -> Option<(&str, &str)>
    ensures { parts result ≡ front_word_read text.now }
{
    let word = before(text, Separator::Space);
    if word.is_empty() {
        return None;
    }
    Some((word, &text[word.len()..]))
}

/// The word after a label, and what stands after it.
#[inline(always)]
pub(crate) fn labelled<'a>(text: &'a str, label: &str) -> Option<(&'a str, &'a str)>
    ensures { parts result ≡ labelled_read label.now text.now }
{
    word(strip(text, label)?)
}

/// The word after a label, or nothing where the label doesn't stand, and what stands after it.
#[inline(always)]
pub(crate) fn optional_labelled<'a>(
    text: &'a str,
    label: &str,
) -> Option<(Option<&'a str>, &'a str)>
    ensures { option_map (λ x. (option_map (λ w. w.now) x.0, x.1.now)) result ≡ optional_label_read label.now text.now }
{
    match strip(text, label) {
        None => Some((None, text)),
        Some(body) => {
            let (word, rest) = word(body)?;
            Some((Some(word), rest))
        }
    }
}
