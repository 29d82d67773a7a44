//! The items of lists.
ghost use Rattle.std.specs.Prelude.{◌≡◌, ◌∷◌, ◌&&◌, []};
ghost use Rattle.str0m_signal.specs.Prelude.{is_rest, lacks, num};
ghost use Rattle.str0m_signal.specs.line.WordsReading.{word_text_read, name_read, digit_read, hex_pair_read, without_word_space};

use crate::line::fields::short_field;
use crate::line::parts::Part;
use std::alloc::{AllocError, Global};
use str0m_values::cuts::{has, num_u8, num_u32};
use str0m_values::digit_values::value_of_digit;
use str0m_values::{Mid, Pt, Separator, Ssrc, Text};

fn is_word(text: &str) -> bool
    ensures { result ≡ lacks 32 text.now && is_rest text.now }
{
    !has(text, Separator::Space) && !text.is_empty()
}

/// A word.
impl Part for Text {
    type Value = Text;

    ghost reading = { word_text_read };

    fn is_part(text: &str) -> bool {
        is_word(text)
    }

    fn read(alloc: Global, text: &str) -> Result<Option<Text>, AllocError> {
        if is_word(text) {
            Ok(Some(Text::from_str(alloc, text)?))
        } else {
            Ok(None)
        }
    }
}

/// A word, as far as it is kept.
impl Part for Mid {
    type Value = Mid;

    ghost reading = { name_read };

    fn is_part(text: &str) -> bool {
        is_word(text)
    }

    fn read(_alloc: Global, text: &str) -> Result<Option<Mid>, AllocError> {
        if is_word(text) {
            Ok(Some(short_field(text)))
        } else {
            Ok(None)
        }
    }
}

/// A payload type, at most `LIMIT`.
pub(crate) struct Number<const LIMIT: u8>;

impl<const LIMIT: u8> Part for Number<LIMIT> {
    type Value = Pt;

    ghost reading = { num LIMIT };

    fn is_part(text: &str) -> bool {
        num_u8(text, LIMIT).is_some()
    }

    fn read(_alloc: Global, text: &str) -> Result<Option<Pt>, AllocError> {
        match num_u8(text, LIMIT) {
            Some(number) => Ok(Some(Pt::new_with_value(number))),
            None => Ok(None),
        }
    }
}

/// A number of 32 bits.
impl Part for Ssrc {
    type Value = Ssrc;

    ghost reading = { num 4294967295 };

    fn is_part(text: &str) -> bool {
        num_u32(text).is_some()
    }

    fn read(_alloc: Global, text: &str) -> Result<Option<Ssrc>, AllocError> {
        match num_u32(text) {
            Some(number) => Ok(Some(Ssrc::from(number))),
            None => Ok(None),
        }
    }
}

fn digit(byte: u8) -> Option<u32>
    ensures { result ≡ digit_read byte }
{
    let value = value_of_digit(byte);
    if value < 16 {
        Some(u32::from(value))
    } else {
        None
    }
}

/// The byte that two hexadecimal digits write.
pub(crate) fn hex_byte(high: u8, low: u8) -> Option<u8>
    ensures { result ≡ hex_pair_read (high ∷ low ∷ []) }
{
    let first = digit(high)?;
    let second = digit(low)?;
    Some((first * 16 + second) as u8)
}

/// The byte of a text that is two hexadecimal digits.
pub(crate) fn hex_pair(text: &str) -> Option<u8>
    ensures { result ≡ hex_pair_read text.now }
{
    let [high, low] = text.as_bytes() else {
        return None;
    };
    hex_byte(*high, *low)
}

/// A byte as two hexadecimal digits.
impl Part for u8 {
    type Value = u8;

    ghost reading = { hex_pair_read };

    fn is_part(text: &str) -> bool {
        hex_pair(text).is_some()
    }

    fn read(_alloc: Global, text: &str) -> Result<Option<u8>, AllocError> {
        Ok(hex_pair(text))
    }
}

/// The text without the space at its end.
pub(crate) fn without_word_space(text: &str) -> &str
    ensures { result.now ≡ without_word_space text.now }
{
    text.strip_suffix(' ').unwrap_or(text)
}
