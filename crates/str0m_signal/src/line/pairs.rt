//! Pairs of a key and a value, parted by `;`.

ghost use Rattle.std.specs.Prelude.{◌≡◌, ◌<◌, ◌+◌, IfOk, IfSome, drop, get_or, length, option_map, take};
ghost use Rattle.str0m_signal.specs.Prelude.{pair_texts, parts};
ghost use Rattle.str0m_signal.specs.form.FmtpReading.{IsValueEnd, ends_value, is_pair_blank, fmtp_value_read, skip_pair_blanks, fmtp_next_read, key_and_rest_read, key_cut, pair_read, pairs_read};

use std::alloc::{AllocError, Global};
use str0m_values::cuts::strip;

fn ends_value(byte: u8) -> bool
    ensures { result ≡ ends_value byte }
{
    byte == b';' || byte == b' ' || byte == b'\t'
}

/// Where a value ends. Most are short: to go over them takes less than to call a search.
fn value_end(bytes: &[u8]) -> usize
    ensures { IsValueEnd bytes.now result }
{
    for i in 0..bytes.len() {
        if ends_value(bytes[i]) {
            return i;
        }
    }
    bytes.len()
}

/// A value, which ends at `;`, space or tab, and what follows it.
pub(crate) fn value(text: &str) -> Option<(&str, &str)>
    ensures { parts result ≡ fmtp_value_read text.now }
{
    let at = value_end(text.as_bytes());
    if at == 0 {
        None
    } else {
        Some(text.split_at(at))
    }
}

/// The text without the blanks at its front.
pub(crate) fn skip_pair_blanks(text: &str) -> &str
    ensures { result.now ≡ skip_pair_blanks text.now }
{
    let mut rest = text;
    loop {
        if let Some(more) = strip(rest, " ") {
            rest = more;
        } else if let Some(more) = strip(rest, "\t") {
            rest = more;
        } else {
            return rest;
        }
    }
}

fn is_pair_blank(byte: u8) -> bool
    ensures { result ≡ is_pair_blank byte }
{
    byte == b' ' || byte == b'\t'
}

/// What stands after a value and its blanks: the end, or `;` and more.
fn fmtp_next(text: &str) -> Option<Option<&str>>
    ensures { option_map (λ o. option_map (λ x. x.now) o) result ≡ fmtp_next_read text.now }
{
    if text.is_empty() {
        return Some(None);
    }
    let more = skip_pair_blanks(strip(text, ";")?);
    if more.is_empty() {
        Some(None)
    } else {
        Some(Some(more))
    }
}

/// Where a key ends, which is at the first `=`: no blank stands before it.
fn key_end(bytes: &[u8]) -> Option<usize>
    ensures cut { option_map (λ at. (take at bytes.now, drop (at + 1) bytes.now)) result ≡ key_cut bytes.now }
    ensures equals { IfSome result (λ at. (at < length bytes.now) × (get_or bytes.now at 0 ≡ 61)) }
{
    for i in 0..bytes.len() {
        let byte = bytes[i];
        // Letters, of which most keys are made, stand behind both.
        if byte <= b'=' {
            if byte == b'=' {
                return Some(i);
            }
            if is_pair_blank(byte) {
                return None;
            }
        }
    }
    None
}

/// A key of one or more characters other than blanks, and what follows the `=` behind it.
#[inline(always)]
pub(crate) fn key_and_rest(text: &str) -> Option<(&str, &str)>
    ensures { parts result ≡ key_and_rest_read text.now }
{
    match key_end(text.as_bytes()) {
        Some(at) => if at == 0 {
            None
        } else {
            Some((&text[..at], &text[at + 1..]))
        },
        None => None,
    }
}

#[inline(always)]
#[tactic(auto, using(crate::proofs::line::PairKeyLaws::pair_by_key))]
pub(crate) fn pair(text: &str) -> Option<(&str, &str, Option<&str>)>
    ensures { option_map (λ x. ((x.0.now, x.1.now), option_map (λ y. y.now) x.2)) result ≡ pair_read text.now }
{
    let (key, behind) = key_and_rest(text)?;
    let (value, behind) = value(behind)?;
    let more = fmtp_next(skip_pair_blanks(behind))?;
    Some((key, value, more))
}

/// The pairs of a text, as slices of it.
pub(crate) fn pairs<'a>(
    alloc: Global,
    text: &'a str,
) -> Result<Option<Vec<(&'a str, &'a str)>>, AllocError>
    ensures { IfOk result (λ found. option_map (λ list. pair_texts list.items) found ≡ pairs_read text.now) }
{
    let mut pairs = Vec::new(alloc);
    let mut rest = text;
    loop {
        let Some((key, value, next)) = pair(rest) else {
            return Ok(None);
        };
        pairs.push((key, value))?;
        let Some(more) = next else {
            return Ok(Some(pairs));
        };
        rest = more;
    }
}
