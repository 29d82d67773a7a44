//! The lines of a text.

ghost use Rattle.memchr.specs.Find.{IsFirstByte, Nowhere, Passes, is_byte2};
ghost use Rattle.std.specs.Prelude.{◌≡◌, ◌+◌, ◌++◌, ◌≤◌, IfSome, Some, option_map};
ghost use Rattle.str0m_signal.specs.Prelude.{Lacks};
ghost use Rattle.str0m_signal.specs.line.LinesReading.{lines_of, clean_line, behind_end, IsAtEnd, both_lines_left};

use memchr::memchr2;
use std::simd::prelude::*;
use str0m_values::cuts::strip;

/// How many bytes of text a line takes, as a guess that most lines don't pass.
pub(crate) const BYTES_OF_A_LINE: usize = 48;

/// How many bytes a line's end is looked for in at once: most lines are shorter, nearly all less than twice as long.
const NEAR_BYTES: usize = 64;

/// How many bytes are searched first, where the end isn't near: the search takes several times as long where it is given more and
/// the end isn't among the first 64.
const FAR_BYTES: usize = 191;

fn ends_line(byte: u8) -> bool
    ensures { result ≡ is_byte2 10 13 byte }
{
    byte == b'\n' || byte == b'\r'
}

/// How many bytes from there on stand before the first that ends a line, or is as low, among the next that are looked at together;
/// `None` where there are fewer.
#[inline(always)]
#[tactic(auto, using(crate::proofs::line::LinesNearEnd::near_bound))]
fn bytes_before_end(bytes: &[u8], from: usize) -> Option<usize>
    ensures none { IfSome result (λ count. Nowhere (Passes (is_byte2 10 13) bytes.now) from (from + count)) }
    ensures bound { IfSome result (λ count. count ≤ 64) }
{
    if bytes.len().saturating_sub(from) < NEAR_BYTES {
        return None;
    }
    let low = u8x64::from_slice(&bytes[from..]).simd_le(u8x64::splat(b'\r'));
    Some(low.to_bitmask().trailing_zeros() as usize)
}

/// Where the first line feed or carriage return stands, where it is near, and no other control character up to these stands before it.
/// To look at so many bytes together takes a third of what a search takes.
#[inline(always)]
#[tactic(auto, using(crate::proofs::line::LinesNearEnd::none_before_end))]
fn near_line_end(bytes: &[u8]) -> Option<usize>
    ensures { IfSome result (λ at. IsFirstByte (is_byte2 10 13) bytes.now (Some at)) }
{
    let mut at = bytes_before_end(bytes, 0)?;
    if at == NEAR_BYTES {
        at += bytes_before_end(bytes, NEAR_BYTES)?;
    }
    match bytes.get(at) {
        Some(byte) if ends_line(*byte) => Some(at),
        _ => None,
    }
}

/// Where the first line feed or carriage return stands.
fn line_end(bytes: &[u8]) -> Option<usize>
    ensures { IsFirstByte (is_byte2 10 13) bytes.now result }
{
    if let Some(at) = near_line_end(bytes) {
        return Some(at);
    }
    let far = &bytes[..bytes.len().min(FAR_BYTES)];
    if let Some(at) = memchr2(b'\n', b'\r', far) {
        return Some(at);
    }
    memchr2(b'\n', b'\r', bytes)
}

/// The text before its first line feed or carriage return, and the text from there on.
pub(crate) fn cut_at_end(text: &str) -> (&str, &str)
    ensures whole { text.now ≡ result.0.now ++ result.1.now }
    ensures no_feed { Lacks 10 result.0.now }
    ensures no_return { Lacks 13 result.0.now }
    ensures stops { IsAtEnd result.1.now }
{
    match line_end(text.as_bytes()) {
        Some(at) => text.split_at(at),
        None => text.split_at(text.len()),
    }
}

/// What follows the line's end that the text begins with; at the end of the text there is none. A carriage return alone
/// ends no line.
pub(crate) fn behind_end(text: &str) -> Option<&str>
    ensures { option_map (λ x. x.now) result ≡ behind_end text.now }
{
    if let Some(rest) = strip(text, "\r\n") {
        return Some(rest);
    }
    if let Some(rest) = strip(text, "\n") {
        return Some(rest);
    }
    if text.is_empty() { Some(text) } else { None }
}

/// The first line, without its end, and what follows it. A line that holds a carriage return fits no form, so nobody
/// needs to know where it ends.
#[inline(always)]
pub(crate) fn clean_line(text: &str) -> Option<(&str, &str)>
    ensures { option_map both_lines_left result ≡ clean_line (lines_of text.now) }
{
    if text.is_empty() {
        return None;
    }
    let (line, end) = cut_at_end(text);
    match behind_end(end) {
        Some(rest) => Some((line, rest)),
        None => None,
    }
}
