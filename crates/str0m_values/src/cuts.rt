//! The parts of a line: what the readers of the crates above cut texts with.
//!
ghost use Rattle.std.specs.Bool.{MatchBool};
ghost use Rattle.std.specs.Prelude.{◌≡◌, not, option_map, ◌≤◌, None, Some, drop, length, MatchOption, IfSome};
ghost use Rattle.std.specs.Str.{str_eq_ignore_ascii_case};
ghost use Rattle.str0m_values.specs.Cuts.{cut, before, strip, num, parts, lacks, IsFirstCutAt, LacksCutAt, IsWrittenAs, IsWrittenIn, IsTheOnly};
ghost use Rattle.str0m_values.specs.CutsParts.{IsNumber, IsNumOr};
ghost use Rattle.str0m_values.specs.Separator.{code};

use crate::digit_values::value_of_digit;
use crate::separator::Separator;

/// How many bytes at the front of a text are gone over one by one: most fields end there, and calling a search of std
/// takes longer than to go over these.
const NEAR_CUT: usize = 20;

/// Where the byte first stands among the first `limit` bytes.
#[inline(always)]
fn near_cut(bytes: &[u8], wanted: u8, limit: usize) -> Option<usize>
    ensures { MatchOption result (length bytes.now ≤ limit → LacksCutAt wanted bytes.now (length bytes.now)) (IsFirstCutAt wanted bytes.now) }
{
    for i in 0..bytes.len().min(limit) {
        if bytes[i] == wanted {
            return Some(i);
        }
    }
    None
}

/// The parts before and after the first `at`; `None` where it doesn't stand in the text.
#[inline]
pub fn cut(text: &str, at: Separator) -> Option<(&str, &str)>
    ensures { parts result ≡ cut (code at) text.now }
{
    let wanted = at.character();
    match near_cut(text.as_bytes(), wanted as u8, NEAR_CUT) {
        Some(place) => Some((&text[..place], &text[place + 1..])),
        None => if text.len() <= NEAR_CUT {
            None
        } else {
            text.split_once(wanted)
        },
    }
}

/// The text before the first `at`, or the whole of it.
pub fn before(text: &str, at: Separator) -> &str
    ensures { result.now ≡ before (code at) text.now }
{
    match cut(text, at) {
        Some((front, _)) => front,
        None => text,
    }
}

/// Whether the separator stands in the text.
pub fn has(text: &str, at: Separator) -> bool
    ensures { result ≡ not (lacks (code at) text.now) }
{
    cut(text, at).is_some()
}

/// Whether the bytes begin with the prefix. They are gone over one by one: prefixes are known where this is inlined, and most
/// are told apart by few bytes.
#[inline(always)]
fn begins_with(bytes: &[u8], prefix: &[u8]) -> bool
    ensures { MatchBool result (strip prefix.now bytes.now ≡ Some (drop (length prefix.now) bytes.now)) (strip prefix.now bytes.now ≡ None) }
{
    if bytes.len() < prefix.len() {
        return false;
    }
    for i in 0..prefix.len() {
        if bytes[i] != prefix[i] {
            return false;
        }
    }
    true
}

/// What follows the prefix; `None` where the text doesn't begin with it.
#[inline(always)]
pub fn strip<'a>(text: &'a str, prefix: &str) -> Option<&'a str>
    ensures { option_map (λ x. x.now) result ≡ strip prefix.now text.now }
{
    if begins_with(text.as_bytes(), prefix.as_bytes()) {
        Some(&text[prefix.len()..])
    } else {
        None
    }
}

/// The longest number of digits that 64 bits always hold.
const SHORT: usize = 19;

/// The number that is written in one to nineteen digits alone.
#[inline(always)]
fn short_number(digits: &[u8]) -> Option<u64>
    ensures { IfSome result (IsWrittenAs digits.now) }
{
    if digits.is_empty() || digits.len() > SHORT {
        return None;
    }
    let mut number = 0;
    for i in 0..digits.len() {
        let byte = digits[i];
        if !byte.is_ascii_digit() {
            return None;
        }
        number = number * 10 + u64::from(byte - b'0');
    }
    Some(number)
}

/// The number that std reads in decimal, where it is at most `limit`. Most are digits alone, which are read in place.
fn number(text: &str, limit: u64) -> Option<u64>
    ensures value { result ≡ num limit text.now }
    ensures within { IfSome result (λ n. n ≤ limit) }
{
    match short_number(text.as_bytes()) {
        Some(number) => if number <= limit { Some(number) } else { None },
        None => match text.parse::<u64>() {
            Ok(number) if number <= limit => Some(number),
            _ => None,
        },
    }
}

/// The number that std reads in decimal, so a leading plus and leading zeros are allowed; `None` where it reads none, or
/// one above `limit`.
pub fn num_u8(text: &str, limit: u8) -> Option<u8>
    ensures { result ≡ num limit text.now }
{
    match number(text, u64::from(limit)) {
        Some(number) => Some(number as u8),
        None => None,
    }
}

/// The number of 8 bits that std reads in decimal, or the default where there is no text; `None` where there is a text in
/// which it reads none.
pub fn num_u8_or(text: Option<&str>, default: u8) -> Option<u8>
    ensures { IsTheOnly (IsNumOr 255 default text.entry) result }
{
    match text {
        None => Some(default),
        Some(text) => num_u8(text, 255),
    }
}

/// The number of 16 bits that std reads in decimal; `None` where it reads none.
pub fn num_u16(text: &str) -> Option<u16>
    ensures { result ≡ num 65535 text.now }
{
    match number(text, u64::from(u16::MAX)) {
        Some(number) => Some(number as u16),
        None => None,
    }
}

/// The number of 32 bits that std reads in decimal; `None` where it reads none.
pub fn num_u32(text: &str) -> Option<u32>
    ensures { result ≡ num 4294967295 text.now }
{
    match number(text, u64::from(u32::MAX)) {
        Some(number) => Some(number as u32),
        None => None,
    }
}

/// The number of 64 bits that std reads in decimal; `None` where it reads none.
pub fn num_u64(text: &str) -> Option<u64>
    ensures { result ≡ num 18446744073709551615 text.now }
{
    number(text, u64::MAX)
}

/// The byte that std reads in the text in hexadecimal: a leading plus and leading zeros are allowed. `None` where it reads
/// none.
pub fn hex_u8(text: &str) -> Option<u8>
    ensures { IsTheOnly (IsNumber 16 255 text.now) result }
{
    u8::from_str_radix(text, 16).ok()
}

/// The longest number of hexadecimal digits that 32 bits always hold.
const SHORT_HEX: usize = 8;

/// The number that is written in one to eight hexadecimal digits alone.
fn short_hex(digits: &[u8]) -> Option<u32>
    ensures { IfSome result (IsWrittenIn 16 digits.now) }
{
    if digits.is_empty() || digits.len() > SHORT_HEX {
        return None;
    }
    let mut number = 0;
    for i in 0..digits.len() {
        let value = value_of_digit(digits[i]);
        if value >= 16 {
            return None;
        }
        number = number * 16 + u32::from(value);
    }
    Some(number)
}

/// The number of 32 bits that std reads in the text in hexadecimal, likewise; `None` where it reads none.
pub fn hex_u32(text: &str) -> Option<u32>
    ensures { IsTheOnly (IsNumber 16 4294967295 text.now) result }
{
    // Most are digits alone, which are read in place.
    match short_hex(text.as_bytes()) {
        Some(number) => Some(number),
        None => u32::from_str_radix(text, 16).ok(),
    }
}

/// Whether two texts are equal without regard to the case of ASCII letters.
pub fn is_same_text(text: &str, other: &str) -> bool
    ensures { result ≡ str_eq_ignore_ascii_case text.now other.now }
{
    text.eq_ignore_ascii_case(other)
}
