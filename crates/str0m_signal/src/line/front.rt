//! Numbers at the front of lines, before a space.

ghost use Rattle.std.specs.Prelude.{◌≡◌, IfSome, option_map, take};
ghost use Rattle.str0m_signal.specs.line.FrontReading.{number_and_rest_read, number_in_front_read};
ghost use Rattle.str0m_values.specs.Cuts.{IsFirstCutAt, IsWrittenAs};

use str0m_values::Separator;
use str0m_values::cuts::{before, cut, num_u8, strip};

/// How many bytes are gone over for a number and the space behind it: payload types take three digits at most.
const NEAR_SPACE: usize = 4;

/// The number that is written in few digits before the first space, and where that stands.
#[inline(always)]
fn short_number(bytes: &[u8]) -> Option<(u64, usize)>
    ensures { IfSome result (λ found. IsFirstCutAt 32 bytes.now found.1 × IsWrittenAs (take found.1 bytes.now) found.0) }
{
    let mut number = 0;
    for i in 0..bytes.len().min(NEAR_SPACE) {
        let byte = bytes[i];
        if byte == b' ' {
            return if i == 0 { None } else { Some((number, i)) };
        }
        if !byte.is_ascii_digit() {
            return None;
        }
        number = number * 10 + u64::from(byte - b'0');
    }
    None
}

fn slow_number_and_rest(text: &str, limit: u8) -> Option<(u8, &str)>
    ensures { option_map (λ x. (x.0, x.1.now)) result ≡ number_and_rest_read limit text.now }
{
    let (number, rest) = cut(text, Separator::Space)?;
    Some((num_u8(number, limit)?, rest))
}

/// The number before the first space, and what follows the space. Most are few digits alone, which are read in place.
#[inline(always)]
pub(crate) fn number_and_rest(text: &str, limit: u8) -> Option<(u8, &str)>
    ensures { option_map (λ x. (x.0, x.1.now)) result ≡ number_and_rest_read limit text.now }
{
    match short_number(text.as_bytes()) {
        Some((number, at)) if number <= u64::from(limit) => Some((number as u8, &text[at + 1..])),
        _ => slow_number_and_rest(text, limit),
    }
}

fn slow_number_in_front(text: &str, limit: u8) -> Option<(u8, &str)>
    ensures { option_map (λ x. (x.0, x.1.now)) result ≡ number_in_front_read limit text.now }
{
    let front = before(text, Separator::Space);
    let number = num_u8(front, limit)?;
    Some((number, strip(text, front)?))
}

/// The number before the first space or the end, and what stands from there on.
#[inline(always)]
pub(crate) fn number_in_front(text: &str, limit: u8) -> Option<(u8, &str)>
    ensures { option_map (λ x. (x.0, x.1.now)) result ≡ number_in_front_read limit text.now }
{
    match short_number(text.as_bytes()) {
        Some((number, at)) if number <= u64::from(limit) => Some((number as u8, &text[at..])),
        _ => slow_number_in_front(text, limit),
    }
}
