//! Numbers: clock rates, what RTP and origin lines name by numbers, and numbers in texts with their limits.

use crate::answer::Answer;
use str0m_values::cuts::{hex_u8, hex_u32, num_u8, num_u8_or, num_u16, num_u32};
use str0m_values::{Frequency, Pt, SessionId, Ssrc};

/// Answers what the word asks of the text; whether it is one of these words.
pub(crate) fn answers(answer: &mut Answer, word: &str, text: &str) -> bool {
    match word {
        "number-16-bits" => answer.show_or(&num_u16(text), "none"),
        "number-8-bits-or-93" => answer.show_or(&num_u8_or(number_unless_dash(text), 93), "none"),
        "hex-8-bits" => answer.show_or(&hex_u8(text), "none"),
        "hex-32-bits" => answer.show_or(&hex_u32(text), "none"),
        "payload-type" => answer.show_or(&payload_type_number(text), "none"),
        "ssrc" => answer.show_or(&source_number(text), "none"),
        "session-id" => answer.show_or(&session_id_number(text), "none"),
        _ => return of_clock_rates(answer, word, text),
    }
    true
}

/// Of clock rates, in Hz.
fn of_clock_rates(answer: &mut Answer, word: &str, text: &str) -> bool {
    match word {
        "clock-rate" => answer.show_or(&rate_number_in_hertz(text), "none"),
        "clock-rate-printed" => answer.show_or(&Frequency::from_str(text), "none"),
        "clock-rate-of" => answer.show_or(&rate_of_number(text), "none"),
        "clock-rate-names" => named_rate_numbers(answer),
        _ => return false,
    }
    true
}

/// The text; `-` stands for no text.
fn number_unless_dash(text: &str) -> Option<&str> {
    if text == "-" { None } else { Some(text) }
}

/// The clock rate that a text names, in Hz.
fn rate_number_in_hertz(text: &str) -> Option<u32> {
    Some(Frequency::from_str(text)?.get())
}

/// The clock rate of a number.
fn rate_of_number(text: &str) -> Option<Frequency> {
    Frequency::new(num_u32(text)?)
}

/// The clock rates that have names.
fn named_rate_numbers(answer: &mut Answer) {
    answer.push("EIGHT_KHZ ");
    answer.show(&Frequency::EIGHT_KHZ.get());
    answer.push(", SIXTEEN_KHZ ");
    answer.show(&Frequency::SIXTEEN_KHZ.get());
    answer.push(", FORTY_EIGHT_KHZ ");
    answer.show(&Frequency::FORTY_EIGHT_KHZ.get());
    answer.push(", NINETY_KHZ ");
    answer.show(&Frequency::NINETY_KHZ.get());
}

fn payload_type_number(text: &str) -> Option<Pt> {
    Some(Pt::from(num_u8(text, 255)?))
}

fn source_number(text: &str) -> Option<Ssrc> {
    Some(Ssrc::from(num_u32(text)?))
}

fn session_id_number(text: &str) -> Option<SessionId> {
    Some(SessionId::from(text.parse::<u64>().ok()?))
}
