//! Addresses: as they are printed, and the numbers that they hold.

use crate::answer::Answer;
use str0m_values::cuts::num_u16;
use str0m_values::{IpAddr, SocketAddr};

/// Answers what the word asks of the text; whether it is one of these words.
pub(crate) fn answers(answer: &mut Answer, word: &str, text: &str) -> bool {
    match word {
        "address" => answer.show_or(&IpAddr::from_text(text), "none"),
        "address-numbers" => address_numbers(answer, text),
        "socket" => socket_address(answer, text),
        _ => return false,
    }
    true
}

/// The octets or groups.
fn address_numbers(answer: &mut Answer, text: &str) {
    match IpAddr::from_text(text) {
        Some(address) => answer.debug(&address),
        None => answer.push("none"),
    }
}

/// An address with a port.
fn socket_address(answer: &mut Answer, text: &str) {
    let (ip, port) = text.split_once(' ').unwrap_or((text, ""));
    match (IpAddr::from_text(ip), num_u16(port)) {
        (Some(ip), Some(port)) => answer.show(&SocketAddr { ip, port }),
        _ => answer.push("none"),
    }
}
