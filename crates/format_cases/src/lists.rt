//! Words and numbers in a text.

/// The first word of a text, and what stands after the space.
pub(crate) fn listed_word(text: &str) -> (&str, &str) {
    text.split_once(' ').unwrap_or((text, ""))
}

/// The value of a name among `NAME=VALUE` parts, which spaces part.
pub(crate) fn value_of<'a>(text: &'a str, name: &str) -> Option<&'a str> {
    for part in text.split(' ') {
        match part.split_once('=') {
            Some((found, value)) if found == name => return Some(value),
            _ => {}
        }
    }
    None
}

/// Three numbers of 8 bits, which spaces part.
pub(crate) fn three_listed_bytes(text: &str) -> Option<(u8, u8, u8)> {
    let (first, rest) = listed_word(text);
    let (second, third) = listed_word(rest);
    match (
        first.parse::<u8>(),
        second.parse::<u8>(),
        third.parse::<u8>(),
    ) {
        (Ok(first), Ok(second), Ok(third)) => Some((first, second, third)),
        _ => None,
    }
}
