//! Lines of a letter and a value, as the readers of headers and sections take them.

use str0m_values::Separator;
use str0m_values::cuts::{cut, has, strip};

/// Whether the line is this letter with its `=`, and a value.
pub(crate) fn is_field(line: &str, letter: &str) -> bool {
    match strip(line, letter) {
        Some(value) => !value.is_empty() && !has(line, Separator::CarriageReturn),
        None => false,
    }
}

/// Whether the line is one that may stand between the name of a session and its bandwidth (RFC 8866, sections 5.4 to 5.7, 5.11 and
/// 5.12).
pub(crate) fn is_info_field(line: &str) -> bool {
    match line.get(..2) {
        Some(letter) => {
            matches!(letter, "i=" | "u=" | "e=" | "p=" | "c=" | "z=" | "k=")
                && is_field(line, letter)
        }
        None => false,
    }
}

/// Whether the line is `b=` with a type and a value (RFC 8866, section 5.8).
pub(crate) fn is_bandwidth_field(line: &str) -> bool {
    match cut(line, Separator::Colon) {
        Some((typ, value)) => {
            is_field(typ, "b=") && !value.is_empty() && !has(line, Separator::CarriageReturn)
        }
        None => false,
    }
}

/// Whether the line names a session (RFC 8866, section 5.2).
pub(crate) fn is_origin_field(line: &str) -> bool {
    let Some(body) = strip(line, "o=") else {
        return false;
    };
    let Some((name, body)) = cut(body, Separator::Space) else {
        return false;
    };
    let Some((number, more)) = cut(body, Separator::Space) else {
        return false;
    };
    let is_number = strip(number, "+").is_none() && number.parse::<u64>().is_ok();
    !name.is_empty() && is_number && is_field(line, "o=") && !more.is_empty()
}
