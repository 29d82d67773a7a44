//! The values of fmtp lines that have no keys.
ghost use Rattle.std.specs.Prelude.{◌≡◌, ◌∷◌, [], Some};
ghost use Rattle.str0m_signal.specs.form.FmtpReading.{first_number_read, range_read, bare_read};
ghost use Rattle.str0m_signal.specs.form.FormReading.{digits_read};

use crate::line::parts::are_parts;
use crate::line::words::Number;
use str0m_formats::FormatParam;
use str0m_values::cuts::{cut, num_u8, strip};
use str0m_values::{Pt, Separator};

/// The first of two or more payload types that are parted by `/`.
fn first_bare_type(text: &str) -> Option<u8>
    ensures { result ≡ first_number_read text.now }
{
    let (front, others) = cut(text, Separator::Slash)?;
    let first = num_u8(front, 255)?;
    if are_parts::<Number<255>>(others, Separator::Slash) {
        Some(first)
    } else {
        None
    }
}

/// The number in digits alone.
fn digits(text: &str) -> Option<u8>
    ensures { result ≡ digits_read 255 text.now }
{
    if strip(text, "+").is_some() {
        return None;
    }
    num_u8(text, 255)
}

/// Where a range from 0 on ends.
fn bare_range(text: &str) -> Option<u8>
    ensures { result ≡ range_read text.now }
{
    digits(strip(text, "0-")?)
}

/// The value after the payload type, where no pairs stand there.
pub(crate) fn bare(more: &str) -> FormatParam
    ensures { Some (result ∷ []) ≡ bare_read more.now }
{
    let Some(text) = strip(more, " ") else {
        return FormatParam::Unknown;
    };
    if let Some(first) = first_bare_type(text) {
        return FormatParam::BarePtList(Pt::new_with_value(first));
    }
    if let Some(last) = bare_range(text) {
        return FormatParam::BareRange(last);
    }
    FormatParam::Unknown
}
