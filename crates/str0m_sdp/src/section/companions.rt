//! The payload types that go with another type, by type.
ghost use Rattle.std.specs.List.{list_any};
ghost use Rattle.std.specs.Prelude.{◌≡◌, ◌<◌, ◌&&◌, ℕ, false, Some, None, get_or, length, if◌then◌else◌};
ghost use Rattle.str0m_sdp.specs.section.Companions.{listed_type, companion_named_by, names_type};
ghost use Rattle.str0m_sdp.specs.section.TypeTables.{IsWholeTable, type_in_table};

use crate::section::type_tables::{TYPES, TypeTable, place, section_apt_of};
use str0m_formats::{Codec, FormatParam};
use str0m_values::Pt;

/// The first type of a list of types (RFC 2198, section 5).
fn listed_type(value: FormatParam) -> Option<Pt>
    ensures { result ≡ listed_type value }
{
    match value {
        FormatParam::BarePtList(pt) | FormatParam::Red(pt) => Some(pt),
        _ => None,
    }
}

/// The type that a value names in an fmtp line of the codec.
fn companion_named_by(codec: Codec, value: FormatParam) -> Option<Pt>
    ensures { result ≡ companion_named_by codec value }
{
    match codec {
        Codec::Rtx => section_apt_of(value),
        Codec::Red => listed_type(value),
        _ => None,
    }
}

/// Notes the type for each type that the values of its fmtp line name.
fn note_companions(companions: &mut TypeTable, codec: Codec, pt: Pt, values: &[FormatParam])
    ensures noted { IsWholeTable companions.old → (n : ℕ) → type_in_table companions.new n
        ≡ (if list_any (names_type codec n) values.now then Some pt else type_in_table companions.old n) }
    ensures whole { IsWholeTable companions.old → IsWholeTable companions.new }
{
    for value in values {
        if let Some(named) = companion_named_by(codec, *value) {
            companions.set(named, pt);
        }
    }
}

/// Notes the type for each type that its fmtp line names, where it is one of the codec's, which is RTX (RFC 4588, section 8.1)
/// or RED (RFC 2198, section 5).
pub(crate) fn note_companion_line(
    companions: &mut TypeTable,
    codec: Codec,
    of_codec: &[bool; TYPES],
    pt: Pt,
    values: &[FormatParam],
)
    ensures noted { IsWholeTable companions.old → (n : ℕ) → type_in_table companions.new n
        ≡ (if get_or of_codec.now pt false && list_any (names_type codec n) values.now then Some pt else type_in_table companions.old n) }
    ensures whole { IsWholeTable companions.old → IsWholeTable companions.new }
{
    if of_codec[place(pt)] {
        note_companions(companions, codec, pt, values);
    }
}
