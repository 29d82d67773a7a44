//! What a section says of each payload type, gathered in one pass over its attributes.
ghost use Rattle.std.specs.List.{list_any};
ghost use Rattle.std.specs.Prelude.{◌≡◌, ◌==◌, ◌<◌, ℕ, false, Some, None, count_by, get_or, if◌then◌else◌};
ghost use Rattle.str0m_sdp.specs.Prelude.{◌<|>◌};
ghost use Rattle.str0m_sdp.specs.declared.attribute.MediaAttribute.TheVariants.{Fmtp};
ghost use Rattle.str0m_sdp.specs.section.Consistency.{maps, section_apt_of, section_apt_among, section_apt_in, first_section_apt};
ghost use Rattle.str0m_sdp.specs.section.TypeTables.{IsWholeTable, type_in_table};

use crate::attribute::MediaAttribute;
use str0m_formats::FormatParam;
use str0m_values::Pt;

/// As many payload types as have a place in a table: eight bits hold their numbers.
pub(crate) const TYPES: usize = 256;

/// The place of a payload type in a table of all.
pub(crate) fn place(pt: Pt) -> usize
    ensures is { result ≡ pt }
    ensures within { result < 256 }
{
    usize::from(pt.value())
}

/// A payload type, or none, for each payload type. Bytes alone are cleared at once, where each `None` of a list of `Option<Pt>`
/// is stored by itself.
#[derive(Drop)]
pub(crate) struct TypeTable {
    is_there: [bool; TYPES],
    pts: [Pt; TYPES],
}

impl TypeTable {
    /// None for any.
    pub(crate) fn none() -> TypeTable
        ensures whole { IsWholeTable result }
        ensures none { (pt : ℕ) → type_in_table result pt ≡ None }
    {
        TypeTable {
            is_there: [false; TYPES],
            pts: [Pt::from(0); TYPES],
        }
    }

    /// The one for the type.
    pub(crate) fn get(&self, pt: Pt) -> Option<Pt>
        ensures one { result ≡ type_in_table self.now pt }
        ensures within { pt < 256 }
    {
        let place = place(pt);
        if self.is_there[place] {
            Some(self.pts[place])
        } else {
            None
        }
    }

    /// Has this one for the type, in place of another.
    pub(crate) fn set(&mut self, pt: Pt, one: Pt)
        ensures whole { IsWholeTable self.old → IsWholeTable self.new }
        ensures set { IsWholeTable self.old → (n : ℕ) → type_in_table self.new n ≡ (if pt == n then Some one else type_in_table self.old n) }
    {
        let place = place(pt);
        self.is_there[place] = true;
        self.pts[place] = one;
    }
}

/// Which payload types stand in the list.
pub(crate) fn types_in(pts: &[Pt]) -> [bool; TYPES]
    ensures { (pt : ℕ) → pt < 256 → get_or result pt false ≡ list_any (λ n. n == pt) pts.now }
{
    let mut types = [false; TYPES];
    for pt in pts {
        types[place(*pt)] = true;
    }
    types
}

/// How many mappings each payload type has (RFC 8866, section 6.6).
pub(crate) fn count_maps(attrs: &[MediaAttribute]) -> [usize; TYPES]
    ensures { (pt : ℕ) → pt < 256 → get_or result pt 0 ≡ count_by (maps pt) attrs.now }
{
    let mut counts = [0; TYPES];
    for attr in attrs {
        if let MediaAttribute::RtpMap { pt, .. } = attr {
            counts[place(*pt)] += 1;
        }
    }
    counts
}

/// The primary type that the value names (RFC 4588, section 8.1).
pub(crate) fn section_apt_of(value: FormatParam) -> Option<Pt>
    ensures { result ≡ section_apt_of value }
{
    match value {
        FormatParam::Apt(pt) => Some(pt),
        _ => None,
    }
}

/// The first primary type that the values name.
fn section_apt_among(values: &[FormatParam]) -> Option<Pt>
    ensures { result ≡ section_apt_among values.now }
{
    let mut left = values;
    while let Some((value, more)) = left.split_first() {
        if let Some(apt) = section_apt_of(*value) {
            return Some(apt);
        }
        left = more;
    }
    None
}

/// Has the first primary type that an fmtp line of the payload type names, where none is there for it.
fn note_section_apt(firsts: &mut TypeTable, pt: Pt, values: &[FormatParam])
    ensures whole { IsWholeTable firsts.old → IsWholeTable firsts.new }
    ensures noted { IsWholeTable firsts.old → (n : ℕ) → type_in_table firsts.new n ≡ (type_in_table firsts.old n <|> section_apt_in n (Fmtp pt values.now)) }
{
    if firsts.get(pt).is_none() {
        if let Some(apt) = section_apt_among(values) {
            firsts.set(pt, apt);
        }
    }
}

/// The first primary type that fmtp lines name for each payload type.
pub(crate) fn first_section_apts(attrs: &[MediaAttribute]) -> TypeTable
    ensures { (pt : ℕ) → type_in_table result pt ≡ first_section_apt pt attrs.now }
{
    let mut firsts = TypeTable::none();
    for attr in attrs {
        if let MediaAttribute::Fmtp { pt, values } = attr {
            note_section_apt(&mut firsts, *pt, values.as_slice());
        }
    }
    firsts
}
