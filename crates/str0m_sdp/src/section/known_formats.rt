//! What the fmtp lines of a payload type say of a codec, made once where the section says much in them.
ghost use Rattle.std.specs.Prelude.{◌≡◌, ℕ, IfOk, List};
ghost use Rattle.str0m_sdp.specs.Prelude.{format_of_fmtp, format_line_values};
ghost use Rattle.str0m_sdp.specs.declared.attribute.MediaAttribute.{MediaAttribute};
ghost use Rattle.str0m_sdp.specs.section.FmtpLines.{fmtp_lines_with};
ghost use Rattle.str0m_sdp.specs.section.SectionRows.{fmtps_of};
ghost use Rattle.str0m_sdp.specs.section.TypeLines.{AreGroupsKnown};

use crate::section::fmtp_lines::find_fmtp_lines;
use crate::section::type_lines::{TypeLines, grouped};
use crate::section::type_tables::place;
use std::alloc::{AllocError, Global};
use str0m_formats::{Codec, FormatParam, FormatParams};
use str0m_values::Pt;

/// As many lines and values, together, as are gone over for each type anew: that takes no longer than to look up what is known.
const FEW_FORMAT_VALUES: usize = 128;

/// Whether the lines, with their values, are so few. Where they aren't, and many types are mapped, or one time after time, all of
/// them would be gone over as often.
fn are_format_lines_few(lines: &[(u8, &[FormatParam])]) -> bool {
    let mut left = FEW_FORMAT_VALUES;
    for (_, values) in lines {
        match left.checked_sub(1 + values.len()) {
            Some(fewer) => left = fewer,
            None => return false,
        }
    }
    true
}

/// The lines by type, where they aren't few; else no groups, which takes no memory.
pub(crate) fn groups_of<'a>(
    alloc: Global,
    lines: &[(u8, &'a [FormatParam])],
) -> Result<Vec<TypeLines<'a>>, AllocError>
    ensures { (attrs : List MediaAttribute) → ((pt : ℕ) → format_line_values (fmtp_lines_with pt lines.now) ≡ fmtps_of attrs pt) → IfOk result (λ groups. AreGroupsKnown attrs groups.items) }
{
    if are_format_lines_few(lines) {
        return Ok(Vec::new(alloc));
    }
    grouped(alloc, lines)
}

/// What the lines of the type say of the codec, where all are gone over.
fn format_said<'a>(
    found: &mut Vec<&'a [FormatParam]>,
    lines: &[(u8, &'a [FormatParam])],
    pt: Pt,
    codec: Codec,
) -> Result<Option<FormatParams>, AllocError>
    ensures { IfOk result (λ format. format ≡ format_of_fmtp codec (format_line_values (fmtp_lines_with pt lines.now))) }
{
    find_fmtp_lines(found, lines, pt)?;
    Ok(FormatParams::from_sdp_fmtp(codec, found.as_slice()))
}

/// What the fmtp lines of the type say of the codec, where these are the lines of the section. Where they aren't few, the groups
/// of all types tell it. What was found before makes room for what is found now.
pub(crate) fn format_of<'a>(
    groups: &mut Vec<TypeLines<'a>>,
    found: &mut Vec<&'a [FormatParam]>,
    lines: &[(u8, &'a [FormatParam])],
    pt: Pt,
    codec: Codec,
) -> Result<Option<FormatParams>, AllocError>
    ensures format { (attrs : List MediaAttribute) → AreGroupsKnown attrs groups.old.items → format_line_values (fmtp_lines_with pt lines.now) ≡ fmtps_of attrs pt →
        IfOk result (λ format. format ≡ format_of_fmtp codec (fmtps_of attrs pt)) }
    ensures known { (attrs : List MediaAttribute) → AreGroupsKnown attrs groups.old.items → AreGroupsKnown attrs groups.new.items }
{
    let place = place(pt);
    if place < groups.len() {
        groups[place].format_of(codec)
    } else {
        format_said(found, lines, pt, codec)
    }
}
