//! What the groups of a session say against its sections.
ghost use Rattle.lint.specs.Findings.{AddsOtherFindings};
ghost use Rattle.std.specs.Prelude.{◌≡◌, OnOk};

use crate::code::Conflict;
use crate::conflicts::{conflict_line_number, note_conflict, note_mid};
use crate::notes::Notes;
use std::alloc::AllocError;
use std::collections::BTreeSet;
use str0m_sdp::{Sdp, SdpError, SessionAttribute};
use str0m_values::Mid;

/// The first mid of a group that no section has.
fn stray_group_mid(mids: &[Mid], names: &BTreeSet<&str>) -> Option<Mid> {
    mids.iter()
        .copied()
        .find(|mid| !names.contains(mid.as_str()))
}

/// Says that a group names a mid that no section has, where it does.
fn note_group(
    notes: &mut Notes,
    number: usize,
    mids: &[Mid],
    names: &BTreeSet<&str>,
) -> Result<(), AllocError>
    ensures others { OnOk result (AddsOtherFindings notes.old notes.new) }
    ensures last { notes.new.last ≡ notes.old.last }
{
    match stray_group_mid(mids, names) {
        Some(mid) => note_mid(notes, number, Conflict::GroupOfNothing, mid),
        None => Ok(()),
    }
}

/// Says which groups of the session name sections that aren't there. Its attributes stand on these lines.
pub(crate) fn note_groups(
    notes: &mut Notes,
    lines: &[usize],
    attributes: &[SessionAttribute],
    names: &BTreeSet<&str>,
) -> Result<(), AllocError>
    ensures others { OnOk result (AddsOtherFindings notes.old notes.new) }
    ensures last { notes.new.last ≡ notes.old.last }
{
    for (i, attribute) in attributes.iter().enumerate() {
        if let SessionAttribute::Group { mids, .. } = attribute {
            note_group(
                notes,
                conflict_line_number(lines, i),
                mids.as_slice(),
                names,
            )?;
        }
    }
    Ok(())
}

/// The first group of the session, whatever its kind: its place among the attributes, and its mids.
fn first_group(attributes: &[SessionAttribute]) -> Option<(usize, &[Mid])> {
    for (i, attribute) in attributes.iter().enumerate() {
        if let SessionAttribute::Group { mids, .. } = attribute {
            return Some((i, mids.as_slice()));
        }
    }
    None
}

/// What the description's sections say against each other and the first group, as `assert_consistency` has it.
fn group_fault(sdp: &Sdp) -> Result<Option<String>, AllocError> {
    match sdp.assert_consistency() {
        Ok(()) => Ok(None),
        Err(SdpError::Memory) => Err(AllocError),
        Err(SdpError::Inconsistent(message)) => Ok(Some(message)),
        Err(SdpError::ParseError(message)) => Ok(Some(message)),
    }
}

/// Says that the first group doesn't list the sections as they stand, where it doesn't.
fn note_listing(notes: &mut Notes, number: usize, sdp: &Sdp) -> Result<(), AllocError>
    ensures others { OnOk result (AddsOtherFindings notes.old notes.new) }
    ensures last { notes.new.last ≡ notes.old.last }
{
    match group_fault(sdp)? {
        Some(message) => note_conflict(notes, number, Conflict::OtherGroup, message.as_str()),
        None => Ok(()),
    }
}

/// Says that the session has no group, or that the first doesn't list the sections as they stand: where their mids differ, and each mid
/// of the group is one of theirs. The attributes stand on these lines, the first m-line after them.
pub(crate) fn note_grouping(
    notes: &mut Notes,
    lines: &[usize],
    sdp: &Sdp,
    names: &BTreeSet<&str>,
) -> Result<(), AllocError>
    ensures others { OnOk result (AddsOtherFindings notes.old notes.new) }
    ensures last { notes.new.last ≡ notes.old.last }
{
    let attributes = sdp.session.attrs.as_slice();
    let Some((i, mids)) = first_group(attributes) else {
        return note_conflict(
            notes,
            conflict_line_number(lines, attributes.len()),
            Conflict::NoGroup,
            "",
        );
    };
    if names.len() < sdp.media_lines.len() || stray_group_mid(mids, names).is_some() {
        return Ok(());
    }
    note_listing(notes, conflict_line_number(lines, i), sdp)
}
