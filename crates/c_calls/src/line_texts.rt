//! What calls write of the lines of a section.

ghost use Rattle.c_calls.specs.LineTexts.{text_of_line};
ghost use Rattle.c_calls.specs.Said.{Says};
ghost use Rattle.c_calls.specs.declared.line_texts.LineText.TheVariants.{Restrictions};
ghost use Rattle.std.specs.Prelude.{◌≡◌, ◌+◌, ◌-◌, ◌≤◌, drop, filter, filter_map, is_some, length, option_copied, slice_get, take};

use crate::said::{NO_MEMORY, NO_SECTION, put_said};
use std::alloc::Global;
use str0m_sdp::label;
use str0m_signal::MediaAttribute;

/// What a call writes of a line.
#[derive(Clone, Copy)]
pub(crate) enum LineText {
    /// The URI of a header extension.
    Uri,
    /// The name of a stream that may be restricted.
    RidName,
    /// Its payload types and restrictions.
    Restrictions,
    /// What the sources of a group have in common.
    Semantics,
}

/// Whether the line says it.
fn has_text(line: &MediaAttribute, what: LineText) -> bool
    ensures { result ≡ is_some (text_of_line what line.now) }
{
    match what {
        LineText::Uri => matches!(line, MediaAttribute::ExtMap { .. }),
        LineText::RidName => matches!(line, MediaAttribute::Rid { .. }),
        LineText::Restrictions => matches!(line, MediaAttribute::Rid { .. }),
        LineText::Semantics => matches!(line, MediaAttribute::SsrcGroup { .. }),
    }
}

/// The line at an index among those that say it.
fn line_with_text_at(
    lines: &[MediaAttribute],
    what: LineText,
    index: usize,
) -> Option<&MediaAttribute>
    ensures { option_copied result ≡ slice_get (filter (λ line. is_some (text_of_line what line)) lines.now) index }
{
    lines.iter().filter(|line| has_text(line, what)).nth(index)
}

/// What a printed line has behind a front of so many bytes and one more, without its end.
fn line_text_behind_front(line: &[u8], front: usize) -> &[u8]
    requires { front + 2 ≤ length line.now }
    ensures { result.now ≡ drop (front + 1) (take (length line.now - 2) line.now) }
{
    let end = line.len() - 2;
    &line[(front + 1).min(end)..end]
}

/// Writes what a rid line prints behind its direction and a space.
fn put_rid_line_restrictions(
    alloc: Global,
    line: &MediaAttribute,
    room: &mut [u8],
    needed: &mut usize,
) -> u32
    ensures { Says (text_of_line Restrictions line.now) (room.old, needed.old) (result, room.new, needed.new) }
{
    let MediaAttribute::Rid { id, direction, .. } = line else {
        return NO_SECTION;
    };
    let Ok(text) = line.to_string(alloc) else {
        return NO_MEMORY;
    };
    // (`a=` and a space stand beside these)
    let front = label::RID.len() + id.0.len() + direction.as_str().len() + 3;
    put_said(line_text_behind_front(text.as_bytes(), front), room, needed)
}

fn put_text_of_line(
    alloc: Global,
    line: &MediaAttribute,
    what: LineText,
    room: &mut [u8],
    needed: &mut usize,
) -> u32
    ensures { Says (text_of_line what line.now) (room.old, needed.old) (result, room.new, needed.new) }
{
    match (what, line) {
        (LineText::Uri, MediaAttribute::ExtMap { ext, .. }) => {
            put_said(ext.as_uri().as_bytes(), room, needed)
        }
        (LineText::RidName, MediaAttribute::Rid { id, .. }) => {
            put_said(id.0.as_str().as_bytes(), room, needed)
        }
        (LineText::Restrictions, _) => put_rid_line_restrictions(alloc, line, room, needed),
        (LineText::Semantics, MediaAttribute::SsrcGroup { semantics, .. }) => {
            put_said(semantics.as_str().as_bytes(), room, needed)
        }
        _ => NO_SECTION,
    }
}

/// Writes what the line at an index says, among those that say it.
#[tactic(auto, using(crate::proofs::LineTextsPassed::line_text_said_at))]
pub(crate) fn put_line_text(
    alloc: Global,
    lines: &[MediaAttribute],
    index: usize,
    what: LineText,
    room: &mut [u8],
    needed: &mut usize,
) -> u32
    ensures { Says (slice_get (filter_map (text_of_line what) lines.now) index) (room.old, needed.old) (result, room.new, needed.new) }
{
    match line_with_text_at(lines, what, index) {
        Some(line) => put_text_of_line(alloc, line, what, room, needed),
        None => NO_SECTION,
    }
}
