//! Streams that may be restricted, as C holds them.

ghost use Rattle.c_parts.specs.Rid.{c_rid, c_rids, rid_way_number};
ghost use Rattle.std.specs.Prelude.{◌≡◌, ◌++◌, IfOk, OnOk, filter_map, option_to_list};

use crate::section::section_direction_of;
use crate::section_item::SectionItem;
use std::alloc::{AllocError, Global};
use str0m_signal::{Direction, MediaAttribute, MediaLine};

/// A stream that may be restricted.
#[repr(C)]
#[derive(Clone, Copy)]
pub struct SectionRid {
    pub direction: u8,
    pub reserved: [u8; 3],
}

/// The direction that the word of a rid line says.
fn rid_way_of(word: &str) -> u8
    ensures { result ≡ rid_way_number word.now }
{
    if word == "send" {
        section_direction_of(Direction::SendOnly)
    } else {
        section_direction_of(Direction::RecvOnly)
    }
}

fn rid_of(line: &MediaAttribute) -> Option<SectionRid>
    ensures { result ≡ c_rid line.now }
{
    match line {
        MediaAttribute::Rid { direction, .. } => Some(SectionRid {
            direction: rid_way_of(direction.as_str()),
            reserved: [0; 3],
        }),
        _ => None,
    }
}

/// Puts the rid of a line behind the others, where it is one.
fn push_rid(made: &mut Vec<SectionRid>, line: &MediaAttribute) -> Result<(), AllocError>
    ensures { OnOk result (made.new.items ≡ made.old.items ++ option_to_list (c_rid line.now)) }
{
    if let Some(rid) = rid_of(line) {
        made.push(rid)?;
    }
    Ok(())
}

/// The rids of the lines. Not by `collect`, which asks again for less where memory is refused.
fn rids_among(alloc: Global, lines: &[MediaAttribute]) -> Result<Vec<SectionRid>, AllocError>
    ensures { IfOk result (λ made. made.items ≡ filter_map c_rid lines.now) }
{
    let mut made = Vec::new(alloc);
    for line in lines {
        push_rid(&mut made, line)?;
    }
    Ok(made)
}

/// The rid lines of a section.
impl SectionItem for SectionRid {
    ghost listed = { c_rids };

    fn all_of(alloc: Global, section: &MediaLine) -> Result<Vec<SectionRid>, AllocError> {
        rids_among(alloc, section.attrs.as_slice())
    }
}
