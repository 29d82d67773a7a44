//! Groups of sources as C holds them.

ghost use Rattle.c_parts.specs.SourceGroup.{c_members, c_source_groups, groups_numbered_from, grouped_ssrcs_of};
ghost use Rattle.std.specs.Prelude.{◌≡◌, ◌+◌, ◌++◌, ◌<◌, ◌^◌, IfOk, OnOk, filter_map, length, option_to_list};

use crate::section_item::SectionItem;
use std::alloc::{AllocError, Global};
use str0m_signal::{MediaAttribute, MediaLine, Ssrc};

/// A source in a group.
#[repr(C)]
#[derive(Clone, Copy)]
pub struct SourceInGroup {
    pub group: usize,
    pub ssrc: u32,
    pub reserved: u32,
}

/// Adds the sources of a group.
fn push_group_members(
    made: &mut Vec<SourceInGroup>,
    group: usize,
    ssrcs: &[Ssrc],
) -> Result<(), AllocError>
    ensures { OnOk result (made.new.items ≡ made.old.items ++ c_members group ssrcs.now) }
{
    for ssrc in ssrcs {
        made.push(SourceInGroup {
            group,
            ssrc: **ssrc,
            reserved: 0,
        })?;
    }
    Ok(())
}

/// Adds the sources of a line that groups some; answers the number of the next group.
fn push_group(
    made: &mut Vec<SourceInGroup>,
    group: usize,
    line: &MediaAttribute,
) -> Result<usize, AllocError>
    requires { group + 1 < 2 ^ 64 }
    ensures members { OnOk result (made.new.items ≡ made.old.items ++ groups_numbered_from group (option_to_list (grouped_ssrcs_of line.now))) }
    ensures next { IfOk result (λ next. next ≡ group + length (option_to_list (grouped_ssrcs_of line.now))) }
{
    match line {
        MediaAttribute::SsrcGroup { ssrcs, .. } => {
            push_group_members(made, group, ssrcs.as_slice())?;
            Ok(group + 1)
        }
        _ => Ok(group),
    }
}

fn groups_among(alloc: Global, lines: &[MediaAttribute]) -> Result<Vec<SourceInGroup>, AllocError>
    ensures { IfOk result (λ made. made.items ≡ groups_numbered_from 0 (filter_map grouped_ssrcs_of lines.now)) }
{
    let mut made = Vec::new(alloc);
    let mut group = 0;
    for line in lines {
        group = push_group(&mut made, group, line)?;
    }
    Ok(made)
}

/// The sources that a section groups, each with the number of its group.
impl SectionItem for SourceInGroup {
    ghost listed = { c_source_groups };

    fn all_of(alloc: Global, section: &MediaLine) -> Result<Vec<SourceInGroup>, AllocError> {
        groups_among(alloc, section.attrs.as_slice())
    }
}
