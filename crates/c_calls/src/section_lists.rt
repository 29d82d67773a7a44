//! Calls that write what a section lists.

ghost use Rattle.c_calls.specs.Common.{OfHandle};
ghost use Rattle.c_calls.specs.Prelude.{IsRoomFull, c_extensions, c_layers, c_rids, c_rows, c_source_groups, c_sources};
ghost use Rattle.c_calls.specs.Said.{Says};
ghost use Rattle.c_calls.specs.SectionCalls.{section_list_at};
ghost use Rattle.std.specs.Prelude.{◌≡◌, Some};

use crate::said::{NO_MEMORY, NO_SECTION, put_said};
use c_parts::extension::SectionExtension;
use c_parts::layer::SectionLayer;
use c_parts::rid::SectionRid;
use c_parts::row::Row;
use c_parts::section_item::SectionItem;
use c_parts::session_handle::SessionHandle;
use c_parts::source::SectionSource;
use c_parts::source_group::SourceInGroup;
use std::alloc::Global;
use str0m_signal::{MediaLine, Sdp};

fn put_list<T: SectionItem>(
    alloc: Global,
    section: &MediaLine,
    room: &mut [T],
    needed: &mut usize,
) -> u32
    ensures { Says (Some (T.listed section.now)) (room.old, needed.old) (result, room.new, needed.new) }
{
    match T::all_of(alloc, section) {
        Ok(made) => put_said(made.as_slice(), room, needed),
        Err(_) => NO_MEMORY,
    }
}

fn put_list_at<T: SectionItem>(
    alloc: Global,
    sdp: &Sdp,
    at: usize,
    room: &mut [T],
    needed: &mut usize,
) -> u32
    ensures { Says (section_list_at T.listed sdp.now at) (room.old, needed.old) (result, room.new, needed.new) }
{
    match sdp.media_lines.get(at) {
        Some(section) => put_list(alloc, section, room, needed),
        None => NO_SECTION,
    }
}

/// Writes what a section of the description lists.
fn list<T: SectionItem>(
    alloc: Global,
    handle: &mut SessionHandle,
    at: usize,
    room: &mut [T],
    needed: &mut usize,
) -> u32
    requires { IsRoomFull handle.old.inner }
    ensures same { handle.new.inner ≡ handle.old.inner }
    ensures says { OfHandle handle.old.inner (λ sdp. Says (section_list_at T.listed sdp at) (room.old, needed.old) (result, room.new, needed.new)) }
{
    let sdp = handle.take(alloc);
    let code = put_list_at(alloc, &sdp, at, room, needed);
    handle.put(sdp);
    code
}

/// The rows of a section.
#[unsafe(no_mangle)]
pub extern "C" fn zaxp_session_rows(
    alloc: Global,
    handle: &mut SessionHandle,
    at: usize,
    room: &mut [Row],
    needed: &mut usize,
) -> u32
    requires { IsRoomFull handle.old.inner }
    ensures same { handle.new.inner ≡ handle.old.inner }
    ensures says { OfHandle handle.old.inner (λ sdp. Says (section_list_at c_rows sdp at) (room.old, needed.old) (result, room.new, needed.new)) }
{
    list::<Row>(alloc, handle, at, room, needed)
}

/// The header extensions of a section.
#[unsafe(no_mangle)]
pub extern "C" fn zaxp_session_extensions(
    alloc: Global,
    handle: &mut SessionHandle,
    at: usize,
    room: &mut [SectionExtension],
    needed: &mut usize,
) -> u32
    requires { IsRoomFull handle.old.inner }
    ensures same { handle.new.inner ≡ handle.old.inner }
    ensures says { OfHandle handle.old.inner (λ sdp. Says (section_list_at c_extensions sdp at) (room.old, needed.old) (result, room.new, needed.new)) }
{
    list::<SectionExtension>(alloc, handle, at, room, needed)
}

/// The rid lines of a section.
#[unsafe(no_mangle)]
pub extern "C" fn zaxp_session_rids(
    alloc: Global,
    handle: &mut SessionHandle,
    at: usize,
    room: &mut [SectionRid],
    needed: &mut usize,
) -> u32
    requires { IsRoomFull handle.old.inner }
    ensures same { handle.new.inner ≡ handle.old.inner }
    ensures says { OfHandle handle.old.inner (λ sdp. Says (section_list_at c_rids sdp at) (room.old, needed.old) (result, room.new, needed.new)) }
{
    list::<SectionRid>(alloc, handle, at, room, needed)
}

/// The layers that a section sends, and then those that it receives.
#[unsafe(no_mangle)]
pub extern "C" fn zaxp_session_layers(
    alloc: Global,
    handle: &mut SessionHandle,
    at: usize,
    room: &mut [SectionLayer],
    needed: &mut usize,
) -> u32
    requires { IsRoomFull handle.old.inner }
    ensures same { handle.new.inner ≡ handle.old.inner }
    ensures says { OfHandle handle.old.inner (λ sdp. Says (section_list_at c_layers sdp at) (room.old, needed.old) (result, room.new, needed.new)) }
{
    list::<SectionLayer>(alloc, handle, at, room, needed)
}

/// The sources of a section.
#[unsafe(no_mangle)]
pub extern "C" fn zaxp_session_sources(
    alloc: Global,
    handle: &mut SessionHandle,
    at: usize,
    room: &mut [SectionSource],
    needed: &mut usize,
) -> u32
    requires { IsRoomFull handle.old.inner }
    ensures same { handle.new.inner ≡ handle.old.inner }
    ensures says { OfHandle handle.old.inner (λ sdp. Says (section_list_at c_sources sdp at) (room.old, needed.old) (result, room.new, needed.new)) }
{
    list::<SectionSource>(alloc, handle, at, room, needed)
}

/// The sources that a section groups, each with the number of its group.
#[unsafe(no_mangle)]
pub extern "C" fn zaxp_session_source_groups(
    alloc: Global,
    handle: &mut SessionHandle,
    at: usize,
    room: &mut [SourceInGroup],
    needed: &mut usize,
) -> u32
    requires { IsRoomFull handle.old.inner }
    ensures same { handle.new.inner ≡ handle.old.inner }
    ensures says { OfHandle handle.old.inner (λ sdp. Says (section_list_at c_source_groups sdp at) (room.old, needed.old) (result, room.new, needed.new)) }
{
    list::<SourceInGroup>(alloc, handle, at, room, needed)
}
