//! Calls of descriptions.

ghost use Rattle.c_calls.specs.Common.{OfHandle};
ghost use Rattle.c_calls.specs.Prelude.{DescribesSession, IsRoomFull, IsJsonText, Reading, Sdp, sdp_text, versioned_text};
ghost use Rattle.c_calls.specs.Said.{PutsText, Says, SaysSome};
ghost use Rattle.c_calls.specs.SectionCalls.{section_mid_at};
ghost use Rattle.c_calls.specs.SessionCalls.{session_mid_named, session_mid_or_empty};
ghost use Rattle.c_calls.specs.Told.{done, no_session, no_utf8};
ghost use Rattle.std.specs.Prelude.{◌≡◌, ◌≢◌, None, Some, List, ℕ, length, IsUtf8};

use crate::said::{DONE, NO_MEMORY, NO_SECTION, put_said, put_said_text, say_refusal};
use c_json::json_text;
use c_parts::reading::read;
use c_parts::session_handle::SessionHandle;
use std::alloc::Global;
use str0m_signal::{MediaLine, Mid, Sdp, VersionedSdp};

/// Reads the description that a text begins with into an empty handle.
#[unsafe(no_mangle)]
pub extern "C" fn zaxp_session_read(
    alloc: Global,
    text: &[u8],
    handle: &mut SessionHandle,
    unread: &mut usize,
    message: &mut [u8],
    message_length: &mut usize,
) -> u32
    requires { handle.old.inner ≡ None }
    ensures read { result ≡ done → (sdp : Sdp) × (rest : List ℕ) × (handle.new.inner ≡ Some sdp) × Reading text.now (sdp, rest) × (unread.new ≡ length rest) }
    ensures no_session { result ≡ no_session → (sdp : Sdp) → DescribesSession text.now sdp → ⊥ }
    ensures no_text { result ≡ no_utf8 → IsUtf8 text.now → ⊥ }
    ensures empty { result ≢ done → handle.new.inner ≡ None }
{
    *message_length = 0;
    match read(alloc, text) {
        Ok((sdp, left)) => match Box::new(alloc, sdp) {
            Ok(owned) => {
                *unread = left;
                handle.put(owned);
                DONE
            }
            Err(_) => NO_MEMORY,
        },
        Err(refusal) => say_refusal(alloc, &refusal, message, message_length),
    }
}

/// How many sections the description has.
#[unsafe(no_mangle)]
pub extern "C" fn zaxp_session_sections(alloc: Global, handle: &mut SessionHandle) -> usize
    requires { IsRoomFull handle.old.inner }
    ensures same { handle.new.inner ≡ handle.old.inner }
    ensures count { OfHandle handle.old.inner (λ sdp. result ≡ length sdp.media_lines) }
{
    let sdp = handle.take(alloc);
    let count = sdp.media_lines.len();
    handle.put(sdp);
    count
}

fn put_text(alloc: Global, sdp: &Sdp, room: &mut [u8], needed: &mut usize) -> u32
    ensures { Says (Some (sdp_text sdp.now)) (room.old, needed.old) (result, room.new, needed.new) }
{
    put_said_text(sdp.to_string(alloc), room, needed)
}

/// Prints the description into the caller's room.
#[unsafe(no_mangle)]
pub extern "C" fn zaxp_session_print(
    alloc: Global,
    handle: &mut SessionHandle,
    room: &mut [u8],
    needed: &mut usize,
) -> u32
    requires { IsRoomFull handle.old.inner }
    ensures same { handle.new.inner ≡ handle.old.inner }
    ensures says { OfHandle handle.old.inner (λ sdp. Says (Some (sdp_text sdp)) (room.old, needed.old) (result, room.new, needed.new)) }
{
    let sdp = handle.take(alloc);
    let code = put_text(alloc, &sdp, room, needed);
    handle.put(sdp);
    code
}

fn put_versioned_session(
    alloc: Global,
    sdp: &Sdp,
    version: u64,
    room: &mut [u8],
    needed: &mut usize,
) -> u32
    ensures { Says (Some (versioned_text version sdp.now)) (room.old, needed.old) (result, room.new, needed.new) }
{
    put_said_text(VersionedSdp { sdp, version }.to_string(alloc), room, needed)
}

/// Prints the description with a version in its `o=` line, as answers and offers print.
#[unsafe(no_mangle)]
pub extern "C" fn zaxp_session_print_version(
    alloc: Global,
    handle: &mut SessionHandle,
    version: u64,
    room: &mut [u8],
    needed: &mut usize,
) -> u32
    requires { IsRoomFull handle.old.inner }
    ensures same { handle.new.inner ≡ handle.old.inner }
    ensures says { OfHandle handle.old.inner (λ sdp. Says (Some (versioned_text version sdp)) (room.old, needed.old) (result, room.new, needed.new)) }
{
    let sdp = handle.take(alloc);
    let code = put_versioned_session(alloc, &sdp, version, room, needed);
    handle.put(sdp);
    code
}

fn put_session_json(alloc: Global, sdp: &Sdp, room: &mut [u8], needed: &mut usize) -> u32
    ensures { SaysSome IsJsonText (room.old, needed.old) (result, room.new, needed.new) }
{
    match json_text(alloc, sdp) {
        Ok(text) => put_said(text.as_bytes(), room, needed),
        Err(_) => NO_MEMORY,
    }
}

/// Writes the description with the rows of its sections into the caller's room, as JSON.
#[unsafe(no_mangle)]
pub extern "C" fn zaxp_session_json(
    alloc: Global,
    handle: &mut SessionHandle,
    room: &mut [u8],
    needed: &mut usize,
) -> u32
    requires { IsRoomFull handle.old.inner }
    ensures same { handle.new.inner ≡ handle.old.inner }
    ensures says { SaysSome IsJsonText (room.old, needed.old) (result, room.new, needed.new) }
{
    let sdp = handle.take(alloc);
    let code = put_session_json(alloc, &sdp, room, needed);
    handle.put(sdp);
    code
}

fn session_mid_named(section: &MediaLine) -> Option<Mid>
    ensures { result ≡ session_mid_named section.now }
{
    if section.has_mid() {
        Some(section.mid())
    } else {
        None
    }
}

fn put_session_mid(section: &MediaLine, room: &mut [u8], needed: &mut usize) -> u32
    ensures { PutsText (Some (session_mid_or_empty section.now)) (room.old, needed.old) (result, room.new, needed.new) }
{
    match session_mid_named(section) {
        Some(mid) => put_said(mid.as_str().as_bytes(), room, needed),
        None => put_said(&[], room, needed),
    }
}

fn put_session_mid_at(sdp: &Sdp, at: usize, room: &mut [u8], needed: &mut usize) -> u32
    ensures { PutsText (section_mid_at sdp.now at) (room.old, needed.old) (result, room.new, needed.new) }
{
    match sdp.media_lines.get(at) {
        Some(section) => put_session_mid(section, room, needed),
        None => NO_SECTION,
    }
}

/// The mid of a section; nothing where it has none.
#[unsafe(no_mangle)]
pub extern "C" fn zaxp_session_mid(
    alloc: Global,
    handle: &mut SessionHandle,
    at: usize,
    room: &mut [u8],
    needed: &mut usize,
) -> u32
    requires { IsRoomFull handle.old.inner }
    ensures same { handle.new.inner ≡ handle.old.inner }
    ensures says { OfHandle handle.old.inner (λ sdp. PutsText (section_mid_at sdp at) (room.old, needed.old) (result, room.new, needed.new)) }
{
    let sdp = handle.take(alloc);
    let code = put_session_mid_at(&sdp, at, room, needed);
    handle.put(sdp);
    code
}

/// Frees the description; the handle is empty then.
#[unsafe(no_mangle)]
pub extern "C" fn zaxp_session_free(alloc: Global, handle: &mut SessionHandle)
    requires { IsRoomFull handle.old.inner }
    ensures { handle.new.inner ≡ None }
{
    drop(handle.take(alloc));
}
