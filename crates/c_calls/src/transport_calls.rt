//! Calls of the transport that a description speaks of.

ghost use Rattle.c_calls.specs.Common.{OfHandle};
ghost use Rattle.c_calls.specs.Prelude.{IsRoomFull, sdp_creds, sdp_setup, section_setup_number};
ghost use Rattle.c_calls.specs.Said.{Says, SaysSome};
ghost use Rattle.c_calls.specs.TransportCalls.{IsPreferredText, pwd_of, ufrag_of};
ghost use Rattle.std.specs.Prelude.{◌≡◌, IfOk, Some, string_bytes};

use crate::said::{NO_MEMORY, put_said};
use c_parts::section::section_setup_of;
use c_parts::session_handle::SessionHandle;
use std::alloc::{AllocError, Global};
use str0m_signal::Sdp;

fn put_ufrag(sdp: &Sdp, room: &mut [u8], needed: &mut usize) -> u32
    ensures { Says (Some (ufrag_of (sdp_creds sdp.now))) (room.old, needed.old) (result, room.new, needed.new) }
{
    match sdp.ice_creds() {
        Ok(Some(creds)) => put_said(creds.ufrag.as_str().as_bytes(), room, needed),
        Ok(None) => put_said(&[], room, needed),
        Err(_) => NO_MEMORY,
    }
}

/// The user fragment of ICE that the description says; nothing where it says no credentials.
#[unsafe(no_mangle)]
pub extern "C" fn zaxp_session_ice_ufrag(
    alloc: Global,
    handle: &mut SessionHandle,
    room: &mut [u8],
    needed: &mut usize,
) -> u32
    requires { IsRoomFull handle.old.inner }
    ensures same { handle.new.inner ≡ handle.old.inner }
    ensures says { OfHandle handle.old.inner (λ sdp. Says (Some (ufrag_of (sdp_creds sdp))) (room.old, needed.old) (result, room.new, needed.new)) }
{
    let sdp = handle.take(alloc);
    let code = put_ufrag(&sdp, room, needed);
    handle.put(sdp);
    code
}

fn put_pwd(sdp: &Sdp, room: &mut [u8], needed: &mut usize) -> u32
    ensures { Says (Some (pwd_of (sdp_creds sdp.now))) (room.old, needed.old) (result, room.new, needed.new) }
{
    match sdp.ice_creds() {
        Ok(Some(creds)) => put_said(creds.pass.as_str().as_bytes(), room, needed),
        Ok(None) => put_said(&[], room, needed),
        Err(_) => NO_MEMORY,
    }
}

/// The password of ICE that the description says; nothing where it says no credentials.
#[unsafe(no_mangle)]
pub extern "C" fn zaxp_session_ice_pwd(
    alloc: Global,
    handle: &mut SessionHandle,
    room: &mut [u8],
    needed: &mut usize,
) -> u32
    requires { IsRoomFull handle.old.inner }
    ensures same { handle.new.inner ≡ handle.old.inner }
    ensures says { OfHandle handle.old.inner (λ sdp. Says (Some (pwd_of (sdp_creds sdp))) (room.old, needed.old) (result, room.new, needed.new)) }
{
    let sdp = handle.take(alloc);
    let code = put_pwd(&sdp, room, needed);
    handle.put(sdp);
    code
}

/// The text of the preferred fingerprint.
fn fingerprint_text(alloc: Global, sdp: &Sdp) -> Result<String, AllocError>
    ensures { IfOk result (λ text. IsPreferredText sdp.now (string_bytes text)) }
{
    match sdp.fingerprint()? {
        Some(found) => found.to_string(alloc),
        None => Ok(String::new(alloc)),
    }
}

fn put_fingerprint(alloc: Global, sdp: &Sdp, room: &mut [u8], needed: &mut usize) -> u32
    ensures { SaysSome (IsPreferredText sdp.now) (room.old, needed.old) (result, room.new, needed.new) }
{
    match fingerprint_text(alloc, sdp) {
        Ok(text) => put_said(text.as_bytes(), room, needed),
        Err(_) => NO_MEMORY,
    }
}

/// The preferred fingerprint that the description says; nothing where it says none.
#[unsafe(no_mangle)]
pub extern "C" fn zaxp_session_fingerprint(
    alloc: Global,
    handle: &mut SessionHandle,
    room: &mut [u8],
    needed: &mut usize,
) -> u32
    requires { IsRoomFull handle.old.inner }
    ensures same { handle.new.inner ≡ handle.old.inner }
    ensures says { OfHandle handle.old.inner (λ sdp. SaysSome (IsPreferredText sdp) (room.old, needed.old) (result, room.new, needed.new)) }
{
    let sdp = handle.take(alloc);
    let code = put_fingerprint(alloc, &sdp, room, needed);
    handle.put(sdp);
    code
}

/// The role in the DTLS handshake that the description says, as a number.
#[unsafe(no_mangle)]
pub extern "C" fn zaxp_session_setup(alloc: Global, handle: &mut SessionHandle) -> u8
    requires { IsRoomFull handle.old.inner }
    ensures same { handle.new.inner ≡ handle.old.inner }
    ensures setup { OfHandle handle.old.inner (λ sdp. result ≡ section_setup_number (sdp_setup sdp)) }
{
    let sdp = handle.take(alloc);
    let setup = section_setup_of(sdp.setup());
    handle.put(sdp);
    setup
}
