//! What a call answers.

ghost use Rattle.c_calls.specs.Prelude.{DescribesSession, RefusesReading, Sdp};
ghost use Rattle.c_calls.specs.Said.{PutsText, Says};
ghost use Rattle.c_calls.specs.Told.{done, no_session, no_utf8};
ghost use Rattle.std.specs.Prelude.{◌≡◌, ◌≢◌, IfOk, Some, List, ℕ, string_bytes, IsUtf8};

use c_parts::reading::Refusal;
use c_parts::room::copied;
use std::alloc::{AllocError, Global};

pub(crate) const DONE: u32 = 0;

pub(crate) const NO_UTF8: u32 = 2;

pub(crate) const NO_MEMORY: u32 = 3;

pub(crate) const NO_ROOM: u32 = 4;

pub(crate) const NO_SECTION: u32 = 5;

pub(crate) const NOTHING_AGREED: u32 = 6;

pub(crate) const WRONG_ARGUMENT: u32 = 7;

/// Writes items into the caller's room where they fit, and always how many there are.
#[tactic(auto, using(crate::proofs::SaidPutting::put_fits, crate::proofs::SaidPutting::put_full))]
pub(crate) fn put_said<T: Copy>(items: &[T], room: &mut [T], needed: &mut usize) -> u32
    ensures { PutsText (Some items.now) (room.old, needed.old) (result, room.new, needed.new) }
{
    if copied(items, room, needed) {
        DONE
    } else {
        NO_ROOM
    }
}

/// Writes a text that was made, unless memory was refused for it.
pub(crate) fn put_said_text(
    made: Result<String, AllocError>,
    room: &mut [u8],
    needed: &mut usize,
) -> u32
    ensures { (text : List ℕ) → IfOk made (λ it. string_bytes it ≡ text)
        → Says (Some text) (room.old, needed.old) (result, room.new, needed.new) }
{
    match made {
        Ok(text) => put_said(text.as_bytes(), room, needed),
        Err(_) => NO_MEMORY,
    }
}

/// Puts the message of a refusal into the caller's room, where it fits, and answers its number.
pub(crate) fn say_refusal(
    alloc: Global,
    refusal: &Refusal,
    message: &mut [u8],
    message_length: &mut usize,
) -> u32
    ensures refused { result ≢ done }
    ensures no_session { (text : List ℕ) → RefusesReading refusal.now text → result ≡ no_session → (sdp : Sdp) → DescribesSession text sdp → ⊥ }
    ensures no_text { (text : List ℕ) → RefusesReading refusal.now text → result ≡ no_utf8 → IsUtf8 text → ⊥ }
{
    if let Ok(text) = refusal.message(alloc) {
        let _ = copied(text.as_bytes(), message, message_length);
    }
    refusal.code()
}
