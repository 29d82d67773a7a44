//! The call of findings.

ghost use Rattle.c_calls.specs.FindingCalls.{SaysFindings};
ghost use Rattle.c_calls.specs.Prelude.{IsJsonText};
ghost use Rattle.c_calls.specs.Said.{SaysSome};

use crate::said::{NO_MEMORY, NO_UTF8, put_said};
use c_json::findings_text;
use std::alloc::Global;
use std::str;

fn put_findings(alloc: Global, text: &str, room: &mut [u8], needed: &mut usize) -> u32
    ensures { SaysSome IsJsonText (room.old, needed.old) (result, room.new, needed.new) }
{
    match findings_text(alloc, text) {
        Ok(found) => put_said(found.as_bytes(), room, needed),
        Err(_) => NO_MEMORY,
    }
}

/// Writes what is found in a text into the caller's room, as JSON.
#[unsafe(no_mangle)]
pub extern "C" fn zaxp_findings(
    alloc: Global,
    text: &[u8],
    room: &mut [u8],
    needed: &mut usize,
) -> u32
    ensures { SaysFindings text.now (room.old, needed.old) (result, room.new, needed.new) }
{
    match str::from_utf8(text) {
        Ok(letters) => put_findings(alloc, letters, room, needed),
        Err(_) => NO_UTF8,
    }
}
