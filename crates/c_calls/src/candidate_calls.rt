//! Calls of candidates.

ghost use Rattle.c_calls.specs.Common.{OfHandle};
ghost use Rattle.c_calls.specs.Prelude.{IsRoomFull, all_candidates, distinct, same_candidate};
ghost use Rattle.c_calls.specs.Said.{Says};
ghost use Rattle.c_calls.specs.Told.{done, no_memory};
ghost use Rattle.c_calls.specs.TransportCalls.{candidate_texts, lent_candidate_text, lent_candidates};
ghost use Rattle.std.specs.Prelude.{◌≡◌, ◌≢◌, ◌⊎◌, IfOk, length, option_map, slice_get};

use crate::said::{DONE, NO_MEMORY, NO_SECTION, put_said_text};
use c_parts::session_handle::SessionHandle;
use std::alloc::{AllocError, Global};
use str0m_signal::{Candidate, Sdp};

/// The candidates of a description, each once.
fn gathered_candidates<'a>(alloc: Global, sdp: &'a Sdp) -> Result<Vec<&'a Candidate>, AllocError>
    ensures { IfOk result (λ found. lent_candidates found.items ≡ distinct same_candidate (all_candidates sdp.now)) }
{
    let mut found = Vec::new(alloc);
    for candidate in sdp.ice_candidates()? {
        found.push(candidate)?;
    }
    Ok(found)
}

fn count_candidates(alloc: Global, sdp: &Sdp, count: &mut usize) -> u32
    ensures statuses { (result ≡ done) ⊎ (result ≡ no_memory) }
    ensures counted { result ≡ done → count.new ≡ length (candidate_texts sdp.now) }
    ensures kept { result ≢ done → count.new ≡ count.old }
{
    match gathered_candidates(alloc, sdp) {
        Ok(found) => {
            *count = found.len();
            DONE
        }
        Err(_) => NO_MEMORY,
    }
}

/// How many candidates the description lists, each once.
#[unsafe(no_mangle)]
pub extern "C" fn zaxp_session_candidates(
    alloc: Global,
    handle: &mut SessionHandle,
    count: &mut usize,
) -> u32
    requires { IsRoomFull handle.old.inner }
    ensures same { handle.new.inner ≡ handle.old.inner }
    ensures statuses { (result ≡ done) ⊎ (result ≡ no_memory) }
    ensures counted { result ≡ done → OfHandle handle.old.inner (λ sdp. count.new ≡ length (candidate_texts sdp)) }
    ensures kept { result ≢ done → count.new ≡ count.old }
{
    let sdp = handle.take(alloc);
    let code = count_candidates(alloc, &sdp, count);
    handle.put(sdp);
    code
}

/// The candidate in a place among those of a description, each once.
fn candidate_at<'a>(
    alloc: Global,
    sdp: &'a Sdp,
    index: usize,
) -> Result<Option<&'a Candidate>, AllocError>
    ensures { IfOk result (λ found. option_map lent_candidate_text found ≡ slice_get (candidate_texts sdp.now) index) }
{
    let mut found = gathered_candidates(alloc, sdp)?;
    if index >= found.len() {
        return Ok(None);
    }
    Ok(Some(found.swap_remove(index)))
}

fn put_candidate_text(
    alloc: Global,
    candidate: Option<&Candidate>,
    room: &mut [u8],
    needed: &mut usize,
) -> u32
    ensures { Says (option_map lent_candidate_text candidate.entry) (room.old, needed.old) (result, room.new, needed.new) }
{
    match candidate {
        Some(candidate) => put_said_text(candidate.to_sdp_string(alloc), room, needed),
        None => NO_SECTION,
    }
}

fn put_candidate(alloc: Global, sdp: &Sdp, index: usize, room: &mut [u8], needed: &mut usize) -> u32
    ensures { Says (slice_get (candidate_texts sdp.now) index) (room.old, needed.old) (result, room.new, needed.new) }
{
    match candidate_at(alloc, sdp, index) {
        Ok(found) => put_candidate_text(alloc, found, room, needed),
        Err(_) => NO_MEMORY,
    }
}

/// The text of a candidate, without `a=` and a line's end.
#[unsafe(no_mangle)]
pub extern "C" fn zaxp_session_candidate(
    alloc: Global,
    handle: &mut SessionHandle,
    index: usize,
    room: &mut [u8],
    needed: &mut usize,
) -> u32
    requires { IsRoomFull handle.old.inner }
    ensures same { handle.new.inner ≡ handle.old.inner }
    ensures says { OfHandle handle.old.inner (λ sdp. Says (slice_get (candidate_texts sdp) index) (room.old, needed.old) (result, room.new, needed.new)) }
{
    let sdp = handle.take(alloc);
    let code = put_candidate(alloc, &sdp, index, room, needed);
    handle.put(sdp);
    code
}
