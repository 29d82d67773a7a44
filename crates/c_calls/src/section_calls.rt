//! Calls of sections.

ghost use Rattle.c_calls.specs.Common.{OfHandle};
ghost use Rattle.c_calls.specs.Prelude.{IsRoomFull, Writable};
ghost use Rattle.c_calls.specs.Said.{SaysOne};
ghost use Rattle.c_calls.specs.SectionCalls.{section_at};
ghost use Rattle.c_calls.specs.Told.{done, no_memory, no_section};
ghost use Rattle.std.specs.Prelude.{◌≡◌, ◌≢◌, ◌↔◌, ◌⊎◌, IfOk, IsTrue, None, slice_get};

use crate::said::{DONE, NO_MEMORY, NO_SECTION};
use c_parts::section::{Section, section_info};
use c_parts::session_handle::SessionHandle;
use std::alloc::Global;
use str0m_signal::{Sdp, is_writable};

fn give_section(sdp: &Sdp, at: usize, info: &mut Section) -> u32
    ensures { SaysOne (section_at sdp.now at) info.old (result, info.new) }
{
    match sdp.media_lines.get(at) {
        Some(section) => {
            *info = section_info(section);
            DONE
        }
        None => NO_SECTION,
    }
}

/// What a section is, in numbers.
#[unsafe(no_mangle)]
pub extern "C" fn zaxp_session_section(
    alloc: Global,
    handle: &mut SessionHandle,
    at: usize,
    info: &mut Section,
) -> u32
    requires { IsRoomFull handle.old.inner }
    ensures same { handle.new.inner ≡ handle.old.inner }
    ensures given { OfHandle handle.old.inner (λ sdp. SaysOne (section_at sdp at) info.old (result, info.new)) }
{
    let sdp = handle.take(alloc);
    let code = give_section(&sdp, at, info);
    handle.put(sdp);
    code
}

fn test_section(sdp: &Sdp, at: usize, writable: &mut bool) -> u32
    ensures statuses { (result ≡ done) ⊎ (result ≡ no_memory) ⊎ (result ≡ no_section) }
    ensures tested { result ≡ done → IsTrue writable.new ↔ Writable sdp.now at }
    ensures kept { result ≢ done → writable.new ≡ writable.old }
    ensures missing { (result ≡ no_section) ↔ (slice_get sdp.now.media_lines at ≡ None) }
{
    if sdp.media_lines.get(at).is_none() {
        return NO_SECTION;
    }
    match is_writable(sdp, at) {
        Ok(answer) => {
            *writable = answer;
            DONE
        }
        Err(_) => NO_MEMORY,
    }
}

/// Whether rows may be printed in a section and are read again.
#[unsafe(no_mangle)]
pub extern "C" fn zaxp_session_is_writable(
    alloc: Global,
    handle: &mut SessionHandle,
    at: usize,
    writable: &mut bool,
) -> u32
    requires { IsRoomFull handle.old.inner }
    ensures same { handle.new.inner ≡ handle.old.inner }
    ensures statuses { (result ≡ done) ⊎ (result ≡ no_memory) ⊎ (result ≡ no_section) }
    ensures tested { result ≡ done → OfHandle handle.old.inner (λ sdp. IsTrue writable.new ↔ Writable sdp at) }
    ensures kept { result ≢ done → writable.new ≡ writable.old }
    ensures missing { OfHandle handle.old.inner (λ sdp. (result ≡ no_section) ↔ (slice_get sdp.media_lines at ≡ None)) }
{
    let sdp = handle.take(alloc);
    let code = test_section(&sdp, at, writable);
    handle.put(sdp);
    code
}
