//! Whether a description restarts ICE.

ghost use Rattle.exchange.specs.section.Restart.{IsIceRestart, IsRestartedAt};
ghost use Rattle.std.specs.Prelude.{◌≡◌, ◌↔◌, IfOk, IsTrue};

use crate::answer::in_force::creds_at;
use std::alloc::AllocError;
use str0m_signal::{IceCreds, Sdp};

#[tactic(auto, using(crate::proofs::state::ReadBackEqual::read_back_creds_Decides))]
fn are_same_restart_creds(creds: &IceCreds, other: &IceCreds) -> bool
    ensures { IsTrue result ↔ (creds.now ≡ other.now) }
{
    creds == other
}

fn is_restarted_at(before: &Sdp, now: &Sdp, at: usize) -> Result<bool, AllocError>
    ensures { IfOk result (λ answer. IsTrue answer ↔ IsRestartedAt before.now now.now at) }
{
    let old = creds_at(before, at)?;
    let new = creds_at(now, at)?;
    match (&old, &new) {
        (Some(old), Some(new)) => Ok(!are_same_restart_creds(old, new)),
        _ => Ok(false),
    }
}

/// Whether a description restarts ICE after an earlier one of the same side (RFC 8839, section
/// 4.4.3.1.1): some section that has credentials in both, at the same place, has others now, by its own
/// lines or the session's, `creds_at`. A restart changes the username fragment and the password; a
/// change of either is one. A section that has got credentials, or has lost them, restarts nothing.
/// The only error is that memory was refused.
pub fn is_ice_restart(before: &Sdp, now: &Sdp) -> Result<bool, AllocError>
    ensures exact { IfOk result (λ answer. IsTrue answer ↔ IsIceRestart before.now now.now) }
{
    for at in 0..before.media_lines.len() {
        if is_restarted_at(before, now, at)? {
            return Ok(true);
        }
    }
    Ok(false)
}
