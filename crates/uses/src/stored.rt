//! A text that is checked before it is stored.

ghost use Rattle.std.specs.Prelude.{◌≡◌, ◌↔◌, IfErr, IfOk, IsTrue};
ghost use Rattle.str0m_sdp.specs.session.Session.{sdp_text};
ghost use Rattle.str0m_sdp.specs.session.SessionConsistency.{ConsistentSdp};
ghost use Rattle.str0m_signal.specs.session.Reader.{Reading};
ghost use Rattle.str0m_signal.specs.session.ReaderAnswers.{ReaderRefuses};

use std::alloc::{AllocError, Global};
use str0m_signal::{Sdp, SdpError, sdp_parser};

/// What was read of a text. It may be stored as it is where nothing is left of it, and the other two
/// hold: then nothing is lost where it is read and printed again.
#[derive(Debug, Drop)]
pub struct ReadText<'a> {
    /// The description that the text begins with.
    pub sdp: Sdp,
    /// What follows the description.
    pub rest: &'a str,
    /// Whether the description doesn't contradict itself.
    pub is_consistent: bool,
    /// Whether the description prints as this very text.
    pub is_printed_so: bool,
}

fn is_stored_consistent(sdp: &Sdp) -> Result<bool, AllocError>
    ensures { IfOk result (λ answer. IsTrue answer ↔ ConsistentSdp sdp.now) }
{
    match sdp.assert_consistency() {
        Ok(()) => Ok(true),
        Err(SdpError::Memory) => Err(AllocError),
        Err(_) => Ok(false),
    }
}

fn is_stored_printed_so(sdp: &Sdp, text: &str) -> Result<bool, AllocError>
    ensures { IfOk result (λ answer. IsTrue answer ↔ (sdp_text sdp.now ≡ text.now)) }
{
    let alloc = *sdp.media_lines.allocator();
    let printed = format!(in alloc; "{sdp}")?;
    Ok(printed.as_str() == text)
}

/// Reads a text, and says what would be lost of it.
///
/// # Errors
///
/// `ParseError` exactly where the text describes no session; `Memory` where memory was refused.
pub fn checked(alloc: Global, text: &str) -> Result<ReadText<'_>, SdpError>
    ensures read { IfOk result (λ found. Reading text.now (found.sdp, found.rest.now)) }
    ensures consistent { IfOk result (λ found. IsTrue found.is_consistent ↔ ConsistentSdp found.sdp) }
    ensures printed { IfOk result (λ found. IsTrue found.is_printed_so ↔ (sdp_text found.sdp ≡ text.now)) }
    ensures refused { IfErr result (λ error. ReaderRefuses error (Reading text.now)) }
{
    let (sdp, rest) = sdp_parser(alloc, text)?;
    let is_consistent = is_stored_consistent(&sdp)?;
    let is_printed_so = is_stored_printed_so(&sdp, text)?;
    Ok(ReadText {
        sdp,
        rest,
        is_consistent,
        is_printed_so,
    })
}
