//! What an offer holds.

ghost use Rattle.std.specs.Prelude.{◌≡◌, IfErr, IfOk, MatchOption, None, Some, slice_get};
ghost use Rattle.str0m_sdp.specs.declared.section.media_line.MediaLine.{MediaLine};
ghost use Rattle.str0m_sdp.specs.section.SectionRows.{rows};
ghost use Rattle.str0m_signal.specs.session.Reader.{DescribesSession};
ghost use Rattle.str0m_signal.specs.session.ReaderAnswers.{ReaderRefuses};

use std::alloc::{AllocError, Global};
use str0m_signal::{PayloadParams, Sdp, SdpError, SdpOffer};

/// The rows of the section at `at`, where there is one.
fn offered_rows_at(sdp: &Sdp, at: usize) -> Result<Option<Vec<PayloadParams>>, AllocError>
    ensures { IfOk result (λ found. MatchOption found
        (slice_get sdp.now.media_lines at ≡ None)
        (λ theirs. (section : MediaLine) × (slice_get sdp.now.media_lines at ≡ Some section) × (theirs.items ≡ rows section))) }
{
    match sdp.media_lines.get(at) {
        Some(section) => Ok(Some(section.rtp_params()?)),
        None => Ok(None),
    }
}

/// The description that an offer begins with, and the rows that its section at `at` describes, counted
/// from 0; `None` where it has no such section.
///
/// # Errors
///
/// `ParseError` exactly where the text describes no session; `Memory` where memory was refused.
pub fn offered_rows(
    alloc: Global,
    text: &str,
    at: usize,
) -> Result<(SdpOffer, Option<Vec<PayloadParams>>), SdpError>
    ensures described { IfOk result (λ offered. DescribesSession text.now offered.0) }
    ensures rows { IfOk result (λ offered. MatchOption offered.1
        (slice_get offered.0.media_lines at ≡ None)
        (λ theirs. (section : MediaLine) × (slice_get offered.0.media_lines at ≡ Some section) × (theirs.items ≡ rows section))) }
    ensures refused { IfErr result (λ error. ReaderRefuses error (DescribesSession text.now)) }
{
    let offer = SdpOffer::from_sdp_string(alloc, text)?;
    let rows = offered_rows_at(&offer, at)?;
    Ok((offer, rows))
}
