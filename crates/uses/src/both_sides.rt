//! The codecs that both sides have.

ghost use Rattle.std.specs.Prelude.{◌≡◌, IfErr, IfOk, List};
ghost use Rattle.str0m_formats.specs.declared.row.payload_params.PayloadParams.{PayloadParams};
ghost use Rattle.str0m_formats.specs.round.RoundsRuns.{OutcomeOfRound};
ghost use Rattle.str0m_formats.specs.row.DefaultRows.{usual_rows};
ghost use Rattle.str0m_signal.specs.session.Locked.{locked_of_kind};
ghost use Rattle.str0m_signal.specs.session.Negotiation.{NegotiatedText};
ghost use Rattle.str0m_signal.specs.session.Reader.{DescribesSession};
ghost use Rattle.str0m_signal.specs.session.ReaderAnswers.{ReaderRefuses};

use std::alloc::Global;
use str0m_signal::{CodecConfig, MediaKind, PayloadParams, SdpError, locked_rows, negotiate_text};

/// Negotiates the default codecs with an offer, and returns those of a kind that both sides have.
///
/// # Errors
///
/// `ParseError` where the offer's text describes no session; `Memory` where memory was refused.
pub fn agreed_codecs(
    alloc: Global,
    offer: &str,
    kind: MediaKind,
) -> Result<Vec<PayloadParams>, SdpError>
    ensures agreed { IfOk result (λ codecs. (outcomes : List OutcomeOfRound) × (after : List PayloadParams)
        × NegotiatedText offer.now usual_rows outcomes after × (codecs.items ≡ locked_of_kind kind after)) }
    ensures refused { IfErr result (λ error. ReaderRefuses error (DescribesSession offer.now)) }
{
    let mut config = CodecConfig::new_with_defaults(alloc)?;
    negotiate_text(&mut config, offer)?;
    Ok(locked_rows(&config, kind)?)
}
