//! Rounds of negotiation over a whole text.

ghost use Rattle.std.specs.Prelude.{◌≡◌, All, IfErr, IfOk, OnErr, filter_map, map, option_map, ℕ};
ghost use Rattle.str0m_signal.specs.Prelude.{AllTypesDistinct, HasBoundedRows, IsPlain, Sdp, types};
ghost use Rattle.str0m_signal.specs.back.ReadBack.{CanRowsBeReadBack, ReadsBack};
ghost use Rattle.str0m_signal.specs.back.Writable.{Writable};
ghost use Rattle.str0m_signal.specs.back.WritableAgain.{IsWritableOverSrtp, IsRead, MayBeWrittenAgain};
ghost use Rattle.str0m_signal.specs.session.Negotiation.{Negotiated, NegotiatedText, brought_by_round, brought_by_section};
ghost use Rattle.str0m_signal.specs.session.Reader.{DescribesSession};
ghost use Rattle.str0m_signal.specs.session.ReaderAnswers.{ReaderRefuses};

use crate::session::offer::described_offer;
use std::alloc::{AllocError, Global};
use str0m_formats::{CodecConfig, NegotiationError, Round};
use str0m_sdp::{MediaLine, SdpError};

/// What an audio or video section brings to a round.
fn round_of(section: &MediaLine) -> Result<Option<Round>, AllocError>
    ensures { IfOk result (λ found. option_map brought_by_round found ≡ brought_by_section section.now) }
{
    if section.typ.is_media() {
        let remote = section.rtp_params()?;
        let direction = section.direction();
        Ok(Some(Round { remote, direction }))
    } else {
        Ok(None)
    }
}

/// The rounds of the audio and video sections, in order.
fn rounds_of(alloc: Global, sections: &[MediaLine]) -> Result<Vec<Round>, AllocError>
    ensures { IfOk result (λ rounds. map brought_by_round rounds.items ≡ filter_map brought_by_section sections.now) }
{
    let mut rounds = Vec::new(alloc);
    for section in sections {
        if let Some(round) = round_of(section)? {
            rounds.push(round)?;
        }
    }
    Ok(rounds)
}

/// Runs the rounds of the sections.
fn negotiate(
    config: &mut CodecConfig,
    sections: &[MediaLine],
) -> Result<Vec<Result<(), NegotiationError>>, AllocError>
    ensures ok { IfOk result (λ outcomes. Negotiated sections.now config.old.params.items outcomes.items config.new.params.items) }
    ensures else_same { config.new ≡ record config.old { params = config.new.params } }
    ensures err { OnErr result (config.new ≡ config.old) }
    ensures distinct { AllTypesDistinct (types config.old.params.items) → AllTypesDistinct (types config.new.params.items) }
    ensures plain { All HasBoundedRows sections.now → All IsPlain config.old.params.items → All IsPlain config.new.params.items }
    ensures printable { All HasBoundedRows sections.now → CanRowsBeReadBack config.old.params.items → CanRowsBeReadBack config.new.params.items }
{
    let rounds = rounds_of(*config.allocator(), sections)?;
    config.update_all(rounds.as_slice())
}

/// Reads a description and runs a round of negotiation for each of its audio and video sections, in
/// order, disabled ones too: against the rows that the section describes, `MediaLine::rtp_params`, and
/// its direction. Answers the outcome of each round, in order, as `CodecConfig::update_all` does: a
/// round that is refused names its cause, changes nothing, and the next one runs.
///
/// Whatever the text holds, payload types that were distinct stay distinct, and rows that were plain,
/// `PayloadParams::is_plain`, stay plain. So the rows that are left, where there is one, printed in any
/// section of audio or video that is writable (`is_writable`), are read back, in order. In a session that
/// was read of a text they are read back in each such section over Srtp, with no call of `is_writable`,
/// which says what such a session must not hold.
///
/// # Errors
///
/// `ParseError` exactly where the text describes no session, as `SdpOffer::from_sdp_string` answers
/// it; `Memory` where a growth was refused before the rounds. No round has run then, and the
/// configuration is as it was.
pub fn negotiate_text(
    config: &mut CodecConfig,
    text: &str,
) -> Result<Vec<Result<(), NegotiationError>>, SdpError>
    ensures ok { IfOk result (λ outcomes. NegotiatedText text.now config.old.params.items outcomes.items config.new.params.items) }
    ensures refused { IfErr result (λ error. ReaderRefuses error (DescribesSession text.now)) }
    ensures err { OnErr result (config.new ≡ config.old) }
    ensures else_same { config.new ≡ record config.old { params = config.new.params } }

    // Whatever is answered, payload types that were distinct are distinct, and rows that were plain are plain.
    ensures distinct { AllTypesDistinct (types config.old.params.items) → AllTypesDistinct (types config.new.params.items) }
    ensures plain { All IsPlain config.old.params.items → All IsPlain config.new.params.items }
    ensures printable { CanRowsBeReadBack config.old.params.items → CanRowsBeReadBack config.new.params.items }

    // So they are read back: the rows that are left, printed in any session that is writable, at any place.
    ensures read_back { CanRowsBeReadBack config.old.params.items → (sdp : Sdp) (i : ℕ) → Writable sdp i → ReadsBack sdp i config.new.params.items }

    // And so in every session that was read, in each section over Srtp: `is_writable` needn't be asked.
    ensures back_in_readings { CanRowsBeReadBack config.old.params.items → (sdp : Sdp) (i : ℕ) → IsRead sdp → MayBeWrittenAgain sdp
        → IsWritableOverSrtp sdp i → ReadsBack sdp i config.new.params.items }
{
    let sdp = described_offer(*config.allocator(), text)?;
    Ok(negotiate(config, sdp.media_lines.as_slice())?)
}
