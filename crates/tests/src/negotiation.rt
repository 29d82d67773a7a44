//! Rounds with whole texts, one and another after it. Expected values were worked out by hand from the rules of
//! docs/SECTIONS.md and docs/ROUNDS.md.

use crate::rows::{is_row_of_opus_at_109, locked_row_count};
use crate::texts::{CALL_TEXT, OFFER_TEXT, OPUS_TEXT, description_of_text, prints_text};
use exchange::negotiated_names;
use std::alloc::{AllocError, Global};
use std::test::Fail;
use str0m_signal::{
    CodecConfig, MediaKind, Mid, PayloadParams, SdpError, locked_rows, negotiate_text,
};
use uses::{agreed_codecs, negotiate_again};

fn are_negotiated_rows_plain(rows: &[PayloadParams]) -> bool {
    rows.iter().all(|row| row.is_plain())
}

/// How many rounds the text of Opus has, how many rows they lock, and whether they leave all rows plain.
fn opus_negotiated(alloc: Global) -> Result<(usize, usize, bool), SdpError> {
    let mut config = CodecConfig::new_with_defaults(alloc)?;
    let outcomes = negotiate_text(&mut config, OPUS_TEXT)?;
    let rows = config.params();
    Ok((
        outcomes.len(),
        locked_row_count(rows),
        are_negotiated_rows_plain(rows),
    ))
}

/// How many rounds the text of a call has.
fn negotiated_rounds_of_call(alloc: Global) -> Result<usize, SdpError> {
    let mut config = CodecConfig::new_with_defaults(alloc)?;
    let outcomes = negotiate_text(&mut config, CALL_TEXT)?;
    Ok(outcomes.len())
}

fn are_negotiated_audio_and_video(names: &[Option<Mid>]) -> bool {
    match names {
        [Some(audio), Some(video)] => audio.as_str() == "audio" && video.as_str() == "video",
        _ => false,
    }
}

/// Whether each outcome of the call has the name of its section.
fn are_negotiated_outcomes_named(alloc: Global) -> Result<bool, SdpError> {
    let call = description_of_text(alloc, CALL_TEXT)?;
    let names = negotiated_names(alloc, &call)?;
    Ok(
        are_negotiated_audio_and_video(names.as_slice())
            && names.len() == negotiated_rounds_of_call(alloc)?,
    )
}

/// Whether the codec of both sides is agreed on, and no other.
fn is_codec_negotiated(alloc: Global) -> Result<bool, SdpError> {
    let audio = agreed_codecs(alloc, OFFER_TEXT, MediaKind::Audio)?;
    let video = agreed_codecs(alloc, OFFER_TEXT, MediaKind::Video)?;
    Ok(is_row_of_opus_at_109(audio.as_slice()) && video.is_empty())
}

#[test]
fn a_text_is_a_round_for_each_section(rt: HostRuntime) -> Result<(), Fail> {
    assert_eq!(rt; opus_negotiated(rt.alloc())?, (1, 1, true));
    assert!(rt; are_negotiated_outcomes_named(rt.alloc())?);
    assert!(rt; is_codec_negotiated(rt.alloc())?);
    Ok(())
}

/// Opus comes under type 120 now, and VP8 under that of Opus.
const LATER_NEGOTIATION: &str =
    "v=0\r\no=- 7 3 IN IP4 0.0.0.0\r\ns=-\r\nt=0 0\r\nm=audio 9 UDP/TLS/RTP/SAVPF 120\r\na=mid:0\r\na=sendrecv\r\na=rtpmap:120 opus/48000/2\r\na=fmtp:120 minptime=10;useinbandfec=1\r\nm=video 9 UDP/TLS/RTP/SAVPF 109\r\na=mid:1\r\na=sendrecv\r\na=rtpmap:109 VP8/90000\r\n";

/// The default rows, after a round with the offer.
fn negotiated(alloc: Global) -> Result<CodecConfig, Fail> {
    let mut config = CodecConfig::new_with_defaults(alloc)?;
    negotiate_again(&mut config, OFFER_TEXT)?;
    Ok(config)
}

/// Whether negotiating with the later offer is refused so.
fn is_later_negotiation_refused(
    alloc: Global,
    config: &mut CodecConfig,
    cause: &str,
) -> Result<bool, AllocError> {
    match &negotiate_again(config, LATER_NEGOTIATION) {
        Ok(()) => Ok(false),
        Err(error) => prints_text(alloc, error, cause),
    }
}

#[test]
fn a_locked_type_is_not_given_to_another_codec(rt: HostRuntime) -> Result<(), Fail> {
    let mut config = negotiated(rt.alloc())?;
    let cause = "round refused: payload type 109 is claimed twice";
    assert!(rt; is_later_negotiation_refused(rt.alloc(), &mut config, cause)?);
    let rows = locked_rows(&config, MediaKind::Audio)?;
    assert!(rt; is_row_of_opus_at_109(rows.as_slice()), "{rows:?}");
    Ok(())
}
