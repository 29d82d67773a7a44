//! Answers of locked rows, put into one section and into several.

use crate::texts::{OFFER_TEXT, description_of_text};
use exchange::repeated;
use std::alloc::{AllocError, Global};
use std::test::Fail;
use str0m_signal::{
    CodecConfig, MediaKind, MediaLine, MediaType, Sdp, SdpAnswer, SdpError, Text, is_writable,
    locked_rows, negotiate_text, sdp_parser, section_of,
};
use uses::answer_section;

#[test]
fn an_answer_lists_the_row_that_is_locked(rt: HostRuntime) -> Result<(), Fail> {
    let mut config = CodecConfig::new_with_defaults(rt.alloc())?;
    let (own, _) = sdp_parser(rt.alloc(), OFFER_TEXT)?;
    let answer = answer_section(&mut config, OFFER_TEXT, own, 0)?.ok_or("an answer")?;
    assert_eq!(rt; answer.as_str(), OFFER_TEXT);
    Ok(())
}

/// Audio and video, as most offers have them; this side has VP8 under another type.
const TWO_ANSWERED_SECTIONS: &str =
    "v=0\r\no=str0m-0.25.0 7 2 IN IP4 0.0.0.0\r\ns=-\r\nt=0 0\r\nm=audio 9 UDP/TLS/RTP/SAVPF 109\r\nc=IN IP4 0.0.0.0\r\na=mid:0\r\na=sendrecv\r\na=rtpmap:109 opus/48000/2\r\na=fmtp:109 minptime=10;useinbandfec=1\r\nm=video 9 UDP/TLS/RTP/SAVPF 120\r\nc=IN IP4 0.0.0.0\r\na=mid:1\r\na=sendrecv\r\na=rtpmap:120 VP8/90000\r\na=rtcp-fb:120 goog-remb\r\na=rtcp-fb:120 ccm fir\r\na=rtcp-fb:120 nack\r\na=rtcp-fb:120 nack pli\r\n";

/// Whether an offer's section is answered so where this side says the same.
fn is_answered(
    alloc: Global,
    config: &mut CodecConfig,
    offer: &str,
    at: usize,
    wanted: Option<&str>,
) -> Result<bool, SdpError> {
    let (own, _) = sdp_parser(alloc, offer)?;
    let answer = answer_section(config, offer, own, at)?;
    Ok(answer.as_deref() == wanted)
}

/// Whether a section of the first offer of all is answered so.
fn is_first_answered(
    alloc: Global,
    offer: &str,
    at: usize,
    wanted: Option<&str>,
) -> Result<bool, SdpError> {
    let mut config = CodecConfig::new_with_defaults(alloc)?;
    is_answered(alloc, &mut config, offer, at, wanted)
}

/// A section that is not there is not answered.
#[test]
fn each_section_is_answered_with_rows_of_its_kind(rt: HostRuntime) -> Result<(), Fail> {
    assert!(rt; is_first_answered(rt.alloc(), OFFER_TEXT, 1, None)?);
    let mut config = CodecConfig::new_with_defaults(rt.alloc())?;
    for at in 0_usize..2 {
        let found = is_answered(
            rt.alloc(),
            &mut config,
            TWO_ANSWERED_SECTIONS,
            at,
            Some(TWO_ANSWERED_SECTIONS),
        )?;
        assert!(rt; found, "{at}");
    }
    Ok(())
}

/// The section with the locked rows of its kind; as it is where it carries no media.
fn section_answered(config: &CodecConfig, own: &MediaLine) -> Result<MediaLine, AllocError> {
    let rows = match own.typ {
        MediaType::Audio => locked_rows(config, MediaKind::Audio)?,
        MediaType::Video => locked_rows(config, MediaKind::Video)?,
        _ => return own.clone(),
    };
    section_of(own, rows.as_slice())
}

/// Each section of `own` with the locked rows of its kind.
fn answer_all(config: &CodecConfig, own: &mut Sdp) -> Result<(), AllocError> {
    for section in own.media_lines.0.iter_mut() {
        *section = section_answered(config, section)?;
    }
    Ok(())
}

/// This side's sections before rows are put in, each with a row that goes.
const ANSWER_FRAMES: &str =
    "v=0\r\no=- 7 2 IN IP4 127.0.0.1\r\ns=-\r\nt=0 0\r\nm=audio 9 UDP/TLS/RTP/SAVPF 0\r\na=mid:0\r\na=sendrecv\r\nm=video 9 UDP/TLS/RTP/SAVPF 96\r\na=mid:1\r\na=sendrecv\r\na=rtpmap:96 VP8/90000\r\n";

/// This side's sections with the rows that are locked by the other side's.
fn both_answered(alloc: Global) -> Result<Sdp, SdpError> {
    let mut config = CodecConfig::new_with_defaults(alloc)?;
    negotiate_text(&mut config, TWO_ANSWERED_SECTIONS)?;
    let (mut own, _) = sdp_parser(alloc, ANSWER_FRAMES)?;
    answer_all(&config, &mut own)?;
    Ok(own)
}

fn is_answer_printed(own: Sdp, wanted: &str) -> Result<bool, AllocError> {
    let answer = SdpAnswer::from(own);
    let text = answer.to_sdp_string()?;
    Ok(text.as_str() == wanted)
}

#[test]
fn an_answer_of_two_sections_has_the_rows_of_both(rt: HostRuntime) -> Result<(), Fail> {
    let answer = both_answered(rt.alloc())?;
    assert!(rt; is_writable(&answer, 0)?);
    assert!(rt; is_writable(&answer, 1)?);
    assert!(rt; is_answer_printed(answer, TWO_ANSWERED_SECTIONS)?);
    Ok(())
}

/// Two header extensions, one port for RTP and RTCP, and a line that no answer repeats.
const ANSWERED_EXTENSIONS: &str =
    "v=0\r\no=- 7 2 IN IP4 127.0.0.1\r\ns=-\r\nt=0 0\r\nm=audio 9 UDP/TLS/RTP/SAVPF 0\r\na=mid:0\r\na=sendrecv\r\na=rtcp-mux\r\na=extmap:1 urn:one\r\na=extmap:2 urn:two\r\n";

/// How many lines of the first section are repeated where this extension is known; none where there is no section.
fn count_repeated_in_answer(alloc: Global, text: &str, uri: &str) -> Result<usize, SdpError> {
    let offer = description_of_text(alloc, text)?;
    let known = [Text::from_str(alloc, uri)?];
    match offer.media_lines.as_slice().first() {
        Some(section) => Ok(repeated(alloc, &known, section)?.len()),
        None => Ok(0),
    }
}

#[test]
fn an_answer_repeats_what_both_know(rt: HostRuntime) -> Result<(), Fail> {
    assert_eq!(rt;
        count_repeated_in_answer(rt.alloc(), ANSWERED_EXTENSIONS, "urn:two")?,
        2
    );
    assert_eq!(rt;
        count_repeated_in_answer(rt.alloc(), ANSWERED_EXTENSIONS, "urn:three")?,
        1
    );
    Ok(())
}
