//! Descriptions, and offers and answers (RFC 3264) of them: what they hold and print, copies and equality.

use crate::texts::{OPUS_TEXT, description_of_text};
use std::alloc::{AllocError, Global};
use std::test::Fail;
use str0m_signal::{
    Items, MediaAttribute, MediaLine, Sdp, SdpAnswer, SdpError, SdpOffer, Session, Setup,
};

/// A header with nothing that may be left out.
const BARE_DESCRIPTION: &str = "v=0\r\no=- 1 1 IN IP4 127.0.0.1\r\ns=-\r\nt=0 0\r\n";

/// Opus' text, a line that fits nowhere, and the text again.
fn described_twice(alloc: Global) -> Result<String, AllocError> {
    format!(in alloc; "{OPUS_TEXT}x\r\n{OPUS_TEXT}")
}

/// Whether the offer holds this description, and equals the one that is made of it.
fn is_description_of_offer(offer: &SdpOffer, sdp: Sdp) -> bool {
    let is_held = **offer == sdp;
    let made = SdpOffer::from(sdp);
    is_held && *offer == made
}

/// Whether an offer holds what is read of its text.
fn is_offer_description_read(alloc: Global, text: &str) -> Result<bool, SdpError> {
    let offer = SdpOffer::from_sdp_string(alloc, text)?;
    Ok(is_description_of_offer(&offer, description_of_text(alloc, text)?))
}

/// Whether the answer holds this description, and equals the one that is made of it.
fn is_description_of_answer(answer: &SdpAnswer, sdp: Sdp) -> bool {
    let is_held = **answer == sdp;
    let made = SdpAnswer::from(sdp);
    is_held && *answer == made
}

/// Whether an answer holds what is read of its text.
fn is_answer_description_read(alloc: Global, text: &str) -> Result<bool, SdpError> {
    let answer = SdpAnswer::from_sdp_string(alloc, text)?;
    Ok(is_description_of_answer(&answer, description_of_text(alloc, text)?))
}

/// Whether an offer and an answer hold what is read of their text.
fn are_both_descriptions_read(alloc: Global) -> Result<bool, SdpError> {
    let text = described_twice(alloc)?;
    Ok(
        is_offer_description_read(alloc, text.as_str())?
            && is_answer_description_read(alloc, text.as_str())?,
    )
}

/// What the offer prints; `None` where Display prints something else.
fn printed_offer_description(
    alloc: Global,
    offer: &SdpOffer,
) -> Result<Option<String>, AllocError> {
    let (text, shown) = (offer.to_sdp_string()?, offer.to_string(alloc)?);
    Ok((shown.as_str() == text.as_str()).then_some(text))
}

/// What the answer prints; `None` where Display prints something else.
fn printed_answer_description(
    alloc: Global,
    answer: &SdpAnswer,
) -> Result<Option<String>, AllocError> {
    let (text, shown) = (answer.to_sdp_string()?, answer.to_string(alloc)?);
    Ok((shown.as_str() == text.as_str()).then_some(text))
}

fn opus_offer_description(alloc: Global) -> Result<Option<String>, SdpError> {
    let offer = SdpOffer::from_sdp_string(alloc, OPUS_TEXT)?;
    Ok(printed_offer_description(alloc, &offer)?)
}

fn opus_answer_description(alloc: Global) -> Result<Option<String>, SdpError> {
    let answer = SdpAnswer::from_sdp_string(alloc, OPUS_TEXT)?;
    Ok(printed_answer_description(alloc, &answer)?)
}

/// Whether an offer and an answer of one text print the same.
fn are_descriptions_shown_alike(alloc: Global) -> Result<bool, SdpError> {
    let offer = opus_offer_description(alloc)?;
    let answer = opus_answer_description(alloc)?;
    Ok(offer.is_some() && answer.as_deref() == offer.as_deref())
}

/// Display prints what `to_sdp_string` answers.
#[test]
fn offers_and_answers_hold_and_print_what_was_read(rt: HostRuntime) -> Result<(), Fail> {
    assert!(rt; are_both_descriptions_read(rt.alloc())?);
    assert!(rt; are_descriptions_shown_alike(rt.alloc())?);
    Ok(())
}

fn is_description_copied(sdp: &Sdp) -> Result<bool, AllocError> {
    let copy = sdp.clone()?;
    Ok(copy == *sdp)
}

fn is_described_session_copied(session: &Session) -> Result<bool, AllocError> {
    let copy = session.clone()?;
    Ok(copy == *session)
}

fn are_described_sections_copied(sections: &Items<MediaLine>) -> Result<bool, AllocError> {
    let copy = sections.clone()?;
    Ok(copy == *sections)
}

/// Whether copies of the whole, of its session and of its sections equal these.
fn are_description_parts_copied(sdp: &Sdp) -> Result<bool, AllocError> {
    let (whole, session) = (
        is_description_copied(sdp)?,
        is_described_session_copied(&sdp.session)?,
    );
    Ok(whole && session && are_described_sections_copied(&sdp.media_lines)?)
}

/// Whether the text is read as another description.
fn is_another_description(alloc: Global, text: &str, sdp: &Sdp) -> Result<bool, SdpError> {
    let other = description_of_text(alloc, text)?;
    Ok(other != *sdp)
}

/// Adds an attribute to the first section.
fn add_active_to_description(sections: &mut [MediaLine]) -> Result<(), AllocError> {
    match sections.first_mut() {
        Some(section) => section.attrs.push(MediaAttribute::Setup(Setup::Active)),
        None => Ok(()),
    }
}

/// Whether the description differs from one that says more of its first section.
fn differs_from_fuller_description(sdp: &Sdp) -> Result<bool, AllocError> {
    let mut other = sdp.clone()?;
    add_active_to_description(other.media_lines.0.as_mut_slice())?;
    Ok(other != *sdp)
}

/// A copy equals its source, and each part of a description tells it from another.
#[test]
fn descriptions_differ_by_their_parts(rt: HostRuntime) -> Result<(), Fail> {
    let sdp = description_of_text(rt.alloc(), OPUS_TEXT)?;
    assert!(rt; are_description_parts_copied(&sdp)?);
    assert!(rt; is_another_description(rt.alloc(), BARE_DESCRIPTION, &sdp)?);
    assert!(rt; differs_from_fuller_description(&sdp)?);
    Ok(())
}
