//! What is printed and read again: whether it is the same, and what a text would lose.

use crate::texts::{
    CALL_TEXT, FOUR_SECTIONS_TEXT, OFFER_TEXT, OPUS_TEXT, OWN_OFFER_TEXT, description_of_text,
};
use exchange::is_read_back;
use std::alloc::{AllocError, Global};
use std::test::Fail;
use str0m_signal::{Sdp, SdpError, SdpOffer};
use uses::checked;

/// Whether the text is read as this offer.
fn is_read_back_as(alloc: Global, text: &str, offer: &SdpOffer) -> Result<bool, SdpError> {
    let again = SdpOffer::from_sdp_string(alloc, text)?;
    Ok(again == *offer)
}

/// Whether an offer that is printed and read is itself.
fn is_itself_read_back(alloc: Global) -> Result<bool, SdpError> {
    let offer = SdpOffer::from_sdp_string(alloc, OPUS_TEXT)?;
    let text = offer.to_sdp_string()?;
    is_read_back_as(alloc, text.as_str(), &offer)
}

/// Whether what a description prints is read back, and whether it is with a letter behind it.
fn printed_back(alloc: Global, said: &Sdp) -> Result<(bool, bool), AllocError> {
    let text = said.to_string(alloc)?;
    let longer = format!(in alloc; "{text}x")?;
    let is_back = is_read_back(alloc, said, text.as_str())?;
    Ok((is_back, is_read_back(alloc, said, longer.as_str())?))
}

#[test]
fn what_is_printed_is_read_back(rt: HostRuntime) -> Result<(), Fail> {
    assert!(rt; is_itself_read_back(rt.alloc())?);
    let call = description_of_text(rt.alloc(), CALL_TEXT)?;
    assert_eq!(rt; printed_back(rt.alloc(), &call)?, (true, false));
    for other in &["", FOUR_SECTIONS_TEXT] {
        assert!(rt; !is_read_back(rt.alloc(), &call, other)?);
    }
    Ok(())
}

/// A text, what stands behind it, whether it is consistent, and whether it is printed so. The first loses nothing and may be
/// stored; the second would lose a line; the third contradicts itself, since it has no group.
static CHECKED_READ_BACK: [(&str, &str, bool, bool); 3] = [
    (OWN_OFFER_TEXT, "", true, true),
    (OWN_OFFER_TEXT, "x=1\r\n", true, false),
    (OFFER_TEXT, "", false, true),
];

fn is_checked_read_back(
    alloc: Global,
    text: &str,
    rest: &str,
    is_consistent: bool,
    is_printed_so: bool,
) -> Result<bool, SdpError> {
    let whole = format!(in alloc; "{text}{rest}")?;
    let found = checked(alloc, whole.as_str())?;
    Ok(
        found.rest == rest
            && found.is_consistent == is_consistent
            && found.is_printed_so == is_printed_so,
    )
}

#[test]
fn what_a_text_would_lose_is_told(rt: HostRuntime) -> Result<(), Fail> {
    for (text, rest, is_consistent, is_printed_so) in &CHECKED_READ_BACK {
        let found = is_checked_read_back(rt.alloc(), text, rest, *is_consistent, *is_printed_so)?;
        assert!(rt; found, "{text}{rest}");
    }
    Ok(())
}
