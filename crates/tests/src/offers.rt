//! Offers: the rows that a section of one offers, and one that is made of values.

use crate::rows::is_row_of_opus_at_109;
use crate::texts::{OFFER_TEXT, OWN_OFFER_TEXT};
use std::alloc::{AllocError, Global};
use std::test::Fail;
use str0m_signal::{CodecConfig, Fingerprint, IceCreds, Mid, PayloadParams, Sdp, SdpError, Text};
use uses::{offered_rows, own_frame, own_offer, own_sdp};

/// A section of an offer, and whether its row is that of Opus; none where there is no such section.
static OFFERED: [(usize, Option<bool>); 2] = [(0, Some(true)), (1, None)];

fn is_opus_offered(found: &Option<Vec<PayloadParams>>) -> Option<bool> {
    match found {
        Some(rows) => Some(is_row_of_opus_at_109(rows.as_slice())),
        None => None,
    }
}

/// How many sections the offer has, and whether the row of one is that of Opus.
fn offered(alloc: Global, at: usize) -> Result<(usize, Option<bool>), SdpError> {
    let (offer, found) = offered_rows(alloc, OFFER_TEXT, at)?;
    Ok((offer.media_lines.len(), is_opus_offered(&found)))
}

fn offer_credentials(alloc: Global) -> Result<IceCreds, AllocError> {
    Ok(IceCreds {
        ufrag: Text::from_str(alloc, "abcd")?,
        pass: Text::from_str(alloc, "0123456789abcdef012345")?,
    })
}

/// This side's description: one section, without rows yet.
fn described_for_offer(alloc: Global) -> Result<Sdp, Fail> {
    let mid = Mid::from("0");
    let fingerprint = Fingerprint::from_str(alloc, "sha-256 AB:CD")?;
    let frame = own_frame(alloc, mid, offer_credentials(alloc)?, fingerprint)?;
    Ok(own_sdp(alloc, 7, mid, frame)?)
}

/// Whether an offer is made of values.
fn is_own_offer(alloc: Global) -> Result<bool, Fail> {
    let mut config = CodecConfig::empty(alloc);
    config.enable_opus(true, false)?;
    let offer = own_offer(&config, described_for_offer(alloc)?, 0)?;
    Ok(offer.as_deref() == Some(OWN_OFFER_TEXT))
}

#[test]
fn an_offer_holds_the_rows_of_its_section(rt: HostRuntime) -> Result<(), Fail> {
    for (at, rows) in &OFFERED {
        assert_eq!(rt; offered(rt.alloc(), *at)?, (1, *rows), "{at}");
    }
    assert!(rt; is_own_offer(rt.alloc())?);
    Ok(())
}
