//! Offers and answers: the description that one side proposes, and the one that settles it
//! (RFC 3264).

ghost use Rattle.std.specs.Prelude.{◌≡◌, All, IfOk, Some, string_bytes};
ghost use Rattle.str0m_signal.specs.Prelude.{HasBoundedRows, sdp_text};
ghost use Rattle.str0m_signal.specs.session.Reader.{DescribesSession};
ghost use Rattle.str0m_signal.specs.session.ReaderAnswers.{Answers, AtMostOneAnswer};

use crate::line::lines::BYTES_OF_A_LINE;
use crate::session::reader::sdp_parser;
use std::alloc::{AllocError, Global};
use std::fmt;
use std::marker::Model;
use std::ops::Deref;
use str0m_sdp::{Sdp, SdpError};

/// A description that one side proposes.
#[derive(Debug, PartialEq, Eq, Drop)]
pub struct SdpOffer(Sdp);

/// A description that answers an offer.
#[derive(Debug, PartialEq, Eq, Drop)]
pub struct SdpAnswer(Sdp);

/// The description that a text begins with; what follows it is dropped.
pub(crate) fn described_offer(alloc: Global, text: &str) -> Result<Sdp, SdpError>
    ensures read { Answers (λ sdp. sdp) result (DescribesSession text.now) }
    ensures one { AtMostOneAnswer (DescribesSession text.now) }
    ensures bounded { IfOk result (λ sdp. All HasBoundedRows sdp.media_lines) }
{
    match sdp_parser(alloc, text) {
        Ok((sdp, _)) => Ok(sdp),
        Err(error) => Err(error),
    }
}

/// How many bytes the description takes where it is printed, as a guess: no answer depends on it.
fn likely_length(sdp: &Sdp) -> usize {
    let mut lines = sdp.session.attrs.as_slice().len().saturating_add(8);
    for section in sdp.media_lines.as_slice() {
        let more = section.attrs.as_slice().len().saturating_add(4);
        lines = lines.saturating_add(more);
    }
    lines.saturating_mul(BYTES_OF_A_LINE)
}

/// The printed description.
fn printed_offer(sdp: &Sdp) -> Result<String, AllocError>
    ensures { IfOk result (λ text. string_bytes text ≡ sdp_text sdp.now) }
{
    let alloc = *sdp.media_lines.allocator();
    let mut text = String::with_capacity(alloc, likely_length(sdp))?;
    write!(text, "{sdp}")?;
    Ok(text)
}

impl Model for SdpOffer {
    ghost use Rattle.str0m_signal.specs.Prelude.{Sdp};

    ghost Value = { Sdp };

    ghost view = { λ offer. offer.0 };

    ghost inverse = { λ sdp. record { 0 = sdp } };
}

impl SdpOffer {
    /// Reads the description that a text begins with. What follows the first line that fits
    /// nowhere is dropped.
    ///
    /// # Errors
    ///
    /// `ParseError` exactly where a header line is missing or wrong, or where a section that is
    /// reached isn't consistent; `Memory` where a growth was refused.
    pub fn from_sdp_string(alloc: Global, text: &str) -> Result<SdpOffer, SdpError>
        ensures read { Answers (λ offer. offer) result (DescribesSession text.now) }
        ensures one { AtMostOneAnswer (DescribesSession text.now) }

        // The rows of its sections have types of seven bits, and modes and distances in their ranges.
        ensures bounded { IfOk result (λ offer. All HasBoundedRows offer.media_lines) }
    {
        match described_offer(alloc, text) {
            Ok(sdp) => Ok(SdpOffer(sdp)),
            Err(error) => Err(error),
        }
    }

    /// The description as a text, each line ended by CR LF. The only error is that memory was refused.
    pub fn to_sdp_string(&self) -> Result<String, AllocError>
        ensures { IfOk result (λ text. string_bytes text ≡ sdp_text self.now) }
    {
        printed_offer(&self.0)
    }
}

impl From<Sdp> for SdpOffer {
    ghost from_gives = { λ sdp offer. offer ≡ sdp };

    fn from(sdp: Sdp) -> SdpOffer {
        SdpOffer(sdp)
    }
}

impl Deref for SdpOffer {
    type Target = Sdp;

    ghost deref_gives = { λ offer sdp. sdp ≡ offer };

    fn deref(&self) -> &Sdp {
        &self.0
    }
}

impl fmt::Display for SdpOffer {
    ghost output = { λ offer. Some (sdp_text offer) };

    fn fmt<W: fmt::Write>(&self, f: &mut fmt::Formatter<W>) -> fmt::Result {
        let SdpOffer(sdp) = self;
        write!(f, "{sdp}")
    }
}

impl Model for SdpAnswer {
    ghost use Rattle.str0m_signal.specs.Prelude.{Sdp};

    ghost Value = { Sdp };

    ghost view = { λ answer. answer.0 };

    ghost inverse = { λ sdp. record { 0 = sdp } };
}

impl SdpAnswer {
    /// Reads the description that a text begins with. What follows the first line that fits
    /// nowhere is dropped.
    ///
    /// # Errors
    ///
    /// `ParseError` exactly where a header line is missing or wrong, or where a section that is
    /// reached isn't consistent; `Memory` where a growth was refused.
    pub fn from_sdp_string(alloc: Global, text: &str) -> Result<SdpAnswer, SdpError>
        ensures read { Answers (λ answer. answer) result (DescribesSession text.now) }
        ensures one { AtMostOneAnswer (DescribesSession text.now) }

        // The rows of its sections have types of seven bits, and modes and distances in their ranges.
        ensures bounded { IfOk result (λ answer. All HasBoundedRows answer.media_lines) }
    {
        match described_offer(alloc, text) {
            Ok(sdp) => Ok(SdpAnswer(sdp)),
            Err(error) => Err(error),
        }
    }

    /// The description as a text, each line ended by CR LF. The only error is that memory was refused.
    pub fn to_sdp_string(&self) -> Result<String, AllocError>
        ensures { IfOk result (λ text. string_bytes text ≡ sdp_text self.now) }
    {
        printed_offer(&self.0)
    }
}

impl From<Sdp> for SdpAnswer {
    ghost from_gives = { λ sdp answer. answer ≡ sdp };

    fn from(sdp: Sdp) -> SdpAnswer {
        SdpAnswer(sdp)
    }
}

impl Deref for SdpAnswer {
    type Target = Sdp;

    ghost deref_gives = { λ answer sdp. sdp ≡ answer };

    fn deref(&self) -> &Sdp {
        &self.0
    }
}

impl fmt::Display for SdpAnswer {
    ghost output = { λ answer. Some (sdp_text answer) };

    fn fmt<W: fmt::Write>(&self, f: &mut fmt::Formatter<W>) -> fmt::Result {
        let SdpAnswer(sdp) = self;
        write!(f, "{sdp}")
    }
}
