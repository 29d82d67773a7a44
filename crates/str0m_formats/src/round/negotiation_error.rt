//! Why a round of negotiation is refused.
ghost use Rattle.std.specs.Prelude.{◌≡◌};
ghost use Rattle.str0m_formats.specs.declared.round.negotiation_error.NegotiationError.TheVariants.{Memory};

use std::alloc::AllocError;
use std::error::Error;
use std::fmt;
use str0m_values::Pt;

/// Why a round was refused. The configuration is then as it was.
#[derive(Clone, Copy, Debug, PartialEq, Eq)]
pub enum NegotiationError {
    /// A payload type of either side is above 127.
    TypeTooLarge(Pt),
    /// Two roles would need one payload type.
    ClaimedTwice(Pt),
    /// None of the types that a round may give is free.
    Exhausted,
    /// There was no room for the rows of the round.
    Memory,
}

/// A line of English without an end, which names the payload type where there is one.
// Written by hand, since a derived `Display` has no contract.
impl fmt::Display for NegotiationError {
    ghost use Rattle.std.specs.Prelude.{Some};
    ghost use Rattle.str0m_formats.specs.round.NegotiationError.{negotiation_cause_text};

    ghost output = { λ cause. Some (negotiation_cause_text cause) };

    fn fmt<W: fmt::Write>(&self, f: &mut fmt::Formatter<W>) -> fmt::Result {
        match self {
            NegotiationError::TypeTooLarge(pt) => write!(f, "payload type {pt} is above 127"),
            NegotiationError::ClaimedTwice(pt) => write!(f, "payload type {pt} is claimed twice"),
            NegotiationError::Exhausted => f.write_str("payload type ranges exhausted"),
            NegotiationError::Memory => f.write_str("out of memory"),
        }
    }
}

impl Error for NegotiationError {}

impl From<AllocError> for NegotiationError {
    ghost from_gives = { λ _ e. e ≡ Memory };

    fn from(_refused: AllocError) -> NegotiationError {
        NegotiationError::Memory
    }
}
