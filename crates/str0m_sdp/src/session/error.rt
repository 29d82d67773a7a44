//! The error of reading and of checking session descriptions.
ghost use Rattle.std.specs.Prelude.{◌≡◌};
ghost use Rattle.str0m_sdp.specs.declared.session.error.SdpError.TheVariants.{Memory};

use std::alloc::{AllocError, AllocFailed};
use std::error::Error;
use std::fmt;

/// Why a session description is refused.
#[derive(Debug, Drop)]
pub enum SdpError {
    /// A text has no reading by the grammar: what was refused, or the first fault of a section.
    ParseError(String),
    /// The session contradicts itself: the first fault that was found. Only
    /// `Sdp::assert_consistency` answers it.
    Inconsistent(String),
    /// A growth was refused.
    Memory,
}

/// A line of English without an end, where the message has none.
// Written by hand, since a derived `Display` has no contract.
impl fmt::Display for SdpError {
    ghost use Rattle.std.specs.Prelude.{Some};
    ghost use Rattle.str0m_sdp.specs.session.Error.{error_text};

    ghost output = { λ error. Some (error_text error) };

    fn fmt<W: fmt::Write>(&self, f: &mut fmt::Formatter<W>) -> fmt::Result {
        let (kind, message) = self.parts();
        write!(f, "{kind}{message}")
    }
}

impl SdpError {
    ghost use Rattle.std.specs.Prelude.{◌++◌};
    ghost use Rattle.str0m_sdp.specs.session.Error.{error_text};

    /// What kind of error it is, and the message that it holds.
    fn parts(&self) -> (&'static str, &str)
        ensures { result.0.now ++ result.1.now ≡ error_text self.now }
    {
        match self {
            SdpError::ParseError(message) => ("SDP parse: ", message.as_str()),
            SdpError::Inconsistent(message) => ("SDP inconsistent: ", message.as_str()),
            SdpError::Memory => ("SDP: out of memory", ""),
        }
    }
}

impl Error for SdpError {}

impl From<AllocError> for SdpError {
    ghost from_gives = { λ _ e. e ≡ Memory };

    fn from(_refused: AllocError) -> SdpError {
        SdpError::Memory
    }
}

impl<T: Drop> From<AllocFailed<T>> for SdpError {
    ghost from_gives = { λ _ e. e ≡ Memory };

    fn from(_refused: AllocFailed<T>) -> SdpError {
        SdpError::Memory
    }
}
