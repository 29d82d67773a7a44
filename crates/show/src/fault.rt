//! Why a run of the program fails.

ghost use Rattle.show.specs.declared.fault.Fault.TheVariants.{Refused};
ghost use Rattle.std.specs.Prelude.{◌≡◌};
ghost use Rattle.str0m_sdp.specs.declared.session.error.SdpError.TheVariants.{Memory};

use std::alloc::AllocError;
use std::fmt;
use str0m_signal::SdpError;

/// Why a run ends with status 1. It displays as the line on standard error.
#[derive(Debug, Drop)]
pub enum Fault {
    /// The text is no description, or a growth was refused.
    Refused(SdpError),
    /// The input is not UTF-8.
    NotUtf8,
    /// The input can't be read.
    Unreadable,
    /// The output can't be written.
    Unwritable,
}

impl Fault {
    /// A growth was refused.
    pub const OUT_OF_MEMORY: Fault = Fault::Refused(SdpError::Memory);
}

impl From<SdpError> for Fault {
    ghost from_gives = { λ error fault. fault ≡ Refused error };

    fn from(error: SdpError) -> Fault {
        Fault::Refused(error)
    }
}

impl From<AllocError> for Fault {
    ghost from_gives = { λ _ fault. fault ≡ Refused Memory };

    fn from(_refused: AllocError) -> Fault {
        Fault::OUT_OF_MEMORY
    }
}

impl fmt::Display for Fault {
    ghost use Rattle.show.specs.Faults.{shown_fault};
    ghost use Rattle.std.specs.Prelude.{Some};

    ghost output = { λ fault. Some (shown_fault fault) };

    fn fmt<W: fmt::Write>(&self, f: &mut fmt::Formatter<W>) -> fmt::Result {
        match self {
            Fault::Refused(refusal) => write!(f, "{refusal}"),
            Fault::NotUtf8 => f.write_str("input is not UTF-8"),
            Fault::Unreadable => f.write_str("cannot read input"),
            Fault::Unwritable => f.write_str("cannot write output"),
        }
    }
}
