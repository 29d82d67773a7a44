//! Synchronization sources.
ghost use Rattle.std.specs.Prelude.{◌≡◌, ◌<◌, ◌^◌, ℕ, Some, decimal};

use std::fmt;
use std::marker::Model;
use std::ops::Deref;

/// The number that names a source of RTP packets (RFC 3550, section 3): any number of 32 bits.
#[derive(Clone, Copy, Debug, PartialEq, Eq, PartialOrd, Ord, Hash)]
pub struct Ssrc(u32);

impl Model for Ssrc {
    ghost Value = { ℕ };

    ghost view = { λ s. s.0 };

    ghost invariant = { λ s. s.0 < 2 ^ 32 };

    ghost inverse = { λ n. record { 0 = n } };
}

impl From<u32> for Ssrc {
    ghost from_gives = { λ n s. s ≡ n };

    fn from(ssrc: u32) -> Ssrc {
        Ssrc(ssrc)
    }
}

impl Deref for Ssrc {
    type Target = u32;

    ghost deref_gives = { λ s n. n ≡ s };

    fn deref(&self) -> &u32 {
        &self.0
    }
}

impl fmt::Display for Ssrc {
    ghost output = { λ s. Some (decimal s) };

    fn fmt<W: fmt::Write>(&self, f: &mut fmt::Formatter<W>) -> fmt::Result {
        let ssrc = self.0;
        fmt::Display::fmt(&ssrc, f)
    }
}
