//! Payload types.
ghost use Rattle.std.specs.Prelude.{◌≡◌, ◌<◌, ◌^◌, ℕ, Some, decimal};

use std::fmt;
use std::marker::Model;
use std::ops::Deref;

/// The number by which RTP packets name a payload format (RFC 3550, section 5.1).
///
/// RTP has room for 0 to 127. Any byte can be held, since m-lines and the values of `apt` may name
/// types above 127; what asks for a payload type of RTP tests that itself.
#[derive(Clone, Copy, Debug, PartialEq, Eq, PartialOrd, Ord, Hash)]
pub struct Pt(u8);

impl Model for Pt {
    ghost Value = { ℕ };

    ghost view = { λ p. p.0 };

    ghost invariant = { λ p. p.0 < 2 ^ 8 };

    ghost inverse = { λ n. record { 0 = n } };
}

impl Pt {
    /// The payload type of a number.
    pub const fn new_with_value(value: u8) -> Pt
        ensures { result ≡ value }
    {
        Pt(value)
    }

    /// The number, 0 to 255.
    pub fn value(self) -> u8
        ensures value { result ≡ self }
        ensures range { self < 2 ^ 8 }
    {
        self.0
    }
}

impl From<u8> for Pt {
    ghost from_gives = { λ n p. p ≡ n };

    fn from(value: u8) -> Pt {
        Pt::new_with_value(value)
    }
}

impl Deref for Pt {
    type Target = u8;

    ghost deref_gives = { λ p n. n ≡ p };

    fn deref(&self) -> &u8 {
        &self.0
    }
}

impl fmt::Display for Pt {
    ghost output = { λ p. Some (decimal p) };

    fn fmt<W: fmt::Write>(&self, f: &mut fmt::Formatter<W>) -> fmt::Result {
        let value = self.0;
        fmt::Display::fmt(&value, f)
    }
}
