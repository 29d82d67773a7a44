//! Clock rates.
ghost use Rattle.std.specs.Prelude.{◌≡◌, ◌<◌, ◌^◌, ◌↔◌, ◌∷◌, [], ℕ, IsSome, IfSome, Some, decimal};
ghost use Rattle.str0m_values.specs.Cuts.{IsTheOnly};
ghost use Rattle.str0m_values.specs.Frequency.{IsRate};

use crate::cuts::num_u32;
use std::fmt;
use std::marker::Model;

/// A clock rate in Hz, which is not zero and has 32 bits.
#[derive(Clone, Copy, Debug, PartialEq, Eq, PartialOrd, Ord, Hash)]
pub struct Frequency(u32);

impl Model for Frequency {
    ghost Value = { ℕ };

    ghost view = { λ f. f.0 };

    ghost invariant = { λ f. (0 < f.0) × (f.0 < 2 ^ 32) };

    ghost inverse = { λ n. record { 0 = n } };
}

impl Frequency {
    /// 8000 Hz.
    pub const EIGHT_KHZ: Frequency = Frequency(8_000);

    /// 16000 Hz.
    pub const SIXTEEN_KHZ: Frequency = Frequency(16_000);

    /// 48000 Hz.
    pub const FORTY_EIGHT_KHZ: Frequency = Frequency(48_000);

    /// 90000 Hz.
    pub const NINETY_KHZ: Frequency = Frequency(90_000);

    /// The rates that have names, ascending.
    pub fn named() -> [Frequency; 4]
        ensures { result ≡ 8000 ∷ 16000 ∷ 48000 ∷ 90000 ∷ [] }
    {
        [
            Frequency::EIGHT_KHZ,
            Frequency::SIXTEEN_KHZ,
            Frequency::FORTY_EIGHT_KHZ,
            Frequency::NINETY_KHZ,
        ]
    }

    /// The rate of so many Hz; `None` for zero.
    pub fn new(hertz: u32) -> Option<Frequency>
        ensures rate { IfSome result (λ f. f ≡ hertz) }
        ensures positive { IsSome result ↔ (0 < hertz) }
    {
        if hertz == 0 {
            return None;
        }
        Some(Frequency(hertz))
    }

    /// The rate that a text names: a decimal number of 32 bits as std reads it, so a leading plus
    /// and leading zeros are allowed. `None` for any other text, and for zero.
    pub fn from_str(text: &str) -> Option<Frequency>
        ensures { IsTheOnly (IsRate text.now) result }
    {
        Frequency::new(num_u32(text)?)
    }

    /// The rate in Hz.
    pub fn get(self) -> u32
        ensures value { result ≡ self }
        ensures positive { 0 < result }
    {
        self.0
    }
}

impl fmt::Display for Frequency {
    ghost output = { λ f. Some (decimal f) };

    fn fmt<W: fmt::Write>(&self, f: &mut fmt::Formatter<W>) -> fmt::Result {
        let hertz = self.0;
        write!(f, "{hertz}")
    }
}
