//! The numbers of sessions.
ghost use Rattle.std.specs.Prelude.{◌≡◌, ◌<◌, ◌^◌, ℕ, Some, decimal};

use std::fmt;
use std::marker::Model;
use std::ops::Deref;

/// The number that an origin line gives its session (RFC 8866, section 5.2): any number of 64 bits.
#[derive(Clone, Copy, Debug, PartialEq, Eq, PartialOrd, Ord, Hash)]
pub struct SessionId(u64);

impl Model for SessionId {
    ghost Value = { ℕ };

    ghost view = { λ id. id.0 };

    ghost invariant = { λ id. id.0 < 2 ^ 64 };

    ghost inverse = { λ n. record { 0 = n } };
}

impl From<u64> for SessionId {
    ghost from_gives = { λ n id. id ≡ n };

    fn from(id: u64) -> SessionId {
        SessionId(id)
    }
}

impl Deref for SessionId {
    type Target = u64;

    ghost deref_gives = { λ id n. n ≡ id };

    fn deref(&self) -> &u64 {
        &self.0
    }
}

impl fmt::Display for SessionId {
    ghost output = { λ id. Some (decimal id) };

    fn fmt<W: fmt::Write>(&self, f: &mut fmt::Formatter<W>) -> fmt::Result {
        let id = self.0;
        write!(f, "{id}")
    }
}
