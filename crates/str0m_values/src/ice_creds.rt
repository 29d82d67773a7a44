//! The credentials of an ICE agent.
ghost use Rattle.std.specs.Prelude.{◌≡◌, IfOk};

use crate::text::Text;
use std::alloc::AllocError;

/// The username fragment and the password by which ICE agents know each other's checks (RFC 8839,
/// section 5.4). Any texts can be held.
#[derive(Clone, Debug, PartialEq, Eq, Drop)]
pub struct IceCreds {
    /// The username fragment, of `a=ice-ufrag`.
    pub ufrag: Text,
    /// The password, of `a=ice-pwd`.
    pub pass: Text,
}

impl IceCreds {
    /// A copy, which equals its source. The only error is that memory was refused.
    pub fn clone(&self) -> Result<IceCreds, AllocError>
        ensures { IfOk result (λ c. c ≡ self.now) }
    {
        Clone::clone(self)
    }
}
