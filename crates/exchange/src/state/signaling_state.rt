//! Where an exchange of offers and answers stands.
ghost use Rattle.exchange.specs.state.SignalingState.{state_text};
ghost use Rattle.std.specs.Prelude.{Some};

use std::fmt;

/// Where an exchange of offers and answers stands (RFC 8829, section 3.2).
#[derive(Clone, Copy, Debug, PartialEq, Eq)]
pub enum SignalingState {
    /// No offer is open.
    Stable,
    /// This side has made an offer that isn't answered yet.
    HaveLocalOffer,
}

/// The name of the state in RFC 8829, section 3.2.
impl fmt::Display for SignalingState {
    ghost output = { λ state. Some (state_text state) };

    fn fmt<W: fmt::Write>(&self, f: &mut fmt::Formatter<W>) -> fmt::Result {
        match self {
            SignalingState::Stable => f.write_str("stable"),
            SignalingState::HaveLocalOffer => f.write_str("have-local-offer"),
        }
    }
}
