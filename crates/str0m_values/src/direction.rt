//! The ways in which media flow.
ghost use Rattle.std.specs.Prelude.{◌≡◌, Some};
ghost use Rattle.str0m_values.specs.Direction.{AnswersDirection, direction_text, inverted_direction, receives, sends};

use crate::direction_label;
use crate::words::Worded;
use std::fmt;

/// Which ways media flow, as seen by the side whose description says it (RFC 8866, section 6.7).
#[derive(Clone, Copy, Debug, PartialEq, Eq, Hash)]
pub enum Direction {
    /// `sendrecv`: media flow both ways.
    SendRecv,
    /// `sendonly`: this side sends and doesn't receive.
    SendOnly,
    /// `recvonly`: this side receives and doesn't send.
    RecvOnly,
    /// `inactive`: no media flow.
    Inactive,
}

impl Worded for Direction {
    ghost word_of = { direction_text };

    fn word(self) -> &'static str {
        match self {
            Direction::SendRecv => direction_label::SEND_RECV,
            Direction::SendOnly => direction_label::SEND_ONLY,
            Direction::RecvOnly => direction_label::RECV_ONLY,
            Direction::Inactive => direction_label::INACTIVE,
        }
    }
}

impl Direction {
    /// Whether the side that describes itself so is ready to send.
    pub fn sends(self) -> bool
        ensures { result ≡ sends self }
    {
        matches!(self, Direction::SendRecv | Direction::SendOnly)
    }

    /// Whether the side that describes itself so is ready to receive.
    pub fn receives(self) -> bool
        ensures { result ≡ receives self }
    {
        matches!(self, Direction::SendRecv | Direction::RecvOnly)
    }

    /// The ported crate's name for `receives`.
    pub fn sdp_is_receiving(self) -> bool
        ensures { result ≡ receives self }
    {
        self.receives()
    }

    /// The same flow as the other side says it: `sendonly` for `recvonly` and the other way round; the
    /// other two directions stay (RFC 3264, section 6.1).
    pub fn invert(self) -> Direction
        ensures inverse { result ≡ inverted_direction self }

        // One side receives what the other one sends.
        ensures sending { sends result ≡ receives self }
        ensures receiving { receives result ≡ sends self }
    {
        match self {
            Direction::SendRecv => Direction::SendRecv,
            Direction::SendOnly => Direction::RecvOnly,
            Direction::RecvOnly => Direction::SendOnly,
            Direction::Inactive => Direction::Inactive,
        }
    }

    /// The direction that answers this one, which is offered, where `own` is what the answering side is
    /// ready for (RFC 3264, section 6.1): it sends exactly where the offer receives and `own` sends, and
    /// receives exactly where the offer sends and `own` receives.
    pub fn answer(self, own: Direction) -> Direction
        ensures { AnswersDirection self own result }
    {
        let sending = self.receives() && own.sends();
        let receiving = self.sends() && own.receives();
        match (sending, receiving) {
            (true, true) => Direction::SendRecv,
            (true, false) => Direction::SendOnly,
            (false, true) => Direction::RecvOnly,
            (false, false) => Direction::Inactive,
        }
    }
}

/// The word of the attribute that says it (RFC 8866, section 6.7).
impl fmt::Display for Direction {
    ghost output = { λ direction. Some (direction_text direction) };

    fn fmt<W: fmt::Write>(&self, f: &mut fmt::Formatter<W>) -> fmt::Result {
        f.write_str(self.word())
    }
}
