//! What carries a section.
ghost use Rattle.std.specs.Prelude.{◌≡◌, Some};
ghost use Rattle.str0m_sdp.specs.attribute.Proto.{proto_text};

use crate::label::{SCTP, SRTP};
use std::fmt;

/// The transport of a section: RTP over DTLS-SRTP (RFC 5764) or SCTP over DTLS (RFC 8841).
#[derive(Clone, Copy, Debug, Default, PartialEq, Eq)]
pub enum Proto {
    /// RTP over DTLS-SRTP, with feedback: `UDP/TLS/RTP/SAVPF` (RFC 5764, section 8).
    #[default]
    Srtp,
    /// SCTP over DTLS: `UDP/DTLS/SCTP` (RFC 8841, section 4).
    Sctp,
}

impl Proto {
    /// The protocol as m-lines print it.
    pub fn proto_line(&self) -> &str
        ensures { result.now ≡ proto_text self.now }
    {
        match self {
            Proto::Srtp => SRTP,
            Proto::Sctp => SCTP,
        }
    }
}

/// The text of `proto_line`.
impl fmt::Display for Proto {
    ghost output = { λ proto. Some (proto_text proto) };

    fn fmt<W: fmt::Write>(&self, f: &mut fmt::Formatter<W>) -> fmt::Result {
        let line = self.proto_line();
        f.write_str(line)
    }
}
