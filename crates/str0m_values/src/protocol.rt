//! The transports that carry a candidate.
ghost use Rattle.std.specs.Prelude.{◌≡◌, Some};
ghost use Rattle.str0m_values.specs.CandidateReading.{candidate_protocol_read, tcp_type_read};
ghost use Rattle.str0m_values.specs.Protocol.{protocol_text, tcp_type_text};

use crate::words::{Worded, case_alike};
use std::fmt;

/// The transport of a candidate (RFC 8839, section 5.1; RFC 6544, section 4.5).
#[derive(Clone, Copy, Debug, PartialEq, Eq, Hash)]
pub enum Protocol {
    /// UDP.
    Udp,
    /// TCP (RFC 6544).
    Tcp,
    /// TCP that begins with an SSL handshake, which gets it past some proxies.
    SslTcp,
    /// TLS over TCP.
    Tls,
}

const PROTOCOLS: [Protocol; 4] = [
    Protocol::Udp,
    Protocol::Tcp,
    Protocol::SslTcp,
    Protocol::Tls,
];

impl Worded for Protocol {
    ghost word_of = { protocol_text };

    fn word(self) -> &'static str {
        match self {
            Protocol::Udp => "udp",
            Protocol::Tcp => "tcp",
            Protocol::SslTcp => "ssltcp",
            Protocol::Tls => "tls",
        }
    }
}

impl Protocol {
    /// The protocol of a word, without regard to ASCII case.
    pub(crate) fn from_word(word: &str) -> Option<Protocol>
        ensures { result ≡ candidate_protocol_read word.now }
    {
        case_alike(&PROTOCOLS, word)
    }
}

/// The word of a candidate's line, in lower case.
impl fmt::Display for Protocol {
    ghost output = { λ p. Some (protocol_text p) };

    fn fmt<W: fmt::Write>(&self, f: &mut fmt::Formatter<W>) -> fmt::Result {
        f.write_str(self.word())
    }
}

/// Which side opens the connection of a TCP candidate (RFC 6544, section 4.5).
#[derive(Clone, Copy, Debug, PartialEq, Eq, Hash)]
pub enum TcpType {
    /// It opens a connection and accepts none.
    Active,
    /// It accepts connections and opens none.
    Passive,
    /// Both sides open one at the same time.
    So,
}

const TCP_TYPES: [TcpType; 3] = [TcpType::Active, TcpType::Passive, TcpType::So];

impl Worded for TcpType {
    ghost word_of = { tcp_type_text };

    fn word(self) -> &'static str {
        match self {
            TcpType::Active => "active",
            TcpType::Passive => "passive",
            TcpType::So => "so",
        }
    }
}

impl TcpType {
    /// The type of a word, without regard to ASCII case.
    pub(crate) fn from_word(word: &str) -> Option<TcpType>
        ensures { result ≡ tcp_type_read word.now }
    {
        case_alike(&TCP_TYPES, word)
    }
}

/// The word of a candidate's line, in lower case.
impl fmt::Display for TcpType {
    ghost output = { λ t. Some (tcp_type_text t) };

    fn fmt<W: fmt::Write>(&self, f: &mut fmt::Formatter<W>) -> fmt::Result {
        f.write_str(self.word())
    }
}
