//! Where the address of a candidate comes from.
ghost use Rattle.std.specs.Prelude.{◌≡◌, Some};
ghost use Rattle.str0m_values.specs.CandidateKind.{kind_text};
ghost use Rattle.str0m_values.specs.CandidateReading.{candidate_kind_read};

use crate::words::{Worded, case_of};
use std::fmt;

/// Where the address of a candidate comes from (RFC 8445, section 4; RFC 8839, section 5.1).
#[derive(Clone, Copy, Debug, PartialEq, Eq, Hash)]
pub enum CandidateKind {
    /// An address of the host itself.
    Host,
    /// The address that a peer saw.
    PeerReflexive,
    /// The address that a STUN server saw.
    ServerReflexive,
    /// An address of a relay.
    Relayed,
}

const KINDS: [CandidateKind; 4] = [
    CandidateKind::Host,
    CandidateKind::PeerReflexive,
    CandidateKind::ServerReflexive,
    CandidateKind::Relayed,
];

impl Worded for CandidateKind {
    ghost word_of = { kind_text };

    fn word(self) -> &'static str {
        match self {
            CandidateKind::Host => "host",
            CandidateKind::PeerReflexive => "prflx",
            CandidateKind::ServerReflexive => "srflx",
            CandidateKind::Relayed => "relay",
        }
    }
}

impl CandidateKind {
    /// The kind of a word, which is in lower case.
    pub(crate) fn from_word(word: &str) -> Option<CandidateKind>
        ensures { result ≡ candidate_kind_read word.now }
    {
        case_of(&KINDS, word)
    }
}

/// The word of a candidate's line.
impl fmt::Display for CandidateKind {
    ghost output = { λ k. Some (kind_text k) };

    fn fmt<W: fmt::Write>(&self, f: &mut fmt::Formatter<W>) -> fmt::Result {
        f.write_str(self.word())
    }
}
