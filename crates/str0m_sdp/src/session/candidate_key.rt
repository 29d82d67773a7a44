//! Candidates in the order of their parts, so that one is found among many without a look at each, whoever chose them. A table
//! whose hash is known has to look at all that were chosen to fall together.
ghost use Rattle.std.specs.Prelude.{◌≡◌};
ghost use Rattle.str0m_sdp.specs.session.CandidateKey.{IsKeyOf, address_part, candidate_ip_part, type_part};

use str0m_values::{Candidate, IpAddr, SocketAddr, TcpType};

/// An IP address by its numbers.
#[derive(Clone, Copy, PartialEq, Eq, PartialOrd, Ord)]
enum IpPart {
    V4([u8; 4]),
    V6([u16; 8]),
}

/// What `==` of candidates compares: its parts, in their order; a word is a number.
#[derive(Clone, Copy, PartialEq, Eq, PartialOrd, Ord)]
pub(crate) struct CandidateKey<'a> {
    foundation: &'a str,
    component_id: u16,
    proto: u8,
    prio: u32,
    addr: (IpPart, u16),
    kind: u8,
    raddr: Option<(IpPart, u16)>,
    tcptype: Option<u8>,
    ufrag: Option<&'a str>,
}

fn candidate_ip_part(ip: IpAddr) -> IpPart
    ensures { result ≡ candidate_ip_part ip }
{
    match ip {
        IpAddr::V4(bytes) => IpPart::V4(bytes),
        IpAddr::V6(groups) => IpPart::V6(groups),
    }
}

fn address_part(addr: SocketAddr) -> (IpPart, u16)
    ensures { result ≡ address_part addr }
{
    (candidate_ip_part(addr.ip), addr.port)
}

fn type_part(tcptype: TcpType) -> u8
    ensures { result ≡ type_part tcptype }
{
    tcptype as u8
}

/// The key of a candidate. Takes no memory.
pub(crate) fn key_of(candidate: &Candidate) -> CandidateKey<'_>
    ensures { IsKeyOf candidate.now result }
{
    CandidateKey {
        foundation: candidate.foundation(),
        component_id: candidate.component_id(),
        proto: candidate.proto() as u8,
        prio: candidate.prio(),
        addr: address_part(candidate.addr()),
        kind: candidate.kind() as u8,
        raddr: candidate.raddr().map(address_part),
        tcptype: candidate.tcptype().map(type_part),
        ufrag: candidate.ufrag(),
    }
}
