//! Candidates (RFC 8839, section 5.1): made of their parts, and as browsers trickle them.

use exchange::trickled_candidate;
use std::alloc::{AllocError, Global};
use std::test::Fail;
use str0m_values::candidate_text::candidate;
use str0m_values::{Boxed, Candidate, CandidateKind, IpAddr, Protocol, SocketAddr, TcpType, Text};

/// The text of a relayed candidate over TCP with every optional part.
const RELAYED_CANDIDATE: &str =
    "candidate:f 2 tcp 7 ::1 9 typ relay raddr ::1 rport 9 tcptype active ufrag u";

fn candidate_loopback() -> SocketAddr {
    SocketAddr {
        ip: IpAddr::V6([0, 0, 0, 0, 0, 0, 0, 1]),
        port: 9,
    }
}

/// The candidate of that text, made of its parts.
fn relayed_candidate(alloc: Global) -> Result<Candidate, AllocError> {
    Ok(Candidate::from_parts(
        Text::from_str(alloc, "f")?,
        2,
        Protocol::Tcp,
        7,
        candidate_loopback(),
        CandidateKind::Relayed,
        Some(candidate_loopback()),
        Some(TcpType::Active),
        Some(Text::from_str(alloc, "u")?),
    ))
}

/// Whether that text is read as this candidate.
fn is_candidate_read(alloc: Global, made: &Candidate) -> Result<bool, AllocError> {
    let read = candidate(alloc, RELAYED_CANDIDATE)?;
    match &read {
        Some(read) => Ok(*made == *read),
        None => Ok(false),
    }
}

fn is_candidate_copied(candidate: &Candidate) -> Result<bool, AllocError> {
    let copy = candidate.clone()?;
    Ok(copy == *candidate)
}

fn is_boxed_candidate_copied(boxed: &Boxed<Candidate>) -> Result<bool, AllocError> {
    let copy = boxed.clone()?;
    Ok(copy == *boxed)
}

fn is_candidate_printed(alloc: Global, candidate: &Candidate) -> Result<bool, AllocError> {
    let line = candidate.to_sdp_string(alloc)?;
    Ok(line.as_str() == RELAYED_CANDIDATE)
}

/// Every part of it is printed.
#[test]
fn a_candidate_of_its_parts_is_the_one_that_is_read(rt: HostRuntime) -> Result<(), Fail> {
    let made = relayed_candidate(rt.alloc())?;
    assert!(rt; is_candidate_read(rt.alloc(), &made)?);
    assert!(rt; is_candidate_copied(&made)?);
    assert!(rt; is_candidate_printed(rt.alloc(), &made)?);
    let boxed = Boxed::new(rt.alloc(), made)?;
    assert!(rt; is_boxed_candidate_copied(&boxed)?);
    Ok(())
}

/// Texts as they are trickled, and the component of the candidate, where there is one.
static TRICKLED_CANDIDATES: [(&str, Option<u16>); 9] = [
    (
        "candidate:1 1 udp 2122260223 192.0.2.1 5000 typ host",
        Some(1),
    ),
    (
        "a=candidate:1 1 udp 2122260223 192.0.2.1 5000 typ host",
        Some(1),
    ),
    (
        "candidate:1 1 udp 2122260223 192.0.2.1 5000 typ host\r\n",
        Some(1),
    ),
    (
        "a=candidate:1 1 udp 2122260223 192.0.2.1 5000 typ host\n",
        Some(1),
    ),
    ("", None),
    ("a=", None),
    ("candidate:1", None),
    ("candidate:1 1 udp 1 192.0.2.1 5000 typ host\r\nx", None),
    ("a=a=candidate:1 1 udp 1 192.0.2.1 5000 typ host", None),
];

fn component_of_candidate(alloc: Global, text: &str) -> Option<u16> {
    match &trickled_candidate(alloc, text) {
        Ok(candidate) => Some(candidate.component_id()),
        Err(_) => None,
    }
}

#[test]
fn candidates_are_read_as_browsers_trickle_them(rt: HostRuntime) -> Result<(), Fail> {
    for (text, component) in &TRICKLED_CANDIDATES {
        assert_eq!(rt;
            component_of_candidate(rt.alloc(), text),
            *component,
            "{text:?}"
        );
    }
    Ok(())
}
