//! Candidates.
ghost use Rattle.std.specs.Prelude.{◌≡◌, IfOk, Some, option_map, IsUtf8, string_bytes};
ghost use Rattle.str0m_values.specs.declared.candidate_label.TheConstants as candidate_label;

use crate::address::SocketAddr;
use crate::candidate_kind::CandidateKind;
use crate::candidate_label;
use crate::protocol::{Protocol, TcpType};
use crate::text::Text;
use std::alloc::{AllocError, Global};
use std::fmt;

/// An address at which a peer may be reached (RFC 8445, section 5.1; RFC 8839, section 5.1). It is a
/// record: any values can be held, also texts that would not read back.
#[derive(Clone, Debug, PartialEq, Eq, Hash, Drop)]
pub struct Candidate {
    pub(crate) foundation: Text,
    pub(crate) component_id: u16,
    pub(crate) proto: Protocol,
    pub(crate) prio: u32,
    pub(crate) addr: SocketAddr,
    pub(crate) kind: CandidateKind,
    pub(crate) raddr: Option<SocketAddr>,
    pub(crate) tcptype: Option<TcpType>,
    pub(crate) ufrag: Option<Text>,
}

impl Candidate {
    ghost use Rattle.str0m_values.specs.Candidate.{candidate_text};

    /// The candidate of its nine parts. Takes no memory.
    pub fn from_parts(
        foundation: Text,
        component_id: u16,
        proto: Protocol,
        prio: u32,
        addr: SocketAddr,
        kind: CandidateKind,
        raddr: Option<SocketAddr>,
        tcptype: Option<TcpType>,
        ufrag: Option<Text>,
    ) -> Candidate
        ensures { result ≡ record {
          foundation = foundation;
          component_id = component_id;
          proto = proto;
          prio = prio;
          addr = addr;
          kind = kind;
          raddr = raddr;
          tcptype = tcptype;
          ufrag = ufrag;
        } }
    {
        Candidate {
            foundation,
            component_id,
            proto,
            prio,
            addr,
            kind,
            raddr,
            tcptype,
            ufrag,
        }
    }

    /// What candidates have in common that were found in one way from one address.
    pub fn foundation(&self) -> &str
        ensures value { result.now ≡ self.now.foundation }
        ensures utf8 { IsUtf8 self.now.foundation }
    {
        self.foundation.as_str()
    }

    /// 1 for RTP, 2 for RTCP.
    pub fn component_id(&self) -> u16
        ensures { result ≡ self.now.component_id }
    {
        self.component_id
    }

    /// The transport that the candidate is reached by.
    pub fn proto(&self) -> Protocol
        ensures { result ≡ self.now.proto }
    {
        self.proto
    }

    /// The priority, any number of 32 bits; the greater is tried first.
    pub fn prio(&self) -> u32
        ensures { result ≡ self.now.prio }
    {
        self.prio
    }

    /// The address and the port at which it may be reached.
    pub fn addr(&self) -> SocketAddr
        ensures { result ≡ self.now.addr }
    {
        self.addr
    }

    /// Where the address comes from.
    pub fn kind(&self) -> CandidateKind
        ensures { result ≡ self.now.kind }
    {
        self.kind
    }

    /// The related address: the host's own after a reflexive or a relayed one; `None` where none was named.
    pub fn raddr(&self) -> Option<SocketAddr>
        ensures { result ≡ self.now.raddr }
    {
        self.raddr
    }

    /// How a connection is opened, for candidates on TCP; `None` where it isn't said.
    pub fn tcptype(&self) -> Option<TcpType>
        ensures { result ≡ self.now.tcptype }
    {
        self.tcptype
    }

    /// The username fragment of the agent that the candidate belongs to; `None` where it isn't said.
    pub fn ufrag(&self) -> Option<&str>
        ensures { option_map (λ u. u.now) result ≡ self.now.ufrag }
    {
        match &self.ufrag {
            Some(ufrag) => Some(ufrag.as_str()),
            None => None,
        }
    }

    /// The text of its line, without `a=` and a line's end: `candidate:` and its parts. Generation,
    /// network's id and network's cost, which it doesn't hold, are left out. The only error is that
    /// memory was refused.
    pub fn to_sdp_string(&self, alloc: Global) -> Result<String, AllocError>
        ensures { IfOk result (λ text. string_bytes text ≡ candidate_text self.now) }
    {
        self.to_string(alloc)
    }

    /// A copy, which equals its source. The only error is that memory was refused.
    pub fn clone(&self) -> Result<Candidate, AllocError>
        ensures { IfOk result (λ c. c ≡ self.now) }
    {
        Clone::clone(self)
    }
}

/// The text of `to_sdp_string`.
impl fmt::Display for Candidate {
    ghost use Rattle.str0m_values.specs.Candidate.{candidate_text};

    ghost output = { λ c. Some (candidate_text c) };

    // Piece by piece: `write!` takes an eighth more, and offers have tens of candidates.
    fn fmt<W: fmt::Write>(&self, f: &mut fmt::Formatter<W>) -> fmt::Result {
        CandidateParts(self).fmt(f)?;
        CandidateRelated(self.raddr).fmt(f)?;
        CandidateOpenedBy(self.tcptype).fmt(f)?;
        CandidateFragment(&self.ufrag).fmt(f)
    }
}

/// The related address and its port, where there is one.
#[derive(Drop)]
struct CandidateRelated(Option<SocketAddr>);

impl fmt::Display for CandidateRelated {
    ghost use Rattle.str0m_values.specs.Candidate.{related_text};

    ghost output = { λ it. Some (related_text it.0) };

    fn fmt<W: fmt::Write>(&self, f: &mut fmt::Formatter<W>) -> fmt::Result {
        let Some(addr) = self.0 else {
            return Ok(());
        };
        CandidateSocket {
            ip_label: candidate_label::RELATED_ADDRESS,
            port_label: candidate_label::RELATED_PORT,
            addr,
        }
        .fmt(f)
    }
}

/// How a connection is opened, after its label, where it is said.
#[derive(Drop)]
struct CandidateOpenedBy(Option<TcpType>);

impl fmt::Display for CandidateOpenedBy {
    ghost use Rattle.std.specs.Prelude.{codes};
    ghost use Rattle.str0m_values.specs.Labels.{optional_text};
    ghost use Rattle.str0m_values.specs.Protocol.{tcp_type_text};

    ghost output = { λ it. Some (optional_text candidate_label.TCP_TYPE.now tcp_type_text it.0) };

    fn fmt<W: fmt::Write>(&self, f: &mut fmt::Formatter<W>) -> fmt::Result {
        let Some(tcptype) = self.0 else {
            return Ok(());
        };
        f.write_str(candidate_label::TCP_TYPE)?;
        tcptype.fmt(f)
    }
}

/// The username fragment after its label, where there is one.
#[derive(Drop)]
struct CandidateFragment<'a>(&'a Option<Text>);

impl<'a> fmt::Display for CandidateFragment<'a> {
    ghost use Rattle.std.specs.Prelude.{codes};
    ghost use Rattle.str0m_values.specs.Labels.{optional_text};

    ghost output = { λ it. Some (optional_text candidate_label.UFRAG.now (λ t. t) it.0.now) };

    fn fmt<W: fmt::Write>(&self, f: &mut fmt::Formatter<W>) -> fmt::Result {
        let Some(ufrag) = self.0 else {
            return Ok(());
        };
        f.write_str(candidate_label::UFRAG)?;
        ufrag.fmt(f)
    }
}

/// The parts that each candidate has.
#[derive(Drop)]
struct CandidateParts<'a>(&'a Candidate);

impl<'a> fmt::Display for CandidateParts<'a> {
    ghost use Rattle.std.specs.Fmt.{decimal};
    ghost use Rattle.std.specs.Prelude.{codes, ◌++◌};
    ghost use Rattle.str0m_values.specs.Candidate.{socket_text};
    ghost use Rattle.str0m_values.specs.CandidateKind.{kind_text};
    ghost use Rattle.str0m_values.specs.Protocol.{protocol_text};

    ghost output = { λ parts. Some (candidate_label.CANDIDATE.now ++ (parts.0.now.foundation ++ (codes " " ++ (decimal parts.0.now.component_id ++ (codes " " ++ (protocol_text parts.0.now.proto
        ++ (codes " " ++ (decimal parts.0.now.prio ++ (socket_text (codes " ") (codes " ") parts.0.now.addr ++ (candidate_label.TYPE.now ++ kind_text parts.0.now.kind)))))))))) };

    fn fmt<W: fmt::Write>(&self, f: &mut fmt::Formatter<W>) -> fmt::Result {
        let candidate = self.0;
        CandidateFoundation(candidate).fmt(f)?;
        CandidateTransport(candidate.proto, candidate.prio).fmt(f)?;
        let (ip_label, port_label) = (" ", " ");
        let addr = candidate.addr;
        CandidateSocket {
            ip_label,
            port_label,
            addr,
        }
        .fmt(f)?;
        f.write_str(candidate_label::TYPE)?;
        candidate.kind.fmt(f)
    }
}

/// The foundation, after its label, and the component.
#[derive(Drop)]
struct CandidateFoundation<'a>(&'a Candidate);

impl<'a> fmt::Display for CandidateFoundation<'a> {
    ghost use Rattle.std.specs.Fmt.{decimal};
    ghost use Rattle.std.specs.Prelude.{codes, ◌++◌};

    ghost output = { λ it. Some (candidate_label.CANDIDATE.now ++ (it.0.now.foundation ++ (codes " " ++ decimal it.0.now.component_id))) };

    fn fmt<W: fmt::Write>(&self, f: &mut fmt::Formatter<W>) -> fmt::Result {
        let candidate = self.0;
        f.write_str(candidate_label::CANDIDATE)?;
        f.write_str(candidate.foundation.as_str())?;
        f.write_str(" ")?;
        f.write(candidate.component_id)
    }
}

/// The protocol and the priority, each after a space.
#[derive(Drop)]
struct CandidateTransport(Protocol, u32);

impl fmt::Display for CandidateTransport {
    ghost use Rattle.std.specs.Fmt.{decimal};
    ghost use Rattle.std.specs.Prelude.{codes, ◌++◌};
    ghost use Rattle.str0m_values.specs.Protocol.{protocol_text};

    ghost output = { λ it. Some (codes " " ++ (protocol_text it.0 ++ (codes " " ++ decimal it.1))) };

    fn fmt<W: fmt::Write>(&self, f: &mut fmt::Formatter<W>) -> fmt::Result {
        let CandidateTransport(proto, prio) = self;
        f.write_str(" ")?;
        proto.fmt(f)?;
        f.write_str(" ")?;
        f.write(*prio)
    }
}

/// An address and a port, each after its label.
#[derive(Drop)]
struct CandidateSocket {
    ip_label: &'static str,
    port_label: &'static str,
    addr: SocketAddr,
}

impl fmt::Display for CandidateSocket {
    ghost use Rattle.str0m_values.specs.Candidate.{socket_text};

    ghost output = { λ socket. Some (socket_text socket.ip_label.now socket.port_label.now socket.addr) };

    fn fmt<W: fmt::Write>(&self, f: &mut fmt::Formatter<W>) -> fmt::Result {
        let SocketAddr { ip, port } = self.addr;
        f.write_str(self.ip_label)?;
        ip.fmt(f)?;
        f.write_str(self.port_label)?;
        f.write(port)
    }
}
