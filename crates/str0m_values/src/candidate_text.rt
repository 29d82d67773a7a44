//! The text of a candidate, for the readers of lines.
ghost use Rattle.std.specs.Prelude.{◌≡◌, IfOk, Some, option_map, codes};
ghost use Rattle.str0m_values.specs.Candidate.{IsCandidateText, IsPrintableCandidate, candidate_text};
ghost use Rattle.str0m_values.specs.CandidateReading.{candidate_protocol_read, candidate_kind_read, candidate_socket_read, candidate_related_read, tcp_part_read, ice_names_read, candidate_lead_read, candidate_last_read, candidate_extras_read, candidate_read};
ghost use Rattle.str0m_values.specs.CandidateText.{seen_candidate_lead, seen_candidate_extras, seen_candidate};
ghost use Rattle.str0m_values.specs.Cuts.{IsTheOnly, num};
ghost use Rattle.str0m_values.specs.LabelReading.{labelled_part_read};
ghost use Rattle.str0m_values.specs.declared.candidate.Candidate.{Candidate};
ghost use Rattle.str0m_values.specs.declared.candidate_label.TheConstants as candidate_label;

use crate::address::{IpAddr, SocketAddr};
use crate::candidate::Candidate;
use crate::candidate_kind::CandidateKind;
use crate::candidate_label;
use crate::cuts::{num_u16, num_u32, strip};
use crate::labels::{labelled, optional_labelled};
use crate::protocol::{Protocol, TcpType};
use crate::text::Text;
use std::alloc::{AllocError, Global};

/// What stands in front of the address; the text still lies in the text that was read.
#[derive(Clone, Copy)]
struct FoundCandidateLead<'a> {
    foundation: &'a str,
    component_id: u16,
    proto: Protocol,
    prio: u32,
}

/// What is kept of the parts after the kind, likewise.
#[derive(Clone, Copy)]
struct FoundCandidateExtras<'a> {
    raddr: Option<SocketAddr>,
    tcptype: Option<TcpType>,
    ufrag: Option<&'a str>,
}

/// A candidate whose texts still lie in the text that was read.
#[derive(Clone, Copy)]
struct FoundCandidate<'a> {
    lead: FoundCandidateLead<'a>,
    addr: SocketAddr,
    kind: CandidateKind,
    extras: FoundCandidateExtras<'a>,
}

fn component(text: &str) -> Option<(u16, &str)>
    ensures { option_map (λ x. (x.0, x.1.now)) result ≡ labelled_part_read (codes " ") (num 65535) text.now }
{
    let (word, rest) = labelled(text, " ")?;
    Some((num_u16(word)?, rest))
}

fn candidate_protocol(text: &str) -> Option<(Protocol, &str)>
    ensures { option_map (λ x. (x.0, x.1.now)) result ≡ labelled_part_read (codes " ") candidate_protocol_read text.now }
{
    let (word, rest) = labelled(text, " ")?;
    Some((Protocol::from_word(word)?, rest))
}

fn priority(text: &str) -> Option<(u32, &str)>
    ensures { option_map (λ x. (x.0, x.1.now)) result ≡ labelled_part_read (codes " ") (num 4294967295) text.now }
{
    let (word, rest) = labelled(text, " ")?;
    Some((num_u32(word)?, rest))
}

/// An address and a port, each after its label.
fn read_candidate_socket<'a>(
    text: &'a str,
    ip_label: &str,
    port_label: &str,
) -> Option<(SocketAddr, &'a str)>
    ensures { option_map (λ x. (x.0, x.1.now)) result ≡ candidate_socket_read ip_label.now port_label.now text.now }
{
    let (word, rest) = labelled(text, ip_label)?;
    let ip = IpAddr::parsed(word)?;
    let (word, rest) = labelled(rest, port_label)?;
    let port = num_u16(word)?;
    Some((SocketAddr { ip, port }, rest))
}

fn kind(text: &str) -> Option<(CandidateKind, &str)>
    ensures { option_map (λ x. (x.0, x.1.now)) result ≡ labelled_part_read candidate_label.TYPE.now candidate_kind_read text.now }
{
    let (word, rest) = labelled(text, candidate_label::TYPE)?;
    Some((CandidateKind::from_word(word)?, rest))
}

fn related_address(text: &str) -> Option<(Option<SocketAddr>, &str)>
    ensures { option_map (λ x. (x.0, x.1.now)) result ≡ candidate_related_read text.now }
{
    if strip(text, candidate_label::RELATED_ADDRESS).is_some() {
        let (addr, rest) = read_candidate_socket(
            text,
            candidate_label::RELATED_ADDRESS,
            candidate_label::RELATED_PORT,
        )?;
        Some((Some(addr), rest))
    } else {
        Some((None, text))
    }
}

fn tcp_type(text: &str) -> Option<(Option<TcpType>, &str)>
    ensures { option_map (λ x. (x.0, x.1.now)) result ≡ tcp_part_read text.now }
{
    let (word, rest) = optional_labelled(text, candidate_label::TCP_TYPE)?;
    match word {
        None => Some((None, rest)),
        Some(word) => Some((Some(TcpType::from_word(word)?), rest)),
    }
}

/// The username fragment; a network's id may stand on either side of it, and on one alone.
fn names(text: &str) -> Option<(Option<&str>, &str)>
    ensures { option_map (λ x. (option_map (λ w. w.now) x.0, x.1.now)) result ≡ ice_names_read text.now }
{
    let (network, rest) = optional_labelled(text, candidate_label::NETWORK_ID)?;
    let (ufrag, rest) = optional_labelled(rest, candidate_label::UFRAG)?;
    if network.is_some() || ufrag.is_none() {
        return Some((ufrag, rest));
    }
    let (_, rest) = optional_labelled(rest, candidate_label::NETWORK_ID)?;
    Some((ufrag, rest))
}

fn before_address(text: &str) -> Option<(FoundCandidateLead<'_>, &str)>
    ensures { option_map (λ x. (seen_candidate_lead x.0, x.1.now)) result ≡ candidate_lead_read text.now }
{
    let (foundation, rest) = labelled(text, candidate_label::CANDIDATE)?;
    let (component_id, rest) = component(rest)?;
    let (proto, rest) = candidate_protocol(rest)?;
    let (prio, rest) = priority(rest)?;
    Some((
        FoundCandidateLead {
            foundation,
            component_id,
            proto,
            prio,
        },
        rest,
    ))
}

/// The username fragment of the last parts, where nothing stands after them.
fn last_ufrag(text: &str) -> Option<Option<&str>>
    ensures { option_map (λ x. option_map (λ w. w.now) x) result ≡ candidate_last_read text.now }
{
    let (_, rest) = optional_labelled(text, candidate_label::GENERATION)?;
    let (ufrag, rest) = names(rest)?;
    let (_, rest) = optional_labelled(rest, candidate_label::NETWORK_COST)?;
    if !rest.is_empty() {
        return None;
    }
    Some(ufrag)
}

fn behind_kind(text: &str) -> Option<FoundCandidateExtras<'_>>
    ensures { option_map seen_candidate_extras result ≡ candidate_extras_read text.now }
{
    let (raddr, rest) = related_address(text)?;
    let (tcptype, rest) = tcp_type(rest)?;
    let ufrag = last_ufrag(rest)?;
    Some(FoundCandidateExtras {
        raddr,
        tcptype,
        ufrag,
    })
}

/// The candidate of a text, without a copy of its texts.
fn find_candidate(text: &str) -> Option<FoundCandidate<'_>>
    ensures { option_map seen_candidate result ≡ candidate_read text.now }
{
    let (lead, rest) = before_address(text)?;
    let (addr, rest) = read_candidate_socket(rest, " ", " ")?;
    let (kind, rest) = kind(rest)?;
    let extras = behind_kind(rest)?;
    Some(FoundCandidate {
        lead,
        addr,
        kind,
        extras,
    })
}

/// The candidate of a text, with copies of the texts that it keeps.
fn keep_candidate(alloc: Global, text: &str) -> Result<Option<Candidate>, AllocError>
    ensures { IfOk result (λ found. found ≡ candidate_read text.now) }
{
    let Some(found) = find_candidate(text) else {
        return Ok(None);
    };
    let (lead, extras) = (found.lead, found.extras);
    let foundation = Text::from_str(alloc, lead.foundation)?;
    let ufrag = match extras.ufrag {
        Some(ufrag) => Some(Text::from_str(alloc, ufrag)?),
        None => None,
    };
    Ok(Some(Candidate {
        foundation,
        component_id: lead.component_id,
        proto: lead.proto,
        prio: lead.prio,
        addr: found.addr,
        kind: found.kind,
        raddr: extras.raddr,
        tcptype: extras.tcptype,
        ufrag,
    }))
}

/// The candidate of the text that follows `a=` in its line, without the line's end; `None` where the
/// text, as a whole, has another form (RFC 8839, section 5.1).
///
/// The text begins with `candidate:`. Words for the protocol and the TCP type are read without
/// regard to ASCII case. Memory is asked for only where there is a candidate, for the texts that it
/// keeps; without it the call is refused.
pub fn candidate(alloc: Global, text: &str) -> Result<Option<Candidate>, AllocError>
    ensures read { IfOk result (IsTheOnly (IsCandidateText text.now)) }
    ensures printed { (c : Candidate) → IsPrintableCandidate c → text.now ≡ candidate_text c → IfOk result (λ found. found ≡ Some c) }

    // As the readers of lines compute it.
    ensures computed { IfOk result (λ found. found ≡ candidate_read text.now) }
{
    keep_candidate(alloc, text)
}
