//! A description whose text is read again.

ghost use Rattle.exchange.specs.Prelude.{Alike};
ghost use Rattle.exchange.specs.state.ReadBack.{IsWholeReadAs, IsReadBack, IsSameReadHead, IsSectionReadAs};
ghost use Rattle.std.specs.List.{AllZip};
ghost use Rattle.std.specs.Prelude.{◌≡◌, ◌≢◌, ◌↔◌, [], IfOk, IfSome, IsTrue, MatchOption, None};
ghost use Rattle.str0m_sdp.specs.declared.session.error.SdpError.TheVariants.{Memory};

use std::alloc::{AllocError, Global};
use str0m_signal::{
    Bandwidth, MediaAttribute, MediaLine, MediaType, Proto, Pt, Sdp, SdpError, Session, sdp_parser,
};

/// Whether the attributes are alike one by one.
fn are_read_attributes_alike(said: &[MediaAttribute], read: &[MediaAttribute]) -> bool
    ensures { IsTrue result ↔ AllZip Alike said.now read.now }
{
    let mut left = said;
    let mut reads = read;
    while let Some((attr, later)) = left.split_first() {
        match reads.split_first() {
            Some((other, more)) if attr.is_alike(other) => reads = more,
            _ => return false,
        }
        left = later;
    }
    reads.is_empty()
}

#[tactic(auto, using(crate::proofs::state::ReadBackEqual::read_back_type_Decides))]
pub(crate) fn is_same_type(typ: &MediaType, other: &MediaType) -> bool
    ensures { IsTrue result ↔ (typ.now ≡ other.now) }
{
    typ == other
}

#[tactic(auto, using(crate::proofs::state::ReadBackEqual::read_back_bandwidth_Decides))]
fn is_same_read_bandwidth(bw: &Option<Bandwidth>, other: &Option<Bandwidth>) -> bool
    ensures { IsTrue result ↔ (bw.now ≡ other.now) }
{
    bw == other
}

#[tactic(auto, using(crate::proofs::state::ReadBackEqual::whole_session_Decides))]
fn is_same_session(session: &Session, other: &Session) -> bool
    ensures { IsTrue result ↔ (session.now ≡ other.now) }
{
    session == other
}

pub(crate) fn is_same_proto(proto: Proto, other: Proto) -> bool
    ensures { IsTrue result ↔ (proto ≡ other) }
{
    proto == other
}

fn are_same_read_types(types: &[Pt], others: &[Pt]) -> bool
    ensures { IsTrue result ↔ (types.now ≡ others.now) }
{
    types == others
}

/// Whether the m-lines have the same type, port 0 or not, protocol and payload types.
fn is_same_read_head(said: &MediaLine, read: &MediaLine) -> bool
    ensures { IsTrue result ↔ IsSameReadHead said.now read.now }
{
    is_same_type(&read.typ, &said.typ)
        && read.disabled == said.disabled
        && is_same_proto(read.proto, said.proto)
        && are_same_read_types(read.pts.as_slice(), said.pts.as_slice())
}

fn is_section_read_as(said: &MediaLine, read: &MediaLine) -> bool
    ensures { IsTrue result ↔ IsSectionReadAs said.now read.now }
{
    is_same_read_head(said, read)
        && is_same_read_bandwidth(&read.bw, &said.bw)
        && are_read_attributes_alike(said.attrs.as_slice(), read.attrs.as_slice())
}

/// Whether there are as many sections, each read as the one in its place.
fn are_sections_read_as(said: &[MediaLine], read: &[MediaLine]) -> bool
    ensures { IsTrue result ↔ AllZip IsSectionReadAs said.now read.now }
{
    let mut left = said;
    let mut reads = read;
    while let Some((section, later)) = left.split_first() {
        match reads.split_first() {
            Some((other, more)) if is_section_read_as(section, other) => reads = more,
            _ => return false,
        }
        left = later;
    }
    reads.is_empty()
}

fn is_whole_read_as(said: &Sdp, read: &Sdp) -> bool
    ensures { IsTrue result ↔ IsWholeReadAs said.now read.now }
{
    is_same_session(&read.session, &said.session)
        && are_sections_read_as(said.media_lines.as_slice(), read.media_lines.as_slice())
}

/// Whether what was read is this description, with nothing left.
fn is_read_back_whole(said: &Sdp, read: &Sdp, rest: &str) -> bool
    ensures { IsTrue result ↔ ((rest.now ≡ []) × IsWholeReadAs said.now read.now) }
{
    rest.is_empty() && is_whole_read_as(said, read)
}

/// What was read, where it is this description with nothing left.
fn whole_read_back(said: &Sdp, read: Sdp, rest: &str) -> Option<Sdp>
    ensures { MatchOption result
        ((rest.now ≡ []) × IsWholeReadAs said.now read → ⊥)
        (λ found. (found ≡ read) × (rest.now ≡ []) × IsWholeReadAs said.now read) }
{
    if is_read_back_whole(said, &read, rest) {
        Some(read)
    } else {
        None
    }
}

/// The answer where no description was read.
fn refused_read_back(error: SdpError) -> Result<Option<Sdp>, AllocError>
    ensures { IfOk result (λ found. (found ≡ None) × (error ≢ Memory)) }
{
    match error {
        SdpError::Memory => Err(AllocError),
        SdpError::ParseError(_) | SdpError::Inconsistent(_) => Ok(None),
    }
}

/// What a text is read as, where it is read to its end as this very description; see `is_read_back`.
pub(crate) fn read_back(alloc: Global, said: &Sdp, text: &str) -> Result<Option<Sdp>, AllocError>
    ensures exact { IfOk result (λ found. MatchOption found (IsReadBack said.now text.now → ⊥) (λ read. IsReadBack said.now text.now)) }
    ensures alike { IfOk result (λ found. IfSome found (IsWholeReadAs said.now)) }
{
    match sdp_parser(alloc, text) {
        Ok((read, rest)) => Ok(whole_read_back(said, read, rest)),
        Err(error) => refused_read_back(error),
    }
}

/// Whether a text is read to its end as this very description (RFC 8866, section 5): with the same
/// session, and with as many sections, each of the same type, port 0 or not, protocol, payload types
/// and bandwidth, whose attributes are alike one by one, `MediaAttribute::is_alike`. So the other side
/// finds in the text what was said. `false` where the text describes no session, or where a line of it
/// is left.
///
/// It reads the text once. The only error is that memory was refused.
pub fn is_read_back(alloc: Global, said: &Sdp, text: &str) -> Result<bool, AllocError>
    ensures exact { IfOk result (λ answer. IsTrue answer ↔ IsReadBack said.now text.now) }
{
    match read_back(alloc, said, text)? {
        Some(_) => Ok(true),
        None => Ok(false),
    }
}
