//! The sections of an offer.
ghost use Rattle.exchange.specs.Prelude.{kind_rows};
ghost use Rattle.exchange.specs.offer.OfferSection.{asked_section_lines, offer_flow_lines, is_extension, is_offer_mux_line, is_own, is_offer_rsize_line, is_offer_line_said_by_theirs, is_same_shared_offer_line, kept_section_lines, new_section, next_section, offered_channels, offered_media, section_with, offer_type_of_kind};
ghost use Rattle.std.specs.List.{list_any};
ghost use Rattle.std.specs.Prelude.{◌≡◌, ◌≢◌, [], IfOk, false, true, option_copied};

use crate::answer::accepted::{
    accepted_channel_lines, accepted_first_lines, push_candidates, push_msid,
};
use crate::answer::rejected_section::rejected;
use crate::offer::added::{Added, AddedUnderMid};
use crate::section::stopped::name_of;
use crate::state::exchange::Exchange;
use crate::state::own_side::{OwnSide, SectionDirection};
use std::alloc::{AllocError, Global};
use str0m_sdp::label::EXTMAP_ALLOW_MIXED;
use str0m_signal::{
    CodecConfig, Direction, Extension, Items, MediaAttribute, MediaKind, MediaLine, MediaType, Mid,
    PayloadParams, Proto, Setup, section_of,
};

fn section_with(
    alloc: Global,
    typ: MediaType,
    proto: Proto,
    lines: Vec<MediaAttribute>,
) -> MediaLine
    ensures { result ≡ section_with typ proto lines.items }
{
    let mut section = MediaLine::new(alloc);
    section.typ = typ;
    section.proto = proto;
    section.attrs = Items::from(lines);
    section
}

fn offer_type_of_kind(kind: MediaKind) -> MediaType
    ensures { result ≡ offer_type_of_kind kind }
{
    match kind {
        MediaKind::Audio => MediaType::Audio,
        MediaKind::Video => MediaType::Video,
    }
}

/// The rows of a kind for an offer.
fn rows_of(config: &CodecConfig, kind: MediaKind) -> Result<Vec<PayloadParams>, AllocError>
    ensures { IfOk result (λ rows. rows.items ≡ kind_rows kind true config.now.params.items) }
{
    let mut rows = Vec::new(*config.allocator());
    let mut left = config.all_for_kind(kind, true);
    while let Some(row) = left.next() {
        rows.extend_from_slice(&[*row])?;
    }
    Ok(rows)
}

/// Whether there is a row of the kind.
pub(crate) fn has_rows(config: &CodecConfig, kind: MediaKind) -> bool
    ensures some { result ≡ true → kind_rows kind true config.now.params.items ≢ [] }
    ensures none { result ≡ false → kind_rows kind true config.now.params.items ≡ [] }
{
    config.all_for_kind(kind, true).next().is_some()
}

/// What media says but for its rows, after its name and its transport.
fn offer_flow_lines(
    alloc: Global,
    own: &OwnSide,
    mid: Mid,
    direction: Direction,
    mut asked: Vec<MediaAttribute>,
) -> Result<Vec<MediaAttribute>, AllocError>
    ensures { IfOk result (λ lines. lines.items ≡ offer_flow_lines own.now mid direction asked.items) }
{
    let mut lines = vec![in alloc; MediaAttribute::from(direction)]?;
    push_candidates(&mut lines, own)?;
    lines.append(&mut asked)?;
    push_msid(&mut lines, own, direction, mid)?;
    Ok(lines)
}

/// Media over RTP under a name, with the rows of its kind and these lines of what both sides have to agree on.
fn offered_media(
    exchange: &Exchange,
    ready: &[SectionDirection],
    kind: MediaKind,
    mid: Mid,
    asked: Vec<MediaAttribute>,
) -> Result<MediaLine, AllocError>
    ensures { IfOk result (λ section. section ≡ offered_media exchange.now ready.now kind mid asked.items) }
{
    let (own, config) = (&exchange.own, &exchange.config);
    let alloc = *config.allocator();
    let typ = offer_type_of_kind(kind);
    let direction = own.direction_among(ready, Some(mid), &typ);
    let mut lines = accepted_first_lines(alloc, own, mid, Setup::ActPass)?;
    lines.append(&mut offer_flow_lines(alloc, own, mid, direction, asked)?)?;
    let frame = section_with(alloc, typ, Proto::Srtp, lines);
    let rows = rows_of(config, kind)?;
    section_of(&frame, rows.as_slice())
}

/// Data channels under a name; what rejects `instead` where this side takes none.
fn offered_channels(
    alloc: Global,
    own: &OwnSide,
    instead: &MediaLine,
    mid: Mid,
) -> Result<MediaLine, AllocError>
    ensures { IfOk result (λ section. section ≡ offered_channels own.now instead.now mid own.now.channels) }
{
    let Some(channels) = own.channels else {
        return rejected(alloc, instead);
    };
    let mut lines = accepted_first_lines(alloc, own, mid, Setup::ActPass)?;
    lines.append(&mut accepted_channel_lines(alloc, channels)?)?;
    push_candidates(&mut lines, own)?;
    Ok(section_with(alloc, MediaType::Application, Proto::Sctp, lines))
}

/// The lines that a new section of media asks for.
fn asked_section_lines(
    alloc: Global,
    extensions: &[MediaAttribute],
) -> Result<Vec<MediaAttribute>, AllocError>
    ensures { IfOk result (λ lines. lines.items ≡ asked_section_lines extensions.now) }
{
    let mut lines = vec![in alloc; MediaAttribute::RtcpMux, MediaAttribute::RtcpRsize]?;
    for line in extensions {
        lines.push(line.clone()?)?;
    }
    Ok(lines)
}

/// The section of what is added, in the directions of these entries.
pub(crate) fn new_section(
    exchange: &Exchange,
    ready: &[SectionDirection],
    extensions: &[MediaAttribute],
    placed: &AddedUnderMid,
) -> Result<MediaLine, AllocError>
    ensures { IfOk result (λ section. section ≡ new_section exchange.now ready.now extensions.now placed.now) }
{
    let alloc = *exchange.config.allocator();
    let mid = placed.mid;
    match placed.added {
        Added::Media(kind, _) => {
            let asked = asked_section_lines(alloc, extensions)?;
            offered_media(exchange, ready, kind, mid, asked)
        }
        Added::Channels => {
            let name = vec![in alloc; MediaAttribute::Mid(mid)]?;
            let instead = section_with(alloc, MediaType::Application, Proto::Sctp, name);
            offered_channels(alloc, &exchange.own, &instead, mid)
        }
    }
}

fn is_offer_mux_line(line: &MediaAttribute) -> bool
    ensures { result ≡ is_offer_mux_line line.now }
{
    matches!(line, MediaAttribute::RtcpMux)
}

fn is_offer_rsize_line(line: &MediaAttribute) -> bool
    ensures { result ≡ is_offer_rsize_line line.now }
{
    matches!(line, MediaAttribute::RtcpRsize)
}

fn is_extension(number: u8, ext: &Extension, line: &MediaAttribute) -> bool
    ensures { result ≡ is_extension number ext.now.uri line.now }
{
    match line {
        MediaAttribute::ExtMap { id, ext: other } => {
            *id == number && other.as_uri() == ext.as_uri()
        }
        _ => false,
    }
}

/// Whether both are one line of those that both sides have to say.
fn is_same_shared_offer_line(line: &MediaAttribute, other: &MediaAttribute) -> bool
    ensures { result ≡ is_same_shared_offer_line line.now other.now }
{
    match line {
        MediaAttribute::RtcpMux => is_offer_mux_line(other),
        MediaAttribute::RtcpRsize => is_offer_rsize_line(other),
        MediaAttribute::ExtMap { id, ext } => is_extension(*id, ext, other),
        _ => false,
    }
}

fn offer_says_line(section: &MediaLine, line: &MediaAttribute) -> bool
    ensures { result ≡ list_any (is_same_shared_offer_line line.now) section.now.attrs }
{
    let attrs = section.attrs.as_slice();
    attrs
        .iter()
        .any(|other| is_same_shared_offer_line(line, other))
}

fn is_offer_line_said_by_theirs(theirs: Option<&MediaLine>, line: &MediaAttribute) -> bool
    ensures { result ≡ is_offer_line_said_by_theirs (option_copied theirs.entry) line.now }
{
    match theirs {
        Some(theirs) => offer_says_line(theirs, line),
        None => false,
    }
}

/// Whether this side says the line alone: of its layers, or that extensions of both lengths may be mixed.
fn is_own(line: &MediaAttribute) -> bool
    ensures { result ≡ is_own line.now }
{
    match line {
        MediaAttribute::Rid { .. } | MediaAttribute::Simulcast(_) => true,
        MediaAttribute::Unused(text) => text.as_str() == EXTMAP_ALLOW_MIXED,
        _ => false,
    }
}

/// The lines of this side's section that it goes on saying.
fn kept_section_lines(
    alloc: Global,
    theirs: Option<&MediaLine>,
    mine: &MediaLine,
) -> Result<Vec<MediaAttribute>, AllocError>
    ensures { IfOk result (λ lines. lines.items ≡ kept_section_lines (option_copied theirs.entry) mine.now) }
{
    let mut lines = Vec::new(alloc);
    for line in mine.attrs.as_slice() {
        if is_offer_line_said_by_theirs(theirs, line) || is_own(line) {
            lines.push(line.clone()?)?;
        }
    }
    Ok(lines)
}

/// The section in which this side's section of the last exchange goes on, in the directions of these entries.
pub(crate) fn next_section(
    exchange: &Exchange,
    ready: &[SectionDirection],
    theirs: Option<&MediaLine>,
    mine: &MediaLine,
) -> Result<MediaLine, AllocError>
    ensures { IfOk result (λ section. section ≡ next_section exchange.now ready.now (option_copied theirs.entry) mine.now) }
{
    let alloc = *exchange.config.allocator();
    let Some(mid) = name_of(mine) else {
        return rejected(alloc, mine);
    };
    let kind = match (&mine.typ, mine.proto) {
        (MediaType::Audio, Proto::Srtp) => MediaKind::Audio,
        (MediaType::Video, Proto::Srtp) => MediaKind::Video,
        (MediaType::Application, Proto::Sctp) => {
            return offered_channels(alloc, &exchange.own, mine, mid);
        }
        _ => return rejected(alloc, mine),
    };
    let kept = kept_section_lines(alloc, theirs, mine)?;
    offered_media(exchange, ready, kind, mid, kept)
}
