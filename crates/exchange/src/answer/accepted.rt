//! Sections that accept.
ghost use Rattle.exchange.specs.Prelude.{is_of_type, made, row_attrs, types, types_of};
ghost use Rattle.exchange.specs.answer.Accepted.{AcceptsChannels, AcceptsMedia, are_layers_told, candidate_line, accepted_channel_lines, accepted_first_lines, accepted_frame, layer_lines, media_lines, msid_lines, setup_in_force, tells_layer, track_id};
ghost use Rattle.std.specs.Prelude.{◌≡◌, ◌++◌, IfOk, OnOk, filter, map, not, flat_map};

use crate::answer::layers::answered_layers;
use crate::section::repeated_lines::{is_repeated, push_repeated};
use crate::state::own_side::{DataChannels, OwnSide};
use std::alloc::{AllocError, Global};
use str0m_signal::{
    AsMediaAttrs, Boxed, Direction, Items, MediaAttribute, MediaLine, Mid, Msid, Name,
    PayloadParams, Pt, Sdp, Setup, Text,
};

/// The header extension that tells of each packet which layer it is of (RFC 8852, section 3.3).
const RTP_STREAM_ID: &str = "urn:ietf:params:rtp-hdrext:sdes:rtp-stream-id";

/// The role that is said for a section: by its own lines, else by the session.
pub(crate) fn setup_in_force(offer: &Sdp, section: &MediaLine) -> Option<Setup>
    ensures { result ≡ setup_in_force offer.now section.now }
{
    match section.setup() {
        Some(setup) => Some(setup),
        None => offer.session.setup(),
    }
}

/// The lines that each accepted section begins with: its name, and how its transport is reached. Each has all of
/// them, since Firefox 153 ends where a section of a bundle has no fingerprint.
pub(crate) fn accepted_first_lines(
    alloc: Global,
    own: &OwnSide,
    mid: Mid,
    role: Setup,
) -> Result<Vec<MediaAttribute>, AllocError>
    ensures { IfOk result (λ lines. lines.items ≡ accepted_first_lines own.now mid role) }
{
    let creds = own.creds.clone()?;
    let fingerprint = own.fingerprint.clone()?;
    let options = Text::from_str(alloc, "trickle")?;
    let lines = vec![in alloc;
        MediaAttribute::Mid(mid),
        MediaAttribute::Fingerprint(fingerprint),
        MediaAttribute::IceUfrag(creds.ufrag),
        MediaAttribute::IcePwd(creds.pass),
        MediaAttribute::IceOptions(options),
        MediaAttribute::Setup(role),
    ]?;
    Ok(lines)
}

/// Puts where this side is reached behind other lines.
pub(crate) fn push_candidates(
    lines: &mut Vec<MediaAttribute>,
    own: &OwnSide,
) -> Result<(), AllocError>
    ensures { OnOk result (lines.new.items ≡ lines.old.items ++ map candidate_line own.now.candidates) }
{
    let alloc = *lines.allocator();
    for candidate in own.candidates.as_slice() {
        let candidate = Boxed::new(alloc, candidate.clone()?)?;
        lines.push(MediaAttribute::Candidate(candidate))?;
    }
    Ok(())
}

/// The most bytes that the id of a track has: a name has sixteen at most.
const TRACK_ID: usize = 22;

/// The id of the track that is sent in a section: no two sections may name the same.
fn track_id(alloc: Global, mid: Mid) -> Result<Text, AllocError>
    ensures { IfOk result (λ id. id ≡ track_id mid) }
{
    let mut id = String::with_capacity(alloc, TRACK_ID)?;
    id.push_str("track-")?;
    id.push_str(mid.as_str())?;
    Ok(Text::from(id))
}

/// Puts the stream and the track behind other lines, where this side sends.
pub(crate) fn push_msid(
    lines: &mut Vec<MediaAttribute>,
    own: &OwnSide,
    direction: Direction,
    mid: Mid,
) -> Result<(), AllocError>
    ensures { OnOk result (lines.new.items ≡ lines.old.items ++ msid_lines own.now direction mid) }
{
    if !direction.sends() {
        return Ok(());
    }
    let alloc = *lines.allocator();
    let stream_id = Name::from_str(alloc, own.stream_id.as_str())?;
    let track_id = track_id(alloc, mid)?;
    let msid = Msid {
        stream_id,
        track_id,
    };
    lines.push(MediaAttribute::Msid(msid))?;
    Ok(())
}

fn tells_layer(line: &MediaAttribute) -> bool
    ensures { result ≡ tells_layer line.now }
{
    match line {
        MediaAttribute::ExtMap { ext, .. } => ext.as_uri() == RTP_STREAM_ID,
        _ => false,
    }
}

/// Whether packets tell their layers: without that Chromium 156 refuses an answer that has layers.
fn are_layers_told(own: &OwnSide, offered: &MediaLine) -> bool
    ensures { result ≡ are_layers_told own.now.extensions offered.now }
{
    let known = own.extensions.as_slice();
    let lines = offered.attrs.as_slice();
    lines
        .iter()
        .any(|line| tells_layer(line) && is_repeated(known, line))
}

/// The layers that this side receives; none where it takes none, or can't tell them apart.
fn layer_lines(
    alloc: Global,
    own: &OwnSide,
    direction: Direction,
    offered: &MediaLine,
    rows: &[PayloadParams],
) -> Result<Vec<MediaAttribute>, AllocError>
    ensures { IfOk result (λ lines. lines.items ≡ layer_lines own.now direction offered.now rows.now) }
{
    if own.receives_simulcast && direction.receives() && are_layers_told(own, offered) {
        return answered_layers(alloc, offered, rows);
    }
    Ok(Vec::new(alloc))
}

pub(crate) fn accepted_channel_lines(
    alloc: Global,
    channels: DataChannels,
) -> Result<Vec<MediaAttribute>, AllocError>
    ensures { IfOk result (λ lines. lines.items ≡ accepted_channel_lines channels) }
{
    let lines = vec![in alloc;
        MediaAttribute::SctpPort(channels.port),
        MediaAttribute::MaxMessageSize(channels.max_message_size),
    ]?;
    Ok(lines)
}

/// A section of the type and the protocol of another, with these lines.
fn accepted_frame(
    alloc: Global,
    offered: &MediaLine,
    lines: Vec<MediaAttribute>,
) -> Result<MediaLine, AllocError>
    ensures { IfOk result (λ frame. frame ≡ accepted_frame offered.now lines.items) }
{
    let mut frame = MediaLine::new(alloc);
    frame.typ = offered.typ.clone()?;
    frame.proto = offered.proto;
    frame.attrs = Items::from(lines);
    Ok(frame)
}

/// Puts what media says in this direction, but for its rows, behind other lines.
fn push_media(
    lines: &mut Vec<MediaAttribute>,
    own: &OwnSide,
    offered: &MediaLine,
    mid: Mid,
    direction: Direction,
    rows: &[PayloadParams],
) -> Result<(), AllocError>
    ensures { OnOk result (lines.new.items ≡ lines.old.items ++ media_lines own.now offered.now mid direction rows.now) }
{
    let alloc = *lines.allocator();
    lines.push(MediaAttribute::from(direction))?;
    push_candidates(lines, own)?;
    push_repeated(lines, own.extensions.as_slice(), offered)?;
    push_msid(lines, own, direction, mid)?;
    lines.append(&mut layer_lines(alloc, own, direction, offered, rows)?)?;
    Ok(())
}

/// How many lines a section may have, as a guess that most don't pass: no answer depends on it. A stranger's long section doesn't
/// ask for room that its answer won't take.
fn likely_accepted_lines(own: &OwnSide, offered: &MediaLine) -> usize {
    let extra = own.candidates.as_slice().len().saturating_add(8);
    offered
        .attrs
        .as_slice()
        .len()
        .min(256)
        .saturating_add(extra)
}

/// The payload types of rows, of each row its own, then that of RTX, then that of RED.
fn types_of_rows(alloc: Global, rows: &[PayloadParams]) -> Result<Vec<Pt>, AllocError>
    ensures { IfOk result (λ pts. pts.items ≡ types rows.now) }
{
    let likely = rows.len().saturating_mul(2);
    let mut pts = Vec::with_capacity(alloc, likely)?;
    for row in rows {
        push_accepted_types(&mut pts, row)?;
    }
    Ok(pts)
}

fn push_accepted_types(pts: &mut Vec<Pt>, row: &PayloadParams) -> Result<(), AllocError>
    ensures { OnOk result (pts.new.items ≡ pts.old.items ++ types_of row.now) }
{
    pts.push(row.pt())?;
    if let Some(resend) = row.resend() {
        pts.push(resend)?;
    }
    if let Some(red) = row.red() {
        pts.push(red)?;
    }
    Ok(())
}

/// Leaves those lines that describe no payload type: the rows have lines of their own.
fn keep_accepted_frame(lines: &mut Vec<MediaAttribute>)
    ensures { lines.new.items ≡ filter (λ attr. not (is_of_type attr)) lines.old.items }
{
    lines.retain(|attr| !attr.is_of_type());
}

/// Puts the lines of rows after others.
fn push_rows(lines: &mut Vec<MediaAttribute>, rows: &[PayloadParams]) -> Result<(), AllocError>
    ensures { OnOk result (lines.new.items ≡ lines.old.items ++ flat_map row_attrs rows.now) }
{
    for row in rows {
        row.as_media_attrs(lines)?;
    }
    Ok(())
}

/// The section that these rows make of a frame with these lines: `section_of` would copy them.
fn made(
    alloc: Global,
    offered: &MediaLine,
    mut lines: Vec<MediaAttribute>,
    rows: &[PayloadParams],
) -> Result<MediaLine, AllocError>
    ensures { IfOk result (λ section. section ≡ made (accepted_frame offered.now lines.items) rows.now) }
{
    keep_accepted_frame(&mut lines);
    push_rows(&mut lines, rows)?;
    let mut section = accepted_frame(alloc, offered, lines)?;
    section.pts = Items::from(types_of_rows(alloc, rows)?);
    Ok(section)
}

/// The section that accepts one of media with these rows.
pub(crate) fn accepted_media(
    alloc: Global,
    own: &OwnSide,
    offer: &Sdp,
    offered: &MediaLine,
    mid: Mid,
    rows: &[PayloadParams],
) -> Result<MediaLine, AllocError>
    ensures { IfOk result (AcceptsMedia own.now offer.now offered.now mid rows.now) }
{
    let role = Setup::answer(setup_in_force(offer, offered));
    let direction = offered.direction().answer(own.direction_for(offered));
    let mut lines = accepted_first_lines(alloc, own, mid, role)?;
    lines.reserve(likely_accepted_lines(own, offered))?;
    push_media(&mut lines, own, offered, mid, direction, rows)?;
    made(alloc, offered, lines, rows)
}

/// The section that accepts one of data channels.
pub(crate) fn accepted_channels(
    alloc: Global,
    own: &OwnSide,
    offer: &Sdp,
    offered: &MediaLine,
    mid: Mid,
    channels: DataChannels,
) -> Result<MediaLine, AllocError>
    ensures { IfOk result (AcceptsChannels own.now offer.now offered.now mid channels) }
{
    let role = Setup::answer(setup_in_force(offer, offered));
    let mut lines = accepted_first_lines(alloc, own, mid, role)?;
    lines.append(&mut accepted_channel_lines(alloc, channels)?)?;
    push_candidates(&mut lines, own)?;
    accepted_frame(alloc, offered, lines)
}
