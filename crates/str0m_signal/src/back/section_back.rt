//! The lines of a section, printed and read again.

ghost use Rattle.std.specs.List.{list_any};
ghost use Rattle.std.specs.Prelude.{◌≡◌, ◌↔◌, IfOk, IfSome, IsTrue, option_map};
ghost use Rattle.str0m_signal.specs.Prelude.{Consistent, IsTheOnly, MediaLine, bandwidth_text, is_of_type};
ghost use Rattle.str0m_signal.specs.back.Writable.{HasTypes, IsWritableFrame, IsReadBackLine, IsMediaReadAs, writable_frame_of};
ghost use Rattle.str0m_signal.specs.line.Heads.{media_head};
ghost use Rattle.str0m_signal.specs.session.Section.{IsBandwidth, IsHead};

use crate::back::attributes_back::media_back;
use crate::back::read_back::line_content;
use crate::line::heads::{MediaHead, head};
use crate::session::bandwidth::bandwidth;
use std::alloc::{AllocError, Global};
use str0m_sdp::{Bandwidth, MediaAttribute, MediaLine, Proto, section_of};
use str0m_values::{Items, Pt};

/// What the m-line is read as.
fn head_back(alloc: Global, text: &str) -> Result<Option<MediaHead>, AllocError>
    ensures { IfOk result (λ found. IsTheOnly (IsReadBackLine IsHead text.now) (option_map media_head found)) }
{
    match line_content(text) {
        Some(line) => head(alloc, line),
        None => Ok(None),
    }
}

/// What the line of a bandwidth is read as.
fn bandwidth_line_back(alloc: Global, text: &str) -> Result<Option<Bandwidth>, AllocError>
    ensures { IfOk result (IsTheOnly (IsReadBackLine IsBandwidth text.now)) }
{
    match line_content(text) {
        Some(line) => bandwidth(alloc, line),
        None => Ok(None),
    }
}

fn is_same_bandwidth(bw: &Bandwidth, other: &Bandwidth) -> bool
    ensures { IsTrue result ↔ (bw.now ≡ other.now) }
{
    bw == other
}

/// Whether the line of the bandwidth, where there is one, is read as it.
pub(crate) fn bandwidth_comes_back(
    alloc: Global,
    bw: &Option<Bandwidth>,
) -> Result<bool, AllocError>
    ensures { IfOk result (λ answer. IsTrue answer ↔ IfSome bw.now (λ bw. IsReadBackLine IsBandwidth (bandwidth_text bw) bw)) }
{
    let Some(bw) = bw else {
        return Ok(true);
    };
    let text = bw.to_string(alloc)?;
    match bandwidth_line_back(alloc, text.as_str())? {
        Some(read) => Ok(is_same_bandwidth(&read, bw)),
        None => Ok(false),
    }
}

/// Whether the m-line says of the section what it is, but for its payload types.
fn head_says_same(head: &MediaHead, section: &MediaLine) -> bool
    ensures { IsTrue result ↔ (head.now.typ ≡ section.now.typ) × (head.now.disabled ≡ section.now.disabled) × (head.now.proto ≡ section.now.proto) }
{
    head.typ == section.typ && head.disabled == section.disabled && head.proto == section.proto
}

/// The payload types of the m-line as it is read, where it says the same of all else; `None` where
/// it doesn't.
fn pts_back(alloc: Global, section: &MediaLine) -> Result<Option<Items<Pt>>, AllocError>
    ensures { IfOk result (IsTheOnly (HasTypes section.now)) }
{
    let text = section.m_line()?;
    match head_back(alloc, text.as_str())? {
        Some(head) if head_says_same(&head, section) => Ok(Some(head.pts)),
        _ => Ok(None),
    }
}

/// A copy of the section with other types and attributes: its own, which may be many, aren't copied.
fn section_with(
    section: &MediaLine,
    pts: Items<Pt>,
    attrs: Items<MediaAttribute>,
) -> Result<MediaLine, AllocError>
    ensures { IfOk result (λ made. made ≡ record section.now { pts = pts; attrs = attrs }) }
{
    let typ = section.typ.clone()?;
    let bw = section.bw.clone()?;
    Ok(MediaLine {
        typ,
        disabled: section.disabled,
        proto: section.proto,
        pts,
        bw,
        attrs,
    })
}

/// The section with these attributes, as its lines are read; `None` where one doesn't come back.
fn section_back(
    alloc: Global,
    section: &MediaLine,
    attrs: &[MediaAttribute],
) -> Result<Option<MediaLine>, AllocError>
    ensures { IfOk result (IsTheOnly (IsMediaReadAs (record section.now { attrs = attrs.now }))) }
{
    if !bandwidth_comes_back(alloc, &section.bw)? {
        return Ok(None);
    }
    let Some(pts) = pts_back(alloc, section)? else {
        return Ok(None);
    };
    let Some(attrs) = media_back(alloc, attrs)? else {
        return Ok(None);
    };
    let read = section_with(section, pts, attrs)?;
    Ok(Some(read))
}

/// Whether the section is read of its lines, and consistent then.
pub(crate) fn comes_back(alloc: Global, section: &MediaLine) -> Result<bool, AllocError>
    ensures { IfOk result (λ answer. IsTrue answer ↔ ((read : MediaLine) × IsMediaReadAs section.now read × Consistent read)) }
{
    match section_back(alloc, section, section.attrs.as_slice())? {
        Some(read) => Ok(read.check_consistent()?.is_none()),
        None => Ok(false),
    }
}

fn describe_types(attrs: &[MediaAttribute]) -> bool
    ensures { result ≡ list_any is_of_type attrs.now }
{
    attrs.iter().any(|attr| attr.is_of_type())
}

/// Whether the section is a frame.
fn is_writable_frame(alloc: Global, section: MediaLine) -> Result<bool, AllocError>
    ensures { IfOk result (λ answer. IsTrue answer ↔ IsWritableFrame section) }
{
    if describe_types(section.attrs.as_slice()) {
        return Ok(false);
    }
    // A section over Srtp that is disabled and has no types is consistent where it is a frame.
    let alone = MediaLine {
        disabled: true,
        proto: Proto::Srtp,
        pts: Items::empty(alloc),
        ..section
    };
    Ok(alone.check_consistent()?.is_none())
}

/// Whether the section without its lines of payload types is read of its lines, and a frame then.
pub(crate) fn frame_comes_back(alloc: Global, section: &MediaLine) -> Result<bool, AllocError>
    ensures { IfOk result (λ answer. IsTrue answer ↔ ((read : MediaLine) × IsMediaReadAs (writable_frame_of section.now) read × IsWritableFrame read)) }
{
    let frame = section_of(section, &[])?;
    let read = section_back(alloc, section, frame.attrs.as_slice());
    // Dropped by a call, so that what it may hold is no case of this proof.
    drop(frame);
    match read? {
        Some(read) => is_writable_frame(alloc, read),
        None => Ok(false),
    }
}
