//! Sections that are made of rows.
ghost use Rattle.std.specs.Prelude.{◌≡◌, ◌++◌, IfOk, OnOk, filter, not, flat_map};
ghost use Rattle.str0m_sdp.specs.Prelude.{types, types_of};
ghost use Rattle.str0m_sdp.specs.section.MadeSection.{is_of_type, made};
ghost use Rattle.str0m_sdp.specs.section.RowAttributes.{row_attrs};

use crate::attribute::MediaAttribute;
use crate::section::media_line::MediaLine;
use crate::section::row_attributes::AsMediaAttrs;
use std::alloc::{AllocError, Global};
use str0m_formats::PayloadParams;
use str0m_values::{Items, Pt};

/// The payload types of rows, of each row its own, then that of RTX, then that of RED.
fn row_types(alloc: Global, rows: &[PayloadParams]) -> Result<Vec<Pt>, AllocError>
    ensures { IfOk result (λ pts. pts.items ≡ types rows.now) }
{
    let mut pts = Vec::new(alloc);
    for row in rows {
        push_types(&mut pts, row)?;
    }
    Ok(pts)
}

fn push_types(pts: &mut Vec<Pt>, row: &PayloadParams) -> Result<(), AllocError>
    ensures { OnOk result (pts.new.items ≡ pts.old.items ++ types_of row.now) }
{
    pts.push(row.pt())?;
    if let Some(resend) = row.resend() {
        pts.push(resend)?;
    }
    if let Some(red) = row.red() {
        pts.push(red)?;
    }
    Ok(())
}

/// Copies of the lines that describe no payload type.
fn kept_section_attrs(
    alloc: Global,
    attrs: &[MediaAttribute],
) -> Result<Vec<MediaAttribute>, AllocError>
    ensures { IfOk result (λ kept. kept.items ≡ filter (λ attr. not (is_of_type attr)) attrs.now) }
{
    let mut kept = Vec::new(alloc);
    for attr in attrs {
        if !attr.is_of_type() {
            kept.push(attr.clone()?)?;
        }
    }
    Ok(kept)
}

/// The lines of rows after others.
fn with_rows(
    mut attrs: Vec<MediaAttribute>,
    rows: &[PayloadParams],
) -> Result<Vec<MediaAttribute>, AllocError>
    ensures { IfOk result (λ all. all.items ≡ attrs.items ++ flat_map row_attrs rows.now) }
{
    for row in rows {
        row.as_media_attrs(&mut attrs)?;
    }
    Ok(attrs)
}

/// The section that offers or answers these rows where the frame stands.
///
/// Type, protocol and bandwidth are the frame's, and so is whether it is disabled. Its payload types
/// are those of the rows in order, of each row its own, then that of RTX, then that of RED. Its
/// attributes are the frame's without `a=rtpmap`, `a=rtcp-fb` and `a=fmtp` lines, then the lines of
/// each row (RFC 8866, sections 5.14 and 6.6). Frame and rows stay as they are; the only error is
/// that memory was refused.
pub fn section_of(frame: &MediaLine, rows: &[PayloadParams]) -> Result<MediaLine, AllocError>
    ensures { IfOk result (λ section. section ≡ made frame.now rows.now) }
{
    let pts = row_types(*frame.pts.allocator(), rows)?;
    let own = kept_section_attrs(*frame.attrs.allocator(), frame.attrs.as_slice())?;
    let attrs = with_rows(own, rows)?;
    Ok(MediaLine {
        typ: frame.typ.clone()?,
        disabled: frame.disabled,
        proto: frame.proto,
        pts: Items(pts),
        bw: frame.bw.clone()?,
        attrs: Items(attrs),
    })
}
