//! Which sections are consistent.
ghost use Rattle.std.specs.Prelude.{◌≡◌, ◌<◌, ◌↔◌, IsSome, List, Some, count_by, filter_map};
ghost use Rattle.str0m_sdp.specs.Common.{first};
ghost use Rattle.str0m_sdp.specs.declared.attribute.MediaAttribute.{MediaAttribute as SectionAttribute};
ghost use Rattle.str0m_sdp.specs.section.Consistency.{is_mid, mid_of, is_setup, is_direction};
ghost use Rattle.str0m_sdp.specs.session.Fault.{err_if_fault, only_mid, setup_fault, proto_fault, mapping_fault, map_fault, value_fault, values_fault, apt_fault, first_fault};

use crate::attribute::MediaAttribute;
use crate::attribute::proto::Proto;
use crate::section::mappings::static_spec;
use crate::section::media_line::MediaLine;
use crate::section::type_tables::{count_maps, first_section_apts, place, section_apt_of};
use crate::session::fault::{Clash, Fault};
use str0m_formats::FormatParam;
use str0m_values::{Mid, Pt};

/// How many mids, setups and directions a section has.
#[derive(Clone, Copy, Debug)]
struct SectionCounts {
    mids: usize,
    setups: usize,
    directions: usize,
}

/// Counts them in one pass: nearly all attributes are none of the three.
fn counted(attrs: &[MediaAttribute]) -> SectionCounts
    ensures mids { result.mids ≡ count_by is_mid attrs.now }
    ensures setups { result.setups ≡ count_by is_setup attrs.now }
    ensures directions { result.directions ≡ count_by is_direction attrs.now }
{
    let (mut mids, mut setups, mut directions) = (0, 0, 0);
    for attr in attrs {
        match attr {
            MediaAttribute::Mid(_) => mids += 1,
            MediaAttribute::Setup(_) => setups += 1,
            MediaAttribute::RecvOnly
            | MediaAttribute::SendRecv
            | MediaAttribute::SendOnly
            | MediaAttribute::Inactive => directions += 1,
            _ => {}
        }
    }
    SectionCounts {
        mids,
        setups,
        directions,
    }
}

/// The first mid, where there is one.
pub(crate) fn first_mid(attrs: &[MediaAttribute]) -> Option<Mid>
    ensures mid { result ≡ first (filter_map mid_of attrs.now) }
    ensures found { IsSome result ↔ (0 < count_by is_mid attrs.now) }
{
    attrs.iter().find_map(|attr| attr.as_mid())
}

/// The mid where there is exactly one, among so many.
fn only_mid(attrs: &[MediaAttribute], mids: usize) -> Result<Mid, Fault>
    ensures { mids ≡ count_by is_mid attrs.now → result ≡ only_mid attrs.now }
{
    let Some(mid) = first_mid(attrs) else {
        return Err(Fault::MissingMid);
    };
    if mids > 1 {
        return Err(Fault::SecondMid);
    }
    Ok(mid)
}

/// Of a section with so many setups.
fn check_setups(setups: usize, mid: Mid) -> Result<(), Fault>
    ensures { (attrs : List SectionAttribute) → setups ≡ count_by is_setup attrs → result ≡ err_if_fault (setup_fault attrs mid) }
{
    if setups > 1 {
        return Err(Fault::SecondSetup(mid));
    }
    Ok(())
}

/// Of a section with so many directions.
fn check_proto(m: &MediaLine, directions: usize, mid: Mid) -> Result<(), Fault>
    ensures { directions ≡ count_by is_direction m.now.attrs → result ≡ err_if_fault (proto_fault m.now mid m.now.proto) }
{
    match m.proto {
        Proto::Sctp => Ok(()),
        Proto::Srtp => {
            if directions != 1 {
                return Err(Fault::Directions(mid));
            }
            if m.disabled || !m.pts.as_slice().is_empty() {
                return Ok(());
            }
            Err(Fault::MissingType(mid))
        }
    }
}

/// Of a payload type that has this many mappings.
fn check_map(count: usize, pt: Pt, mid: Mid) -> Result<(), Fault>
    ensures { result ≡ err_if_fault (mapping_fault count mid pt) }
{
    match count {
        0 => if static_spec(pt).is_some() {
            Ok(())
        } else {
            Err(Fault::MissingMap { mid, pt })
        },
        1 => Ok(()),
        _ => Err(Fault::SecondMap { mid, pt }),
    }
}

fn check_maps(attrs: &[MediaAttribute], pts: &[Pt], mid: Mid) -> Result<(), Fault>
    ensures { result ≡ err_if_fault (first (filter_map (map_fault attrs.now mid) pts.now)) }
{
    // A section without types, as each of data channels, needs no table.
    if pts.is_empty() {
        return Ok(());
    }
    let counts = count_maps(attrs);
    let mut left = pts;
    while let Some((pt, more)) = left.split_first() {
        check_map(counts[place(*pt)], *pt, mid)?;
        left = more;
    }
    Ok(())
}

fn check_section_value(value: FormatParam, first: Pt, pt: Pt, mid: Mid) -> Result<(), Fault>
    ensures { result ≡ err_if_fault (value_fault mid pt first value) }
{
    let Some(other) = section_apt_of(value) else {
        return Ok(());
    };
    if other == first {
        return Ok(());
    }
    Err(Fault::Apts(Clash {
        mid,
        pt,
        first,
        other,
    }))
}

fn check_section_values(values: &[FormatParam], first: Pt, pt: Pt, mid: Mid) -> Result<(), Fault>
    ensures { result ≡ err_if_fault (values_fault mid pt values.now (Some first)) }
{
    let mut left = values;
    while let Some((value, more)) = left.split_first() {
        check_section_value(*value, first, pt, mid)?;
        left = more;
    }
    Ok(())
}

/// Of an fmtp line, where this is the first primary type that is named for its payload type.
fn check_section_apt(
    first: Option<Pt>,
    values: &[FormatParam],
    pt: Pt,
    mid: Mid,
) -> Result<(), Fault>
    ensures { result ≡ err_if_fault (values_fault mid pt values.now first) }
{
    match first {
        Some(first) => check_section_values(values, first, pt, mid),
        None => Ok(()),
    }
}

fn check_section_apts(attrs: &[MediaAttribute], mid: Mid) -> Result<(), Fault>
    ensures { result ≡ err_if_fault (first (filter_map (apt_fault attrs.now mid) attrs.now)) }
{
    let firsts = first_section_apts(attrs);
    let mut left = attrs;
    while let Some((attr, more)) = left.split_first() {
        if let MediaAttribute::Fmtp { pt, values } = attr {
            check_section_apt(firsts.get(*pt), values.as_slice(), *pt, mid)?;
        }
        left = more;
    }
    Ok(())
}

/// The first fault of a section, as the error.
pub(crate) fn check_section(m: &MediaLine) -> Result<(), Fault>
    ensures { result ≡ err_if_fault (first_fault m.now) }
{
    let attrs = m.attrs.as_slice();
    let counted = counted(attrs);
    let mid = only_mid(attrs, counted.mids)?;
    check_setups(counted.setups, mid)?;
    check_proto(m, counted.directions, mid)?;
    check_maps(attrs, m.pts.as_slice(), mid)?;
    check_section_apts(attrs, mid)
}
