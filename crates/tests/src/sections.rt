//! Sections, and what stands in them, before anything is said: what no text makes.

use std::alloc::{AllocError, Global};
use std::test::Fail;
use str0m_signal::{Direction, MediaLine, MediaType, Proto, RestrictionId, Setup, Ssrc, SsrcInfo};

fn do_section_types_begin_as_audio() -> bool {
    MediaType::default() == MediaType::Audio
        && Proto::default() == Proto::Srtp
        && Setup::default() == Setup::ActPass
}

/// Whether the source has the number 0, and nothing else is said of it.
fn is_source_info_unknown(info: &SsrcInfo) -> bool {
    info.ssrc == Ssrc::from(0)
        && info.repairs.is_none()
        && info.cname.is_none()
        && info.stream_id.is_none()
        && info.track_id.is_none()
}

fn is_source_info_copied(info: &SsrcInfo) -> Result<bool, AllocError> {
    let copy = info.clone()?;
    Ok(copy == *info)
}

/// Whether the section is one of audio over RTP, without a bandwidth.
fn is_section_enabled(section: &MediaLine) -> bool {
    section.typ == MediaType::Audio
        && section.proto == Proto::Srtp
        && !section.disabled
        && section.bw.is_none()
}

/// Whether the section lists no types, and says nothing of itself.
fn is_section_empty(section: &MediaLine) -> bool {
    section.pts.is_empty()
        && section.attrs.is_empty()
        && !section.has_mid()
        && !section.has_direction()
        && section.direction() == Direction::Inactive
}

/// Whether nothing is known of a source in the beginning; its copy is the same.
fn is_source_unknown() -> Result<bool, AllocError> {
    let info = SsrcInfo::default();
    Ok(is_source_info_unknown(&info) && is_source_info_copied(&info)?)
}

fn is_new_section_empty(alloc: Global) -> bool {
    let section = MediaLine::new(alloc);
    is_section_enabled(&section) && is_section_empty(&section)
}

fn is_empty_restriction_active(alloc: Global) -> bool {
    let id = RestrictionId::empty(alloc);
    id.1 && id.0.is_empty()
}

#[test]
fn a_new_section_says_nothing(rt: HostRuntime) -> Result<(), Fail> {
    assert!(rt; do_section_types_begin_as_audio());
    assert!(rt; is_source_unknown()?);
    assert!(rt; is_new_section_empty(rt.alloc()));
    assert!(rt; is_empty_restriction_active(rt.alloc()));
    Ok(())
}
