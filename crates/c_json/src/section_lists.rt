//! The lists of a section.

ghost use Rattle.c_json.specs.JsonWriter.{InList};
ghost use Rattle.std.specs.Prelude.{◌≡◌, OnOk};

use crate::candidate::add_candidate;
use crate::formats::{add_extension, add_feedback, add_fmtp, add_rtp_map};
use crate::json_writer::JsonWriter;
use crate::lists::Listed;
use crate::section::section_has_key;
use crate::streams::{add_rid, add_source, add_source_group};
use crate::transport::{add_printed, add_unread};
use std::alloc::{AllocError, Global};
use str0m_formats::FormatParam;
use str0m_signal::MediaAttribute;

/// A list whose items are attributes of a section.
#[derive(Clone, Copy, PartialEq, Eq)]
pub(crate) enum SectionList {
    Candidates,
    Ext,
    Fmtp,
    /// What no other list and no key has.
    Invalid,
    Rids,
    RtcpFb,
    Rtp,
    SsrcGroups,
    Ssrcs,
}

/// Whether one of the values has a text.
fn are_listed_values_printed(alloc: Global, values: &[FormatParam]) -> Result<bool, AllocError> {
    for value in values {
        if !value.to_string(alloc)?.is_empty() {
            return Ok(true);
        }
    }
    Ok(false)
}

/// The list for attributes of this kind: `Invalid` where no other is.
fn section_list(attr: &MediaAttribute) -> SectionList {
    match attr {
        MediaAttribute::Candidate(_) => SectionList::Candidates,
        MediaAttribute::ExtMap { .. } => SectionList::Ext,
        MediaAttribute::Fmtp { .. } => SectionList::Fmtp,
        MediaAttribute::Rid { .. } => SectionList::Rids,
        MediaAttribute::RtcpFb { .. } => SectionList::RtcpFb,
        MediaAttribute::RtpMap { .. } => SectionList::Rtp,
        MediaAttribute::SsrcGroup { .. } => SectionList::SsrcGroups,
        MediaAttribute::Ssrc { .. } => SectionList::Ssrcs,
        _ => SectionList::Invalid,
    }
}

/// Whether an attribute is an item of its list: it prints, and no key says it.
fn is_section_list_item(alloc: Global, attr: &MediaAttribute) -> Result<bool, AllocError> {
    match attr {
        MediaAttribute::ExtMap { ext, .. } => Ok(ext.is_serialized()),
        MediaAttribute::Fmtp { values, .. } => are_listed_values_printed(alloc, values.as_slice()),
        MediaAttribute::SsrcGroup { ssrcs, .. } => Ok(!ssrcs.is_empty()),
        _ => Ok(!section_has_key(attr)),
    }
}

impl Listed for SectionList {
    type Attribute = MediaAttribute;

    fn key(self) -> &'static str {
        match self {
            SectionList::Candidates => "candidates",
            SectionList::Ext => "ext",
            SectionList::Fmtp => "fmtp",
            SectionList::Invalid => "invalid",
            SectionList::Rids => "rids",
            SectionList::RtcpFb => "rtcpFb",
            SectionList::Rtp => "rtp",
            SectionList::SsrcGroups => "ssrcGroups",
            SectionList::Ssrcs => "ssrcs",
        }
    }

    fn has(self, alloc: Global, attr: &MediaAttribute) -> Result<bool, AllocError> {
        if section_list(attr) != self {
            return Ok(false);
        }
        is_section_list_item(alloc, attr)
    }

    fn add(
        self,
        alloc: Global,
        json: &mut JsonWriter,
        attr: &MediaAttribute,
    ) -> Result<(), AllocError> {
        match attr {
            MediaAttribute::Candidate(found) => add_candidate(json, found),
            MediaAttribute::ExtMap { id, ext } => add_extension(json, *id, ext),
            MediaAttribute::Fmtp { pt, .. } => add_fmtp(alloc, json, *pt, attr),
            MediaAttribute::Unused(text) => add_unread(json, text.as_str()),
            MediaAttribute::Rid { .. } => add_rid(alloc, json, attr),
            MediaAttribute::RtcpFb { pt, value } => add_feedback(json, *pt, value.as_str()),
            MediaAttribute::RtpMap { pt, value } => add_rtp_map(json, *pt, value),
            MediaAttribute::SsrcGroup { semantics, ssrcs } => {
                add_source_group(json, semantics, ssrcs.as_slice())
            }
            MediaAttribute::Ssrc { ssrc, attr, value } => add_source(json, *ssrc, attr, value),
            _ => {
                let line = attr.to_string(alloc)?;
                add_printed(json, line.as_str())
            }
        }
    }
}
