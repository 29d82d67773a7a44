//! What is printed of a line and read as something else, so that rows can't be written back.

use std::alloc::{AllocError, Global};
use str0m_sdp::{MediaAttribute, MediaLine, Proto, SdpError};
use str0m_signal::media_attribute_line;
use str0m_values::{Pt, Text};

/// Whether rows may be written into a section: one of audio or video over RTP.
pub(crate) fn takes_rows(section: &MediaLine) -> bool {
    section.typ.is_media() && matches!(section.proto, Proto::Srtp)
}

/// Whether a restriction of a stream has the name of payload types.
fn restricts_written_types(restrictions: &[(Text, Text)]) -> bool {
    restrictions.iter().any(|(key, _)| key.as_str() == "pt")
}

/// Whether what is printed of an attribute is read as another one, and not kept unread.
fn is_read_otherwise(alloc: Global, attribute: &MediaAttribute) -> Result<bool, AllocError> {
    let printed = attribute.to_string(alloc)?;
    match media_attribute_line(alloc, printed.as_str()) {
        Ok((read, _)) => Ok(
            !attribute.is_alike(&read) && !matches!(read, MediaAttribute::Unused(_)),
        ),
        Err(SdpError::Memory) => Err(AllocError),
        Err(_) => Ok(true),
    }
}

/// Whether the line of a stream is printed with payload types that it hasn't. No other attribute that was read comes back as another
/// one (the clause `of_reading` of `is_writable`).
pub(crate) fn gains_written_types(
    alloc: Global,
    attribute: &MediaAttribute,
) -> Result<bool, AllocError> {
    match attribute {
        MediaAttribute::Rid { restriction, .. }
            if restricts_written_types(restriction.as_slice()) => is_read_otherwise(
            alloc, attribute,
        ),
        _ => Ok(false),
    }
}

/// How many mappings of type 0 a section has.
fn written_mappings_of_0(attributes: &[MediaAttribute]) -> usize {
    let zero = Pt::new_with_value(0);
    attributes
        .iter()
        .filter(|attribute| matches!(attribute, MediaAttribute::RtpMap { pt, .. } if *pt == zero))
        .count()
}

/// Why the section contradicts itself once its m-line is printed and read, if it does: that of data channels without payload types, that
/// of other sections that have none with type 0.
pub(crate) fn head_fault(section: &MediaLine) -> Option<&'static str> {
    if section.typ.is_channel() {
        return match section.proto {
            Proto::Srtp if !section.disabled => Some(
                "data channels over RTP are printed without payload types",
            ),
            _ => None,
        };
    }
    if section.pts.as_slice().is_empty() && written_mappings_of_0(section.attrs.as_slice()) > 1 {
        return Some("type 0 is printed, which has two mappings");
    }
    None
}
