//! What lines that are read leave unknown, and what is lost of them where they are printed.

use crate::code::{Change, Unseen};
use std::alloc::{AllocError, Global};
use str0m_formats::{Codec, FormatParam};
use str0m_sdp::MediaAttribute;
use str0m_sdp::label::{FIR, NACK, PLI, REMB, TRANSPORT_CC};

/// The feedback that rows know.
static SEEN_FEEDBACK: [&str; 5] = [TRANSPORT_CC, REMB, FIR, NACK, PLI];

fn seen_feedback() -> &'static [&'static str] {
    SEEN_FEEDBACK.as_slice()
}

fn is_seen_feedback(listed: &[&str], value: &str) -> bool {
    listed.iter().any(|it| *it == value)
}

/// What the line of an attribute leaves unknown and is printed all the same, if anything.
pub(crate) fn unseen(attribute: &MediaAttribute) -> Option<Unseen> {
    match attribute {
        MediaAttribute::RtcpFb { value, .. }
            if !is_seen_feedback(seen_feedback(), value.as_str()) => Some(Unseen::Feedback),
        _ => None,
    }
}

fn holds_unseen_parameter(values: &[FormatParam]) -> bool {
    values.iter().any(|value| matches!(value, FormatParam::Unknown | FormatParam::AmrWbUnsupported))
}

/// What is lost where the line of an attribute is printed otherwise than it stands, and not only in another spelling.
pub(crate) fn change(attribute: &MediaAttribute) -> Change {
    match attribute {
        MediaAttribute::RtpMap { value, .. } if matches!(value.codec, Codec::Unknown) =>
            Change::Codec,
        MediaAttribute::Fmtp { values, .. } => if holds_unseen_parameter(values.as_slice()) {
            Change::FormatKey
        } else {
            Change::FormatValue
        },
        MediaAttribute::ExtMap { .. } => Change::Extension,
        MediaAttribute::Simulcast(_) => Change::Layers,
        MediaAttribute::Mid(_) => Change::Mid,
        MediaAttribute::Candidate(_) => Change::Candidate,
        _ => Change::Spelling,
    }
}

/// Whether no line is printed of an attribute: of a format of which nothing is known.
pub(crate) fn is_unprinted_as_unseen(
    alloc: Global,
    attribute: &MediaAttribute,
) -> Result<bool, AllocError> {
    match attribute {
        MediaAttribute::Fmtp { values, .. } if holds_unseen_parameter(values.as_slice()) => {
            Ok(attribute.to_string(alloc)?.is_empty())
        }
        _ => Ok(false),
    }
}
