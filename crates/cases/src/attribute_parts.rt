//! What lines of mappings, formats and rids say, part by part.

use format_cases::Answer;
use str0m_signal::{FormatParam, MediaAttribute, Pt, RtpMap};

/// What the word asks of the attribute.
pub(crate) fn push_attribute_part(answer: &mut Answer, word: &str, attribute: &MediaAttribute) {
    match word {
        "is-direction" => answer.push(if attribute.is_direction() {
            "yes"
        } else {
            "no"
        }),
        "rtpmap" => rtpmap_parts(answer, attribute),
        "fmtp-line" => fmtp_parts(answer, attribute),
        _ => rid_parts(answer, attribute),
    }
}

fn rtpmap_parts(answer: &mut Answer, attribute: &MediaAttribute) {
    match attribute {
        MediaAttribute::RtpMap { pt, value } => mapping_parts(answer, *pt, value),
        _ => answer.push("no mapping"),
    }
}

fn mapping_parts(answer: &mut Answer, pt: Pt, map: &RtpMap) {
    answer.show(&pt);
    answer.push(": ");
    answer.show(&map.codec);
    answer.push(", ");
    answer.show(&map.clock_rate.get());
    match map.channels {
        Some(channels) => {
            answer.push(" Hz, channels ");
            answer.show(&channels);
        }
        None => answer.push(" Hz, no channels"),
    }
}

fn fmtp_parts(answer: &mut Answer, attribute: &MediaAttribute) {
    match attribute {
        MediaAttribute::Fmtp { pt, values } => show_attribute_values(
            answer,
            *pt,
            values.as_slice(),
        ),
        _ => answer.push("no format"),
    }
}

/// The payload type, and each value in order.
fn show_attribute_values(answer: &mut Answer, pt: Pt, values: &[FormatParam]) {
    answer.show(&pt);
    answer.push(":");
    for value in values {
        answer.push(" ");
        show_attribute_value(answer, value);
    }
}

/// What a value prints, with its kind where it is no pair.
fn show_attribute_value(answer: &mut Answer, value: &FormatParam) {
    let kind = match value {
        FormatParam::Unknown => return answer.push("unknown"),
        FormatParam::BarePtList(_) => "list(",
        FormatParam::BareRange(_) => "range(",
        _ => "",
    };
    answer.push(kind);
    answer.show(value);
    answer.push_if(!kind.is_empty(), ")");
}

fn rid_parts(answer: &mut Answer, attribute: &MediaAttribute) {
    match attribute {
        MediaAttribute::Rid {
            id,
            pt,
            restriction,
            ..
        } => {
            answer.push("payload types ");
            answer.show(&pt.len());
            answer.push(", restrictions ");
            answer.show(&restriction.len());
            answer.push(if id.1 { ", active" } else { ", paused" });
        }
        _ => answer.push("no rid"),
    }
}
