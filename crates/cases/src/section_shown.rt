//! What sessions and sections hold, a line for each part.

use crate::lines::{push_printed, show_line};
use format_cases::Answer;
use str0m_signal::{Bandwidth, MediaLine, Proto, Pt, Session};

/// What begins the line of a part under its head.
const SECTION_PART: &str = "\n  ";

/// Appends the session's number, its bandwidth and its attributes.
pub(crate) fn append_session(answer: &mut Answer, session: &Session) {
    answer.push("session ");
    answer.show(&*session.id);
    append_shown_bandwidth(answer, &session.bw);
    for attribute in session.attrs.as_slice() {
        answer.push(SECTION_PART);
        show_line(answer, attribute);
    }
}

/// Appends what the section's m-line says, its bandwidth and its attributes.
pub(crate) fn append_section(answer: &mut Answer, section: &MediaLine) {
    append_section_head(answer, section);
    append_shown_bandwidth(answer, &section.bw);
    for attribute in section.attrs.as_slice() {
        answer.push(SECTION_PART);
        show_line(answer, attribute);
    }
}

fn append_section_head(answer: &mut Answer, section: &MediaLine) {
    answer.push("\nsection ");
    answer.show(&section.typ);
    answer.push(if section.disabled {
        ", disabled"
    } else {
        ", enabled"
    });
    answer.push(match section.proto {
        Proto::Srtp => ", SRTP, ",
        Proto::Sctp => ", SCTP, ",
    });
    append_section_types(answer, section.pts.as_slice());
}

/// The payload types of an m-line, in order.
fn append_section_types(answer: &mut Answer, pts: &[Pt]) {
    answer.push(if pts.is_empty() {
        "no payload types"
    } else {
        "payload types"
    });
    for pt in pts {
        answer.push(" ");
        answer.show(pt);
    }
}

fn append_shown_bandwidth(answer: &mut Answer, bandwidth: &Option<Bandwidth>) {
    if let Some(bandwidth) = bandwidth {
        answer.push(SECTION_PART);
        push_printed(answer, bandwidth);
    }
}
