//! Sections that are made of rows in a frame, and the faults of sections.

use crate::escapes::push_escaped;
use crate::spoken::{spoken_description, spoken_section};
use format_cases::Answer;
use str0m_signal::{MediaLine, PayloadParams, Pt, section_of};

/// Answers what the word asks of the text; whether it is one of these words.
pub(crate) fn answers(answer: &mut Answer, word: &str, text: &str) -> bool {
    match word {
        "made" => made_section_of_text(answer, text),
        "fault" => section_fault(answer, text),
        _ => return false,
    }
    true
}

/// The rows of the second section of a description in the frame of its first, printed.
fn made_section_of_text(answer: &mut Answer, text: &str) {
    if let Some(sdp) = &spoken_description(answer, text) {
        section_made_of_two(answer, sdp.media_lines.as_slice());
    }
}

fn section_made_of_two(answer: &mut Answer, sections: &[MediaLine]) {
    match sections {
        [frame, said] => section_made_of(answer, frame, said),
        _ => answer.push("not two sections"),
    }
}

fn section_made_of(answer: &mut Answer, frame: &MediaLine, said: &MediaLine) {
    let rows = said.rtp_params();
    if let Some(rows) = answer.made(&rows) {
        push_made_section(answer, frame, rows.as_slice());
    }
}

/// What the section prints that is made of the rows in this frame.
pub(crate) fn push_made_section(answer: &mut Answer, frame: &MediaLine, rows: &[PayloadParams]) {
    let made = section_of(frame, rows);
    if let Some(made) = answer.made(&made) {
        let printed = answer.printed(made);
        push_escaped(answer, printed.as_str());
    }
}

/// What is said of an audio section with a payload type, or `-` for none, and these lines.
fn section_fault(answer: &mut Answer, text: &str) {
    let (pt, lines) = text.split_once(' ').unwrap_or((text, ""));
    let mut section = spoken_section(answer, lines);
    if let Ok(pt) = pt.parse::<u8>() {
        answer.note(section.pts.push(Pt::from(pt)));
    }
    show_section_fault(answer, &section);
}

fn show_section_fault(answer: &mut Answer, section: &MediaLine) {
    match &section.check_consistent() {
        Ok(None) => answer.push("consistent"),
        Ok(Some(message)) => answer.push(message.as_str()),
        Err(_) => answer.refuse(),
    }
}
