//! Descriptions, sessions and sections that cases are made of. Of a text that makes none the answer says why.

use format_cases::Answer;
use str0m_signal::{
    MediaLine, Sdp, SdpError, Session, media_attribute_line, sdp_parser, session_parser,
};

/// A header with nothing that may be left out.
const SPOKEN_HEADER: &str = "v=0\r\no=- 1 1 IN IP4 127.0.0.1\r\ns=-\r\nt=0 0\r\n";

/// The header, and these lines after it.
pub(crate) fn spoken_behind_header(answer: &mut Answer, lines: &str) -> String {
    let alloc = answer.alloc();
    answer.kept(
        format!(in alloc; "{SPOKEN_HEADER}{lines}"),
        String::new(alloc),
    )
}

/// Answers why a text is refused, and nothing else.
pub(crate) fn fail_to_speak(answer: &mut Answer, error: &SdpError) {
    match error {
        SdpError::Memory => answer.refuse(),
        error => answer.fail(error),
    }
}

/// What the header and these lines describe; a line that fits nowhere ends it.
pub(crate) fn spoken_description(answer: &mut Answer, lines: &str) -> Option<Sdp> {
    let text = spoken_behind_header(answer, lines);
    match sdp_parser(answer.alloc(), text.as_str()) {
        Ok((sdp, _)) => Some(sdp),
        Err(error) => {
            fail_to_speak(answer, &error);
            None
        }
    }
}

/// A session with these attribute lines.
pub(crate) fn spoken_session(answer: &mut Answer, lines: &str) -> Option<Session> {
    let text = spoken_behind_header(answer, lines);
    match session_parser(answer.alloc(), text.as_str()) {
        Ok((session, _)) => Some(session),
        Err(error) => {
            fail_to_speak(answer, &error);
            None
        }
    }
}

/// Adds what this line stands for.
pub(crate) fn add_attribute(answer: &mut Answer, section: &mut MediaLine, line: &str) {
    match media_attribute_line(answer.alloc(), line) {
        Ok((attribute, _)) => answer.note(section.attrs.push(attribute)),
        Err(error) => fail_to_speak(answer, &error),
    }
}

/// An audio section with these attribute lines alone, consistent or not.
pub(crate) fn spoken_section(answer: &mut Answer, lines: &str) -> MediaLine {
    let mut section = MediaLine::new(answer.alloc());
    for line in lines.split("\r\n") {
        if !line.is_empty() {
            add_attribute(answer, &mut section, line);
        }
    }
    section
}

/// Why a text is refused, as a part of the answer.
pub(crate) fn push_failure_to_speak(answer: &mut Answer, error: &SdpError) {
    answer.push("refused, ");
    answer.show(error);
}
