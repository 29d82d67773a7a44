//! Roles in setting up the transport (RFC 8842, section 5.2), and what m-lines carry.

use crate::spoken::{spoken_description, spoken_session};
use format_cases::Answer;
use str0m_signal::{MediaLine, Setup};

/// Answers what the word asks of the text; whether it is one of these words.
pub(crate) fn answers(answer: &mut Answer, word: &str, text: &str) -> bool {
    match word {
        "roles" => roles(answer, text),
        "role-answered" => answering_role(answer, text),
        "carries" => carries_role(answer, text),
        _ => return false,
    }
    true
}

/// What two sides become, that offer these roles.
fn roles(answer: &mut Answer, text: &str) {
    let (own, remote) = text.split_once(' ').unwrap_or((text, ""));
    match (role(answer, own), role(answer, remote)) {
        (Some(own), Some(remote)) => settled_role(answer, own, remote),
        _ => answer.no_such("role"),
    }
}

/// The role that answers this one, or one that isn't said.
fn answering_role(answer: &mut Answer, word: &str) {
    let offered = role(answer, word);
    answer.push(Setup::answer(offered).setup_line());
}

fn role(answer: &mut Answer, word: &str) -> Option<Setup> {
    let alloc = answer.alloc();
    let line = answer.kept(format!(in alloc; "a=setup:{word}\r\n"), String::new(alloc));
    match &spoken_session(answer, line.as_str()) {
        Some(session) => session.setup(),
        None => None,
    }
}

fn settled_role(answer: &mut Answer, own: Setup, remote: Setup) {
    answer.push(role_word_of(own.compare_to_remote(remote)));
    answer.push(" | ");
    answer.push(role_word_of(remote.compare_to_remote(own)));
    answer.push(", inverted twice ");
    answer.push(own.invert().invert().setup_line());
}

fn role_word_of(role: Option<Setup>) -> &'static str {
    match role {
        None => "none",
        Some(Setup::ActPass) => "actpass",
        Some(Setup::Active) => "active",
        Some(Setup::Passive) => "passive",
    }
}

/// What a section of this m-line carries.
fn carries_role(answer: &mut Answer, head: &str) {
    let alloc = answer.alloc();
    let lines = format!(in alloc; "{head}\r\na=mid:0\r\na=inactive\r\n");
    let lines = answer.kept(lines, String::new(alloc));
    if let Some(sdp) = &spoken_description(answer, lines.as_str()) {
        show_said_kind_of_first(answer, sdp.media_lines.as_slice());
    }
}

fn show_said_kind_of_first(answer: &mut Answer, sections: &[MediaLine]) {
    match sections.first() {
        None => answer.push("no section"),
        Some(section) => show_said_kind(answer, section),
    }
}

fn show_said_kind(answer: &mut Answer, section: &MediaLine) {
    answer.push(match (section.typ.is_media(), section.typ.is_channel()) {
        (true, true) => "media and channels",
        (true, false) => "media",
        (false, true) => "channels",
        (false, false) => "neither media nor channels",
    });
    answer.push(", over ");
    answer.push(section.proto.proto_line());
}
