//! What sessions say, and what descriptions say in their session or their sections.

use crate::said_by_both::{
    add_said_credentials, add_said_fingerprint, add_said_flag, add_said_foundations, add_said_setup,
};
use crate::spoken::{fail_to_speak, spoken_description, spoken_session};
use format_cases::Answer;
use str0m_signal::{DistinctCandidates, Sdp, SdpError, Session};

/// Answers what the word asks of the text; whether it is one of these words.
pub(crate) fn answers(answer: &mut Answer, word: &str, text: &str) -> bool {
    match word {
        "session-says" => of_session(answer, text),
        "numbered-candidates" => numbered_session(answer, text),
        "description-says" | "consistency" | "emptied" => said_by_session(answer, word, text),
        _ => return false,
    }
    true
}

fn of_session(answer: &mut Answer, text: &str) {
    if let Some(session) = &spoken_session(answer, text) {
        session_says(answer, session);
    }
}

fn said_by_session(answer: &mut Answer, word: &str, text: &str) {
    if let Some(sdp) = &mut spoken_description(answer, text) {
        asked_of_session(answer, word, sdp);
    }
}

fn asked_of_session(answer: &mut Answer, word: &str, sdp: &mut Sdp) {
    match word {
        "description-says" => description_says(answer, sdp),
        "emptied" => emptied_session(answer, sdp),
        _ => consistency_of_session(answer, sdp),
    }
}

fn session_says(answer: &mut Answer, session: &Session) {
    add_said_setup(answer, session.setup());
    add_said_credentials(answer, &session.ice_creds());
    add_said_fingerprint(answer, &session.fingerprint());
    add_said_flag(answer, "ice-lite", session.ice_lite());
    add_said_foundations(answer, session.ice_candidates());
    add_said_flag(answer, "end of candidates", session.end_of_candidates());
    answer.or_word("nothing");
}

fn description_says(answer: &mut Answer, sdp: &Sdp) {
    add_said_setup(answer, sdp.setup());
    add_said_credentials(answer, &sdp.ice_creds());
    add_said_fingerprint(answer, &sdp.fingerprint());
    add_session_candidates(answer, sdp);
    add_session_bundle(answer, sdp);
    answer.or_word("nothing");
}

/// What its sections are for, and which go together.
fn add_session_bundle(answer: &mut Answer, sdp: &Sdp) {
    if let Some(init) = sdp.sctp_init() {
        answer.line("sctp-init");
        answer.push(init);
    }
    if let Some(mids) = sdp.bundle_mids() {
        answer.line("bundle");
        let mut separator = "";
        for mid in mids {
            answer.push(separator);
            answer.show(mid);
            separator = " + ";
        }
    }
}

/// The foundations of the description's candidates, each once.
fn add_session_candidates(answer: &mut Answer, sdp: &Sdp) {
    match sdp.ice_candidates() {
        Ok(all) => add_each_session_candidate(answer, all),
        Err(_) => answer.refuse(),
    }
}

fn add_each_session_candidate(answer: &mut Answer, all: DistinctCandidates<'_>) {
    let mut index = 0_usize;
    for candidate in all {
        answer.item_of_line("candidates", index);
        answer.push(candidate.foundation());
        index = index.saturating_add(1);
    }
}

/// What is said of a description that contradicts itself.
fn consistency_of_session(answer: &mut Answer, sdp: &Sdp) {
    match &sdp.assert_consistency() {
        Ok(()) => answer.push("consistent"),
        Err(SdpError::Inconsistent(message)) => answer.push(message.as_str()),
        Err(error) => fail_to_speak(answer, error),
    }
}

/// The same of one whose first section was taken its attributes.
fn emptied_session(answer: &mut Answer, sdp: &mut Sdp) {
    if let Some(section) = sdp.media_lines.0.first_mut() {
        section.attrs.0.clear();
    }
    consistency_of_session(answer, sdp);
}

/// A session of as many candidates as the text says, numbered from 0, each twice: those that it gives.
fn numbered_session(answer: &mut Answer, text: &str) {
    let count = text.parse::<u32>().unwrap_or(0);
    let mut lines = Answer::new(answer.alloc());
    add_numbered_to_session(&mut lines, count);
    add_numbered_to_session(&mut lines, count);
    if lines.is_refused() {
        answer.refuse();
    } else if let Some(sdp) = &spoken_description(answer, lines.text()) {
        show_session_count(answer, sdp);
    }
}

fn add_numbered_to_session(lines: &mut Answer, count: u32) {
    for number in 0..count {
        lines.push("a=candidate:");
        lines.show(&number);
        lines.push(" 1 udp 1 192.0.2.1 1 typ host\r\n");
    }
}

/// How many candidates a description gives up to the first that isn't numbered as it stands.
fn show_session_count(answer: &mut Answer, sdp: &Sdp) {
    match sdp.ice_candidates() {
        Ok(all) => show_session_count_of(answer, all),
        Err(_) => answer.refuse(),
    }
}

fn show_session_count_of(answer: &mut Answer, all: DistinctCandidates<'_>) {
    let mut count = 0_u32;
    for candidate in all {
        if !is_session_numbered(answer, candidate.foundation(), count) {
            answer.show(&count);
            return answer.push(" in order, then others");
        }
        count = count.wrapping_add(1);
    }
    answer.show(&count);
    answer.push(" in order");
}

fn is_session_numbered(answer: &mut Answer, foundation: &str, number: u32) -> bool {
    let number = number.to_string(answer.alloc());
    match answer.made(&number) {
        Some(number) => foundation == number.as_str(),
        None => false,
    }
}
