//! Candidates: as they are printed, and their parts.

use crate::answer::Answer;
use std::alloc::AllocError;
use str0m_values::candidate_text::candidate;
use str0m_values::{Candidate, SocketAddr};

/// Answers what the word asks of the text; whether it is one of these words.
pub(crate) fn answers(answer: &mut Answer, word: &str, text: &str) -> bool {
    if !matches!(word, "candidate" | "candidate-parts" | "candidate-again") {
        return false;
    }
    let read = candidate(answer.alloc(), text);
    of_candidate_read(answer, word, &read);
    true
}

fn of_candidate_read(
    answer: &mut Answer,
    word: &str,
    read: &Result<Option<Candidate>, AllocError>,
) {
    match read {
        Ok(Some(found)) => of_candidate(answer, word, found),
        Ok(None) => answer.push("none"),
        Err(_) => answer.refuse(),
    }
}

fn of_candidate(answer: &mut Answer, word: &str, found: &Candidate) {
    match word {
        "candidate-parts" => candidate_parts(answer, found),
        "candidate-again" => candidate_read_again(answer, found),
        _ => {
            let printed = candidate_as_printed(answer, found);
            answer.push(printed.as_str());
        }
    }
}

fn candidate_as_printed(answer: &mut Answer, found: &Candidate) -> String {
    let alloc = answer.alloc();
    answer.kept(found.to_sdp_string(alloc), String::new(alloc))
}

/// Its parts, a line each: those that every candidate has, and those that may be absent.
fn candidate_parts(answer: &mut Answer, found: &Candidate) {
    answer.push("foundation ");
    answer.push(found.foundation());
    answer.push("\ncomponent ");
    answer.show(&found.component_id());
    answer.push("\nprotocol ");
    answer.debug(&found.proto());
    answer.push("\npriority ");
    answer.show(&found.prio());
    answer.push("\naddress ");
    candidate_socket(answer, Some(found.addr()));
    answer.push("\nkind ");
    answer.debug(&found.kind());
    further_candidate_parts(answer, found);
}

fn further_candidate_parts(answer: &mut Answer, found: &Candidate) {
    answer.push("\nrelated address ");
    candidate_socket(answer, found.raddr());
    answer.push("\nTCP type ");
    match found.tcptype() {
        Some(tcptype) => answer.debug(&tcptype),
        None => answer.push("-"),
    }
    answer.push("\nufrag ");
    answer.push(found.ufrag().unwrap_or("-"));
}

/// The numbers of an address, and its port.
fn candidate_socket(answer: &mut Answer, socket: Option<SocketAddr>) {
    match socket {
        Some(SocketAddr { ip, port }) => {
            answer.debug(&ip);
            answer.push(" port ");
            answer.show(&port);
        }
        None => answer.push("-"),
    }
}

/// Whether the printed candidate is read as the same candidate again.
fn candidate_read_again(answer: &mut Answer, found: &Candidate) {
    let printed = candidate_as_printed(answer, found);
    let read = candidate(answer.alloc(), printed.as_str());
    compared_candidates(answer, found, &read);
}

fn compared_candidates(
    answer: &mut Answer,
    found: &Candidate,
    read: &Result<Option<Candidate>, AllocError>,
) {
    match read {
        Ok(Some(again)) if again == found => answer.push("the same"),
        Ok(Some(_)) => answer.push("another"),
        Ok(None) => answer.push("none of what was printed"),
        Err(_) => answer.refuse(),
    }
}
