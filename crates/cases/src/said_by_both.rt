//! What sessions, sections and descriptions may all say: a line of the answer for each, none where nothing is said.

use format_cases::Answer;
use std::alloc::AllocError;
use str0m_signal::{Candidates, Fingerprint, IceCreds, Setup};

pub(crate) fn add_said_setup(answer: &mut Answer, setup: Option<Setup>) {
    if let Some(setup) = setup {
        answer.line("setup");
        answer.push(setup.setup_line());
    }
}

/// What a copy of the credentials says.
pub(crate) fn add_said_credentials(
    answer: &mut Answer,
    found: &Result<Option<IceCreds>, AllocError>,
) {
    if let Some(creds) = answer.found(found) {
        add_said_credentials_copy(answer, creds);
    }
}

fn add_said_credentials_copy(answer: &mut Answer, creds: &IceCreds) {
    let copy = creds.clone();
    if let Some(creds) = answer.made(&copy) {
        answer.line("credentials");
        answer.show(&creds.ufrag);
        answer.push(" ");
        answer.show(&creds.pass);
    }
}

pub(crate) fn add_said_fingerprint(
    answer: &mut Answer,
    found: &Result<Option<Fingerprint>, AllocError>,
) {
    if let Some(fingerprint) = answer.found(found) {
        answer.line("fingerprint");
        answer.show(fingerprint);
    }
}

/// Appends the words where they are said.
pub(crate) fn add_said_flag(answer: &mut Answer, words: &str, is_said: bool) {
    if is_said {
        answer.item("\n");
        answer.push(words);
    }
}

/// The foundations of the candidates, in order.
pub(crate) fn add_said_foundations(answer: &mut Answer, all: Candidates<'_>) {
    let mut index = 0_usize;
    for candidate in all {
        answer.item_of_line("candidates", index);
        answer.push(candidate.foundation());
        index = index.saturating_add(1);
    }
}
