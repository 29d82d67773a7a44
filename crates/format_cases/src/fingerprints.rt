//! Fingerprints: as they are printed, their parts, and which hash is preferred.

use crate::answer::Answer;
use str0m_values::{Fingerprint, FingerprintError};

/// Answers what the word asks of the text; whether it is one of these words.
pub(crate) fn answers(answer: &mut Answer, word: &str, text: &str) -> bool {
    if !matches!(
        word,
        "fingerprint" | "fingerprint-parts" | "hash-preference"
    ) {
        return false;
    }
    let read = Fingerprint::from_str(answer.alloc(), text);
    of_fingerprint_read(answer, word, &read);
    true
}

/// What the word asks, or why the text is no fingerprint.
fn of_fingerprint_read(
    answer: &mut Answer,
    word: &str,
    read: &Result<Fingerprint, FingerprintError>,
) {
    match read {
        Ok(found) => of_fingerprint(answer, word, found),
        Err(error) => answer.show(error),
    }
}

fn of_fingerprint(answer: &mut Answer, word: &str, found: &Fingerprint) {
    match word {
        "fingerprint-parts" => fingerprint_parts(answer, found),
        "hash-preference" => answer.show(&found.hash_preference()),
        _ => answer.show(found),
    }
}

fn fingerprint_parts(answer: &mut Answer, found: &Fingerprint) {
    answer.push("hash function ");
    answer.push(found.hash_func.as_str());
    answer.push(", bytes ");
    answer.debug(&found.bytes.as_slice());
}
