//! Answers cases of rounds with whole texts, of sections that are made of rows, and of what is printed and read again.

use crate::{made_sections, negotiated, read_back, row_lines, writable};
use format_cases::Answer;

/// Answers what the word asks of the text; whether it is one of these words.
pub(crate) fn answers(answer: &mut Answer, word: &str, text: &str) -> bool {
    writable::answers(answer, word, text)
        || negotiated::answers(answer, word, text)
        || read_back::answers(answer, word, text)
        || made_sections::answers(answer, word, text)
        || row_lines::answers(answer, word, text)
}
