//! Answers cases of lines and of whole descriptions: what they are read as, what they print, and what is left; and of layers and
//! names that no line is read as.

use crate::{descriptions, layers, lines};
use format_cases::Answer;

/// Answers what the word asks of the text; whether it is one of these words.
pub(crate) fn answers(answer: &mut Answer, word: &str, text: &str) -> bool {
    lines::answers(answer, word, text)
        || descriptions::answers(answer, word, text)
        || layers::answers(answer, word, text)
}
