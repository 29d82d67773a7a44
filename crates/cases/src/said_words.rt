//! Answers cases of what sessions and sections say.

use crate::{fmtp_lines, said_by_sections, said_by_sessions, said_roles, said_rows, said_sources};
use format_cases::Answer;

/// Answers what the word asks of the text; whether it is one of these words.
pub(crate) fn answers(answer: &mut Answer, word: &str, text: &str) -> bool {
    said_by_sections::answers(answer, word, text)
        || said_by_sessions::answers(answer, word, text)
        || said_rows::answers(answer, word, text)
        || said_sources::answers(answer, word, text)
        || said_roles::answers(answer, word, text)
        || fmtp_lines::answers(answer, word, text)
}
