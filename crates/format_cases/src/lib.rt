//! Answers cases of values, formats, rows and rounds: what the call that a word names answers of a text.
//!
//! - `addresses`: Addresses: as they are printed, and the numbers that they hold.
//! - `answer`: Answers of cases, written part by part.
//! - `candidates`: Candidates: as they are printed, and their parts.
//! - `claim_words`: Tables of claimed payload types.
//! - `configuration_calls`: Configurations by the calls that make them, parted by `, `, as `defaults, disable opus`.
//! - `fingerprints`: Fingerprints: as they are printed, their parts, and which hash is preferred.
//! - `format_words`: Codecs, parameters and formats: what is read and what is printed.
//! - `formats`: Codecs, formats, rows and rounds: the words of their cases.
//! - `h264_profiles`: Profiles and levels of H264.
//! - `identifiers`: Names, directions and extensions.
//! - `lists`: Words and numbers in a text.
//! - `numbers`: Numbers: clock rates, what RTP and origin lines name by numbers.
//! - `plain_rows`: Whether rows are plain.
//! - `round_words`: Rounds of negotiation, and the distances of RED.
//! - `row_answers`: Rows and lists as answers show them.
//! - `row_texts`: Rows as cases write them, and as answers show them: `96 97 - VP8/90000 -`, which is the primary type.
//! - `row_words`: What is asked of rows and of configurations.
//! - `tiered_profiles`: Profiles, tiers and levels of H265 and H266.
//! - `value_words`: Answers cases of values: what the call that a word names answers of a text.
#![tactic(auto)]

mod addresses;
mod answer;
mod candidates;
mod claim_words;
mod configuration_calls;
mod fingerprints;
mod format_words;
mod formats;
mod h264_profiles;
mod identifiers;
mod lists;
mod numbers;
mod plain_rows;
mod round_words;
mod row_answers;
mod row_texts;
mod row_words;
mod tiered_profiles;
mod value_words;

pub use crate::answer::Answer;
pub use crate::configuration_calls::{configuration, is_same_configuration};
pub use crate::row_answers::show_rows;
pub use crate::row_texts::rows_of;

/// Answers what the word asks of the text; whether it is a word of this crate.
pub fn answers(answer: &mut Answer, word: &str, text: &str) -> bool {
    value_words::answers(answer, word, text) || formats::answers(answer, word, text)
}
