//! Answers cases of values: what the call that a word names answers of a text.

use crate::answer::Answer;
use crate::{
    addresses, candidates, fingerprints, h264_profiles, identifiers, numbers, tiered_profiles,
};

/// Answers what the word asks of the text; whether it is a word of values.
pub(crate) fn answers(answer: &mut Answer, asked: &str, text: &str) -> bool {
    addresses::answers(answer, asked, text)
        || candidates::answers(answer, asked, text)
        || fingerprints::answers(answer, asked, text)
        || identifiers::answers(answer, asked, text)
        || numbers::answers(answer, asked, text)
        || h264_profiles::answers(answer, asked, text)
        || tiered_profiles::answers(answer, asked, text)
}
