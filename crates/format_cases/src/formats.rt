//! Codecs, formats, rows and rounds: the words of their cases.

use crate::answer::Answer;
use crate::{claim_words, format_words, plain_rows, round_words, row_words};

/// Answers what the word asks of the text; whether it is a word of formats, rows or rounds.
pub(crate) fn answers(answer: &mut Answer, word: &str, text: &str) -> bool {
    of_formats(answer, word, text)
        || of_configurations(answer, word, text)
        || of_rows(answer, word, text)
        || of_rounds(answer, word, text)
}

/// What is asked of codecs and formats.
fn of_formats(answer: &mut Answer, word: &str, text: &str) -> bool {
    match word {
        "static" => format_words::static_format(answer, text),
        "param" => format_words::param(answer, text),
        "pairs" => format_words::format_of_pairs(answer, text),
        "set" => format_words::set_format(answer, text),
        "codec" => format_words::codec(answer, text),
        "events" => format_words::telephone_events(answer, text),
        "line" => format_words::format_of_line(answer, text),
        "parameters" => format_words::parameters_of_format(answer, text),
        "triple" => format_words::format_triple(answer, text),
        _ => return false,
    }
    true
}

/// What is asked of configurations.
fn of_configurations(answer: &mut Answer, word: &str, text: &str) -> bool {
    match word {
        "configuration" => row_words::configuration_rows(answer, text),
        "match" => row_words::best_row(answer, text),
        "meet" => row_words::met_row(answer, text),
        "kind" => row_words::rows_of_kind(answer, text, false),
        "offer" => row_words::rows_of_kind(answer, text, true),
        "maximum" => row_words::row_maximum_event(answer, text),
        "has" => row_words::has_row(answer, text),
        _ => return false,
    }
    true
}

/// What is asked of rows.
fn of_rows(answer: &mut Answer, word: &str, text: &str) -> bool {
    match word {
        "score" => row_words::row_score(answer, text),
        "feedback" => row_words::row_feedback(answer, text),
        "probe" => row_words::row_for_probe(answer, text),
        "plain" => plain_rows::plain(answer, text),
        _ => return false,
    }
    true
}

/// Rounds, and what they claim.
fn of_rounds(answer: &mut Answer, word: &str, text: &str) -> bool {
    match word {
        "rounds" => round_words::rounds(answer, text),
        "together" => round_words::run_rounds_together(answer, text),
        "claims" => claim_words::claims(answer, text),
        "unclaimed" => claim_words::unclaimed_types(answer, text),
        "distances" => round_words::distances(answer, text),
        _ => return false,
    }
    true
}
