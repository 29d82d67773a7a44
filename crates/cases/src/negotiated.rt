//! Rounds of negotiation with a whole text.

use crate::spoken::{fail_to_speak, push_failure_to_speak, spoken_behind_header};
use format_cases::{Answer, configuration, is_same_configuration, show_rows};
use str0m_signal::{
    CodecConfig, MediaKind, NegotiationError, SdpError, locked_rows, negotiate_text,
};

type NegotiatedOutcome = Result<(), NegotiationError>;

/// Answers what the word asks of the text; whether it is one of these words.
pub(crate) fn answers(answer: &mut Answer, word: &str, text: &str) -> bool {
    let (own, text) = text.split_once(" | ").unwrap_or((text, ""));
    match word {
        "negotiate" => {
            let text = spoken_behind_header(answer, text);
            negotiated(answer, own, text.as_str());
        }
        "negotiate-text" => negotiated(answer, own, text),
        "negotiate-locked" => locked_by_rounds(answer, own, text),
        _ => return false,
    }
    true
}

/// What the rounds of the text come to for the configuration that is named first, a line each, or why it is refused; then
/// the rows that are left. Where no round is accepted, the configuration has to be what it was.
fn negotiated(answer: &mut Answer, own: &str, text: &str) {
    let mut config = configuration(answer, own);
    let before = copy_of_negotiated(answer, &config);
    let outcomes = negotiate_text(&mut config, text);
    if is_any_round_accepted(&outcomes) || is_same_configuration(&config, &before) {
        show_negotiated_or_error(answer, &outcomes);
        answer.item("\n");
        show_rows(answer, config.params());
    } else {
        answer.settle("changed where no round was accepted");
    }
}

fn copy_of_negotiated(answer: &mut Answer, config: &CodecConfig) -> CodecConfig {
    let none = CodecConfig::empty(answer.alloc());
    answer.kept(config.clone(), none)
}

fn show_negotiated_or_error(
    answer: &mut Answer,
    outcomes: &Result<Vec<NegotiatedOutcome>, SdpError>,
) {
    match outcomes {
        Ok(outcomes) => show_negotiated_outcomes(answer, outcomes.as_slice()),
        Err(SdpError::Memory) => answer.refuse(),
        Err(error) => push_failure_to_speak(answer, error),
    }
}

/// What the rounds of the text come to, a line each, and then the rows that are locked by them, those of audio before those of
/// video.
fn locked_by_rounds(answer: &mut Answer, own: &str, text: &str) {
    let mut config = configuration(answer, own);
    match &negotiate_text(&mut config, text) {
        Ok(outcomes) => show_negotiated_outcomes(answer, outcomes.as_slice()),
        Err(error) => fail_to_speak(answer, error),
    }
    show_locked_by_rounds(answer, &config, "audio ", MediaKind::Audio);
    show_locked_by_rounds(answer, &config, "video ", MediaKind::Video);
}

/// The locked rows of a kind of media, after its name.
fn show_locked_by_rounds(answer: &mut Answer, config: &CodecConfig, name: &str, kind: MediaKind) {
    answer.item("\n");
    answer.push(name);
    let rows = locked_rows(config, kind);
    if let Some(rows) = answer.made(&rows) {
        show_rows(answer, rows.as_slice());
    }
}

fn is_any_round_accepted(outcomes: &Result<Vec<NegotiatedOutcome>, SdpError>) -> bool {
    match outcomes {
        Ok(outcomes) => outcomes.iter().any(|outcome| outcome.is_ok()),
        Err(_) => false,
    }
}

/// `ok`, or the text of the cause, of each round. A round that is refused memory is no answer.
pub(crate) fn show_negotiated_outcomes(answer: &mut Answer, outcomes: &[NegotiatedOutcome]) {
    for outcome in outcomes {
        answer.item("\n");
        match outcome {
            Ok(()) => answer.push("ok"),
            Err(NegotiationError::Memory) => answer.refuse(),
            Err(cause) => answer.show(cause),
        }
    }
}
