//! Rounds of negotiation, and the distances of RED. A round is a direction and the remote rows, as
//! `recvonly 96 - - opus/48000/2 -`; rounds stand after this side's rows, each after ` | `.

use crate::answer::Answer;
use crate::claim_words::CLAIMS_DIFFER;
use crate::configuration_calls::{config_of, copy_of_configuration, is_same_configuration};
use crate::lists::listed_word;
use crate::row_answers::show_rows;
use crate::row_texts::rows_of;
use crate::row_words::{direction_of_rows, word_sides};
use str0m_formats::{ClaimMask, Claimed, CodecConfig, NegotiationError, Round};

type OutcomeOfRound = Result<(), NegotiationError>;

fn round_of(answer: &mut Answer, text: &str) -> Round {
    let (direction, remote) = listed_word(text);
    let direction = direction_of_rows(answer, direction);
    let remote = rows_of(answer, remote);
    Round { remote, direction }
}

fn rounds_of(answer: &mut Answer, text: &str) -> Vec<Round> {
    let mut rounds = Vec::new(answer.alloc());
    for one in text.split(" | ") {
        let round = round_of(answer, one);
        if rounds.push(round).is_err() {
            answer.refuse();
        }
    }
    rounds
}

/// `ok`, or the text of the cause.
fn show_round_outcome(answer: &mut Answer, outcome: OutcomeOfRound) {
    match outcome {
        Ok(()) => answer.push("ok"),
        Err(cause) => answer.show(&cause),
    }
}

/// Runs one round with a table of claims. Where memory is refused, the configuration has to be what it was.
fn run_round_in<C: Claimed>(
    answer: &mut Answer,
    config: &mut CodecConfig,
    round: &Round,
) -> OutcomeOfRound {
    let before = copy_of_configuration(answer, config);
    let outcome = config.update_params_in::<C>(round.remote.as_slice(), round.direction);
    if outcome == Err(NegotiationError::Memory) {
        answer.refuse_if(is_same_configuration(config, &before));
    }
    outcome
}

/// Runs one round with every table of claims; all have to come to the same.
fn run_one_round(answer: &mut Answer, config: &mut CodecConfig, round: &Round) -> OutcomeOfRound {
    let mut other = copy_of_configuration(answer, config);
    let outcome = run_round_in::<ClaimMask>(answer, config, round);
    let in_table = run_round_in::<[bool; 128]>(answer, &mut other, round);
    if in_table != outcome || !is_same_configuration(config, &other) {
        answer.settle(CLAIMS_DIFFER);
    }
    outcome
}

/// `rounds ROWS | ROUND | ROUND`: rounds one after another, each on a line: its outcome, and the rows that it leaves.
pub(crate) fn rounds(answer: &mut Answer, text: &str) {
    let (own, said) = word_sides(answer, text);
    let mut config = config_of(answer, own);
    let rounds = rounds_of(answer, said);
    rounds_one_by_one(answer, &mut config, rounds.as_slice());
}

fn rounds_one_by_one(answer: &mut Answer, config: &mut CodecConfig, rounds: &[Round]) {
    let mut separator = "";
    for round in rounds {
        let outcome = run_one_round(answer, config, round);
        answer.push(separator);
        show_round_outcome(answer, outcome);
        answer.push(": ");
        show_rows(answer, config.params());
        separator = "\n";
    }
}

/// Runs rounds in one call. Where the whole call is refused memory, the configuration has to be what it was; a round
/// that is refused it has to leave the rows as those before it left them, as `alone` is told round by round.
fn run_all_rounds(answer: &mut Answer, config: &mut CodecConfig, rounds: &[Round]) {
    let mut alone = copy_of_configuration(answer, config);
    match &config.update_all(rounds) {
        Ok(outcomes) => {
            show_round_outcomes(answer, outcomes.as_slice());
            let wants_memory = run_rounds_again(answer, &mut alone, rounds, outcomes.as_slice());
            if wants_memory || !is_same_configuration(config, &alone) {
                answer.refuse_if(is_same_configuration(config, &alone));
            }
        }
        Err(_) => answer.refuse_if(is_same_configuration(config, &alone)),
    }
}

/// Runs those of the rounds again that weren't refused memory; whether one was.
fn run_rounds_again(
    answer: &mut Answer,
    config: &mut CodecConfig,
    rounds: &[Round],
    outcomes: &[OutcomeOfRound],
) -> bool {
    let mut wants_memory = false;
    for (round, outcome) in rounds.iter().zip(outcomes.iter()) {
        if *outcome == Err(NegotiationError::Memory) {
            wants_memory = true;
        } else {
            let _ = run_one_round(answer, config, round);
        }
    }
    wants_memory
}

/// `together ROWS | ROUND | ROUND`: rounds in one call, their outcomes and the rows that the last one leaves.
pub(crate) fn run_rounds_together(answer: &mut Answer, text: &str) {
    let (own, said) = word_sides(answer, text);
    let mut config = config_of(answer, own);
    let rounds = rounds_of(answer, said);
    run_all_rounds(answer, &mut config, rounds.as_slice());
    show_rows(answer, config.params());
}

/// Each outcome, with a colon after it.
fn show_round_outcomes(answer: &mut Answer, outcomes: &[OutcomeOfRound]) {
    for outcome in outcomes {
        show_round_outcome(answer, *outcome);
        answer.push(": ");
    }
}

fn distance_numbers(answer: &mut Answer, text: &str) -> Vec<u32> {
    let mut numbers = Vec::new(answer.alloc());
    for one in text.split_whitespace() {
        match one.parse::<u32>() {
            Ok(number) => answer.note(numbers.extend_from_slice(&[number])),
            Err(_) => answer.no_such("distance"),
        }
    }
    numbers
}

fn show_distances(answer: &mut Answer, config: &CodecConfig) {
    let mut separator = "";
    for distance in config.red_distances() {
        answer.push(separator);
        answer.show(distance);
        separator = " ";
    }
}

/// `distances N N`: the distances that are kept of those that are asked for; of `-` those of a new configuration.
pub(crate) fn distances(answer: &mut Answer, text: &str) {
    let mut config = CodecConfig::empty(answer.alloc());
    if text != "-" {
        let numbers = distance_numbers(answer, text);
        config.set_red_distances(numbers.as_slice());
    }
    show_distances(answer, &config);
}
