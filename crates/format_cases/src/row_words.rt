//! What is asked of rows and of configurations.

use crate::answer::Answer;
use crate::configuration_calls::{config_of, made_configuration};
use crate::identifiers::direction;
use crate::lists::listed_word;
use crate::row_answers::{show_row, show_rows};
use crate::row_texts::{row_of, row_spec_of, row_type_of, rows_of};
use str0m_formats::{CodecConfig, PayloadParams};
use str0m_values::{Direction, MediaKind, Pt};

/// What stands on both sides of the first bar.
pub(crate) fn word_sides<'a>(answer: &mut Answer, text: &'a str) -> (&'a str, &'a str) {
    match text.split_once(" | ") {
        Some(sides) => sides,
        None => {
            answer.no_such("second side");
            (text, "")
        }
    }
}

pub(crate) fn direction_of_rows(answer: &mut Answer, text: &str) -> Direction {
    match direction(text) {
        Some(direction) => direction,
        None => {
            answer.no_such("direction");
            Direction::Inactive
        }
    }
}

fn kind_of_rows(answer: &mut Answer, text: &str) -> MediaKind {
    match text {
        "audio" => MediaKind::Audio,
        "video" => MediaKind::Video,
        _ => {
            answer.no_such("kind");
            MediaKind::Audio
        }
    }
}

/// A row of a codec alone, as `opus/48000/2 minptime=10`, at this type.
fn row_of_spec(answer: &mut Answer, pt: u8, text: &str) -> PayloadParams {
    let (map, format) = listed_word(text);
    PayloadParams::new(Pt::from(pt), None, row_spec_of(answer, map, format))
}

/// `score SPEC | SPEC`: how well two rows match.
pub(crate) fn row_score(answer: &mut Answer, text: &str) {
    let (own, other) = word_sides(answer, text);
    let own = row_of_spec(answer, 96, own);
    let other = row_of_spec(answer, 97, other);
    answer.show_or(&own.match_score(&other), "none");
}

/// `configuration CALLS`: the rows that the calls leave.
pub(crate) fn configuration_rows(answer: &mut Answer, text: &str) {
    let config = made_configuration(answer, text);
    show_rows(answer, config.params());
}

fn show_row_or_none(answer: &mut Answer, row: Option<&PayloadParams>) {
    match row {
        Some(row) => show_row(answer, row),
        None => answer.push("none"),
    }
}

/// `match ROWS | ROW`: the row that matches best.
pub(crate) fn best_row(answer: &mut Answer, text: &str) {
    let (own, asked) = word_sides(answer, text);
    let config = config_of(answer, own);
    let rows = rows_of(answer, asked);
    match rows.first() {
        Some(asked) => show_row_or_none(answer, config.match_params(*asked)),
        None => answer.no_such("row"),
    }
}

/// `meet DIRECTION ROWS | ROW`: the type under which the remote row of the direction is met.
pub(crate) fn met_row(answer: &mut Answer, text: &str) {
    let (own, remote) = word_sides(answer, text);
    let (direction, own) = listed_word(own);
    let direction = direction_of_rows(answer, direction);
    let config = config_of(answer, own);
    let remote = row_of(answer, remote);
    answer.show_or(&config.sdp_match_remote(remote, direction), "none");
}

fn show_rows_of_kind(
    answer: &mut Answer,
    config: &CodecConfig,
    kind: MediaKind,
    for_new_offer: bool,
) {
    let mut is_any = false;
    for row in config.all_for_kind(kind, for_new_offer) {
        answer.push_if(is_any, " + ");
        show_row(answer, row);
        is_any = true;
    }
    answer.push_if(!is_any, "none");
}

/// `kind KIND ROWS`: the rows of the kind, and by `offer KIND ROWS` those for a new offer.
pub(crate) fn rows_of_kind(answer: &mut Answer, text: &str, for_new_offer: bool) {
    let (kind, rows) = listed_word(text);
    let kind = kind_of_rows(answer, kind);
    let config = config_of(answer, rows);
    show_rows_of_kind(answer, &config, kind, for_new_offer);
}

/// `maximum TYPE ROWS`: the highest telephone event of the row of the type.
pub(crate) fn row_maximum_event(answer: &mut Answer, text: &str) {
    let (pt, rows) = listed_word(text);
    let pt = row_type_of(answer, pt);
    let config = config_of(answer, rows);
    answer.show_or(&config.tele_event_max(pt), "none");
}

/// `has TYPE ROWS`: whether a row has the type as its primary one.
pub(crate) fn has_row(answer: &mut Answer, text: &str) {
    let (pt, rows) = listed_word(text);
    let pt = row_type_of(answer, pt);
    let config = config_of(answer, rows);
    answer.push(if config.has_pt(pt) { "yes" } else { "no" });
}

/// The row, and the feedback that is on.
fn row_with_feedback(answer: &mut Answer, row: &PayloadParams) {
    show_row(answer, row);
    answer.push(" with");
    answer.push_if(row.fb_transport_cc(), " transport-cc");
    answer.push_if(row.fb_fir(), " fir");
    answer.push_if(row.fb_nack(), " nack");
    answer.push_if(row.fb_pli(), " pli");
    answer.push_if(row.fb_remb(), " remb");
}

/// `feedback ROW`: the row, and the feedback that is on.
pub(crate) fn row_feedback(answer: &mut Answer, text: &str) {
    let rows = rows_of(answer, text);
    match rows.first() {
        Some(row) => row_with_feedback(answer, row),
        None => answer.no_such("row"),
    }
}

/// `probe TYPE`: a row for packets that only probe.
pub(crate) fn row_for_probe(answer: &mut Answer, text: &str) {
    let row = PayloadParams::new_probe(row_type_of(answer, text));
    row_with_feedback(answer, &row);
}
