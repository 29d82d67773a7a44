//! What is said of rounds.
ghost use Rattle.lint.specs.Fates.{AddsFates, RoundSays, RoundsSay, fate, refusal_fate, fate_as_list};
ghost use Rattle.lint.specs.declared.code.Fate.{Fate};
ghost use Rattle.std.specs.Prelude.{◌≡◌, Err, List, OnOk, Some, filter_map};

use crate::code::{Code, Fate};
use crate::difference::nearest_row;
use crate::fate::{RanRound, row_has_type};
use crate::notes::Notes;
use crate::part::Place;
use crate::row_places::{PlaceCursor, RowPlaces, next_places};
use std::alloc::{AllocError, Global};
use str0m_formats::{CodecConfig, NegotiationError, PayloadParams};
use str0m_sdp::MediaLine;
use str0m_values::Pt;

/// Which row of this side goes with a row of the other one, and under which type.
fn round_locked_detail(
    alloc: Global,
    ran: &RanRound<'_>,
    partners: &[Option<Pt>],
    theirs: &PayloadParams,
) -> Result<String, AllocError> {
    let at = partners
        .iter()
        .position(|it| *it == Some(theirs.pt()))
        .unwrap_or(0);
    let (Some(old), Some(new)) = (ran.before.get(at), ran.after.get(at)) else {
        return Ok(String::new(alloc));
    };
    let (codec, pt) = (new.spec().codec, new.pt());
    if old.locked() {
        return format!(in alloc; "`{codec}` under type {pt}, which an earlier section locks");
    }
    format!(in alloc; "`{codec}` under type {pt}")
}

/// With which row the row of this side goes that fits a row of the other one.
fn round_passed_over_detail(
    alloc: Global,
    ran: &RanRound<'_>,
    partners: &[Option<Pt>],
    theirs: &PayloadParams,
) -> Result<String, AllocError> {
    let at = ran
        .before
        .iter()
        .position(|row| row.match_score(theirs).is_some())
        .unwrap_or(0);
    match partners.get(at) {
        Some(Some(pt)) => format!(in alloc; "type {pt}"),
        _ => Ok(String::new(alloc)),
    }
}

/// Which type of a row is taken, and by what, where that was locked before.
fn round_taken_detail(
    alloc: Global,
    ran: &RanRound<'_>,
    theirs: &PayloadParams,
) -> Result<String, AllocError> {
    let pt = match ran.outcome {
        Err(NegotiationError::ClaimedTwice(pt)) => pt,
        _ => theirs.pt(),
    };
    match ran
        .after
        .iter()
        .find(|row| row.locked() && row_has_type(row, pt))
    {
        Some(row) => {
            let codec = row.spec().codec;
            format!(in alloc; "type {pt}, by `{codec}`")
        }
        None => format!(in alloc; "type {pt}, by an earlier row"),
    }
}

/// What stands there, by what comes of a row.
fn round_detail<'a>(
    alloc: Global,
    ran: &RanRound<'a>,
    partners: &[Option<Pt>],
    theirs: &'a PayloadParams,
    fate: Fate,
) -> Result<String, AllocError> {
    match fate {
        Fate::Locked => round_locked_detail(alloc, ran, partners, theirs),
        Fate::OtherRow => round_passed_over_detail(alloc, ran, partners, theirs),
        Fate::TakenType => round_taken_detail(alloc, ran, theirs),
        Fate::OtherFormat => match nearest_row(alloc, ran.before, theirs)? {
            Some(pair) => pair.detail(alloc),
            None => Ok(String::new(alloc)),
        },
        Fate::NoCodec | Fate::RefusedRound => {
            let codec = theirs.spec().codec;
            format!(in alloc; "`{codec}`")
        }
    }
}

/// Says what comes of a row.
fn note_fate<'a>(
    notes: &mut Notes,
    line: usize,
    ran: &RanRound<'a>,
    partners: &[Option<Pt>],
    theirs: &'a PayloadParams,
    fate: Fate,
) -> Result<(), AllocError>
    ensures said { OnOk result (AddsFates (fate_as_list (Some fate)) notes.old notes.new) }
    ensures last { notes.new.last ≡ notes.old.last }
{
    let detail = round_detail(notes.alloc(), ran, partners, theirs, fate)?;
    let place = Place { line, column: 1 };
    notes.add(place, Code::Round(fate), detail.as_str())
}

/// Says what comes of a row, if anything.
#[tactic(auto, using(crate::proofs::FateLaws::adds_no_fate))]
fn note_row<'a>(
    notes: &mut Notes,
    places: &RowPlaces,
    ran: &RanRound<'a>,
    partners: &[Option<Pt>],
    theirs: &'a PayloadParams,
) -> Result<(), AllocError>
    ensures said { OnOk result (AddsFates
        (fate_as_list (fate ran.now.before.now ran.now.receives ran.now.after.now ran.now.outcome partners.now theirs.now)) notes.old notes.new) }
    ensures last { notes.new.last ≡ notes.old.last }
{
    match ran.fate(partners, theirs) {
        Some(fate) => note_fate(notes, places.of(theirs.pt()), ran, partners, theirs, fate),
        None => Ok(()),
    }
}

/// Says what comes of each row of a section.
fn note_rows(
    notes: &mut Notes,
    places: &RowPlaces,
    ran: &RanRound<'_>,
    partners: &[Option<Pt>],
) -> Result<(), AllocError>
    ensures said { OnOk result (AddsFates
        (filter_map (fate ran.now.before.now ran.now.receives ran.now.after.now ran.now.outcome partners.now) ran.now.theirs.now.params.items) notes.old notes.new) }
    ensures last { notes.new.last ≡ notes.old.last }
{
    for theirs in ran.theirs.params() {
        note_row(notes, places, ran, partners, theirs)?;
    }
    Ok(())
}

/// Says that a round is refused for this cause.
fn note_cause(notes: &mut Notes, line: usize, cause: NegotiationError) -> Result<(), AllocError>
    ensures said { OnOk result (AddsFates (refusal_fate (Err cause)) notes.old notes.new) }
    ensures last { notes.new.last ≡ notes.old.last }
{
    if let NegotiationError::Memory = cause {
        return Err(AllocError);
    }
    let cause = cause.to_string(notes.alloc())?;
    let place = Place { line, column: 1 };
    notes.add(place, Code::Round(Fate::RefusedRound), cause.as_str())
}

/// Says that a round is refused, and why, where it is.
#[tactic(auto, using(crate::proofs::FateLaws::adds_no_fate))]
fn note_refusal(
    notes: &mut Notes,
    line: usize,
    outcome: Result<(), NegotiationError>,
) -> Result<(), AllocError>
    ensures said { OnOk result (AddsFates (refusal_fate outcome) notes.old notes.new) }
    ensures last { notes.new.last ≡ notes.old.last }
{
    match outcome {
        Ok(()) => Ok(()),
        Err(cause) => note_cause(notes, line, cause),
    }
}

/// Runs the round of a section, and says what comes of it.
fn note_round(
    notes: &mut Notes,
    places: &RowPlaces,
    section: &MediaLine,
    config: &mut CodecConfig,
) -> Result<(), AllocError>
    ensures said { OnOk result ((fates : List Fate) × AddsFates fates notes.old notes.new
        × RoundSays section.now config.old.params.items fates config.new.params.items) }
    ensures last { notes.new.last ≡ notes.old.last }
{
    let before = config.clone()?;
    let theirs = CodecConfig::new_from_payload_params(notes.alloc(), section.rtp_params()?);
    let direction = section.direction();
    let outcome = config.update_params(theirs.params(), direction);
    note_refusal(notes, places.head, outcome)?;
    let ran = RanRound {
        before: before.params(),
        after: config.params(),
        theirs: &theirs,
        receives: direction.sdp_is_receiving(),
        outcome,
    };
    let partners = ran.partners(notes.alloc())?;
    note_rows(notes, places, &ran, partners.as_slice())
}

/// Runs the rounds of the audio and video sections of a text, in order, and says what comes of each.
pub(crate) fn note_rounds(
    notes: &mut Notes,
    text: &str,
    sections: &[MediaLine],
    config: &mut CodecConfig,
) -> Result<(), AllocError>
    ensures said { OnOk result ((fates : List Fate) × AddsFates fates notes.old notes.new
        × RoundsSay sections.now config.old.params.items fates config.new.params.items) }
    ensures last { notes.new.last ≡ notes.old.last }
{
    let mut cursor = PlaceCursor::of(text);
    for section in sections {
        let (places, behind) = next_places(cursor, section);
        cursor = behind;
        if section.typ.is_media() {
            note_round(notes, &places, section, config)?;
        }
    }
    Ok(())
}
