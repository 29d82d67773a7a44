//! Calls that negotiate, and that answer with what is agreed.

ghost use Rattle.c_calls.specs.Common.{OfHandle};
ghost use Rattle.c_calls.specs.Prelude.{DescribesSession, IsRoomFull, MediaLine, RefusesReading, Sdp, Writable, c_outcome, made};
ghost use Rattle.c_calls.specs.RoundCalls.{AnsweredRound, CantAnswer, CantListRoundRows, ListsRoundRows, round_rows_of_type, RanRounds, RanHeldRound, cut_to_room};
ghost use Rattle.c_calls.specs.Told.{done, no_memory, no_section, no_session, no_utf8, nothing_agreed};
ghost use Rattle.std.specs.Prelude.{◌≡◌, ◌≢◌, ◌↔◌, ◌⊎◌, [], IfErr, IfNone, IfOk, IfSome, OnErr, OnOk, List, None, Some, ℕ, length, map, slice_get, IsUtf8};
ghost use Rattle.str0m_signal.specs.session.ReaderAnswers.{ReaderRefuses};

use crate::said::{DONE, NO_MEMORY, NO_SECTION, NOTHING_AGREED, say_refusal};
use c_parts::config_handle::ConfigHandle;
use c_parts::reading::Refusal;
use c_parts::row::{Outcome, outcome_of};
use c_parts::session_handle::SessionHandle;
use std::alloc::{AllocError, Global};
use std::str;
use str0m_signal::{
    CodecConfig, MediaKind, MediaLine, MediaType, NegotiationError, PayloadParams, Sdp, SdpError,
    is_writable, locked_rows, negotiate_text, section_of,
};

/// Fills room for as many outcomes as there are.
fn fill_round_outcomes(room: &mut [Outcome], outcomes: &[Result<(), NegotiationError>])
    requires { length room.old ≡ length outcomes.now }
    ensures { room.new ≡ map c_outcome outcomes.now }
{
    for i in 0..outcomes.len() {
        room[i] = outcome_of(&outcomes[i]);
    }
}

/// Writes as many of the first outcomes as there is room for.
fn put_round_outcomes(
    outcomes: &[Result<(), NegotiationError>],
    room: &mut [Outcome],
    needed: &mut usize,
)
    ensures needed { needed.new ≡ length outcomes.now }
    ensures written { room.new ≡ cut_to_room (map c_outcome outcomes.now) room.old }
{
    *needed = outcomes.len();
    if outcomes.len() <= room.len() {
        let (place, _) = room.split_at_mut(outcomes.len());
        fill_round_outcomes(place, outcomes);
    } else {
        let (first, _) = outcomes.split_at(room.len());
        fill_round_outcomes(room, first);
    }
}

fn negotiated_text(
    config: &mut CodecConfig,
    text: &str,
    room: &mut [Outcome],
    needed: &mut usize,
) -> Result<(), SdpError>
    ensures ran { OnOk result (RanRounds text.now config.old config.new room.old room.new needed.new) }
    ensures same { OnErr result (config.new ≡ config.old) }
    ensures kept { OnErr result (room.new ≡ room.old) }
    ensures uncounted { OnErr result (needed.new ≡ needed.old) }
    ensures refused { IfErr result (λ error. ReaderRefuses error (DescribesSession text.now)) }
{
    let outcomes = negotiate_text(config, text)?;
    put_round_outcomes(outcomes.as_slice(), room, needed);
    Ok(())
}

fn negotiated(
    config: &mut CodecConfig,
    bytes: &[u8],
    room: &mut [Outcome],
    needed: &mut usize,
) -> Result<(), Refusal>
    ensures ran { OnOk result (RanRounds bytes.now config.old config.new room.old room.new needed.new) }
    ensures same { OnErr result (config.new ≡ config.old) }
    ensures kept { OnErr result (room.new ≡ room.old) }
    ensures uncounted { OnErr result (needed.new ≡ needed.old) }
    ensures refused { IfErr result (λ refusal. RefusesReading refusal bytes.now) }
{
    match str::from_utf8(bytes) {
        Ok(text) => match negotiated_text(config, text, room, needed) {
            Ok(()) => Ok(()),
            Err(error) => Err(Refusal::Refused(error)),
        },
        Err(_) => Err(Refusal::NotUtf8),
    }
}

/// Runs a round for each audio and video section of a text. As many of the first outcomes as there is room for are written.
#[unsafe(no_mangle)]
pub extern "C" fn zaxp_config_negotiate(
    alloc: Global,
    handle: &mut ConfigHandle,
    text: &[u8],
    room: &mut [Outcome],
    needed: &mut usize,
    message: &mut [u8],
    message_length: &mut usize,
) -> u32
    requires { IsRoomFull handle.old.inner }
    ensures ran { result ≡ done → RanHeldRound text.now handle.old.inner handle.new.inner room.old room.new needed.new }
    ensures same { result ≢ done → handle.new.inner ≡ handle.old.inner }
    ensures kept { result ≢ done → room.new ≡ room.old }
    ensures uncounted { result ≢ done → needed.new ≡ needed.old }
    ensures no_session { result ≡ no_session → (sdp : Sdp) → DescribesSession text.now sdp → ⊥ }
    ensures no_text { result ≡ no_utf8 → IsUtf8 text.now → ⊥ }
{
    *message_length = 0;
    let mut config = handle.take(alloc);
    let ran = negotiated(&mut config, text, room, needed);
    handle.put(config);
    match ran {
        Ok(()) => DONE,
        Err(refusal) => say_refusal(alloc, &refusal, message, message_length),
    }
}

fn agreed_round_rows(
    config: &CodecConfig,
    typ: &MediaType,
) -> Result<Vec<PayloadParams>, AllocError>
    ensures { IfOk result (λ rows. rows.items ≡ round_rows_of_type typ.now config.now.params.items) }
{
    match typ {
        MediaType::Audio => locked_rows(config, MediaKind::Audio),
        MediaType::Video => locked_rows(config, MediaKind::Video),
        _ => Ok(Vec::new(*config.allocator())),
    }
}

/// The section there with the locked rows of its kind; `None` where there is no such row, or where it can't be written.
fn answered_section(
    config: &CodecConfig,
    own: &Sdp,
    at: usize,
    frame: &MediaLine,
) -> Result<Option<MediaLine>, AllocError>
    ensures made { IfOk result (λ found. IfSome found (λ section. Writable own.now at × (round_rows_of_type frame.now.typ config.now.params.items ≢ [])
        × (section ≡ made frame.now (round_rows_of_type frame.now.typ config.now.params.items)))) }
    ensures none { IfOk result (λ found. IfNone found
        ((round_rows_of_type frame.now.typ config.now.params.items ≡ []) ⊎ (Writable own.now at → ⊥))) }
{
    let rows = agreed_round_rows(config, &frame.typ)?;
    if rows.is_empty() {
        return Ok(None);
    }
    if !is_writable(own, at)? {
        return Ok(None);
    }
    Ok(Some(section_of(frame, rows.as_slice())?))
}

fn answer(config: &CodecConfig, own: &mut Sdp, at: usize) -> u32
    ensures statuses { (result ≡ done) ⊎ (result ≡ no_memory) ⊎ (result ≡ no_section) ⊎ (result ≡ nothing_agreed) }
    ensures lists { result ≡ done → ListsRoundRows config.now.params.items own.old at own.new }
    ensures same { result ≢ done → own.new ≡ own.old }
    ensures missing { (result ≡ no_section) ↔ (slice_get own.old.media_lines at ≡ None) }
    ensures nothing { result ≡ nothing_agreed → CantListRoundRows config.now.params.items own.old at }
{
    let made = match own.media_lines.get(at) {
        Some(frame) => answered_section(config, own, at, frame),
        None => return NO_SECTION,
    };
    match made {
        Ok(Some(section)) => {
            own.media_lines.0[at] = section;
            DONE
        }
        Ok(None) => NOTHING_AGREED,
        Err(_) => NO_MEMORY,
    }
}

/// Puts the locked rows of its kind into a section of one's own description.
#[unsafe(no_mangle)]
pub extern "C" fn zaxp_config_answer(
    alloc: Global,
    handle: &mut ConfigHandle,
    own: &mut SessionHandle,
    at: usize,
) -> u32
    requires handle { IsRoomFull handle.old.inner }
    requires own { IsRoomFull own.old.inner }
    ensures same { handle.new.inner ≡ handle.old.inner }
    ensures statuses { (result ≡ done) ⊎ (result ≡ no_memory) ⊎ (result ≡ no_section) ⊎ (result ≡ nothing_agreed) }
    ensures answered { result ≡ done → AnsweredRound handle.old.inner own.old.inner at own.new.inner }
    ensures kept { result ≢ done → own.new.inner ≡ own.old.inner }
    ensures missing { OfHandle own.old.inner (λ sdp. (result ≡ no_section) ↔ (slice_get sdp.media_lines at ≡ None)) }
    ensures nothing { result ≡ nothing_agreed → CantAnswer handle.old.inner own.old.inner at }
{
    let config = handle.take(alloc);
    let mut sdp = own.take(alloc);
    let code = answer(&config, &mut sdp, at);
    handle.put(config);
    own.put(sdp);
    code
}
