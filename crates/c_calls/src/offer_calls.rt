//! Calls of exchanges in which this side offers.

ghost use Rattle.c_calls.specs.Common.{OfHandle};
ghost use Rattle.c_calls.specs.ExchangeCalls.{AcceptsAnswer, CreatesOffer, ExchangeGoes, turned_exchange};
ghost use Rattle.c_calls.specs.Prelude.{IsRoomFull, RefusesAnswer, RefusesSidePair, ExchangeRefusesChannels, RefusesMedia, RefusesToOffer, side_direction_numbered, side_kind_numbered, kind_rows, offer_with_channels, with_media};
ghost use Rattle.c_calls.specs.Told.{done, no_memory, no_utf8, wrong_argument};
ghost use Rattle.c_parts.specs.Fault.{FaultRefusesCall, FaultRefusesBytes, ToldFault, FaultToldAt};
ghost use Rattle.std.specs.Prelude.{◌≡◌, ◌≢◌, ◌<◌, ◌≤◌, ◌↔◌, ◌⊎◌, [], IfErr, IfOk, None, OnErr, OnOk, Some, length, true, IsUtf8};

use crate::exchange_calls::exchange_description_place;
use crate::said::{DONE, NO_MEMORY, NO_UTF8, WRONG_ARGUMENT};
use crate::told::{tell, tell_error};
use c_parts::exchange_handle::ExchangeHandle;
use c_parts::fault::Fault;
use c_parts::session_handle::SessionHandle;
use c_parts::side::{side_direction_numbered, side_kind_numbered, text_of};
use exchange::{Exchange, ExchangeError};
use std::alloc::Global;
use std::str;
use str0m_signal::{IceCreds, Mid, Sdp};

/// Makes an offer, which stands in its place then.
fn offered(exchange: &mut Exchange, place: &mut Sdp) -> Result<u64, ExchangeError>
    ensures offered { IfOk result (CreatesOffer exchange.old exchange.new place.new) }
    ensures same { OnErr result (exchange.new ≡ exchange.old) }
    ensures refused { IfErr result (RefusesToOffer exchange.old) }
{
    match exchange.create_offer() {
        Ok(offer) => {
            let version = offer.version();
            *place = offer.into_sdp();
            Ok(version)
        }
        Err(error) => Err(error),
    }
}

/// Makes an offer of this side, which waits for its answer then. An empty handle gets the offer.
#[unsafe(no_mangle)]
pub extern "C" fn zaxp_exchange_create_offer(
    alloc: Global,
    handle: &mut ExchangeHandle,
    offer: &mut SessionHandle,
    version: &mut u64,
    message: &mut [u8],
    message_length: &mut usize,
) -> u32
    requires handle { IsRoomFull handle.old.inner }
    requires offer { offer.old.inner ≡ None }
    ensures offered { result ≡ done → ExchangeGoes (λ before after said. CreatesOffer before after said version.new)
        handle.old.inner handle.new.inner offer.new.inner }
    ensures same { result ≢ done → handle.new.inner ≡ handle.old.inner }
    ensures empty { result ≢ done → offer.new.inner ≡ None }
    ensures refused { result ≢ done → OfHandle handle.old.inner (λ before. ToldFault (FaultRefusesCall (RefusesToOffer before)) result) }
{
    let Ok(mut place) = exchange_description_place(alloc) else {
        return NO_MEMORY;
    };
    let mut exchange = handle.take(alloc);
    let done = offered(&mut exchange, &mut place);
    handle.put(exchange);
    match done {
        Ok(said) => {
            *version = said;
            offer.put(place);
            DONE
        }
        Err(error) => tell_error(alloc, error, message, message_length),
    }
}

fn offer_answer_taken(exchange: &mut Exchange, answer: &[u8]) -> Result<(), Fault>
    ensures taken { OnOk result (AcceptsAnswer exchange.old exchange.new answer.now) }
    ensures same { OnErr result (exchange.new ≡ exchange.old) }
    ensures refused { IfErr result (FaultRefusesBytes answer.now (RefusesAnswer exchange.old answer.now)) }
{
    match str::from_utf8(answer) {
        Ok(text) => match exchange.accept_answer(text) {
            Ok(()) => Ok(()),
            Err(error) => Err(Fault::Refused(error)),
        },
        Err(_) => Err(Fault::NotUtf8),
    }
}

/// Takes the other side's answer to the open offer.
#[unsafe(no_mangle)]
pub extern "C" fn zaxp_exchange_accept_answer(
    alloc: Global,
    handle: &mut ExchangeHandle,
    answer: &[u8],
    line: &mut usize,
    message: &mut [u8],
    message_length: &mut usize,
) -> u32
    requires { IsRoomFull handle.old.inner }
    ensures taken { result ≡ done → OfHandle handle.old.inner (λ before. OfHandle handle.new.inner (λ after.
        AcceptsAnswer before after answer.now)) }
    ensures same { result ≢ done → handle.new.inner ≡ handle.old.inner }
    ensures refused { result ≢ done → OfHandle handle.old.inner (λ before.
        FaultToldAt (FaultRefusesBytes answer.now (RefusesAnswer before answer.now)) result line.new) }
{
    let mut exchange = handle.take(alloc);
    let done = offer_answer_taken(&mut exchange, answer);
    handle.put(exchange);
    match done {
        Ok(()) => DONE,
        Err(fault) => tell(alloc, &fault, line, message, message_length),
    }
}

/// Drops the offer that waits for its answer; where none does, nothing changes.
#[unsafe(no_mangle)]
pub extern "C" fn zaxp_exchange_rollback(alloc: Global, handle: &mut ExchangeHandle)
    requires { IsRoomFull handle.old.inner }
    ensures { OfHandle handle.old.inner (λ before. handle.new.inner ≡ Some (record before { pending = None })) }
{
    let mut exchange = handle.take(alloc);
    exchange.rollback();
    handle.put(exchange);
}

/// Adds media of a kind, in a direction, to what the next offer offers.
#[unsafe(no_mangle)]
pub extern "C" fn zaxp_exchange_add_media(
    alloc: Global,
    handle: &mut ExchangeHandle,
    kind: u8,
    direction: u8,
    message: &mut [u8],
    message_length: &mut usize,
) -> u32
    requires { IsRoomFull handle.old.inner }
    ensures added { result ≡ done → OfHandle handle.old.inner (λ before.
        handle.new.inner ≡ Some (with_media (side_kind_numbered kind) (side_direction_numbered direction) before)) }
    ensures has_rows { result ≡ done → OfHandle handle.old.inner (λ before.
        kind_rows (side_kind_numbered kind) true before.config.params.items ≢ []) }
    ensures same { result ≢ done → handle.new.inner ≡ handle.old.inner }
    ensures refused { result ≢ done → OfHandle handle.old.inner (λ before.
        ToldFault (FaultRefusesCall (RefusesMedia before (side_kind_numbered kind))) result) }
{
    let mut exchange = handle.take(alloc);
    let done = exchange.add_media(side_kind_numbered(kind), side_direction_numbered(direction));
    handle.put(exchange);
    match done {
        Ok(()) => DONE,
        Err(error) => tell_error(alloc, error, message, message_length),
    }
}

/// Adds data channels to what the next offer offers.
#[unsafe(no_mangle)]
pub extern "C" fn zaxp_exchange_add_channels(
    alloc: Global,
    handle: &mut ExchangeHandle,
    message: &mut [u8],
    message_length: &mut usize,
) -> u32
    requires { IsRoomFull handle.old.inner }
    ensures added { result ≡ done → OfHandle handle.old.inner (λ before.
        handle.new.inner ≡ Some (offer_with_channels before)) }
    ensures has_channels { result ≡ done → OfHandle handle.old.inner (λ before. before.own.channels ≢ None) }
    ensures same { result ≢ done → handle.new.inner ≡ handle.old.inner }
    ensures refused { result ≢ done → OfHandle handle.old.inner (λ before. ToldFault (FaultRefusesCall (ExchangeRefusesChannels before)) result) }
{
    let mut exchange = handle.take(alloc);
    let done = exchange.add_channels();
    handle.put(exchange);
    match done {
        Ok(()) => DONE,
        Err(error) => tell_error(alloc, error, message, message_length),
    }
}

fn offer_creds_of(alloc: Global, ufrag: &[u8], pwd: &[u8]) -> Result<IceCreds, Fault>
    ensures read { IfOk result (λ creds. creds ≡ record { ufrag = ufrag.now; pass = pwd.now }) }
    ensures refused { IfErr result (RefusesSidePair ufrag.now pwd.now) }
{
    let ufrag = text_of(alloc, ufrag)?;
    let pass = text_of(alloc, pwd)?;
    Ok(IceCreds { ufrag, pass })
}

/// Has the next description say these credentials of ICE.
#[unsafe(no_mangle)]
pub extern "C" fn zaxp_exchange_restart_ice(
    alloc: Global,
    handle: &mut ExchangeHandle,
    ufrag: &[u8],
    pwd: &[u8],
) -> u32
    requires { IsRoomFull handle.old.inner }
    ensures restarted { result ≡ done → OfHandle handle.old.inner (λ before. handle.new.inner ≡ Some (record before {
      own = record before.own { creds = record { ufrag = ufrag.now; pass = pwd.now } };
    })) }
    ensures same { result ≢ done → handle.new.inner ≡ handle.old.inner }
    ensures refused { result ≢ done → ToldFault (RefusesSidePair ufrag.now pwd.now) result }
{
    match offer_creds_of(alloc, ufrag, pwd) {
        Ok(creds) => {
            let mut exchange = handle.take(alloc);
            exchange.restart_ice(creds);
            handle.put(exchange);
            DONE
        }
        Err(fault) => fault.code(),
    }
}

/// Has the next description say that this side is ready for a direction in the section of a name: to hold media, and to resume it.
#[unsafe(no_mangle)]
pub extern "C" fn zaxp_exchange_set_direction(
    alloc: Global,
    handle: &mut ExchangeHandle,
    mid: &[u8],
    direction: u8,
) -> u32
    requires { IsRoomFull handle.old.inner }
    ensures turned { result ≡ done → OfHandle handle.old.inner (λ before.
        handle.new.inner ≡ Some (turned_exchange mid.now (side_direction_numbered direction) before)) }
    ensures same { result ≢ done → handle.new.inner ≡ handle.old.inner }
    ensures statuses { (result ≡ done) ⊎ (result ≡ no_memory) ⊎ (result ≡ no_utf8) ⊎ (result ≡ wrong_argument) }
    ensures wrong { (result ≡ wrong_argument) ↔ (16 < length mid.now) }
    ensures no_text { (result ≡ no_utf8) ↔ ((length mid.now ≤ 16) × (IsUtf8 mid.now → ⊥)) }
{
    if mid.len() > 16 {
        return WRONG_ARGUMENT; // (no section keeps such a name, and its beginning may be another's)
    }
    let Ok(name) = str::from_utf8(mid) else {
        return NO_UTF8;
    };
    let mut exchange = handle.take(alloc);
    let done = exchange.set_direction(Mid::from(name), side_direction_numbered(direction));
    handle.put(exchange);
    match done {
        Ok(()) => DONE,
        Err(_) => NO_MEMORY,
    }
}
