//! Calls of exchanges: one side is made, and it answers offers.

ghost use Rattle.c_calls.specs.Common.{OfHandle};
ghost use Rattle.c_calls.specs.ExchangeCalls.{AcceptsOffer, BeginsExchange, ExchangeGoes, exchange_state_number};
ghost use Rattle.c_calls.specs.Prelude.{IsRoomFull, IsExchangeSound, RefusesOffer, RefusesOwnSide, SaysOwnSide, c_row, own_texts, state_of};
ghost use Rattle.c_calls.specs.Said.{Says};
ghost use Rattle.c_calls.specs.SectionCalls.{row_text_numbered, text_in};
ghost use Rattle.c_calls.specs.Told.{done};
ghost use Rattle.c_parts.specs.Fault.{FaultRefusesBytes, ToldFault, FaultToldAt};
ghost use Rattle.std.specs.Prelude.{◌≡◌, ◌≢◌, IfErr, IfOk, None, OnErr, Some, map};

use crate::row_calls::{put_row_text, put_rows, row_text_numbered};
use crate::said::{DONE, NO_MEMORY};
use crate::told::tell;
use c_parts::config_handle::ConfigHandle;
use c_parts::exchange_handle::ExchangeHandle;
use c_parts::fault::Fault;
use c_parts::row::Row;
use c_parts::session_handle::SessionHandle;
use c_parts::side::{OwnNumbers, OwnTexts, no_side, own_side};
use exchange::{Exchange, ExchangeError, OwnSide, SignalingState};
use std::alloc::{AllocError, Global};
use std::str;
use str0m_signal::{CodecConfig, Items, Sdp, Session, SessionId};

/// A place for an exchange, so that no memory is wanted once a configuration is taken.
fn place_for_exchange(alloc: Global) -> Result<Box<Exchange>, AllocError> {
    let nothing = Exchange::new(no_side(alloc), CodecConfig::empty(alloc));
    match Box::new(alloc, nothing) {
        Ok(place) => Ok(place),
        Err(_) => Err(AllocError),
    }
}

/// A place for a description, so that no memory is wanted once an exchange has gone on.
pub(crate) fn exchange_description_place(alloc: Global) -> Result<Box<Sdp>, AllocError> {
    let session = Session {
        id: SessionId::from(0_u64),
        bw: None,
        attrs: Items::empty(alloc),
    };
    let nothing = Sdp {
        session,
        media_lines: Items::empty(alloc),
    };
    match Box::new(alloc, nothing) {
        Ok(place) => Ok(place),
        Err(_) => Err(AllocError),
    }
}

/// What this side says, with a place for its exchange.
fn prepared_exchange(
    alloc: Global,
    numbers: &OwnNumbers,
    texts: &OwnTexts<'_>,
) -> Result<(OwnSide, Box<Exchange>), Fault>
    ensures says { IfOk result (λ made. SaysOwnSide numbers.now texts.now made.0) }
    ensures refused { IfErr result (RefusesOwnSide texts.now) }
{
    let own = own_side(alloc, numbers, texts)?;
    let place = place_for_exchange(alloc)?;
    Ok((own, place))
}

/// Gives an empty handle one side of an exchange, in which nothing was said yet. The configuration is taken: its handle is empty then.
#[unsafe(no_mangle)]
pub extern "C" fn zaxp_exchange_new(
    alloc: Global,
    handle: &mut ExchangeHandle,
    config: &mut ConfigHandle,
    numbers: &OwnNumbers,
    ice_ufrag: &[u8],
    ice_pwd: &[u8],
    fingerprint: &[u8],
    stream_id: &[u8],
    extensions: &[&[u8]],
    candidates: &[&[u8]],
    message: &mut [u8],
    message_length: &mut usize,
) -> u32
    requires handle { handle.old.inner ≡ None }
    requires config { IsRoomFull config.old.inner }
    ensures made { result ≡ done → BeginsExchange numbers.now
        (own_texts ice_ufrag.entry ice_pwd.entry fingerprint.entry stream_id.entry extensions.entry candidates.entry)
        config.old.inner handle.new.inner }
    ensures sound { result ≡ done → OfHandle handle.new.inner IsExchangeSound }
    ensures taken { result ≡ done → config.new.inner ≡ None }
    ensures empty { result ≢ done → handle.new.inner ≡ None }
    ensures kept { result ≢ done → config.new.inner ≡ config.old.inner }
    ensures refused { result ≢ done → ToldFault (RefusesOwnSide
        (own_texts ice_ufrag.entry ice_pwd.entry fingerprint.entry stream_id.entry extensions.entry candidates.entry)) result }
{
    let texts = OwnTexts {
        ice_ufrag,
        ice_pwd,
        fingerprint,
        stream_id,
        extensions,
        candidates,
    };
    match prepared_exchange(alloc, numbers, &texts) {
        Ok((own, mut place)) => {
            *place = Exchange::new(own, Box::into_inner(config.take(alloc)));
            handle.put(place);
            DONE
        }
        Err(fault) => {
            let mut line = 0;
            tell(alloc, &fault, &mut line, message, message_length)
        }
    }
}

/// Frees the exchange; the handle is empty then.
#[unsafe(no_mangle)]
pub extern "C" fn zaxp_exchange_free(alloc: Global, handle: &mut ExchangeHandle)
    requires { IsRoomFull handle.old.inner }
    ensures { handle.new.inner ≡ None }
{
    drop(handle.take(alloc));
}

/// Answers an offer; the answer stands in its place then.
fn exchange_answered(
    exchange: &mut Exchange,
    offer: &str,
    place: &mut Sdp,
) -> Result<u64, ExchangeError>
    ensures answered { IfOk result (AcceptsOffer exchange.old exchange.new offer.now place.new) }
    ensures same { OnErr result (exchange.new ≡ exchange.old) }
    ensures refused { IfErr result (RefusesOffer exchange.old offer.now) }
{
    match exchange.accept_offer(offer) {
        Ok(answer) => {
            let version = answer.version();
            *place = answer.into_sdp();
            Ok(version)
        }
        Err(error) => Err(error),
    }
}

fn exchange_answered_bytes(
    exchange: &mut Exchange,
    offer: &[u8],
    place: &mut Sdp,
) -> Result<u64, Fault>
    ensures answered { IfOk result (AcceptsOffer exchange.old exchange.new offer.now place.new) }
    ensures same { OnErr result (exchange.new ≡ exchange.old) }
    ensures refused { IfErr result (FaultRefusesBytes offer.now (RefusesOffer exchange.old offer.now)) }
{
    match str::from_utf8(offer) {
        Ok(text) => match exchange_answered(exchange, text, place) {
            Ok(version) => Ok(version),
            Err(error) => Err(Fault::Refused(error)),
        },
        Err(_) => Err(Fault::NotUtf8),
    }
}

/// Answers an offer of the other side. An empty handle gets the answer.
#[unsafe(no_mangle)]
pub extern "C" fn zaxp_exchange_accept_offer(
    alloc: Global,
    handle: &mut ExchangeHandle,
    offer: &[u8],
    answer: &mut SessionHandle,
    version: &mut u64,
    line: &mut usize,
    message: &mut [u8],
    message_length: &mut usize,
) -> u32
    requires handle { IsRoomFull handle.old.inner }
    requires answer { answer.old.inner ≡ None }
    ensures answered { result ≡ done → ExchangeGoes (λ before after said. AcceptsOffer before after offer.now said version.new)
        handle.old.inner handle.new.inner answer.new.inner }
    ensures same { result ≢ done → handle.new.inner ≡ handle.old.inner }
    ensures empty { result ≢ done → answer.new.inner ≡ None }
    ensures refused { result ≢ done → OfHandle handle.old.inner (λ before.
        FaultToldAt (FaultRefusesBytes offer.now (RefusesOffer before offer.now)) result line.new) }
{
    *line = 0;
    let Ok(mut place) = exchange_description_place(alloc) else {
        return NO_MEMORY;
    };
    let mut exchange = handle.take(alloc);
    let done = exchange_answered_bytes(&mut exchange, offer, &mut place);
    handle.put(exchange);
    match done {
        Ok(said) => {
            *version = said;
            answer.put(place);
            DONE
        }
        Err(fault) => tell(alloc, &fault, line, message, message_length),
    }
}

/// The rows of its configuration, each with whether it is locked.
#[unsafe(no_mangle)]
pub extern "C" fn zaxp_exchange_rows(
    alloc: Global,
    handle: &mut ExchangeHandle,
    room: &mut [Row],
    needed: &mut usize,
) -> u32
    requires { IsRoomFull handle.old.inner }
    ensures same { handle.new.inner ≡ handle.old.inner }
    ensures says { OfHandle handle.old.inner (λ it.
        Says (Some (map c_row it.config.params.items)) (room.old, needed.old) (result, room.new, needed.new)) }
{
    let exchange = handle.take(alloc);
    let code = put_rows(alloc, exchange.config().params(), room, needed);
    handle.put(exchange);
    code
}

/// A text of a row of its configuration, by its number (`enum section_text`).
#[unsafe(no_mangle)]
pub extern "C" fn zaxp_exchange_text(
    alloc: Global,
    handle: &mut ExchangeHandle,
    what: u8,
    row: usize,
    room: &mut [u8],
    needed: &mut usize,
) -> u32
    requires { IsRoomFull handle.old.inner }
    ensures same { handle.new.inner ≡ handle.old.inner }
    ensures says { OfHandle handle.old.inner (λ it.
        Says (text_in (row_text_numbered what) it.config.params.items row) (room.old, needed.old) (result, room.new, needed.new)) }
{
    let exchange = handle.take(alloc);
    let what = row_text_numbered(what);
    let code = put_row_text(alloc, exchange.config().params(), row, what, room, needed);
    handle.put(exchange);
    code
}

fn exchange_state_number(state: SignalingState) -> u32
    ensures { result ≡ exchange_state_number state }
{
    match state {
        SignalingState::Stable => 0,
        SignalingState::HaveLocalOffer => 1,
    }
}

/// Where the exchange stands.
#[unsafe(no_mangle)]
pub extern "C" fn zaxp_exchange_state(alloc: Global, handle: &mut ExchangeHandle) -> u32
    requires { IsRoomFull handle.old.inner }
    ensures same { handle.new.inner ≡ handle.old.inner }
    ensures state { OfHandle handle.old.inner (λ it. result ≡ exchange_state_number (state_of it)) }
{
    let exchange = handle.take(alloc);
    let state = exchange_state_number(exchange.state());
    handle.put(exchange);
    state
}
