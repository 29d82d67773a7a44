//! Answers to offers, each in an exchange of its own.

ghost use Rattle.bench_calls.specs.Answers.{HasAnswered};
ghost use Rattle.std.specs.Prelude.{IfOk, IfSome};

use exchange::{DataChannels, Exchange, ExchangeError, OwnSide};
use std::alloc::{AllocError, Global};
use std::str;
use str0m_signal::{CodecConfig, Direction, Fingerprint, IceCreds, Items, SessionId, Text};

/// The hash of a certificate.
fn answer_fingerprint(alloc: Global) -> Result<Fingerprint, AllocError> {
    Ok(Fingerprint {
        hash_func: Text::from_str(alloc, "sha-256")?,
        bytes: Items::from(Vec::from_slice(alloc, &[0xab; 32])?),
    })
}

/// A side that sends and receives all that it knows.
fn answering_side(alloc: Global) -> Result<OwnSide, AllocError> {
    Ok(OwnSide {
        session_id: SessionId::from(1_u64),
        creds: IceCreds {
            ufrag: Text::from_str(alloc, "ufrag")?,
            pass: Text::from_str(alloc, "0123456789abcdef01234567")?,
        },
        fingerprint: answer_fingerprint(alloc)?,
        audio: Direction::SendRecv,
        video: Direction::SendRecv,
        directions: Items::empty(alloc),
        stream_id: Text::from_str(alloc, "stream")?,
        extensions: Items::empty(alloc),
        candidates: Items::empty(alloc),
        channels: Some(DataChannels {
            port: 5000,
            max_message_size: 262_144,
        }),
        receives_simulcast: true,
    })
}

/// An exchange of that side with the default configuration, in which nothing was said yet.
pub(crate) fn exchange_for_answers(alloc: Global) -> Result<Exchange, AllocError> {
    let config = CodecConfig::new_with_defaults(alloc)?;
    Ok(Exchange::new(answering_side(alloc)?, config))
}

/// Answers an offer; how many sections the answer has.
fn sections_answered_by(exchange: &mut Exchange, offer: &str) -> Result<usize, ExchangeError>
    ensures { IfOk result (HasAnswered offer.now) }
{
    let answer = exchange.accept_offer(offer)?;
    Ok(answer.media_lines.len())
}

/// Answers an offer in an exchange of its own; how many sections the answer has.
fn sections_answered(alloc: Global, offer: &str) -> Result<usize, ExchangeError>
    ensures { IfOk result (HasAnswered offer.now) }
{
    let mut exchange = exchange_for_answers(alloc)?;
    sections_answered_by(&mut exchange, offer)
}

fn answered_once(alloc: Global, offer: &str) -> Option<usize>
    ensures { IfSome result (HasAnswered offer.now) }
{
    match sections_answered(alloc, offer) {
        Ok(count) => Some(count),
        Err(_) => None,
    }
}

/// Answers an offer once, and then as often again as `more` says; how many sections the answer has.
pub(crate) fn answered(alloc: Global, text: &[u8], more: u32) -> Option<usize>
    ensures { IfSome result (HasAnswered text.now) }
{
    match str::from_utf8(text) {
        Ok(text) => {
            for _ in 0..more {
                let _ = answered_once(alloc, text);
            }
            answered_once(alloc, text)
        }
        Err(_) => None,
    }
}
