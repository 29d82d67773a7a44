//! A session as a list of calls.

ghost use Rattle.exchange.specs.state.ExchangeFollows.{Follows, IsExchangeSound};

use exchange::Exchange;
use str0m_signal::{Direction, IceCreds, MediaKind, Mid};

/// A call of an exchange.
pub enum Step<'a> {
    /// An offer of the other side, which is answered.
    Offer(&'a str),
    /// Its answer to an offer of this side.
    Answer(&'a str),
    /// An offer of this side is made.
    CreateOffer,
    /// It is dropped.
    Rollback,
    /// Media is added, for which this side is ready in a direction.
    AddMedia(MediaKind, Direction),
    /// Data channels are added.
    AddChannels,
    /// This side gets other credentials of ICE.
    RestartIce(&'a IceCreds),
    /// This side is ready for another direction in a section.
    SetDirection(Mid, Direction),
}

/// Makes a call. Where it is refused, nothing changes, as where memory is wanted for a copy of its credentials.
fn take_session_call(exchange: &mut Exchange, step: &Step<'_>)
    ensures sound { IsExchangeSound exchange.old → IsExchangeSound exchange.new }
    ensures follows { IsExchangeSound exchange.old → Follows exchange.old exchange.new }
{
    match step {
        Step::Offer(text) => {
            let _ = exchange.accept_offer(text);
        }
        Step::Answer(text) => {
            let _ = exchange.accept_answer(text);
        }
        Step::CreateOffer => {
            let _ = exchange.create_offer();
        }
        Step::Rollback => exchange.rollback(),
        Step::AddMedia(kind, direction) => {
            let _ = exchange.add_media(*kind, *direction);
        }
        Step::AddChannels => {
            let _ = exchange.add_channels();
        }
        Step::RestartIce(creds) => {
            if let Ok(creds) = IceCreds::clone(creds) {
                exchange.restart_ice(creds);
            }
        }
        Step::SetDirection(mid, direction) => {
            let _ = exchange.set_direction(*mid, *direction);
        }
    }
}

/// Makes these calls one after another, whatever each answers. So over any list of calls of a session no m-section moves
/// (`follows`), no name is used for two of them, neither of one exchange (`sound`) nor of different ones (`follows`), and types
/// that are agreed on stay (RFC 3264, section 8; RFC 8829, section 5.2.2).
#[tactic(auto, using(exchange::proofs::follows_self, exchange::proofs::follows_then))]
pub fn run(exchange: &mut Exchange, steps: &[Step<'_>])
    ensures sound { IsExchangeSound exchange.old → IsExchangeSound exchange.new }
    ensures follows { IsExchangeSound exchange.old → Follows exchange.old exchange.new }
{
    for step in steps {
        take_session_call(exchange, step);
    }
}
