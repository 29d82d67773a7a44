//! A task that is timed, over a text.

ghost use Rattle.bench_calls.specs.Answers.{HasAnswer, HasRoundsAnswer};
ghost use Rattle.std.specs.Prelude.{◌≡◌, IfOk, IfSome, length, ℕ};
ghost use Rattle.str0m_formats.specs.row.DefaultRows.{usual_rows};
ghost use Rattle.str0m_sdp.specs.declared.session.Sdp.{Sdp};
ghost use Rattle.str0m_signal.specs.session.Reader.{DescribesSession};

use std::alloc::{AllocError, Global};
use std::str;
use str0m_signal::{CodecConfig, SdpError, SdpOffer, negotiate_text};

/// What is done with a description that was read. Answers a number that follows from the description; the only error is that
/// memory was refused.
pub(crate) trait Task {
    ghost answer: { Sdp → ℕ };

    fn run(offer: &SdpOffer) -> Result<usize, AllocError>
        ensures { IfOk result (λ answer. answer ≡ Self.answer offer.now) };
}

/// The description that a text begins with; `None` where there is none, or where memory was refused.
fn offer_of_task(alloc: Global, text: &[u8]) -> Option<SdpOffer>
    ensures { IfSome result (λ offer. DescribesSession text.now offer) }
{
    match str::from_utf8(text) {
        Ok(text) => match SdpOffer::from_sdp_string(alloc, text) {
            Ok(offer) => Some(offer),
            Err(_) => None,
        },
        Err(_) => None,
    }
}

fn run_task_once<T: Task>(offer: &SdpOffer) -> Option<usize>
    ensures { IfSome result (λ answer. answer ≡ T.answer offer.now) }
{
    match T::run(offer) {
        Ok(answer) => Some(answer),
        Err(_) => None,
    }
}

/// Does a task once, and then as often again as `more` says.
fn run_task_often<T: Task>(offer: &SdpOffer, more: u32) -> Option<usize>
    ensures { IfSome result (λ answer. answer ≡ T.answer offer.now) }
{
    for _ in 0..more {
        let _ = run_task_once::<T>(offer);
    }
    run_task_once::<T>(offer)
}

/// The same over a text, which is read once.
pub(crate) fn done_task<T: Task>(alloc: Global, text: &[u8], more: u32) -> Option<usize>
    ensures { IfSome result (HasAnswer text.now T.answer) }
{
    match offer_of_task(alloc, text) {
        Some(offer) => match run_task_often::<T>(&offer, more) {
            Some(answer) => Some(answer),
            None => None,
        },
        None => None,
    }
}

/// Runs the rounds of the default configuration with a text, and answers how many they are.
fn task_rounds(alloc: Global, text: &str) -> Result<usize, SdpError>
    ensures { IfOk result (HasRoundsAnswer text.now) }
{
    let mut config = CodecConfig::new_with_defaults(alloc)?;
    let outcomes = negotiate_text(&mut config, text)?;
    Ok(outcomes.len())
}

fn task_rounds_once(alloc: Global, text: &str) -> Option<usize>
    ensures { IfSome result (HasRoundsAnswer text.now) }
{
    match task_rounds(alloc, text) {
        Ok(count) => Some(count),
        Err(_) => None,
    }
}

/// These rounds once, and then as often again as `more` says: each time the text is read, too.
pub(crate) fn negotiated_task(alloc: Global, text: &[u8], more: u32) -> Option<usize>
    ensures { IfSome result (HasRoundsAnswer text.now) }
{
    match str::from_utf8(text) {
        Ok(text) => {
            for _ in 0..more {
                let _ = task_rounds_once(alloc, text);
            }
            task_rounds_once(alloc, text)
        }
        Err(_) => None,
    }
}
