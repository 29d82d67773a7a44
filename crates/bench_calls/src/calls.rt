//! What C calls: each takes a text, does its task, and does it as often again as `more` says. It answers `UINT64_MAX` where
//! the text describes no session, or where memory was refused. C passes nothing for the allocator, and a text by its
//! pointer and its length.

ghost use Rattle.bench_calls.specs.Answers.{HasAnswer, HasAnswered, HasRoundsAnswer, TellsAnswer, section_count_answer, text_length_answer};
ghost use Rattle.std.specs.Prelude.{◌≡◌, ◌-◌, ◌^◌, MatchOption};

use crate::answers::answered;
use crate::task::{done_task, negotiated_task};
use crate::tasks::{
    CandidatesTask, ConsistencyTask, DefaultsTask, ExchangeTask, MarkTask, PrintTask, RoundsTask,
    RowsTask, SourcesTask,
};
use std::alloc::Global;

/// The number as C gets it.
fn told_by_call(answer: Option<usize>) -> u64
    ensures { MatchOption answer (result ≡ 2 ^ 64 - 1) (λ n. result ≡ n) }
{
    match answer {
        Some(n) => n as u64,
        None => u64::MAX,
    }
}

/// Reads the text, and answers how many sections it has. Its last allocation is of one byte, and is made when the text is read.
#[unsafe(no_mangle)]
pub extern "C" fn bench_read(alloc: Global, text: &[u8]) -> u64
    ensures { TellsAnswer (HasAnswer text.now section_count_answer) result }
{
    told_by_call(done_task::<MarkTask>(alloc, text, 0))
}

/// Reads the text, makes the rows of all sections, and answers how many sections it has.
#[unsafe(no_mangle)]
pub extern "C" fn bench_rows(alloc: Global, text: &[u8], more: u32) -> u64
    ensures { TellsAnswer (HasAnswer text.now section_count_answer) result }
{
    told_by_call(done_task::<RowsTask>(alloc, text, more))
}

/// Reads the text, makes the configuration with the default rows, and answers how many sections the text has.
#[unsafe(no_mangle)]
pub extern "C" fn bench_defaults(alloc: Global, text: &[u8], more: u32) -> u64
    ensures { TellsAnswer (HasAnswer text.now section_count_answer) result }
{
    told_by_call(done_task::<DefaultsTask>(alloc, text, more))
}

/// Reads the text, makes that configuration and the rows of all sections, runs a round with those of each section of audio or video,
/// and answers how many sections the text has.
#[unsafe(no_mangle)]
pub extern "C" fn bench_rounds(alloc: Global, text: &[u8], more: u32) -> u64
    ensures { TellsAnswer (HasAnswer text.now section_count_answer) result }
{
    told_by_call(done_task::<RoundsTask>(alloc, text, more))
}

/// Negotiates with the text, which is read each time, and answers how many rounds that were.
#[unsafe(no_mangle)]
pub extern "C" fn bench_negotiate(alloc: Global, text: &[u8], more: u32) -> u64
    ensures { TellsAnswer (HasRoundsAnswer text.now) result }
{
    told_by_call(negotiated_task(alloc, text, more))
}

/// Reads the text, makes an exchange in which nothing is said, and answers how many sections the text has.
#[unsafe(no_mangle)]
pub extern "C" fn bench_exchange(alloc: Global, text: &[u8], more: u32) -> u64
    ensures { TellsAnswer (HasAnswer text.now section_count_answer) result }
{
    told_by_call(done_task::<ExchangeTask>(alloc, text, more))
}

/// Answers the text as an offer, in an exchange of its own each time, and answers how many sections the answer has.
#[unsafe(no_mangle)]
pub extern "C" fn bench_answer(alloc: Global, text: &[u8], more: u32) -> u64
    ensures { TellsAnswer (HasAnswered text.now) result }
{
    told_by_call(answered(alloc, text, more))
}

/// Reads the text, prints the description, and answers how many bytes were printed.
#[unsafe(no_mangle)]
pub extern "C" fn bench_print(alloc: Global, text: &[u8], more: u32) -> u64
    ensures { TellsAnswer (HasAnswer text.now text_length_answer) result }
{
    told_by_call(done_task::<PrintTask>(alloc, text, more))
}

/// Reads the text, gathers what is said of the sources of all sections, and answers how many sections it has.
#[unsafe(no_mangle)]
pub extern "C" fn bench_sources(alloc: Global, text: &[u8], more: u32) -> u64
    ensures { TellsAnswer (HasAnswer text.now section_count_answer) result }
{
    told_by_call(done_task::<SourcesTask>(alloc, text, more))
}

/// Reads the text, gathers the candidates, each once, and answers how many sections it has.
#[unsafe(no_mangle)]
pub extern "C" fn bench_candidates(alloc: Global, text: &[u8], more: u32) -> u64
    ensures { TellsAnswer (HasAnswer text.now section_count_answer) result }
{
    told_by_call(done_task::<CandidatesTask>(alloc, text, more))
}

/// Reads the text, asks whether the description is consistent, and answers how many sections it has.
#[unsafe(no_mangle)]
pub extern "C" fn bench_consistency(alloc: Global, text: &[u8], more: u32) -> u64
    ensures { TellsAnswer (HasAnswer text.now section_count_answer) result }
{
    told_by_call(done_task::<ConsistencyTask>(alloc, text, more))
}
