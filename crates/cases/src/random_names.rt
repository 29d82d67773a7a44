//! Names that are drawn at random, here of a counter.
ghost use Rattle.rand_core.specs.Steps.{stream_of, steps_u32};
ghost use Rattle.std.specs.Prelude.{ℕ, ◌+◌, ◌%◌, ◌^◌};

use format_cases::Answer;
use rand_core::utils::NextWord;
use rand_core::{Rng, utils};
use std::marker::Model;
use str0m_signal::Msid;

/// Gives its own number and those after it.
#[derive(Drop)]
struct Counter(u32);

impl Model for Counter {
    ghost Value = { ℕ };

    ghost view = { λ counter. counter.0 };
}

impl NextWord<u32> for Counter {
    ghost step = { λ s. (s, (s + 1) % 2 ^ 32) };

    fn next_word(&mut self) -> u32 {
        let word = self.0;
        self.0 = word.wrapping_add(1);
        word
    }
}

impl Rng for Counter {
    ghost stream = { stream_of (steps_u32 (λ s. (s, (s + 1) % 2 ^ 32))) };

    fn next_u32(&mut self) -> u32 {
        self.next_word()
    }

    fn next_u64(&mut self) -> u64 {
        utils::next_u64_via_u32(self)
    }

    fn fill_bytes(&mut self, dst: &mut [u8]) {
        utils::fill_bytes_via_u32(self, dst)
    }
}

/// The names that are drawn of the number that the text says and those after it, and the number that comes next.
pub(crate) fn drawn_name(answer: &mut Answer, text: &str) {
    match text.parse::<u32>() {
        Ok(first) => drawn_name_from(answer, first),
        Err(_) => answer.no_such("number"),
    }
}

/// Where there is no room, no number has to be drawn.
fn drawn_name_from(answer: &mut Answer, first: u32) {
    let mut counter = Counter(first);
    match &Msid::random(answer.alloc(), &mut counter) {
        Ok(drawn) => {
            answer.show(drawn);
            answer.push(" ");
            answer.show(&counter.0);
        }
        Err(_) if counter.0 != first => answer.settle("words were drawn"),
        Err(_) => answer.refuse(),
    }
}
