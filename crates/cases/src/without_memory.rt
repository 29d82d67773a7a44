//! Descriptions that are read while nothing else is given memory.

use crate::spoken::spoken_behind_header;
use format_cases::Answer;
use std::alloc::{AllocError, Global};
use str0m_signal::{SdpError, sdp_parser};

/// Bytes of the block that holds the text while it is read. No other block of a case is so large; where scripts/refusals says so,
/// each allocation is refused as long as it is held (scripts/refuse.c).
const HELD: usize = 54_321;

/// What reading these lines after a header comes to.
pub(crate) fn read(answer: &mut Answer, lines: &str) {
    let text = spoken_behind_header(answer, lines);
    let outcome = outcome_without_memory(answer.alloc(), text.as_str());
    let outcome = answer.kept(outcome, "");
    answer.push(outcome);
}

fn outcome_without_memory(alloc: Global, text: &str) -> Result<&'static str, AllocError> {
    let mut held = String::with_capacity(alloc, HELD)?;
    held.push_str(text)?;
    Ok(match sdp_parser(alloc, held.as_str()) {
        Ok(_) => "read",
        Err(SdpError::Memory) => "out of memory",
        Err(_) => "refused",
    })
}
