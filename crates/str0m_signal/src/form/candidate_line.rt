//! Lines with a candidate.

ghost use Rattle.str0m_signal.specs.Prelude.{candidate_read};

use crate::line::attributes::{Attribute, taken};
use std::alloc::{AllocError, Global};
use str0m_values::Candidate;
use str0m_values::candidate_text::candidate;

impl Attribute for Candidate {
    ghost reading = { candidate_read };

    fn take(alloc: Global, text: &str, place: &mut Vec<Candidate>) -> Result<bool, AllocError> {
        taken(candidate(alloc, text)?, place)
    }
}
