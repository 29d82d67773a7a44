//! What is found at a place of a text, and all that is found.

use crate::code::Code;
use std::fmt;
use str0m_values::{Items, Text};

/// What is found at a place of a text. It displays as one sentence without a full stop: what is wrong, what stands there, and what
/// to do.
#[derive(Debug, Drop)]
pub struct Finding {
    /// The number of the line, from 1.
    pub line: usize,
    /// The column in the line, in characters, from 1.
    pub column: usize,
    /// What is wrong.
    pub code: Code,
    /// The sentence.
    pub sentence: Text,
}

impl fmt::Display for Finding {
    ghost use Rattle.std.specs.Prelude.{Some};

    ghost output = { λ finding. Some finding.sentence };

    fn fmt<W: fmt::Write>(&self, f: &mut fmt::Formatter<W>) -> fmt::Result {
        self.sentence.fmt(f)
    }
}

/// All that is found in a text, in the order in which it was looked for.
#[derive(Debug, Drop)]
pub struct Report {
    /// What is found.
    pub findings: Items<Finding>,
}
