//! The findings while they are gathered.
ghost use Rattle.lint.specs.Lines.{IsWithinLines};
ghost use Rattle.std.specs.Prelude.{◌≡◌, ◌<◌, ◌≤◌, ◌^◌, [], All, max};

use crate::finding::Finding;
use std::alloc::Global;
use str0m_values::Items;

/// The findings so far, in a text of so many lines.
#[derive(Drop)]
pub(crate) struct Notes {
    pub(crate) alloc: Global,
    pub(crate) last: usize,
    pub(crate) findings: Items<Finding>,
    ghost some_line: { 1 ≤ last },
    ghost bounded: { last < 2 ^ 64 },
    ghost within: { All (IsWithinLines last) findings },
}

impl Notes {
    /// No findings, in a text of so many lines; an empty text counts as one line.
    pub(crate) fn new(alloc: Global, lines: usize) -> Notes
        ensures none { result.findings ≡ [] }
        ensures last { result.last ≡ max 1 lines }
    {
        Notes {
            alloc,
            last: lines.max(1),
            findings: Items::empty(alloc),
        }
    }

    pub(crate) fn alloc(&self) -> Global {
        self.alloc
    }

    /// The findings.
    pub(crate) fn into_findings(self) -> Items<Finding>
        ensures all { result ≡ self.findings }
        ensures within { All (IsWithinLines self.last) result }
    {
        let Notes {
            alloc: _,
            last: _,
            findings,
        } = self;
        findings
    }
}
