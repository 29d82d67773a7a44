//! Findings that are added to the others, and whether there is one of a kind.
ghost use Rattle.lint.specs.Findings.{AddsOneFinding, is_changed};
ghost use Rattle.std.specs.Prelude.{◌≡◌, OnOk};

use crate::code::Code;
use crate::finding::Finding;
use crate::lines::line_column;
use crate::notes::Notes;
use crate::part::{Part, Place};
use std::alloc::AllocError;
use str0m_values::Text;

impl Notes {
    /// Adds a finding: what is wrong by its code, what stands there, where there is something, and what to do. What is missing after
    /// the last line is said of that line.
    pub(crate) fn add(&mut self, place: Place, code: Code, detail: &str) -> Result<(), AllocError>
        ensures one { OnOk result (AddsOneFinding place.line code self.old self.new) }
        ensures last { self.new.last ≡ self.old.last }
    {
        let entry = code.entry();
        let (title, remedy) = (entry.title, entry.remedy);
        let colon = if detail.is_empty() { "" } else { ": " };
        let sentence = format!(in self.alloc; "{title}{colon}{detail}; {remedy}")?;
        let finding = Finding {
            line: place.line.max(1).min(self.last),
            column: place.column,
            code,
            sentence: Text::from(sentence),
        };
        self.findings.push(finding)
    }

    /// Adds a finding of a part of a line.
    pub(crate) fn add_part(
        &mut self,
        number: usize,
        line: &str,
        code: Code,
        part: Part<'_>,
    ) -> Result<(), AllocError>
        ensures one { OnOk result (AddsOneFinding number code self.old self.new) }
        ensures last { self.new.last ≡ self.old.last }
    {
        let detail = part.quoted(self.alloc)?;
        let place = Place {
            line: number,
            column: line_column(line, part.behind),
        };
        self.add(place, code, detail.as_str())
    }

    /// Whether it is said of a line that it is printed otherwise than it stands.
    pub(crate) fn say_change(&self) -> bool
        ensures { result ≡ is_changed self.now.findings }
    {
        self.findings
            .as_slice()
            .iter()
            .any(|finding| finding.code.is_change())
    }
}
