//! The lines of sources.
ghost use Rattle.std.specs.Fmt.{WritesOnOk};
ghost use Rattle.std.specs.Prelude.{◌++◌, Some, codes, decimal, refl};
ghost use Rattle.str0m_sdp.specs.declared.label.TheConstants as label;
ghost use Rattle.str0m_sdp.specs.form.Printed.{labelled_line};

use crate::form::printed::{Printed, write_paired};
use crate::label;
use std::fmt;
use str0m_values::{Name, Ssrc, Text};

/// Writes the `a=ssrc` line of a source, with its end (RFC 5576, section 4.1).
pub(crate) fn write_source<W: fmt::Write>(
    f: &mut fmt::Formatter<W>,
    ssrc: Ssrc,
    attr: &Name,
    value: &Text,
) -> fmt::Result
    ensures { WritesOnOk W.write_str_gives f.old result
        (labelled_line label.SSRC.now (decimal ssrc ++ (codes " " ++ (attr.now ++ (codes ":" ++ value.now))))) f.new }
{
    write_paired(f, label::SSRC, &ssrc, &SourceSaid { attr, value })
}

/// What is said of a source: a name and a value after a colon.
#[derive(Drop)]
struct SourceSaid<'a> {
    attr: &'a Name,
    value: &'a Text,
}

impl<'a> fmt::Display for SourceSaid<'a> {
    ghost output = { λ said. Some (said.attr.now ++ (codes ":" ++ said.value.now)) };

    fn fmt<W: fmt::Write>(&self, f: &mut fmt::Formatter<W>) -> fmt::Result {
        self.attr.fmt(f)?;
        f.write_str(":")?;
        self.value.fmt(f)
    }
}

impl<'a> Printed for SourceSaid<'a> {
    ghost text = { λ said. said.attr.now ++ (codes ":" ++ said.value.now) };

    ghost prints = { λ _. refl };
}
