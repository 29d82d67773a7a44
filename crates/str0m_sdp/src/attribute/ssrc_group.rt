//! The lines of groups of sources.
ghost use Rattle.std.specs.Prelude.{Some};
ghost use Rattle.str0m_sdp.specs.attribute.SsrcGroup.{ssrc_group_text};

use crate::form::printed::{printed_spaced, write_paired};
use crate::label;
use std::fmt;
use str0m_values::{Ssrc, Text};

/// The `a=ssrc-group` line, with its end (RFC 5576, section 4.2); nothing without sources.
#[derive(Drop)]
pub(crate) struct SsrcGroupLine<'a> {
    pub(crate) semantics: &'a Text,
    pub(crate) ssrcs: &'a [Ssrc],
}

impl<'a> fmt::Display for SsrcGroupLine<'a> {
    ghost output = { λ line. Some (ssrc_group_text line.semantics.now line.ssrcs.now) };

    fn fmt<W: fmt::Write>(&self, f: &mut fmt::Formatter<W>) -> fmt::Result {
        if self.ssrcs.is_empty() {
            return Ok(());
        }
        let sources = printed_spaced(self.ssrcs);
        write_paired(f, label::SSRC_GROUP, self.semantics, &sources)
    }
}
