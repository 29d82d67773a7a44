//! The lines of a session that list names.
ghost use Rattle.std.specs.Prelude.{Some};
ghost use Rattle.str0m_sdp.specs.attribute.Group.{group_text, msid_semantic_text};

use crate::form::printed::{PrintedLed, printed_spaced, write_end, write_paired};
use crate::label;
use std::fmt;
use str0m_values::{Items, Mid, Text};

/// The `a=group` line, with its end (RFC 5888, section 5).
#[derive(Drop)]
pub(crate) struct GroupLine<'a> {
    pub(crate) typ: &'a Text,
    pub(crate) mids: &'a Items<Mid>,
}

impl<'a> fmt::Display for GroupLine<'a> {
    ghost output = { λ line. Some (group_text line.typ.now line.mids.now) };

    fn fmt<W: fmt::Write>(&self, f: &mut fmt::Formatter<W>) -> fmt::Result {
        let mids = PrintedLed {
            items: self.mids.as_slice(),
            lead: " ",
        };
        f.write_str("a=")?;
        f.write_str(label::GROUP)?;
        self.typ.fmt(f)?;
        mids.fmt(f)?;
        write_end(f)
    }
}

/// The `a=msid-semantic` line, with its end.
#[derive(Drop)]
pub(crate) struct MsidSemanticLine<'a> {
    pub(crate) semantic: &'a Text,
    pub(crate) ids: &'a Items<Text>,
}

impl<'a> fmt::Display for MsidSemanticLine<'a> {
    ghost output = { λ line. Some (msid_semantic_text line.semantic.now line.ids.now) };

    fn fmt<W: fmt::Write>(&self, f: &mut fmt::Formatter<W>) -> fmt::Result {
        let ids = printed_spaced(self.ids.as_slice());
        write_paired(f, "msid-semantic: ", self.semantic, &ids)
    }
}
