//! The lines of streams that may be restricted.
ghost use Rattle.std.specs.List.{join_by};
ghost use Rattle.std.specs.Prelude.{Some, codes};
ghost use Rattle.str0m_sdp.specs.attribute.Rid.{restriction_text, rid_text, rid_pts_part, restrictions_part};

use crate::attribute::simulcast::RestrictionId;
use crate::form::printed::PrintedJoined;
use crate::form::word::Word;
use crate::label;
use std::fmt;
use str0m_values::{Items, Pt, Text};

/// The `a=rid` line, with its end (RFC 8851, section 10).
#[derive(Drop)]
pub(crate) struct RidLine<'a> {
    pub(crate) id: &'a RestrictionId,
    pub(crate) direction: &'a Word,
    pub(crate) pts: &'a Items<Pt>,
    pub(crate) restrictions: &'a Items<(Text, Text)>,
}

impl<'a> fmt::Display for RidLine<'a> {
    ghost output = { λ line. Some (rid_text line.id.now line.direction.now line.pts.now line.restrictions.now) };

    fn fmt<W: fmt::Write>(&self, f: &mut fmt::Formatter<W>) -> fmt::Result {
        let name = self.id.0.as_str();
        let direction = self.direction;
        let pts = RidPtsPart(self.pts.as_slice());
        let restrictions = RestrictionsPart {
            pts: self.pts.as_slice(),
            restrictions: self.restrictions.as_slice(),
        };
        write!(
            f,
            "a={}{name} {direction}{pts}{restrictions}\r\n",
            label::RID
        )
    }
}

/// The payload types that the stream may have, after their label; nothing where there is none.
#[derive(Drop)]
struct RidPtsPart<'a>(&'a [Pt]);

impl<'a> fmt::Display for RidPtsPart<'a> {
    ghost output = { λ part. Some (rid_pts_part part.0.now) };

    fn fmt<W: fmt::Write>(&self, f: &mut fmt::Formatter<W>) -> fmt::Result {
        let items = self.0;
        if items.is_empty() {
            return Ok(());
        }
        let numbers = PrintedJoined {
            items,
            separator: ",",
        };
        write!(f, " pt={numbers}")
    }
}

/// The restrictions, after `;` or a space; nothing where there is none.
#[derive(Drop)]
struct RestrictionsPart<'a> {
    pts: &'a [Pt],
    restrictions: &'a [(Text, Text)],
}

impl<'a> fmt::Display for RestrictionsPart<'a> {
    ghost output = { λ part. Some (restrictions_part part.pts.now part.restrictions.now) };

    fn fmt<W: fmt::Write>(&self, f: &mut fmt::Formatter<W>) -> fmt::Result {
        if self.restrictions.is_empty() {
            return Ok(());
        }
        let pairs = RidPairs(self.restrictions);
        if self.pts.is_empty() {
            write!(f, " {pairs}")
        } else {
            write!(f, ";{pairs}")
        }
    }
}

/// Restrictions with `;` between each two.
#[derive(Drop)]
struct RidPairs<'a>(&'a [(Text, Text)]);

impl<'a> fmt::Display for RidPairs<'a> {
    ghost output = { λ pairs. Some (join_by restriction_text (codes ";") pairs.0.now) };

    fn fmt<W: fmt::Write>(&self, f: &mut fmt::Formatter<W>) -> fmt::Result {
        let Some((first, more)) = self.0.split_first() else {
            return Ok(());
        };
        Restriction(first).fmt(f)?;
        for pair in more {
            let restriction = Restriction(pair);
            write!(f, ";{restriction}")?;
        }
        Ok(())
    }
}

/// A key, `=` and a value.
#[derive(Drop)]
struct Restriction<'a>(&'a (Text, Text));

impl<'a> fmt::Display for Restriction<'a> {
    ghost output = { λ restriction. Some (restriction_text restriction.0.now) };

    fn fmt<W: fmt::Write>(&self, f: &mut fmt::Formatter<W>) -> fmt::Result {
        let (key, value) = self.0;
        write!(f, "{key}={value}")
    }
}
