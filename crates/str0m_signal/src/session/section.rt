//! The sections of a description.

ghost use Rattle.std.specs.Prelude.{◌≡◌, IfOk, List, ℕ, Option, codes, option_map};
ghost use Rattle.str0m_signal.specs.line.Heads.{media_head_left};
ghost use Rattle.str0m_signal.specs.line.Lines.{TakenLine, OneLine};
ghost use Rattle.str0m_signal.specs.line.LinesReading.{lines_of, line_read};
ghost use Rattle.str0m_signal.specs.session.Section.{IsSessionField};
ghost use Rattle.str0m_signal.specs.session.SectionReading.{head_read, NextSection};

use crate::form::media_attribute::media_attributes;
use crate::line::fields::read_field;
use crate::line::heads::{MediaHead, head};
use crate::line::lines::clean_line;
use crate::session::bandwidth::take_bandwidth;
use std::alloc::{AllocError, Global};
use str0m_sdp::MediaLine;

fn skip_connection(text: &str) -> &str
    ensures { (connection : Option (List ℕ)) × TakenLine (OneLine (IsSessionField (codes "c="))) (lines_of text.now) connection (lines_of result.now) }
{
    match read_field(text, "c=") {
        Some((_, rest)) => rest,
        None => text,
    }
}

fn read_head(alloc: Global, text: &str) -> Result<Option<(MediaHead, &str)>, AllocError>
    ensures { IfOk result (λ found. option_map media_head_left found ≡ line_read head_read (lines_of text.now)) }
{
    let Some((line, rest)) = clean_line(text) else {
        return Ok(None);
    };
    match head(alloc, line)? {
        Some(head) => Ok(Some((head, rest))),
        None => Ok(None),
    }
}

/// The section that stands next.
pub(crate) fn section(alloc: Global, text: &str) -> Result<Option<(MediaLine, &str)>, AllocError>
    ensures { IfOk result (NextSection text.now) }
{
    let Some((head, rest)) = read_head(alloc, text)? else {
        return Ok(None);
    };
    let rest = skip_connection(rest);
    let (bw, rest) = take_bandwidth(alloc, rest)?;
    let (attrs, rest) = media_attributes(alloc, rest)?;
    let MediaHead {
        typ,
        disabled,
        proto,
        pts,
    } = head;
    Ok(Some((
        MediaLine {
            typ,
            disabled,
            proto,
            pts,
            bw,
            attrs,
        },
        rest,
    )))
}
