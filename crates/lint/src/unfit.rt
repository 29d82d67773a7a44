//! Why a line fits nowhere.
ghost use Rattle.lint.specs.Findings.{EndsReading};
ghost use Rattle.lint.specs.Lines.{IsLineNumber};
ghost use Rattle.std.specs.Prelude.{◌≡◌, OnOk, ◌∷◌, []};

use crate::code::{Code, Unfit};
use crate::lines::{line_column, next_line};
use crate::notes::Notes;
use crate::part::{Part, Place};
use std::alloc::{AllocError, Global};
use str0m_sdp::label::{APPLICATION, AUDIO, OLD_SCTP, SCTP, SRTP, VIDEO};
use str0m_values::Separator;
use str0m_values::cuts::{cut, strip};

/// The parts of an m-line, as they stand there.
#[derive(Clone, Copy)]
pub(crate) struct MediaLineParts<'a> {
    pub(crate) kind: &'a str,
    pub(crate) port: &'a str,
    pub(crate) protocol: &'a str,
    pub(crate) formats: &'a str,
}

/// The parts of an m-line, where a space stands between each two, and the text from its protocol on (RFC 8866, section 5.14).
fn media_line_parts(line: &str) -> Option<(MediaLineParts<'_>, &str)> {
    let (kind, rest) = cut(strip(line, "m=")?, Separator::Space)?;
    let (port, behind) = cut(rest, Separator::Space)?;
    let (protocol, formats) = cut(behind, Separator::Space)?;
    let parts = MediaLineParts {
        kind,
        port,
        protocol,
        formats,
    };
    Some((parts, behind))
}

/// Whether a media type is read: one of three words, or one that begins with none of them.
fn is_fit_media_type(text: &str) -> bool {
    match text {
        AUDIO | VIDEO | APPLICATION => true,
        _ => !text.is_empty()
            && strip(text, AUDIO).is_none()
            && strip(text, VIDEO).is_none()
            && strip(text, APPLICATION).is_none(),
    }
}

/// The first carriage return of a line, of which nothing can be shown.
fn unfit_lone_return(line: &str) -> Option<Part<'_>> {
    let (front, _) = cut(line, Separator::CarriageReturn)?;
    let behind = line.get(front.len()..).unwrap_or("");
    Some(Part { shown: "", behind })
}

/// The parts of an m-line; or why the line is none, and the part at fault.
pub(crate) fn media_line(line: &str) -> Result<MediaLineParts<'_>, (Unfit, Part<'_>)> {
    if let Some(part) = unfit_lone_return(line) {
        return Err((Unfit::LoneReturn, part));
    }
    let Some((parts, behind)) = media_line_parts(line) else {
        return Err((Unfit::MediaParts, Part::to_end(line)));
    };
    if !is_fit_media_type(parts.kind) {
        let shown = parts.kind;
        return Err((
            Unfit::MediaType,
            Part {
                shown,
                behind: strip(line, "m=").unwrap_or(line),
            },
        ));
    }
    if !matches!(parts.protocol, SRTP | SCTP | OLD_SCTP) {
        let shown = parts.protocol;
        return Err((Unfit::Protocol, Part { shown, behind }));
    }
    if strip(parts.formats, " ").is_some() {
        return Err((Unfit::Formats, Part::to_end(parts.formats)));
    }
    if parts.port.is_empty() {
        return Err((Unfit::MediaParts, Part::to_end(line)));
    }
    Ok(parts)
}

/// Why a line fits nowhere, and the part at fault.
fn fault(line: &str) -> (Unfit, Part<'_>) {
    let whole = Part::to_end(line);
    if line.is_empty() {
        return (Unfit::Blank, whole);
    }
    if let Some(part) = unfit_lone_return(line) {
        return (Unfit::LoneReturn, part);
    }
    match line.get(..2) {
        Some("m=") => match media_line(line) {
            Ok(_) => (Unfit::NoAttribute, whole),
            Err(fault) => fault,
        },
        Some("c=") => (Unfit::Connection, whole),
        Some("b=") => (Unfit::Bandwidth, whole),
        Some("a=") => (Unfit::EmptyAttribute, whole),
        _ => (Unfit::NoAttribute, whole),
    }
}

/// How many lines and m-lines stand after the first line of the text.
fn lost(text: &str) -> (usize, usize) {
    let (mut lines, mut sections) = (0usize, 0usize);
    let mut rest = match next_line(text) {
        Some((_, rest)) => rest,
        None => "",
    };
    while let Some((line, after)) = next_line(rest) {
        lines = lines.saturating_add(1);
        if strip(line, "m=").is_some() {
            sections = sections.saturating_add(1);
        }
        rest = after;
    }
    (lines, sections)
}

/// A count with its noun, which takes an `s` where it isn't one.
fn unfit_counted_noun(alloc: Global, count: usize, noun: &str) -> Result<String, AllocError> {
    let ending = if count == 1 { "" } else { "s" };
    format!(in alloc; "{count} {noun}{ending}")
}

/// What the first line of the rest is, by the part of it that is at fault, and what stands after it.
fn unfit_line(alloc: Global, part: Part<'_>, rest: &str) -> Result<String, AllocError> {
    let shown = part.quoted(alloc)?;
    let (lines, sections) = lost(rest);
    if lines == 0 {
        return Ok(shown);
    }
    let subject = if shown.is_empty() {
        "it"
    } else {
        shown.as_str()
    };
    let lines = unfit_counted_noun(alloc, lines, "line")?;
    if sections == 0 {
        return format!(in alloc; "{subject} hides {lines} after it");
    }
    let sections = unfit_counted_noun(alloc, sections, "m-line")?;
    format!(in alloc; "{subject} hides {lines} after it, {sections} among them")
}

/// Says that reading ended at the first line of the rest, which has this number, why, and what stands after it.
pub(crate) fn note_end(notes: &mut Notes, number: usize, rest: &str) -> Result<(), AllocError>
    ensures ends { IsLineNumber notes.old.last number → OnOk result (EndsReading number notes.old notes.new) }
    ensures last { notes.new.last ≡ notes.old.last }
{
    let line = match next_line(rest) {
        Some((line, _)) => line,
        None => "",
    };
    let (unfit, part) = fault(line);
    let detail = unfit_line(notes.alloc(), part, rest)?;
    let place = Place {
        line: number,
        column: line_column(line, part.behind),
    };
    notes.add(place, Code::Unread(unfit), detail.as_str())
}
