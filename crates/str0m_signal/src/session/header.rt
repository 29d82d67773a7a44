//! The header of a description.

ghost use Rattle.std.specs.Prelude.{◌≡◌, IfOk, List, ℕ, codes, option_map};
ghost use Rattle.str0m_signal.specs.form.FormReading.{digits_read};
ghost use Rattle.str0m_signal.specs.line.Heads.{session_head};
ghost use Rattle.str0m_signal.specs.line.Lines.{Run, OneLine};
ghost use Rattle.str0m_signal.specs.line.LinesReading.{lines_of, line_read, lines_left, both_lines_left, NextLinePart};
ghost use Rattle.str0m_signal.specs.session.Header.{IsHeaderInfo, IsHeader};
ghost use Rattle.str0m_signal.specs.session.HeaderReading.{exact_read, origin_read, info_read, opening_read};
ghost use Rattle.str0m_signal.specs.session.Section.{IsSessionField};
ghost use Rattle.str0m_signal.specs.session.SectionReading.{field_read};

use crate::line::fields::{field, read_field};
use crate::line::lines::clean_line;
use crate::session::bandwidth::take_bandwidth;
use std::alloc::{AllocError, Global};
use str0m_sdp::Bandwidth;
use str0m_values::cuts::{cut, num_u64, strip};
use str0m_values::{Separator, SessionId};

/// What a header says.
#[derive(Debug, Drop)]
pub(crate) struct SessionHead {
    pub(crate) id: SessionId,
    pub(crate) bw: Option<Bandwidth>,
}

/// What follows the first line, where that is the word.
fn exact_line<'a>(text: &'a str, word: &str) -> Option<&'a str>
    ensures { option_map (λ x. (word.now, lines_of x.now)) result ≡ line_read (exact_read word.now) (lines_of text.now) }
{
    let (line, rest) = clean_line(text)?;
    if line == word { Some(rest) } else { None }
}

fn id_digits(text: &str) -> Option<u64>
    ensures { result ≡ digits_read 18446744073709551615 text.now }
{
    if strip(text, "+").is_some() {
        None
    } else {
        num_u64(text)
    }
}

fn header_origin(line: &str) -> Option<u64>
    ensures { result ≡ origin_read line.now }
{
    let body = strip(line, "o=")?;
    let (name, body) = cut(body, Separator::Space)?;
    if name.is_empty() {
        return None;
    }
    let (number, more) = cut(body, Separator::Space)?;
    let id = id_digits(number)?;
    if more.is_empty() { None } else { Some(id) }
}

fn read_origin(text: &str) -> Option<(u64, &str)>
    ensures { option_map lines_left result ≡ line_read origin_read (lines_of text.now) }
{
    let (line, rest) = clean_line(text)?;
    Some((header_origin(line)?, rest))
}

fn header_opening(text: &str) -> Option<(u64, &str)>
    ensures { option_map lines_left result ≡ opening_read (lines_of text.now) }
{
    let rest = exact_line(text, "v=0")?;
    let Some((id, rest)) = read_origin(rest) else {
        return None;
    };
    let (_, rest) = read_field(rest, "s=")?;
    Some((id, rest))
}

fn header_info(line: &str) -> Option<&str>
    ensures { option_map (λ x. x.now) result ≡ info_read line.now }
{
    if let Some(text) = field(line, "i=") {
        return Some(text);
    }
    if let Some(text) = field(line, "u=") {
        return Some(text);
    }
    if let Some(text) = field(line, "e=") {
        return Some(text);
    }
    if let Some(text) = field(line, "p=") {
        return Some(text);
    }
    if let Some(text) = field(line, "c=") {
        return Some(text);
    }
    if let Some(text) = field(line, "z=") {
        return Some(text);
    }
    field(line, "k=")
}

/// The information of the first line, and what follows that line. Most headers go on with their times, whose line's end isn't looked for.
#[tactic(auto, using(crate::proofs::session::HeaderFirstLetters::no_info_there))]
fn read_info(text: &str) -> Option<(&str, &str)>
    ensures { option_map both_lines_left result ≡ line_read info_read (lines_of text.now) }
{
    if strip(text, "t").is_some() {
        return None;
    }
    let (line, rest) = clean_line(text)?;
    Some((header_info(line)?, rest))
}

fn skip_header_infos(text: &str) -> &str
    ensures { (infos : List (List ℕ)) × Run (OneLine IsHeaderInfo) (lines_of text.now) infos (lines_of result.now) }
{
    let mut rest = text;
    while let Some((_, after)) = read_info(rest) {
        rest = after;
    }
    rest
}

/// The repeat times of the first line, and what follows that line. Few headers have some: no other line's end is looked for.
#[tactic(auto, using(crate::proofs::session::HeaderFirstLetters::no_repeat_there))]
fn read_repeat(text: &str) -> Option<(&str, &str)>
    ensures { option_map both_lines_left result ≡ line_read (field_read (codes "r=")) (lines_of text.now) }
{
    if strip(text, "r").is_none() {
        return None;
    }
    read_field(text, "r=")
}

fn skip_header_repeats(text: &str) -> &str
    ensures { (repeats : List (List ℕ)) × Run (OneLine (IsSessionField (codes "r="))) (lines_of text.now) repeats (lines_of result.now) }
{
    let mut rest = text;
    while let Some((_, after)) = read_repeat(rest) {
        rest = after;
    }
    rest
}

/// The header that stands at the front of a text.
pub(crate) fn next_header(
    alloc: Global,
    text: &str,
) -> Result<Option<(SessionHead, &str)>, AllocError>
    ensures { IfOk result (λ found. NextLinePart IsHeader text.now (option_map session_head found)) }
{
    let Some((id, rest)) = header_opening(text) else {
        return Ok(None);
    };
    let rest = skip_header_infos(rest);
    let (bw, rest) = take_bandwidth(alloc, rest)?;
    let Some(rest) = exact_line(rest, "t=0 0") else {
        return Ok(None);
    };
    let rest = skip_header_repeats(rest);
    Ok(Some((
        SessionHead {
            id: SessionId::from(id),
            bw,
        },
        rest,
    )))
}
