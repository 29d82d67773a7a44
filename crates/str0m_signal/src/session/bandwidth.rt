//! Lines with a bandwidth.

ghost use Rattle.std.specs.Prelude.{◌≡◌, IfOk, option_map};
ghost use Rattle.str0m_signal.specs.line.Lines.{TakenLine, OneLine};
ghost use Rattle.str0m_signal.specs.line.LinesReading.{lines_of, line_read, lines_left};
ghost use Rattle.str0m_signal.specs.session.Section.{IsBandwidth};
ghost use Rattle.str0m_signal.specs.session.SectionReading.{bandwidth_read};

use crate::line::lines::clean_line;
use std::alloc::{AllocError, Global};
use str0m_sdp::Bandwidth;
use str0m_values::cuts::{cut, strip};
use str0m_values::{Separator, Text};

pub(crate) fn bandwidth(alloc: Global, line: &str) -> Result<Option<Bandwidth>, AllocError>
    ensures { IfOk result (λ found. found ≡ bandwidth_read line.now) }
{
    let Some(body) = strip(line, "b=") else {
        return Ok(None);
    };
    let Some((typ, val)) = cut(body, Separator::Colon) else {
        return Ok(None);
    };
    if typ.is_empty() || val.is_empty() {
        return Ok(None);
    }
    let typ = Text::from_str(alloc, typ)?;
    let val = Text::from_str(alloc, val)?;
    Ok(Some(Bandwidth { typ, val }))
}

/// The bandwidth of the first line, and what follows that line. Most texts go on with another line, whose end isn't looked for.
#[tactic(auto, using(crate::proofs::session::HeaderFirstLetters::no_bandwidth_there))]
fn read_bandwidth(alloc: Global, text: &str) -> Result<Option<(Bandwidth, &str)>, AllocError>
    ensures { IfOk result (λ found. option_map lines_left found ≡ line_read bandwidth_read (lines_of text.now)) }
{
    if strip(text, "b").is_none() {
        return Ok(None);
    }
    let Some((line, rest)) = clean_line(text) else {
        return Ok(None);
    };
    match bandwidth(alloc, line)? {
        Some(bandwidth) => Ok(Some((bandwidth, rest))),
        None => Ok(None),
    }
}

/// The bandwidth, where its line stands next, and what follows it.
pub(crate) fn take_bandwidth(
    alloc: Global,
    text: &str,
) -> Result<(Option<Bandwidth>, &str), AllocError>
    ensures { IfOk result (λ found. TakenLine (OneLine IsBandwidth) (lines_of text.now) found.0 (lines_of found.1.now)) }
{
    match read_bandwidth(alloc, text)? {
        Some((bandwidth, rest)) => Ok((Some(bandwidth), rest)),
        None => Ok((None, text)),
    }
}
