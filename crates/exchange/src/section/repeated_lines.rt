//! The lines that an answer says only where the offer does.
ghost use Rattle.exchange.specs.section.RepeatedLines.{is_repeated, repeated_lines};
ghost use Rattle.std.specs.List.{list_any};
ghost use Rattle.std.specs.Prelude.{◌≡◌, ◌++◌, IfOk, OnOk, bytes_eq};

use std::alloc::{AllocError, Global};
use str0m_sdp::label::EXTMAP_ALLOW_MIXED;
use str0m_signal::{MediaAttribute, MediaLine, Text};

fn is_known_extension(known: &[Text], uri: &str) -> bool
    ensures { result ≡ list_any (λ other. bytes_eq other uri.now) known.now }
{
    known.iter().any(|other| other.as_str() == uri)
}

pub(crate) fn is_repeated(known: &[Text], line: &MediaAttribute) -> bool
    ensures { result ≡ is_repeated known.now line.now }
{
    match line {
        MediaAttribute::RtcpMux | MediaAttribute::RtcpRsize => true,
        MediaAttribute::ExtMap { ext, .. } => is_known_extension(known, ext.as_uri()),
        MediaAttribute::Unused(text) => text.as_str() == EXTMAP_ALLOW_MIXED,
        _ => false,
    }
}

/// Puts the lines that an answer repeats from an offered section behind others.
pub(crate) fn push_repeated(
    lines: &mut Vec<MediaAttribute>,
    known: &[Text],
    offered: &MediaLine,
) -> Result<(), AllocError>
    ensures { OnOk result (lines.new.items ≡ lines.old.items ++ repeated_lines known.now offered.now) }
{
    for line in offered.attrs.as_slice() {
        if is_repeated(known, line) {
            lines.push(line.clone()?)?;
        }
    }
    Ok(())
}

/// How many lines most answers repeat at the most: no answer depends on it.
const LIKELY_REPEATED_LINES: usize = 16;

/// The lines that an answer repeats from an offered section, in the offer's order: `a=rtcp-mux` (RFC 5761, section 5.1.1),
/// `a=rtcp-rsize` (RFC 5506, section 5), each `a=extmap` line whose URI stands in `known`, with the offered number, and
/// `a=extmap-allow-mixed` (RFC 8285, section 6). No other line stands in the result, and none that isn't offered.
///
/// The only error is that memory was refused. The section stays as it is.
pub fn repeated(
    alloc: Global,
    known: &[Text],
    offered: &MediaLine,
) -> Result<Vec<MediaAttribute>, AllocError>
    ensures { IfOk result (λ lines. lines.items ≡ repeated_lines known.now offered.now) }
{
    let mut lines = Vec::with_capacity(alloc, offered.attrs.len().min(LIKELY_REPEATED_LINES))?;
    push_repeated(&mut lines, known, offered)?;
    Ok(lines)
}
