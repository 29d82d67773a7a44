//! The lines of `sdpshow rows`.
ghost use Rattle.show.specs.RowLines.{row_text_or_dash, row_type_text, row_mid_text, row_fields, row_line, section_lines, rows_text};
ghost use Rattle.std.specs.Prelude.{◌≡◌, ◌++◌, IfOk, OnOk, Some, string_bytes};

use std::alloc::{AllocError, Global};
use std::fmt;
use str0m_signal::{MediaLine, Mid, PayloadParams, Pt, RtpMap, Sdp};

/// A payload type, and `-` for none.
#[derive(Clone, Copy)]
struct RowTypeOrDash(Option<Pt>);

impl fmt::Display for RowTypeOrDash {
    ghost output = { λ shown. Some (row_type_text shown.0) };

    fn fmt<W: fmt::Write>(&self, f: &mut fmt::Formatter<W>) -> fmt::Result {
        match self.0 {
            None => f.write_str("-"),
            Some(pt) => write!(f, "{pt}"),
        }
    }
}

/// The text, and `-` for an empty one.
fn row_text_or_dash(text: &str) -> &str
    ensures { result.now ≡ row_text_or_dash text.now }
{
    if text.is_empty() { "-" } else { text }
}

/// A row in the section of a mid, with what its format says.
#[derive(Drop)]
struct RowLine<'a> {
    mid: &'a str,
    row: &'a PayloadParams,
    format: &'a str,
}

impl<'a> fmt::Display for RowLine<'a> {
    ghost output = { λ line. Some (row_fields line.mid.now line.row.now line.format.now) };

    fn fmt<W: fmt::Write>(&self, f: &mut fmt::Formatter<W>) -> fmt::Result {
        let (mid, row, format) = (self.mid, self.row, self.format);
        let (pt, resend, red) = (
            row.pt(),
            RowTypeOrDash(row.resend()),
            RowTypeOrDash(row.red()),
        );
        let spec = row.spec();
        let map = RtpMap {
            codec: spec.codec,
            clock_rate: spec.clock_rate,
            channels: spec.channels,
        };
        write!(f, "{mid} {pt} {resend} {red} {map} {format}\n")
    }
}

pub(crate) fn row_line(alloc: Global, mid: &str, row: &PayloadParams) -> Result<String, AllocError>
    ensures { IfOk result (λ line. string_bytes line ≡ row_line mid.now row.now) }
{
    let format = row.spec().format.to_string(alloc)?;
    let format = row_text_or_dash(format.as_str());
    let line = RowLine { mid, row, format };
    line.to_string(alloc)
}

/// Appends the lines of a section's rows.
fn append_rows(alloc: Global, text: &mut String, section: &MediaLine) -> Result<(), AllocError>
    ensures { OnOk result (string_bytes text.new ≡ string_bytes text.old ++ section_lines section.now) }
{
    let rows = section.rtp_params()?;
    let mid = row_mid_text(alloc, section)?;
    for row in &rows {
        let line = row_line(alloc, mid.as_str(), row)?;
        text.push_str(line.as_str())?;
    }
    Ok(())
}

/// The section's mid, and `-` where it has none.
fn row_mid_text(alloc: Global, section: &MediaLine) -> Result<String, AllocError>
    ensures { IfOk result (λ text. string_bytes text ≡ row_mid_text section.now) }
{
    if section.has_mid() {
        section.mid().to_string(alloc)
    } else {
        String::from_str(alloc, "-")
    }
}

/// The rows of each section in order, a line each.
pub(crate) fn rows_text(alloc: Global, sdp: &Sdp) -> Result<String, AllocError>
    ensures { IfOk result (λ text. string_bytes text ≡ rows_text sdp.now) }
{
    let mut text = String::new(alloc);
    for section in sdp.media_lines.as_slice() {
        append_rows(alloc, &mut text, section)?;
    }
    Ok(text)
}
