//! The attribute lines of a row.
ghost use Rattle.std.specs.Prelude.{◌≡◌, ◌∷◌, ◌++◌, [], List, OnOk, OnErr, IfOk};
ghost use Rattle.str0m_sdp.specs.Prelude.{FormatParam};
ghost use Rattle.str0m_sdp.specs.declared.attribute.MediaAttribute.{MediaAttribute};
ghost use Rattle.str0m_sdp.specs.section.RowAttributes.{AppendsRowLines, feedback_line, feedback_attrs, fmtp_line, format_values, format_attrs, rtx_lines, rtx_attrs, red_lines, red_attrs, row_attrs};

use crate::attribute::MediaAttribute;
use crate::attribute::rtp_map::RtpMap;
use crate::label::{FIR, NACK, PLI, REMB, TRANSPORT_CC};
use std::alloc::{AllocError, Global};
use str0m_formats::{Codec, CodecSpec, FormatParam, PayloadParams};
use str0m_values::{Items, Pt, Text};

/// What attribute lines of a section can describe.
pub trait AsMediaAttrs {
    // the lines, in order
    ghost attrs: { Self → List MediaAttribute };

    /// Appends the lines, in order. The only error is that memory was refused, which leaves the
    /// list as it was.
    fn as_media_attrs(&self, list: &mut Vec<MediaAttribute>) -> Result<(), AllocError>
        ensures ok { OnOk result (list.new.items ≡ list.old.items ++ attrs self.now) }
        ensures err { OnErr result (list.new.items ≡ list.old.items) };
}

/// A line that says what a payload type stands for.
fn push_map(list: &mut Vec<MediaAttribute>, pt: Pt, value: RtpMap) -> Result<(), AllocError>
    ensures ok { OnOk result (list.new.items ≡ list.old.items ++ MediaAttribute.RtpMap pt value ∷ []) }
    ensures err { OnErr result (list.new.items ≡ list.old.items) }
{
    list.push(MediaAttribute::RtpMap { pt, value })?;
    Ok(())
}

/// A line of feedback, where it is on.
fn push_feedback(
    list: &mut Vec<MediaAttribute>,
    pt: Pt,
    value: &str,
    is_on: bool,
) -> Result<(), AllocError>
    ensures ok { OnOk result (list.new.items ≡ list.old.items ++ feedback_line pt value.now is_on) }
    ensures err { OnErr result (list.new.items ≡ list.old.items) }
{
    if !is_on {
        return Ok(());
    }
    let value = Text::from_str(*list.allocator(), value)?;
    list.push(MediaAttribute::RtcpFb { pt, value })?;
    Ok(())
}

/// A line with values, where there are some.
fn push_row_values(
    list: &mut Vec<MediaAttribute>,
    pt: Pt,
    values: Vec<FormatParam>,
) -> Result<(), AllocError>
    ensures ok { OnOk result (list.new.items ≡ list.old.items ++ fmtp_line pt values.items) }
    ensures err { OnErr result (list.new.items ≡ list.old.items) }
{
    if values.is_empty() {
        return Ok(());
    }
    let values = Items(values);
    list.push(MediaAttribute::Fmtp { pt, values })?;
    Ok(())
}

/// A list of one value.
fn one_row_value_list(alloc: Global, value: FormatParam) -> Result<Vec<FormatParam>, AllocError>
    ensures { IfOk result (λ values. values.items ≡ value ∷ []) }
{
    let mut values = Vec::new(alloc);
    values.push(value)?;
    Ok(values)
}

fn append_feedback(list: &mut Vec<MediaAttribute>, row: &PayloadParams) -> Result<(), AllocError>
    ensures ok { OnOk result (list.new.items ≡ list.old.items ++ feedback_attrs row.now) }
    ensures begins { AppendsRowLines list.old.items list.new.items }
{
    let pt = row.pt();
    push_feedback(list, pt, TRANSPORT_CC, row.fb_transport_cc())?;
    push_feedback(list, pt, REMB, row.fb_remb())?;
    push_feedback(list, pt, FIR, row.fb_fir())?;
    push_feedback(list, pt, NACK, row.fb_nack())?;
    push_feedback(list, pt, PLI, row.fb_pli())?;
    Ok(())
}

/// The values of a codec's fmtp line.
fn format_values(alloc: Global, spec: CodecSpec) -> Result<Vec<FormatParam>, AllocError>
    ensures { IfOk result (λ values. values.items ≡ format_values spec.codec spec.format) }
{
    match spec.codec {
        Codec::Tele => one_row_value_list(
            alloc,
            FormatParam::TelephoneEvents(spec.format.highest_event()),
        ),
        _ => spec.format.to_format_param(alloc),
    }
}

fn append_format(list: &mut Vec<MediaAttribute>, row: &PayloadParams) -> Result<(), AllocError>
    ensures ok { OnOk result (list.new.items ≡ list.old.items ++ format_attrs row.now) }
    ensures err { OnErr result (list.new.items ≡ list.old.items) }
{
    let values = format_values(*list.allocator(), row.spec())?;
    push_row_values(list, row.pt(), values)
}

/// The lines of a payload type beside the primary one: what it stands for, and one value.
fn append_row_beside(
    list: &mut Vec<MediaAttribute>,
    pt: Pt,
    map: RtpMap,
    value: FormatParam,
) -> Result<(), AllocError>
    ensures ok { OnOk result (list.new.items ≡ list.old.items ++ MediaAttribute.RtpMap pt map ∷ (MediaAttribute.Fmtp pt (value ∷ []) ∷ [])) }
    ensures begins { AppendsRowLines list.old.items list.new.items }
{
    push_map(list, pt, map)?;
    let values = one_row_value_list(*list.allocator(), value)?;
    push_row_values(list, pt, values)
}

fn append_rtx(list: &mut Vec<MediaAttribute>, row: &PayloadParams) -> Result<(), AllocError>
    ensures ok { OnOk result (list.new.items ≡ list.old.items ++ rtx_attrs row.now) }
    ensures begins { AppendsRowLines list.old.items list.new.items }
{
    let Some(pt) = row.resend() else {
        return Ok(());
    };
    let map = RtpMap {
        codec: Codec::Rtx,
        clock_rate: row.spec().rtp_clock_rate(),
        channels: None,
    };
    append_row_beside(list, pt, map, FormatParam::Apt(row.pt()))
}

fn append_red(list: &mut Vec<MediaAttribute>, row: &PayloadParams) -> Result<(), AllocError>
    ensures ok { OnOk result (list.new.items ≡ list.old.items ++ red_attrs row.now) }
    ensures begins { AppendsRowLines list.old.items list.new.items }
{
    let Some(pt) = row.red() else {
        return Ok(());
    };
    let channels = row.spec().channels;
    let map = RtpMap {
        codec: Codec::Red,
        clock_rate: row.spec().rtp_clock_rate(),
        channels,
    };
    append_row_beside(list, pt, map, FormatParam::Red(row.pt()))
}

/// Appends as far as there is memory.
fn append_row_lines(list: &mut Vec<MediaAttribute>, row: &PayloadParams) -> Result<(), AllocError>
    ensures ok { OnOk result (list.new.items ≡ list.old.items ++ row_attrs row.now) }
    ensures begins { AppendsRowLines list.old.items list.new.items }
{
    push_map(list, row.pt(), RtpMap::from(row.spec()))?;
    append_feedback(list, row)?;
    append_format(list, row)?;
    append_rtx(list, row)?;
    append_red(list, row)
}

/// The lines of a row, in order: what its type stands for (RFC 8866, section 6.6), its feedback
/// (RFC 4585, section 4.2; RFC 5104, section 7.1; draft-holmer-rmcat-transport-wide-cc-extensions
/// and draft-alvestrand-rmcat-remb), its format where that says something, the highest event for
/// telephone events (RFC 4733, section 2.4.1); then, for its RTX type (RFC 4588, section 8.1) and
/// for its RED type (RFC 2198, section 5), what it stands for and the primary type.
impl AsMediaAttrs for PayloadParams {
    ghost attrs = { row_attrs };

    fn as_media_attrs(&self, list: &mut Vec<MediaAttribute>) -> Result<(), AllocError> {
        let before = list.len();
        let appended = append_row_lines(list, self);
        if appended.is_err() {
            list.truncate(before);
        }
        appended
    }
}
