//! Formats that are read of a line, or of the values of fmtp lines.
ghost use Rattle.std.specs.List.{list_any};
ghost use Rattle.std.specs.Prelude.{◌≡◌, ◌∷◌, [], IfOk, option_map};
ghost use Rattle.str0m_formats.specs.declared.codec.Codec.TheVariants.{AmrWb};
ghost use Rattle.str0m_formats.specs.declared.format.format_params.FormatParams.{FormatParams};
ghost use Rattle.str0m_formats.specs.format.FormatLine.{pieces, pair_in, bare_param_in, pairs_in, IsFormatOfLine, IsFormatOfBares, is_event, is_unsupported_param, events_end, format_lines_ask_absent, line_without_event_ranges, params_of_lines, format_of_fmtp, format_line_values};
ghost use Rattle.str0m_formats.specs.format.FormatParam.{pair_texts};
ghost use Rattle.str0m_formats.specs.format.FormatParams.{empty, set_all, params_text, CanFormatBeReadBack};
ghost use Rattle.str0m_formats.specs.round.Narrowing.{telephone_max};

use crate::codec::Codec;
use crate::format::format_param::FormatParam;
use crate::format::format_params::FormatParams;
use std::alloc::{AllocError, Global};
use str0m_values::Separator;
use str0m_values::cuts::{before, cut, has};

/// The key and the value of a piece, trimmed.
fn pair_in(piece: &str) -> Option<(&str, &str)>
    ensures { option_map (λ pair. (pair.0.now, pair.1.now)) result ≡ pair_in piece.now }
{
    let (key, rest) = cut(piece, Separator::Equals)?;
    Some((key.trim(), before(rest, Separator::Equals).trim()))
}

/// The value of a piece without a key, trimmed.
fn bare_param_in(piece: &str) -> Option<&str>
    ensures { option_map (λ text. text.now) result ≡ bare_param_in piece.now }
{
    if has(piece, Separator::Equals) {
        return None;
    }
    Some(piece.trim())
}

/// The pairs of the pieces of a line.
fn pairs_in<'a>(alloc: Global, line: &'a str) -> Result<Vec<(&'a str, &'a str)>, AllocError>
    ensures { IfOk result (λ pairs. pair_texts pairs.items ≡ pairs_in (pieces line.now)) }
{
    let mut pairs = Vec::new(alloc);
    for piece in line.split(';') {
        if let Some(pair) = pair_in(piece) {
            pairs.push(pair)?;
        }
    }
    Ok(pairs)
}

/// What the pieces of a line without a key say.
fn bare_params_in(line: &str) -> FormatParams
    ensures { IsFormatOfBares (pieces line.now) result }
{
    let mut format = FormatParams::default();
    for piece in line.split(';') {
        if let Some(value) = bare_param_in(piece) {
            format.set_param(&FormatParam::parse_telephone_events(value));
        }
    }
    format
}

/// The format that a line says.
fn format_in(alloc: Global, line: &str) -> Result<FormatParams, AllocError>
    ensures { IfOk result (IsFormatOfLine line.now) }
{
    let pairs = pairs_in(alloc, line)?;
    let params = FormatParam::parse_pairs(alloc, pairs.as_slice())?;
    let mut format = bare_params_in(line);
    format.set_all(params.as_slice());
    Ok(format)
}

impl FormatParams {
    fn set_all(&mut self, params: &[FormatParam])
        ensures { self.new ≡ set_all self.old params.now }
    {
        for param in params {
            self.set_param(param);
        }
    }

    /// Takes over the values of an fmtp line, but for ranges of events.
    fn set_values(&mut self, line: &[FormatParam])
        ensures { self.new ≡ set_all self.old (line_without_event_ranges line.now) }
    {
        for param in line {
            if !is_event(*param) {
                self.set_param(param);
            }
        }
    }

    /// The format that a line such as `minptime=10;useinbandfec=1` or `0-16` says (RFC 8866, section
    /// 6.15).
    ///
    /// Pieces are parted by `;`. The key of a piece is what stands before its first `=`, its value
    /// what stands from there to the second `=` or the end; both are trimmed. What pieces without
    /// `=` say is set first, by `parse_telephone_events`; then what the pairs say, by
    /// `parse_pairs`. What doesn't read is passed over. The only error is that memory was refused.
    pub fn parse_line(alloc: Global, line: &str) -> Result<FormatParams, AllocError>
        ensures format { IfOk result (IsFormatOfLine line.now) }

        // A format that can be read back, printed and read, is itself.
        ensures itself { (params : FormatParams) → CanFormatBeReadBack params → line.now ≡ params_text params →
            IfOk result (λ format. format ≡ params) }
    {
        format_in(alloc, line)
    }

    /// The highest telephone event where no line says it: 16, the default of `str0m` (RFC 4733
    /// itself has 0 to 15).
    pub const DEFAULT_TELEPHONE_EVENT_MAX: u8 = 16;

    /// The highest telephone event, `DEFAULT_TELEPHONE_EVENT_MAX` where the format doesn't say it.
    pub fn highest_event(&self) -> u8
        ensures { result ≡ telephone_max self.now }
    {
        self.telephone_event_max
            .unwrap_or(FormatParams::DEFAULT_TELEPHONE_EVENT_MAX)
    }

    /// The format that the fmtp lines of a payload type say of its codec.
    ///
    /// Of telephone events no line means 0 to 16, and one line that is one range means that range;
    /// all else is refused (RFC 4733, section 2.4.1). Of other codecs all values are set in order, but
    /// for ranges of events; a line of AMR-WB is refused where it asks for `crc`, `robust-sorting`,
    /// any `interleaving` or a `mode-change-period` of 2 (RFC 4867, section 8.2). `None` where it is
    /// refused.
    #[tactic(auto, unfolding(crate::specs::format::FormatLine::format_lines_ask_absent))]
    pub fn from_sdp_fmtp(codec: Codec, lines: &[&[FormatParam]]) -> Option<FormatParams>
        ensures format { result ≡ format_of_fmtp codec (format_line_values lines.now) }
        ensures default { FormatParams.DEFAULT_TELEPHONE_EVENT_MAX ≡ 16 }
    {
        match codec {
            Codec::Tele => Some(FormatParams {
                telephone_event_max: Some(events_end(lines)?),
                ..FormatParams::default()
            }),
            Codec::AmrWb => amr_wb_format(lines),
            _ => Some(format_of_values(lines)),
        }
    }
}

#[tactic(auto, unfolding(crate::specs::format::FormatLine::is_event))]
fn is_event(param: FormatParam) -> bool
    ensures { result ≡ is_event param }
{
    matches!(param, FormatParam::TelephoneEvents(_))
}

#[tactic(auto, unfolding(crate::specs::format::FormatLine::is_unsupported_param))]
fn is_unsupported_param(param: &FormatParam) -> bool
    ensures { result ≡ is_unsupported_param param.now }
{
    matches!(param, FormatParam::AmrWbUnsupported)
}

fn has_unsupported_param(line: &[FormatParam]) -> bool
    ensures { result ≡ list_any is_unsupported_param line.now }
{
    line.iter().any(|param| is_unsupported_param(param))
}

fn any_unsupported_param(lines: &[&[FormatParam]]) -> bool
    ensures { result ≡ list_any (λ line. list_any is_unsupported_param line.now) lines.now }
{
    lines.iter().any(|line| has_unsupported_param(line))
}

/// Whether a line asks for what isn't there of AMR-WB.
#[tactic(auto, using(crate::proofs::format::FormatLineLaws::format_lines_ask_answer))]
fn asks_unsupported_param(lines: &[&[FormatParam]]) -> bool
    ensures { result ≡ format_lines_ask_absent AmrWb (format_line_values lines.now) }
{
    any_unsupported_param(lines)
}

/// What lines of AMR-WB say, where they don't ask for what isn't there.
fn amr_wb_format(lines: &[&[FormatParam]]) -> Option<FormatParams>
    ensures { result ≡ format_of_fmtp AmrWb (format_line_values lines.now) }
{
    if asks_unsupported_param(lines) {
        return None;
    }
    Some(format_of_values(lines))
}

/// The highest event of the lines of telephone events.
fn events_end(lines: &[&[FormatParam]]) -> Option<u8>
    ensures { result ≡ events_end (format_line_values lines.now) }
{
    match lines {
        [] => Some(FormatParams::DEFAULT_TELEPHONE_EVENT_MAX),
        [line] => event_range_end(line),
        _ => None,
    }
}

/// The end of the range that is all of a line.
fn event_range_end(line: &[FormatParam]) -> Option<u8>
    ensures { result ≡ events_end (line.now ∷ []) }
{
    match line {
        [FormatParam::BareRange(max) | FormatParam::TelephoneEvents(max)] => Some(*max),
        _ => None,
    }
}

fn format_of_values(lines: &[&[FormatParam]]) -> FormatParams
    ensures { result ≡ set_all empty (params_of_lines (format_line_values lines.now)) }
{
    let mut format = FormatParams::default();
    for line in lines {
        format.set_values(line);
    }
    format
}
