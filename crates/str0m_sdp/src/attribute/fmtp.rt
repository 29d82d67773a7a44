//! The lines of format parameters.
ghost use Rattle.std.specs.Fmt.{WritesOnOk};
ghost use Rattle.std.specs.List.{join_by};
ghost use Rattle.std.specs.Prelude.{◌≡◌, ◌∷◌, ◌++◌, [], Some, MatchOption, codes, filter, flat_map};
ghost use Rattle.str0m_sdp.specs.Prelude.{param_text};
ghost use Rattle.str0m_sdp.specs.attribute.Fmtp.{is_fmtp_shown, fmtp_text};

use crate::form::printed::{write_end, write_numbered};
use crate::label;
use std::fmt::{self, Display};
use str0m_formats::FormatParam;
use str0m_values::Pt;

pub(crate) fn is_fmtp_shown(value: FormatParam) -> bool
    ensures { result ≡ is_fmtp_shown value }
{
    !matches!(value, FormatParam::Unknown | FormatParam::AmrWbUnsupported)
}

/// The first value that is shown, and those after it.
pub(crate) fn first_fmtp_shown(values: &[FormatParam]) -> Option<(FormatParam, &[FormatParam])>
    ensures { MatchOption result
        (filter is_fmtp_shown values.now ≡ [])
        (λ found. filter is_fmtp_shown values.now ≡ found.0 ∷ filter is_fmtp_shown found.1.now) }
{
    let mut left = values;
    while let Some((first, more)) = left.split_first() {
        if is_fmtp_shown(*first) {
            return Some((*first, more));
        }
        left = more;
    }
    None
}

/// Writes the `a=fmtp` line of a payload type, with its end (RFC 8866, section 6.15): the values whose text isn't empty, parted by
/// `;`. Without such a value there is no line.
pub(crate) fn write_fmtp<W: fmt::Write>(
    f: &mut fmt::Formatter<W>,
    pt: Pt,
    values: &[FormatParam],
) -> fmt::Result
    ensures { WritesOnOk W.write_str_gives f.old result (fmtp_text pt values.now) f.new }
{
    let Some((first, more)) = first_fmtp_shown(values) else {
        return Ok(());
    };
    write_numbered(f, label::FMTP, pt.value())?;
    FmtpShown { first, more }.fmt(f)?;
    write_end(f)
}

/// A value, and each shown one of those after it, parted by `;`.
#[derive(Drop)]
struct FmtpShown<'a> {
    first: FormatParam,
    more: &'a [FormatParam],
}

impl<'a> fmt::Display for FmtpShown<'a> {
    ghost output = { λ shown. Some (join_by param_text (codes ";") (shown.first ∷ filter is_fmtp_shown shown.more.now)) };

    fn fmt<W: fmt::Write>(&self, f: &mut fmt::Formatter<W>) -> fmt::Result {
        self.first.fmt(f)?;
        MoreFmtpShown(self.more).fmt(f)
    }
}

/// The values that are shown, each after `;`.
#[derive(Drop)]
struct MoreFmtpShown<'a>(&'a [FormatParam]);

impl<'a> fmt::Display for MoreFmtpShown<'a> {
    ghost output = { λ more. Some (flat_map (λ value. codes ";" ++ param_text value) (filter is_fmtp_shown more.0.now)) };

    fn fmt<W: fmt::Write>(&self, f: &mut fmt::Formatter<W>) -> fmt::Result {
        for value in self.0 {
            if is_fmtp_shown(*value) {
                f.write_str(";")?;
                value.fmt(f)?;
            }
        }
        Ok(())
    }
}
