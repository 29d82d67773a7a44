//! The fmtp lines of a payload type among those of a section.
ghost use Rattle.std.specs.Prelude.{◌≡◌, ◌==◌, OnOk};
ghost use Rattle.str0m_sdp.specs.section.FmtpLines.{fmtp_lines_with};

use std::alloc::AllocError;
use str0m_formats::FormatParam;
use str0m_values::Pt;

fn is_line_of_type(number: u8, pt: Pt) -> bool
    ensures { result ≡ (number == pt) }
{
    number == pt.value()
}

/// Puts the values of the lines of the type in place of what was found before.
pub(crate) fn find_fmtp_lines<'a>(
    found: &mut Vec<&'a [FormatParam]>,
    lines: &[(u8, &'a [FormatParam])],
    pt: Pt,
) -> Result<(), AllocError>
    ensures { OnOk result (found.new.items ≡ fmtp_lines_with pt lines.now) }
{
    found.clear();
    for (number, values) in lines {
        if is_line_of_type(*number, pt) {
            found.push(*values)?;
        }
    }
    Ok(())
}
