//! Descriptions that were read back, made equal to those that were said, at the cost of what may differ.
ghost use Rattle.exchange.specs.Prelude.{Alike};
ghost use Rattle.exchange.specs.state.ReadBack.{IsWholeReadAs, IsSectionReadAs, read_back_may_differ};
ghost use Rattle.std.specs.List.{AllZip};
ghost use Rattle.std.specs.Prelude.{◌≡◌, ◌↔◌, IsTrue, OnOk};

use std::alloc::AllocError;
use str0m_signal::{MediaAttribute, MediaLine, Sdp};

#[tactic(auto, using(str0m_sdp::proofs::media_Decides))]
fn is_same_copied_line(line: &MediaAttribute, other: &MediaAttribute) -> bool
    ensures { IsTrue result ↔ (line.now ≡ other.now) }
{
    line == other
}

/// Makes a line equal to another.
fn copy_over_values(source: &MediaAttribute, line: &mut MediaAttribute) -> Result<(), AllocError>
    ensures { OnOk result (line.new ≡ source.now) }
{
    if is_same_copied_line(line, source) {
        return Ok(());
    }
    *line = source.clone()?;
    Ok(())
}

/// Whether a line may be alike that differs.
fn read_back_may_differ(line: &MediaAttribute) -> bool
    ensures { result ≡ read_back_may_differ line.now }
{
    matches!(
        line,
        MediaAttribute::Fmtp { .. } | MediaAttribute::Simulcast(_)
    )
}

/// Makes a line equal to one that is alike.
fn copy_over_line(source: &MediaAttribute, line: &mut MediaAttribute) -> Result<(), AllocError>
    requires { Alike source.now line.old }
    ensures { OnOk result (line.new ≡ source.now) }
{
    if read_back_may_differ(source) {
        copy_over_values(source, line)
    } else {
        Ok(())
    }
}

/// Makes lines equal to others that are alike one by one.
fn copy_over_lines(
    sources: &[MediaAttribute],
    lines: &mut Vec<MediaAttribute>,
) -> Result<(), AllocError>
    requires { AllZip Alike sources.now lines.old.items }
    ensures { OnOk result (lines.new.items ≡ sources.now) }
{
    for i in 0..sources.len() {
        copy_over_line(&sources[i], &mut lines[i])?;
    }
    Ok(())
}

/// Makes a section equal to one that is read as it.
fn copy_section(source: &MediaLine, section: &mut MediaLine) -> Result<(), AllocError>
    requires { IsSectionReadAs source.now section.old }
    ensures { OnOk result (section.new ≡ source.now) }
{
    copy_over_lines(source.attrs.as_slice(), &mut section.attrs.0)
}

/// Makes sections equal to others that are read as they are, one by one.
fn copy_sections(sources: &[MediaLine], sections: &mut Vec<MediaLine>) -> Result<(), AllocError>
    requires { AllZip IsSectionReadAs sources.now sections.old.items }
    ensures { OnOk result (sections.new.items ≡ sources.now) }
{
    for i in 0..sources.len() {
        copy_section(&sources[i], &mut sections[i])?;
    }
    Ok(())
}

/// Makes a description equal to the one that it was read as. Lines that are equal are left where they stand, so that it takes
/// little memory where little differs. The only error is that memory was refused.
pub(crate) fn copy_over(source: &Sdp, sdp: &mut Sdp) -> Result<(), AllocError>
    requires { IsWholeReadAs source.now sdp.old }
    ensures { OnOk result (sdp.new ≡ source.now) }
{
    copy_sections(source.media_lines.as_slice(), &mut sdp.media_lines.0)
}
