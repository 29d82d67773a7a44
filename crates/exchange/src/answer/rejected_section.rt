//! The section that rejects an offered one.
ghost use Rattle.exchange.specs.Prelude.{Consistent, is_mid, maps};
ghost use Rattle.exchange.specs.answer.RejectedSection.{direction_over, first_rejected_type, first_rejected_line, rejected_type_alone, rejecting};
ghost use Rattle.std.specs.Prelude.{◌≡◌, ◌++◌, IfOk, OnOk, find, option_to_list, option_copied};

use std::alloc::{AllocError, Global};
use str0m_signal::{Items, MediaAttribute, MediaLine, MediaType, Proto, Pt};

fn is_mid(line: &MediaAttribute) -> bool
    ensures { result ≡ is_mid line.now }
{
    matches!(line, MediaAttribute::Mid(_))
}

fn maps(line: &MediaAttribute, pt: Pt) -> bool
    ensures { result ≡ maps pt line.now }
{
    match line {
        MediaAttribute::RtpMap { pt: of, .. } => *of == pt,
        _ => false,
    }
}

/// The line that names the section.
fn mid_line(lines: &[MediaAttribute]) -> Option<&MediaAttribute>
    ensures { option_copied result ≡ find is_mid lines.now }
{
    lines.iter().find(|line| is_mid(line))
}

/// The line that maps a payload type.
fn rejected_mapping_line(lines: &[MediaAttribute], pt: Pt) -> Option<&MediaAttribute>
    ensures { option_copied result ≡ find (maps pt) lines.now }
{
    lines.iter().find(|line| maps(line, pt))
}

fn first_rejected_type(listed: &[Pt]) -> Pt
    ensures { result ≡ first_rejected_type listed.now }
{
    match listed {
        [pt, ..] => *pt,
        [] => Pt::new_with_value(0),
    }
}

/// The payload types that the m-line lists.
fn rejected_type_alone(alloc: Global, typ: &MediaType, listed: &[Pt]) -> Result<Vec<Pt>, AllocError>
    ensures { IfOk result (λ alone. alone.items ≡ rejected_type_alone typ.now listed.now) }
{
    let mut alone = Vec::new(alloc);
    match typ {
        MediaType::Application => {}
        _ => alone.push(first_rejected_type(listed))?,
    }
    Ok(alone)
}

/// A copy of a line, where there is one, after the others.
fn push_rejected_copy(
    lines: &mut Vec<MediaAttribute>,
    line: Option<&MediaAttribute>,
) -> Result<(), AllocError>
    ensures { OnOk result (lines.new.items ≡ lines.old.items ++ option_to_list (option_copied line.entry)) }
{
    if let Some(line) = line {
        lines.push(line.clone()?)?;
    }
    Ok(())
}

fn push_direction(lines: &mut Vec<MediaAttribute>, proto: Proto) -> Result<(), AllocError>
    ensures { OnOk result (lines.new.items ≡ lines.old.items ++ direction_over proto) }
{
    match proto {
        Proto::Srtp => lines.push(MediaAttribute::Inactive)?,
        Proto::Sctp => {}
    }
    Ok(())
}

/// The lines of the section.
#[tactic(auto, using(std::proofs::Common::append_assoc))]
fn rejecting_lines(
    alloc: Global,
    proto: Proto,
    lines: &[MediaAttribute],
    pt: Pt,
) -> Result<Vec<MediaAttribute>, AllocError>
    ensures { IfOk result (λ attrs. attrs.items ≡ first_rejected_line is_mid lines.now ++ (direction_over proto ++ first_rejected_line (maps pt) lines.now)) }
{
    let mut attrs = Vec::new(alloc);
    push_rejected_copy(&mut attrs, mid_line(lines))?;
    push_direction(&mut attrs, proto)?;
    push_rejected_copy(&mut attrs, rejected_mapping_line(lines, pt))?;
    Ok(attrs)
}

fn rejecting(alloc: Global, offered: &MediaLine) -> Result<MediaLine, AllocError>
    ensures { IfOk result (λ section. section ≡ rejecting offered.now) }
{
    let listed = offered.pts.as_slice();
    let pt = first_rejected_type(listed);
    let attrs = rejecting_lines(alloc, offered.proto, offered.attrs.as_slice(), pt)?;
    Ok(MediaLine {
        typ: offered.typ.clone()?,
        disabled: true,
        proto: offered.proto,
        pts: Items(rejected_type_alone(alloc, &offered.typ, listed)?),
        bw: None,
        attrs: Items(attrs),
    })
}

/// The section that rejects an offered one (RFC 3264, section 6; RFC 8829, section 5.3.1): of the same type and protocol, with
/// the same `a=mid` line, and with port 0 (`disabled`).
///
/// What else stands there is what it takes to be read again: one payload type, the first of the offered ones, or 0 where none is
/// offered, with its `a=rtpmap` line, and over Srtp `a=inactive`. Formats of a rejected section mean nothing (RFC 3264,
/// section 6). A section of data channels lists no type. No bandwidth is said. It is consistent where the offered one is.
///
/// The only error is that memory was refused. The offered section stays as it is.
pub fn rejected(alloc: Global, offered: &MediaLine) -> Result<MediaLine, AllocError>
    ensures exact { IfOk result (λ section. section ≡ rejecting offered.now) }
    ensures consistent { Consistent offered.now → IfOk result Consistent }
{
    let section = rejecting(alloc, offered)?;
    Ok(section)
}
