//! Which sessions are consistent.
ghost use Rattle.std.specs.Prelude.{◌≡◌, ◌==◌, ◌++◌, IfErr, IfOk, IsOk, None, Ok, OnOk, filter_map, length, not, option_map, option_to_list, Some, bytes_eq, string_bytes};
ghost use Rattle.str0m_sdp.specs.Prelude.{when, ◌<|>◌};
ghost use Rattle.str0m_sdp.specs.declared.session.fault.SessionFault.TheVariants.{Count, Order};
ghost use Rattle.str0m_sdp.specs.session.OrderedMids.{is_group_member, part_mid};
ghost use Rattle.str0m_sdp.specs.session.SessionConsistency.{AreSectionsFew, ConsistentSdp, IsSessionContradiction, SaysWhetherConsistent, first_group, is_group_listed, mids_in_part, section_mid, section_mids, takes_part_in_group};
ghost use Rattle.str0m_sdp.specs.session.SessionFault.{TellsSessionContradiction, first_mid_again, first_group_difference, first_session_fault, listing_fault, sections_message, session_message};

use crate::attribute::SessionAttribute;
use crate::section::consistency::first_mid;
use crate::section::media_line::MediaLine;
use crate::session::Sdp;
use crate::session::error::SdpError;
use crate::session::fault::SessionFault;
use crate::session::ordered_mids::{find_mid_again, is_mid_held, mid_names_of};
use std::alloc::{AllocError, Global};
use std::collections::BTreeSet;
use str0m_values::{Items, Mid};

/// Mids of up to so many sections, and of so long a group, are compared each with each, which takes no
/// memory: as many as are few for contracts.
const FEW_SESSION_MIDS: usize = 16;

fn section_mid(m: &MediaLine) -> Option<Mid>
    ensures { result ≡ section_mid m.now }
{
    first_mid(m.attrs.as_slice())
}

/// The message of the first section that has a fault.
#[tactic(auto, using(crate::proofs::session::SessionFaultLaws::session_fault_first_section_quiet))]
fn section_message(sections: &[MediaLine]) -> Result<Option<String>, AllocError>
    ensures first { IfOk result (λ message. option_map string_bytes message ≡ sections_message sections.now) }
    ensures takes_no_memory { sections_message sections.now ≡ None → result ≡ Ok None }
{
    let mut left = sections;
    while let Some((section, later)) = left.split_first() {
        if let Some(message) = section.check_consistent()? {
            return Ok(Some(message));
        }
        left = later;
    }
    Ok(None)
}

fn is_same_mid(a: Mid, b: Mid) -> bool
    ensures { result ≡ bytes_eq a b }
{
    a == b
}

/// Whether one of the sections has the mid.
fn has_mid(sections: &[MediaLine], mid: Mid) -> bool
    ensures { result ≡ is_group_listed (section_mids sections.now) (Some mid) }
{
    sections
        .iter()
        .filter_map(|m| section_mid(m))
        .any(|other| is_same_mid(other, mid))
}

/// The first mid that stands again in a later section, by a look at each later one.
fn scan_shared_session_mid(sections: &[MediaLine]) -> Option<Mid>
    ensures { result ≡ first_mid_again (section_mids sections.now) }
{
    let mut left = sections;
    while let Some((section, later)) = left.split_first() {
        if let Some(mid) = section_mid(section) {
            if has_mid(later, mid) {
                return Some(mid);
            }
        }
        left = later;
    }
    None
}

/// Puts a mid after the others, where there is one.
fn push_mid(mids: &mut Vec<Mid>, mid: Option<Mid>) -> Result<(), AllocError>
    ensures { OnOk result (mids.new.items ≡ mids.old.items ++ option_to_list mid) }
{
    if let Some(mid) = mid {
        mids.push(mid)?;
    }
    Ok(())
}

/// The mids of the sections, each looked for once, in room that is asked for once.
fn gather_mids(sections: &[MediaLine], alloc: Global) -> Result<Vec<Mid>, AllocError>
    ensures { IfOk result (λ mids. mids.items ≡ section_mids sections.now) }
{
    let mut mids = Vec::with_capacity(alloc, sections.len())?;
    for section in sections {
        push_mid(&mut mids, section_mid(section))?;
    }
    Ok(mids)
}

/// The first mid that stands again in a later section, by an ordered set.
fn find_shared_session_mid(sections: &[MediaLine], alloc: Global) -> Result<Option<Mid>, AllocError>
    ensures { IfOk result (λ found. found ≡ first_mid_again (section_mids sections.now)) }
{
    let mids = gather_mids(sections, alloc)?;
    let found = find_mid_again(mids.as_slice(), alloc)?;
    Ok(found)
}

/// The first mid that stands again in a later section.
fn shared_mid(sections: &Items<MediaLine>) -> Result<Option<Mid>, AllocError>
    ensures found { IfOk result (λ found. found ≡ first_mid_again (section_mids sections.now)) }
    ensures takes_no_memory { AreSectionsFew sections.now → IsOk result }
{
    if sections.len() > FEW_SESSION_MIDS {
        return find_shared_session_mid(sections.as_slice(), *sections.allocator());
    }
    Ok(scan_shared_session_mid(sections.as_slice()))
}

/// The mids of the first group.
fn first_group(attrs: &[SessionAttribute]) -> Option<&[Mid]>
    ensures { option_map (λ mids. mids.now) result ≡ first_group attrs.now }
{
    let mut left = attrs;
    while let Some((attr, more)) = left.split_first() {
        if let SessionAttribute::Group { mids, .. } = attr {
            return Some(mids.as_slice());
        }
        left = more;
    }
    None
}

fn is_group_listed(group: &[Mid], mid: Option<Mid>) -> bool
    ensures { result ≡ is_group_listed group.now mid }
{
    match mid {
        Some(mid) => group.contains(&mid),
        None => false,
    }
}

fn takes_part_in_group(group: &[Mid], m: &MediaLine) -> bool
    ensures { result ≡ takes_part_in_group group.now m.now }
{
    !m.disabled || is_group_listed(group, section_mid(m))
}

/// How many sections take part.
fn count_group_parts(group: &[Mid], sections: &[MediaLine]) -> usize
    ensures { result ≡ length (mids_in_part group.now sections.now) }
{
    sections
        .iter()
        .filter(|m| takes_part_in_group(group, m))
        .filter_map(|m| section_mid(m))
        .count()
}

/// The first place where the sections that take part and the group differ.
fn first_group_difference(group: &[Mid], sections: &[MediaLine]) -> Option<(Mid, Mid)>
    ensures { result ≡ first_group_difference (mids_in_part group.now sections.now) group.now }
{
    sections
        .iter()
        .filter(|m| takes_part_in_group(group, m))
        .filter_map(|m| section_mid(m))
        .zip(group.iter().copied())
        .find(|pair| !is_same_mid(pair.0, pair.1))
}

/// Whether a section takes part in the group whose mids the names are.
fn is_group_member(names: &BTreeSet<&str>, m: &MediaLine) -> bool
    ensures { result ≡ is_group_member names.now m.now }
{
    !m.disabled || is_mid_held(names, section_mid(m))
}

/// The mid of a section that does.
fn part_mid(names: &BTreeSet<&str>, m: &MediaLine) -> Option<Mid>
    ensures { result ≡ part_mid names.now m.now }
{
    if is_group_member(names, m) {
        section_mid(m)
    } else {
        None
    }
}

/// The mids of the sections that do, in room that is asked for once.
fn gather_group_among(
    names: &BTreeSet<&str>,
    sections: &[MediaLine],
    alloc: Global,
) -> Result<Vec<Mid>, AllocError>
    ensures { IfOk result (λ mids. mids.items ≡ filter_map (part_mid names.now) sections.now) }
{
    let mut mids = Vec::with_capacity(alloc, sections.len())?;
    for section in sections {
        push_mid(&mut mids, part_mid(names, section))?;
    }
    Ok(mids)
}

/// The mids of the sections that take part, by an ordered set of the group's.
#[tactic(auto, using(crate::proofs::session::OrderedMids::group_parts_same))]
fn gather_group_parts(
    group: &[Mid],
    sections: &[MediaLine],
    alloc: Global,
) -> Result<Vec<Mid>, AllocError>
    ensures { IfOk result (λ mids. mids.items ≡ mids_in_part group.now sections.now) }
{
    let names = mid_names_of(group, alloc)?;
    let mids = gather_group_among(&names, sections, alloc)?;
    Ok(mids)
}

/// The first place where two lists of mids differ.
fn first_unlike_group_mids(mids: &[Mid], group: &[Mid]) -> Option<(Mid, Mid)>
    ensures { result ≡ first_group_difference mids.now group.now }
{
    mids.iter()
        .copied()
        .zip(group.iter().copied())
        .find(|pair| !is_same_mid(pair.0, pair.1))
}

/// The fault of so many sections that take part, and of the first place where they and the group differ.
fn listing_fault(
    count: usize,
    difference: Option<(Mid, Mid)>,
    group: &[Mid],
) -> Option<SessionFault>
    ensures { result ≡ when (not (count == length group.now)) (Count (length group.now) count) <|> option_map (λ pair. Order pair.0 pair.1) difference }
{
    if count != group.len() {
        return Some(SessionFault::Count {
            group: group.len(),
            sections: count,
        });
    }
    match difference {
        Some((section, group)) => Some(SessionFault::Order { section, group }),
        None => None,
    }
}

/// The first fault between many sections and a long group, by an ordered set.
fn find_group_fault(
    group: &[Mid],
    sections: &[MediaLine],
    alloc: Global,
) -> Result<Option<SessionFault>, AllocError>
    ensures { IfOk result (λ fault. fault ≡ listing_fault (mids_in_part group.now sections.now) group.now) }
{
    let mids = gather_group_parts(group, sections, alloc)?;
    let unlike = first_unlike_group_mids(mids.as_slice(), group);
    Ok(listing_fault(mids.len(), unlike, group))
}

/// The first fault between the sections and the group.
fn group_fault(
    group: &[Mid],
    sections: &Items<MediaLine>,
) -> Result<Option<SessionFault>, AllocError>
    ensures fault { IfOk result (λ fault. fault ≡ listing_fault (mids_in_part group.now sections.now) group.now) }
    ensures takes_no_memory { AreSectionsFew sections.now → IsOk result }
{
    let alloc = *sections.allocator();
    let sections = sections.as_slice();
    if sections.len() > FEW_SESSION_MIDS && group.len() > FEW_SESSION_MIDS {
        return find_group_fault(group, sections, alloc);
    }
    let count = count_group_parts(group, sections);
    Ok(listing_fault(count, first_group_difference(group, sections), group))
}

/// Finds the first fault between the sections, and between them and the group.
fn session_fault(sdp: &Sdp) -> Result<Option<SessionFault>, AllocError>
    ensures fault { IfOk result (λ fault. fault ≡ first_session_fault sdp.now) }
    ensures takes_no_memory { AreSectionsFew sdp.now.media_lines → IsOk result }
{
    let sections = &sdp.media_lines;
    if let Some(mid) = shared_mid(sections)? {
        return Ok(Some(SessionFault::SharedMid(mid)));
    }
    match first_group(sdp.session.attrs.as_slice()) {
        Some(group) => group_fault(group, sections),
        None => Ok(Some(SessionFault::MissingGroup)),
    }
}

impl Sdp {
    /// Checks that the session doesn't contradict itself.
    ///
    /// Each section is consistent, as `MediaLine::check_consistent` says. No two sections have one
    /// mid (RFC 5888, section 4). There is an `a=group` line, and the first, of whatever type, lists
    /// the mids of the sections that take part, in their order (RFC 8829, section 5.2.1; RFC 9143,
    /// sections 5 and 7): of those that aren't disabled, and of those that are but that it lists.
    /// The error is `Inconsistent` with the first fault that is found in this order, or `Memory`
    /// where memory was refused: for its message, and for the mids of more than sixteen sections. A
    /// consistent session of at most sixteen needs none.
    ///
    /// Time grows as that of a sort of the mids, and with the session's length beside: those of more
    /// than sixteen sections, and of a group of more than sixteen mids, are put in an ordered set.
    #[tactic(auto, using(crate::proofs::session::SessionFaultLaws::session_fault_contradictions))]
    pub fn assert_consistency(&self) -> Result<(), SdpError>
        ensures exact { SaysWhetherConsistent (ConsistentSdp self.now) result }
        ensures takes_no_memory { AreSectionsFew self.now.media_lines → ConsistentSdp self.now → result ≡ Ok tt }
        ensures named { IfErr result IsSessionContradiction }
        ensures first { IfErr result (TellsSessionContradiction (session_message self.now)) }
    {
        if let Some(message) = section_message(self.media_lines.as_slice())? {
            return Err(SdpError::Inconsistent(message));
        }
        let fault = session_fault(self)?;
        match fault {
            None => Ok(()),
            Some(fault) => {
                let alloc = *self.media_lines.allocator();
                Err(SdpError::Inconsistent(fault.to_string(alloc)?))
            }
        }
    }
}
