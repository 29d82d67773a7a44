//! Where a section contradicts itself: the lines at fault.

use crate::code::Refusal;
use std::alloc::{AllocError, Global};
use str0m_formats::{CodecSpec, FormatParam};
use str0m_sdp::{MediaAttribute, MediaLine, Proto};
use str0m_values::Pt;

/// The numbers of the first two lines of a kind, 0 where there is none.
#[derive(Clone, Copy)]
struct FirstTwoLines {
    first: usize,
    second: usize,
}

impl FirstTwoLines {
    const NONE: FirstTwoLines = FirstTwoLines {
        first: 0,
        second: 0,
    };

    /// The pair with one more line.
    fn and(self, line: usize) -> FirstTwoLines {
        match (self.first, self.second) {
            (0, _) => FirstTwoLines {
                first: line,
                second: 0,
            },
            (first, 0) => FirstTwoLines {
                first,
                second: line,
            },
            _ => self,
        }
    }

    fn said(self, alloc: Global) -> Result<String, AllocError> {
        let (first, second) = (self.first, self.second);
        if second == 0 {
            return Ok(String::new(alloc));
        }
        format!(in alloc; "lines {first} and {second}")
    }
}

/// What is at fault, and what stands there.
#[derive(Drop)]
pub(crate) struct Fault {
    pub(crate) refusal: Refusal,
    pub(crate) detail: String,
}

/// The first two lines of each kind that a section has once, where its attributes begin after so many lines.
#[derive(Clone, Copy)]
struct ContradictionLines {
    mids: FirstTwoLines,
    setups: FirstTwoLines,
    directions: FirstTwoLines,
}

fn first_lines(attributes: &[MediaAttribute], before: usize) -> ContradictionLines {
    let mut seen = ContradictionLines {
        mids: FirstTwoLines::NONE,
        setups: FirstTwoLines::NONE,
        directions: FirstTwoLines::NONE,
    };
    let mut line = before;
    for attribute in attributes {
        line = line.saturating_add(1);
        match attribute {
            MediaAttribute::Mid(_) => seen.mids = seen.mids.and(line),
            MediaAttribute::Setup(_) => seen.setups = seen.setups.and(line),
            _ => if attribute.is_direction() {
                seen.directions = seen.directions.and(line);
            },
        }
    }
    seen
}

impl ContradictionLines {
    /// What a section over this protocol lacks or has twice.
    fn fault(self, proto: Proto) -> Option<(Refusal, FirstTwoLines)> {
        if self.mids.first == 0 {
            return Some((Refusal::MissingMid, self.mids));
        }
        if self.mids.second != 0 {
            return Some((Refusal::SecondMid, self.mids));
        }
        if self.setups.second != 0 {
            return Some((Refusal::SecondSetup, self.setups));
        }
        match proto {
            Proto::Sctp => None,
            Proto::Srtp => match (self.directions.first, self.directions.second) {
                (0, _) => Some((Refusal::MissingDirection, self.directions)),
                (_, 0) => None,
                _ => Some((Refusal::SecondDirection, self.directions)),
            },
        }
    }
}

/// The first two mappings of each payload type.
fn contradiction_mappings(attributes: &[MediaAttribute], before: usize) -> [FirstTwoLines; 256] {
    let mut mappings = [FirstTwoLines::NONE; 256];
    let mut line = before;
    for attribute in attributes {
        line = line.saturating_add(1);
        if let MediaAttribute::RtpMap { pt, .. } = attribute {
            let at = usize::from(pt.value());
            mappings[at] = mappings[at].and(line);
        }
    }
    mappings
}

/// The first payload type without a mapping or with two, and the lines.
fn mapping_fault(section: &MediaLine, before: usize) -> Option<(Refusal, Pt, FirstTwoLines)> {
    let mappings = contradiction_mappings(section.attrs.as_slice(), before);
    for pt in section.pts.as_slice() {
        let pair = mappings[usize::from(pt.value())];
        if pair.second != 0 {
            return Some((Refusal::SecondMapping, *pt, pair));
        }
        if pair.first == 0 && CodecSpec::from_static_pt(*pt).is_none() {
            return Some((Refusal::MissingMapping, *pt, pair));
        }
    }
    None
}

/// The first primary type that the values name.
fn contradicting_apt_of(values: &[FormatParam]) -> Option<Pt> {
    values.iter().find_map(|value| match value {
        FormatParam::Apt(pt) => Some(*pt),
        _ => None,
    })
}

/// The first payload type of which two format lines name different primary types, and these lines.
fn contradicting_formats(
    attributes: &[MediaAttribute],
    before: usize,
) -> Option<(Pt, FirstTwoLines)> {
    let mut apts = [(0usize, 0u8); 256];
    let mut line = before;
    for attribute in attributes {
        line = line.saturating_add(1);
        if let MediaAttribute::Fmtp { pt, values } = attribute {
            if let Some(apt) = contradicting_apt_of(values.as_slice()) {
                let (first, known) = apts[usize::from(pt.value())];
                if first == 0 {
                    apts[usize::from(pt.value())] = (line, apt.value());
                } else if known != apt.value() {
                    return Some((
                        *pt,
                        FirstTwoLines {
                            first,
                            second: line,
                        },
                    ));
                }
            }
        }
    }
    None
}

/// Why a section that isn't consistent contradicts itself. So many lines stand before its attributes.
pub(crate) fn contradiction(section: &MediaLine, before: usize) -> Result<Fault, AllocError> {
    let alloc = *section.attrs.allocator();
    let attributes = section.attrs.as_slice();
    if let Some((refusal, pair)) = first_lines(attributes, before).fault(section.proto) {
        let detail = pair.said(alloc)?;
        return Ok(Fault { refusal, detail });
    }
    if section.pts.as_slice().is_empty() && !section.disabled {
        let (refusal, detail) = (Refusal::MissingType, String::new(alloc));
        return Ok(Fault { refusal, detail });
    }
    if let Some((refusal, pt, pair)) = mapping_fault(section, before) {
        let lines = pair.said(alloc)?;
        let comma = if lines.is_empty() { "" } else { ", " };
        let detail = format!(in alloc; "type {pt}{comma}{lines}")?;
        return Ok(Fault { refusal, detail });
    }
    let detail = match contradicting_formats(attributes, before) {
        Some((pt, pair)) => {
            let lines = pair.said(alloc)?;
            format!(in alloc; "type {pt}, {lines}")?
        }
        None => String::new(alloc),
    };
    Ok(Fault {
        refusal: Refusal::Clash,
        detail,
    })
}
