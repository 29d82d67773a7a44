//! Why sections and sessions aren't consistent.

use crate::section::media_line::MediaLine;
use std::fmt;
use str0m_values::{Mid, Pt};

/// Why a section isn't consistent; with its mid, where it has exactly one.
#[derive(Clone, Copy)]
pub(crate) enum Fault {
    MissingMid,
    SecondMid,
    SecondSetup(Mid),
    Directions(Mid),
    MissingType(Mid),
    MissingMap { mid: Mid, pt: Pt },
    SecondMap { mid: Mid, pt: Pt },
    Apts(Clash),
}

/// Two primary types that fmtp lines name for one payload type.
#[derive(Clone, Copy)]
pub(crate) struct Clash {
    pub(crate) mid: Mid,
    pub(crate) pt: Pt,
    pub(crate) first: Pt,
    pub(crate) other: Pt,
}

/// What a fault says of its section.
#[derive(Drop)]
pub(crate) struct FaultMessage<'a> {
    pub(crate) fault: Fault,
    pub(crate) section: &'a MediaLine,
}

impl<'a> fmt::Display for FaultMessage<'a> {
    ghost use Rattle.std.specs.Prelude.{Some};
    ghost use Rattle.str0m_sdp.specs.session.Fault.{fault_text};

    ghost output = { λ message. Some (fault_text message.section.now message.fault) };

    fn fmt<W: fmt::Write>(&self, f: &mut fmt::Formatter<W>) -> fmt::Result {
        let section = FaultNameless(self.section);
        match self.fault {
            Fault::MissingMid => write!(f, "Media is missing a=mid: {section}"),
            Fault::SecondMid => write!(f, "Media has more than one a=mid: {section}"),
            Fault::SecondSetup(mid) => { write!(f, "Expected 0 or 1 a=setup: line for mid: {mid}") }
            Fault::Directions(mid) => write!(
                f,
                "Expected exactly one of a=sendrecv, a=sendonly, a=recvonly, a=inactive for mid: {mid}"
            ),
            Fault::MissingType(mid) => write!(f, "Expected at least one PT for mid: {mid}"),
            Fault::MissingMap { mid, pt } => write!(f, "Missing a=rtp_map:{pt} for mid: {mid}"),
            Fault::SecondMap { mid, pt } => {
                write!(f, "More than one a=rtp_map:{pt} for mid: {mid}")
            }
            Fault::Apts(clash) => clash.fmt(f),
        }
    }
}

/// A section without a name of its own, by its media type and its protocol.
#[derive(Drop)]
struct FaultNameless<'a>(&'a MediaLine);

impl<'a> fmt::Display for FaultNameless<'a> {
    ghost use Rattle.std.specs.Prelude.{Some};
    ghost use Rattle.str0m_sdp.specs.session.Fault.{nameless_section};

    ghost output = { λ section. Some (nameless_section section.0.now) };

    fn fmt<W: fmt::Write>(&self, f: &mut fmt::Formatter<W>) -> fmt::Result {
        let (typ, proto) = (&self.0.typ, self.0.proto);
        write!(f, "{typ} {proto}")
    }
}

/// What is said of a clash.
impl fmt::Display for Clash {
    ghost use Rattle.std.specs.Prelude.{Some};
    ghost use Rattle.str0m_sdp.specs.session.Fault.{fault_clash_text};

    ghost output = { λ clash. Some (fault_clash_text clash) };

    fn fmt<W: fmt::Write>(&self, f: &mut fmt::Formatter<W>) -> fmt::Result {
        let Clash {
            mid,
            pt,
            first,
            other,
        } = *self;
        write!(
            f,
            "PT {pt} has conflicting apt values {first} and {other} for mid: {mid}"
        )
    }
}

/// Why a session isn't consistent whose sections are.
#[derive(Clone, Copy)]
pub(crate) enum SessionFault {
    SharedMid(Mid),
    MissingGroup,
    /// How many mids the group has, and how many sections take part.
    Count { group: usize, sections: usize },
    /// The mid of a section, and the one that the group has in its place.
    Order { section: Mid, group: Mid },
}

impl fmt::Display for SessionFault {
    ghost use Rattle.std.specs.Prelude.{Some};
    ghost use Rattle.str0m_sdp.specs.session.SessionFault.{session_fault_text};

    ghost output = { λ fault. Some (session_fault_text fault) };

    fn fmt<W: fmt::Write>(&self, f: &mut fmt::Formatter<W>) -> fmt::Result {
        match self {
            SessionFault::SharedMid(mid) => {
                write!(f, "Mid {mid} is used by more than one m-line")
            }
            SessionFault::MissingGroup => f.write_str("Session attribute a=group missing"),
            SessionFault::Count { group, sections } => {
                let counts = FaultUnequal(*group, *sections);
                write!(f, "a=group mid count doesn't match m-line count {counts}")
            }
            SessionFault::Order { section, group } => {
                write!(f, "Mid order not matching a=group {section} != {group}")
            }
        }
    }
}

/// Two counts that should be equal.
#[derive(Drop)]
struct FaultUnequal(usize, usize);

impl fmt::Display for FaultUnequal {
    ghost use Rattle.std.specs.Fmt.{decimal};
    ghost use Rattle.std.specs.Prelude.{◌++◌, Some, codes};

    ghost output = { λ counts. Some (decimal counts.0 ++ (codes " != " ++ decimal counts.1)) };

    fn fmt<W: fmt::Write>(&self, f: &mut fmt::Formatter<W>) -> fmt::Result {
        let (group, sections) = (self.0, self.1);
        write!(f, "{group} != {sections}")
    }
}
