//! The codes of findings: what is wrong, by kind.
ghost use Rattle.lint.specs.Code.{is_change, severity_of, severity_of_change, severity_of_fate, severity_word};
ghost use Rattle.std.specs.Prelude.{◌≡◌};

use crate::table::Entry;
use crate::table::change_entries::change_entries;
use crate::table::conflict_entries::conflict_entries;
use crate::table::fate_entries::fate_entries;
use crate::table::misfit_entries::misfit_entries;
use crate::table::refusal_entries::refusal_entries;
use crate::table::unfit_entries::unfit_entries;
use crate::table::unknown_entries::unknown_entries;
use crate::table::unseen_entries::unseen_entries;

/// How much a finding matters.
#[derive(Clone, Copy, Debug, PartialEq, Eq)]
pub enum Severity {
    /// The text is refused, or a part of it isn't read.
    Error,
    /// A line says nothing though it was meant to.
    Warning,
    /// Something is kept or left out that this layer doesn't know.
    Note,
}

impl Severity {
    /// The severity as reports write it: `error`, `warning` or `note`.
    pub fn word(self) -> &'static str
        ensures { result.now ≡ severity_word self }
    {
        match self {
            Severity::Error => "error",
            Severity::Warning => "warning",
            Severity::Note => "note",
        }
    }
}

/// Why a text is refused.
#[derive(Clone, Copy, Debug)]
pub enum Refusal {
    /// It has no characters.
    EmptyText,
    /// It begins with U+FEFF.
    ByteOrderMark,
    /// It begins as an object, a list or a string of JSON does.
    Json,
    /// The first line isn't `v=0`.
    Version,
    /// The second line is no `o=` line.
    Origin,
    /// The third line is no `s=` line.
    Name,
    /// No line `t=0 0` ends the header.
    Timing,
    /// A section has no `a=mid`.
    MissingMid,
    /// A section has two of them.
    SecondMid,
    /// A section has two `a=setup`.
    SecondSetup,
    /// A section over RTP has no direction.
    MissingDirection,
    /// A section over RTP has two.
    SecondDirection,
    /// A section over RTP lists no payload type.
    MissingType,
    /// A payload type of the m-line has no `a=rtpmap`.
    MissingMapping,
    /// A payload type of the m-line has two.
    SecondMapping,
    /// Format lines of one payload type name two primary types.
    Clash,
}

/// Why a line fits nowhere.
#[derive(Clone, Copy, Debug)]
pub enum Unfit {
    /// It has no characters.
    Blank,
    /// It holds a carriage return without a line feed.
    LoneReturn,
    /// An m-line has fewer than four parts.
    MediaParts,
    /// The type of an m-line is none that is read.
    MediaType,
    /// The protocol of an m-line is none that is read.
    Protocol,
    /// The formats of an m-line begin with a space.
    Formats,
    /// A `c=` line stands after others, or is empty.
    Connection,
    /// A `b=` line stands after others, or has no type and value.
    Bandwidth,
    /// Nothing stands after `a=`.
    EmptyAttribute,
    /// It is neither an attribute line nor an m-line.
    NoAttribute,
}

/// Which part of a known attribute's line doesn't fit its form.
#[derive(Clone, Copy, Debug)]
pub enum Misfit {
    /// A payload type isn't a number from 0 to 127.
    PayloadType,
    /// Feedback is said of all payload types.
    AllTypes,
    /// A number isn't one, or is too large.
    Number,
    /// A clock rate isn't a number of Hz above 0.
    ClockRate,
    /// The address of a candidate is no IP address.
    HostName,
    /// A role isn't one of three words.
    Role,
    /// The name of a stream holds other characters than letters and digits.
    StreamName,
    /// The direction of a stream is neither `send` nor `recv`.
    StreamDirection,
    /// Bytes of a fingerprint aren't pairs of hexadecimal digits.
    Hash,
    /// No value stands after the colon.
    Empty,
    /// A part is missing at the end.
    Missing,
    /// Something stands after an attribute that is a word alone.
    Behind,
    /// The line doesn't fit in another way.
    Form,
}

/// Why a line is kept unread whose form isn't at fault.
#[derive(Clone, Copy, Debug)]
pub enum Unknown {
    /// No attribute has this name.
    Attribute,
    /// The attribute is read on the other level alone.
    Level,
}

/// What a line that is read and printed as it stands leaves unknown.
#[derive(Clone, Copy, Debug)]
pub enum Unseen {
    /// Feedback isn't looked at.
    Feedback,
}

/// What is lost of a line that is printed otherwise than it stands.
#[derive(Clone, Copy, Debug)]
pub enum Change {
    /// A codec isn't known.
    Codec,
    /// A format key or its value isn't known.
    FormatKey,
    /// The value of a format key is another.
    FormatValue,
    /// The direction of a header extension, or what stands after its URI.
    Extension,
    /// The alternatives of a simulcast layer.
    Layers,
    /// The formats of an m-line, which are no payload types.
    Formats,
    /// What stands after the first 16 bytes of a mid.
    Mid,
    /// A header line that isn't kept.
    HeaderLine,
    /// An old name of a protocol.
    Protocol,
    /// What stands after the address of a candidate and isn't kept.
    Candidate,
    /// Blanks, case, or another way to write a number.
    Spelling,
}

impl Change {
    /// How much it matters: a warning where the other side can tell the printed line from this one by what it does.
    pub fn severity(self) -> Severity
        ensures { result ≡ severity_of_change self }
    {
        match self {
            Change::Codec
            | Change::FormatKey
            | Change::FormatValue
            | Change::Extension
            | Change::Layers
            | Change::Formats
            | Change::Mid => Severity::Warning,
            Change::HeaderLine | Change::Protocol | Change::Candidate | Change::Spelling =>
                Severity::Note,
        }
    }
}

/// What a line says against others.
#[derive(Clone, Copy, Debug)]
pub enum Conflict {
    /// An earlier section has this mid.
    RepeatedMid,
    /// The session has no group.
    NoGroup,
    /// A group names a mid that no section has.
    GroupOfNothing,
    /// The first group doesn't list the sections as they stand.
    OtherGroup,
    /// A type of the m-line stands for a codec of another kind of media.
    OtherKind,
    /// A format, feedback or a stream is said of a type that isn't mapped.
    Unmapped,
    /// Retransmissions or redundant audio are of no type that is mapped.
    NoPrimary,
    /// What is printed of the line is read otherwise, so that no rows can be written back.
    NotWritable,
}

/// What comes of a row of the other side in a round of negotiation, or of the round.
#[derive(Clone, Copy, Debug)]
pub enum Fate {
    /// A row of this side is locked to it.
    Locked,
    /// This side has no row of its codec.
    NoCodec,
    /// This side has rows of its codec, and none fits it.
    OtherFormat,
    /// The rows that fit it go with others.
    OtherRow,
    /// Its payload type is taken.
    TakenType,
    /// The round is refused.
    RefusedRound,
}

impl Fate {
    /// How much it matters: a warning where the round of a section is refused.
    pub fn severity(self) -> Severity
        ensures { result ≡ severity_of_fate self }
    {
        match self {
            Fate::RefusedRound => Severity::Warning,
            Fate::Locked | Fate::NoCodec | Fate::OtherFormat | Fate::OtherRow | Fate::TakenType =>
                Severity::Note,
        }
    }
}

/// What a finding says, by its kind.
#[derive(Clone, Copy, Debug)]
pub enum Code {
    /// The text describes no session.
    Refused(Refusal),
    /// Reading ended at this line.
    Unread(Unfit),
    /// The line is kept unread, though its name is known.
    Malformed(Misfit),
    /// The line is kept unread, since its name isn't known there.
    Unknown(Unknown),
    /// The line is read, and says something that isn't known.
    Unseen(Unseen),
    /// The line is read, and printed otherwise than it stands.
    Changed(Change),
    /// The line is read, and says something against others.
    Contradiction(Conflict),
    /// What would come of the line in a round of negotiation.
    Round(Fate),
}

impl Code {
    /// How much findings of this code matter: errors are lost text, warnings lines that say nothing, changes that the other
    /// side can tell and rounds that are refused, notes the rest.
    pub fn severity(self) -> Severity
        ensures { result ≡ severity_of self }
    {
        match self {
            Code::Refused(_) | Code::Unread(_) => Severity::Error,
            Code::Malformed(_) | Code::Contradiction(_) => Severity::Warning,
            Code::Unknown(_) | Code::Unseen(_) => Severity::Note,
            Code::Changed(change) => change.severity(),
            Code::Round(fate) => fate.severity(),
        }
    }

    /// Whether a line is printed otherwise than it stands.
    pub(crate) fn is_change(self) -> bool
        ensures { result ≡ is_change self }
    {
        matches!(self, Code::Changed(_))
    }

    /// The entry of the table of codes: name, title, remedy, explanation, source and example.
    pub fn entry(self) -> &'static Entry {
        match self {
            Code::Refused(refusal) => &refusal_entries()[refusal as usize],
            Code::Unread(unfit) => &unfit_entries()[unfit as usize],
            Code::Malformed(misfit) => &misfit_entries()[misfit as usize],
            Code::Unknown(unknown) => &unknown_entries()[unknown as usize],
            Code::Unseen(unseen) => &unseen_entries()[unseen as usize],
            Code::Changed(change) => &change_entries()[change as usize],
            Code::Contradiction(conflict) => &conflict_entries()[conflict as usize],
            Code::Round(fate) => &fate_entries()[fate as usize],
        }
    }
}
