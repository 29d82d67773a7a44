//! What this side says of itself.
ghost use Rattle.exchange.specs.state.OwnSide.{direction_among, is_own_side_entry_of, kind_direction, own_direction, direction_said_of, with_own_side_entry};
ghost use Rattle.std.specs.Prelude.{◌≡◌, IfOk, find, option_copied};

use crate::section::stopped::name_of;
use std::alloc::{AllocError, Global};
use str0m_signal::{
    Candidate, Direction, Fingerprint, IceCreds, Items, MediaLine, MediaType, Mid, SessionId, Text,
};

/// Where data channels are reached (RFC 8841, sections 5 and 6).
#[derive(Clone, Copy, Debug, PartialEq, Eq)]
pub struct DataChannels {
    /// The port of SCTP, as 5000.
    pub port: u16,
    /// The most bytes that a message may have; 0 where any number is taken.
    pub max_message_size: u64,
}

/// What this side is ready for in one section.
#[derive(Clone, Copy, Debug, PartialEq, Eq)]
pub struct SectionDirection {
    /// The section's name (RFC 5888, section 4).
    pub mid: Mid,
    /// What this side is ready for there.
    pub direction: Direction,
}

/// What this side says of itself, the same in each of its descriptions.
#[derive(Debug, Drop)]
pub struct OwnSide {
    /// The number of the session (RFC 8866, section 5.2).
    pub session_id: SessionId,
    /// The credentials of its ICE agent (RFC 8839, section 5.4).
    pub creds: IceCreds,
    /// The hash of its certificate (RFC 8122, section 5).
    pub fingerprint: Fingerprint,
    /// What it is ready for in sections of audio that `directions` doesn't name; so with `video`.
    pub audio: Direction,
    /// What it is ready for in sections of video.
    pub video: Direction,
    /// What it is ready for in sections by name, whatever their type. Of several entries of a name the first counts.
    pub directions: Items<SectionDirection>,
    /// The id of the stream that it sends (RFC 8830, section 2).
    pub stream_id: Text,
    /// The header extensions that it knows, by their URIs (RFC 8285, section 5).
    pub extensions: Items<Text>,
    /// Where it is reached (RFC 8839, section 5.1).
    pub candidates: Items<Candidate>,
    /// Its data channels; `None` where it takes none.
    pub channels: Option<DataChannels>,
    /// Whether it takes several layers of one source (RFC 8853): where a header extension tells of a packet which layer it is of, too.
    pub receives_simulcast: bool,
}

fn is_own_side_entry_of(entry: &SectionDirection, mid: Mid) -> bool
    ensures { result ≡ is_own_side_entry_of mid entry.now }
{
    entry.mid == mid
}

/// The first entry of a name.
fn own_side_entry_of(entries: &[SectionDirection], mid: Mid) -> Option<&SectionDirection>
    ensures { option_copied result ≡ find (is_own_side_entry_of mid) entries.now }
{
    entries
        .iter()
        .find(|entry| is_own_side_entry_of(entry, mid))
}

/// The entries with this direction for a name, in place of others of that name.
pub(crate) fn with_own_side_entry(
    alloc: Global,
    entries: &[SectionDirection],
    mid: Mid,
    direction: Direction,
) -> Result<Items<SectionDirection>, AllocError>
    ensures { IfOk result (λ after. after ≡ with_own_side_entry mid direction entries.now) }
{
    let mut after = Vec::new(alloc);
    for entry in entries {
        if !is_own_side_entry_of(entry, mid) {
            after.push(*entry)?;
        }
    }
    after.push(SectionDirection { mid, direction })?;
    Ok(Items::from(after))
}

/// What the entries say of a name, if anything.
fn direction_said_of(entries: &[SectionDirection], mid: Option<Mid>) -> Option<Direction>
    ensures { result ≡ direction_said_of entries.now mid }
{
    let entry = own_side_entry_of(entries, mid?)?;
    Some(entry.direction)
}

impl OwnSide {
    /// What this side is ready for in sections of this type that no entry names.
    fn kind_direction(&self, typ: &MediaType) -> Direction
        ensures { result ≡ kind_direction self.now typ.now }
    {
        match typ {
            MediaType::Audio => self.audio,
            MediaType::Video => self.video,
            _ => Direction::Inactive,
        }
    }

    /// What this side is ready for in a section of a name and a type, where these entries say so by name.
    pub(crate) fn direction_among(
        &self,
        entries: &[SectionDirection],
        mid: Option<Mid>,
        typ: &MediaType,
    ) -> Direction
        ensures { result ≡ direction_among self.now entries.now mid typ.now }
    {
        match direction_said_of(entries, mid) {
            Some(direction) => direction,
            None => self.kind_direction(typ),
        }
    }

    /// What this side is ready for in a section (RFC 3264, section 6.1): what `directions` says of its name (`name_of`), else
    /// `audio` or `video` by its type, and `Inactive` where it is neither.
    pub fn direction_for(&self, section: &MediaLine) -> Direction
        ensures { result ≡ own_direction self.now section.now }
    {
        let entries = self.directions.as_slice();
        self.direction_among(entries, name_of(section), &section.typ)
    }
}
