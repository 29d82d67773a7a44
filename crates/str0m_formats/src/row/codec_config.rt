//! The codecs that one side can send and receive.
ghost use Rattle.std.specs.List.{list_any};
ghost use Rattle.std.specs.List.Sorted.{IsStrictlyIncreasing};
ghost use Rattle.std.specs.Prelude.{◌≡◌, ◌==◌, ◌+◌, ◌≤◌, ◌++◌, ◌∷◌, [], All, IfOk, IsOk, List, ℕ, OnErr, OnOk, option_copied, vec_capacity, vec_len};
ghost use Rattle.str0m_formats.specs.Prelude.{H265ProfileTierLevel, H266ProfileTierLevel, receives};
ghost use Rattle.str0m_formats.specs.round.Choices.{FirstAccepted, IsChoice, IsMatchedType, highest_event, choice_points_with};
ghost use Rattle.str0m_formats.specs.round.Claimed.{AllTypesDistinct};
ghost use Rattle.str0m_formats.specs.row.CodecConfig.{video_spec, h264_row, h265_row, h266_row, IsTripleOr, IsH265Triple, IsH266Triple};
ghost use Rattle.str0m_formats.specs.row.DefaultRows.{AreDefault};
ghost use Rattle.str0m_formats.specs.row.KindRows.{kind_rows, rows_left};
ghost use Rattle.str0m_formats.specs.row.PayloadParams.{new_row, types};
ghost use Rattle.str0m_formats.specs.row.RedDistances.{AreDistancesKept};

use crate::codec::Codec;
use crate::codec::codec_spec::CodecSpec;
use crate::format::format_params::FormatParams;
use crate::round::choices::{better_row, is_event_row};
use crate::row::kind_rows::{KindRows, some_row_shares_rate};
use crate::row::payload_params::PayloadParams;
use crate::row::red_distances::RedDistances;
use std::alloc::{AllocError, Global};
use std::ops::{Deref, DerefMut};
use str0m_values::{
    Direction, Frequency, H265ProfileTierLevel, H266ProfileTierLevel, MediaKind, Numbered,
    ProfileTierLevel, Pt,
};

/// The rows of codecs that one side can send and receive, in order of preference, and how far back
/// its redundant audio reaches.
///
/// It keeps the allocator of its rows, so its methods take none. What it derefs to are the rows,
/// which can be changed there in any way.
#[derive(Debug, Drop)]
pub struct CodecConfig {
    pub(crate) params: Vec<PayloadParams>,
    pub(crate) red_distances: RedDistances,
}

/// How many rows a list has room for at least, once it has one.
const LEAST_ROW_ROOM: usize = 4;

/// A video codec: at 90 kHz, and without channels.
pub(crate) fn video_spec(codec: Codec, format: FormatParams) -> CodecSpec
    ensures { result ≡ video_spec codec format }
{
    CodecSpec {
        codec,
        clock_rate: Frequency::NINETY_KHZ,
        channels: None,
        format,
    }
}

pub(crate) fn h264_row(
    pt: Pt,
    resend: Option<Pt>,
    packetization_mode: bool,
    profile_level_id: u32,
) -> PayloadParams
    ensures { result ≡ h264_row pt resend packetization_mode profile_level_id }
{
    let format = FormatParams {
        level_asymmetry_allowed: Some(true),
        packetization_mode: Some(if packetization_mode { 1 } else { 0 }),
        profile_level_id: Some(profile_level_id),
        ..FormatParams::default()
    };
    PayloadParams::new(pt, resend, video_spec(Codec::H264, format))
}

pub(crate) fn h265_row(pt: Pt, resend: Option<Pt>, triple: H265ProfileTierLevel) -> PayloadParams
    ensures { result ≡ h265_row pt resend triple }
{
    let format = FormatParams {
        h265_profile_tier_level: Some(triple),
        ..FormatParams::default()
    };
    PayloadParams::new(pt, resend, video_spec(Codec::H265, format))
}

pub(crate) fn h266_row(pt: Pt, resend: Option<Pt>, triple: H266ProfileTierLevel) -> PayloadParams
    ensures { result ≡ h266_row pt resend triple }
{
    let format = FormatParams {
        h266_profile_tier_level: Some(triple),
        ..FormatParams::default()
    };
    PayloadParams::new(pt, resend, video_spec(Codec::H266, format))
}

/// The triple of three numbers; where one of them stands in no table, the fallback.
fn triple_or<P: Numbered, T: Numbered, L: Numbered>(
    profile: u8,
    tier: u8,
    level: u8,
    fallback: ProfileTierLevel<P, T, L>,
) -> ProfileTierLevel<P, T, L>
    ensures { IsTripleOr P.number_of T.number_of L.number_of
        (P.number_of fallback.profile, T.number_of fallback.tier, L.number_of fallback.level) profile tier level result }
{
    ProfileTierLevel::new(profile, tier, level).unwrap_or(fallback)
}

impl CodecConfig {
    /// A configuration without rows, whose redundant audio reaches back to the packet before. Takes
    /// no memory.
    pub fn empty(alloc: Global) -> CodecConfig
        ensures rows { result.params.items ≡ [] }
        ensures distances { result.red_distances ≡ 1 ∷ [] }
        ensures default { AreDefault result.params.items }
        ensures distinct { AllTypesDistinct (types result.params.items) }
    {
        CodecConfig::new_from_payload_params(alloc, Vec::new(alloc))
    }

    /// A configuration of these rows, whose redundant audio reaches back to the packet before. It is
    /// handed the allocator as its neighbours are, keeps that of the rows, and takes no memory.
    pub fn new_from_payload_params(_alloc: Global, params: Vec<PayloadParams>) -> CodecConfig
        ensures rows { result.params ≡ params }
        ensures distances { result.red_distances ≡ 1 ∷ [] }
    {
        let red_distances = RedDistances::previous();
        CodecConfig {
            params,
            red_distances,
        }
    }

    /// The rows, in order.
    pub fn params(&self) -> &[PayloadParams]
        ensures { result.now ≡ self.now.params.items }
    {
        self.params.as_slice()
    }

    /// A configuration with the same rows and distances. The only error is that memory was refused.
    pub fn clone(&self) -> Result<CodecConfig, AllocError>
        ensures rows { IfOk result (λ config. config.params.items ≡ self.now.params.items) }
        ensures distances { IfOk result (λ config. config.red_distances ≡ self.now.red_distances) }
    {
        let params = self.params.clone()?;
        Ok(CodecConfig {
            params,
            red_distances: self.red_distances.copy(),
        })
    }

    /// Takes out all rows; the distances stay.
    pub fn clear(&mut self)
        ensures rows { self.new.params.items ≡ [] }
        ensures distances { self.new.red_distances ≡ self.old.red_distances }
    {
        self.params.clear();
    }

    /// The row that matches these parameters best: the last of those of greatest score. `None` where
    /// no row matches.
    pub fn match_params(&self, params: PayloadParams) -> Option<&PayloadParams>
        ensures { IsChoice (choice_points_with params) self.now.params.items (option_copied result) }
    {
        let mut best = None;
        for row in self.params.as_slice() {
            best = better_row(best, row, row.match_score(&params));
        }
        match best {
            Some((row, _)) => Some(row),
            None => None,
        }
    }

    /// The payload type under which the media of a remote row are sent: the remote's own where the
    /// remote receives, since it says there what it wants to get (RFC 3264, section 5.1), else that
    /// of our best match. `None` where no row matches.
    pub fn sdp_match_remote(&self, params: PayloadParams, dir: Direction) -> Option<Pt>
        ensures { IsMatchedType self.now.params.items params (receives dir) result }
    {
        let ours = self.match_params(params)?;
        if dir.sdp_is_receiving() {
            Some(params.pt())
        } else {
            Some(ours.pt())
        }
    }

    /// The first row that `accept` accepts; it refused each row before that one. `None` where it
    /// refused them all. No row is asked after the accepted one, which a test shows: a clause can't
    /// tell in what state a closure is that was handed over.
    pub fn find<F: FnMut(&PayloadParams) -> bool>(&self, mut accept: F) -> Option<&PayloadParams>
        requires { F.IsAlwaysCallable accept }
        ensures { FirstAccepted F.step accept self.now.params.items (option_copied result) }
    {
        for row in self.params.iter() {
            if accept(row) {
                return Some(row);
            }
        }
        None
    }

    /// Whether some row has this payload type as its primary one.
    pub fn has_pt(&self, pt: Pt) -> bool
        ensures { result ≡ list_any (λ row. row.pt == pt) self.now.params.items }
    {
        self.params.iter().any(|row| row.pt() == pt)
    }

    /// The highest telephone event of the first row of events under this payload type. Where the row
    /// doesn't say it, that is 16, the default of `str0m` (RFC 4733 itself has 0 to 15). `None` where
    /// there is no such row.
    pub fn tele_event_max(&self, pt: Pt) -> Option<u8>
        ensures { result ≡ highest_event pt self.now.params.items }
    {
        let row = self.params.iter().find(|row| is_event_row(row, pt))?;
        Some(row.spec().format.highest_event())
    }

    /// The rows for sections of a kind, in order: for video those of video, for audio those of audio
    /// and of telephone events.
    ///
    /// A new offer names telephone events at the RTP clock rates of its audio (RFC 4733, section
    /// 2.1), so where some row of events shares its rate with an audio row, `for_new_offer` leaves
    /// out the rows of events that don't.
    pub fn all_for_kind(&self, kind: MediaKind, for_new_offer: bool) -> KindRows<'_>
        ensures { rows_left result ≡ kind_rows kind for_new_offer self.now.params.items }
    {
        let rows = self.params.as_slice();
        KindRows {
            all: rows,
            rest: rows,
            kind,
            narrowed: for_new_offer && some_row_shares_rate(rows),
        }
    }

    /// How many packets back each redundant level of RED lies (RFC 2198, section 3): 1 first, which
    /// is the packet before, then ever greater numbers, up to 16.
    pub fn red_distances(&self) -> &[u32]
        ensures value { result.now ≡ self.now.red_distances }
        ensures first { (rest : List ℕ) × (result.now ≡ 1 ∷ rest) }
        ensures increasing { IsStrictlyIncreasing result.now }
        ensures bounded { All (λ d. d ≤ 16) result.now }
    {
        self.red_distances.as_slice()
    }

    /// Says how many packets back each redundant level of RED lies (RFC 2198, section 3).
    ///
    /// Of the numbers given those from 1 to 16 are kept, each once and in increasing order, and 1 is
    /// added where it is missing: a receiver takes the nearest level for the packet before. Whether
    /// rows have a RED isn't changed, nor is any row.
    pub fn set_red_distances(&mut self, distances: &[u32])
        ensures kept { AreDistancesKept distances.now self.new.red_distances }
        ensures rows { self.new.params ≡ self.old.params }
    {
        self.red_distances = RedDistances::kept(distances);
    }

    /// Makes room for so many more rows. It is made elsewhere, and the rows go there, so that want of it
    /// changes nothing. Room at least doubles, as that of a list does.
    pub(crate) fn make_room(&mut self, more: usize) -> Result<(), AllocError>
        ensures rows { self.new.params.items ≡ self.old.params.items }
        ensures ok { OnOk result (vec_len self.new.params + more ≤ vec_capacity self.new.params) }
        ensures enough { vec_len self.old.params + more ≤ vec_capacity self.old.params → IsOk result }
        ensures err { OnErr result (self.new ≡ self.old) }
        ensures distances { self.new.red_distances ≡ self.old.red_distances }
    {
        let had = self.params.capacity();
        if more <= had - self.params.len() {
            return Ok(());
        }
        let room = self.params.len().saturating_add(more);
        let room = room.max(had.saturating_mul(2)).max(LEAST_ROW_ROOM);
        let mut rows = Vec::with_capacity(*self.params.allocator(), room)?;
        rows.extend_from_slice(self.params.as_slice())?;
        self.params = rows;
        Ok(())
    }

    fn add_row(&mut self, row: PayloadParams) -> Result<(), AllocError>
        ensures ok { OnOk result (self.new.params.items ≡ self.old.params.items ++ row ∷ []) }
        ensures err { OnErr result (self.new ≡ self.old) }
        ensures distances { self.new.red_distances ≡ self.old.red_distances }
    {
        self.make_room(1)?;
        self.params.extend_from_slice(&[row])
    }

    /// Adds a row of a codec at the end: with the feedback of a new row, without RED, not locked.
    /// The clock rate is that at which the codec samples, in Hz. Telephone events need a row for
    /// each RTP clock rate; none is added for them here.
    ///
    /// The only error is that memory was refused; it changes nothing.
    pub fn add_config(
        &mut self,
        pt: Pt,
        resend: Option<Pt>,
        codec: Codec,
        clock_rate: Frequency,
        channels: Option<u8>,
        format: FormatParams,
    ) -> Result<(), AllocError>
        ensures ok { OnOk result (self.new.params.items ≡ self.old.params.items
            ++ new_row pt resend (record { codec = codec; clock_rate = clock_rate; channels = channels; format = format }) ∷ []) }
        ensures err { OnErr result (self.new ≡ self.old) }
        ensures distances { self.new.red_distances ≡ self.old.red_distances }
    {
        let spec = CodecSpec {
            codec,
            clock_rate,
            channels,
            format,
        };
        self.add_row(PayloadParams::new(pt, resend, spec))
    }

    /// Adds a row of H264 at the end, at 90 kHz: of packetization mode 1 or 0, with this
    /// profile-level-id, and with levels that may differ in the two directions (RFC 6184, section
    /// 8.1).
    ///
    /// The only error is that memory was refused; it changes nothing.
    pub fn add_h264(
        &mut self,
        pt: Pt,
        resend: Option<Pt>,
        packetization_mode: bool,
        profile_level_id: u32,
    ) -> Result<(), AllocError>
        ensures ok { OnOk result (self.new.params.items ≡ self.old.params.items ++ h264_row pt resend packetization_mode profile_level_id ∷ []) }
        ensures err { OnErr result (self.new ≡ self.old) }
        ensures distances { self.new.red_distances ≡ self.old.red_distances }
    {
        self.add_row(h264_row(pt, resend, packetization_mode, profile_level_id))
    }

    /// Adds a row of H265 at the end, at 90 kHz, with this profile, tier and level (RFC 7798, section
    /// 7.1). Where one of them stands in no table, Main profile, Main tier and level 3.1 take their
    /// place.
    ///
    /// The only error is that memory was refused; it changes nothing.
    pub fn add_h265(
        &mut self,
        pt: Pt,
        resend: Option<Pt>,
        profile: u8,
        tier: u8,
        level: u8,
    ) -> Result<(), AllocError>
        ensures ok { OnOk result ((triple : H265ProfileTierLevel) × IsH265Triple profile tier level triple
            × (self.new.params.items ≡ self.old.params.items ++ h265_row pt resend triple ∷ [])) }
        ensures err { OnErr result (self.new ≡ self.old) }
        ensures distances { self.new.red_distances ≡ self.old.red_distances }
    {
        let triple = triple_or(profile, tier, level, H265ProfileTierLevel::FALLBACK);
        self.add_row(h265_row(pt, resend, triple))
    }

    /// Adds a row of H266 at the end, at 90 kHz, with this profile, tier and level (RFC 9328, section
    /// 7.2). Where one of them stands in no table, Main 10 profile, Main tier and level 3.1 take
    /// their place.
    ///
    /// The only error is that memory was refused; it changes nothing.
    pub fn add_h266(
        &mut self,
        pt: Pt,
        resend: Option<Pt>,
        profile: u8,
        tier: u8,
        level: u8,
    ) -> Result<(), AllocError>
        ensures ok { OnOk result ((triple : H266ProfileTierLevel) × IsH266Triple profile tier level triple
            × (self.new.params.items ≡ self.old.params.items ++ h266_row pt resend triple ∷ [])) }
        ensures err { OnErr result (self.new ≡ self.old) }
        ensures distances { self.new.red_distances ≡ self.old.red_distances }
    {
        let triple = triple_or(profile, tier, level, H266ProfileTierLevel::FALLBACK);
        self.add_row(h266_row(pt, resend, triple))
    }
}

/// The rows.
impl Deref for CodecConfig {
    type Target = Vec<PayloadParams>;

    ghost deref_gives = { λ config rows. rows ≡ config.params };

    fn deref(&self) -> &Vec<PayloadParams> {
        &self.params
    }
}

/// The rows, which may be changed in any way; the distances stay.
impl DerefMut for CodecConfig {
    ghost use Rattle.std.specs.Borrow.{sem};
    ghost use Rattle.str0m_formats.specs.row.CodecConfig.{LendsRows};

    ghost deref_mut_gives = { λ config rows. rows ≡ config.params };

    fn deref_mut(&mut self) -> &mut Vec<PayloadParams>
        ensures* writes_back { sem 𝓛 (LendsRows self.entry result) }
        ensures shows { result.now ≡ self.old.params }
    {
        &mut self.params
    }
}
