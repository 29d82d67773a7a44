//! Profiles and levels of H264.
ghost use Rattle.std.specs.List.{range_with_len};
ghost use Rattle.std.specs.Ordering.{nat_cmp};
ghost use Rattle.std.specs.Prelude.{◌≡◌, ◌≤◌, ℕ, count_by, map};
ghost use Rattle.std.specs.Result.{result_ok};
ghost use Rattle.str0m_values.specs.H264.{fits_h264_pattern, level_of, level_ordinal, levels, lower_level, marks_h264_level_1b, named, h264_patterns, profile_level_of, profile_level_of_bytes, profile_of};

use self::H264Profile::{
    Baseline, ConstrainedBaseline, ConstrainedHigh, High, Main, PredictiveHigh444,
};
use thiserror::Error;

/// A profile of H264: which of its tools a stream may use (RFC 6184, section 8.1).
#[derive(Clone, Copy, Debug, PartialEq, Eq, Hash)]
pub enum H264Profile {
    ConstrainedBaseline,
    Baseline,
    Main,
    High,
    ConstrainedHigh,
    PredictiveHigh444,
}

/// A level of H264, in the order of what a decoder has to bear: `L4_1` is level 4.1.
#[derive(Clone, Copy, Debug, PartialEq, Eq, PartialOrd, Ord, Hash)]
pub enum H264Level {
    L1,
    L1B,
    L1_1,
    L1_2,
    L1_3,
    L2,
    L2_1,
    L2_2,
    L3,
    L3_1,
    L3_2,
    L4,
    L4_1,
    L4_2,
    L5,
    L5_1,
    L5_2,
}

/// A profile and a level of H264, as a profile-level-id names them (RFC 6184, section 8.1).
#[derive(Clone, Copy, Debug, PartialEq, Eq, Hash)]
pub struct H264ProfileLevel {
    /// Which tools a stream may use.
    pub profile: H264Profile,
    /// What a decoder has to bear.
    pub level: H264Level,
}

/// A number names no profile and level.
#[derive(Clone, Copy, Debug, PartialEq, Eq, Error)]
#[error("no profile and level of H264")]
pub struct NoProfileLevel;

impl H264Level {
    /// The place of the level among the levels, from 0.
    pub fn ordinal(self) -> usize
        ensures place { result ≡ level_ordinal self }

        // Levels are in the order of their places, which are those of the table.
        ensures order { (a b : H264Level) →
            ⟦<H264Level as Ord>⟧.cmp a b ≡ nat_cmp (level_ordinal a) (level_ordinal b) }
        ensures places { map level_ordinal levels ≡ range_with_len 0 17 }
    {
        self as usize
    }
}

impl H264ProfileLevel {
    /// What an absent profile-level-id stands for: Baseline, level 1.
    pub const FALLBACK: H264ProfileLevel = H264ProfileLevel {
        profile: H264Profile::Baseline,
        level: H264Level::L1,
    };

    /// What the profile-level-id of a format names, `None` where it names no profile or no level; an absent
    /// one stands for `FALLBACK`.
    #[tactic(auto, unfolding(crate::specs::H264::named))]
    pub fn named(id: Option<u32>) -> Option<H264ProfileLevel>
        ensures { result ≡ named id }
    {
        match id {
            None => Some(H264ProfileLevel::FALLBACK),
            Some(id) => H264ProfileLevel::try_from(id).ok(),
        }
    }

    /// The profile: which tools a stream may use.
    pub fn profile(self) -> H264Profile
        ensures part { result ≡ self.profile }
        ensures fallback { H264ProfileLevel.FALLBACK.profile ≡ H264Profile.Baseline }
    {
        self.profile
    }

    /// The level: what a decoder has to bear.
    pub fn level(self) -> H264Level
        ensures part { result ≡ self.level }
        ensures fallback { H264ProfileLevel.FALLBACK.level ≡ H264Level.L1 }
    {
        self.level
    }
}

impl TryFrom<u32> for H264ProfileLevel {
    type Error = NoProfileLevel;

    ghost try_from_gives = { λ id result. result_ok result ≡ profile_level_of id };

    fn try_from(id: u32) -> Result<H264ProfileLevel, NoProfileLevel> {
        let [high, idc, iop, level_idc] = id.to_be_bytes();
        if high != 0 {
            return Err(NoProfileLevel);
        }
        profile_level_of_bytes(idc, iop, level_idc).ok_or(NoProfileLevel)
    }
}

fn profile_level_of_bytes(idc: u8, iop: u8, level_idc: u8) -> Option<H264ProfileLevel>
    ensures { result ≡ profile_level_of_bytes idc iop level_idc }
{
    Some(H264ProfileLevel {
        profile: profile_of(idc, iop)?,
        level: level_of(idc, iop, level_idc)?,
    })
}

/// A profile, the first byte, which bits of the second byte count, and what those are.
const H264_PATTERNS: [(H264Profile, u8, u8, u8); 9] = [
    (ConstrainedBaseline, 0x42, 0b0100_1111, 0b0100_0000),
    (ConstrainedBaseline, 0x4d, 0b1000_1111, 0b1000_0000),
    (ConstrainedBaseline, 0x58, 0b1100_1111, 0b1100_0000),
    (Baseline, 0x42, 0b0100_1111, 0b0000_0000),
    (Baseline, 0x58, 0b1100_1111, 0b1000_0000),
    (Main, 0x4d, 0b1010_1111, 0b0000_0000),
    (High, 0x64, 0b1111_1111, 0b0000_0000),
    (ConstrainedHigh, 0x64, 0b1111_1111, 0b0000_1100),
    (PredictiveHigh444, 0xf4, 0b1111_1111, 0b0000_0000),
];

fn profile_of(idc: u8, iop: u8) -> Option<H264Profile>
    ensures first { result ≡ profile_of idc iop }

    // No two bytes fit two patterns.
    ensures one { (idc iop : ℕ) → count_by (fits_h264_pattern idc iop) h264_patterns ≤ 1 }
{
    H264_PATTERNS
        .iter()
        .find(|(_, first, mask, bits)| *first == idc && iop & *mask == *bits)
        .map(|(profile, _, _, _)| *profile)
}

fn level_of(idc: u8, iop: u8, level_idc: u8) -> Option<H264Level>
    ensures { result ≡ level_of idc iop level_idc }
{
    match level_idc {
        10 => Some(H264Level::L1),
        11 if is_h264_level_1b(idc, iop) => Some(H264Level::L1B),
        11 => Some(H264Level::L1_1),
        12 => Some(H264Level::L1_2),
        13 => Some(H264Level::L1_3),
        20 => Some(H264Level::L2),
        21 => Some(H264Level::L2_1),
        22 => Some(H264Level::L2_2),
        30 => Some(H264Level::L3),
        31 => Some(H264Level::L3_1),
        32 => Some(H264Level::L3_2),
        40 => Some(H264Level::L4),
        41 => Some(H264Level::L4_1),
        42 => Some(H264Level::L4_2),
        50 => Some(H264Level::L5),
        51 => Some(H264Level::L5_1),
        52 => Some(H264Level::L5_2),
        _ => None,
    }
}

/// Whether 11 names level 1b, in place of 1.1.
fn is_h264_level_1b(idc: u8, iop: u8) -> bool
    ensures { result ≡ marks_h264_level_1b idc iop }
{
    (idc == 0x42 || idc == 0x4d || idc == 0x58) && iop & 0x10 == 0x10
}

/// The profile-level-id that both sides bear where levels may not differ by direction (RFC 6184,
/// section 8.2.2): `other` where both ids name a profile and a level and that of `other` is lower, else
/// `own`. An absent id stands for `H264ProfileLevel::FALLBACK`. Profiles aren't compared.
pub fn lower_level(own: Option<u32>, other: Option<u32>) -> Option<u32>
    ensures { result ≡ lower_level own other }
{
    match (H264ProfileLevel::named(own), H264ProfileLevel::named(other)) {
        (Some(ours), Some(theirs)) if theirs.level.ordinal() < ours.level.ordinal() => other,
        _ => own,
    }
}
