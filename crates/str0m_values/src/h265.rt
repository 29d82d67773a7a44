//! Profiles, tiers and levels of H265.
ghost use Rattle.std.specs.Ordering.{nat_cmp};
ghost use Rattle.std.specs.Prelude.{◌≡◌, None, Some, nat_lt};
ghost use Rattle.str0m_values.specs.Cuts.{IsTheOnly};
ghost use Rattle.str0m_values.specs.H265.{profile_id, tier_flag, level_id, level_ordinal, h265_defaults};
ghost use Rattle.str0m_values.specs.ProfileTierLevel.{HasNumbers, HasNumbersOfTexts};

use crate::profile_tier_level::{Leveled, Numbered, ProfileTierLevel, profile_table_value};

/// A profile of H265: which of its tools a stream may use (RFC 7798, section 7.1).
#[derive(Clone, Copy, Debug, PartialEq, Eq, Hash)]
pub enum H265Profile {
    Main,
    Main10,
    MainStillPicture,
    RangeExtensions,
    HighThroughput,
    MultiviewMain,
    ScalableMain,
    Main3D,
    ScreenExtended,
    ScalableRangeExtensions,
    HighThroughputScreenExtended,
}

/// A tier of H265: how high the bit rate of a level may be.
#[derive(Clone, Copy, Debug, PartialEq, Eq, Hash)]
pub enum H265Tier {
    Main,
    High,
}

/// A level of H265, in the order of what a decoder has to bear: `L4_1` is level 4.1.
#[derive(Clone, Copy, Debug, PartialEq, Eq, PartialOrd, Ord, Hash)]
pub enum H265Level {
    L1,
    L2,
    L2_1,
    L3,
    L3_1,
    L4,
    L4_1,
    L5,
    L5_1,
    L5_2,
    L6,
    L6_1,
    L6_2,
}

/// A profile, a tier and a level of H265: what a stream holds, or what a decoder bears (RFC 7798, section 7.1).
pub type H265ProfileTierLevel = ProfileTierLevel<H265Profile, H265Tier, H265Level>;

/// The number of each profile, which stands for it in `profile-id`.
const H265_PROFILES: [(H265Profile, u8); 11] = [
    (H265Profile::Main, 1),
    (H265Profile::Main10, 2),
    (H265Profile::MainStillPicture, 3),
    (H265Profile::RangeExtensions, 4),
    (H265Profile::HighThroughput, 5),
    (H265Profile::MultiviewMain, 6),
    (H265Profile::ScalableMain, 7),
    (H265Profile::Main3D, 8),
    (H265Profile::ScreenExtended, 9),
    (H265Profile::ScalableRangeExtensions, 10),
    (H265Profile::HighThroughputScreenExtended, 11),
];

impl H265Profile {
    /// The number that stands for the profile in `profile-id`.
    pub fn to_id(self) -> u8
        ensures { result ≡ profile_id self }
    {
        H265_PROFILES[self as usize].1
    }
}

impl Numbered for H265Profile {
    ghost number_of = { profile_id };

    fn number(self) -> u8 {
        H265Profile::to_id(self)
    }

    fn of_number(number: u8) -> Option<H265Profile> {
        profile_table_value(&H265_PROFILES, number)
    }
}

/// The number of each tier, which stands for it in `tier-flag`.
const H265_TIERS: [(H265Tier, u8); 2] = [(H265Tier::Main, 0), (H265Tier::High, 1)];

impl H265Tier {
    /// The number that stands for the tier in `tier-flag`.
    pub fn to_id(self) -> u8
        ensures { result ≡ tier_flag self }
    {
        H265_TIERS[self as usize].1
    }
}

impl Numbered for H265Tier {
    ghost number_of = { tier_flag };

    fn number(self) -> u8 {
        H265Tier::to_id(self)
    }

    fn of_number(number: u8) -> Option<H265Tier> {
        profile_table_value(&H265_TIERS, number)
    }
}

/// The number of each level, which stands for it in `level-id`.
const H265_LEVELS: [(H265Level, u8); 13] = [
    (H265Level::L1, 30),
    (H265Level::L2, 60),
    (H265Level::L2_1, 63),
    (H265Level::L3, 90),
    (H265Level::L3_1, 93),
    (H265Level::L4, 120),
    (H265Level::L4_1, 123),
    (H265Level::L5, 150),
    (H265Level::L5_1, 153),
    (H265Level::L5_2, 156),
    (H265Level::L6, 180),
    (H265Level::L6_1, 183),
    (H265Level::L6_2, 186),
];

impl H265Level {
    /// The number that stands for the level in `level-id`.
    pub fn to_id(self) -> u8
        ensures { result ≡ level_id self }
    {
        H265_LEVELS[self as usize].1
    }

    /// The place of the level among the levels, from 0.
    pub fn ordinal(self) -> usize
        ensures place { result ≡ level_ordinal self }

        // Levels are in the order of their places, and so are their numbers.
        ensures order { (a b : H265Level) →
            ⟦<H265Level as Ord>⟧.cmp a b ≡ nat_cmp (level_ordinal a) (level_ordinal b) }
        ensures numbers { (a b : H265Level) →
            nat_lt (level_id a) (level_id b) ≡ nat_lt (level_ordinal a) (level_ordinal b) }
    {
        self as usize
    }
}

impl Numbered for H265Level {
    ghost number_of = { level_id };

    fn number(self) -> u8 {
        H265Level::to_id(self)
    }

    fn of_number(number: u8) -> Option<H265Level> {
        profile_table_value(&H265_LEVELS, number)
    }
}

impl Leveled for H265Level {
    ghost place_of = { level_ordinal };

    fn place(self) -> usize {
        H265Level::ordinal(self)
    }
}

/// What a description means that says nothing.
const H265_FALLBACK: H265ProfileTierLevel = ProfileTierLevel {
    profile: H265Profile::Main,
    tier: H265Tier::Main,
    level: H265Level::L3_1,
};

impl H265ProfileTierLevel {
    /// What a description means that says nothing: Main profile, Main tier, level 3.1.
    pub const FALLBACK: H265ProfileTierLevel = H265_FALLBACK;

    /// The triple of the values of `profile-id`, `tier-flag` and `level-id`, where an absent one
    /// takes that of the fallback. `None` where one is no number of 8 bits, or stands in no table.
    pub fn from_fmtp(
        profile: Option<&str>,
        tier: Option<&str>,
        level: Option<&str>,
    ) -> Option<H265ProfileTierLevel>
        ensures triple { IsTheOnly (HasNumbersOfTexts profile_id tier_flag level_id h265_defaults profile.entry tier.entry level.entry) result }
        ensures fallback { HasNumbers profile_id tier_flag level_id h265_defaults.0 h265_defaults.1 h265_defaults.2 H265_FALLBACK }
        ensures absent { profile.entry ≡ None → tier.entry ≡ None → level.entry ≡ None → result ≡ Some H265_FALLBACK }
    {
        ProfileTierLevel::of_texts(profile, tier, level, H265ProfileTierLevel::FALLBACK)
    }
}
