//! Profiles, tiers and levels of H266.
ghost use Rattle.std.specs.Ordering.{nat_cmp};
ghost use Rattle.std.specs.Prelude.{◌≡◌, None, Some, nat_lt};
ghost use Rattle.str0m_values.specs.Cuts.{IsTheOnly};
ghost use Rattle.str0m_values.specs.H266.{profile_id, tier_flag, level_id, level_ordinal, h266_defaults};
ghost use Rattle.str0m_values.specs.ProfileTierLevel.{HasNumbers, HasNumbersOfTexts};

use crate::profile_tier_level::{Leveled, Numbered, ProfileTierLevel, profile_table_value};

/// A profile of H266: which of its tools a stream may use (RFC 9328, section 7.2).
#[derive(Clone, Copy, Debug, PartialEq, Eq, Hash)]
pub enum H266Profile {
    Main10,
    MultilayerMain10,
    Main10_444,
    MultilayerMain10_444,
    Main10StillPicture,
    Main10_444StillPicture,
}

/// A tier of H266: how high the bit rate of a level may be.
#[derive(Clone, Copy, Debug, PartialEq, Eq, Hash)]
pub enum H266Tier {
    Main,
    High,
}

/// A level of H266, in the order of what a decoder has to bear: `L4_1` is level 4.1.
#[derive(Clone, Copy, Debug, PartialEq, Eq, PartialOrd, Ord, Hash)]
pub enum H266Level {
    L1,
    L2,
    L2_1,
    L3,
    L3_1,
    L4,
    L4_1,
    L5,
    L5_1,
    L5_2,
    L6,
    L6_1,
    L6_2,
    L6_3,
}

/// A profile, a tier and a level of H266: what a stream holds, or what a decoder bears (RFC 9328, section 7.2).
pub type H266ProfileTierLevel = ProfileTierLevel<H266Profile, H266Tier, H266Level>;

/// The number of each profile, which stands for it in `profile-id`.
const H266_PROFILES: [(H266Profile, u8); 6] = [
    (H266Profile::Main10, 1),
    (H266Profile::MultilayerMain10, 17),
    (H266Profile::Main10_444, 33),
    (H266Profile::MultilayerMain10_444, 49),
    (H266Profile::Main10StillPicture, 65),
    (H266Profile::Main10_444StillPicture, 97),
];

impl H266Profile {
    /// The number that stands for the profile in `profile-id`.
    pub fn to_id(self) -> u8
        ensures { result ≡ profile_id self }
    {
        H266_PROFILES[self as usize].1
    }
}

impl Numbered for H266Profile {
    ghost number_of = { profile_id };

    fn number(self) -> u8 {
        H266Profile::to_id(self)
    }

    fn of_number(number: u8) -> Option<H266Profile> {
        profile_table_value(&H266_PROFILES, number)
    }
}

/// The number of each tier, which stands for it in `tier-flag`.
const H266_TIERS: [(H266Tier, u8); 2] = [(H266Tier::Main, 0), (H266Tier::High, 1)];

impl H266Tier {
    /// The number that stands for the tier in `tier-flag`.
    pub fn to_id(self) -> u8
        ensures { result ≡ tier_flag self }
    {
        H266_TIERS[self as usize].1
    }
}

impl Numbered for H266Tier {
    ghost number_of = { tier_flag };

    fn number(self) -> u8 {
        H266Tier::to_id(self)
    }

    fn of_number(number: u8) -> Option<H266Tier> {
        profile_table_value(&H266_TIERS, number)
    }
}

/// The number of each level, which stands for it in `level-id`.
const H266_LEVELS: [(H266Level, u8); 14] = [
    (H266Level::L1, 16),
    (H266Level::L2, 32),
    (H266Level::L2_1, 35),
    (H266Level::L3, 48),
    (H266Level::L3_1, 51),
    (H266Level::L4, 64),
    (H266Level::L4_1, 67),
    (H266Level::L5, 80),
    (H266Level::L5_1, 83),
    (H266Level::L5_2, 86),
    (H266Level::L6, 96),
    (H266Level::L6_1, 99),
    (H266Level::L6_2, 102),
    (H266Level::L6_3, 105),
];

impl H266Level {
    /// The number that stands for the level in `level-id`.
    pub fn to_id(self) -> u8
        ensures { result ≡ level_id self }
    {
        H266_LEVELS[self as usize].1
    }

    /// The place of the level among the levels, from 0.
    pub fn ordinal(self) -> usize
        ensures place { result ≡ level_ordinal self }

        // Levels are in the order of their places, and so are their numbers.
        ensures order { (a b : H266Level) →
            ⟦<H266Level as Ord>⟧.cmp a b ≡ nat_cmp (level_ordinal a) (level_ordinal b) }
        ensures numbers { (a b : H266Level) →
            nat_lt (level_id a) (level_id b) ≡ nat_lt (level_ordinal a) (level_ordinal b) }
    {
        self as usize
    }
}

impl Numbered for H266Level {
    ghost number_of = { level_id };

    fn number(self) -> u8 {
        H266Level::to_id(self)
    }

    fn of_number(number: u8) -> Option<H266Level> {
        profile_table_value(&H266_LEVELS, number)
    }
}

impl Leveled for H266Level {
    ghost place_of = { level_ordinal };

    fn place(self) -> usize {
        H266Level::ordinal(self)
    }
}

/// What a description means that says nothing.
const H266_FALLBACK: H266ProfileTierLevel = ProfileTierLevel {
    profile: H266Profile::Main10,
    tier: H266Tier::Main,
    level: H266Level::L3_1,
};

impl H266ProfileTierLevel {
    /// What a description means that says nothing: Main 10 profile, Main tier, level 3.1.
    pub const FALLBACK: H266ProfileTierLevel = H266_FALLBACK;

    /// The triple of the values of `profile-id`, `tier-flag` and `level-id`, where an absent one
    /// takes that of the fallback. `None` where one is no number of 8 bits, or stands in no table.
    pub fn from_fmtp(
        profile: Option<&str>,
        tier: Option<&str>,
        level: Option<&str>,
    ) -> Option<H266ProfileTierLevel>
        ensures triple { IsTheOnly (HasNumbersOfTexts profile_id tier_flag level_id h266_defaults profile.entry tier.entry level.entry) result }
        ensures fallback { HasNumbers profile_id tier_flag level_id h266_defaults.0 h266_defaults.1 h266_defaults.2 H266_FALLBACK }
        ensures absent { profile.entry ≡ None → tier.entry ≡ None → level.entry ≡ None → result ≡ Some H266_FALLBACK }
    {
        ProfileTierLevel::of_texts(profile, tier, level, H266ProfileTierLevel::FALLBACK)
    }
}
