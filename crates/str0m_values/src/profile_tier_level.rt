//! What H265 and H266 say of a stream: a profile, a tier and a level.
ghost use Rattle.std.specs.Prelude.{◌≡◌, ℕ};
ghost use Rattle.str0m_values.specs.Cuts.{IsTheOnly};
ghost use Rattle.str0m_values.specs.ProfileTierLevel.{HasNumbers, HasNumbersOfTexts, profile_table_value};

use crate::cuts::num_u8_or;

/// A profile, a tier or a level, for which a number of 8 bits stands in a format line.
pub trait Numbered: Copy {
    /// The number that stands for the value.
    ghost number_of: { Self → ℕ };

    /// The number that stands for the value.
    fn number(self) -> u8
        ensures { result ≡ number_of self };

    /// The value that a number stands for; `None` where it stands for none.
    fn of_number(number: u8) -> Option<Self>
        ensures { IsTheOnly (λ value. number_of value ≡ number) result };
}

/// The value that a number stands for, in a table of values and their numbers.
pub(crate) fn profile_table_value<T: Copy>(rows: &[(T, u8)], number: u8) -> Option<T>
    ensures { result ≡ profile_table_value rows.now number }
{
    match rows.iter().find(|row| row.1 == number) {
        Some(row) => Some(row.0),
        None => None,
    }
}

/// A level, which has its place among the levels of its codec.
pub trait Leveled: Numbered {
    /// The place of the level, from 0.
    ghost place_of: { Self → ℕ };

    /// The place of the level among the levels, from 0.
    fn place(self) -> usize
        ensures { result ≡ place_of self };
}

/// A profile, a tier and a level of one codec: what a stream holds, or what a decoder bears.
#[derive(Clone, Copy, Debug, PartialEq, Eq, Hash)]
pub struct ProfileTierLevel<P, T, L> {
    /// Which tools a stream may use.
    pub profile: P,
    /// How high the bit rate of the level may be.
    pub tier: T,
    /// What a decoder has to bear.
    pub level: L,
}

impl<P: Numbered, T: Numbered, L: Numbered> ProfileTierLevel<P, T, L> {
    /// The triple of these numbers; `None` where one of them stands in no table.
    pub fn new(profile_id: u8, tier_flag: u8, level_id: u8) -> Option<ProfileTierLevel<P, T, L>>
        ensures { IsTheOnly (HasNumbers P.number_of T.number_of L.number_of profile_id tier_flag level_id) result }
    {
        Some(ProfileTierLevel {
            profile: P::of_number(profile_id)?,
            tier: T::of_number(tier_flag)?,
            level: L::of_number(level_id)?,
        })
    }

    /// The triple of the numbers of these texts, where an absent one takes that of the fallback.
    pub(crate) fn of_texts(
        profile: Option<&str>,
        tier: Option<&str>,
        level: Option<&str>,
        fallback: ProfileTierLevel<P, T, L>,
    ) -> Option<ProfileTierLevel<P, T, L>>
        ensures { IsTheOnly (HasNumbersOfTexts P.number_of T.number_of L.number_of
            (P.number_of fallback.profile, T.number_of fallback.tier, L.number_of fallback.level)
            profile.entry tier.entry level.entry) result }
    {
        ProfileTierLevel::new(
            num_u8_or(profile, fallback.profile_id())?,
            num_u8_or(tier, fallback.tier_flag())?,
            num_u8_or(level, fallback.level_id())?,
        )
    }

    /// The profile: which tools a stream may use.
    pub fn profile(self) -> P
        ensures { result ≡ self.profile }
    {
        self.profile
    }

    /// The tier: how high the bit rate of the level may be.
    pub fn tier(self) -> T
        ensures { result ≡ self.tier }
    {
        self.tier
    }

    /// The level: what a decoder has to bear.
    pub fn level(self) -> L
        ensures { result ≡ self.level }
    {
        self.level
    }

    /// The value of `profile-id`.
    pub fn profile_id(self) -> u8
        ensures { result ≡ P.number_of self.profile }
    {
        self.profile.number()
    }

    /// The value of `tier-flag`.
    pub fn tier_flag(self) -> u8
        ensures { result ≡ T.number_of self.tier }
    {
        self.tier.number()
    }

    /// The value of `level-id`.
    pub fn level_id(self) -> u8
        ensures { result ≡ L.number_of self.level }
    {
        self.level.number()
    }

    /// The same profile and tier at another level.
    pub fn with_level(self, level: L) -> ProfileTierLevel<P, T, L>
        ensures { result ≡ record self { level = level } }
    {
        ProfileTierLevel { level, ..self }
    }
}
