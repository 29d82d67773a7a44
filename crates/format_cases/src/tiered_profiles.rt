//! Profiles, tiers and levels of H265 and H266.

use crate::answer::Answer;
use crate::lists::{three_listed_bytes, value_of};
use std::fmt::Debug;
use str0m_values::{
    H265ProfileTierLevel, H266ProfileTierLevel, Leveled, Numbered, ProfileTierLevel,
};

/// Answers what the word asks of the text; whether it is one of these words.
pub(crate) fn answers(answer: &mut Answer, asked: &str, text: &str) -> bool {
    let (profile, tier) = (value_of(text, "profile-id"), value_of(text, "tier-flag"));
    let level = value_of(text, "level-id");
    if let Some(word) = asked.strip_prefix("h265") {
        let named = H265ProfileTierLevel::from_fmtp(profile, tier, level);
        return of_codec(answer, word, text, named, H265ProfileTierLevel::FALLBACK);
    }
    if let Some(word) = asked.strip_prefix("h266") {
        let named = H266ProfileTierLevel::from_fmtp(profile, tier, level);
        return of_codec(answer, word, text, named, H266ProfileTierLevel::FALLBACK);
    }
    false
}

/// What the word asks of a codec: of what the values of a format line name, and of its fallback.
fn of_codec<P: Numbered + Debug, T: Numbered + Debug, L: Leveled + Debug>(
    answer: &mut Answer,
    word: &str,
    text: &str,
    named: Option<ProfileTierLevel<P, T, L>>,
    fallback: ProfileTierLevel<P, T, L>,
) -> bool {
    match word {
        "" => profile_shown_or_none(answer, named),
        "-numbers" => profile_shown_or_none::<P, T, L>(answer, profile_of_numbers(text)),
        "-fallback" => tiered_shown(answer, fallback),
        "-profiles" | "-tiers" | "-levels" => listed_profiles(answer, word, fallback),
        _ => return false,
    }
    true
}

fn profile_of_numbers<P: Numbered, T: Numbered, L: Numbered>(
    text: &str,
) -> Option<ProfileTierLevel<P, T, L>> {
    let (profile_id, tier_flag, level_id) = three_listed_bytes(text)?;
    ProfileTierLevel::new(profile_id, tier_flag, level_id)
}

fn profile_shown_or_none<P: Numbered + Debug, T: Numbered + Debug, L: Leveled + Debug>(
    answer: &mut Answer,
    found: Option<ProfileTierLevel<P, T, L>>,
) {
    match found {
        Some(found) => tiered_shown(answer, found),
        None => answer.push("none"),
    }
}

/// The parts with their numbers, and the place of the level among the levels.
fn tiered_shown<P: Numbered + Debug, T: Numbered + Debug, L: Leveled + Debug>(
    answer: &mut Answer,
    found: ProfileTierLevel<P, T, L>,
) {
    answer.push("profile ");
    profile_part(answer, found.profile(), found.profile_id());
    answer.push(", tier ");
    profile_part(answer, found.tier(), found.tier_flag());
    answer.push(", level ");
    profile_part(answer, found.level(), found.level_id());
    answer.push(", ordinal ");
    answer.show(&found.level().place());
}

fn profile_part<A: Debug + Copy>(answer: &mut Answer, found: A, id: u8) {
    answer.debug(&found);
    answer.push(" ");
    answer.show(&id);
}

/// The part that the word asks for, with its number.
fn asked_profile_part<P: Numbered + Debug, T: Numbered + Debug, L: Leveled + Debug>(
    answer: &mut Answer,
    word: &str,
    found: ProfileTierLevel<P, T, L>,
) {
    match word {
        "-profiles" => profile_part(answer, found.profile(), found.profile_id()),
        "-tiers" => profile_part(answer, found.tier(), found.tier_flag()),
        _ => profile_part(answer, found.level(), found.level_id()),
    }
}

/// Each profile, tier or level that a number names, as the word asks, with its number.
fn listed_profiles<P: Numbered + Debug, T: Numbered + Debug, L: Leveled + Debug>(
    answer: &mut Answer,
    word: &str,
    fallback: ProfileTierLevel<P, T, L>,
) {
    let mut separator = "";
    for number in 0..=255 {
        if let Some(found) = numbered_profile(word, number, fallback) {
            answer.push(separator);
            asked_profile_part(answer, word, found);
            separator = ", ";
        }
    }
}

/// The fallback with this number where the word asks for it.
fn numbered_profile<P: Numbered, T: Numbered, L: Numbered>(
    word: &str,
    number: u8,
    fallback: ProfileTierLevel<P, T, L>,
) -> Option<ProfileTierLevel<P, T, L>> {
    let (profile, tier, level) = (
        fallback.profile_id(),
        fallback.tier_flag(),
        fallback.level_id(),
    );
    match word {
        "-profiles" => ProfileTierLevel::new(number, tier, level),
        "-tiers" => ProfileTierLevel::new(profile, number, level),
        _ => ProfileTierLevel::new(profile, tier, number),
    }
}
