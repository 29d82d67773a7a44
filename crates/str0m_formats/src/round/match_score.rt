//! How well two specs fit.
ghost use Rattle.std.specs.Prelude.{◌≡◌, ◌≤◌, IfSome, option_map};
ghost use Rattle.str0m_formats.specs.round.MatchScore.{flags_match, score_unless_cost, opus_score, scores_as_mono, mode_score, amr_wb_score, level_score, h264_level_score, h264_score, profile_numbers, profile_number, triple_score, profile_score, vp9_score, av1_score, format_score, codec_score, same_spec, score};

use crate::codec::Codec;
use crate::codec::codec_spec::CodecSpec;
use crate::format::format_params::FormatParams;
use str0m_values::{H264ProfileLevel, Leveled, Numbered, ProfileTierLevel};

/// The score of what fits in full.
pub(crate) const FULL_SCORE: usize = 100;

/// The score of formats of which no more than the profiles are known to be the same.
const SAME_PROFILE: usize = 90;

/// The numbers of a profile and a tier, and the place of a level among its like.
#[derive(Clone, Copy)]
struct ProfileNumbers {
    profile: u8,
    tier: u8,
    level: usize,
}

/// Whether two flags are the same, of which an absent one is false.
fn is_flag_match(own: Option<bool>, other: Option<bool>) -> bool
    ensures { result ≡ flags_match own other }
{
    own.unwrap_or(false) == other.unwrap_or(false)
}

/// What a difference costs.
fn score_cost_unless(is_same: bool, cost: usize) -> usize
    ensures cost { result ≡ score_unless_cost is_same cost }
    ensures bound { result ≤ cost }
{
    if is_same { 0 } else { cost }
}

fn opus_score(own: &FormatParams, other: &FormatParams) -> usize
    ensures score { result ≡ opus_score own.now other.now }
    ensures bound { result ≤ 100 }
{
    FULL_SCORE
        - score_cost_unless(own.min_p_time == other.min_p_time, 1)
        - score_cost_unless(own.use_inband_fec == other.use_inband_fec, 2)
        - score_cost_unless(own.use_dtx == other.use_dtx, 4)
        - score_cost_unless(is_flag_match(own.stereo, other.stereo), 8)
        - score_cost_unless(is_flag_match(own.sprop_stereo, other.sprop_stereo), 8)
}

fn mode_score(own: Option<u16>, other: Option<u16>) -> Option<usize>
    ensures score { result ≡ mode_score own other }
    ensures bound { IfSome result (λ n. n ≤ 100) }
{
    match (own, other) {
        (None, None) => Some(FULL_SCORE),
        (Some(mine), Some(theirs)) if mine != theirs => None,
        _ => Some(FULL_SCORE - 1),
    }
}

/// Whether there is one channel, as there is where nothing is said of it.
fn scores_as_mono(channels: Option<u8>) -> bool
    ensures { result ≡ scores_as_mono channels }
{
    channels.unwrap_or(1) == 1
}

fn amr_wb_score(own: &CodecSpec, other: &CodecSpec) -> Option<usize>
    ensures score { result ≡ amr_wb_score own.now other.now }
    ensures bound { IfSome result (λ n. n ≤ 100) }
{
    if scores_as_mono(own.channels)
        && scores_as_mono(other.channels)
        && is_flag_match(own.format.octet_align, other.format.octet_align)
    {
        mode_score(own.format.mode_set, other.format.mode_set)
    } else {
        None
    }
}

/// The score of two levels of what else is the same, by their places.
fn level_score(is_same: bool, own: usize, other: usize) -> Option<usize>
    ensures score { result ≡ level_score is_same own other }
    ensures bound { IfSome result (λ n. n ≤ 100) }
{
    if is_same {
        Some(FULL_SCORE.saturating_sub(own.abs_diff(other)))
    } else {
        None
    }
}

fn h264_level_score(own: Option<H264ProfileLevel>, other: Option<H264ProfileLevel>) -> Option<usize>
    ensures score { result ≡ h264_level_score own other }
    ensures bound { IfSome result (λ n. n ≤ 100) }
{
    match (own, other) {
        (Some(mine), Some(theirs)) => {
            let is_same = mine.profile == theirs.profile;
            level_score(is_same, mine.level.ordinal(), theirs.level.ordinal())
        }
        _ => None,
    }
}

fn h264_score(own: &FormatParams, other: &FormatParams) -> Option<usize>
    ensures score { result ≡ h264_score own.now other.now }
    ensures bound { IfSome result (λ n. n ≤ 100) }
{
    if own.packetization_mode.unwrap_or(0) == other.packetization_mode.unwrap_or(0) {
        let mine = H264ProfileLevel::named(own.profile_level_id);
        // Most that fit have one id, which is looked up once.
        let theirs = if own.profile_level_id == other.profile_level_id {
            mine
        } else {
            H264ProfileLevel::named(other.profile_level_id)
        };
        h264_level_score(mine, theirs)
    } else {
        None
    }
}

fn profile_numbers<P: Numbered, T: Numbered, L: Leveled>(
    triple: Option<ProfileTierLevel<P, T, L>>,
) -> Option<ProfileNumbers>
    ensures { result ≡ option_map (λ t. profile_numbers P.number_of T.number_of L.place_of t) triple }
{
    let triple = triple?;
    Some(ProfileNumbers {
        profile: triple.profile_id(),
        tier: triple.tier_flag(),
        level: triple.level().place(),
    })
}

/// The profile of a triple, else the last byte of a profile id, else the first profile.
fn profile(triple: Option<ProfileNumbers>, id: Option<u32>) -> u8
    ensures { result ≡ profile_number triple id }
{
    match (triple, id) {
        (Some(triple), _) => triple.profile,
        (None, Some(id)) => (id % 256) as u8,
        (None, None) => 1,
    }
}

fn triple_score(own: ProfileNumbers, other: ProfileNumbers) -> Option<usize>
    ensures score { result ≡ triple_score own other }
    ensures bound { IfSome result (λ n. n ≤ 100) }
{
    let is_same = own.profile == other.profile && own.tier == other.tier;
    level_score(is_same, own.level, other.level)
}

/// The score of what each side says of profile, tier and level: its triple and its profile id.
fn profile_score(
    own: Option<ProfileNumbers>,
    other: Option<ProfileNumbers>,
    own_id: Option<u32>,
    other_id: Option<u32>,
) -> Option<usize>
    ensures score { result ≡ profile_score own other own_id other_id }
    ensures bound { IfSome result (λ n. n ≤ 100) }
{
    match (own, other) {
        (Some(mine), Some(theirs)) => triple_score(mine, theirs),
        _ if profile(own, own_id) == profile(other, other_id) => Some(SAME_PROFILE),
        _ => None,
    }
}

fn vp9_score(own: &FormatParams, other: &FormatParams) -> Option<usize>
    ensures score { result ≡ vp9_score own.now other.now }
    ensures bound { IfSome result (λ n. n ≤ 100) }
{
    if own.profile_id.unwrap_or(0) == other.profile_id.unwrap_or(0) {
        Some(FULL_SCORE)
    } else {
        None
    }
}

fn av1_score(own: &FormatParams, other: &FormatParams) -> Option<usize>
    ensures score { result ≡ av1_score own.now other.now }
    ensures bound { IfSome result (λ n. n ≤ 100) }
{
    if own.profile.unwrap_or(0) == other.profile.unwrap_or(0)
        && own.level_idx.unwrap_or(5) == other.level_idx.unwrap_or(5)
        && own.tier.unwrap_or(0) == other.tier.unwrap_or(0)
    {
        Some(FULL_SCORE)
    } else {
        None
    }
}

/// The score of two formats of a codec.
fn format_score(codec: Codec, own: &FormatParams, other: &FormatParams) -> Option<usize>
    ensures score { result ≡ format_score codec own.now other.now }
    ensures bound { IfSome result (λ n. n ≤ 100) }
{
    match codec {
        Codec::Opus => Some(opus_score(own, other)),
        Codec::H264 => h264_score(own, other),
        Codec::H265 => profile_score(
            profile_numbers(own.h265_profile_tier_level),
            profile_numbers(other.h265_profile_tier_level),
            own.profile_id,
            other.profile_id,
        ),
        Codec::H266 => profile_score(
            profile_numbers(own.h266_profile_tier_level),
            profile_numbers(other.h266_profile_tier_level),
            own.profile_id,
            other.profile_id,
        ),
        Codec::Vp9 => vp9_score(own, other),
        Codec::Av1 => av1_score(own, other),
        _ => None,
    }
}

/// The score of two specs of one codec at the same clock rate.
fn codec_score(own: &CodecSpec, other: &CodecSpec) -> Option<usize>
    ensures score { result ≡ codec_score own.now.codec own.now other.now }
    ensures bound { IfSome result (λ n. n ≤ 100) }
{
    match own.codec {
        Codec::Tele => Some(FULL_SCORE),
        Codec::AmrWb => amr_wb_score(own, other),
        codec if own.channels == other.channels => format_score(codec, &own.format, &other.format),
        _ => None,
    }
}

/// Whether two specs of one codec are equal. Most that meet are of H264 in two profiles, levels or modes: that is looked at
/// first, since the whole of two formats takes several times as long.
#[tactic(auto, using(crate::proofs::format::FormatParamsEqual::other_level, crate::proofs::format::FormatParamsEqual::other_mode))]
fn is_same_spec(own: &CodecSpec, other: &CodecSpec) -> bool
    ensures { result ≡ same_spec own.now other.now }
{
    own.format.profile_level_id == other.format.profile_level_id
        && own.format.packetization_mode == other.format.packetization_mode
        && *own == *other
}

/// The score of two specs: the first rule that applies. Equal ones fit in full, but for AMR-WB: whether they are equal is asked
/// last, since of most that are the codec's own rule says as much. It isn't inlined: to go over the rows of other codecs, which are
/// most, then takes few instructions.
#[inline(never)]
#[tactic(auto, using(crate::proofs::format::FormatParamsEqual::other_codec, crate::proofs::format::FormatParamsEqual::other_rate), unfolding(crate::specs::round::MatchScore::score))]
pub(crate) fn spec_score(own: &CodecSpec, other: &CodecSpec) -> Option<usize>
    ensures score { result ≡ score own.now other.now }
    ensures bound { IfSome result (λ n. n ≤ 100) }
{
    if own.codec == other.codec && own.clock_rate == other.clock_rate {
        match codec_score(own, other) {
            Some(FULL_SCORE) => Some(FULL_SCORE),
            _ if own.codec != Codec::AmrWb && is_same_spec(own, other) => Some(FULL_SCORE),
            points => points,
        }
    } else {
        None
    }
}
