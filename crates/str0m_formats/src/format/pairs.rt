//! Pairs of keys and values that are read together.
ghost use Rattle.std.specs.List.{list_any};
ghost use Rattle.std.specs.Prelude.{◌≡◌, IfOk, map};
ghost use Rattle.str0m_formats.specs.format.FormatParam.{pair_texts};
ghost use Rattle.str0m_formats.specs.format.FormatParamReading.{param_of};
ghost use Rattle.str0m_formats.specs.format.Pairs.{is_triple_mark, has_triple_mark, value_of_key, is_triple_key};
ghost use Rattle.str0m_formats.specs.format.PairsReading.{part_text_of, triple_read, joined_pairs_read, params_read};

use crate::format::format_key::{LEVEL_ID, PROFILE_ID, TIER_FLAG};
use crate::format::format_param::{FormatParam, param};
use crate::format::merged_pairs::{key_place, lowered_pairs, merge};
use std::alloc::{AllocError, Global};
use str0m_values::cuts::is_same_text;
use str0m_values::{H265ProfileTierLevel, H266ProfileTierLevel};

/// Whether the key is one that only a profile, tier and level have.
fn is_triple_mark(key: &str) -> bool
    ensures { result ≡ is_triple_mark key.now }
{
    is_same_text(key, TIER_FLAG) || is_same_text(key, LEVEL_ID)
}

fn any_triple_mark(pairs: &[(&str, &str)]) -> bool
    ensures { result ≡ list_any (λ pair. is_triple_mark pair.0.now) pairs.now }
{
    pairs.iter().any(|pair| is_triple_mark(pair.0))
}

#[tactic(auto, using(crate::proofs::format::PairsLaws::triple_marks_are))]
fn has_triple_mark(pairs: &[(&str, &str)]) -> bool
    ensures { result ≡ has_triple_mark (pair_texts pairs.now) }
{
    any_triple_mark(pairs)
}

/// The value of a key.
fn value_of_key<'a>(merged: &[(&str, &'a str)], key: &str) -> Option<&'a str>
    ensures { part_text_of result ≡ value_of_key key.now (pair_texts merged.now) }
{
    match key_place(merged, key) {
        Some(place) => Some(merged[place].1),
        None => None,
    }
}

/// The profile, tier and level of the three values: H265's where they name one, else H266's.
#[tactic(auto, using(crate::proofs::format::PairsTripleLaws::h265_is, crate::proofs::format::PairsTripleLaws::h266_is))]
fn triple(profile: Option<&str>, tier: Option<&str>, level: Option<&str>) -> Option<FormatParam>
    ensures { result ≡ triple_read (part_text_of profile.entry, part_text_of tier.entry, part_text_of level.entry) }
{
    if let Some(triple) = H265ProfileTierLevel::from_fmtp(profile, tier, level) {
        return Some(FormatParam::H265ProfileTierLevel(triple));
    }
    match H266ProfileTierLevel::from_fmtp(profile, tier, level) {
        Some(triple) => Some(FormatParam::H266ProfileTierLevel(triple)),
        None => None,
    }
}

/// Whether the key is one of the three of a profile, tier and level.
fn is_triple_key(key: &str) -> bool
    ensures { result ≡ is_triple_key key.now }
{
    key == PROFILE_ID || key == TIER_FLAG || key == LEVEL_ID
}

/// The parameter of each pair, in order.
fn each_param(alloc: Global, pairs: &[(&str, &str)]) -> Result<Vec<FormatParam>, AllocError>
    ensures { IfOk result (λ params. params.items ≡ map param_of (pair_texts pairs.now)) }
{
    let mut params = Vec::with_capacity(alloc, pairs.len())?;
    for (key, value) in pairs {
        params.push(param(key, value))?;
    }
    Ok(params)
}

/// The profile, tier and level of merged pairs, and the parameters of the others.
fn joined_params(alloc: Global, merged: &[(&str, &str)]) -> Result<Vec<FormatParam>, AllocError>
    ensures { IfOk result (λ params. params.items ≡ joined_pairs_read (pair_texts merged.now)) }
{
    let mut params = Vec::new(alloc);
    let triple = triple(
        value_of_key(merged, PROFILE_ID),
        value_of_key(merged, TIER_FLAG),
        value_of_key(merged, LEVEL_ID),
    );
    if let Some(triple) = triple {
        params.push(triple)?;
    }
    for (key, value) in merged {
        if !is_triple_key(key) {
            params.push(param(key, value))?;
        }
    }
    Ok(params)
}

/// What the pairs read as, together.
#[tactic(auto, unfolding(crate::specs::format::PairsReading::params_read, crate::specs::format::Pairs::pairs_merged))]
pub(crate) fn params(alloc: Global, pairs: &[(&str, &str)]) -> Result<Vec<FormatParam>, AllocError>
    ensures { IfOk result (λ params. params.items ≡ params_read (pair_texts pairs.now)) }
{
    if !has_triple_mark(pairs) {
        return each_param(alloc, pairs);
    }
    let lowered = lowered_pairs(alloc, pairs)?;
    let merged = merge(alloc, &lowered)?;
    joined_params(alloc, &merged)
}
