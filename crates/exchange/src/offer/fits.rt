//! Whether an answer fits the offer of this side.
ghost use Rattle.exchange.specs.Prelude.{HoldsMids};
ghost use Rattle.exchange.specs.answer.Bundled.{IsBundledBy};
ghost use Rattle.exchange.specs.answer.InBundle.{bundle_names};
ghost use Rattle.exchange.specs.offer.Fits.{BreaksRule, BreaksRuleAt, BreaksRuleFirstAt, BundlesSo, FitsAt, FitsOffer, IsBundledSo, fit_section_name, unrejected_fit_names};
ghost use Rattle.std.specs.Prelude.{◌≡◌, ◌↔◌, ℕ, IfOk, IsTrue, MatchOption, filter_map, Some};

use crate::answer::bundled::{Bundled, bundle_shared_by};
use crate::answer::in_bundle::bundle_names;
use crate::offer::fits_section::broken_rule;
use crate::offer::names::{is_mid_held, ordered_names, push_name};
use crate::offer::rule::{Rule, RuleMisfit};
use crate::section::stopped::name_of;
use std::alloc::{AllocError, Global};
use std::collections::BTreeSet;
use str0m_signal::{CodecConfig, MediaLine, Mid, Sdp};

/// The first rule that the section at a place breaks.
fn offer_misfit_at(
    ours: &CodecConfig,
    offer: &Sdp,
    answer: &Sdp,
    bundled: &Bundled<'_>,
    at: usize,
) -> Result<Option<Rule>, AllocError>
    requires { IsBundledBy answer.now bundled.now }
    ensures { IfOk result (λ found. MatchOption found (FitsAt ours.now.params.items offer.now answer.now at) (BreaksRuleAt ours.now.params.items offer.now answer.now at)) }
{
    match (offer.media_lines.get(at), answer.media_lines.get(at)) {
        (Some(offered), Some(answered)) => broken_rule(ours, answer, bundled, offered, answered),
        _ => Ok(None),
    }
}

/// The first section that breaks a rule.
fn broken_section(
    alloc: Global,
    ours: &CodecConfig,
    offer: &Sdp,
    answer: &Sdp,
) -> Result<Option<RuleMisfit>, AllocError>
    ensures { IfOk result (λ found. MatchOption found ((at : ℕ) → FitsAt ours.now.params.items offer.now answer.now at)
        (λ misfit. BreaksRuleFirstAt ours.now.params.items offer.now answer.now misfit.section misfit.rule)) }
{
    let bundled = bundle_shared_by(alloc, answer)?;
    for section in 0..offer.media_lines.len() {
        if let Some(rule) = offer_misfit_at(ours, offer, answer, &bundled, section)? {
            return Ok(Some(RuleMisfit { section, rule }));
        }
    }
    Ok(None)
}

fn fit_section_name(section: &MediaLine) -> Option<Mid>
    ensures { result ≡ fit_section_name section.now }
{
    if section.disabled {
        None
    } else {
        name_of(section)
    }
}

/// The names of the sections that are accepted.
fn unrejected_fit_names(alloc: Global, sections: &[MediaLine]) -> Result<Vec<Mid>, AllocError>
    ensures { IfOk result (λ names. names.items ≡ filter_map fit_section_name sections.now) }
{
    let mut names = Vec::new(alloc);
    for section in sections {
        push_name(&mut names, fit_section_name(section))?;
    }
    Ok(names)
}

fn is_bundled_so(
    offer: &Sdp,
    answer: &Sdp,
    accepted: &BTreeSet<&str>,
    offered: &BTreeSet<&str>,
    mid: Mid,
) -> bool
    requires accepted { HoldsMids accepted.now (unrejected_fit_names answer.now) }
    requires offered { HoldsMids offered.now (bundle_names offer.now) }
    ensures { IsTrue result ↔ IsBundledSo offer.now answer.now mid }
{
    is_mid_held(accepted, Some(mid)) && is_mid_held(offered, Some(mid))
}

/// Whether the group of an answer lists accepted sections alone, and of those that the offer's group lists.
fn bundles_so(alloc: Global, offer: &Sdp, answer: &Sdp) -> Result<bool, AllocError>
    ensures { IfOk result (λ bundles. IsTrue bundles ↔ BundlesSo offer.now answer.now) }
{
    let names = unrejected_fit_names(alloc, answer.media_lines.as_slice())?;
    let accepted = ordered_names(alloc, names.as_slice())?;
    let offered = ordered_names(alloc, bundle_names(offer))?;
    let listed = bundle_names(answer);
    for mid in listed {
        if !is_bundled_so(offer, answer, &accepted, &offered, *mid) {
            return Ok(false);
        }
    }
    Ok(true)
}

/// What of an answer doesn't fit the offer of this side: a wrong number of sections, else the first section that breaks a
/// rule, with the first rule that it breaks, else the group. `ours` is the configuration after the rounds of the answer. The
/// only error is that memory was refused.
pub(crate) fn first_offer_misfit(
    alloc: Global,
    ours: &CodecConfig,
    offer: &Sdp,
    answer: &Sdp,
) -> Result<Option<RuleMisfit>, AllocError>
    ensures { IfOk result (λ found. MatchOption found (FitsOffer ours.now.params.items offer.now answer.now)
        (λ misfit. BreaksRule ours.now.params.items offer.now answer.now misfit.section misfit.rule)) }
{
    let (offered, answered) = (offer.media_lines.len(), answer.media_lines.len());
    if answered != offered {
        return Ok(Some(RuleMisfit {
            section: answered.min(offered),
            rule: Rule::Sections,
        }));
    }
    if let Some(misfit) = broken_section(alloc, ours, offer, answer)? {
        return Ok(Some(misfit));
    }
    if !bundles_so(alloc, offer, answer)? {
        return Ok(Some(RuleMisfit {
            section: answered,
            rule: Rule::Bundle,
        }));
    }
    Ok(None)
}
