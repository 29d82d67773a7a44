//! The names of what is added to a session.
ghost use Rattle.exchange.specs.Prelude.{AreMidsDistinct, HoldsMids, is_mid_held, is_group_listed};
ghost use Rattle.exchange.specs.declared.state.exchange_error.ExchangeError.TheVariants.{Memory, NoName};
ghost use Rattle.exchange.specs.offer.FreshNames.{AreAllNameNumbersTaken, AreFresh, AreFreshNamesTooFew, IsNextFreshNumber};
ghost use Rattle.std.specs.Prelude.{◌≡◌, ◌<◌, ◌⊎◌, ◌^◌, false, All, IfErr, IfOk, MatchOption, ℕ, Some, decimal, length};

use crate::offer::names::ordered_names;
use crate::state::exchange_error::ExchangeError;
use std::alloc::{AllocError, Global};
use std::collections::BTreeSet;
use str0m_signal::{Items, Mid};

/// Sections are named by numbers below this one.
const NAME_NUMBERS: u64 = 0x1_0000_0000;

fn is_name_number_taken(
    alloc: Global,
    held: &BTreeSet<&str>,
    number: u64,
) -> Result<bool, AllocError>
    ensures { IfOk result (λ answer. answer ≡ is_mid_held held.now (Some (decimal number))) }
{
    let name = format!(in alloc; "{number}")?;
    Ok(held.contains(name.as_str()))
}

/// The least number from one on that names no section.
fn next_fresh_number(
    alloc: Global,
    taken: &[Mid],
    held: &BTreeSet<&str>,
    from: u64,
) -> Result<Option<u64>, AllocError>
    requires { HoldsMids held.now taken.now }
    ensures { IfOk result (λ found. MatchOption found (AreAllNameNumbersTaken taken.now from) (IsNextFreshNumber taken.now from)) }
{
    for number in from..NAME_NUMBERS {
        if !is_name_number_taken(alloc, held, number)? {
            return Ok(Some(number));
        }
    }
    Ok(None)
}

#[tactic(auto, using(crate::proofs::offer::FreshNamesLaws::short_name))]
fn number_name(alloc: Global, number: u64) -> Result<Mid, AllocError>
    ensures { number < 2 ^ 32 → IfOk result (λ name. name ≡ decimal number) }
{
    let name = format!(in alloc; "{number}")?;
    Ok(Mid::from(name.as_str()))
}

/// So many names, each the least number that is none of the taken names and that isn't given before. Numbers have 32 bits:
/// `NoName` where none is left. The taken names are put in an ordered set, so that a stranger's choice of many costs no more.
#[tactic(auto, using(crate::proofs::offer::FreshNamesLaws::fresh_more, crate::proofs::offer::FreshNamesLaws::fresh_new, crate::proofs::offer::FreshNamesLaws::fresh_distinct))]
pub(crate) fn fresh_names(
    alloc: Global,
    taken: &[Mid],
    count: usize,
) -> Result<Items<Mid>, ExchangeError>
    ensures fresh { IfOk result (λ names. (to : ℕ) × AreFresh taken.now 0 names to) }
    ensures as_many { IfOk result (λ names. length names ≡ count) }
    ensures new { IfOk result (All (λ name. is_group_listed taken.now (Some name) ≡ false)) }
    ensures different { IfOk result AreMidsDistinct }
    ensures refused { IfErr result (λ error. (error ≡ Memory) ⊎ ((error ≡ NoName) × AreFreshNamesTooFew taken.now count)) }
{
    let held = ordered_names(alloc, taken)?;
    let mut names = Items::empty(alloc);
    let mut from = 0;
    while names.len() < count {
        let Some(number) = next_fresh_number(alloc, taken, &held, from)? else {
            return Err(ExchangeError::NoName);
        };
        names.push(number_name(alloc, number)?)?;
        from = number + 1;
    }
    Ok(names)
}
