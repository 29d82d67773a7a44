//! What stands before a round: whether it may begin, and what is claimed then.
ghost use Rattle.std.specs.Prelude.{◌≡◌, ◌≤◌, ℕ, ◌++◌, [], if◌then◌else◌, find, nat_lt, Ok, Err, Some, OnOk, IfOk, IfErr};
ghost use Rattle.str0m_formats.specs.round.Claimed.{has, with_type, either_set};
ghost use Rattle.str0m_formats.specs.round.Claims.{claim_each};
ghost use Rattle.str0m_formats.specs.row.PayloadParams.{AllTypesSmall, types, types_of, locked_types, open_types};

use crate::round::claimed::Claimed;
use crate::round::claims::Claims;
use crate::round::negotiation_error::NegotiationError;
use crate::row::payload_params::PayloadParams;
use str0m_values::Pt;

/// The first type of a row above 127.
pub(crate) fn first_large_claim_of(row: &PayloadParams) -> Option<Pt>
    ensures { result ≡ find (nat_lt 127) (types_of row.now) }
{
    if row.pt.value() > 127 {
        return Some(row.pt);
    }
    if let Some(resend) = row.resend {
        if resend.value() > 127 {
            return Some(resend);
        }
    }
    row.red.filter(|pt| pt.value() > 127)
}

/// The first type of the rows above 127.
fn first_large_claim(rows: &[PayloadParams]) -> Option<Pt>
    ensures { result ≡ find (nat_lt 127) (types rows.now) }
{
    for row in rows {
        let large = first_large_claim_of(row);
        if large.is_some() {
            return large;
        }
    }
    None
}

/// Refuses a type above 127, of the rows before that of the other side's.
pub(crate) fn check_types(
    rows: &[PayloadParams],
    remote: &[PayloadParams],
) -> Result<(), NegotiationError>
    ensures ok { OnOk result (AllTypesSmall (types rows.now ++ types remote.now)) }
    ensures err { IfErr result (λ cause. (t : ℕ) × (find (nat_lt 127) (types rows.now ++ types remote.now) ≡ Some t) × (cause ≡ NegotiationError.TypeTooLarge t)) }
{
    match first_large_claim(rows).or(first_large_claim(remote)) {
        None => Ok(()),
        Some(pt) => Err(NegotiationError::TypeTooLarge(pt)),
    }
}

/// Adds a type to a set that may have it.
fn insert_beginning_type<C: Claimed>(set: &mut C, pt: Pt)
    requires { pt ≤ 127 }
    ensures { C.holds set.new ≡ with_type (C.holds set.old) pt }
{
    let _ = set.claim_once(pt);
}

/// Adds each type of a row to a set that may have it.
fn insert_row<C: Claimed>(set: &mut C, row: &PayloadParams)
    requires { AllTypesSmall (types_of row.now) }
    ensures { C.holds set.new ≡ either_set (C.holds set.old) (has (types_of row.now)) }
{
    insert_beginning_type(set, row.pt);
    if let Some(resend) = row.resend {
        insert_beginning_type(set, resend);
    }
    if let Some(red) = row.red {
        insert_beginning_type(set, red);
    }
}

/// Claims a type that must be new.
fn claim_new<C: Claimed>(set: &mut C, pt: Pt) -> Result<(), NegotiationError>
    requires { pt ≤ 127 }
    ensures value { result ≡ (if C.holds set.old pt then Err (NegotiationError.ClaimedTwice pt) else Ok tt) }
    ensures claimed { OnOk result (C.holds set.new ≡ with_type (C.holds set.old) pt) }
{
    if set.claim_once(pt) {
        Ok(())
    } else {
        Err(NegotiationError::ClaimedTwice(pt))
    }
}

/// Claims each type of a row, which must be new.
#[tactic(auto, unfolding(crate::specs::round::Claims::claim_each))]
fn claim_row<C: Claimed>(set: &mut C, row: &PayloadParams) -> Result<(), NegotiationError>
    requires { AllTypesSmall (types_of row.now) }
    ensures ok { OnOk result (claim_each (C.holds set.old) (types_of row.now) ≡ Ok (C.holds set.new)) }
    ensures err { IfErr result (λ cause. claim_each (C.holds set.old) (types_of row.now) ≡ Err cause) }
{
    claim_new(set, row.pt)?;
    if let Some(resend) = row.resend {
        claim_new(set, resend)?;
    }
    if let Some(red) = row.red {
        claim_new(set, red)?;
    }
    Ok(())
}

/// The claims before a round: the types of locked rows, each of which must be new, and those of open
/// rows.
pub(crate) fn claims_of<C: Claimed>(
    rows: &[PayloadParams],
    receives: bool,
) -> Result<Claims<C>, NegotiationError>
    requires { AllTypesSmall (types rows.now) }
    ensures claimed { IfOk result (λ claims. claim_each (has []) (locked_types rows.now) ≡ Ok (C.holds claims.claimed)) }
    ensures unlocked { IfOk result (λ claims. C.holds claims.unlocked ≡ has (open_types rows.now)) }
    ensures receives { IfOk result (λ claims. claims.receives ≡ receives) }
    ensures err { IfErr result (λ cause. claim_each (has []) (locked_types rows.now) ≡ Err cause) }
{
    let mut claimed = C::none_claimed();
    let mut unlocked = C::none_claimed();
    for row in rows {
        if row.locked {
            claim_row(&mut claimed, row)?;
        } else {
            insert_row(&mut unlocked, row);
        }
    }
    Ok(Claims {
        claimed,
        unlocked,
        receives,
    })
}
