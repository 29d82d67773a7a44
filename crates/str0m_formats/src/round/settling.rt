//! The second pass of a round: a row that is still open gives up each type that a locked row has.
ghost use Rattle.std.specs.Prelude.{◌≡◌, ℕ, Ok, IfOk, IfErr, IfSome, OnOk, if◌then◌else◌, true, false, Some, slice_get};
ghost use Rattle.str0m_formats.specs.declared.row.payload_params.PayloadParams.{PayloadParams};
ghost use Rattle.str0m_formats.specs.round.Claimed.{TypeSet, has, claimed_with_option, either_set};
ghost use Rattle.str0m_formats.specs.round.Claims.{ClaimsServe};
ghost use Rattle.str0m_formats.specs.round.Rounds.{then_in_round, kept_or_free_claim, kept_red, kept_rtx, settled_row, Settled, StopsSettling};
ghost use Rattle.str0m_formats.specs.row.PayloadParams.{types_of, locked_types};

use crate::round::claimed::Claimed;
use crate::round::claims::Claims;
use crate::round::negotiation_error::NegotiationError;
use crate::row::payload_params::PayloadParams;
use str0m_values::Pt;

// A type that a row keeps isn't claimed: it was open before the round, so it isn't free for another row
// anyway. A type that a row is given is claimed, and wasn't open before. So among the types that were
// open before, the claimed ones are those of locked rows, all through the pass.
impl<C: Claimed> Claims<C> {
    /// A type of an open row: kept where no locked row has it, else the first free one.
    fn keep(&mut self, pt: Pt) -> Option<Pt>
        requires { C.holds self.old.unlocked pt ≡ true }
        ensures value { (locked taken : TypeSet) → ClaimsServe (C.holds self.old.claimed) (C.holds self.old.unlocked) locked taken
            → result ≡ kept_or_free_claim locked taken (C.holds self.old.unlocked) pt }
        ensures claimed { (locked taken : TypeSet) → ClaimsServe (C.holds self.old.claimed) (C.holds self.old.unlocked) locked taken
            → ClaimsServe (C.holds self.new.claimed) (C.holds self.old.unlocked) locked (claimed_with_option taken result) }
        ensures unlocked { self.new.unlocked ≡ self.old.unlocked }
    {
        if self.claimed.is_claimed(pt) {
            return self.take_free();
        }
        Some(pt)
    }

    /// The RED type of an open row: none where no type is free for it.
    fn keep_red(&mut self, red: Option<Pt>) -> Option<Pt>
        requires { IfSome red (λ t. C.holds self.old.unlocked t ≡ true) }
        ensures value { (locked taken : TypeSet) → ClaimsServe (C.holds self.old.claimed) (C.holds self.old.unlocked) locked taken
            → result ≡ kept_red locked taken (C.holds self.old.unlocked) red }
        ensures claimed { (locked taken : TypeSet) → ClaimsServe (C.holds self.old.claimed) (C.holds self.old.unlocked) locked taken
            → ClaimsServe (C.holds self.new.claimed) (C.holds self.old.unlocked) locked (claimed_with_option taken result) }
        ensures unlocked { self.new.unlocked ≡ self.old.unlocked }
    {
        match red {
            None => None,
            Some(red) => self.keep(red),
        }
    }

    /// The RTX type of an open row.
    fn keep_rtx(&mut self, resend: Option<Pt>) -> Result<Option<Pt>, NegotiationError>
        requires { IfSome resend (λ t. C.holds self.old.unlocked t ≡ true) }
        ensures value { (locked taken : TypeSet) → ClaimsServe (C.holds self.old.claimed) (C.holds self.old.unlocked) locked taken
            → result ≡ kept_rtx locked taken (C.holds self.old.unlocked) resend }
        ensures claimed { (locked taken : TypeSet) → ClaimsServe (C.holds self.old.claimed) (C.holds self.old.unlocked) locked taken
            → IfOk result (λ t. ClaimsServe (C.holds self.new.claimed) (C.holds self.old.unlocked) locked (claimed_with_option taken t)) }
        ensures unlocked { self.new.unlocked ≡ self.old.unlocked }
    {
        match resend {
            None => Ok(None),
            Some(resend) => {
                let pt = self.keep(resend).ok_or(NegotiationError::Exhausted)?;
                Ok(Some(pt))
            }
        }
    }

    /// What a row is after the second pass: primary, RED, RTX in this order.
    fn settle(&mut self, row: &mut PayloadParams) -> Result<(), NegotiationError>
        requires { row.old.locked ≡ false → (t : ℕ) → has (types_of row.old) t ≡ true → C.holds self.old.unlocked t ≡ true }
        ensures value { (locked taken : TypeSet) → ClaimsServe (C.holds self.old.claimed) (C.holds self.old.unlocked) locked taken
            → then_in_round result (λ _. Ok row.new) ≡ settled_row locked taken (C.holds self.old.unlocked) row.old }
        ensures claimed { (locked taken : TypeSet) → ClaimsServe (C.holds self.old.claimed) (C.holds self.old.unlocked) locked taken
            → OnOk result (ClaimsServe (C.holds self.new.claimed) (C.holds self.old.unlocked) locked
            (if row.old.locked then taken else either_set taken (has (types_of row.new)))) }
        ensures unlocked { self.new.unlocked ≡ self.old.unlocked }
    {
        if row.locked {
            return Ok(());
        }
        let pt = self.keep(row.pt).ok_or(NegotiationError::Exhausted)?;
        let red = self.keep_red(row.red);
        let resend = self.keep_rtx(row.resend)?;
        row.pt = pt;
        row.resend = resend;
        row.red = red;
        Ok(())
    }

    /// Gives each open row types that no locked row has.
    pub(crate) fn settle_rows(&mut self, rows: &mut [PayloadParams]) -> Result<(), NegotiationError>
        requires open { (i : ℕ) (row : PayloadParams) → slice_get rows.old i ≡ Some row → row.locked ≡ false
            → (t : ℕ) → has (types_of row) t ≡ true → C.holds self.old.unlocked t ≡ true }
        requires claimed { C.holds self.old.claimed ≡ has (locked_types rows.old) }
        ensures ok { OnOk result (Settled (C.holds self.old.unlocked) rows.old rows.new) }
        ensures err { IfErr result (StopsSettling (C.holds self.old.unlocked) rows.old) }
    {
        for row in rows.iter_mut() {
            self.settle(row)?;
        }
        Ok(())
    }
}
