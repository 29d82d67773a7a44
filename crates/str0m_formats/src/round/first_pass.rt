//! The first pass of a round: each row that is matched is locked.
ghost use Rattle.std.specs.Prelude.{◌≡◌, Ok, IfErr, IfSome, OnOk, not, ◌&&◌, if◌then◌else◌, true, option_copied};
ghost use Rattle.str0m_formats.specs.round.Claimed.{has, either_set};
ghost use Rattle.str0m_formats.specs.round.Narrowing.{narrowed};
ghost use Rattle.str0m_formats.specs.round.Rounds.{then_in_round, locked_to, placed, types_taken_by, RoundMayBegin, RoundBegun, StopsFirstPass};
ghost use Rattle.str0m_formats.specs.row.PayloadParams.{AllTypesSmall, types_of, locked_types, open_types};

use crate::round::claimed::Claimed;
use crate::round::claims::Claims;
use crate::round::narrowing::narrow;
use crate::round::negotiation_error::NegotiationError;
use crate::row::payload_params::PayloadParams;

/// Locks a row whose types are those that its choice gives it: the rest of it is what both agree on.
fn lock_agreed(row: &mut PayloadParams, choice: &PayloadParams)
    ensures { row.new ≡ record row.old {
      spec = narrowed row.old.spec choice.now.spec;
      fb_transport_cc = row.old.fb_transport_cc && choice.now.fb_transport_cc;
      locked = true;
    } }
{
    narrow(&mut row.spec, &choice.spec);
    row.fb_transport_cc = row.fb_transport_cc && choice.fb_transport_cc;
    row.locked = true;
}

impl<C: Claimed> Claims<C> {
    /// Locks an open row to its choice.
    #[tactic(auto, unfolding(crate::specs::round::Rounds::locked_to))]
    fn lock(
        &mut self,
        row: &mut PayloadParams,
        choice: &PayloadParams,
    ) -> Result<(), NegotiationError>
        requires row { AllTypesSmall (types_of row.old) }
        requires choice { AllTypesSmall (types_of choice.now) }
        ensures value { then_in_round result (λ _. Ok row.new)
            ≡ locked_to (C.holds self.old.claimed) (C.holds self.old.unlocked) self.old.receives row.old choice.now }
        ensures claimed { OnOk result
            (C.holds self.new.claimed ≡ either_set (C.holds self.old.claimed) (has (types_of row.new))) }
        ensures locked { OnOk result (row.new.locked ≡ true) }
        ensures unlocked { self.new.unlocked ≡ self.old.unlocked }
        ensures receives { self.new.receives ≡ self.old.receives }
    {
        // The primary type counts as taken for the RTX, and both for the RED.
        let pt = self.take(choice.pt, Some(row.pt))?;
        let resend = self.take_rtx(choice.resend, row.resend)?;
        let red = self.take_audio_red(row.spec.codec, choice.red, row.red);
        row.pt = pt;
        row.resend = resend;
        row.red = red;
        lock_agreed(row, choice);
        Ok(())
    }

    /// What a row is after the first pass, by its choice. A row that was locked keeps its types.
    #[tactic(auto, unfolding(crate::specs::round::Rounds::placed))]
    fn place(
        &mut self,
        row: &mut PayloadParams,
        choice: Option<&PayloadParams>,
    ) -> Result<(), NegotiationError>
        requires row { AllTypesSmall (types_of row.old) }
        requires choice { IfSome (option_copied choice) (λ c. AllTypesSmall (types_of c)) }
        ensures value { then_in_round result (λ _. Ok row.new)
            ≡ placed (C.holds self.old.claimed) (C.holds self.old.unlocked) self.old.receives row.old (option_copied choice.entry) }
        ensures claimed { OnOk result
            (C.holds self.new.claimed ≡ (if row.new.locked && not row.old.locked then either_set (C.holds self.old.claimed) (has (types_of row.new)) else C.holds self.old.claimed)) }
        ensures unlocked { self.new.unlocked ≡ self.old.unlocked }
        ensures receives { self.new.receives ≡ self.old.receives }
    {
        match choice {
            None => Ok(()),
            Some(choice) => {
                if row.locked {
                    narrow(&mut row.spec, &choice.spec);
                    Ok(())
                } else {
                    self.lock(row, choice)
                }
            }
        }
    }

    /// Matches each row with its choice, and locks it.
    pub(crate) fn lock_rows(
        &mut self,
        rows: &mut [PayloadParams],
        remote: &[PayloadParams],
    ) -> Result<(), NegotiationError>
        requires may { RoundMayBegin rows.old remote.now }
        requires claimed { C.holds self.old.claimed ≡ has (locked_types rows.old) }
        requires unlocked { C.holds self.old.unlocked ≡ has (open_types rows.old) }
        ensures ok { OnOk result (RoundBegun rows.old remote.now self.old.receives rows.new) }
        ensures claimed { OnOk result (C.holds self.new.claimed ≡ types_taken_by rows.old rows.new) }
        ensures unlocked { OnOk result (C.holds self.new.unlocked ≡ has (open_types rows.old)) }
        ensures err { IfErr result (StopsFirstPass rows.old remote.now self.old.receives) }
    {
        for row in rows.iter_mut() {
            let choice = self.choice(row, remote);
            self.place(row, choice)?;
        }
        Ok(())
    }
}
