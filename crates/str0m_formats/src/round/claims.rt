//! What a round has claimed: which remote row a row then goes with, and which types it may take.
ghost use Rattle.std.specs.Bool.{OnTrue, OnFalse};
ghost use Rattle.std.specs.Prelude.{◌≡◌, ◌≤◌, IfOk, IfSome, not, option_copied};
ghost use Rattle.str0m_formats.specs.codec.Codec.{codec_content};
ghost use Rattle.str0m_formats.specs.round.Choices.{choice_points_for, IsChoice};
ghost use Rattle.str0m_formats.specs.round.Claimed.{with_type, claimed_with_option, either_set, free};
ghost use Rattle.str0m_formats.specs.round.Rounds.{role_type, own_or_free_claim, rtx_type, red_type, round_red_of_audio};

use crate::codec::Codec;
use crate::round::choices::earlier_row;
use crate::round::claimed::Claimed;
use crate::round::match_score::FULL_SCORE;
use crate::round::negotiation_error::NegotiationError;
use crate::row::payload_params::PayloadParams;
use str0m_values::Pt;

/// What a round has claimed so far.
///
/// The types of rows that were open before the round stay the same all through it: a type that one row
/// gives up isn't given to another in the same round.
#[derive(Clone, Copy)]
pub(crate) struct Claims<C> {
    /// The types that are taken.
    pub(crate) claimed: C,
    /// The types of rows that were open before the round.
    pub(crate) unlocked: C,
    /// Whether the other side receives.
    pub(crate) receives: bool,
}

impl<C: Claimed> Claims<C> {
    /// The score of a remote row for a row; none where it doesn't match or is left aside.
    #[tactic(auto, using(crate::proofs::format::FormatParamsEqual::other_codec), unfolding(crate::specs::round::Choices::choice_points_for, crate::specs::round::MatchScore::score))]
    fn points(&self, row: &PayloadParams, theirs: &PayloadParams) -> Option<usize>
        ensures { result ≡ choice_points_for (C.holds self.now.claimed) self.now.receives row.now theirs.now }
    {
        // Most rows are of another codec, which takes less to see than to call for a score.
        if row.spec.codec != theirs.spec.codec {
            return None;
        }
        let points = row.match_score(theirs)?;
        // Asked of a row that matches, which few do.
        let is_left_aside = matches!(row.spec.codec, Codec::AmrWb)
            && !row.locked
            && self.receives
            && self.claimed.is_claimed(theirs.pt);
        if is_left_aside { None } else { Some(points) }
    }

    /// The last of the remote rows of greatest score: they are gone over from the last one on, and no further than one that fits in full.
    pub(crate) fn choice<'a>(
        &self,
        row: &PayloadParams,
        remote: &'a [PayloadParams],
    ) -> Option<&'a PayloadParams>
        ensures { IsChoice (choice_points_for (C.holds self.now.claimed) self.now.receives row.now) remote.now (option_copied result) }
    {
        let mut best = None;
        let mut rest = remote;
        while let Some((theirs, front)) = rest.split_last() {
            let points = self.points(row, theirs);
            // None of those in front of it has more.
            if let Some(FULL_SCORE) = points {
                return Some(theirs);
            }
            best = earlier_row(best, theirs, points);
            rest = front;
        }
        match best {
            Some((theirs, _)) => Some(theirs),
            None => None,
        }
    }

    /// Claims a type; false, and nothing is claimed, where it is taken.
    fn claim(&mut self, pt: Pt) -> bool
        requires { pt ≤ 127 }
        ensures answer { result ≡ not (C.holds self.old.claimed pt) }
        ensures yes { OnTrue result (C.holds self.new.claimed ≡ with_type (C.holds self.old.claimed) pt) }
        ensures no { OnFalse result (C.holds self.new.claimed ≡ C.holds self.old.claimed) }
        ensures unlocked { self.new.unlocked ≡ self.old.unlocked }
        ensures receives { self.new.receives ≡ self.old.receives }
    {
        self.claimed.claim_once(pt)
    }

    /// The type of a role that is locked: the one asked for where it isn't taken.
    #[tactic(auto, unfolding(crate::specs::round::Rounds::role_type))]
    pub(crate) fn take(&mut self, asked: Pt, own: Option<Pt>) -> Result<Pt, NegotiationError>
        requires asked { asked ≤ 127 }
        requires own { IfSome own (λ t. t ≤ 127) }
        ensures value { result
            ≡ role_type (C.holds self.old.claimed) (C.holds self.old.unlocked) self.old.receives asked own }
        ensures claimed { IfOk result (λ t. C.holds self.new.claimed ≡ with_type (C.holds self.old.claimed) t) }
        ensures unlocked { self.new.unlocked ≡ self.old.unlocked }
        ensures receives { self.new.receives ≡ self.old.receives }
    {
        if self.claim(asked) {
            return Ok(asked);
        }
        if self.receives {
            return Err(NegotiationError::ClaimedTwice(asked));
        }
        self.take_own_or_free(own)
    }

    /// A row's own type where it isn't taken, else a free one.
    fn take_own_or_free(&mut self, own: Option<Pt>) -> Result<Pt, NegotiationError>
        requires { IfSome own (λ t. t ≤ 127) }
        ensures value { result ≡ own_or_free_claim (C.holds self.old.claimed) (C.holds self.old.unlocked) own }
        ensures claimed { IfOk result (λ t. C.holds self.new.claimed ≡ with_type (C.holds self.old.claimed) t) }
        ensures unlocked { self.new.unlocked ≡ self.old.unlocked }
        ensures receives { self.new.receives ≡ self.old.receives }
    {
        match own {
            None => self.take_free().ok_or(NegotiationError::Exhausted),
            Some(own) => {
                if self.claim(own) {
                    Ok(own)
                } else {
                    self.take_free().ok_or(NegotiationError::Exhausted)
                }
            }
        }
    }

    /// Claims the first free type.
    pub(crate) fn take_free(&mut self) -> Option<Pt>
        ensures value { result ≡ free (either_set (C.holds self.old.claimed) (C.holds self.old.unlocked)) }
        ensures claimed { C.holds self.new.claimed ≡ claimed_with_option (C.holds self.old.claimed) result }
        ensures unlocked { self.new.unlocked ≡ self.old.unlocked }
        ensures receives { self.new.receives ≡ self.old.receives }
    {
        let pt = self.claimed.find_unclaimed(&self.unlocked)?;
        let _ = self.claimed.claim_once(pt);
        Some(pt)
    }

    /// The RTX type of a row that is locked: none where none is asked for.
    #[tactic(auto, unfolding(crate::specs::round::Rounds::rtx_type))]
    pub(crate) fn take_rtx(
        &mut self,
        asked: Option<Pt>,
        own: Option<Pt>,
    ) -> Result<Option<Pt>, NegotiationError>
        requires asked { IfSome asked (λ t. t ≤ 127) }
        requires own { IfSome own (λ t. t ≤ 127) }
        ensures value { result
            ≡ rtx_type (C.holds self.old.claimed) (C.holds self.old.unlocked) self.old.receives asked own }
        ensures claimed { IfOk result (λ t. C.holds self.new.claimed ≡ claimed_with_option (C.holds self.old.claimed) t) }
        ensures unlocked { self.new.unlocked ≡ self.old.unlocked }
        ensures receives { self.new.receives ≡ self.old.receives }
    {
        match asked {
            None => Ok(None),
            Some(asked) => {
                let pt = self.take(asked, own)?;
                Ok(Some(pt))
            }
        }
    }

    /// The RED type of a row that is locked; it is never a cause.
    #[tactic(auto, unfolding(crate::specs::round::Rounds::red_type))]
    fn take_red(&mut self, asked: Option<Pt>, own: Option<Pt>) -> Option<Pt>
        requires { IfSome asked (λ t. t ≤ 127) }
        ensures value { result
            ≡ red_type (C.holds self.old.claimed) (C.holds self.old.unlocked) self.old.receives asked own }
        ensures claimed { C.holds self.new.claimed ≡ claimed_with_option (C.holds self.old.claimed) result }
        ensures unlocked { self.new.unlocked ≡ self.old.unlocked }
        ensures receives { self.new.receives ≡ self.old.receives }
    {
        match (asked, own) {
            (Some(asked), Some(_)) => {
                if self.claim(asked) {
                    return Some(asked);
                }
                if self.receives {
                    return None;
                }
                self.take_free()
            }
            _ => None,
        }
    }

    /// The RED type of a row of a codec that is locked: a RED goes with audio alone (RFC 2198).
    pub(crate) fn take_audio_red(
        &mut self,
        codec: Codec,
        asked: Option<Pt>,
        own: Option<Pt>,
    ) -> Option<Pt>
        requires { IfSome asked (λ t. t ≤ 127) }
        ensures value { result
            ≡ round_red_of_audio (codec_content codec) (red_type (C.holds self.old.claimed) (C.holds self.old.unlocked) self.old.receives asked own) }
        ensures claimed { C.holds self.new.claimed ≡ claimed_with_option (C.holds self.old.claimed) result }
        ensures unlocked { self.new.unlocked ≡ self.old.unlocked }
        ensures receives { self.new.receives ≡ self.old.receives }
    {
        if codec.is_audio() {
            self.take_red(asked, own)
        } else {
            None
        }
    }
}
