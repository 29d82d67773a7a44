//! What comes of a row of the other side in a round.
ghost use Rattle.lint.specs.Fates.{AreRowPartners, IsRowPartner, accepted_fate, fate, fits_some_row, fitting_fate, has_row_of_codec, row_has_type, row_blocks_type, is_row_type_taken};
ghost use Rattle.std.specs.List.{list_any};
ghost use Rattle.std.specs.Prelude.{◌≡◌, IfOk, length};
ghost use Rattle.str0m_sdp.specs.section.Companions.{is_type};

use crate::code::Fate;
use std::alloc::{AllocError, Global};
use str0m_formats::{Codec, CodecConfig, NegotiationError, PayloadParams};
use str0m_values::Pt;

/// A round that was run: the rows of this side before it and after it, those of the other side, whether that receives, and what the
/// round came to.
#[derive(Drop)]
pub(crate) struct RanRound<'a> {
    pub(crate) before: &'a [PayloadParams],
    pub(crate) after: &'a [PayloadParams],
    pub(crate) theirs: &'a CodecConfig,
    pub(crate) receives: bool,
    pub(crate) outcome: Result<(), NegotiationError>,
}

/// Whether a row of these fits.
fn fits_some_row(rows: &[PayloadParams], theirs: &PayloadParams) -> bool
    ensures { result ≡ fits_some_row rows.now theirs.now }
{
    rows.iter().any(|row| row.match_score(theirs).is_some())
}

/// Whether a row of these has the codec.
fn has_row_of_codec(rows: &[PayloadParams], codec: Codec) -> bool
    ensures { result ≡ has_row_of_codec rows.now codec }
{
    rows.iter().any(|row| row.spec().codec == codec)
}

/// Whether it is this payload type.
pub(crate) fn is_type(pt: Pt, found: Option<Pt>) -> bool
    ensures { result ≡ is_type pt found }
{
    match found {
        Some(it) => it == pt,
        None => false,
    }
}

/// Whether a row has a payload type, in whatever role.
pub(crate) fn row_has_type(row: &PayloadParams, pt: Pt) -> bool
    ensures { result ≡ row_has_type row.now pt }
{
    row.pt() == pt || is_type(pt, row.resend()) || is_type(pt, row.red())
}

/// Whether a row is locked, doesn't fit, and has the type.
#[tactic(auto, unfolding(crate::specs::Fates::row_blocks_type))]
fn row_blocks_type(row: &PayloadParams, theirs: &PayloadParams) -> bool
    ensures { result ≡ row_blocks_type theirs.now row.now }
{
    row.locked() && row_has_type(row, theirs.pt()) && row.match_score(theirs).is_none()
}

/// Whether a locked row that doesn't fit this one has its type.
fn some_row_blocks_type(rows: &[PayloadParams], theirs: &PayloadParams) -> bool
    ensures { result ≡ list_any (row_blocks_type theirs.now) rows.now }
{
    rows.iter().any(|row| row_blocks_type(row, theirs))
}

/// Whether a row goes with that of this type.
fn has_row_partner(partners: &[Option<Pt>], pt: Pt) -> bool
    ensures { result ≡ list_any (is_type pt) partners.now }
{
    partners.iter().any(|partner| is_type(pt, *partner))
}

impl<'a> RanRound<'a> {
    /// The type of the row of the other side with which a row goes, as the round has left it: none where it stays open. Where it was
    /// open and the other side receives, it has that type now; else it is that of its choice.
    fn partner(&self, old: &PayloadParams, new: &PayloadParams) -> Option<Pt>
        ensures { IsRowPartner self.now.theirs.now.params.items self.now.receives old.now new.now result }
    {
        let choice = self.theirs.match_params(*old);
        if !new.locked() {
            return None;
        }
        if self.receives && !old.locked() {
            return Some(new.pt());
        }
        match choice {
            Some(choice) => Some(choice.pt()),
            None => None,
        }
    }

    /// The types of the rows of the other side with which the rows go, in order.
    pub(crate) fn partners(&self, alloc: Global) -> Result<Vec<Option<Pt>>, AllocError>
        ensures { length self.now.before.now ≡ length self.now.after.now → IfOk result (λ partners. AreRowPartners self.now.theirs.now.params.items self.now.receives self.now.before.now self.now.after.now partners.items) }
    {
        let mut partners = Vec::new(alloc);
        let count = self.before.len().min(self.after.len());
        for i in 0..count {
            partners.push(self.partner(&self.before[i], &self.after[i]))?;
        }
        Ok(partners)
    }

    /// Whether the other side receives, and a locked row that doesn't fit this one has its type.
    fn is_taken(&self, theirs: &PayloadParams) -> bool
        ensures { result ≡ is_row_type_taken self.now.receives self.now.after.now theirs.now }
    {
        self.receives && some_row_blocks_type(self.after, theirs)
    }

    /// What comes of a row that fits, where the round is accepted.
    fn accepted(&self, partners: &[Option<Pt>], theirs: &PayloadParams) -> Fate
        ensures { result ≡ accepted_fate self.now.receives self.now.after.now partners.now theirs.now }
    {
        if has_row_partner(partners, theirs.pt()) {
            Fate::Locked
        } else if self.is_taken(theirs) {
            Fate::TakenType
        } else {
            Fate::OtherRow
        }
    }

    /// What comes of a row that fits, by the types with which rows go; nothing where the round is refused for something else.
    fn fitting(&self, partners: &[Option<Pt>], theirs: &PayloadParams) -> Option<Fate>
        ensures { result ≡ fitting_fate self.now.receives self.now.after.now self.now.outcome partners.now theirs.now }
    {
        match self.outcome {
            Ok(()) => Some(self.accepted(partners, theirs)),
            Err(NegotiationError::ClaimedTwice(pt)) => if row_has_type(theirs, pt) {
                Some(Fate::TakenType)
            } else {
                None
            },
            Err(NegotiationError::TypeTooLarge(_)) => None,
            Err(NegotiationError::Exhausted) => None,
            Err(NegotiationError::Memory) => None,
        }
    }

    /// What comes of a row.
    pub(crate) fn fate(&self, partners: &[Option<Pt>], theirs: &PayloadParams) -> Option<Fate>
        ensures { result ≡ fate self.now.before.now self.now.receives self.now.after.now self.now.outcome partners.now theirs.now }
    {
        if fits_some_row(self.before, theirs) {
            self.fitting(partners, theirs)
        } else if has_row_of_codec(self.before, theirs.spec().codec) {
            Some(Fate::OtherFormat)
        } else {
            Some(Fate::NoCodec)
        }
    }
}
