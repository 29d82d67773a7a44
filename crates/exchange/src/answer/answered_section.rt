//! The sections of an answer.
ghost use Rattle.exchange.specs.Prelude.{HoldsMids, rows};
ghost use Rattle.exchange.specs.answer.AnsweredSection.{AnswersSection, SaysSectionChoice};
ghost use Rattle.exchange.specs.answer.InBundle.{bundle_names};
ghost use Rattle.exchange.specs.answer.Offered.{AreOfferRounds, BringsRound};
ghost use Rattle.exchange.specs.offer.Rules.{HasOfferedShape, IsAcceptedExactlyByRules, KeepsRules};
ghost use Rattle.std.specs.List.{AllZip};
ghost use Rattle.std.specs.Prelude.{◌≡◌, IfOk};

use crate::answer::accepted::{accepted_channels, accepted_media};
use crate::answer::choice::{Choice, choice_of};
use crate::answer::in_bundle::ordered_bundle;
use crate::answer::offered::rows_of_next;
use crate::answer::rejected_section::rejected;
use crate::state::own_side::OwnSide;
use std::alloc::{AllocError, Global};
use std::collections::BTreeSet;
use str0m_signal::{CodecConfig, Items, MediaLine, PayloadParams, Round, Sdp};

/// The section that says this choice.
fn section_of_choice(
    alloc: Global,
    own: &OwnSide,
    offer: &Sdp,
    offered: &MediaLine,
    choice: &Choice,
) -> Result<MediaLine, AllocError>
    ensures { IfOk result (SaysSectionChoice own.now offer.now offered.now choice.now) }
{
    match choice {
        Choice::Rejected => rejected(alloc, offered),
        Choice::Media(mid, rows) => {
            accepted_media(alloc, own, offer, offered, *mid, rows.as_slice())
        }
        Choice::Channels(mid, channels) => {
            accepted_channels(alloc, own, offer, offered, *mid, *channels)
        }
    }
}

/// The section that answers one, with `theirs` for its rows where it brings a round (RFC 3264, section 6; RFC 8829, section 5.3.1).
/// `group` has the names of the offer's group in order.
fn answered_section(
    alloc: Global,
    own: &OwnSide,
    config: &CodecConfig,
    offer: &Sdp,
    group: &BTreeSet<&str>,
    offered: &MediaLine,
    theirs: &[PayloadParams],
) -> Result<MediaLine, AllocError>
    requires group { HoldsMids group.now (bundle_names offer.now) }
    requires rows { BringsRound offer.now offered.now → theirs.now ≡ rows offered.now }
    ensures { IfOk result (AnswersSection own.now config.now.params.items offer.now offered.now) }
{
    let choice = choice_of(own, config, offer, group, offered, theirs)?;
    section_of_choice(alloc, own, offer, offered, &choice)
}

/// The sections that answer those of an offer with these rounds, in its order.
#[tactic(auto, using(std::proofs::lemmas::List::Elements::all_zip_more))]
fn each_answered(
    alloc: Global,
    own: &OwnSide,
    config: &CodecConfig,
    offer: &Sdp,
    rounds: &[Round],
) -> Result<Items<MediaLine>, AllocError>
    requires { AreOfferRounds offer.now offer.now.media_lines rounds.now }
    ensures { IfOk result (AllZip (AnswersSection own.now config.now.params.items offer.now) offer.now.media_lines) }
{
    let group = ordered_bundle(alloc, offer)?;
    let offered = offer.media_lines.as_slice();
    let mut sections = Vec::with_capacity(alloc, offered.len())?;
    let mut left = rounds;
    for section in offered {
        let (theirs, later) = rows_of_next(&group, offer, section, left);
        sections.push(answered_section(alloc, own, config, offer, &group, section, theirs)?)?;
        left = later;
    }
    Ok(Items::from(sections))
}

/// The sections that answer those of an offer, which keep the rules.
#[tactic(auto, using(crate::proofs::offer::RuleLaws::sections_keep, crate::proofs::offer::RuleLaws::sections_shape, crate::proofs::offer::RuleLaws::sections_exact))]
pub(crate) fn answered_sections(
    alloc: Global,
    own: &OwnSide,
    config: &CodecConfig,
    offer: &Sdp,
    rounds: &[Round],
) -> Result<Items<MediaLine>, AllocError>
    requires { AreOfferRounds offer.now offer.now.media_lines rounds.now }
    ensures answers { IfOk result (AllZip (AnswersSection own.now config.now.params.items offer.now) offer.now.media_lines) }
    ensures shape { IfOk result (AllZip HasOfferedShape offer.now.media_lines) }
    ensures exactly { IfOk result (AllZip (IsAcceptedExactlyByRules own.now config.now.params.items offer.now) offer.now.media_lines) }
    ensures rules { IfOk result (AllZip (KeepsRules own.now config.now.params.items offer.now) offer.now.media_lines) }
{
    each_answered(alloc, own, config, offer, rounds)
}
