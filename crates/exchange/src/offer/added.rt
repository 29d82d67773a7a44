//! What is added to a session, and where an offer places it.
ghost use Rattle.exchange.specs.offer.Added.{placed_direction, offer_placed_under, with_offer_placed};
ghost use Rattle.std.specs.Prelude.{◌≡◌, IfOk};

use crate::state::own_side::SectionDirection;
use std::alloc::{AllocError, Global};
use str0m_signal::{Direction, Items, MediaKind, Mid};

/// What a section is added for.
#[derive(Clone, Copy, Debug, PartialEq, Eq)]
pub(crate) enum Added {
    /// Media of a kind, for which this side is ready in this direction.
    Media(MediaKind, Direction),
    /// Data channels.
    Channels,
}

/// What was added, with the name of the section in which an offer places it.
#[derive(Clone, Copy, Debug, PartialEq, Eq)]
pub(crate) struct AddedUnderMid {
    pub(crate) mid: Mid,
    pub(crate) added: Added,
}

/// What was added, each under its name.
pub(crate) fn offer_placed_under(
    alloc: Global,
    names: &[Mid],
    added: &[Added],
) -> Result<Vec<AddedUnderMid>, AllocError>
    ensures { IfOk result (λ placed. placed.items ≡ offer_placed_under names.now added.now) }
{
    let mut placed = Vec::new(alloc);
    let (mut left, mut more) = (names, added);
    while let Some((mid, later)) = left.split_first() {
        let Some((first, rest)) = more.split_first() else {
            return Ok(placed);
        };
        placed.push(AddedUnderMid {
            mid: *mid,
            added: *first,
        })?;
        left = later;
        more = rest;
    }
    Ok(placed)
}

fn placed_direction(placed: &AddedUnderMid) -> Option<SectionDirection>
    ensures { result ≡ placed_direction placed.now }
{
    match placed.added {
        Added::Media(_, direction) => Some(SectionDirection {
            mid: placed.mid,
            direction,
        }),
        Added::Channels => None,
    }
}

/// What this side is ready for, with that of what is placed after it.
pub(crate) fn with_offer_placed(
    alloc: Global,
    entries: &[SectionDirection],
    placed: &[AddedUnderMid],
) -> Result<Items<SectionDirection>, AllocError>
    ensures { IfOk result (λ after. after ≡ with_offer_placed entries.now placed.now) }
{
    let mut after = Vec::from_slice(alloc, entries)?;
    for it in placed {
        if let Some(entry) = placed_direction(it) {
            after.push(entry)?;
        }
    }
    Ok(Items::from(after))
}
