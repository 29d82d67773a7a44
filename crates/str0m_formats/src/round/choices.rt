//! Which row is chosen among several.
ghost use Rattle.std.specs.Prelude.{◌≡◌};
ghost use Rattle.str0m_formats.specs.round.Choices.{seen_best_choice, better_row, earlier_row, is_event_row};

use crate::row::payload_params::PayloadParams;
use str0m_values::Pt;

pub(crate) fn is_event_row(row: &PayloadParams, pt: Pt) -> bool
    ensures { result ≡ is_event_row pt row.now }
{
    row.pt() == pt && row.spec().codec.is_tele()
}

/// The best row so far, with its score, once one row more was seen: a later row of the same score
/// goes before an earlier one.
pub(crate) fn better_row<'a>(
    so_far: Option<(&'a PayloadParams, usize)>,
    row: &'a PayloadParams,
    score: Option<usize>,
) -> Option<(&'a PayloadParams, usize)>
    ensures { seen_best_choice result ≡ better_row (seen_best_choice so_far.entry) row.now score }
{
    match score {
        None => so_far,
        Some(points) => match so_far {
            Some((best, most)) if points < most => Some((best, most)),
            _ => Some((row, points)),
        },
    }
}

/// The best row so far, with its score, once one row more was seen that stands before the others: it goes before one of less score
/// alone.
pub(crate) fn earlier_row<'a>(
    so_far: Option<(&'a PayloadParams, usize)>,
    row: &'a PayloadParams,
    score: Option<usize>,
) -> Option<(&'a PayloadParams, usize)>
    ensures { seen_best_choice result ≡ earlier_row (seen_best_choice so_far.entry) row.now score }
{
    match score {
        None => so_far,
        Some(points) => match so_far {
            Some((best, most)) if points <= most => Some((best, most)),
            _ => Some((row, points)),
        },
    }
}
