//! The candidates of a whole description, each once.
ghost use Rattle.indexmap.specs.IndexSet.{insert_all};
ghost use Rattle.std.specs.Iterator.{YieldsFirstBy, item_count};
ghost use Rattle.std.specs.Prelude.{◌≡◌, OnOk};
ghost use Rattle.str0m_sdp.specs.session.Candidates.{candidates_left, same_candidate};
ghost use Rattle.str0m_sdp.specs.session.SeenCandidates.{AreCandidatesByKey, seen};

use crate::session::candidates::Candidates;
use crate::session::seen_candidates::SeenCandidates;
use std::alloc::AllocError;
use std::fmt;
use std::vec::IntoIter;
use str0m_values::Candidate;

/// Candidates in order of first appearance, each once.
#[derive(Drop)]
pub struct DistinctCandidates<'a> {
    pub(crate) left: IntoIter<&'a Candidate>,
}

/// The name of the type alone.
impl<'a> fmt::Debug for DistinctCandidates<'a> {
    fn fmt<W: fmt::Write>(&self, f: &mut fmt::Formatter<W>) -> fmt::Result {
        f.debug_struct("DistinctCandidates").finish_non_exhaustive()
    }
}

/// Adds those that aren't there yet, in order.
pub(crate) fn add_all_candidates<'a>(
    found: &mut SeenCandidates<'a>,
    candidates: Candidates<'a>,
) -> Result<(), AllocError>
    requires { AreCandidatesByKey found.old }
    ensures seen { OnOk result (seen found.new ≡ insert_all same_candidate (seen found.old) (candidates_left candidates.entry)) }
    ensures by_key { OnOk result (AreCandidatesByKey found.new) }
{
    for candidate in candidates {
        found.add(candidate)?;
    }
    Ok(())
}

/// It gives exactly those, each once, and then ends.
impl<'a> Iterator for DistinctCandidates<'a> {
    ghost use Rattle.str0m_sdp.specs.session.DistinctCandidates.{distinct_left};

    type Item = &'a Candidate;

    ghost next_gives = { YieldsFirstBy (λ candidate. candidate.now) distinct_left };

    ghost remaining = { item_count distinct_left };

    fn next(&mut self) -> Option<&'a Candidate> {
        self.left.next()
    }
}
