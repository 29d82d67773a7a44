//! Candidates, each once, in order of first appearance.
ghost use Rattle.indexmap.specs.IndexSet.{insert_key};
ghost use Rattle.std.specs.Prelude.{◌≡◌, [], OnOk};
ghost use Rattle.str0m_sdp.specs.session.Candidates.{same_candidate};
ghost use Rattle.str0m_sdp.specs.session.SeenCandidates.{AreCandidatesByKey, seen};

use crate::session::candidate_key::{CandidateKey, key_of};
use std::alloc::{AllocError, Global};
use std::collections::BTreeSet;
use std::vec::IntoIter;
use str0m_values::Candidate;

/// The candidates that were seen, each once, and their keys, by which one is found.
#[derive(Drop)]
pub(crate) struct SeenCandidates<'a> {
    keys: BTreeSet<CandidateKey<'a>>,
    once: Vec<&'a Candidate>,
}

impl<'a> SeenCandidates<'a> {
    ghost use Rattle.std.specs.Prelude.{map};
    ghost use Rattle.std.specs.Vec.Iter.{into_iter_items};

    /// None was seen. Takes no memory.
    pub(crate) fn new(alloc: Global) -> SeenCandidates<'a>
        ensures none { seen result ≡ [] }
        ensures by_key { AreCandidatesByKey result }
    {
        SeenCandidates {
            keys: BTreeSet::new(alloc),
            once: Vec::new(alloc),
        }
    }

    /// One more, which joins the others where it isn't among them.
    pub(crate) fn add(&mut self, candidate: &'a Candidate) -> Result<(), AllocError>
        requires { AreCandidatesByKey self.old }
        ensures seen { OnOk result (seen self.new ≡ insert_key same_candidate (seen self.old) candidate.now) }
        ensures by_key { OnOk result (AreCandidatesByKey self.new) }
    {
        if self.keys.insert(key_of(candidate))? {
            self.once.push(candidate)?;
        }
        Ok(())
    }

    /// Those that were seen.
    pub(crate) fn into_iter(self) -> IntoIter<&'a Candidate>
        ensures { map (λ c. c.now) (into_iter_items result) ≡ seen self.entry }
    {
        self.once.into_iter()
    }
}
