//! The candidates of sessions and of sections.
ghost use Rattle.std.specs.Iterator.{YieldsFirstRef, item_count};
ghost use Rattle.std.specs.Prelude.{◌≡◌, [], ◌∷◌, MatchOption, filter_map};

use crate::attribute::{MediaAttribute, SessionAttribute};
use crate::session::transport::TransportAttribute;
use str0m_values::Candidate;

/// The first candidate, and the attributes after it.
fn first_candidate<'a, A: TransportAttribute>(attrs: &'a [A]) -> Option<(&'a Candidate, &'a [A])>
    ensures { MatchOption result
        (filter_map A.candidate attrs.now ≡ [])
        (λ found. filter_map A.candidate attrs.now ≡ found.0.now ∷ filter_map A.candidate found.1.now) }
{
    let mut left = attrs;
    while let Some((attr, more)) = left.split_first() {
        left = more;
        if let Some(candidate) = attr.as_candidate() {
            return Some((candidate, left));
        }
    }
    None
}

/// The candidates of a session or of a section, in attribute order (RFC 8839, section 5.1).
#[derive(Debug, Drop)]
pub struct Candidates<'a> {
    /// The attributes of the session that are still to be looked at, before those of the section.
    pub(crate) session: &'a [SessionAttribute],
    /// Those of the section.
    pub(crate) media: &'a [MediaAttribute],
}

/// It gives exactly those, and then ends.
impl<'a> Iterator for Candidates<'a> {
    ghost use Rattle.str0m_sdp.specs.session.Candidates.{candidates_left};

    type Item = &'a Candidate;

    ghost next_gives = { YieldsFirstRef candidates_left };

    ghost remaining = { item_count candidates_left };

    fn next(&mut self) -> Option<&'a Candidate> {
        if let Some((candidate, left)) = first_candidate(self.session) {
            self.session = left;
            return Some(candidate);
        }
        let (candidate, left) = first_candidate(self.media)?;
        self.media = left;
        Some(candidate)
    }
}
