//! Tables of claimed payload types.
ghost use Rattle.std.specs.Prelude.{◌≡◌, ◌==◌, ◌||◌, ◌&&◌, ◌<◌, ℕ, Bool, false, not, nat_le, find, slice_index_or};
ghost use Rattle.str0m_formats.specs.round.Claimed.{free, range_types};

use str0m_values::Pt;

/// A set of payload types from 0 to 127, in which a round of negotiation keeps what is claimed.
pub trait Claimed: Copy {
    /// Whether a type stands in the set.
    ghost holds: { Self → ℕ → Bool };

    /// The empty set.
    fn none_claimed() -> Self
        ensures { (t : ℕ) → holds result t ≡ false };

    /// Claims a type: true where it is at most 127 and wasn't in the set; it then is. Else false, and
    /// the set is as it was.
    fn claim_once(&mut self, pt: Pt) -> bool
        ensures answer { result ≡ nat_le pt 127 && not (holds self.old pt) }
        ensures claimed { (t : ℕ) → holds self.new t ≡ holds self.old t || (result && pt == t) };

    /// Whether the type stands in the set. None above 127 does in a set that these calls made, since
    /// `none_claimed` has none and `claim_once` adds none.
    fn is_claimed(&self, pt: Pt) -> bool
        ensures { result ≡ holds self.now pt };

    /// The first type that is in neither set, in the order in which types are given: 96 to 127,
    /// 80 to 95, 77 to 78, 35 to 71. `None` where all 87 are in use.
    fn find_unclaimed(&self, unlocked: &Self) -> Option<Pt>
        ensures { result ≡ free (λ t. holds self.now t || holds unlocked.now t) };
}

/// The types that a round may give, in this order: each range with its first and its last type. First
/// come those that RTP leaves to each session, then some that no profile assigns (RFC 3551, section 6).
const PREFERRED_CLAIM_RANGES: [(u8, u8); 4] = [(96, 127), (80, 95), (77, 78), (35, 71)];

/// The first type from `first` to `last` that is in neither table.
fn first_unclaimed_in(
    claimed: &[bool; 128],
    unlocked: &[bool; 128],
    first: u8,
    last: u8,
) -> Option<Pt>
    requires { last < 128 }
    ensures { result
        ≡ find (λ t. not (slice_index_or claimed.now t false || slice_index_or unlocked.now t false)) (range_types (first, last)) }
{
    for t in first..last + 1 {
        let i = usize::from(t);
        let in_use = claimed[i] || unlocked[i];
        if !in_use {
            return Some(Pt::new_with_value(t));
        }
    }
    None
}

/// The first type that is in neither table, in the order in which types are given.
fn first_unclaimed(claimed: &[bool; 128], unlocked: &[bool; 128]) -> Option<Pt>
    ensures { result
        ≡ free (λ t. slice_index_or claimed.now t false || slice_index_or unlocked.now t false) }
{
    for (first, last) in PREFERRED_CLAIM_RANGES {
        let found = first_unclaimed_in(claimed, unlocked, first, last);
        if found.is_some() {
            return found;
        }
    }
    None
}

/// A table with a place for each type: true where the type is claimed.
impl Claimed for [bool; 128] {
    ghost holds = { λ table t. slice_index_or table t false };

    fn none_claimed() -> Self {
        [false; 128]
    }

    fn claim_once(&mut self, pt: Pt) -> bool {
        let i = usize::from(pt.value());
        if i >= self.len() || self[i] {
            return false;
        }
        self[i] = true;
        true
    }

    fn is_claimed(&self, pt: Pt) -> bool {
        let i = usize::from(pt.value());
        i < self.len() && self[i]
    }

    fn find_unclaimed(&self, unlocked: &Self) -> Option<Pt> {
        first_unclaimed(self, unlocked)
    }
}
