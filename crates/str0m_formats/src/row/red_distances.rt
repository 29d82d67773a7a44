//! How far back the redundant levels of RED reach (RFC 2198, section 3).
ghost use Rattle.std.specs.List.{list_any};
ghost use Rattle.std.specs.Prelude.{◌≡◌, ◌==◌, ◌∷◌, []};
ghost use Rattle.str0m_formats.specs.row.RedDistances.{AreDistances, keeps_distance, distances_kept_to};

use std::marker::Model;

/// At most sixteen distances, in place.
#[derive(Debug, Drop)]
pub(crate) struct RedDistances {
    levels: [u32; 16],
    count: usize,
}

impl Model for RedDistances {
    ghost use Rattle.std.specs.Prelude.{List, take, ℕ, ◌≤◌};
    ghost use Rattle.str0m_formats.specs.row.RedDistances.{AreDistances};

    ghost Value = { List ℕ };

    ghost view = { λ d. take d.count d.levels };

    ghost invariant = { λ d. (d.count ≤ 16) × AreDistances (take d.count d.levels) };
}

fn has_red_distance(given: &[u32], distance: u32) -> bool
    ensures { result ≡ list_any (λ g. distance == g) given.now }
{
    given.iter().any(|g| distance == *g)
}

fn is_distance_kept(given: &[u32], distance: u32) -> bool
    ensures { result ≡ keeps_distance given.now distance }
{
    distance == 1 || has_red_distance(given, distance)
}

impl RedDistances {
    /// The previous packet alone.
    pub(crate) fn previous() -> RedDistances
        ensures { result ≡ 1 ∷ [] }
    {
        let mut levels = [0; 16];
        levels[0] = 1;
        RedDistances { levels, count: 1 }
    }

    pub(crate) fn kept(given: &[u32]) -> RedDistances
        ensures { result ≡ distances_kept_to 16 given.now }
    {
        let mut levels = [0; 16];
        let mut count = 0;
        for seen in 0..16 {
            let distance = seen + 1;
            if is_distance_kept(given, distance) {
                levels[count] = distance;
                count += 1;
            }
        }
        RedDistances { levels, count }
    }

    pub(crate) fn as_slice(&self) -> &[u32]
        ensures value { result.now ≡ self.now }
        ensures distances { AreDistances self.now }
    {
        &self.levels[..self.count]
    }

    pub(crate) fn copy(&self) -> RedDistances
        ensures { result ≡ self.now }
    {
        RedDistances {
            levels: self.levels,
            count: self.count,
        }
    }
}
