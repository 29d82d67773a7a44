//! Texts of at most sixteen bytes, kept in place.
ghost use Rattle.std.proofs.Common.{rules};
ghost use Rattle.std.specs.Cmp.Lexicographic.{pointwise};
ghost use Rattle.std.specs.Cmp.Rules.{comparing, hashing};
ghost use Rattle.std.specs.Hash as fed;
ghost use Rattle.std.specs.Prelude.{◌≡◌, ◌==◌, ◌-◌, ◌≤◌, List, ℕ, Some, length, take, drop, replicate, IsUtf8};
ghost use Rattle.str0m_values.specs.ShortText.{IsLongestShortText};

use std::hash::{Hash, Hasher};
use std::marker::Model;
use std::{fmt, str};

/// A text of at most sixteen bytes, in place.
#[derive(Clone, Copy)]
pub(crate) struct ShortText {
    bytes: [u8; 16],
    len: usize,
}

impl Model for ShortText {
    ghost use Rattle.std.specs.Prelude.{List, drop, length, replicate, take, ℕ, ◌-◌, ◌≡◌, ◌≤◌};
    ghost use Rattle.std.specs.Str.{IsUtf8};
    ghost use Rattle.str0m_values.specs.ShortText.{short_text_cells_of, short_text_cells_of-take, length-short_text_cells};

    ghost Value = { List ℕ };

    ghost view = { λ s. take s.len s.bytes };

    ghost invariant = { λ s. (s.len ≤ 16) × (length s.bytes ≡ 16) × (drop s.len s.bytes ≡ replicate (16 - s.len) 0) × ∥ IsUtf8 (take s.len s.bytes) ∥₁ };

    ghost inverse = { λ t. record { bytes = short_text_cells_of t; len = length t } };

    ghost inverse_ok = { λ s h i. record {
      bytes = short_text_cells_of-take s.bytes s.len h.0 h.1 h.2 i;
      len = length-short_text_cells s.bytes s.len h.0 h.1 i;
    } };
}

impl ShortText {
    /// The longest beginning of the text that fits and ends between characters.
    pub(crate) fn beginning(text: &str) -> ShortText
        ensures { IsLongestShortText 16 text.now result }
    {
        let len = text.floor_char_boundary(16);
        let mut bytes = [0; 16];
        bytes[..len].copy_from_slice(&text.as_bytes()[..len]);
        ShortText { bytes, len }
    }

    pub(crate) fn as_str(&self) -> &str
        ensures value { result.now ≡ self.now }
        ensures fits { length self.now ≤ 16 }
        ensures utf8 { IsUtf8 self.now }
    {
        let text = &self.bytes[..self.len];
        // SAFETY: that it is UTF-8 is a part of the invariant.
        unsafe { str::from_utf8_unchecked(text) }
    }
}

impl PartialEq for ShortText {
    ghost eq = { pointwise ◌==◌ };

    ghost laws = { Prim.search (comparing, rules) };

    fn eq(&self, other: &ShortText) -> bool {
        self.bytes[..self.len] == other.bytes[..other.len]
    }
}

impl Eq for ShortText {
    ghost laws = { Prim.search (comparing, rules) };
}

/// The text in quotes, as a `str` shows itself.
impl fmt::Debug for ShortText {
    fn fmt<W: fmt::Write>(&self, f: &mut fmt::Formatter<W>) -> fmt::Result {
        fmt::Debug::fmt(&self.as_str(), f)
    }
}

impl Hash for ShortText {
    ghost hash_input = { fed.str };

    ghost respects_eq = { Prim.search (hashing, rules) };

    fn hash<H: Hasher>(&self, state: &mut H) {
        self.as_str().hash(state);
    }
}
