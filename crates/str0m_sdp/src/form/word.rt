//! Words of the program's own.
ghost use Rattle.std.proofs.Common.{rules};
ghost use Rattle.std.specs.Cmp.Lexicographic.{pointwise};
ghost use Rattle.std.specs.Cmp.Rules.{comparing};
ghost use Rattle.std.specs.Prelude.{◌≡◌, ◌==◌, List, ℕ, Some};

use std::alloc::AllocError;
use std::fmt;
use std::marker::Model;

/// A word that lives as long as the program. Contracts see its bytes, not where it lies.
#[derive(Debug, Drop)]
pub struct Word(pub &'static str);

impl Model for Word {
    ghost Value = { List ℕ };

    ghost view = { λ word. word.0.now };
}

impl Word {
    /// The text of the word, for as long as the program runs. Takes no memory.
    pub fn as_str(&self) -> &'static str
        ensures { result.now ≡ self.now }
    {
        self.0
    }
}

impl Clone for Word {
    ghost is_clone = { λ one other. other ≡ one };

    ghost is_infallible = { λ _. Unit {0} };

    fn clone(&self) -> Result<Word, AllocError> {
        Ok(Word(self.0))
    }
}

impl PartialEq for Word {
    ghost eq = { pointwise ◌==◌ };

    ghost laws = { Prim.search (comparing, rules) };

    fn eq(&self, other: &Word) -> bool {
        self.as_str() == other.as_str()
    }
}

impl Eq for Word {
    ghost laws = { Prim.search (comparing, rules) };
}

/// The text of the word.
impl fmt::Display for Word {
    ghost output = { λ word. Some word };

    fn fmt<W: fmt::Write>(&self, f: &mut fmt::Formatter<W>) -> fmt::Result {
        f.write_str(self.as_str())
    }
}
