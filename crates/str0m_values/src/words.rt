//! Enumerations each of whose cases has a word.
ghost use Rattle.std.specs.Prelude.{◌≡◌, List, ℕ};
ghost use Rattle.str0m_values.specs.Words.{case_alike, case_of};

/// An enumeration each of whose cases has a word.
pub trait Worded: Copy {
    /// The word of each case.
    ghost word_of: { Self → List ℕ };

    /// The word of the case.
    fn word(self) -> &'static str
        ensures { result.now ≡ word_of self };
}

/// The case of this very word, among those that are listed.
#[tactic(auto, unfolding(crate::specs::Words::case_of))]
pub fn case_of<T: Worded>(cases: &[T], word: &str) -> Option<T>
    ensures { result ≡ case_of T.word_of cases.now word.now }
{
    cases.iter().copied().find(|case| word == case.word())
}

/// The case of this word, among those that are listed, without regard to the case of ASCII letters.
#[tactic(auto, unfolding(crate::specs::Words::case_alike))]
pub fn case_alike<T: Worded>(cases: &[T], word: &str) -> Option<T>
    ensures { result ≡ case_alike T.word_of cases.now word.now }
{
    cases
        .iter()
        .copied()
        .find(|case| word.eq_ignore_ascii_case(case.word()))
}
