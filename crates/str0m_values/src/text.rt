//! A text that contracts see as its bytes.
ghost use Rattle.std.proofs.Common.{rules};
ghost use Rattle.std.specs.Cmp.Lexicographic.{pointwise};
ghost use Rattle.std.specs.Cmp.Rules.{comparing, hashing};
ghost use Rattle.std.specs.Hash as fed;
ghost use Rattle.std.specs.Prelude.{◌≡◌, ◌==◌, ◌≤◌, List, ℕ, IfOk, IsOk, IsTrue, ◌↔◌, length, Some, [], IsUtf8, string_bytes, string_len};
ghost use Rattle.str0m_values.specs.KnownExtension.{known_uri};

use crate::known_extension::KnownExtension;
use crate::words::Worded;
use arrayvec::ArrayString;
use std::alloc::{AllocError, Global};
use std::fmt;
use std::hash::{Hash, Hasher};
use std::marker::Model;
use std::ops::{AsDeref, DerefStr};

/// The most bytes that are kept in place: with their number they take as much room as a `String`. Most texts of a description
/// have fewer.
const TEXT_IN_PLACE: usize = 16;

/// Where the bytes of a text lie: in place, in memory of their own, or in the program, which has the URIs of extensions.
#[derive(Drop)]
enum TextLetters {
    Short(ArrayString<TEXT_IN_PLACE>),
    Long(String),
    Known(KnownExtension),
}

/// A text whose room and allocator no contract sees: two texts are equal where their bytes are. One that is copied from a slice of up
/// to sixteen bytes takes no memory beyond its own place.
pub struct Text {
    letters: TextLetters,
}

/// By hand, so that to let go of a text is a call, and where its bytes lie is no case of a caller's proof.
impl Drop for Text {
    fn drop(self) {
        let Text { letters } = self;
        drop(letters);
    }
}

impl Model for Text {
    ghost use Rattle.std.specs.Prelude.{List, ℕ};
    ghost use Rattle.str0m_values.specs.Text.{bytes_of};

    ghost Value = { List ℕ };

    ghost view = { λ t. bytes_of t.letters };
}

impl Text {
    /// An empty text, which takes no memory.
    pub fn empty() -> Text
        ensures { result ≡ [] }
    {
        let letters = TextLetters::Short(ArrayString::new());
        Text { letters }
    }

    /// Copies a slice of a text. The only error is that memory was refused, of which up to sixteen bytes need none.
    pub fn from_str(alloc: Global, letters: &str) -> Result<Text, AllocError>
        ensures copy { IfOk result (λ t. t ≡ letters.now) }
        ensures short { length letters.now ≤ 16 → IsOk result }
    {
        let letters = match ArrayString::from(letters) {
            Ok(letters) => TextLetters::Short(letters),
            Err(_) => TextLetters::Long(String::from_str(alloc, letters)?),
        };
        Ok(Text { letters })
    }

    /// The URI of an extension that the program knows. It takes no memory.
    pub(crate) fn of_known(extension: KnownExtension) -> Text
        ensures { result ≡ known_uri extension }
    {
        let letters = TextLetters::Known(extension);
        Text { letters }
    }

    /// The text as a `str`.
    pub fn as_str(&self) -> &str
        ensures value { result.now ≡ self.now }
        ensures utf8 { IsUtf8 self.now }
    {
        match &self.letters {
            TextLetters::Short(letters) => letters.as_str(),
            TextLetters::Long(letters) => letters.as_str(),
            TextLetters::Known(extension) => extension.word(),
        }
    }

    /// How many bytes the text has.
    pub fn len(&self) -> usize
        ensures { result ≡ length self.now }
    {
        self.as_str().len()
    }

    /// The text as a string: one that lies in memory of its own is handed over, another is copied. The only error is that memory
    /// was refused.
    pub fn into_string(self, alloc: Global) -> Result<String, AllocError>
        ensures { IfOk result (λ s. string_bytes s ≡ self) }
    {
        let Text { letters } = self;
        match letters {
            TextLetters::Short(letters) => String::from_str(alloc, letters.as_str()),
            TextLetters::Long(letters) => Ok(letters),
            TextLetters::Known(extension) => String::from_str(alloc, extension.word()),
        }
    }
}

/// What a `str` can be asked, a text can be asked, too.
impl DerefStr for Text {
    ghost deref_gives = { λ t bytes. bytes ≡ t };

    fn deref(&self) -> &str
        ensures { result.now ≡ self.now }
    {
        Text::as_str(self)
    }
}

/// So an `Option` of a text is asked for a `str`, by `as_deref`.
impl<'a> AsDeref<'a> for Text {
    type Shown = &'a str;

    ghost as_deref_gives = { λ t shown. shown.now ≡ t };

    ghost View = { List ℕ };

    ghost view = { λ t. t };

    ghost output_view = { λ shown. shown.now };

    fn shown(&'a self) -> &'a str {
        self.deref()
    }
}

impl Clone for Text {
    ghost is_clone = { λ t u. u ≡ t };

    fn clone(&self) -> Result<Text, AllocError> {
        let letters = match &self.letters {
            TextLetters::Short(letters) => TextLetters::Short(*letters),
            TextLetters::Long(letters) => TextLetters::Long(letters.clone()?),
            TextLetters::Known(extension) => TextLetters::Known(*extension),
        };
        Ok(Text { letters })
    }
}

impl From<String> for Text {
    ghost from_gives = { λ s t. t ≡ string_bytes s };

    fn from(letters: String) -> Text {
        let letters = TextLetters::Long(letters);
        Text { letters }
    }
}

impl PartialEq for Text {
    ghost eq = { pointwise ◌==◌ };

    ghost laws = { Prim.search (comparing, rules) };

    fn eq(&self, other: &Text) -> bool {
        self.as_str() == other.as_str()
    }
}

impl Eq for Text {
    ghost laws = { Prim.search (comparing, rules) };
}

impl Hash for Text {
    ghost hash_input = { fed.str };

    ghost respects_eq = { Prim.search (hashing, rules) };

    fn hash<H: Hasher>(&self, state: &mut H) {
        self.as_str().hash(state);
    }
}

/// The text in quotes, as a `str` shows itself, wherever its bytes lie.
impl fmt::Debug for Text {
    fn fmt<W: fmt::Write>(&self, f: &mut fmt::Formatter<W>) -> fmt::Result {
        fmt::Debug::fmt(&self.as_str(), f)
    }
}

impl fmt::Display for Text {
    ghost output = { λ t. Some t };

    fn fmt<W: fmt::Write>(&self, f: &mut fmt::Formatter<W>) -> fmt::Result {
        let letters = self.as_str();
        f.write_str(letters)
    }
}
