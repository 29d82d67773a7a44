//! A name that contracts see as its bytes.
ghost use Rattle.std.proofs.Common.{rules};
ghost use Rattle.std.specs.Cmp.Lexicographic.{pointwise};
ghost use Rattle.std.specs.Cmp.Rules.{comparing};
ghost use Rattle.std.specs.Prelude.{◌≡◌, ◌==◌, ◌≤◌, List, ℕ, IfOk, IsOk, length, Some, IsUtf8};

use crate::boxed::Boxed;
use crate::text::Text;
use arrayvec::ArrayString;
use std::alloc::{AllocError, Global};
use std::fmt;
use std::marker::Model;
use std::ops::DerefStr;

/// The most bytes that are kept in place: so a name takes 24 bytes where it is held, and a `Text` 32.
const NAME_IN_PLACE: usize = 8;

/// Where the bytes of a name lie: in place, or in memory of their own.
#[derive(Drop)]
enum NameLetters {
    Short(ArrayString<NAME_IN_PLACE>),
    Long(Boxed<Text>),
}

/// A name, as `cname`: a text for a place that stays small, since it seldom has more than eight bytes. So many take no memory beyond
/// its own place. Two names are equal where their bytes are.
pub struct Name {
    letters: NameLetters,
}

/// By hand, so that to let go of a name is a call, and where its bytes lie is no case of a caller's proof.
impl Drop for Name {
    fn drop(self) {
        let Name { letters } = self;
        drop(letters);
    }
}

impl Model for Name {
    ghost use Rattle.std.specs.Prelude.{List, ℕ};
    ghost use Rattle.str0m_values.specs.Name.{name_bytes};

    ghost Value = { List ℕ };

    ghost view = { λ name. name_bytes name.letters };
}

impl Name {
    /// Copies a slice of a text. The only error is that memory was refused, of which up to eight bytes need none.
    pub fn from_str(alloc: Global, letters: &str) -> Result<Name, AllocError>
        ensures copy { IfOk result (λ name. name ≡ letters.now) }
        ensures short { length letters.now ≤ 8 → IsOk result }
    {
        let letters = match ArrayString::from(letters) {
            Ok(letters) => NameLetters::Short(letters),
            Err(_) => NameLetters::Long(Boxed::new(alloc, Text::from_str(alloc, letters)?)?),
        };
        Ok(Name { letters })
    }

    /// The name of a text, in room that was asked for before: so it takes no memory, however long it is. The text that lay there is
    /// dropped.
    pub fn in_room(mut room: Boxed<Text>, text: Text) -> Name
        ensures { result ≡ text }
    {
        let _ = room.replace(text);
        let letters = NameLetters::Long(room);
        Name { letters }
    }

    /// The name as a `str`.
    pub fn as_str(&self) -> &str
        ensures value { result.now ≡ self.now }
        ensures utf8 { IsUtf8 self.now }
    {
        match &self.letters {
            NameLetters::Short(letters) => letters.as_str(),
            NameLetters::Long(letters) => letters.get().as_str(),
        }
    }
}

/// What a `str` can be asked, a name can be asked, too.
impl DerefStr for Name {
    ghost deref_gives = { λ name bytes. bytes ≡ name };

    fn deref(&self) -> &str
        ensures { result.now ≡ self.now }
    {
        Name::as_str(self)
    }
}

impl Clone for Name {
    ghost is_clone = { λ name other. other ≡ name };

    fn clone(&self) -> Result<Name, AllocError> {
        let letters = match &self.letters {
            NameLetters::Short(letters) => NameLetters::Short(*letters),
            NameLetters::Long(letters) => NameLetters::Long(letters.clone()?),
        };
        Ok(Name { letters })
    }
}

impl PartialEq for Name {
    ghost eq = { pointwise ◌==◌ };

    ghost laws = { Prim.search (comparing, rules) };

    fn eq(&self, other: &Name) -> bool {
        self.as_str() == other.as_str()
    }
}

impl Eq for Name {
    ghost laws = { Prim.search (comparing, rules) };
}

/// The name in quotes, as a `str` shows itself, wherever its bytes lie.
impl fmt::Debug for Name {
    fn fmt<W: fmt::Write>(&self, f: &mut fmt::Formatter<W>) -> fmt::Result {
        fmt::Debug::fmt(&self.as_str(), f)
    }
}

impl fmt::Display for Name {
    ghost output = { λ name. Some name };

    fn fmt<W: fmt::Write>(&self, f: &mut fmt::Formatter<W>) -> fmt::Result {
        let letters = self.as_str();
        f.write_str(letters)
    }
}
