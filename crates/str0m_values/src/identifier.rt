//! The names of media sections, and of the streams in them.
ghost use Rattle.std.specs.Prelude.{◌≡◌, ◌≤◌, List, ℕ, Some, length, IsUtf8};
ghost use Rattle.str0m_values.specs.ShortText.{IsLongestShortText};

use crate::short_text::ShortText;
use std::fmt;
use std::marker::Model;

/// The name of a media section (RFC 5888, section 4; RFC 9143): a text of at most 16 bytes.
#[derive(Clone, Copy, Debug, PartialEq, Eq, Hash)]
pub struct Mid(ShortText);

impl Model for Mid {
    ghost Value = { List ℕ };

    ghost view = { λ m. m.0 };

    ghost inverse = { λ t. record { 0 = t } };
}

impl Mid {
    /// The name, at most 16 bytes.
    pub fn as_str(&self) -> &str
        ensures value { result.now ≡ self.now }
        ensures fits { length self.now ≤ 16 }
        ensures utf8 { IsUtf8 self.now }
    {
        let Mid(name) = self;
        name.as_str()
    }
}

impl<'a> From<&'a str> for Mid {
    ghost from_gives = { λ text m.
        IsLongestShortText 16 text.now m × (length text.now ≤ 16 → m ≡ text.now) };

    fn from(text: &'a str) -> Mid {
        Mid(ShortText::beginning(text))
    }
}

impl fmt::Display for Mid {
    ghost output = { λ m. Some m };

    fn fmt<W: fmt::Write>(&self, f: &mut fmt::Formatter<W>) -> fmt::Result {
        f.write_str(Mid::as_str(self))
    }
}

/// The name of a stream that may be restricted (RFC 8851, section 10): a text of at most 16 bytes.
#[derive(Clone, Copy, Debug, PartialEq, Eq, Hash)]
pub struct Rid(ShortText);

impl Model for Rid {
    ghost Value = { List ℕ };

    ghost view = { λ r. r.0 };

    ghost inverse = { λ t. record { 0 = t } };
}

impl Rid {
    /// The name, at most 16 bytes.
    pub fn as_str(&self) -> &str
        ensures value { result.now ≡ self.now }
        ensures fits { length self.now ≤ 16 }
        ensures utf8 { IsUtf8 self.now }
    {
        let Rid(name) = self;
        name.as_str()
    }
}

impl<'a> From<&'a str> for Rid {
    ghost from_gives = { λ text r.
        IsLongestShortText 16 text.now r × (length text.now ≤ 16 → r ≡ text.now) };

    fn from(text: &'a str) -> Rid {
        Rid(ShortText::beginning(text))
    }
}

impl fmt::Display for Rid {
    ghost output = { λ r. Some r };

    fn fmt<W: fmt::Write>(&self, f: &mut fmt::Formatter<W>) -> fmt::Result {
        f.write_str(Rid::as_str(self))
    }
}
