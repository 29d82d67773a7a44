//! JSON as it is written: objects and lists, one in another, each member and each item straight into the text.

ghost use Rattle.c_json.specs.Description.{IsJsonText};
ghost use Rattle.c_json.specs.JsonWriter.{object, list, json_closed, json_valued, json_after_token, InObject, InList, WantsJsonValue, MayBeJson};
ghost use Rattle.json.specs.Reads.{token_of};
ghost use Rattle.std.specs.Prelude.{◌≡◌, ◌∷◌, [], IfOk, OnOk};
ghost use Rattle.std.specs.String.{string_bytes};

use json::{Token, Writer};
use std::alloc::{AllocError, Global};
use std::fmt;
use std::marker::Model;

/// The greatest number up to which all readers of JSON hold each one exactly (RFC 8259, section 6).
const EXACT_JSON_NUMBER: u64 = 9_007_199_254_740_991;

/// The room that is asked for at first, in bytes, for a whole text and for what is printed alone: no text depends on it.
const USUAL_JSON_TEXT: usize = 4096;

const USUAL_JSON_PART: usize = 128;

/// JSON that isn't whole yet: contracts see what is open, the innermost first. Members of an object are written in the order of
/// the calls, which is that of their keys.
#[derive(Drop)]
pub(crate) struct JsonWriter {
    alloc: Global,
    out: Writer,
}

impl Model for JsonWriter {
    ghost use Rattle.c_json.specs.JsonWriter.{JsonLevel, json_open_levels, IsJsonBegun};
    ghost use Rattle.std.specs.Prelude.{List};

    ghost Value = { List JsonLevel };

    ghost view = { λ json. json_open_levels json.out.tokens };

    ghost invariant = { λ json. IsJsonBegun json.out.before json.out.tokens };
}

/// The number whose digits a text is, none else.
fn json_number_of(text: &str) -> Option<u64> {
    match text.as_bytes() {
        [b'0'] | [b'1'..=b'9', ..] => text.parse::<u64>().ok(),
        _ => None,
    }
}

impl JsonWriter {
    /// An object without members.
    pub(crate) fn new(alloc: Global) -> Result<JsonWriter, AllocError>
        ensures { IfOk result (λ json. json ≡ object ∷ []) }
    {
        let mut out = Writer::new(Vec::with_capacity(alloc, USUAL_JSON_TEXT)?);
        out.begin_object()?;
        Ok(JsonWriter { alloc, out })
    }

    #[inline(always)]
    fn put(&mut self, token: Token<'_>) -> Result<(), AllocError>
        requires { MayBeJson self.old (token_of token) }
        ensures { OnOk result (self.new ≡ json_after_token self.old (token_of token.entry)) }
    {
        self.out.token(token)?;
        Ok(())
    }

    fn put_number(&mut self, number: u64) -> Result<(), AllocError>
        requires { WantsJsonValue self.old }
        ensures { OnOk result (self.new ≡ json_valued self.old) }
    {
        self.out.u64(number)?;
        Ok(())
    }

    /// A member that is a text.
    #[tactic(auto, using(crate::proofs::JsonWriterLaws::behind_member))]
    pub(crate) fn text(&mut self, key: &str, text: &str) -> Result<(), AllocError>
        requires { InObject self.old }
        ensures { OnOk result (self.new ≡ self.old) }
    {
        self.put(Token::Key(key))?;
        self.put(Token::String(text))
    }

    /// A member that is a text, where there is one.
    pub(crate) fn maybe_text(&mut self, key: &str, text: Option<&str>) -> Result<(), AllocError>
        requires { InObject self.old }
        ensures { OnOk result (self.new ≡ self.old) }
    {
        match text {
            Some(text) => self.text(key, text),
            None => Ok(()),
        }
    }

    /// A member that is what a value prints.
    pub(crate) fn shown<T: fmt::Display>(&mut self, key: &str, value: &T) -> Result<(), AllocError>
        requires { InObject self.old }
        ensures { OnOk result (self.new ≡ self.old) }
    {
        let mut text = String::with_capacity(self.alloc, USUAL_JSON_PART)?;
        write!(text, "{value}")?;
        self.text(key, text.as_str())
    }

    /// A member that is items with a space between each two.
    pub(crate) fn spaced<T: fmt::Display>(
        &mut self,
        key: &str,
        items: &[T],
    ) -> Result<(), AllocError>
        requires { InObject self.old }
        ensures { OnOk result (self.new ≡ self.old) }
    {
        let text = spaced_json_text(self.alloc, items)?;
        self.text(key, text.as_str())
    }

    /// A member that is a number; its digits as a text where it is greater than each reader holds.
    #[tactic(auto, using(crate::proofs::JsonWriterLaws::behind_member))]
    pub(crate) fn number(&mut self, key: &str, number: u64) -> Result<(), AllocError>
        requires { InObject self.old }
        ensures { OnOk result (self.new ≡ self.old) }
    {
        if number > EXACT_JSON_NUMBER {
            return self.shown(key, &number);
        }
        self.put(Token::Key(key))?;
        self.put_number(number)
    }

    /// A member that is a number, where there is one.
    pub(crate) fn maybe_number(&mut self, key: &str, number: Option<u64>) -> Result<(), AllocError>
        requires { InObject self.old }
        ensures { OnOk result (self.new ≡ self.old) }
    {
        match number {
            Some(number) => self.number(key, number),
            None => Ok(()),
        }
    }

    /// A member that is a number; null where there is none.
    #[tactic(auto, using(crate::proofs::JsonWriterLaws::behind_member))]
    pub(crate) fn number_or_null(&mut self, key: &str, number: Option<u8>) -> Result<(), AllocError>
        requires { InObject self.old }
        ensures { OnOk result (self.new ≡ self.old) }
    {
        if let Some(number) = number {
            return self.number(key, u64::from(number));
        }
        self.put(Token::Key(key))?;
        self.put(Token::Null)
    }

    /// A member that is the number whose digits a text is; else the text.
    pub(crate) fn number_or_text(&mut self, key: &str, text: &str) -> Result<(), AllocError>
        requires { InObject self.old }
        ensures { OnOk result (self.new ≡ self.old) }
    {
        match json_number_of(text) {
            Some(number) => self.number(key, number),
            None => self.text(key, text),
        }
    }

    /// A member that is an object; it has the members that follow.
    #[tactic(auto, using(crate::proofs::JsonWriterLaws::behind_member))]
    pub(crate) fn begin_object(&mut self, key: &str) -> Result<(), AllocError>
        requires { InObject self.old }
        ensures { OnOk result (self.new ≡ object ∷ self.old) }
    {
        self.put(Token::Key(key))?;
        self.put(Token::BeginObject)
    }

    /// A member that is a list; it has the items that follow.
    #[tactic(auto, using(crate::proofs::JsonWriterLaws::behind_member))]
    pub(crate) fn begin_list(&mut self, key: &str) -> Result<(), AllocError>
        requires { InObject self.old }
        ensures { OnOk result (self.new ≡ list ∷ self.old) }
    {
        self.put(Token::Key(key))?;
        self.put(Token::BeginArray)
    }

    /// An item that is an object; it has the members that follow.
    #[tactic(auto, using(crate::proofs::JsonWriterLaws::json_behind_item, crate::proofs::JsonWriterLaws::json_item_wanted))]
    pub(crate) fn begin_item(&mut self) -> Result<(), AllocError>
        requires { InList self.old }
        ensures { OnOk result (self.new ≡ object ∷ self.old) }
    {
        self.put(Token::BeginObject)
    }

    /// An item that is a text.
    #[tactic(auto, using(crate::proofs::JsonWriterLaws::json_behind_item, crate::proofs::JsonWriterLaws::json_item_wanted))]
    pub(crate) fn item(&mut self, text: &str) -> Result<(), AllocError>
        requires { InList self.old }
        ensures { OnOk result (self.new ≡ self.old) }
    {
        self.put(Token::String(text))
    }

    /// The end of the innermost object.
    pub(crate) fn end_object(&mut self) -> Result<(), AllocError>
        requires { InObject self.old }
        ensures { OnOk result (self.new ≡ json_closed self.old) }
    {
        self.put(Token::EndObject)
    }

    /// The end of the innermost list.
    pub(crate) fn end_list(&mut self) -> Result<(), AllocError>
        requires { InList self.old }
        ensures { OnOk result (self.new ≡ json_closed self.old) }
    {
        self.put(Token::EndArray)
    }

    /// The text, where nothing is open any more.
    pub(crate) fn into_text(self) -> String
        requires { self ≡ [] }
        ensures { IsJsonText (string_bytes result) }
    {
        let JsonWriter { out, .. } = self;
        // (what a `Writer` makes is UTF-8, by a clause of its own: it needs no second look)
        unsafe { String::from_utf8_unchecked(out.into_inner()) }
    }
}

/// Items with a space between each two.
fn spaced_json_text<T: fmt::Display>(alloc: Global, items: &[T]) -> Result<String, AllocError> {
    let mut text = String::with_capacity(alloc, USUAL_JSON_PART)?;
    for (i, item) in items.iter().enumerate() {
        if i > 0 {
            text.push(' ')?;
        }
        write!(text, "{item}")?;
    }
    Ok(text)
}
