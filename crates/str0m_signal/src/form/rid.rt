//! Lines of streams that may be restricted.
ghost use Rattle.std.specs.Prelude.{◌≡◌, ◌∷◌, ◌++◌, [], IfOk, option_map, is_some, true};
ghost use Rattle.str0m_sdp.specs.declared.attribute.MediaAttribute.TheVariants.{Rid};
ghost use Rattle.str0m_sdp.specs.declared.label.TheConstants as label;
ghost use Rattle.str0m_signal.specs.Prelude.{parts, when};
ghost use Rattle.str0m_signal.specs.form.FormReading.{behind, two_read};
ghost use Rattle.str0m_signal.specs.form.MediaAttribute.{rid};
ghost use Rattle.str0m_signal.specs.form.RidReading.{rid_lists_of, next_read, restriction_read, restrictions_read, restricted_read, typed_read, lists_read, more_read, direction_read};
ghost use Rattle.str0m_signal.specs.form.RidStreamName.{is_stream_name};

use crate::form::simulcast::is_stream_name;
use crate::line::pairs::{key_and_rest, skip_pair_blanks, value};
use crate::line::parts::parts;
use crate::line::words::Number;
use std::alloc::{AllocError, Global};
use str0m_sdp::{MediaAttribute, RestrictionId, Word, label};
use str0m_values::cuts::{cut, strip};
use str0m_values::{Boxed, Items, Pt, Separator, Text};

/// What stands after a value: the end, or `;` and more.
fn rid_next(text: &str) -> Option<Option<&str>>
    ensures { option_map (λ o. option_map (λ x. x.now) o) result ≡ next_read text.now }
{
    if text.is_empty() {
        return Some(None);
    }
    let more = strip(text, ";")?;
    Some(Some(more))
}

/// The restriction at the front of the text, and what stands after it.
#[tactic(auto, using(crate::proofs::form::RidLaws::restriction_by_key))]
fn restriction(text: &str) -> Option<(&str, &str, Option<&str>)>
    ensures { option_map (λ x. ((x.0.now, x.1.now), option_map (λ y. y.now) x.2)) result ≡ restriction_read text.now }
{
    let (key, behind) = key_and_rest(skip_pair_blanks(text))?;
    let (value, behind) = value(behind)?;
    let more = rid_next(behind)?;
    Some((key, value, more))
}

/// How many restrictions the text is; `None` where it isn't restrictions.
fn restriction_count(text: &str) -> Option<usize>
    ensures { is_some result ≡ is_some (restrictions_read text.now) }
{
    let mut count: usize = 1;
    let mut rest = text;
    loop {
        let Some((_, _, next)) = restriction(rest) else {
            return None;
        };
        let Some(more) = next else {
            return Some(count);
        };
        count = count.saturating_add(1);
        rest = more;
    }
}

/// Puts copies of a key and its value after the others.
fn keep_restriction(
    alloc: Global,
    key: &str,
    value: &str,
    pairs: &mut Vec<(Text, Text)>,
) -> Result<(), AllocError>
    ensures { IfOk result (λ _. pairs.new.items ≡ pairs.old.items ++ (key.now, value.now) ∷ []) }
{
    let key = Text::from_str(alloc, key)?;
    let value = Text::from_str(alloc, value)?;
    pairs.push((key, value))?;
    Ok(())
}

/// The restrictions of the text, in a list that has room for so many: no answer depends on it. Memory is taken for those that stand
/// before one that can't be read, too.
fn restrictions(
    alloc: Global,
    text: &str,
    count: usize,
) -> Result<Option<Items<(Text, Text)>>, AllocError>
    ensures { IfOk result (λ found. found ≡ restrictions_read text.now) }
{
    let mut pairs = Vec::with_capacity(alloc, count)?;
    let mut rest = text;
    loop {
        let Some((key, value, next)) = restriction(rest) else {
            return Ok(None);
        };
        keep_restriction(alloc, key, value, &mut pairs)?;
        let Some(more) = next else {
            return Ok(Some(Items::from(pairs)));
        };
        rest = more;
    }
}

/// How many restrictions the text is, where it is nothing or restrictions.
fn restricted_count(text: &str) -> Option<usize>
    ensures { is_some result ≡ is_some (restricted_read text.now) }
{
    if text.is_empty() {
        Some(0)
    } else {
        restriction_count(text)
    }
}

/// The restrictions of the text, or none where it is nothing. Memory is taken as `restrictions` takes it.
fn read_restricted(
    alloc: Global,
    text: &str,
    count: usize,
) -> Result<Option<Items<(Text, Text)>>, AllocError>
    ensures { IfOk result (λ found. found ≡ restricted_read text.now) }
{
    if text.is_empty() {
        Ok(Some(Items::empty(alloc)))
    } else {
        restrictions(alloc, text, count)
    }
}

/// The same, but memory is asked for only where all can be read.
fn restricted(alloc: Global, text: &str) -> Result<Option<Items<(Text, Text)>>, AllocError>
    ensures { IfOk result (λ found. found ≡ restricted_read text.now) }
{
    match restricted_count(text) {
        Some(count) => read_restricted(alloc, text, count),
        None => Ok(None),
    }
}

/// The payload types that the stream may have, and its other restrictions.
#[derive(Drop)]
struct RidLists {
    types: Items<Pt>,
    restrictions: Items<(Text, Text)>,
}

/// The lists after `pt=`. Memory is asked for only where both can be read.
fn typed(alloc: Global, text: &str) -> Result<Option<RidLists>, AllocError>
    ensures { IfOk result (λ found. option_map rid_lists_of found ≡ typed_read text.now) }
{
    let Some((front, behind)) = cut(text, Separator::Semicolon) else {
        return match parts::<Number<127>>(alloc, text, Separator::Comma)? {
            Some(types) => {
                let restrictions = Items::empty(alloc);
                Ok(Some(RidLists {
                    types,
                    restrictions,
                }))
            }
            None => Ok(None),
        };
    };
    let Some(count) = restricted_count(behind) else {
        return Ok(None);
    };
    let Some(types) = parts::<Number<127>>(alloc, front, Separator::Comma)? else {
        return Ok(None);
    };
    let Some(restrictions) = read_restricted(alloc, behind, count)? else {
        return Ok(None);
    };
    Ok(Some(RidLists {
        types,
        restrictions,
    }))
}

/// The lists after the direction and a space.
fn rid_lists(alloc: Global, text: &str) -> Result<Option<RidLists>, AllocError>
    ensures { IfOk result (λ found. option_map rid_lists_of found ≡ lists_read text.now) }
{
    if let Some(body) = strip(text, "pt=") {
        return typed(alloc, body);
    }
    match restricted(alloc, text)? {
        Some(restrictions) => {
            let types = Items::empty(alloc);
            Ok(Some(RidLists {
                types,
                restrictions,
            }))
        }
        None => Ok(None),
    }
}

/// The lists after the direction.
fn rid_more(alloc: Global, text: &str) -> Result<Option<RidLists>, AllocError>
    ensures { IfOk result (λ found. option_map rid_lists_of found ≡ more_read text.now) }
{
    if text.is_empty() {
        let types = Items::empty(alloc);
        let restrictions = Items::empty(alloc);
        return Ok(Some(RidLists {
            types,
            restrictions,
        }));
    }
    match strip(text, " ") {
        Some(body) => rid_lists(alloc, body),
        None => Ok(None),
    }
}

/// The word at the front of the text, and what stands after it.
fn direction(text: &str) -> Option<(&'static str, &str)>
    ensures { parts result ≡ direction_read text.now }
{
    if let Some(behind) = strip(text, "send") {
        return Some(("send", behind));
    }
    let behind = strip(text, "recv")?;
    Some(("recv", behind))
}

/// The name of the stream, its direction, and what stands after them.
fn rid_fields(text: &str) -> Option<(&str, &'static str, &str)>
    ensures { option_map (λ x. (x.0.now, (x.1.now, x.2.now))) result ≡ behind label.RID.now (two_read 32 (λ name. when (is_stream_name name) name) direction_read) text.now }
{
    let body = strip(text, label::RID)?;
    let (name, directed) = cut(body, Separator::Space)?;
    if !is_stream_name(name) {
        return None;
    }
    let (word, behind) = direction(directed)?;
    Some((name, word, behind))
}

/// The rid line of these parts.
fn made_rid(
    alloc: Global,
    name: Text,
    word: &'static str,
    lists: RidLists,
) -> Result<MediaAttribute, AllocError>
    ensures { IfOk result (λ line. line ≡ Rid (record { 0 = name; 1 = true }) word.now lists.types lists.restrictions) }
{
    let id = Boxed::new(alloc, RestrictionId(name, true))?;
    let restriction = Boxed::new(alloc, lists.restrictions)?;
    Ok(MediaAttribute::Rid {
        id,
        direction: Word(word),
        pt: lists.types,
        restriction,
    })
}

/// The rid line of the text after `a=`.
#[inline(never)]
pub(crate) fn rid(alloc: Global, text: &str) -> Result<Option<MediaAttribute>, AllocError>
    ensures { IfOk result (λ found. found ≡ rid.read text.now) }
{
    let Some((name, word, behind)) = rid_fields(text) else {
        return Ok(None);
    };
    let Some(lists) = rid_more(alloc, behind)? else {
        return Ok(None);
    };
    let name = Text::from_str(alloc, name)?;
    Ok(Some(made_rid(alloc, name, word, lists)?))
}
