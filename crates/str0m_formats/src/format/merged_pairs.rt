//! Pairs with each key once. Where they are many, keys are found by their order, so that time is that of
//! a sort, whoever chose them. A table whose hash is known has to look at all that were chosen to fall
//! together.
ghost use Rattle.indexmap.specs.IndexMap.{insert_entry, insert_all, set_value_at};
ghost use Rattle.std.specs.Prelude.{◌≡◌, ◌<◌, [], IfOk, IfSome, OnOk, length, map, vec_len, bytes_eq, string_bytes};
ghost use Rattle.std.specs.Str.{str_to_ascii_lowercase};
ghost use Rattle.str0m_formats.specs.format.FormatParam.{pair_texts};
ghost use Rattle.str0m_formats.specs.format.MergedPairs.{HasPairPlaces, IsPairPlace};
ghost use Rattle.str0m_formats.specs.format.PairsReading.{entry_texts};

use std::alloc::{AllocError, Global};
use std::collections::BTreeMap;

/// Up to so many pairs a key is looked for among all that went before, which takes no memory. The lines
/// of browsers have fewer.
const FEW_PAIRS: usize = 16;

fn lower_key(alloc: Global, text: &str) -> Result<String, AllocError>
    ensures { IfOk result (λ lowered. string_bytes lowered ≡ str_to_ascii_lowercase text.now) }
{
    let mut lowered = String::from_str(alloc, text)?;
    lowered.make_ascii_lowercase();
    Ok(lowered)
}

/// The pairs with their keys in lower case, in order.
pub(crate) fn lowered_pairs<'a>(
    alloc: Global,
    pairs: &[(&str, &'a str)],
) -> Result<Vec<(String, &'a str)>, AllocError>
    ensures { IfOk result (λ list. entry_texts list.items ≡ map (λ pair. (str_to_ascii_lowercase pair.0, pair.1)) (pair_texts pairs.now)) }
{
    let mut lowered = Vec::with_capacity(alloc, pairs.len())?;
    for (key, value) in pairs {
        let key = lower_key(alloc, key)?;
        lowered.push((key, *value))?;
    }
    Ok(lowered)
}

/// Where the key stands, by a look at each entry.
pub(crate) fn key_place(entries: &[(&str, &str)], key: &str) -> Option<usize>
    ensures place { IsPairPlace (bytes_eq key.now) (pair_texts entries.now) result }
    ensures within { IfSome result (λ place. place < length entries.now) }
{
    for (place, entry) in entries.iter().enumerate() {
        if key == entry.0 {
            return Some(place);
        }
    }
    None
}

/// Gives the entry at the place another value.
fn set_value<'a>(entries: &mut Vec<(&'a str, &'a str)>, place: usize, value: &'a str)
    requires { place < vec_len entries.old }
    ensures { pair_texts entries.new.items ≡ set_value_at (pair_texts entries.old.items) place value.now }
{
    let (key, _) = entries[place];
    entries[place] = (key, value);
}

/// Puts a value under a key: in the place where that stands already, else last.
fn put_pair_among<'a>(
    entries: &mut Vec<(&'a str, &'a str)>,
    key: &'a str,
    value: &'a str,
) -> Result<(), AllocError>
    ensures { OnOk result (pair_texts entries.new.items ≡ insert_entry bytes_eq (pair_texts entries.old.items) key.now value.now) }
{
    match key_place(entries.as_slice(), key) {
        Some(place) => set_value(entries, place, value),
        None => entries.push((key, value))?,
    }
    Ok(())
}

/// The same, with the place of each key known by the order of keys.
fn put_pair_ordered<'a>(
    entries: &mut Vec<(&'a str, &'a str)>,
    places: &mut BTreeMap<&'a str, usize>,
    key: &'a str,
    value: &'a str,
) -> Result<(), AllocError>
    requires { HasPairPlaces places.old (pair_texts entries.old.items) }
    ensures put { OnOk result (pair_texts entries.new.items ≡ insert_entry bytes_eq (pair_texts entries.old.items) key.now value.now) }
    ensures known { OnOk result (HasPairPlaces places.new (pair_texts entries.new.items)) }
{
    match places.get(key).copied() {
        Some(place) => set_value(entries, place, value),
        None => {
            places.insert(key, entries.len())?;
            entries.push((key, value))?;
        }
    }
    Ok(())
}

/// The entries of few pairs.
fn merge_few<'a>(
    alloc: Global,
    pairs: &'a [(String, &'a str)],
) -> Result<Vec<(&'a str, &'a str)>, AllocError>
    ensures { IfOk result (λ list. pair_texts list.items ≡ insert_all bytes_eq [] (entry_texts pairs.now)) }
{
    let mut entries = Vec::with_capacity(alloc, pairs.len())?;
    for (key, value) in pairs {
        put_pair_among(&mut entries, key.as_str(), *value)?;
    }
    Ok(entries)
}

/// The entries of many pairs.
fn merge_many<'a>(
    alloc: Global,
    pairs: &'a [(String, &'a str)],
) -> Result<Vec<(&'a str, &'a str)>, AllocError>
    ensures { IfOk result (λ list. pair_texts list.items ≡ insert_all bytes_eq [] (entry_texts pairs.now)) }
{
    let mut entries = Vec::with_capacity(alloc, pairs.len())?;
    let mut places = BTreeMap::new(alloc);
    for (key, value) in pairs {
        put_pair_ordered(&mut entries, &mut places, key.as_str(), *value)?;
    }
    Ok(entries)
}

/// The pairs with each key once, where it first stands, with its last value.
pub(crate) fn merge<'a>(
    alloc: Global,
    pairs: &'a [(String, &'a str)],
) -> Result<Vec<(&'a str, &'a str)>, AllocError>
    ensures { IfOk result (λ list. pair_texts list.items ≡ insert_all bytes_eq [] (entry_texts pairs.now)) }
{
    if pairs.len() <= FEW_PAIRS {
        merge_few(alloc, pairs)
    } else {
        merge_many(alloc, pairs)
    }
}
