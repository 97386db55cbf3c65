// Entries in the order of their names: where a name stands is found by halving. They come from an ordered map, and go to one.
ghost use Rattle.std.specs.Prelude.{◌≡◌, IfErr, IfOk, OnErr, OnOk, map, option_copied, string_bytes, string_cmp};
ghost use Rattle.std.specs.BTreeMap.{insert_entry};
ghost use Rattle.std.specs.List.{AllZip, list_any};
ghost use Rattle.std.specs.Map.{keys_of, lookup, remove_entry};
ghost use Rattle.zarrs_form.specs.Documents.{is_own};
ghost use Rattle.zarrs_form.specs.SortedMembers.{NamesAscend};
ghost use Rattle.zarrs_form.specs.StepsOfMembers.{IsNameAt, IsNameGap, at_name};

use crate::members::is_one_of;
use serde_json::Map;
use std::alloc::{AllocError, Global};
use std::mem::replace;

// Where the name stands, or where it would stand.
fn place_of<T>(entries: &[(String, T)], name: &str) -> Result<usize, usize>
    requires ascending { NamesAscend entries.now }
    ensures found { IfOk result (IsNameAt entries.now name.now) }
    ensures absent { IfErr result (IsNameGap entries.now name.now) }
{
    entries.binary_search_by(|entry| entry.0.as_str().cmp(name))
}

// What stands at the name.
pub(crate) fn find<'a, T>(entries: &'a [(String, T)], name: &str) -> Option<&'a T>
    requires ascending { NamesAscend entries.now }
    ensures { option_copied result ≡ lookup (at_name name.now) entries.now }
{
    match place_of(entries, name) {
        Ok(place) => Some(&entries[place].1),
        Err(_gap) => None,
    }
}

// Puts a value at the name, and answers what stood there.
pub(crate) fn put_entry<T: Drop>(
    entries: &mut Vec<(String, T)>,
    name: String,
    value: T,
) -> Result<Option<T>, AllocError>
    requires ascending { NamesAscend entries.old.items }
    ensures before { IfOk result
        (λ before. before ≡ lookup (at_name (string_bytes name)) entries.old.items) }
    ensures ok { OnOk result
        (entries.new.items ≡ insert_entry string_cmp entries.old.items name value) }
    ensures unchanged { OnErr result (entries.new.items ≡ entries.old.items) }
    ensures ascending { NamesAscend entries.new.items }
{
    match place_of(entries.as_slice(), name.as_str()) {
        Ok(place) => Ok(Some(replace(&mut entries[place].1, value))),
        Err(gap) => {
            entries.insert(gap, (name, value))?;
            Ok(None)
        }
    }
}

// Takes away what stands at the name.
pub(crate) fn take_entry<T>(entries: &mut Vec<(String, T)>, name: &str) -> Option<T>
    requires ascending { NamesAscend entries.old.items }
    ensures found { result ≡ lookup (at_name name.now) entries.old.items }
    ensures left { entries.new.items ≡ remove_entry (at_name name.now) entries.old.items }
    ensures ascending { NamesAscend entries.new.items }
{
    match place_of(entries.as_slice(), name) {
        Ok(place) => {
            let (_name, value) = entries.remove(place);
            Some(value)
        }
        Err(_gap) => None,
    }
}

// The entries of a map, with room for no more.
pub(crate) fn entries_of<T: Drop>(
    alloc: Global,
    map: Map<String, T>,
) -> Result<Vec<(String, T)>, AllocError>
    ensures entries { IfOk result (λ entries. entries.items ≡ map.entries) }
    ensures ascending { NamesAscend map.entries }
{
    if map.is_empty() {
        return Ok(Vec::new(alloc));
    }
    let mut entries = Vec::with_capacity(alloc, map.len())?;
    for (name, value) in map {
        entries.push((name, value))?;
    }
    Ok(entries)
}

// The map that has the entries.
pub(crate) fn map_of<T: Drop>(
    alloc: Global,
    entries: Vec<(String, T)>,
) -> Result<Map<String, T>, AllocError>
    requires ascending { NamesAscend entries.items }
    ensures { IfOk result (λ map. map.entries ≡ entries.items) }
{
    let mut map = Map::new(alloc);
    for (name, value) in entries {
        drop(map.insert(name, value)?);
    }
    Ok(map)
}

// Whether some entry has one of the own names.
pub(crate) fn has_own_entry<T>(entries: &[(String, T)], own_names: &[&str]) -> bool
    ensures { result
        ≡ list_any (λ k. is_own (map (λ n. n.now) own_names.now) (string_bytes k))
        (keys_of entries.now) }
{
    for entry in entries {
        if is_one_of(entry.0.as_str(), own_names) {
            return true;
        }
    }
    false
}
