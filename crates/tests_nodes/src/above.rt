//! What the blocks of the groups above a path say otherwise than the store.

use crate::findings::findings_text;
use crate::given::document;
use log::sink::Discard;
use std::alloc::{AllocError, Global};
use std::test::Fail;
use tests_fixtures::{key_of, version_of, with_block};
use tests_support::{check_rows, fields, said};
use zarrs_check::{CheckedFrom, Finding, PathCheck, check_above};
use zarrs_meaning::NodeCreateError;
use zarrs_path::NodePath;
use zarrs_store::{MemoryStore, StorageError, WritableStorageTraits};

// The entries of a block, with commas between them: a key, a blank and a word each.
fn entries_in<'a>(alloc: Global, list: &'a str) -> Result<Vec<(&'a str, &'a str)>, StorageError> {
    let mut entries = Vec::new(alloc);
    for item in list.split(',') {
        if let Some((key, word)) = item.split_once(' ') {
            entries.push((key, document(alloc, word)?))?;
        }
    }
    Ok(entries)
}

// Stores the document that a word names at a key; of entries in brackets that of a version 3 group with a block of them.
fn set_word(
    store: &mut MemoryStore,
    alloc: Global,
    key: &str,
    word: &str,
) -> Result<(), StorageError> {
    let key = key_of(alloc, key)?;
    match word.strip_prefix('[') {
        Some(list) => {
            let entries = entries_in(alloc, list.strip_suffix(']').unwrap_or(list))?;
            let text = with_block(alloc, entries.as_slice())?;
            store.set(&key, text.as_bytes())
        }
        None => store.set(&key, document(alloc, word)?.as_bytes()),
    }
}

// The store of a list: keys with words, and semicolons between them.
fn store_with_blocks(alloc: Global, list: &str) -> Result<MemoryStore, StorageError> {
    let mut store = MemoryStore::new(alloc);
    for item in list.split(';') {
        if let Some((key, word)) = item.split_once(' ') {
            set_word(&mut store, alloc, key, word)?;
        }
    }
    Ok(store)
}

// What the blocks above a path say otherwise, by the documents of the version that is named, or of any.
fn checked(alloc: Global, given: &str) -> Result<Vec<Finding>, NodeCreateError> {
    let (place, list) = fields(given);
    let (path, version) = place.split_once(" by ").unwrap_or((place, "any"));
    let store = store_with_blocks(alloc, list)?;
    let path = NodePath::new(alloc, path)?;
    let version = version_of(alloc, version)?;
    check_above(alloc, &store, &path, &version)
}

fn checked_said(alloc: Global, given: &str) -> Result<String, AllocError> {
    said(alloc, checked(alloc, given), findings_text)
}

// A path and a store; what the blocks above the path say otherwise.
const CHECKED: &str = r#"
/a | zarr.json [a G3];a/zarr.json G3 =>
/a | zarr.json [a K];a/zarr.json G3 => / /a Differs\n
/a | zarr.json [];a/zarr.json G3 => / /a Missing\n
/a | zarr.json [a G3] => / /a Stale\n
/a | zarr.json [a G3,a/x G3];a/zarr.json G3 => / /a/x Stale\n
/a | zarr.json [a G3];a/zarr.json G3;a/x/zarr.json A3 => / /a/x Missing\n
/a | zarr.json [a G3,a/x K];a/zarr.json G3;a/x/zarr.json A3 => / /a/x Differs\n
/a | zarr.json [a G3,a/x/y G3];a/zarr.json G3;a/x/y/zarr.json G3 => / /a/x/y Unreachable\n/ /a/x/y Unreached\n
/a/x | zarr.json [a/x G3];a/zarr.json G3;a/x/zarr.json G3 => / /a/x Unreachable\n
/a/x | zarr.json [a A3,a/x G3];a/zarr.json A3;a/x/zarr.json G3 => / /a/x Unreachable\n
# nothing is told of what is beside the path or above it
/a | zarr.json [a G3,b K,old G3];a/zarr.json G3;b/zarr.json G3;c/zarr.json G3;a-b/zarr.json G3 =>
/a/x | zarr.json [a K,a/x G3,a/y G3];a/zarr.json G3;a/x/zarr.json G3;a/z/zarr.json G3 =>
# several blocks are above it
/a/x | zarr.json [a G3];a/zarr.json G3;a/x/zarr.json G3 => / /a/x Missing\n
/a/x | a/zarr.json [];a/x/zarr.json G3 => /a /a/x Missing\n
/a/x | zarr.json [a G3,a/x K];a/zarr.json [x G3,x/old G3,y K];a/x/zarr.json G3;a/x/n/zarr.json A3 => / /a/x Differs\n/ /a/x/n Missing\n/a /a/x/n Missing\n/a /a/x/old Stale\n
/a/b/c | zarr.json [];a/zarr.json G3;a/b/zarr.json [d G3];a/b/c/zarr.json G3 => / /a/b/c Missing\n/a/b /a/b/c Missing\n
# the block of the path itself is not above it
/ | zarr.json [a G3] =>
/a | zarr.json G3;a/zarr.json [x G3] =>
# the path is an array: nothing below it is looked at
/a | zarr.json [a G3];a/zarr.json A3;a/x/zarr.json G3 => / /a Differs\n
/a | zarr.json [a A3,a/x G3];a/zarr.json A3;a/x/zarr.json G3 => / /a/x Unreachable\n/ /a/x Unreached\n
/a | zarr.json [a A3,a/x G3];a/zarr.json A3;a/x/zarr.json NUL => / /a/x Unreachable\n/ /a/x Unreached\n
# it has no document
/a | zarr.json [a G3,a/x G3];a/x/zarr.json K => / /a Stale\n/ /a/x Differs\n
/a | zarr.json [];a/x/zarr.json G3 => / /a/x Missing\n
# its document is bad, or one below it
/a | zarr.json [a G3,a/x G3];a/zarr.json NUL =>
/a | zarr.json [a/x G3];a/zarr.json NUL => / /a/x Unreachable\n
/a | zarr.json [a G3,a/x/y G3];a/zarr.json NUL;a/x/zarr.json NUL => / /a/x/y Unreachable\n
/a | zarr.json [a G3];a/zarr.json NUL;a/x/zarr.json G3 => / /a/x Missing\n
/a | zarr.json [a G3,a/x G3,a/x/y G3,a/z G3];a/zarr.json G3;a/x/zarr.json NUL => / /a/z Stale\n
# no block above it reads, and nothing is told of keys
/a | zarr.json {"consolidated_metadata":{"kind":"other"},"node_type":"group","zarr_format":3};a/zarr.json G3 =>
/a | zarr.json A3;a/zarr.json G3 =>
/a | zarr.json NUL;a/zarr.json G3 =>
/a | zarr.json [a K, G3,.. G3,/a G3];a/zarr.json G3 => / /a Differs\n
# nothing is told of own attributes: they are of the group itself
/a | .zgroup G2;.zattrs {"k":1};.zmetadata {"metadata":{".zattrs":{"k":2},".zgroup":{"zarr_format":2},"a/.zgroup":{"zarr_format":2}},"zarr_consolidated_format":1};a/.zgroup G2 =>
# by the documents of one version
/a | .zgroup G2;.zmetadata {"metadata":{"a/.zgroup":{"zarr_format":2},"a/x/.zgroup":{"zarr_format":2}},"zarr_consolidated_format":1};a/.zgroup G2;a/.zattrs {"k":1} => / /a Differs\n/ /a/x Stale\n
/a by v2 | zarr.json [];.zgroup G2;.zmetadata {"metadata":{"a/.zgroup":{"zarr_format":2}},"zarr_consolidated_format":1};a/.zgroup G2;a/zarr.json K =>
/a by v3 | zarr.json [];.zgroup G2;.zmetadata {"metadata":{"a/.zgroup":{"zarr_format":2}},"zarr_consolidated_format":1};a/.zgroup G2;a/zarr.json K => / /a Missing\n
/a by v2 | zarr.json [a K];a/zarr.json G3 =>
/a by v3 | .zgroup G2;.zmetadata {"metadata":{"a/.zgroup":{"zarr_format":2}},"zarr_consolidated_format":1} =>
"#;

#[test]
fn the_blocks_above_a_path_are_compared_from_it_on(rt: HostRuntime) -> Result<(), Fail> {
    check_rows(rt.alloc(), CHECKED, checked_said)
}

// What is told of a path by the documents of the version that is named, or of any, and of the blocks above it.
fn checked_path(alloc: Global, given: &str) -> Result<PathCheck, NodeCreateError> {
    let (place, list) = fields(given);
    let (path, version) = place.split_once(" by ").unwrap_or((place, "any"));
    let store = store_with_blocks(alloc, list)?;
    let path = NodePath::new(alloc, path)?;
    let version = version_of(alloc, version)?;
    PathCheck::of_store(&Discard, alloc, &store, &path, &version)
}

// How much is told of an array, or how many nodes there are from the path on; then the findings of the blocks above.
fn path_text(check: &PathCheck, alloc: Global) -> Result<String, AllocError> {
    let above = findings_text(&check.above, alloc)?;
    match &check.from {
        CheckedFrom::Array(told) => format!(in alloc; "array {}\n{above}", told.len()),
        CheckedFrom::Tree(tree) => format!(in alloc; "nodes {}\n{above}", tree.nodes),
    }
}

fn checked_path_said(alloc: Global, given: &str) -> Result<String, AllocError> {
    said(alloc, checked_path(alloc, given), path_text)
}

// A path and a store; what is told of the path, and of the blocks above it.
const PATHS: &str = r#"
/a | zarr.json [a G3];a/zarr.json A3;a/x/zarr.json G3 => array 0\n/ /a Differs\n
/a | zarr.json [a G3,a/x G3];a/zarr.json G3;a/y/zarr.json G3 => nodes 2\n/ /a/x Stale\n/ /a/y Missing\n
/ | zarr.json [];a/zarr.json G3 => nodes 2\n
/b | zarr.json [] => nodes 0\n
# an array at the root, with a note
/ | zarr.json A3;.zgroup G2 => array 1\n
# by the documents of one version, those above it too
/a by v2 | zarr.json [];a/.zgroup G2 => nodes 1\n
"#;

#[test]
fn a_path_and_the_blocks_above_it_are_checked(rt: HostRuntime) -> Result<(), Fail> {
    check_rows(rt.alloc(), PATHS, checked_path_said)
}
