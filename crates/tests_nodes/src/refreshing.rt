//! A block made current where the documents of one path changed.

use crate::given::{pairs_in, store_in};
use log::sink::Discard;
use std::alloc::{AllocError, Global};
use std::process::Abort;
use std::test::Fail;
use tests_fixtures::{ANY, entries_of, entries_text, key_of, no_word};
use tests_support::{A3, G3, check_rows, fields, said};
use zarrs_block::ConsolidatedMetadataMetadata;
use zarrs_meaning::NodeCreateError;
use zarrs_meta::{GroupMetadata, GroupMetadataV3, NodeMetadata};
use zarrs_node::{Node, get_child_nodes, laws, refresh_block, refresh_owned_block};
use zarrs_path::NodePath;
use zarrs_store::{
    ListableStorageTraits, MemoryStore, ReadableStorageTraits, StorageError, WritableStorageTraits,
};

type Block = ConsolidatedMetadataMetadata;

// A group over all that is listed below a path of a store.
fn group_over<S: ReadableStorageTraits + ListableStorageTraits>(
    alloc: Global,
    store: &S,
    path: &str,
) -> Result<Node, NodeCreateError> {
    let path = NodePath::new(alloc, path)?;
    let children = get_child_nodes(&Discard, alloc, store, &path, true)?;
    let metadata = NodeMetadata::Group(GroupMetadata::V3(GroupMetadataV3::new(alloc)));
    Ok(Node::new_with_metadata(path, metadata, children))
}

// The block of a node; an empty one of what has none.
fn block_below(node: &Node, alloc: Global) -> Result<Block, NodeCreateError> {
    if node.has_placed_children() {
        if let Some(block) = node.consolidate_metadata(alloc)? {
            return Ok(block);
        }
    }
    Ok(Block::new(alloc))
}

// The block of all that is listed below a path of a store.
fn block_of<S: ReadableStorageTraits + ListableStorageTraits>(
    alloc: Global,
    store: &S,
    path: &str,
) -> Result<Block, NodeCreateError> {
    let node = group_over(alloc, store, path)?;
    block_below(&node, alloc)
}

// A block made current at a path below a base.
fn refreshed<S: ReadableStorageTraits + ListableStorageTraits>(
    alloc: Global,
    store: &S,
    base: &str,
    block: &Block,
    path: &str,
) -> Result<Block, NodeCreateError> {
    let base = NodePath::new(alloc, base)?;
    let path = NodePath::new(alloc, path)?;
    if !path.is_below(&base) {
        return Err(NodeCreateError::from(no_word(alloc, "a path below the base")));
    }
    refresh_block(alloc, store, &base, &ANY, block, &path)
}

// ---- one change after another

// The block of the first store of a row, made current at the row's path in each store behind it, one after another.
fn changed(alloc: Global, given: &str) -> Result<Block, NodeCreateError> {
    let (path, rest) = fields(given);
    let (first, changes) = fields(rest);
    let mut block = block_of(alloc, &store_in(alloc, first)?, "/")?;
    for change in changes.split('|') {
        block = refreshed(alloc, &store_in(alloc, change.trim())?, "/", &block, path)?;
    }
    Ok(block)
}

fn changed_said(alloc: Global, given: &str) -> Result<String, AllocError> {
    said(alloc, changed(alloc, given), entries_text)
}

// Path and stores; the last block.
const CHANGED: &str = r#"
# only the path and what is below it is made anew
/group/subgroup | three levels | two erased => array A3_SQUARE\ngroup G3\ngroup/array A3_SQUARE\n
/group/subgroup | three levels | two erased | one set again => array A3_SQUARE\ngroup G3\ngroup/array A3_SQUARE\ngroup/subgroup G3\ngroup/subgroup/mysubarray A3_SQUARE\n
"#;

#[test]
fn only_the_path_and_what_is_below_it_is_made_anew(rt: HostRuntime) -> Result<(), Fail> {
    check_rows(rt.alloc(), CHANGED, changed_said)
}

// ---- one change

// The block that has the nodes of a list.
fn block_in(alloc: Global, nodes: &str) -> Result<Block, NodeCreateError> {
    let nodes = pairs_in(alloc, nodes)?;
    entries_of(alloc, nodes.as_slice())
}

// The block of a row made current: the base, the path, the nodes of the block, and the store.
fn refreshed_given(alloc: Global, given: &str) -> Result<Block, NodeCreateError> {
    let (base, rest) = fields(given);
    let (path, rest) = fields(rest);
    let (nodes, documents) = fields(rest);
    let block = block_in(alloc, nodes)?;
    let store = store_in(alloc, documents)?;
    refreshed(alloc, &store, base, &block, path)
}

fn entries_said(alloc: Global, given: &str) -> Result<String, AllocError> {
    said(alloc, refreshed_given(alloc, given), entries_text)
}

// The block of a row made current in its place: the base, the path, the nodes of the block, and the store.
fn owned_given(alloc: Global, given: &str) -> Result<Block, NodeCreateError> {
    let (base, rest) = fields(given);
    let (path, rest) = fields(rest);
    let (nodes, documents) = fields(rest);
    let block = block_in(alloc, nodes)?;
    let store = store_in(alloc, documents)?;
    let base = NodePath::new(alloc, base)?;
    let path = NodePath::new(alloc, path)?;
    if !path.is_below(&base) {
        return Err(NodeCreateError::from(no_word(alloc, "a path below the base")));
    }
    refresh_owned_block(alloc, &store, &base, &ANY, block, &path)
}

fn owned_said(alloc: Global, given: &str) -> Result<String, AllocError> {
    said(alloc, owned_given(alloc, given), entries_text)
}

// Base, path, the nodes of the block, and the store; the block that is made current, or the refusal.
const CURRENT: &str = r#"
# siblings and keys that are no paths stay
/ | /a | a G3;/a G3;a/x A3;/a/x A3;a-b A3;a0 A3;ab G3;//a A3;__x G3; G3;/ G3;b/../c A3 | =>  G3\n/ G3\n//a A3\n__x G3\na-b A3\na0 A3\nab G3\nb/../c A3\n
/ | /a | a G3;/a G3;a/x A3;/a/x A3;a-b A3;a0 A3;ab G3;//a A3;__x G3; G3;/ G3;b/../c A3 | a/zarr.json A3_SQUARE =>  G3\n/ G3\n//a A3\n__x G3\na A3_SQUARE\na-b A3\na0 A3\nab G3\nb/../c A3\n

# what is bad at the path or below it refuses
/ | /g | g G3;h A3 | g/zarr.json {};g/a/zarr.json G3 => StorageError(InvalidMetadata): error parsing metadata for g/zarr.json: wrong zarr_format
/ | /g | g G3;h A3 | g/zarr.json G3;g/a/zarr.json [ => StorageError(InvalidMetadata): error parsing metadata for g/a/zarr.json: not JSON
/ | /g | g G3;h A3 | g/zarr.json G2;g/a/zarr.json G3 => MetadataVersionMismatch: Found V2 metadata in V3 key or vice-versa
/ | /g | g G3;h A3 | g/zarr.json G3;g/../x => StorageError(Other): invalid node path /g/..

# what is bad elsewhere or below no group is not asked
/ | /x | g G3;h A3 | g/zarr.json {};x/zarr.json A3 => g G3\nh A3\nx A3\n
/ | /h/a | g G3;h A3 | h/a/zarr.json {};x/zarr.json A3 => g G3\nh A3\n

# a group that became an array has nothing below it
/ | /g | g G3;g/a A3;g/a/b A3;h G3 | g/zarr.json A3;g/a/zarr.json A3 => g A3\nh G3\n

# an array that became a group has all below it
/b | /b/x/g | x/g A3;x G3 | b/x/g/.zgroup G2;b/x/g/a/zarr.json A3;b/x/g/h/zarr.json G3;b/x/g/h/i/zarr.json G3;b/x/g/n/c/0;b/y/zarr.json A3 => x G3\nx/g G2\nx/g/a A3\nx/g/h G3\nx/g/h/i G3\n

# below a path that is no group of the block nothing is added
/ | /g/a | g A3;g/a G3 | g/a/zarr.json A3;g/zarr.json G3 => g A3\n
/ | /g/a | h G3;g/a/b G3 | g/a/zarr.json A3;g/zarr.json G3 => h G3\n
/ | /g/a | /g G3;x A3 | g/a/zarr.json A3;g/zarr.json G3 => /g G3\ng/a A3\nx A3\n
/ | /g/a | /g G3;g A3 | g/a/zarr.json A3;g/zarr.json G3 => /g G3\ng A3\n
"#;

#[test]
fn a_block_made_current_has_these_entries(rt: HostRuntime) -> Result<(), Fail> {
    check_rows(rt.alloc(), CURRENT, entries_said)
}

#[test]
fn a_block_changed_in_its_place_has_the_same_entries(rt: HostRuntime) -> Result<(), Fail> {
    check_rows(rt.alloc(), CURRENT, owned_said)
}

// ---- every store of three paths, and every change of one

// A document at a key, where it is not empty.
fn put(
    store: &mut MemoryStore,
    alloc: Global,
    key: &str,
    document: &str,
) -> Result<(), StorageError> {
    if document.is_empty() {
        return Ok(());
    }
    let key = key_of(alloc, key)?;
    store.set(&key, document.as_bytes())
}

// The store with these documents at `/a`, `/a/b` and `/a-b`.
fn store_with(alloc: Global, a: &str, b: &str, other: &str) -> Result<MemoryStore, StorageError> {
    let mut store = MemoryStore::new(alloc);
    put(&mut store, alloc, "a/zarr.json", a)?;
    put(&mut store, alloc, "a/b/zarr.json", b)?;
    put(&mut store, alloc, "a-b/zarr.json", other)?;
    Ok(store)
}

// The block of the first store, made current at a path of the second, and the block of the second.
fn old_and_new(
    alloc: Global,
    before: Result<MemoryStore, StorageError>,
    after: Result<MemoryStore, StorageError>,
    path: &str,
) -> Result<(String, String), NodeCreateError> {
    let before = before?;
    let after = after?;
    let block = block_of(alloc, &before, "/")?;
    let fresh = refreshed(alloc, &after, "/", &block, path)?;
    let new = block_of(alloc, &after, "/")?;
    Ok((entries_text(&fresh, alloc)?, entries_text(&new, alloc)?))
}

// Asserts that both blocks are one.
fn assert_follows<R: Abort>(
    rt: &R,
    alloc: Global,
    before: Result<MemoryStore, StorageError>,
    after: Result<MemoryStore, StorageError>,
    path: &str,
) {
    match old_and_new(alloc, before, after, path) {
        Ok((fresh, new)) => assert_eq!(rt; fresh.as_str(), new.as_str(), "{path}"),
        Err(_) => assert!(rt; false, "refused at {path}"),
    }
}

#[test]
fn the_block_follows_every_change_of_every_small_store(rt: HostRuntime) {
    let alloc = rt.alloc();
    let documents = ["", G3, A3];
    for code in 0..81 {
        let a = documents[code % 3];
        let b = documents[code / 3 % 3];
        let other = documents[code / 9 % 3];
        let new = documents[code / 27 % 3];
        let changed = store_with(alloc, new, b, other);
        assert_follows(&rt, alloc, store_with(alloc, a, b, other), changed, "/a");
        let changed = store_with(alloc, a, new, other);
        assert_follows(&rt, alloc, store_with(alloc, a, b, other), changed, "/a/b");
        let changed = store_with(alloc, a, b, new);
        assert_follows(&rt, alloc, store_with(alloc, a, b, other), changed, "/a-b");
    }
}

// ---- without memory

#[test]
fn a_fresh_block_is_whole_or_memory_is_wanting(rt: HostRuntime) -> Result<(), Fail> {
    check_rows(rt.alloc(), CHANGED_TWICE, changed_said)
}

// Here no allocation is refused, and the block is whole. Under `bench/break/alloc` it is that or out of memory.
const CHANGED_TWICE: &str = r#"
/group/subgroup | three levels | two erased | one set again => array A3_SQUARE\ngroup G3\ngroup/array A3_SQUARE\ngroup/subgroup G3\ngroup/subgroup/mysubarray A3_SQUARE\n
"#;

#[test]
fn the_laws_of_fresh_blocks_are_called() {
    laws::fresh_is_block();
    laws::refreshed_is_block();
    laws::refreshed_is_opened();
    laws::one_listed_block();
    laws::fresh_is_listed();
    laws::listed_block_stays();
}
