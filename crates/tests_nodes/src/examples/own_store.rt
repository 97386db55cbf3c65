//! A store of one's own: it answers as the store in memory with the same entries, and its nodes are listed.

use std::alloc::{AllocError, Global};
use std::test::Fail;
use tests_fixtures::{ANY, key_of, listed_in, listing_text, no_word, store_of};
use tests_support::{A3, G3, check_rows, fields, refusal, said};
use zarrs_examples::{ListStore, dir_of_keys, keys_with_prefix};
use zarrs_meaning::NodeCreateError;
use zarrs_node::ListedNodes;
use zarrs_path::NodePath;
use zarrs_store::{
    ListableStorageTraits, Numbers, ReadableStorageTraits, StorageError, StoreKey,
    StoreKeysPrefixes, StorePrefix,
};

// Entries in order: a key that others begin with, names that begin alike, a reserved one, one of two bytes, and a group below a path
// without documents.
const ENTRIES: [(&str, &str); 9] = [
    ("__x/zarr.json", G3),
    ("a", "one"),
    ("a.b/c", ""),
    ("a/0", "two"),
    ("a/b/c/zarr.json", G3),
    ("a/zarr.json", G3),
    ("ab/zarr.json", A3),
    ("zarr.json", G3),
    ("é/zarr.json", G3),
];

// The entries with these keys and bytes.
fn entries_with(
    alloc: Global,
    pairs: &[(&str, &str)],
) -> Result<Vec<(StoreKey, Vec<u8>)>, StorageError> {
    let mut entries = Vec::new(alloc);
    for (key, bytes) in pairs {
        let key = key_of(alloc, key)?;
        entries.push((key, Vec::from_slice(alloc, bytes.as_bytes())?))?;
    }
    Ok(entries)
}

// The store of these entries.
fn own_store_of(
    alloc: Global,
    pairs: &[(&str, &str)],
    numbers: Numbers,
) -> Result<ListStore, StorageError> {
    match ListStore::new(entries_with(alloc, pairs)?, numbers) {
        Ok(store) => Ok(store),
        Err(error) => Err(StorageError::Other(refusal(alloc, &error)?)),
    }
}

// ---- calls

// The prefix that a text is.
fn prefix_of(alloc: Global, text: &str) -> Result<StorePrefix, StorageError> {
    match StorePrefix::new(alloc, text) {
        Ok(prefix) => Ok(prefix),
        Err(_) => Err(no_word(alloc, text)),
    }
}

// The texts of keys, each behind a blank.
fn keys_said(alloc: Global, keys: &[StoreKey]) -> Result<String, StorageError> {
    let mut text = String::from_str(alloc, "keys")?;
    for key in keys {
        write!(text, " {key}")?;
    }
    Ok(text)
}

// The texts of keys, and those of prefixes.
fn dir_said(alloc: Global, dir: &StoreKeysPrefixes) -> Result<String, StorageError> {
    let mut text = keys_said(alloc, dir.keys.as_slice())?;
    text.push_str(", prefixes")?;
    for prefix in &dir.prefixes {
        write!(text, " {prefix}")?;
    }
    Ok(text)
}

// The bytes as a text, or that there are none.
fn bytes_said(alloc: Global, bytes: Option<Vec<u8>>) -> Result<String, StorageError> {
    match bytes {
        Some(bytes) => {
            let text = String::from_utf8_lossy(alloc, bytes.as_slice())?;
            Ok(format!(in alloc; "bytes '{text}'")?)
        }
        None => Ok(String::from_str(alloc, "nothing")?),
    }
}

// A call, and the key or the prefix behind it.
fn parts(given: &str) -> (&str, &str) {
    given.split_once(' ').unwrap_or((given, ""))
}

// What a store answers to a call.
fn answer<S: ReadableStorageTraits + ListableStorageTraits>(
    alloc: Global,
    store: &S,
    given: &str,
) -> Result<String, StorageError> {
    let (call, at) = parts(given);
    if call == "get" {
        let key = key_of(alloc, at)?;
        return bytes_said(alloc, store.get(alloc, &key)?);
    }
    let prefix = prefix_of(alloc, at)?;
    match call {
        "list" => keys_said(alloc, store.list(alloc)?.as_slice()),
        "list_prefix" => keys_said(alloc, store.list_prefix(alloc, &prefix)?.as_slice()),
        "list_dir" => dir_said(alloc, &store.list_dir(alloc, &prefix)?),
        word => Err(no_word(alloc, word)),
    }
}

fn own_answer(alloc: Global, given: &str) -> Result<String, StorageError> {
    let store = own_store_of(alloc, &ENTRIES, Numbers::Whole)?;
    answer(alloc, &store, given)
}

fn answer_in_memory(alloc: Global, given: &str) -> Result<String, StorageError> {
    let store = store_of(alloc, &ENTRIES)?;
    answer(alloc, &store, given)
}

// A call over the entries, and its answer.
const CALLS: &str = r#"
list => keys __x/zarr.json a a.b/c a/0 a/b/c/zarr.json a/zarr.json ab/zarr.json zarr.json é/zarr.json
# keys that begin with a prefix
list_prefix => keys __x/zarr.json a a.b/c a/0 a/b/c/zarr.json a/zarr.json ab/zarr.json zarr.json é/zarr.json
list_prefix a/ => keys a/0 a/b/c/zarr.json a/zarr.json
list_prefix a/b/ => keys a/b/c/zarr.json
list_prefix a/0/ => keys
list_prefix a.b/ => keys a.b/c
list_prefix é/ => keys é/zarr.json
list_prefix b/ => keys
# what stands directly below one
list_dir => keys a zarr.json, prefixes __x/ a.b/ a/ ab/ é/
list_dir a/ => keys a/0 a/zarr.json, prefixes a/b/
list_dir a/b/ => keys, prefixes a/b/c/
list_dir a/b/c/ => keys a/b/c/zarr.json, prefixes
list_dir a/0/ => keys, prefixes
list_dir z/ => keys, prefixes
# bytes
get a => bytes 'one'
get a/0 => bytes 'two'
get a.b/c => bytes ''
get __x/zarr.json => bytes '{"node_type":"group","zarr_format":3}'
get é/zarr.json => bytes '{"node_type":"group","zarr_format":3}'
get a.b => nothing
get a/b => nothing
get 0 => nothing
get êtes => nothing
"#;

#[test]
fn a_store_of_entries_answers_as_one_in_memory(rt: HostRuntime) -> Result<(), Fail> {
    check_rows(rt.alloc(), CALLS, own_answer)?;
    check_rows(rt.alloc(), CALLS, answer_in_memory)
}

// ---- stores that can list only all their keys

// The keys of a row.
fn keys_of(alloc: Global, given: &str) -> Result<Vec<StoreKey>, StorageError> {
    let mut keys = Vec::new(alloc);
    for key in given.split_whitespace() {
        keys.push(key_of(alloc, key)?)?;
    }
    Ok(keys)
}

fn below(alloc: Global, given: &str) -> Result<String, StorageError> {
    let (keys, prefix) = fields(given);
    let keys = keys_of(alloc, keys)?;
    let below = keys_with_prefix(keys, &prefix_of(alloc, prefix)?);
    keys_said(alloc, below.as_slice())
}

// All keys, in any order, and a prefix; the keys that begin with it.
const BELOW: &str = r#"
c/d b a/z a a/b/c |  => keys c/d b a/z a a/b/c
c/d b a/z a a/b/c | a/ => keys a/z a/b/c
c/d b a/z a a/b/c | a/b/ => keys a/b/c
c/d b a/z a a/b/c | a/z/ => keys
 |  => keys
"#;

#[test]
fn keys_with_a_prefix_are_picked(rt: HostRuntime) -> Result<(), Fail> {
    check_rows(rt.alloc(), BELOW, below)
}

fn dir(alloc: Global, given: &str) -> Result<String, StorageError> {
    let (keys, prefix) = fields(given);
    let keys = keys_of(alloc, keys)?;
    let dir = dir_of_keys(alloc, keys, &prefix_of(alloc, prefix)?)?;
    dir_said(alloc, &dir)
}

// All keys, in any order, and a prefix; what stands directly below it.
const DIRS: &str = r#"
c/d b a/z a a/b/c |  => keys a b, prefixes a/ c/
c/d b a/z a a/b/c | a/ => keys a/z, prefixes a/b/
c/d b a/z a a/b/c | a/b/ => keys a/b/c, prefixes
c/d b a/z a a/b/c | b/ => keys, prefixes
a/2 a/1/y a/0 a/1/x | a/ => keys a/0 a/2, prefixes a/1/
 |  => keys, prefixes
"#;

#[test]
fn what_stands_below_a_prefix_is_made_of_all_keys(rt: HostRuntime) -> Result<(), Fail> {
    check_rows(rt.alloc(), DIRS, dir)
}

// ---- the store

fn made(alloc: Global, given: &str) -> Result<String, StorageError> {
    let mut entries = Vec::new(alloc);
    for key in given.split_whitespace() {
        entries.push((key_of(alloc, key)?, Vec::new(alloc)))?;
    }
    match ListStore::new(entries, Numbers::Whole) {
        Ok(store) => keys_said(alloc, store.list(alloc)?.as_slice()),
        Err(error) => Ok(refusal(alloc, &error)?),
    }
}

// The keys of entries; those of the store, or why there is none.
const MADE: &str = r#"
 => keys
a => keys a
a-b a/b a0 => keys a-b a/b a0
a a => Double: two entries have the key a
a b b c a => Double: two entries have the key b
b a => Unordered: the key a stands behind a greater one
a b a => Unordered: the key a stands behind a greater one
a c b b => Unordered: the key b stands behind a greater one
a/b a-b => Unordered: the key a-b stands behind a greater one
é z => Unordered: the key z stands behind a greater one
"#;

#[test]
fn entries_that_do_not_ascend_are_refused(rt: HostRuntime) -> Result<(), Fail> {
    check_rows(rt.alloc(), MADE, made)
}

// ---- nodes

fn nodes_in(alloc: Global, path: &str) -> Result<ListedNodes, NodeCreateError> {
    let store = own_store_of(alloc, &ENTRIES, Numbers::Whole)?;
    store.nodes(alloc, &NodePath::new(alloc, path)?)
}

fn nodes(alloc: Global, path: &str) -> Result<String, AllocError> {
    said(alloc, nodes_in(alloc, path), listing_text)
}

fn nodes_in_memory(alloc: Global, path: &str) -> Result<String, AllocError> {
    let listed = match store_of(alloc, &ENTRIES) {
        Ok(store) => listed_in(alloc, &store, path, true, ANY),
        Err(error) => Err(NodeCreateError::StorageError(error)),
    };
    said(alloc, listed, listing_text)
}

// A path, and the nodes below it.
const NODES: &str = r#"
/ => /a G3\n/ab A3\n/é G3\nignored /a/b\nignored /a.b\n
/a => ignored /a/b\n
/a/b => /a/b/c G3\n
/ab =>
"#;

#[test]
fn its_nodes_are_those_of_the_store_in_memory(rt: HostRuntime) -> Result<(), Fail> {
    check_rows(rt.alloc(), NODES, nodes)?;
    check_rows(rt.alloc(), NODES, nodes_in_memory)
}

// A group with a fraction.
const FRACTION: [(&str, &str); 1] = [(
    "a/zarr.json",
    r#"{"attributes":{"x":0.5},"node_type":"group","zarr_format":3}"#,
)];

fn nodes_of_fractions(alloc: Global, numbers: Numbers) -> Result<ListedNodes, NodeCreateError> {
    let store = own_store_of(alloc, &FRACTION, numbers)?;
    store.nodes(alloc, &NodePath::root(alloc)?)
}

fn numbered(alloc: Global, given: &str) -> Result<String, AllocError> {
    let numbers = if given == "Any" {
        Numbers::Any
    } else {
        Numbers::Whole
    };
    said(alloc, nodes_of_fractions(alloc, numbers), listing_text)
}

// The numbers that the maker chose, and the nodes of a store with a fraction.
const NUMBERS: &str = r#"
Whole => StorageError(InvalidMetadata): error parsing metadata for a/zarr.json: unsupported number
Any => /a {"attributes":{"x":0.5},"node_type":"group","zarr_format":3}\n
"#;

#[test]
fn its_documents_hold_the_numbers_that_its_maker_chose(rt: HostRuntime) -> Result<(), Fail> {
    check_rows(rt.alloc(), NUMBERS, numbered)
}
