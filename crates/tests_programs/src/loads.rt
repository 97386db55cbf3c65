//! Which keys are loaded, and what a listing over them says.

use crate::same::is_same;
use std::alloc::{AllocError, Global};
use std::test::Fail;
use tests_fixtures::{ANY, document_of, listed_in, listing_text, store_of};
use tests_support::{check_rows, fields, said};
use zarrs_folder::{
    Documents, Folder, FolderFault, laws, load_base, load_below, load_children, load_nodes,
};
use zarrs_meaning::NodeCreateError;
use zarrs_path::NodePath;
use zarrs_store::{
    AnyNumbers, ListableStorageTraits, MemoryStore, ReadableStorageTraits, StorageError, StoreKey,
    StorePrefix,
};

// The store with the documents of a list: a key, a blank and a document each, with semicolons between them. A key alone has the empty document.
pub(crate) fn store_in(alloc: Global, list: &str) -> Result<AnyNumbers<MemoryStore>, StorageError> {
    let mut pairs = Vec::new(alloc);
    for item in list.split(';') {
        if !item.is_empty() {
            let (key, word) = item.split_once(' ').unwrap_or((item, ""));
            pairs.push((key, document_of(alloc, word)?))?;
        }
    }
    let inner = store_of(alloc, pairs.as_slice())?;
    Ok(AnyNumbers { inner })
}

// A key, with a star where the whole store has other bytes there.
fn key_said(
    alloc: Global,
    whole: &AnyNumbers<MemoryStore>,
    loaded: &AnyNumbers<MemoryStore>,
    key: &StoreKey,
) -> Result<String, StorageError> {
    let mut text = String::from_str(alloc, key.as_str())?;
    if loaded.get(alloc, key)? != whole.get(alloc, key)? {
        text.push('*')?;
    }
    Ok(text)
}

// The keys of a loaded store, with a blank behind each.
pub(crate) fn keys_said(
    alloc: Global,
    whole: &AnyNumbers<MemoryStore>,
    loaded: &AnyNumbers<MemoryStore>,
) -> Result<String, StorageError> {
    let mut text = String::new(alloc);
    for key in loaded.list(alloc)? {
        let key = key_said(alloc, whole, loaded, &key)?;
        text.push_str(key.as_str())?;
        text.push(' ')?;
    }
    Ok(text)
}

// What a listing below a path says.
fn listing_said(
    alloc: Global,
    store: &AnyNumbers<MemoryStore>,
    base: &str,
) -> Result<String, AllocError> {
    said(
        alloc,
        listed_in(alloc, store, base, true, ANY),
        listing_text,
    )
}

// Whether a listing over the loaded store says what one over the whole says.
fn compared(
    alloc: Global,
    whole: &AnyNumbers<MemoryStore>,
    loaded: &AnyNumbers<MemoryStore>,
    base: &str,
) -> Result<&'static str, AllocError> {
    let wanted = listing_said(alloc, whole, base)?;
    let found = listing_said(alloc, loaded, base)?;
    Ok(if found.as_str() == wanted.as_str() {
        "| same"
    } else {
        "| other"
    })
}

// A folder that is a store in memory is only ever out of memory.
pub(crate) fn of_store(
    loaded: Result<AnyNumbers<MemoryStore>, FolderFault>,
) -> Result<AnyNumbers<MemoryStore>, NodeCreateError> {
    loaded.map_err(|_| NodeCreateError::OutOfMemory)
}

// What is loaded of a store from a base on.
fn nodes_of(
    alloc: Global,
    documents: Documents,
    base: &str,
    whole: &mut AnyNumbers<MemoryStore>,
) -> Result<AnyNumbers<MemoryStore>, NodeCreateError> {
    let base = NodePath::new(alloc, base)?;
    of_store(load_nodes(alloc, &mut whole.inner, documents, &base))
}

// What is loaded of the base itself.
fn base_of(
    alloc: Global,
    base: &str,
    whole: &mut AnyNumbers<MemoryStore>,
) -> Result<AnyNumbers<MemoryStore>, NodeCreateError> {
    let base = NodePath::new(alloc, base)?;
    of_store(load_base(alloc, &mut whole.inner, &base))
}

fn loaded_said(
    alloc: Global,
    documents: Documents,
    given: &str,
) -> Result<String, NodeCreateError> {
    let (base, list) = fields(given);
    let mut whole = store_in(alloc, list)?;
    let loaded = nodes_of(alloc, documents, base, &mut whole)?;
    let mut text = keys_said(alloc, &whole, &loaded)?;
    text.push_str(compared(alloc, &whole, &loaded, base)?)?;
    Ok(text)
}

fn nodes_loaded(alloc: Global, given: &str) -> Result<String, NodeCreateError> {
    loaded_said(alloc, Documents::All, given)
}

fn nodes_listed(alloc: Global, given: &str) -> Result<String, NodeCreateError> {
    loaded_said(alloc, Documents::Deciding, given)
}

fn base_loaded(alloc: Global, given: &str) -> Result<String, NodeCreateError> {
    let (base, documents) = fields(given);
    let mut whole = store_in(alloc, documents)?;
    let loaded = base_of(alloc, base, &mut whole)?;
    let mut text = keys_said(alloc, &whole, &loaded)?;
    text.push('|')?;
    Ok(text)
}

// A base, and the store; the keys that are loaded, with a star where they have other bytes, and whether a listing over them says the same.
const NODES: &str = r#"
# both versions: documents, and no chunk
/ | zarr.json G3;a/zarr.json A3;a/c/0 {};g/zarr.json G3;g/x/zarr.json A3;g/x/c/0/0 {} => a/zarr.json g/x/zarr.json g/zarr.json zarr.json | same
/ | .zgroup G2;.zattrs {};a/.zarray A2;a/.zattrs {};a/0 {};g/.zgroup G2;g/a/.zarray A2;g/a/0.0 {} => .zattrs .zgroup a/.zarray a/.zattrs g/.zgroup g/a/.zarray | same
/ | zarr.json G3;a/.zarray A2;a/zarr.json A3;g/.zgroup G2;g/zarr.json G3;g/.zattrs {"k":0.5} => a/.zarray a/zarr.json g/.zattrs g/.zgroup g/zarr.json zarr.json | same
# blocks: the document beside each group
/ | .zgroup G2;.zmetadata {"metadata":{},"zarr_consolidated_format":1};g/.zgroup G2;g/.zmetadata {} => .zgroup .zmetadata g/.zgroup g/.zmetadata | same
# an array with nodes below it
/ | zarr.json G3;a/zarr.json A3;a/b/zarr.json G3;a/.zattrs {} => a/.zattrs a/zarr.json zarr.json | same
/ | .zgroup G2;a/.zarray A2;a/b/.zgroup G2;a/b/c/.zarray A2 => .zgroup a/.zarray | same
# a group whose node type is escaped, or stands among other words; an array that has the word elsewhere
/ | zarr.json G3;g/zarr.json {"node_type":"gr\u006fup","zarr_format":3};g/a/zarr.json A3 => g/a/zarr.json g/zarr.json zarr.json | same
/ | zarr.json G3;g/zarr.json { "node_type" : "group" , "zarr_format" : 3 };g/a/zarr.json A3 => g/a/zarr.json g/zarr.json zarr.json | same
/ | zarr.json G3;a/zarr.json {"node_type":"array","attributes":{"k":"group"},"zarr_format":3};a/b/zarr.json G3 => a/zarr.json zarr.json | same
/ | zarr.json G3;a/zarr.json {"node_type":"group";a/b/zarr.json G3 => a/zarr.json zarr.json | same
# a group and an array of version 2 in one folder
/ | .zgroup G2;a/.zgroup G2;a/.zarray A2;a/b/.zarray A2 => .zgroup a/.zarray a/.zgroup | same
/ | .zgroup G2;a/.zarray {};a/.zgroup G2;a/b/.zarray A2 => .zgroup a/.zarray a/.zgroup | same
/ | .zgroup G2;a/zarr.json G3;a/.zarray A2;a/b/.zarray A2 => .zgroup a/.zarray a/b/.zarray a/zarr.json | same
# a folder without documents: one key below it, without bytes, and no node further down
/ | zarr.json G3;u/v/zarr.json G3 => u/v/zarr.json* zarr.json | same
/ | zarr.json G3;u/0 {};u/1 {};u/v/w/zarr.json G3 => u/v/w/zarr.json* zarr.json | same
/ | zarr.json G3;g/zarr.json G3;g/u/x/y {};g/w/zarr.json G3 => g/u/x/y* g/w/zarr.json g/zarr.json zarr.json | same
/ | zarr.json G3;u/.zattrs {};u/v/zarr.json G3 => u/.zattrs zarr.json | same
/ | zarr.json G3;zarr.json/x {};readme {} => zarr.json zarr.json/x* | same
# bad documents, and what is below them
/ | zarr.json G3;a/zarr.json [];a/b/zarr.json G3 => a/zarr.json zarr.json | same
/ | zarr.json G3;a/zarr.json G2;a/b/zarr.json G3;a/.zgroup G2 => a/.zgroup a/zarr.json zarr.json | same
/ | .zgroup G2;a/.zgroup G2;a/.zattrs NUL;a/b/.zgroup G2 => .zgroup a/.zattrs a/.zgroup | same
/ | zarr.json [];a/zarr.json G3;a/b/zarr.json A3 => a/b/zarr.json a/zarr.json zarr.json | same
# odd names: of periods, reserved, with other letters
/ | zarr.json G3;../x/y {} => ../x/y* zarr.json | same
/ | zarr.json G3;g/zarr.json G3;g/.../zarr.json G3 => g/.../zarr.json* g/zarr.json zarr.json | same
/ | zarr.json G3;__r/zarr.json G3;__r/a/zarr.json G3 => __r/zarr.json* zarr.json | same
/ | zarr.json G3;a+b/zarr.json G3;ä/zarr.json A3;.hidden/zarr.json G3 => .hidden/zarr.json a+b/zarr.json zarr.json ä/zarr.json | same
/ | zarr.json G3;a-b/zarr.json G3;a/zarr.json G3;a/b/zarr.json G3;a.b/zarr.json G3 => a-b/zarr.json a.b/zarr.json a/b/zarr.json a/zarr.json zarr.json | same
# no documents at the base
/ | a/zarr.json G3;a/x/zarr.json A3;b/c/d {} => a/x/zarr.json a/zarr.json b/c/d* | same
/ | => | same
# other bases: only what is below them
/g | zarr.json G3;g/zarr.json G3;g/a/zarr.json A3;h/zarr.json G3 => g/a/zarr.json g/zarr.json | same
/g/h | zarr.json G3;g/h/zarr.json G3;g/h/i/zarr.json G3;g/h/i/j/zarr.json A3 => g/h/i/j/zarr.json g/h/i/zarr.json g/h/zarr.json | same
/nope | zarr.json G3;g/zarr.json G3 => | same
/u | zarr.json G3;u/v/zarr.json G3 => u/v/zarr.json | same
# what a broken-off writing of a block left, of a group alone beside its document
/ | zarr.json G3;zarr.json.zarrs_new [];g/zarr.json G3;g/zarr.json.zarrs_new [];g/.zmetadata.zarrs_new [] => g/zarr.json g/zarr.json.zarrs_new zarr.json zarr.json.zarrs_new | same
/ | .zgroup G2;.zmetadata.zarrs_new [];g/.zgroup G2;g/.zmetadata.zarrs_new [];g/zarr.json.zarrs_new [] => .zgroup .zmetadata.zarrs_new g/.zgroup g/.zmetadata.zarrs_new | same
/ | .zgroup G2;a/.zarray A2;a/.zgroup G2;a/.zmetadata.zarrs_new [] => .zgroup a/.zarray a/.zgroup | same
# an array as base: its documents only, and no listing below it
/a | zarr.json G3;a/zarr.json A3;a/c/0 {} => a/zarr.json | other
/a | zarr.json G3;a/zarr.json A3 => a/zarr.json | same
"#;

#[test]
fn nodes_are_loaded_and_shown_as_of_the_whole(rt: HostRuntime) -> Result<(), Fail> {
    check_rows(rt.alloc(), NODES, nodes_loaded)
}

// The same, of the documents that decide.
const LISTED: &str = r#"
# beside a `zarr.json` nothing else is looked at, good or bad, nor below an array
/ | zarr.json G3;a/zarr.json A3;a/.zarray A2;a/.zgroup G2;a/.zattrs {};a/.zmetadata {};a/b/zarr.json G3 => a/zarr.json zarr.json | same
/ | zarr.json G3;g/zarr.json G3;g/.zattrs {"k":0.5};g/.zgroup G2;g/a/zarr.json A3 => g/a/zarr.json g/zarr.json zarr.json | same
/ | zarr.json G3;a/zarr.json [];a/.zarray A2;a/.zattrs {} => a/zarr.json zarr.json | same
# beside a `.zarray` its attributes, and no `.zgroup`
/ | .zgroup G2;a/.zarray A2;a/.zattrs {};a/.zgroup G2;a/.zmetadata {};a/0 {} => .zgroup a/.zarray a/.zattrs | same
/ | .zgroup G2;a/.zarray {};a/.zgroup G2;a/b/.zarray A2 => .zgroup a/.zarray | same
/ | .zgroup G2;a/.zarray A2;a/.zattrs NUL => .zgroup a/.zarray a/.zattrs | same
# of a group its attributes, and no block
/ | .zgroup G2;g/.zgroup G2;g/.zattrs {};g/.zmetadata {};g/a/.zarray A2 => .zgroup g/.zattrs g/.zgroup g/a/.zarray | same
# all documents of the base
/ | zarr.json G3;.zarray A2;.zgroup G2;.zattrs {};.zmetadata {};a/zarr.json A3 => .zarray .zattrs .zgroup .zmetadata a/zarr.json zarr.json | same
# a folder without such documents: one key below it
/ | zarr.json G3;u/.zmetadata {};u/v/zarr.json G3 => u/v/zarr.json* zarr.json | same
/ | zarr.json G3;u/.zmetadata {} => u/.zmetadata* zarr.json | same
/ | zarr.json G3;u/.zattrs {};u/v/zarr.json G3 => u/.zattrs zarr.json | same
# nothing that a broken-off writing left
/ | zarr.json G3;zarr.json.zarrs_new [];g/zarr.json G3;g/zarr.json.zarrs_new [] => g/zarr.json zarr.json | same
/ | .zgroup G2;.zmetadata.zarrs_new [];g/.zgroup G2;g/.zmetadata.zarrs_new [] => .zgroup g/.zgroup | same
"#;

#[test]
fn what_decides_is_loaded_and_listed_as_of_the_whole(rt: HostRuntime) -> Result<(), Fail> {
    check_rows(rt.alloc(), LISTED, nodes_listed)
}

// A base, and the store; the keys that are loaded.
const BASES: &str = r#"
/ | zarr.json G3;a/zarr.json A3;u/x {} => zarr.json |
/ | .zgroup G2;.zattrs {};.zmetadata {};.zarray A2;zarr.json G3;a/.zgroup G2;0 {} => .zarray .zattrs .zgroup .zmetadata zarr.json |
/g | zarr.json G3;g/.zgroup G2;g/.zmetadata {};g/a/.zarray A2 => g/.zgroup g/.zmetadata |
/nope | zarr.json G3 => |
"#;

#[test]
fn a_base_has_its_documents_only(rt: HostRuntime) -> Result<(), Fail> {
    check_rows(rt.alloc(), BASES, base_loaded)
}

// ---- in two steps

// What is loaded of a base, and then below it by a call.
fn steps_said(alloc: Global, call: &str, given: &str) -> Result<String, NodeCreateError> {
    let (base, list) = fields(given);
    let mut whole = store_in(alloc, list)?;
    let loaded = base_of(alloc, base, &mut whole)?;
    let path = NodePath::new(alloc, base)?;
    let folder = &mut whole.inner;
    let loaded = of_store(match call {
        "below" => load_below(alloc, folder, Documents::All, &path, loaded),
        _ => load_children(alloc, folder, Documents::Deciding, &path, loaded),
    })?;
    let mut text = keys_said(alloc, &whole, &loaded)?;
    text.push('|')?;
    Ok(text)
}

fn steps_loaded(alloc: Global, given: &str) -> Result<String, NodeCreateError> {
    let (call, rest) = fields(given);
    steps_said(alloc, call, rest)
}

// A call, a base, and the store; the keys that are loaded once the base is.
const STEPS: &str = r#"
below | / | zarr.json G3;zarr.json.zarrs_new [];a/zarr.json A3;u/x {} => a/zarr.json u/x* zarr.json zarr.json.zarrs_new |
below | /a | zarr.json G3;a/zarr.json A3;a/c/zarr.json G3 => a/zarr.json |
# what decides, and the base is not asked whether it is an array
children | / | zarr.json G3;zarr.json.zarrs_new [];a/zarr.json A3;a/.zattrs {};u/x {} => a/zarr.json u/x* zarr.json |
children | /a | zarr.json G3;a/zarr.json A3;a/c/zarr.json G3 => a/c/zarr.json a/zarr.json |
"#;

#[test]
fn what_lies_below_a_base_follows_it(rt: HostRuntime) -> Result<(), Fail> {
    check_rows(rt.alloc(), STEPS, steps_loaded)
}

// ---- what a store in memory answers as a folder

fn of_folder<T: Drop>(answer: Result<T, FolderFault>) -> Result<T, AllocError> {
    answer.map_err(|_| AllocError)
}

// The bytes at a key.
fn document_said(
    alloc: Global,
    store: &mut MemoryStore,
    key: &StoreKey,
) -> Result<String, AllocError> {
    match of_folder(store.document(alloc, key))? {
        Some(bytes) => String::from_utf8_lossy(alloc, &bytes),
        None => String::from_str(alloc, "none"),
    }
}

// The prefixes of the children.
fn children_said(
    alloc: Global,
    store: &mut MemoryStore,
    prefix: &StorePrefix,
) -> Result<String, AllocError> {
    let mut text = String::new(alloc);
    for child in of_folder(store.children(alloc, prefix))? {
        text.push_str(child.as_str())?;
        text.push(' ')?;
    }
    Ok(text)
}

// Some key below a prefix.
fn any_said(
    alloc: Global,
    store: &mut MemoryStore,
    prefix: &StorePrefix,
) -> Result<String, AllocError> {
    match of_folder(store.any_below(alloc, prefix))? {
        Some(key) => String::from_str(alloc, key.as_str()),
        None => String::from_str(alloc, "none"),
    }
}

#[test]
fn a_store_in_memory_answers_as_a_folder(rt: HostRuntime) -> Result<(), Fail> {
    let alloc = rt.alloc();
    let mut store = store_in(alloc, "a/b/c {};a/d {};zarr.json G3")?.inner;
    let key = StoreKey::new(alloc, "a/d")?;
    let absent = StoreKey::new(alloc, "a/b")?;
    is_same(document_said(alloc, &mut store, &key), "{}")?;
    is_same(document_said(alloc, &mut store, &absent), "none")?;
    let prefix = StorePrefix::new(alloc, "a/")?;
    let empty = StorePrefix::new(alloc, "b/")?;
    is_same(children_said(alloc, &mut store, &prefix), "a/b/ ")?;
    is_same(any_said(alloc, &mut store, &prefix), "a/d")?;
    is_same(any_said(alloc, &mut store, &empty), "none")
}

#[test]
fn laws_hold() {
    laws::pruned_shows_nodes();
    laws::pruned_shows_same();
    laws::base_shows_same();
    laws::shown_list_same();
    laws::listed_block_is_same();
    laws::shown_open_same();
    laws::loaded_opens_same();
    laws::base_opens_same();
    laws::block_opens_same();
    laws::opened_answer_same();
}
