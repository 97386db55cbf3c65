//! What the rows of tables give: stores, blocks and nodes as lists of pairs.

use std::alloc::Global;
use tests_fixtures::{ANY, document_of, key_of, metadata_at, no_word};
use zarrs_meaning::NodeCreateError;
use zarrs_meta::NodeMetadata;
use zarrs_node::Node;
use zarrs_path::NodePath;
use zarrs_store::{MemoryStore, StorageError, WritableStorageTraits};

// Groups and arrays of version 3 in three levels.
const THREE_LEVELS: &str =
    "zarr.json G3;group/zarr.json G3;group/subgroup/zarr.json G3;array/zarr.json A3_SQUARE;group/array/zarr.json A3_SQUARE;group/subgroup/mysubarray/zarr.json A3_SQUARE";

// The three levels without the documents of `/array` and `/group/subgroup`.
const TWO_ERASED: &str =
    "zarr.json G3;group/zarr.json G3;group/array/zarr.json A3_SQUARE;group/subgroup/mysubarray/zarr.json A3_SQUARE";

// The same once `/group/subgroup` was set.
const ONE_SET_AGAIN: &str =
    "zarr.json G3;group/zarr.json G3;group/array/zarr.json A3_SQUARE;group/subgroup/mysubarray/zarr.json A3_SQUARE;group/subgroup/zarr.json G3";

// Groups and arrays of both versions, with a chunk.
const BOTH_VERSIONS: &str =
    "zarr.json G3;group/zarr.json G3;group/subgroup/zarr.json G3;array/zarr.json A3_SQUARE;array/c/0/0;group/array/zarr.json A3_SQUARE;group/subgroup/mysubarray/zarr.json A3_SQUARE;groupv2/.zgroup G2;groupv2/arrayv2/.zarray A2";

// A group of version 3 with the attribute `k`.
const G3_WITH_K: &str = r#"{"attributes":{"k":1},"node_type":"group","zarr_format":3}"#;

// The same group with a block that has nothing.
const G3_WITH_K_AND_BLOCK: &str =
    r#"{"attributes":{"k":1},"consolidated_metadata":{"kind":"inline","metadata":{},"must_understand":false},"node_type":"group","zarr_format":3}"#;

/// The document that a word names, or the text that begins as JSON does. A word that names none is refused.
pub(crate) fn document<'a>(alloc: Global, word: &'a str) -> Result<&'a str, StorageError> {
    match word {
        "K" => Ok(G3_WITH_K),
        "KB" => Ok(G3_WITH_K_AND_BLOCK),
        word => document_of(alloc, word),
    }
}

/// The pairs of a list: a key, a blank and a document or its name each, with semicolons between them. A key alone has the empty
/// document.
pub(crate) fn pairs_in<'a>(
    alloc: Global,
    list: &'a str,
) -> Result<Vec<(&'a str, &'a str)>, StorageError> {
    let mut pairs = Vec::new(alloc);
    for item in list.split(';') {
        if !item.is_empty() {
            let (key, word) = item.split_once(' ').unwrap_or((item, ""));
            pairs.push((key, document(alloc, word)?))?;
        }
    }
    Ok(pairs)
}

/// The list that a name stands for, or the list as it is.
pub(crate) fn list_of(name: &str) -> &str {
    match name {
        "three levels" => THREE_LEVELS,
        "two erased" => TWO_ERASED,
        "one set again" => ONE_SET_AGAIN,
        "both versions" => BOTH_VERSIONS,
        list => list,
    }
}

/// The store with the documents of a list, or of the list that a name stands for.
pub(crate) fn store_in(alloc: Global, list: &str) -> Result<MemoryStore, StorageError> {
    let mut store = MemoryStore::new(alloc);
    set_in(alloc, &mut store, list)?;
    Ok(store)
}

/// Sets the documents of a list, or of the list that a name stands for, in a store.
pub(crate) fn set_in(
    alloc: Global,
    store: &mut MemoryStore,
    list: &str,
) -> Result<(), StorageError> {
    for (key, document) in pairs_in(alloc, list_of(list))? {
        store.set(&key_of(alloc, key)?, document.as_bytes())?;
    }
    Ok(())
}

/// The pair of a path and of what a document means there.
pub(crate) fn pair_of(
    alloc: Global,
    path: &str,
    document: &str,
) -> Result<(NodePath, NodeMetadata), NodeCreateError> {
    let path = NodePath::new(alloc, path)?;
    let metadata = metadata_at(alloc, &[("zarr.json", document)], "/", ANY)?;
    Ok((path, metadata))
}

// The node at a path, of a document, over some children.
fn node_over(
    alloc: Global,
    path: &str,
    document: &str,
    children: Vec<Node>,
) -> Result<Node, NodeCreateError> {
    let (path, metadata) = pair_of(alloc, path, document)?;
    Ok(Node::new_with_metadata(path, metadata, children))
}

/// The node that the first pair of a list is, over the nodes that the others are, which have no children.
pub(crate) fn node_in(alloc: Global, list: &str) -> Result<Node, NodeCreateError> {
    let pairs = pairs_in(alloc, list)?;
    let mut children = Vec::new(alloc);
    for (path, document) in pairs.as_slice().iter().skip(1) {
        children.push(node_over(alloc, path, document, Vec::new(alloc))?)?;
    }
    match pairs.first() {
        Some((path, document)) => node_over(alloc, path, document, children),
        None => Err(NodeCreateError::from(no_word(alloc, list))),
    }
}

/// Whether a word names all below a path, and not its children alone.
pub(crate) fn is_all(alloc: Global, word: &str) -> Result<bool, StorageError> {
    match word {
        "all" => Ok(true),
        "children" => Ok(false),
        word => Err(no_word(alloc, word)),
    }
}
