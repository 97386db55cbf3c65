//! What tests of nodes, groups and hierarchies share: stores made from pairs of a key and a document, and what stands or is listed at a
//! path of such a store, as a value and as a text. The crate has no tests of its own.
#![tactic(auto)]

mod texts;
mod words;

use log::sink::Discard;
use std::alloc::{AllocError, Global};
use tests_support::G3;
pub use texts::{
    A2_WRITTEN, document_text, entries_text, forest_text, keys_text, listing_text, node_text,
    pairs_text, paths_listing_text, paths_text,
};
pub use words::{document_of, lists_text, no_word, policy_of, version_of};
use zarrs_block::ConsolidatedMetadataMetadata;
use zarrs_config::{Config, MetadataRetrieveVersion, UseConsolidatedMetadata};
use zarrs_meaning::NodeCreateError;
use zarrs_meta::NodeMetadata;
use zarrs_node::{ListedNodes, Node, get_child_nodes, list_nodes, walk_nodes};
use zarrs_path::NodePath;
use zarrs_store::{
    ListableStorageTraits, MemoryStore, ReadableStorageTraits, StorageError, StoreKey,
    StoreKeyError, WritableStorageTraits,
};

/// An array of version 3 with the shape `[10,10]`, which is its chunks' shape too.
pub const A3_SQUARE: &str =
    r#"{"chunk_grid":{"configuration":{"chunk_shape":[10,10]},"name":"regular"},"chunk_key_encoding":{"configuration":{"separator":"/"},"name":"default"},"codecs":[{"configuration":{"endian":"little"},"name":"bytes"}],"data_type":"float32","fill_value":0,"node_type":"array","shape":[10,10],"zarr_format":3}"#;

/// Groups and arrays of version 3 in three levels.
pub const THREE_LEVELS: [(&str, &str); 6] = [
    ("zarr.json", G3),
    ("group/zarr.json", G3),
    ("group/subgroup/zarr.json", G3),
    ("array/zarr.json", A3_SQUARE),
    ("group/array/zarr.json", A3_SQUARE),
    ("group/subgroup/mysubarray/zarr.json", A3_SQUARE),
];

/// The version by which both kinds of documents are read.
pub const ANY: MetadataRetrieveVersion = MetadataRetrieveVersion::Default;

/// The configuration with this policy of blocks.
pub fn config_of(policy: UseConsolidatedMetadata) -> Config {
    let mut config = Config::new();
    config.set_use_consolidated_metadata(policy);
    config
}

/// The document of a version 3 group with a block of these keys and documents.
pub fn with_block(alloc: Global, nodes: &[(&str, &str)]) -> Result<String, AllocError> {
    let mut text = String::new(alloc);
    text.push_str(r#"{"consolidated_metadata":{"kind":"inline","metadata":{"#)?;
    let mut comma = "";
    for (key, document) in nodes {
        write!(text, "{comma}\"{key}\":{document}")?;
        comma = ",";
    }
    text.push_str(r#"},"must_understand":false},"node_type":"group","zarr_format":3}"#)?;
    Ok(text)
}

/// The store with these documents at these keys.
pub fn store_of(alloc: Global, documents: &[(&str, &str)]) -> Result<MemoryStore, StorageError> {
    let mut store = MemoryStore::new(alloc);
    for (key, document) in documents {
        let key = key_of(alloc, key)?;
        store.set(&key, document.as_bytes())?;
    }
    Ok(store)
}

/// The key that a text is.
pub fn key_of(alloc: Global, text: &str) -> Result<StoreKey, StorageError> {
    match StoreKey::new(alloc, text) {
        Ok(key) => Ok(key),
        Err(StoreKeyError::Invalid(text)) => Err(StorageError::Other(text)),
        Err(StoreKeyError::OutOfMemory) => Err(StorageError::OutOfMemory),
    }
}

/// What a call makes of two values, where both are there.
pub fn both<A, B, T, E, F>(first: Result<A, E>, second: Result<B, E>, make: F) -> Result<T, E>
where
    A: Drop,
    B: Drop,
    E: Drop,
    F: FnOnce(A, B) -> T,
    requires { F.IsAlwaysCallable make }
{
    let first = first?;
    let second = second?;
    Ok(make(first, second))
}

/// The metadata at a path of a store.
pub fn metadata_in<S: ReadableStorageTraits>(
    alloc: Global,
    store: &S,
    path: &str,
    version: MetadataRetrieveVersion,
) -> Result<NodeMetadata, NodeCreateError> {
    let path = NodePath::new(alloc, path)?;
    Node::get_metadata(alloc, store, &path, &version)
}

/// The metadata at a path of the store with these documents.
pub fn metadata_at(
    alloc: Global,
    documents: &[(&str, &str)],
    path: &str,
    version: MetadataRetrieveVersion,
) -> Result<NodeMetadata, NodeCreateError> {
    let store = store_of(alloc, documents)?;
    metadata_in(alloc, &store, path, version)
}

/// The node at a path of the store with these documents, with all nodes below it.
pub fn node_at(
    alloc: Global,
    documents: &[(&str, &str)],
    path: &str,
) -> Result<Node, NodeCreateError> {
    let store = store_of(alloc, documents)?;
    let path = NodePath::new(alloc, path)?;
    let metadata = Node::get_metadata(alloc, &store, &path, &ANY);
    let children = get_child_nodes(&Discard, alloc, &store, &path, true);
    both(
        metadata,
        children,
        |metadata, children| Node::new_with_metadata(path, metadata, children),
    )
}

/// The block with these metadata at these keys.
pub fn entries_of(
    alloc: Global,
    entries: &[(&str, &str)],
) -> Result<ConsolidatedMetadataMetadata, NodeCreateError> {
    let mut block = ConsolidatedMetadataMetadata::new(alloc);
    for (key, document) in entries {
        let metadata = metadata_at(alloc, &[("zarr.json", document)], "/", ANY)?;
        block.insert(String::from_str(alloc, key)?, metadata)?;
    }
    Ok(block)
}

/// What is listed below a path of a store.
pub fn listed_in<S: ReadableStorageTraits + ListableStorageTraits>(
    alloc: Global,
    store: &S,
    base: &str,
    recursive: bool,
    version: MetadataRetrieveVersion,
) -> Result<ListedNodes, NodeCreateError> {
    let base = NodePath::new(alloc, base)?;
    list_nodes(alloc, store, &base, recursive, &version)
}

/// What is listed below a path of the store with these documents.
pub fn listed(
    alloc: Global,
    documents: &[(&str, &str)],
    base: &str,
    recursive: bool,
    version: MetadataRetrieveVersion,
) -> Result<ListedNodes, NodeCreateError> {
    let store = store_of(alloc, documents)?;
    listed_in(alloc, &store, base, recursive, version)
}

/// The paths that a walk hands to a list, and those that it passed over.
#[derive(Drop)]
pub struct ListedPaths {
    /// The paths of the nodes.
    pub paths: Vec<NodePath>,
    /// The paths without documents.
    pub ignored: Vec<NodePath>,
}

/// The paths that are listed below a path of a store.
pub fn paths_listed_in<S: ReadableStorageTraits + ListableStorageTraits>(
    alloc: Global,
    store: &S,
    base: &str,
    recursive: bool,
    version: MetadataRetrieveVersion,
) -> Result<ListedPaths, NodeCreateError> {
    let base = NodePath::new(alloc, base)?;
    let mut paths = Vec::<NodePath>::new(alloc);
    let ignored = walk_nodes(alloc, store, &base, recursive, &version, &mut paths)?;
    Ok(ListedPaths { paths, ignored })
}

/// The paths that are listed below a path of the store with these documents.
pub fn paths_listed(
    alloc: Global,
    documents: &[(&str, &str)],
    base: &str,
    recursive: bool,
    version: MetadataRetrieveVersion,
) -> Result<ListedPaths, NodeCreateError> {
    let store = store_of(alloc, documents)?;
    paths_listed_in(alloc, &store, base, recursive, version)
}
