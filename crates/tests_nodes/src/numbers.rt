//! Fractions in documents: refused by name where the numbers of a store are whole; read, kept, listed, printed, taken of blocks and made
//! current where they may be any.

use crate::given::store_in;
use log::sink::Discard;
use std::alloc::{AllocError, Global};
use std::test::Fail;
use tests_fixtures::{
    ANY, config_of, entries_text, listed_in, listing_text, metadata_in, no_word, node_text,
    pairs_text, paths_listed_in, paths_listing_text, policy_of,
};
use tests_support::{check_rows, fields, said};
use zarrs_block::{ConsolidatedMetadata, ConsolidatedMetadataMetadata};
use zarrs_meaning::NodeCreateError;
use zarrs_meta::{NodeMetadata, WrittenDocument};
use zarrs_node::{Node, get_all_nodes_of, refresh_block, zmetadata_at};
use zarrs_path::NodePath;
use zarrs_store::{AnyNumbers, ListableStorageTraits, ReadableStorageTraits};

// The node at a path, opened by a policy.
fn opened<S: ReadableStorageTraits + ListableStorageTraits>(
    alloc: Global,
    store: &S,
    policy: &str,
    path: &str,
) -> Result<Node, NodeCreateError> {
    let config = config_of(policy_of(alloc, policy)?);
    Node::open(&Discard, alloc, store, path, &config)
}

// The pairs of all nodes below a path.
fn pairs_below<S: ReadableStorageTraits + ListableStorageTraits>(
    alloc: Global,
    store: &S,
    path: &str,
) -> Result<Vec<(NodePath, NodeMetadata)>, NodeCreateError> {
    let path = NodePath::new(alloc, path)?;
    get_all_nodes_of(&Discard, alloc, store, &path, &ANY)
}

// An empty block of the root, made current at a path.
fn renewed<S: ReadableStorageTraits + ListableStorageTraits>(
    alloc: Global,
    store: &S,
    path: &str,
) -> Result<ConsolidatedMetadataMetadata, NodeCreateError> {
    let root = NodePath::root(alloc)?;
    let path = NodePath::new(alloc, path)?;
    if !path.is_below(&root) {
        return Err(NodeCreateError::from(no_word(alloc, "a path below the root")));
    }
    let block = ConsolidatedMetadataMetadata::new(alloc);
    refresh_block(alloc, store, &root, &ANY, &block, &path)
}

// The block that the document `.zmetadata` of a path is.
fn beside<S: ReadableStorageTraits>(
    alloc: Global,
    store: &S,
    path: &str,
) -> Result<Option<ConsolidatedMetadata>, NodeCreateError> {
    let path = NodePath::new(alloc, path)?;
    Ok(zmetadata_at(alloc, store, &path)?)
}

fn beside_text(block: &Option<ConsolidatedMetadata>, alloc: Global) -> Result<String, AllocError> {
    match block {
        Some(block) => entries_text(&block.metadata, alloc),
        None => String::from_str(alloc, "none"),
    }
}

// What a call answers of a path of a store.
fn answer<S: ReadableStorageTraits + ListableStorageTraits>(
    alloc: Global,
    store: &S,
    call: &str,
    path: &str,
) -> Result<String, NodeCreateError> {
    let text = match call {
        "metadata" => said(
            alloc,
            metadata_in(alloc, store, path, ANY),
            NodeMetadata::to_text,
        )?,
        "list" => said(
            alloc,
            listed_in(alloc, store, path, true, ANY),
            listing_text,
        )?,
        "paths" => said(
            alloc,
            paths_listed_in(alloc, store, path, true, ANY),
            paths_listing_text,
        )?,
        "pairs" => said(alloc, pairs_below(alloc, store, path), pairs_text)?,
        "tree" => said(
            alloc,
            opened(alloc, store, "never", path),
            Node::hierarchy_tree,
        )?,
        "beside" => said(alloc, beside(alloc, store, path), beside_text)?,
        "refresh" => said(alloc, renewed(alloc, store, path), entries_text)?,
        policy => said(alloc, opened(alloc, store, policy, path), node_text)?,
    };
    Ok(text)
}

// What a call answers of a path of the store with these documents, whose numbers are whole or may be any.
fn by_numbers(alloc: Global, given: &str) -> Result<String, NodeCreateError> {
    let (numbers, rest) = fields(given);
    let (call, rest) = fields(rest);
    let (path, documents) = fields(rest);
    let store = store_in(alloc, documents)?;
    match numbers {
        "whole" => answer(alloc, &store, call, path),
        "any" => answer(alloc, &AnyNumbers { inner: store }, call, path),
        numbers => Err(NodeCreateError::from(no_word(alloc, numbers))),
    }
}

// Numbers, call, path and store; what one document says.
const DOCUMENTS: &str = r#"
# where any value may stand a fraction is kept
whole | metadata | /a | a/zarr.json {"attributes":{"scale":0.01},"node_type":"group","zarr_format":3} => StorageError(InvalidMetadata): error parsing metadata for a/zarr.json: unsupported number
any | metadata | /a | a/zarr.json {"attributes":{"scale":0.01},"node_type":"group","zarr_format":3} => {"attributes":{"scale":0.01},"node_type":"group","zarr_format":3}
whole | metadata | /a | a/zarr.json {"chunk_grid":"regular","chunk_key_encoding":"default","codecs":[],"data_type":"float32","fill_value":0.0,"node_type":"array","shape":[1],"zarr_format":3} => StorageError(InvalidMetadata): error parsing metadata for a/zarr.json: unsupported number
any | metadata | /a | a/zarr.json {"chunk_grid":"regular","chunk_key_encoding":"default","codecs":[],"data_type":"float32","fill_value":0.0,"node_type":"array","shape":[1],"zarr_format":3} => {"chunk_grid":"regular","chunk_key_encoding":"default","codecs":[],"data_type":"float32","fill_value":0.0,"node_type":"array","shape":[1],"zarr_format":3}
whole | metadata | /a | a/.zarray {"chunks":[1],"compressor":null,"dtype":"<f8","fill_value":-1.5,"filters":null,"order":"C","shape":[1],"zarr_format":2} => StorageError(InvalidMetadata): error parsing metadata for a/.zarray: unsupported number
any | metadata | /a | a/.zarray {"chunks":[1],"compressor":null,"dtype":"<f8","fill_value":-1.5,"filters":null,"order":"C","shape":[1],"zarr_format":2} => {"chunks":[1],"compressor":null,"dimension_separator":".","dtype":"<f8","fill_value":-1.5,"filters":null,"order":"C","shape":[1],"zarr_format":2}
whole | metadata | /a | a/.zgroup {"additional":[1e-5],"zarr_format":2} => StorageError(InvalidMetadata): error parsing metadata for a/.zgroup: unsupported number
any | metadata | /a | a/.zgroup {"additional":[0.5],"zarr_format":2} => {"additional":[0.5],"zarr_format":2}

# beside a document of version 2 too
whole | metadata | /a | a/.zgroup G2;a/.zattrs {"offset":1.5} => StorageError(InvalidMetadata): error parsing metadata for a/.zattrs: unsupported number
any | metadata | /a | a/.zgroup G2;a/.zattrs {"offset":1.5} => {"attributes":{"offset":1.5},"zarr_format":2}
whole | metadata | /a | a/.zarray A2;a/.zattrs {"offset":1.5} => StorageError(InvalidMetadata): error parsing metadata for a/.zattrs: unsupported number
any | metadata | /a | a/.zarray A2;a/.zattrs {"offset":1.5} => {"attributes":{"offset":1.5},"chunks":[1],"compressor":null,"dimension_separator":".","dtype":"<f8","fill_value":"NaN","filters":null,"order":"C","shape":[1],"zarr_format":2}

# where a format, a kind or a length has to stand a fraction is that member's fault
whole | metadata | /a | a/zarr.json {"node_type":"group","zarr_format":3.0} => StorageError(InvalidMetadata): error parsing metadata for a/zarr.json: unsupported number
any | metadata | /a | a/zarr.json {"node_type":"group","zarr_format":3.0} => StorageError(InvalidMetadata): error parsing metadata for a/zarr.json: wrong zarr_format
any | metadata | /a | a/zarr.json {"node_type":1.5,"zarr_format":3} => StorageError(InvalidMetadata): error parsing metadata for a/zarr.json: wrong node_type
any | metadata | /a | a/.zgroup {"zarr_format":2.0} => StorageError(InvalidMetadata): error parsing metadata for a/.zgroup: wrong zarr_format
whole | metadata | /a | a/zarr.json {"chunk_grid":"regular","chunk_key_encoding":"default","codecs":[],"data_type":"float32","fill_value":0,"node_type":"array","shape":[1.5],"zarr_format":3} => StorageError(InvalidMetadata): error parsing metadata for a/zarr.json: unsupported number
any | metadata | /a | a/zarr.json {"chunk_grid":"regular","chunk_key_encoding":"default","codecs":[],"data_type":"float32","fill_value":0,"node_type":"array","shape":[1.5],"zarr_format":3} => StorageError(InvalidMetadata): error parsing metadata for a/zarr.json: bad member shape

# a fraction alone is no document, and what is no JSON stays so
whole | metadata | /a | a/zarr.json [1.5] => StorageError(InvalidMetadata): error parsing metadata for a/zarr.json: unsupported number
any | metadata | /a | a/zarr.json [1.5] => StorageError(InvalidMetadata): error parsing metadata for a/zarr.json: not an object
any | metadata | /a | a/zarr.json {"attributes":{"x":NaN},"node_type":"group","zarr_format":3} => StorageError(InvalidMetadata): error parsing metadata for a/zarr.json: not JSON
"#;

#[test]
fn a_fraction_in_a_document_is_read_where_any_number_may_stand(
    rt: HostRuntime,
) -> Result<(), Fail> {
    check_rows(rt.alloc(), DOCUMENTS, by_numbers)
}

// Numbers, call, path and store; what a listing shows.
const LISTINGS: &str = r#"
# each node is listed with its fractions, also where documents in a row are the same
whole | list | / | a/zarr.json {"attributes":{"n":0.5},"node_type":"group","zarr_format":3};a/x/zarr.json G3;b/.zarray A2;b/.zattrs {"n":2.5} => StorageError(InvalidMetadata): error parsing metadata for a/zarr.json: unsupported number
any | list | / | a/zarr.json {"attributes":{"n":0.5},"node_type":"group","zarr_format":3};a/x/zarr.json G3;b/.zgroup G2;b/.zattrs {"n":2.5} => /a {"attributes":{"n":0.5},"node_type":"group","zarr_format":3}\n  /a/x G3\n/b {"attributes":{"n":2.5},"zarr_format":2}\n
any | list | / | a/zarr.json {"attributes":{"n":0.5},"node_type":"group","zarr_format":3};b/zarr.json {"attributes":{"n":0.5},"node_type":"group","zarr_format":3};c/zarr.json {"attributes":{"n":0.5},"node_type":"group","zarr_format":3};d/zarr.json {"attributes":{"n":1.5},"node_type":"group","zarr_format":3} => /a {"attributes":{"n":0.5},"node_type":"group","zarr_format":3}\n/b {"attributes":{"n":0.5},"node_type":"group","zarr_format":3}\n/c {"attributes":{"n":0.5},"node_type":"group","zarr_format":3}\n/d {"attributes":{"n":1.5},"node_type":"group","zarr_format":3}\n

# a store without fractions is listed alike
whole | list | / | both versions => /array A3_SQUARE\n/group G3\n  /group/array A3_SQUARE\n  /group/subgroup G3\n    /group/subgroup/mysubarray A3_SQUARE\n/groupv2 G2\n  /groupv2/arrayv2 A2\n
any | list | / | both versions => /array A3_SQUARE\n/group G3\n  /group/array A3_SQUARE\n  /group/subgroup G3\n    /group/subgroup/mysubarray A3_SQUARE\n/groupv2 G2\n  /groupv2/arrayv2 A2\n

# paths and pairs are those of the nodes
whole | paths | / | a/zarr.json {"attributes":{"n":0.5},"node_type":"group","zarr_format":3};a/x/zarr.json G3;y/c NUL => StorageError(InvalidMetadata): error parsing metadata for a/zarr.json: unsupported number
any | paths | / | a/zarr.json {"attributes":{"n":0.5},"node_type":"group","zarr_format":3};a/x/zarr.json G3;y/c NUL => /a\n/a/x\nignored /y\n
whole | pairs | / | a/zarr.json G3;a/x/.zgroup G2;a/x/.zattrs {"n":0.5} => StorageError(InvalidMetadata): error parsing metadata for a/x/.zattrs: unsupported number
any | pairs | / | a/zarr.json G3;a/x/.zgroup G2;a/x/.zattrs {"n":0.5} => /a G3\n/a/x {"attributes":{"n":0.5},"zarr_format":2}\n

# what is bad below stays bad
any | list | / | a/zarr.json {"attributes":{"n":0.5},"node_type":"group","zarr_format":3};a/x/zarr.json {"node_type":"group","zarr_format":3.5} => StorageError(InvalidMetadata): error parsing metadata for a/x/zarr.json: wrong zarr_format

# the tree is printed
whole | tree | / | zarr.json G3;a/.zarray {"chunks":[1],"compressor":null,"dtype":"<f8","fill_value":0.0,"filters":null,"order":"C","shape":[1],"zarr_format":2} => StorageError(InvalidMetadata): error parsing metadata for a/.zarray: unsupported number
any | tree | / | zarr.json G3;a/.zarray {"chunks":[1],"compressor":null,"dtype":"<f8","fill_value":0.0,"filters":null,"order":"C","shape":[1],"zarr_format":2} => /\n  a [1] Simple("<f8")\n

# a block is made current
whole | refresh | /a | a/zarr.json G3;a/x/zarr.json {"attributes":{"n":0.5},"node_type":"group","zarr_format":3} => StorageError(InvalidMetadata): error parsing metadata for a/x/zarr.json: unsupported number
any | refresh | /a | a/zarr.json G3;a/x/zarr.json {"attributes":{"n":0.5},"node_type":"group","zarr_format":3} => a G3\na/x {"attributes":{"n":0.5},"node_type":"group","zarr_format":3}\n
whole | refresh | /a | a/zarr.json {"attributes":{"n":0.5},"node_type":"group","zarr_format":3} => StorageError(InvalidMetadata): error parsing metadata for a/zarr.json: unsupported number
any | refresh | /a | a/zarr.json {"attributes":{"n":0.5},"node_type":"group","zarr_format":3} => a {"attributes":{"n":0.5},"node_type":"group","zarr_format":3}\n
"#;

#[test]
fn nodes_with_fractions_are_listed_where_any_number_may_stand(rt: HostRuntime) -> Result<(), Fail> {
    check_rows(rt.alloc(), LISTINGS, by_numbers)
}

// Numbers, call or policy, path and store; the node that is opened with what is below it, or the block beside it.
const BLOCKS: &str = r#"
# a fraction in a block of version 3 refuses its document by every policy; where any number may stand the block is used
whole | auto | / | zarr.json {"consolidated_metadata":{"kind":"inline","metadata":{"a":{"attributes":{"n":1.5},"node_type":"group","zarr_format":3}},"must_understand":false},"node_type":"group","zarr_format":3};b/zarr.json G3 => StorageError(InvalidMetadata): error parsing metadata for zarr.json: unsupported number
whole | never | / | zarr.json {"consolidated_metadata":{"kind":"inline","metadata":{"a":{"attributes":{"n":1.5},"node_type":"group","zarr_format":3}},"must_understand":false},"node_type":"group","zarr_format":3};b/zarr.json G3 => StorageError(InvalidMetadata): error parsing metadata for zarr.json: unsupported number
any | auto | / | zarr.json {"consolidated_metadata":{"kind":"inline","metadata":{"a":{"attributes":{"n":1.5},"node_type":"group","zarr_format":3}},"must_understand":false},"node_type":"group","zarr_format":3};b/zarr.json G3 => / {"consolidated_metadata":{"kind":"inline","metadata":{"a":{"attributes":{"n":1.5},"node_type":"group","zarr_format":3}},"must_understand":false},"node_type":"group","zarr_format":3}\n  /a {"attributes":{"n":1.5},"node_type":"group","zarr_format":3}\n
any | must | / | zarr.json {"consolidated_metadata":{"kind":"inline","metadata":{"a":{"attributes":{"n":1.5},"node_type":"group","zarr_format":3}},"must_understand":false},"node_type":"group","zarr_format":3};b/zarr.json G3 => / {"consolidated_metadata":{"kind":"inline","metadata":{"a":{"attributes":{"n":1.5},"node_type":"group","zarr_format":3}},"must_understand":false},"node_type":"group","zarr_format":3}\n  /a {"attributes":{"n":1.5},"node_type":"group","zarr_format":3}\n
any | never | / | zarr.json {"consolidated_metadata":{"kind":"inline","metadata":{"a":{"attributes":{"n":1.5},"node_type":"group","zarr_format":3}},"must_understand":false},"node_type":"group","zarr_format":3};b/zarr.json G3 => / {"consolidated_metadata":{"kind":"inline","metadata":{"a":{"attributes":{"n":1.5},"node_type":"group","zarr_format":3}},"must_understand":false},"node_type":"group","zarr_format":3}\n  /b G3\n

# where a fraction stands for a format in a block, it counts as absent
any | auto | / | zarr.json {"consolidated_metadata":{"kind":"inline","metadata":{"a":{"node_type":"group","zarr_format":3.0}},"must_understand":false},"node_type":"group","zarr_format":3};b/zarr.json G3 => / {"consolidated_metadata":{"kind":"inline","metadata":{"a":{"node_type":"group","zarr_format":3.0}},"must_understand":false},"node_type":"group","zarr_format":3}\n  /b G3\n
any | must | / | zarr.json {"consolidated_metadata":{"kind":"inline","metadata":{"a":{"node_type":"group","zarr_format":3.0}},"must_understand":false},"node_type":"group","zarr_format":3} => MissingMetadata: Metadata is missing for Consolidated metadata required but missing on group /

# of version 2 a `.zmetadata` with a fraction counts as absent; where any number may stand its block is used
whole | beside | / | .zmetadata {"metadata":{"a/.zgroup":{"zarr_format":2},"a/.zattrs":{"n":1.5}},"zarr_consolidated_format":1} => none
any | beside | / | .zmetadata {"metadata":{"a/.zgroup":{"zarr_format":2},"a/.zattrs":{"n":1.5}},"zarr_consolidated_format":1} => a {"attributes":{"n":1.5},"zarr_format":2}\n
whole | auto | / | .zgroup G2;.zmetadata {"metadata":{"a/.zgroup":{"zarr_format":2},"a/.zattrs":{"n":1.5}},"zarr_consolidated_format":1};b/.zgroup G2 => / G2\n  /b G2\n
any | auto | / | .zgroup G2;.zmetadata {"metadata":{"a/.zgroup":{"zarr_format":2},"a/.zattrs":{"n":1.5}},"zarr_consolidated_format":1};b/.zgroup G2 => / G2\n  /a {"attributes":{"n":1.5},"zarr_format":2}\n
whole | must | / | .zgroup G2;.zmetadata {"metadata":{"a/.zgroup":{"zarr_format":2},"a/.zattrs":{"n":1.5}},"zarr_consolidated_format":1} => MissingMetadata: Metadata is missing for Consolidated metadata required but missing on group /
any | must | / | .zgroup G2;.zmetadata {"metadata":{"a/.zgroup":{"zarr_format":2},"a/.zattrs":{"n":1.5}},"zarr_consolidated_format":1} => / G2\n  /a {"attributes":{"n":1.5},"zarr_format":2}\n
any | never | / | .zgroup G2;.zmetadata {"metadata":{"a/.zgroup":{"zarr_format":2},"a/.zattrs":{"n":1.5}},"zarr_consolidated_format":1};b/.zgroup G2 => / G2\n  /b G2\n
any | beside | / | .zmetadata {"metadata":{"a/.zgroup":{"zarr_format":2}},"zarr_consolidated_format":1.0} => none
any | beside | / | .zmetadata {"metadata":{"a/.zgroup":{"zarr_format":2.0}},"zarr_consolidated_format":1} => none
"#;

#[test]
fn a_block_with_fractions_is_used_where_any_number_may_stand(rt: HostRuntime) -> Result<(), Fail> {
    check_rows(rt.alloc(), BLOCKS, by_numbers)
}
