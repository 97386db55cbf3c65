//! What a path means, and whether a node is there.

use crate::given::store_in;
use std::alloc::{AllocError, Global};
use std::test::Fail;
use tests_fixtures::{metadata_in, version_of};
use tests_support::{check_rows, fields, refusal, said};
use zarrs_config::MetadataRetrieveVersion;
use zarrs_meaning::{
    LastDocuments, NodeCreateError, find_metadata, metadata_at, node_exists, node_exists_listable,
};
use zarrs_meta::{NodeMetadata, WrittenDocument};
use zarrs_path::NodePath;
use zarrs_store::MemoryStore;

// The metadata that a row asks for: the path, the version, and the store.
fn metadata_given(alloc: Global, given: &str) -> Result<NodeMetadata, NodeCreateError> {
    let (path, rest) = fields(given);
    let (version, documents) = fields(rest);
    let version = version_of(alloc, version)?;
    let store = store_in(alloc, documents)?;
    metadata_in(alloc, &store, path, version)
}

fn metadata_said(alloc: Global, given: &str) -> Result<String, AllocError> {
    said(alloc, metadata_given(alloc, given), NodeMetadata::to_text)
}

// Path, version and store; the text of the metadata, or of the error.
const MEANS: &str = r#"
# a path without documents is missing
/ | any | node/array/zarr.json NUL => MissingMetadata: Metadata is missing for /
/node | any | node/array/zarr.json NUL => MissingMetadata: Metadata is missing for /node
/node/array | any | node/array/zarr.json NUL => StorageError(InvalidMetadata): error parsing metadata for node/array/zarr.json: not JSON
node | any | node/array/zarr.json NUL => NodePathError(Invalid): invalid node path node

# an empty store has no metadata
/ | any | => MissingMetadata: Metadata is missing for /

# an array stands before a group of version 2
/p | any | p/.zarray A2;p/.zgroup [] => {"chunks":[1],"compressor":null,"dimension_separator":".","dtype":"<f8","fill_value":"NaN","filters":null,"order":"C","shape":[1],"zarr_format":2}

# a stored array is read
/node | any | node/zarr.json {"chunk_grid":{"configuration":{"chunk_shape":[1,1,1]},"name":"regular"},"chunk_key_encoding":{"configuration":{"separator":"/"},"name":"default"},"codecs":[{"configuration":{"endian":"little"},"name":"bytes"}],"data_type":"float32","fill_value":0,"node_type":"array","shape":[1,2,3],"zarr_format":3} => {"chunk_grid":{"configuration":{"chunk_shape":[1,1,1]},"name":"regular"},"chunk_key_encoding":{"configuration":{"separator":"/"},"name":"default"},"codecs":[{"configuration":{"endian":"little"},"name":"bytes"}],"data_type":"float32","fill_value":0,"node_type":"array","shape":[1,2,3],"zarr_format":3}

# version 2 at the key of version 3 is a mismatch
/ | any | zarr.json G2 => MetadataVersionMismatch: Found V2 metadata in V3 key or vice-versa
/ | v3 | zarr.json G2 => MetadataVersionMismatch: Found V2 metadata in V3 key or vice-versa
/ | v2 | zarr.json G2 => MissingMetadata: Metadata is missing for /

# a version limits which keys are read
/g | any | g/zarr.json G3;g/.zgroup G2 => {"node_type":"group","zarr_format":3}
/g | v3 | g/zarr.json G3;g/.zgroup G2 => {"node_type":"group","zarr_format":3}
/g | v2 | g/zarr.json G3;g/.zgroup G2 => {"zarr_format":2}

# attributes beside a document replace its own
/g | any | g/.zgroup {"attributes":{"own":1},"zarr_format":2};g/.zattrs {"k":1} => {"attributes":{"k":1},"zarr_format":2}
"#;

#[test]
fn a_path_means_what_its_documents_say(rt: HostRuntime) -> Result<(), Fail> {
    check_rows(rt.alloc(), MEANS, metadata_said)
}

fn text_or_none(metadata: &Option<NodeMetadata>, alloc: Global) -> Result<String, AllocError> {
    match metadata {
        Some(metadata) => metadata.to_text(alloc),
        None => String::from_str(alloc, "none"),
    }
}

// What a path means, or `none`, alone and with what was read last.
fn found_text(
    alloc: Global,
    store: &MemoryStore,
    path: &str,
    last: &mut LastDocuments,
) -> Result<String, NodeCreateError> {
    let path = NodePath::new(alloc, path)?;
    let version = MetadataRetrieveVersion::Default;
    let alone = text_or_none(&metadata_at(alloc, store, &path, &version)?, alloc)?;
    let prefix = path.to_prefix(alloc)?;
    let found = text_or_none(
        &find_metadata(alloc, store, &prefix, &version, last)?,
        alloc,
    )?;
    if found == alone {
        return Ok(found);
    }
    Ok(format!(in alloc; "{found}, and alone {alone}")?)
}

// The same at each path of a row, one after another.
fn found_at_each(alloc: Global, given: &str) -> Result<String, NodeCreateError> {
    let (paths, documents) = fields(given);
    let store = store_in(alloc, documents)?;
    let mut last = LastDocuments::new(alloc);
    let mut said = String::new(alloc);
    for path in paths.split(' ') {
        let found = found_text(alloc, &store, path, &mut last)?;
        said.push_str(&found)?;
        said.push_str(";")?;
    }
    Ok(said)
}

fn found_said(alloc: Global, given: &str) -> Result<String, AllocError> {
    match found_at_each(alloc, given) {
        Ok(found) => Ok(found),
        Err(error) => refusal(alloc, &error),
    }
}

// Paths and store; what they mean one after another, equal documents once read and then copied.
const FOUND: &str = r#"
/a /b /c /d | a/zarr.json G3;b/zarr.json G3;c/zarr.json G3 => {"node_type":"group","zarr_format":3};{"node_type":"group","zarr_format":3};{"node_type":"group","zarr_format":3};none;
/a /b /a | a/.zgroup G2;a/.zattrs {"k":1};b/.zgroup G2 => {"attributes":{"k":1},"zarr_format":2};{"zarr_format":2};{"attributes":{"k":1},"zarr_format":2};
/a /b | a/.zgroup G2;b/.zgroup NUL => StorageError(InvalidMetadata): error parsing metadata for b/.zgroup: not JSON
/a | a/zarr.json G2 => MetadataVersionMismatch: Found V2 metadata in V3 key or vice-versa
"#;

#[test]
fn paths_mean_what_their_documents_say_one_after_another(rt: HostRuntime) -> Result<(), Fail> {
    check_rows(rt.alloc(), FOUND, found_said)
}

// Whether a node is there, by the keys of its documents and by the keys of its folder.
fn existence_at(
    alloc: Global,
    store: &MemoryStore,
    path: &NodePath,
) -> Result<String, NodeCreateError> {
    let by_key = node_exists(alloc, store, path)?;
    let by_folder = node_exists_listable(alloc, store, path)?;
    Ok(format!(in alloc; "{by_key} {by_folder}")?)
}

// The same at the path of a row, in its store.
fn existence(alloc: Global, given: &str) -> Result<String, NodeCreateError> {
    let (path, documents) = fields(given);
    let path = NodePath::new(alloc, path)?;
    let store = store_in(alloc, documents)?;
    existence_at(alloc, &store, &path)
}

// Path and store; whether a node is there, by either call.
const EXISTENCE: &str = r#"
/a | a/.zattrs {} => false false
/a | a/.zattrs {};b/zarr.json NUL;c/.zarray;d/.zgroup;e/zarr.json/x => false false
/b | a/.zattrs {};b/zarr.json NUL;c/.zarray;d/.zgroup;e/zarr.json/x => true true
/c | a/.zattrs {};b/zarr.json NUL;c/.zarray;d/.zgroup;e/zarr.json/x => true true
/d | a/.zattrs {};b/zarr.json NUL;c/.zarray;d/.zgroup;e/zarr.json/x => true true
/e | a/.zattrs {};b/zarr.json NUL;c/.zarray;d/.zgroup;e/zarr.json/x => false false
/ | a/.zattrs {};b/zarr.json NUL;c/.zarray;d/.zgroup;e/zarr.json/x => false false
"#;

#[test]
fn a_node_exists_where_one_of_its_documents_is(rt: HostRuntime) -> Result<(), Fail> {
    check_rows(rt.alloc(), EXISTENCE, existence)
}
