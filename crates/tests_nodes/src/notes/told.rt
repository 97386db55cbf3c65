//! What is told of a node that was read from a store.

use crate::failing::is_same;
use crate::given::store_in;
use std::alloc::{AllocError, Global};
use std::test::Fail;
use tests_fixtures::version_of;
use tests_support::{check_rows, fields, said};
use zarrs_config::MetadataRetrieveVersion;
use zarrs_meaning::NodeCreateError;
use zarrs_node::Node;
use zarrs_notes::{NodeFile, NodeFinding, laws, node_findings};
use zarrs_path::NodePath;
use zarrs_store::{AnyNumbers, ReadableStorageTraits};

// What is told of the node at a path of a store, by a version.
fn told_at<S: ReadableStorageTraits>(
    alloc: Global,
    store: &S,
    path: &NodePath,
    version: MetadataRetrieveVersion,
) -> Result<String, AllocError> {
    let metadata = Node::get_metadata(alloc, store, path, &version);
    said(alloc, metadata, |metadata, alloc| {
        let found = node_findings(alloc, store, path, metadata);
        said(alloc, found, told_text)
    })
}

// The same of a place, which is a version and a path with a blank between them.
fn told<S: ReadableStorageTraits>(
    alloc: Global,
    store: &S,
    place: &str,
) -> Result<String, NodeCreateError> {
    let (version, path) = place.split_once(' ').unwrap_or((place, ""));
    let version = version_of(alloc, version)?;
    let path = NodePath::new(alloc, path)?;
    Ok(told_at(alloc, store, &path, version)?)
}

/// A line for each finding; a note is marked.
pub(crate) fn told_text(found: &Vec<NodeFinding>, alloc: Global) -> Result<String, AllocError> {
    let mut text = String::new(alloc);
    for finding in found {
        let mark = if finding.is_note() { "note: " } else { "" };
        write!(text, "{mark}{finding}\n")?;
    }
    Ok(text)
}

// ---- whole numbers

// A version and a path, and documents; what is told of the node.
const TOLD: &str = r#"
# nothing of good nodes
any / | zarr.json G3 =>
any / | zarr.json A3 =>
any / | .zgroup G2 =>
any / | .zarray A2 =>
any /a | a/zarr.json A3_SQUARE =>
any / | zarr.json {"node_type":"array","zarr_format":3,"shape":[],"data_type":"int8","chunk_grid":{"name":"regular","configuration":{"chunk_shape":[]}},"chunk_key_encoding":"default","fill_value":0,"codecs":["bytes"],"dimension_names":[]} =>
any / | zarr.json {"node_type":"array","zarr_format":3,"shape":[0,2],"data_type":"int8","chunk_grid":{"name":"regular","configuration":{"chunk_shape":[1,1]}},"chunk_key_encoding":"default","fill_value":0,"codecs":["bytes"],"dimension_names":["x",null]} =>
any / | .zarray {"zarr_format":2,"shape":[],"chunks":[],"dtype":"|i1","fill_value":0,"order":"C","compressor":null,"filters":null} =>
any / | .zarray {"zarr_format":2,"shape":[0],"chunks":[1],"dtype":"|i1","fill_value":0,"order":"C","compressor":null,"filters":null} =>
any / | .zgroup G2;.zattrs {"a":1};.zmetadata {} =>
any / | .zarray A2;.zattrs {"a":1} =>
any / | zarr.json {"node_type":"group","zarr_format":3,"consolidated_metadata":{"kind":"inline","metadata":{},"must_understand":false},"x":{"must_understand":false}} =>
any / | zarr.json {"node_type":"group","zarr_format":3,"consolidated_metadata":null} =>
any / | zarr.json {"node_type":"group","zarr_format":3,"attributes":{"consolidated_metadata":1,"x":1}} =>
# the chunk grid has another number of lengths
any / | zarr.json {"node_type":"array","zarr_format":3,"shape":[1,1],"data_type":"int8","chunk_grid":{"name":"regular","configuration":{"chunk_shape":[1]}},"chunk_key_encoding":"default","fill_value":0,"codecs":["bytes"]} => bad shape: the chunk grid has 1 lengths, and the shape has 2\n
any / | zarr.json {"node_type":"array","zarr_format":3,"shape":[],"data_type":"int8","chunk_grid":{"name":"regular","configuration":{"chunk_shape":[1]}},"chunk_key_encoding":"default","fill_value":0,"codecs":["bytes"]} => bad shape: the chunk grid has 1 lengths, and the shape has 0\n
any / | zarr.json {"node_type":"array","zarr_format":3,"shape":[1],"data_type":"int8","chunk_grid":{"name":"regular","configuration":{"chunk_shape":[]}},"chunk_key_encoding":"default","fill_value":0,"codecs":["bytes"]} => bad shape: the chunk grid has 0 lengths, and the shape has 1\n
v3 /a/b | a/b/zarr.json {"node_type":"array","zarr_format":3,"shape":[1,1,1,1,1,1,1,1,1,1,1],"data_type":"int8","chunk_grid":{"name":"regular","configuration":{"chunk_shape":[1,1,1,1,1,1,1,1,1,1]}},"chunk_key_encoding":"default","fill_value":0,"codecs":["bytes"]} => bad shape: the chunk grid has 10 lengths, and the shape has 11\n
any / | .zarray {"zarr_format":2,"shape":[1,1],"chunks":[1],"dtype":"|i1","fill_value":0,"order":"C","compressor":null,"filters":null} => bad shape: the chunk grid has 1 lengths, and the shape has 2\n
v2 / | .zarray {"zarr_format":2,"shape":[1],"chunks":[1,1,1],"dtype":"|i1","fill_value":0,"order":"C","compressor":null,"filters":null} => bad shape: the chunk grid has 3 lengths, and the shape has 1\n
# of a grid that is not regular nothing is said
any / | zarr.json {"node_type":"array","zarr_format":3,"shape":[1,1],"data_type":"int8","chunk_grid":{"name":"rectangular","configuration":{"chunk_shape":[1]}},"chunk_key_encoding":"default","fill_value":0,"codecs":["bytes"]} =>
any / | zarr.json {"node_type":"array","zarr_format":3,"shape":[1,1],"data_type":"int8","chunk_grid":"other","chunk_key_encoding":"default","fill_value":0,"codecs":["bytes"]} =>
any / | zarr.json {"node_type":"array","zarr_format":3,"shape":[1,1],"data_type":"int8","chunk_grid":{"name":"regular2","configuration":{"chunk_shape":[-1]}},"chunk_key_encoding":"default","fill_value":0,"codecs":["bytes"]} =>
# a regular grid has no list of lengths
any / | zarr.json {"node_type":"array","zarr_format":3,"shape":[1,1],"data_type":"int8","chunk_grid":"regular","chunk_key_encoding":"default","fill_value":0,"codecs":["bytes"]} => bad shape: a regular chunk grid has no list of lengths\n
any / | zarr.json {"node_type":"array","zarr_format":3,"shape":[1,1],"data_type":"int8","chunk_grid":{"name":"regular","configuration":{"shape":[1]}},"chunk_key_encoding":"default","fill_value":0,"codecs":["bytes"]} => bad shape: a regular chunk grid has no list of lengths\n
any / | zarr.json {"node_type":"array","zarr_format":3,"shape":[1,1],"data_type":"int8","chunk_grid":{"name":"regular","configuration":{"chunk_shape":1}},"chunk_key_encoding":"default","fill_value":0,"codecs":["bytes"]} => bad shape: a regular chunk grid has no list of lengths\n
any / | zarr.json {"node_type":"array","zarr_format":3,"shape":[1,1],"data_type":"int8","chunk_grid":{"name":"regular","configuration":{"chunk_shape":["1"]}},"chunk_key_encoding":"default","fill_value":0,"codecs":["bytes"]} => bad shape: a regular chunk grid has no list of lengths\n
any / | zarr.json {"node_type":"array","zarr_format":3,"shape":[1,1],"data_type":"int8","chunk_grid":{"name":"regular","configuration":{"chunk_shape":[0,-1]}},"chunk_key_encoding":"default","fill_value":0,"codecs":["bytes"]} => bad shape: a regular chunk grid has no list of lengths\n
any / | zarr.json {"node_type":"array","zarr_format":3,"shape":[1,1],"data_type":"int8","chunk_grid":{"name":"regular","configuration":{}},"chunk_key_encoding":"default","fill_value":0,"codecs":["bytes"]} => bad shape: a regular chunk grid has no list of lengths\n
any / | zarr.json {"node_type":"array","zarr_format":3,"shape":[1,1],"data_type":"int8","chunk_grid":{"name":"regular","configuration":{"chunk_shape":null}},"chunk_key_encoding":"default","fill_value":0,"codecs":["bytes"]} => bad shape: a regular chunk grid has no list of lengths\n
any / | zarr.json {"node_type":"array","zarr_format":3,"shape":[1,1],"data_type":"int8","chunk_grid":{"name":"regular","configuration":{"chunk_shape":{"0":1}}},"chunk_key_encoding":"default","fill_value":0,"codecs":["bytes"]} => bad shape: a regular chunk grid has no list of lengths\n
any / | zarr.json {"node_type":"array","zarr_format":3,"shape":[],"data_type":"int8","chunk_grid":"regular","chunk_key_encoding":"default","fill_value":0,"codecs":["bytes"]} => bad shape: a regular chunk grid has no list of lengths\n
v3 / | zarr.json {"dimension_names":["x"],"node_type":"array","zarr_format":3,"shape":[1,1],"data_type":"int8","chunk_grid":{"name":"regular"},"chunk_key_encoding":"default","fill_value":0,"codecs":["bytes"]} => bad shape: a regular chunk grid has no list of lengths\nbad shape: there are 1 dimension names, and the shape has 2\n
# a chunk has the length 0, once
any / | zarr.json {"node_type":"array","zarr_format":3,"shape":[1],"data_type":"int8","chunk_grid":{"name":"regular","configuration":{"chunk_shape":[0]}},"chunk_key_encoding":"default","fill_value":0,"codecs":["bytes"]} => bad shape: a chunk has the length 0\n
any / | zarr.json {"node_type":"array","zarr_format":3,"shape":[1,1,1],"data_type":"int8","chunk_grid":{"name":"regular","configuration":{"chunk_shape":[0,1,0]}},"chunk_key_encoding":"default","fill_value":0,"codecs":["bytes"]} => bad shape: a chunk has the length 0\n
any / | zarr.json {"node_type":"array","zarr_format":3,"shape":[1,1],"data_type":"int8","chunk_grid":{"name":"regular","configuration":{"chunk_shape":[0]}},"chunk_key_encoding":"default","fill_value":0,"codecs":["bytes"]} => bad shape: the chunk grid has 1 lengths, and the shape has 2\nbad shape: a chunk has the length 0\n
any / | zarr.json {"node_type":"array","zarr_format":3,"shape":[1],"data_type":"int8","chunk_grid":{"name":"other","configuration":{"chunk_shape":[0]}},"chunk_key_encoding":"default","fill_value":0,"codecs":["bytes"]} =>
# dimension names of another number
any / | zarr.json {"node_type":"array","zarr_format":3,"shape":[1],"data_type":"int8","chunk_grid":{"name":"regular","configuration":{"chunk_shape":[1]}},"chunk_key_encoding":"default","fill_value":0,"codecs":["bytes"],"dimension_names":["x","y"]} => bad shape: there are 2 dimension names, and the shape has 1\n
any / | zarr.json {"node_type":"array","zarr_format":3,"shape":[1],"data_type":"int8","chunk_grid":{"name":"regular","configuration":{"chunk_shape":[1]}},"chunk_key_encoding":"default","fill_value":0,"codecs":["bytes"],"dimension_names":[]} => bad shape: there are 0 dimension names, and the shape has 1\n
any / | zarr.json {"node_type":"array","zarr_format":3,"shape":[1,1],"data_type":"int8","chunk_grid":{"name":"regular","configuration":{"chunk_shape":[1]}},"chunk_key_encoding":"default","fill_value":0,"codecs":["bytes"],"dimension_names":[null]} => bad shape: the chunk grid has 1 lengths, and the shape has 2\nbad shape: there are 1 dimension names, and the shape has 2\n
any / | zarr.json {"node_type":"array","zarr_format":3,"shape":[1],"data_type":"int8","chunk_grid":{"name":"regular","configuration":{"chunk_shape":[1]}},"chunk_key_encoding":"default","fill_value":0,"codecs":["bytes"]} =>
any / | zarr.json {"node_type":"array","zarr_format":3,"shape":[1],"data_type":"int8","chunk_grid":{"name":"regular","configuration":{"chunk_shape":[1]}},"chunk_key_encoding":"default","fill_value":0,"codecs":["bytes"],"dimension_names":null} =>
# no codecs
any / | zarr.json {"node_type":"array","zarr_format":3,"shape":[1],"data_type":"int8","chunk_grid":{"name":"regular","configuration":{"chunk_shape":[1]}},"chunk_key_encoding":"default","fill_value":0,"codecs":[]} => bad codecs: there is none, and one has to make bytes of a chunk\n
v3 /a | a/zarr.json {"node_type":"array","zarr_format":3,"shape":[],"data_type":"other","chunk_grid":{"name":"regular","configuration":{"chunk_shape":[]}},"chunk_key_encoding":"default","fill_value":null,"codecs":[]} => bad codecs: there is none, and one has to make bytes of a chunk\n
any / | .zarray {"zarr_format":2,"shape":[1],"chunks":[1],"dtype":"|i1","fill_value":null,"order":"C","compressor":null,"filters":[]} =>
# of a fill value of version 2 nothing is said
any / | .zarray {"zarr_format":2,"shape":[1],"chunks":[1],"dtype":"|i1","fill_value":"x","order":"C","compressor":null,"filters":null} =>
any / | .zarray {"zarr_format":2,"shape":[1],"chunks":[1],"dtype":"int8","fill_value":128,"order":"C","compressor":null,"filters":null} =>
# fields of a group that must be understood, in the order of their names
any / | zarr.json {"node_type":"group","zarr_format":3,"x":1} => not opened: the field x must be understood\n
any / | zarr.json {"node_type":"group","zarr_format":3,"x":{"must_understand":true}} => not opened: the field x must be understood\n
any / | zarr.json {"node_type":"group","zarr_format":3,"x":{"must_understand":1}} => not opened: the field x must be understood\n
any / | zarr.json {"node_type":"group","zarr_format":3,"x":{}} => not opened: the field x must be understood\n
any / | zarr.json {"node_type":"group","zarr_format":3,"x":null} => not opened: the field x must be understood\n
any /g | g/zarr.json {"node_type":"group","zarr_format":3,"z":1,"y":{"must_understand":false},"a":[],"b":"must_understand"} => not opened: the field a must be understood\nnot opened: the field b must be understood\nnot opened: the field z must be understood\n
any / | zarr.json {"node_type":"array","zarr_format":3,"shape":[1],"data_type":"int8","chunk_grid":{"name":"regular","configuration":{"chunk_shape":[1]}},"chunk_key_encoding":"default","fill_value":0,"codecs":["bytes"],"x":1} =>
any / | .zgroup {"zarr_format":2,"x":1} =>
# a block of a group that must be understood
any / | zarr.json {"node_type":"group","zarr_format":3,"consolidated_metadata":{"kind":"inline","metadata":{}}} => not opened: the block of / has no must_understand false\n
any /a/b | a/b/zarr.json {"node_type":"group","zarr_format":3,"consolidated_metadata":{"kind":"inline","must_understand":true,"metadata":{}}} => not opened: the block of /a/b has no must_understand false\n
any / | zarr.json {"node_type":"group","zarr_format":3,"consolidated_metadata":1} => not opened: the block of / has no must_understand false\n
any / | zarr.json {"node_type":"group","zarr_format":3,"d":1,"consolidated_metadata":1,"b":1} => not opened: the field b must be understood\nnot opened: the block of / has no must_understand false\nnot opened: the field d must be understood\n
# an array has a block
any / | zarr.json {"node_type":"array","zarr_format":3,"shape":[1],"data_type":"int8","chunk_grid":{"name":"regular","configuration":{"chunk_shape":[1]}},"chunk_key_encoding":"default","fill_value":0,"codecs":["bytes"],"consolidated_metadata":{"kind":"inline","metadata":{},"must_understand":false}} => note: misplaced: an array has a block, which is not read\n
any / | zarr.json {"node_type":"array","zarr_format":3,"shape":[1],"data_type":"int8","chunk_grid":{"name":"regular","configuration":{"chunk_shape":[1]}},"chunk_key_encoding":"default","fill_value":0,"codecs":["bytes"],"consolidated_metadata":1} => note: misplaced: an array has a block, which is not read\n
any / | zarr.json {"node_type":"array","zarr_format":3,"shape":[1],"data_type":"int8","chunk_grid":{"name":"regular","configuration":{"chunk_shape":[1]}},"chunk_key_encoding":"default","fill_value":0,"codecs":["bytes"],"consolidated_metadata":null} =>
any /a | a/.zarray A2;a/.zmetadata NUL => note: misplaced: an array has a block, which is not read\n
any /a | a/.zarray A2;.zmetadata {};a/b/.zmetadata {} =>
any / | .zarray {"zarr_format":2,"shape":[1],"chunks":[1],"dtype":"|i1","fill_value":0,"order":"C","compressor":null,"filters":null,"consolidated_metadata":1} =>
# documents beside `zarr.json`
any / | zarr.json G3;.zarray A2 => note: beside: .zarray is not read, since zarr.json stands there too\n
any / | zarr.json G3;.zgroup NUL => note: beside: .zgroup is not read, since zarr.json stands there too\n
any / | zarr.json G3;.zattrs {} => note: beside: .zattrs is not read, since zarr.json stands there too\n
any / | zarr.json G3;.zmetadata {} => note: beside: .zmetadata is not read, since zarr.json stands there too\n
any /a/b | a/b/zarr.json A3;a/b/.zmetadata ;a/b/.zattrs ;a/b/.zgroup ;a/b/.zarray  => note: beside: .zarray is not read, since zarr.json stands there too\nnote: beside: .zgroup is not read, since zarr.json stands there too\nnote: beside: .zattrs is not read, since zarr.json stands there too\nnote: beside: .zmetadata is not read, since zarr.json stands there too\n
any / | zarr.json G3;a/.zgroup G2;a/.zarray A2 =>
v3 / | zarr.json G3;.zgroup G2 => note: beside: .zgroup is not read, since zarr.json stands there too\n
# documents beside `.zarray`
any / | .zarray A2;.zgroup G2 => note: beside: .zgroup is not read, since .zarray stands there too\n
any /a | a/.zarray A2;a/.zgroup NUL;a/.zmetadata {};a/.zattrs {} => note: misplaced: an array has a block, which is not read\nnote: beside: .zgroup is not read, since .zarray stands there too\n
# what a run of writing left, at a group of its own version
any / | zarr.json G3;zarr.json.zarrs_new  => note: left over: zarr.json.zarrs_new is of a run that was broken off, or that still writes\n
any / | .zgroup G2;.zmetadata.zarrs_new NUL => note: left over: .zmetadata.zarrs_new is of a run that was broken off, or that still writes\n
any /a | a/zarr.json G3;a/zarr.json.zarrs_new G3 => note: left over: zarr.json.zarrs_new is of a run that was broken off, or that still writes\n
any /a | a/.zgroup G2;a/.zmetadata {};a/.zmetadata.zarrs_new {} => note: left over: .zmetadata.zarrs_new is of a run that was broken off, or that still writes\n
any / | zarr.json G3;.zmetadata.zarrs_new {} =>
any / | .zgroup G2;zarr.json.zarrs_new {} =>
any / | zarr.json G3;zarr.json.zarrs_new {};.zmetadata.zarrs_new {} => note: left over: zarr.json.zarrs_new is of a run that was broken off, or that still writes\n
any / | .zgroup G2;zarr.json.zarrs_new {};.zmetadata.zarrs_new {} => note: left over: .zmetadata.zarrs_new is of a run that was broken off, or that still writes\n
any /a | a/zarr.json G3;zarr.json.zarrs_new {};a/b/zarr.json.zarrs_new {};azarr.json.zarrs_new {};a/zarr.json.zarrs_new2 {};a/zarr.json_zarrs_new {} =>
# no document of an array is replaced, nor any but the one that has the block
any / | zarr.json A3;zarr.json.zarrs_new {};.zmetadata.zarrs_new {} =>
any /a | a/.zarray A2;a/.zarray.zarrs_new {};a/.zmetadata.zarrs_new {};a/zarr.json.zarrs_new {} =>
any / | .zgroup G2;.zgroup.zarrs_new {};.zattrs.zarrs_new {};.zarray.zarrs_new {} =>
# by version 2 alone `zarr.json` is not asked
v2 / | zarr.json G3;.zgroup G2;.zattrs {};.zmetadata {} =>
v2 / | zarr.json NUL;.zarray A2;.zgroup NUL => note: beside: .zgroup is not read, since .zarray stands there too\n
v2 / | zarr.json G3;zarr.json.zarrs_new {};.zgroup G2;.zmetadata.zarrs_new {} => note: left over: .zmetadata.zarrs_new is of a run that was broken off, or that still writes\n
# all in order
any /a | a/zarr.json {"node_type":"array","zarr_format":3,"shape":[1],"data_type":"int8","chunk_grid":"regular","chunk_key_encoding":"default","fill_value":null,"codecs":[],"dimension_names":[],"consolidated_metadata":{}};a/.zarray A2 => bad shape: a regular chunk grid has no list of lengths\nbad shape: there are 0 dimension names, and the shape has 1\nbad fill value: it is no value of int8\nbad codecs: there is none, and one has to make bytes of a chunk\nnote: misplaced: an array has a block, which is not read\nnote: beside: .zarray is not read, since zarr.json stands there too\n
any /a | a/zarr.json {"node_type":"array","zarr_format":3,"shape":[1,1],"data_type":"int8","chunk_grid":{"name":"regular","configuration":{"chunk_shape":[0]}},"chunk_key_encoding":"default","fill_value":0,"codecs":["bytes"],"dimension_names":["x"],"consolidated_metadata":{}};a/.zgroup G2;a/.zarray A2 => bad shape: the chunk grid has 1 lengths, and the shape has 2\nbad shape: a chunk has the length 0\nbad shape: there are 1 dimension names, and the shape has 2\nnote: misplaced: an array has a block, which is not read\nnote: beside: .zarray is not read, since zarr.json stands there too\nnote: beside: .zgroup is not read, since zarr.json stands there too\n
any / | zarr.json {"node_type":"group","zarr_format":3,"x":1};.zattrs {} => not opened: the field x must be understood\nnote: beside: .zattrs is not read, since zarr.json stands there too\n
any / | zarr.json {"node_type":"group","zarr_format":3,"x":1};zarr.json.zarrs_new {};.zmetadata.zarrs_new {};.zmetadata {};.zgroup G2 => not opened: the field x must be understood\nnote: beside: .zgroup is not read, since zarr.json stands there too\nnote: beside: .zmetadata is not read, since zarr.json stands there too\nnote: left over: zarr.json.zarrs_new is of a run that was broken off, or that still writes\n
"#;

fn told_in_whole(alloc: Global, given: &str) -> Result<String, NodeCreateError> {
    let (place, documents) = fields(given);
    told(alloc, &store_in(alloc, documents)?, place)
}

#[test]
fn each_kind_is_told_once_and_nothing_of_good_nodes(rt: HostRuntime) -> Result<(), Fail> {
    check_rows(rt.alloc(), TOLD, told_in_whole)
}

// ---- any numbers

// The same of documents that hold fractions, in a store that may hold them.
const FRACTIONS: &str = r#"
any / | zarr.json {"node_type":"group","zarr_format":3,"x":0.5} => not opened: the field x must be understood\n
any / | zarr.json {"node_type":"array","zarr_format":3,"shape":[1,1],"data_type":"int8","chunk_grid":{"name":"regular","configuration":{"chunk_shape":[1],"x":0.5}},"chunk_key_encoding":"default","fill_value":0.5,"codecs":["bytes"]} => bad shape: the chunk grid has 1 lengths, and the shape has 2\nbad fill value: it is no value of int8\n
any / | zarr.json {"node_type":"array","zarr_format":3,"shape":[1,1],"data_type":"int8","chunk_grid":{"name":"regular","configuration":{"chunk_shape":[1.5]}},"chunk_key_encoding":"default","fill_value":0,"codecs":["bytes"]} => bad shape: a regular chunk grid has no list of lengths\n
any / | zarr.json {"node_type":"array","zarr_format":3,"shape":[1],"data_type":"int8","chunk_grid":{"name":"regular","configuration":{"chunk_shape":[0.0]}},"chunk_key_encoding":"default","fill_value":0,"codecs":["bytes"]} => bad shape: a regular chunk grid has no list of lengths\n
any / | zarr.json {"node_type":"array","zarr_format":3,"shape":[1],"data_type":"int8","chunk_grid":{"name":"regular","configuration":{"chunk_shape":[1.0,2]}},"chunk_key_encoding":"default","fill_value":0,"codecs":["bytes"]} => bad shape: a regular chunk grid has no list of lengths\n
any / | .zgroup G2;.zmetadata.zarrs_new [0.5] => note: left over: .zmetadata.zarrs_new is of a run that was broken off, or that still writes\n
any / | zarr.json {"node_type":"group","zarr_format":3,"attributes":{"a":0.5}};.zgroup {"zarr_format":2.5} => note: beside: .zgroup is not read, since zarr.json stands there too\n
any / | .zarray {"zarr_format":2,"shape":[1,1],"chunks":[1],"dtype":"|i1","fill_value":0.5,"order":"C","compressor":null,"filters":null};.zmetadata [0.5] => bad shape: the chunk grid has 1 lengths, and the shape has 2\nnote: misplaced: an array has a block, which is not read\n
"#;

fn told_in_any(alloc: Global, given: &str) -> Result<String, NodeCreateError> {
    let (place, documents) = fields(given);
    let inner = store_in(alloc, documents)?;
    told(alloc, &AnyNumbers { inner }, place)
}

#[test]
fn fractions_change_nothing(rt: HostRuntime) -> Result<(), Fail> {
    check_rows(rt.alloc(), FRACTIONS, told_in_any)
}

// ---- fill values

// A data type and a fill value, as they stand in a document; what is told of an array of version 3 that has them.
const FILLS: &str = r#"
"bool" | true =>
"bool" | false =>
"bool" | 0 => bad fill value: it is no value of bool\n
"bool" | "true" => bad fill value: it is no value of bool\n
"bool" | null => bad fill value: it is no value of bool\n
"int8" | 127 =>
"int8" | -128 =>
"int8" | 128 => bad fill value: it is no value of int8\n
"int8" | -129 => bad fill value: it is no value of int8\n
"int8" | 1.0 => bad fill value: it is no value of int8\n
"int8" | 1e1 => bad fill value: it is no value of int8\n
"int8" | "1" => bad fill value: it is no value of int8\n
"int8" | [1] => bad fill value: it is no value of int8\n
"int8" | true => bad fill value: it is no value of int8\n
"int8" | null => bad fill value: it is no value of int8\n
"int16" | 32767 =>
"int16" | -32768 =>
"int16" | 32768 => bad fill value: it is no value of int16\n
"int16" | -32769 => bad fill value: it is no value of int16\n
"int32" | 2147483647 =>
"int32" | -2147483648 =>
"int32" | 2147483648 => bad fill value: it is no value of int32\n
"int32" | -2147483649 => bad fill value: it is no value of int32\n
"int64" | 9223372036854775807 =>
"int64" | -9223372036854775808 =>
"int64" | 9223372036854775808 => bad fill value: it is no value of int64\n
"int64" | -9223372036854775809 => bad fill value: it is no value of int64\n
"uint8" | 0 =>
"uint8" | 255 =>
"uint8" | 256 => bad fill value: it is no value of uint8\n
"uint8" | -1 => bad fill value: it is no value of uint8\n
"uint16" | 65535 =>
"uint16" | 65536 => bad fill value: it is no value of uint16\n
"uint32" | 4294967295 =>
"uint32" | 4294967296 => bad fill value: it is no value of uint32\n
"uint64" | 18446744073709551615 =>
"uint64" | 18446744073709551616 => bad fill value: it is no value of uint64\n
"uint64" | {} => bad fill value: it is no value of uint64\n
"float16" | -0.5 =>
"float16" | 18446744073709551616 =>
"float16" | "0x7c00" =>
"float16" | "0x7c0" => bad fill value: it is no value of float16\n
"float16" | "0x7c000" => bad fill value: it is no value of float16\n
"float32" | 0 =>
"float32" | "NaN" =>
"float32" | "Infinity" =>
"float32" | "-Infinity" =>
"float32" | "0x7fC0aF09" =>
"float32" | "nan" => bad fill value: it is no value of float32\n
"float32" | "+Infinity" => bad fill value: it is no value of float32\n
"float32" | "0X7fc00000" => bad fill value: it is no value of float32\n
"float32" | "0x7fc0000g" => bad fill value: it is no value of float32\n
"float32" | "7fc0000000" => bad fill value: it is no value of float32\n
"float32" | "0.5" => bad fill value: it is no value of float32\n
"float32" | "" => bad fill value: it is no value of float32\n
"float32" | null => bad fill value: it is no value of float32\n
"float32" | false => bad fill value: it is no value of float32\n
"float32" | [0] => bad fill value: it is no value of float32\n
"float64" | "0x7ff8000000000000" =>
"float64" | "0x7fc00000" => bad fill value: it is no value of float64\n
"complex64" | [0,-0.5] =>
"complex64" | ["NaN","0x7fc00000"] =>
"complex64" | 0 => bad fill value: it is no value of complex64\n
"complex64" | "NaN" => bad fill value: it is no value of complex64\n
"complex64" | [] => bad fill value: it is no value of complex64\n
"complex64" | [0] => bad fill value: it is no value of complex64\n
"complex64" | [0,0,0] => bad fill value: it is no value of complex64\n
"complex64" | [0,"x"] => bad fill value: it is no value of complex64\n
"complex64" | ["x",0] => bad fill value: it is no value of complex64\n
"complex64" | [[0,0],0] => bad fill value: it is no value of complex64\n
"complex128" | ["0x7ff8000000000000","-Infinity"] =>
"complex128" | ["0x7fc00000",0] => bad fill value: it is no value of complex128\n
# a data type with a configuration has its name
{"name":"int8","configuration":{}} | 128 => bad fill value: it is no value of int8\n
# of any other data type nothing is said
"string" | null =>
"r16" | 0 =>
"int" | "x" =>
"Int8" | 128 =>
"int8 " | null =>
{"name":"numpy.datetime64","configuration":{"unit":"s"}} | null =>
"#;

fn told_of_fill(alloc: Global, given: &str) -> Result<String, NodeCreateError> {
    let (data_type, fill) = fields(given);
    let documents = format!(in alloc;
        r#"zarr.json {{"chunk_grid":{{"configuration":{{"chunk_shape":[1]}},"name":"regular"}},"chunk_key_encoding":"default","codecs":["bytes"],"data_type":{data_type},"fill_value":{fill},"node_type":"array","shape":[1],"zarr_format":3}}"#
    )?;
    let inner = store_in(alloc, documents.as_str())?;
    told(alloc, &AnyNumbers { inner }, "any /")
}

#[test]
fn a_fill_value_is_one_of_its_data_type(rt: HostRuntime) -> Result<(), Fail> {
    check_rows(rt.alloc(), FILLS, told_of_fill)
}

// ---- documents, and the laws

#[test]
fn documents_have_their_names(_rt: HostRuntime) -> Result<(), Fail> {
    is_same(NodeFile::ZarrJson.name(), "zarr.json")?;
    is_same(NodeFile::Zarray.name(), ".zarray")?;
    is_same(NodeFile::Zgroup.name(), ".zgroup")?;
    is_same(NodeFile::Zattrs.name(), ".zattrs")?;
    is_same(NodeFile::Zmetadata.name(), ".zmetadata")?;
    is_same(NodeFile::NewZarrJson.name(), "zarr.json.zarrs_new")?;
    is_same(NodeFile::NewZmetadata.name(), ".zmetadata.zarrs_new")
}

#[test]
fn the_laws_hold_of_every_node() {
    laws::same_files_tell_same();
    laws::untold_is_understood();
}
