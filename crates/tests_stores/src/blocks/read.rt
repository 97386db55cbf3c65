use serde_json::{Map, Value};
use std::alloc::{AllocError, Global};
use std::test::Fail;
use tests_support::{check_rows, fields, said};
use zarrs_block::{
    ConsolidatedMetadata, ConsolidatedMetadataMetadata, consolidated_metadata_for_open,
    consolidated_metadata_of, expand_consolidated_metadata, laws, resolve_consolidated_policy,
};
use zarrs_config::UseConsolidatedMetadata;
use zarrs_meaning::NodeCreateError;
use zarrs_meta::{Document, NodeMetadata, WrittenDocument};
use zarrs_path::NodePath;
use zarrs_store::{MetadataFault, Numbers, StorageError, StoreKey, StorePrefix};

// ---- errors

// The kind of an error and the text that it is about; the refusal.
const ERRORS: &str = r#"
version => MetadataVersionMismatch: Found V2 metadata in V3 key or vice-versa
missing | /a => MissingMetadata: Metadata is missing for /a
memory => OutOfMemory: out of memory
store => StorageError(Fault): store fault
document | a/zarr.json => StorageError(InvalidMetadata): error parsing metadata for a/zarr.json: not JSON
path | a//b => NodePathError(Invalid): invalid node path a//b
prefix | / => StorePrefixError(Invalid): invalid store prefix /
allocation => OutOfMemory: out of memory
"#;

// The refusal that the error of a kind is.
fn error_text(alloc: Global, given: &str) -> Result<String, AllocError> {
    said(
        alloc,
        refused(alloc, given),
        |_none, alloc| String::from_str(alloc, "no error"),
    )
}

// The error of a kind, about a text. Those of a path, of a prefix and of an allocation are made of the error below.
fn refused(alloc: Global, given: &str) -> Result<(), NodeCreateError> {
    let (kind, text) = fields(given);
    match kind {
        "version" => Err(NodeCreateError::MetadataVersionMismatch),
        "missing" => without_document(alloc, text),
        "memory" => Err(NodeCreateError::OutOfMemory),
        "store" => Err(NodeCreateError::StorageError(StorageError::Fault)),
        "document" => not_json(alloc, text),
        "path" => no_path(alloc, text),
        "prefix" => no_prefix(alloc, text),
        "allocation" => Err(NodeCreateError::from(AllocError)),
        _ => Ok(()),
    }
}

// The error of a path where no document stands.
fn without_document(alloc: Global, path: &str) -> Result<(), NodeCreateError> {
    Err(NodeCreateError::MissingMetadata(String::from_str(alloc, path)?))
}

// The error of a key where a document is not JSON.
fn not_json(alloc: Global, key: &str) -> Result<(), NodeCreateError> {
    match StoreKey::new(alloc, key) {
        Ok(key) => {
            Err(NodeCreateError::from(StorageError::InvalidMetadata(key, MetadataFault::NotJson)))
        }
        Err(_) => Ok(()),
    }
}

// The error of a text that is no path.
fn no_path(alloc: Global, text: &str) -> Result<(), NodeCreateError> {
    match NodePath::new(alloc, text) {
        Ok(_) => Ok(()),
        Err(error) => Err(NodeCreateError::from(error)),
    }
}

// The error of a text that is no prefix.
fn no_prefix(alloc: Global, text: &str) -> Result<(), NodeCreateError> {
    match StorePrefix::new(alloc, text) {
        Ok(_) => Ok(()),
        Err(error) => Err(NodeCreateError::from(error)),
    }
}

#[test]
fn errors_have_their_texts_and_those_below_are_kept(rt: HostRuntime) -> Result<(), Fail> {
    check_rows(rt.alloc(), ERRORS, error_text)
}

// ---- blocks

// Texts, and the written form of the block that each is or its first fault.
const BLOCKS: &str = r#"
[1.5] => UnsupportedNumber: unsupported number
{"kind":1.5} => UnsupportedNumber: unsupported number
[] => NotAnObject: not an object
{} => MissingMember: missing member kind
{"kind":"other","must_understand":true} => BadMember: bad member kind
{"kind":"outline","metadata":{},"must_understand":false} => BadMember: bad member kind
{"kind":"inline","must_understand":false} => MissingMember: missing member metadata
{"kind":"inline","metadata":{},"must_understand":true} => BadMember: bad member must_understand
{"kind":null} => BadMember: bad member kind
{"kind":"inline","must_understand":true} => BadMember: bad member must_understand
{"kind":"inline","must_understand":null} => BadMember: bad member must_understand
{"kind":"inline"} => MissingMember: missing member metadata
{"kind":"inline","metadata":[]} => BadMember: bad member metadata
{"kind":"inline","metadata":{"a":{"zarr_format":3}}} => BadMember: bad member metadata
{"kind":"inline","metadata":{"a":{"zarr_format":2},"b":{"zarr_format":4}}} => BadMember: bad member metadata
{"kind":"inline","metadata":{"a":{"attributes":1,"node_type":"group","zarr_format":3}}} => BadMember: bad member metadata
{"kind":"inline","metadata":{"a":{"attributes":{"n":1.5},"node_type":"group","zarr_format":3}}} => UnsupportedNumber: unsupported number
{"kind":"inline","metadata":{},"more":1} => {"kind":"inline","metadata":{},"must_understand":false}
{"kind":"inline","metadata":{"b":{"zarr_format":2},"a":{"node_type":"group","zarr_format":3}},"must_understand":false} => {"kind":"inline","metadata":{"a":{"node_type":"group","zarr_format":3},"b":{"zarr_format":2}},"must_understand":false}
"#;

// The block that a JSON text is by reference, or the fault.
fn read_block(alloc: Global, text: &str) -> Result<String, AllocError> {
    match Value::from_slice(alloc, text.as_bytes()) {
        Ok(value) => said(
            alloc,
            ConsolidatedMetadata::from_value(alloc, &value),
            written,
        ),
        Err(_) => String::from_str(alloc, "not JSON"),
    }
}

// The block that a JSON text is by value, or the fault.
fn read_owned_block(alloc: Global, text: &str) -> Result<String, AllocError> {
    match Value::from_slice(alloc, text.as_bytes()) {
        Ok(value) => said(
            alloc,
            ConsolidatedMetadata::from_owned_value(alloc, value),
            written,
        ),
        Err(_) => String::from_str(alloc, "not JSON"),
    }
}

// The text of the written form of a block.
pub(crate) fn written(block: &ConsolidatedMetadata, alloc: Global) -> Result<String, AllocError> {
    block.to_value(alloc)?.to_string(alloc)
}

#[test]
fn blocks_are_read_or_refused_by_the_first_fault(rt: HostRuntime) -> Result<(), Fail> {
    check_rows(rt.alloc(), BLOCKS, read_block)
}

#[test]
fn blocks_are_read_by_value_or_refused_by_the_first_fault(rt: HostRuntime) -> Result<(), Fail> {
    check_rows(rt.alloc(), BLOCKS, read_owned_block)
}

// Texts of blocks, and the pretty layout of each.
const PRETTY: &str = r#"
{"kind":"inline","metadata":{}} => {\n  "kind": "inline",\n  "metadata": {},\n  "must_understand": false\n}
{"kind":"inline","metadata":{"a":{"node_type":"group","zarr_format":3}}} => {\n  "kind": "inline",\n  "metadata": {\n    "a": {\n      "node_type": "group",\n      "zarr_format": 3\n    }\n  },\n  "must_understand": false\n}
{"kind":"inline","metadata":{"a":{"attributes":{"list":[1,[],{},[-2,null]],"text":"two\nlines"},"node_type":"group","zarr_format":3},"a/\"b\"":{"zarr_format":2}}} => {\n  "kind": "inline",\n  "metadata": {\n    "a": {\n      "attributes": {\n        "list": [\n          1,\n          [],\n          {},\n          [\n            -2,\n            null\n          ]\n        ],\n        "text": "two\\nlines"\n      },\n      "node_type": "group",\n      "zarr_format": 3\n    },\n    "a/\\"b\\"": {\n      "zarr_format": 2\n    }\n  },\n  "must_understand": false\n}
# a version 3 array with each member
{"kind":"inline","metadata":{"a":{"zarr_format":3,"node_type":"array","shape":[10,0],"data_type":{"name":"numpy.datetime64","configuration":{"unit":"s","scale_factor":1}},"chunk_grid":{"name":"regular","configuration":{"chunk_shape":[1,2]}},"chunk_key_encoding":"default","fill_value":{"a":[-1,{}]},"codecs":[{"name":"bytes"},{"name":"zstd","configuration":{},"must_understand":false}],"attributes":{"a\"b":{"c":{"d":[[],{}]}},"é\t":""},"storage_transformers":[{"name":"s","must_understand":false}],"dimension_names":["x",null,""]}}} => {\n  "kind": "inline",\n  "metadata": {\n    "a": {\n      "attributes": {\n        "a\\"b": {\n          "c": {\n            "d": [\n              [],\n              {}\n            ]\n          }\n        },\n        "é\\t": ""\n      },\n      "chunk_grid": {\n        "configuration": {\n          "chunk_shape": [\n            1,\n            2\n          ]\n        },\n        "name": "regular"\n      },\n      "chunk_key_encoding": "default",\n      "codecs": [\n        "bytes",\n        {\n          "configuration": {},\n          "must_understand": false,\n          "name": "zstd"\n        }\n      ],\n      "data_type": {\n        "configuration": {\n          "scale_factor": 1,\n          "unit": "s"\n        },\n        "name": "numpy.datetime64"\n      },\n      "dimension_names": [\n        "x",\n        null,\n        ""\n      ],\n      "fill_value": {\n        "a": [\n          -1,\n          {}\n        ]\n      },\n      "node_type": "array",\n      "shape": [\n        10,\n        0\n      ],\n      "storage_transformers": [\n        {\n          "must_understand": false,\n          "name": "s"\n        }\n      ],\n      "zarr_format": 3\n    }\n  },\n  "must_understand": false\n}
# the same with the fewest members, and with an additional field
{"kind":"inline","metadata":{"a":{"zarr_format":3,"node_type":"array","shape":[],"data_type":"int8","chunk_grid":{"name":"regular","configuration":{"chunk_shape":[]}},"chunk_key_encoding":{"name":"v2","configuration":{"separator":"."}},"fill_value":null,"codecs":[],"attributes":{},"storage_transformers":[]},"b":{"zarr_format":3,"node_type":"array","shape":[],"data_type":"int8","chunk_grid":{"name":"regular","configuration":{"chunk_shape":[]}},"chunk_key_encoding":{"name":"v2","configuration":{"separator":"."}},"fill_value":null,"codecs":[],"attributes":{},"storage_transformers":[],"dimension_names":[],"extra":{"must_understand":false,"k":[1]}}}} => {\n  "kind": "inline",\n  "metadata": {\n    "a": {\n      "chunk_grid": {\n        "configuration": {\n          "chunk_shape": []\n        },\n        "name": "regular"\n      },\n      "chunk_key_encoding": {\n        "configuration": {\n          "separator": "."\n        },\n        "name": "v2"\n      },\n      "codecs": [],\n      "data_type": "int8",\n      "fill_value": null,\n      "node_type": "array",\n      "shape": [],\n      "zarr_format": 3\n    },\n    "b": {\n      "chunk_grid": {\n        "configuration": {\n          "chunk_shape": []\n        },\n        "name": "regular"\n      },\n      "chunk_key_encoding": {\n        "configuration": {\n          "separator": "."\n        },\n        "name": "v2"\n      },\n      "codecs": [],\n      "data_type": "int8",\n      "dimension_names": [],\n      "extra": {\n        "k": [\n          1\n        ],\n        "must_understand": false\n      },\n      "fill_value": null,\n      "node_type": "array",\n      "shape": [],\n      "zarr_format": 3\n    }\n  },\n  "must_understand": false\n}
# version 2 arrays
{"kind":"inline","metadata":{"a":{"zarr_format":2,"shape":[4],"chunks":[2],"dtype":[["f","<f4"],["g","|u1"]],"fill_value":0,"order":"F","compressor":{"id":"blosc","clevel":5},"filters":[{"id":"delta","dtype":"<f4"}],"dimension_separator":"/","attributes":{"k":[true,false,null]}},"b":{"zarr_format":2,"shape":[],"chunks":[],"dtype":"<f8","fill_value":null,"order":"C","compressor":null,"filters":null},"c":{"zarr_format":2,"shape":[],"chunks":[],"dtype":"<f8","fill_value":null,"order":"C","compressor":null,"filters":[],"extra":{"x":"y"}}}} => {\n  "kind": "inline",\n  "metadata": {\n    "a": {\n      "attributes": {\n        "k": [\n          true,\n          false,\n          null\n        ]\n      },\n      "chunks": [\n        2\n      ],\n      "compressor": {\n        "clevel": 5,\n        "id": "blosc"\n      },\n      "dimension_separator": "/",\n      "dtype": [\n        [\n          "f",\n          "<f4"\n        ],\n        [\n          "g",\n          "|u1"\n        ]\n      ],\n      "fill_value": 0,\n      "filters": [\n        {\n          "dtype": "<f4",\n          "id": "delta"\n        }\n      ],\n      "order": "F",\n      "shape": [\n        4\n      ],\n      "zarr_format": 2\n    },\n    "b": {\n      "chunks": [],\n      "compressor": null,\n      "dimension_separator": ".",\n      "dtype": "<f8",\n      "fill_value": null,\n      "filters": null,\n      "order": "C",\n      "shape": [],\n      "zarr_format": 2\n    },\n    "c": {\n      "chunks": [],\n      "compressor": null,\n      "dimension_separator": ".",\n      "dtype": "<f8",\n      "extra": {\n        "x": "y"\n      },\n      "fill_value": null,\n      "filters": [],\n      "order": "C",\n      "shape": [],\n      "zarr_format": 2\n    }\n  },\n  "must_understand": false\n}
# groups with attributes and additional fields
{"kind":"inline","metadata":{"a":{"zarr_format":3,"node_type":"group","attributes":{"b":{"a":1}},"extra":[[1]]},"b":{"zarr_format":2,"attributes":{"x":18446744073709551615}},"c":{"zarr_format":2,"extra":-9223372036854775808}}} => {\n  "kind": "inline",\n  "metadata": {\n    "a": {\n      "attributes": {\n        "b": {\n          "a": 1\n        }\n      },\n      "extra": [\n        [\n          1\n        ]\n      ],\n      "node_type": "group",\n      "zarr_format": 3\n    },\n    "b": {\n      "attributes": {\n        "x": 18446744073709551615\n      },\n      "zarr_format": 2\n    },\n    "c": {\n      "extra": -9223372036854775808,\n      "zarr_format": 2\n    }\n  },\n  "must_understand": false\n}
"#;

// The pretty layout of the block that a JSON text is, node by node, where the block as one JSON value has the same.
fn pretty_block(alloc: Global, text: &str) -> Result<String, MetadataFault> {
    let Ok(value) = Value::from_slice(alloc, text.as_bytes()) else {
        return Ok(String::from_str(alloc, "not JSON")?);
    };
    let block = ConsolidatedMetadata::from_value(alloc, &value)?;
    let pretty = block.to_pretty_text(alloc)?;
    let whole = block.to_value(alloc)?.to_vec_pretty(alloc)?;
    if pretty.as_bytes() == whole.as_slice() {
        Ok(pretty)
    } else {
        Ok(String::from_str(alloc, "another text than that of one value")?)
    }
}

#[test]
fn blocks_have_this_pretty_layout(rt: HostRuntime) -> Result<(), Fail> {
    check_rows(rt.alloc(), PRETTY, pretty_block)
}

// The document of a key that stands alone.
const ALONE: &str = r#"{"zarr_format":2}"#;

/// The block of documents at keys: `KEY=DOCUMENT`, a semicolon between two; a key that stands alone has a group of version 2.
pub(crate) fn block_of(
    alloc: Global,
    documents: &str,
) -> Result<ConsolidatedMetadata, MetadataFault> {
    let mut metadata = ConsolidatedMetadataMetadata::new(alloc);
    for document in documents.split(';') {
        insert_document(alloc, &mut metadata, document)?;
    }
    Ok(ConsolidatedMetadata { metadata })
}

// Inserts a document at its key; nothing where the text is empty.
fn insert_document(
    alloc: Global,
    metadata: &mut ConsolidatedMetadataMetadata,
    text: &str,
) -> Result<(), MetadataFault> {
    if text.is_empty() {
        return Ok(());
    }
    let (key, document) = text.split_once('=').unwrap_or((text, ALONE));
    let node = NodeMetadata::from_bytes(alloc, document.as_bytes())?;
    metadata.insert(String::from_str(alloc, key)?, node)?;
    Ok(())
}

// ---- nodes of a block

// A path and the documents of a block at their keys, and a line for each node of the block below the path, or the refusal.
const EXPANDED: &str = r#"
# Keys are joined to the base.
/group | foo={"node_type":"group","zarr_format":3};sub/leaf={"node_type":"group","zarr_format":3};/={"node_type":"group","zarr_format":3};={"node_type":"group","zarr_format":3} => /group/foo {"node_type":"group","zarr_format":3}\n/group/sub/leaf {"node_type":"group","zarr_format":3}\n
/group | foo={"node_type":"group","zarr_format":3};sub/leaf={"node_type":"group","zarr_format":3};/={"node_type":"group","zarr_format":3};foo/={"node_type":"group","zarr_format":3} => NodePathError(Invalid): invalid node path invalid node name `` in 'foo/'
/group | foo={"node_type":"group","zarr_format":3};sub/leaf={"node_type":"group","zarr_format":3};/={"node_type":"group","zarr_format":3};//foo={"node_type":"group","zarr_format":3} => NodePathError(Invalid): invalid node path invalid node name `` in '/foo'
/group | foo={"node_type":"group","zarr_format":3};sub/leaf={"node_type":"group","zarr_format":3};={"node_type":"group","zarr_format":3};/={"node_type":"group","zarr_format":3};foo/={"node_type":"group","zarr_format":3} => NodePathError(Invalid): invalid node path invalid node name `` in 'foo/'
/group | foo={"node_type":"group","zarr_format":3};sub/leaf={"node_type":"group","zarr_format":3};={"node_type":"group","zarr_format":3};/={"node_type":"group","zarr_format":3};//foo={"node_type":"group","zarr_format":3} => NodePathError(Invalid): invalid node path invalid node name `` in '/foo'
/ | foo={"chunk_grid":{"configuration":{"chunk_shape":[1]},"name":"regular"},"chunk_key_encoding":{"configuration":{"separator":"/"},"name":"default"},"codecs":[{"configuration":{"endian":"little"},"name":"bytes"}],"data_type":"float32","fill_value":0,"node_type":"array","shape":[1],"zarr_format":3};/bar={"chunk_grid":{"configuration":{"chunk_shape":[2]},"name":"regular"},"chunk_key_encoding":{"configuration":{"separator":"/"},"name":"default"},"codecs":[{"configuration":{"endian":"little"},"name":"bytes"}],"data_type":"float32","fill_value":0,"node_type":"array","shape":[2],"zarr_format":3};={"node_type":"group","zarr_format":3};/={"node_type":"group","zarr_format":3} => /bar {"chunk_grid":{"configuration":{"chunk_shape":[2]},"name":"regular"},"chunk_key_encoding":{"configuration":{"separator":"/"},"name":"default"},"codecs":[{"configuration":{"endian":"little"},"name":"bytes"}],"data_type":"float32","fill_value":0,"node_type":"array","shape":[2],"zarr_format":3}\n/foo {"chunk_grid":{"configuration":{"chunk_shape":[1]},"name":"regular"},"chunk_key_encoding":{"configuration":{"separator":"/"},"name":"default"},"codecs":[{"configuration":{"endian":"little"},"name":"bytes"}],"data_type":"float32","fill_value":0,"node_type":"array","shape":[1],"zarr_format":3}\n
/group | foo={"chunk_grid":{"configuration":{"chunk_shape":[3]},"name":"regular"},"chunk_key_encoding":{"configuration":{"separator":"/"},"name":"default"},"codecs":[{"configuration":{"endian":"little"},"name":"bytes"}],"data_type":"float32","fill_value":0,"node_type":"array","shape":[3],"zarr_format":3};sub/leaf={"chunk_grid":{"configuration":{"chunk_shape":[4]},"name":"regular"},"chunk_key_encoding":{"configuration":{"separator":"/"},"name":"default"},"codecs":[{"configuration":{"endian":"little"},"name":"bytes"}],"data_type":"float32","fill_value":0,"node_type":"array","shape":[4],"zarr_format":3} => /group/foo {"chunk_grid":{"configuration":{"chunk_shape":[3]},"name":"regular"},"chunk_key_encoding":{"configuration":{"separator":"/"},"name":"default"},"codecs":[{"configuration":{"endian":"little"},"name":"bytes"}],"data_type":"float32","fill_value":0,"node_type":"array","shape":[3],"zarr_format":3}\n/group/sub/leaf {"chunk_grid":{"configuration":{"chunk_shape":[4]},"name":"regular"},"chunk_key_encoding":{"configuration":{"separator":"/"},"name":"default"},"codecs":[{"configuration":{"endian":"little"},"name":"bytes"}],"data_type":"float32","fill_value":0,"node_type":"array","shape":[4],"zarr_format":3}\n
/ | foo/={"chunk_grid":{"configuration":{"chunk_shape":[1]},"name":"regular"},"chunk_key_encoding":{"configuration":{"separator":"/"},"name":"default"},"codecs":[{"configuration":{"endian":"little"},"name":"bytes"}],"data_type":"float32","fill_value":0,"node_type":"array","shape":[1],"zarr_format":3} => NodePathError(Invalid): invalid node path invalid node name `` in 'foo/'
# A key that is no relative path is refused, also where it stands alone.
/ | .={"node_type":"group","zarr_format":3} => NodePathError(Invalid): invalid node path invalid node name `.` in '.'
# Pairs stand in the order of paths and not of keys.
/ | a-b={"node_type":"group","zarr_format":3};a/c={"node_type":"group","zarr_format":3} => /a/c {"node_type":"group","zarr_format":3}\n/a-b {"node_type":"group","zarr_format":3}\n
/ | a-b={"node_type":"group","zarr_format":3};a/c={"node_type":"group","zarr_format":3};b={"node_type":"group","zarr_format":3};/a={"node_type":"group","zarr_format":3} => /a {"node_type":"group","zarr_format":3}\n/a/c {"node_type":"group","zarr_format":3}\n/a-b {"node_type":"group","zarr_format":3}\n/b {"node_type":"group","zarr_format":3}\n
# The key without a slash counts.
/ | -x={"chunk_grid":"g","chunk_key_encoding":"k","codecs":[],"data_type":"float32","fill_value":0,"node_type":"array","shape":[1],"zarr_format":3};/-x={"chunk_grid":"g","chunk_key_encoding":"k","codecs":[],"data_type":"float32","fill_value":0,"node_type":"array","shape":[2],"zarr_format":3} => /-x {"chunk_grid":"g","chunk_key_encoding":"k","codecs":[],"data_type":"float32","fill_value":0,"node_type":"array","shape":[1],"zarr_format":3}\n
/ | /x={"chunk_grid":"g","chunk_key_encoding":"k","codecs":[],"data_type":"float32","fill_value":0,"node_type":"array","shape":[1],"zarr_format":3};x={"chunk_grid":"g","chunk_key_encoding":"k","codecs":[],"data_type":"float32","fill_value":0,"node_type":"array","shape":[2],"zarr_format":3} => /x {"chunk_grid":"g","chunk_key_encoding":"k","codecs":[],"data_type":"float32","fill_value":0,"node_type":"array","shape":[2],"zarr_format":3}\n
/ | /foo={"attributes":{"k":1},"zarr_format":2};foo={"zarr_format":2} => /foo {"zarr_format":2}\n
"#;

// The paths and texts of the nodes of a block below a path, a line each, or the refusal.
fn expanded(alloc: Global, given: &str) -> Result<String, MetadataFault> {
    let (path, documents) = fields(given);
    let block = block_of(alloc, documents)?;
    match NodePath::new(alloc, path) {
        Ok(path) => Ok(below(alloc, &path, block)?),
        Err(_) => Ok(String::from_str(alloc, "no path")?),
    }
}

// The paths and texts of the nodes of a block below a path, or the refusal.
fn below(
    alloc: Global,
    path: &NodePath,
    block: ConsolidatedMetadata,
) -> Result<String, AllocError> {
    said(
        alloc,
        expand_consolidated_metadata(alloc, path, block),
        lines,
    )
}

// A line for each pair.
fn lines(pairs: &Vec<(NodePath, NodeMetadata)>, alloc: Global) -> Result<String, AllocError> {
    let mut out = String::new(alloc);
    for (path, metadata) in pairs {
        let path = path.as_str();
        let metadata = metadata.to_text(alloc)?;
        write!(out, "{path} {metadata}\n")?;
    }
    Ok(out)
}

#[test]
fn blocks_are_expanded_below_a_path(rt: HostRuntime) -> Result<(), Fail> {
    check_rows(rt.alloc(), EXPANDED, expanded)
}

// ---- policies

// A policy, a path, and whether there is a block: what the policy makes of it.
const CHOSEN: &str = r#"
Must | / | none => MissingMetadata: Metadata is missing for Consolidated metadata required but missing on group /
Must | /g | none => MissingMetadata: Metadata is missing for Consolidated metadata required but missing on group /g
Never | / | block => none
Never | / | none => none
Auto | / | none => none
Must | / | block => {"kind":"inline","metadata":{},"must_understand":false}
Auto | / | block => {"kind":"inline","metadata":{},"must_understand":false}
"#;

// What a policy makes of a block that there is or is not: the text of the block, `none`, or the refusal.
fn resolved(alloc: Global, given: &str) -> Result<String, NodeCreateError> {
    let (policy, rest) = fields(given);
    let (path, block) = fields(rest);
    let policy = policy_of(alloc, policy)?;
    let path = NodePath::new(alloc, path)?;
    let block = empty_block(alloc, block)?;
    Ok(said(
        alloc,
        resolve_consolidated_policy(alloc, &path, block, policy),
        chosen,
    )?)
}

// The refusal of a word that names nothing.
pub(crate) fn no_word(alloc: Global, word: &str) -> NodeCreateError {
    match String::from_str(alloc, word) {
        Ok(word) => NodeCreateError::StorageError(StorageError::Other(word)),
        Err(_) => NodeCreateError::OutOfMemory,
    }
}

// The policy of a name.
pub(crate) fn policy_of(
    alloc: Global,
    name: &str,
) -> Result<UseConsolidatedMetadata, NodeCreateError> {
    match name {
        "Auto" => Ok(UseConsolidatedMetadata::Auto),
        "Must" => Ok(UseConsolidatedMetadata::Must),
        "Never" => Ok(UseConsolidatedMetadata::Never),
        name => Err(no_word(alloc, name)),
    }
}

// The block without nodes, or none.
fn empty_block(alloc: Global, word: &str) -> Result<Option<ConsolidatedMetadata>, NodeCreateError> {
    match word {
        "block" => Ok(Some(ConsolidatedMetadata {
            metadata: ConsolidatedMetadataMetadata::new(alloc),
        })),
        "none" => Ok(None),
        word => Err(no_word(alloc, word)),
    }
}

// The text of the block, or `none`.
pub(crate) fn chosen(
    block: &Option<ConsolidatedMetadata>,
    alloc: Global,
) -> Result<String, AllocError> {
    match block {
        Some(block) => written(block, alloc),
        None => String::from_str(alloc, "none"),
    }
}

#[test]
fn a_policy_chooses(rt: HostRuntime) -> Result<(), Fail> {
    check_rows(rt.alloc(), CHOSEN, resolved)
}

// A policy, a path and the document of a node: what the policy makes of the node's block.
const OPENED: &str = r#"
Auto | /g | {"consolidated_metadata":{"kind":"inline","metadata":{}},"node_type":"group","zarr_format":3} => {"kind":"inline","metadata":{},"must_understand":false}
Never | /g | {"consolidated_metadata":{"kind":"inline","metadata":{}},"node_type":"group","zarr_format":3} => none
Auto | /g | {"consolidated_metadata":{},"node_type":"group","zarr_format":3} => none
Must | /g | {"consolidated_metadata":{},"node_type":"group","zarr_format":3} => MissingMetadata: Metadata is missing for Consolidated metadata required but missing on group /g
Auto | / | {"zarr_format":2} => none
Must | /g | {"zarr_format":2} => MissingMetadata: Metadata is missing for Consolidated metadata required but missing on group /g
Auto | / | {"chunk_grid":{"configuration":{"chunk_shape":[1]},"name":"regular"},"chunk_key_encoding":{"configuration":{"separator":"/"},"name":"default"},"codecs":[{"configuration":{"endian":"little"},"name":"bytes"}],"data_type":"float32","fill_value":0,"node_type":"array","shape":[1],"zarr_format":3} => none
Must | /a | {"chunk_grid":{"configuration":{"chunk_shape":[1]},"name":"regular"},"chunk_key_encoding":{"configuration":{"separator":"/"},"name":"default"},"codecs":[{"configuration":{"endian":"little"},"name":"bytes"}],"data_type":"float32","fill_value":0,"node_type":"array","shape":[1],"zarr_format":3} => MissingMetadata: Metadata is missing for Consolidated metadata required but missing on group /a
# A block with a fraction is none.
Auto | /g | {"consolidated_metadata":{"kind":"inline","metadata":{"a":{"attributes":{"n":1.5},"zarr_format":2}}},"node_type":"group","zarr_format":3} => none
"#;

// What a policy makes of the node that a JSON text is, in any numbers.
fn opened(alloc: Global, given: &str) -> Result<String, NodeCreateError> {
    let (policy, rest) = fields(given);
    let (path, document) = fields(rest);
    let policy = policy_of(alloc, policy)?;
    let path = NodePath::new(alloc, path)?;
    match NodeMetadata::from_bytes_in(alloc, Numbers::Any, document.as_bytes()) {
        Ok(node) => Ok(said(
            alloc,
            consolidated_metadata_for_open(alloc, &path, &node, policy),
            chosen,
        )?),
        Err(_) => Err(no_word(alloc, document)),
    }
}

#[test]
fn a_group_is_opened_by_its_block(rt: HostRuntime) -> Result<(), Fail> {
    check_rows(rt.alloc(), OPENED, opened)
}

// The document of a node: the block that it holds, as a group.
const HELD: &str = r#"
{"consolidated_metadata":{"kind":"inline","metadata":{"a":{"zarr_format":2}},"must_understand":false},"node_type":"group","zarr_format":3} => {"kind":"inline","metadata":{"a":{"zarr_format":2}},"must_understand":false}
{"consolidated_metadata":{"kind":"inline"},"node_type":"group","zarr_format":3} => none
{"node_type":"group","zarr_format":3} => none
{"consolidated_metadata":{"kind":"inline","metadata":{}},"zarr_format":2} => none
# A block with a fraction is none.
{"consolidated_metadata":{"kind":"inline","metadata":{"a":{"attributes":{"n":1.5},"zarr_format":2}}},"node_type":"group","zarr_format":3} => none
"#;

// The block that the group holds that a JSON text is, in any numbers; an array holds none.
fn held(alloc: Global, document: &str) -> Result<String, MetadataFault> {
    match NodeMetadata::from_bytes_in(alloc, Numbers::Any, document.as_bytes())? {
        NodeMetadata::Group(group) => {
            Ok(chosen(&consolidated_metadata_of(alloc, &group)?, alloc)?)
        }
        NodeMetadata::Array(_) => Ok(String::from_str(alloc, "array")?),
    }
}

#[test]
fn a_group_holds_a_block_in_its_field(rt: HostRuntime) -> Result<(), Fail> {
    check_rows(rt.alloc(), HELD, held)
}

#[test]
fn the_laws_of_blocks_are_called(rt: HostRuntime) {
    let none = ConsolidatedMetadata {
        metadata: ConsolidatedMetadataMetadata::new(rt.alloc()),
    };
    laws::block_reads_back_in(Numbers::Any, &none);
    laws::written_reads_back_in(Numbers::Any);
    laws::one_block_holds_store_in(Numbers::Any);
}

// ---- entries of a block

// An entry as rows give it: its key, and behind `=` its document where that is not the one of a key that stands alone.
fn push_entry(
    text: &mut String,
    alloc: Global,
    key: &String,
    metadata: &NodeMetadata,
) -> Result<(), AllocError> {
    let document = metadata.to_text(alloc)?;
    match document.as_str() {
        ALONE => write!(text, "{key};"),
        document => write!(text, "{key}={document};"),
    }
}

// The entries of a block.
fn entries_text(block: &ConsolidatedMetadataMetadata, alloc: Global) -> Result<String, AllocError> {
    let mut text = String::new(alloc);
    for (key, metadata) in block.as_map().iter() {
        push_entry(&mut text, alloc, key, metadata)?;
    }
    Ok(text)
}

// The document of metadata, or `none`.
fn document_text(metadata: Option<&NodeMetadata>, alloc: Global) -> Result<String, AllocError> {
    match metadata {
        Some(metadata) => metadata.to_text(alloc),
        None => String::from_str(alloc, "none"),
    }
}

// What is asked of entries: which stand at a key, how many there are, or those of a copy or of the map.
fn asked(
    alloc: Global,
    call: &str,
    block: ConsolidatedMetadataMetadata,
    key: &str,
) -> Result<String, AllocError> {
    let mut block = block;
    match call {
        "get" => document_text(block.get(key), alloc),
        "is_covered" => format!(in alloc; "{}", block.is_covered(key)),
        "count" => format!(in alloc; "{}, empty {}", block.len(), block.is_empty()),
        "copy" => said(alloc, block.try_clone(alloc), entries_text),
        "without" => said(alloc, block.try_clone_without(alloc, key), entries_text),
        "map" => map_text(&block.into_map(), alloc),
        "remove" => {
            let removed = document_text(block.remove(key).as_ref(), alloc)?;
            format!(in alloc; "{removed} left {}", entries_text(&block, alloc)?)
        }
        "remove_below" => {
            block.remove_below(alloc, key)?;
            entries_text(&block, alloc)
        }
        call => format!(in alloc; "no such call: {call}"),
    }
}

// The entries of a map.
fn map_text(map: &Map<String, NodeMetadata>, alloc: Global) -> Result<String, AllocError> {
    let mut text = String::new(alloc);
    for (key, metadata) in map.iter() {
        push_entry(&mut text, alloc, key, metadata)?;
    }
    Ok(text)
}

// What a call answers of the block of documents at keys, or the copy of the whole block.
fn entries_said(alloc: Global, given: &str) -> Result<String, MetadataFault> {
    let (call, rest) = fields(given);
    let (documents, key) = fields(rest);
    let block = block_of(alloc, documents)?;
    match call {
        "copy of all" => Ok(said(alloc, block.try_clone(alloc), written)?),
        call => Ok(asked(alloc, call, block.metadata, key)?),
    }
}

// A call and the documents of a block at their keys, and a key; the answer, or the entries that there are then.
const ENTRIES: &str = r#"
# an entry is found at its key
get | a;b={"attributes":{"k":1},"zarr_format":2} | b => {"attributes":{"k":1},"zarr_format":2}
get | a;b={"attributes":{"k":1},"zarr_format":2} | a => {"zarr_format":2}
get | a;b={"attributes":{"k":1},"zarr_format":2} | c => none
get | | a => none
get | a |  a => none
# a key with a slash in front is covered by the one without it
is_covered | a;/a | /a => true
is_covered | a/b | /a/b => true
is_covered | a;/a | a => false
is_covered | a;/b | /b => false
is_covered | a | //a => false
is_covered | | /a => false
# entries are counted
count | a;b;a/b => 3, empty false
count | => 0, empty true
# a copy has every entry, and so has the map
copy | b={"node_type":"group","zarr_format":3};a;/c={"attributes":{"k":1},"zarr_format":2} => /c={"attributes":{"k":1},"zarr_format":2};a;b={"node_type":"group","zarr_format":3};
copy | =>
map | b={"node_type":"group","zarr_format":3};a;/c={"attributes":{"k":1},"zarr_format":2} => /c={"attributes":{"k":1},"zarr_format":2};a;b={"node_type":"group","zarr_format":3};
copy of all | b={"node_type":"group","zarr_format":3};a;/c={"attributes":{"k":1},"zarr_format":2} => {"kind":"inline","metadata":{"/c":{"attributes":{"k":1},"zarr_format":2},"a":{"zarr_format":2},"b":{"node_type":"group","zarr_format":3}},"must_understand":false}
# a key is taken out
remove | a;b={"attributes":{"k":1},"zarr_format":2};c={"node_type":"group","zarr_format":3} | b => {"attributes":{"k":1},"zarr_format":2} left a;c={"node_type":"group","zarr_format":3};
remove | a;b={"attributes":{"k":1},"zarr_format":2};c | a => {"zarr_format":2} left b={"attributes":{"k":1},"zarr_format":2};c;
remove | a;b;c | d => none left a;b;c;
remove | a;b;c | => none left a;b;c;
"#;

#[test]
fn entries_are_found_copied_and_taken_out(rt: HostRuntime) -> Result<(), Fail> {
    check_rows(rt.alloc(), ENTRIES, entries_said)
}

// The block of a row, and the key that a copy leaves out, or that is taken out, with what is below it: the entries that there are then.
const LEFT: &str = r#"
# a copy leaves out a key and what is below it
without | a={"attributes":{"k":2},"zarr_format":2};a/b;a/b/c;a-b={"attributes":{"k":1},"zarr_format":2};a0={"node_type":"group","zarr_format":3};/a;/a/b;//a;b/a;/a-b | a => //a;/a-b;a-b={"attributes":{"k":1},"zarr_format":2};a0={"node_type":"group","zarr_format":3};b/a;
without | a={"attributes":{"k":2},"zarr_format":2};a/b;a/b/c;a-b={"attributes":{"k":1},"zarr_format":2};a0={"node_type":"group","zarr_format":3};/a;/a/b;//a;b/a;/a-b | a/b => //a;/a;/a-b;a={"attributes":{"k":2},"zarr_format":2};a-b={"attributes":{"k":1},"zarr_format":2};a0={"node_type":"group","zarr_format":3};b/a;
without | a={"attributes":{"k":2},"zarr_format":2};a/b;a/b/c;a-b={"attributes":{"k":1},"zarr_format":2};a0={"node_type":"group","zarr_format":3};/a;/a/b;//a;b/a;/a-b | b => //a;/a;/a-b;/a/b;a={"attributes":{"k":2},"zarr_format":2};a-b={"attributes":{"k":1},"zarr_format":2};a/b;a/b/c;a0={"node_type":"group","zarr_format":3};
without | a={"attributes":{"k":2},"zarr_format":2};a/b;a/b/c;a-b={"attributes":{"k":1},"zarr_format":2};a0={"node_type":"group","zarr_format":3};/a;/a/b;//a;b/a;/a-b | c => //a;/a;/a-b;/a/b;a={"attributes":{"k":2},"zarr_format":2};a-b={"attributes":{"k":1},"zarr_format":2};a/b;a/b/c;a0={"node_type":"group","zarr_format":3};b/a;
# a key and what is below it are taken out
remove_below | a={"attributes":{"k":2},"zarr_format":2};a/b;a/b/c;a-b={"attributes":{"k":1},"zarr_format":2};a0={"node_type":"group","zarr_format":3};/a;/a/b;//a;b/a;/a-b | a => //a;/a-b;a-b={"attributes":{"k":1},"zarr_format":2};a0={"node_type":"group","zarr_format":3};b/a;
remove_below | a={"attributes":{"k":2},"zarr_format":2};a/b;a/b/c;a-b={"attributes":{"k":1},"zarr_format":2};a0={"node_type":"group","zarr_format":3};/a;/a/b;//a;b/a;/a-b | a/b => //a;/a;/a-b;a={"attributes":{"k":2},"zarr_format":2};a-b={"attributes":{"k":1},"zarr_format":2};a0={"node_type":"group","zarr_format":3};b/a;
remove_below | a={"attributes":{"k":2},"zarr_format":2};a/b;a/b/c;a-b={"attributes":{"k":1},"zarr_format":2};a0={"node_type":"group","zarr_format":3};/a;/a/b;//a;b/a;/a-b | b => //a;/a;/a-b;/a/b;a={"attributes":{"k":2},"zarr_format":2};a-b={"attributes":{"k":1},"zarr_format":2};a/b;a/b/c;a0={"node_type":"group","zarr_format":3};
remove_below | a={"attributes":{"k":2},"zarr_format":2};a/b;a/b/c;a-b={"attributes":{"k":1},"zarr_format":2};a0={"node_type":"group","zarr_format":3};/a;/a/b;//a;b/a;/a-b | c => //a;/a;/a-b;/a/b;a={"attributes":{"k":2},"zarr_format":2};a-b={"attributes":{"k":1},"zarr_format":2};a/b;a/b/c;a0={"node_type":"group","zarr_format":3};b/a;
"#;

#[test]
fn a_key_and_what_is_below_it_are_left_or_taken_out(rt: HostRuntime) -> Result<(), Fail> {
    check_rows(rt.alloc(), LEFT, entries_said)
}
