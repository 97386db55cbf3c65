//! The document that holds the block of a group, in any numbers: what it is, and what opens by it once it was written.

use crate::fixture_rows::store_in;
use crate::fixtures::consolidated;
use crate::groups::nested_group;
use log::sink::Discard;
use std::alloc::{AllocError, Global};
use std::test::Fail;
use tests_fixtures::{config_of, no_word, node_text};
use tests_support::{check_rows, fields, printed, said};
use zarrs_block::ConsolidatedMetadata;
use zarrs_config::{Config, UseConsolidatedMetadata};
use zarrs_group::{Group, GroupCreateError};
use zarrs_meaning::NodeCreateError;
use zarrs_node::Node;
use zarrs_store::{
    AnyNumbers, MemoryStore, Numbers, StorageError, StoreKey, WritableStorageTraits,
};

// The key of a document that was made, and its bytes; or that there is none.
fn made_text(alloc: Global, made: Option<(StoreKey, Vec<u8>)>) -> Result<String, AllocError> {
    let Some((key, bytes)) = made else {
        return String::from_str(alloc, "none");
    };
    let text = String::from_utf8_lossy(alloc, bytes.as_slice())?;
    format!(in alloc; "{key} {text}")
}

// The document that holds the block of a group.
fn document_of(group: &Group, alloc: Global) -> Result<String, AllocError> {
    made_text(alloc, group.block_document(alloc)?)
}

// The document of the group at `/g` of the store with the documents of a list, in any numbers.
fn document_in(alloc: Global, list: &str) -> Result<String, GroupCreateError> {
    let store = AnyNumbers {
        inner: store_in(alloc, list)?,
    };
    let group = Group::open(alloc, &store, "/g", &Config::new())?;
    Ok(document_of(&group, alloc)?)
}

// Documents, and the one that holds the block of the group, with its line ends as `\n`.
const DOCUMENTS: &str = r#"
# Of version 3 it is the whole document, with the block or without one.
g/zarr.json={"attributes":{"scale":0.5},"consolidated_metadata":{"kind":"inline","metadata":{"a":{"chunk_grid":{"configuration":{"chunk_shape":[10]},"name":"regular"},"chunk_key_encoding":"default","codecs":["bytes"],"data_type":"float64","fill_value":1.5,"node_type":"array","shape":[10],"zarr_format":3}},"must_understand":false},"node_type":"group","zarr_format":3} => g/zarr.json {\n  "attributes": {\n    "scale": 0.5\n  },\n  "consolidated_metadata": {\n    "kind": "inline",\n    "metadata": {\n      "a": {\n        "chunk_grid": {\n          "configuration": {\n            "chunk_shape": [\n              10\n            ]\n          },\n          "name": "regular"\n        },\n        "chunk_key_encoding": "default",\n        "codecs": [\n          "bytes"\n        ],\n        "data_type": "float64",\n        "fill_value": 1.5,\n        "node_type": "array",\n        "shape": [\n          10\n        ],\n        "zarr_format": 3\n      }\n    },\n    "must_understand": false\n  },\n  "node_type": "group",\n  "zarr_format": 3\n}
g/zarr.json={"attributes":{"scale":0.5},"other":{"must_understand":false},"node_type":"group","zarr_format":3} => g/zarr.json {\n  "attributes": {\n    "scale": 0.5\n  },\n  "node_type": "group",\n  "other": {\n    "must_understand": false\n  },\n  "zarr_format": 3\n}

# Of version 2 it is `.zmetadata`, where there is a block.
g/.zgroup=G2 g/.zattrs={"k":0.25} g/.zmetadata={"metadata":{"a/.zgroup":{"zarr_format":2},"a/.zattrs":{"k":1.5}},"zarr_consolidated_format":1} => g/.zmetadata {\n  "metadata": {\n    ".zattrs": {\n      "k": 0.25\n    },\n    ".zgroup": {\n      "zarr_format": 2\n    },\n    "a/.zattrs": {\n      "k": 1.5\n    },\n    "a/.zgroup": {\n      "zarr_format": 2\n    }\n  },\n  "zarr_consolidated_format": 1\n}
g/.zgroup=G2 g/.zattrs={"k":0.25} => none

# Of version 2 it is ASCII to its last letter, and of version 3 it has the letters as they are.
g/.zgroup=G2 g/.zattrs={"é":"𝄞"} g/.zmetadata={"metadata":{},"zarr_consolidated_format":1} => g/.zmetadata {\n  "metadata": {\n    ".zattrs": {\n      "\\u00e9": "\\ud834\\udd1e"\n    },\n    ".zgroup": {\n      "zarr_format": 2\n    }\n  },\n  "zarr_consolidated_format": 1\n}
g/zarr.json={"attributes":{"é":"𝄞"},"node_type":"group","zarr_format":3} => g/zarr.json {\n  "attributes": {\n    "é": "𝄞"\n  },\n  "node_type": "group",\n  "zarr_format": 3\n}
"#;

#[test]
fn a_group_has_the_document_of_its_block(rt: HostRuntime) -> Result<(), Fail> {
    check_rows(rt.alloc(), DOCUMENTS, document_in)
}

// The document of a group that is given away for it, with a block or without one.
fn document_with(
    alloc: Global,
    group: Group,
    block: Option<ConsolidatedMetadata>,
) -> Result<String, GroupCreateError> {
    match group.into_block_document(alloc, block) {
        Ok(made) => Ok(made_text(alloc, made)?),
        Err(error) => Err(GroupCreateError::from_node_error(alloc, error)),
    }
}

// The document of the group at `/g` of a store in any numbers, with the block of all that is listed there and without one.
fn documents_given(alloc: Global, list: &str) -> Result<String, GroupCreateError> {
    let store = AnyNumbers {
        inner: store_in(alloc, list)?,
    };
    let block = consolidated(alloc, &store, "/g")?.consolidated_metadata_in(alloc, Numbers::Any)?;
    let group = Group::open(alloc, &store, "/g", &Config::new())?;
    let with = document_with(alloc, group, block)?;
    let group = Group::open(alloc, &store, "/g", &Config::new())?;
    let without = document_with(alloc, group, None)?;
    Ok(format!(in alloc; "{with} and {without}")?)
}

// Documents, and the one that is to hold the block of the group, with the listed block and without one.
const GIVEN: &str = r#"
# Of version 3 it is the whole document.
g/zarr.json={"attributes":{"scale":0.5},"consolidated_metadata":{"kind":"inline","metadata":{"old":{"node_type":"group","zarr_format":3}},"must_understand":false},"node_type":"group","zarr_format":3} g/a/zarr.json={"attributes":{"n":1.5},"node_type":"group","zarr_format":3} => g/zarr.json {\n  "attributes": {\n    "scale": 0.5\n  },\n  "consolidated_metadata": {\n    "kind": "inline",\n    "metadata": {\n      "a": {\n        "attributes": {\n          "n": 1.5\n        },\n        "node_type": "group",\n        "zarr_format": 3\n      }\n    },\n    "must_understand": false\n  },\n  "node_type": "group",\n  "zarr_format": 3\n} and g/zarr.json {\n  "attributes": {\n    "scale": 0.5\n  },\n  "node_type": "group",\n  "zarr_format": 3\n}
# Fields beside it stay, whether a block stood there or none.
g/zarr.json={"before":{"must_understand":false},"consolidated_metadata":{"kind":"inline","metadata":{"old":{"node_type":"group","zarr_format":3}},"must_understand":false},"other":{"list":[1.5],"must_understand":false},"node_type":"group","zarr_format":3} g/a/zarr.json=G3 => g/zarr.json {\n  "before": {\n    "must_understand": false\n  },\n  "consolidated_metadata": {\n    "kind": "inline",\n    "metadata": {\n      "a": {\n        "node_type": "group",\n        "zarr_format": 3\n      }\n    },\n    "must_understand": false\n  },\n  "node_type": "group",\n  "other": {\n    "list": [\n      1.5\n    ],\n    "must_understand": false\n  },\n  "zarr_format": 3\n} and g/zarr.json {\n  "before": {\n    "must_understand": false\n  },\n  "node_type": "group",\n  "other": {\n    "list": [\n      1.5\n    ],\n    "must_understand": false\n  },\n  "zarr_format": 3\n}
g/zarr.json={"before":{"must_understand":false},"other":{"list":[1.5],"must_understand":false},"node_type":"group","zarr_format":3} g/a/zarr.json=G3 => g/zarr.json {\n  "before": {\n    "must_understand": false\n  },\n  "consolidated_metadata": {\n    "kind": "inline",\n    "metadata": {\n      "a": {\n        "node_type": "group",\n        "zarr_format": 3\n      }\n    },\n    "must_understand": false\n  },\n  "node_type": "group",\n  "other": {\n    "list": [\n      1.5\n    ],\n    "must_understand": false\n  },\n  "zarr_format": 3\n} and g/zarr.json {\n  "before": {\n    "must_understand": false\n  },\n  "node_type": "group",\n  "other": {\n    "list": [\n      1.5\n    ],\n    "must_understand": false\n  },\n  "zarr_format": 3\n}

# Of version 3 the extensions of an array but its data type are objects in the block, also where a name says it all; nothing of a group is.
g/zarr.json=G3 g/a/zarr.json={"node_type":"array","zarr_format":3,"shape":[4],"data_type":{"name":"uint8"},"chunk_grid":{"name":"regular","configuration":{"chunk_shape":[2]}},"chunk_key_encoding":"default","fill_value":0,"codecs":["bytes",{"name":"zstd","configuration":{"level":0}},{"name":"other","must_understand":false}],"storage_transformers":[{"name":"t"}]} g/b/zarr.json={"node_type":"array","zarr_format":3,"shape":[],"data_type":{"name":"r","configuration":{"n":1}},"chunk_grid":"irregular","chunk_key_encoding":{"name":"v2","configuration":{"separator":"."}},"fill_value":"a","codecs":[]} g/c/zarr.json={"node_type":"group","zarr_format":3,"codecs":{"must_understand":false,"name":"bytes"}} => g/zarr.json {\n  "consolidated_metadata": {\n    "kind": "inline",\n    "metadata": {\n      "a": {\n        "chunk_grid": {\n          "configuration": {\n            "chunk_shape": [\n              2\n            ]\n          },\n          "name": "regular"\n        },\n        "chunk_key_encoding": {\n          "name": "default"\n        },\n        "codecs": [\n          {\n            "name": "bytes"\n          },\n          {\n            "configuration": {\n              "level": 0\n            },\n            "name": "zstd"\n          },\n          {\n            "must_understand": false,\n            "name": "other"\n          }\n        ],\n        "data_type": "uint8",\n        "fill_value": 0,\n        "node_type": "array",\n        "shape": [\n          4\n        ],\n        "storage_transformers": [\n          {\n            "name": "t"\n          }\n        ],\n        "zarr_format": 3\n      },\n      "b": {\n        "chunk_grid": {\n          "name": "irregular"\n        },\n        "chunk_key_encoding": {\n          "configuration": {\n            "separator": "."\n          },\n          "name": "v2"\n        },\n        "codecs": [],\n        "data_type": {\n          "configuration": {\n            "n": 1\n          },\n          "name": "r"\n        },\n        "fill_value": "a",\n        "node_type": "array",\n        "shape": [],\n        "zarr_format": 3\n      },\n      "c": {\n        "codecs": {\n          "must_understand": false,\n          "name": "bytes"\n        },\n        "node_type": "group",\n        "zarr_format": 3\n      }\n    },\n    "must_understand": false\n  },\n  "node_type": "group",\n  "zarr_format": 3\n} and g/zarr.json {\n  "node_type": "group",\n  "zarr_format": 3\n}

# Of version 2 it is `.zmetadata`.
g/.zgroup=G2 g/.zattrs={"k":0.25} g/.zmetadata={"metadata":{"old/.zgroup":{"zarr_format":2}},"zarr_consolidated_format":1} g/a/.zgroup=G2 => g/.zmetadata {\n  "metadata": {\n    ".zattrs": {\n      "k": 0.25\n    },\n    ".zgroup": {\n      "zarr_format": 2\n    },\n    "a/.zgroup": {\n      "zarr_format": 2\n    }\n  },\n  "zarr_consolidated_format": 1\n} and none
"#;

#[test]
fn a_group_is_given_away_for_the_document_of_a_block(rt: HostRuntime) -> Result<(), Fail> {
    check_rows(rt.alloc(), GIVEN, documents_given)
}

// Whether the group with so many lists in each other has such a document.
fn has_document(alloc: Global, levels: &str) -> Result<String, GroupCreateError> {
    let group = nested_group(alloc, levels)?;
    Ok(printed(&group.block_document(alloc)?.is_some(), alloc)?)
}

// The lists in each other, which stand two levels deep in the document; whether there is one.
const DEPTHS: &str = r#"
125 => true
126 => false
"#;

#[test]
fn what_nests_too_deep_has_no_document(rt: HostRuntime) -> Result<(), Fail> {
    check_rows(rt.alloc(), DEPTHS, has_document)
}

// The document that is to hold the block that a group has: `lent` asks the group for it, and `given` gives the group away for it.
fn made_by(
    alloc: Global,
    group: Group,
    call: &str,
) -> Result<Option<(StoreKey, Vec<u8>)>, NodeCreateError> {
    match call {
        "lent" => Ok(group.block_document(alloc)?),
        "given" => {
            let block = group.consolidated_metadata_in(alloc, Numbers::Any)?;
            group.into_block_document(alloc, block)
        }
        word => Err(NodeCreateError::from(no_word(alloc, word))),
    }
}

// Sets a document in a store.
fn set_made<S: WritableStorageTraits>(
    alloc: Global,
    store: &mut S,
    made: Option<(StoreKey, Vec<u8>)>,
) -> Result<(), StorageError> {
    match made {
        Some((key, bytes)) => store.set(&key, bytes.as_slice()),
        None => Err(StorageError::Other(String::from_str(alloc, "no document")?)),
    }
}

// The node at `/g` of a store with all below it, by a policy.
fn opened(
    alloc: Global,
    store: &AnyNumbers<MemoryStore>,
    policy: UseConsolidatedMetadata,
) -> Result<String, AllocError> {
    let node = Node::open(&Discard, alloc, store, "/g", &config_of(policy));
    said(alloc, node, node_text)
}

// The nodes at `/g` of a store, by the block and by a listing, once the document with the block of all that is listed there was set.
// `CALL | LIST`.
fn written(alloc: Global, given: &str) -> Result<String, GroupCreateError> {
    let (call, list) = fields(given);
    let mut store = AnyNumbers {
        inner: store_in(alloc, list)?,
    };
    let group = consolidated(alloc, &store, "/g")?;
    match made_by(alloc, group, call) {
        Ok(made) => set_made(alloc, &mut store, made)?,
        Err(error) => return Err(GroupCreateError::from_node_error(alloc, error)),
    }
    let must = opened(alloc, &store, UseConsolidatedMetadata::Must)?;
    let never = opened(alloc, &store, UseConsolidatedMetadata::Never)?;
    Ok(format!(in alloc; "must:\n{must}never:\n{never}")?)
}

// How the document is made, documents in any numbers, and the nodes that open under Must and under Never.
const WRITTEN: &str = r#"
# Of version 3 the block stands in the document of the group.
lent | g/zarr.json={"attributes":{"scale":0.5},"node_type":"group","zarr_format":3} g/a/zarr.json={"attributes":{"n":1.5},"node_type":"group","zarr_format":3} g/a/b/zarr.json=A3 => must:\n/g {"attributes":{"scale":0.5},"consolidated_metadata":{"kind":"inline","metadata":{"a":{"attributes":{"n":1.5},"node_type":"group","zarr_format":3},"a/b":A3},"must_understand":false},"node_type":"group","zarr_format":3}\n  /g/a {"attributes":{"n":1.5},"node_type":"group","zarr_format":3}\n    /g/a/b A3\nnever:\n/g {"attributes":{"scale":0.5},"consolidated_metadata":{"kind":"inline","metadata":{"a":{"attributes":{"n":1.5},"node_type":"group","zarr_format":3},"a/b":A3},"must_understand":false},"node_type":"group","zarr_format":3}\n  /g/a {"attributes":{"n":1.5},"node_type":"group","zarr_format":3}\n    /g/a/b A3\n
lent | g/zarr.json=G3 => must:\n/g {"consolidated_metadata":{"kind":"inline","metadata":{},"must_understand":false},"node_type":"group","zarr_format":3}\nnever:\n/g {"consolidated_metadata":{"kind":"inline","metadata":{},"must_understand":false},"node_type":"group","zarr_format":3}\n

# Of version 2 it stands beside its documents.
lent | g/.zgroup=G2 g/.zattrs={"k":0.25} g/a/.zgroup=G2 g/a/.zattrs={"k":1.5} g/a/b/.zarray=A2 => must:\n/g {"attributes":{"k":0.25},"zarr_format":2}\n  /g/a {"attributes":{"k":1.5},"zarr_format":2}\n    /g/a/b A2\nnever:\n/g {"attributes":{"k":0.25},"zarr_format":2}\n  /g/a {"attributes":{"k":1.5},"zarr_format":2}\n    /g/a/b A2\n

# A block that a group is given away for opens so too, where a codec that stood as its name alone is an object in it.
given | g/zarr.json={"attributes":{"scale":0.5},"node_type":"group","zarr_format":3} g/a/zarr.json={"chunk_grid":{"configuration":{"chunk_shape":[10]},"name":"regular"},"chunk_key_encoding":"default","codecs":["bytes"],"data_type":"float64","fill_value":1.5,"node_type":"array","shape":[10],"zarr_format":3} => must:\n/g {"attributes":{"scale":0.5},"consolidated_metadata":{"kind":"inline","metadata":{"a":{"chunk_grid":{"configuration":{"chunk_shape":[10]},"name":"regular"},"chunk_key_encoding":{"name":"default"},"codecs":[{"name":"bytes"}],"data_type":"float64","fill_value":1.5,"node_type":"array","shape":[10],"zarr_format":3}},"must_understand":false},"node_type":"group","zarr_format":3}\n  /g/a {"chunk_grid":{"configuration":{"chunk_shape":[10]},"name":"regular"},"chunk_key_encoding":"default","codecs":["bytes"],"data_type":"float64","fill_value":1.5,"node_type":"array","shape":[10],"zarr_format":3}\nnever:\n/g {"attributes":{"scale":0.5},"consolidated_metadata":{"kind":"inline","metadata":{"a":{"chunk_grid":{"configuration":{"chunk_shape":[10]},"name":"regular"},"chunk_key_encoding":{"name":"default"},"codecs":[{"name":"bytes"}],"data_type":"float64","fill_value":1.5,"node_type":"array","shape":[10],"zarr_format":3}},"must_understand":false},"node_type":"group","zarr_format":3}\n  /g/a {"chunk_grid":{"configuration":{"chunk_shape":[10]},"name":"regular"},"chunk_key_encoding":"default","codecs":["bytes"],"data_type":"float64","fill_value":1.5,"node_type":"array","shape":[10],"zarr_format":3}\n
given | g/.zgroup=G2 g/.zattrs={"k":0.25} g/a/.zgroup=G2 g/a/.zattrs={"k":1.5} => must:\n/g {"attributes":{"k":0.25},"zarr_format":2}\n  /g/a {"attributes":{"k":1.5},"zarr_format":2}\nnever:\n/g {"attributes":{"k":0.25},"zarr_format":2}\n  /g/a {"attributes":{"k":1.5},"zarr_format":2}\n
"#;

#[test]
fn a_written_block_opens_as_the_listing_does(rt: HostRuntime) -> Result<(), Fail> {
    check_rows(rt.alloc(), WRITTEN, written)
}
