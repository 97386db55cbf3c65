//! Stores that fail, which shows what is asked of a store, and memory that is refused.
//!
//! Each allocation of the test `memory_fails_in_notes` is refused in turn by `bench/break/failures`; it ends then as usual, or in out of memory.

use crate::failing::{NO_MEMORY, is_same};
use crate::given::store_in;
use crate::notes::told::told_text;
use std::alloc::{AllocError, Global};
use std::test::Fail;
use tests_fixtures::{ANY, key_of};
use tests_support::{check_rows, fields, said};
use zarrs_meaning::NodeCreateError;
use zarrs_node::Node;
use zarrs_notes::node_findings;
use zarrs_path::NodePath;
use zarrs_store::{FaultAt, FaultStore};

// The names of the documents of a path, and of the files that are written in the place of one.
const NAMES: [&str; 7] = [
    "zarr.json",
    ".zarray",
    ".zgroup",
    ".zattrs",
    ".zmetadata",
    "zarr.json.zarrs_new",
    ".zmetadata.zarrs_new",
];

// The place where a store is asked for a document of a path.
fn fault_at(alloc: Global, path: &NodePath, name: &str) -> Result<FaultAt, NodeCreateError> {
    let prefix = path.to_prefix(alloc)?;
    let key = format!(in alloc; "{prefix}{name}")?;
    Ok(FaultAt::OnGet(key_of(alloc, key.as_str())?))
}

// What is told over a store of the node that stands at a path of the store within it.
fn told_over(alloc: Global, store: &FaultStore, path: &NodePath) -> Result<String, AllocError> {
    let metadata = Node::get_metadata(alloc, store.inner(), path, &ANY);
    said(alloc, metadata, |metadata, alloc| {
        let found = node_findings(alloc, store, path, metadata);
        said(alloc, found, told_text)
    })
}

// What is told of the node at a path over a store that fails where this document of the path is read.
fn told_past(
    alloc: Global,
    path: &str,
    documents: &str,
    name: &str,
) -> Result<String, NodeCreateError> {
    let path = NodePath::new(alloc, path)?;
    let fault = fault_at(alloc, &path, name)?;
    let store = FaultStore::new(store_in(alloc, documents)?, fault);
    Ok(told_over(alloc, &store, &path)?)
}

// The documents of a path of which telling is refused, where reading one is a fault of the store.
fn asked(alloc: Global, given: &str) -> Result<String, NodeCreateError> {
    let (path, documents) = fields(given);
    let mut text = String::new(alloc);
    for name in NAMES {
        let found = told_past(alloc, path, documents, name)?;
        if found.as_str() == "Fault: store fault" {
            write!(text, "{name}.")?;
        }
    }
    Ok(text)
}

// A path and a store; the documents of the path that are asked for, each with a period behind it.
const ASKED: &str = r#"
/ | zarr.json G3 => .zarray..zgroup..zattrs..zmetadata.zarr.json.zarrs_new.
/a | zarr.json G3;a/zarr.json A3 => .zarray..zgroup..zattrs..zmetadata.
/ | .zarray A2 => .zgroup..zmetadata.
/a/b | a/b/.zarray A2;a/b/.zattrs {} => .zgroup..zmetadata.
/ | .zgroup G2;.zmetadata {} => .zmetadata.zarrs_new.
/a | zarr.json G3;a/.zgroup G2 => .zmetadata.zarrs_new.
"#;

#[test]
fn no_more_is_asked_than_what_can_be_told(rt: HostRuntime) -> Result<(), Fail> {
    check_rows(rt.alloc(), ASKED, asked)
}

// ---- each allocation refused in turn

// A group, of which a field, its block, a document beside and what a run of writing left are told.
const GROUP: &str =
    r#"a/zarr.json {"consolidated_metadata":1,"node_type":"group","x":1,"zarr_format":3};a/.zgroup G2;a/zarr.json.zarrs_new {}"#;

// What is told of it.
const TOLD_OF_GROUP: &str =
    "not opened: the block of /a has no must_understand false\nnot opened: the field x must be understood\nnote: beside: .zgroup is not read, since zarr.json stands there too\nnote: left over: zarr.json.zarrs_new is of a run that was broken off, or that still writes\n";

// An array, of which all is told that can be told of its values.
const ARRAY: &str =
    r#"a/zarr.json {"chunk_grid":"regular","chunk_key_encoding":"default","codecs":[],"data_type":"int8","fill_value":null,"node_type":"array","shape":[],"zarr_format":3}"#;

// What is told of it.
const TOLD_OF_ARRAY: &str =
    "bad shape: a regular chunk grid has no list of lengths\nbad fill value: it is no value of int8\nbad codecs: there is none, and one has to make bytes of a chunk\n";

// Whether this is told of the node at `/a` of a store, or there is no memory for it.
fn is_told(alloc: Global, documents: &str, wanted: &str) -> Result<(), Fail> {
    let found = match told_past(alloc, "/a", documents, ".none") {
        Ok(found) => found,
        Err(error) => return Err(Fail::new(format_args!("{error}"))),
    };
    if NO_MEMORY.contains(&found.as_str()) {
        return Err(Fail::from(AllocError));
    }
    is_same(found.as_str(), wanted)
}

#[test]
fn memory_fails_in_notes(rt: HostRuntime) -> Result<(), Fail> {
    is_told(rt.alloc(), GROUP, TOLD_OF_GROUP)?;
    is_told(rt.alloc(), ARRAY, TOLD_OF_ARRAY)
}
