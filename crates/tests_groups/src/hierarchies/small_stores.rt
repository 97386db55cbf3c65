//! Version 2 groups opened as nodes by the document `.zmetadata` beside them. As hierarchies they stand in `hierarchies`.

use crate::fixture_rows::store_in;
use log::sink::Discard;
use std::alloc::Global;
use std::test::Fail;
use tests_fixtures::{config_of, no_word, node_text, policy_of};
use tests_support::{check_rows, fields, said};
use zarrs_node::Node;
use zarrs_store::StorageError;

// The node at `/g` of a store, by a policy: the text of it and of what is below it, or the nodes. `LOOK | POLICY | LIST`.
fn opened(alloc: Global, given: &str) -> Result<String, StorageError> {
    let (word, rest) = fields(given);
    let (policy, list) = fields(rest);
    let store = store_in(alloc, list)?;
    let config = config_of(policy_of(alloc, policy)?);
    let node = Node::open(&Discard, alloc, &store, "/g", &config);
    match word {
        "tree" => Ok(said(alloc, node, Node::hierarchy_tree)?),
        "nodes" => Ok(said(alloc, node, node_text)?),
        word => Err(no_word(alloc, word)),
    }
}

// A version 2 group with a `.zmetadata`, below which the store has one array, `b`; and a version 3 group.
const OPENED: &str = r#"
# a block beside the group is used
tree | auto | g/.zgroup=G2 g/.zmetadata={"metadata":{".zgroup":{"zarr_format":2},"a/.zarray":{"chunks":[1],"compressor":null,"dimension_separator":".","dtype":"<f8","fill_value":"NaN","filters":null,"order":"C","shape":[1],"zarr_format":2}},"zarr_consolidated_format":1} g/b/.zarray=A2 => /\n  a [1] Simple("<f8")\n
tree | must | g/.zgroup=G2 g/.zmetadata={"metadata":{".zgroup":{"zarr_format":2},"a/.zarray":{"chunks":[1],"compressor":null,"dimension_separator":".","dtype":"<f8","fill_value":"NaN","filters":null,"order":"C","shape":[1],"zarr_format":2}},"zarr_consolidated_format":1} g/b/.zarray=A2 => /\n  a [1] Simple("<f8")\n
# under never the store is listed
tree | never | g/.zgroup=G2 g/.zmetadata={"metadata":{".zgroup":{"zarr_format":2},"a/.zarray":{"chunks":[1],"compressor":null,"dimension_separator":".","dtype":"<f8","fill_value":"NaN","filters":null,"order":"C","shape":[1],"zarr_format":2}},"zarr_consolidated_format":1} g/b/.zarray=A2 => /\n  b [1] Simple("<f8")\n
# a document that is refused is no block: by default the store is listed, and where a block is asked for its want is refused
tree | auto | g/.zgroup=G2 g/.zmetadata={"zarr_consolidated_format":2,"metadata":{}} g/b/.zarray=A2 => /\n  b [1] Simple("<f8")\n
tree | must | g/.zgroup=G2 g/.zmetadata={"zarr_consolidated_format":2,"metadata":{}} g/b/.zarray=A2 => MissingMetadata: Metadata is missing for Consolidated metadata required but missing on group /g
tree | auto | g/.zgroup=G2 g/.zmetadata={ g/b/.zarray=A2 => /\n  b [1] Simple("<f8")\n
tree | must | g/.zgroup=G2 g/.zmetadata={ g/b/.zarray=A2 => MissingMetadata: Metadata is missing for Consolidated metadata required but missing on group /g
# a bad member refuses the whole block
tree | auto | g/.zgroup=G2 g/.zmetadata={"metadata":{"../.zgroup":{"zarr_format":2}},"zarr_consolidated_format":1} g/b/.zarray=A2 => /\n  b [1] Simple("<f8")\n
tree | must | g/.zgroup=G2 g/.zmetadata={"metadata":{"../.zgroup":{"zarr_format":2}},"zarr_consolidated_format":1} g/b/.zarray=A2 => MissingMetadata: Metadata is missing for Consolidated metadata required but missing on group /g
tree | auto | g/.zgroup=G2 g/.zmetadata={"metadata":{"a/.zarray":{}},"zarr_consolidated_format":1} g/b/.zarray=A2 => /\n  b [1] Simple("<f8")\n
tree | must | g/.zgroup=G2 g/.zmetadata={"metadata":{"a/.zarray":{}},"zarr_consolidated_format":1} g/b/.zarray=A2 => MissingMetadata: Metadata is missing for Consolidated metadata required but missing on group /g
# a node below no group is no child
tree | must | g/.zgroup=G2 g/.zmetadata={"metadata":{"x/y/.zgroup":{"zarr_format":2}},"zarr_consolidated_format":1} g/b/.zarray=A2 => /\n
# attributes and chunks alone are no nodes
tree | must | g/.zgroup=G2 g/.zmetadata={"metadata":{"a/.zattrs":{}},"zarr_consolidated_format":1} g/b/.zarray=A2 => /\n
tree | must | g/.zgroup=G2 g/.zmetadata={"metadata":{"a/0.0":{}},"zarr_consolidated_format":1} g/b/.zarray=A2 => /\n
# a group has its attributes
nodes | must | g/.zgroup=G2 g/.zmetadata={"metadata":{"a/.zgroup":{"zarr_format":2},"a/.zattrs":{"k":1}},"zarr_consolidated_format":1} g/b/.zarray=A2 => /g G2\n  /g/a {"attributes":{"k":1},"zarr_format":2}\n
# an array counts before a group and has its attributes
nodes | must | g/.zgroup=G2 g/.zmetadata={"metadata":{"a/.zgroup":{"zarr_format":2},"a/.zattrs":{"k":1},"a/.zarray":{"chunks":[1],"compressor":null,"dtype":"<f8","fill_value":"NaN","filters":null,"order":"C","shape":[1],"zarr_format":2}},"zarr_consolidated_format":1} g/b/.zarray=A2 => /g G2\n  /g/a {"attributes":{"k":1},"chunks":[1],"compressor":null,"dimension_separator":".","dtype":"<f8","fill_value":"NaN","filters":null,"order":"C","shape":[1],"zarr_format":2}\n
# a version 3 group is not asked for it
tree | auto | g/zarr.json=G3 g/.zmetadata={"metadata":{"a/.zgroup":{"zarr_format":2}},"zarr_consolidated_format":1} => /\n
"#;

#[test]
fn a_group_is_opened_by_the_block_beside_it(rt: HostRuntime) -> Result<(), Fail> {
    check_rows(rt.alloc(), OPENED, opened)
}

#[test]
fn the_laws_are_called(_rt: HostRuntime) {
    zarrs_block::laws::written_holds_documents();
    zarrs_node::laws::zmetadata_shows();
}
