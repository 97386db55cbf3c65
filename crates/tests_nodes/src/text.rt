//! The printed tree of what was listed.

use crate::given::store_in;
use std::alloc::{AllocError, Global};
use std::test::Fail;
use tests_fixtures::{ANY, listed_in};
use tests_support::{check_rows, said};
use zarrs_meaning::NodeCreateError;
use zarrs_meta::{GroupMetadata, GroupMetadataV3, NodeMetadata};
use zarrs_node::{ListedNodes, Node};
use zarrs_path::NodePath;

// All that is listed of a store.
fn all_of(alloc: Global, documents: &str) -> Result<ListedNodes, NodeCreateError> {
    let store = store_in(alloc, documents)?;
    listed_in(alloc, &store, "/", true, ANY)
}

// The group of version 3 at the root, over what is listed below it in a store.
fn root_over(alloc: Global, documents: &str) -> Result<Node, NodeCreateError> {
    let path = NodePath::root(alloc)?;
    let ListedNodes {
        nodes,
        ignored: _ignored,
    } = all_of(alloc, documents)?;
    let metadata = NodeMetadata::Group(GroupMetadata::V3(GroupMetadataV3::new(alloc)));
    Ok(Node::new_with_metadata(path, metadata, nodes))
}

fn tree_said(alloc: Global, given: &str) -> Result<String, AllocError> {
    said(alloc, root_over(alloc, given), Node::hierarchy_tree)
}

// A store, and the printed tree of its root.
const TREES: &str = r#"
# siblings are printed in the order of names
zarr.json G3;a/zarr.json G3;a/x/zarr.json G3;a-b/zarr.json G3 => /\n  a\n    x\n  a-b\n

# arrays are printed with shape and type
three levels => /\n  array [10, 10] float32\n  group\n    array [10, 10] float32\n    subgroup\n      mysubarray [10, 10] float32\n

# a type of version 2 is printed as its text stands
groupv2/.zgroup G2;groupv2/arrayv2/.zarray A2 => /\n  groupv2\n    arrayv2 [1] Simple("<f8")\n

# a configuration is printed as two periods
z/zarr.json {"chunk_grid":"regular","chunk_key_encoding":"default","codecs":[],"data_type":{"configuration":{"n":1},"name":"t"},"fill_value":0,"node_type":"array","shape":[],"zarr_format":3};w/.zarray {"chunks":[],"compressor":null,"dtype":[["f","<f8"]],"fill_value":0,"filters":null,"order":"C","shape":[],"zarr_format":2} => /\n  w [] Structured(..)\n  z [] t(..)\n
"#;

#[test]
fn trees_are_printed(rt: HostRuntime) -> Result<(), Fail> {
    check_rows(rt.alloc(), TREES, tree_said)
}
