//! Hierarchies and nodes of a store whose documents may hold any number, by a listing and by a block with fractions.

use crate::fixture_rows::store_in;
use crate::fixtures::of_group;
use crate::hierarchies::opening::seen;
use log::sink::Discard;
use std::alloc::{AllocError, Global};
use std::test::Fail;
use tests_fixtures::{config_of, no_word, node_text, policy_of};
use tests_support::{check_rows, fields, printed, said};
use zarrs_config::{Config, MetadataRetrieveVersion};
use zarrs_group::{Group, GroupCreateError};
use zarrs_hierarchy::{Hierarchy, tree_at};
use zarrs_meaning::NodeCreateError;
use zarrs_node::Node;
use zarrs_path::NodePath;
use zarrs_store::{AnyNumbers, ListableStorageTraits, ReadableStorageTraits, StorageError};

// The tree of what is opened at `/g`.
fn opened_tree<S: ReadableStorageTraits + ListableStorageTraits>(
    alloc: Global,
    store: &S,
    config: &Config,
) -> Result<String, NodeCreateError> {
    let path = NodePath::new(alloc, "/g")?;
    let version = MetadataRetrieveVersion::Default;
    tree_at(&Discard, alloc, store, &path, &version, config)
}

// The hierarchy of the group at `/g` and of the nodes that are listed below it.
fn hierarchy_of_group<S: ReadableStorageTraits + ListableStorageTraits>(
    alloc: Global,
    store: &S,
    config: &Config,
) -> Result<Hierarchy, GroupCreateError> {
    let group = Group::open(alloc, store, "/g", config)?;
    of_group(
        alloc,
        Hierarchy::try_from_group(&Discard, alloc, &group, store),
    )
}

// What is seen at `/g` of a store: the tree alone, the nodes of the group's hierarchy, the node, or by any other word the hierarchy.
fn looked_at<S: ReadableStorageTraits + ListableStorageTraits>(
    alloc: Global,
    look: &str,
    store: &S,
    config: &Config,
) -> Result<String, AllocError> {
    match look {
        "tree at" => said(alloc, opened_tree(alloc, store, config), printed),
        "of group" => seen(alloc, hierarchy_of_group(alloc, store, config), "nodes"),
        "node" => said(
            alloc,
            Node::open(&Discard, alloc, store, "/g", config),
            node_text,
        ),
        word => seen(
            alloc,
            Hierarchy::open(&Discard, alloc, store, "/g", config),
            word,
        ),
    }
}

// What is seen over the store with the documents of a list, as it is or in any numbers, by a policy. `LOOK | NUMBERS | POLICY | LIST`.
fn looked(alloc: Global, given: &str) -> Result<String, StorageError> {
    let (look, rest) = fields(given);
    let (numbers, rest) = fields(rest);
    let (policy, list) = fields(rest);
    let store = store_in(alloc, list)?;
    let config = config_of(policy_of(alloc, policy)?);
    match numbers {
        "whole" => Ok(looked_at(alloc, look, &store, &config)?),
        "any" => Ok(looked_at(alloc, look, &AnyNumbers { inner: store }, &config)?),
        word => Err(no_word(alloc, word)),
    }
}

const LOOKED: &str = r#"
# What is listed is refused by name as the store is, and shown with its fractions in any numbers.
nodes | whole | never | g/zarr.json=G3 g/a/.zarray={"chunks":[1],"compressor":null,"dtype":"<f8","fill_value":-1.5,"filters":null,"order":"C","shape":[1],"zarr_format":2} => StorageError(InvalidMetadata): error parsing metadata for g/a/.zarray: unsupported number
nodes | any | never | g/zarr.json=G3 g/a/.zarray={"chunks":[1],"compressor":null,"dtype":"<f8","fill_value":-1.5,"filters":null,"order":"C","shape":[1],"zarr_format":2} => /g G3\n/g/a {"chunks":[1],"compressor":null,"dimension_separator":".","dtype":"<f8","fill_value":-1.5,"filters":null,"order":"C","shape":[1],"zarr_format":2}\n
of group | any | never | g/zarr.json={"attributes":{"n":0.25},"node_type":"group","zarr_format":3} g/a/zarr.json=G3 => /g {"attributes":{"n":0.25},"node_type":"group","zarr_format":3}\n/g/a G3\n
tree | any | never | g/zarr.json={"attributes":{"n":0.25},"node_type":"group","zarr_format":3} g/a/zarr.json=A3 => /\n  g\n    a [1] float32\n
tree at | any | never | g/zarr.json={"attributes":{"n":0.25},"node_type":"group","zarr_format":3} g/a/zarr.json=A3 => /g\n  a [1] float32\n
tree at | whole | never | g/zarr.json={"attributes":{"n":0.25},"node_type":"group","zarr_format":3} g/a/zarr.json=A3 => StorageError(InvalidMetadata): error parsing metadata for g/zarr.json: unsupported number

# The block of a version 3 group is used in the numbers of the store.
nodes | whole | must | g/zarr.json={"consolidated_metadata":{"kind":"inline","metadata":{"a":{"attributes":{"n":1.5},"node_type":"group","zarr_format":3}},"must_understand":false},"node_type":"group","zarr_format":3} => StorageError(InvalidMetadata): error parsing metadata for g/zarr.json: unsupported number
below /g | any | must | g/zarr.json={"consolidated_metadata":{"kind":"inline","metadata":{"a":{"attributes":{"n":1.5},"node_type":"group","zarr_format":3}},"must_understand":false},"node_type":"group","zarr_format":3} => /g/a {"attributes":{"n":1.5},"node_type":"group","zarr_format":3}\n
tree at | any | must | g/zarr.json={"consolidated_metadata":{"kind":"inline","metadata":{"a":{"attributes":{"n":1.5},"node_type":"group","zarr_format":3}},"must_understand":false},"node_type":"group","zarr_format":3} => /g\n  a\n

# So is the one beside a version 2 group.
nodes | whole | must | g/.zgroup=G2 g/.zmetadata={"metadata":{"a/.zgroup":{"zarr_format":2},"a/.zattrs":{"k":1.5}},"zarr_consolidated_format":1} => MissingMetadata: Metadata is missing for Consolidated metadata required but missing on group /g
nodes | any | must | g/.zgroup=G2 g/.zmetadata={"metadata":{"a/.zgroup":{"zarr_format":2},"a/.zattrs":{"k":1.5}},"zarr_consolidated_format":1} => /g G2\n/g/a {"attributes":{"k":1.5},"zarr_format":2}\n
node | any | must | g/.zgroup=G2 g/.zmetadata={"metadata":{"a/.zgroup":{"zarr_format":2},"a/.zattrs":{"k":1.5}},"zarr_consolidated_format":1} => /g G2\n  /g/a {"attributes":{"k":1.5},"zarr_format":2}\n

# What is in any numbers no node of the format is refused.
nodes | any | never | g/zarr.json=G3 g/a/zarr.json={"node_type":"group","zarr_format":3.0} => StorageError(InvalidMetadata): error parsing metadata for g/a/zarr.json: wrong zarr_format
nodes | any | auto | g/.zgroup=G2 g/.zmetadata={"metadata":{"a/.zgroup":{"zarr_format":2.0}},"zarr_consolidated_format":1} => /g G2\n
"#;

#[test]
fn hierarchies_have_fractions(rt: HostRuntime) -> Result<(), Fail> {
    check_rows(rt.alloc(), LOOKED, looked)
}
