//! What stands at one path of a store: a document, attributes, the block that is used of it, the line that shows it.

use crate::given::store_in;
use std::alloc::{AllocError, Global};
use std::test::Fail;
use tests_fixtures::{ANY, ListedPaths, key_of, paths_listing_text, paths_text, policy_of};
use tests_support::{check_rows, fields, printed, refusal, said};
use zarrs_block::ConsolidatedMetadata;
use zarrs_config::UseConsolidatedMetadata;
use zarrs_meaning::{NodeCreateError, attributes_at, document_at};
use zarrs_meta::{AttributesDocument, GroupMetadataV2, WrittenDocument};
use zarrs_node::{
    Node, NodeFault, NodeLine, WalkedPast, consolidated_metadata_at, walk_nodes, walk_past_faults,
    zmetadata_at,
};
use zarrs_path::NodePath;
use zarrs_store::{MemoryStore, StorageError};

// ---- documents

// The document of a group of version 2 at a key, or `none`.
fn group_at(alloc: Global, given: &str) -> Result<Option<GroupMetadataV2>, StorageError> {
    let (key, documents) = fields(given);
    let store = store_in(alloc, documents)?;
    document_at(alloc, &store, key_of(alloc, key)?)
}

fn group_text(group: &Option<GroupMetadataV2>, alloc: Global) -> Result<String, AllocError> {
    match group {
        Some(group) => group.to_text(alloc),
        None => String::from_str(alloc, "none"),
    }
}

fn group_said(alloc: Global, given: &str) -> Result<String, AllocError> {
    said(alloc, group_at(alloc, given), group_text)
}

// A key and a store; the group of version 2 that stands there, or the error.
const GROUPS: &str = r#"
a/.zgroup | a/.zgroup {"attributes":{"k":1},"zarr_format":2} => {"attributes":{"k":1},"zarr_format":2}
b/.zgroup | a/.zgroup G2 => none
a | a/.zgroup G2;a NUL => InvalidMetadata: error parsing metadata for a: not JSON
a/.zgroup | a/.zgroup G3 => InvalidMetadata: error parsing metadata for a/.zgroup: wrong zarr_format
"#;

#[test]
fn a_document_is_read_at_its_key(rt: HostRuntime) -> Result<(), Fail> {
    check_rows(rt.alloc(), GROUPS, group_said)
}

// The attributes beside the documents of a path, or `none`.
fn attributes_of(
    alloc: Global,
    given: &str,
) -> Result<Option<AttributesDocument>, NodeCreateError> {
    let (path, documents) = fields(given);
    let path = NodePath::new(alloc, path)?;
    let store = store_in(alloc, documents)?;
    Ok(attributes_at(alloc, &store, &path)?)
}

fn attributes_text(
    attributes: &Option<AttributesDocument>,
    alloc: Global,
) -> Result<String, AllocError> {
    match attributes {
        Some(attributes) => attributes.to_text(alloc),
        None => String::from_str(alloc, "none"),
    }
}

fn attributes_said(alloc: Global, given: &str) -> Result<String, AllocError> {
    said(alloc, attributes_of(alloc, given), attributes_text)
}

// A path and a store; the attributes in `.zattrs`, or the error.
const ATTRIBUTES: &str = r#"
/a | a/.zattrs {"k":[1,"x"]} => {"k":[1,"x"]}
/ | .zattrs {} => {}
/a | .zattrs {};a/.zgroup G2 => none
/a | a/.zattrs [] => StorageError(InvalidMetadata): error parsing metadata for a/.zattrs: not an object
"#;

#[test]
fn attributes_are_read_beside_a_path(rt: HostRuntime) -> Result<(), Fail> {
    check_rows(rt.alloc(), ATTRIBUTES, attributes_said)
}

// ---- blocks

fn block_text(block: &Option<ConsolidatedMetadata>, alloc: Global) -> Result<String, AllocError> {
    match block {
        Some(block) => block.to_value(alloc)?.to_string(alloc),
        None => String::from_str(alloc, "none"),
    }
}

// The block that the document `.zmetadata` of a path is.
fn beside(alloc: Global, given: &str) -> Result<Option<ConsolidatedMetadata>, NodeCreateError> {
    let (path, documents) = fields(given);
    let path = NodePath::new(alloc, path)?;
    let store = store_in(alloc, documents)?;
    Ok(zmetadata_at(alloc, &store, &path)?)
}

fn beside_said(alloc: Global, given: &str) -> Result<String, AllocError> {
    said(alloc, beside(alloc, given), block_text)
}

// A path and a store; the block that `.zmetadata` of the path is.
const BESIDE: &str = r#"
/g | g/.zmetadata {"metadata":{"a/.zgroup":{"zarr_format":2}},"zarr_consolidated_format":1} => {"kind":"inline","metadata":{"a":{"zarr_format":2}},"must_understand":false}
/g | g/.zmetadata {"metadata":{"a/.zgroup":{}},"zarr_consolidated_format":1} => none
/g | g/.zmetadata {"metadata":{},"zarr_consolidated_format":2} => none
/g | g/.zmetadata NUL => none
/g | g/.zgroup G2 => none
"#;

#[test]
fn a_block_is_read_beside_a_path(rt: HostRuntime) -> Result<(), Fail> {
    check_rows(rt.alloc(), BESIDE, beside_said)
}

// The block that a policy uses of the node at a path.
fn used_text(
    alloc: Global,
    store: &MemoryStore,
    path: &NodePath,
    policy: UseConsolidatedMetadata,
) -> Result<String, AllocError> {
    let metadata = Node::get_metadata(alloc, store, path, &ANY);
    said(alloc, metadata, |metadata, alloc| {
        let block = consolidated_metadata_at(alloc, store, path, metadata, policy);
        said(alloc, block, block_text)
    })
}

// That of a row.
fn used_said(alloc: Global, given: &str) -> Result<String, NodeCreateError> {
    let (policy, rest) = fields(given);
    let (path, documents) = fields(rest);
    let policy = policy_of(alloc, policy)?;
    let path = NodePath::new(alloc, path)?;
    let store = store_in(alloc, documents)?;
    Ok(used_text(alloc, &store, &path, policy)?)
}

// A policy, a path and a store; the block that is used, or the error.
const USED: &str = r#"
# of version 3 the block in the metadata, whatever stands beside them
auto | / | zarr.json {"consolidated_metadata":{"kind":"inline","metadata":{"a":{"node_type":"group","zarr_format":3}},"must_understand":false},"node_type":"group","zarr_format":3} => {"kind":"inline","metadata":{"a":{"node_type":"group","zarr_format":3}},"must_understand":false}
auto | / | zarr.json G3;.zmetadata {"metadata":{"a/.zgroup":{"zarr_format":2}},"zarr_consolidated_format":1} => none
must | / | zarr.json G3 => MissingMetadata: Metadata is missing for Consolidated metadata required but missing on group /

# of version 2 the block beside them
auto | / | .zgroup G2;.zmetadata {"metadata":{"a/.zgroup":{"zarr_format":2}},"zarr_consolidated_format":1} => {"kind":"inline","metadata":{"a":{"zarr_format":2}},"must_understand":false}
never | / | .zgroup G2;.zmetadata {"metadata":{"a/.zgroup":{"zarr_format":2}},"zarr_consolidated_format":1} => none
must | /g | g/.zgroup G2;.zmetadata {"metadata":{},"zarr_consolidated_format":1} => MissingMetadata: Metadata is missing for Consolidated metadata required but missing on group /g

# of an array none
auto | /a | a/.zarray A2;a/.zmetadata {"metadata":{},"zarr_consolidated_format":1} => none
"#;

#[test]
fn a_block_is_used_from_where_the_version_has_it(rt: HostRuntime) -> Result<(), Fail> {
    check_rows(rt.alloc(), USED, used_said)
}

// ---- lines

// The line that shows the node at a path.
fn line_text(alloc: Global, store: &MemoryStore, path: &NodePath) -> Result<String, AllocError> {
    let metadata = Node::get_metadata(alloc, store, path, &ANY);
    said(
        alloc,
        metadata,
        |metadata, alloc| printed(&NodeLine::at(path, metadata), alloc),
    )
}

// That of a row.
fn line_of(alloc: Global, given: &str) -> Result<String, NodeCreateError> {
    let (path, documents) = fields(given);
    let path = NodePath::new(alloc, path)?;
    let store = store_in(alloc, documents)?;
    Ok(line_text(alloc, &store, &path)?)
}

// A path and a store; the line of its node.
const LINES: &str = r#"
/ | zarr.json G3 => \n
/a/b | a/b/zarr.json G3 => b\n
/a/c | a/c/zarr.json A3_SQUARE => c [10, 10] float32\n
/d | d/.zarray A2 => d [1] Simple("<f8")\n
"#;

#[test]
fn a_node_is_shown_by_its_last_name(rt: HostRuntime) -> Result<(), Fail> {
    check_rows(rt.alloc(), LINES, line_of)
}

// ---- the walk

// The paths that a walk below the root hands to a sink, and those that it ignores.
fn told(alloc: Global, documents: &str) -> Result<ListedPaths, NodeCreateError> {
    let store = store_in(alloc, documents)?;
    let root = NodePath::root(alloc)?;
    let mut paths = Vec::<NodePath>::new(alloc);
    let ignored = walk_nodes(alloc, &store, &root, true, &ANY, &mut paths)?;
    Ok(ListedPaths { paths, ignored })
}

fn told_said(alloc: Global, given: &str) -> Result<String, AllocError> {
    said(alloc, told(alloc, given), paths_listing_text)
}

// A store; the paths of its nodes, as a walk hands them on, and the ignored ones.
const TOLD: &str = r#"
zarr.json G3 =>
zarr.json G3;a/zarr.json G3;a/x/zarr.json G3;a-b/zarr.json G3;c/y/zarr.json G3 => /a\n/a/x\n/a-b\nignored /c\n
a/zarr.json NUL => StorageError(InvalidMetadata): error parsing metadata for a/zarr.json: not JSON
"#;

#[test]
fn a_walk_hands_each_node_to_a_sink(rt: HostRuntime) -> Result<(), Fail> {
    check_rows(rt.alloc(), TOLD, told_said)
}

// ---- the walk past faults

// What a walk below the root that goes on past faults hands to a sink, and what it passes over.
fn told_past(
    alloc: Global,
    documents: &str,
) -> Result<(Vec<NodePath>, WalkedPast), NodeCreateError> {
    let store = store_in(alloc, documents)?;
    let root = NodePath::root(alloc)?;
    let mut paths = Vec::<NodePath>::new(alloc);
    let passed = walk_past_faults(alloc, &store, &root, &ANY, &mut paths)?;
    Ok((paths, passed))
}

// The paths of the nodes, those that are ignored, and what is bad, each by its names.
fn past_text(told: &(Vec<NodePath>, WalkedPast), alloc: Global) -> Result<String, AllocError> {
    let (paths, passed) = told;
    let mut text = paths_text(paths, alloc)?;
    for path in &passed.ignored {
        write!(text, "ignored {path}\n")?;
    }
    for (names, fault) in &passed.faults {
        match fault {
            NodeFault::Name => write!(text, "{names} no name\n")?,
            NodeFault::Document(error) => {
                write!(text, "{names} {}\n", refusal(alloc, error)?)?;
            }
        }
    }
    Ok(text)
}

fn past_said(alloc: Global, given: &str) -> Result<String, AllocError> {
    said(alloc, told_past(alloc, given), past_text)
}

// A store; the paths of its nodes, the ignored ones, and what is bad, each in the order of paths.
const PAST: &str = r#"
zarr.json G3;a/zarr.json G3;a/x/zarr.json G3 => /a\n/a/x\n
a/zarr.json NUL;a/x/zarr.json G3;b/zarr.json G3 => /b\na/ StorageError(InvalidMetadata): error parsing metadata for a/zarr.json: not JSON\n
a/zarr.json G3;a/../zarr.json G3 => /a\na/../ no name\n
b/zarr.json G3;b/../zarr.json G3;b/c/zarr.json G2;b/d/zarr.json G3;e/f/x NUL => /b\n/b/d\nignored /e\nb/../ no name\nb/c/ MetadataVersionMismatch: Found V2 metadata in V3 key or vice-versa\n
"#;

#[test]
fn a_walk_goes_on_past_what_is_bad(rt: HostRuntime) -> Result<(), Fail> {
    check_rows(rt.alloc(), PAST, past_said)
}
