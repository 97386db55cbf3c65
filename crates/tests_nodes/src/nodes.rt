//! Nodes, the calls that warn, and the pairs of a listing.

use crate::given::{is_all, node_in, set_in, store_in};
use log::Log;
use log::sink::{Discard, Writer};
use std::alloc::{AllocError, Global};
use std::test::Fail;
use tests_fixtures::{
    ANY, document_text, forest_text, node_text, pairs_text, paths_text, version_of,
};
use tests_support::{G3, check_rows, fields, printed, said, with_lines};
use zarrs_config::MetadataRetrieveVersion;
use zarrs_meaning::NodeCreateError;
use zarrs_meta::NodeMetadata;
use zarrs_node::{
    LISTING, Node, get_all_nodes_of, get_child_nodes, get_child_nodes_opt, laws, walk_nodes,
    warn_ignored,
};
use zarrs_path::{NodePath, meta_key_v3};
use zarrs_store::{MemoryStore, WritableStorageTraits};

// The version of `zarr.json` alone.
const V3: MetadataRetrieveVersion = MetadataRetrieveVersion::V3;

// The paths that a walk hands to a list of them, where what it passes over is warned of.
fn walked<L: Log>(
    log: &L,
    alloc: Global,
    store: &MemoryStore,
    base: &NodePath,
    version: &MetadataRetrieveVersion,
) -> Result<Vec<NodePath>, NodeCreateError> {
    let mut paths = Vec::new(alloc);
    let ignored = walk_nodes(alloc, store, base, true, version, &mut paths)?;
    warn_ignored(log, LISTING, &ignored);
    Ok(paths)
}

// What a call lists below a base in a store, with its warnings in a log.
fn listed_by<L: Log>(
    alloc: Global,
    log: &L,
    call: &str,
    store: &MemoryStore,
    base: &NodePath,
) -> Result<String, AllocError> {
    match call {
        "nodes" => said(
            alloc,
            get_child_nodes(log, alloc, store, base, true),
            forest_text,
        ),
        "children" => said(
            alloc,
            get_child_nodes(log, alloc, store, base, false),
            forest_text,
        ),
        "pairs" => said(
            alloc,
            get_all_nodes_of(log, alloc, store, base, &ANY),
            pairs_text,
        ),
        "walked" => said(alloc, walked(log, alloc, store, base, &ANY), paths_text),
        "walked by version 3" => said(alloc, walked(log, alloc, store, base, &V3), paths_text),
        call => format!(in alloc; "no such call: {call}"),
    }
}

// What a call lists below a base in a store, once the documents of a list are set in it.
fn listed_after<L: Log>(
    alloc: Global,
    log: &L,
    call: &str,
    store: &mut MemoryStore,
    given: &str,
) -> Result<String, NodeCreateError> {
    let (base, documents) = fields(given);
    let base = NodePath::new(alloc, base)?;
    set_in(alloc, store, documents)?;
    Ok(listed_by(alloc, log, call, &*store, &base)?)
}

// What a call lists in one store by each step of a row.
fn steps_said<L: Log>(
    alloc: Global,
    log: &L,
    call: &str,
    steps: &str,
) -> Result<String, NodeCreateError> {
    let mut store = MemoryStore::new(alloc);
    let mut text = String::new(alloc);
    for step in steps.split(" THEN ") {
        let answer = listed_after(alloc, log, call, &mut store, step)?;
        text.push_str(answer.as_str())?;
    }
    Ok(text)
}

// The same, and what all of them warn of.
fn warnings(alloc: Global, given: &str) -> Result<String, NodeCreateError> {
    let (call, steps) = fields(given);
    let sink = Writer::new(Vec::new(alloc));
    let text = steps_said(alloc, &sink, call, steps)?;
    Ok(with_lines(alloc, Ok(text), "warned: ", sink.into_inner())?)
}

// Call, base and store, or steps with more documents set in the same store; what is listed, and the log.
const WARNED: &str = r#"
# what is passed over is warned of
nodes | /root | root/zarr.json G3;root/fakenode/content/zarr.json NUL => warned: [WARN  zarrs_node::children] Object at /root/fakenode is not recognized as a component of a Zarr hierarchy. Ignoring.\n

# a refusal warns of nothing
nodes | /root/fakenode | root/zarr.json G3;root/fakenode/content/zarr.json NUL;root/fakenode/zarr.json NUL => StorageError(InvalidMetadata): error parsing metadata for root/fakenode/content/zarr.json: not JSON

# what was passed over is refused below, once it has a document that is bad
nodes | /root | root/zarr.json {"attributes":{"info":"The store for this group contains a fake node, which is not part of the dataset."},"node_type":"group","zarr_format":3};root/fakenode/content/zarr.json NUL THEN /root/fakenode | root/fakenode/zarr.json NUL => StorageError(InvalidMetadata): error parsing metadata for root/fakenode/content/zarr.json: not JSONwarned: [WARN  zarrs_node::children] Object at /root/fakenode is not recognized as a component of a Zarr hierarchy. Ignoring.\n

# all nodes are listed with warnings
pairs | / | g/zarr.json G3;g/x/content NUL;y/c NUL => /g G3\nwarned: [WARN  zarrs_node::children] Object at /g/x is not recognized as a component of a Zarr hierarchy. Ignoring.\n[WARN  zarrs_node::children] Object at /y is not recognized as a component of a Zarr hierarchy. Ignoring.\n

# paths are listed with the same warnings
walked by version 3 | / | g/zarr.json G3;y/.zgroup G2 => /g\nwarned: [WARN  zarrs_node::children] Object at /y is not recognized as a component of a Zarr hierarchy. Ignoring.\n
walked | / | g/zarr.json G3;g/a/zarr.json A3;y/c NUL => /g\n/g/a\nwarned: [WARN  zarrs_node::children] Object at /y is not recognized as a component of a Zarr hierarchy. Ignoring.\n
walked | / | g/zarr.json G3;g/x/content NUL;y/c NUL => /g\nwarned: [WARN  zarrs_node::children] Object at /g/x is not recognized as a component of a Zarr hierarchy. Ignoring.\n[WARN  zarrs_node::children] Object at /y is not recognized as a component of a Zarr hierarchy. Ignoring.\n

# the children alone are listed
children | / | g/zarr.json G3;g/a/zarr.json G3 => /g G3\n
"#;

#[test]
fn what_is_passed_over_is_warned_of(rt: HostRuntime) -> Result<(), Fail> {
    check_rows(rt.alloc(), WARNED, warnings)
}

// What is warned of paths in the name of a module, by a log that has a target of its own, or has none.
fn warned_by_name(alloc: Global, given: &str) -> Result<String, NodeCreateError> {
    let (target, texts) = fields(given);
    let mut paths = Vec::new(alloc);
    for text in texts.split(' ') {
        paths.push(NodePath::new(alloc, text)?)?;
    }
    let sink = Writer::new(Vec::new(alloc));
    match target {
        "none" => warn_ignored(&sink, "a::module", &paths),
        target => warn_ignored(&sink.with_target(target), "a::module", &paths),
    }
    Ok(with_lines(alloc, Ok(String::new(alloc)), "", sink.into_inner())?)
}

const WARNED_BY_NAME: &str = r#"
# warnings are those of the module, unless the log has a target
none | /a => [WARN  a::module] Object at /a is not recognized as a component of a Zarr hierarchy. Ignoring.\n
none | /a/b /c => [WARN  a::module] Object at /a/b is not recognized as a component of a Zarr hierarchy. Ignoring.\n[WARN  a::module] Object at /c is not recognized as a component of a Zarr hierarchy. Ignoring.\n
app | /a => [WARN  app] Object at /a is not recognized as a component of a Zarr hierarchy. Ignoring.\n
"#;

#[test]
fn warnings_are_those_of_a_module(rt: HostRuntime) -> Result<(), Fail> {
    check_rows(rt.alloc(), WARNED_BY_NAME, warned_by_name)
}

// The nodes that a row asks for: whether all below the root, the version, and the store.
fn children_given(alloc: Global, given: &str) -> Result<Vec<Node>, NodeCreateError> {
    let (depth, rest) = fields(given);
    let (version, documents) = fields(rest);
    let recursive = is_all(alloc, depth)?;
    let version = version_of(alloc, version)?;
    let root = NodePath::root(alloc)?;
    let store = store_in(alloc, documents)?;
    get_child_nodes_opt(&Discard, alloc, &store, &root, recursive, &version)
}

fn children_said(alloc: Global, given: &str) -> Result<String, AllocError> {
    said(alloc, children_given(alloc, given), forest_text)
}

// Depth, version and store; the nodes below the root.
const CHILDREN: &str = r#"
children | any | g/zarr.json G3;g/a/zarr.json G3;old/.zgroup G2 => /g G3\n/old G2\n
children | v3 | g/zarr.json G3;g/a/zarr.json G3;old/.zgroup G2 => /g G3\n
children | v2 | g/zarr.json G3;g/a/zarr.json G3;old/.zgroup G2 => /old G2\n
"#;

#[test]
fn children_by_version(rt: HostRuntime) -> Result<(), Fail> {
    check_rows(rt.alloc(), CHILDREN, children_said)
}

// All pairs below the root of a store.
fn all_pairs(
    alloc: Global,
    store: &MemoryStore,
) -> Result<Vec<(NodePath, NodeMetadata)>, NodeCreateError> {
    let root = NodePath::root(alloc)?;
    get_all_nodes_of(&Discard, alloc, store, &root, &ANY)
}

// All pairs below the root of the store of a row.
fn pairs_said(alloc: Global, given: &str) -> Result<String, NodeCreateError> {
    let store = store_in(alloc, given)?;
    Ok(said(alloc, all_pairs(alloc, &store), pairs_text)?)
}

// A store, and the paths and documents of all pairs below its root.
const PAIRS: &str = r#"
# all nodes stand once with their metadata
g/zarr.json G3;g/a/zarr.json A3;old/.zgroup G2;old/b/.zarray A2 => /g G3\n/g/a A3\n/old G2\n/old/b A2\n
g/zarr.json {"attributes":{"k":1},"node_type":"group","zarr_format":3};old/.zgroup G2;old/.zattrs {"k":2} => /g {"attributes":{"k":1},"node_type":"group","zarr_format":3}\n/old {"attributes":{"k":2},"zarr_format":2}\n

# their paths are those that are listed: the table of paths has the same
both versions => /array A3_SQUARE\n/group G3\n/group/array A3_SQUARE\n/group/subgroup G3\n/group/subgroup/mysubarray A3_SQUARE\n/groupv2 G2\n/groupv2/arrayv2 A2\n
"#;

#[test]
fn all_nodes_stand_once_with_their_metadata(rt: HostRuntime) -> Result<(), Fail> {
    check_rows(rt.alloc(), PAIRS, pairs_said)
}

// All pairs below the root of a store with a chain of groups, each the only child of the one before.
fn pairs_of_chain(
    alloc: Global,
    levels: u64,
) -> Result<Vec<(NodePath, NodeMetadata)>, NodeCreateError> {
    let mut store = MemoryStore::new(alloc);
    let mut path = NodePath::root(alloc)?;
    for _level in 0..levels {
        path = path.join(alloc, "a")?;
        store.set(&meta_key_v3(alloc, &path)?, G3.as_bytes())?;
    }
    all_pairs(alloc, &store)
}

fn pairs_count(pairs: &Vec<(NodePath, NodeMetadata)>, alloc: Global) -> Result<String, AllocError> {
    printed(&pairs.len(), alloc)
}

#[test]
fn a_long_chain_of_groups_is_listed(rt: HostRuntime) -> Result<(), Fail> {
    let count = said(rt.alloc(), pairs_of_chain(rt.alloc(), 200), pairs_count)?;
    assert_eq!(rt; count.as_str(), "200");
    Ok(())
}

// ---- nodes that are made

// What a node says of itself, and the node with what is below it.
fn own_text(node: &Node, alloc: Global) -> Result<String, AllocError> {
    let name = node.name(alloc)?;
    let all = node_text(node, alloc)?;
    format!(in alloc;
        "name '{name}', root {}, placed {}\n{all}",
        node.is_root(),
        node.has_placed_children()
    )
}

// What a look at a node shows.
fn looked(alloc: Global, node: Node, look: &str) -> Result<String, AllocError> {
    match look {
        "node" => own_text(&node, alloc),
        "copy" => said(alloc, node.try_clone(alloc), own_text),
        "path" => printed(&NodePath::from(node), alloc),
        "metadata" => document_text(&NodeMetadata::from(node), alloc),
        look => format!(in alloc; "no such word: {look}"),
    }
}

// What the look of a row shows at a node and those below it.
fn node_said(alloc: Global, given: &str) -> Result<String, NodeCreateError> {
    let (look, list) = fields(given);
    Ok(looked(alloc, node_in(alloc, list)?, look)?)
}

// Look, and the node with its children; what is seen.
const NODES: &str = r#"
# a node holds what it was made of
node | /a {"attributes":{"k":[1,"x"]},"node_type":"group","zarr_format":3};/a/x G3;/a/y A3 => name 'a', root false, placed true\n/a {"attributes":{"k":[1,"x"]},"node_type":"group","zarr_format":3}\n  /a/x G3\n  /a/y A3\n
copy | /a {"attributes":{"k":[1,"x"]},"node_type":"group","zarr_format":3};/a/x G3;/a/y A3 => name 'a', root false, placed true\n/a {"attributes":{"k":[1,"x"]},"node_type":"group","zarr_format":3}\n  /a/x G3\n  /a/y A3\n
copy | /b/a A3_SQUARE;/a G3;/a G3;/ A3 => name 'a', root false, placed false\n/b/a A3_SQUARE\n  /a G3\n  /a G3\n  / A3\n

# a node gives its parts
path | /a G3;/a/x G3 => /a
metadata | /a {"attributes":{"k":1},"node_type":"group","zarr_format":3};/a/x G3 => {"attributes":{"k":1},"node_type":"group","zarr_format":3}

# the root has the empty name
node | / G3 => name '', root true, placed true\n/ G3\n

# placed children are one name below
node | / G3;/a G3 => name '', root true, placed true\n/ G3\n  /a G3\n
node | /g G3;/g/a G3 => name 'g', root false, placed true\n/g G3\n  /g/a G3\n
node | /g G3;/gx/a G3 => name 'g', root false, placed false\n/g G3\n  /gx/a G3\n
node | /g G3;/g/a/b G3 => name 'g', root false, placed false\n/g G3\n  /g/a/b G3\n
node | /g G3;/g G3 => name 'g', root false, placed false\n/g G3\n  /g G3\n
"#;

#[test]
fn a_node_holds_what_it_was_made_of(rt: HostRuntime) -> Result<(), Fail> {
    check_rows(rt.alloc(), NODES, node_said)
}

#[test]
fn the_laws_of_forests_are_called() {
    laws::one_forest();
    laws::one_listing();
    laws::pairs_ascend();
    laws::placed_children();
    laws::preorder_is_lines();
    laws::listing_is_lines();
    laws::one_text();
    laws::closed_pairs();
    laws::closed_nodes();
}
