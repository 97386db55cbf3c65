//! Stores that fail, and memory that is refused: what opening, listing, printing, storing and erasing answer then, and what they leave.
//!
//! A call that reads is a word here, and what it answers a text, so one loop goes over all calls and all places of a store. A store is
//! lent to such a call only for reading, so it is left as it was. Each allocation of the tests `memory_fails_in_..` is refused in turn
//! by `bench/break/failures`; such a test ends then as usual, or in an error that is out of memory.
ghost use Rattle.std.specs.Prelude.{◌≡◌, true, IfOk, IfErr, OnOk, OnErr};
ghost use Rattle.zarrs_store.specs.Contents.{Lists, of_entries};
ghost use Rattle.zarrs_store.specs.Faults.{IsStoreError};
ghost use Rattle.zarrs_meaning.specs.Refusals.{IsExcusedOr};
ghost use Rattle.zarrs_node.specs.Forest.{Shows, forest};
ghost use Rattle.zarrs_node.specs.Nodes.{Nodes, Ignored, ShowsBad, HasNothingBad};
ghost use Rattle.zarrs_group.specs.Edits.{after, IsCutShort};
ghost use Rattle.zarrs_group.specs.StoringGroups.{edits_of_group, erase_edits, RefusesStoringGroup};

use crate::fixture_rows::store_in;
use crate::fixtures::{
    consolidated, done, group_of, group_text, groups_text, held_text, is_out_of_memory, is_same,
    left_text,
};
use crate::group_children::group_in;
use crate::groups::step_of;
use crate::hierarchies::opening::nodes_text;
use log::sink::Discard;
use std::alloc::{AllocError, Global};
use std::test::Fail;
use tests_fixtures::{
    A3_SQUARE, ANY, config_of, document_text, entries_of, entries_text, forest_text, key_of,
    listed_in, listing_text, metadata_in, no_word, node_text, pairs_text, paths_listed_in,
    paths_listing_text, paths_text, policy_of, version_of,
};
use tests_support::{G3, check_rows, fields, refusal, said};
use zarrs_block::ConsolidatedMetadataMetadata;
use zarrs_config::{
    Config, GroupMetadataOptions, MetadataEraseVersion, MetadataRetrieveVersion,
    UseConsolidatedMetadata,
};
use zarrs_group::{Group, GroupCreateError};
use zarrs_hierarchy::Hierarchy;
use zarrs_meaning::{NodeCreateError, node_exists, node_exists_listable};
use zarrs_meta::NodeMetadata;
use zarrs_node::{
    ListedNodes, Node, get_all_nodes_of, get_child_nodes_opt, list_nodes, refresh_block,
};
use zarrs_path::NodePath;
use zarrs_store::{
    FaultAt, FaultStore, MemoryStore, StorageError, StorePrefix, StorePrefixError,
    WritableStorageTraits,
};

// ---- what is promised over a store that fails: the contracts of the calls over any store, at this one

// What is listed below a path. It shows the nodes of what the store holds, and refuses by what is bad there, by the fault or as out of memory.
fn listed_over_faults(
    alloc: Global,
    store: &FaultStore,
    path: &NodePath,
    recursive: bool,
    version: &MetadataRetrieveVersion,
) -> Result<ListedNodes, NodeCreateError>
    ensures shows { IfOk result
        (λ l. Shows (forest l.nodes.items) path.now
        (Nodes (of_entries store.now.inner) version.now recursive path.now)) }
    ensures ignored { IfOk result
        (λ l. Lists (Ignored (of_entries store.now.inner) version.now recursive path.now)
        l.ignored.items) }
    ensures clean { IfOk result
        (λ _. HasNothingBad (of_entries store.now.inner) version.now recursive path.now) }
    ensures refused { IfErr result
        (IsExcusedOr true
        (ShowsBad (of_entries store.now.inner) version.now recursive path.now)) }
{
    list_nodes(alloc, store, path, recursive, version)
}

// The nodes below a path, by the same promises.
fn nodes_over_faults(
    alloc: Global,
    store: &FaultStore,
    path: &NodePath,
    recursive: bool,
    version: &MetadataRetrieveVersion,
) -> Result<Vec<Node>, NodeCreateError>
    ensures shows { IfOk result
        (λ nodes. Shows (forest nodes.items) path.now
        (Nodes (of_entries store.now.inner) version.now recursive path.now)) }
    ensures clean { IfOk result
        (λ _. HasNothingBad (of_entries store.now.inner) version.now recursive path.now) }
    ensures refused { IfErr result
        (IsExcusedOr true
        (ShowsBad (of_entries store.now.inner) version.now recursive path.now)) }
{
    get_child_nodes_opt(&Discard, alloc, store, path, recursive, version)
}

// Stores a group. The store is what all changes leave, or, after a refusal, what a first part of them leaves.
fn stored_over_faults(
    alloc: Global,
    group: &Group,
    store: &mut FaultStore,
    options: &GroupMetadataOptions,
) -> Result<(), StorageError>
    ensures ok { OnOk result
        (of_entries store.new.inner
        ≡ after (of_entries store.old.inner) (edits_of_group options.now group.now)) }
    ensures err { IfErr result
        (RefusesStoringGroup true options.now group.now
        (of_entries store.old.inner) (of_entries store.new.inner)) }
{
    group.store_metadata_opt(alloc, store, options)
}

// Erases a group, by the same promises.
fn erased_over_faults(
    alloc: Global,
    group: &Group,
    store: &mut FaultStore,
    version: MetadataEraseVersion,
) -> Result<(), StorageError>
    ensures ok { OnOk result
        (of_entries store.new.inner
        ≡ after (of_entries store.old.inner)
        (erase_edits group.now.path version group.now.metadata)) }
    ensures err { IfErr result (IsStoreError true) }
    ensures cut { OnErr result
        (IsCutShort (of_entries store.old.inner)
        (erase_edits group.now.path version group.now.metadata) (of_entries store.new.inner)) }
{
    group.erase_metadata_opt(alloc, store, version)
}

// ---- places

fn prefix_of(alloc: Global, text: &str) -> Result<StorePrefix, StorageError> {
    match StorePrefix::new(alloc, text) {
        Ok(prefix) => Ok(prefix),
        Err(StorePrefixError::Invalid(text)) => Err(StorageError::Other(text)),
        Err(StorePrefixError::OutOfMemory) => Err(StorageError::OutOfMemory),
    }
}

// The fault where a store is asked by `get`, `list`, `set` or `erase` for the key or the prefix that a text is.
fn fault_at(alloc: Global, call: &str, text: &str) -> Result<FaultAt, StorageError> {
    if call == "list" {
        return Ok(FaultAt::OnList(prefix_of(alloc, text)?));
    }
    let key = key_of(alloc, text)?;
    match call {
        "get" => Ok(FaultAt::OnGet(key)),
        "set" => Ok(FaultAt::OnSet(key)),
        "erase" => Ok(FaultAt::OnErase(key)),
        word => Err(no_word(alloc, word)),
    }
}

// The fault at a place, a line of a call and a text. That at the root is `list` alone.
fn fault_in(alloc: Global, place: &str) -> Result<FaultAt, StorageError> {
    let (call, text) = place.split_once(' ').unwrap_or((place, ""));
    fault_at(alloc, call, text)
}

// The store with the documents of a list that has a fault.
fn failing(
    alloc: Global,
    list: &str,
    fault: Result<FaultAt, StorageError>,
) -> Result<FaultStore, StorageError> {
    let fault = fault?;
    Ok(FaultStore::new(store_in(alloc, list)?, fault))
}

// A place to which no call comes that reads.
const NOWHERE: &str = "erase nowhere";

// ---- calls that read, and what they answer

const CALLS: &str = r#"metadata
exists
listed
listed one
paths
paths one
all
refreshed
node
hierarchy
group
children
children one
traversed
kinds
from group"#;

// What a call is asked: a path, the version of the documents, and the policy of blocks.
#[derive(Clone, Copy, Drop)]
struct Asked<'a> {
    path: &'a str,
    version: MetadataRetrieveVersion,
    policy: UseConsolidatedMetadata,
}

// This path, by a version, with the policy auto.
fn by_version(path: &str, version: MetadataRetrieveVersion) -> Asked<'_> {
    Asked {
        path,
        version,
        policy: UseConsolidatedMetadata::Auto,
    }
}

fn exists_in(
    alloc: Global,
    store: &FaultStore,
    path: &str,
) -> Result<(bool, bool), NodeCreateError> {
    let path = NodePath::new(alloc, path)?;
    let read = node_exists(alloc, store, &path)?;
    let listed = node_exists_listable(alloc, store, &path)?;
    Ok((read, listed))
}

fn all_in(
    alloc: Global,
    store: &FaultStore,
    asked: Asked,
) -> Result<Vec<(NodePath, NodeMetadata)>, NodeCreateError> {
    let path = NodePath::new(alloc, asked.path)?;
    get_all_nodes_of(&Discard, alloc, store, &path, &asked.version)
}

// A block of two nodes at the root.
fn older_block(alloc: Global) -> Result<ConsolidatedMetadataMetadata, NodeCreateError> {
    entries_of(alloc, &[("group", G3), ("group/old", A3_SQUARE)])
}

// That block, made current at a path; at the root itself it stays.
fn refreshed_at(
    alloc: Global,
    store: &FaultStore,
    asked: Asked,
) -> Result<ConsolidatedMetadataMetadata, NodeCreateError> {
    let root = NodePath::root(alloc)?;
    let path = NodePath::new(alloc, asked.path)?;
    if !path.is_below(&root) {
        return older_block(alloc);
    }
    let block = older_block(alloc)?;
    refresh_block(alloc, store, &root, &asked.version, &block, &path)
}

fn exists_text(exists: &(bool, bool), alloc: Global) -> Result<String, AllocError> {
    format!(in alloc; "{} {}", exists.0, exists.1)
}

// The nodes of a hierarchy, and its text.
fn hierarchy_text(hierarchy: &Hierarchy, alloc: Global) -> Result<String, AllocError> {
    let mut text = nodes_text(hierarchy, alloc)?;
    text.push_str(hierarchy.tree(alloc)?.as_str())?;
    Ok(text)
}

// A node with all below it, and its text.
fn tree_text(node: &Node, alloc: Global) -> Result<String, AllocError> {
    let mut text = node_text(node, alloc)?;
    text.push_str(node.hierarchy_tree(alloc)?.as_str())?;
    Ok(text)
}

// What a call answers of a path of a store, and of what stands below it.
fn answered(
    alloc: Global,
    store: &FaultStore,
    call: &str,
    asked: Asked,
) -> Result<String, AllocError> {
    let Asked { path, version, .. } = asked;
    let recursive = !call.ends_with(" one");
    match call {
        "metadata" => {
            let metadata = metadata_in(alloc, store, path, version);
            said(alloc, metadata, document_text)
        }
        "exists" => said(alloc, exists_in(alloc, store, path), exists_text),
        "listed" | "listed one" => {
            let listed = listed_in(alloc, store, path, recursive, version);
            said(alloc, listed, listing_text)
        }
        "paths" | "paths one" => {
            let listed = paths_listed_in(alloc, store, path, recursive, version);
            said(alloc, listed, paths_listing_text)
        }
        "all" => said(alloc, all_in(alloc, store, asked), pairs_text),
        "refreshed" => said(alloc, refreshed_at(alloc, store, asked), entries_text),
        call => opened_text(alloc, store, call, asked),
    }
}

// What a call answers over the documents of a list whose store fails at a place.
fn answered_at(
    alloc: Global,
    list: &str,
    place: &str,
    call: &str,
    asked: Asked,
) -> Result<String, StorageError> {
    let store = failing(alloc, list, fault_in(alloc, place))?;
    Ok(answered(alloc, &store, call, asked)?)
}

// What a call answers that opens a path first.
fn opened_text(
    alloc: Global,
    store: &FaultStore,
    call: &str,
    asked: Asked,
) -> Result<String, AllocError> {
    let Asked { path, version, .. } = asked;
    let config = config_of(asked.policy);
    match call {
        "node" => {
            let node = Node::open_opt(&Discard, alloc, store, path, &version, &config);
            said(alloc, node, tree_text)
        }
        "hierarchy" => {
            let hierarchy = Hierarchy::open_opt(&Discard, alloc, store, path, &version, &config);
            said(alloc, hierarchy, hierarchy_text)
        }
        call => {
            let group = Group::open_opt(alloc, store, path, &version, &config);
            group_answered(alloc, group, store, call, &config)
        }
    }
}

// What a call on a group answers, or the refusal of the group.
fn group_answered(
    alloc: Global,
    group: Result<Group, GroupCreateError>,
    store: &FaultStore,
    call: &str,
    config: &Config,
) -> Result<String, AllocError> {
    match group {
        Ok(group) => call_text(&group, alloc, store, call, config),
        Err(error) => refusal(alloc, &error),
    }
}

// What a call on a group answers.
fn call_text(
    group: &Group,
    alloc: Global,
    store: &FaultStore,
    call: &str,
    config: &Config,
) -> Result<String, AllocError> {
    match call {
        "group" => group_text(group, alloc),
        "children" | "children one" => {
            let recursive = call == "children";
            let nodes = group.children(&Discard, alloc, store, config, recursive);
            said(alloc, nodes, forest_text)
        }
        "traversed" => {
            let pairs = group.traverse(&Discard, alloc, store, config);
            said(alloc, pairs, pairs_text)
        }
        "kinds" => kinds_text(group, alloc, store, config),
        "from group" => {
            let hierarchy = Hierarchy::try_from_group(&Discard, alloc, group, store);
            said(alloc, hierarchy, hierarchy_text)
        }
        word => format!(in alloc; "no such word: {word}"),
    }
}

// Whether a text is the fault of the store, or out of memory.
fn is_excused(text: &str) -> bool {
    text == FAULT || is_out_of_memory(text)
}

// The groups among the children of a group, the paths of all, of those groups and of the arrays; or the first refusal.
fn kinds_text(
    group: &Group,
    alloc: Global,
    store: &FaultStore,
    config: &Config,
) -> Result<String, AllocError> {
    let groups = group.child_groups(&Discard, alloc, store, config);
    let text = said(alloc, groups, groups_text)?;
    let paths = group.child_paths(&Discard, alloc, store, config);
    let text = with_paths(alloc, text, paths)?;
    let paths = group.child_group_paths(&Discard, alloc, store, config);
    let text = with_paths(alloc, text, paths)?;
    let paths = group.child_array_paths(&Discard, alloc, store, config);
    with_paths(alloc, text, paths)
}

// A text and the paths behind it; of a refusal among the two only the first.
fn with_paths(
    alloc: Global,
    text: String,
    paths: Result<Vec<NodePath>, NodeCreateError>,
) -> Result<String, AllocError> {
    let more = said(alloc, paths, paths_text)?;
    if is_excused(text.as_str()) {
        Ok(text)
    } else if is_excused(more.as_str()) {
        Ok(more)
    } else {
        format!(in alloc; "{text}:\n{more}")
    }
}

// The fault of a store, as the refusal of a node or of a group.
const FAULT: &str = "StorageError(Fault): store fault";

// Runs with a fault at a place, how many of them the fault refused, and what was found in place of what was wanted.
#[derive(Drop)]
struct Tally {
    runs: u32,
    faults: u32,
    wrong: String,
}

fn tally_of_none(alloc: Global) -> Tally {
    Tally {
        runs: 0,
        faults: 0,
        wrong: String::new(alloc),
    }
}

// Counts a run that found this text.
fn count(tally: &mut Tally, found: &str, wanted: &str, is_fault: bool) -> Result<(), AllocError> {
    tally.runs = tally.runs.saturating_add(1);
    if is_fault {
        tally.faults = tally.faults.saturating_add(1);
    }
    if found == wanted {
        Ok(())
    } else {
        write!(tally.wrong, "; found {found} in place of {wanted}")
    }
}

fn tally_text(tally: &Tally, alloc: Global) -> Result<String, AllocError> {
    let Tally {
        runs,
        faults,
        wrong,
    } = tally;
    format!(in alloc; "{faults} faults in {runs} runs{wrong}")
}

// ---- single faults

// What is listed below the root of a store, or the nodes there, of all levels or of one.
fn below_the_root(
    alloc: Global,
    store: &FaultStore,
    root: &NodePath,
    call: &str,
) -> Result<String, StorageError> {
    let recursive = !call.ends_with(" one");
    match call {
        "listed" | "listed one" => {
            let listed = listed_over_faults(alloc, store, root, recursive, &ANY);
            Ok(said(alloc, listed, listing_text)?)
        }
        "nodes" | "nodes one" => {
            let nodes = nodes_over_faults(alloc, store, root, recursive, &ANY);
            Ok(said(alloc, nodes, forest_text)?)
        }
        word => Err(no_word(alloc, word)),
    }
}

// What a call answers of three levels, whose store fails where it gets a key. `CALL | KEY`.
fn below_a_key(alloc: Global, given: &str) -> Result<String, NodeCreateError> {
    let (call, key) = fields(given);
    let store = failing(alloc, "THREE_LEVELS", fault_at(alloc, "get", key))?;
    let root = NodePath::root(alloc)?;
    Ok(below_the_root(alloc, &store, &root, call)?)
}

const BELOW_A_KEY: &str = r#"
listed | group/subgroup/zarr.json => StorageError(Fault): store fault
nodes | group/subgroup/zarr.json => StorageError(Fault): store fault
listed one | group/subgroup/zarr.json => /array A3_SQUARE\n/group G3\n
nodes one | group/subgroup/zarr.json => /array A3_SQUARE\n/group G3\n
"#;

#[test]
fn a_listing_fails_where_it_comes_to_the_key(rt: HostRuntime) -> Result<(), Fail> {
    check_rows(rt.alloc(), BELOW_A_KEY, below_a_key)
}

// What opening the root answers by default: as a node for `node`, else as a hierarchy.
fn opened_at_root(alloc: Global, store: &FaultStore, call: &str) -> Result<String, AllocError> {
    let config = Config::new();
    if call == "node" {
        let node = Node::open(&Discard, alloc, store, "/", &config);
        return said(alloc, node, tree_text);
    }
    let hierarchy = Hierarchy::open(&Discard, alloc, store, "/", &config);
    said(alloc, hierarchy, hierarchy_text)
}

// The group that a call is asked of: that at the root for `traversed`, and that at `/group` with the block of all below it for `children`.
fn group_for(alloc: Global, call: &str) -> Result<Group, GroupCreateError> {
    let whole = store_in(alloc, "THREE_LEVELS")?;
    match call {
        "traversed" => Group::open(alloc, &whole, "/", &Config::new()),
        "children" => consolidated(alloc, &whole, "/group"),
        word => Err(GroupCreateError::from(no_word(alloc, word))),
    }
}

// What a call answers of its group over a store.
fn group_said(alloc: Global, store: &FaultStore, call: &str) -> Result<String, AllocError> {
    let group = group_for(alloc, call);
    group_answered(alloc, group, store, call, &Config::new())
}

// The documents of the store over which a call is asked: none for `children`, whose group has a block.
fn list_for(call: &str) -> &'static str {
    match call {
        "children" => "-",
        _ => "THREE_LEVELS",
    }
}

// What a call answers of three levels, whose store fails as it lists a prefix: `node` and `hierarchy` open the root, and the others are
// asked of a group. `CALL | PREFIX`.
fn over_a_prefix(alloc: Global, given: &str) -> Result<String, GroupCreateError> {
    let (call, prefix) = fields(given);
    let store = failing(alloc, list_for(call), fault_at(alloc, "list", prefix))?;
    match call {
        "node" | "hierarchy" => Ok(opened_at_root(alloc, &store, call)?),
        call => Ok(group_said(alloc, &store, call)?),
    }
}

const OVER_A_PREFIX: &str = r#"
# the call that comes to the prefix fails
node | group/ => StorageError(Fault): store fault
hierarchy | group/ => StorageError(Fault): store fault
traversed | group/ => StorageError(Fault): store fault
# a block stands for a store that fails
children | group/ => /group/array A3_SQUARE\n/group/subgroup G3\n  /group/subgroup/mysubarray A3_SQUARE\n
children | => /group/array A3_SQUARE\n/group/subgroup G3\n  /group/subgroup/mysubarray A3_SQUARE\n
"#;

#[test]
fn opening_fails_where_it_lists_the_prefix(rt: HostRuntime) -> Result<(), Fail> {
    check_rows(rt.alloc(), OVER_A_PREFIX, over_a_prefix)
}

// ---- storing and erasing

// What storing a group answers where the store fails as it sets a key, and what the store then holds.
fn stored_text(group: &Group, alloc: Global, key: &str) -> Result<String, StorageError> {
    let mut store = failing(alloc, "-", fault_at(alloc, "set", key))?;
    let options = GroupMetadataOptions::default();
    let answer = stored_over_faults(alloc, group, &mut store, &options);
    left_text(alloc, answer, ": ", store.inner())
}

// What erasing the documents of both versions answers where the store fails as it erases a key, and what the store then holds.
fn erased_text(group: &Group, alloc: Global, key: &str) -> Result<String, StorageError> {
    let list = "g/.zattrs=[a] g/.zgroup=[g] g/zarr.json=[j]";
    let mut store = failing(alloc, list, fault_at(alloc, "erase", key))?;
    let answer = erased_over_faults(alloc, group, &mut store, MetadataEraseVersion::All);
    left_text(alloc, answer, ": ", store.inner())
}

// What storing or erasing a group answers where the store fails at a key, and what that then holds.
fn changed_text(
    group: &Group,
    alloc: Global,
    call: &str,
    key: &str,
) -> Result<String, StorageError> {
    match call {
        "set" => stored_text(group, alloc, key),
        "erase" => erased_text(group, alloc, key),
        word => Err(no_word(alloc, word)),
    }
}

// What storing or erasing the group with an attribute answers where the store fails at a key, and what that then holds.
// `CALL | KEY`.
fn left_at(alloc: Global, given: &str) -> Result<String, GroupCreateError> {
    let (call, key) = fields(given);
    let group = group_of(alloc, "/g", r#"{"attributes":{"k":1},"zarr_format":2}"#)?;
    Ok(changed_text(&group, alloc, call, key)?)
}

const LEFT: &str = r#"
# a failing write leaves half of its document
set | g/.zattrs => Fault: store fault: g/.zattrs {\n  "k\n
set | g/.zgroup => Fault: store fault: g/.zattrs {\n  "k": 1\n}\ng/.zgroup {\n  "zarr_f\n
# a failing erasure leaves its document
erase | g/.zgroup => Fault: store fault: g/.zattrs [a]\ng/.zgroup [g]\n
"#;

#[test]
fn a_failing_change_leaves_a_part(rt: HostRuntime) -> Result<(), Fail> {
    check_rows(rt.alloc(), LEFT, left_at)
}

// Steps on the group at `/g`, one after another over one store: a call, the changes that it makes in their order, and the group before it.
// A group without a block erases one that was stored, and one with a block sets it behind its own documents.
// `STEP | CHANGES | PATH | DOCUMENT | LIST`.
const STEPS: &str =
    r#"store | g/.zmetadata= g/.zattrs=K g/.zgroup=OLD | /g | {"attributes":{"k":1},"zarr_format":2} | none
store | g/.zmetadata= g/.zattrs= g/.zgroup=OLD | /g | {"zarr_format":2} | none
store v3 | g/zarr.json=NEW | /g | {"zarr_format":2} | none
erase default | g/.zgroup= g/.zattrs= g/.zmetadata= | /g | {"zarr_format":2} | none
store default | g/.zmetadata= g/.zattrs=K g/.zgroup=OLD | /g | {"attributes":{"k":1},"zarr_format":2} | none
erase all | g/zarr.json= g/.zgroup= g/.zattrs= g/.zmetadata= | /g | {"attributes":{"k":1},"zarr_format":2} | none
store | g/.zattrs=K g/.zgroup=OLD g/.zmetadata=BLOCK | /g | {"attributes":{"k":1},"zarr_format":2} | b=G2
erase default | g/.zgroup= g/.zattrs= g/.zmetadata= | /g | {"attributes":{"k":1},"zarr_format":2} | b=G2"#;

// The documents of these groups and of the block, as they are stored.
const K: &str = r#"{
  "k": 1
}"#;

const OLD: &str = r#"{
  "zarr_format": 2
}"#;

const NEW: &str = r#"{
  "node_type": "group",
  "zarr_format": 3
}"#;

const STORED_BLOCK: &str = r#"{
  "metadata": {
    ".zattrs": {
      "k": 1
    },
    ".zgroup": {
      "zarr_format": 2
    },
    "b/.zgroup": {
      "zarr_format": 2
    }
  },
  "zarr_consolidated_format": 1
}"#;

// The places of a store with documents of both versions.
const STEP_PLACES: &str = r#"get g/.zarray
set g/.zarray
erase g/.zarray
get g/.zattrs
set g/.zattrs
erase g/.zattrs
get g/.zgroup
set g/.zgroup
erase g/.zgroup
get g/.zmetadata
set g/.zmetadata
erase g/.zmetadata
get g/zarr.json
set g/zarr.json
erase g/zarr.json
list
list g/"#;

// The text that a change sets by its word, none where it erases.
fn text_of(alloc: Global, word: &str) -> Result<&str, StorageError> {
    match word {
        "" => Ok(""),
        "K" => Ok(K),
        "OLD" => Ok(OLD),
        "NEW" => Ok(NEW),
        "BLOCK" => Ok(STORED_BLOCK),
        word => Err(no_word(alloc, word)),
    }
}

// Makes a change, such as `KEY=WORD`: sets the text of the word, or erases the key.
fn change<S: WritableStorageTraits>(
    alloc: Global,
    store: &mut S,
    given: &str,
) -> Result<(), StorageError> {
    let Some((key, word)) = given.split_once('=') else {
        return Err(no_word(alloc, given));
    };
    let text = text_of(alloc, word)?;
    let key = key_of(alloc, key)?;
    if text.is_empty() {
        store.erase(&key)
    } else {
        store.set(&key, text.as_bytes())
    }
}

// The changes of a step.
fn changes_of(step: &str) -> &str {
    let (_call, rest) = fields(step);
    fields(rest).0
}

// Makes the first `count` changes of a step, up to the first that is refused.
fn change_first<S: WritableStorageTraits>(
    alloc: Global,
    store: &mut S,
    step: &str,
    count: usize,
) -> Result<(), StorageError> {
    for entry in changes_of(step).split(' ').take(count) {
        change(alloc, store, entry)?;
    }
    Ok(())
}

// Makes all changes of the first steps.
fn change_before(
    alloc: Global,
    store: &mut MemoryStore,
    number: usize,
) -> Result<(), StorageError> {
    for step in STEPS.lines().take(number) {
        change_first(alloc, store, step, usize::MAX)?;
    }
    Ok(())
}

// The store before the step of this number: an array's document, and what the steps before left.
fn before(alloc: Global, number: usize) -> Result<MemoryStore, StorageError> {
    let mut store = store_in(alloc, "g/.zarray=A2")?;
    change_before(alloc, &mut store, number)?;
    Ok(store)
}

// That store, with a fault.
fn failing_before(alloc: Global, number: usize, place: &str) -> Result<FaultStore, StorageError> {
    let fault = fault_in(alloc, place)?;
    Ok(FaultStore::new(before(alloc, number)?, fault))
}

// The group of a step.
fn group_of_step(alloc: Global, step: &str) -> Result<Group, GroupCreateError> {
    let (_call, rest) = fields(step);
    let (_changes, group) = fields(rest);
    group_in(alloc, &MemoryStore::new(alloc), group)
}

// What a step on a group answers over a store.
fn done_by<S: WritableStorageTraits>(
    alloc: Global,
    group: &Group,
    store: &mut S,
    step: &str,
) -> Result<(), StorageError> {
    let (call, _rest) = fields(step);
    done(alloc, group, store, step_of(alloc, call)?)
}

// What a step on a group answers where its store fails at a place, and what that then holds.
fn stepped_text(
    group: &Group,
    alloc: Global,
    number: usize,
    step: &str,
    place: &str,
) -> Result<String, StorageError> {
    let mut store = failing_before(alloc, number, place)?;
    let answer = done_by(alloc, group, &mut store, step);
    left_text(alloc, answer, ": ", store.inner())
}

// What the changes of that step answer, made one by one, and what is held then.
fn wanted_text(
    alloc: Global,
    number: usize,
    step: &str,
    place: &str,
) -> Result<String, StorageError> {
    let mut store = failing_before(alloc, number, place)?;
    let answer = change_first(alloc, &mut store, step, usize::MAX);
    left_text(alloc, answer, ": ", store.inner())
}

// Counts the runs of a step on its group, with a fault at each place.
fn count_step(
    group: &Group,
    alloc: Global,
    tally: &mut Tally,
    number: usize,
    step: &str,
) -> Result<(), StorageError> {
    for place in STEP_PLACES.lines() {
        let found = stepped_text(group, alloc, number, step, place)?;
        let wanted = wanted_text(alloc, number, step, place)?;
        let is_fault = found.as_str().starts_with("Fault: ");
        count(tally, found.as_str(), wanted.as_str(), is_fault)?;
    }
    Ok(())
}

// Counts the runs of all steps.
fn count_steps(alloc: Global, tally: &mut Tally) -> Result<(), GroupCreateError> {
    for (number, step) in STEPS.lines().enumerate() {
        let group = group_of_step(alloc, step)?;
        count_step(&group, alloc, tally, number, step)?;
    }
    Ok(())
}

// What is counted of all steps.
fn steps_text(alloc: Global) -> Result<String, GroupCreateError> {
    let mut tally = tally_of_none(alloc);
    count_steps(alloc, &mut tally)?;
    Ok(tally_text(&tally, alloc)?)
}

#[test]
fn a_step_does_its_changes_up_to_the_one_that_fails(rt: HostRuntime) -> Result<(), Fail> {
    let alloc = rt.alloc();
    is_same(steps_text(alloc)?.as_str(), "23 faults in 136 runs")
}

// ---- reading, with a fault at each place

// Counts the runs of a reading call, with a fault at each place. The answer has to be the usual one, or the fault.
fn count_call(
    alloc: Global,
    tally: &mut Tally,
    list: &str,
    places: &str,
    call: &str,
    asked: Asked,
) -> Result<(), StorageError> {
    let usual = answered_at(alloc, list, NOWHERE, call, asked)?;
    for place in places.lines() {
        let found = answered_at(alloc, list, place, call, asked)?;
        if found.as_str() == FAULT {
            count(tally, FAULT, FAULT, true)?;
        } else {
            count(tally, found.as_str(), usual.as_str(), false)?;
        }
    }
    Ok(())
}

// Counts the runs of all reading calls.
fn count_calls(
    alloc: Global,
    tally: &mut Tally,
    list: &str,
    places: &str,
    asked: Asked,
) -> Result<(), StorageError> {
    for call in CALLS.lines() {
        count_call(alloc, tally, list, places, call, asked)?;
    }
    Ok(())
}

// What is counted of all reading calls over the documents of a list, with a fault at each of these places.
fn calls_text(
    alloc: Global,
    list: &str,
    places: &str,
    asked: Asked,
) -> Result<String, StorageError> {
    let mut tally = tally_of_none(alloc);
    count_calls(alloc, &mut tally, list, places, asked)?;
    Ok(tally_text(&tally, alloc)?)
}

// The groups and arrays of three levels, and a group beside them.
const LEVELS_AND_ONE: &str =
    "zarr.json=G3 group/zarr.json=G3 group/subgroup/zarr.json=G3 group2/zarr.json=G3 array/zarr.json=A3_SQUARE group/array/zarr.json=A3_SQUARE group/subgroup/mysubarray/zarr.json=A3_SQUARE";

const LEVELS_PLACES: &str = r#"get zarr.json
set zarr.json
erase zarr.json
get group/zarr.json
set group/zarr.json
erase group/zarr.json
get group/subgroup/zarr.json
set group/subgroup/zarr.json
erase group/subgroup/zarr.json
get group2/zarr.json
set group2/zarr.json
erase group2/zarr.json
get array/zarr.json
set array/zarr.json
erase array/zarr.json
get group/array/zarr.json
set group/array/zarr.json
erase group/array/zarr.json
get group/subgroup/mysubarray/zarr.json
set group/subgroup/mysubarray/zarr.json
erase group/subgroup/mysubarray/zarr.json
list
list group/
list group/subgroup/
list group2/
list array/
list group/array/
list group/subgroup/mysubarray/"#;

// What is counted of all reading calls at a path of three levels. `PATH`.
fn levels_counted(alloc: Global, path: &str) -> Result<String, StorageError> {
    calls_text(alloc, LEVELS_AND_ONE, LEVELS_PLACES, by_version(path, ANY))
}

const LEVELS_COUNTED: &str = r#"
/ => 107 faults in 448 runs
/group => 69 faults in 448 runs
/array => 17 faults in 448 runs
"#;

#[test]
fn reading_three_levels_answers_as_usual_or_the_fault(rt: HostRuntime) -> Result<(), Fail> {
    check_rows(rt.alloc(), LEVELS_COUNTED, levels_counted)
}

// The documents of a group of version 2 and of one of version 3 at one path, beside an array's.
const BOTH_VERSIONS: &str = r#"g/.zarray=A2 g/.zattrs={"k":1} g/.zgroup=G2 g/zarr.json=G3"#;

// What is counted of all reading calls at a path of both versions, by a version. `PATH | VERSION`.
fn versions_counted(alloc: Global, given: &str) -> Result<String, StorageError> {
    let (path, version) = fields(given);
    let asked = by_version(path, version_of(alloc, version)?);
    calls_text(alloc, BOTH_VERSIONS, STEP_PLACES, asked)
}

const VERSIONS_COUNTED: &str = r#"
/ | any => 14 faults in 272 runs
/g | any => 25 faults in 272 runs
/g | v3 => 25 faults in 272 runs
/g | v2 => 38 faults in 272 runs
"#;

#[test]
fn reading_both_versions_answers_as_usual_or_the_fault(rt: HostRuntime) -> Result<(), Fail> {
    check_rows(rt.alloc(), VERSIONS_COUNTED, versions_counted)
}

// ---- reading, storing and erasing, with each allocation refused in turn

// The documents of a store of the rows below.
fn documents_of(alloc: Global, name: &str) -> Result<&str, StorageError> {
    match name {
        "LEVELS_AND_ONE" => Ok(LEVELS_AND_ONE),
        "BLOCK" => Ok(BLOCK),
        "BOTH_VERSIONS" => Ok(BOTH_VERSIONS),
        "BESIDE" => Ok(BESIDE),
        word => Err(no_word(alloc, word)),
    }
}

// What a call answers of a path of a store, by a version and a policy. `CALL | PATH | VERSION | POLICY | STORE`.
fn read(alloc: Global, given: &str) -> Result<String, StorageError> {
    let (call, rest) = fields(given);
    let (path, rest) = fields(rest);
    let (version, rest) = fields(rest);
    let (policy, name) = fields(rest);
    let asked = Asked {
        path,
        version: version_of(alloc, version)?,
        policy: policy_of(alloc, policy)?,
    };
    answered_at(alloc, documents_of(alloc, name)?, NOWHERE, call, asked)
}

const LEVELS_READ: &str = r#"
# three levels and a group beside them
metadata | / | any | auto | LEVELS_AND_ONE => G3
exists | / | any | auto | LEVELS_AND_ONE => true true
listed | / | any | auto | LEVELS_AND_ONE => /array A3_SQUARE\n/group G3\n  /group/array A3_SQUARE\n  /group/subgroup G3\n    /group/subgroup/mysubarray A3_SQUARE\n/group2 G3\n
listed one | / | any | auto | LEVELS_AND_ONE => /array A3_SQUARE\n/group G3\n/group2 G3\n
paths | / | any | auto | LEVELS_AND_ONE => /array\n/group\n/group/array\n/group/subgroup\n/group/subgroup/mysubarray\n/group2\n
paths one | / | any | auto | LEVELS_AND_ONE => /array\n/group\n/group2\n
all | / | any | auto | LEVELS_AND_ONE => /array A3_SQUARE\n/group G3\n/group/array A3_SQUARE\n/group/subgroup G3\n/group/subgroup/mysubarray A3_SQUARE\n/group2 G3\n
refreshed | / | any | auto | LEVELS_AND_ONE => group G3\ngroup/old A3_SQUARE\n
node | / | any | auto | LEVELS_AND_ONE => / G3\n  /array A3_SQUARE\n  /group G3\n    /group/array A3_SQUARE\n    /group/subgroup G3\n      /group/subgroup/mysubarray A3_SQUARE\n  /group2 G3\n/\n  array [10, 10] float32\n  group\n    array [10, 10] float32\n    subgroup\n      mysubarray [10, 10] float32\n  group2\n
hierarchy | / | any | auto | LEVELS_AND_ONE => / G3\n/array A3_SQUARE\n/group G3\n/group/array A3_SQUARE\n/group/subgroup G3\n/group/subgroup/mysubarray A3_SQUARE\n/group2 G3\n/\n  array [10, 10] float32\n  group\n    array [10, 10] float32\n    subgroup\n      mysubarray [10, 10] float32\n  group2\n
group | / | any | auto | LEVELS_AND_ONE => group at / with metadata {"node_type":"group","zarr_format":3}
children | / | any | auto | LEVELS_AND_ONE => /array A3_SQUARE\n/group G3\n  /group/array A3_SQUARE\n  /group/subgroup G3\n    /group/subgroup/mysubarray A3_SQUARE\n/group2 G3\n
children one | / | any | auto | LEVELS_AND_ONE => /array A3_SQUARE\n/group G3\n/group2 G3\n
traversed | / | any | auto | LEVELS_AND_ONE => /array A3_SQUARE\n/group G3\n/group/array A3_SQUARE\n/group/subgroup G3\n/group/subgroup/mysubarray A3_SQUARE\n/group2 G3\n
kinds | / | any | auto | LEVELS_AND_ONE => group at /group with metadata {"node_type":"group","zarr_format":3}\ngroup at /group2 with metadata {"node_type":"group","zarr_format":3}\n:\n/array\n/group\n/group2\n:\n/group\n/group2\n:\n/array\n
from group | / | any | auto | LEVELS_AND_ONE => / G3\n/array A3_SQUARE\n/group G3\n/group/array A3_SQUARE\n/group/subgroup G3\n/group/subgroup/mysubarray A3_SQUARE\n/group2 G3\n/\n  array [10, 10] float32\n  group\n    array [10, 10] float32\n    subgroup\n      mysubarray [10, 10] float32\n  group2\n
"#;

#[test]
fn memory_fails_in_reading_three_levels(rt: HostRuntime) -> Result<(), Fail> {
    check_rows(rt.alloc(), LEVELS_READ, read)
}

// A group with the block of an array, and of a group with an array, and none of them in the store.
const BLOCK: &str =
    r#"group/zarr.json={"consolidated_metadata":{"kind":"inline","metadata":{"array":{"chunk_grid":{"configuration":{"chunk_shape":[10,10]},"name":"regular"},"chunk_key_encoding":{"configuration":{"separator":"/"},"name":"default"},"codecs":[{"configuration":{"endian":"little"},"name":"bytes"}],"data_type":"float32","fill_value":0,"node_type":"array","shape":[10,10],"zarr_format":3},"subgroup":{"node_type":"group","zarr_format":3},"subgroup/mysubarray":{"chunk_grid":{"configuration":{"chunk_shape":[10,10]},"name":"regular"},"chunk_key_encoding":{"configuration":{"separator":"/"},"name":"default"},"codecs":[{"configuration":{"endian":"little"},"name":"bytes"}],"data_type":"float32","fill_value":0,"node_type":"array","shape":[10,10],"zarr_format":3}},"must_understand":false},"node_type":"group","zarr_format":3}"#;

const BLOCK_READ: &str = r#"
# by the block of three levels, under must
metadata | /group | any | must | BLOCK => {"consolidated_metadata":{"kind":"inline","metadata":{"array":A3_SQUARE,"subgroup":G3,"subgroup/mysubarray":A3_SQUARE},"must_understand":false},"node_type":"group","zarr_format":3}
exists | /group | any | must | BLOCK => true true
listed | /group | any | must | BLOCK =>
listed one | /group | any | must | BLOCK =>
paths | /group | any | must | BLOCK =>
paths one | /group | any | must | BLOCK =>
all | /group | any | must | BLOCK =>
refreshed | /group | any | must | BLOCK => group {"consolidated_metadata":{"kind":"inline","metadata":{"array":A3_SQUARE,"subgroup":G3,"subgroup/mysubarray":A3_SQUARE},"must_understand":false},"node_type":"group","zarr_format":3}\n
node | /group | any | must | BLOCK => /group {"consolidated_metadata":{"kind":"inline","metadata":{"array":A3_SQUARE,"subgroup":G3,"subgroup/mysubarray":A3_SQUARE},"must_understand":false},"node_type":"group","zarr_format":3}\n  /group/array A3_SQUARE\n  /group/subgroup G3\n    /group/subgroup/mysubarray A3_SQUARE\n/\n  array [10, 10] float32\n  subgroup\n    mysubarray [10, 10] float32\n
hierarchy | /group | any | must | BLOCK => /group {"consolidated_metadata":{"kind":"inline","metadata":{"array":A3_SQUARE,"subgroup":G3,"subgroup/mysubarray":A3_SQUARE},"must_understand":false},"node_type":"group","zarr_format":3}\n/group/array A3_SQUARE\n/group/subgroup G3\n/group/subgroup/mysubarray A3_SQUARE\n/\n  group\n    array [10, 10] float32\n    subgroup\n      mysubarray [10, 10] float32\n
group | /group | any | must | BLOCK => group at /group with metadata {"consolidated_metadata":{"kind":"inline","metadata":{"array":{"chunk_grid":{"configuration":{"chunk_shape":[10,10]},"name":"regular"},"chunk_key_encoding":{"configuration":{"separator":"/"},"name":"default"},"codecs":[{"configuration":{"endian":"little"},"name":"bytes"}],"data_type":"float32","fill_value":0,"node_type":"array","shape":[10,10],"zarr_format":3},"subgroup":{"node_type":"group","zarr_format":3},"subgroup/mysubarray":{"chunk_grid":{"configuration":{"chunk_shape":[10,10]},"name":"regular"},"chunk_key_encoding":{"configuration":{"separator":"/"},"name":"default"},"codecs":[{"configuration":{"endian":"little"},"name":"bytes"}],"data_type":"float32","fill_value":0,"node_type":"array","shape":[10,10],"zarr_format":3}},"must_understand":false},"node_type":"group","zarr_format":3} and the block {"kind":"inline","metadata":{"array":{"chunk_grid":{"configuration":{"chunk_shape":[10,10]},"name":"regular"},"chunk_key_encoding":{"configuration":{"separator":"/"},"name":"default"},"codecs":[{"configuration":{"endian":"little"},"name":"bytes"}],"data_type":"float32","fill_value":0,"node_type":"array","shape":[10,10],"zarr_format":3},"subgroup":{"node_type":"group","zarr_format":3},"subgroup/mysubarray":{"chunk_grid":{"configuration":{"chunk_shape":[10,10]},"name":"regular"},"chunk_key_encoding":{"configuration":{"separator":"/"},"name":"default"},"codecs":[{"configuration":{"endian":"little"},"name":"bytes"}],"data_type":"float32","fill_value":0,"node_type":"array","shape":[10,10],"zarr_format":3}},"must_understand":false}
children | /group | any | must | BLOCK => /group/array A3_SQUARE\n/group/subgroup G3\n  /group/subgroup/mysubarray A3_SQUARE\n
children one | /group | any | must | BLOCK => /group/array A3_SQUARE\n/group/subgroup G3\n
traversed | /group | any | must | BLOCK => /group/array A3_SQUARE\n/group/subgroup G3\n/group/subgroup/mysubarray A3_SQUARE\n
kinds | /group | any | must | BLOCK => group at /group/subgroup with metadata {"node_type":"group","zarr_format":3}\n:\n/group/array\n/group/subgroup\n:\n/group/subgroup\n:\n/group/array\n
from group | /group | any | must | BLOCK => /group {"consolidated_metadata":{"kind":"inline","metadata":{"array":A3_SQUARE,"subgroup":G3,"subgroup/mysubarray":A3_SQUARE},"must_understand":false},"node_type":"group","zarr_format":3}\n/\n  group\n
# by the block of three levels, under auto
metadata | /group | any | auto | BLOCK => {"consolidated_metadata":{"kind":"inline","metadata":{"array":A3_SQUARE,"subgroup":G3,"subgroup/mysubarray":A3_SQUARE},"must_understand":false},"node_type":"group","zarr_format":3}
exists | /group | any | auto | BLOCK => true true
listed | /group | any | auto | BLOCK =>
listed one | /group | any | auto | BLOCK =>
paths | /group | any | auto | BLOCK =>
paths one | /group | any | auto | BLOCK =>
all | /group | any | auto | BLOCK =>
refreshed | /group | any | auto | BLOCK => group {"consolidated_metadata":{"kind":"inline","metadata":{"array":A3_SQUARE,"subgroup":G3,"subgroup/mysubarray":A3_SQUARE},"must_understand":false},"node_type":"group","zarr_format":3}\n
node | /group | any | auto | BLOCK => /group {"consolidated_metadata":{"kind":"inline","metadata":{"array":A3_SQUARE,"subgroup":G3,"subgroup/mysubarray":A3_SQUARE},"must_understand":false},"node_type":"group","zarr_format":3}\n  /group/array A3_SQUARE\n  /group/subgroup G3\n    /group/subgroup/mysubarray A3_SQUARE\n/\n  array [10, 10] float32\n  subgroup\n    mysubarray [10, 10] float32\n
hierarchy | /group | any | auto | BLOCK => /group {"consolidated_metadata":{"kind":"inline","metadata":{"array":A3_SQUARE,"subgroup":G3,"subgroup/mysubarray":A3_SQUARE},"must_understand":false},"node_type":"group","zarr_format":3}\n/group/array A3_SQUARE\n/group/subgroup G3\n/group/subgroup/mysubarray A3_SQUARE\n/\n  group\n    array [10, 10] float32\n    subgroup\n      mysubarray [10, 10] float32\n
group | /group | any | auto | BLOCK => group at /group with metadata {"consolidated_metadata":{"kind":"inline","metadata":{"array":{"chunk_grid":{"configuration":{"chunk_shape":[10,10]},"name":"regular"},"chunk_key_encoding":{"configuration":{"separator":"/"},"name":"default"},"codecs":[{"configuration":{"endian":"little"},"name":"bytes"}],"data_type":"float32","fill_value":0,"node_type":"array","shape":[10,10],"zarr_format":3},"subgroup":{"node_type":"group","zarr_format":3},"subgroup/mysubarray":{"chunk_grid":{"configuration":{"chunk_shape":[10,10]},"name":"regular"},"chunk_key_encoding":{"configuration":{"separator":"/"},"name":"default"},"codecs":[{"configuration":{"endian":"little"},"name":"bytes"}],"data_type":"float32","fill_value":0,"node_type":"array","shape":[10,10],"zarr_format":3}},"must_understand":false},"node_type":"group","zarr_format":3} and the block {"kind":"inline","metadata":{"array":{"chunk_grid":{"configuration":{"chunk_shape":[10,10]},"name":"regular"},"chunk_key_encoding":{"configuration":{"separator":"/"},"name":"default"},"codecs":[{"configuration":{"endian":"little"},"name":"bytes"}],"data_type":"float32","fill_value":0,"node_type":"array","shape":[10,10],"zarr_format":3},"subgroup":{"node_type":"group","zarr_format":3},"subgroup/mysubarray":{"chunk_grid":{"configuration":{"chunk_shape":[10,10]},"name":"regular"},"chunk_key_encoding":{"configuration":{"separator":"/"},"name":"default"},"codecs":[{"configuration":{"endian":"little"},"name":"bytes"}],"data_type":"float32","fill_value":0,"node_type":"array","shape":[10,10],"zarr_format":3}},"must_understand":false}
children | /group | any | auto | BLOCK => /group/array A3_SQUARE\n/group/subgroup G3\n  /group/subgroup/mysubarray A3_SQUARE\n
children one | /group | any | auto | BLOCK => /group/array A3_SQUARE\n/group/subgroup G3\n
traversed | /group | any | auto | BLOCK => /group/array A3_SQUARE\n/group/subgroup G3\n/group/subgroup/mysubarray A3_SQUARE\n
kinds | /group | any | auto | BLOCK => group at /group/subgroup with metadata {"node_type":"group","zarr_format":3}\n:\n/group/array\n/group/subgroup\n:\n/group/subgroup\n:\n/group/array\n
from group | /group | any | auto | BLOCK => /group {"consolidated_metadata":{"kind":"inline","metadata":{"array":A3_SQUARE,"subgroup":G3,"subgroup/mysubarray":A3_SQUARE},"must_understand":false},"node_type":"group","zarr_format":3}\n/\n  group\n
"#;

#[test]
fn memory_fails_in_reading_a_block(rt: HostRuntime) -> Result<(), Fail> {
    check_rows(rt.alloc(), BLOCK_READ, read)
}

const VERSIONS_READ: &str = r#"
# both versions, by version 3
metadata | /g | v3 | auto | BOTH_VERSIONS => G3
exists | /g | v3 | auto | BOTH_VERSIONS => true true
listed | /g | v3 | auto | BOTH_VERSIONS =>
listed one | /g | v3 | auto | BOTH_VERSIONS =>
paths | /g | v3 | auto | BOTH_VERSIONS =>
paths one | /g | v3 | auto | BOTH_VERSIONS =>
all | /g | v3 | auto | BOTH_VERSIONS =>
refreshed | /g | v3 | auto | BOTH_VERSIONS => g G3\ngroup G3\ngroup/old A3_SQUARE\n
node | /g | v3 | auto | BOTH_VERSIONS => /g G3\n/\n
hierarchy | /g | v3 | auto | BOTH_VERSIONS => /g G3\n/\n  g\n
group | /g | v3 | auto | BOTH_VERSIONS => group at /g with metadata {"node_type":"group","zarr_format":3}
children | /g | v3 | auto | BOTH_VERSIONS =>
children one | /g | v3 | auto | BOTH_VERSIONS =>
traversed | /g | v3 | auto | BOTH_VERSIONS =>
kinds | /g | v3 | auto | BOTH_VERSIONS => :\n:\n:\n
from group | /g | v3 | auto | BOTH_VERSIONS => /g G3\n/\n  g\n
# both versions, by version 2: the array stands there for nodes, and the group for groups
metadata | /g | v2 | auto | BOTH_VERSIONS => {"attributes":{"k":1},"chunks":[1],"compressor":null,"dimension_separator":".","dtype":"<f8","fill_value":"NaN","filters":null,"order":"C","shape":[1],"zarr_format":2}
exists | /g | v2 | auto | BOTH_VERSIONS => true true
listed | /g | v2 | auto | BOTH_VERSIONS =>
listed one | /g | v2 | auto | BOTH_VERSIONS =>
paths | /g | v2 | auto | BOTH_VERSIONS =>
paths one | /g | v2 | auto | BOTH_VERSIONS =>
all | /g | v2 | auto | BOTH_VERSIONS =>
refreshed | /g | v2 | auto | BOTH_VERSIONS => g {"attributes":{"k":1},"chunks":[1],"compressor":null,"dimension_separator":".","dtype":"<f8","fill_value":"NaN","filters":null,"order":"C","shape":[1],"zarr_format":2}\ngroup G3\ngroup/old A3_SQUARE\n
node | /g | v2 | auto | BOTH_VERSIONS => /g {"attributes":{"k":1},"chunks":[1],"compressor":null,"dimension_separator":".","dtype":"<f8","fill_value":"NaN","filters":null,"order":"C","shape":[1],"zarr_format":2}\n/ [1] Simple("<f8")\n
hierarchy | /g | v2 | auto | BOTH_VERSIONS => /g {"attributes":{"k":1},"chunks":[1],"compressor":null,"dimension_separator":".","dtype":"<f8","fill_value":"NaN","filters":null,"order":"C","shape":[1],"zarr_format":2}\n/\n  g [1] Simple("<f8")\n
group | /g | v2 | auto | BOTH_VERSIONS => group at /g with metadata {"attributes":{"k":1},"zarr_format":2}
children | /g | v2 | auto | BOTH_VERSIONS =>
children one | /g | v2 | auto | BOTH_VERSIONS =>
traversed | /g | v2 | auto | BOTH_VERSIONS =>
kinds | /g | v2 | auto | BOTH_VERSIONS => :\n:\n:\n
from group | /g | v2 | auto | BOTH_VERSIONS => /g {"attributes":{"k":1},"zarr_format":2}\n/\n  g\n
"#;

#[test]
fn memory_fails_in_reading_both_versions(rt: HostRuntime) -> Result<(), Fail> {
    check_rows(rt.alloc(), VERSIONS_READ, read)
}

// A version 2 group with the block of an array and of a group beside it, and neither of them in the store.
const BESIDE: &str =
    r#"g/.zgroup=G2 g/.zmetadata={"metadata":{"a/.zarray":{"chunks":[1],"compressor":null,"dtype":"<f8","fill_value":"NaN","filters":null,"order":"C","shape":[1],"zarr_format":2},"a/.zattrs":{"k":1},"b/.zgroup":{"zarr_format":2}},"zarr_consolidated_format":1}"#;

const BESIDE_READ: &str = r#"
# by the block beside a version 2 group, under must
metadata | /g | any | must | BESIDE => G2
exists | /g | any | must | BESIDE => true true
listed | /g | any | must | BESIDE =>
listed one | /g | any | must | BESIDE =>
paths | /g | any | must | BESIDE =>
paths one | /g | any | must | BESIDE =>
all | /g | any | must | BESIDE =>
refreshed | /g | any | must | BESIDE => g G2\ngroup G3\ngroup/old A3_SQUARE\n
node | /g | any | must | BESIDE => /g G2\n  /g/a {"attributes":{"k":1},"chunks":[1],"compressor":null,"dimension_separator":".","dtype":"<f8","fill_value":"NaN","filters":null,"order":"C","shape":[1],"zarr_format":2}\n  /g/b G2\n/\n  a [1] Simple("<f8")\n  b\n
hierarchy | /g | any | must | BESIDE => /g G2\n/g/a {"attributes":{"k":1},"chunks":[1],"compressor":null,"dimension_separator":".","dtype":"<f8","fill_value":"NaN","filters":null,"order":"C","shape":[1],"zarr_format":2}\n/g/b G2\n/\n  g\n    a [1] Simple("<f8")\n    b\n
group | /g | any | must | BESIDE => group at /g with metadata {"zarr_format":2} and the block {"kind":"inline","metadata":{"a":{"attributes":{"k":1},"chunks":[1],"compressor":null,"dimension_separator":".","dtype":"<f8","fill_value":"NaN","filters":null,"order":"C","shape":[1],"zarr_format":2},"b":{"zarr_format":2}},"must_understand":false}
children | /g | any | must | BESIDE => /g/a {"attributes":{"k":1},"chunks":[1],"compressor":null,"dimension_separator":".","dtype":"<f8","fill_value":"NaN","filters":null,"order":"C","shape":[1],"zarr_format":2}\n/g/b G2\n
children one | /g | any | must | BESIDE => /g/a {"attributes":{"k":1},"chunks":[1],"compressor":null,"dimension_separator":".","dtype":"<f8","fill_value":"NaN","filters":null,"order":"C","shape":[1],"zarr_format":2}\n/g/b G2\n
traversed | /g | any | must | BESIDE => /g/a {"attributes":{"k":1},"chunks":[1],"compressor":null,"dimension_separator":".","dtype":"<f8","fill_value":"NaN","filters":null,"order":"C","shape":[1],"zarr_format":2}\n/g/b G2\n
kinds | /g | any | must | BESIDE => group at /g/b with metadata {"zarr_format":2}\n:\n/g/a\n/g/b\n:\n/g/b\n:\n/g/a\n
from group | /g | any | must | BESIDE => /g G2\n/\n  g\n
# by the block beside a version 2 group, under auto
metadata | /g | any | auto | BESIDE => G2
exists | /g | any | auto | BESIDE => true true
listed | /g | any | auto | BESIDE =>
listed one | /g | any | auto | BESIDE =>
paths | /g | any | auto | BESIDE =>
paths one | /g | any | auto | BESIDE =>
all | /g | any | auto | BESIDE =>
refreshed | /g | any | auto | BESIDE => g G2\ngroup G3\ngroup/old A3_SQUARE\n
node | /g | any | auto | BESIDE => /g G2\n  /g/a {"attributes":{"k":1},"chunks":[1],"compressor":null,"dimension_separator":".","dtype":"<f8","fill_value":"NaN","filters":null,"order":"C","shape":[1],"zarr_format":2}\n  /g/b G2\n/\n  a [1] Simple("<f8")\n  b\n
hierarchy | /g | any | auto | BESIDE => /g G2\n/g/a {"attributes":{"k":1},"chunks":[1],"compressor":null,"dimension_separator":".","dtype":"<f8","fill_value":"NaN","filters":null,"order":"C","shape":[1],"zarr_format":2}\n/g/b G2\n/\n  g\n    a [1] Simple("<f8")\n    b\n
group | /g | any | auto | BESIDE => group at /g with metadata {"zarr_format":2} and the block {"kind":"inline","metadata":{"a":{"attributes":{"k":1},"chunks":[1],"compressor":null,"dimension_separator":".","dtype":"<f8","fill_value":"NaN","filters":null,"order":"C","shape":[1],"zarr_format":2},"b":{"zarr_format":2}},"must_understand":false}
children | /g | any | auto | BESIDE => /g/a {"attributes":{"k":1},"chunks":[1],"compressor":null,"dimension_separator":".","dtype":"<f8","fill_value":"NaN","filters":null,"order":"C","shape":[1],"zarr_format":2}\n/g/b G2\n
children one | /g | any | auto | BESIDE => /g/a {"attributes":{"k":1},"chunks":[1],"compressor":null,"dimension_separator":".","dtype":"<f8","fill_value":"NaN","filters":null,"order":"C","shape":[1],"zarr_format":2}\n/g/b G2\n
traversed | /g | any | auto | BESIDE => /g/a {"attributes":{"k":1},"chunks":[1],"compressor":null,"dimension_separator":".","dtype":"<f8","fill_value":"NaN","filters":null,"order":"C","shape":[1],"zarr_format":2}\n/g/b G2\n
kinds | /g | any | auto | BESIDE => group at /g/b with metadata {"zarr_format":2}\n:\n/g/a\n/g/b\n:\n/g/b\n:\n/g/a\n
from group | /g | any | auto | BESIDE => /g G2\n/\n  g\n
"#;

#[test]
fn memory_fails_in_reading_a_block_of_version_2(rt: HostRuntime) -> Result<(), Fail> {
    check_rows(rt.alloc(), BESIDE_READ, read)
}

// What the store holds after the first `count` changes of the step of this number.
fn changed_by(
    alloc: Global,
    number: usize,
    step: &str,
    count: usize,
) -> Result<String, StorageError> {
    let mut store = before(alloc, number)?;
    change_first(alloc, &mut store, step, count)?;
    held_text(alloc, &store)
}

// Whether a text is what a store holds after some of the first changes of a step, but not all.
fn is_cut_short(
    alloc: Global,
    found: &str,
    number: usize,
    step: &str,
) -> Result<bool, StorageError> {
    for count in 0..changes_of(step).split(' ').count() {
        if changed_by(alloc, number, step, count)?.as_str() == found {
            return Ok(true);
        }
    }
    Ok(false)
}

// The failure of a step that is out of memory, by what its store holds.
fn cut_short(alloc: Global, found: &str, number: usize, step: &str) -> Result<(), Fail> {
    if is_cut_short(alloc, found, number, step)? {
        Err(Fail::from(AllocError))
    } else {
        Err(Fail::new("no first part of the changes"))
    }
}

// Asks whether a store holds what a step leaves that answered so: all its changes, or, out of memory, a first part of them.
fn has_left(
    alloc: Global,
    answer: Result<(), StorageError>,
    found: &str,
    number: usize,
    step: &str,
) -> Result<(), Fail> {
    match answer {
        Ok(()) => is_same(found, changed_by(alloc, number, step, usize::MAX)?.as_str()),
        Err(StorageError::OutOfMemory) => cut_short(alloc, found, number, step),
        Err(_) => Err(Fail::new("another error")),
    }
}

// Asks whether a step did all its changes, or is out of memory and did a first part of them.
fn is_stepped(alloc: Global, group: &Group, number: usize, step: &str) -> Result<(), Fail> {
    let mut store = before(alloc, number)?;
    let answer = done_by(alloc, group, &mut store, step);
    let held = held_text(alloc, &store)?;
    has_left(alloc, answer, held.as_str(), number, step)
}

#[test]
fn memory_fails_in_storing_and_erasing(rt: HostRuntime) -> Result<(), Fail> {
    let alloc = rt.alloc();
    for (number, step) in STEPS.lines().enumerate() {
        let group = group_of_step(alloc, step)?;
        is_stepped(alloc, &group, number, step)?;
    }
    Ok(())
}
