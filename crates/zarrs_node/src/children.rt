//! The nodes below a path, where what is passed over is warned of.
ghost use Rattle.std.specs.Prelude.{IfOk, IfErr, true};
ghost use Rattle.zarrs_store.specs.Contents.{Lists};
ghost use Rattle.zarrs_meaning.specs.Refusals.{IsExcusedOr};
ghost use Rattle.zarrs_node.specs.Forest.{Shows, forest};
ghost use Rattle.zarrs_node.specs.Nodes.{Nodes, ShowsBad, HasNothingBad};
ghost use Rattle.zarrs_block.specs.Block.{IsAscending, IsBlockOf};
ghost use Rattle.zarrs_node.specs.Order.{Ascend};

use crate::descent::walk_nodes;
use crate::listing::list_nodes;
use crate::node::Node;
use crate::refresh::insert_pairs;
use log::{Log, target_or, warn};
use std::alloc::Global;
use zarrs_block::ConsolidatedMetadataMetadata;
use zarrs_config::MetadataRetrieveVersion;
use zarrs_meaning::NodeCreateError;
use zarrs_meta::NodeMetadata;
use zarrs_path::NodePath;
use zarrs_store::{ListableStorageTraits, ReadableStorageTraits};

/// The module in whose name a listing warns, where the logging value has no target of its own.
pub const LISTING: &str = module_path!();

/// The nodes below a path, siblings ascending, by the documents of version 3 and where there is none by those of version 2.
/// A path without documents is passed over with all below it, and warned of.
///
/// # Errors
///
/// The refusals of `get_child_nodes_opt`.
///
/// Source: `zarrs::node::get_child_nodes`.
pub fn get_child_nodes<L: Log, S: ReadableStorageTraits + ListableStorageTraits>(
    log: &L,
    alloc: Global,
    storage: &S,
    path: &NodePath,
    recursive: bool,
) -> Result<Vec<Node>, NodeCreateError>
    ensures shows { IfOk result
        (λ nodes. Shows (forest nodes.items) path.now
        (Nodes (S.contents storage.now) MetadataRetrieveVersion.Default recursive path.now)) }
    ensures clean { IfOk result
        (λ _. HasNothingBad (S.contents storage.now) MetadataRetrieveVersion.Default recursive
        path.now) }
    ensures refused { IfErr result
        (IsExcusedOr (S.can_fail storage.now)
        (ShowsBad (S.contents storage.now) MetadataRetrieveVersion.Default recursive path.now)) }
{
    get_child_nodes_opt(
        log,
        alloc,
        storage,
        path,
        recursive,
        &MetadataRetrieveVersion::Default,
    )
}

/// The nodes below a path, siblings ascending, by the documents of a version.
/// A path without documents is passed over with all below it, and warned of.
///
/// # Errors
///
/// - `StorageError::InvalidMetadata` where a document on the way does not read, with its key and the fault.
/// - `MetadataVersionMismatch` where a document of version 2 stands at `zarr.json`.
/// - `StorageError::Other` where a name on the way is made of periods only.
/// - `StorageError::Fault` of a store that can fail, and `OutOfMemory` when out of memory.
///
/// Source: `zarrs::node::get_child_nodes_opt`.
pub fn get_child_nodes_opt<L: Log, S: ReadableStorageTraits + ListableStorageTraits>(
    log: &L,
    alloc: Global,
    storage: &S,
    path: &NodePath,
    recursive: bool,
    version: &MetadataRetrieveVersion,
) -> Result<Vec<Node>, NodeCreateError>
    ensures shows { IfOk result
        (λ nodes. Shows (forest nodes.items) path.now
        (Nodes (S.contents storage.now) version.now recursive path.now)) }
    ensures clean { IfOk result
        (λ _. HasNothingBad (S.contents storage.now) version.now recursive path.now) }
    ensures refused { IfErr result
        (IsExcusedOr (S.can_fail storage.now)
        (ShowsBad (S.contents storage.now) version.now recursive path.now)) }
{
    let listed = list_nodes(alloc, storage, path, recursive, version)?;
    warn_ignored(log, LISTING, &listed.ignored);
    Ok(listed.nodes)
}

/// Warns of each path that a walk passed over: in the name of the module, where the logging value has no target of its own.
///
/// Source: own; `zarrs::node::get_child_nodes_opt`.
pub fn warn_ignored<L: Log>(log: &L, module: &str, ignored: &[NodePath]) {
    let target = target_or(log, module);
    for path in ignored {
        warn!(log; target: target, "Object at {path} is not recognized as a component of a Zarr hierarchy. Ignoring.");
    }
}

/// All nodes below a path with their metadata, in the order of paths, by the documents of a version.
/// A path without documents is passed over with all below it, and warned of.
///
/// # Errors
///
/// The refusals of `get_child_nodes_opt`, recursive.
///
/// Source: `zarrs::node::get_all_nodes_of`.
pub fn get_all_nodes_of<L: Log, S: ReadableStorageTraits + ListableStorageTraits>(
    log: &L,
    alloc: Global,
    storage: &S,
    path: &NodePath,
    version: &MetadataRetrieveVersion,
) -> Result<Vec<(NodePath, NodeMetadata)>, NodeCreateError>
    ensures nodes { IfOk result
        (λ all. Lists (Nodes (S.contents storage.now) version.now true path.now) all.items) }
    ensures ascending { IfOk result (λ all. Ascend all.items) }
    ensures clean { IfOk result
        (λ _. HasNothingBad (S.contents storage.now) version.now true path.now) }
    ensures refused { IfErr result
        (IsExcusedOr (S.can_fail storage.now)
        (ShowsBad (S.contents storage.now) version.now true path.now)) }
{
    let mut all = Vec::new(alloc);
    let ignored = walk_nodes(alloc, storage, path, true, version, &mut all)?;
    warn_ignored(log, LISTING, &ignored);
    Ok(all)
}

/// The metadata of all nodes below a path as a block, each at its path relative to that path: its names beyond it, joined by slashes,
/// without a slash in front. The nodes are those that `get_all_nodes_of` answers, with its warnings. No metadata are copied.
///
/// # Errors
///
/// The refusals of `get_child_nodes_opt`, recursive.
///
/// Source: `zarrs::node::Node::consolidate_metadata`, of what `zarrs::node::get_all_nodes_of` answers.
#[tactic(auto, using(crate::proofs::blocks::ListedBlock::listed_below, crate::proofs::blocks::ListedBlock::listed_ascends))]
pub fn consolidate_nodes_of<L: Log, S: ReadableStorageTraits + ListableStorageTraits>(
    log: &L,
    alloc: Global,
    storage: &S,
    path: &NodePath,
    version: &MetadataRetrieveVersion,
) -> Result<ConsolidatedMetadataMetadata, NodeCreateError>
    ensures exact { IfOk result
        (IsBlockOf (Nodes (S.contents storage.now) version.now true path.now) path.now) }
    ensures ascending { IfOk result IsAscending }
    ensures clean { IfOk result
        (λ _. HasNothingBad (S.contents storage.now) version.now true path.now) }
    ensures refused { IfErr result
        (IsExcusedOr (S.can_fail storage.now)
        (ShowsBad (S.contents storage.now) version.now true path.now)) }
{
    let all = get_all_nodes_of(log, alloc, storage, path, version)?;
    let mut block = ConsolidatedMetadataMetadata::new(alloc);
    insert_pairs(alloc, path, all, &mut block)?;
    Ok(block)
}
