//! The nodes below a path.
ghost use Rattle.std.specs.Prelude.{IfOk, IfErr};
ghost use Rattle.zarrs_store.specs.Contents.{Lists};
ghost use Rattle.zarrs_meaning.specs.Refusals.{IsExcusedOr};
ghost use Rattle.zarrs_node.specs.Forest.{Shows, forest};
ghost use Rattle.zarrs_node.specs.Nodes.{Nodes, Ignored, ShowsBad, HasNothingBad};

use crate::build::build_ascending;
use crate::descent::walk_nodes;
use crate::node::Node;
use std::alloc::Global;
use zarrs_config::MetadataRetrieveVersion;
use zarrs_meaning::NodeCreateError;
use zarrs_path::NodePath;
use zarrs_store::{ListableStorageTraits, ReadableStorageTraits};

/// What a listing found below a path.
///
/// Source: `zarrs::node::get_child_nodes`, with what it warns of as a list.
/// <https://zarr-specs.readthedocs.io/en/latest/v3/core/index.html#hierarchy>
#[derive(Debug, Drop)]
pub struct ListedNodes {
    /// The nodes directly below the path, siblings ascending, each with those below it.
    pub nodes: Vec<Node>,
    /// The paths without documents that were passed over with all below them, each once.
    pub ignored: Vec<NodePath>,
}

/// The nodes below a path, siblings ascending, and the paths without documents that were passed over with all below them.
/// Where the listing is not recursive, it answers the nodes directly below the path, without children.
/// The path itself is not asked for a document.
///
/// # Errors
///
/// - `StorageError::InvalidMetadata` where a document on the way does not read, with its key and the fault.
/// - `MetadataVersionMismatch` where a document of version 2 stands at `zarr.json`.
/// - `StorageError::Other` with `invalid node path ` and the child's text where a child's name is made of periods only.
/// - `StorageError::Fault` of a store that can fail, and `OutOfMemory` when out of memory.
///
/// Source: `zarrs::node::get_child_nodes_opt`, without a logger.
pub fn list_nodes<S: ReadableStorageTraits + ListableStorageTraits>(
    alloc: Global,
    storage: &S,
    path: &NodePath,
    recursive: bool,
    version: &MetadataRetrieveVersion,
) -> Result<ListedNodes, NodeCreateError>
    ensures shows { IfOk result
        (λ l. Shows (forest l.nodes.items) path.now
        (Nodes (S.contents storage.now) version.now recursive path.now)) }
    ensures ignored { IfOk result
        (λ l. Lists (Ignored (S.contents storage.now) version.now recursive path.now)
        l.ignored.items) }
    ensures clean { IfOk result
        (λ _. HasNothingBad (S.contents storage.now) version.now recursive path.now) }
    ensures refused { IfErr result
        (IsExcusedOr (S.can_fail storage.now)
        (ShowsBad (S.contents storage.now) version.now recursive path.now)) }
{
    let mut pairs = Vec::new(alloc);
    let ignored = walk_nodes(alloc, storage, path, recursive, version, &mut pairs)?;
    let (nodes, _steps) = build_ascending(alloc, path, pairs)?;
    Ok(ListedNodes { nodes, ignored })
}
