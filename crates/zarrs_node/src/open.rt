//! Opening a node of a store.
ghost use Rattle.std.specs.Prelude.{◌≡◌, true, IfOk, IfErr};
ghost use Rattle.zarrs_path.specs.Paths.{path_text};
ghost use Rattle.zarrs_meaning.specs.Refusals.{IsExcusedOr};
ghost use Rattle.zarrs_meaning.specs.Meaning.{meaning, node};
ghost use Rattle.zarrs_block.specs.Block.{Entries, HasValidKeys};
ghost use Rattle.zarrs_block.specs.BlockExpansion.{RefusesKeys};
ghost use Rattle.zarrs_node.specs.Forest.{Shows, forest, path_of, metadata_of, HasPlacedChildren};
ghost use Rattle.zarrs_node.specs.Reach.{Kept};
ghost use Rattle.zarrs_node.specs.OpeningNodes.{choice, ShowsChosen, IsCleanChosen, RefusesChosen, ShowsNode, IsCleanNode, RefusesOpening};

use crate::build::{build_ascending, direct_children_from_flat};
use crate::children::{LISTING, warn_ignored};
use crate::listing::{ListedNodes, list_nodes};
use crate::node::Node;
use crate::zmetadata::consolidated_metadata_at;
use log::Log;
use std::alloc::Global;
use zarrs_block::{ConsolidatedMetadata, expand_consolidated_metadata};
use zarrs_config::{Config, MetadataRetrieveVersion};
use zarrs_meaning::NodeCreateError;
use zarrs_meta::NodeMetadata;
use zarrs_path::NodePath;
use zarrs_store::{ListableStorageTraits, ReadableStorageTraits};

impl Node {
    /// The node at a path with all below it, by the documents of version 3 and where there is none by those of version 2.
    ///
    /// # Errors
    ///
    /// The refusals of [`Node::open_opt`].
    ///
    /// Source: `zarrs::node::Node::open`.
    pub fn open<L: Log, S: ReadableStorageTraits + ListableStorageTraits>(
        log: &L,
        alloc: Global,
        storage: &S,
        path: &str,
        config: &Config,
    ) -> Result<Node, NodeCreateError>
        ensures path { IfOk result (λ made. path_text (path_of made) ≡ path.now) }
        ensures means { IfOk result
            (λ made. meaning (S.contents storage.now) MetadataRetrieveVersion.Default (path_of made)
            ≡ node (metadata_of made)) }
        ensures shows { IfOk result
            (ShowsNode (S.contents storage.now) MetadataRetrieveVersion.Default
            config.now.use_consolidated) }
        ensures clean { IfOk result
            (IsCleanNode (S.contents storage.now) MetadataRetrieveVersion.Default
            config.now.use_consolidated) }
        ensures placed { IfOk result HasPlacedChildren }
        ensures refused { IfErr result
            (IsExcusedOr (S.can_fail storage.now)
            (RefusesOpening (S.contents storage.now) MetadataRetrieveVersion.Default
            config.now.use_consolidated path.now)) }
    {
        Node::open_opt(
            log,
            alloc,
            storage,
            path,
            &MetadataRetrieveVersion::Default,
            config,
        )
    }

    /// The node at a path with all below it, by the documents of a version. An array has no children. Those of a group come from its
    /// consolidated block, where the configuration has it used, and else from a listing, which warns of each path without documents that
    /// it passes over. The block of a version 3 group stands in its metadata, that of a version 2 group in the document `.zmetadata`
    /// beside it. Where a block is used, nothing else below the path is looked at.
    ///
    /// # Errors
    ///
    /// The first that applies:
    ///
    /// - `NodePathError` with the text where it is that of no path.
    /// - `MissingMetadata` with the path's text where no document stands at the path.
    /// - `StorageError::InvalidMetadata` where a document of the path does not read, with its key and the fault, and
    ///   `MetadataVersionMismatch` where one of version 2 stands at `zarr.json`.
    /// - `MissingMetadata` that names the path where a group has no block that reads and the configuration demands one.
    /// - `NodePathError` where a key of the block is no relative path.
    /// - The refusals of `get_child_nodes_opt`, recursive, where the children are listed.
    ///
    /// In the place of each of these, and of a node, `StorageError::Fault` of a store that can fail, and `OutOfMemory` when out of
    /// memory.
    ///
    /// Source: `zarrs::node::Node::open_opt`.
    pub fn open_opt<L: Log, S: ReadableStorageTraits + ListableStorageTraits>(
        log: &L,
        alloc: Global,
        storage: &S,
        path: &str,
        version: &MetadataRetrieveVersion,
        config: &Config,
    ) -> Result<Node, NodeCreateError>
        ensures path { IfOk result (λ made. path_text (path_of made) ≡ path.now) }
        ensures means { IfOk result
            (λ made. meaning (S.contents storage.now) version.now (path_of made)
            ≡ node (metadata_of made)) }
        ensures shows { IfOk result
            (ShowsNode (S.contents storage.now) version.now config.now.use_consolidated) }
        ensures clean { IfOk result
            (IsCleanNode (S.contents storage.now) version.now config.now.use_consolidated) }
        ensures placed { IfOk result HasPlacedChildren }
        ensures refused { IfErr result
            (IsExcusedOr (S.can_fail storage.now)
            (RefusesOpening (S.contents storage.now) version.now config.now.use_consolidated
            path.now)) }
    {
        let path = NodePath::new(alloc, path)?;
        let metadata = Node::get_metadata(alloc, storage, &path, version)?;
        if !metadata.is_group() {
            return Ok(Node::new_with_metadata(path, metadata, Vec::new(alloc)));
        }
        let below = nodes_below(alloc, storage, &path, &metadata, version, config)?;
        warn_ignored(log, LISTING, &below.ignored);
        Ok(Node::new_with_metadata(path, metadata, below.nodes))
    }
}

// The nodes below the path of a group with these metadata, by its block or by a listing, and the paths that a listing passed over.
#[tactic(auto, using(crate::proofs::OpenedNodes::block_excused))]
fn nodes_below<S: ReadableStorageTraits + ListableStorageTraits>(
    alloc: Global,
    storage: &S,
    path: &NodePath,
    metadata: &NodeMetadata,
    version: &MetadataRetrieveVersion,
    config: &Config,
) -> Result<ListedNodes, NodeCreateError>
    ensures shows { IfOk result
        (λ below. ShowsChosen (S.contents storage.now) version.now
        (choice (S.contents storage.now) config.now.use_consolidated path.now metadata.now) true
        path.now (forest below.nodes.items)) }
    ensures clean { IfOk result
        (λ _. IsCleanChosen (S.contents storage.now) version.now
        (choice (S.contents storage.now) config.now.use_consolidated path.now metadata.now) true
        path.now) }
    ensures refused { IfErr result
        (IsExcusedOr (S.can_fail storage.now)
        (RefusesChosen (S.contents storage.now) version.now (choice (S.contents storage.now)
        config.now.use_consolidated path.now metadata.now) true path.now)) }
{
    let policy = config.use_consolidated_metadata();
    match consolidated_metadata_at(alloc, storage, path, metadata, policy)? {
        Some(block) => Ok(ListedNodes {
            nodes: nodes_of_block(alloc, path, block, true)?,
            ignored: Vec::new(alloc),
        }),
        None => list_nodes(alloc, storage, path, true, version),
    }
}

/// The nodes below a path that a block holds, siblings ascending: those between which and the path all are groups of the block. Or those
/// directly below the path, without children. The pairs of a block ascend once they are expanded, and are not sorted for their trees.
///
/// # Errors
///
/// - `NodePathError` where a key of the block is no relative path.
/// - `OutOfMemory` when out of memory.
///
/// Source: own; `zarrs::group::Group::children` makes them of the expanded pairs.
pub fn nodes_of_block(
    alloc: Global,
    path: &NodePath,
    block: ConsolidatedMetadata,
    recursive: bool,
) -> Result<Vec<Node>, NodeCreateError>
    ensures shows { IfOk result
        (λ nodes. Shows (forest nodes.items) path.now
        (Kept (Entries block.metadata path.now) recursive path.now)) }
    ensures keys { IfOk result (λ _. HasValidKeys block.metadata) }
    ensures err { IfErr result (RefusesKeys block.metadata) }
{
    let pairs = expand_consolidated_metadata(alloc, path, block)?;
    if recursive {
        let (nodes, _steps) = build_ascending(alloc, path, pairs)?;
        Ok(nodes)
    } else {
        Ok(direct_children_from_flat(alloc, path, pairs)?)
    }
}
