//! Hierarchies of what a store has at a path and below it.
ghost use Rattle.std.specs.Prelude.{◌≡◌, ◌∷◌, [], true, IfOk, IfErr, OnOk};
ghost use Rattle.zarrs_path.specs.Paths.{path_text};
ghost use Rattle.zarrs_meta.specs.declared.node.NodeMetadata.TheVariants.{Group as group_node};
ghost use Rattle.zarrs_meaning.specs.Refusals.{IsExcusedOr};
ghost use Rattle.zarrs_block.specs.Policy.{as_choice};
ghost use Rattle.zarrs_node.specs.Nodes.{Nodes, ShowsBad, HasNothingBad};
ghost use Rattle.zarrs_node.specs.OpeningNodes.{IsCleanChosen, PassesOver, RefusesChosen, RefusesOpening};
ghost use Rattle.zarrs_hierarchy.specs.PairsOfHierarchies.{Holds, WithBase};
ghost use Rattle.zarrs_node.specs.Sinks.{TakesAll};
ghost use Rattle.zarrs_store.specs.Contents.{Lists};
ghost use Rattle.zarrs_hierarchy.specs.OpeningHierarchies.{PairsChosen, IsOpened, ListsPassed};
ghost use Rattle.zarrs_hierarchy.specs.Sinks.{TakesOpened};
ghost use Rattle.zarrs_hierarchy.specs.StepsOfHierarchies.{TakesPairs};

use crate::hierarchy::{Hierarchy, HierarchyCreateError};
use log::Log;
use std::alloc::{AllocError, Global};
use zarrs_block::{ConsolidatedMetadata, expand_consolidated_metadata};
use zarrs_config::{Config, MetadataRetrieveVersion};
use zarrs_group::Group;
use zarrs_meta::NodeMetadata;
use zarrs_node::{LISTING, Node, NodeSink, consolidated_metadata_at, walk_nodes, warn_ignored};
use zarrs_path::NodePath;
use zarrs_store::{ListableStorageTraits, ReadableStorageTraits};

impl Hierarchy {
    /// The hierarchy at a path, by the documents of version 3 and where there is none by those of version 2.
    ///
    /// # Errors
    ///
    /// The refusals of [`Hierarchy::open_opt`].
    ///
    /// Source: `zarrs::hierarchy::Hierarchy::open`.
    pub fn open<L: Log, S: ReadableStorageTraits + ListableStorageTraits>(
        log: &L,
        alloc: Global,
        storage: &S,
        path: &str,
        config: &Config,
    ) -> Result<Hierarchy, HierarchyCreateError>
        ensures opened { IfOk result
            (IsOpened (S.contents storage.now) MetadataRetrieveVersion.Default
            config.now.use_consolidated path.now) }
        ensures refused { IfErr result
            (IsExcusedOr (S.can_fail storage.now)
            (RefusesOpening (S.contents storage.now) MetadataRetrieveVersion.Default
            config.now.use_consolidated path.now)) }
    {
        Hierarchy::open_opt(
            log,
            alloc,
            storage,
            path,
            &MetadataRetrieveVersion::Default,
            config,
        )
    }

    /// The hierarchy at a path, by the documents of a version: the node at the path, and for a group all entries of the consolidated
    /// block that its metadata hold, where the configuration has it used, and else the nodes that a listing finds, which warns of each
    /// path without documents that it passes over. Where a block is used, nothing below the path is looked at. Documents and the block are
    /// read in the numbers of the store.
    ///
    /// # Errors
    ///
    /// The first that applies:
    ///
    /// - `NodePathError` with the text where it is that of no path.
    /// - `MissingMetadata` with the path's text where no document stands at the path.
    /// - `StorageError::InvalidMetadata` where a document of the path does not read, with its key and the fault, and
    ///   `MetadataVersionMismatch` where one of version 2 stands at `zarr.json`.
    /// - `MissingMetadata` that names the path where a group has no block that reads and the configuration demands one.
    /// - `NodePathError` where a key of the block is no relative path.
    /// - The refusals of `zarrs_node::get_all_nodes_of` where the nodes are listed.
    ///
    /// In the place of each of these, and of a hierarchy, `StorageError::Fault` of a store that can fail, and `OutOfMemory` where
    /// there is no memory.
    ///
    /// Source: `zarrs::hierarchy::Hierarchy::open_opt`.
    pub fn open_opt<L: Log, S: ReadableStorageTraits + ListableStorageTraits>(
        log: &L,
        alloc: Global,
        storage: &S,
        path: &str,
        version: &MetadataRetrieveVersion,
        config: &Config,
    ) -> Result<Hierarchy, HierarchyCreateError>
        ensures opened { IfOk result
            (IsOpened (S.contents storage.now) version.now config.now.use_consolidated path.now) }
        ensures refused { IfErr result
            (IsExcusedOr (S.can_fail storage.now)
            (RefusesOpening (S.contents storage.now) version.now config.now.use_consolidated
            path.now)) }
    {
        let path = NodePath::new(alloc, path)?;
        let mut nodes = Vec::new(alloc);
        let ignored = walk_hierarchy(alloc, storage, &path, version, config, &mut nodes)?;
        warn_ignored(log, LISTING, &ignored);
        Ok(Hierarchy { nodes })
    }

    /// The hierarchy of a group and of the nodes that a listing finds below it, by the documents of version 3 and where there is none
    /// by those of version 2. No consolidated block is consulted.
    ///
    /// # Errors
    ///
    /// The refusals of `zarrs_node::get_all_nodes_of`.
    ///
    /// Source: `zarrs::hierarchy::Hierarchy::try_from_group`.
    pub fn try_from_group<L: Log, S: ReadableStorageTraits + ListableStorageTraits>(
        log: &L,
        alloc: Global,
        group: &Group,
        storage: &S,
    ) -> Result<Hierarchy, HierarchyCreateError>
        ensures pairs { IfOk result
            (λ hierarchy.
            Holds hierarchy
            (WithBase group.now.path (group_node group.now.metadata)
            (Nodes (S.contents storage.now) MetadataRetrieveVersion.Default true
            group.now.path))) }
        ensures clean { IfOk result
            (λ _. HasNothingBad (S.contents storage.now) MetadataRetrieveVersion.Default true
            group.now.path) }
        ensures refused { IfErr result
            (IsExcusedOr (S.can_fail storage.now)
            (ShowsBad (S.contents storage.now) MetadataRetrieveVersion.Default true
            group.now.path)) }
    {
        let base = group.path();
        let version = MetadataRetrieveVersion::Default;
        let metadata = group.metadata().try_clone(alloc)?;
        let mut nodes = base_alone(alloc, base, NodeMetadata::Group(metadata))?;
        let ignored = walk_nodes(alloc, storage, base, true, &version, &mut nodes)?;
        warn_ignored(log, LISTING, &ignored);
        Ok(Hierarchy { nodes })
    }
}

/// Hands what [`Hierarchy::open_opt`] finds at a path to a sink: the node at the path first, then the nodes below it in the order of paths, each when it
/// is read. No hierarchy is made. It answers the paths without documents that were passed over where the store is listed, and warns of none. After an
/// error the sink may have taken some nodes.
///
/// # Errors
///
/// The refusals of [`Hierarchy::open_opt`], but for those of the path's text.
///
/// Source: own; `zarrs::hierarchy::Hierarchy::open_opt`.
#[tactic(auto, using(crate::proofs::OpenedPairs::group_refused))]
pub fn walk_hierarchy<S: ReadableStorageTraits + ListableStorageTraits, K: NodeSink>(
    alloc: Global,
    storage: &S,
    path: &NodePath,
    version: &MetadataRetrieveVersion,
    config: &Config,
    sink: &mut K,
) -> Result<Vec<NodePath>, HierarchyCreateError>
    ensures takes { IfOk result
        (λ _. TakesOpened K.takes sink.old sink.new
        (S.contents storage.now) version.now config.now.use_consolidated path.now) }
    ensures ignored { IfOk result
        (λ ignored. ListsPassed
        (S.contents storage.now) version.now config.now.use_consolidated path.now ignored.items) }
    ensures refused { IfErr result
        (IsExcusedOr (S.can_fail storage.now)
        (RefusesOpening (S.contents storage.now) version.now config.now.use_consolidated
        (path_text path.now))) }
{
    let _valid = path.as_str();
    let metadata = Node::get_metadata(alloc, storage, path, version)?;
    let own_path = path.try_clone(alloc)?;
    if !metadata.is_group() {
        sink.take(own_path, metadata)?;
        return Ok(Vec::new(alloc));
    }
    let policy = config.use_consolidated_metadata();
    let block = consolidated_metadata_at(alloc, storage, path, &metadata, policy)?;
    sink.take(own_path, metadata)?;
    walk_below(alloc, storage, path, version, block, sink)
}

// Hands the nodes below a group to a sink, in the order of paths: the entries of the block that is used, or where none is, the nodes that a
// listing finds. It answers the paths that the listing passed over.
pub(crate) fn walk_below<S: ReadableStorageTraits + ListableStorageTraits, K: NodeSink>(
    alloc: Global,
    storage: &S,
    path: &NodePath,
    version: &MetadataRetrieveVersion,
    block: Option<ConsolidatedMetadata>,
    sink: &mut K,
) -> Result<Vec<NodePath>, HierarchyCreateError>
    ensures takes { IfOk result
        (λ _. TakesPairs K.takes sink.old sink.new
        (PairsChosen (S.contents storage.now) version.now (as_choice block) path.now)) }
    ensures ignored { IfOk result
        (λ ignored. Lists
        (PassesOver (S.contents storage.now) version.now (as_choice block) path.now)
        ignored.items) }
    ensures clean { IfOk result
        (λ _. IsCleanChosen (S.contents storage.now) version.now (as_choice block) true
        path.now) }
    ensures refused { IfErr result
        (IsExcusedOr (S.can_fail storage.now)
        (RefusesChosen (S.contents storage.now) version.now (as_choice block) true path.now)) }
{
    match block {
        Some(block) => {
            let entries = expand_consolidated_metadata(alloc, path, block)?;
            tell_all(entries, sink)?;
            Ok(Vec::new(alloc))
        }
        None => walk_nodes(alloc, storage, path, true, version, sink),
    }
}

// Hands nodes to a sink, one after another.
fn tell_all<K: NodeSink>(
    nodes: Vec<(NodePath, NodeMetadata)>,
    sink: &mut K,
) -> Result<(), AllocError>
    ensures { OnOk result (TakesAll K.takes sink.old nodes.items sink.new) }
{
    for (path, metadata) in nodes {
        sink.take(path, metadata)?;
    }
    Ok(())
}

// A path with its metadata.
fn base_alone(
    alloc: Global,
    path: &NodePath,
    metadata: NodeMetadata,
) -> Result<Vec<(NodePath, NodeMetadata)>, AllocError>
    ensures { IfOk result (λ nodes. nodes.items ≡ (path.now, metadata) ∷ []) }
{
    let mut nodes = Vec::new(alloc);
    nodes.push((path.try_clone(alloc)?, metadata))?;
    Ok(nodes)
}
