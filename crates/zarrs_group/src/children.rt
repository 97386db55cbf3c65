//! The nodes below a group, by its consolidated block or by a listing.
ghost use Rattle.std.specs.Prelude.{◌≡◌, Some, List, ◌∷◌, ◌++◌, [], map, filter, not, IfOk, IfErr, OnOk, ◌⊎◌, true, false};
ghost use Rattle.zarrs_path.specs.Paths.{Path};
ghost use Rattle.zarrs_meta.specs.Node.{is_group};
ghost use Rattle.zarrs_meta.specs.declared.node.NodeMetadata.{NodeMetadata as Metadata};
ghost use Rattle.zarrs_block.specs.Policy.{as_choice, RefusesUse};
ghost use Rattle.zarrs_block.specs.Block.{Entries, HasValidKeys};
ghost use Rattle.zarrs_block.specs.BlockExpansion.{RefusesKeys};
ghost use Rattle.zarrs_node.specs.Forest.{Shows, forest, path_of, metadata_of};
ghost use Rattle.zarrs_node.specs.Reach.{Kept};
ghost use Rattle.zarrs_group.specs.Children.{block_choice, ShowsChildren, ListsNodes, AreChildren, HasCleanChildren, RefusesChildren, RefusesGroups, groups_of, with_group};

use crate::create_error::GroupCreateError;
use crate::group::Group;
use log::Log;
use std::alloc::{AllocError, Global};
use zarrs_block::{
    ConsolidatedMetadata, expand_consolidated_metadata, resolve_consolidated_policy,
};
use zarrs_config::{Config, MetadataRetrieveVersion, UseConsolidatedMetadata};
use zarrs_meaning::NodeCreateError;
use zarrs_meta::NodeMetadata;
use zarrs_node::{Node, get_all_nodes_of, get_child_nodes, nodes_of_block};
use zarrs_path::NodePath;
use zarrs_store::{ListableStorageTraits, Numbers, ReadableStorageTraits};

impl Group {
    /// The nodes below the group, siblings ascending: by its consolidated block where the configuration has it used, and else by a listing of
    /// the store, which warns of each path without documents that it passes over. Where it is not recursive, the nodes directly below the
    /// group, without children. Where a block is used, no key of the store is looked at. The block of a version 3 group is read in the numbers
    /// of the store, so that over `AnyNumbers` it may be one where [`Group::consolidated_metadata`] has none.
    ///
    /// # Errors
    ///
    /// The first that applies:
    ///
    /// - `MissingMetadata` that names the group's path where it holds no block and the configuration demands one.
    /// - `NodePathError` where a key of the block is no relative path.
    /// - The refusals of `get_child_nodes_opt` where the store is listed.
    ///
    /// In the place of each of these, and of the nodes, `OutOfMemory` when out of memory, and, where the store is listed and can fail, its
    /// `StorageError::Fault`.
    ///
    /// Source: `zarrs::group::Group::children`.
    pub fn children<L: Log, S: ReadableStorageTraits + ListableStorageTraits>(
        &self,
        log: &L,
        alloc: Global,
        storage: &S,
        config: &Config,
        recursive: bool,
    ) -> Result<Vec<Node>, NodeCreateError>
        ensures shows { IfOk result
            (λ nodes. ShowsChildren (S.contents storage.now) self.now config.now recursive
            (forest nodes.items)) }
        ensures clean { IfOk result
            (λ _. HasCleanChildren (S.contents storage.now) self.now config.now recursive) }
        ensures refused { IfErr result
            (RefusesChildren (S.can_fail storage.now)
            (S.contents storage.now) self.now config.now recursive) }
    {
        match self.used_block(alloc, storage.numbers(), config)? {
            Some(block) => nodes_of_block(alloc, self.path(), block, recursive),
            None => get_child_nodes(log, alloc, storage, self.path(), recursive),
        }
    }

    /// All that stands below the group, each path once with its metadata, in any order: all entries of its consolidated block where the
    /// configuration has it used, also those that stand below no group, and else the nodes that a listing of the store finds. It warns of each
    /// path without documents that the listing passes over.
    ///
    /// # Errors
    ///
    /// Those of [`Group::children`], recursive.
    ///
    /// Source: `zarrs::group::Group::traverse`.
    pub fn traverse<L: Log, S: ReadableStorageTraits + ListableStorageTraits>(
        &self,
        log: &L,
        alloc: Global,
        storage: &S,
        config: &Config,
    ) -> Result<Vec<(NodePath, NodeMetadata)>, NodeCreateError>
        ensures nodes { IfOk result
            (λ all. ListsNodes (S.contents storage.now) self.now config.now all.items) }
        ensures clean { IfOk result
            (λ _. HasCleanChildren (S.contents storage.now) self.now config.now true) }
        ensures refused { IfErr result
            (RefusesChildren (S.can_fail storage.now)
            (S.contents storage.now) self.now config.now true) }
    {
        match self.used_block(alloc, storage.numbers(), config)? {
            Some(block) => expand_consolidated_metadata(alloc, self.path(), block),
            None => get_all_nodes_of(
                log,
                alloc,
                storage,
                self.path(),
                &MetadataRetrieveVersion::Default,
            ),
        }
    }

    /// The groups among the children, ascending, each as `new_with_metadata` makes it.
    ///
    /// # Errors
    ///
    /// Those of [`Group::children`], not recursive, as [`GroupCreateError::from_node_error`] makes them.
    ///
    /// Source: `zarrs::group::Group::child_groups`.
    pub fn child_groups<L: Log, S: ReadableStorageTraits + ListableStorageTraits>(
        &self,
        log: &L,
        alloc: Global,
        storage: &S,
        config: &Config,
    ) -> Result<Vec<Group>, GroupCreateError>
        ensures groups { IfOk result
            (λ groups. (es : List (Path × Metadata))
            × AreChildren (S.contents storage.now) self.now config.now es
            × (groups.items ≡ groups_of config.now es)) }
        ensures clean { IfOk result
            (λ _. HasCleanChildren (S.contents storage.now) self.now config.now false) }
        ensures refused { IfErr result
            (RefusesGroups (S.can_fail storage.now) (S.contents storage.now) self.now config.now) }
    {
        match self.children(log, alloc, storage, config, false) {
            Ok(nodes) => Ok(groups_among(alloc, nodes, config)?),
            Err(error) => Err(GroupCreateError::from_node_error(alloc, error)),
        }
    }

    /// The paths of the children, ascending.
    ///
    /// # Errors
    ///
    /// Those of [`Group::children`], not recursive.
    ///
    /// Source: `zarrs::group::Group::child_paths`.
    pub fn child_paths<L: Log, S: ReadableStorageTraits + ListableStorageTraits>(
        &self,
        log: &L,
        alloc: Global,
        storage: &S,
        config: &Config,
    ) -> Result<Vec<NodePath>, NodeCreateError>
        ensures paths { IfOk result
            (λ paths. (es : List (Path × Metadata))
            × AreChildren (S.contents storage.now) self.now config.now es
            × (paths.items ≡ map (λ e. e.0) es)) }
        ensures clean { IfOk result
            (λ _. HasCleanChildren (S.contents storage.now) self.now config.now false) }
        ensures refused { IfErr result
            (RefusesChildren (S.can_fail storage.now)
            (S.contents storage.now) self.now config.now false) }
    {
        let nodes = self.children(log, alloc, storage, config, false)?;
        Ok(paths_of(alloc, nodes)?)
    }

    /// The paths of the groups among the children, ascending.
    ///
    /// # Errors
    ///
    /// Those of [`Group::children`], not recursive.
    ///
    /// Source: `zarrs::group::Group::child_group_paths`.
    pub fn child_group_paths<L: Log, S: ReadableStorageTraits + ListableStorageTraits>(
        &self,
        log: &L,
        alloc: Global,
        storage: &S,
        config: &Config,
    ) -> Result<Vec<NodePath>, NodeCreateError>
        ensures paths { IfOk result
            (λ paths. (es : List (Path × Metadata))
            × AreChildren (S.contents storage.now) self.now config.now es
            × (paths.items ≡ map (λ e. e.0) (filter (λ e. is_group e.1) es))) }
        ensures clean { IfOk result
            (λ _. HasCleanChildren (S.contents storage.now) self.now config.now false) }
        ensures refused { IfErr result
            (RefusesChildren (S.can_fail storage.now)
            (S.contents storage.now) self.now config.now false) }
    {
        let nodes = self.children(log, alloc, storage, config, false)?;
        Ok(group_paths_of(alloc, nodes)?)
    }

    /// The paths of the arrays among the children, ascending.
    ///
    /// # Errors
    ///
    /// Those of [`Group::children`], not recursive.
    ///
    /// Source: `zarrs::group::Group::child_array_paths`.
    pub fn child_array_paths<L: Log, S: ReadableStorageTraits + ListableStorageTraits>(
        &self,
        log: &L,
        alloc: Global,
        storage: &S,
        config: &Config,
    ) -> Result<Vec<NodePath>, NodeCreateError>
        ensures paths { IfOk result
            (λ paths. (es : List (Path × Metadata))
            × AreChildren (S.contents storage.now) self.now config.now es
            × (paths.items ≡ map (λ e. e.0) (filter (λ e. not (is_group e.1)) es))) }
        ensures clean { IfOk result
            (λ _. HasCleanChildren (S.contents storage.now) self.now config.now false) }
        ensures refused { IfErr result
            (RefusesChildren (S.can_fail storage.now)
            (S.contents storage.now) self.now config.now false) }
    {
        let nodes = self.children(log, alloc, storage, config, false)?;
        Ok(array_paths_of(alloc, nodes)?)
    }

    // The block that is used of the group, read in these numbers. Under `Never` its metadata are not looked at.
    fn used_block(
        &self,
        alloc: Global,
        numbers: Numbers,
        config: &Config,
    ) -> Result<Option<ConsolidatedMetadata>, NodeCreateError>
        ensures ok { IfOk result
            (λ block. block_choice numbers self.now config.now ≡ as_choice block) }
        ensures err { IfErr result
            (λ e. RefusesUse self.now.path (block_choice numbers self.now config.now) e
            ⊎ (e ≡ NodeCreateError.OutOfMemory)) }
    {
        let policy = config.use_consolidated_metadata();
        if let UseConsolidatedMetadata::Never = policy {
            return Ok(None);
        }
        let block = self.consolidated_metadata_in(alloc, numbers)?;
        resolve_consolidated_policy(alloc, self.path(), block, policy)
    }
}

// The groups among nodes, in their order, with the choices of a configuration.
fn groups_among(alloc: Global, nodes: Vec<Node>, config: &Config) -> Result<Vec<Group>, AllocError>
    ensures { IfOk result
        (λ groups. groups.items
        ≡ groups_of config.now (map (λ n. (path_of n, metadata_of n)) nodes.items)) }
{
    let mut groups = Vec::new(alloc);
    for node in nodes {
        let path = node.path().try_clone(alloc)?;
        push_group(&mut groups, path, NodeMetadata::from(node), config)?;
    }
    Ok(groups)
}

// Adds the group at a path behind the others, where the metadata are a group's.
#[tactic(auto, using(crate::proofs::Together::nothing_more))]
fn push_group(
    groups: &mut Vec<Group>,
    path: NodePath,
    metadata: NodeMetadata,
    config: &Config,
) -> Result<(), AllocError>
    ensures { OnOk result
        (groups.new.items ≡ groups.old.items ++ with_group config.now path metadata []) }
{
    match metadata {
        NodeMetadata::Group(metadata) => {
            let group = Group::with_choices(path, metadata, None, config);
            Ok(groups.push(group)?)
        }
        NodeMetadata::Array(_) => Ok(()),
    }
}

// The paths of nodes, in their order.
fn paths_of(alloc: Global, nodes: Vec<Node>) -> Result<Vec<NodePath>, AllocError>
    ensures { IfOk result (λ paths. paths.items ≡ map path_of nodes.items) }
{
    nodes
        .into_iter()
        .map(|node| NodePath::from(node))
        .collect(alloc)
}

// The paths of the groups among nodes, in their order.
fn group_paths_of(alloc: Global, nodes: Vec<Node>) -> Result<Vec<NodePath>, AllocError>
    ensures { IfOk result
        (λ paths. paths.items ≡ map path_of (filter (λ n. is_group (metadata_of n)) nodes.items)) }
{
    nodes
        .into_iter()
        .filter(|node| node.metadata().is_group())
        .map(|node| NodePath::from(node))
        .collect(alloc)
}

// The paths of the arrays among nodes, in their order.
fn array_paths_of(alloc: Global, nodes: Vec<Node>) -> Result<Vec<NodePath>, AllocError>
    ensures { IfOk result
        (λ paths. paths.items
        ≡ map path_of (filter (λ n. not (is_group (metadata_of n))) nodes.items)) }
{
    nodes
        .into_iter()
        .filter(|node| !node.metadata().is_group())
        .map(|node| NodePath::from(node))
        .collect(alloc)
}
