//! A block made current where the documents of one path changed.
ghost use Rattle.std.specs.Prelude.{◌≡◌, ◌↔◌, ◌∷◌, IfOk, IfErr, OnOk, IsTrue};
ghost use Rattle.zarrs_store.specs.Contents.{Lists};
ghost use Rattle.zarrs_path.specs.Paths.{IsBelow, IsPath, Path, without_leading_slash};
ghost use Rattle.zarrs_block.specs.Block.{Entries, IsAscending};
ghost use Rattle.zarrs_meaning.specs.Refusals.{IsExcusedOr};
ghost use Rattle.zarrs_meaning.specs.Meaning.{meaning};
ghost use Rattle.zarrs_node.specs.Reach.{HasGroup};
ghost use Rattle.zarrs_node.specs.BlocksOfNodes.{text_beyond};
ghost use Rattle.zarrs_node.specs.StepsOfBlocks.{ArePairsBelow, put_all};
ghost use Rattle.zarrs_node.specs.CurrentBlocks.{LeadsTo, IsNewPair, IsFresh, BadAnew, ShowsBadAnew};

use crate::consolidate::text_beyond;
use crate::descent::walk_nodes;
use std::alloc::{AllocError, Global};
use zarrs_block::ConsolidatedMetadataMetadata;
use zarrs_config::MetadataRetrieveVersion;
use zarrs_meaning::{NodeCreateError, metadata_at};
use zarrs_meta::NodeMetadata;
use zarrs_path::{NodePath, without_leading_slash};
use zarrs_store::{ListableStorageTraits, ReadableStorageTraits};

/// The block of a group, made current where the documents of one path below the group changed: without what it has at the path and
/// below it, in either spelling of the keys, and where it has a group at each path between, with the node that the store has at the
/// path now and with all below it. Nothing else of the store is looked at, and each other key stays, also one that is no path's.
///
/// # Errors
///
/// Where the block has a group at each path between the group's and the path:
///
/// - `StorageError::InvalidMetadata` where a document of the path, or on the way below it, does not read, with its key and the fault.
/// - `MetadataVersionMismatch` where a document of version 2 stands at `zarr.json` there.
/// - `StorageError::Other` where a name below the path is made of periods only.
/// - `StorageError::Fault` of a store that can fail.
///
/// And `OutOfMemory` when out of memory.
///
/// Source: own.
pub fn refresh_block<S: ReadableStorageTraits + ListableStorageTraits>(
    alloc: Global,
    storage: &S,
    base: &NodePath,
    version: &MetadataRetrieveVersion,
    block: &ConsolidatedMetadataMetadata,
    path: &NodePath,
) -> Result<ConsolidatedMetadataMetadata, NodeCreateError>
    requires below { IsBelow base.now path.now }
    ensures fresh { IfOk result
        (IsFresh (meaning (S.contents storage.now) version.now) base.now block.now path.now) }
    ensures ascending { IfOk result IsAscending }
    ensures clean { IfOk result
        (λ _. LeadsTo block.now base.now path.now
        → BadAnew (S.contents storage.now) version.now path.now → ⊥) }
    ensures refused { IfErr result
        (IsExcusedOr (S.can_fail storage.now)
        (λ e. (LeadsTo block.now base.now path.now
        × ShowsBadAnew (S.contents storage.now) version.now path.now e))) }
{
    let copy = block.try_clone(alloc)?;
    refresh_owned_block(alloc, storage, base, version, copy, path)
}

/// The block of a group, made current as [`refresh_block`] makes it, and changed in its place: what stays is not copied, so the call
/// takes the time of what is read anew and of what goes. After an error the block is gone.
///
/// # Errors
///
/// As [`refresh_block`].
///
/// Source: own.
pub fn refresh_owned_block<S: ReadableStorageTraits + ListableStorageTraits>(
    alloc: Global,
    storage: &S,
    base: &NodePath,
    version: &MetadataRetrieveVersion,
    mut block: ConsolidatedMetadataMetadata,
    path: &NodePath,
) -> Result<ConsolidatedMetadataMetadata, NodeCreateError>
    requires below { IsBelow base.now path.now }
    ensures fresh { IfOk result
        (IsFresh (meaning (S.contents storage.now) version.now) base.now block path.now) }
    ensures ascending { IfOk result IsAscending }
    ensures clean { IfOk result
        (λ _. LeadsTo block base.now path.now
        → BadAnew (S.contents storage.now) version.now path.now → ⊥) }
    ensures refused { IfErr result
        (IsExcusedOr (S.can_fail storage.now)
        (λ e. (LeadsTo block base.now path.now
        × ShowsBadAnew (S.contents storage.now) version.now path.now e))) }
{
    let renewed = if leads_to(alloc, &block, base, path)? {
        read_anew(alloc, storage, path, version)?
    } else {
        Vec::new(alloc)
    };
    block.remove_below(alloc, text_beyond(base, path))?;
    insert_pairs(alloc, base, renewed, &mut block)?;
    Ok(block)
}

// Whether the block has a group at each path between the base and a path below it.
fn leads_to(
    alloc: Global,
    block: &ConsolidatedMetadataMetadata,
    base: &NodePath,
    path: &NodePath,
) -> Result<bool, AllocError>
    requires below { IsBelow base.now path.now }
    ensures leads { IfOk result (λ leads. IsTrue leads ↔ LeadsTo block.now base.now path.now) }
{
    let key = text_beyond(base, path);
    let rooted = format!(in alloc; "/{key}")?;
    let mut left = rooted.as_str();
    while let Some((above, _name)) = left.rsplit_once('/') {
        if above.is_empty() {
            return Ok(true);
        }
        if !has_group(block, above) {
            return Ok(false);
        }
        left = above;
    }
    Ok(true)
}

// Whether the entry at a key, which is given with a slash in front, is a group.
fn has_group(block: &ConsolidatedMetadataMetadata, rooted: &str) -> bool
    ensures { (b p : Path) → IsPath p → IsBelow b p → rooted.now ≡ 47 ∷ text_beyond b p
        → IsTrue result ↔ HasGroup (Entries block.now b) p }
{
    let key = without_leading_slash(rooted);
    if let Some(metadata) = block.get(key) {
        return metadata.is_group();
    }
    match block.get(rooted) {
        Some(metadata) => metadata.is_group(),
        None => false,
    }
}

// The node at a path, if there is one, and for a group all below it, parents before children.
fn read_anew<S: ReadableStorageTraits + ListableStorageTraits>(
    alloc: Global,
    storage: &S,
    path: &NodePath,
    version: &MetadataRetrieveVersion,
) -> Result<Vec<(NodePath, NodeMetadata)>, NodeCreateError>
    ensures renewed { IfOk result
        (λ pairs. Lists
        (IsNewPair (meaning (S.contents storage.now) version.now) path.now) pairs.items) }
    ensures clean { IfOk result (λ _. BadAnew (S.contents storage.now) version.now path.now → ⊥) }
    ensures refused { IfErr result
        (IsExcusedOr (S.can_fail storage.now)
        (ShowsBadAnew (S.contents storage.now) version.now path.now)) }
{
    let found = metadata_at(alloc, storage, path, version);
    let mut pairs = Vec::new(alloc);
    let Some(metadata) = found? else {
        return Ok(pairs);
    };
    let deeper = metadata.is_group();
    pairs.push((path.try_clone(alloc)?, metadata))?;
    if !deeper {
        return Ok(pairs);
    }
    drop(walk_nodes(alloc, storage, path, true, version, &mut pairs)?);
    Ok(pairs)
}

/// Puts metadata into a block, each at its path relative to the base.
pub(crate) fn insert_pairs(
    alloc: Global,
    base: &NodePath,
    pairs: Vec<(NodePath, NodeMetadata)>,
    block: &mut ConsolidatedMetadataMetadata,
) -> Result<(), AllocError>
    requires below { ArePairsBelow base.now pairs.items }
    ensures inserted { OnOk result (block.new ≡ put_all base.now block.old pairs.items) }
{
    for (path, metadata) in pairs {
        let key = String::from_str(alloc, text_beyond(base, &path))?;
        block.insert(key, metadata)?;
    }
    Ok(())
}
