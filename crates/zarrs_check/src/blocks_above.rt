//! The blocks of the groups above a path beside what the store has from the path on.
ghost use Rattle.std.specs.Prelude.{◌≡◌, IfOk, IfErr, IfSome, Contains};
ghost use Rattle.zarrs_store.specs.Faults.{IsStoreError};
ghost use Rattle.zarrs_block.specs.Block.{Entries};
ghost use Rattle.zarrs_meaning.specs.Refusals.{IsExcused};
ghost use Rattle.zarrs_meaning.specs.Exists.{HasNodeKey};
ghost use Rattle.zarrs_node.specs.Order.{Ascend};
ghost use Rattle.zarrs_check.specs.BlocksAbove.{AreAboveFindings};
ghost use Rattle.zarrs_check.specs.StepsOfBlocksAbove.{ArePartFindings, IsGoodBlock, IsPartOf, bad_base, is_array_base, is_missing};
ghost use Rattle.zarrs_check.specs.StepsOfChecks.{HasBad};
ghost use Rattle.zarrs_check.specs.StepsOfComparing.{StandBehind};
ghost use Rattle.zarrs_check.specs.StepsOfTaking.{base_nodes};

use crate::bad_documents::BadDocuments;
use crate::base::{Base, base_of};
use crate::check::read_block;
use crate::comparison::Comparison;
use crate::finding::Finding;
use crate::survey::sort_faults;
use std::alloc::{AllocError, Global};
use zarrs_block::ConsolidatedMetadata;
use zarrs_config::MetadataRetrieveVersion;
use zarrs_meaning::NodeCreateError;
use zarrs_meta::NodeMetadata;
use zarrs_node::walk_past_faults;
use zarrs_path::NodePath;
use zarrs_store::{ListableStorageTraits, ReadableStorageTraits, StorageError};

// What a store has from a path on.
#[derive(Drop)]
struct PartOfStore {
    // The nodes, in the order of their paths.
    nodes: Vec<(NodePath, NodeMetadata)>,
    // The paths whose documents are bad, but for those below another of them.
    bad: BadDocuments,
}

/// What the blocks of the groups above a path say otherwise than the store of the path and of what is below it, in the order of groups, paths and
/// kinds. Of an array nothing below it is looked at.
///
/// Nothing is told of the keys of these blocks, nor of the own attributes that their documents have, nor of a block that does not read: a check from
/// its own group on tells these. Where no group above the path has a block that reads, nothing is looked up below the path.
///
/// # Errors
///
/// `StorageError::Fault` of a store that can fail, and `OutOfMemory` when out of memory.
///
/// Source: own.
/// <https://zarr.readthedocs.io/en/stable/user-guide/consolidated_metadata/>
pub fn check_above<S: ReadableStorageTraits + ListableStorageTraits>(
    alloc: Global,
    storage: &S,
    path: &NodePath,
    version: &MetadataRetrieveVersion,
) -> Result<Vec<Finding>, NodeCreateError>
    ensures findings { IfOk result
        (λ found. AreAboveFindings (S.contents storage.now) version.now path.now found.items) }
    ensures excused { IfErr result (IsExcused (S.can_fail storage.now)) }
{
    let mut found = Vec::new(alloc);
    let mut part = None;
    let mut above = path.parent(alloc)?;
    while let Some(group) = above {
        above = group.parent(alloc)?;
        if let Some(block) = good_block(alloc, storage, &group, version)? {
            let known = known_part(alloc, storage, path, version, part)?;
            let mut told = compare_from(alloc, storage, path, &known, group, block)?;
            told.append(&mut found)?;
            found = told;
            part = Some(known);
        }
    }
    Ok(found)
}

// The block of the group at a path, where it has one that reads.
fn good_block<S: ReadableStorageTraits>(
    alloc: Global,
    storage: &S,
    path: &NodePath,
    version: &MetadataRetrieveVersion,
) -> Result<Option<ConsolidatedMetadata>, NodeCreateError>
    ensures block { IfOk result (IsGoodBlock (S.contents storage.now) version.now path.now) }
    ensures excused { IfErr result (IsExcused (S.can_fail storage.now)) }
{
    let Base::Node(metadata) = base_of(alloc, storage, path, version)? else {
        return Ok(None);
    };
    match read_block(alloc, storage, path, &metadata)? {
        Some(Ok(block)) => Ok(Some(block)),
        _ => Ok(None),
    }
}

// What there is to tell of the block of a group above a path, of the path and of what is below it.
fn compare_from<S: ReadableStorageTraits>(
    alloc: Global,
    storage: &S,
    path: &NodePath,
    part: &PartOfStore,
    group: NodePath,
    block: ConsolidatedMetadata,
) -> Result<Vec<Finding>, StorageError>
    requires ascending { Ascend part.now.nodes.items }
    requires behind { StandBehind group part.now.nodes.items }
    ensures ok { IfOk result
        (λ found. ArePartFindings (Entries block.metadata group) (Contains part.now.nodes.items)
        (HasBad part.now.bad) (HasNodeKey (S.contents storage.now)) group path.now found.items) }
    ensures err { IfErr result (IsStoreError (S.can_fail storage.now)) }
{
    let mut comparison = Comparison::new(alloc, group, block, false)?;
    comparison.take_first(alloc, &part.nodes)?;
    comparison.finish_from(alloc, storage, path, &part.bad)
}

// What the store has from a path on, which is looked up where it is not known.
fn known_part<S: ReadableStorageTraits + ListableStorageTraits>(
    alloc: Global,
    storage: &S,
    path: &NodePath,
    version: &MetadataRetrieveVersion,
    known: Option<PartOfStore>,
) -> Result<PartOfStore, NodeCreateError>
    requires known { IfSome known (IsPartOf (S.contents storage.now) version.now path.now) }
    ensures part { IfOk result (IsPartOf (S.contents storage.now) version.now path.now) }
    ensures excused { IfErr result (IsExcused (S.can_fail storage.now)) }
{
    match known {
        Some(part) => Ok(part),
        None => part_from(alloc, storage, path, version),
    }
}

// What the store has from a path on: of an array it alone. Where the document of the path is bad, that is the only one.
fn part_from<S: ReadableStorageTraits + ListableStorageTraits>(
    alloc: Global,
    storage: &S,
    path: &NodePath,
    version: &MetadataRetrieveVersion,
) -> Result<PartOfStore, NodeCreateError>
    ensures part { IfOk result (IsPartOf (S.contents storage.now) version.now path.now) }
    ensures excused { IfErr result (IsExcused (S.can_fail storage.now)) }
{
    let _valid = path.as_str();
    let base = base_of(alloc, storage, path, version)?;
    let is_array = is_array_base(&base);
    let (mut nodes, bad) = sort_base(alloc, path, base)?;
    if is_array {
        let bad = BadDocuments::new(bad);
        return Ok(PartOfStore { nodes, bad });
    }
    let mut below = Vec::new(alloc);
    let walked = walk_past_faults(alloc, storage, path, version, &mut below)?;
    nodes.append(&mut below)?;
    if !bad.is_empty() {
        let bad = BadDocuments::new(bad);
        return Ok(PartOfStore { nodes, bad });
    }
    let (bad, _names) = sort_faults(alloc, walked.faults)?;
    Ok(PartOfStore { nodes, bad })
}

// Whether the base is an array.
fn is_array_base(base: &Base) -> bool
    ensures { result ≡ is_array_base base.now }
{
    matches!(base, Base::Node(NodeMetadata::Array(_)))
}

// The base as a node, where it is one, and with its error, where its document is bad.
fn sort_base(
    alloc: Global,
    path: &NodePath,
    base: Base,
) -> Result<
    (
        Vec<(NodePath, NodeMetadata)>,
        Vec<(NodePath, NodeCreateError)>,
    ),
    AllocError,
>
    ensures nodes { IfOk result (λ sorted. sorted.0.items ≡ base_nodes path.now base) }
    ensures bad { IfOk result (λ sorted. sorted.1.items ≡ bad_base path.now base) }
{
    let mut nodes = Vec::new(alloc);
    let mut bad = Vec::new(alloc);
    match base {
        Base::Node(metadata) => nodes.push((path.try_clone(alloc)?, metadata))?,
        Base::Refused(refusal) => {
            if !is_missing(&refusal) {
                bad.push((path.try_clone(alloc)?, refusal))?;
            }
        }
    }
    Ok((nodes, bad))
}

// Whether a refusal says that there are no metadata.
fn is_missing(refusal: &NodeCreateError) -> bool
    ensures { result ≡ is_missing refusal.now }
{
    matches!(refusal, NodeCreateError::MissingMetadata(_))
}
