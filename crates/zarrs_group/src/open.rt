//! What a path means as a group.
ghost use Rattle.std.specs.Prelude.{◌≡◌, IfOk, IfErr};
ghost use Rattle.zarrs_store.specs.Faults.{IsStoreError};
ghost use Rattle.zarrs_meaning.specs.DocumentsAtKeys.{in_bytes};
ghost use Rattle.zarrs_meaning.specs.Meaning.{zgroup_line};
ghost use Rattle.zarrs_block.specs.Policy.{as_block};
ghost use Rattle.zarrs_group.specs.BlocksBeside.{IsBeside};
ghost use Rattle.zarrs_group.specs.BlocksOfGroups.{block_beside};
ghost use Rattle.zarrs_group.specs.Meaning.{group_line, group_meaning};
ghost use Rattle.zarrs_group.specs.StepsOfGroups.{FindsByLine, FindsMeaning, RefusesLine, RefusesMeaning};

use std::alloc::Global;
use zarrs_block::ConsolidatedMetadata;
use zarrs_config::MetadataRetrieveVersion;
use zarrs_meaning::{attributes_at, document_at};
use zarrs_meta::{GroupMetadata, GroupMetadataV2, GroupMetadataV3};
use zarrs_node::zmetadata_at;
use zarrs_path::{NodePath, meta_key_v2_group, meta_key_v3};
use zarrs_store::{ReadableStorageTraits, StorageError};

/// The metadata of a path that means a group, read in the numbers of the store, or none where it means nothing.
#[tactic(auto, unfolding(crate::specs::Meaning::group_meaning))]
pub(crate) fn find_metadata<S: ReadableStorageTraits>(
    alloc: Global,
    storage: &S,
    path: &NodePath,
    version: &MetadataRetrieveVersion,
) -> Result<Option<GroupMetadata>, StorageError>
    ensures ok { IfOk result
        (λ found. FindsMeaning found
        (group_meaning (S.contents storage.now) version.now path.now)) }
    ensures err { IfErr result
        (RefusesMeaning (S.can_fail storage.now)
        (group_meaning (S.contents storage.now) version.now path.now)) }
{
    match version {
        MetadataRetrieveVersion::Default => match find_v3(alloc, storage, path)? {
            Some(metadata) => Ok(Some(metadata)),
            None => find_v2(alloc, storage, path),
        },
        MetadataRetrieveVersion::V3 => find_v3(alloc, storage, path),
        MetadataRetrieveVersion::V2 => find_v2(alloc, storage, path),
    }
}

// What the document `zarr.json` of a path says, read as a group of version 3.
#[tactic(auto, unfolding(crate::specs::Meaning::group_line))]
fn find_v3<S: ReadableStorageTraits>(
    alloc: Global,
    storage: &S,
    path: &NodePath,
) -> Result<Option<GroupMetadata>, StorageError>
    ensures ok { IfOk result
        (λ found. FindsByLine found (group_line (S.contents storage.now) path.now)) }
    ensures err { IfErr result
        (RefusesLine (S.can_fail storage.now) (group_line (S.contents storage.now) path.now)) }
{
    let key = meta_key_v3(alloc, path)?;
    let found: Option<GroupMetadataV3> = document_at(alloc, storage, key)?;
    match found {
        Some(group) => Ok(Some(GroupMetadata::V3(group))),
        None => Ok(None),
    }
}

// What the document `.zgroup` of a path says, with the attributes beside it.
#[tactic(auto, unfolding(zarrs_meaning::specs::Meaning::zgroup_line))]
fn find_v2<S: ReadableStorageTraits>(
    alloc: Global,
    storage: &S,
    path: &NodePath,
) -> Result<Option<GroupMetadata>, StorageError>
    ensures ok { IfOk result
        (λ found. FindsByLine found
        (zgroup_line (in_bytes (S.contents storage.now).numbers)
        (S.contents storage.now).values path.now)) }
    ensures err { IfErr result
        (RefusesLine (S.can_fail storage.now)
        (zgroup_line (in_bytes (S.contents storage.now).numbers)
        (S.contents storage.now).values path.now)) }
{
    let key = meta_key_v2_group(alloc, path)?;
    let found: Option<GroupMetadataV2> = document_at(alloc, storage, key)?;
    let Some(group) = found else {
        return Ok(None);
    };
    match attributes_at(alloc, storage, path)? {
        Some(document) => Ok(Some(GroupMetadata::V2(GroupMetadataV2 {
            attributes: document.0,
            additional_fields: group.additional_fields,
        }))),
        None => Ok(Some(GroupMetadata::V2(group))),
    }
}

/// The block that a store has beside the metadata of a group: of a version 2 group the one that the document `.zmetadata` is, read in the
/// numbers of the store.
pub(crate) fn find_block<S: ReadableStorageTraits>(
    alloc: Global,
    storage: &S,
    path: &NodePath,
    metadata: &GroupMetadata,
) -> Result<Option<ConsolidatedMetadata>, StorageError>
    ensures ok { IfOk result
        (λ block. as_block block ≡ block_beside (S.contents storage.now) path.now metadata.now) }
    ensures fits { IfOk result (λ block. IsBeside (as_block block)) }
    ensures err { IfErr result (IsStoreError (S.can_fail storage.now)) }
{
    match metadata {
        GroupMetadata::V3(_) => Ok(None),
        GroupMetadata::V2(_) => zmetadata_at(alloc, storage, path),
    }
}
