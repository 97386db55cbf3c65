//! The consolidated metadata of a node, where they stand in a store.
ghost use Rattle.std.specs.Prelude.{◌≡◌, Ok, None, IfOk, IfErr, IfSome, ◌⊎◌};
ghost use Rattle.zarrs_store.specs.Faults.{IsStoreError};
ghost use Rattle.zarrs_config.specs.declared.version.UseConsolidatedMetadata.TheVariants.{Never};
ghost use Rattle.zarrs_block.specs.Policy.{as_block, as_choice, RefusesUse};
ghost use Rattle.zarrs_node.specs.BlocksBelow.{zmetadata_at, ExcusesBlock, HoldsZmetadata};
ghost use Rattle.zarrs_node.specs.OpeningNodes.{choice};

use std::alloc::Global;
use zarrs_block::{
    ConsolidatedMetadata, consolidated_metadata_for_open_in, resolve_consolidated_policy,
};
use zarrs_config::UseConsolidatedMetadata;
use zarrs_meaning::NodeCreateError;
use zarrs_meta::{GroupMetadata, NodeMetadata};
use zarrs_path::{NodePath, meta_key_v2_consolidated};
use zarrs_store::{MetadataFault, ReadableStorageTraits, StorageError};

/// The block that is used of a node at a path of a store. A version 2 group has it in the document `.zmetadata` beside its own, and any
/// other node in its metadata, as [`consolidated_metadata_for_open_in`] says. It is read in the numbers of the store. Under `Never`
/// nothing is read.
///
/// # Errors
///
/// - `MissingMetadata` where there is no block that reads and the policy is `Must`, with a text that names the path.
/// - Of a version 2 group `StorageError::Fault` of a store that can fail, and `OutOfMemory`; of a version 3 group `OutOfMemory` where it has the
///   field `consolidated_metadata`. For a version 3 group and an array the store is not asked.
///
/// Source: own; zarr-python, consolidated metadata of version 2.
pub fn consolidated_metadata_at<S: ReadableStorageTraits>(
    alloc: Global,
    storage: &S,
    path: &NodePath,
    metadata: &NodeMetadata,
    policy: UseConsolidatedMetadata,
) -> Result<Option<ConsolidatedMetadata>, NodeCreateError>
    ensures ok { IfOk result
        (λ chosen. choice (S.contents storage.now) policy path.now metadata.now
        ≡ as_choice chosen) }
    ensures never { policy ≡ Never → result ≡ Ok None }
    ensures excused { IfErr result
        (λ e. ExcusesBlock (S.can_fail storage.now) metadata.now policy e
        ⊎ RefusesUse path.now (choice (S.contents storage.now) policy path.now metadata.now) e) }
{
    match (metadata, policy) {
        (_, UseConsolidatedMetadata::Never) => Ok(None),
        (NodeMetadata::Group(GroupMetadata::V2(_)), _) => {
            let block = zmetadata_at(alloc, storage, path)?;
            resolve_consolidated_policy(alloc, path, block, policy)
        }
        _ => {
            let numbers = storage.numbers();
            consolidated_metadata_for_open_in(alloc, numbers, path, metadata, policy)
        }
    }
}

/// The block that the document `.zmetadata` of a path is. There is none where the document is absent, is no JSON text or is refused by
/// [`ConsolidatedMetadata::from_zmetadata_in`] in the numbers of the store.
///
/// # Errors
///
/// `Fault` of a store that can fail, and `OutOfMemory`.
///
/// Source: zarr-python, consolidated metadata of version 2.
pub fn zmetadata_at<S: ReadableStorageTraits>(
    alloc: Global,
    storage: &S,
    path: &NodePath,
) -> Result<Option<ConsolidatedMetadata>, StorageError>
    ensures ok { IfOk result
        (λ block. as_block block ≡ zmetadata_at (S.contents storage.now) path.now) }
    ensures store { IfOk result
        (λ block. IfSome block (λ b. HoldsZmetadata (S.contents storage.now) path.now b.metadata)) }
    ensures err { IfErr result (IsStoreError (S.can_fail storage.now)) }
{
    let key = meta_key_v2_consolidated(alloc, path)?;
    let Some(bytes) = storage.get(alloc, &key)? else {
        return Ok(None);
    };
    match ConsolidatedMetadata::from_zmetadata_bytes_in(alloc, storage.numbers(), &bytes) {
        Ok(block) => Ok(Some(block)),
        Err(MetadataFault::OutOfMemory) => Err(StorageError::OutOfMemory),
        Err(_) => Ok(None),
    }
}
