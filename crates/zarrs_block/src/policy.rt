//! Whether a consolidated block stands in place of a listing.
ghost use Rattle.std.specs.Prelude.{◌≡◌, ◌⊎◌, codes, IfOk, IfErr, IsErr, IsSome};
ghost use Rattle.serde_json.specs.Find.{get_member};
ghost use Rattle.zarrs_block.specs.Policy.{as_block, fields_block, group_field, group_block, block_field, node_block, block_in, block_to_use, as_choice, refuse, RefusesUse, LacksBlockMemory};
ghost use Rattle.zarrs_fault.specs.declared.numbers.Numbers.TheVariants.{Whole};

use crate::consolidated::ConsolidatedMetadata;
use std::alloc::{AllocError, Global};
use zarrs_config::UseConsolidatedMetadata;
use zarrs_meaning::NodeCreateError;
use zarrs_meta::{AdditionalFieldsV3, GroupMetadata, NodeMetadata};
use zarrs_path::NodePath;
use zarrs_store::{MetadataFault, Numbers};

/// Decides which block of a group is used: under `Never` none, otherwise the block that the group has, if it has one.
///
/// # Errors
///
/// `MissingMetadata` where there is no block and the policy is `Must`, with a text that names the path.
/// `OutOfMemory` where there is no memory for that text.
///
/// Source: `zarrs::node::resolve_consolidated_policy`.
pub fn resolve_consolidated_policy(
    alloc: Global,
    path: &NodePath,
    block: Option<ConsolidatedMetadata>,
    policy: UseConsolidatedMetadata,
) -> Result<Option<ConsolidatedMetadata>, NodeCreateError>
    ensures ok { IfOk result
        (λ chosen. block_to_use (as_block block) policy ≡ as_choice chosen) }
    ensures err { IfErr result (RefusesUse path.now (block_to_use (as_block block) policy)) }
{
    match policy {
        UseConsolidatedMetadata::Never => Ok(None),
        UseConsolidatedMetadata::Auto => Ok(block),
        UseConsolidatedMetadata::Must => match block {
            Some(block) => Ok(Some(block)),
            None => Err(missing_block(alloc, path)),
        },
    }
}

// The refusal of a group without a block.
fn missing_block(alloc: Global, path: &NodePath) -> NodeCreateError
    ensures { RefusesUse path.now refuse result }
{
    let text = path.as_str();
    match format!(in alloc; "Consolidated metadata required but missing on group {text}") {
        Ok(said) => NodeCreateError::MissingMetadata(said),
        Err(_) => NodeCreateError::OutOfMemory,
    }
}

/// The block that a group holds: its field `consolidated_metadata`, where that reads as a block. A version 2 group has none. A field
/// with a number that is neither `u64` nor `i64` reads as none.
///
/// # Errors
///
/// `AllocError` where the group has the field and there is no memory for the block.
///
/// Source: `zarrs::group::Group::consolidated_metadata`.
pub fn consolidated_metadata_of(
    alloc: Global,
    group: &GroupMetadata,
) -> Result<Option<ConsolidatedMetadata>, AllocError>
    ensures ok { IfOk result (λ block. as_block block ≡ group_block Whole group.now) }
    ensures err { IsErr result → IsSome (group_field group.now) }
{
    consolidated_metadata_of_in(alloc, Numbers::Whole, group)
}

/// The block, which may hold these numbers, that a group holds: its field `consolidated_metadata`, where that reads as a block. A
/// version 2 group has none. For a group that was read from a store, the numbers are those of the store.
///
/// # Errors
///
/// `AllocError` where the group has the field and there is no memory for the block.
///
/// Source: own; `zarrs::group::Group::consolidated_metadata`.
pub fn consolidated_metadata_of_in(
    alloc: Global,
    numbers: Numbers,
    group: &GroupMetadata,
) -> Result<Option<ConsolidatedMetadata>, AllocError>
    ensures ok { IfOk result (λ block. as_block block ≡ group_block numbers group.now) }
    ensures err { IsErr result → IsSome (group_field group.now) }
{
    match group {
        GroupMetadata::V3(group) => block_of_fields(alloc, numbers, &group.additional_fields),
        GroupMetadata::V2(_) => Ok(None),
    }
}

// The block of the field `consolidated_metadata`, where it reads as one that may hold these numbers.
fn block_of_fields(
    alloc: Global,
    numbers: Numbers,
    fields: &AdditionalFieldsV3,
) -> Result<Option<ConsolidatedMetadata>, AllocError>
    ensures ok { IfOk result (λ block. as_block block ≡ fields_block numbers fields.now) }
    ensures err { IsErr result → IsSome (get_member (codes "consolidated_metadata") fields.now) }
{
    let Some(field) = fields.get("consolidated_metadata") else {
        return Ok(None);
    };
    match ConsolidatedMetadata::from_value_in(alloc, numbers, field.as_value()) {
        Ok(block) => Ok(Some(block)),
        Err(MetadataFault::OutOfMemory) => Err(AllocError),
        Err(_) => Ok(None),
    }
}

/// The block that is used of a node at a path, by what its metadata hold. Under `Never` they are not looked at. An array has no block. A
/// block with a number that is neither `u64` nor `i64` is none.
///
/// # Errors
///
/// `MissingMetadata` where there is no block and the policy is `Must`, with a text that names the path.
/// `OutOfMemory` where there is no memory for that text, or for the block where the metadata have the field.
///
/// Source: `zarrs::node::consolidated_metadata_for_open`.
pub fn consolidated_metadata_for_open(
    alloc: Global,
    path: &NodePath,
    metadata: &NodeMetadata,
    policy: UseConsolidatedMetadata,
) -> Result<Option<ConsolidatedMetadata>, NodeCreateError>
    ensures ok { IfOk result
        (λ chosen. block_to_use (block_in metadata.now) policy ≡ as_choice chosen) }
    ensures err { IfErr result
        (λ e. RefusesUse path.now (block_to_use (block_in metadata.now) policy) e
        ⊎ LacksBlockMemory metadata.now policy e) }
{
    consolidated_metadata_for_open_in(alloc, Numbers::Whole, path, metadata, policy)
}

/// The block, which may hold these numbers, that is used of a node at a path, by what its metadata hold. Under `Never` they are not
/// looked at. An array has no block. For a node that was read from a store, the numbers are those of the store.
///
/// # Errors
///
/// As [`consolidated_metadata_for_open`].
///
/// Source: own; `zarrs::node::consolidated_metadata_for_open`.
pub fn consolidated_metadata_for_open_in(
    alloc: Global,
    numbers: Numbers,
    path: &NodePath,
    metadata: &NodeMetadata,
    policy: UseConsolidatedMetadata,
) -> Result<Option<ConsolidatedMetadata>, NodeCreateError>
    ensures ok { IfOk result
        (λ chosen. block_to_use (node_block numbers metadata.now) policy ≡ as_choice chosen) }
    ensures err { IfErr result
        (λ e. RefusesUse path.now (block_to_use (node_block numbers metadata.now) policy) e
        ⊎ LacksBlockMemory metadata.now policy e) }
{
    if let UseConsolidatedMetadata::Never = policy {
        return Ok(None);
    }
    let block = held_block(alloc, numbers, metadata)?;
    resolve_consolidated_policy(alloc, path, block, policy)
}

// The block, which may hold these numbers, that the metadata of a node hold.
fn held_block(
    alloc: Global,
    numbers: Numbers,
    metadata: &NodeMetadata,
) -> Result<Option<ConsolidatedMetadata>, AllocError>
    ensures ok { IfOk result (λ block. as_block block ≡ node_block numbers metadata.now) }
    ensures err { IsErr result → IsSome (block_field metadata.now) }
{
    match metadata {
        NodeMetadata::Group(group) => consolidated_metadata_of_in(alloc, numbers, group),
        NodeMetadata::Array(_) => Ok(None),
    }
}
