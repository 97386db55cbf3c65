//! The edits that store and erase a group.
ghost use Rattle.std.specs.Prelude.{◌≡◌, [], ◌∷◌, ◌++◌, None, Some, Option, map, IfOk, IfErr};
ghost use Rattle.serde_json.specs.Data.{object};
ghost use Rattle.serde_json.specs.View.{view};
ghost use Rattle.zarrs_form.specs.Documents.{is_empty};
ghost use Rattle.zarrs_form.specs.Forms.{unless};
ghost use Rattle.zarrs_path.specs.Keys.{zattrs, zmetadata};
ghost use Rattle.zarrs_meta.specs.declared.node.GroupMetadata.TheVariants.{V3, V2};
ghost use Rattle.zarrs_block.specs.Block.{Block};
ghost use Rattle.zarrs_block.specs.Policy.{as_block};
ghost use Rattle.zarrs_block.specs.Zmetadata.{zmetadata_tree};
ghost use Rattle.zarrs_group.specs.BlocksBeside.{IsBeside};
ghost use Rattle.zarrs_group.specs.Plain.{group_v2_fault_in, block_fault_in};
ghost use Rattle.zarrs_group.specs.StepsOfGroups.{edit_of};
ghost use Rattle.zarrs_group.specs.StoringGroups.{AreEditsOf, IsEditAt, RefusesMetadata, own_changes, store_changes, erase_edits, stored_fault_in};

use crate::edit::Edit;
use crate::plain::{block_fault, group_v2_fault, group_v3_fault};
use crate::stored_text::pretty_bytes;
use serde_json::Value;
use std::alloc::{AllocError, Global};
use zarrs_block::ConsolidatedMetadata;
use zarrs_config::MetadataEraseVersion;
use zarrs_meaning::NodeCreateError;
use zarrs_meta::{GroupMetadata, GroupMetadataV2, GroupMetadataV3, Object, WrittenDocument};
use zarrs_path::{
    NodePath, NodePathError, meta_key_v2_attributes, meta_key_v2_consolidated, meta_key_v2_group,
    meta_key_v3,
};
use zarrs_store::{Numbers, StorageError};

/// The edits that store the metadata of a group, and of one of version 2 the block beside them, where all is plain in these numbers.
pub(crate) fn edits_to_store(
    alloc: Global,
    numbers: Numbers,
    path: &NodePath,
    metadata: GroupMetadata,
    block: &Option<ConsolidatedMetadata>,
) -> Result<Vec<Edit>, StorageError>
    requires { IsBeside (as_block block.now) }
    ensures ok { IfOk result
        (λ edits. AreEditsOf (store_changes path.now metadata (as_block block.now))
        (map edit_of edits.items)) }
    ensures plain { IfOk result
        (λ _. stored_fault_in numbers path.now metadata (as_block block.now) ≡ None) }
    ensures err { IfErr result (RefusesMetadata numbers path.now metadata (as_block block.now)) }
{
    match (metadata, block) {
        (GroupMetadata::V3(group), _) => edits_to_store_v3(alloc, numbers, path, &group),
        (GroupMetadata::V2(group), None) => edits_without_block(alloc, numbers, path, group),
        (GroupMetadata::V2(group), Some(block)) => {
            edits_with_block(alloc, numbers, path, group, block)
        }
    }
}

fn edits_to_store_v3(
    alloc: Global,
    numbers: Numbers,
    path: &NodePath,
    group: &GroupMetadataV3,
) -> Result<Vec<Edit>, StorageError>
    ensures ok { IfOk result
        (λ edits. (block : Option Block)
        → AreEditsOf (store_changes path.now (V3 group.now) block) (map edit_of edits.items)) }
    ensures plain { IfOk result
        (λ _. (block : Option Block)
        → stored_fault_in numbers path.now (V3 group.now) block ≡ None) }
    ensures err { IfErr result
        (λ e. (block : Option Block) → RefusesMetadata numbers path.now (V3 group.now) block e) }
{
    let key = meta_key_v3(alloc, path)?;
    if let Some(fault) = group_v3_fault(numbers, group) {
        return Err(StorageError::InvalidMetadata(key, fault));
    }
    let bytes = pretty_bytes(alloc, &group.to_value(alloc)?)?;
    Ok(vec![in alloc; Edit::Set(key, bytes)]?)
}

// Without a block `.zmetadata` is removed first.
fn edits_without_block(
    alloc: Global,
    numbers: Numbers,
    path: &NodePath,
    group: GroupMetadataV2,
) -> Result<Vec<Edit>, StorageError>
    ensures ok { IfOk result
        (λ edits. AreEditsOf (store_changes path.now (V2 group) None)
        (map edit_of edits.items)) }
    ensures plain { IfOk result (λ _. stored_fault_in numbers path.now (V2 group) None ≡ None) }
    ensures err { IfErr result (RefusesMetadata numbers path.now (V2 group) None) }
{
    ask_plain(alloc, numbers, path, &group)?;
    let key = meta_key_v2_consolidated(alloc, path)?;
    let (attributes, own) = edits_of_documents(alloc, path, group)?;
    Ok(vec![in alloc; Edit::Erase(key), attributes, own]?)
}

// A block is set last.
fn edits_with_block(
    alloc: Global,
    numbers: Numbers,
    path: &NodePath,
    group: GroupMetadataV2,
    block: &ConsolidatedMetadata,
) -> Result<Vec<Edit>, StorageError>
    requires { IsBeside (Some block.now.metadata) }
    ensures ok { IfOk result
        (λ edits. AreEditsOf (store_changes path.now (V2 group) (Some block.now.metadata))
        (map edit_of edits.items)) }
    ensures plain { IfOk result
        (λ _. stored_fault_in numbers path.now (V2 group) (Some block.now.metadata) ≡ None) }
    ensures err { IfErr result
        (RefusesMetadata numbers path.now (V2 group) (Some block.now.metadata)) }
{
    ask_plain(alloc, numbers, path, &group)?;
    let block = edit_of_block(alloc, numbers, path, &group, block)?;
    let (attributes, own) = edits_of_documents(alloc, path, group)?;
    Ok(vec![in alloc; attributes, own, block]?)
}

// Asks whether the metadata of a version 2 group are plain.
fn ask_plain(
    alloc: Global,
    numbers: Numbers,
    path: &NodePath,
    group: &GroupMetadataV2,
) -> Result<(), StorageError>
    ensures plain { IfOk result (λ _. group_v2_fault_in numbers group.now ≡ None) }
    ensures err { IfErr result
        (λ e. (block : Option Block) → RefusesMetadata numbers path.now (V2 group.now) block e) }
{
    let key = meta_key_v2_group(alloc, path)?;
    match group_v2_fault(numbers, group) {
        Some(fault) => Err(StorageError::InvalidMetadata(key, fault)),
        None => Ok(()),
    }
}

// The edits of `.zattrs` and of `.zgroup`.
fn edits_of_documents(
    alloc: Global,
    path: &NodePath,
    group: GroupMetadataV2,
) -> Result<(Edit, Edit), AllocError>
    ensures { IfOk result
        (λ edits. AreEditsOf (own_changes path.now group)
        (edit_of edits.0 ∷ edit_of edits.1 ∷ [])) }
{
    let attributes = edit_of_attributes(alloc, path, group.attributes)?;
    let group = GroupMetadataV2 {
        attributes: Object::new(alloc),
        additional_fields: group.additional_fields,
    };
    let key = meta_key_v2_group(alloc, path)?;
    let bytes = pretty_bytes(alloc, &group.to_value(alloc)?)?;
    Ok((attributes, Edit::Set(key, bytes)))
}

// Attributes have a document of their own, which is removed where there are none.
fn edit_of_attributes(
    alloc: Global,
    path: &NodePath,
    attributes: Object,
) -> Result<Edit, AllocError>
    ensures { IfOk result (λ edit. IsEditAt (path.now ++ zattrs ∷ [])
        (unless (is_empty attributes) (object attributes)) (edit_of edit)) }
{
    let key = meta_key_v2_attributes(alloc, path)?;
    if attributes.is_empty() {
        return Ok(Edit::Erase(key));
    }
    let value = Value::Object(attributes.into_map(alloc)?);
    Ok(Edit::Set(key, pretty_bytes(alloc, &value)?))
}

// The edit of `.zmetadata`, where the entries of the block are plain.
fn edit_of_block(
    alloc: Global,
    numbers: Numbers,
    path: &NodePath,
    group: &GroupMetadataV2,
    block: &ConsolidatedMetadata,
) -> Result<Edit, StorageError>
    requires own { group_v2_fault_in numbers group.now ≡ None }
    requires beside { IsBeside (Some block.now.metadata) }
    ensures ok { IfOk result (λ edit. IsEditAt (path.now ++ zmetadata ∷ [])
        (Some (zmetadata_tree group.now block.now.metadata)) (edit_of edit)) }
    ensures plain { IfOk result (λ _. block_fault_in numbers block.now.metadata ≡ None) }
    ensures err { IfErr result
        (RefusesMetadata numbers path.now (V2 group.now) (Some block.now.metadata)) }
{
    let key = meta_key_v2_consolidated(alloc, path)?;
    if let Some(fault) = block_fault(alloc, numbers, block)? {
        return Err(StorageError::InvalidMetadata(key, fault));
    }
    let bytes = pretty_bytes(alloc, &written(alloc, group, block)?)?;
    Ok(Edit::Set(key, bytes))
}

/// What is written of a block that stands beside the metadata of a version 2 group: nothing but out of memory refuses it.
pub(crate) fn written(
    alloc: Global,
    group: &GroupMetadataV2,
    block: &ConsolidatedMetadata,
) -> Result<Value, AllocError>
    requires { IsBeside (Some block.now.metadata) }
    ensures { IfOk result (λ value. view value ≡ zmetadata_tree group.now block.now.metadata) }
{
    match block.to_zmetadata(alloc, group) {
        Ok(value) => Ok(value),
        Err(
            NodeCreateError::OutOfMemory
            | NodeCreateError::NodePathError(NodePathError::OutOfMemory),
        ) => Err(AllocError),
        Err(_) => unreachable!(),
    }
}

/// The edits that erase a group.
pub(crate) fn edits_to_erase(
    alloc: Global,
    path: &NodePath,
    metadata: &GroupMetadata,
    version: MetadataEraseVersion,
) -> Result<Vec<Edit>, AllocError>
    ensures { IfOk result
        (λ edits. map edit_of edits.items ≡ erase_edits path.now version metadata.now) }
{
    match (version, metadata) {
        (MetadataEraseVersion::All, _) => Ok(vec![in alloc;
            Edit::Erase(meta_key_v3(alloc, path)?),
            Edit::Erase(meta_key_v2_group(alloc, path)?),
            Edit::Erase(meta_key_v2_attributes(alloc, path)?),
            Edit::Erase(meta_key_v2_consolidated(alloc, path)?),
        ]?),
        (MetadataEraseVersion::V3, _) | (MetadataEraseVersion::Default, GroupMetadata::V3(_)) => {
            Ok(vec![in alloc; Edit::Erase(meta_key_v3(alloc, path)?)]?)
        }
        (MetadataEraseVersion::V2, _) | (MetadataEraseVersion::Default, GroupMetadata::V2(_)) => Ok(
            vec![in alloc;
                Edit::Erase(meta_key_v2_group(alloc, path)?),
                Edit::Erase(meta_key_v2_attributes(alloc, path)?),
                Edit::Erase(meta_key_v2_consolidated(alloc, path)?),
            ]?,
        ),
    }
}
