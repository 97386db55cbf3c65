//! What is written of a version 3 group, whose parts are given away for it.
ghost use Rattle.std.specs.Prelude.{◌≡◌, false, codes, IfOk, OnOk};
ghost use Rattle.serde_json.specs.Data.{object};
ghost use Rattle.serde_json.specs.View.{view, members_view};
ghost use Rattle.zarrs_form.specs.Documents.{is_empty};
ghost use Rattle.zarrs_form.specs.Fields.{field_data};
ghost use Rattle.zarrs_form.specs.Forms.{put_row, unless};
ghost use Rattle.zarrs_meta.specs.Node.{node_tree};
ghost use Rattle.zarrs_meta.specs.declared.node.GroupMetadata.TheVariants.{V3};
ghost use Rattle.zarrs_block.specs.Block.{block_tree, documents, inline_block};
ghost use Rattle.zarrs_block.specs.Policy.{as_block};
ghost use Rattle.zarrs_group.specs.FullBlocks.{fields_with_full, metadata_with_full};
ghost use Rattle.zarrs_group.specs.Groups.{group_tree};

use crate::consolidated::{put_block, remove_block};
use crate::full_block::full_documents;
use serde_json::{Map, Value, put};
use std::alloc::{AllocError, Global};
use zarrs_block::{ConsolidatedMetadata, ConsolidatedMetadataMetadata};
use zarrs_form::put_text;
use zarrs_meta::{
    AdditionalFieldV3, AdditionalFieldsV3, GroupMetadataV3, NodeMetadata, Object, WrittenDocument,
};

/// What is written of a version 3 group with a block set in full, or with none. Its attributes and the block are moved into it. A block that stood there is
/// let go.
///
/// # Errors
///
/// `AllocError` where there is no memory for it.
///
/// Source: Zarr core specification 3.1, "Group metadata"; zarr-python, consolidated metadata of kind `inline`.
pub(crate) fn value_with_block(
    alloc: Global,
    group: GroupMetadataV3,
    block: Option<ConsolidatedMetadata>,
) -> Result<Value, AllocError>
    ensures { IfOk result
        (λ v. view v ≡ group_tree (metadata_with_full (as_block block) (V3 group))) }
{
    let mut all = members_with_block(alloc, group.additional_fields, block)?;
    put(&mut all, alloc, "zarr_format", Value::from(3u64))?;
    put_text(&mut all, alloc, "node_type", "group")?;
    put_attributes(&mut all, alloc, group.attributes)?;
    Ok(Value::Object(all))
}

// Puts the attributes among the members, where there are any.
fn put_attributes(
    members: &mut Map<String, Value>,
    alloc: Global,
    attributes: Object,
) -> Result<(), AllocError>
    ensures { OnOk result
        (members_view members.new.entries
        ≡ put_row (codes "attributes") (unless (is_empty attributes) (object attributes))
        (members_view members.old.entries)) }
{
    if attributes.is_empty() {
        return Ok(());
    }
    let value = Value::Object(attributes.into_map(alloc)?);
    put(members, alloc, "attributes", value)
}

// The fields as members, with the block set in full or removed. The others are copied, and with them a null, which holds the place of the block.
fn members_with_block(
    alloc: Global,
    mut fields: AdditionalFieldsV3,
    block: Option<ConsolidatedMetadata>,
) -> Result<Map<String, Value>, AllocError>
    ensures { IfOk result
        (λ members. members_view members.entries ≡ fields_with_full (as_block block) fields) }
{
    let Some(block) = block else {
        remove_block(&mut fields);
        return fields.to_members(alloc);
    };
    let null = AdditionalFieldV3::new(alloc, Value::Null, false)?;
    put_block(&mut fields, alloc, null)?;
    let mut members = fields.to_members(alloc)?;
    let documents = full_documents(alloc, block.metadata)?;
    let tree = inline_block(alloc, documents)?;
    let value = AdditionalFieldV3::new(alloc, tree, false)?.into_value();
    put(&mut members, alloc, "consolidated_metadata", value)?;
    Ok(members)
}

/// The field of a block, which need not be understood.
///
/// # Errors
///
/// `AllocError` where there is no memory for it.
///
/// Source: zarr-python, consolidated metadata of kind `inline`.
pub(crate) fn field_of(
    alloc: Global,
    block: ConsolidatedMetadata,
) -> Result<AdditionalFieldV3, AllocError>
    ensures { IfOk result (λ field. field ≡ field_data (block_tree block.metadata) false) }
{
    AdditionalFieldV3::new(alloc, block_value(alloc, block)?, false)
}

// What is written of a block.
fn block_value(alloc: Global, block: ConsolidatedMetadata) -> Result<Value, AllocError>
    ensures { IfOk result (λ v. view v ≡ block_tree block.metadata) }
{
    inline_block(alloc, documents_of(alloc, block.metadata)?)
}

// What is written of a block with these documents.
fn inline_block(alloc: Global, documents: Map<String, Value>) -> Result<Value, AllocError>
    ensures { IfOk result (λ v. view v ≡ inline_block (members_view documents.entries)) }
{
    let mut all = Map::new(alloc);
    put_text(&mut all, alloc, "kind", "inline")?;
    put(&mut all, alloc, "metadata", Value::Object(documents))?;
    put(&mut all, alloc, "must_understand", Value::Bool(false))?;
    Ok(Value::Object(all))
}

// The written form of each node, at its key.
fn documents_of(
    alloc: Global,
    metadata: ConsolidatedMetadataMetadata,
) -> Result<Map<String, Value>, AllocError>
    ensures { IfOk result (λ members. members_view members.entries ≡ documents metadata) }
{
    let mut members = Map::new(alloc);
    for (key, node) in metadata.into_map() {
        drop(members.insert(key, node_value(alloc, node)?)?);
    }
    Ok(members)
}

// What is written of a node, which is let go then.
fn node_value(alloc: Global, node: NodeMetadata) -> Result<Value, AllocError>
    ensures { IfOk result (λ v. view v ≡ node_tree node) }
{
    node.to_value(alloc)
}
