//! The full form of a block: each extension of a version 3 array but its data type is an object, also where its name says it all.
ghost use Rattle.std.specs.Prelude.{◌≡◌, IfOk, OnOk};
ghost use Rattle.serde_json.specs.View.{view, members_view};
ghost use Rattle.zarrs_form.specs.Forms.{list_data, put_rows};
ghost use Rattle.zarrs_group.specs.FullBlocks.{full_array, full_documents, full_extension, full_node, full_rows};

use serde_json::{Map, Value, put};
use std::alloc::{AllocError, Global};
use zarrs_block::ConsolidatedMetadataMetadata;
use zarrs_form::{Form, MetadataV3};
use zarrs_meta::{ArrayMetadata, ArrayMetadataV3, NodeMetadata, WrittenDocument};

/// What is written of each node, at its key.
///
/// # Errors
///
/// `AllocError` where there is no memory for it.
///
/// Source: own; Zarr core specification 3.0, "Extension definition"; zarr-python, consolidated metadata of kind `inline`.
pub(crate) fn full_documents(
    alloc: Global,
    metadata: ConsolidatedMetadataMetadata,
) -> Result<Map<String, Value>, AllocError>
    ensures { IfOk result (λ members. members_view members.entries ≡ full_documents metadata) }
{
    let mut members = Map::new(alloc);
    for (key, node) in metadata.into_map() {
        drop(members.insert(key, full_node(alloc, node)?)?);
    }
    Ok(members)
}

// What is written of a node, which is let go then.
fn full_node(alloc: Global, node: NodeMetadata) -> Result<Value, AllocError>
    ensures { IfOk result (λ v. view v ≡ full_node node) }
{
    match &node {
        NodeMetadata::Group(_) => node.to_value(alloc),
        NodeMetadata::Array(array) => match array.as_ref() {
            ArrayMetadata::V3(array) => full_array(alloc, array),
            ArrayMetadata::V2(_) => node.to_value(alloc),
        },
    }
}

// What is written of a version 3 array.
fn full_array(alloc: Global, array: &ArrayMetadataV3) -> Result<Value, AllocError>
    ensures { IfOk result (λ v. view v ≡ full_array array.now) }
{
    match array.to_value(alloc)? {
        Value::Object(mut members) => {
            put_full(&mut members, alloc, array)?;
            Ok(Value::Object(members))
        }
        value => Ok(value),
    }
}

// Puts what is written of the extensions of an array in the place of their names.
fn put_full(
    members: &mut Map<String, Value>,
    alloc: Global,
    array: &ArrayMetadataV3,
) -> Result<(), AllocError>
    ensures { OnOk result (members_view members.new.entries
        ≡ put_rows (full_rows array.now) (members_view members.old.entries)) }
{
    put(
        members,
        alloc,
        "chunk_grid",
        full_extension(alloc, &array.chunk_grid)?,
    )?;
    put(
        members,
        alloc,
        "chunk_key_encoding",
        full_extension(alloc, &array.chunk_key_encoding)?,
    )?;
    put(
        members,
        alloc,
        "codecs",
        full_list(alloc, array.codecs.as_slice())?,
    )?;
    let transformers = array.storage_transformers.as_slice();
    if transformers.is_empty() {
        return Ok(());
    }
    put(
        members,
        alloc,
        "storage_transformers",
        full_list(alloc, transformers)?,
    )
}

// What is written of a list of extensions.
fn full_list(alloc: Global, extensions: &[MetadataV3]) -> Result<Value, AllocError>
    ensures { IfOk result (λ v. view v ≡ list_data full_extension extensions.now) }
{
    let mut items = Vec::new(alloc);
    for extension in extensions {
        items.push(full_extension(alloc, extension)?)?;
    }
    Ok(Value::Array(items))
}

// What is written of an extension, as an object.
fn full_extension(alloc: Global, extension: &MetadataV3) -> Result<Value, AllocError>
    ensures { IfOk result (λ v. view v ≡ full_extension extension.now) }
{
    match extension.to_value(alloc)? {
        Value::String(name) => {
            let mut members = Map::new(alloc);
            put(&mut members, alloc, "name", Value::String(name))?;
            Ok(Value::Object(members))
        }
        value => Ok(value),
    }
}
