//! Why a group is not plain: its metadata, or the block beside those of version 2.
ghost use Rattle.std.specs.Prelude.{◌≡◌, [], is_some, IfOk};
ghost use Rattle.serde_json.specs.Data.{Members, object};
ghost use Rattle.serde_json.specs.View.{view};
ghost use Rattle.serde_json.specs.Written as written;
ghost use Rattle.zarrs_fault.specs.declared.numbers.Numbers.TheVariants.{Whole};
ghost use Rattle.zarrs_block.specs.BlockExpansion.{path_at};
ghost use Rattle.zarrs_group.specs.Plain.{group_v3_fault_in, group_v2_fault_in, block_fault_in, node_exceeds, node_fields};
ghost use Rattle.zarrs_group.specs.Plain as plain;

use crate::plain_names::is_plain;
use serde_json::Value;
use std::alloc::{AllocError, Global};
use zarrs_block::{ConsolidatedMetadata, ConsolidatedMetadataMetadata};
use zarrs_form::members_have_float;
use zarrs_meta::{
    AdditionalFieldsV3, ArrayMetadata, GroupMetadata, GroupMetadataV2, GroupMetadataV3,
    NodeMetadata, Object, WrittenDocument,
};
use zarrs_store::{MemberName, MetadataFault, Numbers};

/// Why a version 3 group is not plain in these numbers, or nothing where it is.
pub(crate) fn group_v3_fault(numbers: Numbers, group: &GroupMetadataV3) -> Option<MetadataFault>
    ensures { result ≡ group_v3_fault_in numbers group.now }
{
    let fields = &group.additional_fields;
    if members_exceed(numbers, &group.attributes) || fields_exceed(numbers, fields) {
        return Some(MetadataFault::UnsupportedNumber);
    }
    let clash = if has_field(fields, "attributes") {
        "attributes"
    } else if fields.is_null_at("consolidated_metadata") {
        "consolidated_metadata"
    } else if has_field(fields, "node_type") {
        "node_type"
    } else if has_field(fields, "zarr_format") {
        "zarr_format"
    } else {
        return None;
    };
    Some(MetadataFault::BadMember(MemberName::new(clash)))
}

/// Why a version 2 group is not plain in these numbers, or nothing where it is.
pub(crate) fn group_v2_fault(numbers: Numbers, group: &GroupMetadataV2) -> Option<MetadataFault>
    ensures { result ≡ group_v2_fault_in numbers group.now }
{
    let fields = &group.additional_fields;
    if members_exceed(numbers, &group.attributes) || members_exceed(numbers, fields) {
        return Some(MetadataFault::UnsupportedNumber);
    }
    let clash = if has_member(fields, "attributes") {
        "attributes"
    } else if has_member(fields, "shape") {
        "shape"
    } else if has_member(fields, "zarr_format") {
        "zarr_format"
    } else {
        return None;
    };
    Some(MetadataFault::BadMember(MemberName::new(clash)))
}

// Whether some number of the members is none of these.
fn members_exceed(numbers: Numbers, members: &Object) -> bool
    ensures { result ≡ plain.members_exceed numbers members.now }
{
    match numbers {
        Numbers::Whole => members.has_float(),
        Numbers::Any => false,
    }
}

// Whether some number of the fields is none of these.
fn fields_exceed(numbers: Numbers, fields: &AdditionalFieldsV3) -> bool
    ensures { result ≡ plain.members_exceed numbers fields.now }
{
    match numbers {
        Numbers::Whole => fields.has_float(),
        Numbers::Any => false,
    }
}

// Whether a member has this name.
fn has_member(members: &Object, name: &str) -> bool
    ensures { result ≡ plain.has_member name.now members.now }
{
    match members.get(name) {
        Some(_) => true,
        None => false,
    }
}

// Whether a field has this name.
fn has_field(fields: &AdditionalFieldsV3, name: &str) -> bool
    ensures { result ≡ plain.has_member name.now fields.now }
{
    match fields.get(name) {
        Some(_) => true,
        None => false,
    }
}

/// Why a block is not stored in these numbers beside the metadata of a version 2 group, or nothing where it is.
pub(crate) fn block_fault(
    alloc: Global,
    numbers: Numbers,
    block: &ConsolidatedMetadata,
) -> Result<Option<MetadataFault>, AllocError>
    ensures { IfOk result (λ fault. fault ≡ block_fault_in numbers block.now.metadata) }
{
    let mut clash = false;
    for (key, node) in block.metadata.as_map().iter() {
        if is_plain(numbers, node) || !is_entry(&block.metadata, key.as_str()) {
            continue;
        }
        if node_exceeds(alloc, numbers, node)? {
            return Ok(Some(MetadataFault::UnsupportedNumber));
        }
        clash = true;
    }
    if clash {
        let name = MemberName::new("metadata");
        return Ok(Some(MetadataFault::BadMember(name)));
    }
    Ok(None)
}

// Whether a key of a block is that of an entry: none of the base itself, and none behind a slash that stands without it too.
fn is_entry(block: &ConsolidatedMetadataMetadata, key: &str) -> bool
    ensures { result ≡ is_some (path_at [] block.now key.now) }
{
    match key.strip_prefix('/') {
        Some(rest) => !rest.is_empty() && block.get(rest).is_none(),
        None => !key.is_empty(),
    }
}

// Whether some number of a node is none of these: nothing is asked where they may be any.
fn node_exceeds(alloc: Global, numbers: Numbers, node: &NodeMetadata) -> Result<bool, AllocError>
    ensures { IfOk result (λ found. found ≡ node_exceeds numbers node.now) }
{
    match numbers {
        Numbers::Whole => node_has_float(alloc, node),
        Numbers::Any => Ok(false),
    }
}

// Whether some number of a node is a fraction.
fn node_has_float(alloc: Global, node: &NodeMetadata) -> Result<bool, AllocError>
    ensures { IfOk result (λ found. found ≡ node_exceeds Whole node.now) }
{
    let value = node.to_value(alloc)?;
    Ok(document_has_float(&value) || own_fields_have_float(node))
}

// Whether some number of a document does not fit.
fn document_has_float(value: &Value) -> bool
    ensures { (ms : Members) → view value.now ≡ object ms → result ≡ written.members_have_float ms }
{
    match value {
        Value::Object(members) => members_have_float(members),
        _ => false,
    }
}

// Whether some number of the additional fields of a node does not fit.
fn own_fields_have_float(node: &NodeMetadata) -> bool
    ensures { result ≡ written.members_have_float (node_fields node.now) }
{
    match node {
        NodeMetadata::Group(GroupMetadata::V3(group)) => { group.additional_fields.has_float() }
        NodeMetadata::Group(GroupMetadata::V2(group)) => { group.additional_fields.has_float() }
        NodeMetadata::Array(array) => match array.as_ref() {
            ArrayMetadata::V3(array) => array.additional_fields.has_float(),
            ArrayMetadata::V2(array) => array.additional_fields.has_float(),
        },
    }
}
