//! The attributes that a document `.zmetadata` has of its own group.
ghost use Rattle.std.specs.Prelude.{◌≡◌, ◌↔◌, IfOk, IsTrue, Ok, codes, option_and_then, option_map};
ghost use Rattle.serde_json.specs.Data.{Members, no_members};
ghost use Rattle.serde_json.specs.Find.{as_object, get_member};
ghost use Rattle.serde_json.specs.View.{members_view, view};
ghost use Rattle.zarrs_path.specs.Keys.{zattrs};
ghost use Rattle.zarrs_form.specs.Documents.{Gives};
ghost use Rattle.zarrs_meta.specs.declared.node.GroupMetadata.TheVariants.{V2 as group_v2};
ghost use Rattle.zarrs_meta.specs.declared.node.NodeMetadata.TheVariants.{Group};
ghost use Rattle.zarrs_block.specs.Zmetadata.{zmetadata_members_in};
ghost use Rattle.zarrs_check.specs.StepsOfOwnAttributes.{attributes_beside, is_other, members_attributes, own_in_members};

use serde_json::{Map, Value};
use std::alloc::{AllocError, Global};
use zarrs_compare::is_same_metadata;
use zarrs_fault::{MetadataFault, Numbers};
use zarrs_form::{Object, member};
use zarrs_meta::{
    ArrayMetadataV2, AttributesDocument, Document, GroupMetadata, GroupMetadataV2, NodeMetadata,
};

// Whether a document `.zmetadata`, which may hold these numbers, has other attributes of its group than these.
pub(crate) fn has_other_attributes(
    alloc: Global,
    numbers: Numbers,
    document: &Value,
    attributes: Object,
) -> Result<bool, AllocError>
    ensures { IfOk result
        (λ other. (ms : Members) → zmetadata_members_in numbers (view document.now) ≡ Ok ms
        → other ≡ is_other attributes (own_in_members numbers ms)) }
{
    let Some(members) = members_of(document) else {
        return Ok(false);
    };
    match own_attributes(alloc, numbers, members)? {
        Some(own) => Ok(!is_same(alloc, own, attributes)),
        None => Ok(false),
    }
}

// The members of the member `metadata` of a document.
fn members_of(document: &Value) -> Option<&Map<String, Value>>
    ensures { option_map (λ m. members_view m.now.entries) result
        ≡ option_and_then as_object (option_and_then (get_member (codes "metadata"))
        (as_object (view document.now))) }
{
    let Some(members) = document.as_object() else {
        return None;
    };
    match member(members, "metadata") {
        Some(metadata) => metadata.as_object(),
        None => None,
    }
}

// The attributes that members have of the group itself, if they are those of a node.
fn own_attributes(
    alloc: Global,
    numbers: Numbers,
    members: &Map<String, Value>,
) -> Result<Option<Object>, AllocError>
    ensures { IfOk result
        (λ own. own ≡ own_in_members numbers (members_view members.now.entries)) }
{
    match read_attributes(alloc, numbers, members) {
        Ok(own) => Ok(own),
        Err(MetadataFault::OutOfMemory) => Err(AllocError),
        Err(_fault) => Ok(None),
    }
}

// The attributes that members have of the group itself, where their documents read.
fn read_attributes(
    alloc: Global,
    numbers: Numbers,
    members: &Map<String, Value>,
) -> Result<Option<Object>, MetadataFault>
    ensures { Gives (λ own. own) result
        (members_attributes numbers (members_view members.now.entries)) }
{
    if let Some(document) = member(members, ".zarray") {
        let array = ArrayMetadataV2::from_value_in(alloc, numbers, document)?;
        return Ok(Some(beside(alloc, numbers, members, array.attributes)?));
    }
    if let Some(document) = member(members, ".zgroup") {
        let group = GroupMetadataV2::from_value_in(alloc, numbers, document)?;
        return Ok(Some(beside(alloc, numbers, members, group.attributes)?));
    }
    Ok(None)
}

// The attributes that members have beside those of a document of the group itself, where they have some, and else these.
fn beside(
    alloc: Global,
    numbers: Numbers,
    members: &Map<String, Value>,
    attributes: Object,
) -> Result<Object, MetadataFault>
    ensures { Gives (λ all. all) result
        (attributes_beside numbers (get_member zattrs (members_view members.now.entries))
        attributes) }
{
    match member(members, ".zattrs") {
        Some(document) => Ok(AttributesDocument::from_value_in(alloc, numbers, document)?.0),
        None => Ok(attributes),
    }
}

// Whether two groups have the same attributes.
fn is_same(alloc: Global, first: Object, second: Object) -> bool
    ensures { IsTrue result ↔ (first ≡ second) }
{
    is_same_metadata(&group_with(alloc, first), &group_with(alloc, second))
}

// The group that has these attributes and nothing else.
fn group_with(alloc: Global, attributes: Object) -> NodeMetadata
    ensures { result
        ≡ Group (group_v2 (record { attributes = attributes; additional_fields = no_members })) }
{
    let additional_fields = Object::new(alloc);
    NodeMetadata::Group(GroupMetadata::V2(GroupMetadataV2 {
        attributes,
        additional_fields,
    }))
}
