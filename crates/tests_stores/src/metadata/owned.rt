//! Documents that are read from a value that is given away, or from members that were asked for their numbers.

use crate::metadata::given::value_of;
use serde_json::Value;
use std::alloc::Global;
use std::test::Fail;
use tests_support::{check_rows, fields, said};
use zarrs_fault::MetadataFault;
use zarrs_form::document;
use zarrs_meta::{
    ArrayMetadataV2, AttributesDocument, Document, GroupMetadataV2, NodeMetadata, WrittenDocument,
};

fn of_members<D: Document>(alloc: Global, value: Value) -> Result<D, MetadataFault> {
    D::from_members(alloc, document(value)?)
}

// What a document of version 2 reads as from the value that a text is.
fn value_says(alloc: Global, given: &str) -> Result<String, MetadataFault> {
    let (kind, text) = fields(given);
    let value = value_of(alloc, text)?;
    let answer = match kind {
        "array" => {
            let array = ArrayMetadataV2::from_owned_value(alloc, value);
            said(alloc, array, ArrayMetadataV2::to_text)
        }
        "group" => {
            let group = GroupMetadataV2::from_owned_value(alloc, value);
            said(alloc, group, GroupMetadataV2::to_text)
        }
        "attributes" => {
            let attributes = AttributesDocument::from_owned_value(alloc, value);
            said(alloc, attributes, AttributesDocument::to_text)
        }
        _ => String::from_str(alloc, "no such document"),
    };
    Ok(answer?)
}

// What it reads as from the members of that value.
fn members_say(alloc: Global, given: &str) -> Result<String, MetadataFault> {
    let (kind, text) = fields(given);
    let value = value_of(alloc, text)?;
    let answer = match kind {
        "array" => said(alloc, of_members(alloc, value), ArrayMetadataV2::to_text),
        "group" => said(alloc, of_members(alloc, value), GroupMetadataV2::to_text),
        "attributes" => said(alloc, of_members(alloc, value), AttributesDocument::to_text),
        _ => String::from_str(alloc, "no such document"),
    };
    Ok(answer?)
}

// Documents of version 2, as they read.
const OWNED: &str = r#"
array | {"chunks":[1],"compressor":null,"dtype":"<f8","fill_value":"NaN","filters":null,"more":[1],"order":"C","shape":[1],"zarr_format":2} => {"chunks":[1],"compressor":null,"dimension_separator":".","dtype":"<f8","fill_value":"NaN","filters":null,"more":[1],"order":"C","shape":[1],"zarr_format":2}
array | {"chunks":[1],"zarr_format":3} => WrongFormat: wrong zarr_format
array | {"chunks":[1.5]} => UnsupportedNumber: unsupported number
array | [] => NotAnObject: not an object
group | {"attributes":{"k":1},"more":1,"zarr_format":2} => {"attributes":{"k":1},"more":1,"zarr_format":2}
group | {"shape":[1],"zarr_format":2} => BadMember: bad member shape
group | {"zarr_format":1} => WrongFormat: wrong zarr_format
group | 1 => NotAnObject: not an object
attributes | {"b":1,"a":{"c":[]}} => {"a":{"c":[]},"b":1}
attributes | {"b":1.5} => UnsupportedNumber: unsupported number
attributes | [] => NotAnObject: not an object
"#;

#[test]
fn a_value_that_is_given_away_is_read(rt: HostRuntime) -> Result<(), Fail> {
    check_rows(rt.alloc(), OWNED, value_says)
}

#[test]
fn members_of_a_document_are_read(rt: HostRuntime) -> Result<(), Fail> {
    check_rows(rt.alloc(), OWNED, members_say)
}

fn node_says(alloc: Global, text: &str) -> Result<String, MetadataFault> {
    let node = of_members(alloc, value_of(alloc, text)?);
    Ok(said(alloc, node, NodeMetadata::to_text)?)
}

// Documents of either version, as their members read.
const NODES: &str = r#"
{"node_type":"group","zarr_format":3} => {"node_type":"group","zarr_format":3}
{"attributes":{"k":1},"zarr_format":2} => {"attributes":{"k":1},"zarr_format":2}
{"node_type":"node","zarr_format":3} => WrongNodeType: wrong node_type
{"zarr_format":4} => WrongFormat: wrong zarr_format
{"zarr_format":1.5} => UnsupportedNumber: unsupported number
"#;

#[test]
fn members_of_a_node_are_read(rt: HostRuntime) -> Result<(), Fail> {
    check_rows(rt.alloc(), NODES, node_says)
}
