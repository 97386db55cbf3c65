use crate::blocks::read::block_of;
use serde_json::Value;
use std::alloc::Global;
use std::test::Fail;
use tests_support::{check_rows, fields, said};
use zarrs_meta::{Document, GroupMetadataV2};
use zarrs_store::MetadataFault;

// The document of a group and those of a block at their keys, and the document of both.
const WRITTEN: &str = r#"
# Nodes are written as documents behind their names.
{"zarr_format":2} | => {"metadata":{".zgroup":{"zarr_format":2}},"zarr_consolidated_format":1}
{"zarr_format":2} | a={"chunks":[1],"compressor":null,"dtype":"<f8","fill_value":"NaN","filters":null,"order":"C","shape":[1],"zarr_format":2} => {"metadata":{".zgroup":{"zarr_format":2},"a/.zarray":{"chunks":[1],"compressor":null,"dimension_separator":".","dtype":"<f8","fill_value":"NaN","filters":null,"order":"C","shape":[1],"zarr_format":2}},"zarr_consolidated_format":1}
{"zarr_format":2} | a/b={"zarr_format":2};a={"zarr_format":2} => {"metadata":{".zgroup":{"zarr_format":2},"a/.zgroup":{"zarr_format":2},"a/b/.zgroup":{"zarr_format":2}},"zarr_consolidated_format":1}
# Attributes have a document of their own.
{"attributes":{"title":"t"},"more":1,"zarr_format":2} | g/a={"attributes":{"k":[1]},"chunks":[1],"compressor":null,"dtype":"<f8","fill_value":"NaN","filters":null,"order":"C","shape":[1],"zarr_format":2} => {"metadata":{".zattrs":{"title":"t"},".zgroup":{"more":1,"zarr_format":2},"g/a/.zarray":{"chunks":[1],"compressor":null,"dimension_separator":".","dtype":"<f8","fill_value":"NaN","filters":null,"order":"C","shape":[1],"zarr_format":2},"g/a/.zattrs":{"k":[1]}},"zarr_consolidated_format":1}
# A key with a slash in front is the one without; the key of the group itself is passed over.
{"zarr_format":2} | /foo={"attributes":{"k":1},"zarr_format":2};foo={"zarr_format":2} => {"metadata":{".zgroup":{"zarr_format":2},"foo/.zgroup":{"zarr_format":2}},"zarr_consolidated_format":1}
{"zarr_format":2} | /foo={"attributes":{"k":1},"zarr_format":2} => {"metadata":{".zgroup":{"zarr_format":2},"foo/.zattrs":{"k":1},"foo/.zgroup":{"zarr_format":2}},"zarr_consolidated_format":1}
{"zarr_format":2} | ={"attributes":{"k":1},"zarr_format":2};/={"node_type":"group","zarr_format":3} => {"metadata":{".zgroup":{"zarr_format":2}},"zarr_consolidated_format":1}
# Bad keys are refused before version 3.
{"zarr_format":2} | a={"node_type":"group","zarr_format":3};b={"chunks":[1],"compressor":null,"dtype":"<f8","fill_value":"NaN","filters":null,"order":"C","shape":[1],"zarr_format":2} => MetadataVersionMismatch: Found V2 metadata in V3 key or vice-versa
{"zarr_format":2} | a={"node_type":"group","zarr_format":3};a/../b={"chunks":[1],"compressor":null,"dtype":"<f8","fill_value":"NaN","filters":null,"order":"C","shape":[1],"zarr_format":2} => NodePathError(Invalid): invalid node path invalid node name `..` in 'a/../b'
# An array of version 3 is refused too.
{"zarr_format":2} | a={"chunk_grid":"g","chunk_key_encoding":"k","codecs":[],"data_type":"float32","fill_value":0,"node_type":"array","shape":[1],"zarr_format":3} => MetadataVersionMismatch: Found V2 metadata in V3 key or vice-versa
"#;

// The text of the document of a group and the block with these documents at these keys, or the refusal: the same of a copy, and where both are given away.
fn written(alloc: Global, given: &str) -> Result<String, MetadataFault> {
    let (group, documents) = fields(given);
    let block = block_of(alloc, documents)?;
    let group = GroupMetadataV2::from_bytes(alloc, group.as_bytes())?;
    let of_copy = said(alloc, block.to_zmetadata(alloc, &group), Value::to_string)?;
    let given_away = said(alloc, block.into_zmetadata(alloc, group), Value::to_string)?;
    if given_away.as_str() != of_copy.as_str() {
        return Ok(String::from_str(alloc, "other, given away")?);
    }
    Ok(given_away)
}

#[test]
fn a_group_and_a_block_are_written_as_a_document(rt: HostRuntime) -> Result<(), Fail> {
    check_rows(rt.alloc(), WRITTEN, written)
}
