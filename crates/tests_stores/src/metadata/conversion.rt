//! Groups and arrays of version 2 as groups and arrays of version 3: what is answered, and what is warned of.

use crate::metadata::given::object_of;
use log::sink::Writer;
use serde_json::Value;
use std::alloc::{AllocError, Global};
use std::test::Fail;
use tests_support::{check_rows, refusal, said, with_lines};
use zarrs_convert::{
    ArrayMetadataV2ToV3Error, DataTypeMetadataV2EndiannessError, array_metadata_v2_to_v3,
    group_metadata_v2_to_v3, laws,
};
use zarrs_fault::MetadataFault;
use zarrs_form::{Form, Layout};
use zarrs_meta::{
    ArrayMetadataV2, ArrayMetadataV3, Document, FillValueMetadata, GroupMetadataV2,
    GroupMetadataV3, List, MetadataV3, Object, Text, WrittenDocument,
};

// ---- what the tests share

/// A text of its own; the empty one where there is no memory.
pub(crate) fn string_of(alloc: Global, text: &str) -> String {
    match String::from_str(alloc, text) {
        Ok(text) => text,
        Err(_) => String::new(alloc),
    }
}

/// The extension of this name without configuration.
pub(crate) fn named(alloc: Global, name: &str) -> MetadataV3 {
    MetadataV3 {
        name: Text::new(string_of(alloc, name)),
        configuration: None,
        must_understand: true,
    }
}

// ---- what conversions say

/// The text of what a conversion answers: what `look` makes of the value, or what `refused` makes of the error.
pub(crate) fn told<T, E, F, G>(
    alloc: Global,
    answer: Result<T, E>,
    look: F,
    refused: G,
) -> Result<String, AllocError>
where
    T: Drop,
    E: Drop,
    F: FnOnce(&T, Global) -> Result<String, AllocError>,
    G: FnOnce(&E, Global) -> Result<String, AllocError>,
    requires look { F.IsAlwaysCallable look }
    requires refused { G.IsAlwaysCallable refused }
{
    match answer {
        Ok(value) => look(&value, alloc),
        Err(error) => refused(&error, alloc),
    }
}

/// A refusal and, behind a colon, what the error carries.
pub(crate) fn carried(
    error: &ArrayMetadataV2ToV3Error,
    alloc: Global,
) -> Result<String, AllocError> {
    let text = refusal(alloc, error)?;
    match error {
        ArrayMetadataV2ToV3Error::UnsupportedDataType(data_type) => {
            with_part(alloc, text, data_type)
        }
        ArrayMetadataV2ToV3Error::InvalidEndianness(invalid) => with_order(alloc, text, invalid),
        ArrayMetadataV2ToV3Error::UnsupportedCodec(_, configuration) => {
            with_part(
                alloc,
                text,
                &Object::from_map(alloc, configuration.clone()?)?,
            )
        }
        _ => Ok(text),
    }
}

/// The refusal of a byte order and, behind a colon, the data type that the error carries.
pub(crate) fn order_carried(
    error: &DataTypeMetadataV2EndiannessError,
    alloc: Global,
) -> Result<String, AllocError> {
    with_order(alloc, refusal(alloc, error)?, error)
}

// A text and the data type that an error of a byte order carries.
fn with_order(
    alloc: Global,
    text: String,
    error: &DataTypeMetadataV2EndiannessError,
) -> Result<String, AllocError> {
    match error {
        DataTypeMetadataV2EndiannessError::Invalid(data_type) => format!(in alloc;
            "{text}: {data_type}"
        ),
        DataTypeMetadataV2EndiannessError::OutOfMemory => Ok(text),
    }
}

// A text and the written form of a part.
fn with_part<T: Form>(alloc: Global, text: String, part: &T) -> Result<String, AllocError> {
    let mut text = format!(in alloc; "{text}: ")?;
    part.write(alloc, &mut text, Layout::Compact)?;
    Ok(text)
}

// ---- groups

// Groups of version 2, and the group of version 3 that each becomes: it keeps its attributes and drops its other fields.
const GROUPS: &str = r#"
{"zarr_format":2} => {"node_type":"group","zarr_format":3}
{"attributes":{"spam":1},"other":2,"zarr_format":2} => {"attributes":{"spam":1},"node_type":"group","zarr_format":3}
"#;

fn group_text(group: &GroupMetadataV3, alloc: Global) -> Result<String, AllocError> {
    group.to_text(alloc)
}

fn group_says(group: &GroupMetadataV2, alloc: Global) -> Result<String, AllocError> {
    said(alloc, group_metadata_v2_to_v3(alloc, group), group_text)
}

// What the group that a text is becomes, or the text of the fault.
fn converted_group(alloc: Global, document: &str) -> Result<String, AllocError> {
    said(
        alloc,
        GroupMetadataV2::from_bytes(alloc, document.as_bytes()),
        group_says,
    )
}

#[test]
fn groups_of_version_2_become_groups_of_version_3(rt: HostRuntime) -> Result<(), Fail> {
    check_rows(rt.alloc(), GROUPS, converted_group)
}

// ---- arrays

// Arrays of version 2, and the array of version 3 that each becomes or the error, with the lines that are warned with.
const ARRAYS: &str = r#"
# An array keeps its shape, its chunks and its attributes.
{"chunks":[1000,1000],"compressor":null,"dtype":"<f8","fill_value":"NaN","filters":null,"order":"F","shape":[10000,10000],"zarr_format":2} => {"chunk_grid":{"configuration":{"chunk_shape":[1000,1000]},"name":"regular"},"chunk_key_encoding":{"configuration":{"separator":"."},"name":"v2"},"codecs":[{"configuration":{"order":[1,0]},"name":"transpose"},{"configuration":{"endian":"little"},"name":"bytes"}],"data_type":"float64","fill_value":"NaN","node_type":"array","shape":[10000,10000],"zarr_format":3}
{"chunks":[],"compressor":null,"dtype":"<f8","fill_value":"NaN","filters":null,"order":"F","shape":[],"zarr_format":2} => {"chunk_grid":{"configuration":{"chunk_shape":[]},"name":"regular"},"chunk_key_encoding":{"configuration":{"separator":"."},"name":"v2"},"codecs":[{"configuration":{"order":[]},"name":"transpose"},{"configuration":{"endian":"little"},"name":"bytes"}],"data_type":"float64","fill_value":"NaN","node_type":"array","shape":[],"zarr_format":3}
{"attributes":{"k":1},"chunks":[2],"compressor":null,"dimension_separator":"/","dtype":">c16","fill_value":0,"filters":null,"order":"C","other":5,"shape":[7],"zarr_format":2} => {"attributes":{"k":1},"chunk_grid":{"configuration":{"chunk_shape":[2]},"name":"regular"},"chunk_key_encoding":{"configuration":{"separator":"/"},"name":"v2"},"codecs":[{"configuration":{"endian":"big"},"name":"bytes"}],"data_type":"complex128","fill_value":0,"node_type":"array","shape":[7],"zarr_format":3}
{"chunks":[1],"compressor":null,"dtype":">c16","fill_value":0,"filters":null,"order":"C","shape":[1],"zarr_format":2} => {"chunk_grid":{"configuration":{"chunk_shape":[1]},"name":"regular"},"chunk_key_encoding":{"configuration":{"separator":"."},"name":"v2"},"codecs":[{"configuration":{"endian":"big"},"name":"bytes"}],"data_type":"complex128","fill_value":0,"node_type":"array","shape":[1],"zarr_format":3}
# It is warned of where its fill value changes.
{"chunks":[2],"compressor":null,"dtype":"|V2","fill_value":null,"filters":[],"order":"C","shape":[7],"zarr_format":2} => {"chunk_grid":{"configuration":{"chunk_shape":[2]},"name":"regular"},"chunk_key_encoding":{"configuration":{"separator":"."},"name":"v2"},"codecs":[{"configuration":{"endian":"little"},"name":"bytes"}],"data_type":"r16","fill_value":[0,0],"node_type":"array","shape":[7],"zarr_format":3}\n[WARN  zarrs_convert::fill_value] Fill value of `null` specified for data type r16. This is unsupported in Zarr V3; mapping to a default value.\n
{"chunks":[2],"compressor":null,"dtype":"|O","fill_value":0,"filters":[{"id":"vlen-utf8"}],"order":"C","shape":[7],"zarr_format":2} => {"chunk_grid":{"configuration":{"chunk_shape":[2]},"name":"regular"},"chunk_key_encoding":{"configuration":{"separator":"."},"name":"v2"},"codecs":[{"configuration":{},"name":"vlen-utf8"}],"data_type":"string","fill_value":"","node_type":"array","shape":[7],"zarr_format":3}\n[WARN  zarrs_convert::fill_value] Permitting non-conformant `0` fill value for `string` data type (zarr-python compatibility).\n
# It is refused by its first fault.
{"chunks":[1],"shape":[1],"zarr_format":2,"dtype":"float64","fill_value":0,"order":"C"} => InvalidEndianness(Invalid): invalid endianness: float64
{"chunks":[1],"shape":[1],"zarr_format":2,"dtype":"","fill_value":0,"order":"C"} => InvalidEndianness(Invalid): invalid endianness: 
{"chunks":[1],"shape":[1],"zarr_format":2,"dtype":"|i2","fill_value":0,"order":"C"} => UnsupportedDataType(Simple): unsupported data type: "|i2"
{"chunks":[1],"shape":[1],"zarr_format":2,"dtype":[["r","|u1"],["g","|u1"]],"fill_value":0,"order":"C"} => UnsupportedDataType(Structured): unsupported data type: [["r","|u1"],["g","|u1"]]
{"chunks":[1],"shape":[1],"zarr_format":2,"compressor":{"id":"zlib"},"dtype":"=i2","fill_value":null,"filters":[{"id":"delta"}],"order":"F"} => InvalidEndianness(Invalid): invalid endianness: =i2
{"chunks":[1],"shape":[1],"zarr_format":2,"compressor":{"id":"zlib"},"dtype":"<i1","fill_value":null,"filters":[{"id":"delta"}],"order":"F"} => UnsupportedDataType(Simple): unsupported data type: "<i1"
{"chunks":[1],"shape":[1],"zarr_format":2,"compressor":{"id":"zlib"},"dtype":"|V8","fill_value":null,"filters":[{"id":"delta","n":1}],"order":"F"} => UnsupportedCodec: unsupported codec delta: {"n":1}\n[WARN  zarrs_convert::fill_value] Fill value of `null` specified for data type r64. This is unsupported in Zarr V3; mapping to a default value.\n
{"chunks":[1],"shape":[1],"zarr_format":2,"compressor":{"id":"zlib"},"dtype":"|O","fill_value":"","filters":[{"id":"vlen-utf8"},{"id":"vlen-bytes"}],"order":"C"} => MultipleArrayToBytesCodecs: multiple array to bytes codecs
{"chunks":[1],"shape":[1],"zarr_format":2,"compressor":{"id":"blosc","cname":"lz4","clevel":5,"shuffle":1},"dtype":"<f8","fill_value":"NaN","order":"F"} => UnsupportedCodec: unsupported codec blosc: {"clevel":5,"cname":"lz4","shuffle":1}
"#;

fn array_text(array: &ArrayMetadataV3, alloc: Global) -> Result<String, AllocError> {
    array.to_text(alloc)
}

// What the conversion of an array answers, and the lines that it warns with.
fn array_says(array: &ArrayMetadataV2, alloc: Global) -> Result<String, AllocError> {
    let sink = Writer::new(Vec::new(alloc));
    let answer = array_metadata_v2_to_v3(&sink, alloc, array);
    let text = told(alloc, answer, array_text, carried);
    with_lines(alloc, text, "\n", sink.into_inner())
}

// What the array that a text is becomes, or the text of the fault.
fn converted_array(alloc: Global, document: &str) -> Result<String, AllocError> {
    said(
        alloc,
        ArrayMetadataV2::from_bytes(alloc, document.as_bytes()),
        array_says,
    )
}

#[test]
fn arrays_of_version_2_become_arrays_of_version_3(rt: HostRuntime) -> Result<(), Fail> {
    check_rows(rt.alloc(), ARRAYS, converted_array)
}

// ---- arrays of version 3 that are made of their parts

// The extension of this name with a configuration.
fn configured(alloc: Global, name: &str, configuration: &str) -> Result<MetadataV3, MetadataFault> {
    Ok(MetadataV3 {
        name: Text::new(string_of(alloc, name)),
        configuration: Some(object_of(alloc, configuration)?),
        must_understand: true,
    })
}

// The list of one item.
fn list_of<T: Drop>(alloc: Global, item: T) -> List<T> {
    let mut items = Vec::new(alloc);
    drop(items.push(item));
    List::new(items)
}

fn new_array(alloc: Global) -> Result<ArrayMetadataV3, MetadataFault> {
    let chunk_grid = configured(alloc, "regular", r#"{"chunk_shape":[2]}"#)?;
    let array = ArrayMetadataV3::new(
        alloc,
        list_of(alloc, 5),
        chunk_grid,
        named(alloc, "int8"),
        FillValueMetadata::new(Value::from(7u64)),
        list_of(alloc, named(alloc, "crc32c")),
    )?;
    Ok(array)
}

// The same with attributes and another encoding of keys.
fn changed_array(alloc: Global) -> Result<ArrayMetadataV3, MetadataFault> {
    let attributes = object_of(alloc, r#"{"k":1}"#)?;
    let array = new_array(alloc)?;
    Ok(
        array
            .with_attributes(attributes)
            .with_chunk_key_encoding(named(alloc, "other")),
    )
}

// The arrays above, and what each is.
const MADE: &str = r#"
new => {"chunk_grid":{"configuration":{"chunk_shape":[2]},"name":"regular"},"chunk_key_encoding":{"configuration":{"separator":"/"},"name":"default"},"codecs":["crc32c"],"data_type":"int8","fill_value":7,"node_type":"array","shape":[5],"zarr_format":3}
changed => {"attributes":{"k":1},"chunk_grid":{"configuration":{"chunk_shape":[2]},"name":"regular"},"chunk_key_encoding":"other","codecs":["crc32c"],"data_type":"int8","fill_value":7,"node_type":"array","shape":[5],"zarr_format":3}
"#;

// The text of the new array or of the changed one.
fn made_array(alloc: Global, given: &str) -> Result<String, AllocError> {
    match given {
        "new" => said(alloc, new_array(alloc), array_text),
        "changed" => said(alloc, changed_array(alloc), array_text),
        _ => String::from_str(alloc, "no such array"),
    }
}

#[test]
fn an_array_of_version_3_is_made_of_its_parts(rt: HostRuntime) -> Result<(), Fail> {
    check_rows(rt.alloc(), MADE, made_array)
}

// ---- laws

#[test]
fn the_laws_of_conversion_are_called(_rt: HostRuntime) {
    laws::converted_group_is_plain();
    laws::converted_array_is_plain();
    laws::converted_array_keeps();
}
