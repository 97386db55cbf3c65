//! Documents as they are read and written, by every way that leads in or out.

use serde_json::Value;
use std::alloc::{AllocError, Global};
use std::test::Fail;
use tests_support::{A3, check_rows, fields, made, said};
use zarrs_fault::{MetadataFault, Numbers};
use zarrs_form::Layout;
use zarrs_meta::{
    ArrayMetadata, ArrayMetadataV2, ArrayMetadataV3, AttributesDocument, BoxedArray, Document,
    GroupMetadata, GroupMetadataV2, GroupMetadataV3, NodeMetadata, WrittenDocument, ZarrJson, laws,
};

// ---- what the document types have in common

// Whether it is plain; what is written of it then reads back and has no fraction, by the laws.
fn reads_back<D: WrittenDocument>(document: &D) -> bool {
    document.plain_is_whole();
    if document.is_plain() {
        document.reads_back(Numbers::Whole);
        return true;
    }
    false
}

// The text of the value that is written of a copy; of what is not plain just that.
fn copied_text<D: WrittenDocument + Drop>(
    document: &D,
    alloc: Global,
) -> Result<String, AllocError> {
    if !reads_back(document) {
        return String::from_str(alloc, "not plain");
    }
    said(alloc, document.try_clone(alloc), written_text)
}

// The text of the value that is written, where the pretty text of the document is that of the value.
fn written_text<D: WrittenDocument>(document: &D, alloc: Global) -> Result<String, AllocError> {
    let value = document.to_value(alloc)?;
    let mut pretty = String::new(alloc);
    document.write(alloc, &mut pretty, Layout::Pretty(0))?;
    if pretty.as_bytes() != value.to_vec_pretty(alloc)?.as_slice() {
        return String::from_str(alloc, "another pretty text");
    }
    value.to_string(alloc)
}

// What two ways answer: one text, or that there are two.
pub(crate) fn agreed(alloc: Global, one: String, other: String) -> Result<String, AllocError> {
    if one.as_str() == other.as_str() {
        return Ok(one);
    }
    format!(in alloc; "two answers: {one} and {other}")
}

// The text of a document, and of the value that is written of it: one and the same.
fn written_both<D: WrittenDocument>(document: &D, alloc: Global) -> Result<String, AllocError> {
    agreed(
        alloc,
        document.to_text(alloc)?,
        written_text(document, alloc)?,
    )
}

// The document of the value that a text is.
fn of_value_of<D: WrittenDocument>(alloc: Global, text: &str) -> Result<D, MetadataFault> {
    match Value::from_str(alloc, text) {
        Ok(value) => D::from_value(alloc, &value),
        Err(_) => Err(MetadataFault::NotJson),
    }
}

// What the bytes of a text, and the value that they are, read as, or are refused with.
fn read_both<D: WrittenDocument + Drop>(alloc: Global, text: &str) -> Result<String, AllocError> {
    let of_bytes = said(alloc, D::from_bytes(alloc, text.as_bytes()), written_both)?;
    let of_value = said(alloc, of_value_of::<D>(alloc, text), copied_text)?;
    agreed(alloc, of_bytes, of_value)
}

// What a row's document reads as; its line ends are written as `¶`.
fn read_text<D: WrittenDocument + Drop>(alloc: Global, given: &str) -> Result<String, AllocError> {
    let text = given.replace(alloc, '¶', "\n")?;
    read_both::<D>(alloc, text.as_str())
}

// ---- documents of each type, and what they are written as or refused with

// Groups of version 3.
const GROUPS_V3: &str = r#"
# numbers have 64 bits
{"attributes":{"n":1.5},"node_type":"group","zarr_format":3} => UnsupportedNumber: unsupported number
{"attributes":{"n":18446744073709551615},"node_type":"group","zarr_format":3} => {"attributes":{"n":18446744073709551615},"node_type":"group","zarr_format":3}
{"attributes":{"n":-9223372036854775808},"node_type":"group","zarr_format":3} => {"attributes":{"n":-9223372036854775808},"node_type":"group","zarr_format":3}
# a document is followed by blanks alone
{"node_type":"group","zarr_format":3}x => NotJson: not JSON
{"node_type":"group","zarr_format":3}¶ => {"node_type":"group","zarr_format":3}
# lists in lists are read to a depth
{"attributes":{"k":[[[[[[[[[[[[[[[[[[[[[[[[[[[[[[[[[[[[[[[[[[[[[[[[[[[[[[[[[[[[[[[[[[[[[[[[[[[[[[[[[[[[[[[[[[[[[[[[[[[[]]]]]]]]]]]]]]]]]]]]]]]]]]]]]]]]]]]]]]]]]]]]]]]]]]]]]]]]]]]]]]]]]]]]]]]]]]]]]]]]]]]]]]]]]]]]]]]]]]]]},"node_type":"group","zarr_format":3} => {"attributes":{"k":[[[[[[[[[[[[[[[[[[[[[[[[[[[[[[[[[[[[[[[[[[[[[[[[[[[[[[[[[[[[[[[[[[[[[[[[[[[[[[[[[[[[[[[[[[[[[[[[[[[[]]]]]]]]]]]]]]]]]]]]]]]]]]]]]]]]]]]]]]]]]]]]]]]]]]]]]]]]]]]]]]]]]]]]]]]]]]]]]]]]]]]]]]]]]]]]]]]]]]]]},"node_type":"group","zarr_format":3}
{"attributes":{"k":[[[[[[[[[[[[[[[[[[[[[[[[[[[[[[[[[[[[[[[[[[[[[[[[[[[[[[[[[[[[[[[[[[[[[[[[[[[[[[[[[[[[[[[[[[[[[[[[[[[[[[[[[[[[[[[[[[[[[[[[[[[[[[[[[[[[[[[[[[[[[[[[[[[[[[[[[[[[[[[[[[[[[[[[[[[[[[[[[[[[[[[[[[[[[[[[[[[[[[[[]]]]]]]]]]]]]]]]]]]]]]]]]]]]]]]]]]]]]]]]]]]]]]]]]]]]]]]]]]]]]]]]]]]]]]]]]]]]]]]]]]]]]]]]]]]]]]]]]]]]]]]]]]]]]]]]]]]]]]]]]]]]]]]]]]]]]]]]]]]]]]]]]]]]]]]]]]]]]]]]]]]]]]]]]]]]]]]]]]]]]]]]]]]]]]]]]]]]]]]]},"node_type":"group","zarr_format":3} => NotJson: not JSON
# members, own and additional
{¶    "zarr_format": 3,¶    "node_type": "group",¶    "attributes": {¶        "spam": "ham",¶        "eggs": 42¶    }¶} => {"attributes":{"eggs":42,"spam":"ham"},"node_type":"group","zarr_format":3}
{¶            "zarr_format": 3,¶            "node_type": "group",¶            "attributes": {¶                "spam": "ham",¶                "eggs": 42¶            },¶            "unknown": {¶                "must_understand": false¶            }¶        } => {"attributes":{"eggs":42,"spam":"ham"},"node_type":"group","unknown":{"must_understand":false},"zarr_format":3}
{"zarr_format":2,"node_type":"group","attributes":{"spam":"ham","eggs":42}} => WrongFormat: wrong zarr_format
{"zarr_format":3,"node_type":"array","attributes":{"spam":"ham","eggs":42}} => WrongNodeType: wrong node_type
{"consolidated_metadata":null,"node_type":"group","zarr_format":3} => {"node_type":"group","zarr_format":3}
{"consolidated_metadata":1,"node_type":"group","zarr_format":3} => {"consolidated_metadata":1,"node_type":"group","zarr_format":3}
{"zarr_format":3,"node_type":"group","attributes":{"spam":"ham","eggs":42},"unknown":"unsupported"} => {"attributes":{"eggs":42,"spam":"ham"},"node_type":"group","unknown":"unsupported","zarr_format":3}
"#;

#[test]
fn groups_of_version_3(rt: HostRuntime) -> Result<(), Fail> {
    check_rows(rt.alloc(), GROUPS_V3, read_text::<GroupMetadataV3>)
}

// Groups of version 2.
const GROUPS_V2: &str = r#"
# a group has no shape
{"zarr_format":2,"shape":[1]} => BadMember: bad member shape
# members, own and additional
{"attributes":{"k":1},"other":[],"zarr_format":2} => {"attributes":{"k":1},"other":[],"zarr_format":2}
{"other":[],"zarr_format":2} => {"other":[],"zarr_format":2}
"#;

#[test]
fn groups_of_version_2(rt: HostRuntime) -> Result<(), Fail> {
    check_rows(rt.alloc(), GROUPS_V2, read_text::<GroupMetadataV2>)
}

// Arrays of version 3.
const ARRAYS_V3: &str = r#"
# members, own and additional
{"chunk_grid":{"configuration":{"chunk_shape":[1]},"name":"regular"},"chunk_key_encoding":{"configuration":{"separator":"/"},"name":"default"},"codecs":[{"configuration":{"endian":"little"},"name":"bytes"}],"data_type":"float32","fill_value":0,"node_type":"array","shape":[1],"zarr_format":3} => {"chunk_grid":{"configuration":{"chunk_shape":[1]},"name":"regular"},"chunk_key_encoding":{"configuration":{"separator":"/"},"name":"default"},"codecs":[{"configuration":{"endian":"little"},"name":"bytes"}],"data_type":"float32","fill_value":0,"node_type":"array","shape":[1],"zarr_format":3}
{"attributes":{"bar":"apples","baz":[1,2,3,4],"foo":42},"chunk_grid":{"configuration":{"chunk_shape":[1000,100]},"name":"regular"},"chunk_key_encoding":{"configuration":{"separator":"/"},"name":"default"},"codecs":[{"configuration":{"endian":"little"},"name":"bytes"},{"configuration":{"level":1},"name":"gzip"}],"data_type":"float64","dimension_names":["rows","columns"],"fill_value":"NaN","node_type":"array","shape":[10000,1000],"zarr_format":3} => {"attributes":{"bar":"apples","baz":[1,2,3,4],"foo":42},"chunk_grid":{"configuration":{"chunk_shape":[1000,100]},"name":"regular"},"chunk_key_encoding":{"configuration":{"separator":"/"},"name":"default"},"codecs":[{"configuration":{"endian":"little"},"name":"bytes"},{"configuration":{"level":1},"name":"gzip"}],"data_type":"float64","dimension_names":["rows","columns"],"fill_value":"NaN","node_type":"array","shape":[10000,1000],"zarr_format":3}
# data types
{"chunk_grid":{"configuration":{"chunk_shape":[1]},"name":"regular"},"chunk_key_encoding":{"configuration":{"separator":"/"},"name":"default"},"codecs":[{"configuration":{"endian":"little"},"name":"bytes"}],"data_type":{"name":"float32"},"fill_value":0,"node_type":"array","shape":[1],"zarr_format":3} => {"chunk_grid":{"configuration":{"chunk_shape":[1]},"name":"regular"},"chunk_key_encoding":{"configuration":{"separator":"/"},"name":"default"},"codecs":[{"configuration":{"endian":"little"},"name":"bytes"}],"data_type":"float32","fill_value":0,"node_type":"array","shape":[1],"zarr_format":3}
{"chunk_grid":{"configuration":{"chunk_shape":[1]},"name":"regular"},"chunk_key_encoding":{"configuration":{"separator":"/"},"name":"default"},"codecs":[{"configuration":{"endian":"little"},"name":"bytes"}],"data_type":{"must_understand":false,"name":"float32"},"fill_value":0,"node_type":"array","shape":[1],"zarr_format":3} => {"chunk_grid":{"configuration":{"chunk_shape":[1]},"name":"regular"},"chunk_key_encoding":{"configuration":{"separator":"/"},"name":"default"},"codecs":[{"configuration":{"endian":"little"},"name":"bytes"}],"data_type":{"must_understand":false,"name":"float32"},"fill_value":0,"node_type":"array","shape":[1],"zarr_format":3}
{"chunk_grid":{"configuration":{"chunk_shape":[1]},"name":"regular"},"chunk_key_encoding":{"configuration":{"separator":"/"},"name":"default"},"codecs":[{"configuration":{"endian":"little"},"name":"bytes"}],"data_type":{"configuration":{},"name":"x"},"fill_value":0,"node_type":"array","shape":[1],"zarr_format":3} => {"chunk_grid":{"configuration":{"chunk_shape":[1]},"name":"regular"},"chunk_key_encoding":{"configuration":{"separator":"/"},"name":"default"},"codecs":[{"configuration":{"endian":"little"},"name":"bytes"}],"data_type":{"configuration":{},"name":"x"},"fill_value":0,"node_type":"array","shape":[1],"zarr_format":3}
{"chunk_grid":{"configuration":{"chunk_shape":[1]},"name":"regular"},"chunk_key_encoding":{"configuration":{"separator":"/"},"name":"default"},"codecs":[{"configuration":{"endian":"little"},"name":"bytes"}],"data_type":{"configuration":null,"name":"x","other":1},"fill_value":0,"node_type":"array","shape":[1],"zarr_format":3} => {"chunk_grid":{"configuration":{"chunk_shape":[1]},"name":"regular"},"chunk_key_encoding":{"configuration":{"separator":"/"},"name":"default"},"codecs":[{"configuration":{"endian":"little"},"name":"bytes"}],"data_type":"x","fill_value":0,"node_type":"array","shape":[1],"zarr_format":3}
# dimension names may be absent
{"chunk_grid":{"configuration":{"chunk_shape":[1]},"name":"regular"},"chunk_key_encoding":{"configuration":{"separator":"/"},"name":"default"},"codecs":[{"configuration":{"endian":"little"},"name":"bytes"}],"data_type":"float32","dimension_names":["x",null],"fill_value":0,"node_type":"array","shape":[1],"zarr_format":3} => {"chunk_grid":{"configuration":{"chunk_shape":[1]},"name":"regular"},"chunk_key_encoding":{"configuration":{"separator":"/"},"name":"default"},"codecs":[{"configuration":{"endian":"little"},"name":"bytes"}],"data_type":"float32","dimension_names":["x",null],"fill_value":0,"node_type":"array","shape":[1],"zarr_format":3}
{"chunk_grid":{"configuration":{"chunk_shape":[1]},"name":"regular"},"chunk_key_encoding":{"configuration":{"separator":"/"},"name":"default"},"codecs":[{"configuration":{"endian":"little"},"name":"bytes"}],"data_type":"float32","dimension_names":null,"fill_value":0,"node_type":"array","shape":[1],"zarr_format":3} => {"chunk_grid":{"configuration":{"chunk_shape":[1]},"name":"regular"},"chunk_key_encoding":{"configuration":{"separator":"/"},"name":"default"},"codecs":[{"configuration":{"endian":"little"},"name":"bytes"}],"data_type":"float32","fill_value":0,"node_type":"array","shape":[1],"zarr_format":3}
# members have their forms
{"chunk_grid":{"configuration":{"chunk_shape":[1]},"name":"regular"},"chunk_key_encoding":{"configuration":{"separator":"/"},"name":"default"},"codecs":[{"configuration":{"endian":"little"},"name":"bytes"}],"data_type":"float32","fill_value":0,"node_type":"array","shape":[-1],"zarr_format":3} => BadMember: bad member shape
{"chunk_grid":{"configuration":{"chunk_shape":[1]},"name":"regular"},"chunk_key_encoding":{"configuration":{"separator":"/"},"name":"default"},"codecs":[1],"data_type":"float32","fill_value":0,"node_type":"array","shape":[1],"zarr_format":3} => BadMember: bad member codecs
{"chunk_grid":{"configuration":{"chunk_shape":[1]},"name":"regular"},"chunk_key_encoding":{"configuration":{"separator":"/"},"name":"default"},"codecs":[{"configuration":{"endian":"little"},"name":"bytes"}],"data_type":"float32","dimension_names":[1],"fill_value":0,"node_type":"array","shape":[1],"zarr_format":3} => BadMember: bad member dimension_names
{"chunk_grid":{"configuration":{"chunk_shape":[1]},"name":"regular"},"chunk_key_encoding":{"configuration":{"separator":"/"},"name":"default"},"codecs":[{"configuration":{"endian":"little"},"name":"bytes"}],"data_type":"float32","storage_transformers":1,"fill_value":0,"node_type":"array","shape":[1],"zarr_format":3} => BadMember: bad member storage_transformers
{"chunk_grid":{"configuration":{"chunk_shape":[1]},"name":"regular"},"chunk_key_encoding":{"configuration":{"separator":"/"},"name":"default"},"codecs":1,"data_type":"float32","storage_transformers":1,"fill_value":0,"node_type":"array","shape":1,"zarr_format":3} => BadMember: bad member shape
# the format is asked first
{} => WrongFormat: wrong zarr_format
"#;

#[test]
fn arrays_of_version_3(rt: HostRuntime) -> Result<(), Fail> {
    check_rows(rt.alloc(), ARRAYS_V3, read_text::<ArrayMetadataV3>)
}

// Arrays of version 2.
const ARRAYS_V2: &str = r#"
# members, own and additional
{"chunks":[1],"compressor":null,"dtype":"<f8","fill_value":"NaN","filters":null,"order":"C","shape":[1],"zarr_format":2} => {"chunks":[1],"compressor":null,"dimension_separator":".","dtype":"<f8","fill_value":"NaN","filters":null,"order":"C","shape":[1],"zarr_format":2}
{"chunks":[1000,1000],"compressor":{"id":"blosc","cname":"lz4","clevel":5,"shuffle":1},"dtype":"<f8","fill_value":"NaN","filters":null,"order":"F","shape":[10000,10000],"zarr_format":2} => {"chunks":[1000,1000],"compressor":{"clevel":5,"cname":"lz4","id":"blosc","shuffle":1},"dimension_separator":".","dtype":"<f8","fill_value":"NaN","filters":null,"order":"F","shape":[10000,10000],"zarr_format":2}
{"chunks":[1],"compressor":null,"dimension_separator":"/","dtype":[["r","|u1"],["g","|u1"]],"fill_value":null,"filters":[{"id":"delta"}],"order":"C","shape":[1],"zarr_format":2} => {"chunks":[1],"compressor":null,"dimension_separator":"/","dtype":[["r","|u1"],["g","|u1"]],"fill_value":null,"filters":[{"id":"delta"}],"order":"C","shape":[1],"zarr_format":2}
{"chunks":[1],"compressor":null,"dimension_separator":null,"dtype":"<f8","fill_value":0,"order":"F","shape":[1],"zarr_format":2} => {"chunks":[1],"compressor":null,"dimension_separator":".","dtype":"<f8","fill_value":0,"filters":null,"order":"F","shape":[1],"zarr_format":2}
{"chunks":[1],"compressor":{"id":"zlib","level":1},"dimension_separator":"/","dtype":"<f8","fill_value":0,"order":"C","shape":[1],"zarr_format":2} => {"chunks":[1],"compressor":{"id":"zlib","level":1},"dimension_separator":"/","dtype":"<f8","fill_value":0,"filters":null,"order":"C","shape":[1],"zarr_format":2}
# members have their forms
{"chunks":[0],"compressor":null,"dtype":"<f8","fill_value":"NaN","filters":null,"order":"C","shape":[1],"zarr_format":2} => BadMember: bad member chunks
{"chunks":[1],"compressor":{"id":1},"dtype":"<f8","fill_value":"NaN","filters":null,"order":"C","shape":[1],"zarr_format":2} => BadMember: bad member compressor
{"chunks":[1],"compressor":null,"dtype":"<f8","fill_value":"NaN","filters":null,"order":"A","shape":[1],"zarr_format":2} => BadMember: bad member order
{"chunks":[1],"compressor":null,"dimension_separator":"-","dtype":"<f8","fill_value":"NaN","filters":null,"order":"C","shape":[1],"zarr_format":2} => BadMember: bad member dimension_separator
{"chunks":[1],"compressor":null,"dtype":"<f8","fill_value":"NaN","filters":[1],"order":"C","shape":[1],"zarr_format":2} => BadMember: bad member filters
"#;

#[test]
fn arrays_of_version_2(rt: HostRuntime) -> Result<(), Fail> {
    check_rows(rt.alloc(), ARRAYS_V2, read_text::<ArrayMetadataV2>)
}

// Documents of attributes, which have no members of their own.
const ATTRIBUTES: &str = r#"
{"k":1,"zarr_format":7} => {"k":1,"zarr_format":7}
1 => NotAnObject: not an object
1.5 => UnsupportedNumber: unsupported number
{ => NotJson: not JSON
"#;

#[test]
fn attributes_have_no_table(rt: HostRuntime) -> Result<(), Fail> {
    check_rows(rt.alloc(), ATTRIBUTES, read_text::<AttributesDocument>)
}

// Documents of any group or array.
const NODES: &str = r#"
# faults come in order
{"zarr_format":3 => NotJson: not JSON
[] => NotAnObject: not an object
[1.5] => UnsupportedNumber: unsupported number
{} => WrongFormat: wrong zarr_format
{"zarr_format":3} => WrongNodeType: wrong node_type
{"zarr_format":3,"node_type":"array"} => MissingMember: missing member shape
{"zarr_format":3,"node_type":"group","attributes":1} => BadMember: bad member attributes
{"zarr_format":3,"node_type":"group","attributes":{"spam":"ham","eggs":42}} => {"attributes":{"eggs":42,"spam":"ham"},"node_type":"group","zarr_format":3}
{"node_type":"group","zarr_format":3}x => NotJson: not JSON
{"node_type":"group","zarr_format":3}¶ => {"node_type":"group","zarr_format":3}
{"attributes":{"k":[[[[[[[[[[[[[[[[[[[[[[[[[[[[[[[[[[[[[[[[[[[[[[[[[[[[[[[[[[[[[[[[[[[[[[[[[[[[[[[[[[[[[[[[[[[[[[[[[[[[]]]]]]]]]]]]]]]]]]]]]]]]]]]]]]]]]]]]]]]]]]]]]]]]]]]]]]]]]]]]]]]]]]]]]]]]]]]]]]]]]]]]]]]]]]]]]]]]]]]]},"node_type":"group","zarr_format":3} => {"attributes":{"k":[[[[[[[[[[[[[[[[[[[[[[[[[[[[[[[[[[[[[[[[[[[[[[[[[[[[[[[[[[[[[[[[[[[[[[[[[[[[[[[[[[[[[[[[[[[[[[[[[[[[]]]]]]]]]]]]]]]]]]]]]]]]]]]]]]]]]]]]]]]]]]]]]]]]]]]]]]]]]]]]]]]]]]]]]]]]]]]]]]]]]]]]]]]]]]]]]]]]]]]]},"node_type":"group","zarr_format":3}
{"attributes":{"k":[[[[[[[[[[[[[[[[[[[[[[[[[[[[[[[[[[[[[[[[[[[[[[[[[[[[[[[[[[[[[[[[[[[[[[[[[[[[[[[[[[[[[[[[[[[[[[[[[[[[[[[[[[[[[[[[[[[[[[[[[[[[[[[[[[[[[[[[[[[[[[[[[[[[[[[[[[[[[[[[[[[[[[[[[[[[[[[[[[[[[[[[[[[[[[[[[[[[[[[[]]]]]]]]]]]]]]]]]]]]]]]]]]]]]]]]]]]]]]]]]]]]]]]]]]]]]]]]]]]]]]]]]]]]]]]]]]]]]]]]]]]]]]]]]]]]]]]]]]]]]]]]]]]]]]]]]]]]]]]]]]]]]]]]]]]]]]]]]]]]]]]]]]]]]]]]]]]]]]]]]]]]]]]]]]]]]]]]]]]]]]]]]]]]]]]]]]]]]]]]},"node_type":"group","zarr_format":3} => NotJson: not JSON
{"zarr_format":3,"node_type":"group"}x => NotJson: not JSON
{"zarr_format":3,"node_type":"group"}¶ => {"node_type":"group","zarr_format":3}
{"node_type":"group","zarr_format":3} => {"node_type":"group","zarr_format":3}
{"zarr_format":2} => {"zarr_format":2}
{"chunks":[1],"compressor":null,"dtype":"<f8","fill_value":"NaN","filters":null,"order":"C","shape":[1],"zarr_format":2} => {"chunks":[1],"compressor":null,"dimension_separator":".","dtype":"<f8","fill_value":"NaN","filters":null,"order":"C","shape":[1],"zarr_format":2}
# groups of version 2
{"attributes":{"k":1},"other":[],"zarr_format":2} => {"attributes":{"k":1},"other":[],"zarr_format":2}
# arrays of version 2
{"chunks":[1000,1000],"compressor":{"id":"blosc","cname":"lz4","clevel":5,"shuffle":1},"dtype":"<f8","fill_value":"NaN","filters":null,"order":"F","shape":[10000,10000],"zarr_format":2} => {"chunks":[1000,1000],"compressor":{"clevel":5,"cname":"lz4","id":"blosc","shuffle":1},"dimension_separator":".","dtype":"<f8","fill_value":"NaN","filters":null,"order":"F","shape":[10000,10000],"zarr_format":2}
{"chunks":[1],"compressor":null,"dimension_separator":"/","dtype":[["r","|u1"],["g","|u1"]],"fill_value":null,"filters":[{"id":"delta"}],"order":"C","shape":[1],"zarr_format":2} => {"chunks":[1],"compressor":null,"dimension_separator":"/","dtype":[["r","|u1"],["g","|u1"]],"fill_value":null,"filters":[{"id":"delta"}],"order":"C","shape":[1],"zarr_format":2}
{"chunks":[1],"compressor":null,"dimension_separator":null,"dtype":"<f8","fill_value":0,"order":"F","shape":[1],"zarr_format":2} => {"chunks":[1],"compressor":null,"dimension_separator":".","dtype":"<f8","fill_value":0,"filters":null,"order":"F","shape":[1],"zarr_format":2}
{"chunks":[1],"compressor":{"id":"zlib","level":1},"dimension_separator":"/","dtype":"<f8","fill_value":0,"order":"C","shape":[1],"zarr_format":2} => {"chunks":[1],"compressor":{"id":"zlib","level":1},"dimension_separator":"/","dtype":"<f8","fill_value":0,"filters":null,"order":"C","shape":[1],"zarr_format":2}
# arrays of version 3
{"chunk_grid":{"configuration":{"chunk_shape":[1]},"name":"regular"},"chunk_key_encoding":{"configuration":{"separator":"/"},"name":"default"},"codecs":[{"configuration":{"endian":"little"},"name":"bytes"}],"data_type":"float32","fill_value":0,"node_type":"array","shape":[1],"zarr_format":3} => {"chunk_grid":{"configuration":{"chunk_shape":[1]},"name":"regular"},"chunk_key_encoding":{"configuration":{"separator":"/"},"name":"default"},"codecs":[{"configuration":{"endian":"little"},"name":"bytes"}],"data_type":"float32","fill_value":0,"node_type":"array","shape":[1],"zarr_format":3}
{"attributes":{"bar":"apples","baz":[1,2,3,4],"foo":42},"chunk_grid":{"configuration":{"chunk_shape":[1000,100]},"name":"regular"},"chunk_key_encoding":{"configuration":{"separator":"/"},"name":"default"},"codecs":[{"configuration":{"endian":"little"},"name":"bytes"},{"configuration":{"level":1},"name":"gzip"}],"data_type":"float64","dimension_names":["rows","columns"],"fill_value":"NaN","node_type":"array","shape":[10000,1000],"zarr_format":3} => {"attributes":{"bar":"apples","baz":[1,2,3,4],"foo":42},"chunk_grid":{"configuration":{"chunk_shape":[1000,100]},"name":"regular"},"chunk_key_encoding":{"configuration":{"separator":"/"},"name":"default"},"codecs":[{"configuration":{"endian":"little"},"name":"bytes"},{"configuration":{"level":1},"name":"gzip"}],"data_type":"float64","dimension_names":["rows","columns"],"fill_value":"NaN","node_type":"array","shape":[10000,1000],"zarr_format":3}
"#;

#[test]
fn nodes_of_either_version(rt: HostRuntime) -> Result<(), Fail> {
    check_rows(rt.alloc(), NODES, read_text::<NodeMetadata>)
}

// ---- what no table holds

// Whether a document was refused for a number past 64 bits, by either of the two faults.
fn is_past_64_bits<T: Drop>(read: Result<T, MetadataFault>) -> bool {
    matches!(
        &read,
        Err(MetadataFault::UnsupportedNumber) | Err(MetadataFault::NotJson)
    )
}

#[test]
fn a_number_past_64_bits_is_refused(rt: HostRuntime) {
    let given = r#"{"attributes":{"n":18446744073709551616},"node_type":"group","zarr_format":3}"#;
    let read = GroupMetadataV3::from_bytes(rt.alloc(), given.as_bytes());
    assert!(rt; is_past_64_bits(read), "another answer");
}

// Asks that bytes are refused as no JSON.
fn is_not_json(answer: Result<String, AllocError>) -> Result<(), Fail> {
    let text = answer?;
    if text.as_str() == "NotJson: not JSON" {
        Ok(())
    } else {
        Err(Fail::new(format_args!("{text} in place of what is no JSON")))
    }
}

#[test]
fn no_proper_beginning_is_json(rt: HostRuntime) -> Result<(), Fail> {
    let alloc = rt.alloc();
    let bytes = A3.as_bytes();
    for end in 0..bytes.len() {
        let read = NodeMetadata::from_bytes(alloc, &bytes[..end]);
        is_not_json(said(alloc, read, NodeMetadata::to_text))?;
    }
    Ok(())
}

#[test]
fn bytes_that_are_not_utf_8_are_not_json(rt: HostRuntime) -> Result<(), Fail> {
    let alloc = rt.alloc();
    let not_utf8 = b"{\"attributes\":{\"k\":\"\xff\"},\"node_type\":\"group\",\"zarr_format\":3}";
    let read = GroupMetadataV3::from_bytes(alloc, not_utf8);
    is_not_json(said(alloc, read, GroupMetadataV3::to_text))?;
    let read = NodeMetadata::from_bytes(alloc, not_utf8);
    is_not_json(said(alloc, read, NodeMetadata::to_text))
}

// ---- the documents of a store

// The version that a document at `zarr.json` is passed by for, or its text.
fn zarr_json_text(document: &ZarrJson, alloc: Global) -> Result<String, AllocError> {
    match document {
        ZarrJson::Version2 => String::from_str(alloc, "version 2"),
        ZarrJson::Node(metadata) => metadata.to_text(alloc),
    }
}

// A document at `zarr.json`, by its value.
fn zarr_json_of_value(alloc: Global, text: &str) -> Result<ZarrJson, MetadataFault> {
    match Value::from_str(alloc, text) {
        Ok(value) => ZarrJson::from_value(alloc, &value),
        Err(_) => Err(MetadataFault::NotJson),
    }
}

// What a document at `zarr.json` reads as, by its value and by its bytes.
fn zarr_json_says(alloc: Global, text: &str) -> Result<String, AllocError> {
    let of_value = said(alloc, zarr_json_of_value(alloc, text), zarr_json_text)?;
    let read = ZarrJson::from_bytes(alloc, text.as_bytes());
    agreed(alloc, of_value, said(alloc, read, zarr_json_text)?)
}

// Documents at `zarr.json`; one of version 2 is not read on.
const AT_ZARR_JSON: &str = r#"
{"zarr_format":2,"node_type":1} => version 2
{"node_type":"group","zarr_format":3} => {"node_type":"group","zarr_format":3}
[] => NotAnObject: not an object
{} => WrongFormat: wrong zarr_format
"#;

#[test]
fn version_2_at_zarr_json_is_not_read_on(rt: HostRuntime) -> Result<(), Fail> {
    check_rows(rt.alloc(), AT_ZARR_JSON, zarr_json_says)
}

// The text of a document's copy, made as a store's document.
fn zarr_json_copy(document: &ZarrJson, alloc: Global) -> Result<String, AllocError> {
    said(
        alloc,
        <ZarrJson as Document>::try_clone(document, alloc),
        zarr_json_text,
    )
}

fn zarray_copy(document: &ArrayMetadataV2, alloc: Global) -> Result<String, AllocError> {
    let copy = <ArrayMetadataV2 as Document>::try_clone(document, alloc);
    said(alloc, copy, ArrayMetadataV2::to_text)
}

fn zgroup_copy(document: &GroupMetadataV2, alloc: Global) -> Result<String, AllocError> {
    let copy = <GroupMetadataV2 as Document>::try_clone(document, alloc);
    said(alloc, copy, GroupMetadataV2::to_text)
}

fn zattrs_copy(document: &AttributesDocument, alloc: Global) -> Result<String, AllocError> {
    let copy = <AttributesDocument as Document>::try_clone(document, alloc);
    said(alloc, copy, AttributesDocument::to_text)
}

// What a store's document reads as, or its copy.
fn stored_says(alloc: Global, given: &str) -> Result<String, AllocError> {
    let (kind, text) = fields(given);
    let bytes = text.as_bytes();
    match kind {
        "zarr.json" => said(alloc, ZarrJson::from_bytes(alloc, bytes), zarr_json_text),
        "copy of zarr.json" => said(alloc, ZarrJson::from_bytes(alloc, bytes), zarr_json_copy),
        ".zarray" => said(
            alloc,
            ArrayMetadataV2::from_bytes(alloc, bytes),
            ArrayMetadataV2::to_text,
        ),
        "copy of .zarray" => said(
            alloc,
            ArrayMetadataV2::from_bytes(alloc, bytes),
            zarray_copy,
        ),
        _ => stored_v2_says(alloc, kind, bytes),
    }
}

// The same of a group of version 2 and of attributes.
fn stored_v2_says(alloc: Global, kind: &str, bytes: &[u8]) -> Result<String, AllocError> {
    match kind {
        ".zgroup" => said(
            alloc,
            GroupMetadataV2::from_bytes(alloc, bytes),
            GroupMetadataV2::to_text,
        ),
        "copy of .zgroup" => said(
            alloc,
            GroupMetadataV2::from_bytes(alloc, bytes),
            zgroup_copy,
        ),
        ".zattrs" => said(
            alloc,
            AttributesDocument::from_bytes(alloc, bytes),
            AttributesDocument::to_text,
        ),
        "copy of .zattrs" => said(
            alloc,
            AttributesDocument::from_bytes(alloc, bytes),
            zattrs_copy,
        ),
        _ => String::from_str(alloc, "no such document"),
    }
}

// The documents of a store, as they read and copy themselves.
const IN_STORES: &str = r#"
# what is read
zarr.json | {"zarr_format":2} => version 2
.zarray | {"chunks":[1],"compressor":null,"dtype":"<f8","fill_value":"NaN","filters":null,"order":"C","shape":[1],"zarr_format":2} => {"chunks":[1],"compressor":null,"dimension_separator":".","dtype":"<f8","fill_value":"NaN","filters":null,"order":"C","shape":[1],"zarr_format":2}
.zgroup | {"zarr_format":2} => {"zarr_format":2}
.zattrs | {} => {}
# what is copied
copy of zarr.json | {"node_type":"group","zarr_format":3} => {"node_type":"group","zarr_format":3}
copy of zarr.json | {"zarr_format":2} => version 2
copy of .zarray | {"chunks":[1],"compressor":null,"dtype":"<f8","fill_value":"NaN","filters":null,"order":"C","shape":[1],"zarr_format":2} => {"chunks":[1],"compressor":null,"dimension_separator":".","dtype":"<f8","fill_value":"NaN","filters":null,"order":"C","shape":[1],"zarr_format":2}
copy of .zgroup | {"zarr_format":2} => {"zarr_format":2}
copy of .zattrs | {} => {}
"#;

#[test]
fn documents_of_a_store_read_and_copy_themselves(rt: HostRuntime) -> Result<(), Fail> {
    check_rows(rt.alloc(), IN_STORES, stored_says)
}

// ---- groups and arrays of either version

// The metadata of either version that a document goes into.
fn wrapped<D: WrittenDocument, W: From<D>>(alloc: Global, text: &str) -> Result<W, MetadataFault> {
    match D::from_bytes(alloc, text.as_bytes()) {
        Ok(document) => Ok(W::from(document)),
        Err(fault) => Err(fault),
    }
}

// The text of a group's copy.
fn group_copy(group: &GroupMetadata, alloc: Global) -> Result<String, AllocError> {
    let node = match group.try_clone(alloc) {
        Ok(copy) => Ok(NodeMetadata::Group(copy)),
        Err(error) => Err(error),
    };
    said(alloc, node, NodeMetadata::to_text)
}

// The text of an array's copy.
fn array_copy(array: &ArrayMetadata, alloc: Global) -> Result<String, AllocError> {
    let copy = BoxedArray::new(alloc, array.try_clone(alloc)?)?.try_clone(alloc)?;
    let boxed = BoxedArray::new(alloc, copy.into_inner())?;
    NodeMetadata::Array(boxed).to_text(alloc)
}

// The text of an array that is held on the heap.
fn boxed_text(array: &ArrayMetadata, alloc: Global) -> Result<String, AllocError> {
    let boxed = BoxedArray::new(alloc, array.try_clone(alloc)?)?;
    let text = array_copy(boxed.as_ref(), alloc);
    drop(boxed);
    text
}

// How many additional fields a group has, and whether the unknown one must be understood.
fn unknown_field(group: &GroupMetadataV3, alloc: Global) -> Result<String, AllocError> {
    let fields = &group.additional_fields;
    match fields.get("unknown") {
        Some(field) => format!(in alloc;
            "{} fields, must be understood: {}",
            fields.len(),
            field.must_understand()
        ),
        None => String::from_str(alloc, "no such field"),
    }
}

// What is made of a group or an array, by the word before its text.
fn made_says(alloc: Global, given: &str) -> Result<String, AllocError> {
    let (kind, text) = fields(given);
    match kind {
        "group of version 3" => said(
            alloc,
            wrapped::<GroupMetadataV3, GroupMetadata>(alloc, text),
            group_copy,
        ),
        "group of version 2" => said(
            alloc,
            wrapped::<GroupMetadataV2, GroupMetadata>(alloc, text),
            group_copy,
        ),
        "new group of version 3" => said(
            alloc,
            made(GroupMetadataV3::new(alloc)),
            GroupMetadataV3::to_text,
        ),
        "new group of version 2" => said(
            alloc,
            made(GroupMetadataV2::new(alloc)),
            GroupMetadataV2::to_text,
        ),
        "unknown field" => said(
            alloc,
            GroupMetadataV3::from_bytes(alloc, text.as_bytes()),
            unknown_field,
        ),
        _ => array_says(alloc, kind, text),
    }
}

// The same of an array.
fn array_says(alloc: Global, kind: &str, text: &str) -> Result<String, AllocError> {
    match kind {
        "array of version 3" => said(
            alloc,
            wrapped::<ArrayMetadataV3, ArrayMetadata>(alloc, text),
            array_copy,
        ),
        "array of version 2" => said(
            alloc,
            wrapped::<ArrayMetadataV2, ArrayMetadata>(alloc, text),
            array_copy,
        ),
        "array on the heap" => said(
            alloc,
            wrapped::<ArrayMetadataV3, ArrayMetadata>(alloc, text),
            boxed_text,
        ),
        _ => String::from_str(alloc, "nothing of the kind"),
    }
}

// Groups and arrays of either version.
const VARIANTS: &str = r#"
# a document goes into the variant of its version
group of version 3 | {"node_type":"group","zarr_format":3} => {"node_type":"group","zarr_format":3}
group of version 2 | {"zarr_format":2} => {"zarr_format":2}
array of version 3 | {"chunk_grid":{"configuration":{"chunk_shape":[1]},"name":"regular"},"chunk_key_encoding":{"configuration":{"separator":"/"},"name":"default"},"codecs":[{"configuration":{"endian":"little"},"name":"bytes"}],"data_type":"float32","fill_value":0,"node_type":"array","shape":[1],"zarr_format":3} => {"chunk_grid":{"configuration":{"chunk_shape":[1]},"name":"regular"},"chunk_key_encoding":{"configuration":{"separator":"/"},"name":"default"},"codecs":[{"configuration":{"endian":"little"},"name":"bytes"}],"data_type":"float32","fill_value":0,"node_type":"array","shape":[1],"zarr_format":3}
array of version 2 | {"chunks":[1],"compressor":null,"dtype":"<f8","fill_value":"NaN","filters":null,"order":"C","shape":[1],"zarr_format":2} => {"chunks":[1],"compressor":null,"dimension_separator":".","dtype":"<f8","fill_value":"NaN","filters":null,"order":"C","shape":[1],"zarr_format":2}
array of version 2 | {"chunks":[1],"compressor":null,"dtype":"<f8","fill_value":"NaN","filters":null,"order":"F","shape":[1],"zarr_format":2} => {"chunks":[1],"compressor":null,"dimension_separator":".","dtype":"<f8","fill_value":"NaN","filters":null,"order":"F","shape":[1],"zarr_format":2}
# an array on the heap is the array
array on the heap | {"chunk_grid":{"configuration":{"chunk_shape":[1]},"name":"regular"},"chunk_key_encoding":{"configuration":{"separator":"/"},"name":"default"},"codecs":[{"configuration":{"endian":"little"},"name":"bytes"}],"data_type":"float32","fill_value":0,"node_type":"array","shape":[1],"zarr_format":3} => {"chunk_grid":{"configuration":{"chunk_shape":[1]},"name":"regular"},"chunk_key_encoding":{"configuration":{"separator":"/"},"name":"default"},"codecs":[{"configuration":{"endian":"little"},"name":"bytes"}],"data_type":"float32","fill_value":0,"node_type":"array","shape":[1],"zarr_format":3}
# new groups are empty
new group of version 3 | => {"node_type":"group","zarr_format":3}
new group of version 2 | => {"zarr_format":2}
# an unknown field must be understood
unknown field | {"zarr_format":3,"node_type":"group","attributes":{"spam":"ham","eggs":42},"unknown":"unsupported"} => 1 fields, must be understood: true
"#;

#[test]
fn groups_and_arrays_are_made(rt: HostRuntime) -> Result<(), Fail> {
    check_rows(rt.alloc(), VARIANTS, made_says)
}

// Whether a node is a group, and the compact text of what the bytes of its document read as, where its pretty text by rows is these bytes.
fn document_text(node: &NodeMetadata, alloc: Global) -> Result<String, AllocError> {
    match node.to_document(alloc)? {
        Some(bytes) => {
            let mut pretty = String::new(alloc);
            node.write(alloc, &mut pretty, Layout::Pretty(0))?;
            if pretty.as_bytes() != bytes.as_slice() {
                return String::from_str(alloc, "another pretty text");
            }
            let kind = if node.is_group() { "group" } else { "array" };
            let again = NodeMetadata::from_bytes(alloc, bytes.as_slice());
            let again = said(alloc, again, NodeMetadata::to_text)?;
            format!(in alloc; "{kind} {again}")
        }
        None => String::from_str(alloc, "none"),
    }
}

fn document_said(alloc: Global, text: &str) -> Result<String, AllocError> {
    let node = NodeMetadata::from_bytes(alloc, text.as_bytes());
    said(alloc, node, document_text)
}

// A node, its kind, and what its document reads as.
const DOCUMENTS: &str = r#"
{"node_type":"group","zarr_format":3} => group {"node_type":"group","zarr_format":3}
{"attributes":{"k":[1,{"a":"é"}]},"node_type":"group","zarr_format":3} => group {"attributes":{"k":[1,{"a":"é"}]},"node_type":"group","zarr_format":3}
{"chunks":[1],"compressor":null,"dimension_separator":".","dtype":"<f8","fill_value":"NaN","filters":null,"order":"C","shape":[1],"zarr_format":2} => array {"chunks":[1],"compressor":null,"dimension_separator":".","dtype":"<f8","fill_value":"NaN","filters":null,"order":"C","shape":[1],"zarr_format":2}
{"attributes":{"a\"b":{"k":[[],{}]}},"chunk_grid":{"configuration":{"chunk_shape":[1]},"name":"regular"},"chunk_key_encoding":"default","codecs":["bytes"],"data_type":"int8","dimension_names":["x",null],"extra":[1],"fill_value":-1,"node_type":"array","shape":[1],"storage_transformers":["s"],"zarr_format":3} => array {"attributes":{"a\\"b":{"k":[[],{}]}},"chunk_grid":{"configuration":{"chunk_shape":[1]},"name":"regular"},"chunk_key_encoding":"default","codecs":["bytes"],"data_type":"int8","dimension_names":["x",null],"extra":[1],"fill_value":-1,"node_type":"array","shape":[1],"storage_transformers":["s"],"zarr_format":3}
{"attributes":{"k":1},"extra":{"a":[]},"zarr_format":2} => group {"attributes":{"k":1},"extra":{"a":[]},"zarr_format":2}
"#;

#[test]
fn the_document_of_a_node_reads_again(rt: HostRuntime) -> Result<(), Fail> {
    check_rows(rt.alloc(), DOCUMENTS, document_said)
}

#[test]
fn the_laws_of_documents_are_called() {
    GroupMetadataV3::read_is_plain();
    GroupMetadataV2::read_is_plain();
    ArrayMetadataV3::read_is_plain();
    ArrayMetadataV2::read_is_plain();
    AttributesDocument::read_is_plain();
    NodeMetadata::read_is_plain();
    laws::read_zarr_json_is_plain_in();
    laws::with_attributes_is_plain();
    laws::reading_never_lacks_memory();
}
