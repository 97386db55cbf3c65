//! The tables of the conversion, line by line: data types, byte orders, fill values and codecs.

use crate::metadata::conversion::{carried, named, order_carried, told};
use crate::metadata::given::value_of;
use log::sink::Writer;
use serde_json::{Map, put};
use std::alloc::{AllocError, Global};
use std::test::Fail;
use tests_support::{check_rows, fields, refusal, said, with_lines};
use zarrs_convert::{
    ArrayMetadataV2ToV3Error, codec_metadata_v2_to_v3, data_type_metadata_v2_to_endianness,
    data_type_metadata_v2_to_v3, fill_value_metadata_v2_to_v3,
};
use zarrs_fault::MetadataFault;
use zarrs_form::{Form, Layout, required};
use zarrs_meta::{
    ArrayMetadataV2, DataTypeMetadataV2, Document, Endianness, FillValueMetadata, List, MetadataV3,
};

// What a text reads as in the form of a type.
fn read_as<T: Form + Drop>(alloc: Global, text: &str) -> Result<T, MetadataFault> {
    let mut members = Map::new(alloc);
    put(&mut members, alloc, "part", value_of(alloc, text)?)?;
    required(alloc, &mut members, "part")
}

// The written form of a part.
pub(crate) fn written<T: Form>(part: &T, alloc: Global) -> Result<String, AllocError> {
    let mut text = String::new(alloc);
    part.write(alloc, &mut text, Layout::Compact)?;
    Ok(text)
}

// ---- data types

// Data types of version 2, and the one of version 3 or the error.
const DATA_TYPES: &str = r#"
# Data types have names in version 3.
"|b1" => "bool"
"|i1" => "int8"
"|u1" => "uint8"
"<i2" => "int16"
">i2" => "int16"
"<i4" => "int32"
">i4" => "int32"
"<i8" => "int64"
">i8" => "int64"
"<u2" => "uint16"
">u2" => "uint16"
"<u4" => "uint32"
">u4" => "uint32"
"<u8" => "uint64"
">u8" => "uint64"
"<f2" => "float16"
">f2" => "float16"
"<f4" => "float32"
">f4" => "float32"
"<f8" => "float64"
">f8" => "float64"
"<c8" => "complex64"
">c8" => "complex64"
"<c16" => "complex128"
">c16" => "complex128"
"|O" => "string"
# Raw bits have eight times their bytes.
"|V8" => "r64"
"|V008" => "r64"
"|V0" => "r0"
"|V2305843009213693951" => "r18446744073709551608"
"|V2305843009213693952" => UnsupportedDataType(Simple): unsupported data type: "|V2305843009213693952"
"|V18446744073709551616" => UnsupportedDataType(Simple): unsupported data type: "|V18446744073709551616"
"|V" => UnsupportedDataType(Simple): unsupported data type: "|V"
"|V+8" => UnsupportedDataType(Simple): unsupported data type: "|V+8"
"|V-8" => UnsupportedDataType(Simple): unsupported data type: "|V-8"
"|V8 " => UnsupportedDataType(Simple): unsupported data type: "|V8 "
"|V8x" => UnsupportedDataType(Simple): unsupported data type: "|V8x"
"<V8" => UnsupportedDataType(Simple): unsupported data type: "<V8"
# Other data types are unsupported.
"|i2" => UnsupportedDataType(Simple): unsupported data type: "|i2"
"<i1" => UnsupportedDataType(Simple): unsupported data type: "<i1"
"<b1" => UnsupportedDataType(Simple): unsupported data type: "<b1"
"<c4" => UnsupportedDataType(Simple): unsupported data type: "<c4"
"<f16" => UnsupportedDataType(Simple): unsupported data type: "<f16"
"i2" => UnsupportedDataType(Simple): unsupported data type: "i2"
"|O8" => UnsupportedDataType(Simple): unsupported data type: "|O8"
"<U4" => UnsupportedDataType(Simple): unsupported data type: "<U4"
"<M8[ns]" => UnsupportedDataType(Simple): unsupported data type: "<M8[ns]"
"float64" => UnsupportedDataType(Simple): unsupported data type: "float64"
"" => UnsupportedDataType(Simple): unsupported data type: ""
[] => UnsupportedDataType(Structured): unsupported data type: []
[["r","|u1"]] => UnsupportedDataType(Structured): unsupported data type: [["r","|u1"]]
"#;

fn data_type_says(data_type: &DataTypeMetadataV2, alloc: Global) -> Result<String, AllocError> {
    let answer = data_type_metadata_v2_to_v3(alloc, data_type);
    told(alloc, answer, written, carried)
}

// What the conversion of a data type answers.
fn converted_data_type(alloc: Global, data_type: &str) -> Result<String, AllocError> {
    said(alloc, read_as(alloc, data_type), data_type_says)
}

#[test]
fn data_types_have_names_in_version_3_or_are_unsupported(rt: HostRuntime) -> Result<(), Fail> {
    check_rows(rt.alloc(), DATA_TYPES, converted_data_type)
}

// ---- byte orders

// Data types of version 2, and the byte order that they begin with or the error.
const ORDERS: &str = r#"
"<f8" => little
"<" => little
">f8" => big
"|b1" => none
[["a","<i2"]] => none
"float64" => Invalid: invalid endianness: float64
"=f8" => Invalid: invalid endianness: =f8
" <f8" => Invalid: invalid endianness:  <f8
"" => Invalid: invalid endianness: 
"#;

fn order_text(order: &Option<Endianness>, alloc: Global) -> Result<String, AllocError> {
    let text = match order {
        Some(Endianness::Little) => "little",
        Some(Endianness::Big) => "big",
        None => "none",
    };
    String::from_str(alloc, text)
}

fn order_says(data_type: &DataTypeMetadataV2, alloc: Global) -> Result<String, AllocError> {
    let answer = data_type_metadata_v2_to_endianness(alloc, data_type);
    told(alloc, answer, order_text, order_carried)
}

// What the byte order of a data type is.
fn order_of_data_type(alloc: Global, data_type: &str) -> Result<String, AllocError> {
    said(alloc, read_as(alloc, data_type), order_says)
}

#[test]
fn data_types_begin_with_their_byte_order(rt: HostRuntime) -> Result<(), Fail> {
    check_rows(rt.alloc(), ORDERS, order_of_data_type)
}

// ---- fill values

// Fill values and the data type of version 3 that each is asked for: what it becomes or the error, with the lines that are warned with.
const FILL_VALUES: &str = r#"
# Null becomes the default and is warned of.
null | string => ""\n[WARN  zarrs_convert::fill_value] Fill value of `null` specified for data type string. This is unsupported in Zarr V3; mapping to a default value.\n
null | bool => false\n[WARN  zarrs_convert::fill_value] Fill value of `null` specified for data type bool. This is unsupported in Zarr V3; mapping to a default value.\n
null | r16 => [0,0]\n[WARN  zarrs_convert::fill_value] Fill value of `null` specified for data type r16. This is unsupported in Zarr V3; mapping to a default value.\n
null | r0 => []\n[WARN  zarrs_convert::fill_value] Fill value of `null` specified for data type r0. This is unsupported in Zarr V3; mapping to a default value.\n
null | r064 => [0,0,0,0,0,0,0,0]\n[WARN  zarrs_convert::fill_value] Fill value of `null` specified for data type r064. This is unsupported in Zarr V3; mapping to a default value.\n
null | r12 => Other: raw bits should be fixed size\n[WARN  zarrs_convert::fill_value] Fill value of `null` specified for data type r12. This is unsupported in Zarr V3; mapping to a default value.\n
null | r18446744073709551615 => Other: raw bits should be fixed size\n[WARN  zarrs_convert::fill_value] Fill value of `null` specified for data type r18446744073709551615. This is unsupported in Zarr V3; mapping to a default value.\n
null | r18446744073709551616 => Other: raw bits should be fixed size\n[WARN  zarrs_convert::fill_value] Fill value of `null` specified for data type r18446744073709551616. This is unsupported in Zarr V3; mapping to a default value.\n
null | r18446744073709551608 => OutOfMemory: out of memory\n[WARN  zarrs_convert::fill_value] Fill value of `null` specified for data type r18446744073709551608. This is unsupported in Zarr V3; mapping to a default value.\n
null | int8 => 0\n[WARN  zarrs_convert::fill_value] Fill value of `null` specified for data type int8. This is unsupported in Zarr V3; mapping to a default value.\n
null | float64 => 0\n[WARN  zarrs_convert::fill_value] Fill value of `null` specified for data type float64. This is unsupported in Zarr V3; mapping to a default value.\n
null | r => 0\n[WARN  zarrs_convert::fill_value] Fill value of `null` specified for data type r. This is unsupported in Zarr V3; mapping to a default value.\n
null | r8x => 0\n[WARN  zarrs_convert::fill_value] Fill value of `null` specified for data type r8x. This is unsupported in Zarr V3; mapping to a default value.\n
null | R16 => 0\n[WARN  zarrs_convert::fill_value] Fill value of `null` specified for data type R16. This is unsupported in Zarr V3; mapping to a default value.\n
null | another => 0\n[WARN  zarrs_convert::fill_value] Fill value of `null` specified for data type another. This is unsupported in Zarr V3; mapping to a default value.\n
# Other fill values are kept but for few.
0 | string => ""\n[WARN  zarrs_convert::fill_value] Permitting non-conformant `0` fill value for `string` data type (zarr-python compatibility).\n
0 | bool => false
1 | bool => true
2 | bool => 2
-1 | bool => -1
true | bool => true
"0" | bool => "0"
1 | string => 1
-1 | string => -1
false | string => false
"" | string => ""
"0" | string => "0"
0 | int8 => 0
0 | r16 => 0
[1,2] | r16 => [1,2]
"NaN" | float64 => "NaN"
{"a":[null]} | another => {"a":[null]}
18446744073709551615 | uint64 => 18446744073709551615
-9223372036854775808 | int64 => -9223372036854775808
"#;

// What the conversion of a fill value for a data type answers, and the lines that it warns with.
fn fill_value_says(
    alloc: Global,
    fill_value: &FillValueMetadata,
    data_type: &MetadataV3,
) -> Result<String, AllocError> {
    let sink = Writer::new(Vec::new(alloc));
    let answer = fill_value_metadata_v2_to_v3(&sink, alloc, fill_value, data_type);
    let text = told(alloc, answer, written, carried);
    with_lines(alloc, text, "\n", sink.into_inner())
}

fn converted_fill_value(alloc: Global, given: &str) -> Result<String, MetadataFault> {
    let (fill_value, data_type) = fields(given);
    let fill_value = FillValueMetadata::new(value_of(alloc, fill_value)?);
    Ok(fill_value_says(alloc, &fill_value, &named(alloc, data_type))?)
}

#[test]
fn fill_values_are_kept_but_for_few_and_null(rt: HostRuntime) -> Result<(), Fail> {
    check_rows(rt.alloc(), FILL_VALUES, converted_fill_value)
}

// ---- codecs

// The members of arrays of one dimension, and the codecs that they have in version 3 or the error; the data type in version 3 does not
// matter.
const CODECS: &str = r#"
# Orders and byte orders become codecs.
"dtype":"<i2","fill_value":0,"order":"C" => [{"configuration":{"endian":"little"},"name":"bytes"}]
"dtype":">i2","fill_value":0,"order":"C" => [{"configuration":{"endian":"big"},"name":"bytes"}]
"dtype":"|i1","fill_value":0,"order":"C" => [{"configuration":{"endian":"little"},"name":"bytes"}]
"dtype":">i2","fill_value":0,"filters":[],"order":"C" => [{"configuration":{"endian":"big"},"name":"bytes"}]
"dtype":">i2","fill_value":0,"order":"F" => [{"configuration":{"order":[0]},"name":"transpose"},{"configuration":{"endian":"big"},"name":"bytes"}]
"chunks":[],"dtype":"<i2","fill_value":0,"order":"F","shape":[] => [{"configuration":{"order":[]},"name":"transpose"},{"configuration":{"endian":"little"},"name":"bytes"}]
"chunks":[1,1,1],"dtype":"<i2","fill_value":0,"order":"F","shape":[4,5,6] => [{"configuration":{"order":[2,1,0]},"name":"transpose"},{"configuration":{"endian":"little"},"name":"bytes"}]
"chunks":[1,1],"dtype":"|O","fill_value":0,"filters":[{"id":"vlen-utf8"}],"order":"F","shape":[4,5] => [{"configuration":{"order":[1,0]},"name":"transpose"},{"configuration":{},"name":"vlen-utf8"}]
# Few filters and no compressors become codecs.
"compressor":null,"dtype":"|O","fill_value":"","filters":[{"id":"vlen-array"}],"order":"C" => [{"configuration":{},"name":"vlen-array"}]
"compressor":null,"dtype":"|O","fill_value":"","filters":[{"id":"vlen-bytes"}],"order":"C" => [{"configuration":{},"name":"vlen-bytes"}]
"compressor":null,"dtype":"|O","fill_value":"","filters":[{"id":"vlen-utf8","n":1}],"order":"C" => [{"configuration":{},"name":"vlen-utf8"}]
"compressor":null,"dtype":"|O","fill_value":"","filters":[{"id":"delta","astype":"<i2","dtype":"<i4"}],"order":"C" => UnsupportedCodec: unsupported codec delta: {"astype":"<i2","dtype":"<i4"}
"compressor":null,"dtype":"|O","fill_value":"","filters":[{"id":"vlen-utf8"},{"id":"vlen-bytes"},{"id":"delta"}],"order":"C" => UnsupportedCodec: unsupported codec delta: {}
"compressor":{"id":"blosc"},"dtype":"|O","fill_value":"","filters":[{"id":"zlib","level":1},{"id":"delta"}],"order":"C" => UnsupportedCodec: unsupported codec zlib: {"level":1}
"compressor":{"id":"zlib"},"dtype":"|O","fill_value":"","filters":[{"id":"vlen-utf8"},{"id":"vlen-bytes"}],"order":"C" => MultipleArrayToBytesCodecs: multiple array to bytes codecs
"compressor":null,"dtype":"|O","fill_value":"","filters":[{"id":"vlen-utf8"},{"id":"vlen-utf8"}],"order":"C" => MultipleArrayToBytesCodecs: multiple array to bytes codecs
"compressor":{"id":"zlib"},"dtype":"|O","fill_value":"","filters":[{"id":"vlen-utf8"}],"order":"C" => UnsupportedCodec: unsupported codec zlib: {}
"compressor":{"id":"zlib","level":1},"dtype":"|O","fill_value":"","filters":null,"order":"C" => UnsupportedCodec: unsupported codec zlib: {"level":1}
"compressor":{"id":"vlen-utf8"},"dtype":"|O","fill_value":"","filters":null,"order":"C" => UnsupportedCodec: unsupported codec vlen-utf8: {}
"compressor":{"id":"pcodec"},"dtype":"|O","fill_value":"","filters":[],"order":"C" => UnsupportedCodec: unsupported codec pcodec: {}
"#;

// The array of one dimension that has these members in addition.
fn array_of(alloc: Global, members: &str) -> Result<ArrayMetadataV2, MetadataFault> {
    let document = format!(in alloc;
        "{{\"chunks\":[1],\"shape\":[1],\"zarr_format\":2,{members}}}"
    )?;
    ArrayMetadataV2::from_bytes(alloc, document.as_bytes())
}

// What the conversion of codecs answers, as a list.
fn listed(
    answer: Result<Vec<MetadataV3>, ArrayMetadataV2ToV3Error>,
) -> Result<List<MetadataV3>, ArrayMetadataV2ToV3Error> {
    Ok(List::new(answer?))
}

// The codecs of an array, for this data type of version 3 and this byte order.
fn codecs_for(
    alloc: Global,
    array: &ArrayMetadataV2,
    data_type: &MetadataV3,
    order: Option<Endianness>,
) -> Result<String, AllocError> {
    let answer = codec_metadata_v2_to_v3(
        alloc,
        array.order,
        array.shape.as_slice().len(),
        data_type,
        order,
        &array.filters,
        &array.compressor,
    );
    told(alloc, listed(answer), written, carried)
}

// The codecs of an array, for the data type of version 3 of this name, or the refusal of its byte order.
fn codecs_in(alloc: Global, array: &ArrayMetadataV2, name: &str) -> Result<String, AllocError> {
    match data_type_metadata_v2_to_endianness(alloc, &array.dtype) {
        Ok(order) => codecs_for(alloc, array, &named(alloc, name), order),
        Err(error) => order_carried(&error, alloc),
    }
}

// The codecs of the array of these members, for the data type of version 3 of this name, or the refusal.
fn codecs_of(alloc: Global, members: &str, data_type: &str) -> Result<String, AllocError> {
    match array_of(alloc, members) {
        Ok(array) => codecs_in(alloc, &array, data_type),
        Err(fault) => refusal(alloc, &fault),
    }
}

fn codecs_of_numbers(alloc: Global, members: &str) -> Result<String, AllocError> {
    codecs_of(alloc, members, "int16")
}

fn codecs_of_texts(alloc: Global, members: &str) -> Result<String, AllocError> {
    codecs_of(alloc, members, "string")
}

#[test]
fn arrays_of_numbers_have_codecs_in_version_3(rt: HostRuntime) -> Result<(), Fail> {
    check_rows(rt.alloc(), CODECS, codecs_of_numbers)
}

#[test]
fn arrays_of_texts_have_codecs_in_version_3(rt: HostRuntime) -> Result<(), Fail> {
    check_rows(rt.alloc(), CODECS, codecs_of_texts)
}
