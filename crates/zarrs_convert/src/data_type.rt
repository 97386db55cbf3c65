//! Data types of version 2 as data types of version 3.
ghost use Rattle.std.specs.Prelude.{◌≡◌, IfOk, map, option_map};
ghost use Rattle.zarrs_convert.specs.DataTypes.{data_type_name, data_type_v3, raw_bits, raw_size};
ghost use Rattle.zarrs_convert.specs.Refusals.{AnswersAs};
ghost use Rattle.zarrs_convert.specs.StepsOfConversion.{NamesDataType};
ghost use Rattle.zarrs_convert.specs.Tables.{look_up};

use crate::error::ArrayMetadataV2ToV3Error;
use crate::extension::bare;
use crate::number::{digits_behind, number_of};
use std::alloc::{AllocError, Global};
use zarrs_meta::{DataTypeMetadataV2, MetadataV3, Text};

/// The data types by byte order, kind and size, and their names in version 3.
const DATA_TYPES: &[(&[&str], &str)] = &[
    (&["|b1"], "bool"),
    (&["|i1"], "int8"),
    (&["|u1"], "uint8"),
    (&["<i2", ">i2"], "int16"),
    (&["<i4", ">i4"], "int32"),
    (&["<i8", ">i8"], "int64"),
    (&["<u2", ">u2"], "uint16"),
    (&["<u4", ">u4"], "uint32"),
    (&["<u8", ">u8"], "uint64"),
    (&["<f2", ">f2"], "float16"),
    (&["<f4", ">f4"], "float32"),
    (&["<f8", ">f8"], "float64"),
    (&["<c8", ">c8"], "complex64"),
    (&["<c16", ">c16"], "complex128"),
    (&["|O"], "string"),
];

/// The version 3 data type of a version 2 data type: its name, without configuration.
///
/// # Errors
///
/// `UnsupportedDataType` where the data type is a list, or a text that is neither in the table nor raw bits whose number
/// fits 64 bits. `OutOfMemory` where there is no memory.
///
/// Source: Zarr specification version 2, "Data type encoding"; `zarrs::convert::data_type_metadata_v2_to_v3`.
pub fn data_type_metadata_v2_to_v3(
    alloc: Global,
    data_type: &DataTypeMetadataV2,
) -> Result<MetadataV3, ArrayMetadataV2ToV3Error>
    ensures { AnswersAs (λ m. m) result (data_type_v3 data_type.now) }
{
    if let DataTypeMetadataV2::Simple(text) = data_type {
        return match data_type_name(alloc, text.as_str())? {
            Some(name) => Ok(bare(name)),
            None => Err(unsupported(alloc, data_type)),
        };
    }
    Err(unsupported(alloc, data_type))
}

// The refusal of a data type, or out of memory for it.
fn unsupported(alloc: Global, data_type: &DataTypeMetadataV2) -> ArrayMetadataV2ToV3Error
    ensures { NamesDataType data_type.now result }
{
    match data_type.try_clone(alloc) {
        Ok(data_type) => ArrayMetadataV2ToV3Error::UnsupportedDataType(data_type),
        Err(_) => ArrayMetadataV2ToV3Error::OutOfMemory,
    }
}

// The name in version 3 of a data type that is a text.
fn data_type_name(alloc: Global, text: &str) -> Result<Option<Text>, AllocError>
    ensures { IfOk result (λ name. name ≡ data_type_name text.now) }
{
    match look_up(DATA_TYPES, text) {
        Some(name) => Ok(Some(Text::from_str(alloc, name)?)),
        None => raw_bits(alloc, text),
    }
}

// What the first line that lists the text has beside it.
fn look_up(lines: &[(&[&str], &'static str)], text: &str) -> Option<&'static str>
    ensures { option_map (λ name. name.now) result
        ≡ look_up (map (λ line. (map (λ t. t.now) line.0.now, line.1.now)) lines.now) text.now }
{
    for (texts, name) in lines {
        if texts.contains(&text) {
            return Some(name);
        }
    }
    None
}

// Raw bits: the name of as many bits as `|V` says bytes.
fn raw_bits(alloc: Global, text: &str) -> Result<Option<Text>, AllocError>
    ensures { IfOk result (λ name. name ≡ raw_bits text.now) }
{
    match raw_size(text) {
        Some(bits) => Ok(Some(Text::new(format!(in alloc; "r{bits}")?))),
        None => Ok(None),
    }
}

// The number of bits of raw bits, where it fits 64 bits.
fn raw_size(text: &str) -> Option<u64>
    ensures { result ≡ raw_size text.now }
{
    let digits = digits_behind(text, "|V")?;
    let bytes = number_of(digits)?;
    bytes.checked_mul(8)
}
