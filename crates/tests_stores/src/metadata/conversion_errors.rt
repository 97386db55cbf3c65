//! The texts of the errors of conversion, and the faults that become such errors.

use crate::metadata::conversion::string_of;
use crate::metadata::given::members_of;
use serde_json::Value;
use std::alloc::{AllocError, AllocFailed, Global};
use std::test::Fail;
use tests_support::{check_rows, fields, said};
use zarrs_convert::{ArrayMetadataV2ToV3Error, DataTypeMetadataV2EndiannessError};
use zarrs_meta::{DataTypeMetadataV2, FillValueMetadata, Text};

// ---- errors of conversion

// The kind of an error and the text that it is about, and the refusal.
const ERRORS: &str = r#"
data type | <i1 => UnsupportedDataType(Simple): unsupported data type
codec | zlib => UnsupportedCodec: unsupported codec zlib
fill value | int8 => UnsupportedFillValue: unsupported fill value for data type int8
two codecs => MultipleArrayToBytesCodecs: multiple array to bytes codecs
other | a reason => Other: a reason
memory => OutOfMemory: out of memory
# Errors of byte orders are errors of conversion too.
byte order | i2 => InvalidEndianness(Invalid): invalid endianness
byte order, memory => InvalidEndianness(OutOfMemory): out of memory
# Faults below become errors of conversion.
JSON => SerdeError(Error): JSON serialization or deserialization error
no memory => OutOfMemory: out of memory
no memory for a value => OutOfMemory: out of memory
"#;

// The error of a kind, about a text.
fn failed(alloc: Global, given: &str) -> Result<(), ArrayMetadataV2ToV3Error> {
    let (kind, text) = fields(given);
    match kind {
        "data type" => Err(data_type_error(alloc, text)),
        "codec" => Err(codec_error(alloc, text)),
        "fill value" => Err(fill_value_error(alloc, text)),
        "two codecs" => Err(ArrayMetadataV2ToV3Error::MultipleArrayToBytesCodecs),
        "other" => Err(ArrayMetadataV2ToV3Error::Other(string_of(alloc, text))),
        "memory" => Err(ArrayMetadataV2ToV3Error::OutOfMemory),
        "byte order" => Err(byte_order_error(alloc, text)),
        "byte order, memory" => {
            Err(ArrayMetadataV2ToV3Error::InvalidEndianness(
                DataTypeMetadataV2EndiannessError::OutOfMemory,
            ))
        }
        "JSON" => not_json(alloc),
        "no memory" => Err(ArrayMetadataV2ToV3Error::from(AllocError)),
        "no memory for a value" => Err(ArrayMetadataV2ToV3Error::from(AllocFailed { value: 1u8 })),
        _ => Ok(()),
    }
}

fn data_type_error(alloc: Global, data_type: &str) -> ArrayMetadataV2ToV3Error {
    let data_type = DataTypeMetadataV2::Simple(Text::new(string_of(alloc, data_type)));
    ArrayMetadataV2ToV3Error::UnsupportedDataType(data_type)
}

fn codec_error(alloc: Global, codec: &str) -> ArrayMetadataV2ToV3Error {
    match members_of(alloc, r#"{"n":1}"#) {
        Ok(configuration) => {
            ArrayMetadataV2ToV3Error::UnsupportedCodec(string_of(alloc, codec), configuration)
        }
        Err(_) => ArrayMetadataV2ToV3Error::OutOfMemory,
    }
}

fn fill_value_error(alloc: Global, data_type: &str) -> ArrayMetadataV2ToV3Error {
    let fill_value = FillValueMetadata::new(Value::Null);
    ArrayMetadataV2ToV3Error::UnsupportedFillValue(string_of(alloc, data_type), fill_value)
}

fn byte_order_error(alloc: Global, data_type: &str) -> ArrayMetadataV2ToV3Error {
    let error = DataTypeMetadataV2EndiannessError::Invalid(string_of(alloc, data_type));
    ArrayMetadataV2ToV3Error::InvalidEndianness(error)
}

// The fault of a text that is no JSON, as an error of conversion.
fn not_json(alloc: Global) -> Result<(), ArrayMetadataV2ToV3Error> {
    drop(Value::from_str(alloc, "{")?);
    Ok(())
}

fn unit_text(_unit: &(), alloc: Global) -> Result<String, AllocError> {
    String::from_str(alloc, "no error")
}

// The refusal that the error of a kind is.
fn error_text(alloc: Global, given: &str) -> Result<String, AllocError> {
    said(alloc, failed(alloc, given), unit_text)
}

#[test]
fn errors_of_conversion_have_their_texts_and_faults_become_such(
    rt: HostRuntime,
) -> Result<(), Fail> {
    check_rows(rt.alloc(), ERRORS, error_text)
}

// ---- errors of byte orders

// The kind of an error and the text that it is about, and the refusal.
const ORDER_ERRORS: &str = r#"
invalid | i2 => Invalid: invalid endianness
memory => OutOfMemory: out of memory
no memory => OutOfMemory: out of memory
"#;

// The error of a kind, about a text.
fn order_failed(alloc: Global, given: &str) -> Result<(), DataTypeMetadataV2EndiannessError> {
    let (kind, text) = fields(given);
    match kind {
        "invalid" => Err(DataTypeMetadataV2EndiannessError::Invalid(string_of(alloc, text))),
        "memory" => Err(DataTypeMetadataV2EndiannessError::OutOfMemory),
        "no memory" => Err(DataTypeMetadataV2EndiannessError::from(AllocError)),
        _ => Ok(()),
    }
}

// The refusal that the error of a kind is.
fn order_error_text(alloc: Global, given: &str) -> Result<String, AllocError> {
    said(alloc, order_failed(alloc, given), unit_text)
}

#[test]
fn errors_of_byte_orders_have_their_texts(rt: HostRuntime) -> Result<(), Fail> {
    check_rows(rt.alloc(), ORDER_ERRORS, order_error_text)
}
