//! Why metadata of version 2 have no form of version 3.
ghost use Rattle.std.specs.Prelude.{◌≡◌};

use serde_json::{Map, Value};
use std::alloc::{AllocError, AllocFailed};
use thiserror::Error;
use zarrs_meta::{DataTypeMetadataV2, FillValueMetadata};

/// Why a version 2 array was not converted to an array of version 3.
///
/// Source: `zarrs::convert::ArrayMetadataV2ToV3Error`.
/// <https://docs.rs/zarrs/0.23.13/zarrs/convert/enum.ArrayMetadataV2ToV3Error.html>
#[derive(Debug, Drop, Error)]
pub enum ArrayMetadataV2ToV3Error {
    /// A data type has no form of version 3.
    #[error("unsupported data type")]
    UnsupportedDataType(DataTypeMetadataV2),
    /// A data type has no byte order.
    #[error("{0}")]
    InvalidEndianness(DataTypeMetadataV2EndiannessError),
    /// A filter or a compressor has no form of version 3: its identifier and its configuration.
    #[error("unsupported codec {0}")]
    UnsupportedCodec(String, Map<String, Value>),
    /// A fill value has no form of version 3: the name of the data type, and the fill value. No call answers it.
    #[error("unsupported fill value for data type {0}")]
    UnsupportedFillValue(String, FillValueMetadata),
    /// A configuration is not written or read as JSON. No call answers it.
    #[error("JSON serialization or deserialization error")]
    SerdeError(serde_json::Error),
    /// More than one codec makes bytes of an array.
    #[error("multiple array to bytes codecs")]
    MultipleArrayToBytesCodecs,
    /// Any other reason.
    #[error("{0}")]
    Other(String),
    /// Out of memory.
    #[error("out of memory")]
    OutOfMemory,
}

/// Why a data type of version 2 has no byte order.
///
/// Source: `zarrs_metadata::v2::DataTypeMetadataV2EndiannessError`.
/// <https://zarr-specs.readthedocs.io/en/latest/v2/v2.0.html#data-type-encoding>
#[derive(Debug, Drop, Error)]
pub enum DataTypeMetadataV2EndiannessError {
    /// The text of the data type does not begin with a byte order.
    #[error("invalid endianness")]
    Invalid(String),
    /// Out of memory.
    #[error("out of memory")]
    OutOfMemory,
}

impl From<serde_json::Error> for ArrayMetadataV2ToV3Error {
    ghost use Rattle.zarrs_convert.specs.declared.error.ArrayMetadataV2ToV3Error.TheVariants.{SerdeError};

    ghost from_gives = { λ error made. made ≡ SerdeError error };

    fn from(error: serde_json::Error) -> ArrayMetadataV2ToV3Error {
        ArrayMetadataV2ToV3Error::SerdeError(error)
    }
}

impl From<AllocError> for ArrayMetadataV2ToV3Error {
    ghost use Rattle.zarrs_convert.specs.declared.error.ArrayMetadataV2ToV3Error.TheVariants.{OutOfMemory};

    ghost from_gives = { λ _ made. made ≡ OutOfMemory };

    fn from(_error: AllocError) -> ArrayMetadataV2ToV3Error {
        ArrayMetadataV2ToV3Error::OutOfMemory
    }
}

impl<T: Drop> From<AllocFailed<T>> for ArrayMetadataV2ToV3Error {
    ghost use Rattle.zarrs_convert.specs.declared.error.ArrayMetadataV2ToV3Error.TheVariants.{OutOfMemory};

    ghost from_gives = { λ _ made. made ≡ OutOfMemory };

    fn from(_error: AllocFailed<T>) -> ArrayMetadataV2ToV3Error {
        ArrayMetadataV2ToV3Error::OutOfMemory
    }
}

impl From<AllocError> for DataTypeMetadataV2EndiannessError {
    ghost use Rattle.zarrs_convert.specs.declared.error.DataTypeMetadataV2EndiannessError.TheVariants.{OutOfMemory};

    ghost from_gives = { λ _ made. made ≡ OutOfMemory };

    fn from(_error: AllocError) -> DataTypeMetadataV2EndiannessError {
        DataTypeMetadataV2EndiannessError::OutOfMemory
    }
}
