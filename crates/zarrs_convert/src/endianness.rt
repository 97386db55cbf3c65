//! The byte order of a data type of version 2.
ghost use Rattle.zarrs_convert.specs.DataTypes.{byte_order};
ghost use Rattle.zarrs_convert.specs.Refusals.{GivesOrder};

use crate::error::DataTypeMetadataV2EndiannessError;
use std::alloc::Global;
use zarrs_meta::{DataTypeMetadataV2, Endianness};

/// The byte order of a data type, where it has one: `<` is little, `>` is big, and a vertical bar or a list has none.
///
/// # Errors
///
/// `Invalid` with the text where it begins with none of these, `OutOfMemory` where there is no memory for the text.
///
/// Source: Zarr specification version 2, "Data type encoding"; `zarrs_metadata::v2::data_type_metadata_v2_to_endianness`.
pub fn data_type_metadata_v2_to_endianness(
    alloc: Global,
    data_type: &DataTypeMetadataV2,
) -> Result<Option<Endianness>, DataTypeMetadataV2EndiannessError>
    ensures { GivesOrder result (byte_order data_type.now) }
{
    let DataTypeMetadataV2::Simple(name) = data_type else {
        return Ok(None);
    };
    match name.as_str().as_bytes().first() {
        Some(b'<') => Ok(Some(Endianness::Little)),
        Some(b'>') => Ok(Some(Endianness::Big)),
        Some(b'|') => Ok(None),
        _ => {
            let text = String::from_str(alloc, name.as_str())?;
            Err(DataTypeMetadataV2EndiannessError::Invalid(text))
        }
    }
}
