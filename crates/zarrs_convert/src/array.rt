//! Arrays of version 2 as arrays of version 3.
ghost use Rattle.zarrs_convert.specs.Arrays.{array_v3, byte_order_refusal};
ghost use Rattle.zarrs_convert.specs.DataTypes.{byte_order};
ghost use Rattle.zarrs_convert.specs.Refusals.{AnswersAs};

use crate::codecs::codec_metadata_v2_to_v3;
use crate::data_type::data_type_metadata_v2_to_v3;
use crate::endianness::data_type_metadata_v2_to_endianness;
use crate::error::ArrayMetadataV2ToV3Error;
use crate::extension::configured;
use crate::fill_value::fill_value_metadata_v2_to_v3;
use log::Log;
use std::alloc::Global;
use zarrs_form::Duplicate;
use zarrs_meta::{ArrayMetadataV2, ArrayMetadataV3, DataTypeMetadataV2, Endianness, List};

/// The version 3 array of a version 2 array: its shape, a regular grid of its chunks, the data type, the fill value and the
/// codecs by their tables, keys of chunks as in version 2 with its separator, and its attributes. Its other fields are
/// dropped. A fill value that version 3 does not have is warned of.
///
/// # Errors
///
/// The first that applies: `InvalidEndianness` of the data type, `UnsupportedDataType`, `Other` of the fill value,
/// `UnsupportedCodec` or `MultipleArrayToBytesCodecs`. `OutOfMemory` where there is no memory.
///
/// Source: Zarr core specification 3.1, "Array metadata"; `zarrs::convert::array_metadata_v2_to_v3`.
#[tactic(auto, unfolding(crate::specs::Arrays::array_v3))]
pub fn array_metadata_v2_to_v3<L: Log>(
    log: &L,
    alloc: Global,
    array: &ArrayMetadataV2,
) -> Result<ArrayMetadataV3, ArrayMetadataV2ToV3Error>
    ensures { AnswersAs (λ m. m) result (array_v3 array.now) }
{
    let endianness = endianness_of(alloc, &array.dtype)?;
    let data_type = data_type_metadata_v2_to_v3(alloc, &array.dtype)?;
    let fill_value = fill_value_metadata_v2_to_v3(log, alloc, &array.fill_value, &data_type)?;
    let codecs = codec_metadata_v2_to_v3(
        alloc,
        array.order,
        array.shape.as_slice().len(),
        &data_type,
        endianness,
        &array.filters,
        &array.compressor,
    )?;
    let shape = array.shape.duplicate(alloc)?;
    let grid = configured(alloc, "regular", "chunk_shape", &array.chunks)?;
    let encoding = configured(alloc, "v2", "separator", &array.dimension_separator)?;
    let attributes = array.attributes.try_clone(alloc)?;
    let made = ArrayMetadataV3::new(alloc, shape, grid, data_type, fill_value, List::new(codecs))?;
    Ok(
        made.with_attributes(attributes)
            .with_chunk_key_encoding(encoding),
    )
}

// The byte order of a data type, as it is asked for an array.
#[tactic(auto, using(crate::proofs::Conversions::asked_ok, crate::proofs::Conversions::asked_shows))]
fn endianness_of(
    alloc: Global,
    data_type: &DataTypeMetadataV2,
) -> Result<Option<Endianness>, ArrayMetadataV2ToV3Error>
    ensures { AnswersAs (λ order. order) result (byte_order_refusal (byte_order data_type.now)) }
{
    match data_type_metadata_v2_to_endianness(alloc, data_type) {
        Ok(endianness) => Ok(endianness),
        Err(error) => Err(ArrayMetadataV2ToV3Error::InvalidEndianness(error)),
    }
}
