//! Filters, compressors and the order of version 2 as codecs of version 3.
ghost use Rattle.std.specs.Prelude.{◌≡◌, IfOk, [], reverse, unwrap_or};
ghost use Rattle.std.specs.List.{range_with_len};
ghost use Rattle.zarrs_convert.specs.Codecs.{array_to_bytes, bytes_codec, codecs_v3, endian, filter_v3, filters_v3, transposition};
ghost use Rattle.zarrs_convert.specs.Refusals.{AnswersAs};
ghost use Rattle.zarrs_convert.specs.StepsOfConversion.{NamesCodec};

use crate::error::ArrayMetadataV2ToV3Error;
use crate::extension::{configured, unconfigured};
use std::alloc::{AllocError, Global};
use zarrs_meta::{ArrayMetadataV2Order, Endianness, List, MetadataV2, MetadataV3, Text};

/// The filters that have a form of version 3, each of the same name.
const VLEN_NAMES: &[&str] = &["vlen-array", "vlen-bytes", "vlen-utf8"];

/// The codecs of version 3, in the order of encoding: `transpose` for the order F, the filters, and `bytes` where no filter
/// makes bytes of an array. The data type does not matter to the answer.
///
/// # Errors
///
/// The first that applies: `UnsupportedCodec` of the first filter that is not `vlen-array`, `vlen-bytes` or `vlen-utf8`;
/// `MultipleArrayToBytesCodecs` where there are more filters than one; `UnsupportedCodec` of the compressor, if there is
/// one. `OutOfMemory` where there is no memory.
///
/// Source: Zarr specification version 2, "Metadata"; `zarrs::convert::codec_metadata_v2_to_v3`.
pub fn codec_metadata_v2_to_v3(
    alloc: Global,
    order: ArrayMetadataV2Order,
    dimensionality: usize,
    _data_type: &MetadataV3,
    endianness: Option<Endianness>,
    filters: &Option<List<MetadataV2>>,
    compressor: &Option<MetadataV2>,
) -> Result<Vec<MetadataV3>, ArrayMetadataV2ToV3Error>
    ensures { AnswersAs (λ codecs. codecs.items) result
        (codecs_v3 order dimensionality endianness filters.now compressor.now) }
{
    let vlen = all_filters(alloc, filters)?;
    let mut to_bytes = array_to_bytes(alloc, endianness, vlen)?;
    if let Some(compressor) = compressor {
        return Err(unsupported(alloc, compressor));
    }
    let mut codecs = transposition(alloc, order, dimensionality)?;
    codecs.append(&mut to_bytes)?;
    Ok(codecs)
}

// The codec `transpose` for the order F.
fn transposition(
    alloc: Global,
    order: ArrayMetadataV2Order,
    dimensionality: usize,
) -> Result<Vec<MetadataV3>, AllocError>
    ensures { IfOk result (λ codecs. codecs.items ≡ transposition order dimensionality) }
{
    let mut codecs = Vec::new(alloc);
    if let ArrayMetadataV2Order::C = order {
        return Ok(codecs);
    }
    let order = List::new(descending(alloc, dimensionality as u64)?);
    codecs.push(configured(alloc, "transpose", "order", &order)?)?;
    Ok(codecs)
}

// The dimensions, the last one first.
fn descending(alloc: Global, dimensionality: u64) -> Result<Vec<u64>, AllocError>
    ensures { IfOk result (λ order. order.items ≡ reverse (range_with_len 0 dimensionality)) }
{
    let mut order = ascending(alloc, dimensionality)?;
    order.reverse();
    Ok(order)
}

// The dimensions, the first one first.
fn ascending(alloc: Global, dimensionality: u64) -> Result<Vec<u64>, AllocError>
    ensures { IfOk result (λ order. order.items ≡ range_with_len 0 dimensionality) }
{
    (0..dimensionality).collect(alloc)
}

// The one codec from arrays to bytes: that of the filters, or the codec `bytes`.
#[tactic(auto, using(crate::proofs::Filters::to_bytes_none, crate::proofs::Filters::to_bytes_one, crate::proofs::Filters::to_bytes_many))]
fn array_to_bytes(
    alloc: Global,
    endianness: Option<Endianness>,
    mut filters: Vec<MetadataV3>,
) -> Result<Vec<MetadataV3>, ArrayMetadataV2ToV3Error>
    ensures { AnswersAs (λ codecs. codecs.items) result (array_to_bytes endianness filters.items) }
{
    if filters.is_empty() {
        filters.push(bytes(alloc, endianness)?)?;
        return Ok(filters);
    }
    if filters.len() > 1 {
        return Err(ArrayMetadataV2ToV3Error::MultipleArrayToBytesCodecs);
    }
    Ok(filters)
}

// Each filter in turn, where there are filters.
fn all_filters(
    alloc: Global,
    filters: &Option<List<MetadataV2>>,
) -> Result<Vec<MetadataV3>, ArrayMetadataV2ToV3Error>
    ensures { AnswersAs (λ codecs. codecs.items) result (filters_v3 (unwrap_or filters.now [])) }
{
    match filters {
        Some(filters) => filters_v3(alloc, filters.as_slice()),
        None => Ok(Vec::new(alloc)),
    }
}

// Each filter in turn.
fn filters_v3(
    alloc: Global,
    filters: &[MetadataV2],
) -> Result<Vec<MetadataV3>, ArrayMetadataV2ToV3Error>
    ensures { AnswersAs (λ codecs. codecs.items) result (filters_v3 filters.now) }
{
    let mut codecs = Vec::new(alloc);
    for filter in filters {
        codecs.push(filter_v3(alloc, filter)?)?;
    }
    Ok(codecs)
}

// A filter of variable length keeps its name, with an empty configuration.
fn filter_v3(alloc: Global, filter: &MetadataV2) -> Result<MetadataV3, ArrayMetadataV2ToV3Error>
    ensures { AnswersAs (λ codec. codec) result (filter_v3 filter.now) }
{
    if !VLEN_NAMES.contains(&filter.id.as_str()) {
        return Err(unsupported(alloc, filter));
    }
    Ok(unconfigured(alloc, filter.id.as_str())?)
}

// The refusal of a codec, or out of memory for it.
fn unsupported(alloc: Global, codec: &MetadataV2) -> ArrayMetadataV2ToV3Error
    ensures { NamesCodec codec.now result }
{
    match (
        String::from_str(alloc, codec.id.as_str()),
        codec.configuration.to_map(alloc),
    ) {
        (Ok(id), Ok(configuration)) => {
            ArrayMetadataV2ToV3Error::UnsupportedCodec(id, configuration)
        }
        _ => ArrayMetadataV2ToV3Error::OutOfMemory,
    }
}

// The codec `bytes` with a byte order.
fn bytes(alloc: Global, endianness: Option<Endianness>) -> Result<MetadataV3, AllocError>
    ensures { IfOk result (λ codec. codec ≡ bytes_codec endianness) }
{
    let endian = Text::from_str(alloc, endian(endianness))?;
    configured(alloc, "bytes", "endian", &endian)
}

// How a byte order is written; none is written as little.
fn endian(endianness: Option<Endianness>) -> &'static str
    ensures { result.now ≡ endian endianness }
{
    match endianness {
        Some(Endianness::Little) => "little",
        Some(Endianness::Big) => "big",
        None => "little",
    }
}
