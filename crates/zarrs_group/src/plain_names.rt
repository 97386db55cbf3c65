//! Whether the metadata of a node could have come from a document, in some numbers.
ghost use Rattle.std.specs.Prelude.{◌≡◌, ◌&&◌, not};
ghost use Rattle.std.specs.List.{list_all};
ghost use Rattle.zarrs_fault.specs.declared.numbers.Numbers.TheVariants.{Any};
ghost use Rattle.zarrs_form.specs.Documents.{has_own};
ghost use Rattle.zarrs_form.specs.Forms.{none_or};
ghost use Rattle.zarrs_form.specs.FormsV2.{codec_fits_in, has_zero};
ghost use Rattle.zarrs_meta.specs.ArrayV3.{is_plain_array_v3_in};
ghost use Rattle.zarrs_meta.specs.ArrayV2.{array_v2_names};
ghost use Rattle.zarrs_meta.specs.GroupV3.{is_plain_group_v3_in};
ghost use Rattle.zarrs_meta.specs.GroupV2.{is_plain_group_v2_in};
ghost use Rattle.zarrs_meta.specs.Node.{is_plain_node_in};

use zarrs_form::has_zero;
use zarrs_meta::{
    ArrayMetadata, ArrayMetadataV2, ArrayMetadataV3, GroupMetadata, GroupMetadataV2,
    GroupMetadataV3, List, MetadataV2, NodeMetadata, WrittenDocument,
};
use zarrs_store::Numbers;

/// Whether a node could have come from a document that may hold these numbers.
pub(crate) fn is_plain(numbers: Numbers, node: &NodeMetadata) -> bool
    ensures { result ≡ is_plain_node_in numbers node.now }
{
    match numbers {
        Numbers::Whole => node.is_plain(),
        Numbers::Any => has_plain_names(node),
    }
}

// Whether a node could have come from a document that may hold any number.
#[tactic(auto, using(crate::proofs::PlainNames::array_v2_parts))]
fn has_plain_names(node: &NodeMetadata) -> bool
    ensures { result ≡ is_plain_node_in Any node.now }
{
    match node {
        NodeMetadata::Group(GroupMetadata::V3(group)) => has_plain_names_v3(group),
        NodeMetadata::Group(GroupMetadata::V2(group)) => has_plain_names_v2(group),
        NodeMetadata::Array(array) => match array.as_ref() {
            ArrayMetadata::V3(array) => has_plain_fields(array),
            ArrayMetadata::V2(array) => has_plain_parts(array),
        },
    }
}

fn has_plain_names_v3(group: &GroupMetadataV3) -> bool
    ensures { result ≡ is_plain_group_v3_in Any group.now }
{
    let fields = &group.additional_fields;
    !fields.has_own_name(&["zarr_format", "node_type", "attributes"])
        && !fields.is_null_at("consolidated_metadata")
}

fn has_plain_names_v2(group: &GroupMetadataV2) -> bool
    ensures { result ≡ is_plain_group_v2_in Any group.now }
{
    !group
        .additional_fields
        .has_own_member(&["zarr_format", "shape", "attributes"])
}

// The names that an array of version 3 has by its format.
const ARRAY_V3_NAMES: &[&str] = &[
    "zarr_format",
    "node_type",
    "shape",
    "data_type",
    "chunk_grid",
    "chunk_key_encoding",
    "fill_value",
    "codecs",
    "attributes",
    "storage_transformers",
    "dimension_names",
];

#[tactic(auto, using(crate::proofs::PlainNames::array_v3_fields))]
fn has_plain_fields(array: &ArrayMetadataV3) -> bool
    ensures { result ≡ is_plain_array_v3_in Any array.now }
{
    !array.additional_fields.has_own_name(ARRAY_V3_NAMES)
}

// The names that an array of version 2 has by its format.
const ARRAY_V2_NAMES: &[&str] = &[
    "zarr_format",
    "shape",
    "chunks",
    "dtype",
    "fill_value",
    "order",
    "compressor",
    "filters",
    "dimension_separator",
    "attributes",
];

// No chunk length is 0, and no codec and no array has a member with a name of its own.
fn has_plain_parts(array: &ArrayMetadataV2) -> bool
    ensures { result ≡ (not (has_zero array.now.chunks)
        && none_or (codec_fits_in Any) array.now.compressor
        && none_or (list_all (codec_fits_in Any)) array.now.filters
        && not (has_own array_v2_names array.now.additional_fields)) }
{
    !has_zero(&array.chunks)
        && is_plain_compressor(&array.compressor)
        && are_plain_filters(&array.filters)
        && !array.additional_fields.has_own_member(ARRAY_V2_NAMES)
}

fn is_plain_compressor(compressor: &Option<MetadataV2>) -> bool
    ensures { result ≡ none_or (codec_fits_in Any) compressor.now }
{
    match compressor {
        None => true,
        Some(codec) => is_plain_codec(codec),
    }
}

fn are_plain_filters(filters: &Option<List<MetadataV2>>) -> bool
    ensures { result ≡ none_or (list_all (codec_fits_in Any)) filters.now }
{
    match filters {
        None => true,
        Some(codecs) => are_plain_codecs(codecs.as_slice()),
    }
}

fn are_plain_codecs(codecs: &[MetadataV2]) -> bool
    ensures { result ≡ list_all (codec_fits_in Any) codecs.now }
{
    for codec in codecs {
        if !is_plain_codec(codec) {
            return false;
        }
    }
    true
}

fn is_plain_codec(codec: &MetadataV2) -> bool
    ensures { result ≡ codec_fits_in Any codec.now }
{
    !codec.configuration.has_own_member(&["id"])
}
