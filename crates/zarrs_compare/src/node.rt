//! The metadata of two nodes of either kind and either version.
ghost use Rattle.std.specs.Prelude.{◌≡◌, ◌↔◌, IsTrue};
ghost use Rattle.zarrs_compare.specs.Same.{IsSame, without_block};
ghost use Rattle.zarrs_compare.specs.StepsOfSame.{same_array, same_array_v2, same_array_v3, same_node};
ghost use Rattle.zarrs_meta.specs.declared.node.GroupMetadata.TheVariants.{V3 as group_v3, V2 as group_v2};
ghost use Rattle.zarrs_meta.specs.declared.node.NodeMetadata.TheVariants.{Group};

use crate::fields::{is_same_in_v2, is_same_in_v3};
use crate::parts::Same;
use zarrs_meta::{
    ArrayMetadata, ArrayMetadataV2, ArrayMetadataV3, GroupMetadata, GroupMetadataV2,
    GroupMetadataV3, NodeMetadata,
};

/// Whether two metadata are the same as data, the field `consolidated_metadata` of groups left out on both sides. Whole
/// numbers are compared by their values, and all others by their 64 bits: `0.0` is not `-0.0`, nor is `1` `1.0`, and
/// `6.37814e+06` is `6378140.0`.
///
/// Source: own; `zarrs_metadata::NodeMetadata` has `==`.
/// <https://zarr-specs.readthedocs.io/en/latest/v3/core/index.html#metadata>
pub fn is_same_metadata(first: &NodeMetadata, second: &NodeMetadata) -> bool
    ensures same { IsTrue result ↔ IsSame first.now second.now }
{
    is_same_node(first, second)
}

/// Whether two nodes are the same, but for what is said of the nodes below.
fn is_same_node(first: &NodeMetadata, second: &NodeMetadata) -> bool
    ensures { result ≡ same_node (without_block first.now) (without_block second.now) }
{
    match first {
        NodeMetadata::Group(first) => match second {
            NodeMetadata::Group(second) => is_same_group(first, second),
            NodeMetadata::Array(_) => false,
        },
        NodeMetadata::Array(first) => match second {
            NodeMetadata::Group(_) => false,
            NodeMetadata::Array(second) => is_same_array(first.as_ref(), second.as_ref()),
        },
    }
}

/// Whether two groups are the same, but for what is said of the nodes below.
fn is_same_group(first: &GroupMetadata, second: &GroupMetadata) -> bool
    ensures { result
        ≡ same_node (without_block (Group first.now)) (without_block (Group second.now)) }
{
    match first {
        GroupMetadata::V3(first) => match second {
            GroupMetadata::V3(second) => is_same_group_v3(first, second),
            GroupMetadata::V2(_) => false,
        },
        GroupMetadata::V2(first) => match second {
            GroupMetadata::V3(_) => false,
            GroupMetadata::V2(second) => is_same_group_v2(first, second),
        },
    }
}

/// Whether two arrays are the same.
fn is_same_array(first: &ArrayMetadata, second: &ArrayMetadata) -> bool
    ensures { result ≡ same_array first.now second.now }
{
    match first {
        ArrayMetadata::V3(first) => match second {
            ArrayMetadata::V3(second) => is_same_array_v3(first, second),
            ArrayMetadata::V2(_) => false,
        },
        ArrayMetadata::V2(first) => match second {
            ArrayMetadata::V3(_) => false,
            ArrayMetadata::V2(second) => is_same_array_v2(first, second),
        },
    }
}

/// Whether two version 3 groups are the same, but for what is said of the nodes below.
fn is_same_group_v3(first: &GroupMetadataV3, second: &GroupMetadataV3) -> bool
    ensures { result
        ≡ same_node (without_block (Group (group_v3 first.now)))
        (without_block (Group (group_v3 second.now))) }
{
    first.attributes.is_same(&second.attributes)
        && is_same_in_v3(&first.additional_fields, &second.additional_fields)
}

/// Whether two version 2 groups are the same, but for what is said of the nodes below.
fn is_same_group_v2(first: &GroupMetadataV2, second: &GroupMetadataV2) -> bool
    ensures { result
        ≡ same_node (without_block (Group (group_v2 first.now)))
        (without_block (Group (group_v2 second.now))) }
{
    first.attributes.is_same(&second.attributes)
        && is_same_in_v2(&first.additional_fields, &second.additional_fields)
}

/// Whether two version 3 arrays are the same.
fn is_same_array_v3(first: &ArrayMetadataV3, second: &ArrayMetadataV3) -> bool
    ensures { result ≡ same_array_v3 first.now second.now }
{
    first.shape.is_same(&second.shape)
        && first.data_type.is_same(&second.data_type)
        && first.chunk_grid.is_same(&second.chunk_grid)
        && first.chunk_key_encoding.is_same(&second.chunk_key_encoding)
        && first.fill_value.is_same(&second.fill_value)
        && first.codecs.is_same(&second.codecs)
        && first.attributes.is_same(&second.attributes)
        && first
            .storage_transformers
            .is_same(&second.storage_transformers)
        && first.dimension_names.is_same(&second.dimension_names)
        && first.additional_fields.is_same(&second.additional_fields)
}

/// Whether two version 2 arrays are the same.
fn is_same_array_v2(first: &ArrayMetadataV2, second: &ArrayMetadataV2) -> bool
    ensures { result ≡ same_array_v2 first.now second.now }
{
    first.shape.is_same(&second.shape)
        && first.chunks.is_same(&second.chunks)
        && first.dtype.is_same(&second.dtype)
        && first.fill_value.is_same(&second.fill_value)
        && first.order.is_same(&second.order)
        && first.compressor.is_same(&second.compressor)
        && first.filters.is_same(&second.filters)
        && first
            .dimension_separator
            .is_same(&second.dimension_separator)
        && first.attributes.is_same(&second.attributes)
        && first.additional_fields.is_same(&second.additional_fields)
}
