//! The documents of Zarr groups and arrays, versions 2 and 3: a document means one metadata or one
//! fault, and what is written of plain metadata reads back. Each type reads itself from bytes or a JSON
//! value and writes itself as a JSON value or a text; `NodeMetadata` is the metadata of a group or an array
//! of either version. [`laws`] has what holds of the definitions.
#![tactic(auto)]

mod array_v2;
mod array_v3;
mod attributes;
mod boxed_array;
mod copies;
mod document;
mod group_v2;
mod group_v3;
pub mod laws;
mod node;
mod node_document;
mod written_document;

pub use array_v2::ArrayMetadataV2;
pub use array_v3::ArrayMetadataV3;
pub use attributes::AttributesDocument;
pub use boxed_array::BoxedArray;
pub use document::Document;
pub use group_v2::GroupMetadataV2;
pub use group_v3::GroupMetadataV3;
pub use node::{ArrayMetadata, GroupMetadata, NodeMetadata, ZarrJson};
pub use written_document::WrittenDocument;
pub use zarrs_form::{
    AdditionalFieldV3, AdditionalFieldsV3, ArrayMetadataV2Order, ChunkKeySeparator,
    DataTypeMetadataV2, Endianness, FillValueMetadata, Json, List, MetadataV2, MetadataV3, Object,
    Text,
};
