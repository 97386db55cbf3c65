//! Metadata of version 2 as metadata of version 3: what a call here answers is what a table says, and where the table has
//! no line it is the first fault in the order of the tables. [`laws`] has what holds of every conversion.
#![tactic(auto)]

mod array;
mod codecs;
mod data_type;
mod endianness;
mod error;
mod extension;
mod fill_value;
mod group;
pub mod laws;
mod number;

pub use array::array_metadata_v2_to_v3;
pub use codecs::codec_metadata_v2_to_v3;
pub use data_type::data_type_metadata_v2_to_v3;
pub use endianness::data_type_metadata_v2_to_endianness;
pub use error::{ArrayMetadataV2ToV3Error, DataTypeMetadataV2EndiannessError};
pub use fill_value::fill_value_metadata_v2_to_v3;
pub use group::group_metadata_v2_to_v3;
