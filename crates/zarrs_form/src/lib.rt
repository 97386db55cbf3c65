//! The forms of members of Zarr metadata documents, and the parts that metadata are made of. A form reads
//! a JSON value as one value, or says that the value has another form; what it writes reads back. A
//! reader of a document is then the table of the format, a line a member: `required` takes a member out of
//! a document. `document_text` writes one.
#![tactic(auto)]

mod chunks;
mod codec;
mod copies;
mod data_type;
mod document_bytes;
mod extension;
mod fields;
mod form;
pub mod laws;
mod layout;
mod members;
mod nesting;
mod rows;
mod shapes;
mod sorted;
mod text;
mod values;

pub use chunks::{ArrayMetadataV2Order, ChunkKeySeparator, chunk_lengths, has_zero};
pub use codec::MetadataV2;
pub use copies::Duplicate;
pub use data_type::{DataTypeMetadataV2, Endianness};
pub use document_bytes::document_text;
pub use extension::MetadataV3;
pub use fields::{AdditionalFieldV3, AdditionalFieldsV3, fields_of};
pub use form::{Form, attributes, optional, put_member, put_unless, required};
pub use layout::{Layout, write_key};
pub use members::{
    ask_format, ask_node_type, document, document_copy, document_copy_in, document_in, member,
    members_have_float, parse, put_text, refuse, take_member, take_null,
};
pub use nesting::is_shallow;
pub use rows::{write_last, write_row, write_unless};
pub use shapes::{FillValueMetadata, Json, List, Object, Text};
pub use values::write_value;
