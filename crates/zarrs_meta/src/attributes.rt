//! The attributes of a version 2 node, as a document of their own.
ghost use Rattle.zarrs_meta.specs.Attributes.{attributes_ask_first, attributes_document_in, attributes_tree, is_plain_attributes_in};

use crate::document::Document;
use crate::written_document::WrittenDocument;
use serde_json::{Map, Value};
use std::alloc::{AllocError, Global};
use zarrs_fault::{MetadataFault, Numbers};
use zarrs_form::{Form, Layout, Object};

/// The attributes beside a version 2 group or array.
///
/// Zarr specification version 2, "Attributes".
/// <https://zarr-specs.readthedocs.io/en/latest/v2/v2.0.html#attributes>
#[derive(Debug, Drop)]
pub struct AttributesDocument(pub Object);

impl Document for AttributesDocument {
    ghost meaning = { attributes_document_in };

    fn from_members_in(
        alloc: Global,
        _numbers: Numbers,
        members: Map<String, Value>,
    ) -> Result<AttributesDocument, MetadataFault> {
        let attributes = Object::from_map(alloc, members)?;
        Ok(AttributesDocument(attributes))
    }

    fn try_clone(&self, alloc: Global) -> Result<AttributesDocument, AllocError> {
        Ok(AttributesDocument(self.0.try_clone(alloc)?))
    }

    ghost asks_first = { attributes_ask_first };
}

impl WrittenDocument for AttributesDocument {
    ghost tree = { attributes_tree };

    ghost plain = { is_plain_attributes_in };

    fn to_value(&self, alloc: Global) -> Result<Value, AllocError> {
        self.0.to_value(alloc)
    }

    fn write(&self, alloc: Global, out: &mut String, layout: Layout) -> Result<(), AllocError> {
        self.0.write(alloc, out, layout)
    }

    /// Whether the attributes could have come from a document: each number is `u64` or `i64`.
    fn is_plain(&self) -> bool {
        self.0.is_plain()
    }

    #[tactic(auto, using(crate::proofs::AttributeLaws::attributes_document_again_in))]
    fn reads_back(&self, numbers: Numbers) {}

    #[tactic(auto, using(crate::proofs::PlainNodes::read_attributes_are_plain_in))]
    fn read_is_plain() {}

    #[tactic(auto, using(crate::proofs::AttributeLaws::attributes_tree_no_float))]
    fn plain_is_whole(&self) {}
}
