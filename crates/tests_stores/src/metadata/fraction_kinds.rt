//! The kinds of documents, as each is read in numbers and written.

use serde_json::{Map, Value, put};
use std::alloc::{AllocError, Global};
use zarrs_fault::{MetadataFault, Numbers};
use zarrs_meta::{
    ArrayMetadataV2, ArrayMetadataV3, AttributesDocument, Document, GroupMetadata, GroupMetadataV2,
    GroupMetadataV3, NodeMetadata, WrittenDocument, ZarrJson, laws,
};

/// A kind of document that is read, and written as a value. What is read is plain in its numbers, and so what is written of it reads back.
pub(crate) trait Kind: Document + Drop {
    fn of_value(alloc: Global, numbers: Numbers, value: &Value) -> Result<Self, MetadataFault>;

    fn value(&self, alloc: Global) -> Result<Value, AllocError>;
}

// The document that a value is; by the laws it is plain, and what is written of it reads as it again.
fn of_value_again<D: WrittenDocument + Drop>(
    alloc: Global,
    numbers: Numbers,
    value: &Value,
) -> Result<D, MetadataFault> {
    D::read_is_plain();
    let document = D::from_value_in(alloc, numbers, value)?;
    document.reads_back(numbers);
    Ok(document)
}

impl Kind for GroupMetadataV3 {
    fn of_value(
        alloc: Global,
        numbers: Numbers,
        value: &Value,
    ) -> Result<GroupMetadataV3, MetadataFault> {
        of_value_again(alloc, numbers, value)
    }

    fn value(&self, alloc: Global) -> Result<Value, AllocError> {
        self.to_value(alloc)
    }
}

impl Kind for ArrayMetadataV3 {
    fn of_value(
        alloc: Global,
        numbers: Numbers,
        value: &Value,
    ) -> Result<ArrayMetadataV3, MetadataFault> {
        of_value_again(alloc, numbers, value)
    }

    fn value(&self, alloc: Global) -> Result<Value, AllocError> {
        self.to_value(alloc)
    }
}

impl Kind for GroupMetadataV2 {
    fn of_value(
        alloc: Global,
        numbers: Numbers,
        value: &Value,
    ) -> Result<GroupMetadataV2, MetadataFault> {
        of_value_again(alloc, numbers, value)
    }

    fn value(&self, alloc: Global) -> Result<Value, AllocError> {
        self.to_value(alloc)
    }
}

impl Kind for ArrayMetadataV2 {
    fn of_value(
        alloc: Global,
        numbers: Numbers,
        value: &Value,
    ) -> Result<ArrayMetadataV2, MetadataFault> {
        of_value_again(alloc, numbers, value)
    }

    fn value(&self, alloc: Global) -> Result<Value, AllocError> {
        self.to_value(alloc)
    }
}

impl Kind for AttributesDocument {
    fn of_value(
        alloc: Global,
        numbers: Numbers,
        value: &Value,
    ) -> Result<AttributesDocument, MetadataFault> {
        of_value_again(alloc, numbers, value)
    }

    fn value(&self, alloc: Global) -> Result<Value, AllocError> {
        self.to_value(alloc)
    }
}

impl Kind for NodeMetadata {
    fn of_value(
        alloc: Global,
        numbers: Numbers,
        value: &Value,
    ) -> Result<NodeMetadata, MetadataFault> {
        of_value_again(alloc, numbers, value)
    }

    fn value(&self, alloc: Global) -> Result<Value, AllocError> {
        self.to_value(alloc)
    }
}

impl Kind for ZarrJson {
    // What is written of a group reads back as that group.
    fn of_value(alloc: Global, numbers: Numbers, value: &Value) -> Result<ZarrJson, MetadataFault> {
        laws::read_zarr_json_is_plain_in();
        let found = ZarrJson::from_value_in(alloc, numbers, value)?;
        if let ZarrJson::Node(node) = &found {
            if let NodeMetadata::Group(GroupMetadata::V3(_)) = node {
                laws::zarr_json_reads_back_in(numbers, node);
            }
        }
        Ok(found)
    }

    // A document of version 2 is not read on: all that is known of it is its format.
    fn value(&self, alloc: Global) -> Result<Value, AllocError> {
        match self {
            ZarrJson::Node(node) => node.to_value(alloc),
            ZarrJson::Version2 => {
                let mut members = Map::new(alloc);
                put(&mut members, alloc, "zarr_format", Value::from(2u64))?;
                Ok(Value::Object(members))
            }
        }
    }
}
