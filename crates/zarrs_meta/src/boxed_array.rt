//! The metadata of an array on the heap.
ghost use Rattle.std.specs.Prelude.{◌≡◌, IfOk};

use crate::node::ArrayMetadata;
use std::alloc::{AllocError, Global};
use std::marker::Model;

/// The metadata of an array, held on the heap. Contracts see the metadata themselves.
///
/// An array's metadata are several times as large as a group's. Held so, they leave the nodes of groups small.
///
/// Source: own; `zarrs_metadata::NodeMetadata` holds the metadata in place.
/// <https://zarr-specs.readthedocs.io/en/latest/v3/core/index.html#array-metadata>
#[derive(Debug, Drop)]
pub struct BoxedArray {
    array: Box<ArrayMetadata>,
}

impl Model for BoxedArray {
    ghost use Rattle.zarrs_meta.specs.declared.node.ArrayMetadata.{ArrayMetadata};
    ghost use Rattle.std.specs.Coded.{codes};
    ghost use Rattle.zarrs_meta.specs.contracts.node.ArrayMetadata as e;

    ghost Value = { ArrayMetadata };

    ghost coded = { Prim.hlevel (codes, e.the_row.coded) };

    ghost view = { λ a. a.array.value };
}

impl BoxedArray {
    /// The metadata, moved to the heap.
    ///
    /// # Errors
    ///
    /// `AllocError` where there is no memory for them.
    pub fn new(alloc: Global, array: ArrayMetadata) -> Result<BoxedArray, AllocError>
        ensures { IfOk result (λ boxed. boxed ≡ array) }
    {
        Ok(BoxedArray {
            array: Box::new(alloc, array)?,
        })
    }

    /// The metadata.
    pub fn as_ref(&self) -> &ArrayMetadata
        ensures { result.now ≡ self.now }
    {
        &self.array
    }

    /// The metadata, moved off the heap.
    pub fn into_inner(self) -> ArrayMetadata
        ensures { result ≡ self }
    {
        let BoxedArray { array } = self;
        Box::into_inner(array)
    }
}
