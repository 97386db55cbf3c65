//! Copies of documents that equal their source.
ghost use Rattle.std.specs.Prelude.{◌≡◌, IfOk, OnOk};

use crate::array_v2::ArrayMetadataV2;
use crate::array_v3::ArrayMetadataV3;
use crate::boxed_array::BoxedArray;
use crate::document::Document;
use crate::node::{ArrayMetadata, GroupMetadata};
use std::alloc::{AllocError, Global};
use zarrs_form::Duplicate;

impl ArrayMetadataV3 {
    /// Makes the array equal to its source, member by member.
    pub(crate) fn copy_from(
        &mut self,
        alloc: Global,
        source: &ArrayMetadataV3,
    ) -> Result<(), AllocError>
        ensures { OnOk result (self.new ≡ source.now) }
    {
        self.shape = source.shape.duplicate(alloc)?;
        self.data_type = source.data_type.try_clone(alloc)?;
        self.chunk_grid = source.chunk_grid.try_clone(alloc)?;
        self.chunk_key_encoding = source.chunk_key_encoding.try_clone(alloc)?;
        self.fill_value = source.fill_value.try_clone(alloc)?;
        self.codecs = source.codecs.duplicate(alloc)?;
        self.attributes = source.attributes.try_clone(alloc)?;
        self.storage_transformers = source.storage_transformers.duplicate(alloc)?;
        self.dimension_names = source.dimension_names.duplicate(alloc)?;
        self.additional_fields = source.additional_fields.try_clone(alloc)?;
        Ok(())
    }
}

impl ArrayMetadataV2 {
    /// Makes the array equal to its source, member by member.
    pub(crate) fn copy_from(
        &mut self,
        alloc: Global,
        source: &ArrayMetadataV2,
    ) -> Result<(), AllocError>
        ensures { OnOk result (self.new ≡ source.now) }
    {
        self.shape = source.shape.duplicate(alloc)?;
        self.chunks = source.chunks.duplicate(alloc)?;
        self.dtype = source.dtype.try_clone(alloc)?;
        self.fill_value = source.fill_value.try_clone(alloc)?;
        self.order = source.order;
        self.compressor = source.compressor.duplicate(alloc)?;
        self.filters = source.filters.duplicate(alloc)?;
        self.dimension_separator = source.dimension_separator;
        self.attributes = source.attributes.try_clone(alloc)?;
        self.additional_fields = source.additional_fields.try_clone(alloc)?;
        Ok(())
    }
}

impl GroupMetadata {
    /// A copy that equals its source.
    ///
    /// # Errors
    ///
    /// `AllocError` where there is no memory for the copy.
    pub fn try_clone(&self, alloc: Global) -> Result<GroupMetadata, AllocError>
        ensures { IfOk result (λ copy. copy ≡ self.now) }
    {
        match self {
            GroupMetadata::V3(group) => Ok(GroupMetadata::V3(group.try_clone(alloc)?)),
            GroupMetadata::V2(group) => Ok(GroupMetadata::V2(group.try_clone(alloc)?)),
        }
    }
}

impl ArrayMetadata {
    /// A copy that equals its source.
    ///
    /// # Errors
    ///
    /// `AllocError` where there is no memory for the copy.
    pub fn try_clone(&self, alloc: Global) -> Result<ArrayMetadata, AllocError>
        ensures { IfOk result (λ copy. copy ≡ self.now) }
    {
        match self {
            ArrayMetadata::V3(array) => Ok(ArrayMetadata::V3(array.try_clone(alloc)?)),
            ArrayMetadata::V2(array) => Ok(ArrayMetadata::V2(array.try_clone(alloc)?)),
        }
    }
}

impl BoxedArray {
    /// A copy that equals its source.
    ///
    /// # Errors
    ///
    /// `AllocError` where there is no memory for the copy.
    pub fn try_clone(&self, alloc: Global) -> Result<BoxedArray, AllocError>
        ensures { IfOk result (λ copy. copy ≡ self.now) }
    {
        BoxedArray::new(alloc, self.as_ref().try_clone(alloc)?)
    }
}
