//! Copies that equal their source.
ghost use Rattle.std.specs.Prelude.{◌≡◌, IfOk};

use crate::codec::MetadataV2;
use crate::data_type::DataTypeMetadataV2;
use crate::extension::MetadataV3;
use crate::fields::AdditionalFieldV3;
use crate::shapes::{Json, List, Object, Text};
use std::alloc::{AllocError, Global};

/// What can be copied, so that lists and options of it can.
///
/// <https://doc.rust-lang.org/std/clone/trait.Clone.html>
pub trait Duplicate: Sized {
    /// A copy that equals its source.
    ///
    /// # Errors
    ///
    /// `AllocError` where there is no memory for the copy.
    fn duplicate(&self, alloc: Global) -> Result<Self, AllocError>
        ensures { IfOk result (λ copy. copy ≡ self.now) };
}

impl Duplicate for u64 {
    fn duplicate(&self, _alloc: Global) -> Result<u64, AllocError> {
        Ok(*self)
    }
}

impl Duplicate for Text {
    fn duplicate(&self, alloc: Global) -> Result<Text, AllocError> {
        self.try_clone(alloc)
    }
}

impl Duplicate for Json {
    fn duplicate(&self, alloc: Global) -> Result<Json, AllocError> {
        self.try_clone(alloc)
    }
}

impl Duplicate for Object {
    fn duplicate(&self, alloc: Global) -> Result<Object, AllocError> {
        self.try_clone(alloc)
    }
}

impl Duplicate for MetadataV2 {
    fn duplicate(&self, alloc: Global) -> Result<MetadataV2, AllocError> {
        self.try_clone(alloc)
    }
}

impl Duplicate for MetadataV3 {
    fn duplicate(&self, alloc: Global) -> Result<MetadataV3, AllocError> {
        self.try_clone(alloc)
    }
}

impl<T: Duplicate> Duplicate for Option<T> {
    fn duplicate(&self, alloc: Global) -> Result<Option<T>, AllocError> {
        match self {
            Some(value) => Ok(Some(value.duplicate(alloc)?)),
            None => Ok(None),
        }
    }
}

impl<T: Duplicate + Drop> Duplicate for List<T> {
    fn duplicate(&self, alloc: Global) -> Result<List<T>, AllocError> {
        let mut items = Vec::new(alloc);
        for item in self.as_slice() {
            items.push(item.duplicate(alloc)?)?;
        }
        Ok(List::new(items))
    }
}

impl Text {
    /// A copy that equals its source.
    ///
    /// # Errors
    ///
    /// `AllocError` where there is no memory for the copy.
    pub fn try_clone(&self, alloc: Global) -> Result<Text, AllocError>
        ensures { IfOk result (λ copy. copy ≡ self.now) }
    {
        Text::from_str(alloc, self.as_str())
    }
}

impl Json {
    /// A copy that equals its source.
    ///
    /// # Errors
    ///
    /// `AllocError` where there is no memory for the copy.
    pub fn try_clone(&self, _alloc: Global) -> Result<Json, AllocError>
        ensures { IfOk result (λ copy. copy ≡ self.now) }
    {
        Ok(Json::new(self.as_value().clone()?))
    }
}

impl AdditionalFieldV3 {
    /// A copy that equals its source.
    ///
    /// # Errors
    ///
    /// `AllocError` where there is no memory for the copy.
    pub fn try_clone(&self, _alloc: Global) -> Result<AdditionalFieldV3, AllocError>
        ensures { IfOk result (λ copy. copy ≡ self.now) }
    {
        self.clone()
    }
}

impl MetadataV2 {
    /// A copy that equals its source.
    ///
    /// # Errors
    ///
    /// `AllocError` where there is no memory for the copy.
    pub fn try_clone(&self, alloc: Global) -> Result<MetadataV2, AllocError>
        ensures { IfOk result (λ copy. copy ≡ self.now) }
    {
        Ok(MetadataV2 {
            id: self.id.try_clone(alloc)?,
            configuration: self.configuration.try_clone(alloc)?,
        })
    }
}

impl MetadataV3 {
    /// A copy that equals its source.
    ///
    /// # Errors
    ///
    /// `AllocError` where there is no memory for the copy.
    pub fn try_clone(&self, alloc: Global) -> Result<MetadataV3, AllocError>
        ensures { IfOk result (λ copy. copy ≡ self.now) }
    {
        Ok(MetadataV3 {
            name: self.name.try_clone(alloc)?,
            configuration: self.configuration.duplicate(alloc)?,
            must_understand: self.must_understand,
        })
    }
}

impl DataTypeMetadataV2 {
    /// A copy that equals its source.
    ///
    /// # Errors
    ///
    /// `AllocError` where there is no memory for the copy.
    pub fn try_clone(&self, alloc: Global) -> Result<DataTypeMetadataV2, AllocError>
        ensures { IfOk result (λ copy. copy ≡ self.now) }
    {
        match self {
            DataTypeMetadataV2::Simple(name) => Ok(DataTypeMetadataV2::Simple(name.try_clone(
                alloc,
            )?)),
            DataTypeMetadataV2::Structured(fields) => {
                Ok(DataTypeMetadataV2::Structured(fields.duplicate(alloc)?))
            }
        }
    }
}
