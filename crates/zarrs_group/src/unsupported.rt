//! Additional fields that must be understood.
ghost use Rattle.std.specs.Prelude.{◌≡◌, string_bytes, IfOk};
ghost use Rattle.serde_json.specs.View.{view};
ghost use Rattle.zarrs_group.specs.OpeningGroups.{IsUnsupported, IsUnsupportedIn};

use serde_json::Value;
use std::alloc::AllocError;
use std::marker::Model;
use thiserror::Error;
use zarrs_meta::{AdditionalFieldsV3, GroupMetadata};

/// An additional field that must be understood, and is not.
///
/// Source: `zarrs::array::AdditionalFieldUnsupportedError`.
/// <https://zarr-specs.readthedocs.io/en/latest/v3/core/index.html#extension-points>
#[derive(Debug, Drop, Error)]
#[error("unsupported additional field {name}")]
pub struct AdditionalFieldUnsupportedError {
    name: String,
    value: Value,
}

// Contracts see the name and the value.
impl Model for AdditionalFieldUnsupportedError {
    ghost use Rattle.std.specs.Prelude.{string_bytes};
    ghost use Rattle.serde_json.specs.View.{view as data_of};
    ghost use Rattle.zarrs_group.specs.UnsupportedFields.{UnsupportedField, field_code};

    ghost Value = { UnsupportedField };

    ghost coded = { field_code };

    ghost view = { λ a. record { name = string_bytes a.name; value = data_of a.value } };
}

impl AdditionalFieldUnsupportedError {
    /// The error for the field with this name and this value.
    ///
    /// Source: `zarrs::array::AdditionalFieldUnsupportedError::new`.
    pub fn new(name: String, value: Value) -> AdditionalFieldUnsupportedError
        ensures { result ≡ record { name = string_bytes name; value = view value } }
    {
        AdditionalFieldUnsupportedError { name, value }
    }

    /// The name of the field.
    ///
    /// Source: `zarrs::array::AdditionalFieldUnsupportedError::name`.
    pub fn name(&self) -> &str
        ensures { result.now ≡ self.now.name }
    {
        self.name.as_str()
    }

    /// The value of the field.
    ///
    /// Source: `zarrs::array::AdditionalFieldUnsupportedError::value`.
    pub fn value(&self) -> &Value
        ensures { view result.now ≡ self.now.value }
    {
        &self.value
    }
}

/// The least additional field of a group that must be understood, or nothing where there is none.
pub(crate) fn unsupported_field(
    metadata: &GroupMetadata,
) -> Result<Option<AdditionalFieldUnsupportedError>, AllocError>
    ensures { IfOk result (IsUnsupportedIn metadata.now) }
{
    match metadata {
        GroupMetadata::V3(group) => least_unsupported(&group.additional_fields),
        GroupMetadata::V2(_) => Ok(None),
    }
}

// The names of the fields ascend, so the first of these fields has the least name.
fn least_unsupported(
    fields: &AdditionalFieldsV3,
) -> Result<Option<AdditionalFieldUnsupportedError>, AllocError>
    ensures { IfOk result (IsUnsupported fields.now) }
{
    for entry in fields.as_slice() {
        if entry.1.must_understand() {
            let error = AdditionalFieldUnsupportedError::new(
                entry.0.clone()?,
                entry.1.as_value().clone()?,
            );
            return Ok(Some(error));
        }
    }
    Ok(None)
}
