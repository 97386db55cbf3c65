//! Codecs of version 2: an identifier and its configuration.
ghost use Rattle.zarrs_form.specs.FormsV2.{codec, codec_data, codec_fits_in};
ghost use Rattle.zarrs_fault.specs.declared.numbers.Numbers.TheVariants.{Whole};

use crate::form::Form;
use crate::layout::Layout;
use crate::members::{put_text, take_member};
use crate::shapes::{Object, Text};
use crate::values::write_members_with;
use serde_json::Value;
use std::alloc::{AllocError, Global};

/// The metadata of a codec of version 2: a compressor or a filter.
///
/// Zarr specification version 2, "Arrays", "Metadata", "compressor" and "filters".
/// <https://zarr-specs.readthedocs.io/en/latest/v2/v2.0.html#metadata>
#[derive(Debug, Drop)]
pub struct MetadataV2 {
    /// The identifier of the codec.
    pub id: Text,
    /// All its other members.
    pub configuration: Object,
}

const OWN_NAMES: &[&str] = &["id"];

/// An object with the text `id`.
impl Form for MetadataV2 {
    ghost form = { codec };

    fn read(alloc: Global, value: Value) -> Result<Option<MetadataV2>, AllocError> {
        let Value::Object(mut members) = value else {
            return Ok(None);
        };
        let Some(Value::String(id)) = take_member(&mut members, "id") else {
            return Ok(None);
        };
        Ok(Some(MetadataV2 {
            id: Text::new(id),
            configuration: Object::from_map(alloc, members)?,
        }))
    }

    ghost written = { codec_data };

    fn to_value(&self, alloc: Global) -> Result<Value, AllocError> {
        let mut members = self.configuration.to_map(alloc)?;
        put_text(&mut members, alloc, "id", self.id.as_str())?;
        Ok(Value::Object(members))
    }

    ghost fits = { codec_fits_in Whole };

    fn is_plain(&self) -> bool {
        !self.configuration.has_float() && !self.configuration.has_own_member(OWN_NAMES)
    }

    fn write(&self, alloc: Global, out: &mut String, layout: Layout) -> Result<(), AllocError> {
        let members = self.configuration.as_slice();
        write_members_with(alloc, out, layout, members, "id", self.id.as_str())
    }
}
