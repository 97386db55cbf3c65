//! Data types of version 2.
ghost use Rattle.std.specs.Prelude.{◌≡◌, IfOk};
ghost use Rattle.serde_json.specs.View.{view};
ghost use Rattle.zarrs_form.specs.FormsV2.{data_type, data_type_data, data_type_fits_in};
ghost use Rattle.zarrs_fault.specs.declared.numbers.Numbers.TheVariants.{Whole};

use crate::form::Form;
use crate::layout::Layout;
use crate::shapes::{Json, List, Text};
use serde_json::Value;
use std::alloc::{AllocError, Global};

/// The data type of a version 2 array.
///
/// Zarr specification version 2, "Arrays", "Data type encoding".
/// <https://zarr-specs.readthedocs.io/en/latest/v2/v2.0.html#data-type-encoding>
#[derive(Debug, Drop)]
pub enum DataTypeMetadataV2 {
    /// A simple data type, as `<f8`.
    Simple(Text),
    /// A structured data type: the list of its fields, as it stands.
    Structured(List<Json>),
}

/// The order of the bytes of a number.
///
/// <https://zarr-specs.readthedocs.io/en/latest/v2/v2.0.html#data-type-encoding>
#[derive(Clone, Copy, Debug, PartialEq, Eq)]
pub enum Endianness {
    /// The least byte first.
    Little,
    /// The greatest byte first.
    Big,
}

/// A text or a list.
impl Form for DataTypeMetadataV2 {
    ghost form = { data_type };

    fn read(alloc: Global, value: Value) -> Result<Option<DataTypeMetadataV2>, AllocError> {
        match value {
            Value::String(name) => Ok(Some(DataTypeMetadataV2::Simple(Text::new(name)))),
            other => match List::read(alloc, other)? {
                Some(fields) => Ok(Some(DataTypeMetadataV2::Structured(fields))),
                None => Ok(None),
            },
        }
    }

    ghost written = { data_type_data };

    fn to_value(&self, alloc: Global) -> Result<Value, AllocError> {
        match self {
            DataTypeMetadataV2::Simple(name) => name.to_value(alloc),
            DataTypeMetadataV2::Structured(fields) => fields.to_value(alloc),
        }
    }

    ghost fits = { data_type_fits_in Whole };

    fn is_plain(&self) -> bool {
        match self {
            DataTypeMetadataV2::Simple(_) => true,
            DataTypeMetadataV2::Structured(fields) => fields.is_plain(),
        }
    }

    fn write(&self, alloc: Global, out: &mut String, layout: Layout) -> Result<(), AllocError> {
        match self {
            DataTypeMetadataV2::Simple(name) => name.write(alloc, out, layout),
            DataTypeMetadataV2::Structured(fields) => fields.write(alloc, out, layout),
        }
    }
}
