//! Extensions: a name, its configuration, and whether it must be understood.
ghost use Rattle.std.specs.Prelude.{◌≡◌, None, IfOk, true, false, option_map};
ghost use Rattle.serde_json.specs.Data.{object};
ghost use Rattle.serde_json.specs.View.{view, members_view};
ghost use Rattle.zarrs_form.specs.Forms.{extension, extension_object, extension_data, extension_fits_in, unless, unless_absent};
ghost use Rattle.zarrs_fault.specs.declared.numbers.Numbers.TheVariants.{Whole};

use crate::form::{Form, put_member};
use crate::layout::Layout;
use crate::members::take_member;
use crate::rows::{write_last, write_row};
use crate::shapes::{Object, Text};
use serde_json::{Map, Value};
use std::alloc::{AllocError, Global};

/// The metadata of an extension of version 3: a data type, a codec, a chunk grid and the like.
///
/// Zarr core specification 3.1, "Extension definition"; `zarrs_metadata::v3::MetadataV3`.
/// <https://zarr-specs.readthedocs.io/en/latest/v3/core/index.html#extension-definition>
#[derive(Debug, Drop)]
pub struct MetadataV3 {
    /// The name of the extension.
    pub name: Text,
    /// Its configuration, where there is one.
    pub configuration: Option<Object>,
    /// Whether a reader has to know the extension.
    pub must_understand: bool,
}

impl MetadataV3 {
    /// What is written of `must_understand`: false, and nothing for true.
    fn refusal(&self) -> Option<&bool>
        ensures { option_map (λ b. b.now) result ≡ unless self.now.must_understand false }
    {
        if self.must_understand {
            None
        } else {
            Some(&self.must_understand)
        }
    }

    /// The extension that an object is.
    #[tactic(auto, using(crate::proofs::MemberLaws::get_left, crate::proofs::MemberLaws::get_left_twice))]
    fn from_members(
        alloc: Global,
        mut members: Map<String, Value>,
    ) -> Result<Option<MetadataV3>, AllocError>
        ensures { IfOk result
            (λ found. found ≡ extension_object (object (members_view members.entries))) }
    {
        let Some(name) = take_member(&mut members, "name") else {
            return Ok(None);
        };
        let Some(name) = Text::read(alloc, name)? else {
            return Ok(None);
        };
        let found = take_member(&mut members, "configuration");
        let Some(configuration) = unless_absent(alloc, found, None)? else {
            return Ok(None);
        };
        let found = take_member(&mut members, "must_understand");
        let Some(must_understand) = unless_absent(alloc, found, true)? else {
            return Ok(None);
        };
        Ok(Some(MetadataV3 {
            name,
            configuration,
            must_understand,
        }))
    }
}

/// A text, which is the name, or an object.
impl Form for MetadataV3 {
    ghost form = { extension };

    fn read(alloc: Global, value: Value) -> Result<Option<MetadataV3>, AllocError> {
        match value {
            Value::String(name) => Ok(Some(MetadataV3 {
                name: Text::new(name),
                configuration: None,
                must_understand: true,
            })),
            Value::Object(members) => MetadataV3::from_members(alloc, members),
            _ => Ok(None),
        }
    }

    ghost written = { extension_data };

    fn to_value(&self, alloc: Global) -> Result<Value, AllocError> {
        if self.configuration.is_none() && self.must_understand {
            return self.name.to_value(alloc);
        }
        let mut members = Map::new(alloc);
        put_member(&mut members, alloc, "name", Some(&self.name))?;
        put_member(
            &mut members,
            alloc,
            "configuration",
            self.configuration.as_ref(),
        )?;
        put_member(&mut members, alloc, "must_understand", self.refusal())?;
        Ok(Value::Object(members))
    }

    ghost fits = { extension_fits_in Whole };

    fn is_plain(&self) -> bool {
        self.configuration.is_plain()
    }

    fn write(&self, alloc: Global, out: &mut String, layout: Layout) -> Result<(), AllocError> {
        if self.configuration.is_none() && self.must_understand {
            return self.name.write(alloc, out, layout);
        }
        out.push_str("{")?;
        let configuration = self.configuration.as_ref();
        write_row(alloc, out, layout, "configuration", configuration)?;
        write_row(alloc, out, layout, "must_understand", self.refusal())?;
        write_last(alloc, out, layout, "name", &self.name)
    }
}

/// What was found, or the value for absent.
fn unless_absent<T: Form + Drop>(
    alloc: Global,
    found: Option<Value>,
    absent: T,
) -> Result<Option<T>, AllocError>
    ensures { IfOk result (λ read. read ≡ unless_absent absent T.form (option_map view found)) }
{
    match found {
        None => Ok(Some(absent)),
        Some(value) => T::read(alloc, value),
    }
}
