//! The forms of members: each type reads itself from a JSON value, or says that the value has another
//! form.
ghost use Rattle.std.specs.Prelude.{◌≡◌, [], ◌∷◌, ◌++◌, Option, Bool, true, false, IfOk, OnOk, OnErr, IsTrue, Some, None, option_map, codes, string_bytes};
ghost use Rattle.serde_json.specs.Data.{Data, boolean, string, object, no_members};
ghost use Rattle.serde_json.specs.Find.{as_str, as_bool, as_object};
ghost use Rattle.std.specs.List.{list_all};
ghost use Rattle.serde_json.specs.View.{view, members_view};
ghost use Rattle.serde_json.specs.Written as json_written;
ghost use Rattle.zarrs_form.specs.Documents as documents;
ghost use Rattle.zarrs_form.specs.Documents.{Gives, besides};
ghost use Rattle.zarrs_form.specs.Forms as forms;
ghost use Rattle.zarrs_form.specs.Layouts.{text_in};
ghost use Rattle.zarrs_form.specs.Forms.{number_u64, any, nullable, list_of, number_data, list_data, nullable_data, none_or, put_row};

use crate::layout::{Layout, deeper, write_close, write_line};
use crate::members::{has_float, take_member};
use crate::shapes::{Json, List, Object, Text};
use crate::text::{write_comma, write_number, write_text};
use crate::values::{write_members, write_value};
use serde_json::{Map, Value, put};
use std::alloc::{AllocError, Global};
use zarrs_fault::{MemberName, MetadataFault};

/// A type whose values stand in a document in one form, and are written in it.
///
/// Source: Zarr core specification 3.1, "Array metadata" and "Extension definition"; specification
/// version 2, "Arrays", "Metadata".
/// <https://zarr-specs.readthedocs.io/en/latest/v3/core/index.html#array-metadata>
/// <https://zarr-specs.readthedocs.io/en/latest/v2/v2.0.html#metadata>
pub trait Form: Sized {
    /// The value that the data stand for, where they have the form.
    ghost form: { Data → Option Self };

    /// The value that the JSON value stands for, or none where it has another form.
    ///
    /// # Errors
    ///
    /// `AllocError` where there is no memory for it.
    fn read(alloc: Global, value: Value) -> Result<Option<Self>, AllocError>
        ensures { IfOk result (λ found. found ≡ form (view value)) };

    /// What is written of the value.
    ghost written: { Self → Data };

    /// The JSON value that is written of the value.
    ///
    /// # Errors
    ///
    /// `AllocError` where there is no memory for it.
    fn to_value(&self, alloc: Global) -> Result<Value, AllocError>
        ensures { IfOk result (λ v. view v ≡ written self.now) };

    /// Whether the value could have come from a document.
    ghost fits: { Self → Bool };

    /// Whether the value could have come from a document.
    fn is_plain(&self) -> bool
        ensures { result ≡ fits self.now };

    /// Appends the text of what is written of the value, in a layout.
    ///
    /// # Errors
    ///
    /// `AllocError` where there is no memory for it; a beginning of the text may have been appended.
    fn write(&self, alloc: Global, out: &mut String, layout: Layout) -> Result<(), AllocError>
        ensures ok { OnOk result (json_written.has_float (written self.now) ≡ false
            → string_bytes out.new ≡ string_bytes out.old ++ text_in layout (written self.now)) };
}

impl Form for u64 {
    ghost form = { number_u64 };

    fn read(_alloc: Global, value: Value) -> Result<Option<u64>, AllocError> {
        Ok(value.as_u64())
    }

    ghost written = { number_data };

    fn to_value(&self, _alloc: Global) -> Result<Value, AllocError> {
        Ok(Value::from(*self))
    }

    ghost fits = { λ _. true };

    fn is_plain(&self) -> bool {
        true
    }

    fn write(&self, _alloc: Global, out: &mut String, _layout: Layout) -> Result<(), AllocError> {
        write_number(out, *self)
    }
}

impl Form for bool {
    ghost form = { as_bool };

    fn read(_alloc: Global, value: Value) -> Result<Option<bool>, AllocError> {
        Ok(value.as_bool())
    }

    ghost written = { boolean };

    fn to_value(&self, _alloc: Global) -> Result<Value, AllocError> {
        Ok(Value::Bool(*self))
    }

    ghost fits = { λ _. true };

    fn is_plain(&self) -> bool {
        true
    }

    fn write(&self, _alloc: Global, out: &mut String, _layout: Layout) -> Result<(), AllocError> {
        out.push_str(if *self { "true" } else { "false" })
    }
}

impl Form for Text {
    ghost form = { as_str };

    fn read(_alloc: Global, value: Value) -> Result<Option<Text>, AllocError> {
        let Value::String(string) = value else {
            return Ok(None);
        };
        Ok(Some(Text::new(string)))
    }

    ghost written = { string };

    fn to_value(&self, alloc: Global) -> Result<Value, AllocError> {
        Ok(Value::String(String::from_str(alloc, self.as_str())?))
    }

    ghost fits = { λ _. true };

    fn is_plain(&self) -> bool {
        true
    }

    fn write(&self, alloc: Global, out: &mut String, _layout: Layout) -> Result<(), AllocError> {
        write_text(alloc, out, self.as_str())
    }
}

impl Form for Object {
    ghost form = { as_object };

    fn read(alloc: Global, value: Value) -> Result<Option<Object>, AllocError> {
        let Value::Object(members) = value else {
            return Ok(None);
        };
        Ok(Some(Object::from_map(alloc, members)?))
    }

    ghost written = { object };

    fn to_value(&self, alloc: Global) -> Result<Value, AllocError> {
        Ok(Value::Object(self.to_map(alloc)?))
    }

    ghost fits = { λ ms. forms.fits (object ms) };

    fn is_plain(&self) -> bool {
        !self.has_float()
    }

    fn write(&self, alloc: Global, out: &mut String, layout: Layout) -> Result<(), AllocError> {
        write_members(alloc, out, layout, self.as_slice())
    }
}

impl Form for Json {
    ghost form = { any };

    fn read(_alloc: Global, value: Value) -> Result<Option<Json>, AllocError> {
        Ok(Some(Json::new(value)))
    }

    ghost written = { λ d. d };

    fn to_value(&self, _alloc: Global) -> Result<Value, AllocError> {
        self.as_value().clone()
    }

    ghost fits = { forms.fits };

    fn is_plain(&self) -> bool {
        !has_float(self.as_value())
    }

    fn write(&self, alloc: Global, out: &mut String, layout: Layout) -> Result<(), AllocError> {
        write_value(alloc, out, layout, self.as_value())
    }
}

/// Null counts as absent.
impl<T: Form> Form for Option<T> {
    ghost form = { nullable T.form };

    fn read(alloc: Global, value: Value) -> Result<Option<Option<T>>, AllocError> {
        if let Value::Null = value {
            return Ok(Some(None));
        }
        match T::read(alloc, value)? {
            Some(found) => Ok(Some(Some(found))),
            None => Ok(None),
        }
    }

    ghost written = { nullable_data T.written };

    fn to_value(&self, alloc: Global) -> Result<Value, AllocError> {
        match self {
            None => Ok(Value::Null),
            Some(value) => value.to_value(alloc),
        }
    }

    ghost fits = { none_or T.fits };

    fn is_plain(&self) -> bool {
        match self {
            None => true,
            Some(value) => value.is_plain(),
        }
    }

    fn write(&self, alloc: Global, out: &mut String, layout: Layout) -> Result<(), AllocError> {
        match self {
            None => out.push_str("null"),
            Some(value) => value.write(alloc, out, layout),
        }
    }
}

/// A list, each of whose items has the form.
impl<T: Form + Drop> Form for List<T> {
    ghost form = { list_of T.form };

    fn read(alloc: Global, value: Value) -> Result<Option<List<T>>, AllocError> {
        let Value::Array(items) = value else {
            return Ok(None);
        };
        let mut all = Vec::new(alloc);
        for item in items {
            match T::read(alloc, item)? {
                Some(one) => all.push(one)?,
                None => return Ok(None),
            }
        }
        Ok(Some(List::new(all)))
    }

    ghost written = { list_data T.written };

    fn to_value(&self, alloc: Global) -> Result<Value, AllocError> {
        let mut items = Vec::new(alloc);
        for item in self.as_slice() {
            items.push(item.to_value(alloc)?)?;
        }
        Ok(Value::Array(items))
    }

    ghost fits = { list_all T.fits };

    fn is_plain(&self) -> bool {
        for item in self.as_slice() {
            if !item.is_plain() {
                return false;
            }
        }
        true
    }

    fn write(&self, alloc: Global, out: &mut String, layout: Layout) -> Result<(), AllocError> {
        let inner = deeper(layout)?;
        out.push_str("[")?;
        let mut later = false;
        for item in self.as_slice() {
            write_comma(out, later)?;
            write_line(out, inner)?;
            item.write(alloc, out, inner)?;
            later = true;
        }
        write_close(out, later, layout)?;
        out.push_str("]")
    }
}

/// Takes the member of that name, which has to be there, and reads it in its form.
///
/// # Errors
///
/// `MissingMember` where there is no such member, `BadMember` where it has another form; the member is gone
/// from the members in either case. `OutOfMemory` where there is no memory.
///
/// Source: Zarr core specification 3.1, "Metadata documents"; specification version 2, "Metadata".
pub fn required<T: Form>(
    alloc: Global,
    members: &mut Map<String, Value>,
    name: &'static str,
) -> Result<T, MetadataFault>
    ensures gives { Gives (λ x. x) result
        (documents.required_member name.now T.form (object (members_view members.old.entries))) }
    ensures left { members_view members.new.entries
        ≡ besides (name.now ∷ []) (members_view members.old.entries) }
{
    let Some(value) = take_member(members, name) else {
        return Err(MetadataFault::MissingMember(MemberName::new(name)));
    };
    match T::read(alloc, value)? {
        Some(found) => Ok(found),
        None => Err(MetadataFault::BadMember(MemberName::new(name))),
    }
}

/// Takes the member of that name and reads it in its form, or answers the value for absent where there is no
/// such member.
///
/// # Errors
///
/// `BadMember` where the member has another form; it is gone from the members then too. `OutOfMemory` where
/// there is no memory.
///
/// Source: Zarr core specification 3.1, "Metadata documents"; specification version 2, "Metadata".
pub fn optional<T: Form + Drop>(
    alloc: Global,
    members: &mut Map<String, Value>,
    name: &'static str,
    absent: T,
) -> Result<T, MetadataFault>
    ensures gives { Gives (λ x. x) result
        (documents.optional_member name.now absent T.form
        (object (members_view members.old.entries))) }
    ensures left { members_view members.new.entries
        ≡ besides (name.now ∷ []) (members_view members.old.entries) }
{
    let Some(value) = take_member(members, name) else {
        return Ok(absent);
    };
    match T::read(alloc, value)? {
        Some(found) => Ok(found),
        None => Err(MetadataFault::BadMember(MemberName::new(name))),
    }
}

/// Takes the member `attributes`, which is empty where it is absent.
///
/// # Errors
///
/// `BadMember` where the member is no object; it is gone from the members then too. `OutOfMemory` where there
/// is no memory.
///
/// Source: Zarr core specification 3.1, "Array metadata", "attributes"; specification version 2, "Attributes".
pub fn attributes(alloc: Global, members: &mut Map<String, Value>) -> Result<Object, MetadataFault>
    ensures gives { Gives (λ x. x) result
        (documents.optional_member (codes "attributes") no_members as_object
        (object (members_view members.old.entries))) }
    ensures left { members_view members.new.entries
        ≡ besides (codes "attributes" ∷ []) (members_view members.old.entries) }
{
    optional(alloc, members, "attributes", Object::new(alloc))
}

/// Puts what is written of the value as the member of that name, or nothing where there is no value.
///
/// # Errors
///
/// `AllocError` where there is no memory for it; the members are unchanged.
pub fn put_member<T: Form>(
    members: &mut Map<String, Value>,
    alloc: Global,
    name: &str,
    value: Option<&T>,
) -> Result<(), AllocError>
    ensures ok { OnOk result
        (members_view members.new.entries
        ≡ put_row name.now (option_map (λ x. T.written x.now) value.entry)
        (members_view members.old.entries)) }
    ensures unchanged { OnErr result (members.new.entries ≡ members.old.entries) }
{
    match value {
        None => Ok(()),
        Some(value) => put(members, alloc, name, value.to_value(alloc)?),
    }
}

/// Puts what is written of the value as the member of that name, or nothing where the value counts as empty.
///
/// # Errors
///
/// `AllocError` where there is no memory for it; the members are unchanged.
pub fn put_unless<T: Form>(
    members: &mut Map<String, Value>,
    alloc: Global,
    name: &str,
    is_empty: bool,
    value: &T,
) -> Result<(), AllocError>
    ensures ok { OnOk result
        (members_view members.new.entries
        ≡ put_row name.now (forms.unless is_empty (T.written value.now))
        (members_view members.old.entries)) }
    ensures unchanged { OnErr result (members.new.entries ≡ members.old.entries) }
{
    if is_empty {
        return Ok(());
    }
    put(members, alloc, name, value.to_value(alloc)?)
}
