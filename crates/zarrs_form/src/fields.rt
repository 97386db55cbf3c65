//! The additional fields of a version 3 document.
ghost use Rattle.std.specs.Prelude.{◌≡◌, ◌∷◌, [], IfErr, IfOk, IsFalse, IsTrue, OnErr, OnOk, map, option_map, string_bytes};
ghost use Rattle.serde_json.specs.View.{view, members_of, members_view};
ghost use Rattle.serde_json.specs.Written as written;
ghost use Rattle.zarrs_form.specs.Documents.{besides, has_own, is_empty, is_null};
ghost use Rattle.zarrs_form.specs.SortedMembers.{NamesAscend};
ghost use Rattle.serde_json.specs.Events.{members_len};
ghost use Rattle.serde_json.specs.Find.{get_member};
ghost use Rattle.serde_json.specs.Data.{no_members, object};
ghost use Rattle.serde_json.specs.Data as json;
ghost use Rattle.zarrs_form.specs.Fields.{field_data, gains_member, must_understand};

use crate::members::{has_float, is_one_of};
use crate::sorted::{entries_of, find, has_own_entry, put_entry, take_entry};
use serde_json::{Map, Value, put};
use std::alloc::{AllocError, Global};
use std::marker::Model;

/// An additional field: any JSON value.
///
/// <https://zarr-specs.readthedocs.io/en/latest/v3/core/index.html#extension-points>
#[derive(Debug, Drop)]
pub struct AdditionalFieldV3 {
    value: Value,
}

impl Model for AdditionalFieldV3 {
    ghost use Rattle.serde_json.specs.Data.{Data};
    ghost use Rattle.zarrs_form.specs.DataCode.{data_code};
    ghost use Rattle.serde_json.specs.View.{view as data_of};

    ghost Value = { Data };

    ghost coded = { data_code };

    ghost view = { λ a. data_of a.value };
}

impl AdditionalFieldV3 {
    /// The field of a value. An object that need not be understood has its member `must_understand` set
    /// to false, one that must be understood loses that member, and any other value stays as it is.
    ///
    /// # Errors
    ///
    /// `AllocError` where there is no memory for the member, so of an object that need not be understood alone.
    ///
    /// Source: Zarr core specification 3.1, "Array metadata".
    pub fn new(
        alloc: Global,
        value: Value,
        must_understand: bool,
    ) -> Result<AdditionalFieldV3, AllocError>
        ensures ok { IfOk result (λ field. field ≡ field_data (view value) must_understand) }
        ensures err { IfErr result (λ _. IsTrue (gains_member (view value) must_understand)) }
    {
        match value {
            Value::Object(members) => {
                let members = with_must_understand(alloc, members, must_understand)?;
                Ok(AdditionalFieldV3 {
                    value: Value::Object(members),
                })
            }
            other => Ok(AdditionalFieldV3 { value: other }),
        }
    }

    /// Whether the field must be understood: every field must, but for an object whose member
    /// `must_understand` is false.
    ///
    /// Source: Zarr core specification 3.1, "Array metadata".
    pub fn must_understand(&self) -> bool
        ensures { result ≡ must_understand self.now }
    {
        self.value
            .get("must_understand")
            .and_then(Value::as_bool)
            .unwrap_or(true)
    }

    /// The value, as the document has it.
    pub fn as_value(&self) -> &Value
        ensures { view result.now ≡ self.now }
    {
        &self.value
    }

    /// The value, taken out.
    pub fn into_value(self) -> Value
        ensures { view result ≡ self }
    {
        let AdditionalFieldV3 { value } = self;
        value
    }
}

/// The additional fields of a version 3 document, in the order of their names in a vector of their number. With
/// no field they take no memory.
///
/// Source: Zarr core specification 3.1, "Group metadata" and "Array metadata".
/// <https://zarr-specs.readthedocs.io/en/latest/v3/core/index.html#extension-points>
#[derive(Debug, Drop)]
pub struct AdditionalFieldsV3 {
    entries: Vec<(String, AdditionalFieldV3)>,
}

impl Model for AdditionalFieldsV3 {
    ghost use Rattle.serde_json.specs.Data.{Members};
    ghost use Rattle.zarrs_form.specs.DataCode.{members_code};
    ghost use Rattle.zarrs_form.specs.SortedMembers.{NamesAscend};
    ghost use Rattle.serde_json.specs.View.{members_of};

    ghost Value = { Members };

    ghost coded = { members_code };

    ghost view = { λ a. members_of a.entries.items };

    ghost invariant = { λ a. NamesAscend a.entries.items };
}

impl Clone for AdditionalFieldV3 {
    ghost is_clone = { λ field copy. copy ≡ field };

    fn clone(&self) -> Result<AdditionalFieldV3, AllocError> {
        Ok(AdditionalFieldV3 {
            value: self.value.clone()?,
        })
    }
}

impl AdditionalFieldsV3 {
    /// No fields. They take no memory.
    pub fn new(alloc: Global) -> AdditionalFieldsV3
        ensures { result ≡ no_members }
    {
        AdditionalFieldsV3 {
            entries: Vec::new(alloc),
        }
    }

    /// The fields of a map.
    ///
    /// # Errors
    ///
    /// `AllocError` where there is no memory for them.
    pub fn from_map(
        alloc: Global,
        fields: Map<String, AdditionalFieldV3>,
    ) -> Result<AdditionalFieldsV3, AllocError>
        ensures { IfOk result (λ all. all ≡ members_of fields.entries) }
    {
        Ok(AdditionalFieldsV3 {
            entries: entries_of(alloc, fields)?,
        })
    }

    /// The field of that name, if there is one.
    pub fn get(&self, name: &str) -> Option<&AdditionalFieldV3>
        ensures { option_map (λ field. field.now) result ≡ get_member name.now self.now }
    {
        find(self.as_slice(), name)
    }

    /// The fields in the order of their names, each with its name.
    pub fn as_slice(&self) -> &[(String, AdditionalFieldV3)]
        ensures fields { members_of result.now ≡ self.now }
        ensures ascending { NamesAscend result.now }
    {
        self.entries.as_slice()
    }

    /// The number of fields.
    pub fn len(&self) -> usize
        ensures { result ≡ members_len self.now }
    {
        self.as_slice().len()
    }

    /// Whether there is no field.
    pub fn is_empty(&self) -> bool
        ensures { result ≡ is_empty self.now }
    {
        self.as_slice().is_empty()
    }

    /// Puts a field at that name, and answers the field that stood there, if there was one.
    ///
    /// # Errors
    ///
    /// `AllocError` where there is no memory for a new field; the fields are unchanged.
    pub fn insert(
        &mut self,
        name: String,
        field: AdditionalFieldV3,
    ) -> Result<Option<AdditionalFieldV3>, AllocError>
        ensures before { IfOk result (λ before. before ≡ get_member (string_bytes name) self.old) }
        ensures ok { OnOk result (self.new ≡ json.put (string_bytes name) field self.old) }
        ensures unchanged { OnErr result (self.new ≡ self.old) }
    {
        put_entry(&mut self.entries, name, field)
    }

    /// Takes the field of that name out, and answers it, if there is one.
    pub fn remove(&mut self, name: &str) -> Option<AdditionalFieldV3>
        ensures found { result ≡ get_member name.now self.old }
        ensures left { self.new ≡ besides (name.now ∷ []) self.old }
    {
        take_entry(&mut self.entries, name)
    }

    /// A copy that equals its source.
    ///
    /// # Errors
    ///
    /// `AllocError` where there is no memory for the copy.
    pub fn try_clone(&self, _alloc: Global) -> Result<AdditionalFieldsV3, AllocError>
        ensures { IfOk result (λ copy. copy ≡ self.now) }
    {
        Ok(AdditionalFieldsV3 {
            entries: self.entries.clone()?,
        })
    }

    /// Copies of the fields as members of a JSON object.
    ///
    /// # Errors
    ///
    /// `AllocError` where there is no memory for them.
    pub fn to_members(&self, alloc: Global) -> Result<Map<String, Value>, AllocError>
        ensures { IfOk result (λ members. members_view members.entries ≡ self.now) }
    {
        let mut members = Map::new(alloc);
        for entry in self.as_slice() {
            drop(members.insert(entry.0.clone()?, entry.1.as_value().clone()?)?);
        }
        Ok(members)
    }

    /// Whether a number in a field is neither `u64` nor `i64`, at any depth.
    pub fn has_float(&self) -> bool
        ensures { result ≡ written.members_have_float self.now }
    {
        for entry in self.as_slice() {
            if has_float(entry.1.as_value()) {
                return true;
            }
        }
        false
    }

    /// Whether some field has one of the names.
    pub fn has_own_name(&self, own_names: &[&str]) -> bool
        ensures { result ≡ has_own (map (λ name. name.now) own_names.now) self.now }
    {
        has_own_entry(self.as_slice(), own_names)
    }

    /// Whether there is a field of this name, and it is null.
    pub fn is_null_at(&self, name: &str) -> bool
        ensures { result ≡ is_null (get_member name.now self.now) }
    {
        match self.get(name) {
            Some(field) => field.value.is_null(),
            None => false,
        }
    }
}

/// An object's members, with `must_understand` as `AdditionalFieldV3::new` leaves it.
fn with_must_understand(
    alloc: Global,
    mut members: Map<String, Value>,
    must_understand: bool,
) -> Result<Map<String, Value>, AllocError>
    ensures ok { IfOk result (λ all. object (members_view all.entries)
        ≡ field_data (object (members_view members.entries)) must_understand) }
    ensures err { IfErr result (λ _. IsFalse must_understand) }
{
    if must_understand {
        drop(members.remove("must_understand"));
        return Ok(members);
    }
    put(&mut members, alloc, "must_understand", Value::Bool(false))?;
    Ok(members)
}

/// The members that have none of the own names, as fields.
///
/// # Errors
///
/// `AllocError` where there is no memory for them.
///
/// Source: Zarr core specification 3.1, "Group metadata" and "Array metadata".
pub fn fields_of(
    alloc: Global,
    members: Map<String, Value>,
    own_names: &[&str],
) -> Result<AdditionalFieldsV3, AllocError>
    ensures { IfOk result (λ fields. fields
        ≡ besides (map (λ name. name.now) own_names.now) (members_view members.entries)) }
{
    let mut entries = Vec::new(alloc);
    for (name, value) in members {
        if !is_one_of(name.as_str(), own_names) {
            entries.push((name, AdditionalFieldV3 { value }))?;
        }
    }
    entries.shrink_to_fit();
    Ok(AdditionalFieldsV3 { entries })
}
