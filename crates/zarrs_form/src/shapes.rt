//! Texts, lists and JSON as the metadata hold them: contracts see a text as its bytes, a list as its
//! items, and JSON as its data, so that two metadata are compared by `≡`.
ghost use Rattle.std.specs.Prelude.{◌≡◌, ◌∷◌, [], IfOk, OnErr, OnOk, map, option_map, string_bytes};
ghost use Rattle.zarrs_form.specs.Documents.{besides, has_own, is_empty};
ghost use Rattle.zarrs_form.specs.Forms.{is_nil};
ghost use Rattle.zarrs_form.specs.SortedMembers.{NamesAscend};
ghost use Rattle.serde_json.specs.Data.{no_members, put};
ghost use Rattle.serde_json.specs.Events.{members_len};
ghost use Rattle.serde_json.specs.Find.{get_member};
ghost use Rattle.serde_json.specs.View.{view, items_view, members_view};
ghost use Rattle.serde_json.specs.Written.{members_have_float};

use crate::members::has_float;
use crate::sorted::{entries_of, find, has_own_entry, map_of, put_entry, take_entry};
use serde_json::{Map, Value};
use std::alloc::{AllocError, Global};
use std::marker::Model;

/// A text; contracts see its bytes.
///
/// <https://www.rfc-editor.org/rfc/rfc8259#section-7>
#[derive(Debug, Drop)]
pub struct Text {
    string: String,
}

impl Model for Text {
    ghost use Rattle.std.specs.Prelude.{ℕ, List, string_bytes};

    ghost Value = { List ℕ };

    ghost view = { λ a. string_bytes a.string };
}

impl Text {
    /// The text that a string has.
    pub fn new(string: String) -> Text
        ensures { result ≡ string_bytes string }
    {
        Text { string }
    }

    /// A text with these bytes.
    ///
    /// # Errors
    ///
    /// `AllocError` where there is no memory for it.
    pub fn from_str(alloc: Global, text: &str) -> Result<Text, AllocError>
        ensures { IfOk result (λ t. t ≡ text.now) }
    {
        Ok(Text {
            string: String::from_str(alloc, text)?,
        })
    }

    /// The text.
    pub fn as_str(&self) -> &str
        ensures { result.now ≡ self.now }
    {
        self.string.as_str()
    }

    /// The string that has the text.
    pub fn into_string(self) -> String
        ensures { string_bytes result ≡ self }
    {
        let Text { string } = self;
        string
    }
}

/// A list; contracts see its items.
///
/// <https://www.rfc-editor.org/rfc/rfc8259#section-5>
#[derive(Debug, Drop)]
pub struct List<T> {
    items: Vec<T>,
}

impl<T> Model for List<T> {
    ghost use Rattle.std.specs.Prelude.{List};
    ghost use Rattle.std.specs.Coded.{coded_list};

    ghost Value = { List T };

    ghost coded = { coded_list T.code };

    ghost view = { λ a. a.items.items };
}

impl<T> List<T> {
    /// The list of the items of a vector.
    pub fn new(items: Vec<T>) -> List<T>
        ensures { result ≡ items.items }
    {
        List { items }
    }

    /// The items, in order.
    pub fn as_slice(&self) -> &[T]
        ensures { result.now ≡ self.now }
    {
        self.items.as_slice()
    }

    /// Whether the list has no item.
    pub fn is_empty(&self) -> bool
        ensures { result ≡ is_nil self.now }
    {
        self.items.is_empty()
    }

    /// The vector that has the items.
    pub fn into_vec(self) -> Vec<T>
        ensures { result.items ≡ self }
    {
        let List { items } = self;
        items
    }
}

/// A JSON object, whose members stand in the order of their names in a vector of their number; contracts see
/// its members in order. An empty one takes no memory.
///
/// Source: RFC 8259, "Objects".
/// <https://www.rfc-editor.org/rfc/rfc8259#section-4>
#[derive(Debug, Drop)]
pub struct Object {
    entries: Vec<(String, Value)>,
}

impl Model for Object {
    ghost use Rattle.serde_json.specs.Data.{Members};
    ghost use Rattle.zarrs_form.specs.DataCode.{members_code};
    ghost use Rattle.zarrs_form.specs.SortedMembers.{NamesAscend};
    ghost use Rattle.serde_json.specs.View.{members_view};

    ghost Value = { Members };

    ghost coded = { members_code };

    ghost view = { λ a. members_view a.entries.items };

    ghost invariant = { λ a. NamesAscend a.entries.items };
}

impl Object {
    /// The object with no member. It takes no memory.
    pub fn new(alloc: Global) -> Object
        ensures { result ≡ no_members }
    {
        Object {
            entries: Vec::new(alloc),
        }
    }

    /// The object with the members of a map.
    ///
    /// # Errors
    ///
    /// `AllocError` where there is no memory for them.
    pub fn from_map(alloc: Global, members: Map<String, Value>) -> Result<Object, AllocError>
        ensures { IfOk result (λ object. object ≡ members_view members.entries) }
    {
        Ok(Object {
            entries: entries_of(alloc, members)?,
        })
    }

    /// The members in the order of their names, each with its name.
    pub fn as_slice(&self) -> &[(String, Value)]
        ensures members { members_view result.now ≡ self.now }
        ensures ascending { NamesAscend result.now }
    {
        self.entries.as_slice()
    }

    /// The value of the member of that name, if there is one.
    pub fn get(&self, name: &str) -> Option<&Value>
        ensures { option_map (λ value. view value.now) result ≡ get_member name.now self.now }
    {
        find(self.as_slice(), name)
    }

    /// The number of members.
    pub fn len(&self) -> usize
        ensures { result ≡ members_len self.now }
    {
        self.as_slice().len()
    }

    /// Whether the object has no member.
    pub fn is_empty(&self) -> bool
        ensures { result ≡ is_empty self.now }
    {
        self.as_slice().is_empty()
    }

    /// Puts a value as the member of that name, and answers the value that it had before, if there was one.
    ///
    /// # Errors
    ///
    /// `AllocError` where there is no memory for a new member; the object is unchanged.
    pub fn insert(&mut self, name: String, value: Value) -> Result<Option<Value>, AllocError>
        ensures before { IfOk result
            (λ before. option_map view before ≡ get_member (string_bytes name) self.old) }
        ensures ok { OnOk result (self.new ≡ put (string_bytes name) (view value) self.old) }
        ensures unchanged { OnErr result (self.new ≡ self.old) }
    {
        put_entry(&mut self.entries, name, value)
    }

    /// Takes the member of that name out, and answers its value, if there is one.
    pub fn remove(&mut self, name: &str) -> Option<Value>
        ensures found { option_map view result ≡ get_member name.now self.old }
        ensures left { self.new ≡ besides (name.now ∷ []) self.old }
    {
        take_entry(&mut self.entries, name)
    }

    /// A copy that equals its source.
    ///
    /// # Errors
    ///
    /// `AllocError` where there is no memory for the copy.
    pub fn try_clone(&self, _alloc: Global) -> Result<Object, AllocError>
        ensures { IfOk result (λ copy. copy ≡ self.now) }
    {
        Ok(Object {
            entries: self.entries.clone()?,
        })
    }

    /// A map with copies of the members.
    ///
    /// # Errors
    ///
    /// `AllocError` where there is no memory for it.
    pub fn to_map(&self, alloc: Global) -> Result<Map<String, Value>, AllocError>
        ensures { IfOk result (λ members. members_view members.entries ≡ self.now) }
    {
        self.try_clone(alloc)?.into_map(alloc)
    }

    /// A map with the members.
    ///
    /// # Errors
    ///
    /// `AllocError` where there is no memory for it.
    pub fn into_map(self, alloc: Global) -> Result<Map<String, Value>, AllocError>
        ensures { IfOk result (λ members. members_view members.entries ≡ self) }
    {
        map_of(alloc, self.entries)
    }

    /// Whether a number in the members is neither `u64` nor `i64`, at any depth.
    pub fn has_float(&self) -> bool
        ensures { result ≡ members_have_float self.now }
    {
        for entry in self.as_slice() {
            if has_float(&entry.1) {
                return true;
            }
        }
        false
    }

    /// Whether some member has one of the names.
    pub fn has_own_member(&self, own_names: &[&str]) -> bool
        ensures { result ≡ has_own (map (λ name. name.now) own_names.now) self.now }
    {
        has_own_entry(self.as_slice(), own_names)
    }
}

/// A JSON value: an item of a list, or a fill value.
///
/// <https://www.rfc-editor.org/rfc/rfc8259#section-3>
#[derive(Debug, Drop)]
pub struct Json {
    value: Value,
}

impl Model for Json {
    ghost use Rattle.serde_json.specs.Data.{Data};
    ghost use Rattle.zarrs_form.specs.DataCode.{data_code};
    ghost use Rattle.serde_json.specs.View.{view as data_of};

    ghost Value = { Data };

    ghost coded = { data_code };

    ghost view = { λ a. data_of a.value };
}

impl Json {
    /// The item or the fill value that a JSON value is.
    pub fn new(value: Value) -> Json
        ensures { result ≡ view value }
    {
        Json { value }
    }

    /// The JSON value.
    pub fn as_value(&self) -> &Value
        ensures { view result.now ≡ self.now }
    {
        &self.value
    }
}

/// A fill value: any JSON value.
///
/// Zarr core specification 3.1, "Array metadata", "fill_value"; specification version 2, "Arrays", "Fill value encoding".
/// <https://zarr-specs.readthedocs.io/en/latest/v3/core/index.html#fill-value>
/// <https://zarr-specs.readthedocs.io/en/latest/v2/v2.0.html#fill-value-encoding>
pub type FillValueMetadata = Json;
