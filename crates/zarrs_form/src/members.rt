//! The parts of reading that the documents share.
ghost use Rattle.std.specs.Prelude.{◌≡◌, [], ◌∷◌, map, Ok, option_map, codes, IfOk, OnOk, OnErr};
ghost use Rattle.serde_json.specs.Data.{object, string, put};
ghost use Rattle.serde_json.specs.Find.{get_member};
ghost use Rattle.serde_json.specs.Written as written;
ghost use Rattle.serde_json.specs.View.{view, items_view, members_view};
ghost use Rattle.zarrs_form.specs.Documents.{Gives, no_member, besides, besides_null, is_own, object_of, tree_or_fault, json_of, document_of, document_in, format_of, node_type_of};

use serde_json::{Category, Map, Value};
use std::alloc::{AllocError, Global};
use zarrs_fault::{MemberName, MetadataFault, Numbers};

/// Whether the name is one of the names.
pub(crate) fn is_one_of(name: &str, names: &[&str]) -> bool
    ensures { result ≡ is_own (map (λ n. n.now) names.now) name.now }
{
    names.contains(&name)
}

/// Whether a number in the value is neither `u64` nor `i64`.
#[cycle(has_float)]
pub(crate) fn has_float(value: &Value) -> bool
    ensures { result ≡ written.has_float (view value.now) }
{
    match value {
        Value::Number(number) => number.is_f64(),
        Value::Array(items) => items_have_float(items),
        Value::Object(members) => members_have_float(members),
        _ => false,
    }
}

#[cycle(has_float)]
fn items_have_float(items: &Vec<Value>) -> bool
    ensures { result ≡ written.items_have_float (items_view items.now.items) }
{
    for item in items {
        if has_float(item) {
            return true;
        }
    }
    false
}

/// Whether a number in the members is neither `u64` nor `i64`, at any depth.
#[cycle(has_float)]
pub fn members_have_float(members: &Map<String, Value>) -> bool
    ensures { result ≡ written.members_have_float (members_view members.now.entries) }
{
    for (_name, member) in members.iter() {
        if has_float(member) {
            return true;
        }
    }
    false
}

/// The members of the document that a JSON value is: an object, each of whose numbers is `u64` or `i64`.
///
/// # Errors
///
/// `UnsupportedNumber` where some number is neither, else `NotAnObject` where the value is no object.
///
/// Source: Zarr core specification 3.1, "Metadata documents"; specification version 2, "Metadata".
pub fn document(value: Value) -> Result<Map<String, Value>, MetadataFault>
    ensures gives { Gives (λ m. members_view m.entries) result (document_of (view value)) }
    ensures whole { IfOk result (λ m. view value ≡ object (members_view m.entries)) }
{
    if has_float(&value) {
        return Err(MetadataFault::UnsupportedNumber);
    }
    members_of(value)
}

/// The members of the document that a JSON value is, which may hold these numbers: an object, each of whose numbers is
/// one of them.
///
/// # Errors
///
/// `UnsupportedNumber` where the numbers are `Whole` and some number is neither `u64` nor `i64`, else `NotAnObject`
/// where the value is no object.
///
/// Source: own; Zarr core specification 3.1, "Metadata documents"; specification version 2, "Metadata".
pub fn document_in(numbers: Numbers, value: Value) -> Result<Map<String, Value>, MetadataFault>
    ensures gives { Gives (λ m. members_view m.entries) result
        (document_in numbers (view value)) }
    ensures whole { IfOk result (λ m. view value ≡ object (members_view m.entries)) }
{
    match numbers {
        Numbers::Whole => document(value),
        Numbers::Any => members_of(value),
    }
}

/// The members of an object, whatever its numbers are.
fn members_of(value: Value) -> Result<Map<String, Value>, MetadataFault>
    ensures gives { Gives (λ m. members_view m.entries) result (object_of (view value)) }
    ensures whole { IfOk result (λ m. view value ≡ object (members_view m.entries)) }
{
    let Value::Object(members) = value else {
        return Err(MetadataFault::NotAnObject);
    };
    Ok(members)
}

/// A copy of the members of the document that a JSON value is.
///
/// # Errors
///
/// As [`document`], and `OutOfMemory` where there is no memory for the copy.
///
/// Source: Zarr core specification 3.1, "Metadata documents"; specification version 2, "Metadata".
pub fn document_copy(value: &Value) -> Result<Map<String, Value>, MetadataFault>
    ensures gives { Gives (λ m. members_view m.entries) result (document_of (view value.now)) }
    ensures whole { IfOk result (λ m. view value.now ≡ object (members_view m.entries)) }
{
    if has_float(value) {
        return Err(MetadataFault::UnsupportedNumber);
    }
    copied_members(value)
}

/// A copy of the members of the document that a JSON value is, which may hold these numbers.
///
/// # Errors
///
/// As [`document_in`], and `OutOfMemory` where there is no memory for the copy.
///
/// Source: own; Zarr core specification 3.1, "Metadata documents"; specification version 2, "Metadata".
pub fn document_copy_in(
    numbers: Numbers,
    value: &Value,
) -> Result<Map<String, Value>, MetadataFault>
    ensures gives { Gives (λ m. members_view m.entries) result
        (document_in numbers (view value.now)) }
    ensures whole { IfOk result (λ m. view value.now ≡ object (members_view m.entries)) }
{
    match numbers {
        Numbers::Whole => document_copy(value),
        Numbers::Any => copied_members(value),
    }
}

/// A copy of the members of an object, whatever its numbers are.
fn copied_members(value: &Value) -> Result<Map<String, Value>, MetadataFault>
    ensures gives { Gives (λ m. members_view m.entries) result (object_of (view value.now)) }
    ensures whole { IfOk result (λ m. view value.now ≡ object (members_view m.entries)) }
{
    match value {
        Value::Object(members) => Ok(copy_of(members)?),
        _ => Err(MetadataFault::NotAnObject),
    }
}

fn copy_of(members: &Map<String, Value>) -> Result<Map<String, Value>, AllocError>
    ensures { IfOk result (λ copy. members_view copy.entries ≡ members_view members.now.entries) }
{
    let copy = members.clone()?;
    Ok(copy)
}

/// The member of that name, if there is one.
pub fn member<'a>(members: &'a Map<String, Value>, name: &str) -> Option<&'a Value>
    ensures { option_map (λ v. view v.now) result
        ≡ get_member name.now (members_view members.now.entries) }
{
    members.get(name)
}

/// Takes the member of that name out of the members, if there is one.
pub fn take_member(members: &mut Map<String, Value>, name: &str) -> Option<Value>
    ensures found { option_map view result
        ≡ get_member name.now (members_view members.old.entries) }
    ensures left { members_view members.new.entries
        ≡ besides (name.now ∷ []) (members_view members.old.entries) }
{
    members.remove(name)
}

/// Takes the member of that name out of the members where it is null, and leaves any other.
pub fn take_null(members: &mut Map<String, Value>, name: &str)
    ensures { members_view members.new.entries
        ≡ besides_null name.now (members_view members.old.entries) }
{
    if let Some(Value::Null) = member(members, name) {
        drop(take_member(members, name));
    }
}

/// Asks whether the member `zarr_format` is the number.
///
/// # Errors
///
/// `WrongFormat` where it is absent or anything else.
///
/// Source: Zarr core specification 3.1, "Metadata documents"; specification version 2, "Metadata".
#[tactic(auto, unfolding(crate::specs::Documents::format_of))]
pub fn ask_format(members: &Map<String, Value>, format: u64) -> Result<(), MetadataFault>
    ensures { result ≡ format_of format (object (members_view members.now.entries)) }
{
    match member(members, "zarr_format").and_then(Value::as_u64) {
        Some(found) if found == format => Ok(()),
        _ => Err(MetadataFault::WrongFormat),
    }
}

/// Asks whether the member `node_type` is the text.
///
/// # Errors
///
/// `WrongNodeType` where it is absent or anything else.
///
/// Source: Zarr core specification 3.1, "Metadata documents".
#[tactic(auto, unfolding(crate::specs::Documents::node_type_of))]
pub fn ask_node_type(members: &Map<String, Value>, node_type: &str) -> Result<(), MetadataFault>
    ensures { result ≡ node_type_of node_type.now (object (members_view members.now.entries)) }
{
    match member(members, "node_type").and_then(Value::as_str) {
        Some(found) if found == node_type => Ok(()),
        _ => Err(MetadataFault::WrongNodeType),
    }
}

/// The JSON value that the bytes are.
///
/// # Errors
///
/// `NotJson` where the bytes are no JSON text, `OutOfMemory` where there is no memory.
///
/// Source: Zarr core specification 3.1, "Metadata documents"; specification version 2, "Metadata".
#[tactic(auto, unfolding(crate::specs::Documents::json_of))]
pub fn parse(alloc: Global, bytes: &[u8]) -> Result<Value, MetadataFault>
    ensures { Gives view result (tree_or_fault (json_of bytes.now)) }
{
    match Value::from_slice(alloc, bytes) {
        Ok(value) => Ok(value),
        Err(error) => match error.classify() {
            Category::Memory => Err(MetadataFault::OutOfMemory),
            _ => Err(MetadataFault::NotJson),
        },
    }
}

/// Puts a text as the member of that name.
///
/// # Errors
///
/// `AllocError` where there is no memory for it; the members are unchanged.
pub fn put_text(
    members: &mut Map<String, Value>,
    alloc: Global,
    name: &str,
    text: &str,
) -> Result<(), AllocError>
    ensures ok { OnOk result (members_view members.new.entries
        ≡ put name.now (string text.now) (members_view members.old.entries)) }
    ensures unchanged { OnErr result (members.new.entries ≡ members.old.entries) }
{
    serde_json::put(
        members,
        alloc,
        name,
        Value::String(String::from_str(alloc, text)?),
    )
}

/// Asks that there is no member of that name.
///
/// # Errors
///
/// `BadMember` where there is one.
pub fn refuse(members: &Map<String, Value>, name: &'static str) -> Result<(), MetadataFault>
    ensures { result ≡ no_member name.now (object (members_view members.now.entries)) }
{
    match member(members, name) {
        None => Ok(()),
        Some(_) => Err(MetadataFault::BadMember(MemberName::new(name))),
    }
}
