//! The text of a JSON value in a layout, appended piece by piece.
ghost use Rattle.std.specs.Prelude.{◌≡◌, ◌++◌, false, string_bytes, OnOk};
ghost use Rattle.serde_json.specs.Data.{array, object, put, string};
ghost use Rattle.serde_json.specs.View.{view, items_view, members_view};
ghost use Rattle.serde_json.specs.Written.{has_float, items_have_float, members_have_float};
ghost use Rattle.zarrs_form.specs.Layouts.{members_in, text_in};

use crate::layout::{Layout, deeper, write_close, write_key, write_line};
use crate::text::{write_comma, write_compact, write_number, write_text};
use serde_json::{Map, Value};
use std::alloc::{AllocError, Global};
use std::cmp::Ordering;

/// Appends the text of a JSON value.
///
/// # Errors
///
/// `AllocError` where there is no memory for it; a beginning of the text may have been appended.
///
/// Source: RFC 8259.
#[cycle(write_value)]
pub fn write_value(
    alloc: Global,
    out: &mut String,
    layout: Layout,
    value: &Value,
) -> Result<(), AllocError>
    ensures ok { OnOk result (has_float (view value.now) ≡ false
        → string_bytes out.new ≡ string_bytes out.old ++ text_in layout (view value.now)) }
{
    match value {
        Value::Null => out.push_str("null"),
        Value::Bool(flag) => out.push_str(if *flag { "true" } else { "false" }),
        Value::Number(number) => match number.as_u64() {
            Some(number) => write_number(out, number),
            None => write_compact(alloc, out, value),
        },
        Value::String(text) => write_text(alloc, out, text.as_str()),
        Value::Array(items) => write_items(alloc, out, layout, items),
        Value::Object(members) => write_map(alloc, out, layout, members),
    }
}

/// Appends the text of an array.
#[cycle(write_value)]
fn write_items(
    alloc: Global,
    out: &mut String,
    layout: Layout,
    items: &Vec<Value>,
) -> Result<(), AllocError>
    ensures ok { OnOk result (items_have_float (items_view items.now.items) ≡ false
        → string_bytes out.new
        ≡ string_bytes out.old ++ text_in layout (array (items_view items.now.items))) }
{
    let inner = deeper(layout)?;
    out.push_str("[")?;
    let mut later = false;
    for item in items {
        write_comma(out, later)?;
        write_line(out, inner)?;
        write_value(alloc, out, inner, item)?;
        later = true;
    }
    write_close(out, later, layout)?;
    out.push_str("]")
}

/// Appends the text of an object.
#[cycle(write_value)]
#[tactic(auto, using(crate::proofs::TableTexts::member_pushed))]
fn write_map(
    alloc: Global,
    out: &mut String,
    layout: Layout,
    members: &Map<String, Value>,
) -> Result<(), AllocError>
    ensures ok { OnOk result (members_have_float (members_view members.now.entries) ≡ false
        → string_bytes out.new
        ≡ string_bytes out.old ++ text_in layout (object (members_view members.now.entries))) }
{
    let inner = deeper(layout)?;
    out.push_str("{")?;
    let mut later = false;
    for (name, value) in members.iter() {
        write_key(alloc, out, later, inner, name.as_str())?;
        write_value(alloc, out, inner, value)?;
        later = true;
    }
    write_close(out, later, layout)?;
    out.push_str("}")
}

/// Appends the text of an object whose members stand in a slice.
pub(crate) fn write_members(
    alloc: Global,
    out: &mut String,
    layout: Layout,
    members: &[(String, Value)],
) -> Result<(), AllocError>
    ensures ok { OnOk result (members_have_float (members_view members.now) ≡ false
        → string_bytes out.new
        ≡ string_bytes out.old ++ text_in layout (object (members_view members.now))) }
{
    out.push_str("{")?;
    write_left(alloc, out, false, layout, members)
}

/// Appends the text of an object whose members stand in a slice, with a text put as the member of that name.
pub(crate) fn write_members_with(
    alloc: Global,
    out: &mut String,
    layout: Layout,
    members: &[(String, Value)],
    name: &str,
    text: &str,
) -> Result<(), AllocError>
    ensures ok { OnOk result
        (members_have_float (put name.now (string text.now) (members_view members.now)) ≡ false
        → string_bytes out.new ≡ string_bytes out.old
        ++ text_in layout (object (put name.now (string text.now) (members_view members.now)))) }
{
    let inner = deeper(layout)?;
    out.push_str("{")?;
    let mut later = false;
    for (place, member) in members.iter().enumerate() {
        let behind = match name.cmp(member.0.as_str()) {
            Ordering::Less => place,
            Ordering::Equal => place + 1,
            Ordering::Greater => {
                write_key(alloc, out, later, inner, member.0.as_str())?;
                write_value(alloc, out, inner, &member.1)?;
                later = true;
                continue;
            }
        };
        write_key(alloc, out, later, inner, name)?;
        write_text(alloc, out, text)?;
        return write_left(alloc, out, true, layout, &members[behind..]);
    }
    write_key(alloc, out, later, inner, name)?;
    write_text(alloc, out, text)?;
    write_left(alloc, out, true, layout, &[])
}

/// Appends the members that are left of an object, and its brace.
#[tactic(auto, using(crate::proofs::TableTexts::member_pushed))]
fn write_left(
    alloc: Global,
    out: &mut String,
    later: bool,
    layout: Layout,
    members: &[(String, Value)],
) -> Result<(), AllocError>
    ensures ok { OnOk result (members_have_float (members_view members.now) ≡ false
        → string_bytes out.new
        ≡ string_bytes out.old ++ members_in later layout (members_view members.now)) }
{
    let inner = deeper(layout)?;
    let mut later = later;
    for member in members {
        write_key(alloc, out, later, inner, member.0.as_str())?;
        write_value(alloc, out, inner, &member.1)?;
        later = true;
    }
    write_close(out, later, layout)?;
    out.push_str("}")
}
