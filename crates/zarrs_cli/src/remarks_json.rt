//! What there is to tell as JSON.
ghost use Rattle.std.specs.Prelude.{◌≡◌, ◌++◌, IfOk, map, string_bytes};
ghost use Rattle.serde_json.specs.View.{view};
ghost use Rattle.zarrs_cli.specs.Json.{json_text, path_or_null, remark_data, remarks_data, text_or_null};

use crate::remark::Remark;
use serde_json::{Value, json};
use std::alloc::{AllocError, Global};
use zarrs_form::Text;
use zarrs_path::NodePath;

/// Remarks as JSON: the text of an array without spaces, and a newline. Each remark is an object with these members: `block`, the path of the group whose
/// block is wrong, or null; `key`, the wrong key of the block, or null; `kind`, a word; `path`; and `text`, what its line says behind the path.
///
/// # Errors
/// `AllocError` where there is no memory for it.
///
/// Source: own. <https://www.rfc-editor.org/rfc/rfc8259>
pub(crate) fn json_text(alloc: Global, remarks: Vec<Remark>) -> Result<String, AllocError>
    ensures { IfOk result (λ text. string_bytes text ≡ json_text remarks.items) }
{
    let array = array_of(alloc, remarks)?;
    let mut text = array.to_string(alloc)?;
    text.push_str("\n")?;
    Ok(text)
}

// The array of the objects of remarks.
fn array_of(alloc: Global, remarks: Vec<Remark>) -> Result<Value, AllocError>
    ensures { IfOk result (λ array. view array ≡ remarks_data remarks.items) }
{
    Ok(Value::Array(values_of(alloc, remarks)?))
}

// The objects of remarks.
fn values_of(alloc: Global, remarks: Vec<Remark>) -> Result<Vec<Value>, AllocError>
    ensures { IfOk result
        (λ values. map view values.items ≡ map remark_data remarks.items) }
{
    let mut values = Vec::new(alloc);
    for remark in remarks {
        values.push(value_of(alloc, remark)?)?;
    }
    Ok(values)
}

// The object of a remark.
fn value_of(alloc: Global, remark: Remark) -> Result<Value, AllocError>
    ensures { IfOk result (λ value. view value ≡ remark_data remark) }
{
    let Remark {
        path,
        kind,
        group,
        key,
        text,
    } = remark;
    let path = NodePath::text_of(path)?;
    let block = path_or_null(alloc, &group)?;
    let key = text_or_null(key);
    json!(in alloc; {
        "block": block,
        "key": key,
        "kind": kind.word(),
        "path": path,
        "text": text.into_string()
    })
}

// The text of a path, or null.
fn path_or_null(alloc: Global, path: &Option<NodePath>) -> Result<Value, AllocError>
    ensures { IfOk result (λ value. view value ≡ path_or_null path.now) }
{
    match path {
        Some(path) => Ok(Value::String(String::from_str(alloc, path.as_str())?)),
        None => Ok(Value::Null),
    }
}

// A text, or null.
fn text_or_null(text: Option<Text>) -> Value
    ensures { view result ≡ text_or_null text }
{
    match text {
        Some(text) => Value::String(text.into_string()),
        None => Value::Null,
    }
}
