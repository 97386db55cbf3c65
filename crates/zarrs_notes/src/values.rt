//! What is wrong with the fill value and the codecs of an array.
ghost use Rattle.std.specs.Prelude.{◌≡◌, ◌++◌, OnOk};
ghost use Rattle.std.specs.Char.{is_ascii_hexdigit};
ghost use Rattle.std.specs.List.{list_all};
ghost use Rattle.serde_json.specs.Data.{string};
ghost use Rattle.serde_json.specs.View.{items_view, view};
ghost use Rattle.zarrs_meta.specs.declared.node.NodeMetadata.TheVariants.{Array};
ghost use Rattle.zarrs_notes.specs.FillValues.{is_complex_value, is_fill_value, is_float_value, is_hexadecimal, is_pair, is_whole};
ghost use Rattle.zarrs_notes.specs.StepsOfFindings.{fill_findings, value_findings};

use crate::finding::NodeFinding;
use crate::shapes::tell;
use serde_json::Value;
use std::alloc::{AllocError, Global};
use zarrs_form::Text;
use zarrs_meta::{ArrayMetadata, NodeMetadata};

// Puts what is wrong with the fill value and the codecs of a node behind the other findings.
pub(crate) fn add_values(
    alloc: Global,
    metadata: &NodeMetadata,
    found: &mut Vec<NodeFinding>,
) -> Result<(), AllocError>
    ensures { OnOk result
        (found.new.items ≡ found.old.items ++ value_findings metadata.now) }
{
    match metadata {
        NodeMetadata::Group(_) => Ok(()),
        NodeMetadata::Array(array) => add_of_array(alloc, array.as_ref(), found),
    }
}

// Puts what is wrong with the fill value and the codecs of an array behind the other findings.
fn add_of_array(
    alloc: Global,
    array: &ArrayMetadata,
    found: &mut Vec<NodeFinding>,
) -> Result<(), AllocError>
    ensures { OnOk result
        (found.new.items ≡ found.old.items ++ value_findings (Array array.now)) }
{
    match array {
        ArrayMetadata::V2(_) => Ok(()),
        ArrayMetadata::V3(array) => {
            let data_type = array.data_type.name.as_str();
            add_fill(alloc, data_type, array.fill_value.as_value(), found)?;
            let codecs = array.codecs.as_slice();
            tell(found, codecs.is_empty(), NodeFinding::NoCodecs)
        }
    }
}

// Puts what is wrong with the fill value of a data type behind the other findings.
fn add_fill(
    alloc: Global,
    data_type: &str,
    value: &Value,
    found: &mut Vec<NodeFinding>,
) -> Result<(), AllocError>
    ensures { OnOk result
        (found.new.items ≡ found.old.items ++ fill_findings data_type.now (view value.now)) }
{
    if !is_fill_value(data_type, value) {
        found.push(NodeFinding::FillValue(Text::from_str(alloc, data_type)?))?;
    }
    Ok(())
}

// Whether the data type of this name has the fill value, as far as it is a core data type.
fn is_fill_value(data_type: &str, value: &Value) -> bool
    ensures { result ≡ is_fill_value data_type.now (view value.now) }
{
    match data_type {
        "bool" => value.is_boolean(),
        "int8" => is_whole(value, -0x80, 0x7f),
        "int16" => is_whole(value, -0x8000, 0x7fff),
        "int32" => is_whole(value, -0x8000_0000, 0x7fff_ffff),
        "int64" => is_whole(value, -0x8000_0000_0000_0000, 0x7fff_ffff_ffff_ffff),
        "uint8" => is_whole(value, 0, 0xff),
        "uint16" => is_whole(value, 0, 0xffff),
        "uint32" => is_whole(value, 0, 0xffff_ffff),
        "uint64" => is_whole(value, 0, 0xffff_ffff_ffff_ffff),
        "float16" => is_float(value, 4),
        "float32" => is_float(value, 8),
        "float64" => is_float(value, 16),
        "complex64" => is_complex(value, 8),
        "complex128" => is_complex(value, 16),
        _ => true,
    }
}

// Whether a value is a whole number from the first of these to the last.
fn is_whole(value: &Value, first: i128, last: i128) -> bool
    ensures { result ≡ is_whole first last (view value.now) }
{
    let Some(number) = value.as_number() else {
        return false;
    };
    match number.as_i128() {
        Some(whole) => first <= whole && whole <= last,
        None => false,
    }
}

// Whether a value is a floating point number, whose bytes have this many hexadecimal digits.
fn is_float(value: &Value, digits: usize) -> bool
    ensures { result ≡ is_float_value digits (view value.now) }
{
    match value {
        Value::Number(_) => true,
        Value::String(text) => is_float_text(text.as_str(), digits),
        _ => false,
    }
}

// Whether a text stands for a floating point number, whose bytes have this many hexadecimal digits.
fn is_float_text(text: &str, digits: usize) -> bool
    ensures { result ≡ is_float_value digits (string text.now) }
{
    match text {
        "NaN" | "Infinity" | "-Infinity" => true,
        _ => is_hexadecimal(text, digits),
    }
}

// Whether a text is `0x` and this many hexadecimal digits.
fn is_hexadecimal(text: &str, digits: usize) -> bool
    ensures { result ≡ is_hexadecimal digits text.now }
{
    match text.strip_prefix("0x") {
        Some(rest) => rest.len() == digits && has_hexadecimal(rest),
        None => false,
    }
}

// Whether a text has only hexadecimal digits.
fn has_hexadecimal(text: &str) -> bool
    ensures { result ≡ list_all is_ascii_hexdigit text.now }
{
    text.bytes().all(|byte| byte.is_ascii_hexdigit())
}

// Whether a value is a complex number, the bytes of whose parts have this many hexadecimal digits.
fn is_complex(value: &Value, digits: usize) -> bool
    ensures { result ≡ is_complex_value digits (view value.now) }
{
    match value {
        Value::Array(items) => is_pair(items.as_slice(), digits),
        _ => false,
    }
}

// Whether items are the two parts of a complex number.
fn is_pair(items: &[Value], digits: usize) -> bool
    ensures { result ≡ is_pair digits (items_view items.now) }
{
    match items {
        [re, im] => is_float(re, digits) && is_float(im, digits),
        _ => false,
    }
}
