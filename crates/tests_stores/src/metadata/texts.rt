//! The bytes of documents, as they are written of values with any numbers.

use crate::metadata::given::value_of;
use serde_json::Value;
use std::alloc::{AllocError, Global};
use std::test::Fail;
use tests_support::check_rows;
use zarrs_fault::MetadataFault;
use zarrs_form::{document_text, is_shallow, laws, parse};

// The text that is written of a value, and the value that is read of it.
fn written(alloc: Global, value: &Value) -> Result<String, MetadataFault> {
    let Some(bytes) = document_text(alloc, value)? else {
        return Ok(String::from_str(alloc, "none")?);
    };
    let text = String::from_utf8_lossy(alloc, &bytes)?;
    let again = parse(alloc, bytes.as_slice())?.to_string(alloc)?;
    Ok(format!(in alloc; "{text} {again}")?)
}

fn text_says(alloc: Global, text: &str) -> Result<String, MetadataFault> {
    written(alloc, &value_of(alloc, text)?)
}

// A value, the text that is written of it, with its line ends as `\n`, and the value that is read of that.
const TEXTS: &str = r#"
null => null null
[] => [] []
{} => {} {}
[1,-2] => [\n  1,\n  -2\n] [1,-2]
{"b":1,"a":[true]} => {\n  "a": [\n    true\n  ],\n  "b": 1\n} {"a":[true],"b":1}
# fractions, in the shortest decimals of the same number
0.5 => 0.5 0.5
1.0 => 1.0 1.0
-0.0 => -0.0 -0.0
1e-05 => 0.00001 0.00001
{"a":0.10000000000000002} => {\n  "a": 0.10000000000000002\n} {"a":0.10000000000000002}
"#;

#[test]
fn a_document_is_written_in_lines_and_read_again(rt: HostRuntime) -> Result<(), Fail> {
    check_rows(rt.alloc(), TEXTS, text_says)
}

// So many lists in each other.
fn lists(alloc: Global, levels: usize) -> Result<Value, AllocError> {
    let mut value = Value::Null;
    for _ in 0..levels {
        value = Value::Array(vec![in alloc; value]?);
    }
    Ok(value)
}

fn depth_says(alloc: Global, levels: &str) -> Result<String, MetadataFault> {
    let Ok(levels) = levels.parse::<usize>() else {
        return Ok(String::from_str(alloc, "no number")?);
    };
    let value = lists(alloc, levels)?;
    let has_text = document_text(alloc, &value)?.is_some();
    Ok(format!(in alloc; "{} {}", is_shallow(&value), has_text)?)
}

// How many lists stand in each other; whether they are shallow, and whether a text is written of them.
const DEPTHS: &str = r#"
0 => true true
1 => true true
127 => true true
128 => false false
200 => false false
"#;

#[test]
fn what_nests_deeper_than_127_levels_is_not_written(rt: HostRuntime) -> Result<(), Fail> {
    check_rows(rt.alloc(), DEPTHS, depth_says)
}

#[test]
fn the_law_of_texts_is_called(_rt: HostRuntime) {
    laws::whole_text_is_exact();
}
