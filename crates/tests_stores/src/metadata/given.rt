//! What the texts of rows are: values, numbers, members and objects. A text that is none of the kind is refused, so that its row fails.

use serde_json::{Map, Value};
use std::alloc::Global;
use zarrs_fault::MetadataFault;
use zarrs_form::parse;
use zarrs_meta::Object;

/// The value that a text is.
pub(crate) fn value_of(alloc: Global, text: &str) -> Result<Value, MetadataFault> {
    parse(alloc, text.as_bytes())
}

/// The number that a text is.
pub(crate) fn number_of(alloc: Global, text: &str) -> Result<u64, MetadataFault> {
    match value_of(alloc, text)?.as_u64() {
        Some(number) => Ok(number),
        None => Err(MetadataFault::UnsupportedNumber),
    }
}

/// The members of the object that a text is.
pub(crate) fn members_of(alloc: Global, text: &str) -> Result<Map<String, Value>, MetadataFault> {
    match value_of(alloc, text)? {
        Value::Object(members) => Ok(members),
        _other => Err(MetadataFault::NotAnObject),
    }
}

/// The object that a text is.
pub(crate) fn object_of(alloc: Global, text: &str) -> Result<Object, MetadataFault> {
    Ok(Object::from_map(alloc, members_of(alloc, text)?)?)
}
