//! The documents that tests share, and what a call answers as a text.
//!
//! A test hands each answer on at once and compares texts: these are generic in the value and in the error, so that no
//! test drops metadata or nodes itself, which is proved variant by variant and field by field.

use std::alloc::{AllocError, Global};
use std::fmt::{Debug, Display};

/// A group of version 3.
pub const G3: &str = r#"{"node_type":"group","zarr_format":3}"#;

/// A group of version 2.
pub const G2: &str = r#"{"zarr_format":2}"#;

/// An array of version 2.
pub const A2: &str =
    r#"{"chunks":[1],"compressor":null,"dtype":"<f8","fill_value":"NaN","filters":null,"order":"C","shape":[1],"zarr_format":2}"#;

/// An array of version 3 with the shape `[1]`, which is its chunks' shape too.
pub const A3: &str =
    r#"{"chunk_grid":{"configuration":{"chunk_shape":[1]},"name":"regular"},"chunk_key_encoding":{"configuration":{"separator":"/"},"name":"default"},"codecs":[{"configuration":{"endian":"little"},"name":"bytes"}],"data_type":"float32","fill_value":0,"node_type":"array","shape":[1],"zarr_format":3}"#;

/// The text of what a call answers: what `look` makes of the value, or the refusal that the error is.
pub fn said<T, E, F>(alloc: Global, answer: Result<T, E>, look: F) -> Result<String, AllocError>
where
    T: Drop,
    E: Debug + Display + Drop,
    F: FnOnce(&T, Global) -> Result<String, AllocError>,
    requires { F.IsAlwaysCallable look }
{
    match answer {
        Ok(value) => look(&value, alloc),
        Err(error) => refusal(alloc, &error),
    }
}

/// An error as a text: the name of its variant, a colon, and its words. Where the variant holds an error or another enum value
/// before all else, that one's variant stands behind it in parentheses: `StorageError(InvalidMetadata): error parsing ..`.
pub fn refusal<E: Debug + Display>(alloc: Global, error: &E) -> Result<String, AllocError> {
    let shown = format!(in alloc; "{error:?}")?;
    let mut text = variants(alloc, shown.as_str())?;
    write!(text, ": {error}")?;
    Ok(text)
}

// The names of variants with which what `{:?}` writes of a value begins, each but the first in parentheses behind the one before.
//
// A name within another begins with a capital, and a parenthesis, a comma or nothing is behind it: what has a brace is a struct.
fn variants(alloc: Global, shown: &str) -> Result<String, AllocError> {
    let mut text = String::new(alloc);
    let mut ends = String::new(alloc);
    for (place, part) in shown.split('(').enumerate() {
        let name = name_of(part);
        if place > 0 {
            if !is_variant(name, part) {
                break;
            }
            text.push_str("(")?;
            ends.push_str(")")?;
        }
        text.push_str(name)?;
        if name.len() < part.len() {
            break;
        }
    }
    text.push_str(ends.as_str())?;
    Ok(text)
}

// The letters, digits and low lines with which a text begins.
fn name_of(text: &str) -> &str {
    let rest = text.trim_start_matches(|c: char| c.is_alphanumeric() || c == '_');
    text.strip_suffix(rest).unwrap_or(text)
}

// Whether the name with which a text begins is that of a variant.
fn is_variant(name: &str, text: &str) -> bool {
    let rest = text.strip_prefix(name).unwrap_or(text);
    let ends = rest.is_empty() || rest.starts_with(')') || rest.starts_with(',');
    name.starts_with(|c: char| c.is_ascii_uppercase()) && ends
}

/// The printed form of a value.
pub fn printed<T: Display>(value: &T, alloc: Global) -> Result<String, AllocError> {
    format!(in alloc; "{value}")
}

/// An answer that is no error.
pub fn made<T>(value: T) -> Result<T, AllocError> {
    Ok(value)
}

/// A text and, where a log has lines, a mark and the lines behind it.
pub fn with_lines(
    alloc: Global,
    text: Result<String, AllocError>,
    mark: &str,
    lines: Vec<u8>,
) -> Result<String, AllocError> {
    let text = text?;
    let lines = String::from_utf8_lossy(alloc, &lines)?;
    let mark = if lines.is_empty() { "" } else { mark };
    format!(in alloc; "{text}{mark}{lines}")
}
