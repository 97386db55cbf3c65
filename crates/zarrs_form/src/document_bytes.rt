//! The bytes of a document, written of any JSON value.
ghost use Rattle.std.specs.Prelude.{◌≡◌, ◌<◌, None, IfOk, IfSome};
ghost use Rattle.serde_json.specs.Data.{depth};
ghost use Rattle.serde_json.specs.Read.{max_depth};
ghost use Rattle.serde_json.specs.View.{view};
ghost use Rattle.zarrs_form.specs.DocumentTexts.{IsTextOf};

use crate::nesting::is_shallow;
use serde_json::Value;
use std::alloc::{AllocError, Global};

/// The bytes of a document in the pretty layout, two spaces a level and no newline at the end: they are read as the value again, whatever
/// numbers it has. None where it nests deeper than any document that is read.
///
/// # Errors
///
/// `AllocError` where there is no memory for them.
///
/// Source: RFC 8259; Zarr core specification 3.1, "Metadata documents".
pub fn document_text(alloc: Global, value: &Value) -> Result<Option<Vec<u8>>, AllocError>
    ensures text { IfOk result
        (λ found. IfSome found (λ bytes. IsTextOf bytes.items (view value.now))) }
    ensures none { IfOk result (λ found. found ≡ None → max_depth < depth (view value.now)) }
{
    if !is_shallow(value) {
        return Ok(None);
    }
    let bytes = value.to_vec_pretty(alloc)?;
    Ok(Some(bytes))
}
