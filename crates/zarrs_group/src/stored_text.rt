//! The bytes of a stored document.
ghost use Rattle.std.specs.Prelude.{IfOk};
ghost use Rattle.serde_json.specs.View.{view};
ghost use Rattle.zarrs_group.specs.StoredTexts.{IsStoredText};

use serde_json::Value;
use std::alloc::{AllocError, Global};

/// The pretty layout of a value, which is read as the value again where it does not nest too deep.
pub(crate) fn pretty_bytes(alloc: Global, value: &Value) -> Result<Vec<u8>, AllocError>
    ensures { IfOk result (λ bytes. IsStoredText bytes.items (view value.now)) }
{
    let bytes = value.to_vec_pretty(alloc)?;
    Ok(bytes)
}
