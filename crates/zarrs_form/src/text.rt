//! The scalars of a JSON text, appended.
ghost use Rattle.std.specs.Prelude.{◌≡◌, ◌++◌, decimal, string_bytes, false, not, OnOk};
ghost use Rattle.std.specs.List.{list_any};
ghost use Rattle.json.specs.Print.{quoted};
ghost use Rattle.serde_json.specs.View.{view};
ghost use Rattle.serde_json.specs.Written.{comma_if, compact_text, has_float};
ghost use Rattle.zarrs_form.specs.StepsOfTexts.{has_escape};

use serde_json::Value;
use std::alloc::{AllocError, Global};

/// Whether a byte stands otherwise than as itself within quotes.
fn has_escape(byte: u8) -> bool
    ensures { result ≡ has_escape byte }
{
    byte < 32 || byte == 34 || byte == 92
}

/// Whether a text stands as it is within quotes.
fn is_bare(text: &str) -> bool
    ensures { result ≡ not (list_any has_escape text.now) }
{
    for byte in text.as_bytes() {
        if has_escape(*byte) {
            return false;
        }
    }
    true
}

/// Appends a text in quotes.
#[tactic(auto, using(crate::proofs::TextLaws::quoted_bare))]
pub(crate) fn write_text(alloc: Global, out: &mut String, text: &str) -> Result<(), AllocError>
    ensures ok { OnOk result (string_bytes out.new ≡ string_bytes out.old ++ quoted text.now) }
{
    if is_bare(text) {
        out.push_str("\"")?;
        out.push_str(text)?;
        return out.push_str("\"");
    }
    write_compact(alloc, out, &Value::String(String::from_str(alloc, text)?))
}

/// Appends a number in decimal digits.
pub(crate) fn write_number(out: &mut String, number: u64) -> Result<(), AllocError>
    ensures ok { OnOk result (string_bytes out.new ≡ string_bytes out.old ++ decimal number) }
{
    write!(out, "{number}")
}

/// Appends the compact text of a JSON value, as the given library has it.
pub(crate) fn write_compact(
    alloc: Global,
    out: &mut String,
    value: &Value,
) -> Result<(), AllocError>
    ensures ok { OnOk result (has_float (view value.now) ≡ false
        → string_bytes out.new ≡ string_bytes out.old ++ compact_text (view value.now)) }
{
    out.push_str(value.to_string(alloc)?.as_str())
}

/// Appends a comma, where something stands before.
pub(crate) fn write_comma(out: &mut String, later: bool) -> Result<(), AllocError>
    ensures ok { OnOk result (string_bytes out.new ≡ string_bytes out.old ++ comma_if later) }
{
    if later { out.push_str(",") } else { Ok(()) }
}
