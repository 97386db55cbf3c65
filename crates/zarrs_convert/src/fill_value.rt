//! Fill values of version 2 as fill values of version 3.
ghost use Rattle.std.specs.Prelude.{◌≡◌, [], IfOk, IsTrue, false, if◌then◌else◌, replicate, true};
ghost use Rattle.std.specs.Str.Parse.{digits_value};
ghost use Rattle.serde_json.specs.Data.{array, boolean, null, string};
ghost use Rattle.serde_json.specs.View.{items_of, view};
ghost use Rattle.zarrs_convert.specs.FillValues.{fill_value_v3, is_fill_number, zero_bytes, zero_value};
ghost use Rattle.zarrs_convert.specs.Refusals.{AnswersAs};
ghost use Rattle.zarrs_convert.specs.Tables.{is_decimal};

use crate::error::ArrayMetadataV2ToV3Error;
use crate::number::{digits_behind, number_of};
use log::{Log, warn};
use serde_json::Value;
use std::alloc::{AllocError, Global};
use zarrs_meta::{FillValueMetadata, MetadataV3};

/// The version 3 fill value of a version 2 fill value, for a data type of version 3. A null fill value becomes the
/// default of the data type, which is warned of; so is 0 for `string`, which becomes the empty text.
///
/// # Errors
///
/// `Other` where the fill value is null and the data type is raw bits that are not whole bytes or do not fit 64 bits.
/// `OutOfMemory` where there is no memory.
///
/// Source: Zarr specification version 2, "Fill value encoding"; `zarrs::convert::fill_value_metadata_v2_to_v3`.
pub fn fill_value_metadata_v2_to_v3<L: Log>(
    log: &L,
    alloc: Global,
    fill_value: &FillValueMetadata,
    data_type: &MetadataV3,
) -> Result<FillValueMetadata, ArrayMetadataV2ToV3Error>
    ensures { AnswersAs (λ v. v) result (fill_value_v3 fill_value.now data_type.now.name) }
{
    let name = data_type.name.as_str();
    warn_of(log, fill_value.as_value(), name);
    Ok(FillValueMetadata::new(converted(alloc, fill_value.as_value(), name)?))
}

// Warns of a fill value that version 3 does not have for the data type of this name.
fn warn_of<L: Log>(log: &L, value: &Value, name: &str) {
    if value.is_null() {
        warn!(log; "Fill value of `null` specified for data type {name}. This is unsupported in Zarr V3; mapping to a default value.");
    }
    if is_number(value, 0) && name == "string" {
        warn!(log; "Permitting non-conformant `0` fill value for `string` data type (zarr-python compatibility).");
    }
}

// The fill value of version 3, for the data type of this name.
fn converted(alloc: Global, value: &Value, name: &str) -> Result<Value, ArrayMetadataV2ToV3Error>
    ensures { AnswersAs view result (fill_value_v3 (view value.now) name.now) }
{
    if value.is_null() {
        return default_value(alloc, name);
    }
    if name == "string" {
        return Ok(string_value(alloc, value)?);
    }
    if name == "bool" {
        return Ok(bool_value(value)?);
    }
    Ok(value.clone()?)
}

// The fill value for null.
fn default_value(alloc: Global, name: &str) -> Result<Value, ArrayMetadataV2ToV3Error>
    ensures { AnswersAs view result (fill_value_v3 null name.now) }
{
    match name {
        "string" => Ok(Value::String(String::new(alloc))),
        "bool" => Ok(Value::Bool(false)),
        _ => match digits_behind(name, "r") {
            Some(bits) => zero_bytes(alloc, bits),
            None => Ok(Value::from(0u64)),
        },
    }
}

// The fill value for the type `string`: 0 is the empty text, and any other is kept.
fn string_value(alloc: Global, value: &Value) -> Result<Value, AllocError>
    ensures { IfOk result
        (λ made. view made
        ≡ (if is_fill_number 0 (view value.now) then string [] else view value.now)) }
{
    if is_number(value, 0) {
        return Ok(Value::String(String::new(alloc)));
    }
    value.clone()
}

// The fill value for the type `bool`: 0 and 1 are truth values, and any other is kept.
fn bool_value(value: &Value) -> Result<Value, AllocError>
    ensures { IfOk result
        (λ made. view made
        ≡ (if is_fill_number 0 (view value.now) then boolean false else
        (if is_fill_number 1 (view value.now) then boolean true else view value.now))) }
{
    if is_number(value, 0) {
        return Ok(Value::Bool(false));
    }
    if is_number(value, 1) {
        return Ok(Value::Bool(true));
    }
    value.clone()
}

// Whether the fill value is this whole number.
fn is_number(value: &Value, wanted: u64) -> bool
    ensures { result ≡ is_fill_number wanted (view value.now) }
{
    match value.as_u64() {
        Some(number) => number == wanted,
        None => false,
    }
}

// As many zeros as this number of bits has bytes.
fn zero_bytes(alloc: Global, bits: &str) -> Result<Value, ArrayMetadataV2ToV3Error>
    requires { IsTrue (is_decimal bits.now) }
    ensures { AnswersAs view result (zero_bytes (digits_value 10 bits.now)) }
{
    match number_of(bits) {
        Some(bits) if bits % 8 == 0 => Ok(zeros(alloc, bits / 8)?),
        _ => Err(ArrayMetadataV2ToV3Error::Other(String::from_str(
            alloc,
            "raw bits should be fixed size",
        )?)),
    }
}

// A list of this many zeros.
#[tactic(auto, using(crate::proofs::FillLines::zeros_more))]
fn zeros(alloc: Global, count: u64) -> Result<Value, AllocError>
    ensures { IfOk result (λ zeros. view zeros ≡ array (items_of (replicate count zero_value))) }
{
    let mut items = Vec::with_capacity(alloc, count as usize)?;
    for _ in 0..count {
        items.push(Value::from(0u64))?;
    }
    Ok(Value::Array(items))
}
