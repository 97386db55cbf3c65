//! JSON values, compared as data.
ghost use Rattle.std.specs.Prelude.{◌≡◌, ◌↔◌, IsTrue, None, true};
ghost use Rattle.serde_json.specs.Find.{as_u64, is_float};
ghost use Rattle.serde_json.specs.View.{items_view, members_view, number_view, view};
ghost use Rattle.zarrs_compare.specs.StepsOfSame.{same_data, same_items, same_members, same_number};

use serde_json::{Map, Number, Value};
use std::num::f64_to_bits_with_nan;

/// Whether two JSON values are the same.
#[cycle(is_same_value)]
pub(crate) fn is_same_value(first: &Value, second: &Value) -> bool
    ensures { result ≡ same_data (view first.now) (view second.now) }
{
    match first {
        Value::Null => second.is_null(),
        Value::Bool(truth) => second.as_bool() == Some(*truth),
        Value::Number(number) => match second {
            Value::Number(other) => is_same_number(number, other),
            _ => false,
        },
        Value::String(text) => second.as_str() == Some(text.as_str()),
        Value::Array(items) => match second {
            Value::Array(others) => is_same_items(items, others),
            _ => false,
        },
        Value::Object(members) => match second {
            Value::Object(others) => is_same_members(members, others),
            _ => false,
        },
    }
}

#[cycle(is_same_value)]
fn is_same_items(first: &Vec<Value>, second: &Vec<Value>) -> bool
    ensures { result ≡ same_items (items_view first.now.items) (items_view second.now.items) }
{
    let mut others = second.iter();
    for item in first {
        let Some(other) = others.next() else {
            return false;
        };
        if !is_same_value(item, other) {
            return false;
        }
    }
    others.next().is_none()
}

#[cycle(is_same_value)]
fn is_same_members(first: &Map<String, Value>, second: &Map<String, Value>) -> bool
    ensures { result
        ≡ same_members (members_view first.now.entries) (members_view second.now.entries) }
{
    let mut others = second.iter();
    for (name, member) in first.iter() {
        let Some((other_name, other)) = others.next() else {
            return false;
        };
        if name.as_str() != other_name.as_str() || !is_same_value(member, other) {
            return false;
        }
    }
    others.next().is_none()
}

/// Whether two numbers are one: both `u64`, both `i64`, or both neither and then of the same 64 bits.
fn is_same_number(first: &Number, second: &Number) -> bool
    ensures { result ≡ same_number (number_view first.now) (number_view second.now) }
{
    match first.as_u64() {
        Some(number) => second.as_u64() == Some(number),
        None => !second.is_u64() && is_same_below_zero(first, second),
    }
}

/// Whether two numbers, neither of them `u64`, are one.
fn is_same_below_zero(first: &Number, second: &Number) -> bool
    requires first { as_u64 (number_view first.now) ≡ None }
    requires second { as_u64 (number_view second.now) ≡ None }
    ensures { result ≡ same_number (number_view first.now) (number_view second.now) }
{
    match first.as_i64() {
        Some(number) => second.as_i64() == Some(number),
        None => !second.is_i64() && is_same_fraction(first, second),
    }
}

/// Whether two numbers, neither of them `u64` or `i64`, are one.
fn is_same_fraction(first: &Number, second: &Number) -> bool
    requires first { is_float (number_view first.now) ≡ true }
    requires second { is_float (number_view second.now) ≡ true }
    ensures { result ≡ same_number (number_view first.now) (number_view second.now) }
{
    match first.as_f64() {
        Some(number) => match second.as_f64() {
            Some(other) => has_same_bits(number, other),
            None => false,
        },
        None => false,
    }
}

/// Whether two `f64` have the same bits. By `==` 0 would be -0.
fn has_same_bits(first: f64, second: f64) -> bool
    ensures { IsTrue result ↔ (first ≡ second) }
{
    f64_to_bits_with_nan(first) == f64_to_bits_with_nan(second)
}
