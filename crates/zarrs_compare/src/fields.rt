//! The additional fields of groups, compared as data but for the field `consolidated_metadata`.
ghost use Rattle.std.specs.Prelude.{◌≡◌, ◌<◌, ◌≤◌, false, drop, length, string_bytes};
ghost use Rattle.std.specs.List.{HoldsAt};
ghost use Rattle.zarrs_form.specs.Documents.{besides, is_own};
ghost use Rattle.zarrs_compare.specs.StepsOfSame.{besides_block, block_names, same_entry, same_list, same_members};

use crate::parts::Same;
use zarrs_form::{AdditionalFieldsV3, Object};

/// Whether the additional fields of two version 3 groups are the same, but for the field `consolidated_metadata`.
pub(crate) fn is_same_in_v3(first: &AdditionalFieldsV3, second: &AdditionalFieldsV3) -> bool
    ensures { result
        ≡ same_members (besides block_names first.now) (besides block_names second.now) }
{
    is_same_besides_block(first.as_slice(), second.as_slice())
}

/// Whether the additional fields of two version 2 groups are the same, but for the field `consolidated_metadata`.
pub(crate) fn is_same_in_v2(first: &Object, second: &Object) -> bool
    ensures { result
        ≡ same_members (besides block_names first.now) (besides block_names second.now) }
{
    is_same_besides_block(first.as_slice(), second.as_slice())
}

/// Whether two lists of fields are the same, but for the field `consolidated_metadata`.
fn is_same_besides_block<T: Same>(fields: &[(String, T)], others: &[(String, T)]) -> bool
    ensures { result
        ≡ same_list (same_entry T.same) (besides_block fields.now) (besides_block others.now) }
{
    let mut place = 0;
    for field in fields {
        if is_block(field) {
            continue;
        }
        place = place_of_field(others, place);
        if place == others.len() || !field.is_same(&others[place]) {
            return false;
        }
        place += 1;
    }
    place_of_field(others, place) == others.len()
}

/// The first place from that one on where a field stands that is no block, or the number of fields.
fn place_of_field<T>(fields: &[(String, T)], from: usize) -> usize
    requires { from ≤ length fields.now }
    ensures within { result ≤ length fields.now }
    ensures field { result < length fields.now
        → HoldsAt (λ f. is_own block_names (string_bytes f.0) ≡ false) fields.now result }
    ensures passed { besides_block (drop result fields.now)
        ≡ besides_block (drop from fields.now) }
{
    let mut place = from;
    while place < fields.len() && is_block(&fields[place]) {
        place += 1;
    }
    place
}

/// Whether the field says what stands below the group.
fn is_block<T>(field: &(String, T)) -> bool
    ensures { result ≡ is_own block_names (string_bytes field.now.0) }
{
    field.0.as_str() == "consolidated_metadata"
}
