//! Readers of documents within a larger one, whose numbers were already tested.
ghost use Rattle.std.specs.Prelude.{◌≡◌, IfOk, IsTrue};
ghost use Rattle.serde_json.specs.Data.{object};
ghost use Rattle.serde_json.specs.View.{view, members_view};
ghost use Rattle.zarrs_form.specs.Documents.{Gives, document_in};
ghost use Rattle.zarrs_form.specs.Forms.{fits_in};

use serde_json::{Map, Value};
use std::alloc::{AllocError, Global};
use zarrs_fault::{MetadataFault, Numbers};
use zarrs_meta::Document;

// The document that a value is, whose parts it takes over.
pub(crate) fn asked_owned<D: Document>(
    alloc: Global,
    numbers: Numbers,
    value: Value,
) -> Result<D, MetadataFault>
    requires { IsTrue (fits_in numbers (view value)) }
    ensures { Gives (λ d. d) result (D.meaning numbers (view value)) }
{
    D::from_members_in(alloc, numbers, members_of(numbers, value)?)
}

// The document that a value is, whose members are copied.
pub(crate) fn asked<D: Document>(
    alloc: Global,
    numbers: Numbers,
    value: &Value,
) -> Result<D, MetadataFault>
    requires { IsTrue (fits_in numbers (view value.now)) }
    ensures { Gives (λ d. d) result (D.meaning numbers (view value.now)) }
{
    D::from_members_in(alloc, numbers, copied_members(numbers, value)?)
}

// The members of a document, taken over. What its numbers may be is for the contract alone.
#[tactic(auto, using(crate::proofs::NumbersWithin::asked_document))]
fn members_of(_numbers: Numbers, value: Value) -> Result<Map<String, Value>, MetadataFault>
    requires { IsTrue (fits_in _numbers (view value)) }
    ensures gives { Gives (λ m. members_view m.entries) result (document_in _numbers (view value)) }
    ensures whole { IfOk result (λ m. view value ≡ object (members_view m.entries)) }
{
    match value {
        Value::Object(members) => Ok(members),
        _ => Err(MetadataFault::NotAnObject),
    }
}

// A copy of the members of a document. What its numbers may be is for the contract alone.
#[tactic(auto, using(crate::proofs::NumbersWithin::asked_document))]
fn copied_members(_numbers: Numbers, value: &Value) -> Result<Map<String, Value>, MetadataFault>
    requires { IsTrue (fits_in _numbers (view value.now)) }
    ensures gives { Gives (λ m. members_view m.entries) result
        (document_in _numbers (view value.now)) }
    ensures whole { IfOk result (λ m. view value.now ≡ object (members_view m.entries)) }
{
    match value {
        Value::Object(members) => Ok(copy_of(members)?),
        _ => Err(MetadataFault::NotAnObject),
    }
}

// A copy of members.
fn copy_of(members: &Map<String, Value>) -> Result<Map<String, Value>, AllocError>
    ensures { IfOk result (λ copy. members_view copy.entries ≡ members_view members.now.entries) }
{
    let copy = members.clone()?;
    Ok(copy)
}
