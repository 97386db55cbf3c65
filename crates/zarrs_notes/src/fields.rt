//! The additional fields of a group that must be understood.
ghost use Rattle.std.specs.Prelude.{◌≡◌, ◌++◌, IfOk, OnOk};
ghost use Rattle.zarrs_notes.specs.Demands.{field_finding, fields_of};
ghost use Rattle.zarrs_notes.specs.StepsOfFindings.{FieldsAscend, field_findings};

use crate::finding::NodeFinding;
use std::alloc::{AllocError, Global};
use zarrs_form::{AdditionalFieldsV3, Text};
use zarrs_meta::{GroupMetadata, NodeMetadata};
use zarrs_path::NodePath;

// Puts the fields of a group that must be understood behind the other findings, in the order of their names.
pub(crate) fn add_fields(
    alloc: Global,
    path: &NodePath,
    metadata: &NodeMetadata,
    found: &mut Vec<NodeFinding>,
) -> Result<(), AllocError>
    ensures told { OnOk result
        (found.new.items ≡ found.old.items ++ field_findings path.now (fields_of metadata.now)) }
    ensures ascending { FieldsAscend (fields_of metadata.now) }
{
    match metadata {
        NodeMetadata::Group(GroupMetadata::V3(group)) => {
            add_demands(alloc, path, &group.additional_fields, found)
        }
        NodeMetadata::Group(GroupMetadata::V2(_)) | NodeMetadata::Array(_) => Ok(()),
    }
}

// Puts the fields that must be understood behind the other findings.
fn add_demands(
    alloc: Global,
    path: &NodePath,
    fields: &AdditionalFieldsV3,
    found: &mut Vec<NodeFinding>,
) -> Result<(), AllocError>
    ensures told { OnOk result
        (found.new.items ≡ found.old.items ++ field_findings path.now fields.now) }
    ensures ascending { FieldsAscend fields.now }
{
    for field in fields.as_slice() {
        if field.1.must_understand() {
            let finding = field_finding(alloc, path, field.0.as_str())?;
            found.push(finding)?;
        }
    }
    Ok(())
}

// What there is to tell of a field that must be understood.
fn field_finding(alloc: Global, path: &NodePath, name: &str) -> Result<NodeFinding, AllocError>
    ensures { IfOk result (λ finding. finding ≡ field_finding path.now name.now) }
{
    if name == "consolidated_metadata" {
        return Ok(NodeFinding::DemandingBlock(path.try_clone(alloc)?));
    }
    Ok(NodeFinding::UnknownField(Text::from_str(alloc, name)?))
}
