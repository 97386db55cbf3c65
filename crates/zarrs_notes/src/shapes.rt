//! What is wrong with the dimensions of an array.
ghost use Rattle.std.specs.Prelude.{◌≡◌, ◌++◌, OnOk};
ghost use Rattle.serde_json.specs.View.{items_view, view};
ghost use Rattle.zarrs_form.specs.Forms.{each, list_of, number_u64};
ghost use Rattle.zarrs_meta.specs.declared.node.NodeMetadata.TheVariants.{Array};
ghost use Rattle.zarrs_notes.specs.Shapes.{is_regular_grid, lengths_of_grid};
ghost use Rattle.zarrs_notes.specs.StepsOfFindings.{chunk_findings, measure_of, name_findings, shape_findings, told_if};

use crate::finding::NodeFinding;
use serde_json::Value;
use std::alloc::AllocError;
use zarrs_form::{List, MetadataV3, Text, has_zero};
use zarrs_meta::{ArrayMetadata, NodeMetadata};

// The lengths of a chunk: how many there are, and whether some is 0.
#[derive(Clone, Copy)]
pub(crate) struct Lengths {
    pub(crate) count: usize,
    pub(crate) has_zero: bool,
}

// Puts what is wrong with the dimensions of a node behind the other findings.
pub(crate) fn add_shape(
    metadata: &NodeMetadata,
    found: &mut Vec<NodeFinding>,
) -> Result<(), AllocError>
    ensures { OnOk result
        (found.new.items ≡ found.old.items ++ shape_findings metadata.now) }
{
    match metadata {
        NodeMetadata::Group(_) => Ok(()),
        NodeMetadata::Array(array) => add_of_array(array.as_ref(), found),
    }
}

// Puts what is wrong with the dimensions of an array behind the other findings.
fn add_of_array(array: &ArrayMetadata, found: &mut Vec<NodeFinding>) -> Result<(), AllocError>
    ensures { OnOk result
        (found.new.items ≡ found.old.items ++ shape_findings (Array array.now)) }
{
    match array {
        ArrayMetadata::V3(array) => {
            let rank = array.shape.as_slice().len();
            let regular = is_regular_grid(&array.chunk_grid);
            add_chunks(rank, regular, grid_lengths(&array.chunk_grid), found)?;
            add_names(rank, &array.dimension_names, found)
        }
        ArrayMetadata::V2(array) => {
            let rank = array.shape.as_slice().len();
            let lengths = Lengths {
                count: array.chunks.as_slice().len(),
                has_zero: has_zero(&array.chunks),
            };
            add_chunks(rank, true, Some(lengths), found)
        }
    }
}

// Puts what is wrong with the lengths of a chunk behind the other findings, of chunks that are regular or not.
fn add_chunks(
    rank: usize,
    regular: bool,
    lengths: Option<Lengths>,
    found: &mut Vec<NodeFinding>,
) -> Result<(), AllocError>
    ensures { OnOk result
        (found.new.items ≡ found.old.items ++ chunk_findings rank regular lengths) }
{
    let Some(lengths) = lengths else {
        return tell(found, regular, NodeFinding::NoLengths);
    };
    let shape = rank;
    let finding = NodeFinding::GridRank {
        lengths: lengths.count,
        shape,
    };
    tell(found, lengths.count != rank, finding)?;
    tell(found, lengths.has_zero, NodeFinding::ZeroLength)
}

// Puts what is wrong with the dimension names behind the other findings.
fn add_names(
    rank: usize,
    names: &Option<List<Option<Text>>>,
    found: &mut Vec<NodeFinding>,
) -> Result<(), AllocError>
    ensures { OnOk result
        (found.new.items ≡ found.old.items ++ name_findings rank names.now) }
{
    match names {
        None => Ok(()),
        Some(names) => {
            let names = names.as_slice().len();
            let shape = rank;
            tell(
                found,
                names != rank,
                NodeFinding::NameCount { names, shape },
            )
        }
    }
}

// Puts a finding behind the others, where there is cause.
pub(crate) fn tell(
    found: &mut Vec<NodeFinding>,
    cause: bool,
    finding: NodeFinding,
) -> Result<(), AllocError>
    ensures { OnOk result (found.new.items ≡ found.old.items ++ told_if cause finding) }
{
    if cause {
        found.push(finding)?;
    }
    Ok(())
}

// Whether the name of a grid is `regular`.
fn is_regular_grid(grid: &MetadataV3) -> bool
    ensures { result ≡ is_regular_grid grid.now }
{
    grid.name.as_str() == "regular"
}

// The lengths of a chunk of a regular grid. They are not copied.
fn grid_lengths(grid: &MetadataV3) -> Option<Lengths>
    ensures { result ≡ measure_of (lengths_of_grid grid.now) }
{
    if !is_regular_grid(grid) {
        return None;
    }
    match &grid.configuration {
        None => None,
        Some(members) => match members.get("chunk_shape") {
            None => None,
            Some(value) => value_lengths(value),
        },
    }
}

// The lengths that a value is, if it is a list of numbers.
fn value_lengths(value: &Value) -> Option<Lengths>
    ensures { result ≡ measure_of (list_of number_u64 (view value.now)) }
{
    match value {
        Value::Array(items) => item_lengths(items),
        _ => None,
    }
}

// The lengths that items are, if each is a number.
fn item_lengths(items: &[Value]) -> Option<Lengths>
    ensures { result ≡ measure_of (each number_u64 (items_view items.now)) }
{
    let mut has_zero = false;
    for item in items {
        let Some(length) = item.as_u64() else {
            return None;
        };
        has_zero = has_zero || length == 0;
    }
    let count = items.len();
    Some(Lengths { count, has_zero })
}
