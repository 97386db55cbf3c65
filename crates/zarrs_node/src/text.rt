//! A node and the nodes below it as text.
ghost use Rattle.std.specs.Prelude.{◌≡◌, ◌∷◌, [], ◌++◌, ◌*◌, Some, IfOk, OnOk, replicate, string_bytes};
ghost use Rattle.std.specs.Fmt.{WritesOnOk};
ghost use Rattle.zarrs_store.specs.Segments.{last_segment};
ghost use Rattle.zarrs_node.specs.Forest.{metadata_of, below_of};
ghost use Rattle.zarrs_node.specs.Lines.{array_text, shape_text, type_text_v2, type_text_v3, node_text, named_line, tree_text};

use crate::last_name::last_name;
use crate::node::Node;
use crate::preorder::Preorder;
use std::alloc::{AllocError, Global};
use std::fmt;
use zarrs_meta::{ArrayMetadata, DataTypeMetadataV2, MetadataV3, NodeMetadata};
use zarrs_path::NodePath;

impl Node {
    /// The text of the node and of the nodes below it, a line each, children two spaces deeper than their parent.
    ///
    /// The first line names the node `/`, whatever its path. An array's line has its shape and its data type.
    ///
    /// # Errors
    ///
    /// `AllocError` when out of memory.
    ///
    /// Source: `zarrs::node::Node::hierarchy_tree`.
    pub fn hierarchy_tree(&self, alloc: Global) -> Result<String, AllocError>
        ensures ok { IfOk result
            (λ text. string_bytes text ≡ tree_text (metadata_of self.now) (below_of self.now)) }
    {
        let mut text = String::new(alloc);
        push_line(&mut text, 0, "/", &self.metadata)?;
        let mut walk = Preorder::new(alloc, &self.children)?;
        while let Some((level, node)) = walk.next()? {
            push_line(&mut text, level, last_name(&node.path), &node.metadata)?;
        }
        Ok(text)
    }
}

// Adds a line, two spaces deeper for each level.
fn push_line(
    text: &mut String,
    level: usize,
    name: &str,
    metadata: &NodeMetadata,
) -> Result<(), AllocError>
    ensures { OnOk result
        (string_bytes text.new ≡ string_bytes text.old
        ++ (replicate (2 * level) 32 ++ named_line name.now metadata.now)) }
{
    for _step in 0..level {
        text.push_str("  ")?;
    }
    let line = NodeLine { name, metadata };
    write!(text, "{line}")
}

/// What the text of a hierarchy says of a node, behind the indent of its line: the name, for an array its shape and its data type,
/// and a newline.
///
/// Source: the lines of `zarrs::node::Node::hierarchy_tree` and of `zarrs::hierarchy::Hierarchy::tree_of`.
/// <https://docs.rs/zarrs/0.23.13/zarrs/hierarchy/struct.Hierarchy.html>
#[derive(Clone, Copy)]
pub struct NodeLine<'a> {
    /// The name that the node is shown by.
    pub name: &'a str,
    /// The node's metadata.
    pub metadata: &'a NodeMetadata,
}

impl<'a> NodeLine<'a> {
    /// The line that shows a node by the last name of its path.
    pub fn at(path: &'a NodePath, metadata: &'a NodeMetadata) -> NodeLine<'a>
        ensures name { result.name.now ≡ last_segment path.now }
        ensures metadata { result.metadata.now ≡ metadata.now }
    {
        NodeLine {
            name: last_name(path),
            metadata,
        }
    }
}

impl<'a> fmt::Display for NodeLine<'a> {
    ghost output = { λ line. Some (named_line line.name.now line.metadata.now) };

    fn fmt<W: fmt::Write>(&self, f: &mut fmt::Formatter<W>) -> fmt::Result {
        f.write_str(self.name)?;
        write_array(f, self.metadata)?;
        f.write_str("\n")
    }
}

// Writes the shape and the data type of an array.
fn write_array<W: fmt::Write>(f: &mut fmt::Formatter<W>, metadata: &NodeMetadata) -> fmt::Result
    ensures { WritesOnOk W.write_str_gives f.old result (node_text metadata.now) f.new }
{
    match metadata {
        NodeMetadata::Group(_) => Ok(()),
        NodeMetadata::Array(array) => write_shape_and_type(f, array.as_ref()),
    }
}

// Writes the shape and the data type of an array of either version.
fn write_shape_and_type<W: fmt::Write>(
    f: &mut fmt::Formatter<W>,
    array: &ArrayMetadata,
) -> fmt::Result
    ensures { WritesOnOk W.write_str_gives f.old result (32 ∷ array_text array.now) f.new }
{
    match array {
        ArrayMetadata::V3(array) => {
            write_shape(f, array.shape.as_slice())?;
            write_type_v3(f, &array.data_type)
        }
        ArrayMetadata::V2(array) => {
            write_shape(f, array.shape.as_slice())?;
            write_type_v2(f, &array.dtype)
        }
    }
}

// Writes a shape between two spaces.
fn write_shape<W: fmt::Write>(f: &mut fmt::Formatter<W>, shape: &[u64]) -> fmt::Result
    ensures { WritesOnOk W.write_str_gives f.old result
        (32 ∷ (shape_text shape.now ++ 32 ∷ [])) f.new }
{
    write!(f, " {shape:?} ")
}

// Writes a data type of version 3.
fn write_type_v3<W: fmt::Write>(f: &mut fmt::Formatter<W>, data_type: &MetadataV3) -> fmt::Result
    ensures { WritesOnOk W.write_str_gives f.old result (type_text_v3 data_type.now) f.new }
{
    f.write_str(data_type.name.as_str())?;
    match data_type.configuration {
        Some(_) => f.write_str("(..)"),
        None => Ok(()),
    }
}

// Writes a data type of version 2.
fn write_type_v2<W: fmt::Write>(
    f: &mut fmt::Formatter<W>,
    data_type: &DataTypeMetadataV2,
) -> fmt::Result
    ensures { WritesOnOk W.write_str_gives f.old result (type_text_v2 data_type.now) f.new }
{
    match data_type {
        DataTypeMetadataV2::Simple(name) => {
            f.write_str("Simple(\"")?;
            f.write_str(name.as_str())?;
            f.write_str("\")")
        }
        DataTypeMetadataV2::Structured(_) => f.write_str("Structured(..)"),
    }
}
