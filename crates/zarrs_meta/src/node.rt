//! Metadata of either kind and either version.
ghost use Rattle.std.specs.Prelude.{◌≡◌, Ok, codes, option_and_then, option_map};
ghost use Rattle.serde_json.specs.Data.{object};
ghost use Rattle.serde_json.specs.Find.{as_number, as_str, as_u64, get};
ghost use Rattle.serde_json.specs.View.{members_view};
ghost use Rattle.zarrs_form.specs.Documents.{Gives, document_in, format_of};
ghost use Rattle.zarrs_meta.specs.Node.{node_asks_first, zarr_json_asks_first, node_in, node_v2_in, node_v3_in, node_tree, is_plain_node_in, zarr_json_in, is_group};
ghost use Rattle.zarrs_meta.specs.declared.node.GroupMetadata.TheVariants.{V3 as group_v3, V2 as group_v2};
ghost use Rattle.zarrs_meta.specs.declared.node.ArrayMetadata.TheVariants.{V3 as array_v3, V2 as array_v2};

use crate::array_v2::ArrayMetadataV2;
use crate::array_v3::ArrayMetadataV3;
use crate::boxed_array::BoxedArray;
use crate::document::Document;
use crate::group_v2::GroupMetadataV2;
use crate::group_v3::GroupMetadataV3;
use crate::written_document::WrittenDocument;
use serde_json::{Map, Value};
use std::alloc::{AllocError, Global};
use zarrs_fault::{MetadataFault, Numbers};
use zarrs_form::{Layout, member};

/// The metadata of a group of either version.
///
/// <https://zarr-specs.readthedocs.io/en/latest/v3/core/index.html#group-metadata>
/// <https://zarr-specs.readthedocs.io/en/latest/v2/v2.0.html#groups>
#[derive(Debug, Drop)]
pub enum GroupMetadata {
    /// Of version 3.
    V3(GroupMetadataV3),
    /// Of version 2.
    V2(GroupMetadataV2),
}

/// The metadata of an array of either version.
///
/// <https://zarr-specs.readthedocs.io/en/latest/v3/core/index.html#array-metadata>
/// <https://zarr-specs.readthedocs.io/en/latest/v2/v2.0.html#metadata>
#[derive(Debug, Drop)]
pub enum ArrayMetadata {
    /// Of version 3.
    V3(ArrayMetadataV3),
    /// Of version 2.
    V2(ArrayMetadataV2),
}

/// The metadata of a group or an array.
///
/// <https://zarr-specs.readthedocs.io/en/latest/v3/core/index.html#metadata>
/// <https://zarr-specs.readthedocs.io/en/latest/v2/v2.0.html#metadata>
#[derive(Debug, Drop)]
pub enum NodeMetadata {
    /// A group.
    Group(GroupMetadata),
    /// An array.
    Array(BoxedArray),
}

/// What the document at the key `zarr.json` is read as.
///
/// <https://zarr-specs.readthedocs.io/en/latest/v3/core/index.html#metadata>
#[derive(Debug, Drop)]
pub enum ZarrJson {
    /// A group or an array.
    Node(NodeMetadata),
    /// Its `zarr_format` is 2, and no more of it was read.
    Version2,
}

impl From<GroupMetadataV3> for GroupMetadata {
    ghost from_gives = { λ group metadata. metadata ≡ group_v3 group };

    fn from(group: GroupMetadataV3) -> GroupMetadata {
        GroupMetadata::V3(group)
    }
}

impl From<GroupMetadataV2> for GroupMetadata {
    ghost from_gives = { λ group metadata. metadata ≡ group_v2 group };

    fn from(group: GroupMetadataV2) -> GroupMetadata {
        GroupMetadata::V2(group)
    }
}

impl From<ArrayMetadataV3> for ArrayMetadata {
    ghost from_gives = { λ array metadata. metadata ≡ array_v3 array };

    fn from(array: ArrayMetadataV3) -> ArrayMetadata {
        ArrayMetadata::V3(array)
    }
}

impl From<ArrayMetadataV2> for ArrayMetadata {
    ghost from_gives = { λ array metadata. metadata ≡ array_v2 array };

    fn from(array: ArrayMetadataV2) -> ArrayMetadata {
        ArrayMetadata::V2(array)
    }
}

impl NodeMetadata {
    /// Whether the node is a group.
    pub fn is_group(&self) -> bool
        ensures { result ≡ is_group self.now }
    {
        matches!(self, NodeMetadata::Group(_))
    }
}

/// `zarr_format` 3 is a group or an array by its `node_type`, `zarr_format` 2 an array where it has a `shape` and else a group.
impl Document for NodeMetadata {
    ghost meaning = { node_in };

    /// `WrongFormat` where `zarr_format` is neither 3 nor 2, `WrongNodeType`, then `MissingMember` or `BadMember` of the first member of
    /// the table that is absent or of another form.
    #[tactic(auto, unfolding(crate::specs::Node::node_in, zarrs_form::specs::Documents::format_of))]
    fn from_members_in(
        alloc: Global,
        numbers: Numbers,
        members: Map<String, Value>,
    ) -> Result<NodeMetadata, MetadataFault> {
        match zarr_format(&members) {
            Some(3) => node_v3(alloc, numbers, members),
            Some(2) => node_v2(alloc, numbers, members),
            _ => Err(MetadataFault::WrongFormat),
        }
    }

    fn try_clone(&self, alloc: Global) -> Result<NodeMetadata, AllocError> {
        match self {
            NodeMetadata::Group(group) => Ok(NodeMetadata::Group(group.try_clone(alloc)?)),
            NodeMetadata::Array(array) => Ok(NodeMetadata::Array(array.try_clone(alloc)?)),
        }
    }

    ghost asks_first = { node_asks_first };
}

impl WrittenDocument for NodeMetadata {
    ghost tree = { node_tree };

    ghost plain = { is_plain_node_in };

    fn to_value(&self, alloc: Global) -> Result<Value, AllocError> {
        match self {
            NodeMetadata::Group(GroupMetadata::V3(group)) => group.to_value(alloc),
            NodeMetadata::Group(GroupMetadata::V2(group)) => group.to_value(alloc),
            NodeMetadata::Array(array) => match array.as_ref() {
                ArrayMetadata::V3(array) => array.to_value(alloc),
                ArrayMetadata::V2(array) => array.to_value(alloc),
            },
        }
    }

    fn write(&self, alloc: Global, out: &mut String, layout: Layout) -> Result<(), AllocError> {
        match self {
            NodeMetadata::Group(GroupMetadata::V3(group)) => group.write(alloc, out, layout),
            NodeMetadata::Group(GroupMetadata::V2(group)) => group.write(alloc, out, layout),
            NodeMetadata::Array(array) => match array.as_ref() {
                ArrayMetadata::V3(array) => array.write(alloc, out, layout),
                ArrayMetadata::V2(array) => array.write(alloc, out, layout),
            },
        }
    }

    /// Whether the metadata could have come from a document.
    fn is_plain(&self) -> bool {
        match self {
            NodeMetadata::Group(GroupMetadata::V3(group)) => group.is_plain(),
            NodeMetadata::Group(GroupMetadata::V2(group)) => group.is_plain(),
            NodeMetadata::Array(array) => match array.as_ref() {
                ArrayMetadata::V3(array) => array.is_plain(),
                ArrayMetadata::V2(array) => array.is_plain(),
            },
        }
    }

    #[tactic(auto, using(crate::proofs::NodeLaws::node_again_in))]
    fn reads_back(&self, numbers: Numbers) {}

    #[tactic(auto, using(crate::proofs::PlainNodes::read_node_is_plain_in))]
    fn read_is_plain() {}

    #[tactic(auto, using(crate::proofs::NodeLaws::node_no_float))]
    fn plain_is_whole(&self) {}
}

/// As a node, but that `zarr_format` 2 is no fault: no more of the document is read then.
impl Document for ZarrJson {
    ghost meaning = { zarr_json_in };

    /// `WrongFormat` where `zarr_format` is neither 3 nor 2, else as of a node.
    #[tactic(auto, unfolding(crate::specs::Node::zarr_json_in, crate::specs::Node::node_in, zarrs_form::specs::Documents::format_of))]
    fn from_members_in(
        alloc: Global,
        numbers: Numbers,
        members: Map<String, Value>,
    ) -> Result<ZarrJson, MetadataFault> {
        match zarr_format(&members) {
            Some(2) => Ok(ZarrJson::Version2),
            Some(3) => Ok(ZarrJson::Node(node_v3(alloc, numbers, members)?)),
            _ => Err(MetadataFault::WrongFormat),
        }
    }

    fn try_clone(&self, alloc: Global) -> Result<ZarrJson, AllocError> {
        match self {
            ZarrJson::Node(metadata) => Ok(ZarrJson::Node(metadata.try_clone(alloc)?)),
            ZarrJson::Version2 => Ok(ZarrJson::Version2),
        }
    }

    ghost asks_first = { zarr_json_asks_first };
}

/// A node of version 3, once its format was asked: by its node type.
#[tactic(auto, using(crate::proofs::TakenLaws::group_v3_taken_is, crate::proofs::TakenLaws::array_v3_taken_is), unfolding(zarrs_form::specs::Documents::node_type_of))]
fn node_v3(
    alloc: Global,
    numbers: Numbers,
    members: Map<String, Value>,
) -> Result<NodeMetadata, MetadataFault>
    requires document { document_in numbers (object (members_view members.entries))
        ≡ Ok (members_view members.entries) }
    requires version_3 { format_of 3 (object (members_view members.entries)) ≡ Ok tt }
    ensures { Gives (λ m. m) result
        (node_v3_in numbers (object (members_view members.entries))) }
{
    match node_type(&members) {
        Some("group") => {
            let group = GroupMetadataV3::take(alloc, members)?;
            Ok(NodeMetadata::Group(GroupMetadata::V3(group)))
        }
        Some("array") => {
            let array = ArrayMetadataV3::take(alloc, members)?;
            let array = BoxedArray::new(alloc, ArrayMetadata::V3(array))?;
            Ok(NodeMetadata::Array(array))
        }
        _ => Err(MetadataFault::WrongNodeType),
    }
}

/// A node of version 2: an array is known by its shape.
fn node_v2(
    alloc: Global,
    numbers: Numbers,
    members: Map<String, Value>,
) -> Result<NodeMetadata, MetadataFault>
    requires { document_in numbers (object (members_view members.entries))
        ≡ Ok (members_view members.entries) }
    ensures { Gives (λ m. m) result
        (node_v2_in numbers (object (members_view members.entries))) }
{
    if member(&members, "shape").is_some() {
        let array = ArrayMetadataV2::from_members_in(alloc, numbers, members)?;
        let array = BoxedArray::new(alloc, ArrayMetadata::V2(array))?;
        Ok(NodeMetadata::Array(array))
    } else {
        let group = GroupMetadataV2::from_members_in(alloc, numbers, members)?;
        Ok(NodeMetadata::Group(GroupMetadata::V2(group)))
    }
}

/// The number at `zarr_format`, where there is one.
fn zarr_format(members: &Map<String, Value>) -> Option<u64>
    ensures { result ≡ option_and_then as_u64 (option_and_then as_number
        (get (codes "zarr_format") (object (members_view members.now.entries)))) }
{
    member(members, "zarr_format").and_then(Value::as_u64)
}

/// The text at `node_type`, where there is one.
fn node_type(members: &Map<String, Value>) -> Option<&str>
    ensures { option_map (λ text. text.now) result ≡ option_and_then as_str
        (get (codes "node_type") (object (members_view members.now.entries))) }
{
    member(members, "node_type").and_then(Value::as_str)
}
