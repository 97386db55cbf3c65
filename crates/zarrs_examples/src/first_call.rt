//! The least that a caller writes: one call handed on, and what it promises.
ghost use Rattle.std.specs.Prelude.{◌≡◌, IfOk, IfErr};
ghost use Rattle.zarrs_meta.specs.Node.{is_group};
ghost use Rattle.zarrs_meta.specs.declared.node.NodeMetadata.{NodeMetadata};
ghost use Rattle.zarrs_meaning.specs.Meaning.{meaning, node};
ghost use Rattle.zarrs_meaning.specs.Refusals.{IsExcusedOr};
ghost use Rattle.zarrs_node.specs.OpeningNodes.{RefusesNode};

use std::alloc::Global;
use zarrs_config::MetadataRetrieveVersion;
use zarrs_meaning::NodeCreateError;
use zarrs_node::Node;
use zarrs_path::NodePath;
use zarrs_store::ReadableStorageTraits;

/// Whether the node at a path is a group.
///
/// # Errors
///
/// The refusals of `Node::get_metadata`.
///
/// Source: own; Zarr core specification 3.1, "Hierarchy".
pub fn is_group_at<S: ReadableStorageTraits>(
    alloc: Global,
    storage: &S,
    path: &NodePath,
    version: &MetadataRetrieveVersion,
) -> Result<bool, NodeCreateError>
    ensures group { IfOk result
        (λ answer. (m : NodeMetadata)
        × (meaning (S.contents storage.now) version.now path.now ≡ node m)
        × (answer ≡ is_group m)) }
    ensures refused { IfErr result
        (IsExcusedOr (S.can_fail storage.now)
        (RefusesNode (S.contents storage.now) version.now path.now)) }
{
    let metadata = Node::get_metadata(alloc, storage, path, version)?;
    Ok(metadata.is_group())
}
