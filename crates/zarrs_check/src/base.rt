//! The base of a survey, and of a check.
ghost use Rattle.std.specs.Prelude.{◌≡◌, IfOk, IfErr};
ghost use Rattle.zarrs_meaning.specs.Refusals.{IsExcused};
ghost use Rattle.zarrs_check.specs.StepsOfSurveys.{is_of_node};
ghost use Rattle.zarrs_check.specs.Surveys.{IsBase};

use std::alloc::Global;
use zarrs_config::MetadataRetrieveVersion;
use zarrs_meaning::NodeCreateError;
use zarrs_meta::NodeMetadata;
use zarrs_node::Node;
use zarrs_path::NodePath;
use zarrs_store::{ReadableStorageTraits, StorageError};

/// What stands at the path where a survey or a check begins.
///
/// Source: own.
/// <https://zarr-specs.readthedocs.io/en/latest/v3/core/index.html#hierarchy>
#[derive(Debug, Drop)]
pub enum Base {
    /// A node, which has these metadata.
    Node(NodeMetadata),
    /// No node: it has no document, or a bad one.
    Refused(NodeCreateError),
}

// What stands at the base.
pub(crate) fn base_of<S: ReadableStorageTraits>(
    alloc: Global,
    storage: &S,
    path: &NodePath,
    version: &MetadataRetrieveVersion,
) -> Result<Base, NodeCreateError>
    ensures base { IfOk result (IsBase (S.contents storage.now) version.now path.now) }
    ensures excused { IfErr result (IsExcused (S.can_fail storage.now)) }
{
    match Node::get_metadata(alloc, storage, path, version) {
        Ok(metadata) => Ok(Base::Node(metadata)),
        Err(refusal) if is_of_node(&refusal) => Ok(Base::Refused(refusal)),
        Err(refusal) => Err(refusal),
    }
}

// Whether a refusal says something of the node: that there is none, or that its document is bad.
fn is_of_node(refusal: &NodeCreateError) -> bool
    ensures { result ≡ is_of_node refusal.now }
{
    matches!(
        refusal,
        NodeCreateError::MissingMetadata(_)
            | NodeCreateError::MetadataVersionMismatch
            | NodeCreateError::StorageError(StorageError::InvalidMetadata(_, _))
    )
}
