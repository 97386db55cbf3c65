//! The metadata of one node.
ghost use Rattle.std.specs.Prelude.{◌≡◌, IfOk, IfErr};
ghost use Rattle.zarrs_meaning.specs.Refusals.{IsExcusedOr};
ghost use Rattle.zarrs_meaning.specs.Meaning.{meaning, node};
ghost use Rattle.zarrs_node.specs.OpeningNodes.{RefusesNode};

use crate::node::Node;
use std::alloc::Global;
use zarrs_config::MetadataRetrieveVersion;
use zarrs_meaning::{NodeCreateError, metadata_at};
use zarrs_meta::NodeMetadata;
use zarrs_path::NodePath;
use zarrs_store::ReadableStorageTraits;

impl Node {
    /// The metadata of the node at a path, by the first of `zarr.json`, `.zarray` and `.zgroup` that is there and that the version admits;
    /// those of version 2 take their attributes from `.zattrs` where it is there.
    ///
    /// # Errors
    ///
    /// - `MissingMetadata` with the path's text where there is none of these documents.
    /// - `StorageError::InvalidMetadata` where a document does not read, with its key and the fault.
    /// - `MetadataVersionMismatch` where a document of version 2 stands at `zarr.json`.
    /// - `StorageError::Fault` of a store that can fail, and `OutOfMemory` when out of memory.
    ///
    /// Source: `zarrs::node::Node::get_metadata`.
    pub fn get_metadata<S: ReadableStorageTraits>(
        alloc: Global,
        storage: &S,
        path: &NodePath,
        version: &MetadataRetrieveVersion,
    ) -> Result<NodeMetadata, NodeCreateError>
        ensures ok { IfOk result
            (λ metadata. meaning (S.contents storage.now) version.now path.now ≡ node metadata) }
        ensures refused { IfErr result
            (IsExcusedOr (S.can_fail storage.now)
            (RefusesNode (S.contents storage.now) version.now path.now)) }
    {
        let found = metadata_at(alloc, storage, path, version);
        match found? {
            Some(metadata) => Ok(metadata),
            None => {
                let text = String::from_str(alloc, path.as_str())?;
                Err(NodeCreateError::MissingMetadata(text))
            }
        }
    }
}
