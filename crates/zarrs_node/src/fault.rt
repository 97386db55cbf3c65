//! What is bad on the way of a walk.
ghost use Rattle.std.specs.Prelude.{◌≡◌};
ghost use Rattle.zarrs_node.specs.StepsOfTheWalk.{fault_of};

use zarrs_meaning::NodeCreateError;
use zarrs_store::StorageError;

/// What is bad at a path on the way of a walk.
///
/// Source: own; what `zarrs::node::get_child_nodes` refuses.
/// <https://zarr-specs.readthedocs.io/en/latest/v3/core/index.html#hierarchy>
#[derive(Debug, Drop)]
pub enum NodeFault {
    /// The last name of the path is made of periods only, so that it is no name.
    Name,
    /// A document of the path does not read, or is of the other version.
    Document(NodeCreateError),
}

impl NodeFault {
    // What a refusal of a child says of it, or the refusal where it says nothing: out of memory, and a fault of the store.
    pub(crate) fn of(refusal: NodeCreateError) -> Result<NodeFault, NodeCreateError>
        ensures { result ≡ fault_of refusal }
    {
        match refusal {
            NodeCreateError::MetadataVersionMismatch => {
                Ok(NodeFault::Document(NodeCreateError::MetadataVersionMismatch))
            }
            NodeCreateError::StorageError(StorageError::InvalidMetadata(key, fault)) => {
                let error = StorageError::InvalidMetadata(key, fault);
                Ok(NodeFault::Document(NodeCreateError::StorageError(error)))
            }
            NodeCreateError::StorageError(StorageError::Other(_text)) => Ok(NodeFault::Name),
            other => Err(other),
        }
    }
}
