//! Why a group was not made.
ghost use Rattle.std.specs.Prelude.{◌≡◌};
ghost use Rattle.zarrs_group.specs.OpeningGroups.{IsFromNode, IsTold};

use crate::unsupported::AdditionalFieldUnsupportedError;
use std::alloc::{AllocError, AllocFailed, Global};
use thiserror::Error;
use zarrs_meaning::NodeCreateError;
use zarrs_path::NodePathError;
use zarrs_store::{StorageError, StorePrefixError};

/// Why a group was not made.
///
/// Source: `zarrs::group::GroupCreateError`.
/// <https://docs.rs/zarrs/0.23.13/zarrs/group/enum.GroupCreateError.html>
#[derive(Debug, Drop, Error)]
pub enum GroupCreateError {
    /// A text is no path.
    #[error("{0}")]
    NodePathError(NodePathError),
    /// An additional field must be understood.
    #[error("{0}")]
    AdditionalFieldUnsupportedError(AdditionalFieldUnsupportedError),
    /// The store refused, or a document does not read.
    #[error("{0}")]
    StorageError(StorageError),
    /// No document of a group stands at the path.
    #[error("group metadata is missing")]
    MissingMetadata,
    /// Out of memory.
    #[error("out of memory")]
    OutOfMemory,
}

impl From<AllocError> for GroupCreateError {
    ghost use Rattle.zarrs_group.specs.declared.create_error.GroupCreateError.TheVariants.{OutOfMemory};

    ghost from_gives = { λ _ made. made ≡ OutOfMemory };

    fn from(_error: AllocError) -> GroupCreateError {
        GroupCreateError::OutOfMemory
    }
}

impl<T: Drop> From<AllocFailed<T>> for GroupCreateError {
    ghost use Rattle.zarrs_group.specs.declared.create_error.GroupCreateError.TheVariants.{OutOfMemory};

    ghost from_gives = { λ _ made. made ≡ OutOfMemory };

    fn from(_error: AllocFailed<T>) -> GroupCreateError {
        GroupCreateError::OutOfMemory
    }
}

impl From<NodePathError> for GroupCreateError {
    ghost use Rattle.zarrs_group.specs.declared.create_error.GroupCreateError.TheVariants.{NodePathError};

    ghost from_gives = { λ error made. made ≡ NodePathError error };

    fn from(error: NodePathError) -> GroupCreateError {
        GroupCreateError::NodePathError(error)
    }
}

impl From<StorageError> for GroupCreateError {
    ghost use Rattle.zarrs_group.specs.declared.create_error.GroupCreateError.TheVariants.{StorageError};

    ghost from_gives = { λ error made. made ≡ StorageError error };

    fn from(error: StorageError) -> GroupCreateError {
        GroupCreateError::StorageError(error)
    }
}

impl GroupCreateError {
    /// The refusal of a node as that of a group: a storage error is kept, out of memory stays out of memory, and
    /// any other is `StorageError::Other` with its text.
    ///
    /// Source: `From<NodeCreateError>` of `zarrs::group::GroupCreateError`.
    pub fn from_node_error(alloc: Global, error: NodeCreateError) -> GroupCreateError
        ensures { IsFromNode error result }
    {
        match error {
            NodeCreateError::StorageError(error) => GroupCreateError::StorageError(error),
            NodeCreateError::OutOfMemory
            | NodeCreateError::NodePathError(NodePathError::OutOfMemory)
            | NodeCreateError::StorePrefixError(StorePrefixError::OutOfMemory) => {
                GroupCreateError::OutOfMemory
            }
            other => told(alloc, &other),
        }
    }
}

// The error with the text of this one.
fn told(alloc: Global, error: &NodeCreateError) -> GroupCreateError
    ensures { IsTold result }
{
    match format!(in alloc; "{error}") {
        Ok(text) => GroupCreateError::StorageError(StorageError::Other(text)),
        Err(_) => GroupCreateError::OutOfMemory,
    }
}
