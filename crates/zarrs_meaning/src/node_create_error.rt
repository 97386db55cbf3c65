//! Why a node was not made.
ghost use Rattle.std.specs.Prelude.{◌≡◌, Some};
ghost use Rattle.zarrs_meaning.specs.ErrorTexts.{error_text};

use std::alloc::{AllocError, AllocFailed};
use std::error::Error;
use std::fmt;
use zarrs_path::NodePathError;
use zarrs_store::{StorageError, StorePrefixError};

/// Why a node was not made.
///
/// Source: `zarrs::node::NodeCreateError`.
/// <https://docs.rs/zarrs/0.23.13/zarrs/node/enum.NodeCreateError.html>
#[derive(Debug, Drop)]
pub enum NodeCreateError {
    /// A text is no path.
    NodePathError(NodePathError),
    /// A text is no prefix.
    StorePrefixError(StorePrefixError),
    /// The store refused, a document does not read, or a child's name is none.
    StorageError(StorageError),
    /// A document of version 2 stands where one of version 3 belongs.
    MetadataVersionMismatch,
    /// No document stands at a path, whose text this holds.
    MissingMetadata(String),
    /// Out of memory.
    OutOfMemory,
}

impl fmt::Display for NodeCreateError {
    ghost output = { λ error. Some (error_text error) };

    /// Writes the error's text.
    fn fmt<W: fmt::Write>(&self, f: &mut fmt::Formatter<W>) -> fmt::Result {
        match self {
            NodeCreateError::NodePathError(error) => write!(f, "{error}"),
            NodeCreateError::StorePrefixError(error) => write!(f, "{error}"),
            NodeCreateError::StorageError(error) => write!(f, "{error}"),
            NodeCreateError::MetadataVersionMismatch => {
                f.write_str("Found V2 metadata in V3 key or vice-versa")
            }
            NodeCreateError::MissingMetadata(path) => write!(f, "Metadata is missing for {path}"),
            NodeCreateError::OutOfMemory => f.write_str("out of memory"),
        }
    }
}

impl Error for NodeCreateError {}

impl From<NodePathError> for NodeCreateError {
    ghost use Rattle.zarrs_meaning.specs.declared.node_create_error.NodeCreateError.TheVariants.{NodePathError};

    ghost from_gives = { λ error made. made ≡ NodePathError error };

    fn from(error: NodePathError) -> NodeCreateError {
        NodeCreateError::NodePathError(error)
    }
}

impl From<StorePrefixError> for NodeCreateError {
    ghost use Rattle.zarrs_meaning.specs.declared.node_create_error.NodeCreateError.TheVariants.{StorePrefixError};

    ghost from_gives = { λ error made. made ≡ StorePrefixError error };

    fn from(error: StorePrefixError) -> NodeCreateError {
        NodeCreateError::StorePrefixError(error)
    }
}

impl From<StorageError> for NodeCreateError {
    ghost use Rattle.zarrs_meaning.specs.declared.node_create_error.NodeCreateError.TheVariants.{StorageError};

    ghost from_gives = { λ error made. made ≡ StorageError error };

    fn from(error: StorageError) -> NodeCreateError {
        NodeCreateError::StorageError(error)
    }
}

impl From<AllocError> for NodeCreateError {
    ghost use Rattle.zarrs_meaning.specs.declared.node_create_error.NodeCreateError.TheVariants.{OutOfMemory};

    ghost from_gives = { λ _ made. made ≡ OutOfMemory };

    fn from(_error: AllocError) -> NodeCreateError {
        NodeCreateError::OutOfMemory
    }
}

impl<T: Drop> From<AllocFailed<T>> for NodeCreateError {
    ghost use Rattle.zarrs_meaning.specs.declared.node_create_error.NodeCreateError.TheVariants.{OutOfMemory};

    ghost from_gives = { λ _ made. made ≡ OutOfMemory };

    fn from(_error: AllocFailed<T>) -> NodeCreateError {
        NodeCreateError::OutOfMemory
    }
}
