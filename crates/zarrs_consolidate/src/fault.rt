//! Why nothing becomes of a block.
ghost use Rattle.std.specs.Prelude.{◌≡◌, Some};
ghost use Rattle.zarrs_consolidate.specs.FaultTexts.{consolidate_error_text};
ghost use Rattle.zarrs_consolidate.specs.declared.fault.ConsolidateError.TheVariants.{Folder, Node, OutOfMemory};
ghost use Rattle.zarrs_meaning.specs.declared.node_create_error.NodeCreateError.TheVariants.{StorageError as StoreFault};

use std::alloc::{AllocError, AllocFailed};
use std::error::Error;
use std::fmt;
use zarrs_folder::FolderFault;
use zarrs_meaning::NodeCreateError;
use zarrs_store::StorageError;

/// Why it is not known what becomes of the block of a group.
///
/// <https://zarr-specs.readthedocs.io/en/latest/v3/core/index.html#group-metadata>
#[derive(Debug, Drop)]
pub enum ConsolidateError {
    /// A folder or a file was not read.
    Folder(FolderFault),
    /// There is no node at the path, or something at or below it is bad, or the store failed.
    Node(NodeCreateError),
    /// At this path stands an array, which has no block.
    NotAGroup(String),
    /// The group takes no such block: it is of version 2, and a node below it is of version 3.
    Block(NodeCreateError),
    /// The document would nest deeper than any that is read.
    TooDeep,
    /// Out of memory.
    OutOfMemory,
}

impl fmt::Display for ConsolidateError {
    ghost output = { λ error. Some (consolidate_error_text error) };

    /// Writes the error's text.
    fn fmt<W: fmt::Write>(&self, f: &mut fmt::Formatter<W>) -> fmt::Result {
        match self {
            ConsolidateError::Folder(fault) => write!(f, "{fault}"),
            ConsolidateError::Node(error) => write!(f, "{error}"),
            ConsolidateError::NotAGroup(path) => {
                write!(f, "{path} is an array, and only a group has a block")
            }
            ConsolidateError::Block(NodeCreateError::MetadataVersionMismatch) => {
                f.write_str("the block of a group of version 2 holds no node of version 3")
            }
            ConsolidateError::Block(error) => write!(f, "{error}"),
            ConsolidateError::TooDeep => {
                f.write_str("the document would nest deeper than any that is read")
            }
            ConsolidateError::OutOfMemory => f.write_str("out of memory"),
        }
    }
}

impl Error for ConsolidateError {}

// By hand, since a clause names the variant.
impl From<AllocError> for ConsolidateError {
    ghost from_gives = { λ _ error. error ≡ OutOfMemory };

    fn from(_error: AllocError) -> ConsolidateError {
        ConsolidateError::OutOfMemory
    }
}

impl<T: Drop> From<AllocFailed<T>> for ConsolidateError {
    ghost from_gives = { λ _ error. error ≡ OutOfMemory };

    fn from(_error: AllocFailed<T>) -> ConsolidateError {
        ConsolidateError::OutOfMemory
    }
}

impl From<FolderFault> for ConsolidateError {
    ghost from_gives = { λ fault error. error ≡ Folder fault };

    fn from(fault: FolderFault) -> ConsolidateError {
        ConsolidateError::Folder(fault)
    }
}

impl From<NodeCreateError> for ConsolidateError {
    ghost from_gives = { λ inner error. error ≡ Node inner };

    fn from(inner: NodeCreateError) -> ConsolidateError {
        ConsolidateError::Node(inner)
    }
}

impl From<StorageError> for ConsolidateError {
    ghost from_gives = { λ inner error. error ≡ Node (StoreFault inner) };

    fn from(inner: StorageError) -> ConsolidateError {
        ConsolidateError::Node(NodeCreateError::StorageError(inner))
    }
}
