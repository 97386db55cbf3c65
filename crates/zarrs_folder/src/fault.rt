//! Why a folder is not read.
ghost use Rattle.std.specs.Prelude.{◌≡◌, Some};
ghost use Rattle.zarrs_folder.specs.FaultTexts.{folder_fault_text};
ghost use Rattle.zarrs_folder.specs.declared.fault.FolderFault.TheVariants.{OutOfMemory};

use std::alloc::{AllocError, AllocFailed};
use std::error::Error;
use std::fmt;

/// Why a folder is not read.
///
/// <https://zarr-specs.readthedocs.io/en/latest/v3/core/index.html#storage-keys>
#[derive(Debug, Drop)]
pub enum FolderFault {
    /// A file or a folder was not read: its path, and the system's words.
    Unread {
        /// The path.
        path: String,
        /// The words.
        why: String,
    },
    /// No folder, but something else, stands at this path.
    NoFolder(String),
    /// Out of memory.
    OutOfMemory,
}

impl fmt::Display for FolderFault {
    ghost output = { λ fault. Some (folder_fault_text fault) };

    /// Writes the fault's text.
    fn fmt<W: fmt::Write>(&self, f: &mut fmt::Formatter<W>) -> fmt::Result {
        match self {
            FolderFault::Unread { path, why } => write!(f, "{path}: {why}"),
            FolderFault::NoFolder(path) => write!(f, "{path} is a file, and a store is a folder"),
            FolderFault::OutOfMemory => f.write_str("out of memory"),
        }
    }
}

impl Error for FolderFault {}

// By hand, since a clause names the variant.
impl From<AllocError> for FolderFault {
    ghost from_gives = { λ _ fault. fault ≡ OutOfMemory };

    fn from(_error: AllocError) -> FolderFault {
        FolderFault::OutOfMemory
    }
}

impl<T: Drop> From<AllocFailed<T>> for FolderFault {
    ghost from_gives = { λ _ fault. fault ≡ OutOfMemory };

    fn from(_error: AllocFailed<T>) -> FolderFault {
        FolderFault::OutOfMemory
    }
}
