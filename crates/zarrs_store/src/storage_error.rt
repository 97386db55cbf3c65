ghost use Rattle.std.specs.Prelude.{◌≡◌, Some};
ghost use Rattle.zarrs_store.specs.ErrorTexts.{storage_error_text};
ghost use Rattle.zarrs_store.specs.declared.storage_error.StorageError.TheVariants.{OutOfMemory};

use crate::key::StoreKey;
use std::alloc::{AllocError, AllocFailed};
use std::error::Error;
use std::fmt;
use zarrs_fault::MetadataFault;

/// Why a call over a store was refused.
///
/// A store itself answers only `Fault`, and that only where it can fail, and `OutOfMemory`.
///
/// Source: `zarrs::storage::StorageError`.
/// <https://zarr-specs.readthedocs.io/en/latest/v3/core/index.html#abstract-store-interface>
#[derive(Debug, Drop)]
pub enum StorageError {
    /// The store failed.
    Fault,
    /// The document at this key is refused, for this reason.
    InvalidMetadata(StoreKey, MetadataFault),
    /// Anything else, in words.
    Other(String),
    /// Memory was asked for and refused.
    OutOfMemory,
}

impl fmt::Display for StorageError {
    ghost output = { λ error. Some (storage_error_text error) };

    /// Writes the error's text.
    fn fmt<W: fmt::Write>(&self, f: &mut fmt::Formatter<W>) -> fmt::Result {
        match self {
            StorageError::Fault => f.write_str("store fault"),
            StorageError::InvalidMetadata(key, fault) => {
                write!(f, "error parsing metadata for {key}: {fault}")
            }
            StorageError::Other(text) => f.write_str(text.as_str()),
            StorageError::OutOfMemory => f.write_str("out of memory"),
        }
    }
}

impl Error for StorageError {}

impl From<AllocError> for StorageError {
    ghost from_gives = { λ _ e. e ≡ OutOfMemory };

    /// Out of memory.
    fn from(_e: AllocError) -> StorageError {
        StorageError::OutOfMemory
    }
}

impl<T: Drop> From<AllocFailed<T>> for StorageError {
    ghost from_gives = { λ _ e. e ≡ OutOfMemory };

    /// Out of memory.
    fn from(_e: AllocFailed<T>) -> StorageError {
        StorageError::OutOfMemory
    }
}
