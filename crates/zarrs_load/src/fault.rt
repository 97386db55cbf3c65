//! Why no store is loaded.
ghost use Rattle.std.specs.Prelude.{◌≡◌, Some};
ghost use Rattle.zarrs_load.specs.FaultTexts.{load_fault_text};
ghost use Rattle.zarrs_load.specs.declared.fault.LoadFault.TheVariants.{OutOfMemory};

use std::alloc::{AllocError, AllocFailed};
use std::error::Error;
use std::fmt;

/// Why no store is loaded.
///
/// <https://zarr-specs.readthedocs.io/en/latest/v3/core/index.html#abstract-store-interface>
#[derive(Debug, Drop)]
pub enum LoadFault {
    /// The reader failed.
    Read,
    /// The input did not end within the bound on reads.
    ReadTooLong,
    /// The image is no JSON object.
    Image,
    /// A member's name is no store key.
    ImageKey(String),
    /// The member with this name is no text.
    ImageValue(String),
    /// A folder was not read.
    Folder,
    /// Memory was wanting.
    OutOfMemory,
}

impl fmt::Display for LoadFault {
    ghost output = { λ fault. Some (load_fault_text fault) };

    /// Writes the fault's text.
    fn fmt<W: fmt::Write>(&self, f: &mut fmt::Formatter<W>) -> fmt::Result {
        match self {
            LoadFault::Read => f.write_str("read fault"),
            LoadFault::ReadTooLong => f.write_str("input too long"),
            LoadFault::Image => f.write_str("image is not a JSON object"),
            LoadFault::ImageKey(name) => write!(f, "bad store key in image: {name}"),
            LoadFault::ImageValue(name) => write!(f, "no text in image at {name}"),
            LoadFault::Folder => f.write_str("folder fault"),
            LoadFault::OutOfMemory => f.write_str("out of memory"),
        }
    }
}

impl Error for LoadFault {}

// By hand, since a clause names the variant.
impl From<AllocError> for LoadFault {
    ghost from_gives = { λ _ fault. fault ≡ OutOfMemory };

    fn from(_error: AllocError) -> LoadFault {
        LoadFault::OutOfMemory
    }
}

impl<T: Drop> From<AllocFailed<T>> for LoadFault {
    ghost from_gives = { λ _ fault. fault ≡ OutOfMemory };

    fn from(_error: AllocFailed<T>) -> LoadFault {
        LoadFault::OutOfMemory
    }
}
