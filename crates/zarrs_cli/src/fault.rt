//! Why the program refuses.
ghost use Rattle.std.specs.Prelude.{◌≡◌, Some};
ghost use Rattle.zarrs_cli.specs.FaultTexts.{zarrs_fault_text};
ghost use Rattle.zarrs_cli.specs.declared.fault.ZarrsFault.TheVariants.{Consolidate, Folder, Load, Node, OutOfMemory, Replace};

use std::alloc::{AllocError, AllocFailed};
use std::error::Error;
use std::io::ErrorKind;
use std::{fmt, io};
use zarrs_consolidate::ConsolidateError;
use zarrs_folder::FolderFault;
use zarrs_load::LoadFault;
use zarrs_meaning::NodeCreateError;
use zarrs_program::WordsFault;
use zarrs_write::ReplaceError;

/// Why a run of the program is refused.
///
/// <https://zarr-specs.readthedocs.io/en/latest/v3/core/index.html#hierarchy>
#[derive(Debug, Drop)]
pub enum ZarrsFault {
    /// The words are no call's.
    Usage,
    /// The image was not loaded.
    Load(LoadFault),
    /// A folder or a file was not read.
    Folder(FolderFault),
    /// The path is none, or its nodes are refused, or the store failed.
    Node(NodeCreateError),
    /// The document that is shown would nest deeper than any that is read.
    TooDeep,
    /// It is not known what becomes of the block of the group at the path.
    Consolidate(ConsolidateError),
    /// The document that holds the block was not replaced or not removed.
    Replace(ReplaceError),
    /// The writer failed.
    Write,
    /// Nobody reads what is written any more, as where a pipe's reader has ended.
    Closed,
    /// Out of memory.
    OutOfMemory,
}

impl fmt::Display for ZarrsFault {
    ghost output = { λ fault. Some (zarrs_fault_text fault) };

    /// Writes the fault's text.
    fn fmt<W: fmt::Write>(&self, f: &mut fmt::Formatter<W>) -> fmt::Result {
        match self {
            ZarrsFault::Usage => f.write_str("wrong words"),
            ZarrsFault::Load(fault) => write!(f, "{fault}"),
            ZarrsFault::Folder(fault) => write!(f, "{fault}"),
            ZarrsFault::Node(error) => write!(f, "{error}"),
            ZarrsFault::TooDeep => {
                f.write_str("the document would nest deeper than any that is read")
            }
            ZarrsFault::Consolidate(error) => write!(f, "{error}"),
            ZarrsFault::Replace(error) => write!(f, "{error}"),
            ZarrsFault::Write => f.write_str("write fault"),
            ZarrsFault::Closed => f.write_str("nobody reads the output"),
            ZarrsFault::OutOfMemory => f.write_str("out of memory"),
        }
    }
}

impl Error for ZarrsFault {}

// By hand, since a clause names the variant.
impl From<AllocError> for ZarrsFault {
    ghost from_gives = { λ _ fault. fault ≡ OutOfMemory };

    fn from(_error: AllocError) -> ZarrsFault {
        ZarrsFault::OutOfMemory
    }
}

impl<T: Drop> From<AllocFailed<T>> for ZarrsFault {
    ghost from_gives = { λ _ fault. fault ≡ OutOfMemory };

    fn from(_error: AllocFailed<T>) -> ZarrsFault {
        ZarrsFault::OutOfMemory
    }
}

impl From<NodeCreateError> for ZarrsFault {
    ghost from_gives = { λ error fault. fault ≡ Node error };

    fn from(error: NodeCreateError) -> ZarrsFault {
        ZarrsFault::Node(error)
    }
}

impl From<LoadFault> for ZarrsFault {
    ghost from_gives = { λ error fault. fault ≡ Load error };

    fn from(error: LoadFault) -> ZarrsFault {
        ZarrsFault::Load(error)
    }
}

impl From<FolderFault> for ZarrsFault {
    ghost from_gives = { λ error fault. fault ≡ Folder error };

    fn from(error: FolderFault) -> ZarrsFault {
        ZarrsFault::Folder(error)
    }
}

impl From<ConsolidateError> for ZarrsFault {
    ghost from_gives = { λ error fault. fault ≡ Consolidate error };

    fn from(error: ConsolidateError) -> ZarrsFault {
        ZarrsFault::Consolidate(error)
    }
}

impl From<ReplaceError> for ZarrsFault {
    ghost from_gives = { λ error fault. fault ≡ Replace error };

    fn from(error: ReplaceError) -> ZarrsFault {
        ZarrsFault::Replace(error)
    }
}

// Of the writer of a run, which alone fails so.
impl From<io::Error> for ZarrsFault {
    ghost use Rattle.zarrs_cli.specs.Refusals.{IsWriterFault};

    ghost from_gives = { IsWriterFault };

    fn from(error: io::Error) -> ZarrsFault {
        match error.kind() {
            ErrorKind::BrokenPipe => ZarrsFault::Closed,
            _ => ZarrsFault::Write,
        }
    }
}

// Words that are not text are no call's.
impl From<WordsFault> for ZarrsFault {
    ghost use Rattle.zarrs_cli.specs.Refusals.{IsWordsFault};

    ghost from_gives = { IsWordsFault };

    fn from(error: WordsFault) -> ZarrsFault {
        match error {
            WordsFault::NotText => ZarrsFault::Usage,
            WordsFault::OutOfMemory => ZarrsFault::OutOfMemory,
        }
    }
}
