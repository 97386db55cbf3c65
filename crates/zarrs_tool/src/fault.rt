//! Why the program refuses.
ghost use Rattle.std.specs.Prelude.{◌≡◌, Some};
ghost use Rattle.zarrs_tool.specs.FaultTexts.{tool_fault_text};
ghost use Rattle.zarrs_tool.specs.declared.fault.ToolFault.TheVariants.{Node, OutOfMemory, Write};

use std::alloc::{AllocError, AllocFailed};
use std::error::Error;
use std::fmt;
use zarrs_load::LoadFault;
use zarrs_meaning::NodeCreateError;
use zarrs_path::NodePath;
use zarrs_program::{WordsFault, WriteFault};

// How the program is called.
const USAGE: &str =
    "usage: zarrs_tool (children|list|tree|consolidate) PATH | folder DIR tree PATH";

/// Why a run of the program is refused.
///
/// <https://zarr-specs.readthedocs.io/en/latest/v3/core/index.html#hierarchy>
#[derive(Debug, Drop)]
pub enum ToolFault {
    /// The words are no command.
    Usage,
    /// The reader failed.
    Read,
    /// The input did not end within the bound on reads.
    ReadTooLong,
    /// The image is no JSON object.
    Image,
    /// A member's name is no store key.
    ImageKey(String),
    /// The member with this name is no text.
    ImageValue(String),
    /// A folder was not read.
    Folder,
    /// The path is an array, and the command wants a group.
    NotAGroup,
    /// A node of a block, by its path, has a number with a fraction, and blocks are written in whole numbers.
    Fraction(NodePath),
    /// The path is none, or its nodes were not listed.
    Node(NodeCreateError),
    /// The writer failed.
    Write,
    /// Out of memory.
    OutOfMemory,
}

impl fmt::Display for ToolFault {
    ghost output = { λ fault. Some (tool_fault_text fault) };

    /// Writes the fault's text.
    fn fmt<W: fmt::Write>(&self, f: &mut fmt::Formatter<W>) -> fmt::Result {
        match self {
            ToolFault::Usage => f.write_str(USAGE),
            ToolFault::Read => f.write_str("read fault"),
            ToolFault::ReadTooLong => f.write_str("input too long"),
            ToolFault::Image => f.write_str("image is not a JSON object"),
            ToolFault::ImageKey(name) => write!(f, "bad store key in image: {name}"),
            ToolFault::ImageValue(name) => write!(f, "no text in image at {name}"),
            ToolFault::Folder => f.write_str("folder fault"),
            ToolFault::NotAGroup => f.write_str("not a group"),
            ToolFault::Fraction(path) => {
                write!(f, "{path} has an unsupported number, one with a fraction")
            }
            ToolFault::Node(error) => write!(f, "{error}"),
            ToolFault::Write => f.write_str("write fault"),
            ToolFault::OutOfMemory => f.write_str("out of memory"),
        }
    }
}

impl Error for ToolFault {}

// By hand, since a clause names the variant.
impl From<AllocError> for ToolFault {
    ghost from_gives = { λ _ fault. fault ≡ OutOfMemory };

    fn from(_error: AllocError) -> ToolFault {
        ToolFault::OutOfMemory
    }
}

impl<T: Drop> From<AllocFailed<T>> for ToolFault {
    ghost from_gives = { λ _ fault. fault ≡ OutOfMemory };

    fn from(_error: AllocFailed<T>) -> ToolFault {
        ToolFault::OutOfMemory
    }
}

impl From<NodeCreateError> for ToolFault {
    ghost from_gives = { λ error fault. fault ≡ Node error };

    fn from(error: NodeCreateError) -> ToolFault {
        ToolFault::Node(error)
    }
}

impl From<WriteFault> for ToolFault {
    ghost from_gives = { λ _ fault. fault ≡ Write };

    fn from(_error: WriteFault) -> ToolFault {
        ToolFault::Write
    }
}

// Words that are not text are no command.
impl From<WordsFault> for ToolFault {
    ghost use Rattle.zarrs_tool.specs.Refusals.{IsFaultOfWords};

    ghost from_gives = { IsFaultOfWords };

    fn from(error: WordsFault) -> ToolFault {
        match error {
            WordsFault::NotText => ToolFault::Usage,
            WordsFault::OutOfMemory => ToolFault::OutOfMemory,
        }
    }
}

impl From<LoadFault> for ToolFault {
    ghost use Rattle.zarrs_tool.specs.Refusals.{IsLoadFault};

    ghost from_gives = { λ error fault. IsLoadFault (λ e. e ≡ error) fault };

    fn from(error: LoadFault) -> ToolFault {
        match error {
            LoadFault::Read => ToolFault::Read,
            LoadFault::ReadTooLong => ToolFault::ReadTooLong,
            LoadFault::Image => ToolFault::Image,
            LoadFault::ImageKey(name) => ToolFault::ImageKey(name),
            LoadFault::ImageValue(name) => ToolFault::ImageValue(name),
            LoadFault::Folder => ToolFault::Folder,
            LoadFault::OutOfMemory => ToolFault::OutOfMemory,
        }
    }
}
