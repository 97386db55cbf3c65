ghost use Rattle.std.specs.Prelude.{◌≡◌, Some};
ghost use Rattle.zarrs_fault.specs.FaultTexts.{fault_text};
ghost use Rattle.zarrs_fault.specs.declared.fault.MetadataFault.TheVariants.{OutOfMemory};

use std::alloc::{AllocError, AllocFailed};
use std::error::Error;
use std::fmt;
use std::marker::Model;

/// The name of a member of a metadata document.
///
/// Contracts see it as its text.
///
/// <https://www.rfc-editor.org/rfc/rfc8259#section-4>
#[derive(Debug, Drop)]
pub struct MemberName {
    text: &'static str,
}

impl Model for MemberName {
    ghost use Rattle.std.specs.Prelude.{ℕ, List};

    ghost Value = { List ℕ };

    ghost view = { λ a. a.text.now };
}

impl MemberName {
    /// The name with this text.
    pub fn new(text: &'static str) -> MemberName
        ensures { result ≡ text.now }
    {
        MemberName { text }
    }

    /// The text of the name.
    pub fn as_str(&self) -> &'static str
        ensures { result.now ≡ self.now }
    {
        self.text
    }
}

impl fmt::Display for MemberName {
    ghost output = { λ name. Some name };

    /// Writes the name's text.
    fn fmt<W: fmt::Write>(&self, f: &mut fmt::Formatter<W>) -> fmt::Result {
        fmt::Display::fmt(&self.as_str(), f)
    }
}

/// Why a metadata document was refused: the first of these that applies.
///
/// Source: Zarr core specification 3.1, "Array metadata" and "Group metadata"; in place of the parser's words of `zarrs`.
/// <https://zarr-specs.readthedocs.io/en/latest/v3/core/index.html#array-metadata>
/// <https://zarr-specs.readthedocs.io/en/latest/v3/core/index.html#group-metadata>
#[derive(Debug, Drop)]
pub enum MetadataFault {
    /// The bytes are no JSON text.
    NotJson,
    /// A number in it is neither `u64` nor `i64`.
    UnsupportedNumber,
    /// It is JSON, but no object.
    NotAnObject,
    /// The member `zarr_format` is absent or another number.
    WrongFormat,
    /// The member `node_type` is absent or another text.
    WrongNodeType,
    /// This member has to be there, and is absent.
    MissingMember(MemberName),
    /// This member is there, and is not of its form.
    BadMember(MemberName),
    /// Memory was asked for and refused.
    OutOfMemory,
}

impl fmt::Display for MetadataFault {
    ghost output = { λ fault. Some (fault_text fault) };

    /// Writes the fault's text.
    fn fmt<W: fmt::Write>(&self, f: &mut fmt::Formatter<W>) -> fmt::Result {
        match self {
            MetadataFault::NotJson => f.write_str("not JSON"),
            MetadataFault::UnsupportedNumber => f.write_str("unsupported number"),
            MetadataFault::NotAnObject => f.write_str("not an object"),
            MetadataFault::WrongFormat => f.write_str("wrong zarr_format"),
            MetadataFault::WrongNodeType => f.write_str("wrong node_type"),
            MetadataFault::MissingMember(name) => write!(f, "missing member {name}"),
            MetadataFault::BadMember(name) => write!(f, "bad member {name}"),
            MetadataFault::OutOfMemory => f.write_str("out of memory"),
        }
    }
}

impl Error for MetadataFault {}

impl From<AllocError> for MetadataFault {
    ghost from_gives = { λ _ fault. fault ≡ OutOfMemory };

    /// Out of memory.
    fn from(_error: AllocError) -> MetadataFault {
        MetadataFault::OutOfMemory
    }
}

impl<T: Drop> From<AllocFailed<T>> for MetadataFault {
    ghost from_gives = { λ _ fault. fault ≡ OutOfMemory };

    /// Out of memory.
    fn from(_error: AllocFailed<T>) -> MetadataFault {
        MetadataFault::OutOfMemory
    }
}
