//! Why a document is not replaced or not removed.
ghost use Rattle.std.specs.Prelude.{◌≡◌, Some};
ghost use Rattle.zarrs_write.specs.FaultTexts.{place_fault_text, step_text, replace_error_text};
ghost use Rattle.zarrs_write.specs.declared.fault.PlaceFault.TheVariants.{OutOfMemory as NoMemory};
ghost use Rattle.zarrs_write.specs.declared.fault.ReplaceError.TheVariants.{OutOfMemory};

use std::alloc::{AllocError, AllocFailed};
use std::error::Error;
use std::fmt;

/// Why a call on a folder failed.
///
/// <https://pubs.opengroup.org/onlinepubs/9699919799/functions/V2_chap02.html#tag_15_03>
#[derive(Debug, Drop)]
pub enum PlaceFault {
    /// The system's words.
    Refused(String),
    /// Out of memory.
    OutOfMemory,
}

impl fmt::Display for PlaceFault {
    ghost output = { λ fault. Some (place_fault_text fault) };

    /// Writes the fault's text.
    fn fmt<W: fmt::Write>(&self, f: &mut fmt::Formatter<W>) -> fmt::Result {
        match self {
            PlaceFault::Refused(why) => f.write_str(why.as_str()),
            PlaceFault::OutOfMemory => f.write_str("out of memory"),
        }
    }
}

impl Error for PlaceFault {}

// By hand, since a clause names the variant.
impl From<AllocError> for PlaceFault {
    ghost from_gives = { λ _ fault. fault ≡ NoMemory };

    fn from(_error: AllocError) -> PlaceFault {
        PlaceFault::OutOfMemory
    }
}

impl<T: Drop> From<AllocFailed<T>> for PlaceFault {
    ghost from_gives = { λ _ fault. fault ≡ NoMemory };

    fn from(_error: AllocFailed<T>) -> PlaceFault {
        PlaceFault::OutOfMemory
    }
}

/// A step of a replacement or a removal, as an error names it.
///
/// <https://pubs.opengroup.org/onlinepubs/9699919799/functions/rename.html>
#[derive(Clone, Copy, Debug, PartialEq, Eq)]
pub enum Step {
    /// The document is read.
    Reading,
    /// The temporary file is made.
    Making,
    /// The temporary file gets the document's mode and owner.
    Keeping,
    /// The new bytes are written to the temporary file.
    Writing,
    /// The temporary file is synced.
    Syncing,
    /// The document is read again.
    ReadingAgain,
    /// The temporary file gets the document's name.
    Renaming,
    /// The document is removed.
    Removing,
}

impl fmt::Display for Step {
    ghost output = { λ step. Some (step_text step) };

    /// Writes what was not done with a file.
    fn fmt<W: fmt::Write>(&self, f: &mut fmt::Formatter<W>) -> fmt::Result {
        f.write_str(match self {
            Step::Reading => "was not read",
            Step::Making => "was not made",
            Step::Keeping => "was not given the document's mode and owner",
            Step::Writing => "was not written",
            Step::Syncing => "was not synced",
            Step::ReadingAgain => "was not read again",
            Step::Renaming => "was not renamed",
            Step::Removing => "was not removed",
        })
    }
}

/// Why a document is not replaced or not removed.
///
/// <https://pubs.opengroup.org/onlinepubs/9699919799/functions/rename.html>
#[derive(Debug, Drop)]
pub enum ReplaceError {
    /// A temporary file with this name stands in the folder already.
    LeftOver(String),
    /// Something else stands at this name than what was read.
    Changed(String),
    /// A step failed, before which the document is as it was.
    Failed {
        /// The step.
        step: Step,
        /// The name of the file.
        name: String,
        /// The system's words.
        why: String,
    },
    /// The document is replaced or removed, and the folder was not synced: a crash may bring the old document back.
    Unsettled {
        /// The name of the document.
        name: String,
        /// Why it was not synced.
        why: PlaceFault,
    },
    /// Out of memory.
    OutOfMemory,
}

impl fmt::Display for ReplaceError {
    ghost output = { λ error. Some (replace_error_text error) };

    /// Writes the error's text.
    fn fmt<W: fmt::Write>(&self, f: &mut fmt::Formatter<W>) -> fmt::Result {
        match self {
            ReplaceError::LeftOver(name) => {
                write!(
                    f,
                    "{name} is left over from a run that was broken off: remove it"
                )
            }
            ReplaceError::Changed(name) => write!(f, "{name} was changed meanwhile"),
            ReplaceError::Failed { step, name, why } => write!(f, "{name} {step}: {why}"),
            ReplaceError::Unsettled { name, why } => {
                write!(f, "{name}: done, but the folder was not synced: {why}")
            }
            ReplaceError::OutOfMemory => f.write_str("out of memory"),
        }
    }
}

impl Error for ReplaceError {}

// By hand, since a clause names the variant.
impl From<AllocError> for ReplaceError {
    ghost from_gives = { λ _ error. error ≡ OutOfMemory };

    fn from(_error: AllocError) -> ReplaceError {
        ReplaceError::OutOfMemory
    }
}
