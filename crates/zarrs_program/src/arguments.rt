//! The words of a run of a program.
ghost use Rattle.std.specs.Prelude.{◌≡◌, Some};
ghost use Rattle.zarrs_program.specs.FaultTexts.{words_fault_text};
ghost use Rattle.zarrs_program.specs.declared.arguments.WordsFault.TheVariants.{OutOfMemory};

use std::alloc::{AllocError, AllocFailed};
use std::env::Env;
use std::error::Error;
use std::io::ErrorKind;
use std::{env, fmt};

/// Why the words of a run were not read.
///
/// <https://www.rfc-editor.org/rfc/rfc3629#section-3>
#[derive(Debug, Drop)]
pub enum WordsFault {
    /// A word is not UTF-8.
    NotText,
    /// Out of memory.
    OutOfMemory,
}

impl fmt::Display for WordsFault {
    ghost output = { λ fault. Some (words_fault_text fault) };

    /// Writes the fault's text.
    fn fmt<W: fmt::Write>(&self, f: &mut fmt::Formatter<W>) -> fmt::Result {
        match self {
            WordsFault::NotText => f.write_str("a word is not UTF-8"),
            WordsFault::OutOfMemory => f.write_str("out of memory"),
        }
    }
}

impl Error for WordsFault {}

// By hand, with the variant that it gives.
impl From<AllocError> for WordsFault {
    ghost from_gives = { λ _ fault. fault ≡ OutOfMemory };

    fn from(_error: AllocError) -> WordsFault {
        WordsFault::OutOfMemory
    }
}

impl<T: Drop> From<AllocFailed<T>> for WordsFault {
    ghost from_gives = { λ _ fault. fault ≡ OutOfMemory };

    fn from(_error: AllocFailed<T>) -> WordsFault {
        WordsFault::OutOfMemory
    }
}

/// The words after the program's name.
///
/// # Errors
/// `NotText` where one, also the name, is not UTF-8; `OutOfMemory`.
///
/// Source: own.
pub fn words<R: Env + AllocGlobal>(rt: &R) -> Result<Vec<String>, WordsFault> {
    match env::args(rt) {
        Ok(words) => Ok(words.skip(1).collect(rt.alloc())?),
        Err(e) if e.kind() == ErrorKind::OutOfMemory => Err(WordsFault::OutOfMemory),
        Err(_) => Err(WordsFault::NotText),
    }
}
