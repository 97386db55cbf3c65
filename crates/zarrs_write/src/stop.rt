//! Why a replacement or a removal stops, and the error that tells it.
ghost use Rattle.std.specs.Prelude.{◌≡◌, IfOk, string_bytes};
ghost use Rattle.zarrs_write.specs.ReplacingDocuments.{is_about_document, temporary, NamesFile};
ghost use Rattle.zarrs_write.specs.StepsOfReplacing.{TellsStop, TellsRemovalStop};

use crate::fault::{PlaceFault, ReplaceError, Step};
use std::alloc::{AllocError, Global};

// The names of a document and of its temporary file. They are there before anything is asked, so that an error can tell them.
#[derive(Drop)]
pub(crate) struct Names {
    pub(crate) document: String,
    pub(crate) temporary: String,
}

impl Names {
    // The names for a document with this name.
    pub(crate) fn of(alloc: Global, name: &str) -> Result<Names, AllocError>
        ensures document { IfOk result (λ names. string_bytes names.document ≡ name.now) }
        ensures temporary { IfOk result (λ names.
            string_bytes names.temporary ≡ temporary name.now) }
    {
        let document = String::from_str(alloc, name)?;
        let mut temporary = String::from_str(alloc, name)?;
        temporary.push_str(".zarrs_new")?;
        Ok(Names {
            document,
            temporary,
        })
    }
}

// Why a replacement or a removal stops: an error without its names.
#[derive(Drop)]
pub(crate) enum Stop {
    LeftOver,
    Changed,
    Failed(Step, PlaceFault),
    Unsettled(PlaceFault),
}

// The error that tells a stop, with the name that it is about.
pub(crate) fn named(stop: Stop, names: Names) -> ReplaceError
    ensures names { NamesFile result (string_bytes names.temporary) (string_bytes names.document) }
    ensures replaced { TellsStop result stop }
    ensures removed { TellsRemovalStop result stop }
{
    let Names {
        document,
        temporary,
    } = names;
    match stop {
        Stop::LeftOver => ReplaceError::LeftOver(temporary),
        Stop::Changed => ReplaceError::Changed(document),
        Stop::Unsettled(why) => ReplaceError::Unsettled {
            name: document,
            why,
        },
        Stop::Failed(_, PlaceFault::OutOfMemory) => ReplaceError::OutOfMemory,
        Stop::Failed(step, PlaceFault::Refused(why)) => ReplaceError::Failed {
            step,
            name: if is_about_document(step) {
                document
            } else {
                temporary
            },
            why,
        },
    }
}

// Whether a step is about the document, and not about its temporary file.
fn is_about_document(step: Step) -> bool
    ensures { result ≡ is_about_document step }
{
    matches!(step, Step::Reading | Step::ReadingAgain | Step::Removing)
}
