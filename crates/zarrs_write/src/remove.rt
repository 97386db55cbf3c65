//! A document, removed.
ghost use Rattle.std.specs.Prelude.{◌≡◌, ◌↔◌, None, IfOk, IfErr};
ghost use Rattle.zarrs_write.specs.Calls.{Adds, AddsSome};
ghost use Rattle.zarrs_write.specs.ReplacingDocuments.{bytes_in, temporary, NamesFile};
ghost use Rattle.zarrs_write.specs.RemovingDocuments.{asked_of_removal, IsRemovalBrokenOff};
ghost use Rattle.zarrs_write.specs.StepsOfReplacing.{IsRemovalStopped};

use crate::fault::{ReplaceError, Step};
use crate::place::Place;
use crate::reading::expect;
use crate::stop::{Names, Stop, named};
use std::alloc::Global;

/// How a removal ends well.
///
/// <https://pubs.opengroup.org/onlinepubs/9699919799/functions/unlink.html>
#[derive(Clone, Copy, Debug, PartialEq, Eq)]
pub enum Removed {
    /// There was no document.
    Absent,
    /// The document is removed.
    Gone,
}

/// Removes a document of a folder, of which it is told what it holds, nothing where there is none. At each point, and after a crash at each point, the
/// document stands at the name, whole, or none ([`crate::laws::removed_is_whole`]).
///
/// # Errors
/// `Changed` where something else stands at the name than what was told. `Failed` where it is not read or not removed. `Unsettled` where it is removed,
/// but the folder is not synced. `OutOfMemory` before that.
///
/// Source: own; POSIX.1-2017, `unlink`.
/// <https://pubs.opengroup.org/onlinepubs/9699919799/functions/unlink.html>
pub fn remove_document<P: Place>(
    alloc: Global,
    place: &mut P,
    name: &str,
    old: &Option<Vec<u8>>,
) -> Result<Removed, ReplaceError>
    ensures ok { IfOk result (λ done. Adds (P.calls place.old) (P.calls place.new)
        (asked_of_removal done (bytes_in old.now) name.now)) }
    ensures same { IfOk result (λ done.
        (done ≡ Removed.Absent) ↔ (bytes_in old.now ≡ None)) }
    ensures err { IfErr result (λ error. AddsSome (P.calls place.old) (P.calls place.new)
        (IsRemovalBrokenOff error (bytes_in old.now) name.now)) }
    ensures named { IfErr result (λ error. NamesFile error (temporary name.now) name.now) }
{
    let Ok(names) = Names::of(alloc, name) else {
        return Err(ReplaceError::OutOfMemory);
    };
    match take_away(alloc, place, name, old) {
        Ok(done) => Ok(done),
        Err(stop) => Err(named(stop, names)),
    }
}

// Removes the document, where there is one.
fn take_away<P: Place>(
    alloc: Global,
    place: &mut P,
    name: &str,
    old: &Option<Vec<u8>>,
) -> Result<Removed, Stop>
    ensures ok { IfOk result (λ done. Adds (P.calls place.old) (P.calls place.new)
        (asked_of_removal done (bytes_in old.now) name.now)) }
    ensures same { IfOk result (λ done.
        (done ≡ Removed.Absent) ↔ (bytes_in old.now ≡ None)) }
    ensures err { IfErr result (λ stop. AddsSome (P.calls place.old) (P.calls place.new)
        (IsRemovalStopped stop (bytes_in old.now) name.now)) }
{
    expect(alloc, place, name, old, Step::Reading)?;
    if old.is_none() {
        return Ok(Removed::Absent);
    }
    if let Err(why) = place.remove(name) {
        return Err(Stop::Failed(Step::Removing, why));
    }
    match place.settle() {
        Ok(()) => Ok(Removed::Gone),
        Err(why) => Err(Stop::Unsettled(why)),
    }
}
