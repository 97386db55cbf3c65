//! A document, replaced whole.
ghost use Rattle.std.specs.Prelude.{◌≡◌, ◌↔◌, ◌∷◌, [], Some, IfOk, IfErr, OnOk};
ghost use Rattle.zarrs_write.specs.Calls.{did, Adds, AddsSome, found, kept, wrote, synced, renamed};
ghost use Rattle.zarrs_write.specs.ReplacingDocuments.{bytes_in, temporary, asked_for, IsBrokenOff, NamesFile};
ghost use Rattle.zarrs_write.specs.StepsOfReplacing.{IsStopped, IsUnfilled};

use crate::fault::{ReplaceError, Step};
use crate::place::Place;
use crate::reading::{expect, holds};
use crate::stop::{Names, Stop, named};
use std::alloc::Global;

/// How a replacement ends well.
///
/// <https://pubs.opengroup.org/onlinepubs/9699919799/functions/rename.html>
#[derive(Clone, Copy, Debug, PartialEq, Eq)]
pub enum Replaced {
    /// The document holds the bytes already: nothing was written.
    Unchanged,
    /// The document holds the bytes now.
    Written,
}

/// Replaces a document of a folder, of which it is told what it holds, nothing where there is none yet. The bytes are written to a temporary file
/// beside it, `NAME.zarrs_new`, which is synced and then gets the document's name. So at each point, and after a crash at each point, the old document
/// stands at the name, or the new one, whole ([`crate::laws::replaced_is_whole`]). Nothing is written where the document holds the bytes already.
///
/// The document is read at first, and again before the renaming. What another program writes to it between these two is lost.
///
/// # Errors
/// `Changed` where something else stands at the name than what was told. `LeftOver` where the temporary file stands there already: it is left as it
/// is. `Failed` where a step fails. Once it was made, the temporary file is removed again, as far as that can be done. `Unsettled` where the document
/// is replaced, but the folder is not synced. `OutOfMemory` before that.
///
/// Source: own; POSIX.1-2017, `rename`.
/// <https://pubs.opengroup.org/onlinepubs/9699919799/functions/rename.html>
pub fn replace_document<P: Place>(
    alloc: Global,
    place: &mut P,
    name: &str,
    old: &Option<Vec<u8>>,
    bytes: &[u8],
) -> Result<Replaced, ReplaceError>
    ensures ok { IfOk result (λ done. Adds (P.calls place.old) (P.calls place.new)
        (asked_for done (bytes_in old.now) (temporary name.now) name.now bytes.now)) }
    ensures same { IfOk result (λ done.
        (done ≡ Replaced.Unchanged) ↔ (bytes_in old.now ≡ Some bytes.now)) }
    ensures err { IfErr result (λ error. AddsSome (P.calls place.old) (P.calls place.new)
        (IsBrokenOff error (bytes_in old.now) (temporary name.now) name.now bytes.now)) }
    ensures named { IfErr result (λ error. NamesFile error (temporary name.now) name.now) }
{
    let Ok(names) = Names::of(alloc, name) else {
        return Err(ReplaceError::OutOfMemory);
    };
    match carry_out(alloc, place, name, names.temporary.as_str(), old, bytes) {
        Ok(done) => Ok(done),
        Err(stop) => Err(named(stop, names)),
    }
}

// Replaces the document by way of the temporary file.
fn carry_out<P: Place>(
    alloc: Global,
    place: &mut P,
    name: &str,
    beside: &str,
    old: &Option<Vec<u8>>,
    bytes: &[u8],
) -> Result<Replaced, Stop>
    ensures ok { IfOk result (λ done. Adds (P.calls place.old) (P.calls place.new)
        (asked_for done (bytes_in old.now) beside.now name.now bytes.now)) }
    ensures same { IfOk result (λ done.
        (done ≡ Replaced.Unchanged) ↔ (bytes_in old.now ≡ Some bytes.now)) }
    ensures err { IfErr result (λ stop. AddsSome (P.calls place.old) (P.calls place.new)
        (IsStopped stop (bytes_in old.now) beside.now name.now bytes.now)) }
{
    expect(alloc, place, name, old, Step::Reading)?;
    if holds(old, bytes) {
        return Ok(Replaced::Unchanged);
    }
    match place.create(beside) {
        Ok(true) => {}
        Ok(false) => return Err(Stop::LeftOver),
        Err(why) => return Err(Stop::Failed(Step::Making, why)),
    }
    if let Err(stop) = fill(alloc, place, name, beside, old, bytes) {
        let _ = place.remove(beside);
        return Err(stop);
    }
    match place.settle() {
        Ok(()) => Ok(Replaced::Written),
        Err(why) => Err(Stop::Unsettled(why)),
    }
}

// Writes the temporary file, and gives it the document's name.
fn fill<P: Place>(
    alloc: Global,
    place: &mut P,
    name: &str,
    beside: &str,
    old: &Option<Vec<u8>>,
    bytes: &[u8],
) -> Result<(), Stop>
    ensures ok { OnOk result (Adds (P.calls place.old) (P.calls place.new)
        (did (kept name.now) ∷ did (wrote bytes.now) ∷ did synced
        ∷ did (found name.now (bytes_in old.now)) ∷ did (renamed beside.now name.now) ∷ [])) }
    ensures err { IfErr result (λ stop. AddsSome (P.calls place.old) (P.calls place.new)
        (IsUnfilled stop (bytes_in old.now) beside.now name.now bytes.now)) }
{
    if let Err(why) = place.keep(name) {
        return Err(Stop::Failed(Step::Keeping, why));
    }
    if let Err(why) = place.write(bytes) {
        return Err(Stop::Failed(Step::Writing, why));
    }
    if let Err(why) = place.sync() {
        return Err(Stop::Failed(Step::Syncing, why));
    }
    expect(alloc, place, name, old, Step::ReadingAgain)?;
    match place.rename(beside, name) {
        Ok(()) => Ok(()),
        Err(why) => Err(Stop::Failed(Step::Renaming, why)),
    }
}
