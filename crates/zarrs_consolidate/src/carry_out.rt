//! A plan, carried out.
ghost use Rattle.std.specs.Prelude.{◌≡◌, ◌≢◌, ◌↔◌, IfOk, IfErr, IsTrue};
ghost use Rattle.zarrs_write.specs.Calls.{Adds, AddsSome};
ghost use Rattle.zarrs_write.specs.ReplacingDocuments.{bytes_in, temporary, NamesFile};
ghost use Rattle.zarrs_consolidate.specs.CarryingOut.{asked_of_plan, IsPlanBrokenOff};
ghost use Rattle.zarrs_consolidate.specs.StepsOfPlans.{outcome_of_replaced, outcome_of_removed};

use crate::plan::Plan;
use std::alloc::Global;
use zarrs_write::{Place, Removed, ReplaceError, Replaced, remove_document, replace_document};

/// How a plan that was carried out ends.
///
/// <https://pubs.opengroup.org/onlinepubs/9699919799/functions/rename.html>
#[derive(Clone, Copy, Debug, PartialEq, Eq)]
pub enum Outcome {
    /// What was to stand there stood there: nothing was written.
    Unchanged,
    /// The document was replaced or removed.
    Changed,
}

impl Plan {
    /// Whether something else is to stand there than what does.
    ///
    /// Source: own.
    pub fn is_change(&self) -> bool
        ensures { IsTrue result ↔ (bytes_in self.now.new ≢ bytes_in self.now.old) }
    {
        match (&self.old, &self.new) {
            (Some(old), Some(new)) => old.as_slice() != new.as_slice(),
            (None, None) => false,
            _ => true,
        }
    }

    /// Replaces or removes the document in the folder in which it stands, as [`replace_document`] and [`remove_document`] do: at each point, and after a
    /// crash at each point, the document holds what stood there or what is to stand there, whole ([`crate::laws::carried_out_is_whole`]).
    ///
    /// # Errors
    /// Those of [`replace_document`] and [`remove_document`].
    ///
    /// Source: own; POSIX.1-2017, `rename` and `unlink`.
    pub fn carry_out<P: Place>(&self, alloc: Global, place: &mut P) -> Result<Outcome, ReplaceError>
        ensures ok { IfOk result (λ done. Adds (P.calls place.old) (P.calls place.new)
            (asked_of_plan self.now done)) }
        ensures same { IfOk result (λ done.
            (done ≡ Outcome.Unchanged) ↔ (bytes_in self.now.new ≡ bytes_in self.now.old)) }
        ensures err { IfErr result (λ error. AddsSome (P.calls place.old) (P.calls place.new)
            (IsPlanBrokenOff error self.now)) }
        ensures named { IfErr result (λ error.
            NamesFile error (temporary self.now.name.now) self.now.name.now) }
    {
        match &self.new {
            Some(bytes) => {
                let done = replace_document(alloc, place, self.name, &self.old, bytes)?;
                Ok(outcome_by_replacing(done))
            }
            None => {
                let done = remove_document(alloc, place, self.name, &self.old)?;
                Ok(outcome_by_removing(done))
            }
        }
    }
}

// What a replacement changed.
fn outcome_by_replacing(done: Replaced) -> Outcome
    ensures { result ≡ outcome_of_replaced done }
{
    match done {
        Replaced::Unchanged => Outcome::Unchanged,
        Replaced::Written => Outcome::Changed,
    }
}

// What a removal changed.
fn outcome_by_removing(done: Removed) -> Outcome
    ensures { result ≡ outcome_of_removed done }
{
    match done {
        Removed::Absent => Outcome::Unchanged,
        Removed::Gone => Outcome::Changed,
    }
}
