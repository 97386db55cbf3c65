//! Whether what stands at a name is what was told.
ghost use Rattle.std.specs.Prelude.{◌≡◌, ◌↔◌, ◌∷◌, [], Some, IfErr, OnOk, IsTrue};
ghost use Rattle.zarrs_write.specs.Calls.{did, Adds, AddsSome, found};
ghost use Rattle.zarrs_write.specs.ReplacingDocuments.{bytes_in};
ghost use Rattle.zarrs_write.specs.StepsOfReplacing.{IsUnexpected};

use crate::fault::Step;
use crate::place::Place;
use crate::stop::Stop;
use std::alloc::Global;

// Reads the document, which has to be the one that was told.
pub(crate) fn expect<P: Place>(
    alloc: Global,
    place: &mut P,
    name: &str,
    old: &Option<Vec<u8>>,
    step: Step,
) -> Result<(), Stop>
    ensures ok { OnOk result (Adds (P.calls place.old) (P.calls place.new)
        (did (found name.now (bytes_in old.now)) ∷ [])) }
    ensures err { IfErr result (λ stop. AddsSome (P.calls place.old) (P.calls place.new)
        (IsUnexpected stop step (bytes_in old.now) name.now)) }
{
    let document = match place.document(alloc, name) {
        Ok(document) => document,
        Err(why) => return Err(Stop::Failed(step, why)),
    };
    if is_same(&document, old) {
        Ok(())
    } else {
        Err(Stop::Changed)
    }
}

// Whether two documents hold the same bytes, or none is there.
fn is_same(one: &Option<Vec<u8>>, other: &Option<Vec<u8>>) -> bool
    ensures { IsTrue result ↔ (bytes_in one.now ≡ bytes_in other.now) }
{
    match (one, other) {
        (Some(one), Some(other)) => one.as_slice() == other.as_slice(),
        (None, None) => true,
        _ => false,
    }
}

// Whether a document holds these bytes.
pub(crate) fn holds(document: &Option<Vec<u8>>, bytes: &[u8]) -> bool
    ensures { IsTrue result ↔ (bytes_in document.now ≡ Some bytes.now) }
{
    match document {
        Some(held) => held.as_slice() == bytes,
        None => false,
    }
}
