//! Calls that were asked, which only contracts see.
ghost use Rattle.std.specs.Prelude.{◌≡◌, List, [], ◌∷◌, ◌++◌};
ghost use Rattle.std.specs.Borrow.{ftrue};
ghost use Rattle.zarrs_write.specs.Calls.{Asked};
ghost use Rattle.zarrs_write.specs.StepsOfRecords.{asked_by};

use std::marker::{Model, PhantomData};

// The calls that were noted, in their order. No memory holds them, so a record takes none, and noting does nothing when it runs. That what was noted
// is what was done shows where it is noted.
#[derive(Drop)]
pub(crate) struct Record {
    marker: PhantomData<u8>,
    pub ghost asked: { List Asked },
}

impl Model for Record {
    ghost also_owns = { λ _. ftrue };
}

impl Record {
    // The record without calls.
    pub(crate) fn new() -> Record
        ensures { result.asked ≡ [] }
    {
        Record {
            marker: PhantomData,
        }
    }

    // Notes a call by its number, with 1 behind that where it was done; and a name or bytes, and another name or bytes.
    pub(crate) fn note(&mut self, _numbers: &[u64], _one: &[u8], _other: &[u8])
        ensures { self.new.asked
            ≡ self.old.asked ++ asked_by _numbers.now _one.now _other.now ∷ [] }
    {}
}
