//! Questions with their answers, which only contracts see.
ghost use Rattle.std.specs.Prelude.{◌≡◌, List, [], ◌∷◌};
ghost use Rattle.std.specs.Borrow.{ftrue};

use std::marker::{Model, PhantomData};

// Questions of one kind, each with its answer, the last in front. No memory holds them, so a record takes none, and its calls do nothing when
// they run. What it has is what was noted: whether that is what was answered shows where it is noted.
#[derive(Drop)]
pub(crate) struct Record<A, B> {
    of: PhantomData<(A, B)>,
    pub ghost answers: { List (A × B) },
}

impl<A, B> Model for Record<A, B> {
    ghost also_owns = { λ _. ftrue };
}

impl<A, B> Record<A, B> {
    // The record without questions.
    pub(crate) fn new() -> Record<A, B>
        ensures { result.answers ≡ [] }
    {
        Record { of: PhantomData }
    }

    // The record with one question more, and its answer.
    pub(crate) fn with(&self, question: &A, answer: &B) -> Record<A, B>
        ensures { result.answers ≡ (question.now, answer.now) ∷ self.now.answers }
    {
        Record { of: PhantomData }
    }
}
