//! What holds of every document's bytes. A function with an empty body does nothing, and its contract is the law.
ghost use Rattle.zarrs_form.specs.DocumentTexts.{WholeTextIsExact};

/// What is written of a value without a fraction is its pretty layout, byte by byte.
///
/// Source: RFC 8259.
#[tactic(auto, using(crate::proofs::DocumentTexts::whole_text_is_exact))]
pub fn whole_text_is_exact()
    ensures { WholeTextIsExact }
{}
