//! Assertions on what a run writes. An assertion that stands in a test is proved there with the text that it would print, so the tests
//! call these.

use std::alloc::Global;
use std::process::Abort;
use zarrs_cli::{Tally, ZarrsFault};

/// Asserts that a text is the wanted one. The case is named where the assertion fails.
pub(crate) fn assert_text<R: Abort>(rt: &R, case: &str, found: &str, wanted: &str) {
    assert_eq!(rt; found, wanted, "{case}");
}

/// Asserts what a run wrote to the standard output and to the standard error, and its status.
pub(crate) fn assert_ran<R: Abort>(
    rt: &R,
    case: &str,
    ran: &(String, String, u8),
    output: &str,
    errors: &str,
    status: u8,
) {
    assert_text(rt, case, ran.0.as_str(), output);
    assert_text(rt, case, ran.1.as_str(), errors);
    assert_eq!(rt; ran.2, status, "{case}");
}

/// Asserts the variant and the text of what refuses a run.
pub(crate) fn assert_refused<R: Abort>(
    rt: &R,
    alloc: Global,
    outcome: &Result<Option<Tally>, ZarrsFault>,
    wanted: &str,
) {
    match outcome {
        Ok(_tally) => assert_text(rt, "a refusal", "none", wanted),
        Err(fault) => {
            let said = format!(in alloc; "{fault:?}: {fault}").expect(rt, "memory");
            assert_text(rt, "a refusal", said.as_str(), wanted);
        }
    }
}
