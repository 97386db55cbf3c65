//! What was found beside what is wanted. An assertion that stands in a test is proved there with the text that it would print, so the tests
//! hand on what these answer.

use std::alloc::AllocError;
use std::test::Fail;

/// Asks whether a text is the one that is wanted.
pub(crate) fn is_same(found: Result<String, AllocError>, wanted: &str) -> Result<(), Fail> {
    let found = found?;
    if found.as_str() == wanted {
        Ok(())
    } else {
        Err(Fail::new(format_args!("found {found} in place of {wanted}")))
    }
}
