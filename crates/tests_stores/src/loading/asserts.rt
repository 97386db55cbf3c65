//! Assertions on a text. An assertion that stands in a test is proved there with the text that it would print, so the tests call this.

use std::process::Abort;

/// Asserts that a text is the wanted one. The case is named where the assertion fails.
pub(crate) fn assert_text<R: Abort>(rt: &R, case: &str, found: &str, wanted: &str) {
    assert_eq!(rt; found, wanted, "{case}");
}

/// Asserts that the warnings are one line with these words, or none where there are no words.
pub(crate) fn assert_warned<R: Abort>(rt: &R, warnings: &str, words: &str) {
    if words.is_empty() {
        assert_text(rt, "no warning", warnings, "");
        return;
    }
    let line = warnings.strip_suffix('\n').unwrap_or("no line");
    let found = line
        .strip_prefix("[WARN  zarrs_load::folder] ")
        .unwrap_or(line);
    assert_text(rt, "a warning", found, words);
}
