//! The path that a word names.
use crate::program::planned::assert_text;
use std::alloc::Global;
use zarrs_program::path_of;

// The text of the path; or the variant and the text of the refusal.
fn said(alloc: Global, text: &str) -> Option<String> {
    match path_of(alloc, text) {
        Ok(path) => String::from_str(alloc, path.as_str()).ok(),
        Err(error) => format!(in alloc; "{error:?}: {error}").ok(),
    }
}

// Words, and the paths that they name.
const WORDS: &[(&str, &str)] = &[
    ("/", "/"),
    ("/a", "/a"),
    ("/a/b", "/a/b"),
    ("", r#"NodePathError(Invalid("")): invalid node path "#),
    ("a", r#"NodePathError(Invalid("a")): invalid node path a"#),
    (
        "/a/",
        r#"NodePathError(Invalid("/a/")): invalid node path /a/"#,
    ),
    (
        "/a/..",
        r#"NodePathError(Invalid("/a/..")): invalid node path /a/.."#,
    ),
];

#[test]
fn a_word_names_a_path_or_is_refused(rt: HostRuntime) {
    for (text, wanted) in WORDS {
        let found = said(rt.alloc(), text).expect(&rt, "memory");
        assert_text(&rt, text, found.as_str(), wanted);
    }
}
