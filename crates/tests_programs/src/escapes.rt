//! How each kind of character is written, in texts and in lines of each word.
use crate::asserts::{assert_ran, assert_text};
use crate::runs::{CHECK, run};
use crate::ticking::Ticking;
use log::warn;
use std::alloc::AllocError;
use zarrs_cli::{Warnings, Word, escaped, push_line};

// Texts, and how they are written.
const ESCAPES: &[(&str, &str)] = &[
    ("", ""),
    ("a b/c.d-\"é😀", "a b/c.d-\"é😀"),
    ("\\", "\\\\"),
    ("\\n", "\\\\n"),
    ("\n", "\\n"),
    ("\r\t", "\\r\\t"),
    ("\u{8}\u{c}", "\\b\\f"),
    ("\0\u{1}\u{b}\u{f}", "\\u0000\\u0001\\u000b\\u000f"),
    ("\u{10}\u{1b}[31m\u{1f}", "\\u0010\\u001b[31m\\u001f"),
    (" ~", " ~"),
    ("\u{7f}\u{80}\u{9b}\u{9f}", "\\u007f\\u0080\\u009b\\u009f"),
    ("\u{a0}\u{bf}\u{c2}", "\u{a0}\u{bf}\u{c2}"),
];

#[test]
fn control_characters_and_backslashes_are_written_as_json_writes_them(rt: HostRuntime) {
    let alloc = rt.alloc();
    for (text, wanted) in ESCAPES {
        let found = escaped(alloc, text).expect(&rt, "memory");
        assert_text(&rt, wanted, found.as_str(), wanted);
    }
}

#[test]
fn a_line_ends_once(rt: HostRuntime) {
    let mut text = String::new(rt.alloc());
    push_line(&mut text, "a\nb").expect(&rt, "memory");
    push_line(&mut text, "").expect(&rt, "memory");
    push_line(&mut text, "c").expect(&rt, "memory");
    assert_text(&rt, "lines", text.as_str(), "a\\nb\n\nc\n");
}

// What goes to the standard error of two warnings.
fn warned(rt: &HostRuntime, text: &str) -> Result<String, AllocError> {
    let ticking = Ticking::new(rt);
    let warnings = Warnings(&ticking);
    warn!(&warnings; "{text}");
    warn!(&warnings; "done");
    String::from_utf8_lossy(rt.alloc(), &ticking.into_said())
}

#[test]
fn a_warning_is_one_line_without_control_characters(rt: HostRuntime) {
    let found = warned(&rt, "a\u{1b}[31m\n\\b").expect(&rt, "memory");
    assert_text(
        &rt,
        "warnings",
        found.as_str(),
        "[WARN  tests_programs::escapes] a\\u001b[31m\\n\\\\b\n[WARN  tests_programs::escapes] done\n",
    );
}

// A group with an array whose name and data type would make lines and colour a terminal, and a block with a key that would.
const ODD: &str =
    r#"{"zarr.json":"{\"consolidated_metadata\":{\"kind\":\"inline\",\"metadata\":{\"a\\u001b[31m\\n\":{\"node_type\":\"group\",\"zarr_format\":3},\"b//\\u0085\\\\\":{\"node_type\":\"group\",\"zarr_format\":3}},\"must_understand\":false},\"node_type\":\"group\",\"zarr_format\":3}","a\u001b[31m\n/zarr.json":"{\"chunk_grid\":{\"configuration\":{\"chunk_shape\":[]},\"name\":\"regular\"},\"chunk_key_encoding\":{\"name\":\"default\"},\"codecs\":[\"bytes\"],\"data_type\":\"x\\n\\u009b\",\"fill_value\":0,\"node_type\":\"array\",\"shape\":[],\"zarr_format\":3}"}"#;

// Words and paths, and what is written and answered.
const ODD_WRITTEN: &[(Word, &str, &str, &str, u8)] = &[
    (
        Word::StoreTree,
        "/",
        "/\n  a\\u001b[31m\\n [] x\\n\\u009b\n",
        "",
        0,
    ),
    (Word::List, "/", "/\n/a\\u001b[31m\\n\n", "", 0),
    (
        Word::StoreTree,
        "/a\u{1b}[31m\n",
        "/a\\u001b[31m\\n [] x\\n\\u009b\n",
        "",
        0,
    ),
    (
        CHECK,
        "/",
        "/: bad key: the block of / has the key `b//\\u0085\\\\`\n/a\\u001b[31m\\n: differs: the block of / has other metadata than the store\n",
        "zarrs: 2 nodes, 2 findings\n",
        1,
    ),
    (
        Word::Tree,
        "/",
        "",
        "zarrs: invalid node path invalid node name `` in 'b//\\u0085\\\\'\n",
        2,
    ),
    (
        Word::List,
        "a\n\\",
        "",
        "zarrs: invalid node path a\\n\\\\\n",
        2,
    ),
];

#[test]
fn no_word_writes_a_control_character(rt: HostRuntime) {
    for (word, path, output, errors, status) in ODD_WRITTEN {
        let ran = run(rt.alloc(), *word, ODD, path).expect(&rt, "memory");
        assert_ran(&rt, output, &ran, output, errors, *status);
    }
}
