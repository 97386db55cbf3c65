//! The trees and the lists of stores, by blocks and by the store, row by row.
use crate::asserts::assert_ran;
use crate::runs::{ARRAY, GROUP, image_of, run};
use std::process::Abort;
use zarrs_cli::Word;

const GROUP_V2: &str = r#"{"zarr_format":2}"#;

const ARRAY_V2: &str =
    r#"{"chunks":[2],"compressor":null,"dtype":"<f8","fill_value":0.0,"filters":null,"order":"C","shape":[4],"zarr_format":2}"#;

// Entries of a block: a group with an array below it, and a group that hangs from no group.
const ENTRIES: &str =
    r#""g":{"node_type":"group","zarr_format":3},"g/t":{"chunk_grid":{"configuration":{"chunk_shape":[1]},"name":"regular"},"chunk_key_encoding":{"name":"default"},"codecs":["bytes"],"data_type":"int8","fill_value":0,"node_type":"array","shape":[7],"zarr_format":3},"x/y":{"node_type":"group","zarr_format":3}"#;

// Asserts what a word writes of a path in an image of these documents and of groups with blocks of these entries.
fn assert_shown<R: Abort + AllocGlobal>(
    rt: &R,
    store: &(&[(&str, &str)], &[(&str, &str)]),
    rows: &[(Word, &str, &str, &str)],
) {
    let image = image_of(rt.alloc(), store.0, store.1).expect(rt, "memory");
    for (word, path, output, errors) in rows {
        let ran = run(rt.alloc(), *word, image.as_str(), path).expect(rt, "memory");
        let status = if errors.is_empty() { 0 } else { 2 };
        assert_ran(rt, output, &ran, output, errors, status);
    }
}

// Documents at their keys.
const NODES: &[(&str, &str)] = &[
    ("zarr.json", GROUP),
    ("a/zarr.json", GROUP),
    ("a/b/zarr.json", ARRAY),
    ("a/b/c/zarr.json", GROUP),
    ("a-b/zarr.json", GROUP),
    ("v/.zgroup", GROUP_V2),
    ("v/w/.zarray", ARRAY_V2),
];

// Words, paths, and what is written.
const NODES_SHOWN: &[(Word, &str, &str, &str)] = &[
    (
        Word::Tree,
        "/",
        "/\n  a\n    b [10, 10] float32\n  a-b\n  v\n    w [4] Simple(\"<f8\")\n",
        "",
    ),
    (Word::List, "/", "/\n/a\n/a/b\n/a-b\n/v\n/v/w\n", ""),
    (Word::Tree, "/a", "/a\n  b [10, 10] float32\n", ""),
    (Word::List, "/a", "/a\n/a/b\n", ""),
    (Word::Tree, "/a/b", "/a/b [10, 10] float32\n", ""),
    (Word::StoreTree, "/a/b", "/a/b [10, 10] float32\n", ""),
    (Word::List, "/a/b", "/a/b\n", ""),
    (Word::Tree, "/a-b", "/a-b\n", ""),
    (Word::List, "/a-b", "/a-b\n", ""),
    (Word::Tree, "/v/w", "/v/w [4] Simple(\"<f8\")\n", ""),
    (Word::Tree, "/x", "", "zarrs: Metadata is missing for /x\n"),
    (Word::List, "/x", "", "zarrs: Metadata is missing for /x\n"),
    (Word::Tree, "a", "", "zarrs: invalid node path a\n"),
    (Word::List, "/a/", "", "zarrs: invalid node path /a/\n"),
];

#[test]
fn nodes_at_and_below_a_path_are_shown(rt: HostRuntime) {
    assert_shown(&rt, &(NODES, &[]), NODES_SHOWN);
}

// Documents at their keys.
const BY_BLOCK: &[(&str, &str)] = &[("a/zarr.json", ARRAY), ("g/zarr.json", "x")];

// Words, paths, and what is written.
const BY_BLOCK_SHOWN: &[(Word, &str, &str, &str)] = &[
    (Word::Tree, "/", "/\n  g\n    t [7] int8\n    y\n", ""),
    (
        Word::StoreTree,
        "/",
        "",
        "zarrs: error parsing metadata for g/zarr.json: not JSON\n",
    ),
    (
        Word::List,
        "/",
        "",
        "zarrs: error parsing metadata for g/zarr.json: not JSON\n",
    ),
    (
        Word::Tree,
        "/g",
        "",
        "zarrs: error parsing metadata for g/zarr.json: not JSON\n",
    ),
    (Word::Tree, "/x", "", "zarrs: Metadata is missing for /x\n"),
    (Word::Tree, "/a", "/a [10, 10] float32\n", ""),
    (Word::List, "/a", "/a\n", ""),
];

#[test]
fn a_tree_is_by_the_block_where_there_is_one(rt: HostRuntime) {
    assert_shown(&rt, &(BY_BLOCK, &[("zarr.json", ENTRIES)]), BY_BLOCK_SHOWN);
}

// Documents at their keys.
const UNREAD: &[(&str, &str)] = &[
    (".zgroup", GROUP_V2),
    (".zmetadata", "{}"),
    ("t/.zarray", ARRAY_V2),
];

// Words, paths, and what is written.
const UNREAD_SHOWN: &[(Word, &str, &str, &str)] = &[
    (Word::Tree, "/", "/\n  t [4] Simple(\"<f8\")\n", ""),
    (Word::StoreTree, "/", "/\n  t [4] Simple(\"<f8\")\n", ""),
    (Word::List, "/", "/\n/t\n", ""),
];

#[test]
fn a_block_that_does_not_read_is_passed_over(rt: HostRuntime) {
    assert_shown(&rt, &(UNREAD, &[]), UNREAD_SHOWN);
}

// Documents at their keys.
const BAD: &[(&str, &str)] = &[
    ("zarr.json", GROUP),
    ("a/../x", ""),
    ("a/zarr.json", GROUP),
    ("b/zarr.json", GROUP_V2),
];

// Words, paths, and what is written.
const BAD_SHOWN: &[(Word, &str, &str, &str)] = &[
    (Word::Tree, "/a", "", "zarrs: invalid node path /a/..\n"),
    (Word::List, "/a", "", "zarrs: invalid node path /a/..\n"),
    (
        Word::Tree,
        "/b",
        "",
        "zarrs: Found V2 metadata in V3 key or vice-versa\n",
    ),
    (
        Word::List,
        "/b",
        "",
        "zarrs: Found V2 metadata in V3 key or vice-versa\n",
    ),
    (Word::List, "/", "", "zarrs: invalid node path /a/..\n"),
];

#[test]
fn what_is_bad_below_refuses_a_tree_and_a_list(rt: HostRuntime) {
    assert_shown(&rt, &(BAD, &[]), BAD_SHOWN);
}
