//! What each call writes, and its status: of folders that a test makes, of an image, and of wrong words.
use crate::asserts::{assert_ran, assert_text};
use crate::runs::{ARRAY, CHECK, Full, GROUP, image_of};
use crate::words::words_of;
use log::sink::{Discard, Writer};
use log::{Level, Logged};
use std::alloc::{AllocError, Global};
use std::io::{ErrorKind, Write};
use std::process::Abort;
use std::{fs, io};
use zarrs_cli::{
    Host, Tally, USAGE, Word, ZarrsFault, answer, load_image, run_of_folder, run_store,
};

// A group whose block has a group that the store has not.
const STALE: &str =
    r#"{"consolidated_metadata":{"kind":"inline","metadata":{"b":{"node_type":"group","zarr_format":3}},"must_understand":false},"node_type":"group","zarr_format":3}"#;

// The image of that group.
const IMAGE: &str =
    r#"{"a/zarr.json":"{\"consolidated_metadata\":{\"kind\":\"inline\",\"metadata\":{\"b\":{\"node_type\":\"group\",\"zarr_format\":3}},\"must_understand\":false},\"node_type\":\"group\",\"zarr_format\":3}","zarr.json":"{\"node_type\":\"group\",\"zarr_format\":3}"}"#;

const REPORT: &str = "/a/b: stale: the block of /a has it, and the store has not\n";

const REPORT_JSON: &str =
    "[{\"block\":\"/a\",\"key\":null,\"kind\":\"stale\",\"path\":\"/a/b\",\"text\":\"stale: the block of /a has it, and the store has not\"}]\n";

// Makes a folder with files at paths below it.
pub(crate) fn make_folder(
    rt: &HostRuntime,
    folder: &str,
    files: &[(&str, &str)],
) -> io::Result<()> {
    let _ = fs::remove_dir_all(rt, folder);
    fs::create_dir_all(rt, folder)?;
    for (path, bytes) in files {
        let path = format!(in rt.alloc(); "{folder}/{path}")?;
        if let Some((parent, _)) = path.as_str().rsplit_once('/') {
            fs::create_dir_all(rt, parent)?;
        }
        fs::write(rt, path.as_str(), *bytes)?;
    }
    Ok(())
}

// What goes to the standard error, warnings first, and the status, where this is the standard output.
fn run_to<W: Write>(
    rt: &HostRuntime,
    texts: &[&str],
    output: &mut W,
) -> Result<(String, u8), AllocError> {
    let alloc = rt.alloc();
    let words = words_of(alloc, texts)?;
    let sink = Writer::new(Vec::new(alloc));
    let mut errors = Vec::new(alloc);
    let mut reader = IMAGE.as_bytes();
    let host = Host {
        rt: &Logged::new(rt, Level::Warn, &sink),
        files: rt,
        is_watched: false,
    };
    let ending = answer(&host, &words, &mut reader, output, &mut errors);
    let mut said = sink.into_inner();
    said.extend_from_slice(&errors)?;
    if ending.said.is_err() {
        said.extend_from_slice(b"and not said\n")?;
    }
    Ok((String::from_utf8_lossy(alloc, &said)?, ending.status))
}

// What goes to the standard output, what to the standard error, warnings first, and the status.
pub(crate) fn run(rt: &HostRuntime, texts: &[&str]) -> Result<(String, String, u8), AllocError> {
    let mut output = Vec::new(rt.alloc());
    let (said, status) = run_to(rt, texts, &mut output)?;
    Ok((String::from_utf8_lossy(rt.alloc(), &output)?, said, status))
}

// Asserts what calls write, and their statuses.
fn assert_calls<R: Abort>(tests: &R, rt: &HostRuntime, rows: &[(&[&str], &str, &str, u8)]) {
    for (texts, output, errors, status) in rows {
        let ran = run(rt, texts).expect(tests, "memory");
        assert_ran(tests, errors, &ran, output, errors, *status);
    }
}

// The folder of a test.
const FOLDER: &str = "answers_of_a_folder";

const IGNORED: &str =
    "[WARN  zarrs_node::children] Object at /a/c is not recognized as a component of a Zarr hierarchy. Ignoring.\n";

const IGNORED_IN_CHECK: &str =
    "[WARN  zarrs_check::survey] Object at /a/c is not recognized as a component of a Zarr hierarchy. Ignoring.\nzarrs: 3 nodes, 1 finding\n";

const IGNORED_BELOW: &str =
    "[WARN  zarrs_check::survey] Object at /a/c is not recognized as a component of a Zarr hierarchy. Ignoring.\nzarrs: 1 node, 1 finding\n";

// Makes the folder of a test: groups, one of them with a block that is stale, an array and chunks.
fn make_store(rt: &HostRuntime) -> io::Result<()> {
    let files = [
        ("zarr.json", GROUP),
        ("a/zarr.json", STALE),
        ("a/c/0", "5byte"),
        ("t/zarr.json", ARRAY),
        ("t/c/0/0", "chunk"),
    ];
    make_folder(rt, FOLDER, &files)
}

// Words about the folder, and what is written and answered.
const OF_FOLDER: &[(&[&str], &str, &str, u8)] = &[
    (
        &["tree", FOLDER],
        "/\n  a\n  t [10, 10] float32\n",
        IGNORED,
        0,
    ),
    (
        &["tree", FOLDER, "/"],
        "/\n  a\n  t [10, 10] float32\n",
        IGNORED,
        0,
    ),
    (&["tree", FOLDER, "/a"], "/a\n  b\n", "", 0),
    (&["tree", "--store", FOLDER, "/a"], "/a\n", IGNORED, 0),
    (&["tree", FOLDER, "/t"], "/t [10, 10] float32\n", "", 0),
    (
        &["tree", "--store", FOLDER, "/t"],
        "/t [10, 10] float32\n",
        "",
        0,
    ),
    (
        &["tree", FOLDER, "/x"],
        "",
        "zarrs: there is no node at /x in answers_of_a_folder\n",
        2,
    ),
    (
        &["tree", "--store", FOLDER, "/x"],
        "",
        "zarrs: there is no node at /x in answers_of_a_folder\n",
        2,
    ),
    (&["list", FOLDER], "/\n/a\n/t\n", IGNORED, 0),
    (&["list", FOLDER, "/a"], "/a\n", IGNORED, 0),
    (&["list", FOLDER, "/t"], "/t\n", "", 0),
    (
        &["list", FOLDER, "/x"],
        "",
        "zarrs: there is no node at /x in answers_of_a_folder\n",
        2,
    ),
    (
        &["list", FOLDER, "x"],
        "",
        "zarrs: there is no node at /x in answers_of_a_folder\n",
        2,
    ),
    (&["list", FOLDER, "a"], "/a\n", IGNORED, 0),
    (&["list", FOLDER, ""], "/\n/a\n/t\n", IGNORED, 0),
    (&["tree", FOLDER, "t"], "/t [10, 10] float32\n", "", 0),
    (
        &["list", FOLDER, "a/"],
        "",
        "zarrs: invalid node path /a/ (a path is / or names with a slash before each; none is empty, of periods only, or begins with __)\n",
        2,
    ),
    (
        &["list", FOLDER, "."],
        "",
        "zarrs: invalid node path /. (a path is / or names with a slash before each; none is empty, of periods only, or begins with __)\n",
        2,
    ),
    (&["check", FOLDER], REPORT, IGNORED_IN_CHECK, 1),
    (&["check", FOLDER, "/a"], REPORT, IGNORED_BELOW, 1),
    (
        &["check", FOLDER, "/a/b"],
        "/a/b: Metadata is missing for /a/b\n/a/b: stale: the block of /a has it, and the store has not\n",
        "zarrs: 0 nodes, 2 findings\n",
        1,
    ),
    (&["check", FOLDER, "a"], REPORT, IGNORED_BELOW, 1),
    (
        &["list", "answers_of_a_folder/zarr.json"],
        "",
        "zarrs: answers_of_a_folder/zarr.json is a file, and a store is a folder\n",
        2,
    ),
    (
        &["check", "no/folder"],
        "",
        "zarrs: no/folder: No such file or directory\n",
        2,
    ),
];

#[test]
fn answers_of_a_folder(rt: HostRuntime) {
    make_store(&rt).expect(&rt, "a folder");
    assert_calls(&rt, &rt, OF_FOLDER);
    fs::remove_dir_all(&rt, FOLDER).expect(&rt, "a folder");
}

// Words about the image, or wrong ones, and what is written and answered.
const OF_IMAGE: &[(&[&str], &str, &str, u8)] = &[
    (&["tree", "-"], "/\n  a\n", "", 0),
    (&["tree", "-", "/a"], "/a\n  b\n", "", 0),
    (&["tree", "--store", "-", "/a"], "/a\n", "", 0),
    (&["list", "-"], "/\n/a\n", "", 0),
    (&["check", "-"], REPORT, "zarrs: 2 nodes, 1 finding\n", 1),
    (
        &["check", "-", "/a"],
        REPORT,
        "zarrs: 1 node, 1 finding\n",
        1,
    ),
    (
        &["check", "--notes", "-"],
        REPORT,
        "zarrs: 2 nodes, 1 finding, 0 notes\n",
        1,
    ),
    (
        &["check", "--json", "-", "/a"],
        REPORT_JSON,
        "zarrs: 1 node, 1 finding\n",
        1,
    ),
    (
        &["check", "--json", "--notes", "-"],
        REPORT_JSON,
        "zarrs: 2 nodes, 1 finding, 0 notes\n",
        1,
    ),
    (&["check", "-", "--notes"], "", USAGE, 2),
    (
        &["list", "-", "/x"],
        "",
        "zarrs: there is no node at /x in the image\n",
        2,
    ),
    (
        &["list", "-", "/x\n\u{1b}"],
        "",
        "zarrs: there is no node at /x\\n\\u001b in the image\n",
        2,
    ),
    (&["tree", "-", "a"], "/a\n  b\n", "", 0),
    (
        &["tree", "-", "a//b"],
        "",
        "zarrs: invalid node path /a//b (a path is / or names with a slash before each; none is empty, of periods only, or begins with __)\n",
        2,
    ),
    (
        &["list", "-", "x"],
        "",
        "zarrs: there is no node at /x in the image\n",
        2,
    ),
    (
        &["check", "-", "/a/"],
        "",
        "zarrs: invalid node path /a/ (a path is / or names with a slash before each; none is empty, of periods only, or begins with __)\n",
        2,
    ),
    (
        &["show", "-", "/__a"],
        "",
        "zarrs: invalid node path /__a (a path is / or names with a slash before each; none is empty, of periods only, or begins with __)\n",
        2,
    ),
    (&["--help"], USAGE, "", 0),
    (&["--version"], "zarrs 0.23.13\n", "", 0),
    (&[], "", USAGE, 2),
    (&["tree"], "", USAGE, 2),
    (&["tree", "--store"], "", USAGE, 2),
    (&["list", "-", "/", "/"], "", USAGE, 2),
    (&["shrub", "-"], "", USAGE, 2),
    (&["--help", "-"], "", USAGE, 2),
    (&["-"], "", USAGE, 2),
];

#[test]
fn answers_of_an_image_and_of_wrong_words(rt: HostRuntime) {
    assert_calls(&rt, &rt, OF_IMAGE);
}

// The folder of a test.
const UNREAD: &str = "what_is_said_where_the_output_is_not_taken";

// A call of each kind, the last of which writes the block back.
const OF_EACH_KIND: &[&[&str]] = &[
    &["--help"],
    &["--version"],
    &["tree", "-"],
    &["tree", UNREAD],
    &["list", UNREAD],
    &["show", UNREAD],
    &["check", UNREAD],
    &["consolidate", "--dry-run", UNREAD],
    &["consolidate", UNREAD],
];

// Asserts what is said of each, where this keeps the output from being taken.
fn assert_unwritten<R: Abort>(tests: &R, rt: &HostRuntime, kind: ErrorKind, wanted: &str) {
    let files = [("zarr.json", STALE), ("t/zarr.json", ARRAY)];
    make_folder(rt, UNREAD, &files).expect(tests, "a folder");
    for texts in OF_EACH_KIND {
        let (said, status) = run_to(rt, texts, &mut Full(kind)).expect(tests, "memory");
        assert_text(tests, texts[0], said.as_str(), wanted);
        assert_eq!(tests; status, 2);
    }
    let ran = run(rt, &["consolidate", UNREAD]).expect(tests, "memory");
    let current = "zarr.json is current: the block of 1 node\n";
    assert_ran(tests, "written before", &ran, current, "", 0);
    fs::remove_dir_all(rt, UNREAD).expect(tests, "a folder");
}

#[test]
fn an_output_that_is_not_taken_is_told_unless_nobody_reads(rt: HostRuntime) {
    assert_unwritten(&rt, &rt, ErrorKind::StorageFull, "zarrs: write fault\n");
    assert_unwritten(&rt, &rt, ErrorKind::BrokenPipe, "");
}

// The folder of a test.
const OUTER: &str = "a_store_a_level_below_is_named";

// Words about that folder, and what is written and answered.
const OF_OUTER: &[(&[&str], &str, &str, u8)] = &[
    (
        &["tree", OUTER],
        "",
        "zarrs: there is no node at / in a_store_a_level_below_is_named (a store stands at a_store_a_level_below_is_named/data.zarr)\n",
        2,
    ),
    (
        &["list", "a_store_a_level_below_is_named/"],
        "",
        "zarrs: there is no node at / in a_store_a_level_below_is_named/ (a store stands at a_store_a_level_below_is_named/data.zarr)\n",
        2,
    ),
    (
        &["list", OUTER, "/deep"],
        "",
        "zarrs: there is no node at /deep in a_store_a_level_below_is_named (a store stands at a_store_a_level_below_is_named/deep/inner)\n",
        2,
    ),
    (
        &["tree", OUTER, "/empty.zarr"],
        "",
        "zarrs: there is no node at /empty.zarr in a_store_a_level_below_is_named\n",
        2,
    ),
    (
        &["tree", OUTER, "/nowhere"],
        "",
        "zarrs: there is no node at /nowhere in a_store_a_level_below_is_named\n",
        2,
    ),
];

#[test]
fn a_store_a_level_below_is_named(rt: HostRuntime) {
    let files = [
        ("notes.txt", "x"),
        ("empty.zarr/.zattrs", "{}"),
        ("data.zarr/zarr.json", GROUP),
        ("other.zarr/.zgroup", r#"{"zarr_format":2}"#),
        ("deep/inner/zarr.json", GROUP),
    ];
    make_folder(&rt, OUTER, &files).expect(&rt, "a folder");
    assert_calls(&rt, &rt, OF_OUTER);
    fs::remove_dir_all(&rt, OUTER).expect(&rt, "a folder");
}

// The folder of a test.
const RESERVED: &str = "a_tree_by_a_block_with_a_reserved_name";

// A group whose block has an array with a name that no node has, as xarray writes one without a name.
const RESERVED_BLOCK: &str =
    r#"{"consolidated_metadata":{"kind":"inline","metadata":{"__xarray_dataarray_variable__":{"chunk_grid":{"configuration":{"chunk_shape":[10,10]},"name":"regular"},"chunk_key_encoding":"default","codecs":["bytes"],"data_type":"float32","fill_value":0,"node_type":"array","shape":[10,10],"zarr_format":3}},"must_understand":false},"node_type":"group","zarr_format":3}"#;

// The warnings of a listing there.
const PASSED_OVER: &str =
    "[WARN  zarrs_folder::disk] a_tree_by_a_block_with_a_reserved_name/__xarray_dataarray_variable__ was passed over: its name begins with __, so no listing shows it, and no block gets it\n[WARN  zarrs_node::children] Object at /other is not recognized as a component of a Zarr hierarchy. Ignoring.\n";

// Words about that folder, and what is written and answered.
const OF_RESERVED: &[(&[&str], &str, &str, u8)] = &[
    (
        &["tree", RESERVED],
        "",
        "zarrs: invalid node path invalid node name `__xarray_dataarray_variable__` in '__xarray_dataarray_variable__' (a key of the block of /; zarrs tree --store goes by the store)\n",
        2,
    ),
    (
        &["tree", "--store", RESERVED, "/t"],
        "/t [10, 10] float32\n",
        "",
        0,
    ),
    (&["list", RESERVED], "/\n/t\n", PASSED_OVER, 0),
    (
        &["tree", RESERVED, "/other/g"],
        "",
        "zarrs: invalid node path /other/g/...\n",
        2,
    ),
    (
        &["consolidate", "--dry-run", RESERVED, "/other"],
        "",
        "[WARN  zarrs_folder::disk] a_tree_by_a_block_with_a_reserved_name/other/__h was passed over: its name begins with __, so no listing shows it, and no block gets it\nzarrs: there is no node at /other in a_tree_by_a_block_with_a_reserved_name (a store stands at a_tree_by_a_block_with_a_reserved_name/other/g)\n",
        2,
    ),
];

#[test]
fn a_tree_by_a_block_with_a_reserved_name_is_refused_with_the_way_out(rt: HostRuntime) {
    let files = [
        ("zarr.json", RESERVED_BLOCK),
        ("__xarray_dataarray_variable__/zarr.json", ARRAY),
        ("t/zarr.json", ARRAY),
        ("other/g/zarr.json", GROUP),
        ("other/__h/zarr.json", GROUP),
        ("other/g/.../0", ""),
    ];
    make_folder(&rt, RESERVED, &files).expect(&rt, "a folder");
    assert_calls(&rt, &rt, OF_RESERVED);
    fs::remove_dir_all(&rt, RESERVED).expect(&rt, "a folder");
}

// The entries of a block: a group that stands there, an array with other metadata, and groups below an array, below a bad document, below no
// document, and nowhere.
const BLOCK_ABOVE: &str =
    r#""a":{"node_type":"group","zarr_format":3},"a/b":{"node_type":"group","zarr_format":3},"a/b/c":{"node_type":"group","zarr_format":3},"bad":{"node_type":"group","zarr_format":3},"bad/below":{"node_type":"group","zarr_format":3},"none":{"node_type":"group","zarr_format":3},"none/inner":{"node_type":"group","zarr_format":3},"none/old":{"node_type":"group","zarr_format":3},"x":{"node_type":"group","zarr_format":3},"x/y":{"node_type":"group","zarr_format":3}"#;

// What was written, and how the run ended, as one text.
fn ended_text(
    outcome: &Result<Option<Tally>, ZarrsFault>,
    alloc: Global,
    output: &[u8],
) -> Result<String, AllocError> {
    let text = String::from_utf8_lossy(alloc, output)?;
    format!(in alloc; "{text}{outcome:?}")
}

// What a word writes of a store from a path on, and why it is refused.
fn of_store(alloc: Global, image: &str, word: Word, path: &str) -> Option<String> {
    let store = load_image(alloc, &mut image.as_bytes()).ok()?;
    let mut output = Vec::new(alloc);
    let outcome = run_store(&Discard, alloc, word, path, &store, &mut output);
    ended_text(&outcome, alloc, &output).ok()
}

// The same of the store as a folder.
fn of_folder(alloc: Global, image: &str, word: Word, path: &str) -> Option<String> {
    let mut store = load_image(alloc, &mut image.as_bytes()).ok()?;
    let folder = &mut store.inner;
    let mut output = Vec::new(alloc);
    let outcome = run_of_folder(&Discard, alloc, word, path, folder, &mut output);
    ended_text(&outcome, alloc, &output).ok()
}

// Asserts that each word says the same of a store and of it as a folder, from a path on.
fn assert_same<R: Abort + AllocGlobal>(rt: &R, image: &str, path: &str) {
    for word in [Word::Tree, Word::StoreTree, Word::List, CHECK] {
        let whole = of_store(rt.alloc(), image, word, path).expect(rt, "an answer");
        let asked = of_folder(rt.alloc(), image, word, path).expect(rt, "an answer");
        assert_text(rt, path, asked.as_str(), whole.as_str());
    }
}

#[test]
fn a_folder_has_the_answers_of_the_whole_store(rt: HostRuntime) {
    let documents = [
        ("a/zarr.json", GROUP),
        ("a/b/zarr.json", ARRAY),
        ("a/b/c/zarr.json", GROUP),
        ("a/b/c/0/0", "chunk"),
        ("bad/zarr.json", "x"),
        ("bad/below/zarr.json", GROUP),
        ("named/zarr.json", GROUP),
        ("named/../x", ""),
        ("none/inner/zarr.json", GROUP),
        ("__x/zarr.json", GROUP),
        ("v/.zgroup", r#"{"zarr_format":2}"#),
        ("v/.zmetadata", "{}"),
    ];
    let blocks = [("zarr.json", BLOCK_ABOVE)];
    let image = image_of(rt.alloc(), &documents, &blocks).expect(&rt, "memory");
    let paths = [
        "/",
        "/a",
        "/a/b",
        "/a/b/c",
        "/bad",
        "/bad/below",
        "/named",
        "/none",
        "/none/inner",
        "/none/old",
        "/v",
        "/x",
        "/x/y",
        "x",
    ];
    for path in paths {
        assert_same(&rt, image.as_str(), path);
    }
}

#[test]
fn a_folder_with_nothing_amiss_but_a_bad_document_has_what_stands_below_it(rt: HostRuntime) {
    let documents = [
        ("zarr.json", GROUP),
        ("bad/zarr.json", "x"),
        ("bad/below/zarr.json", GROUP),
    ];
    let image = image_of(rt.alloc(), &documents, &[]).expect(&rt, "memory");
    assert_same(&rt, image.as_str(), "/");
}

#[test]
fn a_folder_with_nothing_amiss_but_entries_without_nodes_has_what_stands_at_them(rt: HostRuntime) {
    let documents = [
        ("a/zarr.json", GROUP),
        ("a/b/zarr.json", ARRAY),
        ("a/b/c/zarr.json", GROUP),
    ];
    let blocks = [("zarr.json", BLOCK_ABOVE)];
    let image = image_of(rt.alloc(), &documents, &blocks).expect(&rt, "memory");
    assert_same(&rt, image.as_str(), "/");
}
