//! What the program answers, row by row, and readers and writers that fail.
use crate::asserts::{assert_ran, assert_refused, assert_text};
use log::sink::{Discard, Writer};
use std::alloc::{AllocError, Global};
use std::io;
use std::io::{Error, ErrorKind, Read, Write};
use std::process::Abort;
use std::test::Fail;
use tests_support::check_rows;
use zarrs_cli::{
    Answered, CheckOptions, Tally, Word, ZarrsFault, finish, load_image, run_of_image, run_store,
};
use zarrs_consolidate::ConsolidateError;
use zarrs_folder::FolderFault;
use zarrs_load::LoadFault;
use zarrs_meaning::NodeCreateError;
use zarrs_program::WordsFault;
use zarrs_write::ReplaceError;

// The word `check` without options.
pub(crate) const CHECK: Word = Word::Check(CheckOptions {
    notes: false,
    json: false,
});

pub(crate) const GROUP: &str = r#"{"node_type":"group","zarr_format":3}"#;

pub(crate) const ARRAY: &str =
    r#"{"chunk_grid":{"configuration":{"chunk_shape":[10,10]},"name":"regular"},"chunk_key_encoding":{"configuration":{"separator":"/"},"name":"default"},"codecs":[{"configuration":{"endian":"little"},"name":"bytes"}],"data_type":"float32","fill_value":0,"node_type":"array","shape":[10,10],"zarr_format":3}"#;

// An array of which nothing else is said.
const NO_SHAPE: &str = r#"{"node_type":"array","zarr_format":3}"#;

// Groups of version 2, without and with attributes.
const GROUP_V2: &str = r#"{"zarr_format":2}"#;

const ONE: &str = r#"{"k":1}"#;

const TWO: &str = r#"{"k":2}"#;

// Of version 2, the block of a group that has a group with the attributes `ONE`.
const BLOCK_V2: &str =
    r#"{"metadata":{".zgroup":{"zarr_format":2},"a/.zattrs":{"k":1},"a/.zgroup":{"zarr_format":2}},"zarr_consolidated_format":1}"#;

// The same, where the group itself has the attributes `ONE`.
const BLOCK_V2_OF_ONE: &str =
    r#"{"metadata":{".zattrs":{"k":1},".zgroup":{"zarr_format":2}},"zarr_consolidated_format":1}"#;

// The entries of blocks: an array, or groups.
const EMPTY: &str = "";

const A: &str = r#""a":{"node_type":"group","zarr_format":3}"#;

const A_AND_X: &str =
    r#""a":{"node_type":"group","zarr_format":3},"a/x":{"node_type":"group","zarr_format":3}"#;

const X: &str = r#""x":{"node_type":"group","zarr_format":3}"#;

const X_Y: &str = r#""x/y":{"node_type":"group","zarr_format":3}"#;

const OWN: &str = r#""":{"node_type":"group","zarr_format":3}"#;

const A_AND_B: &str =
    r#""a":{"node_type":"group","zarr_format":3},"a/b":{"node_type":"group","zarr_format":3}"#;

const BAD_KEY: &str = r#""a//b":{"node_type":"group","zarr_format":3}"#;

const SHADOWED: &str =
    r#""/a":{"node_type":"group","zarr_format":3},"a":{"node_type":"group","zarr_format":3}"#;

// Entries of which each is wrong in another way, where there are an array `d` and a group `c`.
const ALL: &str =
    r#""/b":{"node_type":"group","zarr_format":3},"a//b":{"node_type":"group","zarr_format":3},"b":{"node_type":"group","zarr_format":3},"d":{"node_type":"group","zarr_format":3},"e/f":{"node_type":"group","zarr_format":3}"#;

const BAD_BLOCK: &str =
    r#"{"consolidated_metadata":{"kind":1,"metadata":{},"must_understand":false},"node_type":"group","zarr_format":3}"#;

// A reader of one byte a read, which fails at one of them.
#[derive(Drop)]
struct OneByOne<'a> {
    rest: &'a [u8],
    reads_before_fault: Option<u32>,
}

impl Read for OneByOne<'_> {
    fn read(&mut self, buf: &mut [u8]) -> io::Result<usize> {
        match self.reads_before_fault {
            Some(0) => return Err(Error::from(ErrorKind::Other)),
            Some(n) => self.reads_before_fault = Some(n - 1),
            None => {}
        }
        let ([first, rest @ ..], [slot, ..]) = (self.rest, buf) else {
            return Ok(0);
        };
        *slot = *first;
        self.rest = rest;
        Ok(1)
    }
}

/// A writer that takes nothing, for a reason.
#[derive(Drop)]
pub(crate) struct Full(pub(crate) ErrorKind);

impl Write for Full {
    fn write(&mut self, _buf: &[u8]) -> io::Result<usize> {
        Err(Error::from(self.0))
    }

    fn flush(&mut self) -> io::Result<()> {
        Ok(())
    }
}

// A writer that takes all bytes, and cannot hand them on, for a reason.
#[derive(Drop)]
struct Unflushed(ErrorKind);

impl Write for Unflushed {
    fn write(&mut self, buf: &[u8]) -> io::Result<usize> {
        Ok(buf.len())
    }

    fn flush(&mut self) -> io::Result<()> {
        Err(Error::from(self.0))
    }
}

// How a run ends that looks at a store.
fn looked(outcome: Result<Option<Tally>, ZarrsFault>) -> Result<Answered, ZarrsFault> {
    outcome.map(Answered::Looked)
}

// What goes to the standard output and the standard error, and the status.
pub(crate) fn run(
    alloc: Global,
    word: Word,
    image: &str,
    path: &str,
) -> Result<(String, String, u8), AllocError> {
    let mut output = Vec::new(alloc);
    let mut errors = Vec::new(alloc);
    let mut reader = image.as_bytes();
    let outcome = run_of_image(&Discard, alloc, word, path, &mut reader, &mut output);
    let ending = finish(alloc, &looked(outcome), &None, &mut errors);
    Ok((
        String::from_utf8_lossy(alloc, &output)?,
        String::from_utf8_lossy(alloc, &errors)?,
        ending.status,
    ))
}

// Appends a member with a document as its text.
fn add_document(
    image: &mut String,
    alloc: Global,
    key: &str,
    document: &str,
) -> Result<(), AllocError> {
    let comma = if image.len() > 1 { "," } else { "" };
    let document = document.replace(alloc, "\"", "\\\"")?;
    write!(image, "{comma}\"{key}\":\"{document}\"")
}

// What stands in the document of a group before the entries of its block, and behind them.
const BEFORE_ENTRIES: &str = r#"{"consolidated_metadata":{"kind":"inline","metadata":{"#;

const BEHIND_ENTRIES: &str = r#"},"must_understand":false},"node_type":"group","zarr_format":3}"#;

// An image of documents at these keys, and of a group with a block of these entries at each of these.
pub(crate) fn image_of(
    alloc: Global,
    documents: &[(&str, &str)],
    blocks: &[(&str, &str)],
) -> Result<String, AllocError> {
    let mut image = String::from_str(alloc, "{")?;
    for (key, document) in documents {
        add_document(&mut image, alloc, key, document)?;
    }
    for (key, entries) in blocks {
        let group = format!(in alloc; "{BEFORE_ENTRIES}{entries}{BEHIND_ENTRIES}")?;
        add_document(&mut image, alloc, key, group.as_str())?;
    }
    image.push('}')?;
    Ok(image)
}

// What the program writes to both outputs, and its status.
#[derive(Clone, Copy)]
pub(crate) struct Wanted<'a> {
    pub(crate) output: &'a str,
    pub(crate) errors: &'a str,
    pub(crate) status: u8,
}

// Asserts what the program answers of a path in an image of these documents and of groups with blocks of these entries.
pub(crate) fn assert_answer<R: Abort + AllocGlobal>(
    rt: &R,
    documents: &[(&str, &str)],
    blocks: &[(&str, &str)],
    path: &str,
    wanted: Wanted<'_>,
) {
    let Wanted {
        output,
        errors,
        status,
    } = wanted;
    let image = image_of(rt.alloc(), documents, blocks).expect(rt, "memory");
    let ran = run(rt.alloc(), CHECK, image.as_str(), path).expect(rt, "memory");
    assert_ran(rt, output, &ran, output, errors, status);
}

// Documents at their keys, the entries of blocks at theirs, a path, and what the program answers of it.
struct Row<'a> {
    documents: &'a [(&'a str, &'a str)],
    blocks: &'a [(&'a str, &'a str)],
    path: &'a str,
    output: &'a str,
    errors: &'a str,
    status: u8,
}

// Asserts what the program answers, row by row.
fn assert_answers<R: Abort + AllocGlobal>(rt: &R, rows: &[Row<'_>]) {
    for row in rows {
        let wanted = Wanted {
            output: row.output,
            errors: row.errors,
            status: row.status,
        };
        assert_answer(rt, row.documents, row.blocks, row.path, wanted);
    }
}

// Documents and groups with blocks, a path, and what is told of it.
const FAULTS: &[Row] = &[
    Row {
        documents: &[("zarr.json", GROUP), ("a/zarr.json", GROUP)],
        blocks: &[],
        path: "/",
        output: "",
        errors: "zarrs: 2 nodes, 0 findings\n",
        status: 0,
    },
    Row {
        documents: &[("zarr.json", GROUP), ("a/zarr.json", NO_SHAPE)],
        blocks: &[],
        path: "/",
        output: "/a: error parsing metadata for a/zarr.json: missing member shape\n",
        errors: "zarrs: 1 node, 1 finding\n",
        status: 1,
    },
    Row {
        documents: &[("zarr.json", GROUP), ("a/zarr.json", GROUP), ("a/../x", "")],
        blocks: &[],
        path: "/",
        output: "/a/..: invalid node path /a/..\n",
        errors: "zarrs: 2 nodes, 1 finding\n",
        status: 1,
    },
    Row {
        documents: &[("zarr.json", GROUP)],
        blocks: &[],
        path: "/x",
        output: "/x: Metadata is missing for /x\n",
        errors: "zarrs: 0 nodes, 1 finding\n",
        status: 1,
    },
    Row {
        documents: &[("a/zarr.json", GROUP)],
        blocks: &[],
        path: "/",
        output: "/: Metadata is missing for /\n",
        errors: "zarrs: 1 node, 1 finding\n",
        status: 1,
    },
    Row {
        documents: &[
            ("zarr.json", "x"),
            ("a/zarr.json", "y"),
            ("a-b/zarr.json", "z"),
        ],
        blocks: &[],
        path: "/",
        output: "/: error parsing metadata for zarr.json: not JSON\n/a: error parsing metadata for a/zarr.json: not JSON\n/a-b: error parsing metadata for a-b/zarr.json: not JSON\n",
        errors: "zarrs: 0 nodes, 3 findings\n",
        status: 1,
    },
    Row {
        documents: &[
            ("zarr.json", ARRAY),
            ("a/zarr.json", GROUP),
            ("a/b/zarr.json", ARRAY),
            ("a/b/c/zarr.json", "x"),
        ],
        blocks: &[],
        path: "/",
        output: "",
        errors: "zarrs: 1 node, 0 findings\n",
        status: 0,
    },
];

#[test]
fn the_fault_of_a_path_is_told(rt: HostRuntime) {
    assert_answers(&rt, FAULTS);
}

// Blocks, and what is told of each kind.
const FINDINGS: &[Row] = &[
    Row {
        documents: &[("a/zarr.json", GROUP)],
        blocks: &[("zarr.json", A)],
        path: "/",
        output: "",
        errors: "zarrs: 2 nodes, 0 findings\n",
        status: 0,
    },
    Row {
        documents: &[],
        blocks: &[("zarr.json", A)],
        path: "/",
        output: "/a: stale: the block of / has it, and the store has not\n",
        errors: "zarrs: 1 node, 1 finding\n",
        status: 1,
    },
    Row {
        documents: &[("a/zarr.json", GROUP)],
        blocks: &[("zarr.json", EMPTY)],
        path: "/",
        output: "/a: missing: the block of / has no entry of it\n",
        errors: "zarrs: 2 nodes, 1 finding\n",
        status: 1,
    },
    Row {
        documents: &[("a/zarr.json", ARRAY)],
        blocks: &[("zarr.json", A)],
        path: "/",
        output: "/a: differs: the block of / has other metadata than the store\n",
        errors: "zarrs: 2 nodes, 1 finding\n",
        status: 1,
    },
    Row {
        documents: &[],
        blocks: &[("zarr.json", X_Y)],
        path: "/",
        output: "/x/y: stale: the block of / has it, and the store has not\n/x/y: unreachable: the block of / has no group above it\n",
        errors: "zarrs: 1 node, 2 findings\n",
        status: 1,
    },
    Row {
        documents: &[],
        blocks: &[("zarr.json", OWN)],
        path: "/",
        output: "/: own key: the block of / has the key ``, which is / itself\n",
        errors: "zarrs: 1 node, 1 finding\n",
        status: 1,
    },
    Row {
        documents: &[
            (".zgroup", GROUP_V2),
            (".zattrs", TWO),
            (".zmetadata", BLOCK_V2_OF_ONE),
        ],
        blocks: &[],
        path: "/",
        output: "/: differs: the block of / has other attributes of it than the store\n",
        errors: "zarrs: 1 node, 1 finding\n",
        status: 1,
    },
    Row {
        documents: &[("a/b/zarr.json", GROUP)],
        blocks: &[("zarr.json", A_AND_B)],
        path: "/",
        output: "/a: orphaned: it has no document, and 1 nodes below it are not reached\n/a: stale: the block of / has it, and the store has not\n/a/b: unreached: the block of / has it, and a listing does not reach it\n",
        errors: "zarrs: 1 node, 3 findings\n",
        status: 1,
    },
    Row {
        documents: &[("a/zarr.json", GROUP)],
        blocks: &[("zarr.json", SHADOWED)],
        path: "/",
        output: "/: shadowed: the block of / has the key `/a` beside `a`\n",
        errors: "zarrs: 2 nodes, 1 finding\n",
        status: 1,
    },
    Row {
        documents: &[],
        blocks: &[("zarr.json", BAD_KEY)],
        path: "/",
        output: "/: bad key: the block of / has the key `a//b`\n",
        errors: "zarrs: 1 node, 1 finding\n",
        status: 1,
    },
    Row {
        documents: &[("zarr.json", BAD_BLOCK)],
        blocks: &[],
        path: "/",
        output: "/: bad block: the block of / has the fault `bad member kind`\n",
        errors: "zarrs: 1 node, 1 finding\n",
        status: 1,
    },
];

#[test]
fn each_kind_of_finding_is_told(rt: HostRuntime) {
    assert_answers(&rt, FINDINGS);
}

// What there is to tell of these entries, where there are neither, as JSON.
const ALL_JSON: &str =
    "[{\"block\":\"/\",\"key\":\"/b\",\"kind\":\"shadowed\",\"path\":\"/\",\"text\":\"shadowed: the block of / has the key `/b` beside `b`\"},{\"block\":\"/\",\"key\":\"a//b\",\"kind\":\"bad-key\",\"path\":\"/\",\"text\":\"bad key: the block of / has the key `a//b`\"},{\"block\":\"/\",\"key\":null,\"kind\":\"stale\",\"path\":\"/b\",\"text\":\"stale: the block of / has it, and the store has not\"},{\"block\":null,\"key\":null,\"kind\":\"bad-document\",\"path\":\"/c\\u001b\",\"text\":\"error parsing metadata for c\\u001b/zarr.json: not JSON\"},{\"block\":\"/\",\"key\":null,\"kind\":\"stale\",\"path\":\"/d\",\"text\":\"stale: the block of / has it, and the store has not\"},{\"block\":\"/\",\"key\":null,\"kind\":\"stale\",\"path\":\"/e/f\",\"text\":\"stale: the block of / has it, and the store has not\"},{\"block\":\"/\",\"key\":null,\"kind\":\"unreachable\",\"path\":\"/e/f\",\"text\":\"unreachable: the block of / has no group above it\"}]\n";

// The word `check` whose report is JSON.
const CHECK_JSON: Word = Word::Check(CheckOptions {
    notes: false,
    json: true,
});

#[test]
fn what_is_told_is_json_too(rt: HostRuntime) {
    let alloc = rt.alloc();
    let documents = [("c\\u001b/zarr.json", "x")];
    let blocks = [("zarr.json", ALL)];
    let image = image_of(alloc, &documents, &blocks).expect(&rt, "memory");
    let ran = run(alloc, CHECK_JSON, image.as_str(), "/").expect(&rt, "memory");
    assert_ran(
        &rt,
        "findings",
        &ran,
        ALL_JSON,
        "zarrs: 1 node, 7 findings\n",
        1,
    );
    let ran = run(alloc, CHECK_JSON, r#"{"a/0":""}"#, "/").expect(&rt, "memory");
    let output =
        "[{\"block\":null,\"key\":null,\"kind\":\"no-node\",\"path\":\"/\",\"text\":\"Metadata is missing for /\"}]\n";
    assert_ran(&rt, "none", &ran, output, "zarrs: 0 nodes, 1 finding\n", 1);
    let image = image_of(alloc, &[("zarr.json", ARRAY)], &[]).expect(&rt, "memory");
    let ran = run(alloc, CHECK_JSON, image.as_str(), "/").expect(&rt, "memory");
    assert_ran(
        &rt,
        "an array",
        &ran,
        "[]\n",
        "zarrs: 1 node, 0 findings\n",
        0,
    );
}

// Blocks with several faults, and what is told of them in order.
const ORDERS: &[Row] = &[
    Row {
        documents: &[("c/zarr.json", GROUP), ("d/zarr.json", ARRAY)],
        blocks: &[("zarr.json", ALL)],
        path: "/",
        output: "/: shadowed: the block of / has the key `/b` beside `b`\n/: bad key: the block of / has the key `a//b`\n/b: stale: the block of / has it, and the store has not\n/c: missing: the block of / has no entry of it\n/d: differs: the block of / has other metadata than the store\n/e/f: stale: the block of / has it, and the store has not\n/e/f: unreachable: the block of / has no group above it\n",
        errors: "zarrs: 3 nodes, 7 findings\n",
        status: 1,
    },
    Row {
        documents: &[],
        blocks: &[("a/zarr.json", X), ("zarr.json", A_AND_X)],
        path: "/",
        output: "/a/x: stale: the block of / has it, and the store has not\n/a/x: stale: the block of /a has it, and the store has not\n",
        errors: "zarrs: 2 nodes, 2 findings\n",
        status: 1,
    },
    Row {
        documents: &[],
        blocks: &[("a/zarr.json", X), ("zarr.json", A_AND_X)],
        path: "/a",
        output: "/a/x: stale: the block of / has it, and the store has not\n/a/x: stale: the block of /a has it, and the store has not\n",
        errors: "zarrs: 1 node, 2 findings\n",
        status: 1,
    },
    Row {
        documents: &[("x/zarr.json", GROUP), ("x/y/zarr.json", "x")],
        blocks: &[("zarr.json", X_Y)],
        path: "/",
        output: "/x: missing: the block of / has no entry of it\n/x/y: error parsing metadata for x/y/zarr.json: not JSON\n/x/y: unreachable: the block of / has no group above it\n",
        errors: "zarrs: 2 nodes, 3 findings\n",
        status: 1,
    },
    Row {
        documents: &[("a/zarr.json", "x")],
        blocks: &[("zarr.json", A_AND_X)],
        path: "/",
        output: "/a: error parsing metadata for a/zarr.json: not JSON\n",
        errors: "zarrs: 1 node, 1 finding\n",
        status: 1,
    },
    Row {
        documents: &[("a/../x", ""), ("a-b/zarr.json", GROUP), ("a/.../x", "")],
        blocks: &[("zarr.json", EMPTY), ("a/zarr.json", EMPTY)],
        path: "/",
        output: "/a: missing: the block of / has no entry of it\n/a/..: invalid node path /a/..\n/a/...: invalid node path /a/...\n/a-b: missing: the block of / has no entry of it\n",
        errors: "zarrs: 3 nodes, 4 findings\n",
        status: 1,
    },
];

#[test]
fn what_is_told_stands_in_order(rt: HostRuntime) {
    assert_answers(&rt, ORDERS);
}

// Blocks of version 2, and what is told of them.
const VERSION_2: &[Row] = &[
    Row {
        documents: &[
            (".zgroup", GROUP_V2),
            (".zmetadata", BLOCK_V2),
            ("a/.zgroup", GROUP_V2),
            ("a/.zattrs", ONE),
        ],
        blocks: &[],
        path: "/",
        output: "",
        errors: "zarrs: 2 nodes, 0 findings\n",
        status: 0,
    },
    Row {
        documents: &[
            (".zgroup", GROUP_V2),
            (".zmetadata", BLOCK_V2),
            ("a/.zgroup", GROUP_V2),
            ("a/.zattrs", TWO),
        ],
        blocks: &[],
        path: "/",
        output: "/a: differs: the block of / has other metadata than the store\n",
        errors: "zarrs: 2 nodes, 1 finding\n",
        status: 1,
    },
    Row {
        documents: &[
            (".zgroup", GROUP_V2),
            (".zmetadata", "{}"),
            ("a/.zgroup", GROUP_V2),
        ],
        blocks: &[],
        path: "/",
        output: "/: bad block: the block of / has the fault `missing member zarr_consolidated_format`\n",
        errors: "zarrs: 2 nodes, 1 finding\n",
        status: 1,
    },
    Row {
        documents: &[("zarr.json", GROUP_V2)],
        blocks: &[],
        path: "/",
        output: "/: Found V2 metadata in V3 key or vice-versa\n",
        errors: "zarrs: 0 nodes, 1 finding\n",
        status: 1,
    },
];

#[test]
fn blocks_of_version_2_are_compared_with_attributes(rt: HostRuntime) {
    assert_answers(&rt, VERSION_2);
}

// Images and paths, their refusals, and what is written of them.
const REFUSED: &[(&str, &str, &str, &str)] = &[
    (
        "[]",
        "/",
        "Load(Image): image is not a JSON object",
        "zarrs: image is not a JSON object\n",
    ),
    (
        r#"{"a//b":1}"#,
        "/",
        r#"Load(ImageKey("a//b")): bad store key in image: a//b"#,
        "zarrs: bad store key in image: a//b\n",
    ),
    (
        r#"{"a":1}"#,
        "/",
        r#"Load(ImageValue("a")): no text in image at a"#,
        "zarrs: no text in image at a\n",
    ),
    (
        "{}",
        "x",
        r#"Node(NodePathError(Invalid("x"))): invalid node path x"#,
        "zarrs: invalid node path x\n",
    ),
    (
        "{}",
        "/..",
        r#"Node(NodePathError(Invalid("/.."))): invalid node path /.."#,
        "zarrs: invalid node path /..\n",
    ),
];

#[test]
fn what_is_no_image_or_no_path_is_refused(rt: HostRuntime) {
    let alloc = rt.alloc();
    for (image, path, refusal, errors) in REFUSED {
        let mut reader = image.as_bytes();
        let outcome = run_of_image(&Discard, alloc, CHECK, path, &mut reader, &mut io::sink());
        assert_refused(&rt, alloc, &outcome, refusal);
        let ran = run(alloc, CHECK, image, path).expect(&rt, "memory");
        assert_ran(&rt, image, &ran, "", errors, 2);
    }
}

#[test]
fn runs_over_a_store(rt: HostRuntime) {
    let alloc = rt.alloc();
    let image = image_of(alloc, &[], &[("zarr.json", A)]).expect(&rt, "memory");
    let mut reader = image.as_bytes();
    let store = load_image(alloc, &mut reader).expect(&rt, "an image");
    let mut output = Vec::new(alloc);
    let outcome = run_store(&Discard, alloc, CHECK, "/", &store, &mut output);
    let tally = outcome.expect(&rt, "a report").expect(&rt, "a tally");
    assert_eq!(rt; (tally.nodes, tally.findings, tally.notes), (1, 1, None));
    let text = String::from_utf8_lossy(alloc, &output).expect(&rt, "memory");
    assert_text(
        &rt,
        "a store",
        text.as_str(),
        "/a: stale: the block of / has it, and the store has not\n",
    );
}

#[test]
fn a_reader_and_a_writer_fail(rt: HostRuntime) {
    let alloc = rt.alloc();
    let image = image_of(alloc, &[], &[("zarr.json", A)]).expect(&rt, "memory");
    let mut reader = OneByOne {
        rest: image.as_bytes(),
        reads_before_fault: Some(2),
    };
    let mut output = Vec::new(alloc);
    let outcome = run_of_image(&Discard, alloc, CHECK, "/", &mut reader, &mut output);
    assert_refused(&rt, alloc, &outcome, "Load(Read): read fault");
    assert!(rt; output.is_empty());
    let mut reader = OneByOne {
        rest: image.as_bytes(),
        reads_before_fault: None,
    };
    let mut full = Full(ErrorKind::StorageFull);
    let outcome = run_of_image(&Discard, alloc, CHECK, "/", &mut reader, &mut full);
    assert_refused(&rt, alloc, &outcome, "Write: write fault");
}

// Asserts how a run ends whose writer fails when it is flushed, and not before, and what is said of that.
fn assert_unflushed<R: Abort + AllocGlobal>(rt: &R, kind: ErrorKind, refusal: &str, said: &str) {
    let alloc = rt.alloc();
    let mut reader = b"{}".as_slice();
    let mut output = Unflushed(kind);
    let outcome = run_of_image(&Discard, alloc, CHECK, "/", &mut reader, &mut output);
    assert_refused(rt, alloc, &outcome, refusal);
    let mut errors = Vec::new(alloc);
    let ending = finish(alloc, &looked(outcome), &None, &mut errors);
    assert_eq!(rt; ending.status, 2);
    assert!(rt; ending.said.is_ok());
    let errors = String::from_utf8_lossy(alloc, &errors).expect(rt, "memory");
    assert_text(rt, refusal, errors.as_str(), said);
}

#[test]
fn a_writer_whose_flush_alone_fails_is_told(rt: HostRuntime) {
    let told = "zarrs: write fault\n";
    assert_unflushed(&rt, ErrorKind::Other, "Write: write fault", told);
    assert_unflushed(&rt, ErrorKind::WriteZero, "Write: write fault", told);
}

#[test]
fn of_a_writer_that_nobody_reads_nothing_is_told(rt: HostRuntime) {
    let refusal = "Closed: nobody reads the output";
    assert_unflushed(&rt, ErrorKind::BrokenPipe, refusal, "");
}

#[test]
fn what_the_standard_error_does_not_take_is_told(rt: HostRuntime) {
    let mut errors = Full(ErrorKind::BrokenPipe);
    let ending = finish(rt.alloc(), &Err(ZarrsFault::Usage), &None, &mut errors);
    assert_eq!(rt; ending.status, 2);
    assert!(rt; ending.said.is_err());
    let ending = finish(rt.alloc(), &Err(ZarrsFault::TooDeep), &None, &mut errors);
    assert_eq!(rt; ending.status, 2);
    assert!(rt; ending.said.is_err());
}

#[test]
fn warns_of_what_is_passed_over(rt: HostRuntime) {
    let alloc = rt.alloc();
    let sink = Writer::new(Vec::new(alloc));
    let mut reader = r#"{"fakenode/content":""}"#.as_bytes();
    let outcome = run_of_image(&sink, alloc, CHECK, "/", &mut reader, &mut io::sink());
    assert!(rt; outcome.is_ok());
    let warnings = String::from_utf8_lossy(alloc, &sink.into_inner()).expect(&rt, "memory");
    assert_text(
        &rt,
        "a warning",
        warnings.as_str(),
        "[WARN  zarrs_check::survey] Object at /fakenode is not recognized as a component of a Zarr hierarchy. Ignoring.\n",
    );
}

// The refusal that two words name, what refused and how.
fn fault_of(alloc: Global, words: &str) -> Result<Option<ZarrsFault>, AllocError> {
    let (part, word) = words.split_once(' ').unwrap_or((words, ""));
    let fault = match part {
        "usage" => ZarrsFault::Usage,
        "memory" => ZarrsFault::OutOfMemory,
        "folder" => ZarrsFault::from(FolderFault::OutOfMemory),
        "deep" => ZarrsFault::TooDeep,
        "replace" => ZarrsFault::from(ReplaceError::OutOfMemory),
        "write" => ZarrsFault::Write,
        "closed" => ZarrsFault::Closed,
        "no-text" => ZarrsFault::from(WordsFault::NotText),
        "no-words" => ZarrsFault::from(WordsFault::OutOfMemory),
        "load" => return Ok(load_fault(alloc, word)?.map(ZarrsFault::from)),
        "consolidate" => return Ok(consolidate_error(word).map(ZarrsFault::from)),
        _ => return Ok(None),
    };
    Ok(Some(fault))
}

// The refusal of an image by its name.
fn load_fault(alloc: Global, word: &str) -> Result<Option<LoadFault>, AllocError> {
    let fault = match word {
        "read" => LoadFault::Read,
        "long" => LoadFault::ReadTooLong,
        "image" => LoadFault::Image,
        "key" => LoadFault::ImageKey(String::from_str(alloc, "a//b")?),
        "value" => LoadFault::ImageValue(String::from_str(alloc, "a")?),
        "memory" => LoadFault::OutOfMemory,
        _ => return Ok(None),
    };
    Ok(Some(fault))
}

// The refusal of a block by its name.
fn consolidate_error(word: &str) -> Option<ConsolidateError> {
    match word {
        "deep" => Some(ConsolidateError::TooDeep),
        "version" => Some(ConsolidateError::Block(NodeCreateError::MetadataVersionMismatch)),
        "memory" => Some(ConsolidateError::OutOfMemory),
        _ => None,
    }
}

// The variant and the text of the refusal that words name.
fn fault_said(alloc: Global, words: &str) -> Result<String, AllocError> {
    match fault_of(alloc, words)? {
        Some(fault) => format!(in alloc; "{fault:?}: {fault}"),
        None => format!(in alloc; "no fault is {words}"),
    }
}

// Refusals, with their variants and texts.
const FAULTS_SAID: &str = r#"
usage => Usage: wrong words
no-text => Usage: wrong words
no-words => OutOfMemory: out of memory
load read => Load(Read): read fault
load long => Load(ReadTooLong): input too long
load image => Load(Image): image is not a JSON object
load key => Load(ImageKey("a//b")): bad store key in image: a//b
load value => Load(ImageValue("a")): no text in image at a
load memory => Load(OutOfMemory): out of memory
folder => Folder(OutOfMemory): out of memory
memory => OutOfMemory: out of memory
deep => TooDeep: the document would nest deeper than any that is read
consolidate deep => Consolidate(TooDeep): the document would nest deeper than any that is read
consolidate version => Consolidate(Block(MetadataVersionMismatch)): the block of a group of version 2 holds no node of version 3
consolidate memory => Consolidate(OutOfMemory): out of memory
replace => Replace(OutOfMemory): out of memory
write => Write: write fault
closed => Closed: nobody reads the output
"#;

#[test]
fn faults_have_their_texts(rt: HostRuntime) -> Result<(), Fail> {
    check_rows(rt.alloc(), FAULTS_SAID, fault_said)
}
