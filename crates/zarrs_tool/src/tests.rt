//! What the program answers, row by row, and readers and writers that fail.
use crate::answers::{loaded, refused, variant};
use crate::asserts::{assert_outcome, assert_ran, assert_text};
use crate::fault::ToolFault;
use crate::image::load_image;
use crate::run::{finish, run_image, run_store};
use log::sink::{Discard, Writer};
use std::alloc::{AllocError, Global};
use std::io;
use std::io::{Error, ErrorKind, Read, Write};
use std::process::Abort;
use zarrs_load::LoadFault;
use zarrs_meaning::NodeCreateError;
use zarrs_path::NodePath;
use zarrs_program::WordsFault;

const TWO_GROUPS: &str =
    r#"{"zarr.json":"{\"node_type\":\"group\",\"zarr_format\":3}","a/zarr.json":"{\"node_type\":\"group\",\"zarr_format\":3}"}"#;

// The block of the group that stands beside the root in `TWO_GROUPS`.
pub(crate) const BLOCK_OF_A: &str =
    "{\n  \"kind\": \"inline\",\n  \"metadata\": {\n    \"a\": {\n      \"node_type\": \"group\",\n      \"zarr_format\": 3\n    }\n  },\n  \"must_understand\": false\n}\n";

// The block of no nodes.
pub(crate) const EMPTY_BLOCK: &str =
    "{\n  \"kind\": \"inline\",\n  \"metadata\": {},\n  \"must_understand\": false\n}\n";

pub(crate) const GROUP: &str = r#"{"node_type":"group","zarr_format":3}"#;

const SQUARE: &str =
    r#"{"chunk_grid":{"configuration":{"chunk_shape":[10,10]},"name":"regular"},"chunk_key_encoding":{"configuration":{"separator":"/"},"name":"default"},"codecs":[{"configuration":{"endian":"little"},"name":"bytes"}],"data_type":"float32","fill_value":0,"node_type":"array","shape":[10,10],"zarr_format":3}"#;

// A group whose block has an array that no key of the store has, and a group that is not below a group.
const GROUP_WITH_BLOCK: &str =
    r#"{"consolidated_metadata":{"kind":"inline","metadata":{"q/r":{"node_type":"group","zarr_format":3}},"must_understand":false},"node_type":"group","zarr_format":3}"#;

pub(crate) const USAGE: &str =
    "usage: zarrs_tool (children|list|tree|consolidate) PATH | folder DIR tree PATH\n";

// A reader of one byte a read, which fails at one of them.
#[derive(Drop)]
struct OneByOne<'a> {
    rest: &'a [u8],
    reads_before_fault: Option<u32>,
}

impl Read for OneByOne<'_> {
    fn read(&mut self, buf: &mut [u8]) -> io::Result<usize> {
        match self.reads_before_fault {
            Some(0) => return Err(Error::from(ErrorKind::Other)),
            Some(n) => self.reads_before_fault = Some(n - 1),
            None => {}
        }
        let ([first, rest @ ..], [slot, ..]) = (self.rest, buf) else {
            return Ok(0);
        };
        *slot = *first;
        self.rest = rest;
        Ok(1)
    }
}

// A writer that takes nothing.
#[derive(Drop)]
struct Full;

impl Write for Full {
    fn write(&mut self, _buf: &[u8]) -> io::Result<usize> {
        Err(Error::from(ErrorKind::Other))
    }

    fn flush(&mut self) -> io::Result<()> {
        Ok(())
    }
}

// A writer that takes all bytes, and cannot hand them on.
#[derive(Drop)]
struct Unflushed;

impl Write for Unflushed {
    fn write(&mut self, buf: &[u8]) -> io::Result<usize> {
        Ok(buf.len())
    }

    fn flush(&mut self) -> io::Result<()> {
        Err(Error::from(ErrorKind::Other))
    }
}

pub(crate) fn words(alloc: Global, texts: &[&str]) -> Result<Vec<String>, AllocError> {
    let mut words = Vec::new(alloc);
    for text in texts {
        words.push(String::from_str(alloc, text)?)?;
    }
    Ok(words)
}

// What goes to the standard output and the standard error, and the status; and the variant of the refusal.
fn run(
    alloc: Global,
    image: &str,
    texts: &[&str],
) -> Result<((String, String, u8), String), AllocError> {
    let words = words(alloc, texts)?;
    let mut output = Vec::new(alloc);
    let mut errors = Vec::new(alloc);
    let mut reader = image.as_bytes();
    let outcome = run_image(&Discard, alloc, &words, &mut reader, &mut output);
    let status = finish(&outcome, &mut errors);
    let output = String::from_utf8_lossy(alloc, &output)?;
    let errors = String::from_utf8_lossy(alloc, &errors)?;
    Ok(((output, errors, status), variant(alloc, &outcome)?))
}

// An image of documents at these keys.
pub(crate) fn image_of(alloc: Global, documents: &[(&str, &str)]) -> Result<String, AllocError> {
    let mut image = String::from_str(alloc, "{")?;
    for (key, document) in documents {
        if image.len() > 1 {
            image.push(',')?;
        }
        image.push('"')?;
        image.push_str(key)?;
        image.push_str(r#"":""#)?;
        for letter in document.chars() {
            if letter == '"' {
                image.push('\\')?;
            }
            image.push(letter)?;
        }
        image.push('"')?;
    }
    image.push('}')?;
    Ok(image)
}

// An image of the version 3 group at each of these keys.
fn groups_at(alloc: Global, keys: &[&str]) -> Result<String, AllocError> {
    let mut image = String::from_str(alloc, "{")?;
    for key in keys {
        if image.len() > 1 {
            image.push(',')?;
        }
        image.push('"')?;
        image.push_str(key)?;
        image.push_str(r#"":"{\"node_type\":\"group\",\"zarr_format\":3}""#)?;
    }
    image.push('}')?;
    Ok(image)
}

// What a run writes to the standard output, the variant of the refusal, what it writes to the standard error, and the status.
type Wanted<'a> = (&'a str, &'a str, &'a str, u8);

// Asserts what the program answers of an image.
fn assert_answer<R: Abort + AllocGlobal>(rt: &R, image: &str, texts: &[&str], wanted: Wanted<'_>) {
    let (output, refusal, errors, status) = wanted;
    let (ran, refused) = run(rt.alloc(), image, texts).expect(rt, "memory");
    assert_ran(rt, image, &ran, output, errors, status);
    assert_text(rt, image, refused.as_str(), refusal);
}

// Asserts what the program answers, row by row: an image, words and what is wanted.
fn assert_answers<R: Abort + AllocGlobal>(rt: &R, rows: &[(&str, &[&str], Wanted<'_>)]) {
    for (image, texts, wanted) in rows {
        assert_answer(rt, image, texts, *wanted);
    }
}

// Asserts what the program answers of the image of some documents, row by row: words and what is wanted.
fn assert_over<R: Abort + AllocGlobal>(
    rt: &R,
    documents: &[(&str, &str)],
    rows: &[(&[&str], Wanted<'_>)],
) {
    let image = image_of(rt.alloc(), documents).expect(rt, "memory");
    for (texts, wanted) in rows {
        assert_answer(rt, image.as_str(), texts, *wanted);
    }
}

// Images, words, and what the program answers.
const ANSWERS: &[(&str, &[&str], Wanted)] = &[
    (TWO_GROUPS, &["children", "/"], ("/a\n", "", "", 0)),
    (TWO_GROUPS, &["list", "/"], ("/a\n", "", "", 0)),
    (TWO_GROUPS, &["tree", "/"], ("/\n  a\n", "", "", 0)),
    (TWO_GROUPS, &["consolidate", "/"], (BLOCK_OF_A, "", "", 0)),
    ("{}", &["children", "/"], ("", "", "", 0)),
    ("{}", &["list", "/"], ("", "", "", 0)),
    (
        r#"{"a/zarr.json":"x"}"#,
        &["children", "/"],
        (
            "",
            r#"Node(StorageError(InvalidMetadata(StoreKey { text: "a/zarr.json" }, NotJson)))"#,
            "zarrs_tool: error parsing metadata for a/zarr.json: not JSON\n",
            1,
        ),
    ),
    (
        "[]",
        &["children", "/"],
        ("", "Image", "zarrs_tool: image is not a JSON object\n", 1),
    ),
    (
        r#"{"a//b":1}"#,
        &["children", "/"],
        (
            "",
            r#"ImageKey("a//b")"#,
            "zarrs_tool: bad store key in image: a//b\n",
            1,
        ),
    ),
    (
        r#"{"a":1}"#,
        &["children", "/"],
        (
            "",
            r#"ImageValue("a")"#,
            "zarrs_tool: no text in image at a\n",
            1,
        ),
    ),
    (
        TWO_GROUPS,
        &["children", "x"],
        (
            "",
            r#"Node(NodePathError(Invalid("x")))"#,
            "zarrs_tool: invalid node path x\n",
            1,
        ),
    ),
    (TWO_GROUPS, &["children"], ("", "Usage", USAGE, 2)),
    (
        TWO_GROUPS,
        &["tree", "x"],
        (
            "",
            r#"Node(NodePathError(Invalid("x")))"#,
            "zarrs_tool: invalid node path x\n",
            1,
        ),
    ),
    (TWO_GROUPS, &["tree"], ("", "Usage", USAGE, 2)),
    (
        TWO_GROUPS,
        &["folder", ".", "tree", "/"],
        ("", "Usage", USAGE, 2),
    ),
    ("", &[], ("", "Usage", USAGE, 2)),
];

#[test]
fn answers_or_says_why_not(rt: HostRuntime) {
    assert_answers(&rt, ANSWERS);
}

// The keys of groups, words, and what the program answers.
const GROUPS: &[(&[&str], &[&str], Wanted)] = &[
    (
        &[
            "a-b/zarr.json",
            "a/zarr.json",
            "b/c/zarr.json",
            "__x/zarr.json",
        ],
        &["children", "/"],
        ("/a\n/a-b\n", "", "", 0),
    ),
    (
        &["../zarr.json"],
        &["children", "/"],
        (
            "",
            r#"Node(StorageError(Other("invalid node path /..")))"#,
            "zarrs_tool: invalid node path /..\n",
            1,
        ),
    ),
    (
        &["zarr.json", "a/zarr.json", "a/x/zarr.json", "a-b/zarr.json"],
        &["list", "/"],
        ("/a\n/a/x\n/a-b\n", "", "", 0),
    ),
    (
        &["zarr.json", "a/zarr.json", "a/x/zarr.json", "a-b/zarr.json"],
        &["children", "/"],
        ("/a\n/a-b\n", "", "", 0),
    ),
    (
        &["zarr.json", "a/zarr.json", "a/x/zarr.json", "a-b/zarr.json"],
        &["list", "/a"],
        ("/a/x\n", "", "", 0),
    ),
    (
        &["zarr.json/zarr.json", ".zarray/zarr.json", "..a/zarr.json"],
        &["children", "/"],
        ("/..a\n/.zarray\n/zarr.json\n", "", "", 0),
    ),
    (
        &["z/zarr.json", "\u{e9}/zarr.json"],
        &["children", "/"],
        ("/z\n/\u{e9}\n", "", "", 0),
    ),
];

#[test]
fn lists_groups_in_path_order(rt: HostRuntime) {
    for (keys, texts, wanted) in GROUPS {
        let image = groups_at(rt.alloc(), keys).expect(&rt, "memory");
        assert_answer(&rt, image.as_str(), texts, *wanted);
    }
}

// Groups and arrays in three levels.
const LEVELS: &[(&str, &str)] = &[
    ("zarr.json", GROUP),
    ("group/zarr.json", GROUP),
    ("group/subgroup/zarr.json", GROUP),
    ("array/zarr.json", SQUARE),
    ("group/array/zarr.json", SQUARE),
    ("group/subgroup/mysubarray/zarr.json", SQUARE),
    ("group2/zarr.json", GROUP),
];

// Words, and what the program answers of the levels.
const TREES: &[(&[&str], Wanted)] = &[
    (
        &["tree", "/"],
        (
            "/\n  array [10, 10] float32\n  group\n    array [10, 10] float32\n    subgroup\n      mysubarray [10, 10] float32\n  group2\n",
            "",
            "",
            0,
        ),
    ),
    (
        &["tree", "/group"],
        (
            "/group\n  array [10, 10] float32\n  subgroup\n    mysubarray [10, 10] float32\n",
            "",
            "",
            0,
        ),
    ),
    (
        &["tree", "/group/subgroup"],
        (
            "/group/subgroup\n  mysubarray [10, 10] float32\n",
            "",
            "",
            0,
        ),
    ),
    (&["tree", "/array"], ("/array\n", "", "", 0)),
];

#[test]
fn prints_the_tree_of_groups_and_arrays(rt: HostRuntime) {
    assert_over(&rt, LEVELS, TREES);
}

// Words, and what the program answers of a group with a block.
const OF_BLOCK: &[(&[&str], Wanted)] = &[
    (&["tree", "/"], ("/\n    r\n", "", "", 0)),
    (&["consolidate", "/"], (EMPTY_BLOCK, "", "", 0)),
];

#[test]
fn a_block_is_printed_and_not_consolidated(rt: HostRuntime) {
    assert_over(&rt, &[("zarr.json", GROUP_WITH_BLOCK)], OF_BLOCK);
}

// An array, and a group over a document that does not read.
const UNOPENED: &[(&str, &str)] = &[
    ("array/zarr.json", SQUARE),
    ("bad/zarr.json", GROUP),
    ("bad/a/zarr.json", "x"),
];

// Words, and why the program does not answer.
const NOT_PRINTED: &[(&[&str], Wanted)] = &[
    (
        &["consolidate", "/array"],
        ("", "NotAGroup", "zarrs_tool: not a group\n", 1),
    ),
    (
        &["consolidate", "/nowhere"],
        (
            "",
            r#"Node(MissingMetadata("/nowhere"))"#,
            "zarrs_tool: Metadata is missing for /nowhere\n",
            1,
        ),
    ),
    (
        &["tree", "/nowhere"],
        (
            "",
            r#"Node(MissingMetadata("/nowhere"))"#,
            "zarrs_tool: Metadata is missing for /nowhere\n",
            1,
        ),
    ),
    (
        &["consolidate", "/bad"],
        (
            "",
            r#"Node(StorageError(InvalidMetadata(StoreKey { text: "bad/a/zarr.json" }, NotJson)))"#,
            "zarrs_tool: error parsing metadata for bad/a/zarr.json: not JSON\n",
            1,
        ),
    ),
    (
        &["tree", "/bad"],
        (
            "",
            r#"Node(StorageError(InvalidMetadata(StoreKey { text: "bad/a/zarr.json" }, NotJson)))"#,
            "zarrs_tool: error parsing metadata for bad/a/zarr.json: not JSON\n",
            1,
        ),
    ),
    (
        &["consolidate", "array"],
        (
            "",
            r#"Node(NodePathError(Invalid("array")))"#,
            "zarrs_tool: invalid node path array\n",
            1,
        ),
    ),
];

#[test]
fn what_is_not_opened_is_not_printed(rt: HostRuntime) {
    assert_over(&rt, UNOPENED, NOT_PRINTED);
}

// A group with a fraction.
const HALF: &str = r#"{"attributes":{"k":0.5},"node_type":"group","zarr_format":3}"#;

// What the program answers of a store with it.
const OF_HALF: Wanted = (
    "",
    r#"Node(StorageError(InvalidMetadata(StoreKey { text: "a/zarr.json" }, UnsupportedNumber)))"#,
    "zarrs_tool: error parsing metadata for a/zarr.json: unsupported number\n",
    1,
);

#[test]
fn a_fraction_in_an_image_is_refused_by_name(rt: HostRuntime) {
    let documents = [("zarr.json", GROUP), ("a/zarr.json", HALF)];
    let image = image_of(rt.alloc(), &documents).expect(&rt, "memory");
    for word in ["children", "list", "tree", "consolidate"] {
        assert_answer(&rt, image.as_str(), &[word, "/"], OF_HALF);
    }
}

// A group with a key above it, and one with a key behind a name of periods.
const BARE_KEY: &str = r#"{"a":"","a/zarr.json":"{\"node_type\":\"group\",\"zarr_format\":3}"}"#;

const PERIODS: &str =
    r#"{"a/.../x":"any","a/zarr.json":"{\"node_type\":\"group\",\"zarr_format\":3}"}"#;

// Images, words, and what the program answers.
const NO_DOCUMENTS: &[(&str, &[&str], Wanted)] = &[
    (BARE_KEY, &["children", "/"], ("/a\n", "", "", 0)),
    (BARE_KEY, &["children", "/a"], ("", "", "", 0)),
    (PERIODS, &["children", "/"], ("/a\n", "", "", 0)),
    (
        PERIODS,
        &["list", "/"],
        (
            "",
            r#"Node(StorageError(Other("invalid node path /a/...")))"#,
            "zarrs_tool: invalid node path /a/...\n",
            1,
        ),
    ),
];

#[test]
fn keys_that_are_no_documents(rt: HostRuntime) {
    assert_answers(&rt, NO_DOCUMENTS);
}

// Images, words, and the first member that is bad.
const BAD_MEMBERS: &[(&str, &[&str], Wanted)] = &[
    (
        r#"{"b":1,"a//b":1,"a":1}"#,
        &["children", "/"],
        (
            "",
            r#"ImageValue("a")"#,
            "zarrs_tool: no text in image at a\n",
            1,
        ),
    ),
    (
        r#"{"b":1,"a//b":"x"}"#,
        &["children", "/"],
        (
            "",
            r#"ImageKey("a//b")"#,
            "zarrs_tool: bad store key in image: a//b\n",
            1,
        ),
    ),
    (
        r#"{"":1}"#,
        &["children", "/"],
        (
            "",
            r#"ImageKey("")"#,
            "zarrs_tool: bad store key in image: \n",
            1,
        ),
    ),
    (
        r#"{"a":1,"a":"x","b":2}"#,
        &["children", "/"],
        (
            "",
            r#"ImageValue("b")"#,
            "zarrs_tool: no text in image at b\n",
            1,
        ),
    ),
];

#[test]
fn the_first_bad_member_is_named(rt: HostRuntime) {
    assert_answers(&rt, BAD_MEMBERS);
}

#[test]
fn reads_a_million_times_at_most(rt: HostRuntime) {
    let alloc = rt.alloc();
    for (blanks, answer) in [(999_997, ""), (999_998, "ReadTooLong: input too long")] {
        let mut image = vec![in alloc; b' '; 2 + blanks].expect(&rt, "memory");
        image[0] = b'{';
        image[1] = b'}';
        let mut reader = OneByOne {
            rest: &image,
            reads_before_fault: None,
        };
        let said = loaded(alloc, &load_image(alloc, &mut reader)).expect(&rt, "memory");
        assert_text(&rt, "a million reads", said.as_str(), answer);
    }
}

#[test]
fn runs_over_a_store(rt: HostRuntime) {
    let alloc = rt.alloc();
    let mut reader = TWO_GROUPS.as_bytes();
    let store = load_image(alloc, &mut reader).expect(&rt, "an image");
    let asked = words(alloc, &["children", "/"]).expect(&rt, "memory");
    let mut output = Vec::new(alloc);
    let outcome = run_store(&Discard, alloc, &asked, &store, &mut output);
    assert_outcome(&rt, alloc, &outcome, "");
    assert_eq!(rt; output.as_slice(), b"/a\n".as_slice());
    let folder = words(alloc, &["folder", ".", "tree", "/"]).expect(&rt, "memory");
    let outcome = run_store(&Discard, alloc, &folder, &store, &mut output);
    let refused = variant(alloc, &outcome).expect(&rt, "memory");
    assert_text(&rt, "a folder", refused.as_str(), "Usage");
    assert_eq!(rt; output.as_slice(), b"/a\n".as_slice());
}

#[test]
fn a_reader_and_a_writer_fail(rt: HostRuntime) {
    let alloc = rt.alloc();
    let words = words(alloc, &["children", "/"]).expect(&rt, "memory");
    let mut reader = OneByOne {
        rest: TWO_GROUPS.as_bytes(),
        reads_before_fault: Some(2),
    };
    let mut output = Vec::new(alloc);
    let outcome = run_image(&Discard, alloc, &words, &mut reader, &mut output);
    assert_outcome(&rt, alloc, &outcome, "Read: read fault");
    assert!(rt; output.is_empty());
    let mut reader = OneByOne {
        rest: TWO_GROUPS.as_bytes(),
        reads_before_fault: None,
    };
    let outcome = run_image(&Discard, alloc, &words, &mut reader, &mut Full);
    assert_outcome(&rt, alloc, &outcome, "Write: write fault");
}

#[test]
fn a_writer_whose_flush_alone_fails_is_told(rt: HostRuntime) {
    let alloc = rt.alloc();
    let words = words(alloc, &["children", "/"]).expect(&rt, "memory");
    let mut reader = TWO_GROUPS.as_bytes();
    let outcome = run_image(&Discard, alloc, &words, &mut reader, &mut Unflushed);
    assert_outcome(&rt, alloc, &outcome, "Write: write fault");
    let mut errors = Vec::new(alloc);
    assert_eq!(rt; finish(&outcome, &mut errors), 1);
    assert_eq!(rt; errors.as_slice(), b"zarrs_tool: write fault\n".as_slice());
}

#[test]
fn warns_of_what_is_passed_over(rt: HostRuntime) {
    let alloc = rt.alloc();
    let words = words(alloc, &["children", "/"]).expect(&rt, "memory");
    let sink = Writer::new(Vec::new(alloc));
    let mut reader = r#"{"fakenode/content":""}"#.as_bytes();
    let outcome = run_image(&sink, alloc, &words, &mut reader, &mut io::sink());
    assert_outcome(&rt, alloc, &outcome, "");
    let warnings = String::from_utf8_lossy(alloc, &sink.into_inner()).expect(&rt, "memory");
    assert_text(
        &rt,
        "a warning",
        warnings.as_str(),
        "[WARN  zarrs_node::children] Object at /fakenode is not recognized as a component of a Zarr hierarchy. Ignoring.\n",
    );
}

// The refusal that a word names.
fn fault_of(alloc: Global, word: &str) -> Option<ToolFault> {
    let fault = match word {
        "usage" => ToolFault::Usage,
        "read" => ToolFault::from(LoadFault::Read),
        "too long" => ToolFault::from(LoadFault::ReadTooLong),
        "image" => ToolFault::from(LoadFault::Image),
        "key" => ToolFault::from(LoadFault::ImageKey(String::from_str(alloc, "a//b").ok()?)),
        "value" => ToolFault::from(LoadFault::ImageValue(String::from_str(alloc, "a").ok()?)),
        "folder" => ToolFault::from(LoadFault::Folder),
        "memory" => ToolFault::from(LoadFault::OutOfMemory),
        "group" => ToolFault::NotAGroup,
        "fraction" => ToolFault::Fraction(NodePath::new(alloc, "/a").ok()?),
        "node" => ToolFault::from(NodeCreateError::MetadataVersionMismatch),
        "no text" => ToolFault::from(WordsFault::NotText),
        "no memory for words" => ToolFault::from(WordsFault::OutOfMemory),
        "write" => ToolFault::Write,
        _ => return None,
    };
    Some(fault)
}

// Refusals, with their variants and texts.
const FAULTS: &[(&str, &str)] = &[
    (
        "usage",
        "Usage: usage: zarrs_tool (children|list|tree|consolidate) PATH | folder DIR tree PATH",
    ),
    ("read", "Read: read fault"),
    ("too long", "ReadTooLong: input too long"),
    ("image", "Image: image is not a JSON object"),
    ("key", r#"ImageKey("a//b"): bad store key in image: a//b"#),
    ("value", r#"ImageValue("a"): no text in image at a"#),
    ("folder", "Folder: folder fault"),
    ("memory", "OutOfMemory: out of memory"),
    ("group", "NotAGroup: not a group"),
    (
        "fraction",
        r#"Fraction(NodePath { text: "/a" }): /a has an unsupported number, one with a fraction"#,
    ),
    (
        "node",
        "Node(MetadataVersionMismatch): Found V2 metadata in V3 key or vice-versa",
    ),
    ("write", "Write: write fault"),
    (
        "no text",
        "Usage: usage: zarrs_tool (children|list|tree|consolidate) PATH | folder DIR tree PATH",
    ),
    ("no memory for words", "OutOfMemory: out of memory"),
];

// Asserts the variant and the text of the refusal that a word names.
fn assert_fault<R: Abort + AllocGlobal>(rt: &R, word: &str, text: &str) {
    let fault = fault_of(rt.alloc(), word).expect(rt, word);
    let shown = refused(rt.alloc(), &fault).expect(rt, "memory");
    assert_text(rt, word, shown.as_str(), text);
}

#[test]
fn faults_have_their_texts(rt: HostRuntime) {
    for (word, text) in FAULTS {
        assert_fault(&rt, word, text);
    }
}
