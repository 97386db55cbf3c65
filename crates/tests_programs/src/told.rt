//! What the documents of nodes tell, row by row.
use crate::asserts::assert_ran;
use crate::runs::{ARRAY, CHECK, GROUP, image_of, run};
use std::process::Abort;
use zarrs_cli::{CheckOptions, Word};

// The word `check` with its options.
const NOTES: Word = Word::Check(CheckOptions {
    notes: true,
    json: false,
});

const NOTES_JSON: Word = Word::Check(CheckOptions {
    notes: true,
    json: true,
});

// Arrays whose dimensions do not fit: a chunk of one length for two, one of the length 0, and one name for two.
const ONE_LENGTH: &str =
    r#"{"chunk_grid":{"configuration":{"chunk_shape":[10]},"name":"regular"},"chunk_key_encoding":"default","codecs":["bytes"],"data_type":"float32","fill_value":0,"node_type":"array","shape":[10,10],"zarr_format":3}"#;

const NO_LENGTH_ONE_NAME: &str =
    r#"{"chunk_grid":{"configuration":{"chunk_shape":[10,0]},"name":"regular"},"chunk_key_encoding":"default","codecs":["bytes"],"data_type":"float32","dimension_names":["x"],"fill_value":0,"node_type":"array","shape":[10,10],"zarr_format":3}"#;

// An array without codecs, whose data type does not have its fill value.
const NO_VALUE: &str =
    r#"{"chunk_grid":{"configuration":{"chunk_shape":[10]},"name":"regular"},"chunk_key_encoding":"default","codecs":[],"data_type":"uint8","fill_value":256,"node_type":"array","shape":[10],"zarr_format":3}"#;

// Groups that no reader opens.
const DEMANDING: &str =
    r#"{"consolidated_metadata":{"kind":"inline","metadata":{}},"extra":{},"node_type":"group","zarr_format":3}"#;

// Arrays with blocks.
const WITH_BLOCK: &str =
    r#"{"chunk_grid":{"configuration":{"chunk_shape":[10,10]},"name":"regular"},"chunk_key_encoding":"default","codecs":["bytes"],"consolidated_metadata":{"must_understand":false},"data_type":"float32","fill_value":0,"node_type":"array","shape":[10,10],"zarr_format":3}"#;

const ARRAY_V2: &str =
    r#"{"chunks":[10],"compressor":null,"dtype":"<i4","fill_value":0,"filters":null,"order":"C","shape":[10],"zarr_format":2}"#;

// A word about a path in an image of these documents, and what the program answers.
struct Told<'a> {
    word: Word,
    documents: &'a [(&'a str, &'a str)],
    path: &'a str,
    output: &'a str,
    errors: &'a str,
    status: u8,
}

// Asserts what the program answers, row by row.
fn assert_told<R: Abort + AllocGlobal>(rt: &R, rows: &[Told<'_>]) {
    for row in rows {
        let image = image_of(rt.alloc(), row.documents, &[]).expect(rt, "memory");
        let ran = run(rt.alloc(), row.word, image.as_str(), row.path).expect(rt, "memory");
        assert_ran(rt, row.output, &ran, row.output, row.errors, row.status);
    }
}

// Arrays of which something does not fit, and one of which all does.
const MEMBERS: &[Told] = &[
    Told {
        word: CHECK,
        documents: &[("zarr.json", ONE_LENGTH), ("a/zarr.json", "x")],
        path: "/",
        output: "/: bad shape: the chunk grid has 1 lengths, and the shape has 2\n",
        errors: "zarrs: 1 node, 1 finding\n",
        status: 1,
    },
    Told {
        word: CHECK,
        documents: &[("zarr.json", GROUP), ("a/zarr.json", ONE_LENGTH)],
        path: "/a",
        output: "/a: bad shape: the chunk grid has 1 lengths, and the shape has 2\n",
        errors: "zarrs: 1 node, 1 finding\n",
        status: 1,
    },
    Told {
        word: CHECK,
        documents: &[("zarr.json", GROUP), ("a/zarr.json", ONE_LENGTH)],
        path: "/",
        output: "/a: bad shape: the chunk grid has 1 lengths, and the shape has 2\n",
        errors: "zarrs: 2 nodes, 1 finding\n",
        status: 1,
    },
    Told {
        word: CHECK,
        documents: &[("zarr.json", GROUP), ("a/zarr.json", NO_LENGTH_ONE_NAME)],
        path: "/",
        output: "/a: bad shape: a chunk has the length 0\n/a: bad shape: there are 1 dimension names, and the shape has 2\n",
        errors: "zarrs: 2 nodes, 2 findings\n",
        status: 1,
    },
    Told {
        word: CHECK,
        documents: &[("zarr.json", GROUP), ("a/zarr.json", ARRAY)],
        path: "/",
        output: "",
        errors: "zarrs: 2 nodes, 0 findings\n",
        status: 0,
    },
    Told {
        word: CHECK,
        documents: &[("zarr.json", GROUP), ("a/zarr.json", NO_VALUE)],
        path: "/a",
        output: "/a: bad codecs: there is none, and one has to make bytes of a chunk\n/a: bad fill value: it is no value of uint8\n",
        errors: "zarrs: 1 node, 2 findings\n",
        status: 1,
    },
    Told {
        word: NOTES_JSON,
        documents: &[("zarr.json", GROUP), ("a/zarr.json", NO_VALUE)],
        path: "/",
        output: "[{\"block\":null,\"key\":null,\"kind\":\"bad-codecs\",\"path\":\"/a\",\"text\":\"bad codecs: there is none, and one has to make bytes of a chunk\"},{\"block\":null,\"key\":null,\"kind\":\"bad-fill-value\",\"path\":\"/a\",\"text\":\"bad fill value: it is no value of uint8\"}]\n",
        errors: "zarrs: 2 nodes, 2 findings, 0 notes\n",
        status: 1,
    },
];

#[test]
fn members_that_do_not_fit_are_told(rt: HostRuntime) {
    assert_told(&rt, MEMBERS);
}

// A group that no reader opens.
const FIELDS: &[Told] = &[Told {
    word: CHECK,
    documents: &[("zarr.json", GROUP), ("a/zarr.json", DEMANDING)],
    path: "/",
    output: "/a: not opened: the block of /a has no must_understand false\n/a: not opened: the field extra must be understood\n",
    errors: "zarrs: 2 nodes, 2 findings\n",
    status: 1,
}];

#[test]
fn fields_that_must_be_understood_are_told(rt: HostRuntime) {
    assert_told(&rt, FIELDS);
}

// Documents beside those that are read, and an array with a block.
const NOTED: &[(&str, &str)] = &[
    ("zarr.json", GROUP),
    (".zmetadata", ""),
    ("a/zarr.json", WITH_BLOCK),
    ("b/.zarray", ARRAY_V2),
    ("b/.zgroup", ""),
];

// The same documents without notes, with notes, and with notes as JSON.
const NOTES_TOLD: &[Told] = &[
    Told {
        word: CHECK,
        documents: NOTED,
        path: "/",
        output: "",
        errors: "zarrs: 3 nodes, 0 findings\n",
        status: 0,
    },
    Told {
        word: NOTES,
        documents: NOTED,
        path: "/",
        output: "note: /: beside: .zmetadata is not read, since zarr.json stands there too\nnote: /a: misplaced: an array has a block, which is not read\nnote: /b: beside: .zgroup is not read, since .zarray stands there too\n",
        errors: "zarrs: 3 nodes, 0 findings, 3 notes\n",
        status: 0,
    },
    Told {
        word: NOTES_JSON,
        documents: NOTED,
        path: "/a",
        output: "[{\"block\":null,\"key\":null,\"kind\":\"misplaced\",\"path\":\"/a\",\"text\":\"misplaced: an array has a block, which is not read\"}]\n",
        errors: "zarrs: 1 node, 0 findings, 1 note\n",
        status: 0,
    },
    Told {
        word: NOTES_JSON,
        documents: NOTED,
        path: "/b",
        output: "[{\"block\":null,\"key\":null,\"kind\":\"beside\",\"path\":\"/b\",\"text\":\"beside: .zgroup is not read, since .zarray stands there too\"}]\n",
        errors: "zarrs: 1 node, 0 findings, 1 note\n",
        status: 0,
    },
    Told {
        word: NOTES,
        documents: &[("zarr.json", GROUP), (".zattrs", ""), (".zgroup", "")],
        path: "/",
        output: "note: /: beside: .zattrs is not read, since zarr.json stands there too\nnote: /: beside: .zgroup is not read, since zarr.json stands there too\n",
        errors: "zarrs: 1 node, 0 findings, 2 notes\n",
        status: 0,
    },
];

#[test]
fn notes_are_told_where_they_are_asked_for(rt: HostRuntime) {
    assert_told(&rt, NOTES_TOLD);
}

// Groups whose blocks are not theirs: with other attributes, and with a key that is the group itself.
const OTHER_ATTRIBUTES: &[(&str, &str)] = &[
    (".zgroup", r#"{"zarr_format":2}"#),
    (".zattrs", r#"{"k":1}"#),
    (
        ".zmetadata",
        r#"{"metadata":{".zgroup":{"zarr_format":2}},"zarr_consolidated_format":1}"#,
    ),
];

const OWN_KEY: &str =
    r#"{"consolidated_metadata":{"kind":"inline","metadata":{"":{"node_type":"group","zarr_format":3}},"must_understand":false},"node_type":"group","zarr_format":3}"#;

const BLOCKS_TOLD: &[Told] = &[
    Told {
        word: NOTES_JSON,
        documents: OTHER_ATTRIBUTES,
        path: "/",
        output: "[{\"block\":\"/\",\"key\":null,\"kind\":\"own-attributes\",\"path\":\"/\",\"text\":\"differs: the block of / has other attributes of it than the store\"}]\n",
        errors: "zarrs: 1 node, 1 finding, 0 notes\n",
        status: 1,
    },
    Told {
        word: NOTES_JSON,
        documents: &[("zarr.json", OWN_KEY)],
        path: "/",
        output: "[{\"block\":\"/\",\"key\":\"\",\"kind\":\"own-key\",\"path\":\"/\",\"text\":\"own key: the block of / has the key ``, which is / itself\"}]\n",
        errors: "zarrs: 1 node, 1 finding, 0 notes\n",
        status: 1,
    },
];

#[test]
fn what_a_block_says_of_its_own_group_is_told_as_json(rt: HostRuntime) {
    assert_told(&rt, BLOCKS_TOLD);
}

// Groups of both versions with what a run of writing left, one with a document beside too, and an array with such files.
const LEFT: &[(&str, &str)] = &[
    ("zarr.json", GROUP),
    ("zarr.json.zarrs_new", "{"),
    (".zgroup", ""),
    ("a/zarr.json", ARRAY),
    ("a/zarr.json.zarrs_new", ""),
    ("a/.zmetadata.zarrs_new", ""),
    ("b/.zgroup", r#"{"zarr_format":2}"#),
    ("b/.zmetadata.zarrs_new", ""),
    ("b/zarr.json.zarrs_new", ""),
];

// They are told as notes, behind what is beside.
const LEFT_TOLD: &[Told] = &[
    Told {
        word: NOTES,
        documents: LEFT,
        path: "/",
        output: "note: /: beside: .zgroup is not read, since zarr.json stands there too\nnote: /: left over: zarr.json.zarrs_new is of a run that was broken off, or that still writes\nnote: /b: left over: .zmetadata.zarrs_new is of a run that was broken off, or that still writes\n",
        errors: "zarrs: 3 nodes, 0 findings, 3 notes\n",
        status: 0,
    },
    Told {
        word: NOTES_JSON,
        documents: LEFT,
        path: "/b",
        output: "[{\"block\":null,\"key\":null,\"kind\":\"left-over\",\"path\":\"/b\",\"text\":\"left over: .zmetadata.zarrs_new is of a run that was broken off, or that still writes\"}]\n",
        errors: "zarrs: 1 node, 0 findings, 1 note\n",
        status: 0,
    },
];

#[test]
fn what_a_run_of_writing_left_is_a_note(rt: HostRuntime) {
    assert_told(&rt, LEFT_TOLD);
}

// Documents below no document, and below bad ones.
const UNREACHED: &[Told] = &[
    Told {
        word: CHECK,
        documents: &[
            ("zarr.json", GROUP),
            ("a/b/zarr.json", GROUP),
            ("a/b/c/zarr.json", "x"),
            ("a/d/.zgroup", ""),
            ("a/d/.zarray", ""),
            ("e/0", ""),
        ],
        path: "/",
        output: "/a: orphaned: it has no document, and 3 nodes below it are not reached\n",
        errors: "zarrs: 1 node, 1 finding\n",
        status: 1,
    },
    Told {
        word: CHECK,
        documents: &[
            ("zarr.json", GROUP),
            ("a/zarr.json", "x"),
            ("a/b/zarr.json", GROUP),
            ("c/zarr.json", "x"),
            ("c/0", ""),
        ],
        path: "/",
        output: "/a: error parsing metadata for a/zarr.json: not JSON; 1 documents below it were not looked at\n/c: error parsing metadata for c/zarr.json: not JSON\n",
        errors: "zarrs: 1 node, 2 findings\n",
        status: 1,
    },
];

#[test]
fn what_no_listing_reaches_is_told(rt: HostRuntime) {
    assert_told(&rt, UNREACHED);
}

// A block of two levels, and one of the level below.
const UPPER: &str =
    r#"{"consolidated_metadata":{"kind":"inline","metadata":{"a":{"node_type":"group","zarr_format":3},"a/old":{"node_type":"group","zarr_format":3},"b":{"node_type":"group","zarr_format":3},"t":{"node_type":"group","zarr_format":3},"t/c":{"node_type":"group","zarr_format":3}},"must_understand":false},"node_type":"group","zarr_format":3}"#;

const LOWER: &str =
    r#"{"consolidated_metadata":{"kind":"inline","metadata":{"stale":{"node_type":"group","zarr_format":3}},"must_understand":false},"node_type":"group","zarr_format":3}"#;

// A store with both.
const TWO_BLOCKS: &[(&str, &str)] = &[
    ("zarr.json", UPPER),
    ("a/zarr.json", LOWER),
    ("a/new/zarr.json", GROUP),
    ("t/zarr.json", ARRAY),
    ("t/c/zarr.json", GROUP),
];

// From each path on: the block above it says something else, the block of the path itself, and both.
const BLOCKS_ABOVE: &[Told] = &[
    Told {
        word: CHECK,
        documents: TWO_BLOCKS,
        path: "/a",
        output: "/a/new: missing: the block of / has no entry of it\n/a/new: missing: the block of /a has no entry of it\n/a/old: stale: the block of / has it, and the store has not\n/a/stale: stale: the block of /a has it, and the store has not\n",
        errors: "zarrs: 2 nodes, 4 findings\n",
        status: 1,
    },
    Told {
        word: CHECK,
        documents: TWO_BLOCKS,
        path: "/a/new",
        output: "/a/new: missing: the block of / has no entry of it\n/a/new: missing: the block of /a has no entry of it\n",
        errors: "zarrs: 1 node, 2 findings\n",
        status: 1,
    },
    Told {
        word: CHECK,
        documents: TWO_BLOCKS,
        path: "/t",
        output: "/t: differs: the block of / has other metadata than the store\n/t/c: unreached: the block of / has it, and a listing does not reach it\n",
        errors: "zarrs: 1 node, 2 findings\n",
        status: 1,
    },
    Told {
        word: CHECK,
        documents: TWO_BLOCKS,
        path: "/b",
        output: "/b: Metadata is missing for /b\n/b: stale: the block of / has it, and the store has not\n",
        errors: "zarrs: 0 nodes, 2 findings\n",
        status: 1,
    },
    Told {
        word: CHECK,
        documents: &[("zarr.json", LOWER), ("a/zarr.json", GROUP)],
        path: "/",
        output: "/a: missing: the block of / has no entry of it\n/stale: stale: the block of / has it, and the store has not\n",
        errors: "zarrs: 2 nodes, 2 findings\n",
        status: 1,
    },
];

#[test]
fn the_blocks_above_a_path_are_told(rt: HostRuntime) {
    assert_told(&rt, BLOCKS_ABOVE);
}

// Names that differ in case alone, of nodes at one group and at two.
const NAMES: &[(&str, &str)] = &[
    ("zarr.json", GROUP),
    ("AIR/zarr.json", GROUP),
    ("Air/zarr.json", GROUP),
    ("Air/t/zarr.json", GROUP),
    ("air/zarr.json", GROUP),
    ("air/T/zarr.json", GROUP),
    ("wind/0", ""),
    ("Wind/zarr.json", GROUP),
];

// Without notes nothing is told of them; with notes each but the first is, with the one before it. What is no node does not count.
const ALIKE: &[Told] = &[
    Told {
        word: CHECK,
        documents: NAMES,
        path: "/",
        output: "",
        errors: "zarrs: 7 nodes, 0 findings\n",
        status: 0,
    },
    Told {
        word: NOTES,
        documents: NAMES,
        path: "/",
        output: "note: /Air: alike: AIR and Air differ in case alone\nnote: /air: alike: Air and air differ in case alone\n",
        errors: "zarrs: 7 nodes, 0 findings, 2 notes\n",
        status: 0,
    },
    Told {
        word: NOTES_JSON,
        documents: &[
            ("zarr.json", GROUP),
            ("t_1/zarr.json", ARRAY),
            ("T_1/zarr.json", ARRAY),
            ("t_2/zarr.json", ARRAY),
        ],
        path: "/",
        output: "[{\"block\":null,\"key\":null,\"kind\":\"alike\",\"path\":\"/t_1\",\"text\":\"alike: T_1 and t_1 differ in case alone\"}]\n",
        errors: "zarrs: 4 nodes, 0 findings, 1 note\n",
        status: 0,
    },
    Told {
        word: NOTES,
        documents: &[("Air/zarr.json", GROUP), ("air/zarr.json", GROUP)],
        path: "/air",
        output: "",
        errors: "zarrs: 1 node, 0 findings, 0 notes\n",
        status: 0,
    },
];

#[test]
fn names_that_differ_in_case_alone_are_told(rt: HostRuntime) {
    assert_told(&rt, ALIKE);
}
