//! Documents with fractions, in images and in a folder: they are read, and two are the same where their 64 bits are.
use crate::asserts::assert_ran;
use crate::folders::{make_folder, run};
use crate::runs::{GROUP, Wanted, assert_answer};
use std::process::Abort;
use std::{fs, io};

// An array and groups with a number, which stands for `NUMBER`.
const ARRAY: &str =
    r#"{"chunk_grid":{"configuration":{"chunk_shape":[10]},"name":"regular"},"chunk_key_encoding":{"name":"default"},"codecs":["bytes"],"data_type":"float64","fill_value":NUMBER,"node_type":"array","shape":[10],"zarr_format":3}"#;

const LENGTH: &str =
    r#"{"chunks":[1],"compressor":null,"dtype":"<f8","fill_value":0,"filters":null,"order":"C","shape":[NUMBER],"zarr_format":2}"#;

const GROUP_V3: &str = r#"{"attributes":{"k":NUMBER},"node_type":"group","zarr_format":3}"#;

const ENTRY: &str = r#""a":{"attributes":{"k":NUMBER},"node_type":"group","zarr_format":3}"#;

const ATTRIBUTES: &str = r#"{"k":NUMBER}"#;

const BLOCK_V2: &str =
    r#"{"metadata":{"a/.zattrs":{"k":NUMBER},"a/.zgroup":{"zarr_format":2}},"zarr_consolidated_format":1}"#;

const GROUP_V2: &str = r#"{"zarr_format":2}"#;

const CLEAN: &str = "zarrs: 2 nodes, 0 findings\n";

const ONE: &str = "zarrs: 2 nodes, 1 finding\n";

const DIFFERS: &str = "/a: differs: the block of / has other metadata than the store\n";

// Asserts what the program answers of a document at a key below a group, with a number in it.
fn assert_number<R: Abort + AllocGlobal>(
    rt: &R,
    key: &str,
    document: &str,
    number: &str,
    output: &str,
) {
    let text = document
        .replace(rt.alloc(), "NUMBER", number)
        .expect(rt, "memory");
    let (errors, status) = if output.is_empty() {
        (CLEAN, 0)
    } else {
        ("zarrs: 1 node, 1 finding\n", 1)
    };
    let wanted = Wanted {
        output,
        errors,
        status,
    };
    assert_answer(
        rt,
        &[("zarr.json", GROUP), (key, text.as_str())],
        &[],
        "/",
        wanted,
    );
}

// Keys, their documents, the numbers in them, and what is told.
const NUMBERS: &[(&str, &str, &str, &str)] = &[
    ("a/zarr.json", ARRAY, "0.0", ""),
    ("a/zarr.json", GROUP_V3, "[1e300,-0.0]", ""),
    ("a/zarr.json", GROUP_V3, "18446744073709551616", ""),
    (
        "a/.zarray",
        LENGTH,
        "1.5",
        "/a: error parsing metadata for a/.zarray: bad member shape\n",
    ),
    (
        "a/zarr.json",
        ARRAY,
        "NaN",
        "/a: error parsing metadata for a/zarr.json: not JSON\n",
    ),
    (
        "a/zarr.json",
        GROUP_V3,
        "1e400",
        "/a: error parsing metadata for a/zarr.json: not JSON\n",
    ),
];

#[test]
fn a_fraction_is_read_where_any_value_may_stand(rt: HostRuntime) {
    for (key, document, number, output) in NUMBERS {
        assert_number(&rt, key, document, number, output);
    }
}

// Asserts whether an entry with one number is the same as its document with another, in a block of either version.
fn assert_compared<R: Abort + AllocGlobal>(rt: &R, stored: &str, copied: &str, is_same: bool) {
    let alloc = rt.alloc();
    let group = GROUP_V3
        .replace(alloc, "NUMBER", stored)
        .expect(rt, "memory");
    let entry = ENTRY.replace(alloc, "NUMBER", copied).expect(rt, "memory");
    let attributes = ATTRIBUTES
        .replace(alloc, "NUMBER", stored)
        .expect(rt, "memory");
    let block = BLOCK_V2
        .replace(alloc, "NUMBER", copied)
        .expect(rt, "memory");
    let (output, errors, status) = if is_same {
        ("", CLEAN, 0)
    } else {
        (DIFFERS, ONE, 1)
    };
    let wanted = Wanted {
        output,
        errors,
        status,
    };
    assert_answer(
        rt,
        &[("a/zarr.json", group.as_str())],
        &[("zarr.json", entry.as_str())],
        "/",
        wanted,
    );
    assert_answer(
        rt,
        &[
            (".zgroup", GROUP_V2),
            (".zmetadata", block.as_str()),
            ("a/.zgroup", GROUP_V2),
            ("a/.zattrs", attributes.as_str()),
        ],
        &[],
        "/",
        wanted,
    );
}

// Two numbers, and whether they are the same.
const PAIRS: &[(&str, &str, bool)] = &[
    ("0.5", "0.50", true),
    ("6.37814e+06", "6378140.0", true),
    ("1e-05", "0.00001", true),
    ("0.1", "0.10000000000000002", false),
    ("1e+20", "1.0000000200408773e+20", false),
    ("0.0", "-0.0", false),
    ("1", "1.0", false),
];

#[test]
fn fractions_are_compared_by_their_bits(rt: HostRuntime) {
    for (first, second, is_same) in PAIRS {
        assert_compared(&rt, first, second, *is_same);
        assert_compared(&rt, second, first, *is_same);
    }
}

// The folder of a test.
const FOLDER: &str = "reads_fractions_in_a_folder";

// What the program writes of a folder with a group of version 2 whose block has a group with one number, and that group with a number.
fn folder_ran(rt: &HostRuntime, number: &str) -> io::Result<(String, String, u8)> {
    let alloc = rt.alloc();
    let block = BLOCK_V2.replace(alloc, "NUMBER", "6378140.0")?;
    let attributes = ATTRIBUTES.replace(alloc, "NUMBER", number)?;
    let files = [
        (".zgroup", GROUP_V2),
        (".zmetadata", block.as_str()),
        ("a/.zgroup", GROUP_V2),
        ("a/.zattrs", attributes.as_str()),
    ];
    make_folder(rt, FOLDER, &files)?;
    let ran = run(rt, &["check", FOLDER])?;
    fs::remove_dir_all(rt, FOLDER)?;
    Ok(ran)
}

// A number in the store, and what the program writes of the folder, with its status.
const IN_A_FOLDER: &[(&str, &str, &str, u8)] = &[
    ("6.37814e+06", "", CLEAN, 0),
    ("6378140.000000001", DIFFERS, ONE, 1),
    (
        "NaN",
        "/a: error parsing metadata for a/.zattrs: not JSON\n",
        "zarrs: 1 node, 1 finding\n",
        1,
    ),
];

#[test]
fn reads_fractions_in_a_folder(rt: HostRuntime) {
    for (number, output, errors, status) in IN_A_FOLDER {
        let ran = folder_ran(&rt, number).expect(&rt, "a folder");
        assert_ran(&rt, number, &ran, output, errors, *status);
    }
}
