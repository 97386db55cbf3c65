//! Stores of any numbers: a block with a fraction is refused before anything is written, and all else is written as ever.
use crate::answers::variant;
use crate::asserts::{assert_ran, assert_text};
use crate::image::load_image;
use crate::run::{finish, run_store};
use crate::tests::{BLOCK_OF_A, EMPTY_BLOCK, GROUP, image_of, words};
use log::sink::Discard;
use std::alloc::Global;
use std::process::Abort;
use zarrs_store::AnyNumbers;

const HALF: &str = r#"{"attributes":{"k":[{"n":0.5}]},"node_type":"group","zarr_format":3}"#;

const HALF_FILLED: &str =
    r#"{"chunk_grid":{"configuration":{"chunk_shape":[10]},"name":"regular"},"chunk_key_encoding":{"name":"default"},"codecs":["bytes"],"data_type":"float64","fill_value":0.5,"node_type":"array","shape":[10],"zarr_format":3}"#;

const PAST_64_BITS: &str =
    r#"{"attributes":{"k":18446744073709551616},"node_type":"group","zarr_format":3}"#;

const GROUP_V2: &str = r#"{"zarr_format":2}"#;

const ATTRIBUTES: &str = r#"{"k":-0.0}"#;

// What goes to the standard output and the standard error, and the status, over the store of an image that may hold any numbers; and the
// variant of the refusal.
fn run_any(alloc: Global, image: &str, texts: &[&str]) -> Option<((String, String, u8), String)> {
    let words = words(alloc, texts).ok()?;
    let mut reader = image.as_bytes();
    let inner = load_image(alloc, &mut reader).ok()?;
    let mut output = Vec::new(alloc);
    let mut errors = Vec::new(alloc);
    let store = AnyNumbers { inner };
    let outcome = run_store(&Discard, alloc, &words, &store, &mut output);
    let status = finish(&outcome, &mut errors);
    let output = String::from_utf8_lossy(alloc, &output).ok()?;
    let errors = String::from_utf8_lossy(alloc, &errors).ok()?;
    Some(((output, errors, status), variant(alloc, &outcome).ok()?))
}

// Documents, the path whose block is asked for, and the path of the fraction.
const REFUSED: &[(&[(&str, &str)], &str, &str)] = &[
    (
        &[("zarr.json", GROUP), ("a/zarr.json", HALF_FILLED)],
        "/",
        "/a",
    ),
    (&[("zarr.json", GROUP), ("a/zarr.json", HALF)], "/", "/a"),
    (
        &[("zarr.json", GROUP), ("a/zarr.json", PAST_64_BITS)],
        "/",
        "/a",
    ),
    (
        &[
            (".zgroup", GROUP_V2),
            ("a/.zgroup", GROUP_V2),
            ("a/.zattrs", ATTRIBUTES),
        ],
        "/",
        "/a",
    ),
    (
        &[
            ("zarr.json", GROUP),
            ("a/zarr.json", GROUP),
            ("a/b/zarr.json", GROUP),
            ("a/b/c/zarr.json", HALF_FILLED),
        ],
        "/",
        "/a/b/c",
    ),
    (
        &[
            ("a/zarr.json", GROUP),
            ("a/b/zarr.json", GROUP),
            ("a/b/c/zarr.json", HALF),
        ],
        "/a",
        "/a/b/c",
    ),
    (
        &[
            ("zarr.json", GROUP),
            ("a/zarr.json", GROUP),
            ("a/x/zarr.json", HALF),
            ("b/zarr.json", HALF),
        ],
        "/",
        "/a/x",
    ),
    (
        &[
            ("zarr.json", HALF),
            ("a/zarr.json", HALF),
            ("a/b/zarr.json", GROUP),
        ],
        "/",
        "/a",
    ),
];

// Asserts that the block at a path of the image of some documents is refused for the fraction at another.
fn assert_refused<R: Abort + AllocGlobal>(
    rt: &R,
    documents: &[(&str, &str)],
    base: &str,
    named: &str,
) {
    let alloc = rt.alloc();
    let image = image_of(alloc, documents).expect(rt, "memory");
    let texts = ["consolidate", base];
    let (ran, refused) = run_any(alloc, image.as_str(), &texts).expect(rt, "memory");
    let errors = format!(in alloc;
        "zarrs_tool: {named} has an unsupported number, one with a fraction\n"
    ).expect(rt, "memory");
    assert_ran(rt, image.as_str(), &ran, "", errors.as_str(), 1);
    let refusal = format!(in alloc; "Fraction(NodePath {{ text: {named:?} }})").expect(
        rt, "memory",
    );
    assert_text(rt, image.as_str(), refused.as_str(), refusal.as_str());
}

#[test]
fn a_block_with_a_fraction_is_refused(rt: HostRuntime) {
    for (documents, base, named) in REFUSED {
        assert_refused(&rt, documents, base, named);
    }
}

// Documents, words, and the output.
const WRITTEN: &[(&[(&str, &str)], &[&str], &str)] = &[
    (
        &[("zarr.json", GROUP), ("a/zarr.json", GROUP)],
        &["consolidate", "/"],
        BLOCK_OF_A,
    ),
    (
        &[("zarr.json", HALF), ("a/zarr.json", GROUP)],
        &["consolidate", "/"],
        BLOCK_OF_A,
    ),
    (
        &[
            ("zarr.json", GROUP),
            ("a/zarr.json", GROUP),
            ("b/zarr.json", HALF),
        ],
        &["consolidate", "/a"],
        EMPTY_BLOCK,
    ),
    (
        &[("zarr.json", GROUP), ("z/a/zarr.json", HALF)],
        &["consolidate", "/"],
        EMPTY_BLOCK,
    ),
    (
        &[("zarr.json", GROUP), ("a/zarr.json", HALF)],
        &["children", "/"],
        "/a\n",
    ),
    (
        &[("zarr.json", HALF), ("a/zarr.json", HALF)],
        &["list", "/"],
        "/a\n",
    ),
    (
        &[("zarr.json", GROUP), ("a/zarr.json", HALF_FILLED)],
        &["tree", "/"],
        "/\n  a [10] float64\n",
    ),
];

// Asserts what is written of the image of some documents.
fn assert_written<R: Abort + AllocGlobal>(
    rt: &R,
    documents: &[(&str, &str)],
    texts: &[&str],
    output: &str,
) {
    let image = image_of(rt.alloc(), documents).expect(rt, "memory");
    let (ran, refused) = run_any(rt.alloc(), image.as_str(), texts).expect(rt, "memory");
    assert_ran(rt, image.as_str(), &ran, output, "", 0);
    assert_text(rt, image.as_str(), refused.as_str(), "");
}

#[test]
fn what_has_no_fraction_in_its_block_is_written(rt: HostRuntime) {
    for (documents, texts, output) in WRITTEN {
        assert_written(&rt, documents, texts, output);
    }
}
