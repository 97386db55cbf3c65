//! What a folder gives: folders that a test makes.
use crate::answer;
use crate::answers::loaded;
use crate::asserts::{assert_ran, assert_text};
use crate::folder::load_folder;
use crate::tests::{GROUP, USAGE, words};
use log::sink::Writer;
use log::{Level, Log, Logged};
use std::alloc::{AllocError, Global};
use std::process::Abort;
use std::rt::Files;
use std::{fs, io};

// Makes a folder with files at paths below it.
fn make_folder(rt: &HostRuntime, folder: &str, files: &[(&str, &str)]) -> io::Result<()> {
    let _ = fs::remove_dir_all(rt, folder);
    fs::create_dir_all(rt, folder)?;
    for (path, bytes) in files {
        let path = format!(in rt.alloc(); "{folder}/{path}")?;
        if let Some((parent, _)) = path.as_str().rsplit_once('/') {
            fs::create_dir_all(rt, parent)?;
        }
        fs::write(rt, path.as_str(), *bytes)?;
    }
    Ok(())
}

// What goes to the standard output, what to the standard error, warnings first, and the status.
fn run(rt: &HostRuntime, texts: &[&str]) -> Result<(String, String, u8), AllocError> {
    let alloc = rt.alloc();
    let words = words(alloc, texts)?;
    let sink = Writer::new(Vec::new(alloc));
    let mut output = Vec::new(alloc);
    let mut errors = Vec::new(alloc);
    let mut reader = b"".as_slice();
    let status = answer(
        &Logged::new(rt, Level::Warn, &sink),
        &words,
        &mut reader,
        &mut output,
        &mut errors,
    );
    let mut said = sink.into_inner();
    said.extend_from_slice(&errors)?;
    Ok((
        String::from_utf8_lossy(alloc, &output)?,
        String::from_utf8_lossy(alloc, &said)?,
        status,
    ))
}

// What loading a folder answers.
fn loaded_said<R: Log + Files + AllocGlobal>(rt: &R, folder: &str) -> Option<String> {
    let answer = load_folder(rt, folder);
    loaded(rt.alloc(), &answer)
}

// What loading a folder answers, and the warnings.
fn load<R: Files + AllocGlobal>(rt: &R, folder: &str) -> Option<(String, String)> {
    let sink = Writer::new(Vec::new(rt.alloc()));
    let said = loaded_said(&Logged::new(rt, Level::Warn, &sink), folder)?;
    let warnings = String::from_utf8_lossy(rt.alloc(), &sink.into_inner()).ok()?;
    Some((said, warnings))
}

// The folder of a test.
const FOLDER: &str = "prints_the_tree_of_a_folder";

const PASSED_OVER: &str =
    "[WARN  zarrs_node::children] Object at /a/c is not recognized as a component of a Zarr hierarchy. Ignoring.\n";

// Words, what goes to the standard output and to the standard error, and the status.
const OF_FOLDER: &[(&[&str], &str, &str, u8)] = &[
    (&["folder", FOLDER, "tree", "/"], "/\n  a\n", PASSED_OVER, 0),
    (
        &["folder", FOLDER, "tree", "a"],
        "",
        "zarrs_tool: invalid node path a\n",
        1,
    ),
    (
        &["folder", FOLDER, "tree", "/b"],
        "",
        "zarrs_tool: Metadata is missing for /b\n",
        1,
    ),
    (&["folder", FOLDER, "list", "/"], "", USAGE, 2),
    (&["folder", FOLDER, "tree"], "", USAGE, 2),
    (&["folder", FOLDER, "tree", "/", "/"], "", USAGE, 2),
    (&["tree", FOLDER, "folder", "/"], "", USAGE, 2),
    (&["folder"], "", USAGE, 2),
    // An image, and the input is empty.
    (
        &["tree", "/"],
        "",
        "zarrs_tool: image is not a JSON object\n",
        1,
    ),
];

#[test]
fn prints_the_tree_of_a_folder(rt: HostRuntime) {
    let files = [
        ("zarr.json", GROUP),
        ("a/zarr.json", GROUP),
        ("a/c/0", "5byte"),
    ];
    make_folder(&rt, FOLDER, &files).expect(&rt, "a folder");
    for (texts, output, errors, status) in OF_FOLDER {
        let ran = run(&rt, texts).expect(&rt, "memory");
        assert_ran(&rt, errors, &ran, output, errors, *status);
    }
    fs::remove_dir_all(&rt, FOLDER).expect(&rt, "a folder");
}

// Asserts what loading a folder answers, and the warnings.
fn assert_loaded<R: Abort + Files + AllocGlobal>(
    rt: &R,
    folder: &str,
    answer: &str,
    warnings: &str,
) {
    let said = load(rt, folder).expect(rt, "memory");
    assert_text(rt, folder, said.0.as_str(), answer);
    assert_text(rt, folder, said.1.as_str(), warnings);
}

// The folder of a test that goes deep.
const DEEP: &str = "what_is_no_folder_or_too_deep_is_refused";

// What is no folder, and why it was not read.
const NO_FOLDERS: &[(&str, &str)] = &[
    ("", " was not read: No such file or directory (os error 2)"),
    (
        "what_is_no_folder_or_too_deep_is_refused/zarr.json",
        " was not read: Not a directory (os error 20)",
    ),
    (
        "what_is_no_folder_or_too_deep_is_refused/b",
        " was not read: No such file or directory (os error 2)",
    ),
    (
        "b\0",
        " was not read: file name contained an unexpected NUL byte",
    ),
];

// Asserts that a folder is refused, with a warning that says why.
fn assert_no_folder<R: Abort + Files + AllocGlobal>(rt: &R, folder: &str, why: &str) {
    let warning = format!(in rt.alloc(); "[WARN  zarrs_tool::folder] {folder}{why}\n").expect(
        rt, "memory",
    );
    assert_loaded(rt, folder, "Folder: folder fault", warning.as_str());
}

// A path of so many folders in each other, below another.
fn deep_below(alloc: Global, folder: &str, levels: usize) -> Result<String, AllocError> {
    let mut deep = String::from_str(alloc, folder)?;
    for _ in 0..levels {
        deep.push_str("/d")?;
    }
    Ok(deep)
}

// Asserts that a document below a hundred folders is loaded, and that a folder below these is refused.
fn assert_depth<R: Abort + Files + AllocGlobal>(rt: &R, folder: &str) {
    let alloc = rt.alloc();
    let mut deep = deep_below(alloc, folder, 100).expect(rt, "memory");
    fs::create_dir_all(rt, deep.as_str()).expect(rt, "folders");
    let file = format!(in alloc; "{deep}/zarr.json").expect(rt, "memory");
    fs::write(rt, file.as_str(), GROUP).expect(rt, "a file");
    let names = "d/".repeat(alloc, 100).expect(rt, "memory");
    let keys = format!(in alloc;
        "{names}zarr.json {GROUP}\nx/.zarray an array\nx/.zattrs its attributes\nx/.zgroup a group\nx/.zmetadata its block\nx/y \nzarr.json {GROUP}\n"
    ).expect(rt, "memory");
    assert_loaded(rt, folder, keys.as_str(), "");
    deep.push_str("/e").expect(rt, "memory");
    fs::create_dir_all(rt, deep.as_str()).expect(rt, "folders");
    let warning = format!(in alloc;
        "[WARN  zarrs_tool::folder] {deep} was not read: it lies too deep\n"
    ).expect(rt, "memory");
    assert_loaded(rt, folder, "Folder: folder fault", warning.as_str());
}

#[test]
fn what_is_no_folder_or_too_deep_is_refused(rt: HostRuntime) {
    let files = [
        ("zarr.json", GROUP),
        ("x/.zarray", "an array"),
        ("x/.zattrs", "its attributes"),
        ("x/.zgroup", "a group"),
        ("x/.zmetadata", "its block"),
        ("x/y", "5byte"),
    ];
    make_folder(&rt, DEEP, &files).expect(&rt, "a folder");
    for (folder, why) in NO_FOLDERS {
        assert_no_folder(&rt, folder, why);
    }
    assert_depth(&rt, DEEP);
    let ran = run(&rt, &["folder", DEEP, "tree", "x"]).expect(&rt, "memory");
    assert_text(&rt, "too deep", ran.0.as_str(), "");
    assert!(rt; ran.1.as_str().ends_with("\nzarrs_tool: folder fault\n"));
    assert_eq!(rt; ran.2, 1);
    fs::remove_dir_all(&rt, DEEP).expect(&rt, "a folder");
}
