//! What loading a folder answers: folders that a test makes, and a file system that it plans.
use crate::loading::answers::loaded;
use crate::loading::asserts::{assert_text, assert_warned};
use crate::loading::planned::{Planned, Planted};
use log::sink::Writer;
use log::{Level, Logged};
use std::os::unix::fs::symlink;
use std::process::Abort;
use std::rt::Files;
use std::{fs, io};
use zarrs_load::{MOST_ENTRIES, load_folder};

// Makes a folder with files at paths below it.
fn make_folder(rt: &HostRuntime, folder: &str, files: &[(&str, &str)]) -> io::Result<()> {
    let _ = fs::remove_dir_all(rt, folder);
    fs::create_dir_all(rt, folder)?;
    for (path, bytes) in files {
        let path = format!(in rt.alloc(); "{folder}/{path}")?;
        if let Some((parent, _)) = path.as_str().rsplit_once('/') {
            fs::create_dir_all(rt, parent)?;
        }
        fs::write(rt, path.as_str(), *bytes)?;
    }
    Ok(())
}

// What loading a folder answers, and the warnings.
fn load<R: Files + AllocGlobal>(rt: &R, folder: &str) -> Option<(String, String)> {
    let sink = Writer::new(Vec::new(rt.alloc()));
    let answer = load_folder(&Logged::new(rt, Level::Warn, &sink), folder);
    let said = loaded(rt.alloc(), &answer)?;
    let warnings = String::from_utf8_lossy(rt.alloc(), &sink.into_inner()).ok()?;
    Some((said, warnings))
}

#[test]
fn documents_have_bytes_and_links_are_passed_over(rt: HostRuntime) {
    let folder = "documents_have_bytes_and_links_are_passed_over";
    let files = [
        ("zarr.json", "of 3"),
        ("a0/.zarray", "an array"),
        ("a0/.zgroup", "a group"),
        ("a0/.zattrs", "its attributes"),
        ("a0/.zmetadata", "its block"),
        ("a/x", "chunk"),
        ("a-b/zarr.json/c", "chunk"),
        ("a-b/zarr.jso", "no document"),
        ("a b\n\"\\/\u{e9}", "no document"),
    ];
    make_folder(&rt, folder, &files).expect(&rt, "a folder");
    fs::create_dir_all(
        &rt,
        "documents_have_bytes_and_links_are_passed_over/e/.zgroup",
    )
    .expect(&rt, "a folder");
    let links = [
        ("zarr.json", "link"),
        (".", "round"),
        ("../a0", "a/up"),
        ("../zarr.json", "a/zarr.json"),
        ("nowhere", "a/.zattrs"),
        (".zgroup", "a/.zgroup"),
    ];
    for (to, path) in links {
        let path = format!(in rt.alloc(); "{folder}/{path}").expect(&rt, "memory");
        symlink(&rt, to, path.as_str()).expect(&rt, "a link");
    }
    let loaded = load(&rt, folder).expect(&rt, "memory");
    let keys =
        "a b\n\"\\/\u{e9} \na-b/zarr.jso \na-b/zarr.json/c \na/x \na0/.zarray an array\na0/.zattrs its attributes\na0/.zgroup a group\na0/.zmetadata its block\nzarr.json of 3\n";
    assert_text(&rt, folder, loaded.0.as_str(), keys);
    assert_text(&rt, folder, loaded.1.as_str(), "");
    // A link to a folder is read where it is the folder that is asked for.
    let loaded = load(&rt, "documents_have_bytes_and_links_are_passed_over/a/up").expect(
        &rt, "memory",
    );
    let keys = ".zarray an array\n.zattrs its attributes\n.zgroup a group\n.zmetadata its block\n";
    assert_text(&rt, "a/up", loaded.0.as_str(), keys);
    let loaded = load(&rt, "documents_have_bytes_and_links_are_passed_over/e//").expect(
        &rt, "memory",
    );
    assert_text(&rt, "e//", loaded.0.as_str(), "");
    fs::remove_dir_all(&rt, folder).expect(&rt, "a folder");
}

// Asserts what loading a folder answers that has one file, and the warning.
fn assert_one_file<R: Abort + AllocGlobal>(
    rt: &R,
    last: &[u8],
    file: Planted,
    answer: &str,
    warning: &str,
) {
    let planned = Planned {
        alloc: rt.alloc(),
        many: b"",
        times: 0,
        last,
        file,
    };
    let said = load(&planned, "p").expect(rt, "memory");
    assert_text(rt, warning, said.0.as_str(), answer);
    assert_warned(rt, said.1.as_str(), warning);
}

// The names of a folder whose files cannot be read, what loading it answers, and the warning.
const BROKEN: &[(&[u8], &str, &str)] = &[
    (
        b"zarr.json\0",
        "Folder: folder fault",
        "p/zarr.json was not read: read fault",
    ),
    (
        b".zattrs\0",
        "Folder: folder fault",
        "p/.zattrs was not read: permission denied",
    ),
    (
        b"hidden\0",
        "Folder: folder fault",
        "p/hidden was not read: permission denied",
    ),
    (
        b"a\0\xff\0",
        "Folder: folder fault",
        "p was not read: a name in it is not UTF-8",
    ),
    (b".\0..\0.zattr\0", ".zattr \n", ""),
];

#[test]
fn what_is_not_read_is_named(rt: HostRuntime) {
    for (last, answer, warning) in BROKEN {
        assert_one_file(&rt, last, Planted::Broken, answer, warning);
    }
}

#[test]
fn a_document_of_a_million_bytes_is_too_long(rt: HostRuntime) {
    let alloc = rt.alloc();
    let blanks = " ".repeat(alloc, 999_999).expect(&rt, "memory");
    let long = format!(in alloc; ".zgroup {blanks}\n").expect(&rt, "memory");
    assert_one_file(&rt, b".zgroup\0", Planted::Long(999_999), long.as_str(), "");
    assert_one_file(
        &rt,
        b".zgroup\0",
        Planted::Long(1_000_000),
        "Folder: folder fault",
        "p/.zgroup was not read: input too long",
    );
}

#[test]
fn looks_at_a_million_entries_at_most(rt: HostRuntime) {
    let alloc = rt.alloc();
    let many = b"l\0".repeat(alloc, 1_000).expect(&rt, "memory");
    let planned = Planned {
        alloc,
        many: &many,
        times: MOST_ENTRIES / 1_000,
        last: b"x\0",
        file: Planted::Broken,
    };
    let said = load(&planned, "p").expect(&rt, "memory");
    assert_text(&rt, "too many", said.0.as_str(), "Folder: folder fault");
    assert_warned(
        &rt,
        said.1.as_str(),
        "p/x was not read: too many entries lie before it",
    );
}
