//! A folder of the system: its documents, links, and what is not read. Scripts beside the gate try more.

use crate::asserts::assert_ran;
use crate::folders::{make_folder, run};
use crate::same::is_same;
use crate::ticking::Ticking;
use log::sink::Writer;
use log::{Level, Log, Logged};
use std::alloc::{AllocError, Global};
use std::io::Eprint;
use std::os::unix::fs::symlink;
use std::rt::Files;
use std::test::Fail;
use std::time::Clock;
use std::{fs, io};
use tests_support::{A2, A3, G2, G3, printed};
use zarrs_folder::{Disk, Documents, FolderFault, load_nodes};
use zarrs_path::NodePath;
use zarrs_store::{AnyNumbers, ListableStorageTraits, MemoryStore};

// Makes a folder with files at paths below it, and links.
fn make_linked(
    rt: &HostRuntime,
    folder: &str,
    files: &[(&str, &str)],
    links: &[(&str, &str)],
) -> io::Result<()> {
    make_folder(rt, folder, files)?;
    for (to, path) in links {
        let path = format!(in rt.alloc(); "{folder}/{path}")?;
        symlink(rt, *to, path.as_str())?;
    }
    Ok(())
}

fn load<R: Log + Files + Clock + Eprint + AllocGlobal>(
    rt: &R,
    folder: &str,
    path: &str,
    is_watched: bool,
) -> Result<AnyNumbers<MemoryStore>, FolderFault> {
    let mut folder = Disk::open(rt, folder)?.telling(is_watched);
    folder.look_along(path)?;
    let Ok(base) = NodePath::new(rt.alloc(), path) else {
        return Err(FolderFault::OutOfMemory);
    };
    load_nodes(rt.alloc(), &mut folder, Documents::All, &base)
}

// The keys of a store, with a blank behind each.
fn keys_said(alloc: Global, store: &AnyNumbers<MemoryStore>) -> Result<String, AllocError> {
    let mut text = String::new(alloc);
    let Ok(keys) = store.list(alloc) else {
        return Err(AllocError);
    };
    for key in keys {
        text.push_str(key.as_str())?;
        text.push(' ')?;
    }
    Ok(text)
}

// The keys that are loaded of a folder from a path on or why none are, and the warnings.
fn said(rt: &HostRuntime, folder: &str, path: &str) -> Result<String, AllocError> {
    let sink = Writer::new(Vec::new(rt.alloc()));
    let answer = load(&Logged::new(rt, Level::Warn, &sink), folder, path, false);
    let mut text = match answer {
        Ok(store) => keys_said(rt.alloc(), &store)?,
        Err(fault) => printed(&fault, rt.alloc())?,
    };
    let warnings = String::from_utf8_lossy(rt.alloc(), &sink.into_inner())?;
    text.push_str(warnings.as_str())?;
    Ok(text)
}

// Asks whether a text has these keys and this warning alone.
fn has_loaded(found: &str, keys: &str, warning: &str) -> Result<(), Fail> {
    let (found_keys, warnings) = found.split_once('[').unwrap_or((found, ""));
    if found_keys == keys && warnings == warning {
        Ok(())
    } else {
        Err(Fail::new(format_args!("found {found}")))
    }
}

// The warning of a link that leads back.
const LINK_BACK: &str =
    "WARN  zarrs_folder::disk] disks/link/up was passed over: it is a link to a folder on its own way\n";

#[test]
fn links_are_followed_and_one_on_its_own_way_is_named(rt: HostRuntime) -> Result<(), Fail> {
    let files = [
        ("s/zarr.json", G3),
        ("s/a/zarr.json", A3),
        ("s/a/c/0/zarr.json", G3),
        ("s/u/v/w", ""),
        ("t/x/zarr.json", A3),
        ("t/zarr.json", G3),
    ];
    let links = [
        ("../t", "s/g"),
        (".", "s/up"),
        ("nowhere", "s/gone"),
        ("s", "link"),
    ];
    make_linked(&rt, "disks", &files, &links)?;
    has_loaded(
        said(&rt, "disks/link", "/")?.as_str(),
        "a/zarr.json g/x/zarr.json g/zarr.json u/v/w zarr.json ",
        LINK_BACK,
    )?;
    has_loaded(said(&rt, "disks/link", "/up/a")?.as_str(), "", LINK_BACK)?;
    has_loaded(
        said(&rt, "disks/link", "/g/x")?.as_str(),
        "g/x/zarr.json ",
        "",
    )?;
    fs::remove_dir_all(&rt, "disks")?;
    Ok(())
}

// A group with a block of a child, of a link and of what stands behind the link.
const OVER_A_LINK: &str =
    r#"{"consolidated_metadata":{"kind":"inline","metadata":{"a":{"node_type":"group","zarr_format":3},"up":{"node_type":"group","zarr_format":3},"up/a":{"node_type":"group","zarr_format":3}},"must_understand":false},"node_type":"group","zarr_format":3}"#;

#[test]
fn nothing_stands_behind_a_link_on_its_own_way(rt: HostRuntime) -> Result<(), Fail> {
    let files = [("zarr.json", OVER_A_LINK), ("a/zarr.json", G3)];
    make_linked(&rt, "behind", &files, &[(".", "up")])?;
    assert_ran(
        &rt,
        "entries behind a link",
        &run(&rt, &["check", "behind"])?,
        "/up: stale: the block of / has it, and the store has not\n/up/a: stale: the block of / has it, and the store has not\n",
        "[WARN  zarrs_folder::disk] behind/up was passed over: it is a link to a folder on its own way\nzarrs: 2 nodes, 2 findings\n",
        1,
    );
    for words in [
        &["show", "behind", "/up/a"],
        &["list", "behind", "/up/a"],
        &["consolidate", "behind", "/up/a"],
    ] {
        assert_ran(
            &rt,
            "a path behind a link",
            &run(&rt, words)?,
            "",
            "[WARN  zarrs_folder::disk] behind/up was passed over: it is a link to a folder on its own way\nzarrs: there is no node at /up/a in behind\n",
            2,
        );
    }
    assert_ran(
        &rt,
        "a check of a path behind a link",
        &run(&rt, &["check", "behind", "/up/a"])?,
        "/up/a: Metadata is missing for /up/a\n/up/a: stale: the block of / has it, and the store has not\n",
        "[WARN  zarrs_folder::disk] behind/up was passed over: it is a link to a folder on its own way\nzarrs: 0 nodes, 2 findings\n",
        1,
    );
    fs::remove_dir_all(&rt, "behind")?;
    Ok(())
}

// The warning of a node that no listing shows.
const HIDDEN: &str =
    "was passed over: its name begins with __, so no listing shows it, and no block gets it";

#[test]
fn a_node_that_no_listing_shows_is_named(rt: HostRuntime) -> Result<(), Fail> {
    let files = [
        (".zgroup", G2),
        ("__a/.zarray", A2),
        ("__b/zarr.json", ""),
        ("__c/.zgroup", G2),
        ("__d/.zattrs", "{}"),
        ("__e/.zgroup/0", ""),
        ("_f/.zgroup", G2),
        ("g/.zgroup", G2),
        ("g/__h/.zarray", A2),
        ("i/.zarray", A2),
        ("i/__j/.zarray", A2),
        ("k__/.zarray", A2),
    ];
    make_folder(&rt, "hidden", &files)?;
    let line = |name| format!(in rt.alloc(); "[WARN  zarrs_folder::disk] hidden/{name} {HIDDEN}\n");
    let mut wanted = String::from_str(
        rt.alloc(),
        ".zgroup __a/.zarray __b/zarr.json __c/.zgroup __d/.zattrs __e/.zgroup/0 _f/.zgroup g/.zgroup g/__h/.zarray i/.zarray k__/.zarray ",
    )?;
    for name in ["__a", "__b", "__c", "g/__h"] {
        wanted.push_str(line(name)?.as_str())?;
    }
    is_same(said(&rt, "hidden", "/"), wanted.as_str())?;
    fs::remove_dir_all(&rt, "hidden")?;
    Ok(())
}

#[test]
fn what_is_not_read_is_named_with_the_systems_words(rt: HostRuntime) -> Result<(), Fail> {
    make_folder(&rt, "unread", &[("file", "")])?;
    let absent = said(&rt, "unread/nope", "/");
    is_same(absent, "unread/nope: No such file or directory")?;
    let file = said(&rt, "unread/file", "/");
    is_same(file, "unread/file is a file, and a store is a folder")?;
    is_same(said(&rt, "unread", "/"), "")?;
    fs::remove_dir_all(&rt, "unread")?;
    Ok(())
}

// What is told of the nodes that were read, by a clock that goes on a second for each.
fn told(rt: &HostRuntime, folder: &str, is_watched: bool) -> Result<String, AllocError> {
    let sink = Writer::new(Vec::new(rt.alloc()));
    let ticking = Ticking::new(rt);
    let log = Logged::new(&ticking, Level::Warn, &sink);
    let mut text = match load(&log, folder, "/", is_watched) {
        Ok(store) => keys_said(rt.alloc(), &store)?,
        Err(fault) => printed(&fault, rt.alloc())?,
    };
    let said = String::from_utf8_lossy(rt.alloc(), &ticking.into_said())?;
    text.push_str(said.as_str())?;
    Ok(text)
}

#[test]
fn each_two_seconds_a_line_says_how_many_nodes_were_read(rt: HostRuntime) -> Result<(), Fail> {
    let files = [
        (".zgroup", "{\"zarr_format\":2}"),
        (".zattrs", "{}"),
        ("a/zarr.json", A3),
        ("b/zarr.json", A3),
        ("c/zarr.json", A3),
        ("d/zarr.json", A3),
        ("scratch/file", ""),
    ];
    make_folder(&rt, "told", &files)?;
    is_same(
        told(&rt, "told", false),
        ".zattrs .zgroup a/zarr.json b/zarr.json c/zarr.json d/zarr.json scratch/file ",
    )?;
    is_same(
        told(&rt, "told", true),
        ".zattrs .zgroup a/zarr.json b/zarr.json c/zarr.json d/zarr.json scratch/file 2 nodes read so far\n4 nodes read so far\n",
    )?;
    fs::remove_dir_all(&rt, "told")?;
    Ok(())
}
