//! A document in a folder of the system is replaced and removed.

use crate::folders::make_folder;
use crate::same::is_same;
use crate::writing::places::answer_said;
use std::alloc::{AllocError, Global};
use std::fs;
use std::fs::Permissions;
use std::os::unix::fs::{PermissionsExt, symlink};
use std::rt::Files;
use std::test::Fail;
use zarrs_write::{Disk, Place, ReplaceError, remove_document, replace_document};

// What is answered where a document is read and then replaced.
fn replaced(rt: &HostRuntime, folder: &str, name: &str, bytes: &str) -> Result<String, AllocError> {
    let alloc = rt.alloc();
    let mut disk = Disk::new(rt, folder);
    let Ok(old) = disk.document(alloc, name) else {
        return String::from_str(alloc, "not read");
    };
    let answer = replace_document(alloc, &mut disk, name, &old, bytes.as_bytes());
    answer_said(alloc, answer)
}

// Asks what a file holds; of one that is not read nothing.
fn holds(rt: &HostRuntime, path: &str, wanted: &str) -> Result<(), Fail> {
    let text = fs::read_to_string(rt, path).unwrap_or(String::new(rt.alloc()));
    is_same(Ok(text), wanted)
}

// Asks whether no file stands at a path.
fn is_absent(rt: &HostRuntime, path: &str) -> Result<(), Fail> {
    if fs::exists(rt, path)? {
        Err(Fail::new(format_args!("{path} is there")))
    } else {
        Ok(())
    }
}

// Asks whether a file has a mode.
fn has_mode(rt: &HostRuntime, path: &str, wanted: u32) -> Result<(), Fail> {
    let mode = fs::metadata(rt, path)?.permissions().mode() & 0o777;
    if mode == wanted {
        Ok(())
    } else {
        Err(Fail::new(format_args!("{path} has the mode {mode}")))
    }
}

#[test]
fn a_document_is_replaced_and_keeps_its_mode(rt: HostRuntime) -> Result<(), Fail> {
    make_folder(&rt, "replaced", &[("zarr.json", "old")])?;
    fs::set_permissions(&rt, "replaced/zarr.json", Permissions::from_mode(0o640))?;
    is_same(replaced(&rt, "replaced", "zarr.json", "new"), "Written")?;
    holds(&rt, "replaced/zarr.json", "new")?;
    has_mode(&rt, "replaced/zarr.json", 0o640)?;
    is_same(replaced(&rt, "replaced/", "zarr.json", "new"), "Unchanged")?;
    is_same(replaced(&rt, "replaced", ".zmetadata", "{}"), "Written")?;
    holds(&rt, "replaced/.zmetadata", "{}")?;
    is_absent(&rt, "replaced/zarr.json.zarrs_new")?;
    fs::remove_dir_all(&rt, "replaced")?;
    Ok(())
}

// What is answered where a document is told to hold `old` and is removed.
fn removed(rt: &HostRuntime, folder: &str, name: &str) -> Result<String, AllocError> {
    let alloc = rt.alloc();
    let mut old = Vec::new(alloc);
    old.extend_from_slice(b"old")?;
    let answer = remove_document(alloc, &mut Disk::new(rt, folder), name, &Some(old));
    answer_said(alloc, answer)
}

#[test]
fn a_document_is_removed(rt: HostRuntime) -> Result<(), Fail> {
    make_folder(&rt, "removed", &[(".zmetadata", "old")])?;
    is_same(removed(&rt, "removed", ".zmetadata"), "Gone")?;
    is_absent(&rt, "removed/.zmetadata")?;
    let answer = removed(&rt, "removed", ".zmetadata");
    is_same(answer, "Changed: .zmetadata was changed meanwhile")?;
    fs::remove_dir_all(&rt, "removed")?;
    Ok(())
}

// What is answered where a document is told to be there not yet.
fn made(rt: &HostRuntime, folder: &str, name: &str) -> Result<String, AllocError> {
    let alloc = rt.alloc();
    let answer = replace_document(alloc, &mut Disk::new(rt, folder), name, &None, b"new");
    answer_said(alloc, answer)
}

// Folders and documents, and what is answered where each is told to be there not yet.
const REFUSED: [(&str, &str, &str); 5] = [
    (
        "refused",
        "link",
        "Failed: link was not read: what stands there is no file",
    ),
    (
        "refused",
        "folder",
        "Failed: folder was not read: what stands there is no file",
    ),
    (
        "refused",
        "a",
        "LeftOver: a.zarrs_new is left over from a run that was broken off: remove it",
    ),
    (
        "refused/nope",
        "a",
        "Failed: a.zarrs_new was not made: No such file or directory",
    ),
    (
        "refused/zarr.json",
        "a",
        "Failed: a was not read: Not a directory",
    ),
];

#[test]
fn what_is_no_document_is_refused_in_the_systems_words(rt: HostRuntime) -> Result<(), Fail> {
    make_folder(&rt, "refused", &[("zarr.json", "old")])?;
    symlink(&rt, "zarr.json", "refused/link")?;
    fs::create_dir_all(&rt, "refused/folder")?;
    fs::write(&rt, "refused/a.zarrs_new", "half")?;
    for (folder, name, wanted) in REFUSED {
        is_same(made(&rt, folder, name), wanted)?;
    }
    holds(&rt, "refused/a.zarrs_new", "half")?;
    fs::remove_dir_all(&rt, "refused")?;
    Ok(())
}
