//! A store from a folder of the file system.
ghost use Rattle.std.specs.Prelude.{◌≡◌, ◌+◌, ◌<◌, ◌≤◌, ◌↔◌, Contains, IfOk, IfErr, IsTrue, OnOk, string_bytes, vec_len};
ghost use Rattle.std.specs.FinMap as map;
ghost use Rattle.zarrs_store.specs.Segments.{key_cmp, key_text};
ghost use Rattle.zarrs_load.specs.Folder.{HoldsDocumentsAlone, IsFolderFault, IsRead, document_names, joined_names};
ghost use Rattle.zarrs_load.specs.StepsOfLoading.{AreFound};

use crate::fault::LoadFault;
use crate::read::ReadBuffer;
use log::{Log, warn};
use std::alloc::{AllocError, Global};
use std::fmt::Display;
use std::fs::{File, FileType};
use std::io::ErrorKind;
use std::rt::Files;
use std::{fs, io};
use zarrs_store::{MemoryStore, StoreKey};

/// The most entries of folders that one walk looks at.
pub const MOST_ENTRIES: u32 = 1_000_000;

/// The most folders that lie one in the other below the first.
pub const MOST_DEPTH: u32 = 100;

/// The store of the files below a folder. Each file becomes a key, its path below the folder.
/// Documents, which are the files named `zarr.json`, `.zarray`, `.zgroup`, `.zattrs` and
/// `.zmetadata`, are read; every other file gets no bytes and is not opened. What is neither a file
/// nor a folder is passed over, links among them.
///
/// # Errors
/// `Folder` where a folder or a file is not read, a name is not UTF-8, or a bound is passed: those
/// on entries and depth, and that of [`crate::read_whole`]. A warning names the folder or the file.
/// `OutOfMemory`.
pub fn load_folder<R: Log + Files + AllocGlobal>(
    rt: &R,
    folder: &str,
) -> Result<MemoryStore, LoadFault>
    ensures ok { IfOk result (λ store. HoldsDocumentsAlone (map.from_entries {R = key_cmp} store)) }
    ensures err { IfErr result IsFolderFault }
{
    let alloc = rt.alloc();
    let first = Folder {
        path: String::from_str(alloc, folder)?,
        key: String::new(alloc),
        deeper: MOST_DEPTH,
    };
    let mut walk = Walk {
        files: Vec::new(alloc),
        folders: Vec::new(alloc),
        entries_left: MOST_ENTRIES,
        buffer: ReadBuffer::new(alloc)?,
    };
    walk.folders.push(first)?;
    while let Some(folder) = walk.folders.pop() {
        list(rt, &folder, &mut walk)?;
    }
    Ok(store_of(alloc, walk.files)?)
}

// A folder that is to be listed, the names that lead to it, and how many folders may lie one in the
// other below it.
#[derive(Drop)]
struct Folder {
    path: String,
    key: String,
    deeper: u32,
}

// The files that were found, the folders that are still to be listed, how many more entries may be
// looked at, and the buffer that documents are read with.
#[derive(Drop)]
struct Walk {
    files: Vec<(StoreKey, Vec<u8>)>,
    folders: Vec<Folder>,
    entries_left: u32,
    buffer: ReadBuffer,
}

// Finds the files and the folders that lie in a folder.
fn list<R: Log + Files + AllocGlobal>(
    rt: &R,
    folder: &Folder,
    walk: &mut Walk,
) -> Result<(), LoadFault>
    ensures ok { OnOk result (AreFound walk.old.files.items → AreFound walk.new.files.items) }
    ensures fewer { OnOk result
        (vec_len walk.new.folders + walk.new.entries_left
        ≤ vec_len walk.old.folders + walk.old.entries_left) }
    ensures err { IfErr result IsFolderFault }
{
    let entries = match fs::read_dir(&rt, folder.path.as_str()) {
        Ok(entries) => entries,
        Err(e) => return Err(unread(rt, folder.path.as_str(), &e)),
    };
    for entry in entries {
        match entry {
            Ok(entry) => take(rt, folder, entry.path().as_str(), entry.file_name(), walk)?,
            Err(e) => return Err(unlisted(rt, folder.path.as_str(), &e)),
        }
    }
    Ok(())
}

// Finds what stands at a path, by its name in a folder.
fn take<R: Log + Files + AllocGlobal>(
    rt: &R,
    folder: &Folder,
    path: &str,
    name: &str,
    walk: &mut Walk,
) -> Result<(), LoadFault>
    ensures ok { OnOk result (AreFound walk.old.files.items → AreFound walk.new.files.items) }
    ensures fewer { OnOk result
        (vec_len walk.new.folders + walk.new.entries_left
        ≤ vec_len walk.old.folders + walk.old.entries_left) }
    ensures err { IfErr result IsFolderFault }
{
    let kind = look_at(rt, path, &mut walk.entries_left)?;
    if kind.is_dir() {
        walk.folders.push(below(rt, folder, path, name)?)?;
        return Ok(());
    }
    if kind.is_file() {
        return put(rt, path, folder.key.as_str(), name, walk);
    }
    Ok(())
}

// What stands at a path, a link as such; one more entry was looked at.
fn look_at<R: Log + Files>(
    rt: &R,
    path: &str,
    entries_left: &mut u32,
) -> Result<FileType, LoadFault>
    ensures fewer { OnOk result (entries_left.new < entries_left.old) }
    ensures err { IfErr result IsFolderFault }
{
    let Some(left) = entries_left.checked_sub(1) else {
        return Err(refused(rt, path, "too many entries lie before it"));
    };
    *entries_left = left;
    match fs::symlink_metadata(rt, path) {
        Ok(metadata) => Ok(metadata.file_type()),
        Err(e) => Err(unread(rt, path, &e)),
    }
}

// The folder with a name that lies in another.
fn below<R: Log + AllocGlobal>(
    rt: &R,
    folder: &Folder,
    path: &str,
    name: &str,
) -> Result<Folder, LoadFault>
    ensures err { IfErr result IsFolderFault }
{
    let Some(deeper) = folder.deeper.checked_sub(1) else {
        return Err(refused(rt, path, "it lies too deep"));
    };
    Ok(Folder {
        path: String::from_str(rt.alloc(), path)?,
        key: joined(rt.alloc(), folder.key.as_str(), name)?,
        deeper,
    })
}

// A file joins those found, behind the names that lead to it.
fn put<R: Log + Files + AllocGlobal>(
    rt: &R,
    path: &str,
    front: &str,
    name: &str,
    walk: &mut Walk,
) -> Result<(), LoadFault>
    ensures ok { OnOk result (AreFound walk.old.files.items → AreFound walk.new.files.items) }
    ensures folders { OnOk result (vec_len walk.new.folders ≡ vec_len walk.old.folders) }
    ensures left { OnOk result (walk.new.entries_left ≡ walk.old.entries_left) }
    ensures err { IfErr result IsFolderFault }
{
    let key = key_of(rt, path, joined(rt.alloc(), front, name)?)?;
    let bytes = bytes_of(rt, path, name, &mut walk.buffer)?;
    walk.files.push((key, bytes))?;
    Ok(())
}

// Whether a file with this name is a document.
fn is_document(name: &str) -> bool
    ensures { IsTrue result ↔ Contains document_names name.now }
{
    matches!(
        name,
        "zarr.json" | ".zarray" | ".zgroup" | ".zattrs" | ".zmetadata"
    )
}

// The bytes of a document, and none of any other file.
fn bytes_of<R: Log + Files + AllocGlobal>(
    rt: &R,
    path: &str,
    name: &str,
    buffer: &mut ReadBuffer,
) -> Result<Vec<u8>, LoadFault>
    ensures ok { IfOk result (λ bytes. IsRead name.now bytes.items) }
    ensures err { IfErr result IsFolderFault }
{
    if !is_document(name) {
        return Ok(Vec::new(rt.alloc()));
    }
    let mut file = match File::open(rt, path) {
        Ok(file) => file,
        Err(e) => return Err(unread(rt, path, &e)),
    };
    match buffer.read_whole(rt.alloc(), &mut file) {
        Ok(bytes) => Ok(bytes),
        Err(LoadFault::OutOfMemory) => Err(LoadFault::OutOfMemory),
        Err(fault) => Err(refused(rt, path, fault)),
    }
}

// The names to a file or folder, behind the names to the folder that it lies in.
fn joined(alloc: Global, front: &str, name: &str) -> Result<String, AllocError>
    ensures { IfOk result (λ text. string_bytes text ≡ joined_names front.now name.now) }
{
    if front.is_empty() {
        return String::from_str(alloc, name);
    }
    let mut text = String::from_str(alloc, front)?;
    text.push('/')?;
    text.push_str(name)?;
    Ok(text)
}

// The key with this text. A system whose names make none is refused.
fn key_of<R: Log>(rt: &R, path: &str, text: String) -> Result<StoreKey, LoadFault>
    ensures ok { IfOk result (λ key. key_text key ≡ string_bytes text) }
    ensures err { IfErr result IsFolderFault }
{
    if !StoreKey::validate(text.as_str()) {
        return Err(refused(rt, path, "its names are no store key"));
    }
    Ok(StoreKey::new_unchecked(text))
}

// Why the names in a folder are not read.
fn unlisted<R: Log>(rt: &R, folder: &str, error: &io::Error) -> LoadFault
    ensures { IsFolderFault result }
{
    if error.kind() == ErrorKind::InvalidFilename {
        return refused(rt, folder, "a name in it is not UTF-8");
    }
    unread(rt, folder, error)
}

// Why a folder or a file is not read.
fn unread<R: Log>(rt: &R, path: &str, error: &io::Error) -> LoadFault
    ensures { IsFolderFault result }
{
    if error.kind() == ErrorKind::OutOfMemory {
        return LoadFault::OutOfMemory;
    }
    refused(rt, path, error)
}

// Names the folder or file that is not read, and why.
fn refused<R: Log, D: Display + Drop>(rt: &R, path: &str, why: D) -> LoadFault
    ensures { result ≡ LoadFault.Folder }
{
    warn!(rt; "{path} was not read: {why}");
    LoadFault::Folder
}

// The store of these files, which are put into it in the order of their keys, each behind the last:
// no other is moved for it.
fn store_of(alloc: Global, files: Vec<(StoreKey, Vec<u8>)>) -> Result<MemoryStore, AllocError>
    ensures { IfOk result
        (λ store. AreFound files.items
        → HoldsDocumentsAlone (map.from_entries {R = key_cmp} store)) }
{
    let mut sorted = files;
    sorted.sort_unstable();
    let mut store = MemoryStore::new(alloc);
    for (key, bytes) in sorted {
        store.insert(key, bytes)?;
    }
    Ok(store)
}
