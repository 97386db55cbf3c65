//! The documents of one path.
ghost use Rattle.std.specs.Prelude.{◌≡◌, ◌||◌, IsTrue, IfOk, IfErr, OnOk, is_some};
ghost use Rattle.zarrs_store.specs.Segments.{is_segment};
ghost use Rattle.zarrs_store.specs.Contents.{Values, HasBelow};
ghost use Rattle.zarrs_folder.specs.Folders.{values_of, IsFaultOfFolder};
ghost use Rattle.zarrs_folder.specs.PrunedStores.{Grows, HasLoaded, HasNoOtherKeys, HasSameFile, HasSameFiles, at_file};
ghost use Rattle.zarrs_folder.specs.StepsOfLoadingNodes.{HasFound};

use crate::documents::Documents;
use crate::fault::FolderFault;
use crate::folder::Folder;
use std::alloc::Global;
use zarrs_store::{AnyNumbers, MemoryStore, StorePrefix};

/// Which documents were found at a path.
#[derive(Clone, Copy)]
pub(crate) struct Found {
    /// `zarr.json`.
    zarr_json: bool,
    /// `zarr.json` or `.zarray`.
    array: bool,
    /// `zarr.json`, `.zarray` or `.zgroup`.
    group: bool,
    /// Any.
    any: bool,
}

/// Loads those of the documents at a prefix that are asked for, and tells whether there is any.
///
/// # Errors
/// `Unread`, of a folder that can fail, where a document is not read. `OutOfMemory`.
pub(crate) fn read_some<F: Folder>(
    alloc: Global,
    folder: &mut F,
    documents: Documents,
    prefix: &StorePrefix,
    loaded: &mut AnyNumbers<MemoryStore>,
) -> Result<bool, FolderFault>
    ensures grows { OnOk result ((V : Values) → F.agrees folder.new V
        → Grows V (values_of loaded.old.inner) (values_of loaded.new.inner)) }
    ensures got { OnOk result ((V : Values) → F.agrees folder.new V
        → HasNoOtherKeys V (values_of loaded.old.inner)
        → HasLoaded documents V (values_of loaded.new.inner) prefix.now) }
    ensures any { IfOk result
        (λ any. IsTrue any → HasBelow (values_of loaded.new.inner) prefix.now) }
    ensures before { (V : Values) → F.agrees folder.new V → F.agrees folder.old V }
    ensures err { IfErr result (IsFaultOfFolder (F.can_fail folder.new)) }
{
    match documents {
        Documents::All => read_all(alloc, folder, prefix, loaded),
        Documents::Deciding => read_deciding(alloc, folder, prefix, loaded),
    }
}

// Loads all documents at a prefix, and what a broken-off writing left beside them.
fn read_all<F: Folder>(
    alloc: Global,
    folder: &mut F,
    prefix: &StorePrefix,
    loaded: &mut AnyNumbers<MemoryStore>,
) -> Result<bool, FolderFault>
    ensures grows { OnOk result ((V : Values) → F.agrees folder.new V
        → Grows V (values_of loaded.old.inner) (values_of loaded.new.inner)) }
    ensures got { OnOk result ((V : Values) → F.agrees folder.new V
        → HasNoOtherKeys V (values_of loaded.old.inner)
        → HasLoaded Documents.All V (values_of loaded.new.inner) prefix.now) }
    ensures any { IfOk result
        (λ any. IsTrue any → HasBelow (values_of loaded.new.inner) prefix.now) }
    ensures before { (V : Values) → F.agrees folder.new V → F.agrees folder.old V }
    ensures err { IfErr result (IsFaultOfFolder (F.can_fail folder.new)) }
{
    let found = read_documents(alloc, folder, prefix, loaded)?;
    let any = found.any;
    if found.zarr_json {
        return read_document(alloc, folder, prefix, "zarr.json.zarrs_new", any, loaded);
    }
    if found.array {
        return Ok(any);
    }
    if found.group {
        return read_document(alloc, folder, prefix, ".zmetadata.zarrs_new", any, loaded);
    }
    Ok(any)
}

// Loads the documents at a prefix that decide what its path means.
fn read_deciding<F: Folder>(
    alloc: Global,
    folder: &mut F,
    prefix: &StorePrefix,
    loaded: &mut AnyNumbers<MemoryStore>,
) -> Result<bool, FolderFault>
    ensures grows { OnOk result ((V : Values) → F.agrees folder.new V
        → Grows V (values_of loaded.old.inner) (values_of loaded.new.inner)) }
    ensures got { OnOk result ((V : Values) → F.agrees folder.new V
        → HasNoOtherKeys V (values_of loaded.old.inner)
        → HasLoaded Documents.Deciding V (values_of loaded.new.inner) prefix.now) }
    ensures any { IfOk result
        (λ any. IsTrue any → HasBelow (values_of loaded.new.inner) prefix.now) }
    ensures before { (V : Values) → F.agrees folder.new V → F.agrees folder.old V }
    ensures err { IfErr result (IsFaultOfFolder (F.can_fail folder.new)) }
{
    if read_document(alloc, folder, prefix, "zarr.json", false, loaded)? {
        return Ok(true);
    }
    if read_document(alloc, folder, prefix, ".zarray", false, loaded)? {
        return read_document(alloc, folder, prefix, ".zattrs", true, loaded);
    }
    let any = read_document(alloc, folder, prefix, ".zgroup", false, loaded)?;
    read_document(alloc, folder, prefix, ".zattrs", any, loaded)
}

/// Loads, where all documents are asked for, what a broken-off writing left at a prefix, whose five documents are loaded.
///
/// # Errors
/// `Unread`, of a folder that can fail, where a file is not read. `OutOfMemory`.
pub(crate) fn read_left<F: Folder>(
    alloc: Global,
    folder: &mut F,
    documents: Documents,
    prefix: &StorePrefix,
    loaded: &mut AnyNumbers<MemoryStore>,
) -> Result<(), FolderFault>
    ensures grows { OnOk result ((V : Values) → F.agrees folder.new V
        → Grows V (values_of loaded.old.inner) (values_of loaded.new.inner)) }
    ensures got { OnOk result ((V : Values) → F.agrees folder.new V
        → HasNoOtherKeys V (values_of loaded.old.inner)
        → HasSameFiles V (values_of loaded.old.inner) prefix.now
        → HasLoaded documents V (values_of loaded.new.inner) prefix.now) }
    ensures before { (V : Values) → F.agrees folder.new V → F.agrees folder.old V }
    ensures err { IfErr result (IsFaultOfFolder (F.can_fail folder.new)) }
{
    match documents {
        Documents::All => {
            read_document(alloc, folder, prefix, "zarr.json.zarrs_new", true, loaded)?;
            read_document(alloc, folder, prefix, ".zmetadata.zarrs_new", true, loaded)?;
            Ok(())
        }
        Documents::Deciding => Ok(()),
    }
}

/// Loads the five documents at a prefix, and tells which there are.
///
/// # Errors
/// `Unread`, of a folder that can fail, where a document is not read. `OutOfMemory`.
pub(crate) fn read_documents<F: Folder>(
    alloc: Global,
    folder: &mut F,
    prefix: &StorePrefix,
    loaded: &mut AnyNumbers<MemoryStore>,
) -> Result<Found, FolderFault>
    ensures grows { OnOk result ((V : Values) → F.agrees folder.new V
        → Grows V (values_of loaded.old.inner) (values_of loaded.new.inner)) }
    ensures got { OnOk result ((V : Values) → F.agrees folder.new V
        → HasNoOtherKeys V (values_of loaded.old.inner)
        → HasSameFiles V (values_of loaded.new.inner) prefix.now) }
    ensures found { IfOk result (λ found. (V : Values) → F.agrees folder.new V
        → HasFound V prefix.now found) }
    ensures any { IfOk result
        (λ found. IsTrue found.any → HasBelow (values_of loaded.new.inner) prefix.now) }
    ensures before { (V : Values) → F.agrees folder.new V → F.agrees folder.old V }
    ensures err { IfErr result (IsFaultOfFolder (F.can_fail folder.new)) }
{
    let zarr_json = read_document(alloc, folder, prefix, "zarr.json", false, loaded)?;
    let array = read_document(alloc, folder, prefix, ".zarray", zarr_json, loaded)?;
    let group = read_document(alloc, folder, prefix, ".zgroup", array, loaded)?;
    let any = read_document(alloc, folder, prefix, ".zattrs", group, loaded)?;
    let any = read_document(alloc, folder, prefix, ".zmetadata", any, loaded)?;
    Ok(Found {
        zarr_json,
        array,
        group,
        any,
    })
}

/// Loads the document with a name, and tells whether it, or any before it, is there.
///
/// # Errors
/// `Unread`, of a folder that can fail, where the document is not read. `OutOfMemory`.
pub(crate) fn read_document<F: Folder>(
    alloc: Global,
    folder: &mut F,
    prefix: &StorePrefix,
    file: &str,
    any: bool,
    loaded: &mut AnyNumbers<MemoryStore>,
) -> Result<bool, FolderFault>
    requires { IsTrue (is_segment file.now) }
    ensures grows { OnOk result ((V : Values) → F.agrees folder.new V
        → Grows V (values_of loaded.old.inner) (values_of loaded.new.inner)) }
    ensures got { OnOk result ((V : Values) → F.agrees folder.new V
        → HasNoOtherKeys V (values_of loaded.old.inner)
        → HasSameFile V (values_of loaded.new.inner) prefix.now file.now) }
    ensures found { IfOk result (λ found. (V : Values) → F.agrees folder.new V
        → found ≡ is_some (at_file V prefix.now file.now) || any) }
    ensures any { IfOk result (λ found.
        (IsTrue any → HasBelow (values_of loaded.old.inner) prefix.now)
        → IsTrue found → HasBelow (values_of loaded.new.inner) prefix.now) }
    ensures before { (V : Values) → F.agrees folder.new V → F.agrees folder.old V }
    ensures err { IfErr result (IsFaultOfFolder (F.can_fail folder.new)) }
{
    let key = prefix.key_in(String::new(alloc), file)?;
    match folder.document(alloc, &key)? {
        Some(bytes) => {
            loaded.inner.insert(key, bytes)?;
            Ok(true)
        }
        None => Ok(any),
    }
}
