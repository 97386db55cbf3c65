//! The documents of single paths.
ghost use Rattle.std.specs.Prelude.{IfOk, IfErr, OnOk};
ghost use Rattle.zarrs_store.specs.Contents.{Values};
ghost use Rattle.zarrs_folder.specs.Folders.{in_any, values_of, IsFaultOfFolder};
ghost use Rattle.zarrs_folder.specs.PassedPaths.{HoldsFilesOf};
ghost use Rattle.zarrs_folder.specs.declared.documents.Documents.TheVariants.{All};
ghost use Rattle.zarrs_folder.specs.PrunedStores.{Grows, HasNoOtherKeys, HasSameFiles, IsLoadedFrom};

use crate::fault::FolderFault;
use crate::folder::Folder;
use crate::read::read_documents;
use std::alloc::Global;
use zarrs_path::NodePath;
use zarrs_store::{AnyNumbers, MemoryStore};

/// A store that was loaded from a folder, and more of it: the five documents of each of these paths, also where no listing comes.
///
/// # Errors
/// `Unread`, of a folder that can fail, where a document of these paths is not read. `OutOfMemory`.
///
/// Source: own; Zarr core specification 3.1, "Hierarchy".
pub fn load_paths<F: Folder>(
    alloc: Global,
    folder: &mut F,
    base: &NodePath,
    paths: &[NodePath],
    store: AnyNumbers<MemoryStore>,
) -> Result<AnyNumbers<MemoryStore>, FolderFault>
    ensures ok { IfOk result (λ more. (V : Values) → F.agrees folder.new V
        → IsLoadedFrom All (in_any V) (in_any (values_of store.inner)) base.now
        → IsLoadedFrom All (in_any V) (in_any (values_of more.inner)) base.now) }
    ensures grows { IfOk result (λ more. (V : Values) → F.agrees folder.new V
        → Grows V (values_of store.inner) (values_of more.inner)) }
    ensures at { IfOk result (λ more. (V : Values) → F.agrees folder.new V
        → HasNoOtherKeys V (values_of store.inner)
        → HoldsFilesOf V (values_of more.inner) paths.now) }
    ensures before { (V : Values) → F.agrees folder.new V → F.agrees folder.old V }
    ensures err { IfErr result (IsFaultOfFolder (F.can_fail folder.new)) }
{
    let mut loaded = store;
    for path in paths {
        load_path(alloc, folder, path, &mut loaded)?;
    }
    Ok(loaded)
}

// Loads the five documents of a path.
fn load_path<F: Folder>(
    alloc: Global,
    folder: &mut F,
    path: &NodePath,
    loaded: &mut AnyNumbers<MemoryStore>,
) -> Result<(), FolderFault>
    ensures grows { OnOk result ((V : Values) → F.agrees folder.new V
        → Grows V (values_of loaded.old.inner) (values_of loaded.new.inner)) }
    ensures got { OnOk result ((V : Values) → F.agrees folder.new V
        → HasNoOtherKeys V (values_of loaded.old.inner)
        → HasSameFiles V (values_of loaded.new.inner) path.now) }
    ensures before { (V : Values) → F.agrees folder.new V → F.agrees folder.old V }
    ensures err { IfErr result (IsFaultOfFolder (F.can_fail folder.new)) }
{
    let prefix = path.to_prefix(alloc)?;
    read_documents(alloc, folder, &prefix, loaded)?;
    Ok(())
}
