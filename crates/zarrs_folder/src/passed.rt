//! The documents below the paths at which a walk goes no further.
ghost use Rattle.std.specs.Prelude.{◌≡◌, ◌++◌, ◌∷◌, [], IfOk, IfErr, OnOk};
ghost use Rattle.zarrs_store.specs.Contents.{Values};
ghost use Rattle.zarrs_folder.specs.Folders.{in_any, values_of, IsFaultOfFolder};
ghost use Rattle.zarrs_folder.specs.PassedPaths.{HoldsBelow};
ghost use Rattle.zarrs_folder.specs.declared.documents.Documents.TheVariants.{All};
ghost use Rattle.zarrs_folder.specs.PrunedStores.{Grows, HasNoOtherKeys, IsLoadedFrom};
ghost use Rattle.zarrs_folder.specs.StepsOfLoadingNodes.{HoldsButAhead};

use crate::fault::FolderFault;
use crate::folder::Folder;
use crate::read::read_document;
use std::alloc::Global;
use zarrs_path::NodePath;
use zarrs_store::{AnyNumbers, MemoryStore, StorePrefix};

/// A store that was loaded from a folder, and more of it: the documents `zarr.json`, `.zarray` and `.zgroup` of each path below these. All folders
/// below them are listed, those of chunks too.
///
/// # Errors
/// `Unread`, of a folder that can fail, where a folder or a document below these paths is not read. `OutOfMemory`.
///
/// Source: own; Zarr core specification 3.1, "Hierarchy".
pub fn load_passed<F: Folder>(
    alloc: Global,
    folder: &mut F,
    base: &NodePath,
    passed: &[NodePath],
    store: AnyNumbers<MemoryStore>,
) -> Result<AnyNumbers<MemoryStore>, FolderFault>
    ensures ok { IfOk result (λ more. (V : Values) → F.agrees folder.new V
        → IsLoadedFrom All (in_any V) (in_any (values_of store.inner)) base.now
        → IsLoadedFrom All (in_any V) (in_any (values_of more.inner)) base.now) }
    ensures grows { IfOk result (λ more. (V : Values) → F.agrees folder.new V
        → Grows V (values_of store.inner) (values_of more.inner)) }
    ensures below { IfOk result (λ more. (V : Values) → F.agrees folder.new V
        → HasNoOtherKeys V (values_of store.inner)
        → HoldsBelow V (values_of more.inner) passed.now) }
    ensures before { (V : Values) → F.agrees folder.new V → F.agrees folder.old V }
    ensures err { IfErr result (IsFaultOfFolder (F.can_fail folder.new)) }
{
    let mut loaded = store;
    for path in passed {
        load_documents(alloc, folder, path, &mut loaded)?;
    }
    Ok(loaded)
}

// Loads the documents of each path below one.
fn load_documents<F: Folder>(
    alloc: Global,
    folder: &mut F,
    path: &NodePath,
    loaded: &mut AnyNumbers<MemoryStore>,
) -> Result<(), FolderFault>
    ensures grows { OnOk result ((V : Values) → F.agrees folder.new V
        → Grows V (values_of loaded.old.inner) (values_of loaded.new.inner)) }
    ensures below { OnOk result ((V : Values) → F.agrees folder.new V
        → HasNoOtherKeys V (values_of loaded.old.inner)
        → HoldsBelow V (values_of loaded.new.inner) (path.now ∷ [])) }
    ensures before { (V : Values) → F.agrees folder.new V → F.agrees folder.old V }
    ensures err { IfErr result (IsFaultOfFolder (F.can_fail folder.new)) }
{
    let prefix = path.to_prefix(alloc)?;
    let mut ahead = folder.children(alloc, &prefix)?;
    load_ahead(alloc, folder, path, &mut ahead, loaded)
}

// Loads the documents of what lies ahead, and of all below it, until nothing does. There is no bound: memory does not hold as many prefixes as there
// are turns.
fn load_ahead<F: Folder>(
    alloc: Global,
    folder: &mut F,
    path: &NodePath,
    ahead: &mut Vec<StorePrefix>,
    loaded: &mut AnyNumbers<MemoryStore>,
) -> Result<(), FolderFault>
    ensures grows { OnOk result ((V : Values) → F.agrees folder.new V
        → Grows V (values_of loaded.old.inner) (values_of loaded.new.inner)) }
    ensures ok { OnOk result ((V : Values) → F.agrees folder.new V
        → HoldsButAhead V path.now (values_of loaded.old.inner) ahead.old.items
        → HoldsButAhead V path.now (values_of loaded.new.inner) []) }
    ensures before { (V : Values) → F.agrees folder.new V → F.agrees folder.old V }
    ensures err { IfErr result (IsFaultOfFolder (F.can_fail folder.new)) }
{
    for _turn in 0..u64::MAX {
        let Some(next) = ahead.pop() else {
            return Ok(());
        };
        load_one(alloc, folder, path, &next, ahead, loaded)?;
    }
    Err(FolderFault::OutOfMemory)
}

// Loads the documents at a prefix, and puts its children on the stack.
fn load_one<F: Folder>(
    alloc: Global,
    folder: &mut F,
    path: &NodePath,
    prefix: &StorePrefix,
    ahead: &mut Vec<StorePrefix>,
    loaded: &mut AnyNumbers<MemoryStore>,
) -> Result<(), FolderFault>
    ensures grows { OnOk result ((V : Values) → F.agrees folder.new V
        → Grows V (values_of loaded.old.inner) (values_of loaded.new.inner)) }
    ensures ok { OnOk result ((V : Values) → F.agrees folder.new V
        → HoldsButAhead V path.now
        (values_of loaded.old.inner) (ahead.old.items ++ prefix.now ∷ [])
        → HoldsButAhead V path.now (values_of loaded.new.inner) ahead.new.items) }
    ensures before { (V : Values) → F.agrees folder.new V → F.agrees folder.old V }
    ensures err { IfErr result (IsFaultOfFolder (F.can_fail folder.new)) }
{
    let _valid = path.as_str();
    read_document(alloc, folder, prefix, "zarr.json", false, loaded)?;
    read_document(alloc, folder, prefix, ".zarray", false, loaded)?;
    read_document(alloc, folder, prefix, ".zgroup", false, loaded)?;
    let mut children = folder.children(alloc, prefix)?;
    ahead.append(&mut children)?;
    Ok(())
}
