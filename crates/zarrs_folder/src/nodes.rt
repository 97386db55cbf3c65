//! The part of a folder's store that its nodes need.
ghost use Rattle.std.specs.Prelude.{◌≡◌, ◌++◌, ◌∷◌, [], false, None, IsTrue, IsSome, IfOk, IfErr, IfSome, OnOk};
ghost use Rattle.zarrs_store.specs.Contents.{Values, HasBelow};
ghost use Rattle.zarrs_meta.specs.Node.{is_group};
ghost use Rattle.zarrs_config.specs.declared.version.MetadataRetrieveVersion.TheVariants.{Default};
ghost use Rattle.zarrs_meaning.specs.Meaning.{meaning, node};
ghost use Rattle.zarrs_folder.specs.Folders.{in_any, values_of, IsFaultOfFolder};
ghost use Rattle.zarrs_folder.specs.PrunedStores.{Grows, HasBaseOf, HasLoaded, HasNoOtherKeys, IsLoadedFrom};
ghost use Rattle.zarrs_folder.specs.StepsOfLoadingNodes.{IsLoadedButAhead, MayBeGroup};

use crate::documents::Documents;
use crate::fault::FolderFault;
use crate::folder::Folder;
use crate::kinds::may_be_group;
use crate::read::{read_documents, read_left, read_some};
use std::alloc::{AllocError, Global};
use zarrs_config::MetadataRetrieveVersion;
use zarrs_meaning::NodeCreateError;
use zarrs_meta::NodeMetadata;
use zarrs_node::Node;
use zarrs_path::{NodePath, NodePathError};
use zarrs_store::{AnyNumbers, MemoryStore, ReadableStorageTraits, StorageError, StorePrefix};

/// The store of the files below a folder, as far as a walk from a path on looks at it: the five documents of the path, those that are asked for of each
/// folder that is reached from it through groups, and one key below each folder without documents that holds a file. Only groups are listed, and the
/// path itself where it is no array. Nothing below an array or a bad document is looked at, nor below what is no path. Keys beside documents have
/// no bytes.
///
/// # Errors
/// `Unread`, of a folder that can fail, where a folder or a file is not read that the walk comes to. `OutOfMemory`.
///
/// Source: own; Zarr core specification 3.1, "Hierarchy".
pub fn load_nodes<F: Folder>(
    alloc: Global,
    folder: &mut F,
    documents: Documents,
    base: &NodePath,
) -> Result<AnyNumbers<MemoryStore>, FolderFault>
    ensures ok { IfOk result (λ store. (V : Values) → F.agrees folder.new V
        → IsLoadedFrom documents (in_any V) (in_any (values_of store.inner)) base.now) }
    ensures before { (V : Values) → F.agrees folder.new V → F.agrees folder.old V }
    ensures err { IfErr result (IsFaultOfFolder (F.can_fail folder.new)) }
{
    let store = load_base(alloc, folder, base)?;
    load_below(alloc, folder, documents, base, store)
}

/// The five documents of a path, without anything else: all that is needed where the path has a block that is used.
///
/// # Errors
/// `Unread`, of a folder that can fail, where a document is not read. `OutOfMemory`.
///
/// Source: own; Zarr core specification 3.1, "Metadata".
pub fn load_base<F: Folder>(
    alloc: Global,
    folder: &mut F,
    base: &NodePath,
) -> Result<AnyNumbers<MemoryStore>, FolderFault>
    ensures ok { IfOk result (λ store. (V : Values) → F.agrees folder.new V
        → HasBaseOf (in_any V) (in_any (values_of store.inner)) base.now) }
    ensures before { (V : Values) → F.agrees folder.new V → F.agrees folder.old V }
    ensures err { IfErr result (IsFaultOfFolder (F.can_fail folder.new)) }
{
    let mut store = AnyNumbers {
        inner: MemoryStore::new(alloc),
    };
    let prefix = base.to_prefix(alloc)?;
    read_documents(alloc, folder, &prefix, &mut store)?;
    Ok(store)
}

/// What [`load_nodes`] answers, by a store that has the documents of the path already.
///
/// # Errors
/// `Unread`, of a folder that can fail, where a folder or a file is not read that the walk comes to. `OutOfMemory`.
///
/// Source: own; Zarr core specification 3.1, "Hierarchy".
pub fn load_below<F: Folder>(
    alloc: Global,
    folder: &mut F,
    documents: Documents,
    base: &NodePath,
    store: AnyNumbers<MemoryStore>,
) -> Result<AnyNumbers<MemoryStore>, FolderFault>
    ensures ok { IfOk result (λ loaded. (V : Values) → F.agrees folder.new V
        → HasBaseOf (in_any V) (in_any (values_of store.inner)) base.now
        → IsLoadedFrom documents (in_any V) (in_any (values_of loaded.inner)) base.now) }
    ensures before { (V : Values) → F.agrees folder.new V → F.agrees folder.old V }
    ensures err { IfErr result (IsFaultOfFolder (F.can_fail folder.new)) }
{
    if is_array(&find(alloc, &store, base)?) {
        return Ok(store);
    }
    load_children(alloc, folder, documents, base, store)
}

/// What [`load_below`] answers, where the path is known to be no array: it is not asked. Of an array what lies below it is looked at for nothing.
///
/// # Errors
/// Those of [`load_below`].
///
/// Source: own; Zarr core specification 3.1, "Hierarchy".
pub fn load_children<F: Folder>(
    alloc: Global,
    folder: &mut F,
    documents: Documents,
    base: &NodePath,
    store: AnyNumbers<MemoryStore>,
) -> Result<AnyNumbers<MemoryStore>, FolderFault>
    ensures ok { IfOk result (λ loaded. (V : Values) → F.agrees folder.new V
        → HasBaseOf (in_any V) (in_any (values_of store.inner)) base.now
        → IsLoadedFrom documents (in_any V) (in_any (values_of loaded.inner)) base.now) }
    ensures before { (V : Values) → F.agrees folder.new V → F.agrees folder.old V }
    ensures err { IfErr result (IsFaultOfFolder (F.can_fail folder.new)) }
{
    let mut loaded = store;
    let prefix = base.to_prefix(alloc)?;
    read_left(alloc, folder, documents, &prefix, &mut loaded)?;
    let mut ahead = folder.children(alloc, &prefix)?;
    let walk = Walk {
        alloc,
        base,
        documents,
    };
    walk_on(folder, walk, &mut ahead, &mut loaded)?;
    Ok(loaded)
}

// Where a walk begins, which documents of each path it loads, and where the memory for them comes from.
#[derive(Clone, Copy)]
struct Walk<'a> {
    alloc: Global,
    base: &'a NodePath,
    documents: Documents,
}

// Loads what lies ahead, until nothing does. There is no bound: memory does not hold as many prefixes as there are turns.
fn walk_on<F: Folder>(
    folder: &mut F,
    walk: Walk<'_>,
    ahead: &mut Vec<StorePrefix>,
    loaded: &mut AnyNumbers<MemoryStore>,
) -> Result<(), FolderFault>
    ensures ok { OnOk result ((V : Values) → F.agrees folder.new V
        → IsLoadedButAhead walk.entry.documents V walk.entry.base.now
        (values_of loaded.old.inner) ahead.old.items
        → IsLoadedButAhead walk.entry.documents V walk.entry.base.now
        (values_of loaded.new.inner) []) }
    ensures before { (V : Values) → F.agrees folder.new V → F.agrees folder.old V }
    ensures err { IfErr result (IsFaultOfFolder (F.can_fail folder.new)) }
{
    for _turn in 0..u64::MAX {
        let Some(next) = ahead.pop() else {
            return Ok(());
        };
        look(folder, walk, next, ahead, loaded)?;
    }
    Err(FolderFault::OutOfMemory)
}

// Loads what a prefix holds, and puts what is then to be looked at on the stack.
fn look<F: Folder>(
    folder: &mut F,
    walk: Walk<'_>,
    prefix: StorePrefix,
    ahead: &mut Vec<StorePrefix>,
    loaded: &mut AnyNumbers<MemoryStore>,
) -> Result<(), FolderFault>
    ensures ok { OnOk result ((V : Values) → F.agrees folder.new V
        → IsLoadedButAhead walk.entry.documents V walk.entry.base.now
        (values_of loaded.old.inner) (ahead.old.items ++ prefix ∷ [])
        → IsLoadedButAhead walk.entry.documents V walk.entry.base.now
        (values_of loaded.new.inner) ahead.new.items) }
    ensures before { (V : Values) → F.agrees folder.new V → F.agrees folder.old V }
    ensures err { IfErr result (IsFaultOfFolder (F.can_fail folder.new)) }
{
    let _valid = walk.base.as_str();
    match NodePath::from_prefix(walk.alloc, &prefix) {
        Ok(path) => look_at(folder, walk, &path, &prefix, ahead, loaded),
        Err(NodePathError::Invalid(_)) => keep_one(walk.alloc, folder, &prefix, loaded),
        Err(NodePathError::OutOfMemory) => Err(FolderFault::OutOfMemory),
    }
}

// The same, of the prefix of a path. One that is not below the base is passed over.
fn look_at<F: Folder>(
    folder: &mut F,
    walk: Walk<'_>,
    path: &NodePath,
    prefix: &StorePrefix,
    ahead: &mut Vec<StorePrefix>,
    loaded: &mut AnyNumbers<MemoryStore>,
) -> Result<(), FolderFault>
    requires { path.now ≡ prefix.now }
    ensures ok { OnOk result ((V : Values) → F.agrees folder.new V
        → IsLoadedButAhead walk.entry.documents V walk.entry.base.now
        (values_of loaded.old.inner) (ahead.old.items ++ prefix.now ∷ [])
        → IsLoadedButAhead walk.entry.documents V walk.entry.base.now
        (values_of loaded.new.inner) ahead.new.items) }
    ensures before { (V : Values) → F.agrees folder.new V → F.agrees folder.old V }
    ensures err { IfErr result (IsFaultOfFolder (F.can_fail folder.new)) }
{
    if !path.is_below(walk.base) {
        return Ok(());
    }
    load_at(walk.alloc, folder, walk.documents, prefix, loaded)?;
    if !is_group_at(walk.alloc, loaded, path)? {
        return Ok(());
    }
    let mut children = folder.children(walk.alloc, prefix)?;
    ahead.append(&mut children)?;
    Ok(())
}

// Loads the documents at a prefix, or where there is none some key below it.
fn load_at<F: Folder>(
    alloc: Global,
    folder: &mut F,
    documents: Documents,
    prefix: &StorePrefix,
    loaded: &mut AnyNumbers<MemoryStore>,
) -> Result<(), FolderFault>
    ensures grows { OnOk result ((V : Values) → F.agrees folder.new V
        → Grows V (values_of loaded.old.inner) (values_of loaded.new.inner)) }
    ensures got { OnOk result ((V : Values) → F.agrees folder.new V
        → HasNoOtherKeys V (values_of loaded.old.inner)
        → HasLoaded documents V (values_of loaded.new.inner) prefix.now) }
    ensures below { OnOk result ((V : Values) → F.agrees folder.new V
        → HasBelow V prefix.now → HasBelow (values_of loaded.new.inner) prefix.now) }
    ensures before { (V : Values) → F.agrees folder.new V → F.agrees folder.old V }
    ensures err { IfErr result (IsFaultOfFolder (F.can_fail folder.new)) }
{
    if read_some(alloc, folder, documents, prefix, loaded)? {
        return Ok(());
    }
    keep_one(alloc, folder, prefix, loaded)
}

// Whether a path is a group in what is loaded. The document of most arrays is not read for it.
fn is_group_at(
    alloc: Global,
    loaded: &AnyNumbers<MemoryStore>,
    path: &NodePath,
) -> Result<bool, AllocError>
    ensures { IfOk result (MayBeGroup (values_of loaded.now.inner) path.now) }
{
    if !may_be_group(alloc, loaded, path)? {
        return Ok(false);
    }
    Ok(is_group(&find(alloc, loaded, path)?))
}

// What a path means in what is loaded, where it is a node.
fn find(
    alloc: Global,
    loaded: &AnyNumbers<MemoryStore>,
    path: &NodePath,
) -> Result<Option<NodeMetadata>, AllocError>
    ensures some { IfOk result (λ found. IfSome found
        (λ m. meaning (in_any (values_of loaded.now.inner)) Default path.now ≡ node m)) }
    ensures none { IfOk result (λ found. found ≡ None → (m : NodeMetadata)
        → meaning (in_any (values_of loaded.now.inner)) Default path.now ≡ node m → ⊥) }
{
    match Node::get_metadata(alloc, loaded, path, &MetadataRetrieveVersion::Default) {
        Ok(metadata) => Ok(Some(metadata)),
        Err(NodeCreateError::MissingMetadata(_)) => Ok(None),
        Err(NodeCreateError::MetadataVersionMismatch) => Ok(None),
        Err(NodeCreateError::StorageError(StorageError::InvalidMetadata(_, _))) => Ok(None),
        Err(_) => Err(AllocError),
    }
}

// Whether a group was found.
fn is_group(found: &Option<NodeMetadata>) -> bool
    ensures { result ≡ false → IfSome found.now (λ m. is_group m ≡ false) }
{
    match found {
        Some(metadata) => metadata.is_group(),
        None => false,
    }
}

// Whether an array was found.
fn is_array(found: &Option<NodeMetadata>) -> bool
    ensures some { IsTrue result → IsSome found.now }
    ensures kind { IsTrue result → IfSome found.now (λ m. is_group m ≡ false) }
{
    match found {
        Some(metadata) => !metadata.is_group(),
        None => false,
    }
}

// Loads some key below a prefix, where there is one. It gets no bytes, and where it is loaded already it keeps those it has.
fn keep_one<F: Folder>(
    alloc: Global,
    folder: &mut F,
    prefix: &StorePrefix,
    loaded: &mut AnyNumbers<MemoryStore>,
) -> Result<(), FolderFault>
    ensures grows { OnOk result ((V : Values) → F.agrees folder.new V
        → Grows V (values_of loaded.old.inner) (values_of loaded.new.inner)) }
    ensures below { OnOk result ((V : Values) → F.agrees folder.new V
        → HasBelow V prefix.now → HasBelow (values_of loaded.new.inner) prefix.now) }
    ensures before { (V : Values) → F.agrees folder.new V → F.agrees folder.old V }
    ensures err { IfErr result (IsFaultOfFolder (F.can_fail folder.new)) }
{
    let Some(key) = folder.any_below(alloc, prefix)? else {
        return Ok(());
    };
    match loaded.inner.get(alloc, &key) {
        Ok(Some(_)) => Ok(()),
        Ok(None) => {
            loaded.inner.insert(key, Vec::new(alloc))?;
            Ok(())
        }
        Err(_) => Err(FolderFault::OutOfMemory),
    }
}
