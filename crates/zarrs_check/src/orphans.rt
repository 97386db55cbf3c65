//! The paths with documents of nodes below those at which a walk goes no further.
ghost use Rattle.std.specs.Prelude.{◌↔◌, IsTrue, IfOk, IfErr};
ghost use Rattle.zarrs_store.specs.Faults.{IsStoreError};
ghost use Rattle.zarrs_check.specs.Orphans.{IsCountBelow, AreHidden};
ghost use Rattle.zarrs_check.specs.StepsOfOrphans.{IsNodeFile, IsKeyedPath, IsNodePathOf, IsPathJoined, AreKeyedBelow, AreOrphansAmong};

use crate::bad_documents::BadDocuments;
use std::alloc::{AllocError, Global};
use zarrs_path::{NodePath, NodePathError};
use zarrs_store::{ListableStorageTraits, StorageError, StoreKey};

// Those of the paths below which paths have a document of a node, each with their number, in the order of the paths.
pub(crate) fn orphans_of<S: ListableStorageTraits>(
    alloc: Global,
    storage: &S,
    ignored: &[NodePath],
) -> Result<Vec<(NodePath, usize)>, StorageError>
    ensures ok { IfOk result
        (λ orphans. AreOrphansAmong (S.contents storage.now) ignored.now orphans.items) }
    ensures err { IfErr result (IsStoreError (S.can_fail storage.now)) }
{
    let mut orphans = Vec::new(alloc);
    for path in ignored {
        let count = count_below(alloc, storage, path)?;
        if count > 0 {
            orphans.push((path.try_clone(alloc)?, count))?;
        }
    }
    Ok(orphans)
}

// For each of the bad documents the number of paths below its own that have a document of a node.
pub(crate) fn hidden_below<S: ListableStorageTraits>(
    alloc: Global,
    storage: &S,
    bad: &BadDocuments,
) -> Result<Vec<usize>, StorageError>
    ensures ok { IfOk result
        (λ hidden. AreHidden (S.contents storage.now) bad.now hidden.items) }
    ensures err { IfErr result (IsStoreError (S.can_fail storage.now)) }
{
    let mut hidden = Vec::new(alloc);
    for (path, _error) in bad.as_slice() {
        hidden.push(count_below(alloc, storage, path)?)?;
    }
    Ok(hidden)
}

// The number of paths below a path that have a document of a node. No document is read.
fn count_below<S: ListableStorageTraits>(
    alloc: Global,
    storage: &S,
    path: &NodePath,
) -> Result<usize, StorageError>
    ensures ok { IfOk result (IsCountBelow (S.contents storage.now) path.now) }
    ensures err { IfErr result (IsStoreError (S.can_fail storage.now)) }
{
    let keys = storage.list_prefix(alloc, &path.to_prefix(alloc)?)?;
    let mut paths = paths_of(alloc, path, keys)?;
    paths.sort_unstable();
    paths.dedup();
    Ok(paths.len())
}

// The paths below a path at which a document of a node is among the keys, once for each.
fn paths_of(
    alloc: Global,
    path: &NodePath,
    keys: Vec<StoreKey>,
) -> Result<Vec<NodePath>, AllocError>
    ensures { IfOk result (λ paths. AreKeyedBelow keys.items path.now paths.items) }
{
    let mut paths = Vec::new(alloc);
    for key in keys {
        if let Some(node) = node_below(alloc, path, &key)? {
            paths.push(node)?;
        }
    }
    Ok(paths)
}

// The path below a path at which a key is that of a document of a node, and nothing for other keys.
fn node_below(
    alloc: Global,
    path: &NodePath,
    key: &StoreKey,
) -> Result<Option<NodePath>, AllocError>
    ensures { IfOk result (IsKeyedPath path.now key.now) }
{
    match node_path_of(alloc, key)? {
        Some(node) if node.is_below(path) => Ok(Some(node)),
        _ => Ok(None),
    }
}

// The path at which a key is that of a document of a node, and nothing for the root and for other keys.
fn node_path_of(alloc: Global, key: &StoreKey) -> Result<Option<NodePath>, AllocError>
    ensures { IfOk result (IsNodePathOf key.now) }
{
    let Some((names, file)) = key.as_str().rsplit_once('/') else {
        return Ok(None);
    };
    if is_node_file(file) {
        path_joined(alloc, names)
    } else {
        Ok(None)
    }
}

// Whether a name is that of a document of a node.
fn is_node_file(name: &str) -> bool
    ensures { IsTrue result ↔ IsNodeFile name.now }
{
    matches!(name, "zarr.json" | ".zarray" | ".zgroup")
}

// The path of names that are joined by slashes, and nothing where one of them is no name.
fn path_joined(alloc: Global, names: &str) -> Result<Option<NodePath>, AllocError>
    ensures { IfOk result (IsPathJoined names.now) }
{
    let text = format!(in alloc; "/{names}")?;
    match NodePath::new(alloc, text.as_str()) {
        Ok(path) => Ok(Some(path)),
        Err(NodePathError::Invalid(_)) => Ok(None),
        Err(NodePathError::OutOfMemory) => Err(AllocError),
    }
}
