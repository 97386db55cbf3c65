//! Whether a node has a document.
ghost use Rattle.std.specs.Prelude.{◌≡◌, ◌↔◌, IsTrue, IfOk, IfErr, Contains};
ghost use Rattle.zarrs_store.specs.Contents.{HasKey};
ghost use Rattle.zarrs_store.specs.Faults.{IsStoreError};
ghost use Rattle.zarrs_meaning.specs.Exists.{HasNodeKey};

use std::alloc::Global;
use zarrs_path::{NodePath, meta_key_v2_array, meta_key_v2_group, meta_key_v3};
use zarrs_store::{ListableStorageTraits, ReadableStorageTraits, StorageError, StoreKey};

/// Whether one of the documents `zarr.json`, `.zarray` and `.zgroup` of a path is in the store, by looking each of them up.
///
/// # Errors
///
/// `StorageError::Fault` of a store that can fail, and `StorageError::OutOfMemory` when out of memory.
///
/// Source: `zarrs::node::node_exists`.
pub fn node_exists<S: ReadableStorageTraits>(
    alloc: Global,
    storage: &S,
    path: &NodePath,
) -> Result<bool, StorageError>
    ensures ok { IfOk result
        (λ exists. IsTrue exists ↔ HasNodeKey (S.contents storage.now) path.now) }
    ensures refused { IfErr result (IsStoreError (S.can_fail storage.now)) }
{
    Ok(
        has_key(alloc, storage, &meta_key_v3(alloc, path)?)?
            || has_key(alloc, storage, &meta_key_v2_array(alloc, path)?)?
            || has_key(alloc, storage, &meta_key_v2_group(alloc, path)?)?,
    )
}

// Whether a key is in the store.
fn has_key<S: ReadableStorageTraits>(
    alloc: Global,
    storage: &S,
    key: &StoreKey,
) -> Result<bool, StorageError>
    ensures ok { IfOk result (λ has. IsTrue has ↔ HasKey (S.contents storage.now).values key.now) }
    ensures refused { IfErr result (IsStoreError (S.can_fail storage.now)) }
{
    Ok(storage.get(alloc, key)?.is_some())
}

/// Whether one of the documents `zarr.json`, `.zarray` and `.zgroup` of a path is in the store, by listing the keys directly below the path.
///
/// # Errors
///
/// `StorageError::Fault` of a store that can fail, and `StorageError::OutOfMemory` when out of memory.
///
/// Source: `zarrs::node::node_exists_listable`.
pub fn node_exists_listable<S: ListableStorageTraits>(
    alloc: Global,
    storage: &S,
    path: &NodePath,
) -> Result<bool, StorageError>
    ensures ok { IfOk result
        (λ exists. IsTrue exists ↔ HasNodeKey (S.contents storage.now) path.now) }
    ensures refused { IfErr result (IsStoreError (S.can_fail storage.now)) }
{
    let keys = storage.list_dir(alloc, &path.to_prefix(alloc)?)?.keys;
    let v3 = meta_key_v3(alloc, path)?;
    let array = meta_key_v2_array(alloc, path)?;
    let group = meta_key_v2_group(alloc, path)?;
    let has_v3 = holds(&keys, &v3);
    let has_array = holds(&keys, &array);
    let has_group = holds(&keys, &group);
    let has_version_2 = has_array || has_group;
    Ok(has_v3 || has_version_2)
}

// Whether a key is one of these.
fn holds(keys: &[StoreKey], key: &StoreKey) -> bool
    ensures { IsTrue result ↔ Contains keys.now key.now }
{
    for held in keys {
        if is_same(held, key) {
            return true;
        }
    }
    false
}

// Whether two keys are one.
fn is_same(held: &StoreKey, key: &StoreKey) -> bool
    ensures { IsTrue result ↔ (held.now ≡ key.now) }
{
    held.as_str() == key.as_str()
}
