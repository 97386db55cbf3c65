//! What a store answers that can list only all its keys: those that begin with a prefix, and what stands directly below one.
ghost use Rattle.std.specs.Prelude.{◌≡◌, false, IfOk, IfErr};
ghost use Rattle.zarrs_store.specs.Contents.{HasKey, Lists, IsKeyBelow, IsChildKey, IsChildPrefix, Values};
ghost use Rattle.zarrs_store.specs.Entries.{is_below};
ghost use Rattle.zarrs_store.specs.Faults.{IsStoreError};
ghost use Rattle.zarrs_examples.specs.StepsOfOwnStores.{HasOnly};

use std::alloc::{AllocError, Global};
use zarrs_store::{
    ListableStorageTraits, MemoryStore, StorageError, StoreKey, StoreKeysPrefixes, StorePrefix,
};

/// Of all keys of a store, each once, those that begin with the prefix, in their order. It takes no memory.
///
/// Source: own; Zarr core specification 3.1, "Abstract store interface", `list_prefix`.
pub fn keys_with_prefix(mut keys: Vec<StoreKey>, prefix: &StorePrefix) -> Vec<StoreKey>
    ensures { (S : Values)
        → Lists (HasKey S) keys.items
        → Lists (IsKeyBelow S prefix.now) result.items }
{
    keys.retain(|key| is_below(prefix, key));
    keys
}

/// Of all keys of a store, each once, what stands directly below the prefix: keys and child prefixes. Each key is looked at.
///
/// # Errors
///
/// `StorageError::OutOfMemory`.
///
/// Source: own; Zarr core specification 3.1, "Abstract store interface", `list_dir`.
pub fn dir_of_keys(
    alloc: Global,
    keys: Vec<StoreKey>,
    prefix: &StorePrefix,
) -> Result<StoreKeysPrefixes, StorageError>
    ensures keys { IfOk result
        (λ dir. (S : Values)
        → Lists (HasKey S) keys.items
        → Lists (IsChildKey S prefix.now) dir.keys.items) }
    ensures prefixes { IfOk result
        (λ dir. (S : Values)
        → Lists (HasKey S) keys.items
        → Lists (IsChildPrefix S prefix.now) dir.prefixes.items) }
    ensures err { IfErr result (IsStoreError false) }
{
    let store = store_of_keys(alloc, keys)?;
    store.list_dir(alloc, prefix)
}

// The store in memory that has just these keys, without bytes.
fn store_of_keys(alloc: Global, keys: Vec<StoreKey>) -> Result<MemoryStore, AllocError>
    ensures { IfOk result (λ store. HasOnly store keys.items) }
{
    let mut store = MemoryStore::new(alloc);
    for key in keys {
        store.insert(key, Vec::new(alloc))?;
    }
    Ok(store)
}

// Whether the key begins with the prefix.
fn is_below(prefix: &StorePrefix, key: &StoreKey) -> bool
    ensures { result ≡ is_below prefix.now key.now }
{
    key.as_str().strip_prefix(prefix.as_str()).is_some()
}
