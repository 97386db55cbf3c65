//! A store of one's own: a list of entries that is only read.
ghost use Rattle.std.specs.Prelude.{◌≡◌, true, false, IfOk, IfErr, IfNone, IfSome};
ghost use Rattle.std.specs.Map.{keys_of};
ghost use Rattle.zarrs_store.specs.Contents.{Lists};
ghost use Rattle.zarrs_store.specs.Places.{AreAscending, IsKeyAt, IsKeyGap, text_cmp};
ghost use Rattle.zarrs_store.specs.Segments.{IsKey};
ghost use Rattle.zarrs_meaning.specs.Refusals.{IsExcusedOr};
ghost use Rattle.zarrs_node.specs.Forest.{Shows, forest};
ghost use Rattle.zarrs_node.specs.Nodes.{Nodes, Ignored, ShowsBad, HasNothingBad};
ghost use Rattle.zarrs_examples.specs.OwnStores.{contents_of, listed_entries, RefusesEntries};
ghost use Rattle.zarrs_examples.specs.StepsOfOwnStores.{IsMisplaced};

use crate::key_list::{dir_of_keys, keys_with_prefix};
use std::alloc::Global;
use std::cmp::Ordering;
use std::marker::Model;
use thiserror::Error;
use zarrs_config::MetadataRetrieveVersion;
use zarrs_meaning::NodeCreateError;
use zarrs_node::{ListedNodes, list_nodes};
use zarrs_path::NodePath;
use zarrs_store::{
    ListableStorageTraits, Numbers, ReadableStorageTraits, StorageError, Store, StoreKey,
    StoreKeysPrefixes, StorePrefix,
};

/// A store that is only read: keys with their bytes, ascending by the keys' texts. It fails only when out of memory.
///
/// Contracts see it as its entries, of which its finite map is made, and the numbers of its documents.
///
/// Source: own.
/// <https://zarr-specs.readthedocs.io/en/latest/v3/core/index.html#abstract-store-interface>
#[derive(Debug, Drop)]
pub struct ListStore {
    entries: Vec<(StoreKey, Vec<u8>)>,
    numbers: Numbers,
}

impl Model for ListStore {
    ghost use Rattle.zarrs_store.specs.Places.{AreAscending};
    ghost use Rattle.zarrs_examples.specs.OwnStores.{ListedEntries, listed_entries};

    ghost Value = { ListedEntries };

    ghost view = { λ a. record { entries = listed_entries a.entries.items; numbers = a.numbers } };

    ghost invariant = { λ a. AreAscending a.entries.items };
}

/// Why entries make no store.
///
/// <https://zarr-specs.readthedocs.io/en/latest/v3/core/index.html#abstract-store-interface>
#[derive(Debug, Drop, Error)]
pub enum ListStoreError {
    /// Two entries, one right behind the other, have this key.
    #[error("two entries have the key {0}")]
    Double(StoreKey),
    /// The key stands right behind a greater one.
    #[error("the key {0} stands behind a greater one")]
    Unordered(StoreKey),
}

impl ListStore {
    /// The store of these entries, whose documents may hold these numbers. It takes no memory.
    ///
    /// # Errors
    ///
    /// The first key that is not greater than the key before it: `Double` where it is the same, `Unordered` where it is smaller.
    ///
    /// Source: own.
    pub fn new(
        mut entries: Vec<(StoreKey, Vec<u8>)>,
        numbers: Numbers,
    ) -> Result<ListStore, ListStoreError>
        ensures entries { IfOk result (λ store. store.entries ≡ listed_entries entries.items) }
        ensures numbers { IfOk result (λ store. store.numbers ≡ numbers) }
        ensures ascending { IfOk result (λ store. AreAscending store.entries) }
        ensures refused { IfErr result (RefusesEntries (keys_of entries.items)) }
    {
        let Some(at) = first_misplaced(&entries) else {
            return Ok(ListStore { entries, numbers });
        };
        let is_double = entries[at - 1].0 == entries[at].0;
        let (key, _) = entries.swap_remove(at);
        if is_double {
            return Err(ListStoreError::Double(key));
        }
        Err(ListStoreError::Unordered(key))
    }

    /// The nodes below a path of the store, by documents of either version, as `list_nodes` finds them in any store.
    ///
    /// # Errors
    ///
    /// The refusals of `list_nodes`, except `Fault`, since the store cannot fail.
    ///
    /// Source: own; Zarr core specification 3.1, "Hierarchy".
    pub fn nodes(&self, alloc: Global, path: &NodePath) -> Result<ListedNodes, NodeCreateError>
        ensures shows { IfOk result
            (λ l. Shows (forest l.nodes.items) path.now
            (Nodes (contents_of self.now) MetadataRetrieveVersion.Default true path.now)) }
        ensures ignored { IfOk result
            (λ l. Lists
            (Ignored (contents_of self.now) MetadataRetrieveVersion.Default true path.now)
            l.ignored.items) }
        ensures clean { IfOk result
            (λ _. HasNothingBad
            (contents_of self.now) MetadataRetrieveVersion.Default true path.now) }
        ensures refused { IfErr result
            (IsExcusedOr false
            (ShowsBad (contents_of self.now) MetadataRetrieveVersion.Default true path.now)) }
    {
        list_nodes(alloc, self, path, true, &MetadataRetrieveVersion::Default)
    }
}

// The place of the first key that is not greater than the key before it.
fn first_misplaced(entries: &[(StoreKey, Vec<u8>)]) -> Option<usize>
    ensures ascending { IfNone result (AreAscending entries.now) }
    ensures misplaced { IfSome result (IsMisplaced entries.now) }
{
    for at in 0..entries.len() {
        let key = entries[at].0.as_str();
        if at > 0 && key <= entries[at - 1].0.as_str() {
            return Some(at);
        }
    }
    None
}

// The place of the key, or as `Err` the place where it would stand.
fn place_of(entries: &[(StoreKey, Vec<u8>)], key: &StoreKey) -> Result<usize, usize>
    requires ascending { AreAscending entries.now }
    requires valid { IsKey key.now }
    ensures found { IfOk result (IsKeyAt (keys_of entries.now) key.now) }
    ensures absent { IfErr result (IsKeyGap (keys_of entries.now) key.now) }
{
    entries.binary_search_by(|entry| compare(&entry.0, key))
}

// How a key of the store stands to the key that is looked for.
fn compare(own: &StoreKey, key: &StoreKey) -> Ordering
    ensures { result ≡ text_cmp own.now key.now }
{
    own.cmp(key)
}

impl Store for ListStore {
    ghost contents = { contents_of };

    ghost can_fail = { λ _. false };

    /// Those that the maker of the store chose.
    fn numbers(&self) -> Numbers {
        self.numbers
    }
}

impl ReadableStorageTraits for ListStore {
    /// A copy of the bytes at the key, or nothing where the store does not have it. The key is found by halving.
    ///
    /// # Errors
    ///
    /// `StorageError::OutOfMemory`.
    fn get(&self, alloc: Global, key: &StoreKey) -> Result<Option<Vec<u8>>, StorageError> {
        let _valid = key.as_str();
        match place_of(&self.entries, key) {
            Ok(at) => Ok(Some(Vec::from_slice(alloc, self.entries[at].1.as_slice())?)),
            Err(_) => Ok(None),
        }
    }
}

impl ListableStorageTraits for ListStore {
    /// All keys of the store, ascending by their texts.
    ///
    /// # Errors
    ///
    /// `StorageError::OutOfMemory`.
    fn list(&self, alloc: Global) -> Result<Vec<StoreKey>, StorageError> {
        let mut keys = Vec::new(alloc);
        for (key, _) in &self.entries {
            keys.push(key.try_clone(alloc)?)?;
        }
        Ok(keys)
    }

    /// The keys that begin with the prefix, picked from all keys.
    ///
    /// # Errors
    ///
    /// `StorageError::OutOfMemory`.
    fn list_prefix(
        &self,
        alloc: Global,
        prefix: &StorePrefix,
    ) -> Result<Vec<StoreKey>, StorageError> {
        let keys = self.list(alloc)?;
        Ok(keys_with_prefix(keys, prefix))
    }

    /// The keys and the child prefixes directly below the prefix, made from all keys.
    ///
    /// # Errors
    ///
    /// `StorageError::OutOfMemory`.
    fn list_dir(
        &self,
        alloc: Global,
        prefix: &StorePrefix,
    ) -> Result<StoreKeysPrefixes, StorageError> {
        let keys = self.list(alloc)?;
        dir_of_keys(alloc, keys, prefix)
    }
}
