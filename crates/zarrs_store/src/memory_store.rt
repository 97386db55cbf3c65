ghost use Rattle.std.specs.Prelude.{◌≡◌, ◌≤◌, ◌+◌, ◌*◌, false, [], length, IsOk, OnOk, OnErr, IfOk, IfErr};
ghost use Rattle.std.specs.Map.{keys_of};
ghost use Rattle.zarrs_store.specs.Segments.{key_cmp};
ghost use Rattle.zarrs_store.specs.Contents.{of_entries, Lists, IsChildKey, IsChildPrefix};
ghost use Rattle.zarrs_store.specs.Faults.{IsStoreError};
ghost use Rattle.zarrs_store.specs.Places.{IsKeyAt, IsKeyGap, IsRange, digits, keys_below};
ghost use Rattle.std.specs.FinMap as map;

use crate::key::StoreKey;
use crate::listing::{children_below, directly_below};
use crate::places::{place_of, range_of};
use crate::prefix::StorePrefix;
use crate::storage_error::StorageError;
use crate::store::{
    ListableStorageTraits, ReadableStorageTraits, Store, StoreKeysPrefixes, WritableStorageTraits,
};
use std::alloc::{AllocError, Global};
use std::marker::Model;
use zarrs_fault::Numbers;

/// A store in memory: a vector of keys with their bytes, ascending by the keys' texts. It cannot fail, and a failed write changes nothing.
///
/// Contracts see it as the list of its entries, of which the store's finite map is made.
///
/// Source: `zarrs::storage::store::MemoryStore`.
/// <https://zarr-specs.readthedocs.io/en/latest/v3/core/index.html#abstract-store-interface>
#[derive(Debug, Drop)]
pub struct MemoryStore {
    entries: Vec<(StoreKey, Vec<u8>)>,
    alloc: Global,
}

impl Model for MemoryStore {
    ghost use Rattle.std.specs.Prelude.{List, ℕ, map};
    ghost use Rattle.zarrs_store.specs.Places.{AreAscending};

    ghost Value = { List (List (List ℕ) × List ℕ) };

    ghost view = { λ a. map (λ e. (e.0, e.1.items)) a.entries.items };

    ghost invariant = { λ a. AreAscending a.entries.items };
}

impl MemoryStore {
    /// The empty store. It keeps the allocator for its writes.
    ///
    /// Source: `zarrs::storage::store::MemoryStore::new`.
    pub fn new(alloc: Global) -> MemoryStore
        ensures { result ≡ [] }
    {
        MemoryStore {
            entries: Vec::new(alloc),
            alloc,
        }
    }

    /// Sets the bytes at the key, and takes both over without a copy; after an error nothing is changed.
    ///
    /// # Errors
    /// `AllocError` where the vector cannot grow.
    ///
    /// Source: own; `WritableStorageTraits::set` copies what it is lent.
    pub fn insert(&mut self, key: StoreKey, bytes: Vec<u8>) -> Result<(), AllocError>
        ensures ok { OnOk result
            (map.from_entries {R = key_cmp} self.new
            ≡ map.insert (map.from_entries {R = key_cmp} self.old) key bytes.items) }
        ensures unchanged { OnErr result (self.new ≡ self.old) }
    {
        let _valid = key.as_str();
        match self.place(&key) {
            Ok(at) => self.entries[at].1 = bytes,
            Err(at) => self.entries.insert(at, (key, bytes))?,
        }
        Ok(())
    }

    /// The place of the key among the keys of the store, or as `Err` the place where it would stand; and the number of comparisons of keys.
    /// It takes no memory.
    ///
    /// Source: own.
    pub fn find_counted(&self, key: &StoreKey) -> (Result<usize, usize>, u32)
        ensures found { IfOk result.0 (IsKeyAt (keys_of self.now) key.now) }
        ensures absent { IfErr result.0 (IsKeyGap (keys_of self.now) key.now) }
        ensures comparisons { result.1 ≤ digits (length self.now) }
    {
        let _valid = key.as_str();
        place_of(&self.entries, key)
    }

    /// The first place and the end of the keys that begin with the prefix, equal where there are none; and the number of comparisons of keys.
    /// It takes no memory.
    ///
    /// Source: own.
    pub fn range_counted(&self, prefix: &StorePrefix) -> (usize, usize, u32)
        ensures range { IsRange (keys_of self.now) prefix.now result.0 result.1 }
        ensures comparisons { result.2 ≤ 2 * digits (length self.now) }
    {
        let _valid = prefix.as_str();
        range_of(&self.entries, prefix)
    }

    /// What `list_dir` answers, and the number of comparisons of keys: one for each key and each child that it answers; those that find where
    /// the keys of each child end, at most twice as many as the number of keys below the prefix has binary digits; and once those that find
    /// where the keys below the prefix begin and end, at most twice as many as the number of all keys has.
    ///
    /// # Errors
    /// `StorageError::OutOfMemory`.
    ///
    /// Source: own.
    pub fn list_dir_counted(
        &self,
        alloc: Global,
        prefix: &StorePrefix,
    ) -> Result<(StoreKeysPrefixes, u64), StorageError>
        ensures keys { IfOk result
            (λ dir. Lists
            (IsChildKey (map.from_entries {R = key_cmp} self.now) prefix.now)
            dir.0.keys.items) }
        ensures prefixes { IfOk result
            (λ dir. Lists
            (IsChildPrefix (map.from_entries {R = key_cmp} self.now) prefix.now)
            dir.0.prefixes.items) }
        ensures comparisons { IfOk result
            (λ dir. dir.1
            ≤ length dir.0.keys.items + length dir.0.prefixes.items + length
            dir.0.prefixes.items *
            (2 * digits (keys_below prefix.now (keys_of self.now))) + 2 * digits
            (length self.now)) }
        ensures err { IfErr result (IsStoreError false) }
    {
        let _valid = prefix.as_str();
        let (first, end, searched) = self.range_counted(prefix);
        let (dir, compared) = directly_below(alloc, &self.entries, prefix, first, end)?;
        Ok((dir, u64::from(searched) + compared))
    }

    // What `find_counted` finds; a key behind the last is told by one comparison, with no search.
    fn place(&self, key: &StoreKey) -> Result<usize, usize>
        ensures found { IfOk result (IsKeyAt (keys_of self.now) key.now) }
        ensures absent { IfErr result (IsKeyGap (keys_of self.now) key.now) }
    {
        if let Some((last, _)) = self.entries.last() {
            if last < key {
                return Err(self.entries.len());
            }
        }
        self.find_counted(key).0
    }
}

impl Store for MemoryStore {
    ghost contents = { of_entries };

    ghost can_fail = { λ _. false };

    /// Whole numbers only.
    fn numbers(&self) -> Numbers {
        Numbers::Whole
    }
}

impl ReadableStorageTraits for MemoryStore {
    /// A copy of the bytes at the key, or nothing where the store does not have it.
    ///
    /// # Errors
    /// `StorageError::OutOfMemory`.
    fn get(&self, alloc: Global, key: &StoreKey) -> Result<Option<Vec<u8>>, StorageError> {
        let _valid = key.as_str();
        match self.find_counted(key).0 {
            Ok(at) => Ok(Some(Vec::from_slice(alloc, self.entries[at].1.as_slice())?)),
            Err(_) => Ok(None),
        }
    }
}

impl ListableStorageTraits for MemoryStore {
    /// All keys of the store, ascending by their texts.
    ///
    /// # Errors
    /// `StorageError::OutOfMemory`.
    fn list(&self, alloc: Global) -> Result<Vec<StoreKey>, StorageError> {
        let mut keys = Vec::new(alloc);
        for (key, _) in &self.entries {
            keys.push(key.try_clone(alloc)?)?;
        }
        Ok(keys)
    }

    /// The keys that begin with the prefix, ascending by their texts. They stand together, and only they are walked.
    ///
    /// # Errors
    /// `StorageError::OutOfMemory`.
    fn list_prefix(
        &self,
        alloc: Global,
        prefix: &StorePrefix,
    ) -> Result<Vec<StoreKey>, StorageError> {
        let (first, end, _) = self.range_counted(prefix);
        let mut below = Vec::new(alloc);
        for (key, _) in &self.entries.as_slice()[first..end] {
            below.push(key.try_clone(alloc)?)?;
        }
        Ok(below)
    }

    /// The keys and the child prefixes directly below the prefix, ascending by their texts, as `list_dir_counted` finds them.
    /// Memory is taken only for those, and for each child once.
    ///
    /// # Errors
    /// `StorageError::OutOfMemory`.
    fn list_dir(
        &self,
        alloc: Global,
        prefix: &StorePrefix,
    ) -> Result<StoreKeysPrefixes, StorageError> {
        Ok(self.list_dir_counted(alloc, prefix)?.0)
    }

    /// The child prefixes directly below the prefix, ascending by their texts. Memory is taken only for those, and no key is copied.
    ///
    /// # Errors
    /// `StorageError::OutOfMemory`.
    fn list_child_prefixes(
        &self,
        alloc: Global,
        prefix: &StorePrefix,
    ) -> Result<Vec<StorePrefix>, StorageError> {
        let _valid = prefix.as_str();
        let (first, end, _) = self.range_counted(prefix);
        Ok(children_below(alloc, &self.entries, prefix, first, end)?)
    }
}

impl WritableStorageTraits for MemoryStore {
    /// Sets the bytes at the key; after an error nothing is changed.
    ///
    /// # Errors
    /// `StorageError::OutOfMemory`.
    fn set(&mut self, key: &StoreKey, value: &[u8]) -> Result<(), StorageError>
        ensures ok { OnOk result
            (map.from_entries {R = key_cmp} self.new
            ≡ map.insert (map.from_entries {R = key_cmp} self.old) key.now value.now) }
        ensures err { IfErr result (IsStoreError false) }
        ensures unchanged { OnErr result (self.new ≡ self.old) }
    {
        let key = key.try_clone(self.alloc)?;
        let value = Vec::from_slice(self.alloc, value)?;
        self.insert(key, value)?;
        Ok(())
    }

    /// Removes the key; where the store does not have it, nothing is changed. It takes no memory, and always succeeds.
    ///
    /// # Errors
    /// None comes here.
    fn erase(&mut self, key: &StoreKey) -> Result<(), StorageError>
        ensures succeeds { IsOk result }
        ensures ok { OnOk result
            (map.from_entries {R = key_cmp} self.new
            ≡ map.remove (map.from_entries {R = key_cmp} self.old) key.now) }
        ensures err { IfErr result (IsStoreError false) }
        ensures unchanged { OnErr result (self.new ≡ self.old) }
    {
        let _valid = key.as_str();
        match self.find_counted(key).0 {
            Ok(at) => drop(self.entries.remove(at)),
            Err(_) => {}
        }
        Ok(())
    }
}
