//! A store in memory that fails at one place, for trying what stands on stores.
ghost use Rattle.std.specs.Prelude.{◌≡◌, ◌≢◌, ◌↔◌, IsTrue, [], IsOk, IsErr, OnOk, OnErr, IfOk, IfErr, true};
ghost use Rattle.std.specs.Option.{option_map};
ghost use Rattle.std.specs.FinMap as map;
ghost use Rattle.zarrs_fault.specs.declared.numbers.Numbers.TheVariants.{Whole};
ghost use Rattle.zarrs_store.specs.Contents.{HasKey, Lists, IsKeyBelow, IsChildKey, IsChildPrefix, AgreesExceptAt};
ghost use Rattle.zarrs_store.specs.FailingStores.{inner_contents, first_half};
ghost use Rattle.zarrs_store.specs.Faults.{IsStoreError};

use crate::key::StoreKey;
use crate::memory_store::MemoryStore;
use crate::prefix::StorePrefix;
use crate::storage_error::StorageError;
use crate::store::{
    ListableStorageTraits, ReadableStorageTraits, Store, StoreKeysPrefixes, WritableStorageTraits,
};
use std::alloc::Global;
use std::marker::Model;
use zarrs_fault::Numbers;

/// The one place at which a `FaultStore` fails.
///
/// Source: own.
/// <https://zarr-specs.readthedocs.io/en/latest/v3/core/index.html#abstract-store-interface>
#[derive(Debug, Drop)]
pub enum FaultAt {
    /// Reading this key.
    OnGet(StoreKey),
    /// Listing this prefix: `list_dir` and `list_prefix` of it, and `list` where it is empty.
    OnList(StorePrefix),
    /// Setting this key.
    OnSet(StoreKey),
    /// Erasing this key.
    OnErase(StoreKey),
}

impl FaultAt {
    // Whether reading this key is the place.
    fn is_get(&self, key: &StoreKey) -> bool
        ensures { IsTrue result ↔ (self.now ≡ FaultAt.OnGet key.now) }
    {
        match self {
            FaultAt::OnGet(at) => is_same_key(at, key),
            _ => false,
        }
    }

    // Whether listing this prefix is the place.
    fn is_list(&self, prefix: &StorePrefix) -> bool
        ensures { IsTrue result ↔ (self.now ≡ FaultAt.OnList prefix.now) }
    {
        match self {
            FaultAt::OnList(at) => is_same_prefix(at, prefix),
            _ => false,
        }
    }

    // Whether listing all keys is the place.
    fn is_list_of_all(&self) -> bool
        ensures { IsTrue result ↔ (self.now ≡ FaultAt.OnList []) }
    {
        match self {
            FaultAt::OnList(at) => is_empty(at),
            _ => false,
        }
    }

    // Whether setting this key is the place.
    fn is_set(&self, key: &StoreKey) -> bool
        ensures { IsTrue result ↔ (self.now ≡ FaultAt.OnSet key.now) }
    {
        match self {
            FaultAt::OnSet(at) => is_same_key(at, key),
            _ => false,
        }
    }

    // Whether erasing this key is the place.
    fn is_erase(&self, key: &StoreKey) -> bool
        ensures { IsTrue result ↔ (self.now ≡ FaultAt.OnErase key.now) }
    {
        match self {
            FaultAt::OnErase(at) => is_same_key(at, key),
            _ => false,
        }
    }
}

// Whether the keys are the same.
fn is_same_key(a: &StoreKey, b: &StoreKey) -> bool
    ensures { IsTrue result ↔ (a.now ≡ b.now) }
{
    a.as_str() == b.as_str()
}

// Whether the prefixes are the same.
fn is_same_prefix(a: &StorePrefix, b: &StorePrefix) -> bool
    ensures { IsTrue result ↔ (a.now ≡ b.now) }
{
    a.as_str() == b.as_str()
}

// Whether the prefix is the empty one.
fn is_empty(prefix: &StorePrefix) -> bool
    ensures { IsTrue result ↔ (prefix.now ≡ []) }
{
    prefix.as_str().is_empty()
}

/// A store in memory that answers `Fault` at its one place, as often as it is asked there, and else what the store in memory answers.
///
/// Contracts see it as the entries of the store in memory, and the place.
///
/// Source: own.
/// <https://zarr-specs.readthedocs.io/en/latest/v3/core/index.html#abstract-store-interface>
#[derive(Debug, Drop)]
pub struct FaultStore {
    inner: MemoryStore,
    place: FaultAt,
}

impl Model for FaultStore {
    ghost use Rattle.zarrs_store.specs.FailingStores.{Failing};

    ghost Value = { Failing };

    ghost view = { λ a. record { inner = a.inner; place = a.place } };
}

impl FaultStore {
    /// The store that holds what `inner` holds, and fails at this place. It takes no memory.
    ///
    /// Source: own.
    pub fn new(inner: MemoryStore, place: FaultAt) -> FaultStore
        ensures inner { result.inner ≡ inner }
        ensures place { result.place ≡ place }
    {
        FaultStore { inner, place }
    }

    /// The store in memory, as the calls so far left it. It takes no memory.
    ///
    /// Source: own.
    pub fn inner(&self) -> &MemoryStore
        ensures { result.now ≡ self.now.inner }
    {
        &self.inner
    }
}

impl Store for FaultStore {
    ghost contents = { λ s. record { values = inner_contents s; numbers = Whole } };

    ghost can_fail = { λ _. true };

    /// Whole numbers only.
    fn numbers(&self) -> Numbers {
        Numbers::Whole
    }
}

impl ReadableStorageTraits for FaultStore {
    /// A copy of the bytes at the key, or nothing where the store does not have it.
    ///
    /// # Errors
    /// `StorageError::Fault` exactly where this is the place. `StorageError::OutOfMemory`.
    fn get(&self, alloc: Global, key: &StoreKey) -> Result<Option<Vec<u8>>, StorageError>
        ensures ok { IfOk result
            (λ found. option_map (λ v. v.items) found
            ≡ map.get (inner_contents self.now) key.now) }
        ensures err { IfErr result (IsStoreError true) }
        ensures place { (result ≡ Err StorageError.Fault)
            ↔ (self.now.place ≡ FaultAt.OnGet key.now) }
    {
        if self.place.is_get(key) {
            return Err(StorageError::Fault);
        }
        self.inner.get(alloc, key)
    }
}

impl ListableStorageTraits for FaultStore {
    /// All keys of the store, ascending by their texts.
    ///
    /// # Errors
    /// `StorageError::Fault` exactly where the place is the listing of the empty prefix. `StorageError::OutOfMemory`.
    fn list(&self, alloc: Global) -> Result<Vec<StoreKey>, StorageError>
        ensures ok { IfOk result (λ keys. Lists (HasKey (inner_contents self.now)) keys.items) }
        ensures err { IfErr result (IsStoreError true) }
        ensures place { (result ≡ Err StorageError.Fault)
            ↔ (self.now.place ≡ FaultAt.OnList []) }
    {
        if self.place.is_list_of_all() {
            return Err(StorageError::Fault);
        }
        self.inner.list(alloc)
    }

    /// The keys that begin with the prefix, ascending by their texts.
    ///
    /// # Errors
    /// `StorageError::Fault` exactly where this is the place. `StorageError::OutOfMemory`.
    fn list_prefix(
        &self,
        alloc: Global,
        prefix: &StorePrefix,
    ) -> Result<Vec<StoreKey>, StorageError>
        ensures ok { IfOk result
            (λ keys. Lists (IsKeyBelow (inner_contents self.now) prefix.now) keys.items) }
        ensures err { IfErr result (IsStoreError true) }
        ensures place { (result ≡ Err StorageError.Fault)
            ↔ (self.now.place ≡ FaultAt.OnList prefix.now) }
    {
        if self.place.is_list(prefix) {
            return Err(StorageError::Fault);
        }
        self.inner.list_prefix(alloc, prefix)
    }

    /// The keys and the child prefixes directly below the prefix, ascending by their texts.
    ///
    /// # Errors
    /// `StorageError::Fault` exactly where this is the place. `StorageError::OutOfMemory`.
    fn list_dir(
        &self,
        alloc: Global,
        prefix: &StorePrefix,
    ) -> Result<StoreKeysPrefixes, StorageError>
        ensures keys { IfOk result
            (λ dir. Lists (IsChildKey (inner_contents self.now) prefix.now) dir.keys.items) }
        ensures prefixes { IfOk result
            (λ dir. Lists
            (IsChildPrefix (inner_contents self.now) prefix.now) dir.prefixes.items) }
        ensures err { IfErr result (IsStoreError true) }
        ensures place { (result ≡ Err StorageError.Fault)
            ↔ (self.now.place ≡ FaultAt.OnList prefix.now) }
    {
        if self.place.is_list(prefix) {
            return Err(StorageError::Fault);
        }
        self.inner.list_dir(alloc, prefix)
    }

    /// The child prefixes directly below the prefix, ascending by their texts.
    ///
    /// # Errors
    /// `StorageError::Fault` exactly where this is the place. `StorageError::OutOfMemory`.
    fn list_child_prefixes(
        &self,
        alloc: Global,
        prefix: &StorePrefix,
    ) -> Result<Vec<StorePrefix>, StorageError>
        ensures prefixes { IfOk result
            (λ prefixes. Lists
            (IsChildPrefix (inner_contents self.now) prefix.now) prefixes.items) }
        ensures err { IfErr result (IsStoreError true) }
        ensures place { (result ≡ Err StorageError.Fault)
            ↔ (self.now.place ≡ FaultAt.OnList prefix.now) }
    {
        if self.place.is_list(prefix) {
            return Err(StorageError::Fault);
        }
        self.inner.list_child_prefixes(alloc, prefix)
    }
}

impl WritableStorageTraits for FaultStore {
    /// Sets the bytes at the key. A fault leaves the first half of them there, half their number rounded down; out of memory leaves
    /// the store as it was, at the place too.
    ///
    /// # Errors
    /// `StorageError::Fault` only where this is the place, and there `StorageError::Fault` or `StorageError::OutOfMemory`.
    /// `StorageError::OutOfMemory`.
    fn set(&mut self, key: &StoreKey, value: &[u8]) -> Result<(), StorageError>
        ensures ok { OnOk result
            (inner_contents self.new ≡ map.insert (inner_contents self.old) key.now value.now) }
        ensures err { IfErr result (IsStoreError true) }
        ensures others { OnErr result
            (AgreesExceptAt key.now (inner_contents self.old) (inner_contents self.new)) }
        ensures nature { self.new.place ≡ self.old.place }
        ensures place { self.old.place ≡ FaultAt.OnSet key.now → IsErr result }
        ensures elsewhere { result ≡ Err StorageError.Fault
            → self.old.place ≡ FaultAt.OnSet key.now }
        ensures half { result ≡ Err StorageError.Fault
            → inner_contents self.new
            ≡ map.insert (inner_contents self.old) key.now (first_half value.now) }
        ensures unchanged { result ≡ Err StorageError.OutOfMemory → self.new ≡ self.old }
    {
        if self.place.is_set(key) {
            self.inner.set(key, &value[..value.len() / 2])?;
            return Err(StorageError::Fault);
        }
        self.inner.set(key, value)
    }

    /// Removes the key; where the store does not have it, nothing is changed. A fault leaves the store as it was. It takes no memory.
    ///
    /// # Errors
    /// `StorageError::Fault` exactly where this is the place, and no other.
    fn erase(&mut self, key: &StoreKey) -> Result<(), StorageError>
        ensures ok { OnOk result
            (inner_contents self.new ≡ map.remove (inner_contents self.old) key.now) }
        ensures err { IfErr result (IsStoreError true) }
        ensures others { OnErr result
            (AgreesExceptAt key.now (inner_contents self.old) (inner_contents self.new)) }
        ensures nature { self.new.place ≡ self.old.place }
        ensures place { (result ≡ Err StorageError.Fault)
            ↔ (self.old.place ≡ FaultAt.OnErase key.now) }
        ensures succeeds { self.old.place ≢ FaultAt.OnErase key.now → IsOk result }
        ensures unchanged { OnErr result (self.new ≡ self.old) }
    {
        if self.place.is_erase(key) {
            return Err(StorageError::Fault);
        }
        self.inner.erase(key)
    }
}
