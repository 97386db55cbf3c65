//! A store whose documents may hold any number.
ghost use Rattle.zarrs_fault.specs.declared.numbers.Numbers.TheVariants.{Any};

use crate::key::StoreKey;
use crate::prefix::StorePrefix;
use crate::storage_error::StorageError;
use crate::store::{
    ListableStorageTraits, ReadableStorageTraits, Store, StoreKeysPrefixes, WritableStorageTraits,
};
use std::alloc::Global;
use zarrs_fault::Numbers;

/// A store that holds what `inner` holds, and whose documents may hold any number. Each call of it is that of `inner`.
///
/// What is stored over it may have any number too: `inner` is handed the bytes, and asks nothing of them.
///
/// Source: own.
/// <https://www.rfc-editor.org/rfc/rfc8259#section-6>
#[derive(Debug, Drop)]
pub struct AnyNumbers<S: Drop> {
    /// The store that holds the keys and their bytes.
    pub inner: S,
}

impl<S: Store + Drop> Store for AnyNumbers<S> {
    ghost contents = { λ a. record { values = (S.contents a.inner).values; numbers = Any } };

    ghost can_fail = { λ a. S.can_fail a.inner };

    /// Any number.
    fn numbers(&self) -> Numbers {
        Numbers::Any
    }
}

impl<S: ReadableStorageTraits + Drop> ReadableStorageTraits for AnyNumbers<S> {
    /// What `inner` has at the key.
    ///
    /// # Errors
    /// Those of `inner`: `StorageError::Fault`, where it can fail and did. `StorageError::OutOfMemory`.
    fn get(&self, alloc: Global, key: &StoreKey) -> Result<Option<Vec<u8>>, StorageError> {
        self.inner.get(alloc, key)
    }
}

impl<S: ListableStorageTraits + Drop> ListableStorageTraits for AnyNumbers<S> {
    /// All keys of `inner`, in its order.
    ///
    /// # Errors
    /// Those of `inner`: `StorageError::Fault`, where it can fail and did. `StorageError::OutOfMemory`.
    fn list(&self, alloc: Global) -> Result<Vec<StoreKey>, StorageError> {
        self.inner.list(alloc)
    }

    /// The keys of `inner` that begin with the prefix, in its order.
    ///
    /// # Errors
    /// Those of `inner`: `StorageError::Fault`, where it can fail and did. `StorageError::OutOfMemory`.
    fn list_prefix(
        &self,
        alloc: Global,
        prefix: &StorePrefix,
    ) -> Result<Vec<StoreKey>, StorageError> {
        self.inner.list_prefix(alloc, prefix)
    }

    /// The keys and the child prefixes of `inner` directly below the prefix, in its order.
    ///
    /// # Errors
    /// Those of `inner`: `StorageError::Fault`, where it can fail and did. `StorageError::OutOfMemory`.
    fn list_dir(
        &self,
        alloc: Global,
        prefix: &StorePrefix,
    ) -> Result<StoreKeysPrefixes, StorageError> {
        self.inner.list_dir(alloc, prefix)
    }

    /// The child prefixes of `inner` directly below the prefix, in its order and at its cost.
    ///
    /// # Errors
    /// Those of `inner`: `StorageError::Fault`, where it can fail and did. `StorageError::OutOfMemory`.
    fn list_child_prefixes(
        &self,
        alloc: Global,
        prefix: &StorePrefix,
    ) -> Result<Vec<StorePrefix>, StorageError> {
        self.inner.list_child_prefixes(alloc, prefix)
    }
}

impl<S: WritableStorageTraits + Drop> WritableStorageTraits for AnyNumbers<S> {
    /// Sets the bytes at the key in `inner`. After an error every other key is as it was; of the key itself nothing is promised.
    ///
    /// # Errors
    /// Those of `inner`: `StorageError::Fault`, where it can fail and did. `StorageError::OutOfMemory`.
    fn set(&mut self, key: &StoreKey, value: &[u8]) -> Result<(), StorageError> {
        self.inner.set(key, value)
    }

    /// Removes the key from `inner`; where `inner` does not have it, nothing is changed. After an error every other key is as it was;
    /// of the key itself nothing is promised.
    ///
    /// # Errors
    /// Those of `inner`: `StorageError::Fault`, where it can fail and did. `StorageError::OutOfMemory`.
    fn erase(&mut self, key: &StoreKey) -> Result<(), StorageError> {
        self.inner.erase(key)
    }
}
