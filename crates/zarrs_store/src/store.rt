ghost use Rattle.std.specs.Prelude.{◌≡◌, Bool, IfOk, IfErr, OnOk, OnErr, option_map};
ghost use Rattle.std.specs.Option.{option_map};
ghost use Rattle.std.specs.FinMap as map;
ghost use Rattle.zarrs_store.specs.Contents.{Contents, HasKey, Lists, IsKeyBelow, IsChildKey, IsChildPrefix, AgreesExceptAt};
ghost use Rattle.zarrs_store.specs.Faults.{IsStoreError};

use crate::key::StoreKey;
use crate::prefix::StorePrefix;
use crate::storage_error::StorageError;
use std::alloc::Global;
use zarrs_fault::Numbers;

/// A store: a finite map from keys to bytes. It says which numbers its documents may hold, and whether its calls can fail.
///
/// Source: Zarr core specification 3.1, "Abstract store interface".
/// <https://zarr-specs.readthedocs.io/en/latest/v3/core/index.html#abstract-store-interface>
pub trait Store {
    // what the store holds, and its numbers
    ghost contents: { Self → Contents };

    // whether a call may answer `Fault`
    ghost can_fail: { Self → Bool };

    /// Which numbers the documents of the store may hold. Who reads the store refuses a document with another.
    /// It takes no memory.
    ///
    /// Source: own.
    fn numbers(&self) -> Numbers
        ensures { result ≡ (Self.contents self.now).numbers };
}

/// A store whose values can be read.
///
/// Source: Zarr core specification 3.1, "Abstract store interface"; `zarrs::storage::ReadableStorageTraits`.
/// <https://zarr-specs.readthedocs.io/en/latest/v3/core/index.html#abstract-store-interface>
pub trait ReadableStorageTraits: Store {
    /// The bytes at the key, or nothing where the store does not have it.
    ///
    /// # Errors
    /// `StorageError::Fault`, where the store can fail and did. `StorageError::OutOfMemory`.
    fn get(&self, alloc: Global, key: &StoreKey) -> Result<Option<Vec<u8>>, StorageError>
        ensures ok { IfOk result
            (λ found. option_map (λ v. v.items) found
            ≡ map.get (Self.contents self.now).values key.now) }
        ensures err { IfErr result (IsStoreError (Self.can_fail self.now)) };
}

/// What stands directly below a prefix: keys and child prefixes.
///
/// Source: `zarrs::storage::StoreKeysPrefixes`.
/// <https://zarr-specs.readthedocs.io/en/latest/v3/core/index.html#abstract-store-interface>
#[derive(Debug, Drop)]
pub struct StoreKeysPrefixes {
    /// The keys with exactly one segment behind the prefix.
    pub keys: Vec<StoreKey>,
    /// The prefix and a segment, for each segment behind which some key has another.
    pub prefixes: Vec<StorePrefix>,
}

/// A store whose keys can be listed.
///
/// Source: Zarr core specification 3.1, "Abstract store interface"; `zarrs::storage::ListableStorageTraits`.
/// <https://zarr-specs.readthedocs.io/en/latest/v3/core/index.html#abstract-store-interface>
pub trait ListableStorageTraits: Store {
    /// All keys of the store, each once, in any order.
    ///
    /// # Errors
    /// `StorageError::Fault`, where the store can fail and did. `StorageError::OutOfMemory`.
    fn list(&self, alloc: Global) -> Result<Vec<StoreKey>, StorageError>
        ensures ok { IfOk result
            (λ keys. Lists (HasKey (Self.contents self.now).values) keys.items) }
        ensures err { IfErr result (IsStoreError (Self.can_fail self.now)) };

    /// The keys that begin with the prefix, each once, in any order.
    ///
    /// # Errors
    /// `StorageError::Fault`, where the store can fail and did. `StorageError::OutOfMemory`.
    fn list_prefix(
        &self,
        alloc: Global,
        prefix: &StorePrefix,
    ) -> Result<Vec<StoreKey>, StorageError>
        ensures ok { IfOk result
            (λ keys. Lists (IsKeyBelow (Self.contents self.now).values prefix.now) keys.items) }
        ensures err { IfErr result (IsStoreError (Self.can_fail self.now)) };

    /// The keys and the child prefixes directly below the prefix, each once, in any order.
    ///
    /// # Errors
    /// `StorageError::Fault`, where the store can fail and did. `StorageError::OutOfMemory`.
    fn list_dir(
        &self,
        alloc: Global,
        prefix: &StorePrefix,
    ) -> Result<StoreKeysPrefixes, StorageError>
        ensures keys { IfOk result
            (λ dir. Lists (IsChildKey (Self.contents self.now).values prefix.now) dir.keys.items) }
        ensures prefixes { IfOk result
            (λ dir. Lists
            (IsChildPrefix (Self.contents self.now).values prefix.now) dir.prefixes.items) }
        ensures err { IfErr result (IsStoreError (Self.can_fail self.now)) };

    /// The child prefixes directly below the prefix, each once, in any order: those of `list_dir`, for a caller that wants no keys.
    ///
    /// # Errors
    /// `StorageError::Fault`, where the store can fail and did. `StorageError::OutOfMemory`.
    fn list_child_prefixes(
        &self,
        alloc: Global,
        prefix: &StorePrefix,
    ) -> Result<Vec<StorePrefix>, StorageError>
        ensures prefixes { IfOk result
            (λ prefixes. Lists
            (IsChildPrefix (Self.contents self.now).values prefix.now) prefixes.items) }
        ensures err { IfErr result (IsStoreError (Self.can_fail self.now)) }
    {
        Ok(self.list_dir(alloc, prefix)?.prefixes)
    }
}

/// A store whose values can be changed.
///
/// Source: Zarr core specification 3.1, "Abstract store interface"; `zarrs::storage::WritableStorageTraits`.
/// <https://zarr-specs.readthedocs.io/en/latest/v3/core/index.html#abstract-store-interface>
pub trait WritableStorageTraits: Store {
    /// Sets the bytes at the key. After an error every other key is as it was; of the key itself nothing is promised.
    ///
    /// # Errors
    /// `StorageError::Fault`, where the store can fail and did. `StorageError::OutOfMemory`.
    fn set(&mut self, key: &StoreKey, value: &[u8]) -> Result<(), StorageError>
        ensures ok { OnOk result
            ((Self.contents self.new).values
            ≡ map.insert (Self.contents self.old).values key.now value.now) }
        ensures err { IfErr result (IsStoreError (Self.can_fail self.old)) }
        ensures others { OnErr result
            (AgreesExceptAt key.now
            (Self.contents self.old).values (Self.contents self.new).values) }
        ensures nature { Self.can_fail self.new ≡ Self.can_fail self.old }
        ensures numbers { (Self.contents self.new).numbers ≡ (Self.contents self.old).numbers };

    /// Removes the key; where the store does not have it, nothing is changed. After an error every other key is as it was; of the key itself nothing is promised.
    ///
    /// # Errors
    /// `StorageError::Fault`, where the store can fail and did. `StorageError::OutOfMemory`.
    fn erase(&mut self, key: &StoreKey) -> Result<(), StorageError>
        ensures ok { OnOk result
            ((Self.contents self.new).values
            ≡ map.remove (Self.contents self.old).values key.now) }
        ensures err { IfErr result (IsStoreError (Self.can_fail self.old)) }
        ensures others { OnErr result
            (AgreesExceptAt key.now
            (Self.contents self.old).values (Self.contents self.new).values) }
        ensures nature { Self.can_fail self.new ≡ Self.can_fail self.old }
        ensures numbers { (Self.contents self.new).numbers ≡ (Self.contents self.old).numbers };
}
