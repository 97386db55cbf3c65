//! A store in memory as a folder: what it holds is known, and so are all answers.
ghost use Rattle.std.specs.Prelude.{◌≡◌, false};
ghost use Rattle.zarrs_folder.specs.Folders.{values_of};

use crate::fault::FolderFault;
use crate::folder::Folder;
use std::alloc::Global;
use zarrs_store::{
    ListableStorageTraits, MemoryStore, ReadableStorageTraits, StoreKey, StorePrefix,
};

impl Folder for MemoryStore {
    ghost agrees = { λ store V. V ≡ values_of store };

    ghost can_fail = { λ _. false };

    /// A copy of the bytes at the key.
    ///
    /// # Errors
    /// `OutOfMemory`.
    fn document(&mut self, alloc: Global, key: &StoreKey) -> Result<Option<Vec<u8>>, FolderFault> {
        match self.get(alloc, key) {
            Ok(found) => Ok(found),
            Err(_) => Err(FolderFault::OutOfMemory),
        }
    }

    /// The child prefixes, ascending.
    ///
    /// # Errors
    /// `OutOfMemory`.
    fn children(
        &mut self,
        alloc: Global,
        prefix: &StorePrefix,
    ) -> Result<Vec<StorePrefix>, FolderFault> {
        match self.list_child_prefixes(alloc, prefix) {
            Ok(children) => Ok(children),
            Err(_) => Err(FolderFault::OutOfMemory),
        }
    }

    /// The last key below the prefix.
    ///
    /// # Errors
    /// `OutOfMemory`.
    fn any_below(
        &mut self,
        alloc: Global,
        prefix: &StorePrefix,
    ) -> Result<Option<StoreKey>, FolderFault> {
        match self.list_prefix(alloc, prefix) {
            Ok(mut keys) => Ok(keys.pop()),
            Err(_) => Err(FolderFault::OutOfMemory),
        }
    }
}
