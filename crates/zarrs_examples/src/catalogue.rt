//! A catalogue: it keeps the consolidated block of a version 3 group current while the documents below the group change.
ghost use Rattle.std.specs.Prelude.{◌≡◌, [], ◌∷◌, ◌++◌, true, IfOk, IfErr, OnOk, OnErr};
ghost use Rattle.zarrs_store.specs.Faults.{IsStoreError};
ghost use Rattle.zarrs_path.specs.Keys.{zarr_json};
ghost use Rattle.zarrs_meaning.specs.Refusals.{IsExcusedOr};
ghost use Rattle.zarrs_group.specs.Edits.{AgreesOutsideKey};
ghost use Rattle.zarrs_node.specs.Nodes.{ShowsBad};
ghost use Rattle.zarrs_examples.specs.Catalogues.{IsCurrent, IsGroupWithBlock, IsRefusedAt, IsStored, RefusesChange, RefusesStored, RefusesUpdate, after_change, after_changes, changed_key};

use log::Log;
use std::alloc::{AllocError, Global};
use thiserror::Error;
use zarrs_block::{ConsolidatedMetadata, ConsolidatedMetadataMetadata};
use zarrs_config::{Config, MetadataRetrieveVersion};
use zarrs_group::{Group, GroupCreateError};
use zarrs_meaning::NodeCreateError;
use zarrs_node::{consolidate_nodes_of, refresh_block};
use zarrs_path::{NodePath, meta_key_v3};
use zarrs_store::{
    ListableStorageTraits, ReadableStorageTraits, StorageError, WritableStorageTraits,
};

/// A catalogue: the path of a version 3 group, and the block of the nodes below it.
///
/// Source: own.
/// <https://zarr-specs.readthedocs.io/en/latest/v3/core/index.html#group-metadata>
/// <https://zarr.readthedocs.io/en/stable/user-guide/consolidated_metadata/>
#[derive(Debug, Drop)]
pub struct Catalogue {
    /// The path of the group.
    pub path: NodePath,
    /// The metadata of the nodes below the group.
    pub block: ConsolidatedMetadataMetadata,
}

/// A change of a store: the document `zarr.json` of a path is set, or erased.
///
/// Source: own.
/// <https://zarr-specs.readthedocs.io/en/latest/v3/core/index.html#metadata>
#[derive(Debug, Drop)]
pub struct Change {
    /// The path.
    pub path: NodePath,
    /// The bytes to which its document is set, or nothing where it is erased.
    pub document: Option<Vec<u8>>,
}

impl Catalogue {
    /// The catalogue of the group at a path: its block has the nodes that a listing finds below the path, as version 3, in the numbers of the
    /// store. A path without a document is passed over with all below it, and warned of.
    ///
    /// # Errors
    ///
    /// Those of `zarrs_node::consolidate_nodes_of`.
    ///
    /// Source: own; zarr-python, consolidated metadata.
    pub fn open<L: Log, S: ReadableStorageTraits + ListableStorageTraits>(
        log: &L,
        alloc: Global,
        storage: &S,
        path: NodePath,
    ) -> Result<Catalogue, NodeCreateError>
        ensures path { IfOk result (λ made. made.path ≡ path) }
        ensures current { IfOk result (IsCurrent (S.contents storage.now)) }
        ensures refused { IfErr result
            (IsExcusedOr (S.can_fail storage.now)
            (ShowsBad (S.contents storage.now) MetadataRetrieveVersion.V3 true path)) }
    {
        let block = consolidate_nodes_of(log, alloc, storage, &path, &MetadataRetrieveVersion::V3)?;
        Ok(Catalogue { path, block })
    }

    /// Makes a change of the store, and the block current after it.
    ///
    /// # Errors
    ///
    /// The first that applies, and then the catalogue is as it was:
    ///
    /// - `NotBelow` where the path of the change is not below that of the group. Nothing is changed.
    /// - `Store` with the store's own error. Of the document nothing is promised, and no other is changed.
    /// - `Refresh` with the refusal of `zarrs_node::refresh_block`, such as a document that does not read. The change is made.
    ///
    /// Source: own; zarr-python, consolidated metadata.
    pub fn apply<S>(
        &mut self,
        alloc: Global,
        storage: &mut S,
        change: &Change,
    ) -> Result<(), ChangeError>
    where
        S: ReadableStorageTraits + ListableStorageTraits + WritableStorageTraits,
        ensures changed { OnOk result
            (S.contents storage.new ≡ after_change (S.contents storage.old) change.now) }
        ensures current { OnOk result
            (IsCurrent (S.contents storage.old) self.old
            → IsCurrent (S.contents storage.new) self.new) }
        ensures path { self.new.path ≡ self.old.path }
        ensures unchanged { OnErr result (self.new ≡ self.old) }
        ensures refused { IfErr result
            (RefusesChange (S.can_fail storage.old) self.old change.now
            (S.contents storage.old) (S.contents storage.new)) }
        ensures nature { S.can_fail storage.new ≡ S.can_fail storage.old }
    {
        zarrs_group::laws::edit_keeps_others();
        zarrs_node::laws::fresh_is_listed();
        if !change.path.is_below(&self.path) {
            return Err(ChangeError::NotBelow);
        }
        change.write(alloc, storage)?;
        let version = MetadataRetrieveVersion::V3;
        let block = refresh_block(
            alloc,
            storage,
            &self.path,
            &version,
            &self.block,
            &change.path,
        )?;
        self.block = block;
        Ok(())
    }

    /// Makes the changes of a list one after another, and the block current after each.
    ///
    /// # Errors
    ///
    /// The first refusal of [`Catalogue::apply`], with the place of its change in the list. The changes before it are made, and the catalogue is
    /// as it was after these.
    ///
    /// Source: own; zarr-python, consolidated metadata.
    pub fn apply_all<S>(
        &mut self,
        alloc: Global,
        storage: &mut S,
        changes: &[Change],
    ) -> Result<(), RefusedStep>
    where
        S: ReadableStorageTraits + ListableStorageTraits + WritableStorageTraits,
        ensures changed { OnOk result
            (S.contents storage.new ≡ after_changes (S.contents storage.old) changes.now) }
        ensures current { OnOk result
            (IsCurrent (S.contents storage.old) self.old
            → IsCurrent (S.contents storage.new) self.new) }
        ensures path { self.new.path ≡ self.old.path }
        ensures refused { IfErr result
            (IsRefusedAt (S.can_fail storage.old) self.old self.new changes.now
            (S.contents storage.old) (S.contents storage.new)) }
        ensures nature { S.can_fail storage.new ≡ S.can_fail storage.old }
    {
        for (step, change) in changes.iter().enumerate() {
            if let Err(cause) = self.apply(alloc, storage, change) {
                return Err(RefusedStep { step, cause });
            }
        }
        Ok(())
    }

    /// Stores the group with the block: its document as the store has it, with the block in the place of the one that it held; over
    /// `AnyNumbers` with its fractions.
    ///
    /// # Errors
    ///
    /// The first that applies. Nothing is changed but, by a store that refuses, the group's own document:
    ///
    /// - `Group` with the refusal of `Group::open_opt` as version 3, such as `MissingMetadata` where the path means no group.
    /// - `TooDeep` where the document of the group would not read back.
    /// - `Store` with the refusal of `Group::store_metadata`.
    ///
    /// Besides, `Block` or `OutOfMemory` when out of memory.
    ///
    /// Source: own; zarr-python, consolidated metadata.
    pub fn store<S: ReadableStorageTraits + WritableStorageTraits>(
        &self,
        alloc: Global,
        storage: &mut S,
        config: &Config,
    ) -> Result<(), StoringError>
        ensures stored { OnOk result
            (IsCurrent (S.contents storage.old) self.now
            → IsStored (S.contents storage.new) self.now) }
        ensures current { IsCurrent (S.contents storage.old) self.now
            → IsCurrent (S.contents storage.new) self.now }
        ensures others { AgreesOutsideKey (self.now.path ++ zarr_json ∷ [])
            (S.contents storage.old) (S.contents storage.new) }
        ensures refused { IfErr result
            (RefusesStored (S.can_fail storage.old) self.now
            (S.contents storage.old) (S.contents storage.new)) }
        ensures nature { S.can_fail storage.new ≡ S.can_fail storage.old }
    {
        zarrs_group::laws::means_version_3();
        zarrs_group::laws::storing_keeps_others();
        zarrs_group::laws::listed_block_opens();
        zarrs_node::laws::listed_block_stays();
        let group = self.group_with_block(alloc, storage, config)?;
        if !group.is_shallow(alloc)? {
            return Err(StoringError::TooDeep);
        }
        group.store_metadata(alloc, storage)?;
        Ok(())
    }

    /// Makes the changes of a list one after another, and the block current after each, and at the end stores the group with the block.
    ///
    /// # Errors
    ///
    /// - `Step` with the refusal of [`Catalogue::apply_all`]. The group is not stored.
    /// - `Storing` with that of [`Catalogue::store`]. All changes are made, and the block is current.
    ///
    /// Source: own; zarr-python, consolidated metadata.
    pub fn update<S>(
        &mut self,
        alloc: Global,
        storage: &mut S,
        changes: &[Change],
        config: &Config,
    ) -> Result<(), UpdateError>
    where
        S: ReadableStorageTraits + ListableStorageTraits + WritableStorageTraits,
        ensures changed { OnOk result
            (AgreesOutsideKey (self.old.path ++ zarr_json ∷ [])
            (after_changes (S.contents storage.old) changes.now) (S.contents storage.new)) }
        ensures current { OnOk result
            (IsCurrent (S.contents storage.old) self.old
            → IsCurrent (S.contents storage.new) self.new) }
        ensures stored { OnOk result
            (IsCurrent (S.contents storage.old) self.old
            → IsStored (S.contents storage.new) self.new) }
        ensures path { self.new.path ≡ self.old.path }
        ensures refused { IfErr result
            (RefusesUpdate (S.can_fail storage.old) self.old self.new changes.now
            (S.contents storage.old) (S.contents storage.new)) }
        ensures nature { S.can_fail storage.new ≡ S.can_fail storage.old }
    {
        self.apply_all(alloc, storage, changes)?;
        self.store(alloc, storage, config)?;
        Ok(())
    }

    // The group that the store has at the path, with the block in the place of the one that it held.
    fn group_with_block<S: ReadableStorageTraits>(
        &self,
        alloc: Global,
        storage: &S,
        config: &Config,
    ) -> Result<Group, StoringError>
        ensures set { IfOk result (IsGroupWithBlock (S.contents storage.now) self.now) }
        ensures refused { IfErr result
            (RefusesStored (S.can_fail storage.now) self.now
            (S.contents storage.now) (S.contents storage.now)) }
    {
        zarrs_path::laws::texts_differ();
        zarrs_group::laws::means_version_3();
        let path = self.path.as_str();
        let version = MetadataRetrieveVersion::V3;
        let mut group = Group::open_opt(alloc, storage, path, &version, config)?;
        let metadata = self.block.try_clone(alloc)?;
        let block = ConsolidatedMetadata { metadata };
        group.replace_consolidated_metadata(alloc, Some(block))?;
        Ok(group)
    }
}

impl Change {
    // Sets the document of the path, or erases it. A refused change leaves every other key as it was.
    fn write<S: WritableStorageTraits>(
        &self,
        alloc: Global,
        storage: &mut S,
    ) -> Result<(), StorageError>
        ensures ok { OnOk result
            (S.contents storage.new ≡ after_change (S.contents storage.old) self.now) }
        ensures err { IfErr result (IsStoreError (S.can_fail storage.old)) }
        ensures others { OnErr result
            (AgreesOutsideKey (changed_key self.now)
            (S.contents storage.old) (S.contents storage.new)) }
        ensures nature { S.can_fail storage.new ≡ S.can_fail storage.old }
    {
        let key = meta_key_v3(alloc, &self.path)?;
        match &self.document {
            Some(bytes) => storage.set(&key, bytes.as_slice()),
            None => storage.erase(&key),
        }
    }
}

/// Why a change was refused.
///
/// Source: own.
/// <https://zarr-specs.readthedocs.io/en/latest/v3/core/index.html#metadata>
#[derive(Debug, Drop, Error)]
pub enum ChangeError {
    /// The path is not below that of the group.
    #[error("the path is not below that of the group")]
    NotBelow,
    /// The store did not set or erase the document.
    #[error("{0}")]
    Store(StorageError),
    /// The document was set or erased, and the block not made current.
    #[error("{0}")]
    Refresh(NodeCreateError),
}

impl From<StorageError> for ChangeError {
    ghost use Rattle.zarrs_examples.specs.declared.catalogue.ChangeError.TheVariants.{Store};

    ghost from_gives = { λ error made. made ≡ Store error };

    fn from(error: StorageError) -> ChangeError {
        ChangeError::Store(error)
    }
}

impl From<NodeCreateError> for ChangeError {
    ghost use Rattle.zarrs_examples.specs.declared.catalogue.ChangeError.TheVariants.{Refresh};

    ghost from_gives = { λ error made. made ≡ Refresh error };

    fn from(error: NodeCreateError) -> ChangeError {
        ChangeError::Refresh(error)
    }
}

/// Which of a list of changes was refused, and why.
///
/// Source: own.
/// <https://zarr-specs.readthedocs.io/en/latest/v3/core/index.html#metadata>
#[derive(Debug, Drop, Error)]
#[error("change {step}: {cause}")]
pub struct RefusedStep {
    /// The place of the change in the list, from 0 on.
    pub step: usize,
    /// Why it was refused.
    pub cause: ChangeError,
}

/// Why a catalogue was not stored.
///
/// Source: own.
/// <https://zarr-specs.readthedocs.io/en/latest/v3/core/index.html#group-metadata>
/// <https://zarr.readthedocs.io/en/stable/user-guide/consolidated_metadata/>
#[derive(Debug, Drop, Error)]
pub enum StoringError {
    /// The group was not opened.
    #[error("{0}")]
    Group(GroupCreateError),
    /// The block was not set.
    #[error("{0}")]
    Block(NodeCreateError),
    /// With the block the document of the group nests deeper than 127 levels, so that it would not read back.
    #[error("the document of the group would nest too deep")]
    TooDeep,
    /// The document of the group was not stored.
    #[error("{0}")]
    Store(StorageError),
    /// Out of memory.
    #[error("out of memory")]
    OutOfMemory,
}

impl From<GroupCreateError> for StoringError {
    ghost use Rattle.zarrs_examples.specs.declared.catalogue.StoringError.TheVariants.{Group};

    ghost from_gives = { λ error made. made ≡ Group error };

    fn from(error: GroupCreateError) -> StoringError {
        StoringError::Group(error)
    }
}

impl From<NodeCreateError> for StoringError {
    ghost use Rattle.zarrs_examples.specs.declared.catalogue.StoringError.TheVariants.{Block};

    ghost from_gives = { λ error made. made ≡ Block error };

    fn from(error: NodeCreateError) -> StoringError {
        StoringError::Block(error)
    }
}

impl From<StorageError> for StoringError {
    ghost use Rattle.zarrs_examples.specs.declared.catalogue.StoringError.TheVariants.{Store};

    ghost from_gives = { λ error made. made ≡ Store error };

    fn from(error: StorageError) -> StoringError {
        StoringError::Store(error)
    }
}

impl From<AllocError> for StoringError {
    ghost use Rattle.zarrs_examples.specs.declared.catalogue.StoringError.TheVariants.{OutOfMemory};

    ghost from_gives = { λ _ made. made ≡ OutOfMemory };

    fn from(_error: AllocError) -> StoringError {
        StoringError::OutOfMemory
    }
}

/// Why a catalogue was not brought up to date.
///
/// Source: own.
/// <https://zarr-specs.readthedocs.io/en/latest/v3/core/index.html#group-metadata>
/// <https://zarr.readthedocs.io/en/stable/user-guide/consolidated_metadata/>
#[derive(Debug, Drop, Error)]
pub enum UpdateError {
    /// A change was refused.
    #[error("{0}")]
    Step(RefusedStep),
    /// The changes were made, and the group was not stored.
    #[error("{0}")]
    Storing(StoringError),
}

impl From<RefusedStep> for UpdateError {
    ghost use Rattle.zarrs_examples.specs.declared.catalogue.UpdateError.TheVariants.{Step};

    ghost from_gives = { λ error made. made ≡ Step error };

    fn from(error: RefusedStep) -> UpdateError {
        UpdateError::Step(error)
    }
}

impl From<StoringError> for UpdateError {
    ghost use Rattle.zarrs_examples.specs.declared.catalogue.UpdateError.TheVariants.{Storing};

    ghost from_gives = { λ error made. made ≡ Storing error };

    fn from(error: StoringError) -> UpdateError {
        UpdateError::Storing(error)
    }
}
