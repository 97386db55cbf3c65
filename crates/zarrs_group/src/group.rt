//! Groups.
ghost use Rattle.std.specs.Prelude.{◌≡◌, ◌≢◌, None, string_bytes, IfOk, IfErr, OnOk, OnErr};
ghost use Rattle.serde_json.specs.Written.{compact_text};
ghost use Rattle.zarrs_store.specs.Faults.{IsStoreError};
ghost use Rattle.zarrs_fault.specs.declared.numbers.Numbers.TheVariants.{Whole};
ghost use Rattle.zarrs_path.specs.Paths.{IsPath, path_text};
ghost use Rattle.zarrs_meta.specs.declared.node.GroupMetadata.TheVariants.{V3, V2};
ghost use Rattle.zarrs_group.specs.Groups.{HasChoicesOf, attributes_of_group, as_v3, metadata_by_version, group_as_v3, group_text, group_tree};
ghost use Rattle.zarrs_block.specs.Policy.{as_block};
ghost use Rattle.zarrs_group.specs.BlocksBeside.{IsBeside};
ghost use Rattle.zarrs_group.specs.Children.{group_at};
ghost use Rattle.zarrs_group.specs.BlocksOfGroups.{block_beside};
ghost use Rattle.zarrs_group.specs.Plain.{group_fault_in};
ghost use Rattle.zarrs_group.specs.Edits.{after, IsCutShort};
ghost use Rattle.zarrs_group.specs.Laws.{MeansStored};
ghost use Rattle.zarrs_group.specs.Meaning.{MeansGroup};
ghost use Rattle.zarrs_group.specs.OpeningGroups.{IsUnsupportedIn, RefusesMaking, RefusesOpeningGroup};
ghost use Rattle.zarrs_group.specs.StoringGroups.{IsBlockReadBack, StoresGroup, edits_of_group, fault_of_group_in, RefusesStoringGroup, erase_edits};
ghost use Rattle.zarrs_config.specs.declared.version.MetadataRetrieveVersion.TheVariants.{Default as BothVersions};

use crate::consolidated::copy_of;
use crate::create_error::GroupCreateError;
use crate::edit::apply_all;
use crate::open::{find_block, find_metadata};
use crate::stored::{edits_to_erase, edits_to_store};
use crate::unsupported::unsupported_field;
use std::alloc::{AllocError, Global};
use std::marker::Model;
use zarrs_block::ConsolidatedMetadata;
use zarrs_config::{
    Config, GroupMetadataOptions, MetadataConvertVersion, MetadataEraseVersion,
    MetadataRetrieveVersion,
};
use zarrs_convert::group_metadata_v2_to_v3;
use zarrs_meta::{GroupMetadata, GroupMetadataV2, GroupMetadataV3, Object, WrittenDocument};
use zarrs_path::NodePath;
use zarrs_store::{ReadableStorageTraits, StorageError, WritableStorageTraits};

/// A group: a path with metadata, of version 2 with the consolidated block beside them where there is one, and the versions that it is stored
/// and erased by.
///
/// Source: `zarrs::group::Group`.
/// <https://zarr-specs.readthedocs.io/en/latest/v3/core/index.html#group-metadata>
/// <https://docs.rs/zarrs/0.23.13/zarrs/group/struct.Group.html>
#[derive(Debug, Drop)]
pub struct Group {
    pub(crate) path: NodePath,
    pub(crate) metadata: GroupMetadata,
    pub(crate) block: Option<ConsolidatedMetadata>,
    options: GroupMetadataOptions,
    erase_version: MetadataEraseVersion,
}

// Contracts see the record of these. Keys of a block beside the metadata are valid, and its entries are of version 2, so that it can be written.
impl Model for Group {
    ghost use Rattle.zarrs_group.specs.Groups.{GroupState};
    ghost use Rattle.zarrs_group.specs.BlocksBeside.{IsBeside};
    ghost use Rattle.zarrs_block.specs.Policy.{as_block};
    ghost use Rattle.std.specs.Coded.{codes};
    ghost use Rattle.zarrs_meta.specs.contracts.node.GroupMetadata.{the_row as metadata_row};
    ghost use Rattle.zarrs_block.specs.contracts.consolidated.ConsolidatedMetadataMetadata.{the_row as block_row};

    ghost Value = { GroupState };

    ghost coded = { Prim.hlevel (codes, metadata_row.coded, block_row.coded) };

    ghost view = { λ group. record {
      path = group.path;
      metadata = group.metadata;
      block = as_block group.block;
      convert_version = group.options;
      erase_version = group.erase_version;
    } };

    ghost invariant = { λ group. IsBeside (as_block group.block) };
}

impl Group {
    /// The group with this path and metadata, without a block beside them, and with the options and the erase version of the configuration.
    ///
    /// # Errors
    ///
    /// `NodePathError` where the text is no path, and out of memory.
    ///
    /// Source: `zarrs::group::Group::new_with_metadata`.
    pub fn new_with_metadata(
        alloc: Global,
        path: &str,
        metadata: GroupMetadata,
        config: &Config,
    ) -> Result<Group, GroupCreateError>
        ensures path { IfOk result
            (λ group. IsPath group.path × (path_text group.path ≡ path.now)) }
        ensures metadata { IfOk result (λ group. group.metadata ≡ metadata) }
        ensures block { IfOk result (λ group. group.block ≡ None) }
        ensures choices { IfOk result (HasChoicesOf config.now) }
        ensures err { IfErr result (RefusesMaking path.now) }
    {
        let path = NodePath::new(alloc, path)?;
        Ok(Group::with_choices(path, metadata, None, config))
    }

    /// The group that the store has at this path, looked for in both versions.
    ///
    /// # Errors
    ///
    /// Those of `open_opt`.
    ///
    /// Source: `zarrs::group::Group::open`.
    pub fn open<S: ReadableStorageTraits>(
        alloc: Global,
        storage: &S,
        path: &str,
        config: &Config,
    ) -> Result<Group, GroupCreateError>
        ensures path { IfOk result
            (λ group. IsPath group.path × (path_text group.path ≡ path.now)) }
        ensures means { IfOk result
            (λ group. MeansGroup (S.contents storage.now) BothVersions group.path group.metadata) }
        ensures block { IfOk result
            (λ group. group.block
            ≡ block_beside (S.contents storage.now) group.path group.metadata) }
        ensures understood { IfOk result (λ group. IsUnsupportedIn group.metadata None) }
        ensures choices { IfOk result (HasChoicesOf config.now) }
        ensures err { IfErr result
            (RefusesOpeningGroup (S.can_fail storage.now)
            (S.contents storage.now) BothVersions path.now) }
    {
        Group::open_opt(
            alloc,
            storage,
            path,
            &MetadataRetrieveVersion::Default,
            config,
        )
    }

    /// The group that the store has at this path, looked for in this version: `zarr.json` as a version 3 group, then
    /// `.zgroup` with the attributes of `.zattrs`, and then the block that `.zmetadata` is, where it reads as one. Each document is read in the
    /// numbers of the store. The group has the options and the erase version of the configuration.
    ///
    /// # Errors
    ///
    /// The first that applies: `NodePathError` where the text is no path; `StorageError` with the store's own error, or
    /// with the key and the fault of a document that does not read; `MissingMetadata` where there is no document;
    /// `AdditionalFieldUnsupportedError` with the least field of a version 3 group that must be understood. Besides,
    /// out of memory.
    ///
    /// Source: `zarrs::group::Group::open_opt`; Zarr core specification 3.1, "Group metadata"; zarr-python, consolidated metadata of version 2.
    pub fn open_opt<S: ReadableStorageTraits>(
        alloc: Global,
        storage: &S,
        path: &str,
        version: &MetadataRetrieveVersion,
        config: &Config,
    ) -> Result<Group, GroupCreateError>
        ensures path { IfOk result
            (λ group. IsPath group.path × (path_text group.path ≡ path.now)) }
        ensures means { IfOk result
            (λ group. MeansGroup (S.contents storage.now) version.now group.path group.metadata) }
        ensures block { IfOk result
            (λ group. group.block
            ≡ block_beside (S.contents storage.now) group.path group.metadata) }
        ensures understood { IfOk result (λ group. IsUnsupportedIn group.metadata None) }
        ensures choices { IfOk result (HasChoicesOf config.now) }
        ensures err { IfErr result
            (RefusesOpeningGroup (S.can_fail storage.now)
            (S.contents storage.now) version.now path.now) }
    {
        let path = NodePath::new(alloc, path)?;
        let Some(found) = find_metadata(alloc, storage, &path, version)? else {
            return Err(GroupCreateError::MissingMetadata);
        };
        if let Some(error) = unsupported_field(&found)? {
            return Err(GroupCreateError::AdditionalFieldUnsupportedError(error));
        }
        let block = find_block(alloc, storage, &path, &found)?;
        Ok(Group::with_choices(path, found, block, config))
    }

    /// The group with this path and metadata, as [`Group::new_with_metadata`] makes it of the path's text. It is never refused.
    ///
    /// Source: own; Zarr core specification 3.1, "Group metadata".
    pub fn at(path: NodePath, metadata: GroupMetadata, config: &Config) -> Group
        ensures { result ≡ group_at config.now path metadata }
    {
        Group::with_choices(path, metadata, None, config)
    }

    // The group of these parts, with the choices of the configuration.
    pub(crate) fn with_choices(
        path: NodePath,
        metadata: GroupMetadata,
        block: Option<ConsolidatedMetadata>,
        config: &Config,
    ) -> Group
        requires { IsBeside (as_block block) }
        ensures { result ≡ record {
          path = path;
          metadata = metadata;
          block = as_block block;
          convert_version = config.now.convert_version;
          erase_version = config.now.erase_version;
        } }
    {
        Group {
            path,
            metadata,
            block,
            options: config.group_metadata_options(),
            erase_version: config.metadata_erase_version(),
        }
    }

    /// The path.
    ///
    /// Source: `zarrs::group::Group::path`.
    pub fn path(&self) -> &NodePath
        ensures { result.now ≡ self.now.path }
    {
        &self.path
    }

    /// The attributes.
    ///
    /// Source: `zarrs::group::Group::attributes`.
    pub fn attributes(&self) -> &Object
        ensures { result.now ≡ attributes_of_group self.now.metadata }
    {
        match &self.metadata {
            GroupMetadata::V3(group) => &group.attributes,
            GroupMetadata::V2(group) => &group.attributes,
        }
    }

    /// The metadata.
    ///
    /// Source: `zarrs::group::Group::metadata`.
    pub fn metadata(&self) -> &GroupMetadata
        ensures { result.now ≡ self.now.metadata }
    {
        &self.metadata
    }

    /// A copy of the metadata as the options have them written: those of version 2 converted where the options say
    /// version 3, and any others as they are.
    ///
    /// # Errors
    ///
    /// `AllocError` for out of memory alone.
    ///
    /// Source: `zarrs::group::Group::metadata_opt`.
    pub fn metadata_opt(
        &self,
        alloc: Global,
        options: &GroupMetadataOptions,
    ) -> Result<GroupMetadata, AllocError>
        ensures { IfOk result
            (λ metadata. metadata ≡ metadata_by_version options.now self.now.metadata) }
    {
        match (options.metadata_convert_version(), &self.metadata) {
            (MetadataConvertVersion::V3, GroupMetadata::V2(group)) => {
                Ok(GroupMetadata::V3(group_metadata_v2_to_v3(alloc, group)?))
            }
            (_, metadata) => metadata.try_clone(alloc),
        }
    }

    /// The group with its metadata as version 3: those of version 2 are converted and the block beside them is dropped, and path, attributes,
    /// options and erase version are kept.
    ///
    /// Source: `zarrs::group::Group::to_v3`.
    pub fn to_v3(self, alloc: Global) -> Group
        ensures { result ≡ group_as_v3 self }
    {
        let Group {
            path,
            metadata,
            block,
            options,
            erase_version,
        } = self;
        let (metadata, block) = match metadata {
            GroupMetadata::V3(group) => (group, block),
            GroupMetadata::V2(group) => (into_v3(alloc, group), None),
        };
        Group {
            path,
            metadata: GroupMetadata::V3(metadata),
            block,
            options,
            erase_version,
        }
    }

    /// `group at `, the path, ` with metadata ` and the metadata in the compact layout. Of metadata with a fraction no text is promised.
    ///
    /// # Errors
    ///
    /// `AllocError` for out of memory alone.
    ///
    /// Source: the `Display` of `zarrs::group::Group`.
    pub fn to_text(&self, alloc: Global) -> Result<String, AllocError>
        ensures { IfOk result (λ text. group_fault_in Whole self.now.metadata ≡ None
            → string_bytes text ≡ group_text self.now.path self.now.metadata) }
    {
        let path = self.path.as_str();
        let json = metadata_text(alloc, &self.metadata)?;
        let text = format!(in alloc; "group at {path} with metadata {json}")?;
        Ok(text)
    }

    /// A copy that equals its source.
    ///
    /// # Errors
    ///
    /// `AllocError` for out of memory alone.
    ///
    /// Source: `Clone` of `zarrs::group::Group`.
    pub fn try_clone(&self, alloc: Global) -> Result<Group, AllocError>
        ensures { IfOk result (λ copy. copy ≡ self.now) }
    {
        Ok(Group {
            path: self.path.try_clone(alloc)?,
            metadata: self.metadata.try_clone(alloc)?,
            block: copy_of(alloc, &self.block)?,
            options: self.options,
            erase_version: self.erase_version,
        })
    }

    /// Stores the group by its own options.
    ///
    /// # Errors
    ///
    /// Those of `store_metadata_opt`.
    ///
    /// Source: `zarrs::group::Group::store_metadata`.
    pub fn store_metadata<S: WritableStorageTraits>(
        &self,
        alloc: Global,
        storage: &mut S,
    ) -> Result<(), StorageError>
        ensures ok { OnOk result
            (StoresGroup self.now.convert_version self.now
            (S.contents storage.old) (S.contents storage.new)) }
        ensures exact { OnOk result
            (fault_of_group_in Whole self.now.convert_version self.now ≡ None
            → S.contents storage.new
            ≡ after (S.contents storage.old) (edits_of_group self.now.convert_version self.now)) }
        ensures means { OnOk result
            (MeansStored (S.contents storage.new) self.now.path
            (metadata_by_version self.now.convert_version self.now.metadata)) }
        ensures plain { OnOk result
            (fault_of_group_in (S.contents storage.old).numbers
            self.now.convert_version self.now ≡ None) }
        ensures block_reads { OnOk result
            (IsBlockReadBack (S.contents storage.new) self.now.path
            (metadata_by_version self.now.convert_version self.now.metadata) self.now.block) }
        ensures unchanged { fault_of_group_in (S.contents storage.old).numbers
            self.now.convert_version self.now ≢ None
            → S.contents storage.new ≡ S.contents storage.old }
        ensures err { IfErr result
            (RefusesStoringGroup (S.can_fail storage.old) self.now.convert_version self.now
            (S.contents storage.old) (S.contents storage.new)) }
        ensures nature { S.can_fail storage.new ≡ S.can_fail storage.old }
    {
        self.store_metadata_opt(alloc, storage, &self.options)
    }

    /// Stores the group as the options have its metadata written, over a store whose documents may hold any number with its fractions too. All
    /// keys and bytes are made before the store is changed:
    /// version 3 sets `zarr.json`; version 2 sets `.zattrs`, or erases it where there are no attributes, and then sets
    /// `.zgroup`. Where it holds no block, version 2 first erases `.zmetadata`, so that no older block is taken for its own; where it holds
    /// one, it sets `.zmetadata` last. A document is stored in the pretty layout, two spaces a level; a fraction in it is written as its `f64`, not
    /// digit by digit, and reads back as that.
    ///
    /// # Errors
    ///
    /// The first that applies, with the store unchanged:
    ///
    /// - `InvalidMetadata` with the key of the group's document where the metadata could not have come from a document:
    ///   `UnsupportedNumber` for a number that is neither `u64` nor `i64` where the numbers of the store are whole, else `BadMember` with the
    ///   least additional field that clashes with a name of the document's own.
    /// - `InvalidMetadata` with the key of `.zmetadata` where the metadata of an entry of the block could not have come
    ///   from a document: `UnsupportedNumber` for such a number of any entry, else `BadMember` with `metadata`.
    ///
    /// Besides, the store's own error and out of memory: then the changes before the refused one stand, of its key
    /// nothing is promised, and no later key was touched.
    ///
    /// Source: `zarrs::group::Group::store_metadata_opt`.
    pub fn store_metadata_opt<S: WritableStorageTraits>(
        &self,
        alloc: Global,
        storage: &mut S,
        options: &GroupMetadataOptions,
    ) -> Result<(), StorageError>
        ensures ok { OnOk result
            (StoresGroup options.now self.now (S.contents storage.old) (S.contents storage.new)) }
        ensures exact { OnOk result
            (fault_of_group_in Whole options.now self.now ≡ None
            → S.contents storage.new
            ≡ after (S.contents storage.old) (edits_of_group options.now self.now)) }
        ensures means { OnOk result
            (MeansStored (S.contents storage.new) self.now.path
            (metadata_by_version options.now self.now.metadata)) }
        ensures plain { OnOk result
            (fault_of_group_in (S.contents storage.old).numbers options.now self.now ≡ None) }
        ensures block_reads { OnOk result
            (IsBlockReadBack (S.contents storage.new) self.now.path
            (metadata_by_version options.now self.now.metadata) self.now.block) }
        ensures unchanged { fault_of_group_in (S.contents storage.old).numbers
            options.now self.now ≢ None
            → S.contents storage.new ≡ S.contents storage.old }
        ensures err { IfErr result
            (RefusesStoringGroup (S.can_fail storage.old) options.now self.now
            (S.contents storage.old) (S.contents storage.new)) }
        ensures nature { S.can_fail storage.new ≡ S.can_fail storage.old }
    {
        let metadata = self.metadata_opt(alloc, options)?;
        let edits = edits_to_store(alloc, storage.numbers(), &self.path, metadata, &self.block)?;
        apply_all(storage, edits.as_slice())
    }

    /// Erases the group by its own erase version.
    ///
    /// # Errors
    ///
    /// Those of `erase_metadata_opt`.
    ///
    /// Source: `zarrs::group::Group::erase_metadata`.
    pub fn erase_metadata<S: WritableStorageTraits>(
        &self,
        alloc: Global,
        storage: &mut S,
    ) -> Result<(), StorageError>
        ensures ok { OnOk result
            (S.contents storage.new
            ≡ after (S.contents storage.old)
            (erase_edits self.now.path self.now.erase_version self.now.metadata)) }
        ensures err { IfErr result (IsStoreError (S.can_fail storage.old)) }
        ensures cut { OnErr result
            (IsCutShort (S.contents storage.old)
            (erase_edits self.now.path self.now.erase_version self.now.metadata)
            (S.contents storage.new)) }
        ensures nature { S.can_fail storage.new ≡ S.can_fail storage.old }
    {
        self.erase_metadata_opt(alloc, storage, self.erase_version)
    }

    /// Erases the group. All keys are made before the store is changed: by Default those of the version that is held;
    /// V3 erases `zarr.json`; V2 erases `.zgroup`, then `.zattrs` and `.zmetadata`; All erases `zarr.json`, and then these.
    ///
    /// # Errors
    ///
    /// The store's own error and out of memory: then the changes before the refused one stand, of its key nothing is
    /// promised, and no later key was touched.
    ///
    /// Source: `zarrs::group::Group::erase_metadata_opt`.
    pub fn erase_metadata_opt<S: WritableStorageTraits>(
        &self,
        alloc: Global,
        storage: &mut S,
        version: MetadataEraseVersion,
    ) -> Result<(), StorageError>
        ensures ok { OnOk result
            (S.contents storage.new
            ≡ after (S.contents storage.old)
            (erase_edits self.now.path version self.now.metadata)) }
        ensures err { IfErr result (IsStoreError (S.can_fail storage.old)) }
        ensures cut { OnErr result (IsCutShort (S.contents storage.old)
            (erase_edits self.now.path version self.now.metadata) (S.contents storage.new)) }
        ensures nature { S.can_fail storage.new ≡ S.can_fail storage.old }
    {
        let edits = edits_to_erase(alloc, &self.path, &self.metadata, version)?;
        apply_all(storage, edits.as_slice())
    }
}

impl Group {
    ghost use Rattle.std.specs.Borrow.{sem};
    ghost use Rattle.zarrs_group.specs.LentAttributes.{LendsAttributes};

    /// The attributes, to be written.
    ///
    /// Source: `zarrs::group::Group::attributes_mut`.
    pub fn attributes_mut(&mut self) -> &mut Object
        ensures* writes_back { sem 𝓛 (LendsAttributes self.entry result) }
        ensures value { result.now ≡ attributes_of_group self.old.metadata }
    {
        attributes_of_mut(&mut self.metadata)
    }
}

ghost use Rattle.std.specs.Borrow.{sem};
ghost use Rattle.zarrs_group.specs.StepsOfGroups.{LendsAttributesOf};

// The attributes of either version, to be written.
fn attributes_of_mut(metadata: &mut GroupMetadata) -> &mut Object
    ensures* writes_back { sem 𝓛 (LendsAttributesOf metadata.entry result) }
    ensures value { result.now ≡ attributes_of_group metadata.old }
{
    match metadata {
        GroupMetadata::V3(group) => &mut group.attributes,
        GroupMetadata::V2(group) => &mut group.attributes,
    }
}

// The metadata as version 3, by a move.
fn into_v3(alloc: Global, group: GroupMetadataV2) -> GroupMetadataV3
    ensures { V3 result ≡ as_v3 (V2 group) }
{
    let mut converted = GroupMetadataV3::new(alloc);
    converted.attributes = group.attributes;
    converted
}

// The metadata in the compact layout.
fn metadata_text(alloc: Global, metadata: &GroupMetadata) -> Result<String, AllocError>
    ensures { IfOk result (λ text. group_fault_in Whole metadata.now ≡ None
        → string_bytes text ≡ compact_text (group_tree metadata.now)) }
{
    let value = match metadata {
        GroupMetadata::V3(group) => group.to_value(alloc)?,
        GroupMetadata::V2(group) => group.to_value(alloc)?,
    };
    let text = value.to_string(alloc)?;
    Ok(text)
}
