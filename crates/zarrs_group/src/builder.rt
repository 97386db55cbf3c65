//! Groups that are made from parts.
ghost use Rattle.std.specs.Prelude.{◌≡◌, None, IfOk, IfErr};
ghost use Rattle.serde_json.specs.Data.{no_members};
ghost use Rattle.serde_json.specs.View.{members_view};
ghost use Rattle.zarrs_meta.specs.declared.node.GroupMetadata.TheVariants.{V3};
ghost use Rattle.zarrs_path.specs.Paths.{IsPath, path_text};
ghost use Rattle.zarrs_group.specs.Groups.{HasChoicesOf};
ghost use Rattle.zarrs_group.specs.OpeningGroups.{RefusesMaking};

use crate::create_error::GroupCreateError;
use crate::group::Group;
use std::alloc::Global;
use std::marker::Model;
use zarrs_config::Config;
use zarrs_meta::{AdditionalFieldsV3, Document, GroupMetadata, GroupMetadataV3, Object};

/// Makes groups of version 3.
///
/// Source: `zarrs::group::GroupBuilder`.
/// <https://docs.rs/zarrs/0.23.13/zarrs/group/struct.GroupBuilder.html>
#[derive(Debug, Drop)]
pub struct GroupBuilder {
    metadata: GroupMetadataV3,
}

// Contracts see the metadata.
impl Model for GroupBuilder {
    ghost use Rattle.zarrs_meta.specs.declared.group_v3.GroupMetadataV3.{GroupMetadataV3};
    ghost use Rattle.zarrs_meta.specs.contracts.group_v3.GroupMetadataV3.{the_row as metadata_row};

    ghost Value = { GroupMetadataV3 };

    ghost coded = { metadata_row.coded };

    ghost view = { λ builder. builder.metadata };
}

impl GroupBuilder {
    /// The builder of a group without attributes and without additional fields.
    ///
    /// Source: `zarrs::group::GroupBuilder::new`.
    pub fn new(alloc: Global) -> GroupBuilder
        ensures { result ≡ record { attributes = no_members; additional_fields = no_members } }
    {
        GroupBuilder {
            metadata: GroupMetadataV3::new(alloc),
        }
    }

    /// Puts these attributes in place of the others.
    ///
    /// Source: `zarrs::group::GroupBuilder::attributes`.
    pub fn attributes(&mut self, attributes: Object) -> &mut GroupBuilder
        ensures same { result.ghost_name ≡ self.entry.ghost_name }
        ensures value { result.now ≡ record {
          attributes = attributes;
          additional_fields = self.old.additional_fields;
        } }
    {
        self.metadata.attributes = attributes;
        self
    }

    /// Puts these additional fields in place of the others.
    ///
    /// Source: `zarrs::group::GroupBuilder::additional_fields`.
    pub fn additional_fields(&mut self, additional_fields: AdditionalFieldsV3) -> &mut GroupBuilder
        ensures same { result.ghost_name ≡ self.entry.ghost_name }
        ensures value { result.now ≡ record {
          attributes = self.old.attributes;
          additional_fields = additional_fields;
        } }
    {
        self.metadata.additional_fields = additional_fields;
        self
    }

    /// The group at this path with a copy of what the builder holds, and with the options and the erase version of the
    /// configuration.
    ///
    /// # Errors
    ///
    /// `NodePathError` where the text is no path, and out of memory.
    ///
    /// Source: `zarrs::group::GroupBuilder::build`.
    pub fn build(
        &self,
        alloc: Global,
        path: &str,
        config: &Config,
    ) -> Result<Group, GroupCreateError>
        ensures path { IfOk result
            (λ group. IsPath group.path × (path_text group.path ≡ path.now)) }
        ensures metadata { IfOk result (λ group. group.metadata ≡ V3 self.now) }
        ensures block { IfOk result (λ group. group.block ≡ None) }
        ensures choices { IfOk result (HasChoicesOf config.now) }
        ensures err { IfErr result (RefusesMaking path.now) }
    {
        let metadata = self.metadata.try_clone(alloc)?;
        Group::new_with_metadata(alloc, path, GroupMetadata::V3(metadata), config)
    }
}
