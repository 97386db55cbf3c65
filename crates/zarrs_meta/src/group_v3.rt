//! The version 3 group.
ghost use Rattle.std.specs.Prelude.{◌≡◌, ◌++◌, false, Ok, OnOk, string_bytes};
ghost use Rattle.serde_json.specs.Data.{object, no_members};
ghost use Rattle.serde_json.specs.View.{members_view};
ghost use Rattle.serde_json.specs.Written.{has_float};
ghost use Rattle.zarrs_form.specs.Documents.{Gives};
ghost use Rattle.zarrs_meta.specs.GroupV3.{group_v3_asks_first, group_v3_in, group_v3_rows, group_v3_tree, is_plain_group_v3_in};
ghost use Rattle.zarrs_form.specs.Forms.{put_rows};
ghost use Rattle.zarrs_form.specs.Layouts.{text_in};
ghost use Rattle.zarrs_meta.specs.StepsOfReading.{group_v3_taken};

use crate::document::Document;
use crate::written_document::WrittenDocument;
use serde_json::{Map, Value, put};
use std::alloc::{AllocError, Global};
use zarrs_fault::{MetadataFault, Numbers};
use zarrs_form::{
    AdditionalFieldsV3, Layout, Object, Text, ask_format, ask_node_type, attributes, fields_of,
    put_text, put_unless, take_null, write_last, write_row, write_unless, write_value,
};

/// The metadata of a version 3 group.
///
/// Zarr core specification 3.1, "Group metadata"; `zarrs_metadata::v3::GroupMetadataV3`.
/// <https://zarr-specs.readthedocs.io/en/latest/v3/core/index.html#group-metadata>
#[derive(Debug, Drop)]
pub struct GroupMetadataV3 {
    /// The attributes.
    pub attributes: Object,
    /// The members that stand in no row of the table.
    pub additional_fields: AdditionalFieldsV3,
}

impl GroupMetadataV3 {
    /// The group without attributes and additional fields.
    ///
    /// Source: Zarr core specification 3.1, "Group metadata"; `GroupMetadataV3::new`.
    pub fn new(alloc: Global) -> GroupMetadataV3
        ensures { result ≡ record { attributes = no_members; additional_fields = no_members } }
    {
        GroupMetadataV3 {
            attributes: Object::new(alloc),
            additional_fields: AdditionalFieldsV3::new(alloc),
        }
    }

    /// Takes the attributes, and a null `consolidated_metadata`; the members that are left are the
    /// additional fields.
    #[tactic(auto, unfolding(crate::specs::StepsOfReading::group_v3_taken))]
    pub(crate) fn take(
        alloc: Global,
        mut members: Map<String, Value>,
    ) -> Result<GroupMetadataV3, MetadataFault>
        ensures { Gives (λ m. m) result (group_v3_taken (members_view members.entries)) }
    {
        let attributes = attributes(alloc, &mut members)?;
        take_null(&mut members, "consolidated_metadata");
        Ok(GroupMetadataV3 {
            attributes,
            additional_fields: fields_of(alloc, members, &["zarr_format", "node_type"])?,
        })
    }

    /// Appends the text of the members of the table alone, in the order of their names.
    fn write_table(&self, alloc: Global, out: &mut String, layout: Layout) -> Result<(), AllocError>
        ensures ok { OnOk result
            (has_float (object (put_rows (group_v3_rows self.now) no_members)) ≡ false
            → string_bytes out.new ≡ string_bytes out.old
            ++ text_in layout (object (put_rows (group_v3_rows self.now) no_members))) }
    {
        out.push_str("{")?;
        let empty = self.attributes.is_empty();
        write_unless(alloc, out, layout, "attributes", empty, &self.attributes)?;
        let kind = Text::from_str(alloc, "group")?;
        write_row(alloc, out, layout, "node_type", Some(&kind))?;
        write_last(alloc, out, layout, "zarr_format", &3u64)
    }
}

impl Document for GroupMetadataV3 {
    ghost meaning = { group_v3_in };

    /// `WrongFormat` where `zarr_format` is not 3, `WrongNodeType` where `node_type` is not `group`, `BadMember` of `attributes` where it
    /// is no object.
    #[tactic(auto, using(crate::proofs::TakenLaws::group_v3_taken_is), unfolding(crate::specs::GroupV3::group_v3_in))]
    fn from_members_in(
        alloc: Global,
        numbers: Numbers,
        members: Map<String, Value>,
    ) -> Result<GroupMetadataV3, MetadataFault> {
        ask_format(&members, 3)?;
        ask_node_type(&members, "group")?;
        GroupMetadataV3::take(alloc, members)
    }

    fn try_clone(&self, alloc: Global) -> Result<GroupMetadataV3, AllocError> {
        Ok(GroupMetadataV3 {
            attributes: self.attributes.try_clone(alloc)?,
            additional_fields: self.additional_fields.try_clone(alloc)?,
        })
    }

    ghost asks_first = { group_v3_asks_first };
}

impl WrittenDocument for GroupMetadataV3 {
    ghost tree = { group_v3_tree };

    ghost plain = { is_plain_group_v3_in };

    fn to_value(&self, alloc: Global) -> Result<Value, AllocError> {
        let mut all = self.additional_fields.to_members(alloc)?;
        put(&mut all, alloc, "zarr_format", Value::from(3u64))?;
        put_text(&mut all, alloc, "node_type", "group")?;
        let bare = self.attributes.is_empty();
        put_unless(&mut all, alloc, "attributes", bare, &self.attributes)?;
        Ok(Value::Object(all))
    }

    fn write(&self, alloc: Global, out: &mut String, layout: Layout) -> Result<(), AllocError> {
        if self.additional_fields.is_empty() {
            return self.write_table(alloc, out, layout);
        }
        write_value(alloc, out, layout, &self.to_value(alloc)?)
    }

    /// Whether the group could have come from a document: its numbers are `u64` or `i64`, no additional field
    /// has an own name, and no field `consolidated_metadata` is null.
    fn is_plain(&self) -> bool {
        let fields = &self.additional_fields;
        !self.attributes.has_float()
            && !fields.has_float()
            && !fields.has_own_name(&["zarr_format", "node_type", "attributes"])
            && !fields.is_null_at("consolidated_metadata")
    }

    #[tactic(auto, using(crate::proofs::GroupV3Laws::group_v3_again_in))]
    fn reads_back(&self, numbers: Numbers) {}

    #[tactic(auto, using(crate::proofs::PlainGroups::read_group_v3_is_plain_in))]
    fn read_is_plain() {}

    #[tactic(auto, using(crate::proofs::GroupV3Laws::group_v3_no_float))]
    fn plain_is_whole(&self) {}
}
