//! The version 2 group.
ghost use Rattle.std.specs.Prelude.{◌≡◌, ◌++◌, false, Ok, OnOk, string_bytes};
ghost use Rattle.serde_json.specs.Data.{object, no_members};
ghost use Rattle.serde_json.specs.View.{members_view};
ghost use Rattle.serde_json.specs.Written.{has_float};
ghost use Rattle.zarrs_form.specs.Documents.{Gives};
ghost use Rattle.zarrs_meta.specs.GroupV2.{group_v2_asks_first, group_v2_in, group_v2_rows, group_v2_tree, is_plain_group_v2_in};
ghost use Rattle.zarrs_form.specs.Forms.{put_rows};
ghost use Rattle.zarrs_form.specs.Layouts.{text_in};
ghost use Rattle.zarrs_meta.specs.StepsOfReading.{group_v2_taken};

use crate::document::Document;
use crate::written_document::WrittenDocument;
use serde_json::{Map, Value, put};
use std::alloc::{AllocError, Global};
use zarrs_fault::{MetadataFault, Numbers};
use zarrs_form::{
    Layout, Object, ask_format, attributes, put_unless, refuse, take_member, write_last,
    write_unless, write_value,
};

/// The metadata of a version 2 group.
///
/// Zarr specification version 2, "Groups"; `zarrs_metadata::v2::GroupMetadataV2`.
/// <https://zarr-specs.readthedocs.io/en/latest/v2/v2.0.html#groups>
#[derive(Debug, Drop)]
pub struct GroupMetadataV2 {
    /// The attributes.
    pub attributes: Object,
    /// The members that stand in no row of the table.
    pub additional_fields: Object,
}

/// `zarr_format`, the member of the table, and the one that must be absent.
const OWN_NAMES: &[&str] = &["zarr_format", "shape", "attributes"];

impl GroupMetadataV2 {
    /// The group without attributes and additional fields.
    ///
    /// Source: Zarr specification version 2, "Groups"; `GroupMetadataV2::new`.
    pub fn new(alloc: Global) -> GroupMetadataV2
        ensures { result ≡ record { attributes = no_members; additional_fields = no_members } }
    {
        GroupMetadataV2 {
            attributes: Object::new(alloc),
            additional_fields: Object::new(alloc),
        }
    }

    /// Takes the attributes; the members that are left are the additional fields.
    #[tactic(auto, unfolding(crate::specs::StepsOfReading::group_v2_taken))]
    fn take(
        alloc: Global,
        mut members: Map<String, Value>,
    ) -> Result<GroupMetadataV2, MetadataFault>
        ensures { Gives (λ m. m) result (group_v2_taken (members_view members.entries)) }
    {
        Ok(GroupMetadataV2 {
            attributes: attributes(alloc, &mut members)?,
            additional_fields: Object::from_map(alloc, members)?,
        })
    }

    /// Appends the text of the members of the table alone, in the order of their names.
    fn write_table(&self, alloc: Global, out: &mut String, layout: Layout) -> Result<(), AllocError>
        ensures ok { OnOk result
            (has_float (object (put_rows (group_v2_rows self.now) no_members)) ≡ false
            → string_bytes out.new ≡ string_bytes out.old
            ++ text_in layout (object (put_rows (group_v2_rows self.now) no_members))) }
    {
        out.push_str("{")?;
        let empty = self.attributes.is_empty();
        write_unless(alloc, out, layout, "attributes", empty, &self.attributes)?;
        write_last(alloc, out, layout, "zarr_format", &2u64)
    }
}

impl Document for GroupMetadataV2 {
    ghost meaning = { group_v2_in };

    /// `WrongFormat` where `zarr_format` is not 2, `BadMember` of `shape` where there is one, or of `attributes` where it is no object.
    #[tactic(auto, using(crate::proofs::TakenLaws::group_v2_taken_is), unfolding(crate::specs::GroupV2::group_v2_in))]
    fn from_members_in(
        alloc: Global,
        numbers: Numbers,
        mut members: Map<String, Value>,
    ) -> Result<GroupMetadataV2, MetadataFault> {
        ask_format(&members, 2)?;
        refuse(&members, "shape")?;
        drop(take_member(&mut members, "zarr_format"));
        drop(take_member(&mut members, "shape"));
        GroupMetadataV2::take(alloc, members)
    }

    fn try_clone(&self, alloc: Global) -> Result<GroupMetadataV2, AllocError> {
        Ok(GroupMetadataV2 {
            attributes: self.attributes.try_clone(alloc)?,
            additional_fields: self.additional_fields.try_clone(alloc)?,
        })
    }

    ghost asks_first = { group_v2_asks_first };
}

impl WrittenDocument for GroupMetadataV2 {
    ghost tree = { group_v2_tree };

    ghost plain = { is_plain_group_v2_in };

    fn to_value(&self, alloc: Global) -> Result<Value, AllocError> {
        let mut all = self.additional_fields.to_map(alloc)?;
        put(&mut all, alloc, "zarr_format", Value::from(2u64))?;
        let bare = self.attributes.is_empty();
        put_unless(&mut all, alloc, "attributes", bare, &self.attributes)?;
        Ok(Value::Object(all))
    }

    fn write(&self, alloc: Global, out: &mut String, layout: Layout) -> Result<(), AllocError> {
        if self.additional_fields.is_empty() {
            return self.write_table(alloc, out, layout);
        }
        write_value(alloc, out, layout, &self.to_value(alloc)?)
    }

    /// Whether the group could have come from a document: its numbers fit, and no additional field has
    /// an own name or the name `shape`.
    fn is_plain(&self) -> bool {
        !self.attributes.has_float()
            && !self.additional_fields.has_float()
            && !self.additional_fields.has_own_member(OWN_NAMES)
    }

    #[tactic(auto, using(crate::proofs::GroupV2Laws::group_v2_again_in))]
    fn reads_back(&self, numbers: Numbers) {}

    #[tactic(auto, using(crate::proofs::PlainGroups::read_group_v2_is_plain_in))]
    fn read_is_plain() {}

    #[tactic(auto, using(crate::proofs::GroupV2Laws::group_v2_no_float))]
    fn plain_is_whole(&self) {}
}
