//! The version 2 array.
ghost use Rattle.std.specs.Prelude.{◌≡◌, ◌++◌, [], ◌∷◌, false, Ok, OnOk, codes, string_bytes};
ghost use Rattle.serde_json.specs.Data.{object, no_members};
ghost use Rattle.serde_json.specs.View.{members_view};
ghost use Rattle.serde_json.specs.Written.{has_float};
ghost use Rattle.zarrs_form.specs.Documents.{Gives, besides, format_of};
ghost use Rattle.zarrs_form.specs.Forms.{put_rows};
ghost use Rattle.zarrs_form.specs.Layouts.{text_in};
ghost use Rattle.zarrs_meta.specs.ArrayV2.{array_v2_asks_first, array_v2_in, array_v2_rows, array_v2_tree, is_plain_array_v2_in};
ghost use Rattle.zarrs_meta.specs.StepsOfReading.{array_v2_taken};

use crate::document::Document;
use crate::written_document::WrittenDocument;
use serde_json::{Map, Value, put};
use std::alloc::{AllocError, Global};
use zarrs_fault::{MetadataFault, Numbers};
use zarrs_form::{
    ArrayMetadataV2Order, ChunkKeySeparator, DataTypeMetadataV2, FillValueMetadata, Form, Layout,
    List, MetadataV2, Object, Text, attributes, chunk_lengths, has_zero, optional, put_member,
    put_unless, required, take_member, write_last, write_row, write_unless, write_value,
};

/// The metadata of a version 2 array.
///
/// Zarr specification version 2, "Arrays", "Metadata"; `zarrs_metadata::v2::ArrayMetadataV2`.
/// <https://zarr-specs.readthedocs.io/en/latest/v2/v2.0.html#metadata>
#[derive(Debug, Drop)]
pub struct ArrayMetadataV2 {
    /// The length of each dimension.
    pub shape: List<u64>,
    /// The length of each dimension of a chunk.
    pub chunks: List<u64>,
    /// The data type.
    pub dtype: DataTypeMetadataV2,
    /// The value of items that no chunk holds.
    pub fill_value: FillValueMetadata,
    /// The layout of the items within a chunk.
    pub order: ArrayMetadataV2Order,
    /// The compressor, if there is one.
    pub compressor: Option<MetadataV2>,
    /// The filters, if there are any.
    pub filters: Option<List<MetadataV2>>,
    /// What stands between the numbers of a chunk's key.
    pub dimension_separator: ChunkKeySeparator,
    /// The attributes.
    pub attributes: Object,
    /// The members that stand in no row of the table.
    pub additional_fields: Object,
}

/// `zarr_format` and the members of the table.
const OWN_NAMES: &[&str] = &[
    "zarr_format",
    "shape",
    "chunks",
    "dtype",
    "fill_value",
    "order",
    "compressor",
    "filters",
    "dimension_separator",
    "attributes",
];

impl ArrayMetadataV2 {
    /// The array that the members of a document are, once its format was asked and taken.
    fn take(alloc: Global, members: Map<String, Value>) -> Result<ArrayMetadataV2, MetadataFault>
        ensures { Gives (λ m. m) result (array_v2_taken (members_view members.entries)) }
    {
        let mut array = ArrayMetadataV2::blank(alloc);
        array.fill(alloc, members)?;
        Ok(array)
    }

    /// An array of nothing, which is filled behind a reference: no error on the way has parts of it to drop.
    pub(crate) fn blank(alloc: Global) -> ArrayMetadataV2 {
        ArrayMetadataV2 {
            shape: List::new(Vec::new(alloc)),
            chunks: List::new(Vec::new(alloc)),
            dtype: DataTypeMetadataV2::Simple(Text::new(String::new(alloc))),
            fill_value: FillValueMetadata::new(Value::Null),
            order: ArrayMetadataV2Order::C,
            compressor: None,
            filters: None,
            dimension_separator: ChunkKeySeparator::Dot,
            attributes: Object::new(alloc),
            additional_fields: Object::new(alloc),
        }
    }

    /// Takes the members of the table one by one; those that are left are the additional fields.
    #[tactic(auto, unfolding(crate::specs::StepsOfReading::array_v2_taken))]
    fn fill(&mut self, alloc: Global, mut members: Map<String, Value>) -> Result<(), MetadataFault>
        ensures { Gives (λ _. self.new) result (array_v2_taken (members_view members.entries)) }
    {
        self.shape = required(alloc, &mut members, "shape")?;
        self.chunks = chunk_lengths(alloc, &mut members, "chunks")?;
        self.dtype = required(alloc, &mut members, "dtype")?;
        self.fill_value = required(alloc, &mut members, "fill_value")?;
        self.order = required(alloc, &mut members, "order")?;
        self.compressor = optional(alloc, &mut members, "compressor", None)?;
        self.filters = optional(alloc, &mut members, "filters", None)?;
        let dot = ChunkKeySeparator::Dot;
        self.dimension_separator = optional(alloc, &mut members, "dimension_separator", dot)?;
        self.attributes = attributes(alloc, &mut members)?;
        self.additional_fields = Object::from_map(alloc, members)?;
        Ok(())
    }

    /// Appends the text of the members of the table alone, in the order of their names.
    fn write_table(&self, alloc: Global, out: &mut String, layout: Layout) -> Result<(), AllocError>
        ensures ok { OnOk result
            (has_float (object (put_rows (array_v2_rows self.now) no_members)) ≡ false
            → string_bytes out.new ≡ string_bytes out.old
            ++ text_in layout (object (put_rows (array_v2_rows self.now) no_members))) }
    {
        out.push_str("{")?;
        let empty = self.attributes.is_empty();
        write_unless(alloc, out, layout, "attributes", empty, &self.attributes)?;
        write_row(alloc, out, layout, "chunks", Some(&self.chunks))?;
        let compressor = Some(&self.compressor);
        write_row(alloc, out, layout, "compressor", compressor)?;
        let separator = Some(&self.dimension_separator);
        write_row(alloc, out, layout, "dimension_separator", separator)?;
        write_row(alloc, out, layout, "dtype", Some(&self.dtype))?;
        write_row(alloc, out, layout, "fill_value", Some(&self.fill_value))?;
        write_row(alloc, out, layout, "filters", Some(&self.filters))?;
        write_row(alloc, out, layout, "order", Some(&self.order))?;
        write_row(alloc, out, layout, "shape", Some(&self.shape))?;
        write_last(alloc, out, layout, "zarr_format", &2u64)
    }
}

impl Document for ArrayMetadataV2 {
    ghost meaning = { array_v2_in };

    /// `WrongFormat` where `zarr_format` is not 2, then `MissingMember` or `BadMember` of the first member of the table that is absent or
    /// of another form.
    #[tactic(auto, using(crate::proofs::TakenLaws::array_v2_taken_is), unfolding(crate::specs::ArrayV2::array_v2_in))]
    fn from_members_in(
        alloc: Global,
        numbers: Numbers,
        mut members: Map<String, Value>,
    ) -> Result<ArrayMetadataV2, MetadataFault> {
        take_format(&mut members)?;
        ArrayMetadataV2::take(alloc, members)
    }

    fn try_clone(&self, alloc: Global) -> Result<ArrayMetadataV2, AllocError> {
        let mut copy = ArrayMetadataV2::blank(alloc);
        copy.copy_from(alloc, self)?;
        Ok(copy)
    }

    ghost asks_first = { array_v2_asks_first };
}

impl WrittenDocument for ArrayMetadataV2 {
    ghost tree = { array_v2_tree };

    ghost plain = { is_plain_array_v2_in };

    fn to_value(&self, alloc: Global) -> Result<Value, AllocError> {
        let mut all = self.additional_fields.to_map(alloc)?;
        put(&mut all, alloc, "zarr_format", Value::from(2u64))?;
        put_member(&mut all, alloc, "shape", Some(&self.shape))?;
        put_member(&mut all, alloc, "chunks", Some(&self.chunks))?;
        put_member(&mut all, alloc, "dtype", Some(&self.dtype))?;
        put_member(&mut all, alloc, "fill_value", Some(&self.fill_value))?;
        put_member(&mut all, alloc, "order", Some(&self.order))?;
        put_member(&mut all, alloc, "compressor", Some(&self.compressor))?;
        put_member(&mut all, alloc, "filters", Some(&self.filters))?;
        put_member(
            &mut all,
            alloc,
            "dimension_separator",
            Some(&self.dimension_separator),
        )?;
        let bare = self.attributes.is_empty();
        put_unless(&mut all, alloc, "attributes", bare, &self.attributes)?;
        Ok(Value::Object(all))
    }

    fn write(&self, alloc: Global, out: &mut String, layout: Layout) -> Result<(), AllocError> {
        if self.additional_fields.is_empty() {
            return self.write_table(alloc, out, layout);
        }
        write_value(alloc, out, layout, &self.to_value(alloc)?)
    }

    /// Whether the array could have come from a document: its numbers are `u64` or `i64`, no chunk length is
    /// 0, no codec has a member `id` in its configuration, and no additional field has an own name.
    fn is_plain(&self) -> bool {
        !has_zero(&self.chunks)
            && self.dtype.is_plain()
            && self.fill_value.is_plain()
            && self.compressor.is_plain()
            && self.filters.is_plain()
            && self.attributes.is_plain()
            && !self.additional_fields.has_float()
            && !self.additional_fields.has_own_member(OWN_NAMES)
    }

    #[tactic(auto, using(crate::proofs::ArrayV2Laws::array_v2_again_in))]
    fn reads_back(&self, numbers: Numbers) {}

    #[tactic(auto, using(crate::proofs::PlainArrays::read_array_v2_is_plain_in))]
    fn read_is_plain() {}

    #[tactic(auto, using(crate::proofs::ArrayV2Laws::array_v2_no_float))]
    fn plain_is_whole(&self) {}
}

/// Takes the member `zarr_format`, which has to be 2: it is looked for once.
#[tactic(auto, unfolding(zarrs_form::specs::Documents::format_of))]
fn take_format(members: &mut Map<String, Value>) -> Result<(), MetadataFault>
    ensures asked { result ≡ format_of 2 (object (members_view members.old.entries)) }
    ensures left { members_view members.new.entries
        ≡ besides (codes "zarr_format" ∷ []) (members_view members.old.entries) }
{
    let format = take_member(members, "zarr_format");
    match format.as_ref().and_then(Value::as_u64) {
        Some(2) => Ok(()),
        _ => Err(MetadataFault::WrongFormat),
    }
}
