//! The version 3 array.
ghost use Rattle.std.specs.Prelude.{◌≡◌, ◌++◌, false, Ok, IfOk, OnOk, string_bytes};
ghost use Rattle.serde_json.specs.Data.{object, no_members};
ghost use Rattle.serde_json.specs.View.{members_view};
ghost use Rattle.serde_json.specs.Written.{has_float};
ghost use Rattle.zarrs_form.specs.Documents.{Gives};
ghost use Rattle.zarrs_form.specs.Forms.{put_rows};
ghost use Rattle.zarrs_form.specs.Layouts.{text_in};
ghost use Rattle.zarrs_meta.specs.ArrayV3.{array_v3_asks_first, array_v3_in, array_v3_rows, array_v3_tree, is_plain_array_v3_in};
ghost use Rattle.zarrs_meta.specs.MadeArray.{default_encoding, made_array};
ghost use Rattle.zarrs_meta.specs.StepsOfReading.{array_v3_taken};

use crate::document::Document;
use crate::written_document::WrittenDocument;
use serde_json::{Map, Value, put};
use std::alloc::{AllocError, Global};
use zarrs_fault::{MetadataFault, Numbers};
use zarrs_form::{
    AdditionalFieldsV3, ChunkKeySeparator, FillValueMetadata, Form, Layout, List, MetadataV3,
    Object, Text, ask_format, ask_node_type, attributes, fields_of, optional, put_member, put_text,
    put_unless, required, write_last, write_row, write_unless, write_value,
};

/// The metadata of a version 3 array.
///
/// Zarr core specification 3.1, "Array metadata"; `zarrs_metadata::v3::ArrayMetadataV3`.
/// <https://zarr-specs.readthedocs.io/en/latest/v3/core/index.html#array-metadata>
#[derive(Debug, Drop)]
pub struct ArrayMetadataV3 {
    /// The length of each dimension.
    pub shape: List<u64>,
    /// The data type.
    pub data_type: MetadataV3,
    /// How the array is cut into chunks.
    pub chunk_grid: MetadataV3,
    /// How the keys of chunks are made.
    pub chunk_key_encoding: MetadataV3,
    /// The value of items that no chunk holds.
    pub fill_value: FillValueMetadata,
    /// The codecs, in the order of encoding.
    pub codecs: List<MetadataV3>,
    /// The attributes.
    pub attributes: Object,
    /// The storage transformers.
    pub storage_transformers: List<MetadataV3>,
    /// The name of each dimension, where there is one.
    pub dimension_names: Option<List<Option<Text>>>,
    /// The members that stand in no row of the table.
    pub additional_fields: AdditionalFieldsV3,
}

/// `zarr_format`, `node_type` and the members of the table.
const OWN_NAMES: &[&str] = &[
    "zarr_format",
    "node_type",
    "shape",
    "data_type",
    "chunk_grid",
    "chunk_key_encoding",
    "fill_value",
    "codecs",
    "attributes",
    "storage_transformers",
    "dimension_names",
];

impl ArrayMetadataV3 {
    /// The array with these members. The keys of its chunks are made by the encoding `default` with slashes; it has no
    /// attributes, no storage transformers, no dimension names and no additional fields.
    ///
    /// # Errors
    ///
    /// `AllocError` where there is no memory for the encoding.
    ///
    /// Source: `zarrs_metadata::v3::ArrayMetadataV3::new`.
    pub fn new(
        alloc: Global,
        shape: List<u64>,
        chunk_grid: MetadataV3,
        data_type: MetadataV3,
        fill_value: FillValueMetadata,
        codecs: List<MetadataV3>,
    ) -> Result<ArrayMetadataV3, AllocError>
        ensures { IfOk result
            (λ array. array ≡ made_array shape chunk_grid data_type fill_value codecs) }
    {
        Ok(ArrayMetadataV3 {
            shape,
            data_type,
            chunk_grid,
            chunk_key_encoding: default_encoding(alloc)?,
            fill_value,
            codecs,
            attributes: Object::new(alloc),
            storage_transformers: List::new(Vec::new(alloc)),
            dimension_names: None,
            additional_fields: AdditionalFieldsV3::new(alloc),
        })
    }

    /// The array with these attributes in place of its own.
    ///
    /// Source: `zarrs_metadata::v3::ArrayMetadataV3::with_attributes`.
    pub fn with_attributes(mut self, attributes: Object) -> ArrayMetadataV3
        ensures { result ≡ record self { attributes = attributes } }
    {
        self.attributes = attributes;
        self
    }

    /// The array with this encoding of the keys of chunks in place of its own.
    ///
    /// Source: `zarrs_metadata::v3::ArrayMetadataV3::with_chunk_key_encoding`.
    pub fn with_chunk_key_encoding(mut self, chunk_key_encoding: MetadataV3) -> ArrayMetadataV3
        ensures { result ≡ record self { chunk_key_encoding = chunk_key_encoding } }
    {
        self.chunk_key_encoding = chunk_key_encoding;
        self
    }

    /// The array that the members of a document are, once its format and its node type were asked.
    pub(crate) fn take(
        alloc: Global,
        members: Map<String, Value>,
    ) -> Result<ArrayMetadataV3, MetadataFault>
        ensures { Gives (λ m. m) result (array_v3_taken (members_view members.entries)) }
    {
        let mut array = ArrayMetadataV3::blank(alloc);
        array.fill(alloc, members)?;
        Ok(array)
    }

    /// An array of nothing, which is filled behind a reference: no error on the way has parts of it to drop.
    pub(crate) fn blank(alloc: Global) -> ArrayMetadataV3 {
        ArrayMetadataV3 {
            shape: List::new(Vec::new(alloc)),
            data_type: blank_extension(alloc),
            chunk_grid: blank_extension(alloc),
            chunk_key_encoding: blank_extension(alloc),
            fill_value: FillValueMetadata::new(Value::Null),
            codecs: List::new(Vec::new(alloc)),
            attributes: Object::new(alloc),
            storage_transformers: List::new(Vec::new(alloc)),
            dimension_names: None,
            additional_fields: AdditionalFieldsV3::new(alloc),
        }
    }

    /// Takes the members of the table one by one; those that are left are the additional fields.
    #[tactic(auto, unfolding(crate::specs::StepsOfReading::array_v3_taken))]
    fn fill(&mut self, alloc: Global, mut members: Map<String, Value>) -> Result<(), MetadataFault>
        ensures { Gives (λ _. self.new) result (array_v3_taken (members_view members.entries)) }
    {
        self.shape = required(alloc, &mut members, "shape")?;
        self.data_type = required(alloc, &mut members, "data_type")?;
        self.chunk_grid = required(alloc, &mut members, "chunk_grid")?;
        self.chunk_key_encoding = required(alloc, &mut members, "chunk_key_encoding")?;
        self.fill_value = required(alloc, &mut members, "fill_value")?;
        self.codecs = required(alloc, &mut members, "codecs")?;
        self.attributes = attributes(alloc, &mut members)?;
        let none = List::new(Vec::new(alloc));
        self.storage_transformers = optional(alloc, &mut members, "storage_transformers", none)?;
        self.dimension_names = optional(alloc, &mut members, "dimension_names", None)?;
        self.additional_fields = fields_of(alloc, members, &["zarr_format", "node_type"])?;
        Ok(())
    }

    /// Appends the text of the members of the table alone, in the order of their names.
    fn write_table(&self, alloc: Global, out: &mut String, layout: Layout) -> Result<(), AllocError>
        ensures ok { OnOk result
            (has_float (object (put_rows (array_v3_rows self.now) no_members)) ≡ false
            → string_bytes out.new ≡ string_bytes out.old
            ++ text_in layout (object (put_rows (array_v3_rows self.now) no_members))) }
    {
        out.push_str("{")?;
        let empty = self.attributes.is_empty();
        write_unless(alloc, out, layout, "attributes", empty, &self.attributes)?;
        write_row(alloc, out, layout, "chunk_grid", Some(&self.chunk_grid))?;
        let encoding = Some(&self.chunk_key_encoding);
        write_row(alloc, out, layout, "chunk_key_encoding", encoding)?;
        write_row(alloc, out, layout, "codecs", Some(&self.codecs))?;
        write_row(alloc, out, layout, "data_type", Some(&self.data_type))?;
        let names = self.dimension_names.as_ref();
        write_row(alloc, out, layout, "dimension_names", names)?;
        write_row(alloc, out, layout, "fill_value", Some(&self.fill_value))?;
        let kind = Text::from_str(alloc, "array")?;
        write_row(alloc, out, layout, "node_type", Some(&kind))?;
        write_row(alloc, out, layout, "shape", Some(&self.shape))?;
        let all = &self.storage_transformers;
        let empty = all.is_empty();
        write_unless(alloc, out, layout, "storage_transformers", empty, all)?;
        write_last(alloc, out, layout, "zarr_format", &3u64)
    }
}

impl Document for ArrayMetadataV3 {
    ghost meaning = { array_v3_in };

    /// `WrongFormat` where `zarr_format` is not 3, `WrongNodeType` where `node_type` is not `array`, then `MissingMember` or `BadMember`
    /// of the first member of the table that is absent or of another form.
    #[tactic(auto, using(crate::proofs::TakenLaws::array_v3_taken_is), unfolding(crate::specs::ArrayV3::array_v3_in))]
    fn from_members_in(
        alloc: Global,
        numbers: Numbers,
        members: Map<String, Value>,
    ) -> Result<ArrayMetadataV3, MetadataFault> {
        ask_format(&members, 3)?;
        ask_node_type(&members, "array")?;
        ArrayMetadataV3::take(alloc, members)
    }

    fn try_clone(&self, alloc: Global) -> Result<ArrayMetadataV3, AllocError> {
        let mut copy = ArrayMetadataV3::blank(alloc);
        copy.copy_from(alloc, self)?;
        Ok(copy)
    }

    ghost asks_first = { array_v3_asks_first };
}

impl WrittenDocument for ArrayMetadataV3 {
    ghost tree = { array_v3_tree };

    ghost plain = { is_plain_array_v3_in };

    fn to_value(&self, alloc: Global) -> Result<Value, AllocError> {
        let mut all = self.additional_fields.to_members(alloc)?;
        put(&mut all, alloc, "zarr_format", Value::from(3u64))?;
        put_text(&mut all, alloc, "node_type", "array")?;
        put_member(&mut all, alloc, "shape", Some(&self.shape))?;
        put_member(&mut all, alloc, "data_type", Some(&self.data_type))?;
        put_member(&mut all, alloc, "chunk_grid", Some(&self.chunk_grid))?;
        put_member(
            &mut all,
            alloc,
            "chunk_key_encoding",
            Some(&self.chunk_key_encoding),
        )?;
        put_member(&mut all, alloc, "fill_value", Some(&self.fill_value))?;
        put_member(&mut all, alloc, "codecs", Some(&self.codecs))?;
        let bare = self.attributes.is_empty();
        put_unless(&mut all, alloc, "attributes", bare, &self.attributes)?;
        let bare = self.storage_transformers.is_empty();
        put_unless(
            &mut all,
            alloc,
            "storage_transformers",
            bare,
            &self.storage_transformers,
        )?;
        put_member(
            &mut all,
            alloc,
            "dimension_names",
            self.dimension_names.as_ref(),
        )?;
        Ok(Value::Object(all))
    }

    fn write(&self, alloc: Global, out: &mut String, layout: Layout) -> Result<(), AllocError> {
        if self.additional_fields.is_empty() {
            return self.write_table(alloc, out, layout);
        }
        write_value(alloc, out, layout, &self.to_value(alloc)?)
    }

    /// Whether the array could have come from a document: its numbers are `u64` or `i64`, and no additional
    /// field has an own name.
    fn is_plain(&self) -> bool {
        self.data_type.is_plain()
            && self.chunk_grid.is_plain()
            && self.chunk_key_encoding.is_plain()
            && self.fill_value.is_plain()
            && self.codecs.is_plain()
            && self.attributes.is_plain()
            && self.storage_transformers.is_plain()
            && !self.additional_fields.has_float()
            && !self.additional_fields.has_own_name(OWN_NAMES)
    }

    #[tactic(auto, using(crate::proofs::ArrayV3Laws::array_v3_again_in))]
    fn reads_back(&self, numbers: Numbers) {}

    #[tactic(auto, using(crate::proofs::PlainArrays::read_array_v3_is_plain_in))]
    fn read_is_plain() {}

    #[tactic(auto, using(crate::proofs::ArrayV3Laws::array_v3_no_float))]
    fn plain_is_whole(&self) {}
}

/// The encoding `default` of the keys of chunks, with slashes.
fn default_encoding(alloc: Global) -> Result<MetadataV3, AllocError>
    ensures { IfOk result (λ encoding. encoding ≡ default_encoding) }
{
    let mut configuration = Map::new(alloc);
    let separator = ChunkKeySeparator::Slash;
    put_member(&mut configuration, alloc, "separator", Some(&separator))?;
    Ok(MetadataV3 {
        name: Text::from_str(alloc, "default")?,
        configuration: Some(Object::from_map(alloc, configuration)?),
        must_understand: true,
    })
}

/// An extension without a name.
fn blank_extension(alloc: Global) -> MetadataV3 {
    MetadataV3 {
        name: Text::new(String::new(alloc)),
        configuration: None,
        must_understand: true,
    }
}
