//! The consolidated block of a group: the metadata of the nodes below it.
ghost use Rattle.std.specs.Prelude.{◌≡◌, ◌≢◌, ℕ, List, false, Ok, None, [], length, IfOk, IsTrue, OnOk, OnErr, Result, string_bytes, codes, map, option_copied};
ghost use Rattle.std.specs.Result.{result_ok};
ghost use Rattle.serde_json.specs.Data.{object};
ghost use Rattle.serde_json.specs.Find.{as_object};
ghost use Rattle.serde_json.specs.View.{view, members_view};
ghost use Rattle.serde_json.specs.Written.{members_have_float};
ghost use Rattle.zarrs_form.specs.Documents.{Gives, document_in, document_of, form_or_fault, object_of, required_member, optional_member};
ghost use Rattle.zarrs_form.specs.Forms.{fits_in, is_nil};
ghost use Rattle.zarrs_meta.specs.Node.{node_in};
ghost use Rattle.zarrs_block.specs.Block.{IsAscending, node_at_key, put as put_node, inline, untrue, nodes_in, nodes, block_of, block_of_in, documents, block_tree};
ghost use Rattle.zarrs_block.specs.BlockExpansion.{is_covered};

use crate::asked::{asked, asked_owned};
use serde_json::{Map, Value, put};
use std::alloc::{AllocError, Global};
use std::marker::Model;
use zarrs_form::{document_copy, document_in, member, members_have_float, put_text, take_member};
use zarrs_meta::{Document, NodeMetadata, WrittenDocument};
use zarrs_store::{MemberName, MetadataFault, Numbers};

/// The consolidated block of a group.
///
/// Source: `zarrs_metadata_ext::v3::group::ConsolidatedMetadata`; the form is that of zarr-python.
/// <https://zarr.readthedocs.io/en/stable/user-guide/consolidated_metadata/>
#[derive(Debug, Drop)]
pub struct ConsolidatedMetadata {
    /// The metadata of the nodes.
    pub metadata: ConsolidatedMetadataMetadata,
}

/// The metadata of nodes at their keys, which are their paths relative to the group.
///
/// Contracts see the list of the keys with their metadata, in the order of the keys.
///
/// Source: `zarrs_metadata_ext::v3::group::ConsolidatedMetadataMetadata`.
/// <https://zarr.readthedocs.io/en/stable/user-guide/consolidated_metadata/>
#[derive(Debug, Drop)]
pub struct ConsolidatedMetadataMetadata {
    entries: Map<String, NodeMetadata>,
}

impl Model for ConsolidatedMetadataMetadata {
    ghost use Rattle.std.specs.Prelude.{List, ℕ, map, string_bytes};
    ghost use Rattle.std.specs.Coded.{codes, coded_list, coded×, coded_ℕ};
    ghost use Rattle.zarrs_meta.specs.declared.node.NodeMetadata.{NodeMetadata};
    ghost use Rattle.zarrs_meta.specs.contracts.node.NodeMetadata as e;

    ghost Value = { List (List ℕ × NodeMetadata) };

    ghost coded = { coded_list (coded× (coded_list coded_ℕ) (Prim.hlevel (codes, e.the_row.coded))) };

    ghost view = { λ a. map (λ e. (string_bytes e.0, e.1)) a.entries.entries };
}

impl ConsolidatedMetadataMetadata {
    /// The metadata of no nodes.
    ///
    /// Source: `Default` of `ConsolidatedMetadataMetadata`.
    pub fn new(alloc: Global) -> ConsolidatedMetadataMetadata
        ensures { result ≡ [] }
    {
        ConsolidatedMetadataMetadata {
            entries: Map::new(alloc),
        }
    }

    /// The number of nodes.
    pub fn len(&self) -> usize
        ensures { result ≡ length self.now }
    {
        self.entries.len()
    }

    /// Whether there are no nodes.
    pub fn is_empty(&self) -> bool
        ensures { result ≡ is_nil self.now }
    {
        self.entries.is_empty()
    }

    /// The metadata at a key, if there are any.
    pub fn get(&self, key: &str) -> Option<&NodeMetadata>
        ensures { option_copied result ≡ node_at_key self.now key.now }
    {
        self.entries.get(key)
    }

    /// Whether the key begins with a slash, and there are metadata at what stands behind it. Of two such keys the one without the slash counts.
    ///
    /// Source: own; `zarrs::node::expand_consolidated_metadata`.
    pub fn is_covered(&self, key: &str) -> bool
        ensures { result ≡ is_covered self.now key.now }
    {
        match key.strip_prefix('/') {
            Some(rest) => self.get(rest).is_some(),
            None => false,
        }
    }

    /// Puts metadata at a key, in the place of those that were there. After an error nothing is changed.
    ///
    /// # Errors
    ///
    /// `AllocError` where there is no memory for one more.
    #[tactic(auto, using(crate::proofs::BlockLaws::shown_inserted))]
    pub fn insert(&mut self, key: String, metadata: NodeMetadata) -> Result<(), AllocError>
        ensures ok { OnOk result (self.new ≡ put_node (string_bytes key) metadata self.old) }
        ensures unchanged { OnErr result (self.new ≡ self.old) }
    {
        drop(self.entries.insert(key, metadata)?);
        Ok(())
    }

    /// Takes out the metadata at a key, and answers them where there were any.
    pub fn remove(&mut self, key: &str) -> Option<NodeMetadata>
        ensures value { result ≡ node_at_key self.old key.now }
        ensures gone { node_at_key self.new key.now ≡ None }
        ensures others { (t : List ℕ) → t ≢ key.now
            → node_at_key self.new t ≡ node_at_key self.old t }
        ensures ascending { IsAscending self.new }
    {
        self.entries.remove(key)
    }

    /// The keys and metadata, as a map.
    pub fn as_map(&self) -> &Map<String, NodeMetadata>
        ensures { map (λ e. (string_bytes e.0, e.1)) result.now.entries ≡ self.now }
    {
        &self.entries
    }

    /// The map that has the keys and metadata.
    pub fn into_map(self) -> Map<String, NodeMetadata>
        ensures { map (λ e. (string_bytes e.0, e.1)) result.entries ≡ self }
    {
        let ConsolidatedMetadataMetadata { entries } = self;
        entries
    }

    /// A copy that equals its source.
    ///
    /// # Errors
    ///
    /// `AllocError` where there is no memory for the copy.
    pub fn try_clone(&self, alloc: Global) -> Result<ConsolidatedMetadataMetadata, AllocError>
        ensures { IfOk result (λ copy. copy ≡ self.now) }
    {
        let mut copy = ConsolidatedMetadataMetadata::new(alloc);
        for (key, metadata) in self.as_map().iter() {
            let key = key.clone()?;
            copy.insert(key, metadata.try_clone(alloc)?)?;
        }
        Ok(copy)
    }

    // The written form of each node, at its key.
    fn to_members(&self, alloc: Global) -> Result<Map<String, Value>, AllocError>
        ensures { IfOk result (λ members. members_view members.entries ≡ documents self.now) }
    {
        let mut members = Map::new(alloc);
        for (key, metadata) in self.as_map().iter() {
            drop(members.insert(key.clone()?, metadata.to_value(alloc)?)?);
        }
        Ok(members)
    }
}

impl ConsolidatedMetadata {
    /// The block that a JSON value is.
    ///
    /// # Errors
    ///
    /// The first that applies: `UnsupportedNumber` where some number is neither `u64` nor `i64`, `NotAnObject`, `MissingMember` or
    /// `BadMember` of `kind`, which has to be the text `inline`, `BadMember` of `must_understand` where it is there and not false,
    /// `MissingMember` or `BadMember` of `metadata`, which has to be an object of whole node documents. `OutOfMemory` where there is
    /// no memory.
    ///
    /// Source: zarr-python, consolidated metadata of kind `inline`.
    pub fn from_value(alloc: Global, value: &Value) -> Result<ConsolidatedMetadata, MetadataFault>
        ensures { Gives (λ block. block.metadata) result (block_of (view value.now)) }
    {
        ConsolidatedMetadata::from_value_in(alloc, Numbers::Whole, value)
    }

    /// The block that a JSON value is, where it may hold these numbers.
    ///
    /// # Errors
    ///
    /// As [`ConsolidatedMetadata::from_value`], except that `UnsupportedNumber` comes only where the numbers are `Whole`.
    ///
    /// Source: own; zarr-python, consolidated metadata of kind `inline`.
    #[tactic(auto, unfolding(crate::specs::Block::block_of_in))]
    pub fn from_value_in(
        alloc: Global,
        numbers: Numbers,
        value: &Value,
    ) -> Result<ConsolidatedMetadata, MetadataFault>
        ensures { Gives (λ block. block.metadata) result (block_of_in numbers (view value.now)) }
    {
        let members = members_of(numbers, value)?;
        ask_kind(members)?;
        ask_not_understood(members)?;
        let metadata = metadata_of(alloc, numbers, members)?;
        Ok(ConsolidatedMetadata { metadata })
    }

    /// The block that a JSON value is, whose parts it takes over.
    ///
    /// # Errors
    ///
    /// As [`ConsolidatedMetadata::from_value`].
    ///
    /// Source: zarr-python, consolidated metadata of kind `inline`.
    pub fn from_owned_value(
        alloc: Global,
        value: Value,
    ) -> Result<ConsolidatedMetadata, MetadataFault>
        ensures { Gives (λ block. block.metadata) result (block_of (view value)) }
    {
        ConsolidatedMetadata::from_owned_value_in(alloc, Numbers::Whole, value)
    }

    /// The block that a JSON value is, where it may hold these numbers; its parts are taken over.
    ///
    /// # Errors
    ///
    /// As [`ConsolidatedMetadata::from_value_in`].
    ///
    /// Source: own; zarr-python, consolidated metadata of kind `inline`.
    #[tactic(auto, unfolding(crate::specs::Block::block_of_in))]
    pub fn from_owned_value_in(
        alloc: Global,
        numbers: Numbers,
        value: Value,
    ) -> Result<ConsolidatedMetadata, MetadataFault>
        ensures { Gives (λ block. block.metadata) result (block_of_in numbers (view value)) }
    {
        let members = document_in(numbers, value)?;
        ask_kind(&members)?;
        ask_not_understood(&members)?;
        let metadata = owned_metadata_of(alloc, numbers, members)?;
        Ok(ConsolidatedMetadata { metadata })
    }

    /// The written form of the block: `kind`, `metadata`, and `must_understand` false.
    ///
    /// # Errors
    ///
    /// `AllocError` where there is no memory for it.
    ///
    /// Source: zarr-python, consolidated metadata of kind `inline`.
    pub fn to_value(&self, alloc: Global) -> Result<Value, AllocError>
        ensures { IfOk result (λ v. view v ≡ block_tree self.now.metadata) }
    {
        let documents = self.metadata.to_members(alloc)?;
        let mut all = Map::new(alloc);
        put_text(&mut all, alloc, "kind", "inline")?;
        put(&mut all, alloc, "metadata", Value::Object(documents))?;
        put(&mut all, alloc, "must_understand", Value::Bool(false))?;
        Ok(Value::Object(all))
    }

    /// A copy that equals its source.
    ///
    /// # Errors
    ///
    /// `AllocError` where there is no memory for the copy.
    ///
    /// Source: `Clone` of `ConsolidatedMetadata`.
    pub fn try_clone(&self, alloc: Global) -> Result<ConsolidatedMetadata, AllocError>
        ensures { IfOk result (λ copy. copy ≡ self.now) }
    {
        Ok(ConsolidatedMetadata {
            metadata: self.metadata.try_clone(alloc)?,
        })
    }
}

// The members of the document that a JSON value is, which may hold these numbers; they are not copied.
fn members_of(numbers: Numbers, value: &Value) -> Result<&Map<String, Value>, MetadataFault>
    ensures gives { Gives (λ m. members_view m.now.entries) result
        (document_in numbers (view value.now)) }
    ensures whole { IfOk result (λ m. view value.now ≡ object (members_view m.now.entries)) }
    ensures fits { IfOk result
        (λ m. IsTrue (fits_in numbers (object (members_view m.now.entries)))) }
{
    match numbers {
        Numbers::Whole => whole_members_of(value),
        Numbers::Any => any_members_of(value),
    }
}

// The members of the object that a JSON value is.
fn any_members_of(value: &Value) -> Result<&Map<String, Value>, MetadataFault>
    ensures gives { Gives (λ m. members_view m.now.entries) result (object_of (view value.now)) }
    ensures whole { IfOk result (λ m. view value.now ≡ object (members_view m.now.entries)) }
{
    match value {
        Value::Object(members) => Ok(members),
        _ => Err(MetadataFault::NotAnObject),
    }
}

// The members of the document that a JSON value is, whose numbers are whole, refused as `document_copy` refuses it, and not copied.
fn whole_members_of(value: &Value) -> Result<&Map<String, Value>, MetadataFault>
    ensures gives { Gives (λ m. members_view m.now.entries) result (document_of (view value.now)) }
    ensures whole { IfOk result (λ m. view value.now ≡ object (members_view m.now.entries)) }
    ensures fits { IfOk result (λ m. members_have_float (members_view m.now.entries) ≡ false) }
{
    if let Value::Object(members) = value {
        if !members_have_float(members) {
            return Ok(members);
        }
    }
    match document_copy(value) {
        Err(fault) => Err(fault),
        Ok(members) => {
            drop(members);
            Err(MetadataFault::NotAnObject)
        }
    }
}

// Asks whether the member `kind` is the text `inline`.
fn ask_kind(members: &Map<String, Value>) -> Result<(), MetadataFault>
    ensures { result
        ≡ required_member (codes "kind") inline (object (members_view members.now.entries)) }
{
    let Some(kind) = member(members, "kind") else {
        return Err(MetadataFault::MissingMember(MemberName::new("kind")));
    };
    match kind.as_str() {
        Some(text) if text == "inline" => Ok(()),
        _ => Err(MetadataFault::BadMember(MemberName::new("kind"))),
    }
}

// Asks whether the member `must_understand` is false, or not there.
fn ask_not_understood(members: &Map<String, Value>) -> Result<(), MetadataFault>
    ensures { result
        ≡ optional_member (codes "must_understand") tt untrue
        (object (members_view members.now.entries)) }
{
    match member(members, "must_understand") {
        None | Some(Value::Bool(false)) => Ok(()),
        Some(_) => Err(MetadataFault::BadMember(MemberName::new("must_understand"))),
    }
}

// The nodes of the member `metadata`, which may hold these numbers.
fn metadata_of(
    alloc: Global,
    numbers: Numbers,
    members: &Map<String, Value>,
) -> Result<ConsolidatedMetadataMetadata, MetadataFault>
    requires { IsTrue (fits_in numbers (object (members_view members.now.entries))) }
    ensures { Gives (λ all. all) result
        (required_member (codes "metadata") (nodes numbers)
        (object (members_view members.now.entries))) }
{
    let Some(value) = member(members, "metadata") else {
        return Err(MetadataFault::MissingMember(MemberName::new("metadata")));
    };
    match value.as_object() {
        Some(documents) => nodes_of(alloc, numbers, documents),
        None => Err(MetadataFault::BadMember(MemberName::new("metadata"))),
    }
}

// The nodes that whole node documents are, at the same keys.
fn nodes_of(
    alloc: Global,
    numbers: Numbers,
    documents: &Map<String, Value>,
) -> Result<ConsolidatedMetadataMetadata, MetadataFault>
    requires { IsTrue (fits_in numbers (object (members_view documents.now.entries))) }
    ensures { Gives (λ all. all) result
        (form_or_fault (codes "metadata") (nodes_in numbers (members_view documents.now.entries))) }
{
    let mut all = ConsolidatedMetadataMetadata::new(alloc);
    for (key, document) in documents.iter() {
        let key = key.clone()?;
        all.insert(key, node_of(alloc, numbers, document)?)?;
    }
    Ok(all)
}

// The nodes of the member `metadata`, of members that are given away.
fn owned_metadata_of(
    alloc: Global,
    numbers: Numbers,
    mut members: Map<String, Value>,
) -> Result<ConsolidatedMetadataMetadata, MetadataFault>
    requires { document_in numbers (object (members_view members.entries))
        ≡ Ok (members_view members.entries) }
    ensures { Gives (λ all. all) result
        (required_member (codes "metadata") (nodes numbers)
        (object (members_view members.entries))) }
{
    let documents = take_documents(&mut members)?;
    owned_nodes_of(alloc, numbers, documents)
}

// Takes the member `metadata`, which has to be an object, out of the members.
pub(crate) fn take_documents(
    members: &mut Map<String, Value>,
) -> Result<Map<String, Value>, MetadataFault>
    ensures { Gives (λ documents. members_view documents.entries) result
        (required_member (codes "metadata") as_object (object (members_view members.old.entries))) }
{
    let Some(value) = take_member(members, "metadata") else {
        return Err(MetadataFault::MissingMember(MemberName::new("metadata")));
    };
    match value {
        Value::Object(documents) => Ok(documents),
        _ => Err(MetadataFault::BadMember(MemberName::new("metadata"))),
    }
}

// The nodes that whole node documents are, at the same keys, both taken over.
fn owned_nodes_of(
    alloc: Global,
    numbers: Numbers,
    documents: Map<String, Value>,
) -> Result<ConsolidatedMetadataMetadata, MetadataFault>
    requires { IsTrue (fits_in numbers (object (members_view documents.entries))) }
    ensures { Gives (λ all. all) result
        (form_or_fault (codes "metadata") (nodes_in numbers (members_view documents.entries))) }
{
    let mut all = ConsolidatedMetadataMetadata::new(alloc);
    for (key, document) in documents {
        all.insert(key, owned_node_of(alloc, numbers, document)?)?;
    }
    Ok(all)
}

// The node that a whole node document is.
fn node_of(alloc: Global, numbers: Numbers, document: &Value) -> Result<NodeMetadata, MetadataFault>
    requires { IsTrue (fits_in numbers (view document.now)) }
    ensures { Gives (λ m. m) result
        (form_or_fault (codes "metadata") (result_ok (node_in numbers (view document.now)))) }
{
    as_entry(asked(alloc, numbers, document))
}

// The node that a whole node document is, which it takes over.
fn owned_node_of(
    alloc: Global,
    numbers: Numbers,
    document: Value,
) -> Result<NodeMetadata, MetadataFault>
    requires { IsTrue (fits_in numbers (view document)) }
    ensures { Gives (λ m. m) result
        (form_or_fault (codes "metadata") (result_ok (node_in numbers (view document)))) }
{
    as_entry(asked_owned(alloc, numbers, document))
}

// The node that an entry was read as, or the fault of the member `metadata` in the place of the entry's own.
fn as_entry(read: Result<NodeMetadata, MetadataFault>) -> Result<NodeMetadata, MetadataFault>
    ensures { (entry : Result NodeMetadata MetadataFault)
        → Gives (λ m. m) read entry
        → Gives (λ m. m) result (form_or_fault (codes "metadata") (result_ok entry)) }
{
    match read {
        Ok(node) => Ok(node),
        Err(MetadataFault::OutOfMemory) => Err(MetadataFault::OutOfMemory),
        Err(_) => Err(MetadataFault::BadMember(MemberName::new("metadata"))),
    }
}
