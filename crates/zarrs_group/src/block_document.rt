//! The document that holds the block of a group.
ghost use Rattle.std.specs.Prelude.{◌≡◌, ◌<◌, ◌++◌, ◌∷◌, [], None, Some, IfOk, IfErr, IfSome};
ghost use Rattle.serde_json.specs.Data.{depth};
ghost use Rattle.serde_json.specs.Read.{max_depth};
ghost use Rattle.serde_json.specs.View.{view};
ghost use Rattle.zarrs_path.specs.Keys.{zmetadata};
ghost use Rattle.zarrs_form.specs.DocumentTexts.{IsTextOf};
ghost use Rattle.zarrs_block.specs.Policy.{as_block};
ghost use Rattle.zarrs_block.specs.Zmetadata.{RefusesZmetadata, zmetadata_tree};
ghost use Rattle.zarrs_group.specs.AsciiTexts.{IsAsciiTextOf};
ghost use Rattle.zarrs_group.specs.BlockDocuments.{IsBlockDocument, HasNoBlockDocument};
ghost use Rattle.zarrs_group.specs.BlocksBeside.{IsBeside};
ghost use Rattle.zarrs_group.specs.BlocksOfGroups.{Fits, RefusesBlock};
ghost use Rattle.zarrs_group.specs.FullBlocks.{with_full_block};

use crate::ascii::ascii_document_text;
use crate::group::Group;
use crate::group_value::value_with_block;
use crate::stored::written;
use serde_json::Value;
use std::alloc::{AllocError, Global};
use zarrs_block::ConsolidatedMetadata;
use zarrs_form::document_text;
use zarrs_meaning::NodeCreateError;
use zarrs_meta::{GroupMetadata, GroupMetadataV2, WrittenDocument};
use zarrs_path::{NodePath, meta_key_v2_consolidated, meta_key_v3};
use zarrs_store::StoreKey;

impl Group {
    /// The key and the bytes of the document that holds the block of the group, whatever numbers it has: of version 3 `zarr.json`, with the
    /// additional fields that the group has, a block among them or none; of version 2 `.zmetadata`, where a block stands beside the metadata.
    /// The bytes are read as the document again. Those of `.zmetadata` are ASCII, with any other character as an escape, since zarr-python 2 reads
    /// documents of version 2 as ASCII only. None where a version 2 group has no block, and where the document nests deeper than any
    /// that is read.
    ///
    /// Nothing is stored, and nothing refuses metadata that could not have come from a document. [`crate::laws::written_block_opens`] says of which
    /// groups the bytes, set at the key, are opened as the group with its block.
    ///
    /// # Errors
    ///
    /// `AllocError` where there is no memory for them.
    ///
    /// Source: own; Zarr core specification 3.1, "Group metadata"; zarr-python, consolidated metadata of version 2.
    pub fn block_document(&self, alloc: Global) -> Result<Option<(StoreKey, Vec<u8>)>, AllocError>
        ensures ok { IfOk result (λ found. IfSome found
            (λ made. IsBlockDocument self.now made.0 made.1.items)) }
        ensures none { IfOk result (λ found. found ≡ None → HasNoBlockDocument self.now) }
    {
        match (&self.metadata, &self.block) {
            (GroupMetadata::V3(group), _) => {
                let key = meta_key_v3(alloc, self.path())?;
                at_key(alloc, key, &group.to_value(alloc)?)
            }
            (GroupMetadata::V2(_), None) => Ok(None),
            (GroupMetadata::V2(group), Some(block)) => {
                let key = meta_key_v2_consolidated(alloc, self.path())?;
                ascii_at_key(alloc, key, &written(alloc, group, block)?)
            }
        }
    }

    /// What [`Group::block_document`] answers once this block was set, or the one there is removed. In a version 3 group the block is set in full: each
    /// extension of an array but its data type is an object, as `{"name": "bytes"}`, also where its name says it all. The specification allows the bare
    /// name since 3.1, and not every reader of blocks takes it; who takes it takes the object too. [`Group::set_consolidated_metadata`] sets a block with
    /// bare names, as documents are written. [`crate::laws::full_block_opens`] says of which groups the bytes are opened as the group with this block.
    ///
    /// The group and the block are given away for it. Neither a block nor the attributes of the group are copied. What is written of a block is made once.
    ///
    /// # Errors
    ///
    /// Those of [`Group::set_consolidated_metadata`]; `OutOfMemory`.
    ///
    /// Source: own; Zarr core specification 3.0 and 3.1, "Extension definition", and 3.1, "Group metadata"; zarr-python, consolidated metadata.
    /// <https://zarr-specs.readthedocs.io/en/latest/v3/core/index.html#extension-definition>
    pub fn into_block_document(
        self,
        alloc: Global,
        block: Option<ConsolidatedMetadata>,
    ) -> Result<Option<(StoreKey, Vec<u8>)>, NodeCreateError>
        ensures ok { IfOk result (λ found. IfSome found
            (λ made. IsBlockDocument (with_full_block self (as_block block)) made.0 made.1.items)) }
        ensures none { IfOk result
            (λ found. found ≡ None → HasNoBlockDocument (with_full_block self (as_block block))) }
        ensures fits { IfOk result (λ _. Fits self.metadata (as_block block)) }
        ensures err { IfErr result (RefusesBlock self.metadata (as_block block)) }
    {
        let Group { path, metadata, .. } = self;
        match (metadata, block) {
            (GroupMetadata::V3(group), block) => {
                let key = meta_key_v3(alloc, &path)?;
                let value = value_with_block(alloc, group, block)?;
                Ok(at_key(alloc, key, &value)?)
            }
            (GroupMetadata::V2(_), None) => Ok(None),
            (GroupMetadata::V2(group), Some(block)) => {
                document_beside(alloc, &path, group, block)
            }
        }
    }
}

// The key and the bytes of `.zmetadata` of a version 2 group with a block.
fn document_beside(
    alloc: Global,
    path: &NodePath,
    group: GroupMetadataV2,
    block: ConsolidatedMetadata,
) -> Result<Option<(StoreKey, Vec<u8>)>, NodeCreateError>
    ensures key { IfOk result (λ found. IfSome found
        (λ made. made.0 ≡ path.now ++ zmetadata ∷ [])) }
    ensures text { IfOk result (λ found. IfSome found
        (λ made. IsAsciiTextOf made.1.items (zmetadata_tree group block.metadata))) }
    ensures none { IfOk result (λ found. found ≡ None
        → max_depth < depth (zmetadata_tree group block.metadata)) }
    ensures beside { IfOk result (λ _. IsBeside (Some block.metadata)) }
    ensures err { IfErr result (RefusesZmetadata block.metadata) }
{
    let value = block.into_zmetadata(alloc, group)?;
    let key = meta_key_v2_consolidated(alloc, path)?;
    Ok(ascii_at_key(alloc, key, &value)?)
}

// The key and the bytes of the document, where it nests no deeper than those that are read.
fn at_key(
    alloc: Global,
    key: StoreKey,
    value: &Value,
) -> Result<Option<(StoreKey, Vec<u8>)>, AllocError>
    ensures key { IfOk result (λ found. IfSome found (λ made. made.0 ≡ key)) }
    ensures text { IfOk result (λ found. IfSome found
        (λ made. IsTextOf made.1.items (view value.now))) }
    ensures none { IfOk result (λ found. found ≡ None → max_depth < depth (view value.now)) }
{
    match document_text(alloc, value)? {
        Some(bytes) => Ok(Some((key, bytes))),
        None => Ok(None),
    }
}

// The same in ASCII.
fn ascii_at_key(
    alloc: Global,
    key: StoreKey,
    value: &Value,
) -> Result<Option<(StoreKey, Vec<u8>)>, AllocError>
    ensures key { IfOk result (λ found. IfSome found (λ made. made.0 ≡ key)) }
    ensures text { IfOk result (λ found. IfSome found
        (λ made. IsAsciiTextOf made.1.items (view value.now))) }
    ensures none { IfOk result (λ found. found ≡ None → max_depth < depth (view value.now)) }
{
    match ascii_document_text(alloc, value)? {
        Some(bytes) => Ok(Some((key, bytes))),
        None => Ok(None),
    }
}
