//! All that is wrong with a store at a path and below it.
ghost use Rattle.std.specs.Prelude.{◌≡◌, ◌++◌, ◌∷◌, [], false, IfOk, IfErr, option_map, codes};
ghost use Rattle.std.specs.FinMap.{get};
ghost use Rattle.serde_json.specs.Find.{get_member};
ghost use Rattle.serde_json.specs.View.{view};
ghost use Rattle.zarrs_store.specs.Faults.{IsStoreError};
ghost use Rattle.zarrs_form.specs.Documents.{Gives, of_bytes};
ghost use Rattle.zarrs_meaning.specs.Refusals.{IsExcused};
ghost use Rattle.zarrs_block.specs.Block.{block_of_in};
ghost use Rattle.zarrs_block.specs.Zmetadata.{zmetadata_in};
ghost use Rattle.zarrs_path.specs.Keys.{zmetadata};
ghost use Rattle.zarrs_check.specs.Checks.{AreBlockFindings, IsCheckOf, as_read, block_read};
ghost use Rattle.zarrs_meaning.specs.Exists.{HasNodeKey};
ghost use Rattle.zarrs_check.specs.StepsOfChecks.{IsKnownOf, as_known, block_with, block_with_own, compared_bytes, shown_pair};
ghost use Rattle.zarrs_check.specs.StepsOfTaking.{AreEnds};
ghost use Rattle.zarrs_check.specs.Surveys.{IsBase};

use crate::alike::alike_among;
use crate::bad_documents::BadDocuments;
use crate::base::{Base, base_of};
use crate::comparison::Comparison;
use crate::comparisons::Comparisons;
use crate::finding::Finding;
use crate::orphans::{hidden_below, orphans_of};
use crate::own::has_other_attributes;
use crate::survey::{MODULE, sort_faults};
use crate::visits::Visits;
use log::Log;
use serde_json::Value;
use std::alloc::Global;
use zarrs_block::ConsolidatedMetadata;
use zarrs_config::MetadataRetrieveVersion;
use zarrs_fault::{MetadataFault, Numbers};
use zarrs_form::{Object, parse};
use zarrs_meaning::NodeCreateError;
use zarrs_meta::{AdditionalFieldsV3, GroupMetadata, NodeMetadata};
use zarrs_node::{walk_past_faults, warn_ignored};
use zarrs_notes::NodeFinding;
use zarrs_path::{NodePath, meta_key_v2_consolidated};
use zarrs_store::{ListableStorageTraits, ReadableStorageTraits, StorageError, StorePrefix};

/// What there is to tell of a store at a path, the base, and below it: what is bad, and what is wrong with the blocks of its groups. It holds no metadata.
///
/// Source: own.
/// <https://zarr.readthedocs.io/en/stable/user-guide/consolidated_metadata/>
#[derive(Debug, Drop)]
pub struct Check {
    /// The path of the base.
    pub path: NodePath,
    /// Why the base is no node, where it is none: it has no document, or a bad one.
    pub base_fault: Option<NodeCreateError>,
    /// The number of nodes: the base, where it is one, and those below it.
    pub nodes: usize,
    /// The paths without documents that were passed over with all below them, in the order of paths.
    pub ignored: Vec<NodePath>,
    /// Those of the ignored paths below which documents of nodes stand, each with the number of paths below it that have one, in the order of paths.
    pub orphans: Vec<(NodePath, usize)>,
    /// The paths below the base whose documents are bad, each with its error. Below them nothing was looked at.
    pub bad_documents: BadDocuments,
    /// For each of the bad documents, in their order, the number of paths below it that have a document of a node. Nothing of them was looked at.
    pub hidden: Vec<usize>,
    /// The paths below the base whose last name is made of periods only, in the order of paths. Below them nothing was looked at.
    pub bad_names: Vec<StorePrefix>,
    /// What is wrong with the blocks of its groups, in the order of groups, paths, kinds and keys.
    pub findings: Vec<Finding>,
    /// What there is to tell of its nodes by their own documents, each with the path of the node, in the order of paths.
    pub told: Vec<(NodePath, NodeFinding)>,
    /// Each node whose name is that of another node of its group but for the case of the letters from A to Z, with the last such node before it, in the
    /// order of paths.
    pub alike: Vec<(NodePath, NodePath)>,
}

impl Check {
    /// Checks what a store has at a path and below it, by the documents of a version: looks at it as [`Survey::of_store`] does, and compares the
    /// block of each group with the nodes below it. A version 3 group has its block in the field `consolidated_metadata`, one of version 2 in the
    /// document `.zmetadata` beside its own; of that it also asks whether it has other attributes of the group itself. Each node is compared as it
    /// comes, and not kept; of a block its entries are held until their turn.
    ///
    /// # Errors
    ///
    /// `StorageError::Fault` of a store that can fail, and `OutOfMemory` when out of memory.
    ///
    /// Source: own.
    /// <https://zarr.readthedocs.io/en/stable/user-guide/consolidated_metadata/>
    pub fn of_store<L: Log, S: ReadableStorageTraits + ListableStorageTraits>(
        log: &L,
        alloc: Global,
        storage: &S,
        path: &NodePath,
        version: &MetadataRetrieveVersion,
    ) -> Result<Check, NodeCreateError>
        ensures surveyed { IfOk result
            (IsCheckOf (S.contents storage.now) version.now path.now) }
        ensures findings { IfOk result
            (λ c. AreBlockFindings (S.contents storage.now) version.now path.now
            c.findings.items) }
        ensures excused { IfErr result (IsExcused (S.can_fail storage.now)) }
    {
        let base = base_of(alloc, storage, path, version)?;
        Check::of_base(log, alloc, storage, path, version, base)
    }

    // The check of what a store has at a path and below it, where it is known what is at the path.
    pub(crate) fn of_base<L: Log, S: ReadableStorageTraits + ListableStorageTraits>(
        log: &L,
        alloc: Global,
        storage: &S,
        path: &NodePath,
        version: &MetadataRetrieveVersion,
        base: Base,
    ) -> Result<Check, NodeCreateError>
        requires base { IsBase (S.contents storage.now) version.now path.now base }
        ensures surveyed { IfOk result
            (IsCheckOf (S.contents storage.now) version.now path.now) }
        ensures findings { IfOk result
            (λ c. AreBlockFindings (S.contents storage.now) version.now path.now
            c.findings.items) }
        ensures excused { IfErr result (IsExcused (S.can_fail storage.now)) }
    {
        let _valid = path.as_str();
        let mut taken = Visits::new(alloc, storage);
        let base_fault = taken.take_base(path.try_clone(alloc)?, base)?;
        let walked = walk_past_faults(alloc, storage, path, version, &mut taken)?;
        let Visits {
            comparisons,
            told,
            paths,
        } = taken;
        let Comparisons {
            count,
            blocks,
            outcome,
            ..
        } = comparisons;
        outcome?;
        warn_ignored(log, MODULE, &walked.ignored);
        let (bad_documents, bad_names) = sort_faults(alloc, walked.faults)?;
        let orphans = orphans_of(alloc, storage, &walked.ignored)?;
        let hidden = hidden_below(alloc, storage, &bad_documents)?;
        let findings = finish(alloc, storage, blocks, &bad_documents)?;
        let alike = alike_among(alloc, &paths)?;
        Ok(Check {
            path: path.try_clone(alloc)?,
            base_fault,
            nodes: count,
            ignored: walked.ignored,
            orphans,
            bad_documents,
            hidden,
            bad_names,
            findings,
            told,
            alike,
        })
    }
}

// The findings of all blocks, once every node was compared.
fn finish<S: ReadableStorageTraits>(
    alloc: Global,
    storage: &S,
    blocks: Vec<Comparison>,
    bad: &BadDocuments,
) -> Result<Vec<Finding>, StorageError>
    ensures ok { IfOk result
        (λ found. AreEnds (HasNodeKey (S.contents storage.now)) blocks.items bad.now
        found.items) }
    ensures err { IfErr result (IsStoreError (S.can_fail storage.now)) }
{
    let mut found = Vec::new(alloc);
    for block in blocks {
        found.append(&mut block.finish(alloc, storage, bad)?)?;
    }
    Ok(found)
}

/// What is read as the block of a node at a path: of a version 3 group its field `consolidated_metadata`, of one of version 2 the document
/// `.zmetadata` beside its own; of others nothing, and where there is none. Where it does not read it is the first fault.
///
/// # Errors
///
/// `Fault` of a store that can fail, and `OutOfMemory` when out of memory.
///
/// Source: own; zarr-python, consolidated metadata.
/// <https://zarr.readthedocs.io/en/stable/user-guide/consolidated_metadata/>
pub fn read_block<S: ReadableStorageTraits>(
    alloc: Global,
    storage: &S,
    path: &NodePath,
    metadata: &NodeMetadata,
) -> Result<Option<Result<ConsolidatedMetadata, MetadataFault>>, StorageError>
    ensures ok { IfOk result
        (λ read. as_read read ≡ block_read (S.contents storage.now) path.now metadata.now) }
    ensures err { IfErr result (IsStoreError (S.can_fail storage.now)) }
{
    match metadata {
        NodeMetadata::Group(GroupMetadata::V3(group)) => {
            field_block(alloc, storage.numbers(), &group.additional_fields)
        }
        NodeMetadata::Group(GroupMetadata::V2(_)) => document_block(alloc, storage, path),
        NodeMetadata::Array(_) => Ok(None),
    }
}

// What [`read_block`] reads, of metadata that are taken over, and whether the document of the block has other attributes of its group.
pub(crate) fn take_block<S: ReadableStorageTraits>(
    alloc: Global,
    storage: &S,
    path: &NodePath,
    metadata: NodeMetadata,
) -> Result<Option<Result<(ConsolidatedMetadata, bool), MetadataFault>>, StorageError>
    ensures ok { IfOk result
        (λ read. as_known read ≡ block_with_own (S.contents storage.now) path.now metadata) }
    ensures err { IfErr result (IsStoreError (S.can_fail storage.now)) }
{
    match metadata {
        NodeMetadata::Group(GroupMetadata::V3(group)) => {
            taken_field_block(alloc, storage.numbers(), group.additional_fields)
        }
        NodeMetadata::Group(GroupMetadata::V2(group)) => {
            compared_document_block(alloc, storage, path, group.attributes)
        }
        NodeMetadata::Array(_array) => Ok(None),
    }
}

// What [`field_block`] reads, of fields that are taken over. They are no document, and have no attributes of the group beside its own.
fn taken_field_block(
    alloc: Global,
    numbers: Numbers,
    mut fields: AdditionalFieldsV3,
) -> Result<Option<Result<(ConsolidatedMetadata, bool), MetadataFault>>, StorageError>
    ensures ok { IfOk result
        (λ read. as_known read
        ≡ option_map (λ field. block_with false (block_of_in numbers field))
        (get_member (codes "consolidated_metadata") fields)) }
    ensures err { IfErr result (λ e. e ≡ StorageError.OutOfMemory) }
{
    let Some(field) = fields.remove("consolidated_metadata") else {
        return Ok(None);
    };
    known(block_of_field(alloc, numbers, field.into_value()))
}

// The block that a field is.
fn block_of_field(
    alloc: Global,
    numbers: Numbers,
    field: Value,
) -> Result<(ConsolidatedMetadata, bool), MetadataFault>
    ensures { Gives shown_pair result (block_with false (block_of_in numbers (view field))) }
{
    let block = ConsolidatedMetadata::from_owned_value_in(alloc, numbers, field)?;
    Ok((block, false))
}

// What [`document_block`] reads, and whether that document has other attributes of its group than these.
fn compared_document_block<S: ReadableStorageTraits>(
    alloc: Global,
    storage: &S,
    path: &NodePath,
    attributes: Object,
) -> Result<Option<Result<(ConsolidatedMetadata, bool), MetadataFault>>, StorageError>
    ensures ok { IfOk result
        (λ read. as_known read
        ≡ option_map (compared_bytes (S.contents storage.now).numbers attributes)
        (get (S.contents storage.now).values (path.now ++ zmetadata ∷ []))) }
    ensures err { IfErr result (IsStoreError (S.can_fail storage.now)) }
{
    let key = meta_key_v2_consolidated(alloc, path)?;
    let Some(bytes) = storage.get(alloc, &key)? else {
        return Ok(None);
    };
    known(compared_block_of_bytes(alloc, storage.numbers(), &bytes, attributes))
}

// The block that the bytes of a document `.zmetadata` are, and whether the document has other attributes of its group than these.
fn compared_block_of_bytes(
    alloc: Global,
    numbers: Numbers,
    bytes: &[u8],
    attributes: Object,
) -> Result<(ConsolidatedMetadata, bool), MetadataFault>
    ensures { Gives shown_pair result (compared_bytes numbers attributes bytes.now) }
{
    let document = parse(alloc, bytes)?;
    let other = has_other_attributes(alloc, numbers, &document, attributes)?;
    let block = ConsolidatedMetadata::from_owned_zmetadata_in(alloc, numbers, document)?;
    Ok((block, other))
}

// What is read as the block in the fields of a version 3 group.
fn field_block(
    alloc: Global,
    numbers: Numbers,
    fields: &AdditionalFieldsV3,
) -> Result<Option<Result<ConsolidatedMetadata, MetadataFault>>, StorageError>
    ensures ok { IfOk result
        (λ read. as_read read
        ≡ option_map (block_of_in numbers)
        (get_member (codes "consolidated_metadata") fields.now)) }
    ensures err { IfErr result (λ e. e ≡ StorageError.OutOfMemory) }
{
    let Some(field) = fields.get("consolidated_metadata") else {
        return Ok(None);
    };
    known(ConsolidatedMetadata::from_value_in(alloc, numbers, field.as_value()))
}

// What is read as the block in the document beside a version 2 group.
fn document_block<S: ReadableStorageTraits>(
    alloc: Global,
    storage: &S,
    path: &NodePath,
) -> Result<Option<Result<ConsolidatedMetadata, MetadataFault>>, StorageError>
    ensures ok { IfOk result
        (λ read. as_read read
        ≡ option_map (λ bytes. of_bytes (zmetadata_in (S.contents storage.now).numbers) bytes)
        (get (S.contents storage.now).values (path.now ++ zmetadata ∷ []))) }
    ensures err { IfErr result (IsStoreError (S.can_fail storage.now)) }
{
    let key = meta_key_v2_consolidated(alloc, path)?;
    let Some(bytes) = storage.get(alloc, &key)? else {
        return Ok(None);
    };
    known(ConsolidatedMetadata::from_zmetadata_bytes_in(alloc, storage.numbers(), &bytes))
}

// What was read, or its fault, but for out of memory.
fn known<T: Drop>(
    read: Result<T, MetadataFault>,
) -> Result<Option<Result<T, MetadataFault>>, StorageError>
    ensures ok { IfOk result (IsKnownOf read) }
    ensures err { IfErr result (λ e. e ≡ StorageError.OutOfMemory) }
{
    match read {
        Ok(block) => Ok(Some(Ok(block))),
        Err(MetadataFault::OutOfMemory) => Err(StorageError::OutOfMemory),
        Err(fault) => Ok(Some(Err(fault))),
    }
}
