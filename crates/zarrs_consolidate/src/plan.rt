//! What becomes of the document that holds the block of a group.
ghost use Rattle.std.specs.Prelude.{◌≡◌, ◌++◌, ◌∷◌, [], None, IfOk, IfErr};
ghost use Rattle.zarrs_config.specs.declared.version.MetadataRetrieveVersion.TheVariants.{Default};
ghost use Rattle.zarrs_meta.specs.declared.node.GroupMetadata.{GroupMetadata};
ghost use Rattle.zarrs_meta.specs.declared.node.NodeMetadata.TheVariants.{Group as group_node};
ghost use Rattle.zarrs_meaning.specs.Meaning.{meaning, node};
ghost use Rattle.zarrs_block.specs.Policy.{as_block};
ghost use Rattle.zarrs_write.specs.ReplacingDocuments.{bytes_in};
ghost use Rattle.zarrs_consolidate.specs.Plans.{IsPlan, IsToStand, IsWithBlock, IsWithoutBlock, block_file};
ghost use Rattle.zarrs_consolidate.specs.Refusals.{RefusesPlan, block_set};
ghost use Rattle.zarrs_consolidate.specs.StepsOfPlans.{HasBlockDocument, RefusesGroup, RefusesDocument};

use crate::fault::ConsolidateError;
use log::Log;
use std::alloc::Global;
use zarrs_block::ConsolidatedMetadata;
use zarrs_config::{Config, MetadataRetrieveVersion};
use zarrs_group::Group;
use zarrs_meaning::NodeCreateError;
use zarrs_meta::{GroupMetadata, NodeMetadata};
use zarrs_node::{Node, consolidate_nodes_of};
use zarrs_path::{NodePath, meta_key_v2_consolidated, meta_key_v3};
use zarrs_store::{ListableStorageTraits, ReadableStorageTraits, StoreKey};

/// What is to become of the block of a group.
///
/// Source: own; `zarr.consolidate_metadata` of zarr-python.
/// <https://zarr.readthedocs.io/en/stable/user-guide/consolidated_metadata/>
#[derive(Clone, Copy, Debug, PartialEq, Eq)]
pub enum Task {
    /// It is to be what a listing finds.
    Write,
    /// It is to go.
    Remove,
}

/// What becomes of the document that holds the block of a group: what stands there, and what is to stand there.
///
/// Source: own.
/// <https://zarr-specs.readthedocs.io/en/latest/v3/core/index.html#group-metadata>
#[derive(Debug, Drop)]
pub struct Plan {
    /// The key of the document.
    pub key: StoreKey,
    /// Its last name, `zarr.json` or `.zmetadata`.
    pub name: &'static str,
    /// The number of nodes below the group.
    pub nodes: usize,
    /// What stands there, if something does.
    pub old: Option<Vec<u8>>,
    /// What is to stand there, if anything.
    pub new: Option<Vec<u8>>,
}

/// What becomes of the block of the group at a path of a store. The nodes below the group are listed in each case, so where one of them is bad nothing
/// becomes of it. To write: the document with the block of what is listed, in the numbers of the store. To remove: of version 3 the document without the
/// block, or the document as it stands where it has none; of version 2 no document.
///
/// # Errors
/// `Node` where the path has no node, or its document or something below it is bad, or of a store that can fail. `NotAGroup` where it is an array.
/// `Block` where a group of version 2 has a node of version 3 below it. `TooDeep` where the document would not be read. `OutOfMemory`.
///
/// Source: own; `zarr.consolidate_metadata` of zarr-python.
pub fn plan_block<L: Log, S: ReadableStorageTraits + ListableStorageTraits>(
    log: &L,
    alloc: Global,
    task: Task,
    storage: &S,
    base: &NodePath,
) -> Result<Plan, ConsolidateError>
    ensures ok { IfOk result (IsPlan (S.contents storage.now) task base.now) }
    ensures err { IfErr result
        (RefusesPlan (S.can_fail storage.now) (S.contents storage.now) task base.now) }
{
    let version = MetadataRetrieveVersion::Default;
    let metadata = group_of(alloc, storage, base)?;
    let listed = consolidate_nodes_of(log, alloc, storage, base, &version)?;
    let nodes = listed.len();
    let (key, name) = place_of(alloc, base, &metadata)?;
    let old = storage.get(alloc, &key)?;
    let block = ConsolidatedMetadata { metadata: listed };
    let new = to_stand(alloc, task, base, metadata, block, &old)?;
    Ok(Plan {
        key,
        name,
        nodes,
        old,
        new,
    })
}

// The metadata of the group at a path.
fn group_of<S: ReadableStorageTraits>(
    alloc: Global,
    storage: &S,
    base: &NodePath,
) -> Result<GroupMetadata, ConsolidateError>
    ensures ok { IfOk result (λ group.
        meaning (S.contents storage.now) Default base.now ≡ node (group_node group)) }
    ensures err { IfErr result
        (RefusesGroup (S.can_fail storage.now) (S.contents storage.now) base.now) }
{
    match Node::get_metadata(alloc, storage, base, &MetadataRetrieveVersion::Default)? {
        NodeMetadata::Group(group) => Ok(group),
        NodeMetadata::Array(_) => {
            let path = String::from_str(alloc, base.as_str())?;
            Err(ConsolidateError::NotAGroup(path))
        }
    }
}

// The key and the name of the document that holds the block of a group.
fn place_of(
    alloc: Global,
    base: &NodePath,
    group: &GroupMetadata,
) -> Result<(StoreKey, &'static str), ConsolidateError>
    ensures key { IfOk result (λ place. place.0 ≡ base.now ++ block_file group.now ∷ []) }
    ensures name { IfOk result (λ place. place.1.now ≡ block_file group.now) }
    ensures err { IfErr result (λ error. error ≡ ConsolidateError.OutOfMemory) }
{
    match group {
        GroupMetadata::V3(_) => Ok((meta_key_v3(alloc, base)?, "zarr.json")),
        GroupMetadata::V2(_) => Ok((meta_key_v2_consolidated(alloc, base)?, ".zmetadata")),
    }
}

// What is to stand at the document, where this block is listed.
fn to_stand(
    alloc: Global,
    task: Task,
    base: &NodePath,
    metadata: GroupMetadata,
    block: ConsolidatedMetadata,
    old: &Option<Vec<u8>>,
) -> Result<Option<Vec<u8>>, ConsolidateError>
    ensures ok { IfOk result (λ new.
        IsToStand task base.now metadata block.metadata (bytes_in old.now) (bytes_in new)) }
    ensures err { IfErr result
        (RefusesDocument base.now metadata (block_set task block.metadata)) }
{
    match task {
        Task::Write => Ok(Some(with_block(alloc, base, metadata, Some(block))?)),
        Task::Remove => without_block(alloc, base, metadata, old),
    }
}

// What the document holds with a block, or of version 3 without one.
fn with_block(
    alloc: Global,
    base: &NodePath,
    metadata: GroupMetadata,
    block: Option<ConsolidatedMetadata>,
) -> Result<Vec<u8>, ConsolidateError>
    requires { HasBlockDocument base.now metadata (as_block block) }
    ensures ok { IfOk result (λ bytes. IsWithBlock base.now metadata (as_block block) bytes.items) }
    ensures err { IfErr result (RefusesDocument base.now metadata (as_block block)) }
{
    let group = Group::at(base.try_clone(alloc)?, metadata, &Config::new());
    match group.into_block_document(alloc, block) {
        Ok(Some((_key, bytes))) => Ok(bytes),
        Ok(None) => Err(ConsolidateError::TooDeep),
        Err(NodeCreateError::OutOfMemory) => Err(ConsolidateError::OutOfMemory),
        Err(error) => Err(ConsolidateError::Block(error)),
    }
}

// What is to stand where the block is to go.
fn without_block(
    alloc: Global,
    base: &NodePath,
    metadata: GroupMetadata,
    old: &Option<Vec<u8>>,
) -> Result<Option<Vec<u8>>, ConsolidateError>
    ensures ok { IfOk result (λ new.
        IsWithoutBlock base.now metadata (bytes_in old.now) (bytes_in new)) }
    ensures err { IfErr result (RefusesDocument base.now metadata None) }
{
    let GroupMetadata::V3(group) = &metadata else {
        return Ok(None);
    };
    match (group.additional_fields.get("consolidated_metadata"), old) {
        (Some(_), _) => Ok(Some(with_block(alloc, base, metadata, None)?)),
        (None, Some(old)) => Ok(Some(old.clone()?)),
        (None, None) => Ok(None),
    }
}
