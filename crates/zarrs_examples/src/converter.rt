//! A converter: a hierarchy of version 2 becomes one of version 3 in the same store, beside its old documents; and these are erased
//! once nothing needs them.
ghost use Rattle.std.specs.Prelude.{◌≡◌, ◌≢◌, ◌↔◌, ℕ, true, [], ◌∷◌, ◌++◌, Ok, None, Some, Contains, List, IfOk, IfErr, OnOk, MatchResult};
ghost use Rattle.std.specs.FinMap.{get};
ghost use Rattle.std.specs.Global.{Vec as Bytes};
ghost use Rattle.zarrs_store.specs.Faults.{IsStoreError};
ghost use Rattle.zarrs_store.specs.Segments.{Segments};
ghost use Rattle.zarrs_path.specs.Paths.{Path};
ghost use Rattle.zarrs_meta.specs.NodeDocuments.{ReadsAs};
ghost use Rattle.zarrs_meta.specs.declared.node.ArrayMetadata.TheVariants as array_metadata;
ghost use Rattle.zarrs_meta.specs.declared.node.NodeMetadata.{NodeMetadata};
ghost use Rattle.zarrs_meta.specs.declared.node.NodeMetadata.TheVariants as node_metadata;
ghost use Rattle.zarrs_meaning.specs.Meaning.{meaning, node};
ghost use Rattle.zarrs_meaning.specs.Refusals.{IsExcusedOr};
ghost use Rattle.zarrs_convert.specs.Arrays.{array_v3};
ghost use Rattle.zarrs_node.specs.Nodes.{NodesFrom};
ghost use Rattle.zarrs_examples.specs.MapsOfNodes.{AreDocumentsOf, HasNoVersion3From, StandsBeside, ShowsMapped, keys_beside, version_2_files, version_2_keys, with_documents, without_keys};
ghost use Rattle.zarrs_node.specs.Nodes.{HasNothingBad};
ghost use Rattle.zarrs_node.specs.Order.{Ascend};
ghost use Rattle.zarrs_examples.specs.Conversions.{KeepsOthers, RefusesConverting, RefusesErasing, RefusesFrom, RefusesNodes, node_v3};
ghost use Rattle.zarrs_examples.specs.StepsOfConversions.{HasDocument, IsConverted, RefusesDocumentAt, RefusesMetadataAt};

use crate::laws;
use log::Log;
use std::alloc::{AllocError, AllocFailed, Global};
use thiserror::Error;
use zarrs_config::MetadataRetrieveVersion;
use zarrs_convert::{ArrayMetadataV2ToV3Error, array_metadata_v2_to_v3, group_metadata_v2_to_v3};
use zarrs_meaning::NodeCreateError;
use zarrs_meta::{
    ArrayMetadata, ArrayMetadataV2, ArrayMetadataV3, BoxedArray, GroupMetadata, NodeMetadata,
    WrittenDocument,
};
use zarrs_node::{Node, get_all_nodes_of};
use zarrs_path::{
    NodePath, meta_key_v2_array, meta_key_v2_attributes, meta_key_v2_consolidated,
    meta_key_v2_group, meta_key_v3,
};
use zarrs_store::{
    ListableStorageTraits, ReadableStorageTraits, StorageError, StoreKey, WritableStorageTraits,
};

/// Why a hierarchy was not converted.
///
/// <https://zarr-specs.readthedocs.io/en/latest/v3/core/index.html#metadata>
#[derive(Debug, Drop, Error)]
pub enum ConvertError {
    /// The path means no node, or a listing comes upon something bad.
    #[error("{0}")]
    Node(NodeCreateError),
    /// The first array, by its path, that has no form of version 3, and why.
    #[error("{0} has no form of version 3: {1}")]
    Array(NodePath, ArrayMetadataV2ToV3Error),
    /// A node, by its path, whose document of version 3 would not be read again, since it nests too deep.
    #[error("{0} nests too deep for a document of version 3")]
    Depth(NodePath),
    /// A node, by its path, that has a number with a fraction, and documents are written in whole numbers.
    #[error("{0} has an unsupported number, one with a fraction")]
    Fraction(NodePath),
    /// The store refused.
    #[error("{0}")]
    Storage(StorageError),
    /// Out of memory.
    #[error("out of memory")]
    OutOfMemory,
}

impl From<NodeCreateError> for ConvertError {
    ghost use Rattle.zarrs_examples.specs.declared.converter.ConvertError.TheVariants.{Node};

    ghost from_gives = { λ error made. made ≡ Node error };

    fn from(error: NodeCreateError) -> ConvertError {
        ConvertError::Node(error)
    }
}

impl From<StorageError> for ConvertError {
    ghost use Rattle.zarrs_examples.specs.declared.converter.ConvertError.TheVariants.{Storage};

    ghost from_gives = { λ error made. made ≡ Storage error };

    fn from(error: StorageError) -> ConvertError {
        ConvertError::Storage(error)
    }
}

impl From<AllocError> for ConvertError {
    ghost use Rattle.zarrs_examples.specs.declared.converter.ConvertError.TheVariants.{OutOfMemory};

    ghost from_gives = { λ _ made. made ≡ OutOfMemory };

    fn from(_error: AllocError) -> ConvertError {
        ConvertError::OutOfMemory
    }
}

impl<T: Drop> From<AllocFailed<T>> for ConvertError {
    ghost use Rattle.zarrs_examples.specs.declared.converter.ConvertError.TheVariants.{OutOfMemory};

    ghost from_gives = { λ _ made. made ≡ OutOfMemory };

    fn from(_error: AllocFailed<T>) -> ConvertError {
        ConvertError::OutOfMemory
    }
}

/// Makes of each node of version 2 at a path and below it one of version 3: its document `zarr.json` is set beside its own. Nodes of version 3
/// stay as they are, so that a converting which the store cut short is done again.
///
/// All documents are made before the first is set.
///
/// # Errors
///
/// Before anything is set:
///
/// - `Node` where the path means no node, or where `get_all_nodes_of` refuses.
/// - `Array` with the first array, in the order of paths, that has no form of version 3, and why; or that memory ran out over it.
/// - `Depth` with a node whose document would nest too deep.
/// - `Fraction` with a node that has a number with a fraction, as one of a store of any numbers may.
/// - `OutOfMemory` when out of memory.
///
/// And `Storage` where the store refused a document; those before it are set.
///
/// Source: own; Zarr core specification 3.1, "Metadata".
pub fn convert_hierarchy<
    L: Log,
    S: ReadableStorageTraits + ListableStorageTraits + WritableStorageTraits,
>(log: &L, alloc: Global, storage: &mut S, base: &NodePath) -> Result<(), ConvertError>
    ensures node { OnOk result
        ((m : NodeMetadata) × meaning (S.contents storage.old) MetadataRetrieveVersion.Default
        base.now ≡ node m) }
    ensures documents { OnOk result
        ((ds : List (Segments × Bytes ℕ))
        × AreDocumentsOf node_v3
        (NodesFrom (S.contents storage.old) MetadataRetrieveVersion.Default base.now) ds
        × (S.contents storage.new ≡ with_documents (S.contents storage.old) ds)) }
    ensures version_3 { OnOk result
        (ShowsMapped node_v3 base.now (S.contents storage.old) MetadataRetrieveVersion.Default
        (S.contents storage.new) MetadataRetrieveVersion.V3) }
    ensures default { OnOk result
        (ShowsMapped node_v3 base.now (S.contents storage.old) MetadataRetrieveVersion.Default
        (S.contents storage.new) MetadataRetrieveVersion.Default) }
    ensures version_2 { OnOk result
        (HasNoVersion3From (S.contents storage.old) base.now
        → ShowsMapped node_v3 base.now (S.contents storage.old) MetadataRetrieveVersion.V2
        (S.contents storage.new) MetadataRetrieveVersion.V3) }
    ensures others { KeepsOthers base.now (S.contents storage.old) (S.contents storage.new) }
    ensures refused { IfErr result
        (RefusesConverting (S.can_fail storage.old) base.now (S.contents storage.old)
        (S.contents storage.new)) }
    ensures nature { S.can_fail storage.new ≡ S.can_fail storage.old }
{
    laws::documents_are_shown();
    laws::default_is_version_2();
    let nodes = nodes_from(log, alloc, storage, base, &MetadataRetrieveVersion::Default)?;
    let documents = documents_of(log, alloc, &nodes)?;
    Ok(set_all(storage, &documents)?)
}

/// Erases the documents of version 2 beside those of version 3, at a path and below it: `.zarray`, `.zgroup`, `.zattrs` and `.zmetadata`
/// of each node that a listing of version 3 finds.
///
/// # Errors
///
/// - `Node` where the path means no node of version 3, or where `get_all_nodes_of` refuses.
/// - `OutOfMemory` when out of memory.
/// - `Storage` where the store refused; some of the documents are erased.
///
/// Source: own; Zarr core specification 3.1, "Metadata".
pub fn erase_version_2<
    L: Log,
    S: ReadableStorageTraits + ListableStorageTraits + WritableStorageTraits,
>(log: &L, alloc: Global, storage: &mut S, base: &NodePath) -> Result<(), ConvertError>
    ensures erased { OnOk result
        ((e : Path × NodeMetadata) (file : List ℕ)
        → NodesFrom (S.contents storage.old) MetadataRetrieveVersion.V3 base.now e
        → Contains version_2_files file
        → get (S.contents storage.new).values (e.0 ++ file ∷ []) ≡ None) }
    ensures shows { OnOk result
        (HasNothingBad (S.contents storage.old) MetadataRetrieveVersion.Default true base.now
        → ShowsMapped Some base.now (S.contents storage.old) MetadataRetrieveVersion.Default
        (S.contents storage.new) MetadataRetrieveVersion.Default) }
    ensures means { (p : Path)
        → meaning (S.contents storage.new) MetadataRetrieveVersion.Default p
        ≡ meaning (S.contents storage.old) MetadataRetrieveVersion.Default p }
    ensures others { (key : Segments) → (StandsBeside (S.contents storage.old) key → ⊥)
        → get (S.contents storage.new).values key ≡ get (S.contents storage.old).values key }
    ensures numbers { (S.contents storage.new).numbers ≡ (S.contents storage.old).numbers }
    ensures refused { IfErr result
        (RefusesErasing (S.can_fail storage.old) MetadataRetrieveVersion.V3 base.now
        (S.contents storage.old) (S.contents storage.new)) }
    ensures nature { S.can_fail storage.new ≡ S.can_fail storage.old }
{
    laws::keys_stand_beside();
    laws::erased_are_absent();
    laws::erased_show_same();
    laws::beside_means_same();
    let nodes = nodes_from(log, alloc, storage, base, &MetadataRetrieveVersion::V3)?;
    let keys = version_2_keys(alloc, &nodes)?;
    Ok(erase_all(storage, &keys)?)
}

// The node at a path and those below it, in the order of paths.
fn nodes_from<L: Log, S: ReadableStorageTraits + ListableStorageTraits>(
    log: &L,
    alloc: Global,
    storage: &S,
    base: &NodePath,
    version: &MetadataRetrieveVersion,
) -> Result<Vec<(NodePath, NodeMetadata)>, NodeCreateError>
    ensures node { OnOk result
        ((m : NodeMetadata) × meaning (S.contents storage.now) version.now base.now ≡ node m) }
    ensures nodes { IfOk result
        (λ all. (e : Path × NodeMetadata) → Contains all.items e
        ↔ NodesFrom (S.contents storage.now) version.now base.now e) }
    ensures ascending { IfOk result (λ all. Ascend all.items) }
    ensures clean { OnOk result
        (HasNothingBad (S.contents storage.now) version.now true base.now) }
    ensures refused { IfErr result
        (IsExcusedOr (S.can_fail storage.now)
        (RefusesFrom (S.contents storage.now) version.now base.now)) }
{
    laws::base_in_front();
    let metadata = Node::get_metadata(alloc, storage, base, version)?;
    let mut nodes = get_all_nodes_of(log, alloc, storage, base, version)?;
    nodes.insert(0, (base.try_clone(alloc)?, metadata))?;
    Ok(nodes)
}

// The documents of version 3 of the nodes that are of version 2, each with its key.
fn documents_of<L: Log>(
    log: &L,
    alloc: Global,
    nodes: &[(NodePath, NodeMetadata)],
) -> Result<Vec<(StoreKey, Vec<u8>)>, ConvertError>
    requires ascending { Ascend nodes.now }
    ensures documents { IfOk result (λ ds. AreDocumentsOf node_v3 (Contains nodes.now) ds.items) }
    ensures refused { IfErr result (RefusesNodes (Contains nodes.now)) }
{
    laws::earlier_stands_before();
    let mut documents = Vec::new(alloc);
    for (path, metadata) in nodes {
        if let Some(document) = document_of(log, alloc, path, metadata)? {
            documents.push(document)?;
        }
    }
    Ok(documents)
}

// The document of version 3 of a node of version 2, with its key, or none where the node is of version 3.
fn document_of<L: Log>(
    log: &L,
    alloc: Global,
    path: &NodePath,
    metadata: &NodeMetadata,
) -> Result<Option<(StoreKey, Vec<u8>)>, ConvertError>
    ensures ok { IfOk result (HasDocument (path.now, metadata.now)) }
    ensures refused { IfErr result (RefusesMetadataAt path.now metadata.now) }
{
    let Some(converted) = converted(log, alloc, path, metadata)? else {
        return Ok(None);
    };
    let bytes = written(alloc, path, &converted)?;
    Ok(Some((meta_key_v3(alloc, path)?, bytes)))
}

// The metadata of a node of version 2 as version 3, or none where they are of version 3.
fn converted<L: Log>(
    log: &L,
    alloc: Global,
    path: &NodePath,
    metadata: &NodeMetadata,
) -> Result<Option<NodeMetadata>, ConvertError>
    ensures ok { IfOk result (IsConverted metadata.now) }
    ensures refused { IfErr result (RefusesMetadataAt path.now metadata.now) }
{
    match metadata {
        NodeMetadata::Group(GroupMetadata::V2(group)) => {
            let group = group_metadata_v2_to_v3(alloc, group)?;
            Ok(Some(NodeMetadata::Group(GroupMetadata::V3(group))))
        }
        NodeMetadata::Group(GroupMetadata::V3(_)) => Ok(None),
        NodeMetadata::Array(array) => match array.as_ref() {
            ArrayMetadata::V2(array) => {
                let array = converted_array(log, alloc, path, array)?;
                let array = BoxedArray::new(alloc, ArrayMetadata::V3(array))?;
                Ok(Some(NodeMetadata::Array(array)))
            }
            ArrayMetadata::V3(_) => Ok(None),
        },
    }
}

// The metadata of an array as version 3; its path is named where it has none.
fn converted_array<L: Log>(
    log: &L,
    alloc: Global,
    path: &NodePath,
    array: &ArrayMetadataV2,
) -> Result<ArrayMetadataV3, ConvertError>
    ensures ok { IfOk result (λ converted. array_v3 array.now ≡ Ok converted) }
    ensures refused { IfErr result
        (RefusesMetadataAt path.now (node_metadata.Array (array_metadata.V2 array.now))) }
{
    match array_metadata_v2_to_v3(log, alloc, array) {
        Ok(array) => Ok(array),
        Err(error) => Err(ConvertError::Array(path.try_clone(alloc)?, error)),
    }
}

// The bytes of the document of a node; its path is named where there is none.
#[tactic(auto, using(crate::proofs::ConvertedNodes::too_deep))]
fn written(alloc: Global, path: &NodePath, metadata: &NodeMetadata) -> Result<Vec<u8>, ConvertError>
    ensures ok { IfOk result (λ bytes. ReadsAs bytes.items metadata.now) }
    ensures refused { IfErr result (RefusesDocumentAt path.now metadata.now) }
{
    if !metadata.is_plain() {
        return Err(ConvertError::Fraction(path.try_clone(alloc)?));
    }
    match metadata.to_document(alloc)? {
        Some(bytes) => Ok(bytes),
        None => Err(ConvertError::Depth(path.try_clone(alloc)?)),
    }
}

// Sets each document in turn.
fn set_all<S: WritableStorageTraits>(
    storage: &mut S,
    documents: &[(StoreKey, Vec<u8>)],
) -> Result<(), StorageError>
    ensures set { OnOk result
        (S.contents storage.new ≡ with_documents (S.contents storage.old) documents.now) }
    ensures err { IfErr result (IsStoreError (S.can_fail storage.old)) }
    ensures others { (key : Segments)
        → ((d : Segments × Bytes ℕ) → Contains documents.now d → d.0 ≢ key)
        → get (S.contents storage.new).values key ≡ get (S.contents storage.old).values key }
    ensures numbers { (S.contents storage.new).numbers ≡ (S.contents storage.old).numbers }
    ensures nature { S.can_fail storage.new ≡ S.can_fail storage.old }
{
    laws::others_are_kept();
    for (key, bytes) in documents {
        storage.set(key, bytes.as_slice())?;
    }
    Ok(())
}

// The keys of the documents of version 2 at the paths of some nodes.
fn version_2_keys(
    alloc: Global,
    nodes: &[(NodePath, NodeMetadata)],
) -> Result<Vec<StoreKey>, AllocError>
    ensures { IfOk result (λ keys. keys.items ≡ keys_beside nodes.now) }
{
    let mut keys = Vec::new(alloc);
    for (path, _metadata) in nodes {
        push_keys(alloc, path, &mut keys)?;
    }
    Ok(keys)
}

// Appends the keys of the documents of version 2 at a path.
fn push_keys(alloc: Global, path: &NodePath, keys: &mut Vec<StoreKey>) -> Result<(), AllocError>
    ensures { OnOk result (keys.new.items ≡ keys.old.items ++ version_2_keys path.now) }
{
    keys.push(meta_key_v2_array(alloc, path)?)?;
    keys.push(meta_key_v2_group(alloc, path)?)?;
    keys.push(meta_key_v2_attributes(alloc, path)?)?;
    Ok(keys.push(meta_key_v2_consolidated(alloc, path)?)?)
}

// Erases each key in turn.
fn erase_all<S: WritableStorageTraits>(
    storage: &mut S,
    keys: &[StoreKey],
) -> Result<(), StorageError>
    ensures erased { OnOk result
        (S.contents storage.new ≡ without_keys (S.contents storage.old) keys.now) }
    ensures err { IfErr result (IsStoreError (S.can_fail storage.old)) }
    ensures others { (key : Segments) → (Contains keys.now key → ⊥)
        → get (S.contents storage.new).values key ≡ get (S.contents storage.old).values key }
    ensures numbers { (S.contents storage.new).numbers ≡ (S.contents storage.old).numbers }
    ensures nature { S.can_fail storage.new ≡ S.can_fail storage.old }
{
    laws::others_are_kept();
    for key in keys {
        storage.erase(key)?;
    }
    Ok(())
}
