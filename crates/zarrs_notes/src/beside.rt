//! The documents of a node that are not read, and what a run of writing leaves beside them.
ghost use Rattle.std.specs.Prelude.{◌≡◌, ◌++◌, ◌∷◌, [], IfErr, IfOk, OnOk};
ghost use Rattle.zarrs_store.specs.Faults.{IsStoreError};
ghost use Rattle.zarrs_notes.specs.BesideDocuments.{left_over, main_document, name_of_file, passed_over};
ghost use Rattle.zarrs_notes.specs.StepsOfFindings.{file_finding, file_findings, has_block, has_file, is_misplaced, told_if};
ghost use Rattle.zarrs_notes.specs.declared.finding.NodeFinding.TheVariants.{MisplacedBlock};
ghost use Rattle.zarrs_meta.specs.declared.node.NodeMetadata.TheVariants.{Array};

use crate::file::NodeFile;
use crate::finding::NodeFinding;
use crate::shapes::tell;
use std::alloc::{AllocError, Global};
use zarrs_form::AdditionalFieldsV3;
use zarrs_meta::{ArrayMetadata, GroupMetadata, NodeMetadata};
use zarrs_path::{
    NodePath, meta_key_v2_array, meta_key_v2_attributes, meta_key_v2_consolidated,
    meta_key_v2_group, meta_key_v3,
};
use zarrs_store::{ReadableStorageTraits, StorageError, StoreKey};

// The documents that are not read beside `zarr.json`.
const BESIDE_ZARR_JSON: &[NodeFile] = &[
    NodeFile::Zarray,
    NodeFile::Zgroup,
    NodeFile::Zattrs,
    NodeFile::Zmetadata,
];

// The documents that are not read beside `.zarray`, but for the block, which is misplaced there.
const BESIDE_ZARRAY: &[NodeFile] = &[NodeFile::Zgroup];

// Puts the block of an array behind the other findings, where it has one.
pub(crate) fn add_misplaced<S: ReadableStorageTraits>(
    alloc: Global,
    storage: &S,
    path: &NodePath,
    metadata: &NodeMetadata,
    found: &mut Vec<NodeFinding>,
) -> Result<(), StorageError>
    ensures ok { OnOk result
        (found.new.items ≡ found.old.items
        ++ told_if (is_misplaced (S.contents storage.now) path.now metadata.now) MisplacedBlock) }
    ensures err { IfErr result (IsStoreError (S.can_fail storage.now)) }
{
    let misplaced = match metadata {
        NodeMetadata::Group(_) => false,
        NodeMetadata::Array(array) => is_misplaced(alloc, storage, path, array.as_ref())?,
    };
    Ok(tell(found, misplaced, NodeFinding::MisplacedBlock)?)
}

// Whether an array has a block.
fn is_misplaced<S: ReadableStorageTraits>(
    alloc: Global,
    storage: &S,
    path: &NodePath,
    array: &ArrayMetadata,
) -> Result<bool, StorageError>
    ensures ok { IfOk result
        (λ found. found ≡ is_misplaced (S.contents storage.now) path.now (Array array.now)) }
    ensures err { IfErr result (IsStoreError (S.can_fail storage.now)) }
{
    match array {
        ArrayMetadata::V3(array) => Ok(has_block(&array.additional_fields)),
        ArrayMetadata::V2(_) => has_file(alloc, storage, path, NodeFile::Zmetadata),
    }
}

// Whether there is a block among the fields: a null is none.
fn has_block(fields: &AdditionalFieldsV3) -> bool
    ensures { result ≡ has_block fields.now }
{
    fields.get("consolidated_metadata").is_some() && !fields.is_null_at("consolidated_metadata")
}

// Puts the documents that are not read behind the other findings, in the order of their kinds.
pub(crate) fn add_beside<S: ReadableStorageTraits>(
    alloc: Global,
    storage: &S,
    path: &NodePath,
    metadata: &NodeMetadata,
    found: &mut Vec<NodeFinding>,
) -> Result<(), StorageError>
    ensures ok { OnOk result
        (found.new.items ≡ found.old.items
        ++ file_findings (S.contents storage.now) path.now
        (Some (main_document metadata.now)) (passed_over metadata.now)) }
    ensures err { IfErr result (IsStoreError (S.can_fail storage.now)) }
{
    let document = Some(main_document(metadata));
    add_files(alloc, storage, path, document, passed_over(metadata), found)
}

// Puts what a run of writing left behind the other findings.
pub(crate) fn add_left_over<S: ReadableStorageTraits>(
    alloc: Global,
    storage: &S,
    path: &NodePath,
    metadata: &NodeMetadata,
    found: &mut Vec<NodeFinding>,
) -> Result<(), StorageError>
    ensures ok { OnOk result
        (found.new.items ≡ found.old.items
        ++ file_findings (S.contents storage.now) path.now None (left_over metadata.now)) }
    ensures err { IfErr result (IsStoreError (S.can_fail storage.now)) }
{
    add_files(alloc, storage, path, None, left_over(metadata), found)
}

// Puts those of some documents that stand there behind the other findings: beside a document they are not read, beside none they are left over.
fn add_files<S: ReadableStorageTraits>(
    alloc: Global,
    storage: &S,
    path: &NodePath,
    document: Option<NodeFile>,
    files: &[NodeFile],
    found: &mut Vec<NodeFinding>,
) -> Result<(), StorageError>
    ensures ok { OnOk result
        (found.new.items ≡ found.old.items
        ++ file_findings (S.contents storage.now) path.now document files.now) }
    ensures err { IfErr result (IsStoreError (S.can_fail storage.now)) }
{
    for file in files {
        let file = *file;
        let stands = has_file(alloc, storage, path, file)?;
        tell(found, stands, file_finding(document, file))?;
    }
    Ok(())
}

// What there is to tell of a document that stands there.
fn file_finding(document: Option<NodeFile>, file: NodeFile) -> NodeFinding
    ensures { result ≡ file_finding document file }
{
    match document {
        Some(document) => NodeFinding::Beside { file, document },
        None => NodeFinding::LeftOver(file),
    }
}

// The document that makes a node.
fn main_document(metadata: &NodeMetadata) -> NodeFile
    ensures { result ≡ main_document metadata.now }
{
    match metadata {
        NodeMetadata::Group(GroupMetadata::V3(_)) => NodeFile::ZarrJson,
        NodeMetadata::Group(GroupMetadata::V2(_)) => NodeFile::Zgroup,
        NodeMetadata::Array(array) => match array.as_ref() {
            ArrayMetadata::V3(_) => NodeFile::ZarrJson,
            ArrayMetadata::V2(_) => NodeFile::Zarray,
        },
    }
}

// The documents that are not read beside the one that makes a node.
fn passed_over(metadata: &NodeMetadata) -> &'static [NodeFile]
    ensures { result.now ≡ passed_over metadata.now }
{
    match metadata {
        NodeMetadata::Group(GroupMetadata::V3(_)) => BESIDE_ZARR_JSON,
        NodeMetadata::Group(GroupMetadata::V2(_)) => &[],
        NodeMetadata::Array(array) => match array.as_ref() {
            ArrayMetadata::V3(_) => BESIDE_ZARR_JSON,
            ArrayMetadata::V2(_) => BESIDE_ZARRAY,
        },
    }
}

// What a run of writing leaves at a node where it is broken off.
fn left_over(metadata: &NodeMetadata) -> &'static [NodeFile]
    ensures { result.now ≡ left_over metadata.now }
{
    match metadata {
        NodeMetadata::Group(GroupMetadata::V3(_)) => &[NodeFile::NewZarrJson],
        NodeMetadata::Group(GroupMetadata::V2(_)) => &[NodeFile::NewZmetadata],
        NodeMetadata::Array(_) => &[],
    }
}

// Whether a store has a document of a node.
fn has_file<S: ReadableStorageTraits>(
    alloc: Global,
    storage: &S,
    path: &NodePath,
    file: NodeFile,
) -> Result<bool, StorageError>
    ensures ok { IfOk result
        (λ stands. stands ≡ has_file (S.contents storage.now) path.now file) }
    ensures err { IfErr result (IsStoreError (S.can_fail storage.now)) }
{
    let key = key_of(alloc, path, file)?;
    Ok(storage.get(alloc, &key)?.is_some())
}

// The key of a document of a node.
fn key_of(alloc: Global, path: &NodePath, file: NodeFile) -> Result<StoreKey, AllocError>
    ensures { IfOk result (λ key. key ≡ path.now ++ name_of_file file ∷ []) }
{
    match file {
        NodeFile::ZarrJson => meta_key_v3(alloc, path),
        NodeFile::Zarray => meta_key_v2_array(alloc, path),
        NodeFile::Zgroup => meta_key_v2_group(alloc, path),
        NodeFile::Zattrs => meta_key_v2_attributes(alloc, path),
        NodeFile::Zmetadata => meta_key_v2_consolidated(alloc, path),
        NodeFile::NewZarrJson | NodeFile::NewZmetadata => {
            let prefix = path.to_prefix(alloc)?;
            prefix.key_in(String::new(alloc), file.name())
        }
    }
}
