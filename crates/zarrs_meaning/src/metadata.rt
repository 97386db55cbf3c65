//! What a path means in a store.
ghost use Rattle.std.specs.Prelude.{◌≡◌, Ok, IfOk, IfErr};
ghost use Rattle.zarrs_meaning.specs.DocumentsAtKeys.{RefusesReading};
ghost use Rattle.zarrs_meaning.specs.Refusals.{Finds};
ghost use Rattle.zarrs_meaning.specs.DocumentsAtKeys.{in_bytes, attributes_at};
ghost use Rattle.zarrs_meaning.specs.Meaning.{meaning, zarr_json_line, zarray_line, zgroup_line};
ghost use Rattle.zarrs_meaning.specs.StepsOfDocuments.{FollowsLine};

use crate::documents::find_below;
use crate::last_read::LastDocuments;
use crate::node_create_error::NodeCreateError;
use std::alloc::Global;
use zarrs_config::MetadataRetrieveVersion;
use zarrs_meta::{
    ArrayMetadata, ArrayMetadataV2, AttributesDocument, BoxedArray, GroupMetadata, GroupMetadataV2,
    NodeMetadata, ZarrJson,
};
use zarrs_path::NodePath;
use zarrs_store::{ReadableStorageTraits, StorageError, StorePrefix};

/// The metadata of the node at a path, or none where it has no document that the version admits: what [`find_metadata`] answers for its prefix.
///
/// # Errors
///
/// Those of [`find_metadata`].
///
/// Source: Zarr core specification 3.1, "Metadata documents".
/// <https://zarr-specs.readthedocs.io/en/latest/v3/core/index.html#metadata>
pub fn metadata_at<S: ReadableStorageTraits>(
    alloc: Global,
    storage: &S,
    path: &NodePath,
    version: &MetadataRetrieveVersion,
) -> Result<Option<NodeMetadata>, NodeCreateError>
    ensures found { Finds (S.can_fail storage.now) result
        (meaning (S.contents storage.now) version.now path.now) }
{
    let prefix = path.to_prefix(alloc)?;
    let mut last = LastDocuments::new(alloc);
    find_metadata(alloc, storage, &prefix, version, &mut last)
}

/// The metadata of the node at the path with the names of a prefix, or none where it has no document that the version admits: by the first of
/// `zarr.json`, `.zarray` and `.zgroup` that is there; those of version 2 take their attributes from `.zattrs` where it is there. What was read
/// last is for the next call: documents that come again are copied.
///
/// # Errors
///
/// - `StorageError::InvalidMetadata` where a document does not read, with its key and the fault.
/// - `MetadataVersionMismatch` where a document of version 2 stands at `zarr.json`.
/// - `StorageError::Fault` of a store that can fail, and `OutOfMemory` when out of memory.
///
/// Source: Zarr core specification 3.1, "Metadata documents".
/// <https://zarr-specs.readthedocs.io/en/latest/v3/core/index.html#metadata>
pub fn find_metadata<S: ReadableStorageTraits>(
    alloc: Global,
    storage: &S,
    prefix: &StorePrefix,
    version: &MetadataRetrieveVersion,
    last: &mut LastDocuments,
) -> Result<Option<NodeMetadata>, NodeCreateError>
    ensures found { Finds (S.can_fail storage.now) result
        (meaning (S.contents storage.now) version.now prefix.now) }
{
    match version {
        MetadataRetrieveVersion::Default => match find_v3(alloc, storage, prefix, last)? {
            Some(metadata) => Ok(Some(metadata)),
            None => find_v2(alloc, storage, prefix, last),
        },
        MetadataRetrieveVersion::V3 => find_v3(alloc, storage, prefix, last),
        MetadataRetrieveVersion::V2 => find_v2(alloc, storage, prefix, last),
    }
}

// What the document `zarr.json` of a path says.
fn find_v3<S: ReadableStorageTraits>(
    alloc: Global,
    storage: &S,
    prefix: &StorePrefix,
    last: &mut LastDocuments,
) -> Result<Option<NodeMetadata>, NodeCreateError>
    ensures { FollowsLine (S.can_fail storage.now) result
        (zarr_json_line (in_bytes (S.contents storage.now).numbers)
        (S.contents storage.now).values prefix.now) }
{
    match find_below(
        alloc,
        storage,
        prefix,
        "zarr.json",
        &mut last.text,
        &mut last.zarr_json,
    )? {
        Some(ZarrJson::Node(metadata)) => Ok(Some(metadata)),
        Some(ZarrJson::Version2) => Err(NodeCreateError::MetadataVersionMismatch),
        None => Ok(None),
    }
}

// What the documents of version 2 of a path say.
fn find_v2<S: ReadableStorageTraits>(
    alloc: Global,
    storage: &S,
    prefix: &StorePrefix,
    last: &mut LastDocuments,
) -> Result<Option<NodeMetadata>, NodeCreateError>
    ensures { FollowsLine (S.can_fail storage.now) result
        (λ after. zarray_line (in_bytes (S.contents storage.now).numbers)
        (S.contents storage.now).values prefix.now
        (zgroup_line (in_bytes (S.contents storage.now).numbers)
        (S.contents storage.now).values prefix.now after)) }
{
    match find_array_v2(alloc, storage, prefix, last)? {
        Some(metadata) => Ok(Some(metadata)),
        None => find_group_v2(alloc, storage, prefix, last),
    }
}

// What the document `.zarray` of a path says, with the attributes beside it.
fn find_array_v2<S: ReadableStorageTraits>(
    alloc: Global,
    storage: &S,
    prefix: &StorePrefix,
    last: &mut LastDocuments,
) -> Result<Option<NodeMetadata>, NodeCreateError>
    ensures { FollowsLine (S.can_fail storage.now) result
        (zarray_line (in_bytes (S.contents storage.now).numbers)
        (S.contents storage.now).values prefix.now) }
{
    let found: Option<ArrayMetadataV2> = find_below(
        alloc,
        storage,
        prefix,
        ".zarray",
        &mut last.text,
        &mut last.zarray,
    )?;
    let Some(mut array) = found else {
        return Ok(None);
    };
    if let Some(document) = find_attributes(alloc, storage, prefix, last)? {
        array.attributes = document.0;
    }
    let boxed = BoxedArray::new(alloc, ArrayMetadata::V2(array))?;
    Ok(Some(NodeMetadata::Array(boxed)))
}

// What the document `.zgroup` of a path says, with the attributes beside it.
fn find_group_v2<S: ReadableStorageTraits>(
    alloc: Global,
    storage: &S,
    prefix: &StorePrefix,
    last: &mut LastDocuments,
) -> Result<Option<NodeMetadata>, NodeCreateError>
    ensures { FollowsLine (S.can_fail storage.now) result
        (zgroup_line (in_bytes (S.contents storage.now).numbers)
        (S.contents storage.now).values prefix.now) }
{
    let found: Option<GroupMetadataV2> = find_below(
        alloc,
        storage,
        prefix,
        ".zgroup",
        &mut last.text,
        &mut last.zgroup,
    )?;
    let Some(mut group) = found else {
        return Ok(None);
    };
    if let Some(document) = find_attributes(alloc, storage, prefix, last)? {
        group.attributes = document.0;
    }
    Ok(Some(NodeMetadata::Group(GroupMetadata::V2(group))))
}

// The attributes that the document `.zattrs` of a path has, or none where it is absent.
fn find_attributes<S: ReadableStorageTraits>(
    alloc: Global,
    storage: &S,
    prefix: &StorePrefix,
    last: &mut LastDocuments,
) -> Result<Option<AttributesDocument>, StorageError>
    ensures ok { IfOk result
        (λ found. attributes_at (S.contents storage.now) prefix.now ≡ Ok found) }
    ensures err { IfErr result
        (RefusesReading (S.can_fail storage.now)
        (attributes_at (S.contents storage.now) prefix.now)) }
{
    find_below(
        alloc,
        storage,
        prefix,
        ".zattrs",
        &mut last.text,
        &mut last.zattrs,
    )
}
