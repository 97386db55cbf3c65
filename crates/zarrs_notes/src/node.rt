//! All that there is to tell of a node.
ghost use Rattle.std.specs.Prelude.{IfErr, IfOk};
ghost use Rattle.zarrs_store.specs.Faults.{IsStoreError};
ghost use Rattle.zarrs_notes.specs.NodeFindings.{AreNodeFindings};

use crate::beside::{add_beside, add_left_over, add_misplaced};
use crate::fields::add_fields;
use crate::finding::NodeFinding;
use crate::shapes::add_shape;
use crate::values::add_values;
use std::alloc::Global;
use zarrs_meta::NodeMetadata;
use zarrs_path::NodePath;
use zarrs_store::{ReadableStorageTraits, StorageError};

/// All that there is to tell of the node at a path that has these metadata, each once: what is wrong with its dimensions, with its fill value
/// and its codecs, which of its additional fields must be understood, a block that an array has, the documents beside the one that makes
/// it, and what a run of writing left. The findings stand in this order, fields by their names and documents by their kinds.
///
/// Of documents it is asked whether they stand there, and none is read. Beside `zarr.json` these are `.zarray`, `.zgroup`, `.zattrs` and
/// `.zmetadata`, and beside `.zarray` they are `.zgroup` and `.zmetadata`, which is told there as a misplaced block. Beside `.zgroup` a reader
/// that goes by all versions leaves nothing aside. A run of writing that is broken off leaves `zarr.json.zarrs_new` at a group of version 3, and
/// `.zmetadata.zarrs_new` at one of version 2.
///
/// # Errors
///
/// `StorageError::Fault` of a store that can fail, and `OutOfMemory`.
///
/// Source: own; Zarr core specification 3.1, "Regular grids", "dimension_names", "Fill value", "Codecs" and "Extension points".
/// <https://zarr-specs.readthedocs.io/en/latest/v3/core/index.html#array-metadata>
/// <https://zarr-specs.readthedocs.io/en/latest/v3/core/index.html#extension-points>
pub fn node_findings<S: ReadableStorageTraits>(
    alloc: Global,
    storage: &S,
    path: &NodePath,
    metadata: &NodeMetadata,
) -> Result<Vec<NodeFinding>, StorageError>
    ensures ok { IfOk result (λ found.
        AreNodeFindings (S.contents storage.now) path.now metadata.now found.items) }
    ensures err { IfErr result (IsStoreError (S.can_fail storage.now)) }
{
    let mut found = Vec::new(alloc);
    add_shape(metadata, &mut found)?;
    add_values(alloc, metadata, &mut found)?;
    add_fields(alloc, path, metadata, &mut found)?;
    add_misplaced(alloc, storage, path, metadata, &mut found)?;
    add_beside(alloc, storage, path, metadata, &mut found)?;
    add_left_over(alloc, storage, path, metadata, &mut found)?;
    Ok(found)
}
