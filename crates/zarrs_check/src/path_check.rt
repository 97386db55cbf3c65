//! All that a check tells of one path: from it on, and by the blocks above it.
ghost use Rattle.std.specs.Prelude.{IfOk, IfErr};
ghost use Rattle.zarrs_meaning.specs.Refusals.{IsExcused};
ghost use Rattle.zarrs_check.specs.PathChecks.{IsCheckedFrom, IsPathCheckOf};

use crate::base::{Base, base_of};
use crate::blocks_above::check_above;
use crate::check::Check;
use crate::finding::Finding;
use log::Log;
use std::alloc::Global;
use zarrs_config::MetadataRetrieveVersion;
use zarrs_meaning::NodeCreateError;
use zarrs_notes::{NodeFinding, node_findings};
use zarrs_path::NodePath;
use zarrs_store::{ListableStorageTraits, ReadableStorageTraits};

/// What there is to tell of a store from a path on, and of the blocks above the path.
///
/// Source: own.
/// <https://zarr-specs.readthedocs.io/en/latest/v3/core/index.html#hierarchy>
#[derive(Debug, Drop)]
pub struct PathCheck {
    /// What there is to tell from the path on.
    pub from: CheckedFrom,
    /// What the blocks of the groups above the path say otherwise than the store from the path on, in the order of groups, paths and kinds.
    pub above: Vec<Finding>,
}

/// What there is to tell of a path, and of what is below it where the path means no array.
///
/// Source: own.
/// <https://zarr-specs.readthedocs.io/en/latest/v3/core/index.html#hierarchy>
#[derive(Debug, Drop)]
pub enum CheckedFrom {
    /// The path means an array: what there is to tell of it by its own documents. Nothing below it is looked at.
    Array(Vec<NodeFinding>),
    /// The path means no array.
    Tree(Check),
}

impl PathCheck {
    /// Checks what a store has from a path on, by the documents of a version: an array by its own documents, and else as [`Check::of_store`] does; and
    /// beside that the blocks of the groups above the path, as [`check_above`] does.
    ///
    /// # Errors
    ///
    /// `StorageError::Fault` of a store that can fail, and `OutOfMemory` when out of memory.
    ///
    /// Source: own.
    /// <https://zarr-specs.readthedocs.io/en/latest/v3/core/index.html#hierarchy>
    pub fn of_store<L: Log, S: ReadableStorageTraits + ListableStorageTraits>(
        log: &L,
        alloc: Global,
        storage: &S,
        path: &NodePath,
        version: &MetadataRetrieveVersion,
    ) -> Result<PathCheck, NodeCreateError>
        ensures ok { IfOk result (IsPathCheckOf (S.contents storage.now) version.now path.now) }
        ensures excused { IfErr result (IsExcused (S.can_fail storage.now)) }
    {
        let from = checked_from(log, alloc, storage, path, version)?;
        let above = check_above(alloc, storage, path, version)?;
        Ok(PathCheck { from, above })
    }
}

// What there is to tell of a path, and of what is below it where the path means no array. The document at the path is read once.
fn checked_from<L: Log, S: ReadableStorageTraits + ListableStorageTraits>(
    log: &L,
    alloc: Global,
    storage: &S,
    path: &NodePath,
    version: &MetadataRetrieveVersion,
) -> Result<CheckedFrom, NodeCreateError>
    ensures ok { IfOk result (IsCheckedFrom (S.contents storage.now) version.now path.now) }
    ensures excused { IfErr result (IsExcused (S.can_fail storage.now)) }
{
    let base = match base_of(alloc, storage, path, version)? {
        Base::Node(metadata) if !metadata.is_group() => {
            let found = node_findings(alloc, storage, path, &metadata)?;
            return Ok(CheckedFrom::Array(found));
        }
        Base::Node(metadata) => Base::Node(metadata),
        Base::Refused(refusal) => Base::Refused(refusal),
    };
    let check = Check::of_base(log, alloc, storage, path, version, base)?;
    Ok(CheckedFrom::Tree(check))
}
