//! The block of a group beside the nodes of a survey.
ghost use Rattle.std.specs.Prelude.{◌≡◌, ◌↔◌, IfOk, IfErr, IfSome, IsSome, IsTrue, Contains};
ghost use Rattle.zarrs_store.specs.Faults.{IsStoreError};
ghost use Rattle.zarrs_meaning.specs.declared.node_create_error.NodeCreateError.{NodeCreateError};
ghost use Rattle.zarrs_node.specs.Order.{Ascend};
ghost use Rattle.zarrs_node.specs.Reach.{HasGroup};
ghost use Rattle.zarrs_meaning.specs.Exists.{HasNodeKey};
ghost use Rattle.zarrs_check.specs.Findings.{AreFindings};
ghost use Rattle.zarrs_check.specs.StepsOfComparing.{IsPlaceBehind};
ghost use Rattle.zarrs_check.specs.Surveys.{HasGroupAt, IsBaseOf};

use crate::base::Base;
use crate::comparison::Comparison;
use crate::finding::Finding;
use crate::survey::Survey;
use std::alloc::Global;
use zarrs_block::ConsolidatedMetadata;
use zarrs_meta::NodeMetadata;
use zarrs_path::NodePath;
use zarrs_store::{ReadableStorageTraits, StorageError};

/// What there is to tell of the block of a group beside the nodes that a survey found below it: its bad keys and those that are shadowed, in the
/// order of the keys, and then what is wrong with its entries and what is missing, in the order of paths. Metadata are compared as data, the
/// field `consolidated_metadata` of version 3 groups left out on both sides.
///
/// `None` where the survey has no group at the path: neither its base nor a node below that is one there. An array is no group, and a path
/// above the base or below a bad document is no node of the survey.
///
/// Entries at or below a bad document are not compared with the store, because nothing was read there: of them it tells only what stands in the block.
/// Of other entries without a node it asks the store for a document at their paths.
///
/// # Errors
///
/// `StorageError::Fault` of a store that can fail, and `OutOfMemory` where there is no memory for the entries or for what is told.
///
/// Source: own.
/// <https://zarr.readthedocs.io/en/stable/user-guide/consolidated_metadata/>
pub fn compare_block<S: ReadableStorageTraits>(
    alloc: Global,
    storage: &S,
    survey: &Survey,
    group: &NodePath,
    block: ConsolidatedMetadata,
) -> Result<Option<Vec<Finding>>, StorageError>
    ensures group { IfOk result (λ told. IsSome told ↔ HasGroupAt survey.now group.now) }
    ensures findings { IfOk result (λ told. IfSome told
        (λ found. AreFindings block.metadata (Contains survey.now.nodes.items)
        (λ q. (e : NodeCreateError) × Contains survey.now.bad_documents (q, e))
        (HasNodeKey (S.contents storage.now)) group.now found.items)) }
    ensures err { IfErr result (IsStoreError (S.can_fail storage.now)) }
{
    if !has_group(survey, group) {
        return Ok(None);
    }
    let mut comparison = Comparison::new(alloc, group.try_clone(alloc)?, block, false)?;
    let start = place_behind(&survey.nodes, group);
    comparison.take_first(alloc, &survey.nodes[start..])?;
    let found = comparison.finish(alloc, storage, &survey.bad_documents)?;
    Ok(Some(found))
}

// Whether the survey has a group at a path.
fn has_group(survey: &Survey, path: &NodePath) -> bool
    ensures { IsTrue result ↔ HasGroupAt survey.now path.now }
{
    is_base_group(survey, path) || has_group_among(&survey.nodes, path)
}

// Whether the base of the survey is a group at a path.
fn is_base_group(survey: &Survey, path: &NodePath) -> bool
    ensures { IsTrue result ↔ HasGroup (IsBaseOf survey.now) path.now }
{
    match &survey.base {
        Base::Node(metadata) => metadata.is_group() && survey.path == *path,
        Base::Refused(_) => false,
    }
}

// Whether one of the nodes is a group at a path.
fn has_group_among(nodes: &[(NodePath, NodeMetadata)], path: &NodePath) -> bool
    requires ascending { Ascend nodes.now }
    ensures { IsTrue result ↔ HasGroup (Contains nodes.now) path.now }
{
    match nodes.binary_search_by(|node| node.0.cmp(path)) {
        Ok(place) => nodes[place].1.is_group(),
        Err(_gap) => false,
    }
}

// The place behind a path among nodes in the order of paths.
fn place_behind(nodes: &[(NodePath, NodeMetadata)], path: &NodePath) -> usize
    requires ascending { Ascend nodes.now }
    ensures { IsPlaceBehind nodes.now path.now result }
{
    match nodes.binary_search_by(|node| node.0.cmp(path)) {
        Ok(place) => place + 1,
        Err(gap) => gap,
    }
}
