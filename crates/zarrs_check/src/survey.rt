//! A survey of a store.
ghost use Rattle.std.specs.Prelude.{◌≡◌, IfOk};
ghost use Rattle.zarrs_node.specs.Order.{Ascend};
ghost use Rattle.zarrs_check.specs.StepsOfSurveys.{HasPaths, HaveApartDocuments, documents_of, names_of};

use crate::bad_documents::BadDocuments;
use crate::base::{Base, base_of};
use log::Log;
use std::alloc::{AllocError, Global};
use zarrs_config::MetadataRetrieveVersion;
use zarrs_meaning::NodeCreateError;
use zarrs_meta::NodeMetadata;
use zarrs_node::{NodeFault, walk_past_faults, warn_ignored};
use zarrs_path::NodePath;
use zarrs_store::{ListableStorageTraits, ReadableStorageTraits, StorePrefix};

// The module whose warnings are those of a survey and of a check.
pub(crate) const MODULE: &str = module_path!();

/// All that a store has at a path, the base, and below it: its nodes, the paths without documents, and what is bad.
///
/// Source: own.
/// <https://zarr-specs.readthedocs.io/en/latest/v3/core/index.html#hierarchy>
#[derive(Debug, Drop)]
pub struct Survey {
    /// The path of the base.
    pub path: NodePath,
    /// What stands at the base: a node, or why it is none.
    pub base: Base,
    /// The nodes below the base, each a path with its metadata, in the order of paths.
    pub nodes: Vec<(NodePath, NodeMetadata)>,
    /// The paths without documents that were passed over with all below them, in the order of paths.
    pub ignored: Vec<NodePath>,
    /// The paths below the base whose documents are bad, each with its error. Below them nothing was looked at.
    pub bad_documents: BadDocuments,
    /// The paths below the base whose last name is made of periods only, in the order of paths. Below them nothing was looked at.
    pub bad_names: Vec<StorePrefix>,
    pub ghost nodes_ascend: { Ascend nodes.items },
}

impl Survey {
    ghost use Rattle.std.specs.Prelude.{IfErr};
    ghost use Rattle.zarrs_meaning.specs.Refusals.{IsExcused};
    ghost use Rattle.zarrs_check.specs.Surveys.{IsSurveyOf};

    /// Surveys what a store has at a path and below it, by the documents of a version. It goes on past what is bad, and warns of each path
    /// without documents that it passes over. Of a base that is no node what is below it is looked at all the same.
    ///
    /// # Errors
    ///
    /// `StorageError::Fault` of a store that can fail, and `OutOfMemory` when out of memory.
    ///
    /// Source: own.
    pub fn of_store<L: Log, S: ReadableStorageTraits + ListableStorageTraits>(
        log: &L,
        alloc: Global,
        storage: &S,
        path: &NodePath,
        version: &MetadataRetrieveVersion,
    ) -> Result<Survey, NodeCreateError>
        ensures surveyed { IfOk result
            (IsSurveyOf (S.contents storage.now) version.now path.now) }
        ensures excused { IfErr result (IsExcused (S.can_fail storage.now)) }
    {
        let _valid = path.as_str();
        let base = base_of(alloc, storage, path, version)?;
        let mut nodes = Vec::new(alloc);
        let walked = walk_past_faults(alloc, storage, path, version, &mut nodes)?;
        warn_ignored(log, MODULE, &walked.ignored);
        let (bad_documents, bad_names) = sort_faults(alloc, walked.faults)?;
        Ok(Survey {
            path: path.try_clone(alloc)?,
            base,
            nodes,
            ignored: walked.ignored,
            bad_documents,
            bad_names,
        })
    }
}

// The bad documents and the bad names, each in their order.
pub(crate) fn sort_faults(
    alloc: Global,
    faults: Vec<(StorePrefix, NodeFault)>,
) -> Result<(BadDocuments, Vec<StorePrefix>), AllocError>
    requires paths { HasPaths faults.items }
    requires apart { HaveApartDocuments faults.items }
    ensures documents { IfOk result (λ sorted. sorted.0 ≡ documents_of faults.items) }
    ensures names { IfOk result (λ sorted. sorted.1.items ≡ names_of faults.items) }
{
    let mut documents = Vec::new(alloc);
    let mut names = Vec::new(alloc);
    for (prefix, fault) in faults {
        match fault {
            NodeFault::Name => names.push(prefix)?,
            NodeFault::Document(error) => {
                let path = NodePath::from_valid_prefix(prefix)?;
                documents.push((path, error))?;
            }
        }
    }
    Ok((BadDocuments::new(documents), names))
}
