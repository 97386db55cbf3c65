//! What a check does with each node that a walk finds.
ghost use Rattle.std.specs.Prelude.{◌≡◌, ◌++◌, ◌∷◌, [], IfErr, IfOk, OnOk};
ghost use Rattle.zarrs_store.specs.Faults.{IsStoreError};
ghost use Rattle.zarrs_node.specs.Sinks.{TakesAll};
ghost use Rattle.zarrs_check.specs.StepsOfTaking.{IsNew, base_fault, base_nodes};
ghost use Rattle.zarrs_check.specs.StepsOfVisits.{TakesVisit, TellsNode, named_findings};

use crate::base::Base;
use crate::comparisons::Comparisons;
use std::alloc::{AllocError, Global};
use zarrs_meaning::NodeCreateError;
use zarrs_meta::NodeMetadata;
use zarrs_node::NodeSink;
use zarrs_notes::{NodeFinding, node_findings};
use zarrs_path::NodePath;
use zarrs_store::{ReadableStorageTraits, StorageError};

// Takes nodes in the order of their paths: of each it keeps what there is to tell of it by its own documents, and compares it with the blocks
// of the groups above it.
#[derive(Drop)]
pub(crate) struct Visits<'a, S> {
    pub(crate) comparisons: Comparisons<'a, S>,
    // What there is to tell of the nodes, each with its path, in the order of paths.
    pub(crate) told: Vec<(NodePath, NodeFinding)>,
    // The paths of the nodes.
    pub(crate) paths: Vec<NodePath>,
}

impl<'a, S: ReadableStorageTraits> Visits<'a, S> {
    // No nodes were taken.
    pub(crate) fn new(alloc: Global, storage: &'a S) -> Visits<'a, S>
        ensures new { IsNew result.comparisons }
        ensures none { result.told.items ≡ [] }
        ensures no_paths { result.paths.items ≡ [] }
        ensures storage { result.comparisons.storage.now ≡ storage.now }
    {
        Visits {
            comparisons: Comparisons::new(alloc, storage),
            told: Vec::new(alloc),
            paths: Vec::new(alloc),
        }
    }

    // Takes the base if it is a node, and otherwise returns why it is none.
    pub(crate) fn take_base(
        &mut self,
        path: NodePath,
        base: Base,
    ) -> Result<Option<NodeCreateError>, AllocError>
        ensures fault { IfOk result (λ fault. fault ≡ base_fault base) }
        ensures taken { IfOk result
            (λ _. TakesAll (TakesVisit S.contents S.can_fail) self.old (base_nodes path base)
            self.new) }
    {
        match base {
            Base::Node(metadata) => {
                self.take(path, metadata)?;
                Ok(None)
            }
            Base::Refused(fault) => Ok(Some(fault)),
        }
    }

    // Keeps what there is to tell of a node, and its path.
    fn tell(&mut self, path: &NodePath, metadata: &NodeMetadata) -> Result<(), StorageError>
        ensures ok { OnOk result
            (TellsNode (S.contents self.old.comparisons.storage.now) self.old.told.items
            (path.now, metadata.now) self.new.told.items) }
        ensures named { OnOk result
            (self.new.paths.items ≡ self.old.paths.items ++ path.now ∷ []) }
        ensures comparisons { self.new.comparisons ≡ self.old.comparisons }
        ensures err { IfErr result (IsStoreError (S.can_fail self.old.comparisons.storage.now)) }
    {
        let alloc = self.comparisons.alloc;
        let found = node_findings(alloc, self.comparisons.storage, path, metadata)?;
        self.paths.push(path.try_clone(alloc)?)?;
        Ok(put_all(alloc, path, found, &mut self.told)?)
    }
}

// Puts what there is to tell of the node at a path behind what was told of others.
fn put_all(
    alloc: Global,
    path: &NodePath,
    found: Vec<NodeFinding>,
    told: &mut Vec<(NodePath, NodeFinding)>,
) -> Result<(), AllocError>
    ensures { OnOk result
        (told.new.items ≡ told.old.items ++ named_findings path.now found.items) }
{
    for finding in found {
        told.push((path.try_clone(alloc)?, finding))?;
    }
    Ok(())
}

/// Keeps what there is to tell of the node, and compares it with the blocks above it. Where the store fails, that is kept, and nothing is taken
/// after it.
impl<'a, S: ReadableStorageTraits> NodeSink for Visits<'a, S> {
    ghost takes = { TakesVisit S.contents S.can_fail };

    fn take(&mut self, path: NodePath, metadata: NodeMetadata) -> Result<(), AllocError> {
        if self.comparisons.outcome.is_err() {
            return Ok(());
        }
        match self.tell(&path, &metadata) {
            Ok(()) => self.comparisons.take(path, metadata),
            Err(StorageError::OutOfMemory) => Err(AllocError),
            Err(refusal) => {
                self.comparisons.outcome = Err(refusal);
                Ok(())
            }
        }
    }
}
