//! The blocks of groups beside the nodes that a walk finds.
ghost use Rattle.std.specs.Prelude.{◌≡◌, ◌↔◌, IsTrue, IfOk, IfErr, OnOk};
ghost use Rattle.zarrs_store.specs.Faults.{IsStoreError};
ghost use Rattle.zarrs_check.specs.StepsOfChecks.{shown_block};
ghost use Rattle.zarrs_check.specs.StepsOfTaking.{AreCompared, Closes, IsAboveAt, IsLastAbove, IsNew, PlacesAscend, PutsBlock, Takes, TakesNode};

use crate::check::take_block;
use crate::comparison::Comparison;
use std::alloc::{AllocError, Global};
use zarrs_block::ConsolidatedMetadata;
use zarrs_fault::MetadataFault;
use zarrs_meta::NodeMetadata;
use zarrs_node::NodeSink;
use zarrs_path::NodePath;
use zarrs_store::{ReadableStorageTraits, StorageError};

// Takes nodes in the order of their paths, counts them, and compares each with the blocks of the groups above it, as it comes; it keeps none of them.
#[derive(Drop)]
pub(crate) struct Comparisons<'a, S> {
    pub(crate) alloc: Global,
    pub(crate) storage: &'a S,
    // The number of nodes.
    pub(crate) count: usize,
    // What was read as blocks, beside the nodes that were taken, in the order of their groups.
    pub(crate) blocks: Vec<Comparison>,
    // The places of the blocks that may be above the next node, each above those behind it.
    above: Vec<usize>,
    // What the store refused, after which nothing is taken.
    pub(crate) outcome: Result<(), StorageError>,
}

impl<'a, S: ReadableStorageTraits> Comparisons<'a, S> {
    // No nodes were taken.
    pub(crate) fn new(alloc: Global, storage: &'a S) -> Comparisons<'a, S>
        ensures new { IsNew result }
        ensures storage { result.storage.now ≡ storage.now }
    {
        Comparisons {
            alloc,
            storage,
            count: 0,
            blocks: Vec::new(alloc),
            above: Vec::new(alloc),
            outcome: Ok(()),
        }
    }

    // Takes one node more.
    fn take_node(&mut self, path: NodePath, metadata: NodeMetadata) -> Result<(), StorageError>
        ensures ok { OnOk result
            (TakesNode (S.contents self.old.storage.now) self.old (path, metadata) self.new) }
        ensures outcome { self.new.outcome ≡ self.old.outcome }
        ensures storage { self.new.storage.now ≡ self.old.storage.now }
        ensures err { IfErr result (IsStoreError (S.can_fail self.old.storage.now)) }
    {
        let Some(count) = self.count.checked_add(1) else {
            return Err(StorageError::OutOfMemory);
        };
        self.close(&path);
        compare_all(self.alloc, &mut self.blocks, &self.above, &path, &metadata)?;
        if let Some(block) = take_block(self.alloc, self.storage, &path, metadata)? {
            self.put_block(path, block)?;
        }
        self.count = count;
        Ok(())
    }

    // Forgets the places of the last blocks that are not above a path.
    fn close(&mut self, path: &NodePath)
        ensures closed { Closes self.old path.now self.new }
        ensures last { IsLastAbove self.new.above.items self.old.blocks.items path.now }
        ensures count { self.new.count ≡ self.old.count }
        ensures outcome { self.new.outcome ≡ self.old.outcome }
        ensures storage { self.new.storage.now ≡ self.old.storage.now }
    {
        while let Some(place) = self.above.last() {
            if self.is_above(*place, path) {
                return;
            }
            drop(self.above.pop());
        }
    }

    // Whether the block at a place is above a path.
    fn is_above(&self, place: usize, path: &NodePath) -> bool
        ensures { IsTrue result ↔ IsAboveAt self.now.blocks.items place path.now }
    {
        match self.blocks.get(place) {
            Some(block) => block.is_above(path),
            None => false,
        }
    }

    // Puts what was read as the block of a node behind the others.
    fn put_block(
        &mut self,
        path: NodePath,
        block: Result<(ConsolidatedMetadata, bool), MetadataFault>,
    ) -> Result<(), AllocError>
        ensures put { OnOk result
            (PutsBlock self.old.blocks.items self.old.above.items path (shown_block block)
            self.new.blocks.items self.new.above.items) }
        ensures count { self.new.count ≡ self.old.count }
        ensures outcome { self.new.outcome ≡ self.old.outcome }
        ensures storage { self.new.storage.now ≡ self.old.storage.now }
    {
        let block = match block {
            Ok((block, other)) => {
                self.above.push(self.blocks.len())?;
                Comparison::new(self.alloc, path, block, other)?
            }
            Err(fault) => Comparison::of_fault(self.alloc, path, fault)?,
        };
        Ok(self.blocks.push(block)?)
    }
}

// Compares a node with the blocks at these places, each where it is above the node.
fn compare_all(
    alloc: Global,
    blocks: &mut Vec<Comparison>,
    places: &[usize],
    path: &NodePath,
    metadata: &NodeMetadata,
) -> Result<(), AllocError>
    ensures { OnOk result
        (PlacesAscend places.now → AreCompared places.now (path.now, metadata.now)
        blocks.old.items blocks.new.items) }
{
    for place in places {
        if let Some(block) = blocks.get_mut(*place) {
            block.take_below(alloc, path, metadata)?;
        }
    }
    Ok(())
}

/// Counts the node and compares it with the blocks above it. Where the store fails, that is kept, and nothing is taken after it.
impl<'a, S: ReadableStorageTraits> NodeSink for Comparisons<'a, S> {
    ghost takes = { Takes S.contents S.can_fail };

    fn take(&mut self, path: NodePath, metadata: NodeMetadata) -> Result<(), AllocError> {
        if self.outcome.is_err() {
            return Ok(());
        }
        match self.take_node(path, metadata) {
            Ok(()) => Ok(()),
            Err(StorageError::OutOfMemory) => Err(AllocError),
            Err(refusal) => {
                self.outcome = Err(refusal);
                Ok(())
            }
        }
    }
}
