//! The block of a group beside the nodes below it, one after another.
ghost use Rattle.std.specs.Prelude.{◌≡◌, ◌↔◌, ◌++◌, IsTrue, IfOk, IfErr, OnOk};
ghost use Rattle.zarrs_store.specs.Contents.{Lists};
ghost use Rattle.zarrs_store.specs.Faults.{IsStoreError};
ghost use Rattle.zarrs_path.specs.Paths.{IsBelow};
ghost use Rattle.zarrs_block.specs.Block.{Entries, HasValidKeys};
ghost use Rattle.zarrs_node.specs.Order.{Ascend};
ghost use Rattle.zarrs_check.specs.Checks.{fault_of_block};
ghost use Rattle.zarrs_meaning.specs.Exists.{HasNodeKey};
ghost use Rattle.zarrs_check.specs.Findings.{IsAtOrAbove};
ghost use Rattle.zarrs_check.specs.StepsOfChecks.{HasBad};
ghost use Rattle.zarrs_check.specs.StepsOfComparing.{HangsFrom, IsPairKind, StandBehind, cut_kind, findings_at, own_kind};
ghost use Rattle.zarrs_check.specs.StepsOfBlocksAbove.{IsEndFrom};
ghost use Rattle.zarrs_check.specs.StepsOfComparisons.{IsAtEnd, IsEnd, IsNext, IsNextBelow, IsNextOf, IsOnly, IsStart, IsTurnAt, IsUnmoved, Passes, PassesLone, PassesPair, PassesWith, PutsSettled, IsSettled};

use crate::bad_documents::BadDocuments;
use crate::finding::{Finding, FindingKind};
use crate::keys::{key_findings, without_bad_keys};
use std::alloc::{AllocError, Global};
use std::cmp::Ordering;
use std::collections::VecDeque;
use zarrs_block::{
    ConsolidatedMetadata, ConsolidatedMetadataMetadata, expand_consolidated_metadata,
};
use zarrs_compare::is_same_metadata;
use zarrs_fault::MetadataFault;
use zarrs_meaning::{NodeCreateError, node_exists};
use zarrs_meta::NodeMetadata;
use zarrs_path::{NodePath, NodePathError};
use zarrs_store::{ReadableStorageTraits, StorageError};

// The block of a group beside the nodes below it, which come in the order of their paths.
#[derive(Drop)]
pub(crate) struct Comparison {
    group: NodePath,
    // What there is to tell of the block itself: its fault, or what is wrong with its keys and its own attributes.
    of_block: Vec<Finding>,
    // The entries that are left, in the order of their paths.
    entries: VecDeque<(NodePath, NodeMetadata)>,
    // The last group that was reached. Each path above it and below the group is a group too.
    last: NodePath,
    // What was told of entries and nodes. An entry without a node is told as stale, until bad documents and others are asked.
    found: Vec<Finding>,
}

// What comes first of the entries that are left, beside a path: one before it or the one at it, or neither.
enum Turn {
    Before((NodePath, NodeMetadata)),
    At((NodePath, NodeMetadata)),
    Behind,
}

impl Comparison {
    // Nothing of the block was compared yet, whose document has other attributes of its group or has not.
    pub(crate) fn new(
        alloc: Global,
        group: NodePath,
        block: ConsolidatedMetadata,
        other: bool,
    ) -> Result<Comparison, AllocError>
        ensures { IfOk result (IsStart block.metadata other group) }
    {
        let ConsolidatedMetadata { metadata } = block;
        let mut of_block = key_findings(alloc, &group, &metadata)?;
        let metadata = without_bad_keys(metadata, &of_block);
        let entries = entries_of(alloc, &group, metadata)?;
        tell(&mut of_block, alloc, &group, &group, own_kind(other))?;
        Ok(Comparison {
            last: group.try_clone(alloc)?,
            group,
            of_block,
            entries: VecDeque::from(entries),
            found: Vec::new(alloc),
        })
    }

    // The block does not read, and there is nothing to compare.
    pub(crate) fn of_fault(
        alloc: Global,
        group: NodePath,
        fault: MetadataFault,
    ) -> Result<Comparison, AllocError>
        ensures { IfOk result (IsOnly (fault_of_block group fault)) }
    {
        let kind = FindingKind::BlockFault(fault);
        let mut of_block = Vec::new(alloc);
        tell(&mut of_block, alloc, &group, &group, Some(kind))?;
        Ok(Comparison {
            last: group.try_clone(alloc)?,
            group,
            of_block,
            entries: VecDeque::new(alloc),
            found: Vec::new(alloc),
        })
    }

    // Whether the group is above a path.
    pub(crate) fn is_above(&self, path: &NodePath) -> bool
        ensures { IsTrue result ↔ IsBelow self.now.group path.now }
    {
        path.is_below(&self.group)
    }

    // Compares a node behind those before, where it is below the group.
    pub(crate) fn take_below(
        &mut self,
        alloc: Global,
        path: &NodePath,
        metadata: &NodeMetadata,
    ) -> Result<(), AllocError>
        ensures { OnOk result (IsNextBelow self.old (path.now, metadata.now) self.new) }
    {
        if self.is_above(path) {
            self.take(alloc, path, metadata)?;
        }
        Ok(())
    }

    // Compares the nodes below the group, which come first among nodes behind it.
    pub(crate) fn take_first(
        &mut self,
        alloc: Global,
        nodes: &[(NodePath, NodeMetadata)],
    ) -> Result<(), AllocError>
        requires ascending { Ascend nodes.now }
        requires behind { StandBehind self.now.group nodes.now }
        ensures { OnOk result (IsNextOf self.old nodes.now self.new) }
    {
        for (path, metadata) in nodes {
            if !self.is_above(path) {
                return Ok(());
            }
            self.take(alloc, path, metadata)?;
        }
        Ok(())
    }

    // Compares a node below the group, behind those before.
    fn take(
        &mut self,
        alloc: Global,
        path: &NodePath,
        metadata: &NodeMetadata,
    ) -> Result<(), AllocError>
        ensures { OnOk result (IsNext self.old (path.now, metadata.now) self.new) }
    {
        loop {
            match self.next_turn(path) {
                Turn::Before(entry) => self.tell_lone(alloc, entry)?,
                Turn::At(entry) => return self.tell_pair(alloc, entry, metadata),
                Turn::Behind => {
                    let kind = Some(FindingKind::Missing);
                    return tell(&mut self.found, alloc, &self.group, path, kind);
                }
            }
        }
    }

    // Takes the first entry that is left, where it is not behind a path.
    fn next_turn(&mut self, path: &NodePath) -> Turn
        ensures unmoved { IsUnmoved self.old self.new }
        ensures turn { IsTurnAt path.now self.old result self.new }
    {
        let Some(first) = self.entries.front() else {
            return Turn::Behind;
        };
        let order = first.0.cmp(path);
        if order == Ordering::Greater {
            return Turn::Behind;
        }
        match self.entries.pop_front() {
            Some(entry) if order == Ordering::Less => Turn::Before(entry),
            Some(entry) => Turn::At(entry),
            None => Turn::Behind,
        }
    }

    // Tells what is wrong with an entry without a node, which was the first that was left.
    fn tell_lone(
        &mut self,
        alloc: Global,
        entry: (NodePath, NodeMetadata),
    ) -> Result<(), AllocError>
        ensures { OnOk result (PassesLone self.old entry self.new) }
    {
        self.tell_entry(alloc, entry, Some(FindingKind::Stale))
    }

    // Tells what is wrong with an entry beside a node, both of which were the first that were left.
    fn tell_pair(
        &mut self,
        alloc: Global,
        entry: (NodePath, NodeMetadata),
        metadata: &NodeMetadata,
    ) -> Result<(), AllocError>
        ensures { OnOk result (PassesPair self.old entry metadata.now self.new) }
    {
        let kind = pair_kind(&entry.1, metadata);
        self.tell_entry(alloc, entry, kind)
    }

    // Tells whether an entry, which was the first that was left, hangs from the group, and what else is wrong with it.
    fn tell_entry(
        &mut self,
        alloc: Global,
        entry: (NodePath, NodeMetadata),
        kind: Option<FindingKind>,
    ) -> Result<(), AllocError>
        ensures { OnOk result (PassesWith self.old entry kind self.new) }
    {
        let reached = hangs_from(alloc, &entry.0, &self.last)?;
        tell(
            &mut self.found,
            alloc,
            &self.group,
            &entry.0,
            cut_kind(reached),
        )?;
        tell(&mut self.found, alloc, &self.group, &entry.0, kind)?;
        self.pass(reached, entry);
        Ok(())
    }

    // Passes an entry, which may be the last group that was reached.
    fn pass(&mut self, reached: bool, entry: (NodePath, NodeMetadata))
        ensures { Passes self.old reached entry self.new }
    {
        if reached && entry.1.is_group() {
            self.last = entry.0;
        }
    }

    // All that there is to tell, where there are no more nodes.
    pub(crate) fn finish<S: ReadableStorageTraits>(
        mut self,
        alloc: Global,
        storage: &S,
        bad: &BadDocuments,
    ) -> Result<Vec<Finding>, StorageError>
        ensures ok { IfOk result
            (λ found. IsEnd (HasNodeKey (S.contents storage.now)) self bad.now found.items) }
        ensures err { IfErr result (IsStoreError (S.can_fail storage.now)) }
    {
        self.tell_rest(alloc)?;
        put_settled(alloc, storage, self.of_block, self.found, bad)
    }

    // What there is to tell of a path and of what is below it, and nothing of the block itself, where there are no more nodes.
    pub(crate) fn finish_from<S: ReadableStorageTraits>(
        mut self,
        alloc: Global,
        storage: &S,
        path: &NodePath,
        bad: &BadDocuments,
    ) -> Result<Vec<Finding>, StorageError>
        ensures ok { IfOk result
            (λ found. IsEndFrom path.now (HasNodeKey (S.contents storage.now)) self bad.now
            found.items) }
        ensures err { IfErr result (IsStoreError (S.can_fail storage.now)) }
    {
        self.tell_rest(alloc)?;
        let mut found = self.found;
        found.retain(|finding| is_at_or_above(path, &finding.path));
        put_settled(alloc, storage, Vec::new(alloc), found, bad)
    }

    // Tells what is wrong with the entries that are left, where there are no more nodes.
    fn tell_rest(&mut self, alloc: Global) -> Result<(), AllocError>
        ensures { OnOk result (IsAtEnd self.old self.new) }
    {
        while let Some(entry) = self.entries.pop_front() {
            self.tell_lone(alloc, entry)?;
        }
        Ok(())
    }
}

// Puts what becomes of findings behind others, once the bad documents are known.
fn put_settled<S: ReadableStorageTraits>(
    alloc: Global,
    storage: &S,
    mut told: Vec<Finding>,
    found: Vec<Finding>,
    bad: &BadDocuments,
) -> Result<Vec<Finding>, StorageError>
    ensures ok { IfOk result
        (λ whole. PutsSettled (HasBad bad.now) (HasNodeKey (S.contents storage.now))
        told.items found.items whole.items) }
    ensures err { IfErr result (IsStoreError (S.can_fail storage.now)) }
{
    for finding in found {
        if let Some(left) = settled(alloc, storage, finding, bad)? {
            told.push(left)?;
        }
    }
    Ok(told)
}

// What becomes of a finding: of an entry without a node nothing, where it is at or below a bad document, and else it may be unreached.
fn settled<S: ReadableStorageTraits>(
    alloc: Global,
    storage: &S,
    finding: Finding,
    bad: &BadDocuments,
) -> Result<Option<Finding>, StorageError>
    ensures ok { IfOk result
        (IsSettled (HasBad bad.now) (HasNodeKey (S.contents storage.now)) finding) }
    ensures err { IfErr result (IsStoreError (S.can_fail storage.now)) }
{
    let Finding { group, path, kind } = finding;
    match kind {
        FindingKind::Stale => {
            if bad.spoils(&path) {
                return Ok(None);
            }
            let kind = if node_exists(alloc, storage, &path)? {
                FindingKind::Unreached
            } else {
                FindingKind::Stale
            };
            Ok(Some(Finding { group, path, kind }))
        }
        kind => Ok(Some(Finding { group, path, kind })),
    }
}

// The entries of a block whose keys are valid, in the order of paths.
fn entries_of(
    alloc: Global,
    group: &NodePath,
    metadata: ConsolidatedMetadataMetadata,
) -> Result<Vec<(NodePath, NodeMetadata)>, AllocError>
    requires { HasValidKeys metadata }
    ensures entries { IfOk result (λ all. Lists (Entries metadata group.now) all.items) }
    ensures ascending { IfOk result (λ all. Ascend all.items) }
{
    match expand_consolidated_metadata(alloc, group, ConsolidatedMetadata { metadata }) {
        Ok(entries) => Ok(entries),
        Err(NodeCreateError::NodePathError(NodePathError::Invalid(_))) => unreachable!(),
        Err(_) => Err(AllocError),
    }
}

// Whether the path without its last name is the group or above it.
fn hangs_from(alloc: Global, path: &NodePath, group: &NodePath) -> Result<bool, AllocError>
    ensures { IfOk result (λ hangs. IsTrue hangs ↔ HangsFrom group.now path.now) }
{
    match path.parent(alloc) {
        Ok(Some(parent)) => Ok(is_at_or_above(&parent, group)),
        Ok(None) => Ok(false),
        Err(_) => Err(AllocError),
    }
}

// Whether a path is another or above it.
fn is_at_or_above(path: &NodePath, other: &NodePath) -> bool
    ensures { IsTrue result ↔ IsAtOrAbove path.now other.now }
{
    *other == *path || other.is_below(path)
}

// What is wrong with an entry that is reachable or not.
fn cut_kind(reached: bool) -> Option<FindingKind>
    ensures { result ≡ cut_kind reached }
{
    if reached {
        None
    } else {
        Some(FindingKind::Unreachable)
    }
}

// What is wrong with a block whose document has other attributes of its group or has not.
fn own_kind(other: bool) -> Option<FindingKind>
    ensures { result ≡ own_kind other }
{
    if other {
        Some(FindingKind::OwnAttributes)
    } else {
        None
    }
}

// What is wrong with an entry beside a node.
fn pair_kind(metadata: &NodeMetadata, other: &NodeMetadata) -> Option<FindingKind>
    ensures { IsPairKind metadata.now other.now result }
{
    if is_same_metadata(metadata, other) {
        None
    } else {
        Some(FindingKind::Differs)
    }
}

// Puts a finding behind those told, if there is one.
pub(crate) fn tell(
    found: &mut Vec<Finding>,
    alloc: Global,
    group: &NodePath,
    path: &NodePath,
    kind: Option<FindingKind>,
) -> Result<(), AllocError>
    ensures { OnOk result
        (found.new.items ≡ found.old.items ++ findings_at group.now path.now kind) }
{
    if let Some(kind) = kind {
        let group = group.try_clone(alloc)?;
        let path = path.try_clone(alloc)?;
        found.push(Finding { group, path, kind })?;
    }
    Ok(())
}
