//! The walk over the nodes below a path.
ghost use Rattle.std.specs.Prelude.{◌≡◌, [], ◌++◌, Ok, false, true, IfOk, IfErr, OnOk, ◌⊎◌, IsTrue, IsFalse};
ghost use Rattle.zarrs_store.specs.Segments.{IsPrefix};
ghost use Rattle.zarrs_store.specs.Contents.{Lists};
ghost use Rattle.zarrs_path.specs.Paths.{IsPath};
ghost use Rattle.zarrs_meaning.specs.Meaning.{meaning, bad};
ghost use Rattle.zarrs_meaning.specs.Refusals.{IsExcused, IsInvalidPath, IsExcusedOr};
ghost use Rattle.zarrs_node.specs.StepsOfTrees.{own_node, paths_passed, is_group_found};
ghost use Rattle.zarrs_node.specs.Nodes.{Nodes, Ignored, ShowsBad, HasNothingBad};
ghost use Rattle.zarrs_node.specs.Faults.{Faults, FaultsAscend, PathsAscend};
ghost use Rattle.zarrs_meaning.specs.Refusals.{Finds};
ghost use Rattle.zarrs_node.specs.Sinks.{TakesAll, TakesForest};
ghost use Rattle.zarrs_node.specs.declared.descent.Child.TheVariants.{Told};
ghost use Rattle.zarrs_node.specs.StepsOfTheWalk.{AreOnTop, IsPathAndOne, IsReadOrTold};

use crate::fault::NodeFault;
use crate::sink::NodeSink;
use std::alloc::{AllocError, Global};
use zarrs_config::MetadataRetrieveVersion;
use zarrs_meaning::{LastDocuments, NodeCreateError, find_metadata};
use zarrs_meta::NodeMetadata;
use zarrs_path::NodePath;
use zarrs_store::{
    ListableStorageTraits, ReadableStorageTraits, StorageError, StorePrefix, discover_children,
};

/// The paths without documents that a walk below a path passed over with all below them, each once, where each node that it found was
/// handed to a sink: parents before children, siblings ascending. Where the walk is not recursive, these are the nodes directly below
/// the path. The path itself is not asked for a document. After a refusal the sink has some of the nodes.
///
/// # Errors
///
/// - `StorageError::InvalidMetadata` where a document on the way does not read, with its key and the fault.
/// - `MetadataVersionMismatch` where a document of version 2 stands at `zarr.json`.
/// - `StorageError::Other` with `invalid node path ` and the child's text where a child's name is made of periods only.
/// - `StorageError::Fault` of a store that can fail, and `OutOfMemory` when out of memory.
///
/// Source: `zarrs::node::get_child_nodes_opt`, without a logger, its nodes one by one.
pub fn walk_nodes<S: ReadableStorageTraits + ListableStorageTraits, K: NodeSink>(
    alloc: Global,
    storage: &S,
    path: &NodePath,
    recursive: bool,
    version: &MetadataRetrieveVersion,
    sink: &mut K,
) -> Result<Vec<NodePath>, NodeCreateError>
    ensures takes { IfOk result
        (λ _. TakesForest K.takes sink.old sink.new path.now
        (Nodes (S.contents storage.now) version.now recursive path.now)) }
    ensures ignored { IfOk result
        (λ ignored. Lists
        (Ignored (S.contents storage.now) version.now recursive path.now) ignored.items) }
    ensures clean { IfOk result
        (λ _. HasNothingBad (S.contents storage.now) version.now recursive path.now) }
    ensures refused { IfErr result
        (IsExcusedOr (S.can_fail storage.now)
        (ShowsBad (S.contents storage.now) version.now recursive path.now)) }
{
    let mut notes = Notes::new(alloc, false);
    let walked = walk(storage, path, recursive, version, &mut notes, sink);
    drop(notes);
    walked
}

/// What a walk that goes on past what is bad passed over.
///
/// Source: own.
/// <https://zarr-specs.readthedocs.io/en/latest/v3/core/index.html#hierarchy>
#[derive(Debug, Drop)]
pub struct WalkedPast {
    /// The paths without documents, in the order of paths, each once.
    pub ignored: Vec<NodePath>,
    /// What is bad, by the names of its path, in the order of paths, each path once.
    pub faults: Vec<(StorePrefix, NodeFault)>,
}

/// Hands each node below a path to a sink as [`walk_nodes`] does, at all levels, and goes on past what is bad: a document that does not read,
/// and a child whose name is made of periods only. Each is told with its names, and nothing is looked for below it. The path itself is not
/// asked for a document. After a refusal the sink has some of the nodes.
///
/// # Errors
///
/// `StorageError::Fault` of a store that can fail, and `OutOfMemory` when out of memory.
///
/// Source: own.
pub fn walk_past_faults<S: ReadableStorageTraits + ListableStorageTraits, K: NodeSink>(
    alloc: Global,
    storage: &S,
    path: &NodePath,
    version: &MetadataRetrieveVersion,
    sink: &mut K,
) -> Result<WalkedPast, NodeCreateError>
    ensures takes { IfOk result
        (λ _. TakesForest K.takes sink.old sink.new path.now
        (Nodes (S.contents storage.now) version.now true path.now)) }
    ensures ignored { IfOk result
        (λ w. Lists (Ignored (S.contents storage.now) version.now true path.now) w.ignored.items) }
    ensures ignored_ascend { IfOk result (λ w. PathsAscend w.ignored.items) }
    ensures faults { IfOk result
        (λ w. Lists (Faults (S.contents storage.now) version.now true path.now) w.faults.items) }
    ensures faults_ascend { IfOk result (λ w. FaultsAscend w.faults.items) }
    ensures excused { IfErr result (IsExcused (S.can_fail storage.now)) }
{
    let mut notes = Notes::new(alloc, true);
    let walked = walk(storage, path, true, version, &mut notes, sink);
    let faults = notes.into_faults();
    let ignored = walked?;
    Ok(WalkedPast { ignored, faults })
}

// What a walk keeps beside what it tells: where its memory comes from, the documents that were read last, and what was bad, where it goes on
// past that.
#[derive(Drop)]
struct Notes {
    alloc: Global,
    last: LastDocuments,
    goes_on: bool,
    faults: Vec<(StorePrefix, NodeFault)>,
}

impl Notes {
    // Nothing was read yet.
    fn new(alloc: Global, goes_on: bool) -> Notes
        ensures none { result.faults.items ≡ [] }
        ensures goes_on { result.goes_on ≡ goes_on }
    {
        Notes {
            alloc,
            last: LastDocuments::new(alloc),
            goes_on,
            faults: Vec::new(alloc),
        }
    }

    // What was bad.
    fn into_faults(self) -> Vec<(StorePrefix, NodeFault)>
        ensures { result.items ≡ self.faults.items }
    {
        let Notes { last, faults, .. } = self;
        drop(last);
        faults
    }
}

// What `walk_nodes` and `walk_past_faults` answer. The prefixes that are still to be read stand on a stack, those of one path with the first of them on
// top.
fn walk<S: ReadableStorageTraits + ListableStorageTraits, K: NodeSink>(
    storage: &S,
    path: &NodePath,
    recursive: bool,
    version: &MetadataRetrieveVersion,
    notes: &mut Notes,
    sink: &mut K,
) -> Result<Vec<NodePath>, NodeCreateError>
    requires { notes.old.faults.items ≡ [] }
    ensures takes { IfOk result
        (λ _. TakesForest K.takes sink.old sink.new path.now
        (Nodes (S.contents storage.now) version.now recursive path.now)) }
    ensures ignored { IfOk result
        (λ ignored. Lists
        (Ignored (S.contents storage.now) version.now recursive path.now) ignored.items) }
    ensures ignored_ascend { IfOk result (λ ignored. PathsAscend ignored.items) }
    ensures faults { IfOk result
        (λ _. Lists (Faults (S.contents storage.now) version.now recursive path.now)
        notes.new.faults.items) }
    ensures faults_ascend { IfOk result (λ _. FaultsAscend notes.new.faults.items) }
    ensures none { IfOk result (λ _. IsFalse notes.old.goes_on → notes.new.faults.items ≡ []) }
    ensures refused { IfErr result
        (IsExcusedOr (S.can_fail storage.now)
        (λ e. IsFalse notes.old.goes_on
        × ShowsBad (S.contents storage.now) version.now recursive path.now e)) }
{
    let alloc = notes.alloc;
    let base = path.to_prefix(alloc)?;
    let mut pending = Vec::new(alloc);
    push_children(alloc, storage, &base, &mut pending)?;
    let mut ignored = Vec::new(alloc);
    while let Some(prefix) = pending.pop() {
        let Child::Read(found) = read_or_tell(alloc, storage, &prefix, version, notes)? else {
            continue;
        };
        if recursive && is_group(&found) {
            push_children(alloc, storage, &prefix, &mut pending)?;
        }
        let child = NodePath::from_valid_prefix(prefix)?;
        tell(child, found, sink, &mut ignored)?;
    }
    Ok(ignored)
}

// Hands a node to the sink, or puts a path that was passed over behind the others.
fn tell<K: NodeSink>(
    path: NodePath,
    found: Option<NodeMetadata>,
    sink: &mut K,
    ignored: &mut Vec<NodePath>,
) -> Result<(), AllocError>
    ensures nodes { OnOk result (TakesAll K.takes sink.old (own_node path found) sink.new) }
    ensures ignored { OnOk result
        (ignored.new.items ≡ ignored.old.items ++ paths_passed path found []) }
{
    match found {
        Some(metadata) => sink.take(path, metadata),
        None => Ok(ignored.push(path)?),
    }
}

// Puts the prefixes of the children of a prefix on the stack, the first of them on top.
fn push_children<S: ListableStorageTraits>(
    alloc: Global,
    storage: &S,
    prefix: &StorePrefix,
    pending: &mut Vec<StorePrefix>,
) -> Result<(), NodeCreateError>
    ensures ok { OnOk result
        (AreOnTop (S.contents storage.now) prefix.now pending.old.items pending.new.items) }
    ensures err { IfErr result (IsExcused (S.can_fail storage.now)) }
{
    let mut children = discover_children(alloc, storage, prefix)?;
    children.reverse();
    pending.append(&mut children)?;
    Ok(())
}

// Whether what was found is a group.
fn is_group(found: &Option<NodeMetadata>) -> bool
    ensures { result ≡ is_group_found found.now }
{
    match found {
        Some(metadata) => metadata.is_group(),
        None => false,
    }
}

// What became of a child on the way.
#[derive(Drop)]
enum Child {
    // It was read: it has this metadata, or no document.
    Read(Option<NodeMetadata>),
    // It is bad, and its fault was told.
    Told,
}

// What a path and one name more means, given as a prefix; where that is bad and the walk goes on, it is told.
fn read_or_tell<S: ReadableStorageTraits>(
    alloc: Global,
    storage: &S,
    prefix: &StorePrefix,
    version: &MetadataRetrieveVersion,
    notes: &mut Notes,
) -> Result<Child, NodeCreateError>
    requires { IsPathAndOne prefix.now }
    ensures read { IfOk result
        (λ child. IsReadOrTold (S.can_fail storage.now)
        (S.contents storage.now) version.now prefix.now child notes.old.faults.items
        notes.new.faults.items) }
    ensures told { IfOk result (λ child. child ≡ Told → IsTrue notes.old.goes_on) }
    ensures goes_on { notes.new.goes_on ≡ notes.old.goes_on }
    ensures refused { IfErr result
        (IsExcusedOr (S.can_fail storage.now)
        (λ e. IsFalse notes.old.goes_on
        × ((IsInvalidPath prefix.now e
        × (¬ IsPath prefix.now))
        ⊎ (IsPath prefix.now
        × (meaning (S.contents storage.now) version.now prefix.now ≡ bad e))))) }
    ensures segments { IsPrefix prefix.now }
{
    match read_child(alloc, storage, prefix, version, &mut notes.last) {
        Ok(found) => Ok(Child::Read(found)),
        Err(refusal) if notes.goes_on => {
            let fault = NodeFault::of(refusal)?;
            notes.faults.push((prefix.try_clone(alloc)?, fault))?;
            Ok(Child::Told)
        }
        Err(refusal) => Err(refusal),
    }
}

// The metadata of a path and one name more, given as a prefix, or none where it has no document.
fn read_child<S: ReadableStorageTraits>(
    alloc: Global,
    storage: &S,
    prefix: &StorePrefix,
    version: &MetadataRetrieveVersion,
    last: &mut LastDocuments,
) -> Result<Option<NodeMetadata>, NodeCreateError>
    requires above { IsPathAndOne prefix.now }
    ensures valid { IfOk result (λ _. IsPath prefix.now) }
    ensures found { IfOk result
        (λ found. Finds (S.can_fail storage.now) (Ok found)
        (meaning (S.contents storage.now) version.now prefix.now)) }
    ensures refused { IfErr result
        (IsExcusedOr (S.can_fail storage.now)
        (λ e. (IsInvalidPath prefix.now e
        × (¬ IsPath prefix.now))
        ⊎ (IsPath prefix.now
        × (meaning (S.contents storage.now) version.now prefix.now ≡ bad e)))) }
    ensures segments { IsPrefix prefix.now }
{
    let _segments = prefix.as_str();
    if !NodePath::ends_in_name(prefix) {
        return Err(invalid_child(alloc, prefix.try_clone(alloc)?)?);
    }
    find_metadata(alloc, storage, prefix, version, last)
}

// The refusal of a child whose name is made of periods only.
fn invalid_child(alloc: Global, prefix: StorePrefix) -> Result<NodeCreateError, AllocError>
    ensures { IfOk result (IsInvalidPath prefix) }
{
    let path = NodePath::text_of(prefix)?;
    let text = format!(in alloc; "invalid node path {path}")?;
    Ok(NodeCreateError::StorageError(StorageError::Other(text)))
}
