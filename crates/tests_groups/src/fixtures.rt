//! Groups with blocks, the calls on groups that change a store, and what a store holds, for tests.
//!
//! What makes a group and what changes it are apart: few calls that may fail stand where a group is held, which is dropped behind each.
use crate::fixture_rows::entries_in;
use log::sink::Discard;
use std::alloc::{AllocError, Global};
use std::test::Fail;
use tests_fixtures::config_of;
use tests_support::refusal;
use zarrs_block::{ConsolidatedMetadata, ConsolidatedMetadataMetadata};
use zarrs_config::{
    Config, GroupMetadataOptions, MetadataConvertVersion, MetadataEraseVersion,
    UseConsolidatedMetadata,
};
use zarrs_group::{Group, GroupBuilder, GroupCreateError};
use zarrs_meaning::NodeCreateError;
use zarrs_meta::{Document, NodeMetadata, WrittenDocument};
use zarrs_node::Node;
use zarrs_store::{
    ListableStorageTraits, MemoryStore, MetadataFault, ReadableStorageTraits, StorageError,
    WritableStorageTraits,
};

/// The fault of a document as a refusal.
pub(crate) fn refused(alloc: Global, fault: MetadataFault) -> GroupCreateError {
    match fault {
        MetadataFault::OutOfMemory => GroupCreateError::OutOfMemory,
        fault => match format!(in alloc; "{fault}") {
            Ok(text) => GroupCreateError::StorageError(StorageError::Other(text)),
            Err(_) => GroupCreateError::OutOfMemory,
        },
    }
}

/// Whether the refusal that a text ends with is out of memory, by its variant.
pub(crate) fn is_out_of_memory(text: &str) -> bool {
    text.ends_with("OutOfMemory: out of memory") || text.ends_with("OutOfMemory): out of memory")
}

/// The group that a document is, at a path. That of an array is refused as none.
pub(crate) fn group_of(
    alloc: Global,
    path: &str,
    document: &str,
) -> Result<Group, GroupCreateError> {
    match NodeMetadata::from_bytes(alloc, document.as_bytes()) {
        Ok(NodeMetadata::Group(metadata)) => {
            Group::new_with_metadata(alloc, path, metadata, &Config::new())
        }
        Ok(NodeMetadata::Array(_)) => Err(GroupCreateError::MissingMetadata),
        Err(fault) => Err(refused(alloc, fault)),
    }
}

// Stores the group that a builder makes at a path.
fn store_built(
    builder: &GroupBuilder,
    alloc: Global,
    store: &mut MemoryStore,
    path: &str,
) -> Result<(), GroupCreateError> {
    let group = builder.build(alloc, path, &Config::new())?;
    Ok(group.store_metadata(alloc, store)?)
}

/// Stores the groups that a builder of nothing makes at these paths, with a blank between.
pub(crate) fn store_built_at(
    alloc: Global,
    store: &mut MemoryStore,
    paths: &str,
) -> Result<(), GroupCreateError> {
    let builder = GroupBuilder::new(alloc);
    for path in paths.split(' ') {
        store_built(&builder, alloc, store, path)?;
    }
    Ok(())
}

// Puts the node that a document is at a key.
fn put_node(
    nodes: &mut ConsolidatedMetadataMetadata,
    alloc: Global,
    key: &str,
    document: &str,
) -> Result<(), GroupCreateError> {
    let key = String::from_str(alloc, key)?;
    match NodeMetadata::from_bytes(alloc, document.as_bytes()) {
        Ok(node) => Ok(nodes.insert(key, node)?),
        Err(fault) => Err(refused(alloc, fault)),
    }
}

/// The block with the documents of a list.
pub(crate) fn block_of(
    alloc: Global,
    list: &str,
) -> Result<ConsolidatedMetadata, GroupCreateError> {
    let entries = entries_in(alloc, list)?;
    let mut metadata = ConsolidatedMetadataMetadata::new(alloc);
    for (key, document) in &entries {
        put_node(&mut metadata, alloc, key, document)?;
    }
    Ok(ConsolidatedMetadata { metadata })
}

/// What a call on nodes answers, with its refusal as that of a group.
pub(crate) fn of_group<T>(
    alloc: Global,
    answer: Result<T, NodeCreateError>,
) -> Result<T, GroupCreateError> {
    match answer {
        Ok(value) => Ok(value),
        Err(error) => Err(GroupCreateError::from_node_error(alloc, error)),
    }
}

/// What the call answers that sets the block of a group, or removes it.
pub(crate) fn set(
    group: &mut Group,
    alloc: Global,
    block: Option<ConsolidatedMetadata>,
) -> Result<(), NodeCreateError> {
    group.set_consolidated_metadata(alloc, block)?;
    Ok(())
}

/// Sets the block of a list.
pub(crate) fn set_list(
    group: &mut Group,
    alloc: Global,
    list: &str,
) -> Result<(), GroupCreateError> {
    let block = block_of(alloc, list)?;
    of_group(alloc, set(group, alloc, Some(block)))
}

// The block that the node at a path makes of all that is listed below it.
fn block_at<S: ReadableStorageTraits + ListableStorageTraits>(
    alloc: Global,
    store: &S,
    path: &str,
) -> Result<Option<ConsolidatedMetadata>, NodeCreateError> {
    let config = config_of(UseConsolidatedMetadata::Never);
    let node = Node::open(&Discard, alloc, store, path, &config)?;
    match node.consolidate_metadata(alloc)? {
        Some(metadata) => Ok(Some(ConsolidatedMetadata { metadata })),
        None => Ok(None),
    }
}

// Sets the block of all that is listed below a path.
fn set_listed<S: ReadableStorageTraits + ListableStorageTraits>(
    group: &mut Group,
    alloc: Global,
    store: &S,
    path: &str,
) -> Result<(), NodeCreateError> {
    let block = block_at(alloc, store, path)?;
    set(group, alloc, block)
}

/// The group at a path of a store, with the block of all that is listed below it set.
pub(crate) fn consolidated<S: ReadableStorageTraits + ListableStorageTraits>(
    alloc: Global,
    store: &S,
    path: &str,
) -> Result<Group, GroupCreateError> {
    let mut group = Group::open(alloc, store, path, &Config::new())?;
    let answer = set_listed(&mut group, alloc, store, path);
    of_group(alloc, answer)?;
    Ok(group)
}

/// A group in words, and the block that it holds, where it holds one.
pub(crate) fn group_text(group: &Group, alloc: Global) -> Result<String, AllocError> {
    let text = group.to_text(alloc)?;
    match group.consolidated_metadata(alloc)? {
        Some(block) => {
            let block = block.to_value(alloc)?.to_string(alloc)?;
            format!(in alloc; "{text} and the block {block}")
        }
        None => Ok(text),
    }
}

/// The groups with their blocks, one a line.
pub(crate) fn groups_text(groups: &Vec<Group>, alloc: Global) -> Result<String, AllocError> {
    let mut text = String::new(alloc);
    for group in groups {
        let line = group_text(group, alloc)?;
        write!(text, "{line}\n")?;
    }
    Ok(text)
}

/// The keys of a store, each with its bytes, one a line.
pub(crate) fn held_text(alloc: Global, store: &MemoryStore) -> Result<String, StorageError> {
    let mut text = String::new(alloc);
    let keys = store.list(alloc)?;
    for key in &keys {
        let bytes = store.get(alloc, key)?.unwrap_or(Vec::new(alloc));
        let bytes = String::from_utf8_lossy(alloc, bytes.as_slice())?;
        write!(text, "{key} {bytes}\n")?;
    }
    Ok(text)
}

/// What a store holds after a call that changes it; where the call is refused, the refusal and a mark before that.
pub(crate) fn left_text(
    alloc: Global,
    answer: Result<(), StorageError>,
    mark: &str,
    store: &MemoryStore,
) -> Result<String, StorageError> {
    let held = held_text(alloc, store)?;
    match answer {
        Ok(()) => Ok(held),
        Err(error) => {
            let error = refusal(alloc, &error)?;
            Ok(format!(in alloc; "{error}{mark}{held}")?)
        }
    }
}

/// Asks whether a text is the one that is wanted.
pub(crate) fn is_same(found: &str, wanted: &str) -> Result<(), Fail> {
    if found == wanted {
        Ok(())
    } else {
        Err(Fail::new(format_args!("found {found} in place of {wanted}")))
    }
}

/// A call on a group that changes a store.
#[derive(Clone, Copy, Drop)]
pub(crate) enum Step {
    Store,
    StoreAs(MetadataConvertVersion),
    Erase,
    EraseAs(MetadataEraseVersion),
}

/// What a call on a group answers that changes a store.
pub(crate) fn done<S: WritableStorageTraits>(
    alloc: Global,
    group: &Group,
    store: &mut S,
    step: Step,
) -> Result<(), StorageError> {
    match step {
        Step::Store => group.store_metadata(alloc, store),
        Step::StoreAs(version) => {
            let options = GroupMetadataOptions::default().with_metadata_convert_version(version);
            group.store_metadata_opt(alloc, store, &options)
        }
        Step::Erase => group.erase_metadata(alloc, store),
        Step::EraseAs(version) => group.erase_metadata_opt(alloc, store, version),
    }
}
