//! The texts of a hierarchy and of a consolidated block.
ghost use Rattle.std.specs.Prelude.{◌≡◌, ◌++◌, ◌∷◌, ◌⊎◌, [], false, IfOk, IfErr, IfSome, IfNone, OnOk};
ghost use Rattle.serde_json.specs.Written.{has_float};
ghost use Rattle.zarrs_fault.specs.declared.numbers.Numbers.TheVariants.{Whole};
ghost use Rattle.zarrs_path.specs.Paths.{relative_names};
ghost use Rattle.zarrs_block.specs.Block.{HasPlainNodesIn, block_tree};
ghost use Rattle.zarrs_group.specs.StoredTexts.{pretty_text};
ghost use Rattle.zarrs_tool.specs.Output.{IsBlockText};
ghost use Rattle.zarrs_config.specs.declared.version.UseConsolidatedMetadata.TheVariants.{Auto};
ghost use Rattle.zarrs_hierarchy.specs.OpeningHierarchies.{IsOpenedTree};
ghost use Rattle.zarrs_tool.specs.StepsOfRuns.{HasFractionAt, IsBlockFault, IsFractionFault, IsTreeFault};

use crate::fault::ToolFault;
use log::Log;
use std::alloc::{AllocError, Global};
use zarrs_block::{ConsolidatedMetadata, ConsolidatedMetadataMetadata};
use zarrs_config::{Config, MetadataRetrieveVersion};
use zarrs_hierarchy::tree_at;
use zarrs_meta::WrittenDocument;
use zarrs_node::{Node, consolidate_nodes_of};
use zarrs_path::NodePath;
use zarrs_store::{ListableStorageTraits, Numbers, ReadableStorageTraits};

/// The text of the hierarchy at a path, from that path on.
///
/// # Errors
/// `Node` where opening is refused; `OutOfMemory`.
pub(crate) fn tree_text<L: Log, S: ReadableStorageTraits + ListableStorageTraits>(
    log: &L,
    alloc: Global,
    store: &S,
    base: &NodePath,
) -> Result<Vec<u8>, ToolFault>
    ensures ok { IfOk result
        (λ text. IsOpenedTree (S.contents store.now) MetadataRetrieveVersion.Default
        Auto base.now text.items) }
    ensures err { IfErr result
        (IsTreeFault (S.can_fail store.now) (S.contents store.now) base.now) }
{
    let version = MetadataRetrieveVersion::Default;
    let text = tree_at(log, alloc, store, base, &version, &Config::new())?;
    Ok(text.into_bytes())
}

/// The block of the nodes that a listing finds below the group at a path, in the pretty layout,
/// and a newline.
///
/// # Errors
/// `Node` where opening is refused; `NotAGroup` where the path is an array; `Fraction` where a node
/// of the block has a number with a fraction; `OutOfMemory`.
#[tactic(auto, using(crate::proofs::Blocks::node_refused, crate::proofs::Blocks::listing_refused, crate::proofs::Blocks::array_means))]
pub(crate) fn block_text<L: Log, S: ReadableStorageTraits + ListableStorageTraits>(
    log: &L,
    alloc: Global,
    store: &S,
    base: &NodePath,
) -> Result<Vec<u8>, ToolFault>
    ensures ok { IfOk result (λ text. IsBlockText (S.contents store.now) base.now text.items) }
    ensures err { IfErr result
        (IsBlockFault (S.can_fail store.now) (S.contents store.now) base.now) }
{
    let _valid = base.as_str();
    let version = MetadataRetrieveVersion::Default;
    let found = Node::get_metadata(alloc, store, base, &version)?;
    if !found.is_group() {
        return Err(ToolFault::NotAGroup);
    }
    drop(found);
    let metadata = consolidate_nodes_of(log, alloc, store, base, &version)?;
    check_numbers(alloc, store.numbers(), base, &metadata)?;
    let text = pretty_line(alloc, &ConsolidatedMetadata { metadata })?;
    Ok(text)
}

// The pretty layout of a block, and a newline.
fn pretty_line(alloc: Global, block: &ConsolidatedMetadata) -> Result<Vec<u8>, AllocError>
    ensures layout { IfOk result (λ text. has_float (block_tree block.now.metadata) ≡ false
        → text.items ≡ pretty_text (block_tree block.now.metadata) ++ 10 ∷ []) }
{
    let mut text = block.to_pretty_text(alloc)?;
    text.push('\n')?;
    Ok(text.into_bytes())
}

// Refuses a block with a fraction. The nodes of a store of whole numbers have none, and are not looked at.
fn check_numbers(
    alloc: Global,
    numbers: Numbers,
    base: &NodePath,
    block: &ConsolidatedMetadataMetadata,
) -> Result<(), ToolFault>
    ensures ok { OnOk result ((numbers ≡ Whole) ⊎ HasPlainNodesIn Whole block.now) }
    ensures err { IfErr result (IsFractionFault base.now block.now) }
{
    match numbers {
        Numbers::Whole => Ok(()),
        Numbers::Any => check_whole(alloc, base, block),
    }
}

// Refuses a block with a fraction, by the path of the first node that has one.
fn check_whole(
    alloc: Global,
    base: &NodePath,
    block: &ConsolidatedMetadataMetadata,
) -> Result<(), ToolFault>
    ensures ok { OnOk result (HasPlainNodesIn Whole block.now) }
    ensures err { IfErr result (IsFractionFault base.now block.now) }
{
    match first_fraction(block) {
        Some(key) => Err(ToolFault::Fraction(path_below(alloc, base, key)?)),
        None => Ok(()),
    }
}

// The key of the first node of a block that has a fraction.
fn first_fraction(block: &ConsolidatedMetadataMetadata) -> Option<&str>
    ensures some { IfSome result (λ key. HasFractionAt block.now key.now) }
    ensures none { IfNone result (HasPlainNodesIn Whole block.now) }
{
    for (key, node) in block.as_map().iter() {
        if !node.is_plain() {
            return Some(key.as_str());
        }
    }
    None
}

// The path of the node at a key of a block. Its names are names, so that only memory can be wanting.
fn path_below(alloc: Global, base: &NodePath, key: &str) -> Result<NodePath, AllocError>
    ensures { IfOk result (λ path. path ≡ base.now ++ relative_names key.now) }
{
    match base.join(alloc, key) {
        Ok(path) => Ok(path),
        Err(_) => Err(AllocError),
    }
}
