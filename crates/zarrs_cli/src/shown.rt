//! The nodes of a hierarchy as lines: in a tree, and in a list. A line is made when its node is read, and no node is kept.
ghost use Rattle.std.specs.Prelude.{◌≡◌, ◌*◌, ℕ, List, [], ◌∷◌, ◌++◌, IfOk, IfErr, OnOk, replicate, string_bytes};
ghost use Rattle.zarrs_node.specs.Lines.{named_line};
ghost use Rattle.zarrs_path.specs.Paths.{path_text};
ghost use Rattle.zarrs_config.specs.declared.version.UseConsolidatedMetadata.TheVariants.{Never};
ghost use Rattle.zarrs_meaning.specs.Refusals.{IsExcusedOr};
ghost use Rattle.zarrs_node.specs.OpeningNodes.{RefusesOpening};
ghost use Rattle.zarrs_hierarchy.specs.Sinks.{TakesOpened};
ghost use Rattle.zarrs_cli.specs.NodeLines.{IsShown, line_at, list_line, shown_name, tree_line};
ghost use Rattle.zarrs_cli.specs.LineSinks.{AppendsTreeLine, AppendsListLine};

use crate::escapes::push_line;
use log::Log;
use std::alloc::{AllocError, Global};
use zarrs_config::{Config, MetadataRetrieveVersion, UseConsolidatedMetadata};
use zarrs_hierarchy::{depth, walk_hierarchy};
use zarrs_meaning::NodeCreateError;
use zarrs_meta::NodeMetadata;
use zarrs_node::{LISTING, NodeLine, NodeSink, warn_ignored};
use zarrs_path::NodePath;
use zarrs_store::{ListableStorageTraits, ReadableStorageTraits};

/// The tree of a store from a path on: a line for the node at the path, by its path, and one for each node below it, two spaces deeper for each level, by its
/// last name. An array's line has its shape and its data type.
///
/// # Errors
/// The refusals of [`Hierarchy::open_opt`], but for those of the path's text.
///
/// Source: `zarrs::hierarchy::Hierarchy::tree_of`; that an array at the path has a line with its shape and data type is own.
#[tactic(auto, using(crate::proofs::LineSinks::tree_shown))]
pub(crate) fn tree_text<L: Log, S: ReadableStorageTraits + ListableStorageTraits>(
    log: &L,
    alloc: Global,
    store: &S,
    base: &NodePath,
    policy: UseConsolidatedMetadata,
) -> Result<String, NodeCreateError>
    ensures ok { IfOk result
        (λ text. IsShown (S.contents store.now) policy base.now (tree_line base.now)
        (string_bytes text)) }
    ensures err { IfErr result
        (IsExcusedOr (S.can_fail store.now)
        (RefusesOpening (S.contents store.now) MetadataRetrieveVersion.Default policy
        (path_text base.now))) }
{
    let mut lines = TreeLines {
        alloc,
        above: depth(base),
        text: String::new(alloc),
    };
    show(log, alloc, store, base, policy, &mut lines)?;
    Ok(lines.text)
}

/// The paths of the nodes that a listing of a store finds at a path and below it, a line each, in the order of paths; of an array only its own.
///
/// # Errors
/// The refusals of [`Hierarchy::open_opt`], but for those of the path's text.
///
/// Source: own, in place of `zarrs::node::get_child_nodes`.
#[tactic(auto, using(crate::proofs::LineSinks::list_shown))]
pub(crate) fn list_text<L: Log, S: ReadableStorageTraits + ListableStorageTraits>(
    log: &L,
    alloc: Global,
    store: &S,
    base: &NodePath,
) -> Result<String, NodeCreateError>
    ensures ok { IfOk result
        (λ text. IsShown (S.contents store.now) Never base.now list_line (string_bytes text)) }
    ensures err { IfErr result
        (IsExcusedOr (S.can_fail store.now)
        (RefusesOpening (S.contents store.now) MetadataRetrieveVersion.Default Never
        (path_text base.now))) }
{
    let mut lines = ListLines {
        text: String::new(alloc),
    };
    let never = UseConsolidatedMetadata::Never;
    show(log, alloc, store, base, never, &mut lines)?;
    Ok(lines.text)
}

// Hands the hierarchy at a path to a sink, by the block of the group there as the policy says.
fn show<L: Log, S: ReadableStorageTraits + ListableStorageTraits, K: NodeSink>(
    log: &L,
    alloc: Global,
    store: &S,
    base: &NodePath,
    policy: UseConsolidatedMetadata,
    sink: &mut K,
) -> Result<(), NodeCreateError>
    ensures takes { OnOk result
        (TakesOpened K.takes sink.old sink.new
        (S.contents store.now) MetadataRetrieveVersion.Default policy base.now) }
    ensures err { IfErr result
        (IsExcusedOr (S.can_fail store.now)
        (RefusesOpening (S.contents store.now) MetadataRetrieveVersion.Default policy
        (path_text base.now))) }
{
    let mut config = Config::new();
    config.set_use_consolidated_metadata(policy);
    let version = MetadataRetrieveVersion::Default;
    let ignored = walk_hierarchy(alloc, store, base, &version, &config, sink)?;
    warn_ignored(log, LISTING, &ignored);
    Ok(())
}

// The lines of a tree, from a path on that has so many names.
#[derive(Drop)]
struct TreeLines {
    alloc: Global,
    above: usize,
    text: String,
}

// Appends the line of each node in the tree.
impl NodeSink for TreeLines {
    ghost takes = { AppendsTreeLine };

    fn take(&mut self, path: NodePath, metadata: NodeMetadata) -> Result<(), AllocError> {
        let level = depth(&path).saturating_sub(self.above);
        let line = line_at(self.alloc, level, &path, &metadata)?;
        push_line(&mut self.text, line.as_str())
    }
}

// The lines of a list.
#[derive(Drop)]
struct ListLines {
    text: String,
}

// Appends the line of each node in the list.
impl NodeSink for ListLines {
    ghost takes = { AppendsListLine };

    fn take(&mut self, path: NodePath, metadata: NodeMetadata) -> Result<(), AllocError> {
        drop(metadata);
        push_line(&mut self.text, path.as_str())
    }
}

// The line of a node so many levels below the base, without its newline.
fn line_at(
    alloc: Global,
    level: usize,
    path: &NodePath,
    metadata: &NodeMetadata,
) -> Result<String, AllocError>
    ensures { IfOk result (λ line. string_bytes line ≡ line_at level (path.now, metadata.now)) }
{
    let mut text = String::new(alloc);
    push_indent(&mut text, level)?;
    let line = node_line(level, path, metadata);
    push_node(&mut text, &line)?;
    drop_newline(&mut text);
    Ok(text)
}

// Puts two spaces for each level behind a text.
fn push_indent(text: &mut String, level: usize) -> Result<(), AllocError>
    ensures { OnOk result
        (string_bytes text.new ≡ string_bytes text.old ++ replicate (2 * level) 32) }
{
    for _step in 0..level {
        text.push_str("  ")?;
    }
    Ok(())
}

// Puts what is said of a node behind a text, and a newline.
fn push_node(text: &mut String, line: &NodeLine<'_>) -> Result<(), AllocError>
    ensures { OnOk result
        (string_bytes text.new
        ≡ string_bytes text.old ++ named_line line.now.name.now line.now.metadata.now) }
{
    write!(text, "{line}")
}

// What the line of a node says behind its indent.
fn node_line<'a>(level: usize, path: &'a NodePath, metadata: &'a NodeMetadata) -> NodeLine<'a>
    ensures name { result.name.now ≡ shown_name level path.now }
    ensures metadata { result.metadata.now ≡ metadata.now }
{
    if level == 0 {
        return NodeLine {
            name: path.as_str(),
            metadata,
        };
    }
    NodeLine::at(path, metadata)
}

// Takes the newline off at the end of a text.
fn drop_newline(text: &mut String)
    ensures { (front : List ℕ) → string_bytes text.old ≡ front ++ 10 ∷ []
        → string_bytes text.new ≡ front }
{
    drop(text.pop());
}
