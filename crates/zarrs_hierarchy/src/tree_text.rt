//! The text of what a store has at a path and below it.
ghost use Rattle.std.specs.Prelude.{◌≡◌, ◌∷◌, [], ◌++◌, IfOk, IfErr, string_bytes};
ghost use Rattle.zarrs_path.specs.Paths.{path_text};
ghost use Rattle.zarrs_meaning.specs.Refusals.{IsExcusedOr};
ghost use Rattle.zarrs_node.specs.OpeningNodes.{RefusesOpening};
ghost use Rattle.zarrs_hierarchy.specs.OpeningHierarchies.{IsOpenedTree};
ghost use Rattle.zarrs_hierarchy.specs.Sinks.{AppendsNode};

use crate::hierarchy::HierarchyCreateError;
use crate::open::walk_below;
use crate::tree::{TreeLine, depth};
use log::Log;
use std::alloc::{AllocError, Global};
use zarrs_config::{Config, MetadataRetrieveVersion};
use zarrs_meta::NodeMetadata;
use zarrs_node::{LISTING, Node, NodeSink, consolidated_metadata_at, warn_ignored};
use zarrs_path::NodePath;
use zarrs_store::{ListableStorageTraits, ReadableStorageTraits};

/// The text, from a path on, of the hierarchy that [`Hierarchy::open_opt`] finds there: what [`Hierarchy::tree_of`] answers of it. A line is
/// written when its node is read, and no hierarchy is made.
///
/// # Errors
///
/// The refusals of [`Hierarchy::open_opt`], but for those of the path's text.
///
/// Source: `zarrs::hierarchy::Hierarchy::tree_of`, of what `zarrs::hierarchy::Hierarchy::open_opt` answers.
///
/// [`Hierarchy::open_opt`]: crate::Hierarchy::open_opt
/// [`Hierarchy::tree_of`]: crate::Hierarchy::tree_of
#[tactic(auto, using(crate::proofs::OpenedPairs::group_refused))]
pub fn tree_at<L: Log, S: ReadableStorageTraits + ListableStorageTraits>(
    log: &L,
    alloc: Global,
    storage: &S,
    path: &NodePath,
    version: &MetadataRetrieveVersion,
    config: &Config,
) -> Result<String, HierarchyCreateError>
    ensures tree { IfOk result
        (λ text. IsOpenedTree
        (S.contents storage.now) version.now config.now.use_consolidated path.now
        (string_bytes text)) }
    ensures refused { IfErr result
        (IsExcusedOr (S.can_fail storage.now)
        (RefusesOpening (S.contents storage.now) version.now config.now.use_consolidated
        (path_text path.now))) }
{
    let _valid = path.as_str();
    let metadata = Node::get_metadata(alloc, storage, path, version)?;
    let text = first_line(alloc, path)?;
    if !metadata.is_group() {
        return Ok(text);
    }
    let policy = config.use_consolidated_metadata();
    let block = consolidated_metadata_at(alloc, storage, path, &metadata, policy)?;
    let above = depth(path);
    let mut tree = TreeText { above, text };
    let ignored = walk_below(alloc, storage, path, version, block, &mut tree)?;
    warn_ignored(log, LISTING, &ignored);
    Ok(tree.text)
}

// The text of a path and a newline.
fn first_line(alloc: Global, path: &NodePath) -> Result<String, AllocError>
    ensures { IfOk result (λ text. string_bytes text ≡ path_text path.now ++ 10 ∷ []) }
{
    let mut text = String::new(alloc);
    text.push_str(path.as_str())?;
    text.push('\n')?;
    Ok(text)
}

// The lines of a hierarchy from a path on, which has so many names.
#[derive(Drop)]
struct TreeText {
    above: usize,
    text: String,
}

// Appends the line of each node.
impl NodeSink for TreeText {
    ghost takes = { AppendsNode };

    fn take(&mut self, path: NodePath, metadata: NodeMetadata) -> Result<(), AllocError> {
        let line = TreeLine {
            above: self.above,
            path: &path,
            metadata: &metadata,
        };
        write!(self.text, "{line}")
    }
}
