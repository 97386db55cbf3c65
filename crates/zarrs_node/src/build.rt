//! Trees of nodes from lists of pairs of path and metadata.
ghost use Rattle.std.specs.Prelude.{◌≡◌, ◌↔◌, ◌+◌, ◌-◌, List, [], ◌∷◌, ◌++◌, IfOk, OnOk, Contains, length, take, false, true};
ghost use Rattle.zarrs_path.specs.Paths.{Path};
ghost use Rattle.zarrs_meta.specs.declared.node.NodeMetadata.{NodeMetadata};
ghost use Rattle.zarrs_block.specs.BlockExpansion.{HaveOwnPaths};
ghost use Rattle.zarrs_node.specs.Forest.{Shows, forest, plant, none};
ghost use Rattle.zarrs_node.specs.Reach.{Kept};
ghost use Rattle.zarrs_node.specs.Order.{Ascend};
ghost use Rattle.zarrs_node.specs.LastOfEqualPaths.{IsLatest, CountsSteps, groups, row, StandBelow, AreChildrenOf};
ghost use Rattle.zarrs_node.specs.StepsOfTrees.{whole, with_tree, heads, top, IsClosedTo, IsTaken, DropsEqual};

use crate::last_name::is_child;
use crate::node::{Node, push_node};
use std::alloc::{AllocError, Global};
use zarrs_meta::NodeMetadata;
use zarrs_path::NodePath;

/// The nodes of the pairs below a path that hang together: those between which and the path all are groups among the pairs. Siblings
/// ascend. Where a path stands more than once among the pairs, the last counts. No metadata are copied.
///
/// # Errors
///
/// `AllocError` when out of memory.
///
/// Source: `zarrs::node::build_node_tree`.
pub fn build_node_tree(
    alloc: Global,
    path: &NodePath,
    pairs: Vec<(NodePath, NodeMetadata)>,
) -> Result<Vec<Node>, AllocError>
    ensures shows { IfOk result
        (λ nodes. Shows (forest nodes.items) path.now (Kept (IsLatest pairs.items) true path.now)) }
{
    let (nodes, _steps) = build_node_tree_counted(alloc, path, pairs)?;
    Ok(nodes)
}

/// The nodes that [`build_node_tree`] answers, and the number of steps: one for each different path among the pairs, which is looked at,
/// and one for each group of the nodes, which is closed.
///
/// # Errors
///
/// `AllocError` when out of memory.
///
/// Source: own.
pub fn build_node_tree_counted(
    alloc: Global,
    path: &NodePath,
    pairs: Vec<(NodePath, NodeMetadata)>,
) -> Result<(Vec<Node>, u64), AllocError>
    ensures shows { IfOk result
        (λ made. Shows (forest made.0.items) path.now (Kept (IsLatest pairs.items) true path.now)) }
    ensures steps { IfOk result (λ made. CountsSteps pairs.items (forest made.0.items) made.1) }
{
    let latest = latest_by_path(alloc, pairs)?;
    build_ascending(alloc, path, latest)
}

/// A node without children for each pair whose path is a given one and one name, as often as such pairs stand, in the order of paths.
/// No metadata are copied.
///
/// # Errors
///
/// `AllocError` when out of memory.
///
/// Source: `zarrs::node::direct_children_from_flat`.
pub fn direct_children_from_flat(
    alloc: Global,
    path: &NodePath,
    pairs: Vec<(NodePath, NodeMetadata)>,
) -> Result<Vec<Node>, AllocError>
    ensures children { IfOk result
        (λ nodes. (es : List (Path × NodeMetadata)) × AreChildrenOf path.now pairs.items es
        × (forest nodes.items ≡ row es)) }
    ensures shows { IfOk result
        (λ nodes. HaveOwnPaths pairs.items
        → Shows (forest nodes.items) path.now (Kept (Contains pairs.items) false path.now)) }
{
    let mut children = children_of(alloc, path, pairs)?;
    children.sort_by(|a, b| a.0.cmp(&b.0))?;
    bare_nodes(alloc, children)
}

// The pairs whose path is a given one and one name.
fn children_of(
    alloc: Global,
    path: &NodePath,
    pairs: Vec<(NodePath, NodeMetadata)>,
) -> Result<Vec<(NodePath, NodeMetadata)>, AllocError>
    ensures { IfOk result (λ children. StandBelow path.now pairs.items children.items) }
{
    let mut children = Vec::new(alloc);
    for pair in pairs {
        if is_child(path, &pair.0) {
            children.push(pair)?;
        }
    }
    Ok(children)
}

// The pairs as nodes without children.
fn bare_nodes(alloc: Global, pairs: Vec<(NodePath, NodeMetadata)>) -> Result<Vec<Node>, AllocError>
    ensures { IfOk result (λ nodes. forest nodes.items ≡ row pairs.items) }
{
    let mut nodes = Vec::with_capacity(alloc, pairs.len())?;
    for (path, metadata) in pairs {
        push_node(&mut nodes, path, metadata, Vec::new(alloc))?;
    }
    Ok(nodes)
}

// The pairs in the order of paths; of those with one path, the last.
fn latest_by_path(
    alloc: Global,
    pairs: Vec<(NodePath, NodeMetadata)>,
) -> Result<Vec<(NodePath, NodeMetadata)>, AllocError>
    ensures ascends { IfOk result (λ latest. Ascend latest.items) }
    ensures latest { IfOk result
        (λ latest. (e : Path × NodeMetadata) → Contains latest.items e ↔ IsLatest pairs.items e) }
{
    let mut sorted = pairs;
    sorted.sort_by(|a, b| a.0.cmp(&b.0))?;
    let mut latest = Vec::with_capacity(alloc, sorted.len())?;
    for pair in sorted {
        drop_equal(&mut latest, &pair.0);
        latest.push(pair)?;
    }
    Ok(latest)
}

// Takes the last pair away where it has the path.
fn drop_equal(pairs: &mut Vec<(NodePath, NodeMetadata)>, path: &NodePath)
    ensures { DropsEqual path.now pairs.old.items pairs.new.items }
{
    if let Some(last) = pairs.last() {
        if last.0 == *path {
            pairs.pop();
        }
    }
}

/// The nodes of ascending pairs, and the steps: one for each pair, and one for each group that is closed.
pub(crate) fn build_ascending(
    alloc: Global,
    base: &NodePath,
    pairs: Vec<(NodePath, NodeMetadata)>,
) -> Result<(Vec<Node>, u64), AllocError>
    requires { Ascend pairs.items }
    ensures shows { IfOk result
        (λ made. Shows (forest made.0.items) base.now (Kept (Contains pairs.items) true base.now)) }
    ensures steps { IfOk result
        (λ made. made.1 ≡ length pairs.items + groups (forest made.0.items)) }
{
    let mut pass = Pass {
        roots: Vec::new(alloc),
        opened: Vec::new(alloc),
    };
    let mut steps = 0;
    for (path, metadata) in pairs {
        steps += 1 + pass.close_to(&path)?;
        pass.take(alloc, base, path, metadata)?;
    }
    steps += pass.close_all()?;
    Ok((pass.roots, steps))
}

// The trees that are done, and the groups that are open, each a child of the one before it.
#[derive(Drop)]
struct Pass {
    roots: Vec<Node>,
    opened: Vec<Node>,
}

impl Pass {
    // Closes open groups until the path is below the last.
    fn close_to(&mut self, path: &NodePath) -> Result<u64, AllocError>
        ensures same { OnOk result
            (whole self.new.roots.items self.new.opened.items
            ≡ whole self.old.roots.items self.old.opened.items) }
        ensures closed { OnOk result
            (IsClosedTo path.now (heads self.old.opened.items) (heads self.new.opened.items)) }
        ensures count { IfOk result
            (λ n. n + length (heads self.new.opened.items) ≡ length (heads self.old.opened.items)) }
    {
        let mut closed = 0;
        while let Some(group) = self.opened.last() {
            if path.is_below(&group.path) {
                break;
            }
            self.close()?;
            closed += 1;
        }
        Ok(closed)
    }

    // Puts a pair below the last open group where it is its child, and opens a group.
    fn take(
        &mut self,
        alloc: Global,
        base: &NodePath,
        path: NodePath,
        metadata: NodeMetadata,
    ) -> Result<(), AllocError>
        ensures { OnOk result
            (IsTaken base.now
            (path, metadata) self.old.roots.items self.old.opened.items self.new.roots.items
            self.new.opened.items) }
    {
        if !is_child(self.parent(base), &path) {
            return Ok(());
        }
        let is_group = metadata.is_group();
        let node = Node {
            path,
            metadata,
            children: Vec::new(alloc),
            count: 1,
        };
        if is_group {
            self.opened.push(node)?;
        } else {
            self.add(node)?;
        }
        Ok(())
    }

    // Closes all open groups.
    fn close_all(&mut self) -> Result<u64, AllocError>
        ensures same { OnOk result
            (whole self.new.roots.items self.new.opened.items
            ≡ whole self.old.roots.items self.old.opened.items) }
        ensures closed { OnOk result (self.new.opened.items ≡ []) }
        ensures count { IfOk result (λ n. n ≡ length (heads self.old.opened.items)) }
    {
        let mut closed = 0;
        while !self.opened.is_empty() {
            self.close()?;
            closed += 1;
        }
        Ok(closed)
    }

    // The path of the last open group, or the base.
    fn parent<'a>(&'a self, base: &'a NodePath) -> &'a NodePath
        ensures { result.now ≡ top base.now (heads self.now.opened.items) }
    {
        match self.opened.last() {
            Some(group) => &group.path,
            None => base,
        }
    }

    // Closes the last open group. It is made anew of its parts, so that its nodes are counted.
    fn close(&mut self) -> Result<(), AllocError>
        ensures same { OnOk result
            (whole self.new.roots.items self.new.opened.items
            ≡ whole self.old.roots.items self.old.opened.items) }
        ensures heads { OnOk result
            (heads self.new.opened.items
            ≡ take (length (heads self.old.opened.items) - 1) (heads self.old.opened.items)) }
    {
        if let Some(group) = self.opened.pop() {
            let (path, metadata, children) = group.into_parts();
            self.add(Node::new_with_metadata(path, metadata, children))?;
        }
        Ok(())
    }

    // Puts a node behind the children of the last open group, or behind the roots.
    fn add(&mut self, node: Node) -> Result<(), AllocError>
        ensures grows { OnOk result
            (whole self.new.roots.items self.new.opened.items
            ≡ with_tree self.old.roots.items self.old.opened.items (plant node none)) }
        ensures heads { OnOk result (heads self.new.opened.items ≡ heads self.old.opened.items) }
    {
        match self.opened.last_mut() {
            Some(parent) => parent.children.push(node)?,
            None => self.roots.push(node)?,
        }
        Ok(())
    }
}
