//! A node and the nodes below it.
ghost use Rattle.std.specs.Prelude.{◌≡◌, ◌↔◌, ◌+◌, ◌<◌, ◌≤◌, [], ◌∷◌, ◌++◌, MatchOption, None, IsTrue, IfOk, OnOk, length, vec_capacity, vec_len};
ghost use Rattle.zarrs_store.specs.Segments.{last_segment};
ghost use Rattle.zarrs_node.specs.Forest.{forest, tree, none, path_of, metadata_of, below_of, HasPlacedChildren, ArePlacedBelow};
ghost use Rattle.zarrs_node.specs.StepsOfTrees.{graft};
ghost use Rattle.zarrs_node.specs.StepsOfCounting.{children_of, weights};

use crate::copies::copy_nodes;
use crate::last_name::{is_child, last_name};
use std::alloc::{AllocError, Global};
use std::fmt;
use zarrs_meta::{Document, NodeMetadata};
use zarrs_path::{NodeName, NodePath};

/// A node of a hierarchy: its path, its metadata and the nodes directly below it, each with those below it.
///
/// Source: `zarrs::node::Node`.
/// <https://zarr-specs.readthedocs.io/en/latest/v3/core/index.html#hierarchy>
/// <https://docs.rs/zarrs/0.23.13/zarrs/node/struct.Node.html>
pub struct Node {
    pub(crate) path: NodePath,
    pub(crate) metadata: NodeMetadata,
    pub(crate) children: Vec<Node>,
    // The number of nodes of its tree, by which `has_placed_children` goes: no answer depends on it.
    pub(crate) count: u64,
}

impl Node {
    /// The node with this path, these metadata and these children.
    ///
    /// Source: `zarrs::node::Node::new_with_metadata`.
    #[tactic(auto, using(crate::proofs::Trees::tree_of))]
    pub fn new_with_metadata(path: NodePath, metadata: NodeMetadata, children: Vec<Node>) -> Node
        ensures path { path_of result ≡ path }
        ensures metadata { metadata_of result ≡ metadata }
        ensures children { below_of result ≡ forest children.items }
        ensures tree { forest (result ∷ []) ≡ tree path metadata (forest children.items) none }
    {
        let count = count_with(&children);
        Node {
            path,
            metadata,
            children,
            count,
        }
    }

    /// Whether the node is the root.
    ///
    /// Source: `zarrs::node::Node`, by its path.
    pub fn is_root(&self) -> bool
        ensures { IsTrue result ↔ (path_of self.now ≡ []) }
    {
        self.path().is_root()
    }

    /// The path of the node.
    ///
    /// Source: `zarrs::node::Node::path`.
    pub fn path(&self) -> &NodePath
        ensures { result.now ≡ path_of self.now }
    {
        &self.path
    }

    /// The metadata of the node.
    ///
    /// Source: `zarrs::node::Node::metadata`.
    pub fn metadata(&self) -> &NodeMetadata
        ensures { result.now ≡ metadata_of self.now }
    {
        &self.metadata
    }

    /// The nodes directly below the node.
    ///
    /// Source: `zarrs::node::Node::children`.
    pub fn children(&self) -> &[Node]
        ensures { forest result.now ≡ below_of self.now }
    {
        &self.children
    }

    /// The last name of the node's path, which is empty for the root.
    ///
    /// # Errors
    ///
    /// `AllocError` when out of memory.
    ///
    /// Source: `zarrs::node::Node::name`.
    pub fn name(&self, alloc: Global) -> Result<NodeName, AllocError>
        ensures { IfOk result (λ name. name ≡ last_segment (path_of self.now)) }
    {
        let name = String::from_str(alloc, last_name(self.path()))?;
        Ok(NodeName::new_unchecked(name))
    }

    /// A copy of the node with all below it.
    ///
    /// # Errors
    ///
    /// `AllocError` when out of memory.
    ///
    /// Source: `zarrs::node::Node`, its `Clone`.
    pub fn try_clone(&self, alloc: Global) -> Result<Node, AllocError>
        ensures { IfOk result (λ copy. forest (copy ∷ []) ≡ forest (self.now ∷ [])) }
    {
        let path = self.path().try_clone(alloc)?;
        let children = copy_nodes(alloc, self.children())?;
        let metadata = self.metadata().try_clone(alloc)?;
        Ok(Node::new_with_metadata(path, metadata, children))
    }

    // The path, the metadata and the children of the node.
    pub(crate) fn into_parts(self) -> (NodePath, NodeMetadata, Vec<Node>)
        ensures path { result.0 ≡ path_of self }
        ensures metadata { result.1 ≡ metadata_of self }
        ensures children { result.2.items ≡ children_of self }
    {
        let Node {
            path,
            metadata,
            children,
            count: _,
        } = self;
        (path, metadata, children)
    }

    // A node that holds others while they wait to be dropped.
    fn waiting(path: NodePath, metadata: NodeMetadata, children: Vec<Node>) -> Node
        ensures { children_of result ≡ children.items }
    {
        Node {
            path,
            metadata,
            children,
            count: 0,
        }
    }

    /// Whether throughout the node's tree the path of each child is its parent's and one name.
    ///
    /// It takes no memory, and no more calls are open at once than the logarithm of the number of nodes: it goes on by a loop below the
    /// child with the most nodes, and calls itself for the others alone, of which none has more than half of them.
    ///
    /// Source: Zarr core specification 3.1, "Hierarchy": a node's parent is named by the path without its last name.
    pub fn has_placed_children(&self) -> bool
        ensures { IsTrue result ↔ HasPlacedChildren self.now }
    {
        is_placed(self)
    }
}

// Adds a node behind the others.
pub(crate) fn push_node(
    nodes: &mut Vec<Node>,
    path: NodePath,
    metadata: NodeMetadata,
    children: Vec<Node>,
) -> Result<(), AllocError>
    ensures { OnOk result
        (forest nodes.new.items
        ≡ graft (forest nodes.old.items) (tree path metadata (forest children.items) none)) }
{
    nodes.push(Node::new_with_metadata(path, metadata, children))?;
    Ok(())
}

// Whether throughout a node's tree each child stands one name below its parent.
#[cycle(placed)]
fn is_placed(root: &Node) -> bool
    ensures { IsTrue result ↔ HasPlacedChildren root.now }
{
    let mut node = root;
    while let Some((before, largest, after)) = around_largest(&node.children) {
        if !are_placed(&node.path, before)
            || !is_child(&node.path, &largest.path)
            || !are_placed(&node.path, after)
        {
            return false;
        }
        node = largest;
    }
    true
}

// Whether each of the nodes stands one name below the base, and so throughout their trees.
#[cycle(placed)]
fn are_placed(base: &NodePath, nodes: &[Node]) -> bool
    ensures { IsTrue result ↔ ArePlacedBelow base.now (forest nodes.now) }
{
    for node in nodes {
        if !is_child(base, &node.path) || !is_placed(node) {
            return false;
        }
    }
    true
}

// The node with the most nodes in its tree, and those before it and after it.
fn around_largest(nodes: &[Node]) -> Option<(&[Node], &Node, &[Node])>
    ensures { MatchOption result (nodes.now ≡ []) (λ r. nodes.now ≡ r.0.now ++ r.1.now ∷ r.2.now) }
{
    let (before, rest) = nodes.split_at(place_of_largest(nodes));
    match rest.split_first() {
        Some((largest, after)) => Some((before, largest, after)),
        None => None,
    }
}

// The place of the node with the most nodes in its tree.
fn place_of_largest(nodes: &[Node]) -> usize
    ensures within { result ≤ length nodes.now }
    ensures some { 0 < length nodes.now → result < length nodes.now }
{
    let mut place = 0;
    for at in 1..nodes.len() {
        if nodes[at].count > nodes[place].count {
            place = at;
        }
    }
    place
}

// The number of some nodes with all below them, and one more.
fn count_with(nodes: &[Node]) -> u64 {
    let mut count: u64 = 1;
    for node in nodes {
        count = count.saturating_add(node.count);
    }
    count
}

// What is printed does not go below the node, so that no depth is too much for it.
impl fmt::Debug for Node {
    fn fmt<W: fmt::Write>(&self, f: &mut fmt::Formatter<W>) -> fmt::Result {
        write!(
            f,
            "Node({:?}, {:?}, {} children)",
            self.path,
            self.metadata,
            self.children.len()
        )
    }
}

// The node at hand is taken apart, and one of its children comes next. What else is left waits in a node before its other children, in the
// room that the child left: nothing is allocated, and no other drop of a node runs, however deep the tree is.
impl Drop for Node {
    fn drop(self) {
        let (_path, _metadata, mut others) = self.into_parts();
        if let Some(mut node) = others.pop() {
            loop {
                let (path, metadata, mut children) = node.into_parts();
                if let Some(next) = children.pop() {
                    if others.is_empty() {
                        drop(path);
                        drop(metadata);
                        others = children;
                    } else {
                        let waiting = Node::waiting(path, metadata, others);
                        let _none = put_first(&mut children, waiting);
                        others = children;
                    }
                    node = next;
                } else if let Some(other) = others.pop() {
                    node = other;
                } else {
                    return;
                }
            }
        }
    }
}

// Puts a node before the others, where there is room for it, and gives nothing back.
fn put_first(nodes: &mut Vec<Node>, node: Node) -> Option<Node>
    requires { vec_len nodes.old < vec_capacity nodes.old }
    ensures none { result ≡ None }
    ensures weights { weights nodes.new.items
        ≡ weights nodes.old.items + (weights (children_of node) + 1) }
{
    let end = nodes.len();
    match nodes.push(node) {
        Ok(()) => {
            nodes.swap(0, end);
            None
        }
        Err(refused) => Some(refused.value),
    }
}

impl From<Node> for NodePath {
    ghost use Rattle.zarrs_node.specs.Forest.{path_of};

    ghost from_gives = { λ node path. path ≡ path_of node };

    fn from(node: Node) -> NodePath {
        let (path, _metadata, _children) = node.into_parts();
        path
    }
}

impl From<Node> for NodeMetadata {
    ghost use Rattle.zarrs_node.specs.Forest.{metadata_of};

    ghost from_gives = { λ node metadata. metadata ≡ metadata_of node };

    fn from(node: Node) -> NodeMetadata {
        let (_path, metadata, _children) = node.into_parts();
        metadata
    }
}
