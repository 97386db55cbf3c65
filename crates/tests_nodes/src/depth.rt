//! Trees that are deeper than a small stack has room for calls. `rt try --test` shows it, run with `ulimit -s 1024`.

use std::alloc::{AllocError, Global};
use zarrs_meaning::NodeCreateError;
use zarrs_meta::{GroupMetadata, GroupMetadataV3, NodeMetadata};
use zarrs_node::{Node, build_node_tree};
use zarrs_path::NodePath;

// The metadata of a group that has none.
fn group(alloc: Global) -> NodeMetadata {
    NodeMetadata::Group(GroupMetadata::V3(GroupMetadataV3::new(alloc)))
}

// A chain of groups, so many below one, each with a leaf beside it. All have one path, so that the texts of paths take little room.
fn chain(alloc: Global, levels: u64) -> Result<Node, NodeCreateError> {
    let path = NodePath::root(alloc)?;
    let mut node = Node::new_with_metadata(path.try_clone(alloc)?, group(alloc), Vec::new(alloc));
    for _level in 0..levels {
        let mut children = Vec::new(alloc);
        let leaf = Node::new_with_metadata(path.try_clone(alloc)?, group(alloc), Vec::new(alloc));
        children.push(leaf)?;
        children.push(node)?;
        node = Node::new_with_metadata(path.try_clone(alloc)?, group(alloc), children);
    }
    Ok(node)
}

// The root over a chain of groups, so many below it, each the only child of the one before, by its path.
fn placed_chain(alloc: Global, levels: u64) -> Result<Node, NodeCreateError> {
    let root = NodePath::root(alloc)?;
    let mut pairs = Vec::new(alloc);
    let mut path = root.try_clone(alloc)?;
    for _level in 0..levels {
        path = path.join(alloc, "a")?;
        pairs.push((path.try_clone(alloc)?, group(alloc)))?;
    }
    let children = build_node_tree(alloc, &root, pairs)?;
    Ok(Node::new_with_metadata(root, group(alloc), children))
}

// The levels below a node, by the last child of each.
fn levels_below(node: &Node) -> u64 {
    let mut at = node;
    for levels in 0..u64::MAX {
        match at.children().last() {
            Some(child) => at = child,
            None => return levels,
        }
    }
    u64::MAX
}

// The levels of a chain's copy.
fn copied(alloc: Global, levels: u64) -> Result<u64, NodeCreateError> {
    let node = chain(alloc, levels)?;
    let copy = node.try_clone(alloc)?;
    drop(node);
    Ok(levels_below(&copy))
}

// Whether what is printed of a chain ends with the number of its node's children.
fn is_printed_flat(alloc: Global, levels: u64) -> Result<bool, NodeCreateError> {
    let node = chain(alloc, levels)?;
    let text = format!(in alloc; "{node:?}")?;
    Ok(text.ends_with(", 2 children)"))
}

// Whether a chain is placed, the length of its text, and the number of entries of its block.
fn asked(alloc: Global, levels: u64) -> Result<(bool, usize, usize), NodeCreateError> {
    let node = placed_chain(alloc, levels)?;
    let text = node.hierarchy_tree(alloc)?;
    if !node.has_placed_children() {
        return Ok((false, text.len(), 0));
    }
    let entries = match node.consolidate_metadata(alloc)? {
        Some(block) => block.len(),
        None => 0,
    };
    Ok((true, text.len(), entries))
}

#[test]
fn a_deep_tree_is_copied_printed_and_dropped(rt: HostRuntime) {
    assert!(rt; copied(rt.alloc(), 20000).ok() == Some(20000));
    assert!(rt; is_printed_flat(rt.alloc(), 20000).ok() == Some(true));
}

// The text has a line of 2 bytes for the root, and one of 2 bytes and 2 for each level for each node.
#[test]
fn a_deep_tree_is_asked(rt: HostRuntime) {
    assert!(rt; asked(rt.alloc(), 300).ok() == Some((true, 90902, 300)));
}
