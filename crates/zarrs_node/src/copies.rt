//! Copies of nodes with all below them.
ghost use Rattle.std.specs.Prelude.{◌≡◌, IfOk};
ghost use Rattle.zarrs_node.specs.Forest.{forest};

use crate::node::{Node, push_node};
use std::alloc::{AllocError, Global};
use zarrs_meta::Document;

// A node whose children are being copied: the node, the copies of those before it, and those after it.
#[derive(Drop)]
struct Frame<'a> {
    node: &'a Node,
    before: Vec<Node>,
    after: &'a [Node],
}

// A copy of each of the nodes with all below it. The nodes that are open, each below the one before it, are held in a list, so that no call
// is open below another.
pub(crate) fn copy_nodes(alloc: Global, nodes: &[Node]) -> Result<Vec<Node>, AllocError>
    ensures { IfOk result (λ copies. forest copies.items ≡ forest nodes.now) }
{
    let mut opened = Vec::new(alloc);
    let mut done = Vec::new(alloc);
    let mut left = nodes;
    loop {
        if let Some((node, after)) = left.split_first() {
            opened.push(Frame {
                node,
                before: done,
                after,
            })?;
            done = Vec::new(alloc);
            left = &node.children;
        } else if let Some(frame) = opened.pop() {
            let Frame {
                node,
                mut before,
                after,
            } = frame;
            let path = node.path.try_clone(alloc)?;
            let metadata = node.metadata.try_clone(alloc)?;
            push_node(&mut before, path, metadata, done)?;
            done = before;
            left = after;
        } else {
            return Ok(done);
        }
    }
}
