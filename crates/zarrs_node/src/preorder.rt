//! The nodes of some trees one after another, parents before children.
ghost use Rattle.std.specs.Prelude.{◌≡◌, [], ◌∷◌, IfOk, MatchOption};
ghost use Rattle.zarrs_node.specs.Forest.{forest};
ghost use Rattle.zarrs_node.specs.StepsOfPreorder.{stops, stop_of, ahead};

use crate::node::Node;
use std::alloc::{AllocError, Global};

// A walk over some trees, parents before children, which says how deep each node stands: it holds the siblings that are left, a list for
// each level that is open, so that no call is open below another.
#[derive(Drop)]
pub(crate) struct Preorder<'a> {
    pending: Vec<&'a [Node]>,
}

impl<'a> Preorder<'a> {
    // The walk over the trees of the nodes.
    pub(crate) fn new(alloc: Global, nodes: &'a [Node]) -> Result<Preorder<'a>, AllocError>
        ensures { IfOk result (λ walk. ahead walk.pending.items ≡ stops 1 (forest nodes.now)) }
    {
        let mut pending = Vec::new(alloc);
        pending.push(nodes)?;
        Ok(Preorder { pending })
    }

    // The next node, and its level, which is 1 for a root.
    pub(crate) fn next(&mut self) -> Result<Option<(usize, &'a Node)>, AllocError>
        ensures { IfOk result
            (λ next. MatchOption next (ahead self.old.pending.items ≡ [])
            (λ n. ahead self.old.pending.items ≡ stop_of n.0 n.1.now
            ∷ ahead self.new.pending.items)) }
    {
        while let Some(nodes) = self.pending.pop() {
            if let Some((node, after)) = nodes.split_first() {
                self.pending.push(after)?;
                let level = self.pending.len();
                self.pending.push(&node.children)?;
                return Ok(Some((level, node)));
            }
        }
        Ok(None)
    }
}
