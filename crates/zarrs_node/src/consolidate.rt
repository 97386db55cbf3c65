//! The consolidated block of a node: the metadata of the nodes below it.
ghost use Rattle.std.specs.Prelude.{◌≡◌, ◌↔◌, IfOk, IfSome, IsSome, IsTrue, OnOk, Contains};
ghost use Rattle.zarrs_path.specs.Paths.{IsBelow, IsPath};
ghost use Rattle.zarrs_meta.specs.Node.{is_group};
ghost use Rattle.zarrs_block.specs.Block.{IsAscending, IsBlockOf};
ghost use Rattle.zarrs_node.specs.Forest.{HasPlacedChildren, IsPlaced, below_of, forest, metadata_of, pairs, path_of};
ghost use Rattle.zarrs_node.specs.LastOfEqualPaths.{IsLatest};
ghost use Rattle.zarrs_node.specs.BlocksOfNodes.{text_beyond};
ghost use Rattle.zarrs_node.specs.StepsOfBlocks.{ArePairsBelow, ArePaths, put_all};

use crate::last_name::slashed;
use crate::node::Node;
use crate::preorder::Preorder;
use std::alloc::{AllocError, Global};
use zarrs_block::ConsolidatedMetadataMetadata;
use zarrs_meta::{Document, NodeMetadata};
use zarrs_path::NodePath;

impl Node {
    /// The metadata of all nodes below a group, each at its path relative to the group: its names beyond the group's path,
    /// joined by slashes, without a slash in front. Of two nodes with one path the later in preorder counts. `None` for an array.
    ///
    /// # Errors
    ///
    /// `AllocError` where there is no memory for the map.
    ///
    /// Source: `zarrs::node::Node::consolidate_metadata`.
    pub fn consolidate_metadata(
        &self,
        alloc: Global,
    ) -> Result<Option<ConsolidatedMetadataMetadata>, AllocError>
        requires placed { HasPlacedChildren self.now }
        ensures group { IfOk result
            (λ block. IsSome block ↔ IsTrue (is_group (metadata_of self.now))) }
        ensures latest { IfOk result
            (λ block. IfSome block
            (λ B. IsBlockOf (IsLatest (pairs (below_of self.now))) (path_of self.now) B)) }
        ensures exact { IfOk result
            (λ block. IfSome block
            (λ B. IsPlaced (path_of self.now) (below_of self.now)
            → IsBlockOf (Contains (pairs (below_of self.now))) (path_of self.now) B)) }
        ensures ascending { IfOk result (λ block. IfSome block IsAscending) }
    {
        if let NodeMetadata::Array(_) = self.metadata() {
            return Ok(None);
        }
        let mut block = ConsolidatedMetadataMetadata::new(alloc);
        insert_all(alloc, self.path(), self.children(), &mut block)?;
        Ok(Some(block))
    }
}

// Puts the metadata of some nodes and of those below them into a block, parents before children, each at its path relative to the base.
fn insert_all(
    alloc: Global,
    base: &NodePath,
    nodes: &[Node],
    block: &mut ConsolidatedMetadataMetadata,
) -> Result<(), AllocError>
    requires below { ArePairsBelow base.now (pairs (forest nodes.now)) }
    ensures inserted { OnOk result
        (block.new ≡ put_all base.now block.old (pairs (forest nodes.now))) }
    ensures valid { OnOk result (ArePaths (pairs (forest nodes.now))) }
{
    let mut walk = Preorder::new(alloc, nodes)?;
    while let Some((_level, node)) = walk.next()? {
        let key = String::from_str(alloc, text_beyond(base, &node.path))?;
        let metadata = node.metadata.try_clone(alloc)?;
        block.insert(key, metadata)?;
    }
    Ok(())
}

// The names of a path beyond the base, joined by slashes.
pub(crate) fn text_beyond<'a>(base: &NodePath, path: &'a NodePath) -> &'a str
    requires { IsBelow base.now path.now }
    ensures text { result.now ≡ text_beyond base.now path.now }
    ensures valid { IsPath path.now }
{
    match slashed(path).strip_prefix(slashed(base)) {
        Some(rest) => rest.strip_prefix('/').unwrap_or(rest),
        None => "",
    }
}
