//! A hierarchy: nodes by their paths.
ghost use Rattle.std.specs.Prelude.{◌≡◌, ◌≤◌, ◌∷◌, [], length, take, IfErr, IfOk, option_copied};
ghost use Rattle.zarrs_form.specs.Forms.{is_nil};
ghost use Rattle.zarrs_meta.specs.declared.node.NodeMetadata.TheVariants.{Array};
ghost use Rattle.zarrs_node.specs.Order.{Ascend};
ghost use Rattle.zarrs_hierarchy.specs.PairsOfHierarchies.{metadata_at};
ghost use Rattle.zarrs_hierarchy.specs.StepsOfHierarchies.{IsPathAt, IsPathGap, IsBehind, pairs_behind};
ghost use Rattle.zarrs_hierarchy.specs.Tree.{pairs_below, is_path_below};

use std::alloc::{AllocError, Global};
use std::collections::BTreeMap;
use std::marker::Model;
use zarrs_meaning::NodeCreateError;
use zarrs_meta::{ArrayMetadata, BoxedArray, Document, NodeMetadata};
use zarrs_path::NodePath;

/// Why a hierarchy was not made.
///
/// Source: `zarrs::hierarchy::HierarchyCreateError`.
pub type HierarchyCreateError = NodeCreateError;

/// Nodes of a Zarr hierarchy: the metadata at each of some paths. They stand in the order of paths, and one is found by halving.
///
/// Contracts see the list of the paths with their metadata, in the order of paths.
///
/// Source: `zarrs::hierarchy::Hierarchy`.
/// <https://zarr-specs.readthedocs.io/en/latest/v3/core/index.html#hierarchy>
/// <https://docs.rs/zarrs/0.23.13/zarrs/hierarchy/struct.Hierarchy.html>
#[derive(Debug, Drop)]
pub struct Hierarchy {
    pub(crate) nodes: Vec<(NodePath, NodeMetadata)>,
}

impl Model for Hierarchy {
    ghost use Rattle.std.specs.Prelude.{List, ℕ};
    ghost use Rattle.std.specs.Coded.{codes, coded_list, coded×, coded_ℕ};
    ghost use Rattle.zarrs_meta.specs.declared.node.NodeMetadata.{NodeMetadata};
    ghost use Rattle.zarrs_meta.specs.contracts.node.NodeMetadata as e;
    ghost use Rattle.zarrs_node.specs.Order.{Ascend};

    ghost Value = { List (List (List ℕ) × NodeMetadata) };

    ghost coded = { coded_list (coded× (coded_list (coded_list coded_ℕ)) (Prim.hlevel (codes, e.the_row.coded))) };

    ghost view = { λ a. a.nodes.items };

    ghost invariant = { λ a. Ascend a.nodes.items };
}

impl Hierarchy {
    /// The hierarchy without nodes.
    ///
    /// Source: `zarrs::hierarchy::Hierarchy::new`.
    pub fn new(alloc: Global) -> Hierarchy
        ensures { result ≡ [] }
    {
        Hierarchy {
            nodes: Vec::new(alloc),
        }
    }

    /// The hierarchy of one array.
    ///
    /// # Errors
    ///
    /// `AllocError` where there is no memory for it.
    ///
    /// Source: own, in place of the conversion of `zarrs::array::Array` into `zarrs::hierarchy::Hierarchy`.
    pub fn from_array(
        alloc: Global,
        path: NodePath,
        array: ArrayMetadata,
    ) -> Result<Hierarchy, AllocError>
        ensures { IfOk result (λ hierarchy. hierarchy ≡ (path, Array array) ∷ []) }
    {
        let array = BoxedArray::new(alloc, array)?;
        let mut nodes = Vec::new(alloc);
        nodes.push((path, NodeMetadata::Array(array)))?;
        Ok(Hierarchy { nodes })
    }

    /// The hierarchy of nodes that stand in the order of paths, as `zarrs_node::get_all_nodes_of` gives them.
    ///
    /// Source: own.
    pub fn from_ascending(nodes: Vec<(NodePath, NodeMetadata)>) -> Hierarchy
        requires ascending { Ascend nodes.items }
        ensures { result ≡ nodes.items }
    {
        Hierarchy { nodes }
    }

    /// The number of nodes.
    pub fn len(&self) -> usize
        ensures { result ≡ length self.now }
    {
        self.nodes.len()
    }

    /// Whether there are no nodes.
    pub fn is_empty(&self) -> bool
        ensures { result ≡ is_nil self.now }
    {
        self.nodes.is_empty()
    }

    /// The metadata of the node at a path, if there is one.
    pub fn get(&self, path: &NodePath) -> Option<&NodeMetadata>
        ensures { option_copied result ≡ metadata_at self.now path.now }
    {
        match place_of(&self.nodes, path) {
            Ok(place) => Some(&self.nodes[place].1),
            Err(_gap) => None,
        }
    }

    /// The paths with their metadata, in the order of paths.
    pub fn nodes(&self) -> &[(NodePath, NodeMetadata)]
        ensures pairs { result.now ≡ self.now }
        ensures ordered { Ascend self.now }
    {
        &self.nodes
    }

    /// The nodes below a path, in the order of paths. They stand in one run, whose ends are found by halving.
    ///
    /// Source: own.
    pub fn nodes_below(&self, path: &NodePath) -> &[(NodePath, NodeMetadata)]
        ensures pairs { result.now ≡ pairs_below path.now self.now }
        ensures ordered { Ascend result.now }
    {
        let behind = self.behind(path);
        let end = end_below(behind, path);
        &behind[..end]
    }

    /// The paths with their metadata, as a map of copies.
    ///
    /// # Errors
    ///
    /// `AllocError` where there is no memory for the map.
    pub fn as_map(&self, alloc: Global) -> Result<BTreeMap<NodePath, NodeMetadata>, AllocError>
        ensures pairs { IfOk result (λ map. map.entries ≡ self.now) }
        ensures ordered { Ascend self.now }
    {
        let mut map = BTreeMap::new(alloc);
        for (path, metadata) in &self.nodes {
            let path = path.try_clone(alloc)?;
            drop(map.insert(path, metadata.try_clone(alloc)?)?);
        }
        Ok(map)
    }

    /// A copy that equals its source.
    ///
    /// # Errors
    ///
    /// `AllocError` where there is no memory for the copy.
    ///
    /// Source: `Clone` of `zarrs::hierarchy::Hierarchy`.
    pub fn try_clone(&self, alloc: Global) -> Result<Hierarchy, AllocError>
        ensures { IfOk result (λ copy. copy ≡ self.now) }
    {
        let mut nodes = Vec::with_capacity(alloc, self.nodes.len())?;
        for (path, metadata) in &self.nodes {
            nodes.push((path.try_clone(alloc)?, metadata.try_clone(alloc)?))?;
        }
        Ok(Hierarchy { nodes })
    }

    // The nodes behind a path in the order of paths.
    pub(crate) fn behind(&self, path: &NodePath) -> &[(NodePath, NodeMetadata)]
        ensures behind { result.now ≡ pairs_behind path.now self.now }
        ensures ordered { Ascend self.now }
    {
        let start = match place_of(&self.nodes, path) {
            Ok(place) => place + 1,
            Err(gap) => gap,
        };
        &self.nodes.as_slice()[start..]
    }
}

// Where the path stands, or where it would stand.
fn place_of(nodes: &[(NodePath, NodeMetadata)], path: &NodePath) -> Result<usize, usize>
    requires ascending { Ascend nodes.now }
    ensures found { IfOk result (IsPathAt nodes.now path.now) }
    ensures absent { IfErr result (IsPathGap nodes.now path.now) }
{
    nodes.binary_search_by(|node| node.0.cmp(path))
}

// Where the nodes below a path end, among nodes that stand behind it.
fn end_below(nodes: &[(NodePath, NodeMetadata)], path: &NodePath) -> usize
    requires ascending { Ascend nodes.now }
    requires behind { IsBehind path.now nodes.now }
    ensures bound { result ≤ length nodes.now }
    ensures below { take result nodes.now ≡ pairs_below path.now nodes.now }
{
    nodes.partition_point(|node| is_below(&node.0, path))
}

// Whether a path is below another.
fn is_below(path: &NodePath, base: &NodePath) -> bool
    ensures { result ≡ is_path_below base.now path.now }
{
    path.is_below(base)
}
