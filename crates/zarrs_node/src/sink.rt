//! What takes the nodes that a walk finds.
ghost use Rattle.std.specs.Prelude.{OnOk};
ghost use Rattle.zarrs_meta.specs.declared.node.NodeMetadata.{NodeMetadata};
ghost use Rattle.zarrs_path.specs.Paths.{Path};
ghost use Rattle.zarrs_node.specs.Sinks.{KeepsPair, KeepsPath};

use std::alloc::AllocError;
use zarrs_meta::NodeMetadata;
use zarrs_path::NodePath;

/// What takes the nodes of a walk, one after another, each by its path and its metadata.
///
/// Source: own.
/// <https://zarr-specs.readthedocs.io/en/latest/v3/core/index.html#hierarchy>
pub trait NodeSink {
    // the first took a node and became the second
    ghost takes: { Self → (Path × NodeMetadata) → Self → Type 0 };

    /// Takes a node.
    ///
    /// # Errors
    ///
    /// `AllocError` when out of memory.
    fn take(&mut self, path: NodePath, metadata: NodeMetadata) -> Result<(), AllocError>
        ensures { OnOk result (takes self.old (path, metadata) self.new) };
}

/// Keeps the path of each node.
impl NodeSink for Vec<NodePath> {
    ghost takes = { KeepsPath };

    fn take(&mut self, path: NodePath, metadata: NodeMetadata) -> Result<(), AllocError> {
        drop(metadata);
        Ok(self.push(path)?)
    }
}

/// Keeps each node by its path and its metadata.
impl NodeSink for Vec<(NodePath, NodeMetadata)> {
    ghost takes = { KeepsPair };

    fn take(&mut self, path: NodePath, metadata: NodeMetadata) -> Result<(), AllocError> {
        Ok(self.push((path, metadata))?)
    }
}
