//! Hierarchies: the nodes at a path and below it, flat by their paths, and their text.
//! Contracts see a hierarchy as its pairs of path and metadata, in the order of paths.
//! `laws` has what holds of all of them.
#![tactic(auto)]

mod hierarchy;
pub mod laws;
mod open;
mod tree;
mod tree_text;

pub use hierarchy::{Hierarchy, HierarchyCreateError};
pub use open::walk_hierarchy;
pub use tree::depth;
pub use tree_text::tree_at;
pub use zarrs_meaning::NodeCreateError;
pub use zarrs_meta::NodeMetadata;
pub use zarrs_node::Node;
pub use zarrs_path::{NodePath, NodePathError};
