//! Nodes and the listing of a store. `Node::get_metadata` reads one node, `list_nodes` lists those below a path, and `Node::open` opens a node as
//! a tree with all below it. Each listing is one walk, `walk_nodes`, which hands each node to a sink. Blocks are made of nodes, and made current.
#![tactic(auto)]

mod build;
mod children;
mod consolidate;
mod copies;
mod descent;
mod fault;
mod last_name;
pub mod laws;
mod listing;
mod metadata;
mod node;
mod open;
mod preorder;
mod refresh;
mod sink;
mod text;
mod zmetadata;

pub use build::{build_node_tree, build_node_tree_counted, direct_children_from_flat};
pub use children::{
    LISTING, consolidate_nodes_of, get_all_nodes_of, get_child_nodes, get_child_nodes_opt,
    warn_ignored,
};
pub use descent::{WalkedPast, walk_nodes, walk_past_faults};
pub use fault::NodeFault;
pub use listing::{ListedNodes, list_nodes};
pub use node::Node;
pub use open::nodes_of_block;
pub use refresh::{refresh_block, refresh_owned_block};
pub use sink::NodeSink;
pub use text::NodeLine;
pub use zmetadata::{consolidated_metadata_at, zmetadata_at};
