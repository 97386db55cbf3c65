//! Whether two nodes have the same metadata: they are compared as data, part by part, where they lie, and nothing is
//! allocated. What is said of the nodes below a group is no part of it.
#![tactic(auto)]

mod fields;
mod node;
mod parts;
mod values;

pub use node::is_same_metadata;
