//! Names and paths of the nodes of a Zarr hierarchy, and the keys of their documents.
//! A path is its list of names, with a text, an order, a prefix and keys.
//! `laws` has what holds of all of them.
#![tactic(auto)]

mod key;
pub mod laws;
mod node_name;
mod node_path;
mod order;
mod text;

pub use key::{
    data_key, meta_key, meta_key_v2_array, meta_key_v2_attributes, meta_key_v2_consolidated,
    meta_key_v2_group, meta_key_v3,
};
pub use node_name::{NodeName, NodeNameError};
pub use node_path::{NodePath, NodePathError, without_leading_slash};
