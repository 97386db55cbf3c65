//! What a path means in a store, by its metadata documents: `metadata_at` reads them, `find_metadata` those of one path after another, and
//! `node_exists` asks whether one is there. And why a node was not made: the refusals that reading, listing and building nodes share.
#![tactic(auto)]

mod documents;
mod exists;
mod last_read;
pub mod laws;
mod metadata;
mod node_create_error;

pub use documents::{attributes_at, document_at};
pub use exists::{node_exists, node_exists_listable};
pub use last_read::LastDocuments;
pub use metadata::{find_metadata, metadata_at};
pub use node_create_error::NodeCreateError;
