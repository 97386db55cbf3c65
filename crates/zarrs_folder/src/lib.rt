//! The store of a folder, as far as its nodes need it: the documents of each node, and one key of what lies beside nodes. No chunk is read,
//! and none is listed but by `load_passed`. What the store shows is what the whole folder would show, by a law.
#![tactic(auto)]

mod disk;
mod documents;
mod fault;
mod folder;
mod kinds;
pub mod laws;
mod memory;
mod nodes;
mod passed;
mod paths;
mod progress;
mod read;
mod record;

pub use disk::Disk;
pub use documents::Documents;
pub use fault::FolderFault;
pub use folder::Folder;
pub use nodes::{load_base, load_below, load_children, load_nodes};
pub use passed::load_passed;
pub use paths::load_paths;
