//! What there is to tell of one node by its own documents: what a reader refuses though the documents read, what stands beside them and
//! is not read, and what a run of writing left. The nodes below it are no part of it. Each finding prints itself, and says whether it is a
//! note; docs/CHECK.md says what it means.
#![tactic(auto)]

mod beside;
mod fields;
mod file;
mod finding;
pub mod laws;
mod node;
mod shapes;
mod values;

pub use file::NodeFile;
pub use finding::NodeFinding;
pub use node::node_findings;
