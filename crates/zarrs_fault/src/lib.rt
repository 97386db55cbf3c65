//! The faults of metadata documents: why one was refused, and which numbers a document may hold. The crate stands below stores and documents
//! alike, which are proved side by side; so it also names the bytes that keys, paths and texts are put together with, for the definitions of all crates.
#![tactic(auto)]

mod fault;
mod numbers;

pub use fault::{MemberName, MetadataFault};
pub use numbers::Numbers;
