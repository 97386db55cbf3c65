//! What becomes of the document that holds the block of a group: the listed block is made and written back, or the block is removed. What is to be done is
//! found first, of a store or of a folder, and then done by [`zarrs_write`], which no crash can harm.
#![tactic(auto)]

mod carry_out;
mod fault;
mod folder;
pub mod laws;
mod plan;

pub use carry_out::Outcome;
pub use fault::ConsolidateError;
pub use folder::plan_in_folder;
pub use plan::{Plan, Task, plan_block};
