//! A survey of a store: every node, every path without documents and all that is bad at a path and below it; and what there is to tell of the
//! consolidated block of a group beside it. `Check` reports on a store and its blocks and keeps no metadata; `Survey` keeps the nodes, with which
//! `compare_block` compares a block. `check_above` compares the blocks of the groups above a path, and `PathCheck` is the whole check of a path.
//! docs/CHECK.md says what each finding means, and what none tells.
#![tactic(auto)]

mod alike;
mod bad_documents;
mod base;
mod block;
mod blocks_above;
mod check;
mod comparison;
mod comparisons;
mod finding;
mod keys;
pub mod laws;
mod orphans;
mod own;
mod path_check;
mod survey;
mod visits;

pub use bad_documents::BadDocuments;
pub use base::Base;
pub use block::compare_block;
pub use blocks_above::check_above;
pub use check::{Check, read_block};
pub use finding::{Finding, FindingKind};
pub use path_check::{CheckedFrom, PathCheck};
pub use survey::Survey;
