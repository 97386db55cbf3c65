//! Groups over a store: made from parts, opened, stored and erased by the keys of their documents.
//! All changes of a store are made ready before the first is done.
#![tactic(auto)]

mod ascii;
mod block_document;
mod builder;
mod children;
mod consolidated;
mod create_error;
mod edit;
mod full_block;
mod group;
mod group_value;
pub mod laws;
mod nesting;
mod open;
mod plain;
mod plain_names;
mod stored;
mod stored_text;
mod unsupported;

pub use builder::GroupBuilder;
pub use create_error::GroupCreateError;
pub use group::Group;
pub use unsupported::AdditionalFieldUnsupportedError;
