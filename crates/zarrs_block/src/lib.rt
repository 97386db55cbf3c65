//! The consolidated block of a group, which holds the metadata of the nodes below it: read, written, chosen in place of a listing, and
//! expanded to paths.
#![tactic(auto)]

mod asked;
mod consolidated;
mod expand;
pub mod laws;
mod policy;
mod pretty;
mod without;
mod zmetadata;
mod zmetadata_written;

pub use consolidated::{ConsolidatedMetadata, ConsolidatedMetadataMetadata};
pub use expand::expand_consolidated_metadata;
pub use policy::{
    consolidated_metadata_for_open, consolidated_metadata_for_open_in, consolidated_metadata_of,
    consolidated_metadata_of_in, resolve_consolidated_policy,
};
