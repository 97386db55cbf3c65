//! The choices that calls go by: which versions are looked for, written and erased, and when a consolidated block is used.
//! A value of `Config`, with a getter and a setter for each choice, stands where another library has settings of the whole program.
#![tactic(auto)]

mod config;
mod group_metadata_options;
mod version;

pub use config::Config;
pub use group_metadata_options::GroupMetadataOptions;
pub use version::{
    MetadataConvertVersion, MetadataEraseVersion, MetadataRetrieveVersion, UseConsolidatedMetadata,
};
