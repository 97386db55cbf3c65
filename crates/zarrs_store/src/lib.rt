//! Stores of keys and bytes: keys and prefixes, the trait `Store` and the three traits over it, a store in memory, one that fails at a place, one
//! that takes any number in its documents, and the faults of stores.
//!
//! Contracts see a store as a finite map from keys to bytes and the numbers of its documents, a key as its list of segments. Each call is a look-up,
//! the keys or next segments behind a prefix, or one change.
#![tactic(auto)]

mod any_numbers;
mod children;
mod fault_store;
mod key;
pub mod laws;
mod listing;
mod memory_store;
mod places;
mod prefix;
mod storage_error;
mod store;

pub use any_numbers::AnyNumbers;
pub use children::discover_children;
pub use fault_store::{FaultAt, FaultStore};
pub use key::{StoreKey, StoreKeyError};
pub use memory_store::MemoryStore;
pub use prefix::{StorePrefix, StorePrefixError};
pub use storage_error::StorageError;
pub use store::{
    ListableStorageTraits, ReadableStorageTraits, Store, StoreKeysPrefixes, WritableStorageTraits,
};
pub use zarrs_fault::{MemberName, MetadataFault, Numbers};
