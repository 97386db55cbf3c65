//! Callers of this library, each a proved example of what a layer above does: a first call; an array layer, which opens an array and reads a
//! chunk; a catalogue, which keeps a consolidated block current; and a converter of a hierarchy of version 2. They stand on public contracts
//! alone. Beside them stand a store of one's own, a list of entries, and the laws of maps between listings that the converter uses; the proofs of these
//! two use lemmas of `zarrs_store` and `zarrs_node` besides. docs/CALLING.md goes through their code.
#![tactic(auto)]

mod catalogue;
mod chunk_key;
mod converter;
mod first_call;
mod key_list;
pub mod laws;
mod opened_array;
mod own_store;

pub use catalogue::{Catalogue, Change, ChangeError, RefusedStep, StoringError, UpdateError};
pub use chunk_key::ChunkKeyEncoding;
pub use converter::{ConvertError, convert_hierarchy, erase_version_2};
pub use first_call::is_group_at;
pub use key_list::{dir_of_keys, keys_with_prefix};
pub use opened_array::{ChunkError, OpenArrayError, OpenedArray};
pub use own_store::{ListStore, ListStoreError};
