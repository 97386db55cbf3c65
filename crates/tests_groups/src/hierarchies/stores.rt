//! The data set that a builder stores, beside the stores that are lists of documents.

use crate::fixture_rows::store_in as store_of_list;
use crate::fixtures::store_built_at;
use std::alloc::Global;
use tests_fixtures::key_of;
use zarrs_group::GroupCreateError;
use zarrs_store::{MemoryStore, WritableStorageTraits};

// An array of version 3 with the shape `[10,10]` in chunks of `[5,5]`.
const TILED: &str =
    r#"{"chunk_grid":{"configuration":{"chunk_shape":[5,5]},"name":"regular"},"chunk_key_encoding":{"configuration":{"separator":"/"},"name":"default"},"codecs":[{"configuration":{"endian":"little"},"name":"bytes"}],"data_type":"float32","fill_value":0,"node_type":"array","shape":[10,10],"zarr_format":3}"#;

// The keys of the arrays of the data set.
const DATASET_ARRAYS: &str =
    "array/zarr.json group/array/zarr.json group/subgroup/mysubarray/zarr.json";

// Stores groups in three levels that a builder of nothing makes, and arrays in each.
fn store_dataset(alloc: Global, store: &mut MemoryStore) -> Result<(), GroupCreateError> {
    store_built_at(alloc, store, "/ /group /group/subgroup")?;
    for key in DATASET_ARRAYS.split(' ') {
        store.set(&key_of(alloc, key)?, TILED.as_bytes())?;
    }
    Ok(())
}

// The store of those groups and arrays.
fn dataset(alloc: Global) -> Result<MemoryStore, GroupCreateError> {
    let mut store = MemoryStore::new(alloc);
    store_dataset(alloc, &mut store)?;
    Ok(store)
}

/// The store of a row: `DATASET`, or the one of a list.
pub(crate) fn store_in(alloc: Global, list: &str) -> Result<MemoryStore, GroupCreateError> {
    match list {
        "DATASET" => dataset(alloc),
        list => Ok(store_of_list(alloc, list)?),
    }
}
