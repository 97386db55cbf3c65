//! Tests of the callers of `zarrs_examples` on stores as zarr-python writes them, and of its store of one's own.

mod catalogue;
mod converter;
mod first_call;
mod opened_array;
mod own_store;
