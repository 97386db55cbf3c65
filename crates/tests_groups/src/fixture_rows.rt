//! The lists of keys and documents in rows. A list, a document or a key that is misspelt is refused, so that its row fails.

use std::alloc::Global;
use tests_fixtures::{document_of, no_word, store_of};
use zarrs_store::{MemoryStore, StorageError};

// The groups and arrays of version 3 in three levels.
const THREE_LEVELS: &str =
    "zarr.json=G3 group/zarr.json=G3 group/subgroup/zarr.json=G3 array/zarr.json=A3_SQUARE group/array/zarr.json=A3_SQUARE group/subgroup/mysubarray/zarr.json=A3_SQUARE";

// The keys of the block of the group of three levels.
const LEVELS: &str = "array=A3_SQUARE subgroup=G3 subgroup/mysubarray=A3_SQUARE";

/// The keys and documents of a list such as `a=G3 b=A3`, or of a named one; none of `-`.
pub(crate) fn entries_in<'a>(
    alloc: Global,
    list: &'a str,
) -> Result<Vec<(&'a str, &'a str)>, StorageError> {
    let mut entries = Vec::new(alloc);
    let list = match list {
        "-" => return Ok(entries),
        "THREE_LEVELS" => THREE_LEVELS,
        "LEVELS" => LEVELS,
        list => list,
    };
    for entry in list.split(' ') {
        let Some((key, document)) = entry.split_once('=') else {
            return Err(no_word(alloc, entry));
        };
        entries.push((key, document_of(alloc, document)?))?;
    }
    Ok(entries)
}

/// The store with the documents of a list.
pub(crate) fn store_in(alloc: Global, list: &str) -> Result<MemoryStore, StorageError> {
    let entries = entries_in(alloc, list)?;
    store_of(alloc, entries.as_slice())
}
