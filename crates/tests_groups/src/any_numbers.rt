//! Groups over a store whose documents may hold any number: they are opened, looked at, stored and opened again with fractions. Over a store of whole
//! numbers they are not stored with them.

use crate::fixture_rows::store_in;
use crate::fixtures::{Step, consolidated, done, left_text};
use crate::group_children::below_text;
use crate::groups::{group_of, step_of};
use std::alloc::{AllocError, Global};
use std::test::Fail;
use tests_fixtures::{config_of, no_word, policy_of};
use tests_support::{check_rows, fields, refusal, said};
use zarrs_block::ConsolidatedMetadata;
use zarrs_config::Config;
use zarrs_group::{Group, GroupCreateError};
use zarrs_meta::WrittenDocument;
use zarrs_store::{
    AnyNumbers, ListableStorageTraits, MemoryStore, Numbers, ReadableStorageTraits, StorageError,
};

// The group at `/g` of a store.
fn opened<S: ReadableStorageTraits>(alloc: Global, store: &S) -> Result<Group, GroupCreateError> {
    Group::open(alloc, store, "/g", &Config::new())
}

// A block, or that there is none.
fn block_text(block: &ConsolidatedMetadata, alloc: Global) -> Result<String, AllocError> {
    block.to_value(alloc)?.to_string(alloc)
}

// The block that a group holds, read in some numbers.
fn held_in(group: &Group, alloc: Global, numbers: Numbers) -> Result<String, AllocError> {
    match group.consolidated_metadata_in(alloc, numbers)? {
        Some(block) => block_text(&block, alloc),
        None => String::from_str(alloc, "none"),
    }
}

// The block that a group holds.
fn held(group: &Group, alloc: Global) -> Result<String, AllocError> {
    match group.consolidated_metadata(alloc)? {
        Some(block) => block_text(&block, alloc),
        None => String::from_str(alloc, "none"),
    }
}

// A group in words, and its block as it says, in whole numbers and in any.
fn group_text(group: &Group, alloc: Global) -> Result<String, AllocError> {
    let text = group.to_text(alloc)?;
    let own = held(group, alloc)?;
    let whole = held_in(group, alloc, Numbers::Whole)?;
    let any = held_in(group, alloc, Numbers::Any)?;
    format!(in alloc; "{text}, block {own}, in whole numbers {whole}, in any {any}")
}

// What is said of the group over a store: the group itself, or what stands below it there by a policy. A store in whole numbers is the one
// within that in any.
fn looked_at(
    alloc: Global,
    look: &str,
    group: &Group,
    store: &AnyNumbers<MemoryStore>,
    config: &Config,
) -> Result<String, StorageError> {
    match look {
        "opened" => Ok(group_text(group, alloc)?),
        "below" => Ok(below_text(group, alloc, store, config)?),
        "below in whole" => Ok(below_text(group, alloc, &store.inner, config)?),
        word => Err(no_word(alloc, word)),
    }
}

// What is said of the group over the store with the documents of a list, in any numbers; or as the store is. `LOOK | POLICY | LIST`.
fn looked(alloc: Global, given: &str) -> Result<String, StorageError> {
    let (look, rest) = fields(given);
    let (policy, list) = fields(rest);
    let store = store_in(alloc, list)?;
    if look == "opened in whole" {
        return Ok(said(alloc, opened(alloc, &store), group_text)?);
    }
    let store = AnyNumbers { inner: store };
    let config = config_of(policy_of(alloc, policy)?);
    match opened(alloc, &store) {
        Ok(group) => looked_at(alloc, look, &group, &store, &config),
        Err(error) => Ok(refusal(alloc, &error)?),
    }
}

// What is asked, a policy and documents; and the answer.
const LOOKED: &str = r#"
# A fraction is refused by name as the store is, and read over any numbers.
opened in whole | auto | g/zarr.json={"attributes":{"scale":0.5},"node_type":"group","zarr_format":3} => StorageError(InvalidMetadata): error parsing metadata for g/zarr.json: unsupported number
opened | auto | g/zarr.json={"attributes":{"scale":0.5},"node_type":"group","zarr_format":3} => group at /g with metadata {"attributes":{"scale":0.5},"node_type":"group","zarr_format":3}, block none, in whole numbers none, in any none
opened | auto | g/.zgroup=G2 g/.zattrs={"scale":1e3} => group at /g with metadata {"attributes":{"scale":1000.0},"zarr_format":2}, block none, in whole numbers none, in any none

# A fraction where the format has none is the fault of its member.
opened in whole | auto | g/zarr.json=[1.5] => StorageError(InvalidMetadata): error parsing metadata for g/zarr.json: unsupported number
opened | auto | g/zarr.json=[1.5] => StorageError(InvalidMetadata): error parsing metadata for g/zarr.json: not an object
opened | auto | g/zarr.json={"node_type":"group","zarr_format":3.0} => StorageError(InvalidMetadata): error parsing metadata for g/zarr.json: wrong zarr_format
opened | auto | g/.zgroup=G2 g/.zattrs=[1.5] => StorageError(InvalidMetadata): error parsing metadata for g/.zattrs: not an object

# The block of a version 3 group is one by the numbers that are asked for, that of a version 2 group by those of its store.
opened | auto | g/zarr.json={"consolidated_metadata":{"kind":"inline","metadata":{"a":{"attributes":{"n":1.5},"node_type":"group","zarr_format":3}},"must_understand":false},"node_type":"group","zarr_format":3} => group at /g with metadata {"consolidated_metadata":{"kind":"inline","metadata":{"a":{"attributes":{"n":1.5},"node_type":"group","zarr_format":3}},"must_understand":false},"node_type":"group","zarr_format":3}, block none, in whole numbers none, in any {"kind":"inline","metadata":{"a":{"attributes":{"n":1.5},"node_type":"group","zarr_format":3}},"must_understand":false}
opened | auto | g/.zgroup=G2 g/.zmetadata={"metadata":{"a/.zgroup":{"zarr_format":2},"a/.zattrs":{"k":1.5}},"zarr_consolidated_format":1} => group at /g with metadata {"zarr_format":2}, block {"kind":"inline","metadata":{"a":{"attributes":{"k":1.5},"zarr_format":2}},"must_understand":false}, in whole numbers {"kind":"inline","metadata":{"a":{"attributes":{"k":1.5},"zarr_format":2}},"must_understand":false}, in any {"kind":"inline","metadata":{"a":{"attributes":{"k":1.5},"zarr_format":2}},"must_understand":false}
opened in whole | auto | g/.zgroup=G2 g/.zmetadata={"metadata":{"a/.zgroup":{"zarr_format":2},"a/.zattrs":{"k":1.5}},"zarr_consolidated_format":1} => group at /g with metadata {"zarr_format":2}, block none, in whole numbers none, in any none

# What stands below a group is listed, or is its block.
below | never | g/zarr.json=G3 g/a/zarr.json={"attributes":{"n":1.5},"node_type":"group","zarr_format":3} => trees:\n/g/a {"attributes":{"n":1.5},"node_type":"group","zarr_format":3}\nchildren:\n/g/a {"attributes":{"n":1.5},"node_type":"group","zarr_format":3}\nall:\n/g/a {"attributes":{"n":1.5},"node_type":"group","zarr_format":3}\n
below | must | g/zarr.json={"consolidated_metadata":{"kind":"inline","metadata":{"a":{"attributes":{"n":1.5},"node_type":"group","zarr_format":3}},"must_understand":false},"node_type":"group","zarr_format":3} g/b/zarr.json=G3 => trees:\n/g/a {"attributes":{"n":1.5},"node_type":"group","zarr_format":3}\nchildren:\n/g/a {"attributes":{"n":1.5},"node_type":"group","zarr_format":3}\nall:\n/g/a {"attributes":{"n":1.5},"node_type":"group","zarr_format":3}\n
below | must | g/.zgroup=G2 g/.zmetadata={"metadata":{"a/.zgroup":{"zarr_format":2},"a/.zattrs":{"k":1.5}},"zarr_consolidated_format":1} => trees:\n/g/a {"attributes":{"k":1.5},"zarr_format":2}\nchildren:\n/g/a {"attributes":{"k":1.5},"zarr_format":2}\nall:\n/g/a {"attributes":{"k":1.5},"zarr_format":2}\n

# The numbers are those of the store that is handed in, not of the one that the group was opened in.
below in whole | never | g/zarr.json=G3 g/a/zarr.json={"attributes":{"n":1.5},"node_type":"group","zarr_format":3} => trees:\nStorageError(InvalidMetadata): error parsing metadata for g/a/zarr.json: unsupported numberchildren:\nStorageError(InvalidMetadata): error parsing metadata for g/a/zarr.json: unsupported numberall:\nStorageError(InvalidMetadata): error parsing metadata for g/a/zarr.json: unsupported number
below in whole | auto | g/zarr.json={"consolidated_metadata":{"kind":"inline","metadata":{"a":{"attributes":{"n":1.5},"node_type":"group","zarr_format":3}},"must_understand":false},"node_type":"group","zarr_format":3} g/b/zarr.json=G3 => trees:\n/g/b G3\nchildren:\n/g/b G3\nall:\n/g/b G3\n
below in whole | must | g/zarr.json={"consolidated_metadata":{"kind":"inline","metadata":{"a":{"attributes":{"n":1.5},"node_type":"group","zarr_format":3}},"must_understand":false},"node_type":"group","zarr_format":3} => trees:\nMissingMetadata: Metadata is missing for Consolidated metadata required but missing on group /gchildren:\nMissingMetadata: Metadata is missing for Consolidated metadata required but missing on group /gall:\nMissingMetadata: Metadata is missing for Consolidated metadata required but missing on group /g
"#;

#[test]
fn groups_are_opened_with_fractions(rt: HostRuntime) -> Result<(), Fail> {
    check_rows(rt.alloc(), LOOKED, looked)
}

// ---- storing and erasing

// What a step on a group says over a store in any numbers, or over the store in whole numbers within, and what the store then holds.
fn left_by(
    alloc: Global,
    numbers: &str,
    group: &Group,
    store: &mut AnyNumbers<MemoryStore>,
    step: Step,
) -> Result<String, StorageError> {
    let answer = match numbers {
        "any" => done(alloc, group, store, step),
        "whole" => done(alloc, group, &mut store.inner, step),
        word => Err(no_word(alloc, word)),
    };
    left_text(alloc, answer, "\n", &store.inner)
}

// What a step on the group of a store says, opened in any numbers. `NUMBERS | STEP | LIST`.
fn stepped(alloc: Global, given: &str) -> Result<String, GroupCreateError> {
    let (numbers, rest) = fields(given);
    let (step, list) = fields(rest);
    let step = step_of(alloc, step)?;
    let mut store = AnyNumbers {
        inner: store_in(alloc, list)?,
    };
    let group = opened(alloc, &store)?;
    Ok(left_by(alloc, numbers, &group, &mut store, step)?)
}

// The numbers of the store that a step is over, the step, and documents; and what the store holds then, behind the refusal where there is one.
const STEPPED: &str = r#"
# Metadata with a fraction are stored over a store in any numbers.
any | store | g/zarr.json={"attributes":{"n":1.5},"node_type":"group","zarr_format":3} => g/zarr.json {\n  "attributes": {\n    "n": 1.5\n  },\n  "node_type": "group",\n  "zarr_format": 3\n}\n
any | store | g/.zgroup=G2 g/.zattrs={"n":1.5} => g/.zattrs {\n  "n": 1.5\n}\ng/.zgroup {\n  "zarr_format": 2\n}\n
any | store | g/.zgroup={"u":[2.5],"zarr_format":2} g/.zattrs={"n":7} => g/.zattrs {\n  "n": 7\n}\ng/.zgroup {\n  "u": [\n    2.5\n  ],\n  "zarr_format": 2\n}\n
any | store v3 | g/.zgroup=G2 g/.zattrs={"n":1.5} => g/.zattrs {"n":1.5}\ng/.zgroup {"zarr_format":2}\ng/zarr.json {\n  "attributes": {\n    "n": 1.5\n  },\n  "node_type": "group",\n  "zarr_format": 3\n}\n

# A fraction is written as its 64 bits, not digit by digit.
any | store | g/zarr.json={"attributes":{"a":1e-05,"b":1.50,"c":18446744073709551616,"d":18446744073709551615},"node_type":"group","zarr_format":3} => g/zarr.json {\n  "attributes": {\n    "a": 0.00001,\n    "b": 1.5,\n    "c": 1.8446744073709552e+19,\n    "d": 18446744073709551615\n  },\n  "node_type": "group",\n  "zarr_format": 3\n}\n

# So is a block with a fraction, in the metadata of version 3 and beside those of version 2.
any | store | g/zarr.json={"consolidated_metadata":{"kind":"inline","metadata":{"a":{"attributes":{"n":1.5},"node_type":"group","zarr_format":3}},"must_understand":false},"node_type":"group","zarr_format":3} => g/zarr.json {\n  "consolidated_metadata": {\n    "kind": "inline",\n    "metadata": {\n      "a": {\n        "attributes": {\n          "n": 1.5\n        },\n        "node_type": "group",\n        "zarr_format": 3\n      }\n    },\n    "must_understand": false\n  },\n  "node_type": "group",\n  "zarr_format": 3\n}\n
any | store | g/.zgroup=G2 g/.zmetadata={"metadata":{"a/.zgroup":{"zarr_format":2},"a/.zattrs":{"k":1.5}},"zarr_consolidated_format":1} => g/.zgroup {\n  "zarr_format": 2\n}\ng/.zmetadata {\n  "metadata": {\n    ".zgroup": {\n      "zarr_format": 2\n    },\n    "a/.zattrs": {\n      "k": 1.5\n    },\n    "a/.zgroup": {\n      "zarr_format": 2\n    }\n  },\n  "zarr_consolidated_format": 1\n}\n

# Over a store in whole numbers they are refused, and nothing is changed.
whole | store | g/zarr.json={"attributes":{"n":1.5},"node_type":"group","zarr_format":3} => InvalidMetadata: error parsing metadata for g/zarr.json: unsupported number\ng/zarr.json {"attributes":{"n":1.5},"node_type":"group","zarr_format":3}\n
whole | store | g/.zgroup=G2 g/.zattrs={"n":1.5} => InvalidMetadata: error parsing metadata for g/.zgroup: unsupported number\ng/.zattrs {"n":1.5}\ng/.zgroup {"zarr_format":2}\n
whole | store v3 | g/.zgroup=G2 g/.zattrs={"n":1.5} => InvalidMetadata: error parsing metadata for g/zarr.json: unsupported number\ng/.zattrs {"n":1.5}\ng/.zgroup {"zarr_format":2}\n
whole | store | g/zarr.json={"consolidated_metadata":{"kind":"inline","metadata":{"a":{"attributes":{"n":1.5},"node_type":"group","zarr_format":3}},"must_understand":false},"node_type":"group","zarr_format":3} => InvalidMetadata: error parsing metadata for g/zarr.json: unsupported number\ng/zarr.json {"consolidated_metadata":{"kind":"inline","metadata":{"a":{"attributes":{"n":1.5},"node_type":"group","zarr_format":3}},"must_understand":false},"node_type":"group","zarr_format":3}\n
whole | store | g/.zgroup=G2 g/.zmetadata={"metadata":{"a/.zgroup":{"zarr_format":2},"a/.zattrs":{"k":1.5}},"zarr_consolidated_format":1} => InvalidMetadata: error parsing metadata for g/.zmetadata: unsupported number\ng/.zgroup {"zarr_format":2}\ng/.zmetadata {"metadata":{"a/.zgroup":{"zarr_format":2},"a/.zattrs":{"k":1.5}},"zarr_consolidated_format":1}\n

# Metadata in whole numbers are stored byte for byte alike over both, and each group is erased.
any | store v3 | g/.zgroup=G2 g/.zattrs={"n":1} => g/.zattrs {"n":1}\ng/.zgroup {"zarr_format":2}\ng/zarr.json {\n  "attributes": {\n    "n": 1\n  },\n  "node_type": "group",\n  "zarr_format": 3\n}\n
whole | store v3 | g/.zgroup=G2 g/.zattrs={"n":1} => g/.zattrs {"n":1}\ng/.zgroup {"zarr_format":2}\ng/zarr.json {\n  "attributes": {\n    "n": 1\n  },\n  "node_type": "group",\n  "zarr_format": 3\n}\n
any | erase | g/zarr.json={"attributes":{"n":1.5},"node_type":"group","zarr_format":3} =>
"#;

#[test]
fn groups_are_stored_with_fractions(rt: HostRuntime) -> Result<(), Fail> {
    check_rows(rt.alloc(), STEPPED, stepped)
}

// What a step says on a group that is made of metadata, over an empty store. `NUMBERS | STEP | VERSION | ATTRIBUTES | FIELDS`.
fn made_and_stepped(alloc: Global, given: &str) -> Result<String, GroupCreateError> {
    let (numbers, rest) = fields(given);
    let (step, metadata) = fields(rest);
    let step = step_of(alloc, step)?;
    let group = group_of(alloc, metadata, &Config::new())?;
    let mut store = AnyNumbers {
        inner: MemoryStore::new(alloc),
    };
    Ok(left_by(alloc, numbers, &group, &mut store, step)?)
}

// The numbers of a store, a step, and metadata; and what the store holds then, behind the refusal where there is one.
const MADE: &str = r#"
# A field of an own name is refused in any numbers, where a fraction beside it is refused first in whole ones.
any | store | 3 | {"n":1.5} | {"attributes":1} => InvalidMetadata: error parsing metadata for g/zarr.json: bad member attributes\n
any | store | 3 | {} | {"node_type":1.5} => InvalidMetadata: error parsing metadata for g/zarr.json: bad member node_type\n
any | store | 2 | {} | {"shape":[1.5]} => InvalidMetadata: error parsing metadata for g/.zgroup: bad member shape\n
whole | store | 3 | {"n":1.5} | {"attributes":1} => InvalidMetadata: error parsing metadata for g/zarr.json: unsupported number\n
whole | store | 2 | {} | {"shape":[1.5]} => InvalidMetadata: error parsing metadata for g/.zgroup: unsupported number\n

# Other fields are stored with their fractions.
any | store | 3 | {} | {"x":{"must_understand":false,"v":[0.5]}} => g/zarr.json {\n  "node_type": "group",\n  "x": {\n    "must_understand": false,\n    "v": [\n      0.5\n    ]\n  },\n  "zarr_format": 3\n}\n
any | store | 2 | {"n":-0.0} | {"x":0.25} => g/.zattrs {\n  "n": -0.0\n}\ng/.zgroup {\n  "x": 0.25,\n  "zarr_format": 2\n}\n
"#;

#[test]
fn made_groups_are_stored_with_fractions(rt: HostRuntime) -> Result<(), Fail> {
    check_rows(rt.alloc(), MADE, made_and_stepped)
}

// ---- stored and opened again

// The group at `/g` of a store, as it is or with the block of all that is listed below it.
fn group_by<S: ReadableStorageTraits + ListableStorageTraits>(
    alloc: Global,
    word: &str,
    store: &S,
) -> Result<Group, GroupCreateError> {
    match word {
        "as it is" => opened(alloc, store),
        "with its block" => consolidated(alloc, store, "/g"),
        word => Err(GroupCreateError::from(no_word(alloc, word))),
    }
}

// The group at `/g` of a store, once it was stored there.
fn stored(
    alloc: Global,
    word: &str,
    store: &mut AnyNumbers<MemoryStore>,
) -> Result<Group, GroupCreateError> {
    let group = group_by(alloc, word, store)?;
    group.store_metadata(alloc, store)?;
    opened(alloc, store)
}

// A group in words, and what stands below it.
fn all_text(
    group: &Group,
    alloc: Global,
    store: &AnyNumbers<MemoryStore>,
    config: &Config,
) -> Result<String, AllocError> {
    let text = group.to_text(alloc)?;
    let below = below_text(group, alloc, store, config)?;
    format!(in alloc; "{text}\n{below}")
}

// What is said of the group that was stored over the store with the documents of a list, in any numbers. `GROUP | POLICY | LIST`.
fn again(alloc: Global, given: &str) -> Result<String, StorageError> {
    let (word, rest) = fields(given);
    let (policy, list) = fields(rest);
    let config = config_of(policy_of(alloc, policy)?);
    let mut store = AnyNumbers {
        inner: store_in(alloc, list)?,
    };
    match stored(alloc, word, &mut store) {
        Ok(group) => Ok(all_text(&group, alloc, &store, &config)?),
        Err(error) => Ok(refusal(alloc, &error)?),
    }
}

// A group, a policy and documents; and what it is once it was stored.
const AGAIN: &str = r#"
# Without a block what stands below is listed.
as it is | auto | g/zarr.json={"attributes":{"scale":0.5},"node_type":"group","zarr_format":3} g/a/zarr.json={"attributes":{"n":1.5},"node_type":"group","zarr_format":3} => group at /g with metadata {"attributes":{"scale":0.5},"node_type":"group","zarr_format":3}\ntrees:\n/g/a {"attributes":{"n":1.5},"node_type":"group","zarr_format":3}\nchildren:\n/g/a {"attributes":{"n":1.5},"node_type":"group","zarr_format":3}\nall:\n/g/a {"attributes":{"n":1.5},"node_type":"group","zarr_format":3}\n
as it is | auto | g/.zgroup=G2 g/.zattrs={"scale":0.5} g/a/.zgroup=G2 g/a/.zattrs={"k":1.5} => group at /g with metadata {"attributes":{"scale":0.5},"zarr_format":2}\ntrees:\n/g/a {"attributes":{"k":1.5},"zarr_format":2}\nchildren:\n/g/a {"attributes":{"k":1.5},"zarr_format":2}\nall:\n/g/a {"attributes":{"k":1.5},"zarr_format":2}\n

# With its block the group gives the same by the block and by a listing.
with its block | must | g/zarr.json={"attributes":{"scale":0.5},"node_type":"group","zarr_format":3} g/a/zarr.json={"attributes":{"n":1.5},"node_type":"group","zarr_format":3} => group at /g with metadata {"attributes":{"scale":0.5},"consolidated_metadata":{"kind":"inline","metadata":{"a":{"attributes":{"n":1.5},"node_type":"group","zarr_format":3}},"must_understand":false},"node_type":"group","zarr_format":3}\ntrees:\n/g/a {"attributes":{"n":1.5},"node_type":"group","zarr_format":3}\nchildren:\n/g/a {"attributes":{"n":1.5},"node_type":"group","zarr_format":3}\nall:\n/g/a {"attributes":{"n":1.5},"node_type":"group","zarr_format":3}\n
with its block | never | g/zarr.json={"attributes":{"scale":0.5},"node_type":"group","zarr_format":3} g/a/zarr.json={"attributes":{"n":1.5},"node_type":"group","zarr_format":3} => group at /g with metadata {"attributes":{"scale":0.5},"consolidated_metadata":{"kind":"inline","metadata":{"a":{"attributes":{"n":1.5},"node_type":"group","zarr_format":3}},"must_understand":false},"node_type":"group","zarr_format":3}\ntrees:\n/g/a {"attributes":{"n":1.5},"node_type":"group","zarr_format":3}\nchildren:\n/g/a {"attributes":{"n":1.5},"node_type":"group","zarr_format":3}\nall:\n/g/a {"attributes":{"n":1.5},"node_type":"group","zarr_format":3}\n
with its block | must | g/.zgroup=G2 g/.zattrs={"scale":0.5} g/a/.zgroup=G2 g/a/.zattrs={"k":1.5} => group at /g with metadata {"attributes":{"scale":0.5},"zarr_format":2}\ntrees:\n/g/a {"attributes":{"k":1.5},"zarr_format":2}\nchildren:\n/g/a {"attributes":{"k":1.5},"zarr_format":2}\nall:\n/g/a {"attributes":{"k":1.5},"zarr_format":2}\n
with its block | never | g/.zgroup=G2 g/.zattrs={"scale":0.5} g/a/.zgroup=G2 g/a/.zattrs={"k":1.5} => group at /g with metadata {"attributes":{"scale":0.5},"zarr_format":2}\ntrees:\n/g/a {"attributes":{"k":1.5},"zarr_format":2}\nchildren:\n/g/a {"attributes":{"k":1.5},"zarr_format":2}\nall:\n/g/a {"attributes":{"k":1.5},"zarr_format":2}\n

# Arrays are entries of a block with the fractions of their fill values, codecs and data types.
with its block | must | g/.zgroup=G2 g/a/.zarray={"chunks":[10],"compressor":{"id":"z","level":0.5},"dimension_separator":".","dtype":[["x","<f8",1.5]],"fill_value":2.5,"filters":[{"id":"f","by":0.25}],"order":"C","shape":[10],"zarr_format":2} => group at /g with metadata {"zarr_format":2}\ntrees:\n/g/a {"chunks":[10],"compressor":{"id":"z","level":0.5},"dimension_separator":".","dtype":[["x","<f8",1.5]],"fill_value":2.5,"filters":[{"by":0.25,"id":"f"}],"order":"C","shape":[10],"zarr_format":2}\nchildren:\n/g/a {"chunks":[10],"compressor":{"id":"z","level":0.5},"dimension_separator":".","dtype":[["x","<f8",1.5]],"fill_value":2.5,"filters":[{"by":0.25,"id":"f"}],"order":"C","shape":[10],"zarr_format":2}\nall:\n/g/a {"chunks":[10],"compressor":{"id":"z","level":0.5},"dimension_separator":".","dtype":[["x","<f8",1.5]],"fill_value":2.5,"filters":[{"by":0.25,"id":"f"}],"order":"C","shape":[10],"zarr_format":2}\n
"#;

#[test]
fn stored_groups_are_opened_again_with_fractions(rt: HostRuntime) -> Result<(), Fail> {
    check_rows(rt.alloc(), AGAIN, again)
}
