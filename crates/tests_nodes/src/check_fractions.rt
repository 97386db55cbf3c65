//! Stores whose documents have fractions: what surveys, checks and blocks are over whole numbers, and over any.

use crate::findings::findings_text;
use crate::given::store_in;
use crate::surveys::check_text;
use log::sink::Discard;
use std::alloc::{AllocError, Global};
use std::test::Fail;
use tests_fixtures::{ANY, metadata_in};
use tests_support::{check_rows, fields, printed, refusal, said};
use zarrs_block::ConsolidatedMetadataMetadata;
use zarrs_check::{Check, Finding, Survey, compare_block, read_block};
use zarrs_meaning::NodeCreateError;
use zarrs_meta::{NodeMetadata, WrittenDocument};
use zarrs_path::NodePath;
use zarrs_store::{AnyNumbers, ListableStorageTraits, MemoryStore, ReadableStorageTraits};

// ---- what a check has

fn check_of<S: ReadableStorageTraits + ListableStorageTraits>(
    alloc: Global,
    store: &S,
) -> Result<Check, NodeCreateError> {
    let root = NodePath::root(alloc)?;
    Check::of_store(&Discard, alloc, store, &root, &ANY)
}

// What it has of the store, and what it tells of blocks.
fn check_data(check: &Check, alloc: Global) -> Result<String, AllocError> {
    let store = check_text(check, alloc)?;
    let findings = findings_text(&check.findings, alloc)?;
    format!(in alloc; "{store}{findings}")
}

// A check of the store with the documents of a list, as it is (`whole`) or with any numbers (`any`).
fn checked(alloc: Global, given: &str) -> Result<Check, NodeCreateError> {
    let (numbers, documents) = fields(given);
    let store = store_in(alloc, documents)?;
    match numbers {
        "whole" => check_of(alloc, &store),
        "any" => check_of(alloc, &AnyNumbers { inner: store }),
        word => Err(no_numbers(alloc, word)?),
    }
}

// The refusal of a word that names no numbers, which fails its row.
fn no_numbers(alloc: Global, word: &str) -> Result<NodeCreateError, AllocError> {
    let said = format!(in alloc; "no numbers: {word}")?;
    Ok(NodeCreateError::MissingMetadata(said))
}

fn checked_said(alloc: Global, given: &str) -> Result<String, AllocError> {
    said(alloc, checked(alloc, given), check_data)
}

// The numbers of a store, and the store; the base, the number of the nodes, what is bad, and what is wrong with its blocks.
const CHECKED: &str = r#"
# a fraction in attributes, in a fill value, in a configuration, in an additional field
whole | zarr.json G3;a/zarr.json {"attributes":{"k":0.5},"node_type":"group","zarr_format":3} => / node\n1 nodes\n/a StorageError(InvalidMetadata): error parsing metadata for a/zarr.json: unsupported number\n
any | zarr.json G3;a/zarr.json {"attributes":{"k":0.5},"node_type":"group","zarr_format":3} => / node\n2 nodes\n
whole | .zgroup G2;a/.zgroup G2;a/.zattrs {"k":0.5} => / node\n1 nodes\n/a StorageError(InvalidMetadata): error parsing metadata for a/.zattrs: unsupported number\n
any | .zgroup G2;a/.zgroup G2;a/.zattrs {"k":0.5} => / node\n2 nodes\n
whole | a/.zarray {"chunks":[1],"compressor":null,"dtype":"<f8","fill_value":0.0,"filters":null,"order":"C","shape":[1],"zarr_format":2} => / MissingMetadata: Metadata is missing for /\n0 nodes\n/a StorageError(InvalidMetadata): error parsing metadata for a/.zarray: unsupported number\n
any | a/.zarray {"chunks":[1],"compressor":null,"dtype":"<f8","fill_value":0.0,"filters":null,"order":"C","shape":[1],"zarr_format":2} => / MissingMetadata: Metadata is missing for /\n1 nodes\n
any | a/.zarray {"chunks":[1],"compressor":{"id":"x","scale":1e2},"dtype":"<f8","fill_value":null,"filters":[{"id":"y","offset":273.15}],"order":"C","shape":[1],"zarr_format":2} => / MissingMetadata: Metadata is missing for /\n1 nodes\n
any | zarr.json {"node_type":"group","x":{"must_understand":false,"n":-0.0},"zarr_format":3} => / node\n1 nodes\n
whole | zarr.json {"attributes":{"k":18446744073709551616},"node_type":"group","zarr_format":3} => / StorageError(InvalidMetadata): error parsing metadata for zarr.json: unsupported number\n0 nodes\n
any | zarr.json {"attributes":{"k":18446744073709551616},"node_type":"group","zarr_format":3} => / node\n1 nodes\n
# a fraction where a length, a name or a number of the form stands is the fault of that member
whole | a/.zarray {"chunks":[1],"dtype":"<f8","fill_value":0,"order":"C","shape":[1.5],"zarr_format":2} => / MissingMetadata: Metadata is missing for /\n0 nodes\n/a StorageError(InvalidMetadata): error parsing metadata for a/.zarray: unsupported number\n
any | a/.zarray {"chunks":[1],"dtype":"<f8","fill_value":0,"order":"C","shape":[1.5],"zarr_format":2} => / MissingMetadata: Metadata is missing for /\n0 nodes\n/a StorageError(InvalidMetadata): error parsing metadata for a/.zarray: bad member shape\n
any | a/.zarray {"chunks":[1.0],"dtype":"<f8","fill_value":0,"order":"C","shape":[1],"zarr_format":2} => / MissingMetadata: Metadata is missing for /\n0 nodes\n/a StorageError(InvalidMetadata): error parsing metadata for a/.zarray: bad member chunks\n
any | zarr.json {"node_type":"group","zarr_format":3.0} => / StorageError(InvalidMetadata): error parsing metadata for zarr.json: wrong zarr_format\n0 nodes\n
any | zarr.json {"node_type":3.5,"zarr_format":3} => / StorageError(InvalidMetadata): error parsing metadata for zarr.json: wrong node_type\n0 nodes\n
# what is no JSON stays so
any | zarr.json {"attributes":{"k":NaN},"node_type":"group","zarr_format":3} => / StorageError(InvalidMetadata): error parsing metadata for zarr.json: not JSON\n0 nodes\n
any | a/.zgroup G2;a/.zattrs {"k":-Infinity} => / MissingMetadata: Metadata is missing for /\n0 nodes\n/a StorageError(InvalidMetadata): error parsing metadata for a/.zattrs: not JSON\n
any | zarr.json {"attributes":{"k":1e400},"node_type":"group","zarr_format":3} => / StorageError(InvalidMetadata): error parsing metadata for zarr.json: not JSON\n0 nodes\n
any | zarr.json {"attributes":{"k":.5},"node_type":"group","zarr_format":3} => / StorageError(InvalidMetadata): error parsing metadata for zarr.json: not JSON\n0 nodes\n
# own attributes of a block: fractions by their bits, and whole numbers apart from them
any | .zgroup G2;.zattrs {"k":6378140.0};.zmetadata {"metadata":{".zattrs":{"k":6.37814e+06},".zgroup":{"zarr_format":2}},"zarr_consolidated_format":1} => / node\n1 nodes\n
any | .zgroup G2;.zattrs {"k":0.0};.zmetadata {"metadata":{".zattrs":{"k":-0.0},".zgroup":{"zarr_format":2}},"zarr_consolidated_format":1} => / node\n1 nodes\n/ / OwnAttributes\n
any | .zgroup G2;.zattrs {"k":1};.zmetadata {"metadata":{".zattrs":{"k":1.0},".zgroup":{"zarr_format":2}},"zarr_consolidated_format":1} => / node\n1 nodes\n/ / OwnAttributes\n
whole | .zgroup G2;.zattrs {"k":1};.zmetadata {"metadata":{".zattrs":{"k":1.0},".zgroup":{"zarr_format":2}},"zarr_consolidated_format":1} => / node\n1 nodes\n/ / BlockFault UnsupportedNumber: unsupported number\n
# blocks: one fraction in an entry, beside it in a group, and in what is no entry
whole | zarr.json {"consolidated_metadata":{"kind":"inline","metadata":{"a":{"attributes":{"k":0.5},"node_type":"group","zarr_format":3}},"must_understand":false},"node_type":"group","zarr_format":3};a/zarr.json {"attributes":{"k":0.5},"node_type":"group","zarr_format":3} => / StorageError(InvalidMetadata): error parsing metadata for zarr.json: unsupported number\n0 nodes\n/a StorageError(InvalidMetadata): error parsing metadata for a/zarr.json: unsupported number\n
any | zarr.json {"consolidated_metadata":{"kind":"inline","metadata":{"a":{"attributes":{"k":0.5},"node_type":"group","zarr_format":3}},"must_understand":false},"node_type":"group","zarr_format":3};a/zarr.json {"attributes":{"k":0.5},"node_type":"group","zarr_format":3} => / node\n2 nodes\n
any | zarr.json {"consolidated_metadata":{"kind":"inline","metadata":{"a":{"attributes":{"k":0.5},"node_type":"group","zarr_format":3}},"must_understand":false},"node_type":"group","zarr_format":3};b/zarr.json G3 => / node\n2 nodes\n/ /a Stale\n/ /b Missing\n
whole | .zgroup G2;.zmetadata {"metadata":{"a/.zattrs":{"k":0.5},"a/.zgroup":{"zarr_format":2}},"zarr_consolidated_format":1};a/.zgroup G2;a/.zattrs {"k":0.5} => / node\n1 nodes\n/a StorageError(InvalidMetadata): error parsing metadata for a/.zattrs: unsupported number\n/ / BlockFault UnsupportedNumber: unsupported number\n
any | .zgroup G2;.zmetadata {"metadata":{"a/.zattrs":{"k":0.5},"a/.zgroup":{"zarr_format":2}},"zarr_consolidated_format":1};a/.zgroup G2;a/.zattrs {"k":0.5} => / node\n2 nodes\n
whole | .zgroup G2;.zattrs {"k":1};.zmetadata {"metadata":{".zattrs":{"k":1.5}},"zarr_consolidated_format":1} => / node\n1 nodes\n/ / BlockFault UnsupportedNumber: unsupported number\n
any | .zgroup G2;.zattrs {"k":1};.zmetadata {"metadata":{".zattrs":{"k":1.5}},"zarr_consolidated_format":1} => / node\n1 nodes\n
# blocks that do not read
any | .zgroup G2;.zmetadata {"metadata":{"a/.zgroup":{"zarr_format":2.0}},"zarr_consolidated_format":1} => / node\n1 nodes\n/ / BlockFault BadMember: bad member metadata\n
any | .zgroup G2;.zmetadata {"metadata":{},"zarr_consolidated_format":1.0} => / node\n1 nodes\n/ / BlockFault BadMember: bad member zarr_consolidated_format\n
any | .zgroup G2;.zmetadata {"metadata":{".zattrs":{"k":NaN}},"zarr_consolidated_format":1} => / node\n1 nodes\n/ / BlockFault NotJson: not JSON\n
any | zarr.json {"consolidated_metadata":{"kind":0.5,"metadata":{},"must_understand":false},"node_type":"group","zarr_format":3} => / node\n1 nodes\n/ / BlockFault BadMember: bad member kind\n
any | zarr.json {"consolidated_metadata":{"kind":"inline","metadata":{"a":{"node_type":"group","zarr_format":3.0}},"must_understand":false},"node_type":"group","zarr_format":3} => / node\n1 nodes\n/ / BlockFault BadMember: bad member metadata\n
any | zarr.json {"consolidated_metadata":0.5,"node_type":"group","zarr_format":3} => / node\n1 nodes\n/ / BlockFault NotAnObject: not an object\n
"#;

#[test]
fn a_check_goes_by_the_numbers_of_its_store(rt: HostRuntime) -> Result<(), Fail> {
    check_rows(rt.alloc(), CHECKED, checked_said)
}

// ---- when two numbers are the same

// Where a document and its entry have their numbers: the documents of the store, `STORED` for the one number and `COPIED` for the other.
const PLACES: [&str; 6] = [
    r#"zarr.json {"consolidated_metadata":{"kind":"inline","metadata":{"a":{"attributes":{"k":[COPIED]},"node_type":"group","zarr_format":3}},"must_understand":false},"node_type":"group","zarr_format":3};a/zarr.json {"attributes":{"k":[STORED]},"node_type":"group","zarr_format":3}"#,
    r#"zarr.json {"consolidated_metadata":{"kind":"inline","metadata":{"a":{"node_type":"group","x":{"n":COPIED},"zarr_format":3}},"must_understand":false},"node_type":"group","zarr_format":3};a/zarr.json {"node_type":"group","x":{"n":STORED},"zarr_format":3}"#,
    r#"zarr.json {"consolidated_metadata":{"kind":"inline","metadata":{"a":{"chunk_grid":{"configuration":{"chunk_shape":[1]},"name":"regular"},"chunk_key_encoding":{"name":"default"},"codecs":["bytes"],"data_type":"float64","fill_value":COPIED,"node_type":"array","shape":[1],"zarr_format":3}},"must_understand":false},"node_type":"group","zarr_format":3};a/zarr.json {"chunk_grid":{"configuration":{"chunk_shape":[1]},"name":"regular"},"chunk_key_encoding":{"name":"default"},"codecs":["bytes"],"data_type":"float64","fill_value":STORED,"node_type":"array","shape":[1],"zarr_format":3}"#,
    r#".zgroup G2;.zmetadata {"metadata":{"a/.zattrs":{"k":COPIED},"a/.zgroup":{"zarr_format":2}},"zarr_consolidated_format":1};a/.zgroup G2;a/.zattrs {"k":STORED}"#,
    r#".zgroup G2;.zmetadata {"metadata":{"a/.zarray":{"chunks":[1],"compressor":null,"dtype":"<f8","fill_value":COPIED,"filters":null,"order":"C","shape":[1],"zarr_format":2}},"zarr_consolidated_format":1};a/.zarray {"chunks":[1],"compressor":null,"dtype":"<f8","fill_value":STORED,"filters":null,"order":"C","shape":[1],"zarr_format":2}"#,
    r#".zgroup G2;.zmetadata {"metadata":{"a/.zarray":{"chunks":[1],"compressor":{"id":"c","n":COPIED},"dtype":"<f8","fill_value":0,"filters":null,"order":"C","shape":[1],"zarr_format":2}},"zarr_consolidated_format":1};a/.zarray {"chunks":[1],"compressor":{"id":"c","n":STORED},"dtype":"<f8","fill_value":0,"filters":null,"order":"C","shape":[1],"zarr_format":2}"#,
];

// What is told of a node with the one number whose entry has the other, over any numbers.
fn told(alloc: Global, place: &str, stored: &str, copied: &str) -> Result<String, NodeCreateError> {
    let documents = place.replace(alloc, "STORED", stored)?;
    let documents = documents.replace(alloc, "COPIED", copied)?;
    let store = AnyNumbers {
        inner: store_in(alloc, documents.as_str())?,
    };
    Ok(said(alloc, check_of(alloc, &store), check_data)?)
}

// What a check tells where the two are the same, and where they differ.
const SAME: &str = "/ node\n2 nodes\n";

const DIFFERS: &str = "/ node\n2 nodes\n/ /a Differs\n";

// The word for what was told, or what was told.
fn word_of(told: &str) -> &str {
    if told == SAME {
        "same"
    } else if told == DIFFERS {
        "differs"
    } else {
        told
    }
}

// Whether two numbers are the same at every place, also the other way round; else what was told at the first place where it is otherwise.
fn compared(alloc: Global, given: &str) -> Result<String, NodeCreateError> {
    let (first, second) = fields(given);
    let mut answer = String::new(alloc);
    for place in PLACES {
        for (stored, copied) in [(first, second), (second, first)] {
            let found = told(alloc, place, stored, copied)?;
            let word = word_of(found.as_str());
            if answer.is_empty() {
                answer.push_str(word)?;
            } else if answer.as_str() != word {
                return Ok(format!(in alloc; "{answer}, and {word} at {place}")?);
            }
        }
    }
    Ok(answer)
}

fn compared_said(alloc: Global, given: &str) -> Result<String, AllocError> {
    said(alloc, compared(alloc, given), printed)
}

// Two numbers; whether a document with the one and its entry with the other are the same.
const NUMBERS: &str = r#"
# the same number in other words
0.5 | 0.5 => same
0.5 | 0.50 => same
6.37814e+06 | 6378140.0 => same
2.9999999999999999e-07 | 3e-07 => same
1e-05 | 0.00001 => same
1E2 | 100.0 => same
0.1 | 0.1000000000000000055511151231257827021181583404541015625 => same
5e-324 | 4.9e-324 => same
1.7976931348623157e308 | 17976931348623157e+292 => same
18446744073709551616 | 1.8446744073709552e+19 => same
9223372036854775809.0 | 9.223372036854775808e18 => same
0.0 | 0e5 => same
-0.0 | -0e-5 => same
1e-400 | 0.0 => same
# other numbers, as near as they come
0.1 | 0.10000000000000002 => differs
0.3 | 0.30000000000000004 => differs
1e300 | 1.0000000000000002e300 => differs
1e+20 | 1.0000000200408773e+20 => differs
1.7976931348623157e308 | 1.7976931348623155e308 => differs
5e-324 | 1e-323 => differs
5e-324 | 0.0 => differs
0.5 | -0.5 => differs
0.0 | -0.0 => differs
# a whole number and one with a fraction or an exponent
1 | 1.0 => differs
0 | 0.0 => differs
0 | -0.0 => differs
-90 | -90.0 => differs
100 | 1e2 => differs
9007199254740993 | 9007199254740992.0 => differs
18446744073709551615 | 1.8446744073709552e+19 => differs
# whole numbers are told apart to the last digit, and numbers from what is none
9007199254740993 | 9007199254740992 => differs
1 | 1 => same
0.5 | "0.5" => differs
0.0 | null => differs
1.0 | true => differs
0.5 | [0.5] => differs
"#;

#[test]
fn fractions_are_the_same_where_their_bits_are(rt: HostRuntime) -> Result<(), Fail> {
    check_rows(rt.alloc(), NUMBERS, compared_said)
}

// ---- what is read as a block

// The metadata at a path of a store.
fn node_at<S: ReadableStorageTraits>(
    alloc: Global,
    store: &S,
    path: &str,
) -> Result<NodeMetadata, NodeCreateError> {
    metadata_in(alloc, store, path, ANY)
}

// The keys of a block and the JSON value of each of its nodes.
fn entries_data(block: &ConsolidatedMetadataMetadata, alloc: Global) -> Result<String, AllocError> {
    let mut text = String::new(alloc);
    for (key, metadata) in block.as_map().iter() {
        let value = metadata.to_value(alloc)?.to_string(alloc)?;
        write!(text, "{key} {value}\n")?;
    }
    Ok(text)
}

// What a store has as the block of a node at the root.
fn block_text<S: ReadableStorageTraits>(
    alloc: Global,
    store: &S,
    metadata: &NodeMetadata,
) -> Result<String, NodeCreateError> {
    let root = NodePath::root(alloc)?;
    match read_block(alloc, store, &root, metadata)? {
        None => Ok(String::from_str(alloc, "none")?),
        Some(Ok(block)) => Ok(entries_data(&block.metadata, alloc)?),
        Some(Err(fault)) => Ok(refusal(alloc, &fault)?),
    }
}

// What the store as it is, or with any numbers, has as the block at the root.
fn block_by(
    alloc: Global,
    any: &AnyNumbers<MemoryStore>,
    numbers: &str,
    metadata: &NodeMetadata,
) -> Result<String, NodeCreateError> {
    match numbers {
        "whole" => block_text(alloc, &any.inner, metadata),
        "any" => block_text(alloc, any, metadata),
        word => Err(no_numbers(alloc, word)?),
    }
}

// That of metadata that were read in any numbers.
fn read_at(alloc: Global, given: &str) -> Result<String, NodeCreateError> {
    let (numbers, documents) = fields(given);
    let any = AnyNumbers {
        inner: store_in(alloc, documents)?,
    };
    let metadata = node_at(alloc, &any, "/");
    Ok(said(alloc, metadata, |metadata, alloc| {
        let text = block_by(alloc, &any, numbers, metadata);
        said(alloc, text, printed)
    })?)
}

fn read_said(alloc: Global, given: &str) -> Result<String, AllocError> {
    said(alloc, read_at(alloc, given), printed)
}

// The numbers of a store, and the store; what is read as the block at the root.
const READ: &str = r#"
whole | zarr.json {"consolidated_metadata":{"kind":"inline","metadata":{"a":{"attributes":{"k":1e-3},"node_type":"group","zarr_format":3}},"must_understand":false},"node_type":"group","zarr_format":3} => UnsupportedNumber: unsupported number
any | zarr.json {"consolidated_metadata":{"kind":"inline","metadata":{"a":{"attributes":{"k":1e-3},"node_type":"group","zarr_format":3}},"must_understand":false},"node_type":"group","zarr_format":3} => a {"attributes":{"k":0.001},"node_type":"group","zarr_format":3}\n
whole | .zgroup G2;.zmetadata {"metadata":{"a/.zattrs":{"k":[0.5]},"a/.zgroup":{"zarr_format":2}},"zarr_consolidated_format":1} => UnsupportedNumber: unsupported number
any | .zgroup G2;.zmetadata {"metadata":{"a/.zattrs":{"k":[0.5]},"a/.zgroup":{"zarr_format":2}},"zarr_consolidated_format":1} => a {"attributes":{"k":[0.5]},"zarr_format":2}\n
any | .zgroup G2;.zmetadata {"metadata":{"a/.zgroup":{"zarr_format":2,"attributes":0.5}},"zarr_consolidated_format":1} => BadMember: bad member metadata
any | .zgroup G2 => none
any | .zarray {"chunks":[1],"compressor":null,"dtype":"<f8","fill_value":0.5,"filters":null,"order":"C","shape":[1],"zarr_format":2};.zmetadata NUL => none
"#;

#[test]
fn a_block_is_read_in_the_numbers_of_its_store(rt: HostRuntime) -> Result<(), Fail> {
    check_rows(rt.alloc(), READ, read_said)
}

// ---- a survey, and a block beside it

// A store with fractions, and a block of its root.
const SURVEYED: &str =
    r#"zarr.json {"consolidated_metadata":{"kind":"inline","metadata":{"a":{"attributes":{"k":0.25},"node_type":"group","zarr_format":3},"b":{"attributes":{"k":1e2},"node_type":"group","zarr_format":3}},"must_understand":false},"node_type":"group","zarr_format":3};a/zarr.json {"attributes":{"k":0.5},"node_type":"group","zarr_format":3};b/zarr.json {"attributes":{"k":100.0},"node_type":"group","zarr_format":3}"#;

// The nodes of a survey with their JSON values.
fn nodes_data(survey: &Survey, alloc: Global) -> Result<String, AllocError> {
    let mut text = String::new(alloc);
    for (path, metadata) in &survey.nodes {
        let value = metadata.to_value(alloc)?.to_string(alloc)?;
        write!(text, "{path} {value}\n")?;
    }
    Ok(text)
}

fn found_text(found: &Option<Vec<Finding>>, alloc: Global) -> Result<String, AllocError> {
    match found {
        Some(found) => findings_text(found, alloc),
        None => Ok(String::new(alloc)),
    }
}

// What is wrong with the block of a group at the root, which has these metadata.
fn block_data(
    alloc: Global,
    store: &AnyNumbers<MemoryStore>,
    survey: &Survey,
    metadata: &NodeMetadata,
) -> Result<String, NodeCreateError> {
    let root = NodePath::root(alloc)?;
    match read_block(alloc, store, &root, metadata)? {
        Some(Ok(block)) => {
            let found = compare_block(alloc, store, survey, &root, block);
            Ok(said(alloc, found, found_text)?)
        }
        _ => Ok(String::new(alloc)),
    }
}

// The nodes of a survey with their JSON values, and what is wrong with the block of its base.
fn survey_data(
    survey: &Survey,
    alloc: Global,
    store: &AnyNumbers<MemoryStore>,
) -> Result<String, AllocError> {
    let nodes = nodes_data(survey, alloc)?;
    let metadata = node_at(alloc, store, "/");
    let block = said(alloc, metadata, |metadata, alloc| {
        let text = block_data(alloc, store, survey, metadata);
        said(alloc, text, printed)
    })?;
    format!(in alloc; "{nodes}{block}")
}

fn surveyed(alloc: Global) -> Result<String, NodeCreateError> {
    let store = AnyNumbers {
        inner: store_in(alloc, SURVEYED)?,
    };
    let root = NodePath::root(alloc)?;
    let survey = Survey::of_store(&Discard, alloc, &store, &root, &ANY);
    Ok(said(
        alloc,
        survey,
        |survey, alloc| survey_data(survey, alloc, &store),
    )?)
}

fn surveyed_said(alloc: Global, _given: &str) -> Result<String, AllocError> {
    said(alloc, surveyed(alloc), printed)
}

// A survey keeps fractions as they were read, and a block is compared with them.
const SURVEY: &str = r#"
a survey => /a {"attributes":{"k":0.5},"node_type":"group","zarr_format":3}\n/b {"attributes":{"k":100.0},"node_type":"group","zarr_format":3}\n/ /a Differs\n
"#;

#[test]
fn a_survey_keeps_fractions(rt: HostRuntime) -> Result<(), Fail> {
    check_rows(rt.alloc(), SURVEY, surveyed_said)
}
