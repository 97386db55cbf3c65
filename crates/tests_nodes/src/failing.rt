//! Stores that fail, and memory that is refused: what surveys and checks answer then.
//!
//! A call is a value here, and what it answers a text, so one loop goes over all places of a store. Each allocation of the test
//! `memory_fails_in_checks` is refused in turn by `bench/break/failures`; it ends then as usual, or in an error that is out of memory.

use crate::findings::findings_text;
use crate::given::store_in;
use crate::orphans::lost_text;
use crate::surveys::{check_text, survey_text};
use log::sink::Discard;
use std::alloc::{AllocError, Global};
use std::test::Fail;
use tests_fixtures::{ANY, key_of};
use tests_support::said;
use zarrs_check::{Check, Finding, Survey, check_above};
use zarrs_meaning::NodeCreateError;
use zarrs_path::NodePath;
use zarrs_store::{
    FaultAt, FaultStore, ListableStorageTraits, ReadableStorageTraits, StoreKey, StorePrefix,
};

// Groups of both versions one in the other, of which three have a block, a bad name, and a bad document and a path without a document, each
// with a node below it. There is a finding of each kind.
const DOCUMENTS: &str =
    r#"zarr.json {"consolidated_metadata":{"kind":"inline","metadata":{"/a":{"zarr_format":2},"a":{"attributes":{"k":1},"node_type":"group","zarr_format":3},"a//x":{"zarr_format":2},"bad/x":{"zarr_format":2},"old":{"zarr_format":2},"u/x":{"zarr_format":2}},"must_understand":false},"node_type":"group","zarr_format":3};a/zarr.json G3;a/x/zarr.json A3;b/.zgroup G2;b/.zattrs {"k":1};b/.zmetadata {"metadata":{".zattrs":{"k":3},".zgroup":{"zarr_format":2},"c/.zgroup":{"zarr_format":2}},"zarr_consolidated_format":1};b/c/.zgroup G2;b/c/.zattrs {"k":2};b/c/x/.zarray A2;b/../zarr.json G3;bad/zarr.json NUL;bad/x/zarr.json G3;d/e G3;d/f/zarr.json G3;e/.zgroup G2;e/.zmetadata NUL"#;

// Its paths, and one at which nothing stands.
const PATHS: [&str; 11] = [
    "/", "/a", "/a/x", "/b", "/b/c", "/b/c/x", "/bad", "/bad/x", "/d", "/e", "/nothing",
];

// The names of the documents of a path.
const NAMES: [&str; 5] = ["zarr.json", ".zarray", ".zgroup", ".zattrs", ".zmetadata"];

// A call that goes over a store.
#[derive(Clone, Copy, Drop)]
enum Call {
    Survey,
    Check,
    Above,
}

// A check: what it has of the store, what is lost, and what it tells of blocks.
fn check_data(check: &Check, alloc: Global) -> Result<String, AllocError> {
    let store = check_text(check, alloc)?;
    let lost = lost_text(check, alloc)?;
    let findings = findings_text(&check.findings, alloc)?;
    format!(in alloc; "{store}{lost}\n{findings}")
}

fn survey_of<S: ReadableStorageTraits + ListableStorageTraits>(
    alloc: Global,
    store: &S,
    base: &str,
) -> Result<Survey, NodeCreateError> {
    let base = NodePath::new(alloc, base)?;
    Survey::of_store(&Discard, alloc, store, &base, &ANY)
}

fn check_of<S: ReadableStorageTraits + ListableStorageTraits>(
    alloc: Global,
    store: &S,
    base: &str,
) -> Result<Check, NodeCreateError> {
    let base = NodePath::new(alloc, base)?;
    Check::of_store(&Discard, alloc, store, &base, &ANY)
}

fn above_of<S: ReadableStorageTraits + ListableStorageTraits>(
    alloc: Global,
    store: &S,
    base: &str,
) -> Result<Vec<Finding>, NodeCreateError> {
    let base = NodePath::new(alloc, base)?;
    check_above(alloc, store, &base, &ANY)
}

// What a call answers of a store at a base and below it.
fn answered<S: ReadableStorageTraits + ListableStorageTraits>(
    alloc: Global,
    store: &S,
    call: Call,
    base: &str,
) -> Result<String, AllocError> {
    match call {
        Call::Survey => said(alloc, survey_of(alloc, store, base), survey_text),
        Call::Check => said(alloc, check_of(alloc, store, base), check_data),
        Call::Above => said(alloc, above_of(alloc, store, base), findings_text),
    }
}

// The refusal of a fault of the store.
const FAULT: &str = "StorageError(Fault): store fault";

// The refusals of out of memory.
pub(crate) const NO_MEMORY: [&str; 2] = [
    "OutOfMemory: out of memory",
    "StorageError(OutOfMemory): out of memory",
];

pub(crate) fn is_same(found: &str, wanted: &str) -> Result<(), Fail> {
    if found == wanted {
        Ok(())
    } else {
        Err(Fail::new(format_args!("found {found} in place of {wanted}")))
    }
}

// ---- a fault at each place

// What a call is asked, and what it usually answers.
#[derive(Clone, Copy, Drop)]
struct Asked<'a> {
    call: Call,
    base: &'a str,
    usual: &'a str,
}

// Counts a call over the store that fails at a place, where it answers the fault. Else it has to answer as usual.
fn count_fault(alloc: Global, asked: Asked, at: FaultAt, faults: &mut u32) -> Result<(), Fail> {
    let store = FaultStore::new(store_in(alloc, DOCUMENTS)?, at);
    let found = answered(alloc, &store, asked.call, asked.base)?;
    if found.as_str() == FAULT {
        *faults = faults.saturating_add(1);
        return Ok(());
    }
    is_same(found.as_str(), asked.usual)
}

// The key of a document of a path, which has this prefix.
fn key_below(alloc: Global, prefix: &StorePrefix, name: &str) -> Result<StoreKey, Fail> {
    let text = format!(in alloc; "{prefix}{name}")?;
    Ok(key_of(alloc, text.as_str())?)
}

// Counts a call over the stores that fail where a document of a path is read, or where the path is listed.
fn count_path(alloc: Global, asked: Asked, path: &str, faults: &mut u32) -> Result<(), Fail> {
    let prefix = NodePath::new(alloc, path)?.to_prefix(alloc)?;
    for name in NAMES {
        let key = key_below(alloc, &prefix, name)?;
        count_fault(alloc, asked, FaultAt::OnGet(key), faults)?;
    }
    count_fault(alloc, asked, FaultAt::OnList(prefix), faults)
}

// At how many places of the store a fault refuses a call: reading each document of each path, and listing each path.
fn faults_in(alloc: Global, call: Call, base: &str) -> Result<u32, Fail> {
    let usual = answered(alloc, &store_in(alloc, DOCUMENTS)?, call, base)?;
    let asked = Asked {
        call,
        base,
        usual: usual.as_str(),
    };
    let mut faults = 0u32;
    for path in PATHS {
        count_path(alloc, asked, path, &mut faults)?;
    }
    Ok(faults)
}

// A call and its base; at how many of 66 places a fault refuses it.
const FAULTS: [(Call, &str, u32); 12] = [
    (Call::Survey, "/", 27),
    (Call::Check, "/", 46),
    (Call::Survey, "/b", 13),
    (Call::Check, "/b", 17),
    (Call::Survey, "/bad", 4),
    (Call::Check, "/bad", 8),
    (Call::Survey, "/nothing", 4),
    (Call::Check, "/nothing", 4),
    (Call::Above, "/", 0),
    (Call::Above, "/b", 14),
    (Call::Above, "/b/c", 14),
    (Call::Above, "/bad", 5),
];

#[test]
fn a_check_answers_as_usual_or_the_fault(rt: HostRuntime) -> Result<(), Fail> {
    for (call, base, wanted) in FAULTS {
        let faults = faults_in(rt.alloc(), call, base)?;
        if faults != wanted {
            return Err(Fail::new(format_args!("{faults} faults from {base}")));
        }
    }
    Ok(())
}

// ---- each allocation refused in turn

// What the calls answer at the root and at the bad document, and of the blocks above a group.
const ANSWERS: [(Call, &str, &str); 6] = [
    (
        Call::Survey,
        "/",
        r#"/ {"consolidated_metadata":{"kind":"inline","metadata":{"/a":G2,"a":{"attributes":{"k":1},"node_type":"group","zarr_format":3},"a//x":G2,"bad/x":G2,"old":G2,"u/x":G2},"must_understand":false},"node_type":"group","zarr_format":3}
/a G3
/a/x A3
/b {"attributes":{"k":1},"zarr_format":2}
/b/c {"attributes":{"k":2},"zarr_format":2}
/b/c/x A2
/e G2
ignored /d
/bad StorageError(InvalidMetadata): error parsing metadata for bad/zarr.json: not JSON
b/../ no name
"#,
    ),
    (
        Call::Check,
        "/",
        r#"/ node
7 nodes
ignored /d
/bad StorageError(InvalidMetadata): error parsing metadata for bad/zarr.json: not JSON
b/../ no name
orphan /d 1
hidden 1

/ / Shadowed /a
/ / BadKey a//x
/ /a Differs
/ /a/x Missing
/ /b Missing
/ /b/c Missing
/ /b/c/x Missing
/ /bad/x Unreachable
/ /e Missing
/ /old Stale
/ /u/x Unreachable
/ /u/x Stale
/b /b OwnAttributes
/b /b/c Differs
/b /b/c/x Missing
/e /e BlockFault NotJson: not JSON
"#,
    ),
    (
        Call::Survey,
        "/bad",
        r#"/bad StorageError(InvalidMetadata): error parsing metadata for bad/zarr.json: not JSON
/bad/x G3
"#,
    ),
    (
        Call::Check,
        "/bad",
        r#"/bad StorageError(InvalidMetadata): error parsing metadata for bad/zarr.json: not JSON
1 nodes

"#,
    ),
    (
        Call::Above,
        "/b/c",
        r#"/ /b/c Missing
/ /b/c/x Missing
/b /b/c Differs
/b /b/c/x Missing
"#,
    ),
    (
        Call::Above,
        "/bad",
        r#"/ /bad/x Unreachable
/ /bad/x Differs
"#,
    ),
];

#[test]
fn memory_fails_in_checks(rt: HostRuntime) -> Result<(), Fail> {
    let alloc = rt.alloc();
    let store = store_in(alloc, DOCUMENTS)?;
    for (call, base, wanted) in ANSWERS {
        let found = answered(alloc, &store, call, base)?;
        if NO_MEMORY.contains(&found.as_str()) {
            return Err(Fail::from(AllocError));
        }
        is_same(found.as_str(), wanted)?;
    }
    Ok(())
}
