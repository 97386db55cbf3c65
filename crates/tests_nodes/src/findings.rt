//! What there is to tell of blocks beside a store.

use crate::given::{pairs_in, store_in};
use crate::surveys::survey_in;
use log::sink::Discard;
use std::alloc::{AllocError, Global};
use std::test::Fail;
use tests_fixtures::{ANY, entries_of, entries_text, metadata_in};
use tests_support::{check_rows, fields, printed, refusal, said};
use zarrs_block::ConsolidatedMetadata;
use zarrs_check::{Check, Finding, FindingKind, Survey, compare_block, read_block};
use zarrs_meaning::NodeCreateError;
use zarrs_meta::NodeMetadata;
use zarrs_path::NodePath;
use zarrs_store::MemoryStore;

// What there is to tell of a block of a group, beside a store and its survey.
fn block_said(
    alloc: Global,
    store: &MemoryStore,
    survey: &Survey,
    group: &str,
    entries: &str,
) -> Result<String, NodeCreateError> {
    let group = NodePath::new(alloc, group)?;
    let pairs = pairs_in(alloc, entries)?;
    let metadata = entries_of(alloc, pairs.as_slice())?;
    let found = compare_block(
        alloc,
        store,
        survey,
        &group,
        ConsolidatedMetadata { metadata },
    );
    Ok(said(alloc, found, compared_text)?)
}

// That of a row, whose store is surveyed below a base, which is the root where none is named.
fn compared(alloc: Global, given: &str) -> Result<String, NodeCreateError> {
    let (paths, rest) = fields(given);
    let (group, base) = paths.split_once(" from ").unwrap_or((paths, "/"));
    let (documents, entries) = fields(rest);
    let store = store_in(alloc, documents)?;
    let survey = survey_in(alloc, base, documents);
    Ok(said(alloc, survey, |survey, alloc| {
        let text = block_said(alloc, &store, survey, group, entries);
        said(alloc, text, printed)
    })?)
}

// The kind of a finding, and what it holds.
fn kind_text(kind: &FindingKind, alloc: Global) -> Result<String, AllocError> {
    match kind {
        FindingKind::BlockFault(fault) => {
            let fault = refusal(alloc, fault)?;
            format!(in alloc; "BlockFault {fault}")
        }
        FindingKind::BadKey(key) => format!(in alloc; "BadKey {}", key.as_str()),
        FindingKind::Shadowed(key) => format!(in alloc; "Shadowed {}", key.as_str()),
        FindingKind::OwnKey(key) => format!(in alloc; "OwnKey {}", key.as_str()),
        FindingKind::OwnAttributes => String::from_str(alloc, "OwnAttributes"),
        FindingKind::Unreachable => String::from_str(alloc, "Unreachable"),
        FindingKind::Stale => String::from_str(alloc, "Stale"),
        FindingKind::Unreached => String::from_str(alloc, "Unreached"),
        FindingKind::Differs => String::from_str(alloc, "Differs"),
        FindingKind::Missing => String::from_str(alloc, "Missing"),
    }
}

/// The group, the path and the kind of each finding.
pub(crate) fn findings_text(findings: &Vec<Finding>, alloc: Global) -> Result<String, AllocError> {
    let mut text = String::new(alloc);
    for finding in findings {
        let kind = kind_text(&finding.kind, alloc)?;
        write!(text, "{} {} {kind}\n", finding.group, finding.path)?;
    }
    Ok(text)
}

// The findings, or that the survey has no such group.
fn compared_text(compared: &Option<Vec<Finding>>, alloc: Global) -> Result<String, AllocError> {
    match compared {
        Some(findings) => findings_text(findings, alloc),
        None => String::from_str(alloc, "no group"),
    }
}

fn compared_said(alloc: Global, given: &str) -> Result<String, AllocError> {
    said(alloc, compared(alloc, given), printed)
}

// A group and the base, a store and a block; what is wrong with the block.
const COMPARED: &str = r#"
/ | zarr.json G3;a/zarr.json G3 | a G3 =>
/ | zarr.json G3;a/zarr.json G3 | /a G3 =>
/ | zarr.json G3;a/zarr.json KB | a K =>
/ | zarr.json G3 | a G3 => / /a Stale\n
/ | zarr.json G3;a/zarr.json G3 | => / /a Missing\n
/ | zarr.json G3;a/zarr.json G3 | a K => / /a Differs\n
/ | zarr.json G3;a/zarr.json A3 | a G3 => / /a Differs\n
/ | zarr.json G3;a/zarr.json G3;a/x/zarr.json G3 | a/x G3 => / /a Missing\n/ /a/x Unreachable\n
/ | zarr.json G3;a/zarr.json G3 | a G3;/a K => / / Shadowed /a\n
/ | zarr.json G3;a/zarr.json G3 | a G3;a//b G3;.. G3 => / / BadKey ..\n/ / BadKey a//b\n
/ | zarr.json G3;a/zarr.json NUL | a G3;a/x G3;b G3 => / /b Stale\n
/ | zarr.json G3;a/zarr.json NUL | a/x G3 => / /a/x Unreachable\n
/ | zarr.json G3;a/zarr.json G3 | a G3; G3;/ G3 => / / OwnKey \n/ / OwnKey /\n
/ | zarr.json G3;a/zarr.json G3 | a G3; K => / / OwnKey \n
/ | zarr.json G3;a/zarr.json G3 | a G3;/ G3 => / / OwnKey /\n
/ | zarr.json G3;a/zarr.json G3 | a G3; G3;/ G3;.. G3;/a K => / / OwnKey \n/ / BadKey ..\n/ / OwnKey /\n/ / Shadowed /a\n
/b | zarr.json G3;a/zarr.json G3;b/zarr.json G3;b/x/zarr.json A3;c/zarr.json G3 | y G3 => /b /b/x Missing\n/b /b/y Stale\n
/ | zarr.json G3;a/zarr.json A3 | a A3;a/x G3 => / /a/x Unreachable\n/ /a/x Stale\n
# cut off, and different, gone or missing too
/ | zarr.json G3;a/zarr.json G3;a/x/zarr.json G3 | a A3;a/x K => / /a Differs\n/ /a/x Unreachable\n/ /a/x Differs\n
/ | zarr.json G3;a/zarr.json G3;a/x/zarr.json G3;a/z/zarr.json G3 | a/x K;a/y G3 => / /a Missing\n/ /a/x Unreachable\n/ /a/x Differs\n/ /a/y Unreachable\n/ /a/y Stale\n/ /a/z Missing\n
/ | zarr.json G3;a/x/zarr.json G3 | a/x G3 => / /a/x Unreachable\n/ /a/x Unreached\n
# a document stands where no listing comes: below no document, and below an array
/ | zarr.json G3;a/x/zarr.json G3 | a G3;a/x G3 => / /a Stale\n/ /a/x Unreached\n
/ | zarr.json G3;a/x/.zarray NUL;a/y/.zgroup NUL;a/z/.zattrs NUL;a/z/zarr.jso NUL | a G3;a/x K;a/y G3;a/z G3 => / /a Stale\n/ /a/x Unreached\n/ /a/y Unreached\n/ /a/z Stale\n
/ | zarr.json G3;a/zarr.json A3;a/x/zarr.json NUL | a A3;a/x G3 => / /a/x Unreachable\n/ /a/x Unreached\n
/ | zarr.json G3;a/zarr.json NUL;a/x/zarr.json G3 | a G3;a/x G3 =>
/b | zarr.json G3;b/zarr.json G3;b/a/x/zarr.json G3;a/x/zarr.json G3 | a G3;a/x G3 => /b /b/a Stale\n/b /b/a/x Unreached\n
/a from /a | a/zarr.json G3;a/x/zarr.json G3 | x G3 =>
/a/x from /a | a/zarr.json G3;a/x/zarr.json G3;a/x/y/zarr.json G3;b/zarr.json G3 | => /a/x /a/x/y Missing\n
/a | a/zarr.json G3;a/x/zarr.json G3 | => /a /a/x Missing\n
# the survey has no group there: above its base, beside it, an array, no node, a bad document, and below one
/ from /a | zarr.json G3;a/zarr.json G3 | a G3 => no group
/b from /a | zarr.json G3;a/zarr.json G3;b/zarr.json G3 | => no group
/ | zarr.json A3 | => no group
/a | zarr.json G3;a/zarr.json A3 | => no group
/ | a/zarr.json G3 | a G3 => no group
/b | zarr.json G3;a/zarr.json G3;c/zarr.json G3 | => no group
/ | zarr.json NUL;a/zarr.json G3 | => no group
/a | zarr.json G3;a/zarr.json NUL | => no group
/a/x | zarr.json G3;a/zarr.json NUL;a/x/zarr.json G3 | => no group
"#;

#[test]
fn a_block_is_compared_with_the_nodes_below_its_group(rt: HostRuntime) -> Result<(), Fail> {
    check_rows(rt.alloc(), COMPARED, compared_said)
}

// What there is to tell of all blocks of a store.
fn checked(alloc: Global, documents: &str) -> Result<Check, NodeCreateError> {
    let store = store_in(alloc, documents)?;
    let root = NodePath::root(alloc)?;
    Check::of_store(&Discard, alloc, &store, &root, &ANY)
}

fn checked_text(check: &Check, alloc: Global) -> Result<String, AllocError> {
    findings_text(&check.findings, alloc)
}

fn checked_said(alloc: Global, given: &str) -> Result<String, AllocError> {
    said(alloc, checked(alloc, given), checked_text)
}

// A store; what is wrong with its blocks, by group and path.
const CHECKED: &str = r#"
zarr.json G3;a/zarr.json G3 =>
zarr.json KB =>
zarr.json KB;first/zarr.json G3;first/second/zarr.json G3;first/second/third/zarr.json A3 => / /first Missing\n/ /first/second Missing\n/ /first/second/third Missing\n
zarr.json KB;a/zarr.json KB;a/x/zarr.json G3 => / /a Missing\n/ /a/x Missing\n/a /a/x Missing\n
zarr.json G3;a/zarr.json KB;a/x/zarr.json G3;a-b/zarr.json G3;b/zarr.json G3;b/c/zarr.json KB;b/c/y/zarr.json A3;b/d/zarr.json A3 => /a /a/x Missing\n/b/c /b/c/y Missing\n
zarr.json G3;a/zarr.json KB;a/x/zarr.json KB;a/x/y/zarr.json A3;a/z/zarr.json A3;b/zarr.json G3 => /a /a/x Missing\n/a /a/x/y Missing\n/a /a/z Missing\n/a/x /a/x/y Missing\n
zarr.json {"consolidated_metadata":{"kind":"other"},"node_type":"group","zarr_format":3};a/zarr.json KB;a/x/zarr.json G3 => / / BlockFault BadMember: bad member kind\n/a /a/x Missing\n
zarr.json {"consolidated_metadata":{"kind":"other"},"node_type":"group","zarr_format":3} => / / BlockFault BadMember: bad member kind\n
.zgroup G2;a/.zgroup G2;.zmetadata NUL => / / BlockFault NotJson: not JSON\n
.zgroup G2;a/.zgroup G2;a/.zattrs {"k":1};.zmetadata {"metadata":{"a/.zgroup":{"zarr_format":2}},"zarr_consolidated_format":1} => / /a Differs\n
.zgroup G2;a/.zgroup G2;a/.zattrs {"k":1};.zmetadata {"metadata":{"a/.zattrs":{"k":1},"a/.zgroup":{"zarr_format":2}},"zarr_consolidated_format":1} =>
"#;

#[test]
fn all_blocks_of_a_store_are_checked(rt: HostRuntime) -> Result<(), Fail> {
    check_rows(rt.alloc(), CHECKED, checked_said)
}

// A store of version 2; what is wrong with its blocks, whose documents have attributes of their own groups.
const OWN_ATTRIBUTES: &str = r#"
# the same, in another order of members too
.zgroup G2;.zmetadata {"metadata":{".zgroup":{"zarr_format":2}},"zarr_consolidated_format":1} =>
.zgroup G2;.zattrs {"k":1,"l":{"m":[1,2],"n":null}};.zmetadata {"metadata":{".zattrs":{"l":{"n":null,"m":[1,2]},"k":1},".zgroup":{"zarr_format":2}},"zarr_consolidated_format":1} =>
# another value, another name, one more, one less, none on one side
.zgroup G2;.zattrs {"k":1};.zmetadata {"metadata":{".zattrs":{"k":2},".zgroup":{"zarr_format":2}},"zarr_consolidated_format":1} => / / OwnAttributes\n
.zgroup G2;.zattrs {"k":1};.zmetadata {"metadata":{".zattrs":{"l":1},".zgroup":{"zarr_format":2}},"zarr_consolidated_format":1} => / / OwnAttributes\n
.zgroup G2;.zattrs {"k":1};.zmetadata {"metadata":{".zattrs":{"k":1,"l":1},".zgroup":{"zarr_format":2}},"zarr_consolidated_format":1} => / / OwnAttributes\n
.zgroup G2;.zattrs {"k":1,"l":1};.zmetadata {"metadata":{".zattrs":{"k":1},".zgroup":{"zarr_format":2}},"zarr_consolidated_format":1} => / / OwnAttributes\n
.zgroup G2;.zattrs {"k":[1,2]};.zmetadata {"metadata":{".zattrs":{"k":[2,1]},".zgroup":{"zarr_format":2}},"zarr_consolidated_format":1} => / / OwnAttributes\n
.zgroup G2;.zattrs {"k":1};.zmetadata {"metadata":{".zgroup":{"zarr_format":2}},"zarr_consolidated_format":1} => / / OwnAttributes\n
.zgroup G2;.zmetadata {"metadata":{".zattrs":{"k":1},".zgroup":{"zarr_format":2}},"zarr_consolidated_format":1} => / / OwnAttributes\n
# no attributes are the empty ones
.zgroup G2;.zattrs {};.zmetadata {"metadata":{".zgroup":{"zarr_format":2}},"zarr_consolidated_format":1} =>
.zgroup G2;.zmetadata {"metadata":{".zattrs":{},".zgroup":{"zarr_format":2}},"zarr_consolidated_format":1} =>
# within the document of the group, and beside it; other members of that count no more than its own
.zgroup {"attributes":{"k":1},"zarr_format":2};.zmetadata {"metadata":{".zattrs":{"k":1},".zgroup":{"zarr_format":2}},"zarr_consolidated_format":1} =>
.zgroup G2;.zattrs {"k":1};.zmetadata {"metadata":{".zattrs":{"k":1},".zgroup":{"attributes":{"k":2},"x":0,"zarr_format":2}},"zarr_consolidated_format":1} =>
.zgroup G2;.zattrs {"k":1};.zmetadata {"metadata":{".zgroup":{"attributes":{"k":2},"zarr_format":2}},"zarr_consolidated_format":1} => / / OwnAttributes\n
# the document has no group of its own, or a bad one
.zgroup G2;.zattrs {"k":1};.zmetadata {"metadata":{},"zarr_consolidated_format":1} =>
.zgroup G2;.zattrs {"k":1};.zmetadata {"metadata":{".zattrs":{"k":2}},"zarr_consolidated_format":1} =>
.zgroup G2;.zattrs {"k":1};.zmetadata {"metadata":{".zattrs":{"k":2},".zgroup":5},"zarr_consolidated_format":1} =>
.zgroup G2;.zattrs {"k":1};.zmetadata {"metadata":{".zattrs":{"k":2},".zgroup":{"zarr_format":3}},"zarr_consolidated_format":1} =>
.zgroup G2;.zattrs {"k":1};.zmetadata {"metadata":{".zattrs":[],".zgroup":{"zarr_format":2}},"zarr_consolidated_format":1} =>
.zgroup G2;.zattrs {"k":1};.zmetadata {"metadata":{".zarray":{},".zattrs":{"k":2},".zgroup":{"zarr_format":2}},"zarr_consolidated_format":1} =>
# it has an array in the place of the group
.zgroup G2;.zattrs {"k":1};.zmetadata {"metadata":{".zarray":{"chunks":[1],"dtype":"<f8","fill_value":0,"order":"C","shape":[1],"zarr_format":2},".zattrs":{"k":2}},"zarr_consolidated_format":1} => / / OwnAttributes\n
.zgroup G2;.zattrs {"k":1};.zmetadata {"metadata":{".zarray":{"chunks":[1],"dtype":"<f8","fill_value":0,"order":"C","shape":[1],"zarr_format":2},".zattrs":{"k":1}},"zarr_consolidated_format":1} =>
# a name with a slash before it is none of the group's own
.zgroup G2;.zattrs {"k":1};.zmetadata {"metadata":{"a/.zattrs":{"k":2},"a/.zgroup":{"zarr_format":2}},"zarr_consolidated_format":1};a/.zgroup G2;a/.zattrs {"k":2} =>
# where the block does not read its fault alone is told
.zgroup G2;.zattrs {"k":1};.zmetadata {"metadata":{".zattrs":{"k":2},".zgroup":{"zarr_format":2}},"zarr_consolidated_format":2} => / / BlockFault BadMember: bad member zarr_consolidated_format\n
.zgroup G2;.zattrs {"k":1};.zmetadata {"metadata":{".zattrs":{"k":2},".zgroup":{"zarr_format":2},"a/.zgroup":5},"zarr_consolidated_format":1} => / / BlockFault BadMember: bad member metadata\n
# nested: each block with its own group
.zgroup G2;.zattrs {"k":1};.zmetadata {"metadata":{".zattrs":{"k":1},".zgroup":{"zarr_format":2},"a/.zattrs":{"k":3},"a/.zgroup":{"zarr_format":2}},"zarr_consolidated_format":1};a/.zgroup G2;a/.zattrs {"k":3};a/.zmetadata {"metadata":{".zattrs":{"k":1},".zgroup":{"zarr_format":2}},"zarr_consolidated_format":1} => /a /a OwnAttributes\n
.zgroup G2;.zattrs {"k":1};.zmetadata {"metadata":{".zattrs":{"k":3},".zgroup":{"zarr_format":2},"a/.zattrs":{"k":1},"a/.zgroup":{"zarr_format":2}},"zarr_consolidated_format":1};a/.zgroup G2;a/.zattrs {"k":3};a/.zmetadata {"metadata":{".zattrs":{"k":1},".zgroup":{"zarr_format":2}},"zarr_consolidated_format":1} => / / OwnAttributes\n/ /a Differs\n/a /a OwnAttributes\n
# before entries and nodes, at a base that is not the root too
.zgroup G2;.zmetadata {"metadata":{".zattrs":{"k":1},".zgroup":{"zarr_format":2},"a/.zgroup":{"zarr_format":2},"b/x/.zgroup":{"zarr_format":2}},"zarr_consolidated_format":1};b/.zgroup G2;b/x/.zgroup G2 => / / OwnAttributes\n/ /a Stale\n/ /b Missing\n/ /b/x Unreachable\n
.zgroup G2;.zmetadata {"metadata":{"a/.zgroup":{"zarr_format":2}},"zarr_consolidated_format":1};a/.zgroup G2;a/.zmetadata {"metadata":{".zattrs":{"k":1},".zgroup":{"zarr_format":2},"x/.zgroup":{"zarr_format":2}},"zarr_consolidated_format":1} => /a /a OwnAttributes\n/a /a/x Stale\n
# a group of version 3 is beside no document, and an array has no block
zarr.json G3;.zgroup G2;.zmetadata {"metadata":{".zattrs":{"k":1},".zgroup":{"zarr_format":2}},"zarr_consolidated_format":1} =>
zarr.json KB;.zmetadata {"metadata":{".zattrs":{"k":2},".zgroup":{"zarr_format":2}},"zarr_consolidated_format":1} =>
zarr.json A3;.zmetadata {"metadata":{".zattrs":{"k":2},".zgroup":{"zarr_format":2}},"zarr_consolidated_format":1} =>
"#;

#[test]
fn own_attributes_are_those_of_the_group(rt: HostRuntime) -> Result<(), Fail> {
    check_rows(rt.alloc(), OWN_ATTRIBUTES, checked_said)
}

// What there is to tell of the block of the root, whose metadata these are, compared by itself.
fn own_block_said(
    alloc: Global,
    store: &MemoryStore,
    survey: &Survey,
    metadata: &NodeMetadata,
) -> Result<String, NodeCreateError> {
    let root = NodePath::root(alloc)?;
    match read_block(alloc, store, &root, metadata)? {
        Some(Ok(block)) => {
            let found = compare_block(alloc, store, survey, &root, block);
            Ok(said(alloc, found, compared_text)?)
        }
        _ => Ok(String::from_str(alloc, "no block")?),
    }
}

// A version 2 group whose block is compared by itself; its document has other attributes, and nothing is told of them.
fn compared_alone(alloc: Global, documents: &str) -> Result<String, NodeCreateError> {
    let store = store_in(alloc, documents)?;
    let survey = survey_in(alloc, "/", documents);
    Ok(said(alloc, survey, |survey, alloc| {
        let metadata = metadata_in(alloc, &store, "/", ANY);
        said(alloc, metadata, |metadata, alloc| {
            let text = own_block_said(alloc, &store, survey, metadata);
            said(alloc, text, printed)
        })
    })?)
}

fn compared_alone_said(alloc: Global, given: &str) -> Result<String, AllocError> {
    said(alloc, compared_alone(alloc, given), printed)
}

// A store; what is wrong with the block of the root, compared by itself.
const COMPARED_ALONE: &str = r#"
.zgroup G2;.zattrs {"k":1};.zmetadata {"metadata":{".zattrs":{"k":2},".zgroup":{"zarr_format":2},"a/.zgroup":{"zarr_format":2}},"zarr_consolidated_format":1} => / /a Stale\n
"#;

#[test]
fn a_block_alone_has_no_own_attributes(rt: HostRuntime) -> Result<(), Fail> {
    check_rows(rt.alloc(), COMPARED_ALONE, compared_alone_said)
}

// What is read as the block of a node with these metadata.
fn block_text(
    alloc: Global,
    store: &MemoryStore,
    path: &NodePath,
    metadata: &NodeMetadata,
) -> Result<String, NodeCreateError> {
    match read_block(alloc, store, path, metadata)? {
        None => Ok(String::from_str(alloc, "none")?),
        Some(Ok(block)) => {
            let entries = entries_text(&block.metadata, alloc)?;
            Ok(format!(in alloc; "block\n{entries}")?)
        }
        Some(Err(fault)) => Ok(refusal(alloc, &fault)?),
    }
}

// That of a row.
fn read_at(alloc: Global, given: &str) -> Result<String, NodeCreateError> {
    let (text, documents) = fields(given);
    let path = NodePath::new(alloc, text)?;
    let store = store_in(alloc, documents)?;
    let metadata = metadata_in(alloc, &store, text, ANY);
    Ok(said(alloc, metadata, |metadata, alloc| {
        let text = block_text(alloc, &store, &path, metadata);
        said(alloc, text, printed)
    })?)
}

fn read_said(alloc: Global, given: &str) -> Result<String, AllocError> {
    said(alloc, read_at(alloc, given), printed)
}

// A path and a store; what is read as its block, with the keys and their documents.
const READ: &str = r#"
/ | zarr.json G3 => none
/ | zarr.json A3 => none
/ | zarr.json KB => block\n
/ | .zgroup G2 => none
/ | .zgroup G2;.zmetadata NUL => NotJson: not JSON
/a | a/.zgroup G2;a/.zmetadata {"metadata":{"x/.zgroup":{"zarr_format":2}},"zarr_consolidated_format":1} => block\nx G2\n
"#;

#[test]
fn the_block_of_a_node_is_read(rt: HostRuntime) -> Result<(), Fail> {
    check_rows(rt.alloc(), READ, read_said)
}
