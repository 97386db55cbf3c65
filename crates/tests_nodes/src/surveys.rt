//! What a survey has, and which paths its bad documents spoil.

use crate::given::store_in;
use log::sink::Discard;
use std::alloc::{AllocError, Global};
use std::test::Fail;
use tests_fixtures::{ANY, document_text, pairs_text};
use tests_support::{check_rows, fields, refusal, said};
use zarrs_check::{BadDocuments, Base, Check, Survey, laws};
use zarrs_meaning::NodeCreateError;
use zarrs_path::NodePath;
use zarrs_store::StorePrefix;

/// The survey of the store with the documents of a list, at a path.
pub(crate) fn survey_in(
    alloc: Global,
    path: &str,
    documents: &str,
) -> Result<Survey, NodeCreateError> {
    let path = NodePath::new(alloc, path)?;
    let store = store_in(alloc, documents)?;
    Survey::of_store(&Discard, alloc, &store, &path, &ANY)
}

fn surveyed(alloc: Global, given: &str) -> Result<Survey, NodeCreateError> {
    let (path, documents) = fields(given);
    survey_in(alloc, path, documents)
}

/// The base and the nodes with their documents, the paths that are ignored, and what is bad.
pub(crate) fn survey_text(survey: &Survey, alloc: Global) -> Result<String, AllocError> {
    let mut text = match &survey.base {
        Base::Node(metadata) => document_text(metadata, alloc)?,
        Base::Refused(error) => refusal(alloc, error)?,
    };
    text = format!(in alloc; "{} {text}\n", survey.path)?;
    text.push_str(pairs_text(&survey.nodes, alloc)?.as_str())?;
    write_bad(
        &mut text,
        alloc,
        &survey.ignored,
        &survey.bad_documents,
        &survey.bad_names,
    )?;
    Ok(text)
}

// Writes the ignored paths and what is bad behind a text.
fn write_bad(
    text: &mut String,
    alloc: Global,
    ignored: &[NodePath],
    documents: &BadDocuments,
    names: &[StorePrefix],
) -> Result<(), AllocError> {
    for path in ignored {
        write!(text, "ignored {path}\n")?;
    }
    for (path, error) in documents.as_slice() {
        write!(text, "{path} {}\n", refusal(alloc, error)?)?;
    }
    for name in names {
        write!(text, "{name} no name\n")?;
    }
    Ok(())
}

/// The base, the number of the nodes, the paths that are ignored, what is bad, and the names that differ in case alone.
pub(crate) fn check_text(check: &Check, alloc: Global) -> Result<String, AllocError> {
    let base = match &check.base_fault {
        None => String::from_str(alloc, "node")?,
        Some(error) => refusal(alloc, error)?,
    };
    let mut text = format!(in alloc; "{} {base}\n{} nodes\n", check.path, check.nodes)?;
    write_bad(
        &mut text,
        alloc,
        &check.ignored,
        &check.bad_documents,
        &check.bad_names,
    )?;
    for (path, before) in &check.alike {
        write!(text, "{path} alike {before}\n")?;
    }
    Ok(text)
}

fn survey_said(alloc: Global, given: &str) -> Result<String, AllocError> {
    said(alloc, surveyed(alloc, given), survey_text)
}

// A path and a store; the base, its nodes, the ignored paths and what is bad, each in the order of paths, nodes with their documents.
const SURVEYS: &str = r#"
/ | zarr.json G3;a/zarr.json G3;a/x/zarr.json A3 => / G3\n/a G3\n/a/x A3\n
/a | zarr.json G3;a/zarr.json G3;a/x/zarr.json A3 => /a G3\n/a/x A3\n
/ | zarr.json A3;a/zarr.json G3 => / A3\n/a G3\n
/ | a/zarr.json G3 => / MissingMetadata: Metadata is missing for /\n/a G3\n
/ | zarr.json NUL;a/zarr.json G3 => / StorageError(InvalidMetadata): error parsing metadata for zarr.json: not JSON\n/a G3\n
/ | zarr.json G3;a/zarr.json NUL;a/x/zarr.json G3;b/zarr.json G3;c/d NUL => / G3\n/b G3\nignored /c\n/a StorageError(InvalidMetadata): error parsing metadata for a/zarr.json: not JSON\n
/ | zarr.json G3;b/zarr.json G3;b/../zarr.json G3;b/c/zarr.json G2;b/d/zarr.json G3 => / G3\n/b G3\n/b/d G3\n/b/c MetadataVersionMismatch: Found V2 metadata in V3 key or vice-versa\nb/../ no name\n
/ | zarr.json G3;a/zarr.json A3;a/x/zarr.json NUL => / G3\n/a A3\n
"#;

#[test]
fn a_survey_has_all_that_is_there_and_all_that_is_bad(rt: HostRuntime) -> Result<(), Fail> {
    check_rows(rt.alloc(), SURVEYS, survey_said)
}

// What a check has of the store with the documents of a list, at a path.
fn checked(alloc: Global, given: &str) -> Result<Check, NodeCreateError> {
    let (path, documents) = fields(given);
    let path = NodePath::new(alloc, path)?;
    let store = store_in(alloc, documents)?;
    Check::of_store(&Discard, alloc, &store, &path, &ANY)
}

fn check_said(alloc: Global, given: &str) -> Result<String, AllocError> {
    said(alloc, checked(alloc, given), check_text)
}

// A path and a store; the base, the number of the nodes with it, the ignored paths and what is bad.
const CHECKS: &str = r#"
/ | zarr.json G3;a/zarr.json G3;a/x/zarr.json A3 => / node\n3 nodes\n
/a | zarr.json G3;a/zarr.json G3;a/x/zarr.json A3 => /a node\n2 nodes\n
/ | zarr.json KB;a/zarr.json KB;a/x/zarr.json A3;b/zarr.json G3 => / node\n4 nodes\n
/ | a/zarr.json G3;a/x/zarr.json G3 => / MissingMetadata: Metadata is missing for /\n2 nodes\n
/ | zarr.json NUL;a/zarr.json G3 => / StorageError(InvalidMetadata): error parsing metadata for zarr.json: not JSON\n1 nodes\n
/ | zarr.json G3;a/zarr.json NUL;a/x/zarr.json G3;b/zarr.json G3;c/d NUL => / node\n2 nodes\nignored /c\n/a StorageError(InvalidMetadata): error parsing metadata for a/zarr.json: not JSON\n
/ | zarr.json G3;b/zarr.json G3;b/../zarr.json G3;b/c/zarr.json G2;b/d/zarr.json G3 => / node\n3 nodes\n/b/c MetadataVersionMismatch: Found V2 metadata in V3 key or vice-versa\nb/../ no name\n
/ | zarr.json G3;AIR/zarr.json G3;Air/zarr.json G3;Air/T/zarr.json A3;air/zarr.json G3;air/t/zarr.json A3;wind/0 NUL;Wind/zarr.json G3 => / node\n7 nodes\nignored /wind\n/Air alike /AIR\n/air alike /Air\n
"#;

#[test]
fn a_check_counts_the_nodes_and_has_all_that_is_bad(rt: HostRuntime) -> Result<(), Fail> {
    check_rows(rt.alloc(), CHECKS, check_said)
}

// Whether a bad document of a store stands at a path or above it.
fn spoilt_said(alloc: Global, given: &str) -> Result<String, NodeCreateError> {
    let (path, documents) = fields(given);
    let path = NodePath::new(alloc, path)?;
    let survey = survey_in(alloc, "/", documents);
    Ok(said(alloc, survey, |survey, alloc| {
        let is_spoilt = survey.bad_documents.spoils(&path);
        String::from_str(alloc, if is_spoilt { "yes" } else { "no" })
    })?)
}

// A path and a store; whether a bad document stands at it or above it.
const SPOILT: &str = r#"
/a | a/zarr.json NUL => yes
/a/x | a/zarr.json NUL => yes
/a-b | a/zarr.json NUL;b/zarr.json NUL => no
/b/x/y | a/zarr.json NUL;b/zarr.json NUL => yes
/ | a/zarr.json NUL => no
/a | a/zarr.json G3 => no
"#;

#[test]
fn a_bad_document_spoils_what_is_below_it(rt: HostRuntime) -> Result<(), Fail> {
    check_rows(rt.alloc(), SPOILT, spoilt_said)
}

#[test]
fn the_laws_of_surveys_are_called() {
    laws::nothing_bad_is_told();
    laws::refusals_are_told();
    laws::listing_is_surveyed();
    laws::groups_are_surveyed();
    laws::good_blocks_agree();
    laws::good_entries_are_nodes();
    laws::refreshed_blocks_agree();
    laws::nothing_is_lost();
    laws::nothing_is_above_root();
}
