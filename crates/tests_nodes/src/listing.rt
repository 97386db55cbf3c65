//! What a listing shows, passes over and refuses.

use crate::given::{is_all, store_in};
use std::alloc::{AllocError, Global};
use std::test::Fail;
use tests_fixtures::{
    ListedPaths, listed_in, listing_text, paths_listed_in, paths_listing_text, version_of,
};
use tests_support::{check_rows, fields, said};
use zarrs_meaning::NodeCreateError;
use zarrs_node::ListedNodes;

// What is listed as a row says: the base, whether all below it is, the version, and the store.
fn listed_given(alloc: Global, given: &str) -> Result<ListedNodes, NodeCreateError> {
    let (base, rest) = fields(given);
    let (depth, rest) = fields(rest);
    let (version, documents) = fields(rest);
    let recursive = is_all(alloc, depth)?;
    let version = version_of(alloc, version)?;
    let store = store_in(alloc, documents)?;
    listed_in(alloc, &store, base, recursive, version)
}

fn listed_said(alloc: Global, given: &str) -> Result<String, AllocError> {
    said(alloc, listed_given(alloc, given), listing_text)
}

// Base, depth, version and store; the nodes with their metadata and the paths that were passed over, or the refusal.
const LISTED: &str = r#"
# an empty store has no nodes
/ | all | any | =>

# children stand before a later sibling whose text is less
/ | all | any | zarr.json G3;a/zarr.json G3;a/x/zarr.json G3;a-b/zarr.json G3 => /a G3\n  /a/x G3\n/a-b G3\n
/ | children | any | zarr.json G3;a/zarr.json G3;a/x/zarr.json G3;a-b/zarr.json G3 => /a G3\n/a-b G3\n

# a path without documents is passed over with all below it
/root | all | any | root/zarr.json G3;root/fakenode/content/zarr.json NUL => ignored /root/fakenode\n
/root/fakenode | all | any | root/zarr.json G3;root/fakenode/content/zarr.json NUL => StorageError(InvalidMetadata): error parsing metadata for root/fakenode/content/zarr.json: not JSON

# a text that is no path refuses
root | all | any | zarr.json G3 => NodePathError(Invalid): invalid node path root

# a corrupted document refuses where it is come upon
/ | all | any | zarr.json G3;a/zarr.json G3;a/b/zarr.json NUL => StorageError(InvalidMetadata): error parsing metadata for a/b/zarr.json: not JSON
/ | children | any | zarr.json G3;a/zarr.json G3;a/b/zarr.json NUL => /a G3\n

# a name of periods refuses where it is come upon
/ | all | any | a/zarr.json G3;a/../zarr.json G3 => StorageError(Other): invalid node path /a/..
/ | children | any | a/zarr.json G3;a/../zarr.json G3 => /a G3\n

# reserved names are not seen
/ | all | any | a/zarr.json G3;a/__x/zarr.json G3 => /a G3\n

# a name may begin with a period
/ | all | any | .x/zarr.json G3 => /.x G3\n

# attributes beside an array are read
/ | all | any | a/.zarray A2;a/.zattrs [] => StorageError(InvalidMetadata): error parsing metadata for a/.zattrs: not an object

# a document of version 3 stands before those of version 2
/ | all | any | a/.zarray A2;a/.zattrs [];a/zarr.json G3 => /a G3\n

# below a base its own documents are not read
/group | all | v3 | both versions => /group/array A3_SQUARE\n/group/subgroup G3\n  /group/subgroup/mysubarray A3_SQUARE\n

# both versions and both kinds are listed
/ | all | any | both versions => /array A3_SQUARE\n/group G3\n  /group/array A3_SQUARE\n  /group/subgroup G3\n    /group/subgroup/mysubarray A3_SQUARE\n/groupv2 G2\n  /groupv2/arrayv2 A2\n

# a version limits what is listed
/ | all | v2 | both versions => /groupv2 G2\n  /groupv2/arrayv2 A2\nignored /array\nignored /group\n
/ | all | v3 | both versions => /array A3_SQUARE\n/group G3\n  /group/array A3_SQUARE\n  /group/subgroup G3\n    /group/subgroup/mysubarray A3_SQUARE\nignored /groupv2\n
"#;

#[test]
fn nodes_are_listed_with_their_metadata_passed_over_or_refused(
    rt: HostRuntime,
) -> Result<(), Fail> {
    check_rows(rt.alloc(), LISTED, listed_said)
}

// Here no allocation is refused, and the listing is whole. Under `bench/break/alloc`, which refuses each in turn, it is that or out of memory.
#[test]
fn a_listing_without_memory_says_so(rt: HostRuntime) -> Result<(), Fail> {
    check_rows(rt.alloc(), WHOLE, listed_said)
}

const WHOLE: &str = r#"
/ | all | any | three levels => /array A3_SQUARE\n/group G3\n  /group/array A3_SQUARE\n  /group/subgroup G3\n    /group/subgroup/mysubarray A3_SQUARE\n
"#;

// ---- the paths alone

// The paths that are listed as a row says: the base, whether all below it is, the version, and the store.
fn paths_given(alloc: Global, given: &str) -> Result<ListedPaths, NodeCreateError> {
    let (base, rest) = fields(given);
    let (depth, rest) = fields(rest);
    let (version, documents) = fields(rest);
    let recursive = is_all(alloc, depth)?;
    let version = version_of(alloc, version)?;
    let store = store_in(alloc, documents)?;
    paths_listed_in(alloc, &store, base, recursive, version)
}

fn paths_said(alloc: Global, given: &str) -> Result<String, AllocError> {
    said(alloc, paths_given(alloc, given), paths_listing_text)
}

// Base, depth, version and store; the paths and those that were passed over, or the refusal.
const PATHS: &str = r#"
# paths stand before those below them and before later siblings
/ | all | any | zarr.json G3;a/zarr.json G3;a/x/zarr.json G3;a-b/zarr.json G3 => /a\n/a/x\n/a-b\n
/ | children | any | zarr.json G3;a/zarr.json G3;a/x/zarr.json G3;a-b/zarr.json G3 => /a\n/a-b\n
/a | all | any | zarr.json G3;a/zarr.json G3;a/x/zarr.json G3;a-b/zarr.json G3 => /a/x\n
/a-b | all | any | zarr.json G3;a/zarr.json G3;a/x/zarr.json G3;a-b/zarr.json G3 =>

# paths without documents are passed over with all below them
/ | all | any | g/zarr.json G3;g/x/content NUL;g/x/y/zarr.json G3;y/c NUL => /g\nignored /g/x\nignored /y\n
/ | children | any | g/zarr.json G3;g/x/content NUL;g/x/y/zarr.json G3;y/c NUL => /g\nignored /y\n

# paths are refused where something bad is come upon
/ | all | any | a/zarr.json G3;a/b/zarr.json NUL;c/../zarr.json G3;c/zarr.json G3 => StorageError(InvalidMetadata): error parsing metadata for a/b/zarr.json: not JSON
/ | children | any | a/zarr.json G3;a/b/zarr.json NUL;c/../zarr.json G3;c/zarr.json G3 => /a\n/c\n
/c | children | any | a/zarr.json G3;a/b/zarr.json NUL;c/../zarr.json G3;c/zarr.json G3 => StorageError(Other): invalid node path /c/..

# a version limits which paths are listed
/ | all | v3 | both versions => /array\n/group\n/group/array\n/group/subgroup\n/group/subgroup/mysubarray\nignored /groupv2\n
/ | all | v2 | both versions => /groupv2\n/groupv2/arrayv2\nignored /array\nignored /group\n
/ | children | any | both versions => /array\n/group\n/groupv2\n

# the paths are those of the nodes: the table of pairs has the same
/ | all | any | both versions => /array\n/group\n/group/array\n/group/subgroup\n/group/subgroup/mysubarray\n/groupv2\n/groupv2/arrayv2\n
"#;

#[test]
fn paths_are_listed_passed_over_or_refused(rt: HostRuntime) -> Result<(), Fail> {
    check_rows(rt.alloc(), PATHS, paths_said)
}
