//! The least call of a caller.

use std::alloc::{AllocError, Global};
use std::test::Fail;
use tests_fixtures::{ANY, store_of};
use tests_support::{A3, G3, check_rows, printed, said};
use zarrs_examples::is_group_at;
use zarrs_meaning::NodeCreateError;
use zarrs_path::NodePath;

fn group_at(alloc: Global, path: &str) -> Result<bool, NodeCreateError> {
    let store = store_of(alloc, &[("zarr.json", G3), ("a/zarr.json", A3)])?;
    let path = NodePath::new(alloc, path)?;
    is_group_at(alloc, &store, &path, &ANY)
}

fn group_said(alloc: Global, path: &str) -> Result<String, AllocError> {
    said(alloc, group_at(alloc, path), printed)
}

// Paths of a store with a group at the root and an array below it; whether each is a group.
const GROUPS: &str = r#"
/ => true
/a => false
/b => MissingMetadata: Metadata is missing for /b
"#;

#[test]
fn a_group_is_told_from_an_array(rt: HostRuntime) -> Result<(), Fail> {
    check_rows(rt.alloc(), GROUPS, group_said)
}
