//! What a check tells of nodes by their own documents.

use crate::given::store_in;
use log::sink::Discard;
use std::alloc::{AllocError, Global};
use std::test::Fail;
use tests_fixtures::ANY;
use tests_support::{check_rows, fields, said};
use zarrs_check::Check;
use zarrs_meaning::NodeCreateError;
use zarrs_path::NodePath;

// The check of the store with the documents of a list, at a path.
fn checked(alloc: Global, given: &str) -> Result<Check, NodeCreateError> {
    let (path, documents) = fields(given);
    let path = NodePath::new(alloc, path)?;
    let store = store_in(alloc, documents)?;
    Check::of_store(&Discard, alloc, &store, &path, &ANY)
}

// The path and the text of each finding.
fn told_text(check: &Check, alloc: Global) -> Result<String, AllocError> {
    let mut text = String::new(alloc);
    for (path, finding) in &check.told {
        write!(text, "{path} {finding}\n")?;
    }
    Ok(text)
}

fn told_said(alloc: Global, given: &str) -> Result<String, AllocError> {
    said(alloc, checked(alloc, given), told_text)
}

// A path and a store; what is told of its nodes, in the order of paths.
const TOLD: &str = r#"
/ | zarr.json G3;a/zarr.json G3;a/x/zarr.json A3;b/.zgroup G2;b/.zattrs {};b/x/.zarray A2 =>
/ | zarr.json G3;.zgroup G2 => / beside: .zgroup is not read, since zarr.json stands there too\n
/ | zarr.json G3;b/.zarray A2;b/.zmetadata {};a/zarr.json {"node_type":"group","x":1,"y":2,"zarr_format":3} => /a not opened: the field x must be understood\n/a not opened: the field y must be understood\n/b misplaced: an array has a block, which is not read\n
/b | zarr.json G3;.zgroup G2;b/.zarray A2;b/.zmetadata {} => /b misplaced: an array has a block, which is not read\n
/ | zarr.json NUL;.zgroup G2;a/zarr.json G3;a/.zattrs {} => /a beside: .zattrs is not read, since zarr.json stands there too\n
/ | zarr.json G3;a/zarr.json NUL;a/.zgroup G2;b/c NUL;b/.zattrs {} =>
"#;

#[test]
fn a_check_tells_of_each_node_by_its_own_documents(rt: HostRuntime) -> Result<(), Fail> {
    check_rows(rt.alloc(), TOLD, told_said)
}
