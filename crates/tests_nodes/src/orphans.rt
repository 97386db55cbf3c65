//! How many paths with documents a check has below the paths that it passes over, and below bad documents.

use crate::given::store_in;
use log::sink::Discard;
use std::alloc::{AllocError, Global};
use std::test::Fail;
use tests_fixtures::version_of;
use tests_support::{check_rows, fields, said};
use zarrs_check::Check;
use zarrs_meaning::NodeCreateError;
use zarrs_path::NodePath;

// The check of the store with the documents of a list by a version, at a path.
fn checked(alloc: Global, given: &str) -> Result<Check, NodeCreateError> {
    let (version, rest) = fields(given);
    let (path, documents) = fields(rest);
    let path = NodePath::new(alloc, path)?;
    let store = store_in(alloc, documents)?;
    Check::of_store(&Discard, alloc, &store, &path, &version_of(alloc, version)?)
}

/// The orphans with their numbers, and the number below each bad document.
pub(crate) fn lost_text(check: &Check, alloc: Global) -> Result<String, AllocError> {
    let mut text = String::new(alloc);
    for (path, count) in &check.orphans {
        write!(text, "orphan {path} {count}\n")?;
    }
    for count in &check.hidden {
        write!(text, "hidden {count}\n")?;
    }
    Ok(text)
}

fn lost_said(alloc: Global, given: &str) -> Result<String, AllocError> {
    said(alloc, checked(alloc, given), lost_text)
}

// A version, a path and a store; the orphans with the numbers of paths below them, and those below the bad documents.
const LOST: &str = r#"
any | / | zarr.json G3;a/x/zarr.json G3 => orphan /a 1\n
any | / | zarr.json G3;a/x/zarr.json G3;a/x/.zattrs {};a/y/.zarray A2;a/y/.zgroup G2;a/y/.zattrs {};a/y/0 => orphan /a 2\n
any | / | zarr.json G3;a/b/c/d/zarr.json A3 => orphan /a 1\n
any | / | zarr.json G3;a/x/zarr.json G3;a/__x/zarr.json G3;a/../zarr.json G3;a/__x/y/zarr.json G3 => orphan /a 1\n
any | / | zarr.json G3;a/__x/zarr.json G3;a/__x/y/zarr.json G3 =>
any | / | zarr.json G3;a/c/0/0;a/c/0/1 =>
any | / | zarr.json G3;a/x/.zattrs {};a/x/.zmetadata {};a/x/azarr.json;a/zarr.json/x;a/x/zarr.json/0 =>
any | / | zarr.json G3;d/x/zarr.json G3;a/x/zarr.json G3;a/x/y/zarr.json G3;c/0 => orphan /a 2\norphan /d 1\n
any | / | zarr.json G3;a/x/zarr.json G3;ab/x/zarr.json G3;a-b/x/zarr.json G3 => orphan /a 1\norphan /a-b 1\norphan /ab 1\n
any | / | zarr.json G3;a/x/zarr.json NUL;a/y/.zarray NUL => orphan /a 2\n
any | / | zarr.json A3;a/x/zarr.json G3 => orphan /a 1\n
any | / | a/x/zarr.json G3 => orphan /a 1\n
any | /b | zarr.json G3;b/zarr.json G3;b/a/x/zarr.json G3;a/x/zarr.json G3 => orphan /b/a 1\n
any | /b | zarr.json G3;b/zarr.json NUL;b/a/zarr.json G3;b/c/d/zarr.json G3 => orphan /b/c 1\n
any | / | zarr.json G3;b/zarr.json NUL => hidden 0\n
any | / | zarr.json G3;b/zarr.json NUL;b/.zgroup G2;b/c/0/0;b/__x/zarr.json G3 => hidden 0\n
any | / | zarr.json G3;b/zarr.json NUL;b/x/zarr.json G3;b/x/y/.zgroup G2;b/x/z/0 => hidden 2\n
any | / | zarr.json G3;a/x/zarr.json G3;b/zarr.json NUL;b/x/zarr.json NUL;c/zarr.json NUL;d/.zgroup NUL;d/y/x/zarr.json G3;d/z/.zarray A2 => orphan /a 1\nhidden 1\nhidden 0\nhidden 2\n
any | / | zarr.json G3;a/zarr.json A3;a/x/y/zarr.json G3 =>
v3 | / | zarr.json G3;a/.zgroup G2;a/x/.zarray A2;b/.zgroup G2 => orphan /a 1\n
v2 | / | .zgroup G2;a/.zgroup G2;a/b/zarr.json G3;a/b/x/.zarray A2;a/b/y/zarr.json A3 => orphan /a/b 2\n
"#;

#[test]
fn a_check_counts_what_is_lost_below_paths(rt: HostRuntime) -> Result<(), Fail> {
    check_rows(rt.alloc(), LOST, lost_said)
}
