//! What is loaded below the paths at which a walk goes no further.

use crate::loads::{keys_said, of_store, store_in};
use std::alloc::Global;
use std::test::Fail;
use tests_support::{check_rows, fields};
use zarrs_folder::{Documents, FolderFault, laws, load_nodes, load_passed, load_paths};
use zarrs_meaning::NodeCreateError;
use zarrs_path::NodePath;
use zarrs_store::{AnyNumbers, MemoryStore};

// The paths in a list, with a blank between; none of `-`.
fn paths_in(alloc: Global, list: &str) -> Result<Vec<NodePath>, NodeCreateError> {
    let mut paths = Vec::new(alloc);
    if list != "-" {
        for path in list.split(' ') {
            paths.push(NodePath::new(alloc, path)?)?;
        }
    }
    Ok(paths)
}

// The keys that are loaded from the root, and then below some paths, or at them.
fn keys_of(
    alloc: Global,
    whole: &mut AnyNumbers<MemoryStore>,
    paths: &[NodePath],
    is_below: bool,
) -> Result<String, NodeCreateError> {
    let root = NodePath::root(alloc)?;
    let store = of_store(load_nodes(alloc, &mut whole.inner, Documents::All, &root))?;
    let loaded = if is_below {
        load_passed(alloc, &mut whole.inner, &root, paths, store)
    } else {
        load_paths(alloc, &mut whole.inner, &root, paths, store)
    };
    loaded_keys(alloc, whole, loaded)
}

// The keys that were loaded of a store.
fn loaded_keys(
    alloc: Global,
    whole: &AnyNumbers<MemoryStore>,
    loaded: Result<AnyNumbers<MemoryStore>, FolderFault>,
) -> Result<String, NodeCreateError> {
    let loaded = of_store(loaded)?;
    Ok(keys_said(alloc, whole, &loaded)?)
}

// That of the paths and the store of a row.
fn keys_given(alloc: Global, given: &str, is_below: bool) -> Result<String, NodeCreateError> {
    let (list, documents) = fields(given);
    let paths = paths_in(alloc, list)?;
    let mut whole = store_in(alloc, documents)?;
    keys_of(alloc, &mut whole, paths.as_slice(), is_below)
}

fn passed_loaded(alloc: Global, given: &str) -> Result<String, NodeCreateError> {
    keys_given(alloc, given, true)
}

fn paths_loaded(alloc: Global, given: &str) -> Result<String, NodeCreateError> {
    keys_given(alloc, given, false)
}

// Paths, and the store; the keys that are loaded, with a star where they have other bytes.
const PASSED: &str = r#"
# a group whose document is lost: the documents below it, attributes and chunks not
/g | zarr.json G3;g/a/zarr.json A3;g/a/c/0 {};g/h/zarr.json G3;g/h/b/zarr.json A3 => g/a/zarr.json g/h/b/zarr.json g/h/zarr.json zarr.json 
/g | .zgroup G2;g/.zattrs {};g/a/.zarray A2;g/a/.zattrs {};g/a/0 {};g/h/.zgroup G2 => .zgroup g/.zattrs g/a/.zarray g/h/.zgroup 
# further down, and below an array there
/g | zarr.json G3;g/x/y/zarr.json G3;g/x/y/a/zarr.json A3;g/x/y/a/c/zarr.json {} => g/x/y/a/c/zarr.json g/x/y/a/zarr.json g/x/y/zarr.json zarr.json 
# a bad document, which was loaded before
/g | zarr.json G3;g/zarr.json {;g/a/zarr.json A3 => g/a/zarr.json g/zarr.json zarr.json 
# two paths; one with nothing; none
/f /g | zarr.json G3;f/a/zarr.json A3;g/b/zarr.json A3;h/c/zarr.json A3 => f/a/zarr.json g/b/zarr.json h/c/zarr.json* zarr.json 
/f | zarr.json G3;f/0 {} => f/0* zarr.json 
- | zarr.json G3;g/a/zarr.json A3 => g/a/zarr.json* zarr.json 
"#;

#[test]
fn documents_below_passed_paths_are_loaded(rt: HostRuntime) -> Result<(), Fail> {
    laws::passed_hold_same();
    check_rows(rt.alloc(), PASSED, passed_loaded)
}

// The same, of the documents of these paths themselves.
const PATHS: &str = r#"
# below a group whose document is lost, and below an array
/g/a | zarr.json G3;g/a/zarr.json A3;g/a/c/0 {};g/b/zarr.json A3 => g/a/zarr.json g/b/zarr.json* zarr.json 
/a/b | zarr.json G3;a/zarr.json A3;a/b/.zgroup G2;a/b/.zattrs {};a/b/c/.zgroup G2 => a/b/.zattrs a/b/.zgroup a/zarr.json zarr.json 
# a path with nothing, and one that was loaded before
/x /a | zarr.json G3;a/zarr.json A3 => a/zarr.json zarr.json 
"#;

#[test]
fn documents_of_paths_are_loaded(rt: HostRuntime) -> Result<(), Fail> {
    check_rows(rt.alloc(), PATHS, paths_loaded)
}
