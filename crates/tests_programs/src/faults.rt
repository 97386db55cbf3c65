//! The texts of why a folder is not read.

use std::alloc::{AllocError, Global};
use std::test::Fail;
use tests_support::{check_rows, fields, printed};
use zarrs_folder::FolderFault;

// The fault that a word names, of a path and with words.
fn fault_of(alloc: Global, given: &str) -> Result<FolderFault, AllocError> {
    let (word, rest) = fields(given);
    let (path, why) = fields(rest);
    let path = String::from_str(alloc, path)?;
    match word {
        "unread" => Ok(FolderFault::Unread {
            path,
            why: String::from_str(alloc, why)?,
        }),
        "no folder" => Ok(FolderFault::NoFolder(path)),
        "no memory" => Ok(FolderFault::from(AllocError)),
        _ => Err(AllocError),
    }
}

fn fault_said(alloc: Global, given: &str) -> Result<String, AllocError> {
    let fault = fault_of(alloc, given)?;
    printed(&fault, alloc)
}

// A word, a path and words; the text.
const TEXTS: &str = r#"
unread | x.zarr | No such file or directory => x.zarr: No such file or directory
unread | x.zarr/a/.zgroup | Permission denied => x.zarr/a/.zgroup: Permission denied
no folder | x.zip => x.zip is a file, and a store is a folder
no memory | => out of memory
"#;

#[test]
fn a_fault_names_its_path_and_says_why(rt: HostRuntime) -> Result<(), Fail> {
    check_rows(rt.alloc(), TEXTS, fault_said)
}
