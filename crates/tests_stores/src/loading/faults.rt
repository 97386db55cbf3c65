//! The texts of faults.
use std::alloc::{AllocError, Global};
use std::test::Fail;
use tests_support::check_rows;
use zarrs_load::LoadFault;

// The fault that a word names.
fn fault_of(alloc: Global, word: &str) -> Result<Option<LoadFault>, AllocError> {
    let fault = match word {
        "read" => LoadFault::Read,
        "too long" => LoadFault::ReadTooLong,
        "image" => LoadFault::Image,
        "key" => LoadFault::ImageKey(String::from_str(alloc, "a//b")?),
        "value" => LoadFault::ImageValue(String::from_str(alloc, "a")?),
        "folder" => LoadFault::Folder,
        "memory" => LoadFault::OutOfMemory,
        _ => return Ok(None),
    };
    Ok(Some(fault))
}

// The variant and the text of the fault that a word names.
fn fault_said(alloc: Global, word: &str) -> Result<String, AllocError> {
    match fault_of(alloc, word)? {
        Some(fault) => format!(in alloc; "{fault:?}: {fault}"),
        None => format!(in alloc; "no fault is {word}"),
    }
}

// Faults, with their variants and texts.
const FAULTS: &str = r#"
read => Read: read fault
too long => ReadTooLong: input too long
image => Image: image is not a JSON object
key => ImageKey("a//b"): bad store key in image: a//b
value => ImageValue("a"): no text in image at a
folder => Folder: folder fault
memory => OutOfMemory: out of memory
"#;

#[test]
fn faults_have_their_texts(rt: HostRuntime) -> Result<(), Fail> {
    check_rows(rt.alloc(), FAULTS, fault_said)
}
