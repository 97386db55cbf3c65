//! What a replacement and a removal answer over a folder in memory, which calls they make, and what then stands in the folder.

use crate::writing::watched::Watched;
use std::alloc::{AllocError, Global};
use std::fmt::Debug;
use std::test::Fail;
use tests_support::{check_rows, fields, refusal};
use zarrs_write::{MemoryPlace, ReplaceError, laws, remove_document, replace_document};

// The bytes that a word tells, none for a hyphen.
fn told(alloc: Global, word: &str) -> Result<Option<Vec<u8>>, AllocError> {
    if word == "-" {
        return Ok(None);
    }
    let mut bytes = Vec::new(alloc);
    bytes.extend_from_slice(word.as_bytes())?;
    Ok(Some(bytes))
}

// Puts the files of a list into a folder: a name, a blank and the bytes each, with semicolons between them.
fn fill(place: &mut MemoryPlace, list: &str) -> Result<(), AllocError> {
    for item in list.split(';') {
        if let Some((name, bytes)) = item.split_once(' ') {
            place.put(name, bytes.as_bytes())?;
        }
    }
    Ok(())
}

/// What an answer is, or the refusal.
pub(crate) fn answer_said<T: Debug + Drop>(
    alloc: Global,
    answer: Result<T, ReplaceError>,
) -> Result<String, AllocError> {
    match answer {
        Ok(done) => format!(in alloc; "{done:?}"),
        Err(error) => refusal(alloc, &error),
    }
}

// An answer, and the files that then stand in the folder.
fn with_files(alloc: Global, answer: String, place: &MemoryPlace) -> Result<String, AllocError> {
    let mut text = answer;
    for (name, bytes) in place.files() {
        text.push_str(" | ")?;
        text.push_str(name.as_str())?;
        text.push(' ')?;
        let bytes = String::from_utf8_lossy(alloc, bytes)?;
        text.push_str(bytes.as_str())?;
    }
    Ok(text)
}

// The number that a word writes; none is a number that is never reached.
fn number(word: &str) -> u64 {
    word.parse::<u64>().unwrap_or(u64::MAX)
}

// Replaces a document: the files, what is told of it, the new bytes, and how many calls are done before one fails.
fn replaced(alloc: Global, given: &str) -> Result<String, AllocError> {
    let (files, rest) = fields(given);
    let (old, rest) = fields(rest);
    let (bytes, calls) = fields(rest);
    let mut place = MemoryPlace::new(alloc);
    fill(&mut place, files)?;
    place.fail_after(number(calls));
    let old = told(alloc, old)?;
    let answer = replace_document(alloc, &mut place, "zarr.json", &old, bytes.as_bytes());
    let answer = answer_said(alloc, answer)?;
    with_files(alloc, answer, &place)
}

// The files, what is told of `zarr.json`, the new bytes, how many calls are done before one fails; the answer, and the files.
const REPLACED: &str = r#"
# all goes well: another document, one for the first time, the same again, an empty one
zarr.json old | old | new | - => Written | zarr.json new
zarr.json old;a 1;.zgroup 2 | old | new | - => Written | a 1 | .zgroup 2 | zarr.json new
a 1 | - | new | - => Written | a 1 | zarr.json new
zarr.json old | old | old | - => Unchanged | zarr.json old
zarr.json old | old |  | - => Written | zarr.json 
zarr.json  |  | new | - => Written | zarr.json new
zarr.json  |  |  | - => Unchanged | zarr.json 
 | - |  | - => Written | zarr.json 
# something else stands there: nothing is made
zarr.json theirs | old | new | - => Changed: zarr.json was changed meanwhile | zarr.json theirs
zarr.json theirs | - | new | - => Changed: zarr.json was changed meanwhile | zarr.json theirs
a 1 | old | new | - => Changed: zarr.json was changed meanwhile | a 1
zarr.json new | old | new | - => Changed: zarr.json was changed meanwhile | zarr.json new
# a temporary file is left over: it is left as it is
zarr.json old;zarr.json.zarrs_new half | old | new | - => LeftOver: zarr.json.zarrs_new is left over from a run that was broken off: remove it | zarr.json old | zarr.json.zarrs_new half
zarr.json old;zarr.json.zarrs_new half | old | old | - => Unchanged | zarr.json old | zarr.json.zarrs_new half
# each call fails in turn: the old document stands, and no temporary file is left, until the new document stands
zarr.json old | old | new | 0 => Failed: zarr.json was not read: it was to fail | zarr.json old
zarr.json old | old | new | 1 => Failed: zarr.json.zarrs_new was not made: it was to fail | zarr.json old
zarr.json old | old | new | 2 => Failed: zarr.json.zarrs_new was not given the document's mode and owner: it was to fail | zarr.json old
zarr.json old | old | new | 3 => Failed: zarr.json.zarrs_new was not written: it was to fail | zarr.json old
zarr.json old | old | new | 4 => Failed: zarr.json.zarrs_new was not synced: it was to fail | zarr.json old
zarr.json old | old | new | 5 => Failed: zarr.json was not read again: it was to fail | zarr.json old
zarr.json old | old | new | 6 => Failed: zarr.json.zarrs_new was not renamed: it was to fail | zarr.json old
zarr.json old | old | new | 7 => Unsettled: zarr.json: done, but the folder was not synced: it was to fail | zarr.json new
zarr.json old | old | new | 8 => Written | zarr.json new
# the same where there was no document
 | - | new | 1 => Failed: zarr.json.zarrs_new was not made: it was to fail
 | - | new | 3 => Failed: zarr.json.zarrs_new was not written: it was to fail
 | - | new | 6 => Failed: zarr.json.zarrs_new was not renamed: it was to fail
 | - | new | 7 => Unsettled: zarr.json: done, but the folder was not synced: it was to fail | zarr.json new
"#;

#[test]
fn a_document_is_replaced_or_left_as_it_was(rt: HostRuntime) -> Result<(), Fail> {
    laws::replaced_is_whole();
    laws::unsynced_may_be_anything();
    check_rows(rt.alloc(), REPLACED, replaced)
}

// Removes a document: the files, what is told of it, and how many calls are done before one fails.
fn removed(alloc: Global, given: &str) -> Result<String, AllocError> {
    let (files, rest) = fields(given);
    let (old, calls) = fields(rest);
    let mut place = MemoryPlace::new(alloc);
    fill(&mut place, files)?;
    place.fail_after(number(calls));
    let old = told(alloc, old)?;
    let answer = remove_document(alloc, &mut place, ".zmetadata", &old);
    let answer = answer_said(alloc, answer)?;
    with_files(alloc, answer, &place)
}

// The files, what is told of `.zmetadata`, how many calls are done before one fails; the answer, and the files.
const REMOVED: &str = r#"
.zgroup g;.zmetadata old | old | - => Gone | .zgroup g
.zgroup g | - | - => Absent | .zgroup g
# something else stands there: nothing is removed
.zmetadata theirs | old | - => Changed: .zmetadata was changed meanwhile | .zmetadata theirs
.zmetadata theirs | - | - => Changed: .zmetadata was changed meanwhile | .zmetadata theirs
.zgroup g | old | - => Changed: .zmetadata was changed meanwhile | .zgroup g
# each call fails in turn
.zmetadata old | old | 0 => Failed: .zmetadata was not read: it was to fail | .zmetadata old
.zmetadata old | old | 1 => Failed: .zmetadata was not removed: it was to fail | .zmetadata old
.zmetadata old | old | 2 => Unsettled: .zmetadata: done, but the folder was not synced: it was to fail
.zmetadata old | old | 3 => Gone
"#;

#[test]
fn a_document_is_removed_or_left_as_it_was(rt: HostRuntime) -> Result<(), Fail> {
    laws::removed_is_whole();
    check_rows(rt.alloc(), REMOVED, removed)
}

// Replaces or removes a document of a folder that tells its calls: a word for which, the files, what is told of it, the new bytes, and before which
// reading another program writes.
fn watched(alloc: Global, given: &str) -> Result<String, AllocError> {
    let (word, rest) = fields(given);
    let (files, rest) = fields(rest);
    let (old, rest) = fields(rest);
    let (bytes, reading) = fields(rest);
    let mut place = Watched::new(alloc, reading.parse::<u32>().unwrap_or(0));
    fill(&mut place.inner, files)?;
    let old = told(alloc, old)?;
    let answer = match word {
        "replace" => answer_said(
            alloc,
            replace_document(alloc, &mut place, "zarr.json", &old, bytes.as_bytes()),
        )?,
        "remove" => answer_said(alloc, remove_document(alloc, &mut place, "zarr.json", &old))?,
        _ => return Err(AllocError),
    };
    let mut text = String::from_str(alloc, place.said())?;
    text.push_str(" | ")?;
    text.push_str(answer.as_str())?;
    with_files(alloc, text, &place.inner)
}

// A call, the files, what is told of `zarr.json`, the new bytes, the reading before which another program writes; the calls, the answer, the files.
const WATCHED: &str = r#"
# the order of the calls
replace | zarr.json old | old | new | - => read zarr.json,make zarr.json.zarrs_new,keep zarr.json,write ,sync ,read zarr.json,rename zarr.json.zarrs_new,settle , | Written | zarr.json new
replace | zarr.json old | old | old | - => read zarr.json, | Unchanged | zarr.json old
replace | zarr.json.zarrs_new x | - | new | - => read zarr.json,make zarr.json.zarrs_new, | LeftOver: zarr.json.zarrs_new is left over from a run that was broken off: remove it | zarr.json.zarrs_new x
remove | zarr.json old | old |  | - => read zarr.json,remove zarr.json,settle , | Gone
remove |  | - |  | - => read zarr.json, | Absent
# another program writes before a reading
replace | zarr.json old | old | new | 1 => read zarr.json, | Changed: zarr.json was changed meanwhile | zarr.json theirs
replace | zarr.json old | old | new | 2 => read zarr.json,make zarr.json.zarrs_new,keep zarr.json,write ,sync ,read zarr.json,remove zarr.json.zarrs_new, | Changed: zarr.json was changed meanwhile | zarr.json theirs
replace |  | - | new | 2 => read zarr.json,make zarr.json.zarrs_new,keep zarr.json,write ,sync ,read zarr.json,remove zarr.json.zarrs_new, | Changed: zarr.json was changed meanwhile | zarr.json theirs
replace | zarr.json old | old | new | 3 => read zarr.json,make zarr.json.zarrs_new,keep zarr.json,write ,sync ,read zarr.json,rename zarr.json.zarrs_new,settle , | Written | zarr.json new
remove | zarr.json old | old |  | 1 => read zarr.json, | Changed: zarr.json was changed meanwhile | zarr.json theirs
"#;

#[test]
fn the_calls_come_in_their_order_and_a_change_meanwhile_is_seen(
    rt: HostRuntime,
) -> Result<(), Fail> {
    check_rows(rt.alloc(), WATCHED, watched)
}

// The error that a word names.
fn error_said(alloc: Global, given: &str) -> Result<String, AllocError> {
    match given {
        "no memory" => refusal(alloc, &ReplaceError::from(AllocError)),
        "no memory in a call" => refusal(alloc, &zarrs_write::PlaceFault::from(AllocError)),
        _ => Err(AllocError),
    }
}

// A word; the error.
const ERRORS: &str = r#"
no memory => OutOfMemory: out of memory
no memory in a call => OutOfMemory: out of memory
"#;

#[test]
fn no_memory_is_told(rt: HostRuntime) -> Result<(), Fail> {
    check_rows(rt.alloc(), ERRORS, error_said)
}
