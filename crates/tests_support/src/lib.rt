//! What all tests share: tables of rows, over which `check_rows` goes; documents; what a call answers as a text, a refusal by its variants and words.
//!
//! A table is a text with a row a line, an arrow `=>` between what a call is given and the text that it has to answer. It is data: a test
//! is one call, and its rows cost the prover nothing.
#![tactic(auto)]

mod answers;

pub use answers::{A2, A3, G2, G3, made, printed, refusal, said, with_lines};
use std::alloc::{AllocError, Global};
use std::fmt::Debug;
use std::test::Fail;

/// Compares what a call answers, given what stands before the arrow of each row, with the text behind it.
///
/// A blank stands on each side of the arrow. An answer's line ends stand in the table as `\n`, and each of its backslashes as two;
/// nothing behind the arrow is the empty answer. Empty lines, and headings, which begin with `# `, are passed over.
///
/// The call is copied for each row: the bound `FnOnce` has the prover look at one function more for each caller, `Fn` at three.
///
/// # Errors
///
/// What `complaint` says of the table; out of memory for that.
pub fn check_rows<E, F>(alloc: Global, table: &str, call: F) -> Result<(), Fail>
where
    E: Debug + Drop,
    F: FnOnce(Global, &str) -> Result<String, E> + Copy,
    requires { F.IsAlwaysCallable call }
{
    match complaint(alloc, table, call)? {
        Some(complaint) => Err(Fail::new(complaint)),
        None => Ok(()),
    }
}

/// What is wrong with a table, as `check_rows` reads it: the first row whose answer is another, with that answer; a line that is no
/// heading and has no arrow; that no row is there. Nothing where every row is answered as it wants.
///
/// # Errors
///
/// Out of memory.
pub fn complaint<E, F>(alloc: Global, table: &str, call: F) -> Result<Option<String>, AllocError>
where
    E: Debug + Drop,
    F: FnOnce(Global, &str) -> Result<String, E> + Copy,
    requires { F.IsAlwaysCallable call }
{
    let mut has_rows = false;
    for row in table.lines() {
        if is_row(row) {
            has_rows = true;
            let complaint = complaint_of(alloc, row, call)?;
            if complaint.is_some() {
                return Ok(complaint);
            }
        }
    }
    if has_rows {
        Ok(None)
    } else {
        Ok(Some(String::from_str(alloc, "no rows")?))
    }
}

// Whether a line is a row.
fn is_row(line: &str) -> bool {
    !line.is_empty() && !line.starts_with("# ")
}

// What is wrong with a row.
fn complaint_of<E, F>(alloc: Global, row: &str, call: F) -> Result<Option<String>, AllocError>
where
    E: Debug + Drop,
    F: FnOnce(Global, &str) -> Result<String, E> + Copy,
    requires { F.IsAlwaysCallable call }
{
    let Some((given, wanted)) = row.split_once(" =>") else {
        return Ok(Some(format!(in alloc; "no arrow in {row}")?));
    };
    let wanted = wanted.strip_prefix(' ').unwrap_or(wanted);
    match call(alloc, given) {
        Ok(said) => line_complaint(alloc, said.as_str(), wanted, row),
        Err(error) => Ok(Some(format!(in alloc; "{error:?} in place of {row}")?)),
    }
}

// What is wrong with a text, as one line, beside the one that a row wants.
fn line_complaint(
    alloc: Global,
    said: &str,
    wanted: &str,
    row: &str,
) -> Result<Option<String>, AllocError> {
    let line = one_line(alloc, said)?;
    if line.as_str() == wanted {
        Ok(None)
    } else {
        Ok(Some(format!(in alloc; "{line} in place of {row}")?))
    }
}

// A text with its line ends as `\n` and its backslashes as two, so that no two texts have one line.
fn one_line(alloc: Global, text: &str) -> Result<String, AllocError> {
    let text = text.replace(alloc, '\\', "\\\\")?;
    text.replace(alloc, '\n', "\\n")
}

/// The first field of what a call is given, and the fields behind its first bar; nothing where there is no bar. A blank stands on each
/// side of a bar.
pub fn fields(given: &str) -> (&str, &str) {
    match given.split_once(" |") {
        Some((first, rest)) => (first, rest.strip_prefix(' ').unwrap_or(rest)),
        None => (given, ""),
    }
}
