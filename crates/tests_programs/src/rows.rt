//! That a table fails of which one row is not answered as it wants, since every other test stands on that.

use std::alloc::{AllocError, Global};
use std::fmt;
use std::test::Fail;
use tests_support::{check_rows, complaint, fields, printed, refusal, said};

// What is given, with each `/` as the end of a line; no answer to `none`.
fn same(alloc: Global, given: &str) -> Result<String, AllocError> {
    match given {
        "none" => Err(AllocError),
        text => text.replace(alloc, '/', "\n"),
    }
}

const ANSWERED: &str = r#"
# a heading => is no row
a => a
#b => #b
two words => two words

a/b => a\nb
a\nb => a\\nb
\ => \\
 =>
"#;

#[test]
fn a_table_passes_whose_rows_are_all_answered(rt: HostRuntime) -> Result<(), Fail> {
    check_rows(rt.alloc(), ANSWERED, same)
}

// What is wrong with a table whose lines stand between bars; `nothing` where that is so.
fn wrong(alloc: Global, given: &str) -> Result<String, AllocError> {
    let table = given.replace(alloc, '|', "\n")?;
    let table = table.replace(alloc, '>', " =>")?;
    match complaint(alloc, table.as_str(), same)? {
        Some(complaint) => Ok(complaint),
        None => String::from_str(alloc, "nothing"),
    }
}

// A table, with `>` for the arrow and a bar for the end of a line, and what is wrong with it.
const TABLES: &str = r#"
a> a => nothing
a> a|b> b => nothing
a> b => a in place of a => b
a> a|b> a|c> b => b in place of b => a
a> b|b> b => a in place of a => b
a> a b => a in place of a => a b
a> => a in place of a =>
none> a => AllocError in place of none => a
a/b> a\nb => nothing
a/b> a\\nb => a\\nb in place of a/b => a\\\\nb
a\nb> a\nb => a\\\\nb in place of a\\nb => a\\nb
a => no arrow in a
a> a|no arrow in b => no arrow in no arrow in b
# a> a => no rows
| => no rows
 => no rows
"#;

#[test]
fn a_table_fails_that_has_a_row_with_another_answer_or_no_row(rt: HostRuntime) -> Result<(), Fail> {
    check_rows(rt.alloc(), TABLES, wrong)
}

// The second field, and what stands behind it.
fn behind_the_first(alloc: Global, given: &str) -> Result<String, AllocError> {
    let (second, rest) = fields(fields(given).1);
    format!(in alloc; "{second}, then {rest}.")
}

const FIELDS: &str = r#"
a | b | c | d => b, then c | d.
a | b => b, then .
a => , then .
a |  | c => , then c.
a|b | c => c, then .
"#;

#[test]
fn fields_are_parted_by_bars(rt: HostRuntime) -> Result<(), Fail> {
    check_rows(rt.alloc(), FIELDS, behind_the_first)
}

// ---- refusals

// An error that another holds.
#[derive(Debug, Drop)]
enum Held {
    Left,
    Right(u8),
}

// Errors with the same words.
#[derive(Debug, Drop)]
enum SampleError {
    Alone,
    Other(String),
    Over(Held),
    Under(Held),
}

impl fmt::Display for SampleError {
    fn fmt<W: fmt::Write>(&self, f: &mut fmt::Formatter<W>) -> fmt::Result {
        f.write_str("the same words")
    }
}

// The error of a word, or the word as a value.
fn refused(alloc: Global, word: &str) -> Result<String, SampleError> {
    match word {
        "alone" => Err(SampleError::Alone),
        "over left" => Err(SampleError::Over(Held::Left)),
        "over right" => Err(SampleError::Over(Held::Right(1))),
        "under left" => Err(SampleError::Under(Held::Left)),
        word => match String::from_str(alloc, word) {
            Ok(text) if word.starts_with("Other") => Err(SampleError::Other(text)),
            Ok(text) => Ok(text),
            Err(_) => Err(SampleError::Alone),
        },
    }
}

fn refused_said(alloc: Global, word: &str) -> Result<String, AllocError> {
    said(alloc, refused(alloc, word), printed)
}

const REFUSALS: &str = r#"
alone => Alone: the same words
over left => Over(Left): the same words
over right => Over(Right): the same words
under left => Under(Left): the same words
Other(Fault) => Other: the same words
the same words => the same words
 =>
"#;

#[test]
fn a_refusal_shows_its_variants_before_its_words(rt: HostRuntime) -> Result<(), Fail> {
    check_rows(rt.alloc(), REFUSALS, refused_said)
}

// The same rows are not answered where a variant or a value stands in another's place.
fn wrong_refusal(alloc: Global, row: &str) -> Result<String, AllocError> {
    let table = row.replace(alloc, '>', " =>")?;
    match complaint(alloc, table.as_str(), refused_said)? {
        Some(complaint) => Ok(complaint),
        None => String::from_str(alloc, "nothing"),
    }
}

const WRONG: &str = r#"
alone> Alone: the same words => nothing
over left> Over(Right): the same words => Over(Left): the same words in place of over left => Over(Right): the same words
over left> Under(Left): the same words => Over(Left): the same words in place of over left => Under(Left): the same words
alone> Other: the same words => Alone: the same words in place of alone => Other: the same words
alone> the same words => Alone: the same words in place of alone => the same words
the same words> Alone: the same words => the same words in place of the same words => Alone: the same words
"#;

#[test]
fn a_row_fails_that_has_the_right_words_of_another_variant(rt: HostRuntime) -> Result<(), Fail> {
    check_rows(rt.alloc(), WRONG, wrong_refusal)
}

// A value of which `{:?}` writes this, and which has no words.
#[derive(Drop)]
struct Shown<'a> {
    text: &'a str,
}

impl fmt::Debug for Shown<'_> {
    fn fmt<W: fmt::Write>(&self, f: &mut fmt::Formatter<W>) -> fmt::Result {
        f.write_str(self.text)
    }
}

impl fmt::Display for Shown<'_> {
    fn fmt<W: fmt::Write>(&self, _f: &mut fmt::Formatter<W>) -> fmt::Result {
        Ok(())
    }
}

// The variants of a value of which `{:?}` writes a text: its refusal without the colon before its words.
fn variants(alloc: Global, text: &str) -> Result<String, AllocError> {
    let text = refusal(alloc, &Shown { text })?;
    String::from_str(alloc, text.strip_suffix(": ").unwrap_or("no colon"))
}

// What `{:?}` writes of values, and the variants that they are.
const SHOWN: &str = r#"
Fault => Fault
StorageError(InvalidMetadata(StoreKey { text: "a(B)" }, NotAnObject)) => StorageError(InvalidMetadata)
A(B(C)) => A(B(C))
A(B_2(7)) => A(B_2)
Other("Fault(A)") => Other
Two(Left, Right) => Two(Left)
Member { name: A(B) } => Member
Over(Member { name: A(B) }) => Over
Some(5) => Some
SerdeError(Error(EOF while a value is read, line: 1)) => SerdeError(Error)
Some(([])) => Some
 =>
"#;

#[test]
fn variants_are_names_before_parentheses(rt: HostRuntime) -> Result<(), Fail> {
    check_rows(rt.alloc(), SHOWN, variants)
}
