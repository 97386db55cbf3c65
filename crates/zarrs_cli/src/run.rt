//! A word over a store, an image or a folder.
ghost use Rattle.std.specs.Prelude.{IfOk, IfErr, string_bytes};
ghost use Rattle.std.specs.Io.KnownBytes.{Keeps};
ghost use Rattle.zarrs_cli.specs.Output.{IsWordText, WritesOverImage, WritesWord};
ghost use Rattle.zarrs_cli.specs.Refusals.{IsOfWriter, RefusesOverImage, RefusesRun};
ghost use Rattle.zarrs_cli.specs.StepsOfRuns.{IsAnswerFault};

use crate::document::document_shown;
use crate::fault::ZarrsFault;
use crate::image::load_image;
use crate::output::write_output;
use crate::report::{Tally, report};
use crate::shown::{list_text, tree_text};
use crate::words::Word;
use log::Log;
use std::alloc::Global;
use std::io::{Read, Write};
use std::mem;
use zarrs_config::UseConsolidatedMetadata;
use zarrs_path::NodePath;
use zarrs_program::path_of;
use zarrs_store::{ListableStorageTraits, ReadableStorageTraits};

/// Writes what a word asks of a store from a path on, in the numbers of the store. It is made whole before it is written. Answers how much a check looked at
/// and found.
///
/// # Errors
/// `Node` where the path is none, the tree, the list or the document is refused, or a store that can fail did; `TooDeep` where the document with its
/// attributes nests deeper than any that is read; `Closed` where nobody reads what is written any more; `Write` where the writer fails otherwise;
/// `OutOfMemory`. Save after `Closed` and `Write`, nothing was written.
pub fn run_store<L: Log, S: ReadableStorageTraits + ListableStorageTraits, W: Write>(
    log: &L,
    alloc: Global,
    word: Word,
    path: &str,
    store: &S,
    writer: &mut W,
) -> Result<Option<Tally>, ZarrsFault>
    ensures ok { IfOk result (WritesWord word path.now (S.contents store.now)
        (W.contents writer.old) (W.contents writer.new)) }
    ensures refused { IfErr result
        (RefusesRun (S.can_fail store.now) word path.now (S.contents store.now)) }
    ensures silent { IfErr result (λ fault. (IsOfWriter fault → ⊥)
        → Keeps (W.contents writer.old) (W.contents writer.new)) }
{
    let base = path_of(alloc, path)?;
    let made = output_of(log, alloc, word, store, &base)?;
    write_output(made.1.as_str(), writer)?;
    Ok(made.0)
}

/// Loads the image that a reader gives, and writes what a word asks of its store from a path on, as [`run_store`] does. Its documents may hold any number.
/// The memory of the store is not given back, since a run ends with its answer.
///
/// # Errors
/// `Load` where there is no image; the refusals of [`run_store`].
pub fn run_of_image<L: Log, R: Read, W: Write>(
    log: &L,
    alloc: Global,
    word: Word,
    path: &str,
    reader: &mut R,
    writer: &mut W,
) -> Result<Option<Tally>, ZarrsFault>
    ensures ok { IfOk result (WritesOverImage word path.now (R.remaining reader.old)
        (W.contents writer.old) (W.contents writer.new)) }
    ensures refused { IfErr result
        (RefusesOverImage word path.now (R.remaining reader.old) (R.remaining reader.new)) }
    ensures silent { IfErr result (λ fault. (IsOfWriter fault → ⊥)
        → Keeps (W.contents writer.old) (W.contents writer.new)) }
{
    let store = load_image(alloc, reader)?;
    let tally = run_store(log, alloc, word, path, &store, writer);
    mem::forget(store);
    tally
}

// What a word writes of a store from a path on.
pub(crate) fn output_of<L: Log, S: ReadableStorageTraits + ListableStorageTraits>(
    log: &L,
    alloc: Global,
    word: Word,
    store: &S,
    base: &NodePath,
) -> Result<(Option<Tally>, String), ZarrsFault>
    ensures ok { IfOk result
        (λ made. IsWordText word (S.contents store.now) base.now made.0 (string_bytes made.1)) }
    ensures err { IfErr result
        (IsAnswerFault (S.can_fail store.now) word (S.contents store.now) base.now) }
{
    match word {
        Word::Tree => {
            let text = tree_text(log, alloc, store, base, UseConsolidatedMetadata::Auto)?;
            Ok((None, text))
        }
        Word::StoreTree => {
            let text = tree_text(log, alloc, store, base, UseConsolidatedMetadata::Never)?;
            Ok((None, text))
        }
        Word::List => {
            let text = list_text(log, alloc, store, base)?;
            Ok((None, text))
        }
        Word::Show => {
            let text = document_shown(alloc, store, base)?;
            Ok((None, text))
        }
        Word::Check(options) => {
            let made = report(log, alloc, options, store, base)?;
            Ok((Some(made.0), made.1))
        }
    }
}
