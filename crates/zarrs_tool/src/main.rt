//! The program `zarrs_tool`, for scripts: it reads a store from an image on standard input or from a folder, and writes what a command asks of it.
#![tactic(auto)]

ghost use Rattle.std.specs.Prelude.{◌≡◌, ◌≢◌, ◌⊎◌, ◌↔◌, IfErr, OnOk, IfSome, IfNone};
ghost use Rattle.std.specs.Io.KnownBytes.{Keeps};
ghost use Rattle.zarrs_tool.specs.Output.{IsCommand, WritesOfImage, texts};
ghost use Rattle.zarrs_tool.specs.StepsOfRuns.{IsFolderCommand, IsFolderWords, IsNoCommand, RefusedAnswer, RefusedFolder, WritesAnswer, WritesOfFolder};
ghost use Rattle.zarrs_tool.specs.Refusals.{RefusedRun};

#[cfg(test)]
mod answers;
#[cfg(test)]
mod asserts;
mod fault;
mod folder;
#[cfg(test)]
mod folder_tests;
#[cfg(test)]
mod fractions_tests;
mod image;
mod printed;
mod run;
#[cfg(test)]
mod tests;

use crate::fault::ToolFault;
use crate::folder::load_folder;
use crate::run::{finish, run_image, run_store};
use log::sink::Console;
use log::{Level, Log, Logged};
use std::alloc::Global;
use std::io::{Read, Write};
use std::process::ExitCode;
use std::rt::Files;
use std::{io, mem};
use zarrs_program::words;

fn main(rt: HostRuntime) -> ExitCode {
    let log = Logged::new(&rt, Level::Warn, Console(&rt));
    let mut errors = rt.stderr();
    let status = match words(&rt) {
        Ok(words) => answer(
            &log,
            &words,
            &mut rt.reader(),
            &mut io::writer(&rt),
            &mut errors,
        ),
        Err(fault) => finish(&Err(ToolFault::from(fault)), &mut errors),
    };
    ExitCode::from(status)
}

// Runs a command over a folder or over an image, and gives the exit status: 0 where the output was
// written, 1 where the run was refused, and 2 where the words are no command.
#[tactic(auto, using(crate::proofs::Folders::folder_answered, crate::proofs::Folders::image_answered))]
fn answer<R: Log + Files + AllocGlobal, I: Read, W: Write, E: Write>(
    rt: &R,
    words: &[String],
    reader: &mut I,
    output: &mut W,
    errors: &mut E,
) -> u8
    ensures ok { result ≡ 0 → WritesAnswer (texts words.now) (I.remaining reader.old)
        (W.contents output.old) (W.contents output.new) }
    ensures refused { result ≡ 1 → (fault : ToolFault) × (fault ≢ ToolFault.Usage)
        × RefusedAnswer (texts words.now) (I.remaining reader.old) (I.remaining reader.new) fault
        × (fault ≢ ToolFault.Write → Keeps (W.contents output.old) (W.contents output.new)) }
    ensures usage { (result ≡ 2) ↔ IsNoCommand (texts words.now) }
    ensures status { (result ≡ 0) ⊎ (result ≡ 1) ⊎ (result ≡ 2) }
    ensures silent { result ≡ 0 → Keeps (E.contents errors.old) (E.contents errors.new) }
{
    match folder_words(words) {
        Some((folder, words)) => respond_folder(rt, folder, words, output, errors),
        None => respond(rt, rt.alloc(), words, reader, output, errors),
    }
}

// The folder and the words `tree PATH`, where the words are `folder DIR tree PATH`.
fn folder_words(words: &[String]) -> Option<(&str, &[String])>
    ensures some { IfSome result
        (λ found. IsFolderWords (texts words.now) found.0.now (texts found.1.now)) }
    ensures none { IfNone result (IsFolderCommand (texts words.now) → ⊥) }
{
    let [word, folder, tree, _path] = words else {
        return None;
    };
    if word.as_str() != "folder" {
        return None;
    }
    if tree.as_str() != "tree" {
        return None;
    }
    Some((folder.as_str(), &words[2..]))
}

// Runs a command over the store of a folder, and gives the exit status. It handles every fault
// itself.
fn respond_folder<R: Log + Files + AllocGlobal, W: Write, E: Write>(
    rt: &R,
    folder: &str,
    words: &[String],
    output: &mut W,
    errors: &mut E,
) -> u8
    ensures ok { result ≡ 0
        → WritesOfFolder (texts words.now) (W.contents output.old) (W.contents output.new) }
    ensures refused { result ≡ 1 → (fault : ToolFault) × (fault ≢ ToolFault.Usage)
        × RefusedFolder (texts words.now) fault
        × (fault ≢ ToolFault.Write → Keeps (W.contents output.old) (W.contents output.new)) }
    ensures status { (result ≡ 0) ⊎ (result ≡ 1) ⊎ (result ≡ 2) }
    ensures usage { result ≡ 2 → IsCommand (texts words.now) → ⊥ }
    ensures silent { result ≡ 0 → Keeps (E.contents errors.old) (E.contents errors.new) }
{
    let shown = run_folder(rt, folder, words, output);
    finish(&shown, errors)
}

// Loads the store of a folder, and writes what the words ask of it. The memory of the store is not
// given back, since a run ends with its answer.
fn run_folder<R: Log + Files + AllocGlobal, W: Write>(
    rt: &R,
    folder: &str,
    words: &[String],
    output: &mut W,
) -> Result<(), ToolFault>
    ensures ok { OnOk result
        (WritesOfFolder (texts words.now) (W.contents output.old) (W.contents output.new)) }
    ensures refused { IfErr result (RefusedFolder (texts words.now)) }
    ensures silent { IfErr result (λ fault. fault ≢ ToolFault.Write
        → Keeps (W.contents output.old) (W.contents output.new)) }
{
    let store = load_folder(rt, folder)?;
    let outcome = run_store(rt, rt.alloc(), words, &store, output);
    mem::forget(store);
    outcome
}

// Runs a command, and gives the exit status. It handles every fault itself.
fn respond<L: Log, R: Read, W: Write, E: Write>(
    log: &L,
    alloc: Global,
    words: &[String],
    reader: &mut R,
    output: &mut W,
    errors: &mut E,
) -> u8
    ensures ok { result ≡ 0 → WritesOfImage (texts words.now) (R.remaining reader.old)
        (W.contents output.old) (W.contents output.new) }
    ensures refused { result ≡ 1 → (fault : ToolFault) × (fault ≢ ToolFault.Usage)
        × RefusedRun (texts words.now) (R.remaining reader.old) (R.remaining reader.new) fault
        × (fault ≢ ToolFault.Write → Keeps (W.contents output.old) (W.contents output.new)) }
    ensures usage { (result ≡ 2) ↔ (IsCommand (texts words.now) → ⊥) }
    ensures status { (result ≡ 0) ⊎ (result ≡ 1) ⊎ (result ≡ 2) }
    ensures silent { result ≡ 0 → Keeps (E.contents errors.old) (E.contents errors.new) }
{
    let outcome = run_image(log, alloc, words, reader, output);
    finish(&outcome, errors)
}
