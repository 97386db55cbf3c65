//! The commands, over an image or a store.
ghost use Rattle.std.specs.Prelude.{◌≡◌, ◌≢◌, ◌↔◌, IfOk, IfErr, IfSome, OnOk, IsOk, Err, option_map};
ghost use Rattle.std.specs.FinMap as map;
ghost use Rattle.std.specs.Io.KnownBytes.{Keeps, IsAtEnd};
ghost use Rattle.zarrs_tool.specs.Sinks.{AppendsLine};
ghost use Rattle.zarrs_tool.specs.Output.{IsCommand, IsListing, IsOutput, Writes, WritesOfImage, WritesOutput, texts, word_text};
ghost use Rattle.zarrs_tool.specs.StepsOfRuns.{command_words, IsListingFault, IsWordFault};
ghost use Rattle.zarrs_tool.specs.Refusals.{IsRefusal, RefusedRun, status_of};

use crate::fault::ToolFault;
use crate::image::load_image;
use crate::printed::{block_text, tree_text};
use log::Log;
use std::alloc::{AllocError, Global};
use std::io::{Read, Write};
use std::mem;
use zarrs_config::MetadataRetrieveVersion;
use zarrs_meta::NodeMetadata;
use zarrs_node::{LISTING, NodeSink, walk_nodes, warn_ignored};
use zarrs_path::NodePath;
use zarrs_program::{path_of, tell, tell_line, write_whole};
use zarrs_store::{ListableStorageTraits, ReadableStorageTraits};

/// Loads the image that a reader gives, and writes what the words ask of its store: for
/// `children PATH` the path of each child, for `list PATH` those of all nodes below, one a line;
/// for `tree PATH` the text of the hierarchy at the path; for `consolidate PATH` the block of the
/// nodes that a listing finds below the group, in the pretty layout, and a newline.
/// A document with a fraction is refused. The output is made whole before it is written. The
/// memory of the store is not given back, since a run ends with its answer.
///
/// # Errors
/// `Usage` where the words are no command, before anything is read; what [`load_image`] refuses;
/// `Node` where the path is none, or listing or opening is refused; `NotAGroup` where
/// `consolidate` is asked of an array; `Write` where the writer fails; `OutOfMemory`.
/// Save after `Write`, nothing was written.
pub fn run_image<L: Log, R: Read, W: Write>(
    log: &L,
    alloc: Global,
    words: &[String],
    reader: &mut R,
    writer: &mut W,
) -> Result<(), ToolFault>
    ensures ok { OnOk result (WritesOfImage (texts words.now) (R.remaining reader.old)
        (W.contents writer.old) (W.contents writer.new)) }
    ensures end { OnOk result (IsAtEnd (R.remaining reader.new)) }
    ensures usage { (result ≡ Err ToolFault.Usage) ↔ (IsCommand (texts words.now) → ⊥) }
    ensures refused { IfErr result
        (RefusedRun (texts words.now) (R.remaining reader.old) (R.remaining reader.new)) }
    ensures silent { IfErr result (λ fault. fault ≢ ToolFault.Write
        → Keeps (W.contents writer.old) (W.contents writer.new)) }
{
    let command = parse(words)?;
    let store = load_image(alloc, reader)?;
    let outcome = run_command(log, alloc, &command, &store, writer);
    mem::forget(store);
    outcome
}

/// Writes what the words ask of a store, as [`run_image`] does once the image is loaded, in the
/// numbers of the store; a block is written in whole numbers.
///
/// # Errors
/// `Usage` where the words are no command; `Node` where the path is none, or listing or opening is
/// refused; `NotAGroup` where `consolidate` is asked of an array; `Fraction` where a node below its
/// group has a number with a fraction, which a store of whole numbers never has; `Write` where the
/// writer fails; `OutOfMemory`. Save after `Write`, nothing was written.
pub fn run_store<L: Log, S: ReadableStorageTraits + ListableStorageTraits, W: Write>(
    log: &L,
    alloc: Global,
    words: &[String],
    store: &S,
    writer: &mut W,
) -> Result<(), ToolFault>
    ensures ok { OnOk result (WritesOutput (texts words.now) (S.contents store.now)
        (W.contents writer.old) (W.contents writer.new)) }
    ensures usage { (result ≡ Err ToolFault.Usage) ↔ (IsCommand (texts words.now) → ⊥) }
    ensures refused { IfErr result
        (IsRefusal (S.can_fail store.now) (texts words.now) (S.contents store.now)) }
    ensures silent { IfErr result (λ fault. fault ≢ ToolFault.Write
        → Keeps (W.contents writer.old) (W.contents writer.new)) }
{
    let command = parse(words)?;
    run_command(log, alloc, &command, store, writer)
}

/// Writes why a run was refused, and gives the exit status. A fault of this write is dropped.
pub fn finish<W: Write>(outcome: &Result<(), ToolFault>, writer: &mut W) -> u8
    ensures status { result ≡ status_of outcome.now }
    ensures silent { IsOk outcome.now → Keeps (W.contents writer.old) (W.contents writer.new) }
{
    match outcome {
        Ok(()) => 0,
        Err(ToolFault::Usage) => {
            let _ = tell_line(&ToolFault::Usage, writer);
            2
        }
        Err(fault) => {
            let _ = tell("zarrs_tool", fault, writer);
            1
        }
    }
}

// The first word of a command.
#[derive(Clone, Copy)]
enum Word {
    Children,
    List,
    Tree,
    Consolidate,
}

// A command, and the path that it is about.
#[derive(Clone, Copy)]
struct Command<'a> {
    word: Word,
    path: &'a str,
}

fn parse(words: &[String]) -> Result<Command<'_>, ToolFault>
    ensures ok { IfOk result (λ command. command_words command ≡ texts words.now) }
    ensures err { IfErr result
        (λ fault. (fault ≡ ToolFault.Usage) × (IsCommand (texts words.now) → ⊥)) }
{
    let [word, path] = words else {
        return Err(ToolFault::Usage);
    };
    let word = parse_word(word.as_str())?;
    Ok(Command {
        word,
        path: path.as_str(),
    })
}

fn parse_word(text: &str) -> Result<Word, ToolFault>
    ensures ok { IfOk result (λ word. word_text word ≡ text.now) }
    ensures err { IfErr result
        (λ fault. (fault ≡ ToolFault.Usage) × ((word : Word) → word_text word ≢ text.now)) }
{
    match text {
        "children" => Ok(Word::Children),
        "list" => Ok(Word::List),
        "tree" => Ok(Word::Tree),
        "consolidate" => Ok(Word::Consolidate),
        _ => Err(ToolFault::Usage),
    }
}

// Writes what a command asks of a store.
fn run_command<L: Log, S: ReadableStorageTraits + ListableStorageTraits, W: Write>(
    log: &L,
    alloc: Global,
    command: &Command<'_>,
    store: &S,
    writer: &mut W,
) -> Result<(), ToolFault>
    ensures ok { OnOk result (WritesOutput (command_words command.now) (S.contents store.now)
        (W.contents writer.old) (W.contents writer.new)) }
    ensures known { result ≢ Err ToolFault.Usage }
    ensures refused { IfErr result
        (IsRefusal (S.can_fail store.now) (command_words command.now) (S.contents store.now)) }
    ensures silent { IfErr result (λ fault. fault ≢ ToolFault.Write
        → Keeps (W.contents writer.old) (W.contents writer.new)) }
{
    let text = output(log, alloc, command, store)?;
    Ok(write_whole(&text, writer)?)
}

// What a command writes.
fn output<L: Log, S: ReadableStorageTraits + ListableStorageTraits>(
    log: &L,
    alloc: Global,
    command: &Command<'_>,
    store: &S,
) -> Result<Vec<u8>, ToolFault>
    ensures ok { IfOk result
        (λ text. IsOutput (command_words command.now) (S.contents store.now) text.items) }
    ensures err { IfErr result
        (λ fault. (fault ≢ ToolFault.Write) × (fault ≢ ToolFault.Usage)
        × IsRefusal (S.can_fail store.now) (command_words command.now)
        (S.contents store.now) fault) }
{
    let base = path_of(alloc, command.path)?;
    output_of(log, alloc, command.word, store, &base)
}

// What a word writes of a path.
fn output_of<L: Log, S: ReadableStorageTraits + ListableStorageTraits>(
    log: &L,
    alloc: Global,
    word: Word,
    store: &S,
    base: &NodePath,
) -> Result<Vec<u8>, ToolFault>
    ensures ok { IfOk result (λ text. Writes word (S.contents store.now) base.now text.items) }
    ensures err { IfErr result
        (IsWordFault (S.can_fail store.now) word (S.contents store.now) base.now) }
{
    match word {
        Word::Children => listing(log, alloc, store, base, false),
        Word::List => listing(log, alloc, store, base, true),
        Word::Tree => tree_text(log, alloc, store, base),
        Word::Consolidate => block_text(log, alloc, store, base),
    }
}

// The paths of the nodes below a path, one a line.
#[tactic(auto, using(crate::proofs::Lines::told_lines))]
fn listing<L: Log, S: ReadableStorageTraits + ListableStorageTraits>(
    log: &L,
    alloc: Global,
    store: &S,
    base: &NodePath,
    recursive: bool,
) -> Result<Vec<u8>, ToolFault>
    ensures ok { IfOk result
        (λ text. IsListing (S.contents store.now) recursive base.now text.items) }
    ensures err { IfErr result
        (IsListingFault (S.can_fail store.now) (S.contents store.now) recursive base.now) }
{
    let mut lines = PathLines {
        text: Vec::new(alloc),
    };
    let version = MetadataRetrieveVersion::Default;
    let ignored = walk_nodes(alloc, store, base, recursive, &version, &mut lines)?;
    warn_ignored(log, LISTING, &ignored);
    Ok(lines.text)
}

// A text with the path of each node on a line of its own.
#[derive(Drop)]
struct PathLines {
    text: Vec<u8>,
}

// Appends the line of each node as it is told.
impl NodeSink for PathLines {
    ghost takes = { AppendsLine };

    fn take(&mut self, path: NodePath, metadata: NodeMetadata) -> Result<(), AllocError> {
        drop(metadata);
        self.text.extend_from_slice(path.as_str().as_bytes())?;
        Ok(self.text.push(b'\n')?)
    }
}
