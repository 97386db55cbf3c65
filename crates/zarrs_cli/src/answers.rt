//! A whole run of the program, from its words to its status.
ghost use Rattle.std.specs.Prelude.{◌≡◌, ◌⊎◌, None, IfOk, IfErr, IfSome, IsTrue, OnOk, string_bytes};
ghost use Rattle.std.specs.Option.{option_map};
ghost use Rattle.std.specs.Io.KnownBytes.{Appends, Keeps};
ghost use Rattle.zarrs_program.specs.Words.{texts};
ghost use Rattle.zarrs_cli.specs.Words.{AreWords, with_leading_slash};
ghost use Rattle.zarrs_cli.specs.Output.{WritesAsked, WritesConsolidated, WritesOverEach, WritesOverSome, WritesOverSource, WritesRequest};
ghost use Rattle.zarrs_cli.specs.RefusalLines.{IsHint, IsNameError, IsNameFault, IsNameHint, IsNoNode, IsNowhereIn, SaysRefusal};
ghost use Rattle.zarrs_cli.specs.StepsOfConsolidations.{IsNodeFolder};
ghost use Rattle.zarrs_cli.specs.Refusals.{IsOfWriter, RefusesAsked, RefusesConsolidating, RefusesOverEach, RefusesOverSome, RefusesOverSource, RefusesRequest, answered_status};

use crate::consolidate::{Consolidated, consolidate_folder};
use crate::ending::{Answered, Ending, finish};
use crate::fault::ZarrsFault;
use crate::folder::run_of_folder;
use crate::hint::{path_rule, way_out};
use crate::nowhere::{folder_name, nowhere_in_folder, nowhere_in_image};
use crate::output::write_output;
use crate::report::Tally;
use crate::run::run_of_image;
use crate::usage::{USAGE, VERSION};
use crate::words::{Asked, BlockRequest, Command, Request, Word, parse, with_leading_slash};
use log::sink::Discard;
use log::{Level, Log, Logged};
use std::alloc::{AllocError, Global};
use std::io::{Eprint, Read, Write};
use std::rt::Files;
use std::time::Clock;
use zarrs_consolidate::ConsolidateError;
use zarrs_folder::{Disk, Folder};
use zarrs_meaning::NodeCreateError;
use zarrs_path::{NodePath, NodePathError};
use zarrs_write::Disk as WrittenDisk;

/// What a run has of the system beside its words and its streams.
///
/// Source: own.
/// <https://pubs.opengroup.org/onlinepubs/9699919799/utilities/V3_chap01.html>
#[derive(Clone, Copy)]
pub struct Host<'a, R> {
    /// What reads folders, tells the time and logs.
    pub rt: &'a R,
    /// What writes back: a value that logs does not hand on the call that gives a file its owner.
    pub files: &'a HostRuntime,
    /// Whether somebody watches standard error.
    pub is_watched: bool,
}

/// Writes what the words ask, and on standard error how much a check looked at and found, or why the run is refused, but nothing where nobody reads the output
/// any more. Where standard error is watched and a folder takes long, lines there say how many nodes were read so far. It handles every error itself and
/// returns only how the run ended. The exit status is 0 where all is done, 1 where a check has findings or a dry run would write, and 2 where the run is
/// refused.
///
/// The host writes what is written back: a value that logs does not hand on the call that gives a file its owner.
pub fn answer<R: Log + Files + Clock + Eprint + AllocGlobal, I: Read, W: Write, E: Write>(
    host: &Host<'_, R>,
    words: &[String],
    reader: &mut I,
    output: &mut W,
    errors: &mut E,
) -> Ending
    ensures done { result.status ≡ 0 → (answered : Answered) × (answered_status answered ≡ 0)
        × WritesAsked (texts words.now) (I.remaining reader.old)
        (W.contents output.old) (W.contents output.new) answered }
    ensures found { result.status ≡ 1 → (answered : Answered) × (answered_status answered ≡ 1)
        × WritesAsked (texts words.now) (I.remaining reader.old)
        (W.contents output.old) (W.contents output.new) answered }
    ensures refused { result.status ≡ 2 → (fault : ZarrsFault)
        × RefusesAsked (texts words.now)
        (I.remaining reader.old) (I.remaining reader.new) fault
        × ((IsOfWriter fault → ⊥) → Keeps (W.contents output.old) (W.contents output.new))
        × OnOk result.said (SaysRefusal (texts words.now) fault
        (E.contents errors.old) (E.contents errors.new)) }
    ensures usage { (AreWords (texts words.now) → ⊥) → result.status ≡ 2 }
    ensures status { (result.status ≡ 0) ⊎ (result.status ≡ 1) ⊎ (result.status ≡ 2) }
{
    let outcome = run_words(host, words, reader, output);
    let hint = hint(host.rt, words, &outcome);
    finish(host.rt.alloc(), &outcome, &hint, errors)
}

// Writes what the words ask.
fn run_words<R: Log + Files + Clock + Eprint + AllocGlobal, I: Read, W: Write>(
    host: &Host<'_, R>,
    words: &[String],
    reader: &mut I,
    output: &mut W,
) -> Result<Answered, ZarrsFault>
    ensures ok { IfOk result (WritesAsked (texts words.now) (I.remaining reader.old)
        (W.contents output.old) (W.contents output.new)) }
    ensures refused { IfErr result (RefusesAsked (texts words.now)
        (I.remaining reader.old) (I.remaining reader.new)) }
    ensures silent { IfErr result (λ fault. (IsOfWriter fault → ⊥)
        → Keeps (W.contents output.old) (W.contents output.new)) }
{
    match parse(words)? {
        Asked::Help => write_alone(USAGE, output),
        Asked::Version => write_alone(VERSION, output),
        Asked::Store(command) => run_command(host, &command, reader, output),
    }
}

// Writes a text that is about no store.
fn write_alone<W: Write>(text: &str, output: &mut W) -> Result<Answered, ZarrsFault>
    ensures none { IfOk result (λ answered. answered ≡ Answered.Looked None) }
    ensures ok { IfOk result
        (λ _. Appends (W.contents output.old) (W.contents output.new) text.now) }
    ensures err { IfErr result IsOfWriter }
{
    write_output(text, output)?;
    Ok(Answered::Looked(None))
}

// Writes what a request asks of the store that a source names, from the path on that the text of a command names.
fn run_command<R: Log + Files + Clock + Eprint + AllocGlobal, I: Read, W: Write>(
    host: &Host<'_, R>,
    command: &Command<'_>,
    reader: &mut I,
    output: &mut W,
) -> Result<Answered, ZarrsFault>
    ensures ok { IfOk result (WritesRequest
        command.now.request command.now.source.now (with_leading_slash command.now.path.now)
        (I.remaining reader.old) (W.contents output.old) (W.contents output.new)) }
    ensures refused { IfErr result (RefusesRequest
        command.now.request command.now.source.now (with_leading_slash command.now.path.now)
        (I.remaining reader.old) (I.remaining reader.new)) }
    ensures silent { IfErr result (λ fault. (IsOfWriter fault → ⊥)
        → Keeps (W.contents output.old) (W.contents output.new)) }
{
    let path = with_leading_slash(host.rt.alloc(), command.path)?;
    run_request(
        host,
        command.request,
        command.source,
        path.as_str(),
        reader,
        output,
    )
}

// Writes what a request asks of the store that a source names, from a path on.
fn run_request<R: Log + Files + Clock + Eprint + AllocGlobal, I: Read, W: Write>(
    host: &Host<'_, R>,
    request: Request,
    source: &str,
    path: &str,
    reader: &mut I,
    output: &mut W,
) -> Result<Answered, ZarrsFault>
    ensures ok { IfOk result (WritesRequest request source.now path.now
        (I.remaining reader.old) (W.contents output.old) (W.contents output.new)) }
    ensures refused { IfErr result (RefusesRequest request source.now path.now
        (I.remaining reader.old) (I.remaining reader.new)) }
    ensures silent { IfErr result (λ fault. (IsOfWriter fault → ⊥)
        → Keeps (W.contents output.old) (W.contents output.new)) }
{
    match request {
        Request::Look(word) => {
            let tally = look(host, word, source, path, reader, output)?;
            Ok(Answered::Looked(tally))
        }
        Request::Consolidate(options) => {
            let request = BlockRequest { options, path };
            let end = consolidate_disk(host, request, source, output)?;
            Ok(Answered::Consolidated(end))
        }
    }
}

// Writes what a word asks of the store that a source names.
fn look<R: Log + Files + Clock + Eprint + AllocGlobal, I: Read, W: Write>(
    host: &Host<'_, R>,
    word: Word,
    source: &str,
    path: &str,
    reader: &mut I,
    output: &mut W,
) -> Result<Option<Tally>, ZarrsFault>
    ensures ok { IfOk result (WritesOverSource word source.now path.now
        (I.remaining reader.old) (W.contents output.old) (W.contents output.new)) }
    ensures refused { IfErr result (RefusesOverSource word source.now path.now
        (I.remaining reader.old) (I.remaining reader.new)) }
    ensures silent { IfErr result (λ fault. (IsOfWriter fault → ⊥)
        → Keeps (W.contents output.old) (W.contents output.new)) }
{
    if source == "-" {
        return run_of_image(host.rt, host.rt.alloc(), word, path, reader, output);
    }
    run_disk(host, word, source, path, output)
}

// Writes the block of a group of a folder of the system back, or removes it.
fn consolidate_disk<R: Log + Files + Clock + Eprint + AllocGlobal, W: Write>(
    host: &Host<'_, R>,
    request: BlockRequest<'_>,
    source: &str,
    output: &mut W,
) -> Result<Consolidated, ZarrsFault>
    ensures ok { IfOk result (WritesConsolidated request.entry.options request.entry.path.now
        (W.contents output.old) (W.contents output.new)) }
    ensures refused { IfErr result
        (RefusesConsolidating request.entry.options request.entry.path.now) }
    ensures silent { IfErr result (λ fault. (IsOfWriter fault → ⊥)
        → Keeps (W.contents output.old) (W.contents output.new)) }
{
    let mut disk = Disk::open(host.rt, source)?.telling(host.is_watched);
    disk.look_along(request.path)?;
    let folder = folder_of(host.rt.alloc(), source, request.path)?;
    consolidate_opened(host, request, folder.as_str(), &mut disk, output)
}

// The same once the folder of the store is opened.
fn consolidate_opened<'a, R: Log + Files + Clock + Eprint + AllocGlobal, W: Write>(
    host: &Host<'_, R>,
    request: BlockRequest<'_>,
    place: &str,
    disk: &mut Disk<'a, R>,
    output: &mut W,
) -> Result<Consolidated, ZarrsFault>
    ensures ok { IfOk result (WritesConsolidated request.entry.options request.entry.path.now
        (W.contents output.old) (W.contents output.new)) }
    ensures refused { IfErr result
        (RefusesConsolidating request.entry.options request.entry.path.now) }
    ensures silent { IfErr result (λ fault. (IsOfWriter fault → ⊥)
        → Keeps (W.contents output.old) (W.contents output.new)) }
{
    consolidate_at(host.rt, host.files, request, place, disk, output)
}

// Writes the block of a group of a folder back, or removes it, where this is the path of the folder of its document.
fn consolidate_at<L: Log, F: Folder, W: Write>(
    log: &L,
    files: &HostRuntime,
    request: BlockRequest<'_>,
    place: &str,
    folder: &mut F,
    output: &mut W,
) -> Result<Consolidated, ZarrsFault>
    ensures ok { IfOk result (WritesConsolidated request.entry.options request.entry.path.now
        (W.contents output.old) (W.contents output.new)) }
    ensures refused { IfErr result
        (RefusesConsolidating request.entry.options request.entry.path.now) }
    ensures silent { IfErr result (λ fault. (IsOfWriter fault → ⊥)
        → Keeps (W.contents output.old) (W.contents output.new)) }
{
    let mut place = WrittenDisk::new(files, place);
    consolidate_placed(log, files.alloc(), request, folder, &mut place, output)
}

// The same once the folder of the document is at hand.
fn consolidate_placed<'a, L: Log, F: Folder, W: Write>(
    log: &L,
    alloc: Global,
    request: BlockRequest<'_>,
    folder: &mut F,
    place: &mut WrittenDisk<'a, HostRuntime>,
    output: &mut W,
) -> Result<Consolidated, ZarrsFault>
    ensures ok { IfOk result (WritesConsolidated request.entry.options request.entry.path.now
        (W.contents output.old) (W.contents output.new)) }
    ensures refused { IfErr result
        (RefusesConsolidating request.entry.options request.entry.path.now) }
    ensures silent { IfErr result (λ fault. (IsOfWriter fault → ⊥)
        → Keeps (W.contents output.old) (W.contents output.new)) }
{
    consolidate_folder(log, alloc, request, folder, place, output)
}

// The path of the folder of the node at a path of the store in a folder.
#[tactic(auto, using(crate::proofs::FolderNames::node_folder))]
fn folder_of(alloc: Global, source: &str, path: &str) -> Result<String, AllocError>
    ensures { IfOk result
        (λ place. IsNodeFolder source.now path.now (string_bytes place)) }
{
    if path == "/" {
        return String::from_str(alloc, source);
    }
    let folder = folder_name(source);
    format!(in alloc; "{folder}{path}")
}

// Writes what a word asks of a folder of the system.
fn run_disk<R: Log + Files + Clock + Eprint + AllocGlobal, W: Write>(
    host: &Host<'_, R>,
    word: Word,
    source: &str,
    path: &str,
    output: &mut W,
) -> Result<Option<Tally>, ZarrsFault>
    ensures ok { IfOk result
        (WritesOverSome word path.now (W.contents output.old) (W.contents output.new)) }
    ensures refused { IfErr result (RefusesOverSome word path.now) }
    ensures silent { IfErr result (λ fault. (IsOfWriter fault → ⊥)
        → Keeps (W.contents output.old) (W.contents output.new)) }
{
    let mut disk = Disk::open(host.rt, source)?.telling(host.is_watched);
    disk.look_along(path)?;
    run_opened(host.rt, word, path, &mut disk, output)
}

// The same once the folder is opened: of each store that has all answers of the folder, and of some store in any case.
fn run_opened<'a, R: Log + Files + Clock + Eprint + AllocGlobal, W: Write>(
    rt: &R,
    word: Word,
    path: &str,
    disk: &mut Disk<'a, R>,
    output: &mut W,
) -> Result<Option<Tally>, ZarrsFault>
    ensures ok { IfOk result
        (WritesOverSome word path.now (W.contents output.old) (W.contents output.new)) }
    ensures whole { IfOk result (WritesOverEach word path.now
        (⟦<Disk<'a, R> as Folder>⟧.agrees disk.new)
        (W.contents output.old) (W.contents output.new)) }
    ensures refused { IfErr result (RefusesOverSome word path.now) }
    ensures whole_refused { IfErr result (RefusesOverEach word path.now
        (⟦<Disk<'a, R> as Folder>⟧.agrees disk.new)) }
    ensures silent { IfErr result (λ fault. (IsOfWriter fault → ⊥)
        → Keeps (W.contents output.old) (W.contents output.new)) }
{
    run_of_folder(rt, rt.alloc(), word, path, disk, output)
}

// What there is to say in the place of what a fault says.
#[tactic(auto, using(crate::proofs::Runs::name_hinted))]
fn hint<R: Log + Files + Clock + Eprint + AllocGlobal>(
    rt: &R,
    words: &[String],
    outcome: &Result<Answered, ZarrsFault>,
) -> Option<String>
    ensures { IfErr outcome.now (λ fault.
        IsHint (texts words.now) fault (option_map string_bytes result)) }
{
    let Err(fault) = outcome else {
        return None;
    };
    let Ok(Asked::Store(command)) = parse(words) else {
        return None;
    };
    if is_no_node(fault) {
        return no_node_hint(rt, &command);
    }
    if is_name_fault(fault) {
        return name_hint(rt.alloc(), &command, fault);
    }
    None
}

// What is said where there is no node at the path that a command names.
fn no_node_hint<R: Log + Files + Clock + Eprint + AllocGlobal>(
    rt: &R,
    command: &Command<'_>,
) -> Option<String>
    ensures { IfSome result (λ text. IsNowhereIn command.now.source.now
        (with_leading_slash command.now.path.now) (string_bytes text)) }
{
    match with_leading_slash(rt.alloc(), command.path) {
        Ok(path) => nowhere(rt, command.source, path.as_str()),
        Err(AllocError) => None,
    }
}

// What is said where there is no node at a path of what a source names. The run has warned of what it came upon, and this warns of nothing.
fn nowhere<R: Log + Files + Clock + Eprint + AllocGlobal>(
    rt: &R,
    source: &str,
    path: &str,
) -> Option<String>
    ensures { IfSome result (λ text. IsNowhereIn source.now path.now (string_bytes text)) }
{
    if source == "-" {
        return nowhere_in_image(rt.alloc(), path).ok();
    }
    let quiet = Logged::new(rt, Level::Warn, Discard);
    let mut disk = Disk::open(&quiet, source).ok()?;
    nowhere_in_folder(rt.alloc(), source, &mut disk, path).ok()
}

// What is said where a name is refused, of the path that a command names.
fn name_hint(alloc: Global, command: &Command<'_>, fault: &ZarrsFault) -> Option<String>
    ensures { IfSome result (λ text. IsNameHint command.now.request
        (with_leading_slash command.now.path.now) fault.now (string_bytes text)) }
{
    match with_leading_slash(alloc, command.path) {
        Ok(path) => name_hint_at(alloc, command.request, path.as_str(), fault),
        Err(AllocError) => None,
    }
}

// What is said where a name is refused: of a path that is none what a path is, and of a tree, which then goes by a block that has the name, how it is
// shown without the block.
fn name_hint_at(alloc: Global, request: Request, path: &str, fault: &ZarrsFault) -> Option<String>
    ensures { IfSome result (λ text.
        IsNameHint request path.now fault.now (string_bytes text)) }
{
    if !NodePath::validate(path) {
        return path_rule(alloc, fault).ok();
    }
    if matches!(request, Request::Look(Word::Tree)) {
        return way_out(alloc, fault, path).ok();
    }
    None
}

// Whether a fault is that there is no node at the path.
fn is_no_node(fault: &ZarrsFault) -> bool
    ensures { IsTrue result → IsNoNode fault.now }
{
    match fault {
        ZarrsFault::Node(NodeCreateError::MissingMetadata(_)) => true,
        ZarrsFault::Consolidate(ConsolidateError::Node(NodeCreateError::MissingMetadata(_))) =>
            true,
        _ => false,
    }
}

// Whether a fault is of a name that is none, in a path or in a key of a block.
fn is_name_fault(fault: &ZarrsFault) -> bool
    ensures { IsTrue result → IsNameFault fault.now }
{
    match fault {
        ZarrsFault::Node(error) => is_name_error(error),
        ZarrsFault::Consolidate(ConsolidateError::Node(error)) => is_name_error(error),
        _ => false,
    }
}

// The same of the refusal of a node.
fn is_name_error(error: &NodeCreateError) -> bool
    ensures { IsTrue result → IsNameError error.now }
{
    match error {
        NodeCreateError::NodePathError(error) => matches!(error, NodePathError::Invalid(_)),
        _ => false,
    }
}
