//! The block of a group of a folder, written back or removed.
ghost use Rattle.std.specs.Prelude.{◌≡◌, false, IfOk, IfErr, string_bytes};
ghost use Rattle.std.specs.Io.KnownBytes.{Keeps};
ghost use Rattle.zarrs_write.specs.Calls.{AddsSome};
ghost use Rattle.zarrs_consolidate.specs.CarryingOut.{IsPlanBrokenOff};
ghost use Rattle.zarrs_cli.specs.ConsolidationRefusals.{RefusesConsolidationOfEach, RefusesConsolidationOfSome};
ghost use Rattle.zarrs_cli.specs.Consolidations.{AsksPlace, IsChange, IsConsolidationLine, IsConsolidationOfEach, IsConsolidationOfSome, IsEndOf, IsPlanText, absent_text, change_text, current_text, kept_text, nodes_text, noun, removal_text, task_of, writing_text};
ghost use Rattle.zarrs_cli.specs.Refusals.{IsOfWriter, IsUnreadOnlyOf};
ghost use Rattle.zarrs_cli.specs.StepsOfConsolidations.{IsPlanFaultOfEach, IsPlanFaultOfSome, IsPlanToldOfEach, IsPlanToldOfSome};

use crate::escapes::push_line;
use crate::fault::ZarrsFault;
use crate::output::write_output;
use crate::words::{BlockRequest, ConsolidateOptions};
use log::Log;
use std::alloc::{AllocError, Global};
use std::io::Write;
use zarrs_consolidate::{Plan, Task, plan_in_folder};
use zarrs_folder::Folder;
use zarrs_path::NodePath;
use zarrs_program::path_of;
use zarrs_write::{Place, ReplaceError};

/// How a run ends that makes a block.
///
/// <https://pubs.opengroup.org/onlinepubs/9699919799/utilities/V3_chap01.html>
#[derive(Clone, Copy, Debug, PartialEq, Eq)]
pub enum Consolidated {
    /// The document is as it is to be.
    Complete,
    /// A dry run: the document is to be another, and was not touched.
    Due,
}

/// Makes the block of the group at a path of a folder of what a listing finds, and writes it back, or removes it; and writes a line that says what was
/// done. The folder is looked at as far as a walk from the path on does. A dry run only says what would be done.
///
/// # Errors
/// `Node` where the path is none. `Consolidate` where it is not known what becomes of the block, among others where a folder that can fail is not read:
/// nothing is written then. `Replace` where the document was not replaced or not removed. `Closed` where nobody reads what is written any
/// more, and `Write` where the writer fails otherwise, once that is done. `OutOfMemory`.
///
/// Source: own; `zarr.consolidate_metadata` of zarr-python.
pub fn consolidate_folder<L: Log, F: Folder, P: Place, W: Write>(
    log: &L,
    alloc: Global,
    request: BlockRequest<'_>,
    folder: &mut F,
    place: &mut P,
    writer: &mut W,
) -> Result<Consolidated, ZarrsFault>
    ensures ok { IfOk result
        (IsConsolidationOfSome request.entry.options request.entry.path.now
        (P.calls place.old) (P.calls place.new) (W.contents writer.old) (W.contents writer.new)) }
    ensures whole { IfOk result
        (IsConsolidationOfEach request.entry.options request.entry.path.now (F.agrees folder.new)
        (P.calls place.old) (P.calls place.new) (W.contents writer.old) (W.contents writer.new)) }
    ensures refused { IfErr result
        (RefusesConsolidationOfSome request.entry.options request.entry.path.now
        (P.calls place.old) (P.calls place.new)) }
    ensures whole_refused { IfErr result
        (RefusesConsolidationOfEach request.entry.options request.entry.path.now
        (F.agrees folder.new) (P.calls place.old) (P.calls place.new)) }
    ensures unread { IfErr result (IsUnreadOnlyOf (F.can_fail folder.new)) }
    ensures silent { IfErr result (λ fault. (IsOfWriter fault → ⊥)
        → Keeps (W.contents writer.old) (W.contents writer.new)) }
{
    let BlockRequest { options, path } = request;
    let base = path_of(alloc, path)?;
    let made = planned(log, alloc, options, folder, &base)?;
    let end = carry_out(alloc, options, &made.0, place)?;
    write_output(made.1.as_str(), writer)?;
    Ok(end)
}

// What becomes of the block of the group at a path, and the line that tells it.
fn planned<L: Log, F: Folder>(
    log: &L,
    alloc: Global,
    options: ConsolidateOptions,
    folder: &mut F,
    base: &NodePath,
) -> Result<(Plan, String), ZarrsFault>
    ensures ok { IfOk result (IsPlanToldOfSome options base.now) }
    ensures whole { IfOk result (IsPlanToldOfEach options base.now (F.agrees folder.new)) }
    ensures err { IfErr result (IsPlanFaultOfSome options base.now) }
    ensures whole_err { IfErr result (IsPlanFaultOfEach options base.now (F.agrees folder.new)) }
    ensures unread { IfErr result (IsUnreadOnlyOf (F.can_fail folder.new)) }
{
    let plan = plan_in_folder(log, alloc, task_of(options), folder, base)?;
    let line = line_of(alloc, options, &plan)?;
    Ok((plan, line))
}

// Carries a plan out, but by a dry run, and where there is no change.
fn carry_out<P: Place>(
    alloc: Global,
    options: ConsolidateOptions,
    plan: &Plan,
    place: &mut P,
) -> Result<Consolidated, ReplaceError>
    ensures asks { IfOk result
        (λ _. AsksPlace options plan.now (P.calls place.old) (P.calls place.new)) }
    ensures ends { IfOk result (IsEndOf options plan.now) }
    ensures change { IfErr result (λ _. IsChange plan.now × (options.dry_run ≡ false)) }
    ensures err { IfErr result (λ error. AddsSome (P.calls place.old) (P.calls place.new)
        (IsPlanBrokenOff error plan.now)) }
{
    if !plan.is_change() {
        return Ok(Consolidated::Complete);
    }
    if options.dry_run {
        return Ok(Consolidated::Due);
    }
    plan.carry_out(alloc, place)?;
    Ok(Consolidated::Complete)
}

// What is to become of the block.
fn task_of(options: ConsolidateOptions) -> Task
    ensures { result ≡ task_of options }
{
    if options.remove {
        Task::Remove
    } else {
        Task::Write
    }
}

// The line that tells what becomes of a block.
fn line_of(alloc: Global, options: ConsolidateOptions, plan: &Plan) -> Result<String, AllocError>
    ensures { IfOk result (λ line. IsConsolidationLine options plan.now (string_bytes line)) }
{
    let text = plan_text(alloc, options, plan)?;
    let mut line = String::new(alloc);
    push_line(&mut line, text.as_str())?;
    Ok(line)
}

// What is told of what becomes of a block.
fn plan_text(alloc: Global, options: ConsolidateOptions, plan: &Plan) -> Result<String, AllocError>
    ensures { IfOk result (λ text. IsPlanText options plan.now (string_bytes text)) }
{
    if plan.is_change() {
        return change_text(alloc, options, plan);
    }
    kept_text(alloc, options, plan)
}

// What is told of a change.
fn change_text(
    alloc: Global,
    options: ConsolidateOptions,
    plan: &Plan,
) -> Result<String, AllocError>
    ensures { IfOk result (λ text. string_bytes text ≡ change_text options plan.now) }
{
    if options.remove {
        return removal_text(alloc, options.dry_run, plan.key.as_str());
    }
    let nodes = nodes_text(alloc, plan)?;
    writing_text(alloc, options.dry_run, plan.key.as_str(), nodes.as_str())
}

// That a block was removed, or would be.
fn removal_text(alloc: Global, dry_run: bool, key: &str) -> Result<String, AllocError>
    ensures { IfOk result (λ text. string_bytes text ≡ removal_text dry_run key.now) }
{
    if dry_run {
        return format!(in alloc; "would remove the block of {key}");
    }
    format!(in alloc; "removed the block of {key}")
}

// That a block was written, or would be.
fn writing_text(alloc: Global, dry_run: bool, key: &str, nodes: &str) -> Result<String, AllocError>
    ensures { IfOk result (λ text. string_bytes text ≡ writing_text dry_run key.now nodes.now) }
{
    if dry_run {
        return format!(in alloc; "would write {key}: the block of {nodes}");
    }
    format!(in alloc; "wrote {key}: the block of {nodes}")
}

// What is told where there is no change.
fn kept_text(alloc: Global, options: ConsolidateOptions, plan: &Plan) -> Result<String, AllocError>
    ensures { IfOk result (λ text. string_bytes text ≡ kept_text options plan.now) }
{
    if options.remove {
        return absent_text(alloc, plan.key.as_str());
    }
    let nodes = nodes_text(alloc, plan)?;
    current_text(alloc, plan.key.as_str(), nodes.as_str())
}

// That there is no block.
fn absent_text(alloc: Global, key: &str) -> Result<String, AllocError>
    ensures { IfOk result (λ text. string_bytes text ≡ absent_text key.now) }
{
    format!(in alloc; "{key} has no block")
}

// That the block is current.
fn current_text(alloc: Global, key: &str, nodes: &str) -> Result<String, AllocError>
    ensures { IfOk result (λ text. string_bytes text ≡ current_text key.now nodes.now) }
{
    format!(in alloc; "{key} is current: the block of {nodes}")
}

// The number of nodes of the block.
fn nodes_text(alloc: Global, plan: &Plan) -> Result<String, AllocError>
    ensures { IfOk result (λ text. string_bytes text ≡ nodes_text plan.now) }
{
    let nodes = plan.nodes;
    let node = noun(nodes);
    format!(in alloc; "{nodes} {node}")
}

// What so many nodes are called.
fn noun(nodes: usize) -> &'static str
    ensures { result.now ≡ noun nodes }
{
    if nodes == 1 { "node" } else { "nodes" }
}
