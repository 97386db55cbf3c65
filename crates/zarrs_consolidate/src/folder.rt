//! What becomes of the block of a group of a folder.
ghost use Rattle.std.specs.Prelude.{IfOk, IfErr};
ghost use Rattle.zarrs_store.specs.Contents.{Values};
ghost use Rattle.zarrs_folder.specs.Folders.{in_any};
ghost use Rattle.zarrs_consolidate.specs.Plans.{IsPlan};
ghost use Rattle.zarrs_consolidate.specs.Refusals.{IsOfFolder, RefusesPlanOfEach, RefusesPlanOfSome};

use crate::fault::ConsolidateError;
use crate::plan::{Plan, Task, plan_block};
use log::Log;
use std::alloc::Global;
use zarrs_folder::{Documents, Folder, load_nodes};
use zarrs_path::NodePath;

/// What becomes of the block of the group at a path of a folder, as [`plan_block`] says of a store: of each store with which all answers of the folder agree.
/// The folder is looked at as far as a walk from the path on does. Documents may hold any number.
///
/// # Errors
/// `Folder`, of a folder that can fail, where a folder or a file is not read; the errors of [`plan_block`].
///
/// Source: own; `zarr.consolidate_metadata` of zarr-python.
pub fn plan_in_folder<L: Log, F: Folder>(
    log: &L,
    alloc: Global,
    task: Task,
    folder: &mut F,
    base: &NodePath,
) -> Result<Plan, ConsolidateError>
    ensures some { IfOk result (λ plan. (V : Values) × IsPlan (in_any V) task base.now plan) }
    ensures each { IfOk result (λ plan. (V : Values) → F.agrees folder.new V
        → IsPlan (in_any V) task base.now plan) }
    ensures some_refused { IfErr result (RefusesPlanOfSome task base.now) }
    ensures each_refused { IfErr result (RefusesPlanOfEach (F.agrees folder.new) task base.now) }
    ensures unread { IfErr result (IsOfFolder (F.can_fail folder.new)) }
{
    let store = load_nodes(alloc, folder, Documents::Deciding, base)?;
    plan_block(log, alloc, task, &store, base)
}
