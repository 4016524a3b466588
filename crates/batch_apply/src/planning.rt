//! The plan of a batch by version, batch and workers.

ghost use Rattle.std.specs.Prelude.{◌≡◌, ◌+◌, ◌<◌, length, IfOk, IfErr, OnOk};
ghost use Rattle.graph_version.specs.Versions.{content};
ghost use Rattle.graph_version.specs.Rows.{row_of};
ghost use Rattle.batch_apply.specs.OldRows.{AreOldRows, expiry_time};
ghost use Rattle.batch_apply.specs.Listed.{IsKnown};
ghost use Rattle.graph_types.specs.Valid.{IsBatch};
ghost use Rattle.graph_types.specs.Refusals.{MeetsNeitherLimit, IsLimitRefusal};
ghost use Rattle.batch_apply.specs.Planned.{IsPlan, IsSharedPlan, workers_for};

use crate::dividing::{NamedBatch, Shards, name_ops, shards_at_once, shards_for};
use crate::finding::look_up;
use crate::listed::KnownEnds;
use crate::old::{OldRow, old_rows};
use crate::plans::Plan;
use graph_types::{ApplyError, Batch, NamedOp};
use graph_version::Version;
use std::alloc::Global;
use std::thread::Threads;

/// Plans a batch over a version for so many workers: finds the version's old rows for the batch, and plans with them.
///
/// `NamesFull` where the batch would leave more vertex names than the limits allow, else `KindsFull` where it would leave
/// more kinds, and `OutOfMemory` where a growth was refused.
///
/// ```
/// let plan = plan(alloc, &version, &batch, 4)?;
/// let blocks = fresh_blocks(plan.blocks_needed())?;
/// let applied = apply(rt, alloc, &PassAll, &version, plan, batch, blocks)?;
/// ```
pub fn plan(
    alloc: Global,
    version: &Version,
    batch: &Batch,
    workers: usize,
) -> Result<Plan, ApplyError>
    requires workers { 0 < workers }
    ensures plan { IfOk result (IsPlan workers batch.now (content version.now) (row_of version.now.rows)) }
    ensures limits { OnOk result (MeetsNeitherLimit batch.now (content version.now)) }
    ensures refused { IfErr result (λ error. IsLimitRefusal error batch.now (content version.now)) }
{
    plan_alone(
        alloc,
        version,
        batch.ops(),
        workers,
        &KnownEnds::Looked(&[]),
    )
}

/// Plans a batch as [`plan`] does, for one worker, where this is known of the ends of its operations. What the plan is doesn't
/// depend on it.
///
/// ```
/// let listing = NameList { sources, targets, names: 1_000 };
/// let plan = plan_known(alloc, &version, &batch, &KnownEnds::Listed(listing))?;
/// ```
pub fn plan_known(
    alloc: Global,
    version: &Version,
    batch: &Batch,
    known: &KnownEnds<'_>,
) -> Result<Plan, ApplyError>
    requires known { IsKnown (content version.now).names batch.now known.now }
    ensures plan { IfOk result (IsPlan 1 batch.now (content version.now) (row_of version.now.rows)) }
    ensures limits { OnOk result (MeetsNeitherLimit batch.now (content version.now)) }
    ensures refused { IfErr result (λ error. IsLimitRefusal error batch.now (content version.now)) }
{
    plan_alone(alloc, version, batch.ops(), 1, known)
}

/// Plans operations as [`plan`] does a batch, where this is known of their ends.
fn plan_alone(
    alloc: Global,
    version: &Version,
    ops: &[NamedOp],
    workers: usize,
    known: &KnownEnds<'_>,
) -> Result<Plan, ApplyError>
    requires workers { 0 < workers }
    requires batch { IsBatch ops.now }
    requires known { IsKnown (content version.now).names ops.now known.now }
    ensures plan { IfOk result (IsPlan workers ops.now (content version.now) (row_of version.now.rows)) }
    ensures limits { OnOk result (MeetsNeitherLimit ops.now (content version.now)) }
    ensures refused { IfErr result (λ error. IsLimitRefusal error ops.now (content version.now)) }
{
    let old = old_rows(alloc, version, ops)?;
    let named = name_ops(alloc, version, version.names(), ops, known)?;
    let planned = shards_for(alloc, workers, named.ops.as_slice(), old.as_slice())?;
    Ok(plan_of(named, planned))
}

/// Plans a batch as [`plan`] does, by as many threads at once as it is planned for. What the plan is doesn't depend on it.
///
/// ```
/// let plan = plan_with(rt, alloc, &version, &batch, 4)?;
/// ```
pub fn plan_with<R: Threads + Sync>(
    rt: &R,
    alloc: Global,
    version: &Version,
    batch: &Batch,
    workers: usize,
) -> Result<Plan, ApplyError>
    requires workers { 0 < workers }
    ensures plan { IfOk result (IsPlan workers batch.now (content version.now) (row_of version.now.rows)) }
    ensures limits { OnOk result (MeetsNeitherLimit batch.now (content version.now)) }
    ensures refused { IfErr result (λ error. IsLimitRefusal error batch.now (content version.now)) }
{
    let ops = batch.ops();
    let old = old_rows(alloc, version, ops)?;
    Ok(plan_ops(rt, alloc, version, ops, &old, workers)?)
}

/// Plans operations as [`plan_with`] does a batch, over the version's old rows for them. Several workers look the names up at
/// once before, and plan their shards at once.
fn plan_ops<R: Threads + Sync>(
    rt: &R,
    alloc: Global,
    version: &Version,
    ops: &[NamedOp],
    old: &[OldRow],
    workers: usize,
) -> Result<Plan, ApplyError>
    requires workers { 0 < workers }
    requires batch { IsBatch ops.now }
    requires old { AreOldRows (expiry_time ops.now) (row_of version.now.rows) old.now }
    ensures plan { IfOk result (IsPlan workers ops.now (content version.now) (row_of version.now.rows)) }
    ensures limits { OnOk result (MeetsNeitherLimit ops.now (content version.now)) }
    ensures refused { IfErr result (λ error. IsLimitRefusal error ops.now (content version.now)) }
{
    let names = version.names();
    let found = look_up(rt, alloc, names, ops, workers)?;
    let named = name_ops(alloc, version, names, ops, &KnownEnds::Looked(&found))?;
    let planned = shards_at_once(rt, alloc, workers, named.ops.as_slice(), old)?;
    Ok(plan_of(named, planned))
}

/// A batch with fewer operations, and rows to open for its expiries, is one worker's: to start a thread takes as long as some
/// hundred operations.
const SHARED_OPERATIONS: usize = 2048;

/// How many of these workers share so many operations and rows.
fn workers_for(workers: usize, operations: usize, rows: usize) -> usize
    ensures { result ≡ workers_for workers (operations + rows) }
{
    if operations.saturating_add(rows) < SHARED_OPERATIONS {
        1
    } else {
        workers
    }
}

/// Plans a batch as [`plan`] does, for as many of these workers as share it: for one if it is small. What it leaves is the same
/// for each number.
pub fn plan_shared<R: Threads + Sync>(
    rt: &R,
    alloc: Global,
    version: &Version,
    batch: &Batch,
    workers: usize,
) -> Result<Plan, ApplyError>
    requires workers { 0 < workers }
    ensures plan { IfOk result (IsSharedPlan workers batch.now (content version.now) (row_of version.now.rows)) }
    ensures limits { OnOk result (MeetsNeitherLimit batch.now (content version.now)) }
    ensures refused { IfErr result (λ error. IsLimitRefusal error batch.now (content version.now)) }
{
    let ops = batch.ops();
    let old = old_rows(alloc, version, ops)?;
    let sharing = workers_for(workers, ops.len(), old.len());
    Ok(plan_ops(rt, alloc, version, ops, &old, sharing)?)
}

/// The plan of these names and these shards.
fn plan_of(named: NamedBatch, planned: Shards) -> Plan
    ensures { result ≡ record {
      names = named.names;
      kinds = named.kinds;
      operations = length named.ops.items;
      shards = planned.shards;
      needs = planned.needs;
    } }
{
    let NamedBatch { names, kinds, ops } = named;
    Plan {
        names,
        kinds,
        operations: ops.len(),
        shards: planned.shards,
        needs: planned.needs,
    }
}
