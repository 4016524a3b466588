//! The parts of a plan: a batch's names, resolved, and the shards of workers.

ghost use Rattle.std.specs.Prelude.{◌≡◌, ◌∷◌, ◌++◌, [], ◌-◌, ◌≤◌, ◌<◌, ◌^◌, ℕ, List, length, map, min, IfOk, IfErr, OnOk, All};
ghost use Rattle.std.specs.List.{range_with_len, AllZip};
ghost use Rattle.graph_types.specs.Limits.{most_names, most_operations};
ghost use Rattle.graph_types.specs.Valid.{IsBatch};
ghost use Rattle.edge_block.specs.Slots.{BlockView};
ghost use Rattle.edge_block.specs.Batches.{IsPlaced};
ghost use Rattle.graph_types.specs.Step.{after_all};
ghost use Rattle.edge_block.specs.Batches.{resolved};
ghost use Rattle.graph_version.specs.Kept.{vertex_book, kind_book};
ghost use Rattle.graph_version.specs.Versions.{content, IsVersion};
ghost use Rattle.graph_version.specs.Rows.{row_of};
ghost use Rattle.batch_shards.specs.Done.{layout_by, sources_in};
ghost use Rattle.batch_shards.specs.Spending.{needed};
ghost use Rattle.batch_apply.specs.Plan.{shown_op, IsInRange};
ghost use Rattle.graph_types.specs.Refusals.{MeetsNeitherLimit, IsLimitRefusal};
ghost use Rattle.batch_apply.specs.Shards.{IsShardOf, latest_expiry};
ghost use Rattle.batch_apply.specs.OldRows.{AreOldRows};
ghost use Rattle.batch_apply.specs.Listed.{IsKnown};

use crate::listed::KnownEnds;
use crate::naming::resolve_batch;
use crate::old::OldRow;
use crate::resolve::ResolvedOp;
use crate::shards::{Needing, shard_for};
use batch_shards::Shard;
use graph_types::{ApplyError, NamedOp};
use graph_version::Version;
use std::alloc::{AllocError, Global};
use std::thread::{Threads, map_indices};
use vertex_names::NameBook;

/// A batch's operations, resolved, and the names that the batch leaves.
#[derive(Drop)]
pub struct NamedBatch {
    pub names: NameBook,
    pub kinds: NameBook,
    pub ops: Vec<ResolvedOp>,
}

/// Resolves the names of a batch's operations over a version and its names. This is known of the ends of the first among these.
///
/// `NamesFull` where the batch would leave more vertex names than the limits allow, else `KindsFull` where it would
/// leave more kinds, and `OutOfMemory` where a growth was refused. The books share the version's names, and copy no text
/// but those of the last 256 where the batch has new ones.
pub fn name_ops(
    alloc: Global,
    version: &Version,
    names: &NameBook,
    ops: &[NamedOp],
    found: &KnownEnds<'_>,
) -> Result<NamedBatch, ApplyError>
    requires names { names.now ≡ vertex_book (content version.now) }
    requires batch { IsBatch ops.now }
    requires found { IsKnown (content version.now).names ops.now found.now }
    ensures names { IfOk result (λ n. n.names ≡ vertex_book (after_all ops.now (content version.now))) }
    ensures kinds { IfOk result (λ n. n.kinds ≡ kind_book (after_all ops.now (content version.now))) }
    ensures ops { IfOk result (λ n. map shown_op n.ops.items ≡ resolved ops.now (content version.now)) }
    ensures few { IfOk result (λ n. length n.ops.items ≤ most_operations) }
    ensures placed { IfOk result (λ n. All IsPlaced (map shown_op n.ops.items)) }
    ensures changes { IfOk result (λ n. All IsInRange n.ops.items) }
    ensures version { IsVersion version.now }
    ensures limits { OnOk result (MeetsNeitherLimit ops.now (content version.now)) }
    ensures refused { IfErr result (λ error. IsLimitRefusal error ops.now (content version.now)) }
{
    let most = version.limits().weight();
    let mut names = names.share()?;
    let mut kinds = version.kinds().share()?;
    let ops = resolve_batch(alloc, &mut names, &mut kinds, most, ops, found)?;
    Ok(NamedBatch { names, kinds, ops })
}

/// A shard for each worker, and how many fresh blocks each may take.
#[derive(Drop)]
pub struct Shards {
    pub shards: Vec<Shard>,
    pub needs: Vec<usize>,
}

/// No shards yet.
fn no_shards(alloc: Global) -> Shards
    ensures shards { result.shards.items ≡ [] }
    ensures needs { result.needs.items ≡ [] }
{
    Shards {
        shards: Vec::new(alloc),
        needs: Vec::new(alloc),
    }
}

/// Adds the shard of one worker more.
fn add_shard(all: &mut Shards, planned: Needing) -> Result<(), AllocError>
    ensures shards { OnOk result (all.new.shards.items ≡ all.old.shards.items ++ planned.shard ∷ []) }
    ensures needs { OnOk result (all.new.needs.items ≡ all.old.needs.items ++ planned.blocks ∷ []) }
{
    let Needing { shard, blocks } = planned;
    all.needs.push(blocks)?;
    all.shards.push(shard)?;
    Ok(())
}

/// The shard of each worker, in order: a vertex's operations are those of the worker whose number is the vertex's modulo the
/// number of workers, in the batch's order. An operation whose source is unknown at its place is worker 0's, and an expiry is
/// every worker's. The greatest number stands for as many blocks, or more.
pub fn shards_for(
    alloc: Global,
    workers: usize,
    ops: &[ResolvedOp],
    old: &[OldRow],
) -> Result<Shards, AllocError>
    requires workers { 0 < workers }
    requires few { length ops.now ≤ most_operations }
    requires placed { All IsPlaced (map shown_op ops.now) }
    requires valid { All IsInRange ops.now }
    requires few_old { length old.now ≤ most_names }
    requires old { (rows : ℕ → List BlockView) × AreOldRows (latest_expiry (map shown_op ops.now)) rows old.now }
    ensures shards { IfOk result (λ v. (rows : ℕ → List BlockView) → AreOldRows (latest_expiry (map shown_op ops.now)) rows old.now
        → AllZip (IsShardOf workers (map shown_op ops.now) (layout_by rows)) (range_with_len 0 workers) v.shards.items) }
    ensures needs { IfOk result (λ v. (rows : ℕ → List BlockView) → AreOldRows (latest_expiry (map shown_op ops.now)) rows old.now
        → v.needs.items ≡ map (λ shard. min (needed rows (sources_in shard) shard.steps.items) (2 ^ 64 - 1)) v.shards.items) }
{
    let mut all = no_shards(alloc);
    for worker in 0..workers {
        let planned = shard_for(alloc, workers, worker, ops, old)?;
        add_shard(&mut all, planned)?;
    }
    Ok(all)
}

/// The shard of each worker, as `shards_for` gives them. Several workers plan theirs at once, each in a thread of its own.
pub fn shards_at_once<R: Threads + Sync>(
    rt: &R,
    alloc: Global,
    workers: usize,
    ops: &[ResolvedOp],
    old: &[OldRow],
) -> Result<Shards, AllocError>
    requires workers { 0 < workers }
    requires few { length ops.now ≤ most_operations }
    requires placed { All IsPlaced (map shown_op ops.now) }
    requires valid { All IsInRange ops.now }
    requires few_old { length old.now ≤ most_names }
    requires old { (rows : ℕ → List BlockView) × AreOldRows (latest_expiry (map shown_op ops.now)) rows old.now }
    ensures shards { IfOk result (λ v. (rows : ℕ → List BlockView) → AreOldRows (latest_expiry (map shown_op ops.now)) rows old.now
        → AllZip (IsShardOf workers (map shown_op ops.now) (layout_by rows)) (range_with_len 0 workers) v.shards.items) }
    ensures needs { IfOk result (λ v. (rows : ℕ → List BlockView) → AreOldRows (latest_expiry (map shown_op ops.now)) rows old.now
        → v.needs.items ≡ map (λ shard. min (needed rows (sources_in shard) shard.steps.items) (2 ^ 64 - 1)) v.shards.items) }
{
    if workers < 2 {
        return shards_for(alloc, workers, ops, old);
    }
    let plan_one = |worker: usize| -> Result<Needing, AllocError>
        requires workers { 0 < workers }
        requires few { length ops.now ≤ most_operations }
        requires placed { All IsPlaced (map shown_op ops.now) }
        requires valid { All IsInRange ops.now }
        requires few_old { length old.now ≤ most_names }
        requires old { (rows : ℕ → List BlockView) × AreOldRows (latest_expiry (map shown_op ops.now)) rows old.now }
        ensures shard { IfOk result (λ n. (rows : ℕ → List BlockView)
            → AreOldRows (latest_expiry (map shown_op ops.entry.now)) rows old.entry.now
            → IsShardOf workers (map shown_op ops.entry.now) (layout_by rows) worker n.shard) }
        ensures blocks { IfOk result (λ n. (rows : ℕ → List BlockView)
            → AreOldRows (latest_expiry (map shown_op ops.entry.now)) rows old.entry.now
            → n.blocks ≡ min (needed rows (sources_in n.shard) n.shard.steps.items) (2 ^ 64 - 1)) }
    { shard_for(alloc, workers, worker, ops, old) };
    let planned = map_indices(rt, alloc, workers, &plan_one)?;
    let mut all = no_shards(alloc);
    for one in planned {
        add_shard(&mut all, one?)?;
    }
    Ok(all)
}
