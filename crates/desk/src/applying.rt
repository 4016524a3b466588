//! A batch on its way to the desk: its plan and its blocks, what is made of it before anything changes, and its
//! publication.

ghost use Rattle.std.specs.Prelude.{◌≡◌, ◌≢◌, ◌+◌, ◌<◌, ◌≤◌, ◌^◌, ◌++◌, ◌∷◌, [], ℕ, List, length, IfOk, IfErr, OnOk, OnErr};
ghost use Rattle.std.specs.Prelude.{AllPairs, All, false, count_by, vec_capacity, vec_len, IsTrue, ◌↔◌};
ghost use Rattle.std.specs.List.{sum_by};
ghost use Rattle.graph_types.specs.Limits.{most_operations};
ghost use Rattle.graph_version.specs.Rows as rows;
ghost use Rattle.graph_version.specs.Batches.{batch_value};
ghost use Rattle.graph_version.specs.Versions.{VersionView, content};
ghost use Rattle.batch_apply.specs.Listed.{IsKnown};
ghost use Rattle.batch_apply.specs.Rewritten.{IsRewritten};
ghost use Rattle.batch_shards.specs.RowBlocks.{shared_numbers};
ghost use Rattle.block_reclamation.specs.Status.{is_among, is_free, is_in_use, most_blocks};
ghost use Rattle.block_pool.specs.Pools.{AreFree, marked};
ghost use Rattle.block_reclamation.specs.declared.status.BlockStatus.TheVariants.{Granted};
ghost use Rattle.desk.specs.Applying.{IsPrepared};
ghost use Rattle.desk.specs.Refusals.{Refuses, RefusesGrant, IsAdmitted, IsPlanned, asked};

use batch_apply::{Applied, KnownEnds, Plan, Rewritten, plan_known, plan_shared};
use block_pool::{Grant, Pool};
use edge_block::Block;
use graph_types::{ApplyError, Batch, Outcome, VertexId};
use graph_version::Version;
use std::alloc::{AllocError, Global};
use std::sync::Arc;
use std::thread::Threads;

/// The number of the version after this one.
pub(crate) fn next_number(last: &Version) -> u64
    ensures { result ≡ length last.now.batches + 1 }
{
    last.number() + 1
}

/// Whether a version is behind as many batches as its limits allow.
fn is_full(last: &Version) -> bool
    ensures { IsTrue result ↔ ((content last.now).limits.batches ≤ length last.now.batches) }
{
    next_number(last) > u64::from(last.limits().batches())
}

/// The plan of a batch after this version, for one worker, where this is known of the ends of its operations.
#[tactic(auto, using(crate::proofs::Refused::plan_refuses))]
pub(crate) fn plan_next(
    alloc: Global,
    last: &Version,
    batch: &Batch,
    known: &KnownEnds<'_>,
) -> Result<Plan, ApplyError>
    requires { IsKnown (content last.now).names batch.now known.now }
    ensures planned { IfOk result (IsPlanned last.now 1 batch.now) }
    ensures refused { IfErr result (λ e. (free : ℕ) → Refuses last.now free batch.now e) }
{
    if is_full(last) {
        return Err(ApplyError::BatchLimit);
    }
    Ok(plan_known(alloc, last, batch, known)?)
}

/// The plan of a batch after this version, for so many workers, or for one if it is small.
#[tactic(auto, using(crate::proofs::Refused::plan_refuses))]
pub(crate) fn plan_at_once<R: Threads + Sync>(
    rt: &R,
    alloc: Global,
    last: &Version,
    batch: &Batch,
    workers: usize,
) -> Result<Plan, ApplyError>
    requires workers { 0 < workers }
    ensures admitted { IfOk result (IsAdmitted last.now workers batch.now) }
    ensures refused { IfErr result (λ e. (free : ℕ) → Refuses last.now free batch.now e) }
{
    if is_full(last) {
        return Err(ApplyError::BatchLimit);
    }
    Ok(plan_shared(rt, alloc, last, batch, workers)?)
}

/// How many blocks a batch of so many operations asks for after a version that uses so many.
fn asked_by(batch: &Batch, operations: usize, used: u32) -> u32
    requires operations { operations ≡ length batch.now }
    requires few { operations ≤ most_operations }
    requires used { used ≤ most_blocks }
    ensures { result ≡ asked batch.now used }
{
    let more = if batch.has_expire() { used } else { 0 };
    operations as u32 + more
}

/// Grants as many blocks as a plan's shards may take, where all those are free that its batch asks for after the version
/// that uses the used ones.
pub(crate) fn grant_blocks(pool: &mut Pool, batch: &Batch, plan: &Plan) -> Result<Grant, ApplyError>
    requires needs { sum_by (λ n. n) plan.now.needs.items ≤ asked batch.now (count_by is_in_use pool.old) }
    requires operations { plan.now.operations ≡ length batch.now }
    requires few { length batch.now ≤ most_operations }
    ensures numbers { IfOk result (λ g. AreFree pool.old g.numbers.items
        × (length g.numbers.items ≡ sum_by (λ n. n) plan.now.needs.items)) }
    ensures blocks { IfOk result (λ g. shared_numbers g.blocks.items ≡ g.numbers.items) }
    ensures used { IfOk result (λ g. pool.new ≡ marked g.numbers.items Granted pool.old) }
    ensures enough { OnOk result (asked batch.now (count_by is_in_use pool.old) ≤ count_by is_free pool.old) }
    ensures refused { IfErr result (RefusesGrant (asked batch.now (count_by is_in_use pool.old)) (count_by is_free pool.old)) }
    ensures unchanged { OnErr result (pool.new ≡ pool.old) }
{
    let asked = asked_by(batch, plan.operations, pool.used());
    Ok(pool.grant_of(asked, plan.blocks_needed() as u32)?)
}

/// What is made of a batch before anything of the desk changes.
#[derive(Drop)]
pub(crate) struct Prepared {
    pub(crate) version: Arc<Version>,
    pub(crate) outcomes: Vec<Outcome>,
    pub(crate) batch: Arc<Batch>,
    pub(crate) taken: Vec<u32>,
    pub(crate) dropped_numbers: Vec<u32>,
    pub(crate) dropped: Vec<Arc<Block>>,
    pub(crate) unused: Vec<Arc<Block>>,
    /// The sources whose rows the version before has otherwise.
    pub(crate) sources: Vec<VertexId>,
}

/// The numbers of blocks, in their order.
fn numbers_in(alloc: Global, blocks: &[Arc<Block>]) -> Result<Vec<u32>, AllocError>
    ensures { IfOk result (λ v. v.items ≡ shared_numbers blocks.now) }
{
    let mut numbers = Vec::with_capacity(alloc, blocks.len())?;
    for block in blocks {
        numbers.push(block.number())?;
    }
    Ok(numbers)
}

/// What is made of a batch that was applied. It stands apart: the fewer values a function owns at an exit, the cheaper
/// its proof.
pub(crate) fn made_of(
    alloc: Global,
    rewritten: Rewritten,
    batch: Arc<Batch>,
) -> Result<Prepared, AllocError>
    ensures { IfOk result (λ p. (v : VersionView) (numbers : List ℕ) → IsRewritten v (batch_value batch) numbers rewritten
        → IsPrepared v (batch_value batch) numbers p) }
{
    let Rewritten { applied, sources } = rewritten;
    let Applied {
        version,
        outcomes,
        taken,
        dropped,
        unused,
    } = applied;
    let dropped_numbers = numbers_in(alloc, dropped.as_slice())?;
    let version = Arc::new(alloc, version)?;
    Ok(Prepared {
        version,
        outcomes,
        batch,
        taken,
        dropped_numbers,
        dropped,
        unused,
        sources,
    })
}
