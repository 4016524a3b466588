//! A batch applied to a version.

ghost use Rattle.std.specs.Prelude.{◌≡◌, ◌≢◌, ◌+◌, ◌%◌, ◌^◌, ◌<◌, ◌≤◌, ℕ, false, List, length, map};
ghost use Rattle.std.specs.Prelude.{count_by, IfOk, IfSome, All, AllPairs, if◌then◌else◌};
ghost use Rattle.std.specs.List.{sum_by};
ghost use Rattle.graph_types.specs.declared.batches.Outcome.TheVariants.{Absent};
ghost use Rattle.graph_version.specs.Batches.{batch_value};
ghost use Rattle.graph_version.specs.Rows as rows;
ghost use Rattle.graph_version.specs.Rows.{row_of};
ghost use Rattle.batch_shards.specs.RowBlocks.{shared_numbers};
ghost use Rattle.graph_version.specs.Versions.{content, is_in};
ghost use Rattle.batch_apply.specs.Planned.{IsPlan};
ghost use Rattle.graph_types.specs.Outcomes.{written};
ghost use Rattle.batch_apply.specs.Applied.{is_inserted, taken_away};
ghost use Rattle.batch_apply.specs.Applied.{IsApplied};
ghost use Rattle.batch_apply.specs.Rewritten.{IsRewritten};
ghost use Rattle.batch_apply.specs.Gathered.{IsWorked};

use crate::gathering::{Gathered, Workload, work, work_alone};
use crate::plans::Plan;
use crate::workers::{Gate, PassAll};
use edge_block::Block;
use graph_types::{Batch, Outcome, VertexId};
use graph_version::{Row, RowTable, Version};
use std::alloc::{AllocError, Global};
use std::sync::Arc;
use std::thread::Threads;
use vertex_names::NameBook;

/// What a batch leaves of a version.
#[derive(Drop)]
pub struct Applied {
    /// The next version.
    pub version: Version,
    /// The outcome of each operation, in the batch's order.
    pub outcomes: Vec<Outcome>,
    /// The numbers of the fresh blocks that the next version has.
    pub taken: Vec<u32>,
    /// The blocks of the version before that the next one doesn't have.
    pub dropped: Vec<Arc<Block>>,
    /// The fresh blocks that the next version doesn't have.
    pub unused: Vec<Arc<Block>>,
}

/// What a batch leaves of a version, and the sources whose rows were written: all other rows are the version's.
#[derive(Drop)]
pub struct Rewritten {
    pub applied: Applied,
    pub sources: Vec<VertexId>,
}

/// The next version of a version, after a batch of which this is the plan, with as many fresh blocks at hand as
/// the plan's shards may take. All workers with operations work at once; `gate` is told of each worker once.
///
/// The version before stays as it is, after an error too.
pub fn apply<R: Threads + Sync, G: Gate + Sync>(
    rt: &R,
    alloc: Global,
    gate: &G,
    version: &Version,
    plan: Plan,
    batch: Arc<Batch>,
    blocks: Vec<Arc<Block>>,
) -> Result<Applied, AllocError>
    requires plan { (workers : ℕ) × (0 < workers) × IsPlan workers (batch_value batch) (content version.now)
        (row_of version.now.rows) plan }
    requires few { length version.now.batches < (content version.now).limits.batches }
    requires blocks { sum_by (λ n. n) plan.needs.items ≤ length blocks.items }
    requires distinct { AllPairs ◌≢◌ (shared_numbers blocks.items) }
    requires unlisted { All (λ n. is_in n (rows.numbers_of (rows.blocks_of version.now.rows)) ≡ false) (shared_numbers blocks.items) }
    ensures { IfOk result (IsApplied version.now (batch_value batch) (shared_numbers blocks.items)) }
{
    let rewritten = apply_over(rt, alloc, gate, version, plan, batch, blocks, None)?;
    Ok(rewritten.applied)
}

/// As [`apply`], where the next version's rows are made in a table that has the version's, if there is one.
///
/// ```
/// let table = RowTable::caught_up(before, &version, sources.as_slice()).ok();
/// let Rewritten { applied, sources } = apply_over(rt, alloc, &gate, &version, plan, batch, blocks, table)?;
/// ```
pub fn apply_over<R: Threads + Sync, G: Gate + Sync>(
    rt: &R,
    alloc: Global,
    gate: &G,
    version: &Version,
    plan: Plan,
    batch: Arc<Batch>,
    blocks: Vec<Arc<Block>>,
    table: Option<RowTable>,
) -> Result<Rewritten, AllocError>
    requires plan { (workers : ℕ) × (0 < workers) × IsPlan workers (batch_value batch) (content version.now)
        (row_of version.now.rows) plan }
    requires few { length version.now.batches < (content version.now).limits.batches }
    requires blocks { sum_by (λ n. n) plan.needs.items ≤ length blocks.items }
    requires distinct { AllPairs ◌≢◌ (shared_numbers blocks.items) }
    requires unlisted { All (λ n. is_in n (rows.numbers_of (rows.blocks_of version.now.rows)) ≡ false) (shared_numbers blocks.items) }
    requires table { IfSome table (λ t. t ≡ version.now.rows) }
    ensures { IfOk result (IsRewritten version.now (batch_value batch) (shared_numbers blocks.items)) }
{
    let Plan {
        names,
        kinds,
        operations,
        shards,
        needs,
    } = plan;
    let load = Workload {
        shards,
        needs,
        blocks,
        operations,
    };
    let all = work(rt, alloc, gate, version, load)?;
    finish(alloc, version, names, kinds, batch, all, table)
}

/// As [`apply`], of a batch that was planned for one worker, who is the caller: it starts no thread, and tells no gate.
///
/// ```
/// let plan = plan(alloc, &version, &batch, 1)?;
/// let blocks = fresh_blocks(plan.blocks_needed())?;
/// let applied = apply_alone(alloc, &version, plan, batch, blocks)?;
/// ```
pub fn apply_alone(
    alloc: Global,
    version: &Version,
    plan: Plan,
    batch: Arc<Batch>,
    blocks: Vec<Arc<Block>>,
) -> Result<Applied, AllocError>
    requires plan { IsPlan 1 (batch_value batch) (content version.now) (row_of version.now.rows) plan }
    requires few { length version.now.batches < (content version.now).limits.batches }
    requires blocks { sum_by (λ n. n) plan.needs.items ≤ length blocks.items }
    requires distinct { AllPairs ◌≢◌ (shared_numbers blocks.items) }
    requires unlisted { All (λ n. is_in n (rows.numbers_of (rows.blocks_of version.now.rows)) ≡ false) (shared_numbers blocks.items) }
    ensures { IfOk result (IsApplied version.now (batch_value batch) (shared_numbers blocks.items)) }
{
    let rewritten = apply_alone_over(alloc, version, plan, batch, blocks, None)?;
    Ok(rewritten.applied)
}

/// As [`apply_alone`], over a table, as [`apply_over`].
pub fn apply_alone_over(
    alloc: Global,
    version: &Version,
    plan: Plan,
    batch: Arc<Batch>,
    blocks: Vec<Arc<Block>>,
    table: Option<RowTable>,
) -> Result<Rewritten, AllocError>
    requires plan { IsPlan 1 (batch_value batch) (content version.now) (row_of version.now.rows) plan }
    requires few { length version.now.batches < (content version.now).limits.batches }
    requires blocks { sum_by (λ n. n) plan.needs.items ≤ length blocks.items }
    requires distinct { AllPairs ◌≢◌ (shared_numbers blocks.items) }
    requires unlisted { All (λ n. is_in n (rows.numbers_of (rows.blocks_of version.now.rows)) ≡ false) (shared_numbers blocks.items) }
    requires table { IfSome table (λ t. t ≡ version.now.rows) }
    ensures { IfOk result (IsRewritten version.now (batch_value batch) (shared_numbers blocks.items)) }
{
    let Plan {
        names,
        kinds,
        operations,
        shards,
        needs,
    } = plan;
    let load = Workload {
        shards,
        needs,
        blocks,
        operations,
    };
    let all = work_alone(alloc, &PassAll, version, load)?;
    finish(alloc, version, names, kinds, batch, all, table)
}

/// The next version, with these names, from what all shards left of the version.
fn finish(
    alloc: Global,
    version: &Version,
    names: NameBook,
    kinds: NameBook,
    batch: Arc<Batch>,
    all: Gathered,
    table: Option<RowTable>,
) -> Result<Rewritten, AllocError>
    requires worked { (numbers : List ℕ) × IsWorked version.now (batch_value batch) names kinds numbers all }
    requires table { IfSome table (λ t. t ≡ version.now.rows) }
    ensures { IfOk result (λ r. (numbers : List ℕ) → IsWorked version.now (batch_value batch) names kinds numbers all
        → IsRewritten version.now (batch_value batch) numbers r) }
{
    let edges = edges_after(version.edge_count(), &all.outcomes);
    let sources = sources_of(alloc, all.rows.as_slice())?;
    let next = version.after_batch(names, kinds, all.rows, batch, edges, table)?;
    let applied = Applied {
        version: next,
        outcomes: all.outcomes,
        taken: all.left.taken,
        dropped: all.left.dropped,
        unused: all.left.unused,
    };
    Ok(Rewritten { applied, sources })
}

/// The sources of rows, in their order.
fn sources_of(alloc: Global, rows: &[(VertexId, Row)]) -> Result<Vec<VertexId>, AllocError>
    ensures { IfOk result (λ v. v.items ≡ map (λ r. r.0) rows.now) }
{
    let mut sources = Vec::with_capacity(alloc, rows.len())?;
    for row in rows {
        sources.push(row.0)?;
    }
    Ok(sources)
}

/// How many edges operations with these outcomes leave where there were so many before, modulo 2^64.
fn edges_after(before: u64, outcomes: &[Outcome]) -> u64
    ensures { (after : ℕ) → after + sum_by taken_away outcomes.now ≡ before + count_by is_inserted outcomes.now
        → result ≡ after % 2 ^ 64 }
{
    let mut edges = before;
    for outcome in outcomes {
        edges = edges_then(edges, *outcome);
    }
    edges
}

/// How many edges an operation with this outcome leaves of so many, modulo 2^64.
fn edges_then(before: u64, outcome: Outcome) -> u64
    ensures left { (result + taken_away outcome) % 2 ^ 64 ≡ (before + (if is_inserted outcome then 1 else 0)) % 2 ^ 64 }
    ensures fits { result < 2 ^ 64 }
{
    match outcome {
        Outcome::Inserted => before.wrapping_add(1),
        Outcome::Removed => before.wrapping_sub(1),
        Outcome::Expired(count) => before.wrapping_sub(count),
        Outcome::Updated | Outcome::Absent | Outcome::Overflow => before,
    }
}
