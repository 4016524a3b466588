//! What the shards of a batch leave, put together.

ghost use Rattle.std.specs.Prelude.{◌≡◌, ◌+◌, ◌++◌, ◌<◌, ◌≤◌, ℕ, [], Bool, List, length, flat_map};
ghost use Rattle.std.specs.Prelude.{replicate, count_by, zip, IfOk, OnOk, All, if◌then◌else◌};
ghost use Rattle.std.specs.List.{sum_by, AllZip};
ghost use Rattle.graph_types.specs.declared.batches.Outcome.TheVariants.{Absent};
ghost use Rattle.graph_version.specs.Rows as rows;
ghost use Rattle.graph_version.specs.Rows.{row_of};
ghost use Rattle.batch_shards.specs.RowBlocks.{shared_blocks, shared_numbers};
ghost use Rattle.batch_shards.specs.Closing.{row_values};
ghost use Rattle.graph_types.specs.Outcomes.{written};
ghost use Rattle.batch_apply.specs.Gathered.{IsDealt, IsShard};
ghost use Rattle.batch_apply.specs.Applied.{written_from};
ghost use Rattle.batch_apply.specs.Gathered.{IsGathered};

use crate::workers::{Gate, Job, do_all, do_alone};
use batch_shards::{Leavings, Shard, ShardDone};
use edge_block::Block;
use graph_types::{Outcome, VertexId, write_outcomes};
use graph_version::{Row, Version};
use std::alloc::{AllocError, Global};
use std::sync::Arc;
use std::thread::Threads;

/// What the shards of a batch are given.
#[derive(Drop)]
pub struct Workload {
    pub shards: Vec<Shard>,
    /// How many of the blocks each shard gets.
    pub needs: Vec<usize>,
    pub blocks: Vec<Arc<Block>>,
    /// How many operations the batch has.
    pub operations: usize,
}

/// What all shards leave together.
pub fn work<R: Threads + Sync, G: Gate + Sync>(
    rt: &R,
    alloc: Global,
    gate: &G,
    version: &Version,
    load: Workload,
) -> Result<Gathered, AllocError>
    requires long { length load.needs.items ≡ length load.shards.items }
    requires blocks { sum_by (λ n. n) load.needs.items ≤ length load.blocks.items }
    requires ready { (jobs : List Job) → AllZip IsDealt (zip load.shards.items load.needs.items) jobs
        → All (λ j. IsShard (row_of version.now.rows) j.shard) jobs }
    ensures { IfOk result (IsGathered (row_of version.now.rows) (zip load.shards.items load.needs.items)
        (shared_numbers load.blocks.items) load.operations) }
{
    if load.shards.len() == 1 {
        return work_alone(alloc, gate, version, load);
    }
    let Workload {
        shards,
        needs,
        blocks,
        operations,
    } = load;
    let workers = shards.len();
    let mut unused = blocks;
    let jobs = deal(alloc, shards, needs.as_slice(), &mut unused)?;
    let dones = do_all(rt, alloc, gate, version, workers, jobs)?;
    let all = gather(alloc, operations, dones, unused)?;
    Ok(all)
}

/// As `work`, of the only shard: most batches have no other, and then need no list of jobs.
pub fn work_alone<G: Gate>(
    alloc: Global,
    gate: &G,
    version: &Version,
    load: Workload,
) -> Result<Gathered, AllocError>
    requires alone { length load.shards.items ≡ 1 }
    requires long { length load.needs.items ≡ length load.shards.items }
    requires blocks { sum_by (λ n. n) load.needs.items ≤ length load.blocks.items }
    requires ready { (jobs : List Job) → AllZip IsDealt (zip load.shards.items load.needs.items) jobs
        → All (λ j. IsShard (row_of version.now.rows) j.shard) jobs }
    ensures { IfOk result (IsGathered (row_of version.now.rows) (zip load.shards.items load.needs.items)
        (shared_numbers load.blocks.items) load.operations) }
{
    let Workload {
        mut shards,
        needs,
        blocks,
        operations,
    } = load;
    let Some(shard) = shards.pop() else {
        unreachable!()
    };
    let mut unused = blocks;
    let fresh = take_last(&mut unused, needs[0])?;
    let job = Job {
        worker: 0,
        shard: Shard { fresh, ..shard },
    };
    let done = do_alone(alloc, gate, version, job)?;
    let mut all = none_gathered(alloc, operations, unused)?;
    add(&mut all, done)?;
    Ok(all)
}

/// A job for each shard, in order, with as many of the blocks as the shard may take.
fn deal(
    alloc: Global,
    shards: Vec<Shard>,
    needs: &[usize],
    blocks: &mut Vec<Arc<Block>>,
) -> Result<Vec<Job>, AllocError>
    requires long { length needs.now ≡ length shards.items }
    requires blocks { sum_by (λ n. n) needs.now ≤ length blocks.old.items }
    ensures jobs { IfOk result (λ v. AllZip IsDealt (zip shards.items needs.now) v.items) }
    ensures numbers { IfOk result (λ v. (q : ℕ → Bool)
        → count_by q (flat_map (λ j. shared_numbers j.shard.fresh.items) v.items) + count_by q (shared_numbers blocks.new.items)
        ≡ count_by q (shared_numbers blocks.old.items)) }
{
    let mut jobs = Vec::with_capacity(alloc, shards.len())?;
    for shard in shards {
        let fresh = take_last(blocks, needs[jobs.len()])?;
        jobs.push(Job {
            worker: jobs.len(),
            shard: Shard { fresh, ..shard },
        })?;
    }
    Ok(jobs)
}

/// Takes so many of the last blocks.
fn take_last(blocks: &mut Vec<Arc<Block>>, count: usize) -> Result<Vec<Arc<Block>>, AllocError>
    requires { count ≤ length blocks.old.items }
    ensures taken { IfOk result (λ v. length v.items ≡ count) }
    ensures left { OnOk result (length blocks.new.items + count ≡ length blocks.old.items) }
    ensures numbers { IfOk result (λ v. (q : ℕ → Bool)
        → count_by q (shared_numbers blocks.new.items) + count_by q (shared_numbers v.items) ≡ count_by q (shared_numbers blocks.old.items)) }
{
    let rest = blocks.len() - count;
    if rest == 0 {
        let none = Vec::new(*blocks.allocator());
        return Ok(std::mem::replace(blocks, none));
    }
    let taken = blocks.split_off(rest)?;
    Ok(taken)
}

/// What all shards leave together.
#[derive(Drop)]
pub struct Gathered {
    /// The outcome of each operation, in the batch's order.
    pub outcomes: Vec<Outcome>,
    /// The rows of the next version, each with its source.
    pub rows: Vec<(VertexId, Row)>,
    pub left: Leavings,
}

/// What shards leave together, of a batch of so many operations.
fn gather(
    alloc: Global,
    operations: usize,
    dones: Vec<ShardDone>,
    unused: Vec<Arc<Block>>,
) -> Result<Gathered, AllocError>
    ensures outcomes { IfOk result (λ a. a.outcomes.items ≡ written_from dones.items (replicate operations Absent)) }
    ensures rows { IfOk result (λ a. row_values a.rows.items ≡ flat_map (λ d. row_values d.rows.items) dones.items) }
    ensures taken { IfOk result (λ a. a.left.taken.items ≡ flat_map (λ d. d.left.taken.items) dones.items) }
    ensures dropped { IfOk result (λ a. shared_blocks a.left.dropped.items ≡ flat_map (λ d. shared_blocks d.left.dropped.items)
        dones.items) }
    ensures unused { IfOk result (λ a. shared_numbers a.left.unused.items ≡ shared_numbers unused.items
        ++ flat_map (λ d. shared_numbers d.left.unused.items) dones.items) }
{
    let mut all = none_gathered(alloc, operations, unused)?;
    for done in dones {
        add(&mut all, done)?;
    }
    Ok(all)
}

/// What no shard has left yet.
fn none_gathered(
    alloc: Global,
    operations: usize,
    unused: Vec<Arc<Block>>,
) -> Result<Gathered, AllocError>
    ensures outcomes { IfOk result (λ a. a.outcomes.items ≡ replicate operations Absent) }
    ensures rows { IfOk result (λ a. a.rows.items ≡ []) }
    ensures taken { IfOk result (λ a. a.left.taken.items ≡ []) }
    ensures dropped { IfOk result (λ a. a.left.dropped.items ≡ []) }
    ensures unused { IfOk result (λ a. a.left.unused ≡ unused) }
{
    Ok(Gathered {
        outcomes: vec![in alloc; Outcome::Absent; operations]?,
        rows: Vec::new(alloc),
        left: Leavings {
            taken: Vec::new(alloc),
            dropped: Vec::new(alloc),
            unused,
        },
    })
}

/// Adds what a shard leaves.
fn add(all: &mut Gathered, done: ShardDone) -> Result<(), AllocError>
    ensures outcomes { OnOk result (all.new.outcomes.items ≡ written done.outcomes.items all.old.outcomes.items) }
    ensures rows { OnOk result (row_values all.new.rows.items ≡ row_values all.old.rows.items ++ row_values done.rows.items) }
    ensures taken { OnOk result (all.new.left.taken.items ≡ all.old.left.taken.items ++ done.left.taken.items) }
    ensures dropped { OnOk result (shared_blocks all.new.left.dropped.items ≡ shared_blocks all.old.left.dropped.items
        ++ shared_blocks done.left.dropped.items) }
    ensures unused { OnOk result (shared_numbers all.new.left.unused.items ≡ shared_numbers all.old.left.unused.items
        ++ shared_numbers done.left.unused.items) }
{
    let ShardDone {
        outcomes,
        mut rows,
        mut left,
    } = done;
    write_outcomes(&mut all.outcomes, outcomes);
    add_items(&mut all.rows, &mut rows)?;
    add_items(&mut all.left.taken, &mut left.taken)?;
    add_blocks(&mut all.left, &mut left)?;
    Ok(())
}

/// Adds items at the end. Where there were none, the list is taken over as it is.
fn add_items<T: Drop>(all: &mut Vec<T>, more: &mut Vec<T>) -> Result<(), AllocError>
    ensures { OnOk result (all.new.items ≡ all.old.items ++ more.old.items) }
{
    if all.is_empty() {
        std::mem::swap(all, more);
        return Ok(());
    }
    all.append(more)?;
    Ok(())
}

/// Adds the blocks that a shard has dropped and those that it did not use.
fn add_blocks(all: &mut Leavings, left: &mut Leavings) -> Result<(), AllocError>
    ensures taken { OnOk result (all.new.taken ≡ all.old.taken) }
    ensures dropped { OnOk result (shared_blocks all.new.dropped.items ≡ shared_blocks all.old.dropped.items
        ++ shared_blocks left.old.dropped.items) }
    ensures unused { OnOk result (shared_numbers all.new.unused.items ≡ shared_numbers all.old.unused.items
        ++ shared_numbers left.old.unused.items) }
{
    add_items(&mut all.dropped, &mut left.dropped)?;
    add_items(&mut all.unused, &mut left.unused)?;
    Ok(())
}
