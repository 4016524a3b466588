//! Shards that workers do at once.

ghost use Rattle.std.specs.Prelude.{◌≡◌, ◌+◌, ◌++◌, ◌<◌, ◌≤◌, map, IfOk, IfSome, MatchBool, vec_len, length, [], All, List, ℕ};
ghost use Rattle.std.specs.Thread.{IsSync};
ghost use Rattle.graph_version.specs.Rows.{row_of};
ghost use Rattle.batch_shards.specs.Done.{IsShardDone};
ghost use Rattle.batch_apply.specs.Gathered.{IsShard, AreShardsDone};

use batch_shards::{Shard, ShardDone, work_on};
use graph_version::Version;
use std::alloc::{AllocError, Global};
use std::thread::{Threads, join};

/// It is told of each worker before the worker's shard: of a worker without rows in the thread that starts the
/// others, before it starts them, and of any other in the thread that does the worker's shard.
pub trait Gate {
    fn arrive(&self, worker: usize, of: usize);
}

/// The gate that does nothing.
#[derive(Clone, Copy, Debug, Default)]
pub struct PassAll;

impl Gate for PassAll {
    fn arrive(&self, _worker: usize, _of: usize) {}
}

/// A worker's shard.
#[derive(Drop)]
pub struct Job {
    pub worker: usize,
    pub shard: Shard,
}

impl Job {
    /// Whether it has rows to open.
    fn is_busy(&self) -> bool
        ensures { MatchBool result (0 < length self.now.shard.sources.items) (self.now.shard.sources.items ≡ []) }
    {
        !self.shard.sources.is_empty()
    }
}

/// What the work on each shard leaves, in the order of the jobs.
///
/// All workers with rows run at once; where at most one has any, no thread is started.
pub fn do_all<R: Threads + Sync, G: Gate + Sync>(
    rt: &R,
    alloc: Global,
    gate: &G,
    version: &Version,
    of: usize,
    jobs: Vec<Job>,
) -> Result<Vec<ShardDone>, AllocError>
    requires { All (λ j. IsShard (row_of version.now.rows) j.shard) jobs.items }
    ensures { IfOk result (λ v. AreShardsDone (row_of version.now.rows) jobs.items v.items) }
{
    for job in jobs.as_slice() {
        if !job.is_busy() {
            gate.arrive(job.worker, of);
        }
    }
    do_busy(rt, alloc, gate, version, of, jobs)
}

/// The place of the last worker with rows, where another has some too.
fn last_of_several(jobs: &[Job]) -> Option<usize>
    ensures { IfSome result (λ place. place < length jobs.now) }
{
    let mut last = None;
    let mut are_several = false;
    for place in 0..jobs.len() {
        if jobs[place].is_busy() {
            are_several = last.is_some();
            last = Some(place);
        }
    }
    if are_several { last } else { None }
}

/// As `do_all`, once the gate has been told of the workers without rows. The last worker with rows gets a
/// thread of its own while this thread goes on with those before it.
fn do_busy<R: Threads + Sync, G: Gate + Sync>(
    rt: &R,
    alloc: Global,
    gate: &G,
    version: &Version,
    of: usize,
    mut low: Vec<Job>,
) -> Result<Vec<ShardDone>, AllocError>
    requires { All (λ j. IsShard (row_of version.now.rows) j.shard) low.items }
    ensures { IfOk result (λ v. AreShardsDone (row_of version.now.rows) low.items v.items) }
{
    let Some(place) = last_of_several(&low) else {
        return do_each(alloc, gate, version, of, low);
    };
    let high = low.split_off(place)?;
    let back = move || -> Result<Vec<ShardDone>, AllocError>
        requires { IsSync G.row × All (λ j. IsShard (row_of version.now.rows) j.shard) high.items }
        ensures { IfOk result (λ v. AreShardsDone (row_of version.entry.now.rows) high.items v.items) }
    { do_each(alloc, gate, version, of, high) };
    let front = move || -> Result<Vec<ShardDone>, AllocError>
        requires { IsSync R.row × IsSync G.row × All (λ j. IsShard (row_of version.now.rows) j.shard) low.items }
        ensures { IfOk result (λ v. AreShardsDone (row_of version.entry.now.rows) low.items v.items) }
    { do_busy(rt, alloc, gate, version, of, low) };
    let (b, a) = join(rt, back, front);
    let all = a?;
    let rest = b?;
    let done = one_after_another(all, rest)?;
    Ok(done)
}

/// Items of two lists, one list after the other.
pub(crate) fn one_after_another<T: Drop>(
    first: Vec<T>,
    second: Vec<T>,
) -> Result<Vec<T>, AllocError>
    ensures { IfOk result (λ v. v.items ≡ first.items ++ second.items) }
{
    let mut all = first;
    let mut rest = second;
    all.append(&mut rest)?;
    Ok(all)
}

/// What the work on each shard leaves, one after another.
fn do_each<G: Gate>(
    alloc: Global,
    gate: &G,
    version: &Version,
    of: usize,
    jobs: Vec<Job>,
) -> Result<Vec<ShardDone>, AllocError>
    requires { All (λ j. IsShard (row_of version.now.rows) j.shard) jobs.items }
    ensures { IfOk result (λ v. AreShardsDone (row_of version.now.rows) jobs.items v.items) }
{
    let mut done = Vec::with_capacity(alloc, jobs.len())?;
    for job in jobs {
        done.push(do_one(alloc, gate, version, of, job)?)?;
    }
    Ok(done)
}

/// What the work on a job's shard leaves; the gate is told of the worker before, where it has rows.
fn do_one<G: Gate>(
    alloc: Global,
    gate: &G,
    version: &Version,
    of: usize,
    job: Job,
) -> Result<ShardDone, AllocError>
    requires { IsShard (row_of version.now.rows) job.shard }
    ensures { IfOk result (λ d. IsShardDone (row_of version.now.rows) job.shard d) }
{
    if job.is_busy() {
        gate.arrive(job.worker, of);
    }
    work_on(alloc, version, job.shard)
}

/// What the work on the only job's shard leaves. The gate is told of its worker.
pub(crate) fn do_alone<G: Gate>(
    alloc: Global,
    gate: &G,
    version: &Version,
    job: Job,
) -> Result<ShardDone, AllocError>
    requires { IsShard (row_of version.now.rows) job.shard }
    ensures { IfOk result (λ d. IsShardDone (row_of version.now.rows) job.shard d) }
{
    gate.arrive(job.worker, 1);
    work_on(alloc, version, job.shard)
}
