//! The sources that a worker's shard begins with.

ghost use Rattle.std.specs.Prelude.{◌≡◌, ◌≢◌, ◌+◌, ◌-◌, ◌≤◌, ◌<◌, ◌^◌, ◌++◌, [], List, length, get_or, map, min};
ghost use Rattle.std.specs.Prelude.{IfOk, IfSome, OnOk, All, AllPairs};
ghost use Rattle.graph_types.specs.Limits.{most_names, most_operations};
ghost use Rattle.edge_block.specs.Batches as layout;
ghost use Rattle.edge_block.specs.Batches.{IsPlaced, shard_ops};
ghost use Rattle.batch_apply.specs.Plan.{shown_op};
ghost use Rattle.batch_apply.specs.OldRows.{old_sources, own_rows, blocks_in};
ghost use Rattle.batch_apply.specs.Shards.{source_numbers};
ghost use Rattle.batch_apply.specs.FirstSources.{AreFirst, AreNext, asked_sources, asked_source};

use crate::old::OldRow;
use crate::ranks::rank;
use crate::resolve::ResolvedOp;
use graph_types::VertexId;
use std::alloc::{AllocError, Global};

/// The worker of an operation on an edge: its source's number by the number of workers. One on an unknown source is worker
/// 0's.
fn worker_of(workers: usize, source: Option<u32>) -> usize
    requires { 0 < workers }
    ensures { result ≡ layout.shard_of workers source }
{
    match source {
        None => 0,
        Some(source) => source as usize % workers,
    }
}

/// Whether an operation is one of a worker's: an expiry is every one's.
pub fn is_in_shard(workers: usize, worker: usize, op: ResolvedOp) -> bool
    requires { 0 < workers }
    ensures { result ≡ layout.is_in_shard workers worker (shown_op op) }
{
    match op {
        ResolvedOp::Edge(source, _, _) => worker_of(workers, source) == worker,
        ResolvedOp::Expire(_) => true,
    }
}

/// Where sources are among a shard's: from the next place on, those that the operations still to come ask for, in order.
#[derive(Drop)]
pub struct Places {
    pub all: Vec<u32>,
    pub next: usize,
}

/// The next of the places.
pub fn take_next(places: &mut Places) -> usize
    requires { places.old.next < length places.old.all.items }
    ensures place { result ≡ get_or places.old.all.items places.old.next 0 }
    ensures same { places.new.all.items ≡ places.old.all.items }
    ensures next { places.new.next ≡ places.old.next + 1 }
{
    let place = places.all[places.next];
    places.next += 1;
    place as usize
}

/// What a worker's shard begins with.
#[derive(Drop)]
pub struct Listed {
    pub sources: Vec<VertexId>,
    /// The places of the sources that the worker's operations ask for, where these are among the sources already.
    pub places: Option<Places>,
    /// How many old blocks the rows of the sources have. The greatest number stands for as many, or more.
    pub blocks: usize,
}

/// So many operations and old rows ask for few sources: these are looked through, and need no places.
const FEW: usize = 16;

/// Lists the sources of a worker's old rows, and returns how many old blocks they have. The greatest number stands for as many
/// blocks, or more.
fn list_old(
    workers: usize,
    worker: usize,
    old: &[OldRow],
    sources: &mut Vec<VertexId>,
) -> Result<usize, AllocError>
    requires workers { 0 < workers }
    requires none { sources.old.items ≡ [] }
    ensures own { OnOk result (source_numbers sources.new.items ≡ old_sources (own_rows workers worker old.now)) }
    ensures blocks { IfOk result (λ b. b ≡ min (blocks_in (own_rows workers worker old.now)) (2 ^ 64 - 1)) }
{
    let mut blocks = 0_usize;
    for row in old {
        if row.source.0 as usize % workers == worker {
            sources.push(row.source)?;
            blocks = blocks.saturating_add(row.blocks);
        }
    }
    Ok(blocks)
}

/// Adds the source of the edge that an operation is on, if its names are known.
fn add_asked(sources: &mut Vec<VertexId>, op: ResolvedOp) -> Result<(), AllocError>
    ensures { OnOk result (source_numbers sources.new.items ≡ source_numbers sources.old.items ++ asked_source (shown_op op)) }
{
    if let ResolvedOp::Edge(_, Some(key), _) = op {
        sources.push(VertexId(key.source))?;
    }
    Ok(())
}

/// Adds the sources that a worker's operations ask for, one after another.
fn list_asked(
    workers: usize,
    worker: usize,
    ops: &[ResolvedOp],
    sources: &mut Vec<VertexId>,
) -> Result<(), AllocError>
    requires { 0 < workers }
    ensures { OnOk result (source_numbers sources.new.items
        ≡ source_numbers sources.old.items ++ asked_sources (shard_ops workers worker (map shown_op ops.now))) }
{
    for op in ops {
        if is_in_shard(workers, worker, *op) {
            add_asked(sources, *op)?;
        }
    }
    Ok(())
}

/// The sources of a worker's old rows, where there are few; else these and all that its operations ask for, each once and rising.
pub fn first_sources(
    alloc: Global,
    workers: usize,
    worker: usize,
    ops: &[ResolvedOp],
    old: &[OldRow],
) -> Result<Listed, AllocError>
    requires workers { 0 < workers }
    requires few { length ops.now ≤ most_operations }
    requires placed { All IsPlaced (map shown_op ops.now) }
    requires few_old { length old.now ≤ most_names }
    requires distinct { AllPairs (λ a b. a ≢ b) (old_sources old.now) }
    ensures sources { IfOk result (λ l. AreFirst workers worker (map shown_op ops.now) old.now (source_numbers l.sources.items)) }
    ensures places { IfOk result (λ l. IfSome l.places (AreNext (source_numbers l.sources.items)
        (asked_sources (shard_ops workers worker (map shown_op ops.now))))) }
    ensures blocks { IfOk result (λ l. l.blocks ≡ min (blocks_in (own_rows workers worker old.now)) (2 ^ 64 - 1)) }
    ensures few { IfOk result (λ l. length l.sources.items ≤ length old.now + length ops.now) }
{
    let mut sources = Vec::new(alloc);
    let blocks = list_old(workers, worker, old, &mut sources)?;
    if old.len().saturating_add(ops.len()) <= FEW {
        return Ok(Listed {
            sources,
            places: None,
            blocks,
        });
    }
    let next = sources.len();
    sources.reserve(ops.len() / workers)?;
    list_asked(workers, worker, ops, &mut sources)?;
    let ranks = rank(alloc, sources.as_slice())?;
    Ok(Listed {
        sources: ranks.numbers,
        places: Some(Places {
            all: ranks.places,
            next,
        }),
        blocks,
    })
}
