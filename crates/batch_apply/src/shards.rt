//! A batch's operations by worker.

ghost use Rattle.std.specs.Prelude.{◌≡◌, ◌+◌, ◌-◌, ◌≤◌, ◌<◌, ◌^◌, ◌∷◌, ◌++◌, ℕ, List, length, map, min, IfOk, OnOk, All};
ghost use Rattle.std.specs.Prelude.{IfSome, Some, cond, nat_eq, not, position, slice_get};
ghost use Rattle.std.specs.Option.{option_map};
ghost use Rattle.graph_types.specs.Limits.{most_names, most_operations};
ghost use Rattle.edge_block.specs.Slots.{BlockView};
ghost use Rattle.edge_block.specs.Batches.{IsPlaced};
ghost use Rattle.batch_shards.specs.Shards.{IsPlace, IsAct, key_at, resolved_at};
ghost use Rattle.batch_shards.specs.Done.{layout_by, sources_in};
ghost use Rattle.batch_shards.specs.Groups.{is_expiry};
ghost use Rattle.batch_shards.specs.Spending.{needed};
ghost use Rattle.batch_apply.specs.Plan.{key_shown, shown_op, IsInRange};
ghost use Rattle.batch_apply.specs.OldRows.{AreOldRows};
ghost use Rattle.batch_apply.specs.FirstSources.{AreNext, asked_source, source_in};
ghost use Rattle.batch_apply.specs.Shards.{IsShardOf, latest_expiry, source_numbers, unsourced, with_number, with_source, with_op};

use crate::old::OldRow;
use crate::own_sources::{Listed, Places, first_sources, is_in_shard, take_next};
use crate::resolve::{EdgeKey, ResolvedOp};
use batch_shards::{Act, Place, Shard, Step};
use graph_types::VertexId;
use std::alloc::{AllocError, Global};

/// The place of a source among the sources.
fn find_source(sources: &[VertexId], source: u32) -> Option<usize>
    ensures { result ≡ position (λ s. nat_eq source s.0) sources.now }
{
    sources.iter().position(|listed| source == listed.0)
}

/// The place of a source among few sources, to which a new one is added.
fn place_among_few(sources: &mut Vec<VertexId>, source: u32) -> Result<usize, AllocError>
    ensures sources { OnOk result (source_numbers sources.new.items ≡ with_number source (source_numbers sources.old.items)) }
    ensures place { IfOk result (λ p. slice_get (source_numbers sources.new.items) p ≡ Some source) }
{
    if let Some(place) = find_source(sources.as_slice(), source) {
        return Ok(place);
    }
    let place = sources.len();
    sources.push(VertexId(source))?;
    Ok(place)
}

/// The place of a source among the sources: the next of the places, where there are any, and else a new source is added.
fn place_of(
    sources: &mut Vec<VertexId>,
    places: &mut Option<Places>,
    source: u32,
) -> Result<usize, AllocError>
    requires next { (rest : List ℕ) × IfSome places.old (AreNext (source_numbers sources.old.items) (source ∷ rest)) }
    ensures next { OnOk result ((rest : List ℕ)
        → IfSome places.old (AreNext (source_numbers sources.old.items) (source ∷ rest))
        → IfSome places.new (AreNext (source_numbers sources.new.items) rest)) }
    ensures sources { OnOk result (source_numbers sources.new.items ≡ with_number source (source_numbers sources.old.items)) }
    ensures place { IfOk result (λ p. slice_get (source_numbers sources.new.items) p ≡ Some source) }
{
    match places {
        None => place_among_few(sources, source),
        Some(places) => Ok(take_next(places)),
    }
}

/// Where a key's edge is: the place of its source among the sources, to which a new one is added.
fn place_in(
    sources: &mut Vec<VertexId>,
    places: &mut Option<Places>,
    key: Option<EdgeKey>,
) -> Result<Option<Place>, AllocError>
    requires few { length sources.old.items < 2 ^ 32 }
    requires next { (rest : List ℕ) × IfSome places.old (AreNext (source_numbers sources.old.items)
        (source_in (option_map key_shown key) ++ rest)) }
    ensures next { OnOk result ((rest : List ℕ)
        → IfSome places.old (AreNext (source_numbers sources.old.items) (source_in (option_map key_shown key) ++ rest))
        → IfSome places.new (AreNext (source_numbers sources.new.items) rest)) }
    ensures sources { OnOk result (source_numbers sources.new.items ≡ with_source (option_map key_shown key)
        (source_numbers sources.old.items)) }
    ensures key { IfOk result (λ p. key_at (source_numbers sources.new.items) p ≡ option_map key_shown key) }
    ensures place { IfOk result (λ p. IsPlace (length (source_numbers sources.new.items)) p) }
    ensures few { OnOk result (length sources.new.items ≤ length sources.old.items + 1) }
{
    let Some(key) = key else {
        return Ok(None);
    };
    let row = place_of(sources, places, key.source)?;
    Ok(Some(Place {
        row: row as u32,
        kind: key.kind,
        target: key.target,
    }))
}

/// What an operation of a shard does, where the place of its edge is by the sources, to which a new one is added.
fn act_in(
    sources: &mut Vec<VertexId>,
    places: &mut Option<Places>,
    op: ResolvedOp,
) -> Result<Act, AllocError>
    requires few { length sources.old.items < 2 ^ 32 }
    requires valid { IsInRange op }
    requires next { (rest : List ℕ) × IfSome places.old (AreNext (source_numbers sources.old.items) (asked_source (shown_op op) ++ rest)) }
    ensures next { OnOk result ((rest : List ℕ)
        → IfSome places.old (AreNext (source_numbers sources.old.items) (asked_source (shown_op op) ++ rest))
        → IfSome places.new (AreNext (source_numbers sources.new.items) rest)) }
    ensures sources { OnOk result (source_numbers sources.new.items ≡ with_op (shown_op op) (source_numbers sources.old.items)) }
    ensures act { IfOk result (λ act. unsourced (resolved_at (source_numbers sources.new.items) act) ≡ unsourced (shown_op op)) }
    ensures in_rows { IfOk result (IsAct (length (source_numbers sources.new.items))) }
    ensures few { OnOk result (length sources.new.items ≤ length sources.old.items + 1) }
{
    match op {
        ResolvedOp::Edge(_, key, change) => {
            let place = place_in(sources, places, key)?;
            Ok(Act::Edge(place, change))
        }
        ResolvedOp::Expire(time) => Ok(Act::Expire(time)),
    }
}

/// How many fresh blocks an operation may take whatever the rows are: one for an edge.
fn blocks_for(act: Act) -> usize
    ensures { result ≡ cond (not (is_expiry act)) 1 0 }
{
    match act {
        Act::Edge(_, _) => 1,
        Act::Expire(_) => 0,
    }
}

/// A shard without fresh blocks, and how many of them it may take.
#[derive(Drop)]
pub struct Needing {
    pub shard: Shard,
    pub blocks: usize,
}

/// A worker's operations, in order, without fresh blocks. The worker opens the rows of its edges, and those of the version's
/// old rows that are its own. The greatest number stands for as many blocks, or more.
pub fn shard_for(
    alloc: Global,
    workers: usize,
    worker: usize,
    ops: &[ResolvedOp],
    old: &[OldRow],
) -> Result<Needing, AllocError>
    requires workers { 0 < workers }
    requires few { length ops.now ≤ most_operations }
    requires placed { All IsPlaced (map shown_op ops.now) }
    requires valid { All IsInRange ops.now }
    requires few_old { length old.now ≤ most_names }
    requires old { (rows : ℕ → List BlockView) × AreOldRows (latest_expiry (map shown_op ops.now)) rows old.now }
    ensures shard { IfOk result (λ n. (rows : ℕ → List BlockView) → AreOldRows (latest_expiry (map shown_op ops.now)) rows old.now
        → IsShardOf workers (map shown_op ops.now) (layout_by rows) worker n.shard) }
    ensures blocks { IfOk result (λ n. (rows : ℕ → List BlockView) → AreOldRows (latest_expiry (map shown_op ops.now)) rows old.now
        → n.blocks ≡ min (needed rows (sources_in n.shard) n.shard.steps.items) (2 ^ 64 - 1)) }
{
    let Listed {
        mut sources,
        mut places,
        mut blocks,
    } = first_sources(alloc, workers, worker, ops, old)?;
    let mut steps = Vec::with_capacity(alloc, ops.len() / workers)?;
    for k in 0..ops.len() {
        let op = ops[k];
        if is_in_shard(workers, worker, op) {
            let act = act_in(&mut sources, &mut places, op)?;
            let step = Step { op: k as u32, act };
            blocks = blocks.saturating_add(blocks_for(act));
            steps.push(step)?;
        }
    }
    Ok(Needing {
        shard: Shard {
            sources,
            steps,
            fresh: Vec::new(alloc),
        },
        blocks,
    })
}
