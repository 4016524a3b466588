//! The rows of a shard's sources while a batch goes on.

ghost use Rattle.std.specs.Prelude.{◌≡◌, ◌≢◌, ◌+◌, ◌<◌, ◌≤◌, ℕ, List, [], IfOk, OnOk, All, AllPairs};
ghost use Rattle.std.specs.Prelude.{vec_len, length, map};
ghost use Rattle.graph_version.specs.Rows.{row_of};
ghost use Rattle.batch_shards.specs.RowBlocks.{block_of, shared_blocks};
ghost use Rattle.batch_shards.specs.Done.{AreBlockRows, IsShardDone};
ghost use Rattle.batch_shards.specs.Groups.{is_on_row, is_expiry, none_told};
ghost use Rattle.batch_shards.specs.Spending.{act_time, needed, needed_past, IsGrouped};
ghost use Rattle.batch_shards.specs.Progress.{AreRowsDone};
ghost use Rattle.batch_shards.specs.Shards.{AreSteps};

use crate::groups::{Groups, group_steps, targets_of};
use crate::open_rows::{LONG_ROW, close_row, do_steps, open_row};
use crate::row_blocks::RowBlock;
use crate::rows::Hints;
use edge_block::Block;
use graph_types::{EdgeChange, KindId, Outcome, VertexId};
use graph_version::{Row, Version};
use std::alloc::{AllocError, Global};
use std::sync::Arc;

/// The row of a source while a batch goes on.
#[derive(Drop)]
pub struct OpenRow {
    pub source: VertexId,
    pub blocks: Vec<RowBlock>,
    pub hints: Hints,
}

/// Where an operation's edge is: the place of its source among the shard's, its kind and its target.
#[derive(Clone, Copy)]
pub struct Place {
    pub row: u32,
    pub kind: KindId,
    pub target: u32,
}

/// What an operation does.
#[derive(Clone, Copy)]
pub enum Act {
    /// It changes one edge, which has a place where all its names are known.
    Edge(Option<Place>, EdgeChange),
    /// It takes out each edge, of all rows, that was last touched before a time.
    Expire(u64),
}

/// An operation of a shard: its place in the batch, and what it does.
#[derive(Clone, Copy)]
pub struct Step {
    pub op: u32,
    pub act: Act,
}

impl Step {
    /// Whether it is on an edge of a row.
    pub(crate) fn is_on(&self, row: usize) -> bool
        ensures { result ≡ is_on_row row self.now.act }
    {
        match self.act {
            Act::Edge(Some(place), _) => place.row as usize == row,
            Act::Edge(None, _) => false,
            Act::Expire(_) => false,
        }
    }

    /// Whether it takes out old edges.
    pub(crate) fn is_expiry(&self) -> bool
        ensures { result ≡ is_expiry self.now.act }
    {
        match self.act {
            Act::Edge(_, _) => false,
            Act::Expire(_) => true,
        }
    }

    /// The time of an expiry, 0 of an operation on an edge.
    pub(crate) fn expiry_time(&self) -> u64
        ensures { result ≡ act_time self.now.act }
    {
        match self.act {
            Act::Edge(_, _) => 0,
            Act::Expire(time) => time,
        }
    }
}

/// What rows leave at the batch's end.
#[derive(Drop)]
pub struct Leavings {
    /// The numbers of the fresh blocks that the rows keep.
    pub taken: Vec<u32>,
    /// The blocks of the version before that the rows no longer have.
    pub dropped: Vec<Arc<Block>>,
    /// The fresh blocks that no row keeps.
    pub unused: Vec<Arc<Block>>,
}

/// The blocks of a source's row.
fn blocks_at(version: &Version, source: VertexId) -> &[Arc<Block>]
    ensures row { shared_blocks result.now ≡ row_of version.now.rows source.0 }
    ensures own { All (λ b. (block_of b).source ≡ source.0) result.now }
    ensures rows { AreBlockRows (row_of version.now.rows) }
{
    version.row_blocks(source)
}

/// The operations of a shard's sources, and its fresh blocks.
#[derive(Drop)]
pub struct Shard {
    /// All different.
    pub sources: Vec<VertexId>,
    pub steps: Vec<Step>,
    pub fresh: Vec<Arc<Block>>,
}

/// What a shard leaves.
#[derive(Drop)]
pub struct ShardDone {
    /// Each operation's place in the batch, and its outcome.
    pub outcomes: Vec<(u32, Outcome)>,
    /// The sources' rows of the next version.
    pub rows: Vec<(VertexId, Row)>,
    pub left: Leavings,
}

/// Opens the row of a source, does its operations and closes it. Its blocks stand in the list meanwhile.
fn do_row(
    alloc: Global,
    version: &Version,
    sources: &[VertexId],
    steps: &[Step],
    groups: &Option<Groups>,
    row: usize,
    fresh: &mut Vec<Arc<Block>>,
    done: &mut ShardDone,
    list: &mut Vec<RowBlock>,
) -> Result<(), AllocError>
    requires row { row < length sources.now }
    requires steps { AreSteps (length sources.now) steps.now }
    requires distinct { AllPairs (λ a b. a ≢ b) (map (λ s. s.0) sources.now) }
    requires groups { IsGrouped (length sources.now) steps.now groups.now }
    requires outcomes { length done.old.outcomes.items ≡ length steps.now }
    requires empty { list.old.items ≡ [] }
    requires fresh { needed_past row (row_of version.now.rows) (map (λ s. s.0) sources.now) steps.now ≤ vec_len fresh.old }
    ensures fresh { OnOk result (needed_past (row + 1) (row_of version.now.rows) (map (λ s. s.0) sources.now) steps.now
        ≤ vec_len fresh.new) }
    ensures done { OnOk result ((handed : List ℕ)
        → AreRowsDone (row_of version.now.rows) (map (λ s. s.0) sources.now) steps.now handed row fresh.old.items done.old
        → AreRowsDone (row_of version.now.rows) (map (λ s. s.0) sources.now) steps.now handed (row + 1) fresh.new.items
        done.new) }
    ensures rows { OnOk result (AreBlockRows (row_of version.now.rows)) }
    ensures emptied { OnOk result (list.new.items ≡ []) }
{
    let source = sources[row];
    let blocks = blocks_at(version, source);
    let asked = if blocks.len() < LONG_ROW {
        Vec::new(alloc)
    } else {
        targets_of(alloc, groups, steps, row)?
    };
    let room = std::mem::replace(list, Vec::new(alloc));
    let mut opened = open_row(alloc, source, blocks, asked.as_slice(), room)?;
    do_steps(&mut opened, fresh, &mut done.outcomes, steps, groups, row)?;
    let closed = close_row(alloc, &mut opened.blocks, &mut done.left)?;
    *list = opened.blocks;
    done.rows.push((source, closed))?;
    Ok(())
}

/// What is told of an operation before the first row.
fn none_told(act: Act) -> Outcome
    ensures { result ≡ none_told act }
{
    match act {
        Act::Edge(_, _) => Outcome::Absent,
        Act::Expire(_) => Outcome::Expired(0),
    }
}

/// What a shard leaves before its first row is opened: no operation has an outcome yet.
fn none_done(alloc: Global, rows: usize, steps: &[Step]) -> Result<ShardDone, AllocError>
    ensures outcomes { IfOk result (λ d. d.outcomes.items ≡ map (λ s. (s.op, none_told s.act)) steps.now) }
    ensures rows { IfOk result (λ d. d.rows.items ≡ []) }
    ensures taken { IfOk result (λ d. d.left.taken.items ≡ []) }
    ensures dropped { IfOk result (λ d. d.left.dropped.items ≡ []) }
    ensures unused { IfOk result (λ d. d.left.unused.items ≡ []) }
{
    let mut outcomes = Vec::with_capacity(alloc, steps.len())?;
    for step in steps {
        outcomes.push((step.op, none_told(step.act)))?;
    }
    Ok(ShardDone {
        outcomes,
        rows: Vec::with_capacity(alloc, rows)?,
        left: Leavings {
            taken: Vec::with_capacity(alloc, rows)?,
            dropped: Vec::with_capacity(alloc, rows)?,
            unused: Vec::new(alloc),
        },
    })
}

/// Does a shard's operations on a version's rows, source by source.
pub fn work_on(alloc: Global, version: &Version, shard: Shard) -> Result<ShardDone, AllocError>
    requires fresh { needed (row_of version.now.rows) (map (λ s. s.0) shard.sources.items) shard.steps.items
        ≤ vec_len shard.fresh }
    requires steps { AreSteps (length shard.sources.items) shard.steps.items }
    requires distinct { AllPairs (λ a b. a ≢ b) (map (λ s. s.0) shard.sources.items) }
    ensures { IfOk result (IsShardDone (row_of version.now.rows) shard) }
{
    let Shard {
        sources,
        steps,
        mut fresh,
    } = shard;
    let lists = group_steps(alloc, sources.len(), steps.as_slice())?;
    let groups = &lists;
    let mut done = none_done(alloc, sources.len(), steps.as_slice())?;
    let mut list = Vec::new(alloc);
    for row in 0..sources.len() {
        do_row(
            alloc,
            version,
            sources.as_slice(),
            steps.as_slice(),
            groups,
            row,
            &mut fresh,
            &mut done,
            &mut list,
        )?;
    }
    done.left.unused.append(&mut fresh)?;
    Ok(done)
}
