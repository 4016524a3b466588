//! One source's row.

ghost use Rattle.std.specs.Prelude.{◌≡◌, [], All, IfOk, false};
ghost use Rattle.std.specs.Option.{option_to_list};
ghost use Rattle.edge_block.specs.Slots.{IsBlock, has_before};
ghost use Rattle.graph_version.specs.Sharing.{block_values, row_block_values};
ghost use Rattle.graph_version.specs.Ages.{is_old_row, old_blocks};

use edge_block::Block;
use std::alloc::{AllocError, Global};
use std::marker::Model;
use std::slice;
use std::sync::Arc;

/// Blocks in order. Most rows have one block or none, and then need no list.
#[derive(Drop)]
pub(crate) enum Blocks {
    Empty,
    One(Arc<Block>),
    Many(Arc<Vec<Arc<Block>>>),
}

impl Blocks {
    /// The same blocks, shared.
    fn share(&self) -> Result<Blocks, AllocError>
        ensures { IfOk result (λ row. row_block_values row ≡ row_block_values self.now) }
    {
        match self {
            Blocks::Empty => Ok(Blocks::Empty),
            Blocks::One(block) => Ok(Blocks::One(Arc::try_clone(block)?)),
            Blocks::Many(blocks) => Ok(Blocks::Many(Arc::try_clone(blocks)?)),
        }
    }

    /// All of them.
    fn as_slice(&self) -> &[Arc<Block>]
        ensures { block_values result.now ≡ row_block_values self.now }
    {
        match self {
            Blocks::Empty => &[],
            Blocks::One(block) => slice::from_ref(block),
            Blocks::Many(blocks) => blocks.as_slice(),
        }
    }
}

/// These blocks, without a list where they are few.
fn listed(alloc: Global, mut blocks: Vec<Arc<Block>>) -> Result<Blocks, AllocError>
    ensures { IfOk result (λ row. row_block_values row ≡ block_values blocks.items) }
{
    if blocks.len() > 1 {
        return Ok(Blocks::Many(Arc::new(alloc, blocks)?));
    }
    match blocks.pop() {
        None => Ok(Blocks::Empty),
        Some(block) => Ok(Blocks::One(block)),
    }
}

/// A time such that no edge of a block was last touched before it: the least of their times, or the greatest number where
/// there is no edge.
fn block_since(block: &Block) -> u64
    ensures since { has_before result block.now.slots ≡ false }
    ensures block { IsBlock block.now }
{
    // What is true of each block, as that its weights are in range, is so known of the row.
    let _edges = block.len();
    match block.time_bounds() {
        None => u64::MAX,
        Some((least, _)) => least,
    }
}

/// A time such that no edge of a row was last touched before it: the least of their times.
fn blocks_since(blocks: &[Arc<Block>]) -> u64
    ensures since { is_old_row result (block_values blocks.now) ≡ false }
    ensures blocks { All IsBlock (block_values blocks.now) }
{
    let mut since = u64::MAX;
    for block in blocks {
        since = since.min(block_since(block));
    }
    since
}

/// Whether a block has an edge that was last touched before a time.
fn any_before(blocks: &[Arc<Block>], time: u64) -> bool
    ensures { result ≡ is_old_row time (block_values blocks.now) }
{
    for block in blocks {
        if block.has_before(time) {
            return true;
        }
    }
    false
}

/// How many blocks have an edge that was last touched before a time.
pub(crate) fn old_blocks_in(blocks: &[Arc<Block>], time: u64) -> usize
    ensures { result ≡ old_blocks time (block_values blocks.now) }
{
    let mut count = 0_usize;
    for block in blocks {
        if block.has_before(time) {
            count += 1;
        }
    }
    count
}

/// A source's row, and since when its edges have been touched.
///
/// Who makes a row reads its blocks' times. So workers make the rows, and the caller only puts them ([`Rows::put`]).
///
/// [`Rows::put`]: crate::Rows::put
pub struct Row {
    blocks: Blocks,
    since: u64,
}

// By hand, so that who lets one go need not take it apart.
impl Drop for Row {
    fn drop(self) {
        let Row {
            blocks: _blocks,
            since: _since,
        } = self;
    }
}

impl Model for Row {
    ghost use Rattle.std.specs.Prelude.{◌≡◌, List, All, false};
    ghost use Rattle.edge_block.specs.Slots.{BlockView, IsBlock};
    ghost use Rattle.graph_version.specs.Sharing.{row_block_values};
    ghost use Rattle.graph_version.specs.Ages.{is_old_row};

    ghost Value = { List BlockView };

    ghost view = { λ row. row_block_values row.blocks };

    ghost invariant = { λ row. (is_old_row row.since (row_block_values row.blocks) ≡ false)
        × All IsBlock (row_block_values row.blocks) };
}

impl Clone for Row {
    ghost is_clone = { λ row copy. copy ≡ row };

    // The blocks are shared.
    fn clone(&self) -> Result<Row, AllocError> {
        Ok(Row {
            blocks: self.blocks.share()?,
            since: self.since,
        })
    }
}

impl Row {
    /// A row without blocks.
    pub(crate) fn empty() -> Row
        ensures { result ≡ [] }
    {
        Row {
            blocks: Blocks::Empty,
            since: u64::MAX,
        }
    }

    /// The row of one block or none. It takes no memory.
    pub fn of_option(block: Option<Arc<Block>>) -> Row
        ensures { result ≡ block_values (option_to_list block) }
    {
        let Some(block) = block else {
            return Row::empty();
        };
        let since = block_since(&block);
        Row {
            blocks: Blocks::One(block),
            since,
        }
    }

    /// The row of these blocks.
    pub fn of(alloc: Global, blocks: Vec<Arc<Block>>) -> Result<Row, AllocError>
        ensures { IfOk result (λ row. row ≡ block_values blocks.items) }
    {
        let since = blocks_since(blocks.as_slice());
        Ok(Row {
            blocks: listed(alloc, blocks)?,
            since,
        })
    }

    /// Its blocks, in order.
    pub fn blocks(&self) -> &[Arc<Block>]
        ensures blocks { block_values result.now ≡ self.now }
        ensures each { All IsBlock self.now }
    {
        self.blocks.as_slice()
    }

    /// A time such that no edge was last touched before it.
    pub(crate) fn since(&self) -> u64
        ensures { is_old_row result self.now ≡ false }
    {
        self.since
    }

    /// Whether an edge was last touched before a time.
    pub(crate) fn has_before(&self, time: u64) -> bool
        ensures { result ≡ is_old_row time self.now }
    {
        self.since < time && any_before(self.blocks.as_slice(), time)
    }
}
