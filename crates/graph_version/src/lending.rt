//! Edges and block numbers as a version lends them.

ghost use Rattle.std.specs.Prelude.{◌≡◌, map, All};
ghost use Rattle.std.specs.Iterator.{YieldsFirstBy};
ghost use Rattle.graph_version.specs.Lending.{left_in};
ghost use Rattle.edge_block.specs.Slots.{IsStamp, entries_of};
ghost use Rattle.edge_block.specs.Lending.{lent_edge, lent_of, edges_left};
ghost use Rattle.graph_version.specs.Rows.{blocks_of, numbers_of};
ghost use Rattle.graph_version.specs.Sharing.{block_values};

use crate::rows::Rows;
use edge_block::{Block, BlockIter, EdgeRef};
use graph_types::{Filter, VertexId};
use std::sync::Arc;

/// Lets every edge through.
const EVERY: Filter = Filter {
    kind: None,
    lo: 0,
    hi: u64::MAX,
};

/// The edges of a row that are still to be lent: blocks in row order, slots rising.
#[derive(Drop)]
pub struct RowIter<'a> {
    pub(crate) edges: Option<BlockIter<'a>>,
    pub(crate) blocks: &'a [Arc<Block>],
}

impl<'a> RowIter<'a> {
    ghost use Rattle.graph_version.specs.Lending.{row_left, lent_in_blocks};

    /// All edges of some blocks.
    pub(crate) fn over(blocks: &'a [Arc<Block>]) -> RowIter<'a>
        ensures { row_left result ≡ lent_in_blocks (block_values blocks.now) }
    {
        RowIter {
            edges: None,
            blocks,
        }
    }
}

impl<'a> Iterator for RowIter<'a> {
    ghost use Rattle.std.specs.Iterator.{YieldsFirstBy, item_count};
    ghost use Rattle.graph_version.specs.Lending.{row_left};

    type Item = EdgeRef<'a>;

    ghost next_gives = { YieldsFirstBy lent_edge row_left };

    ghost remaining = { item_count row_left };

    fn next(&mut self) -> Option<EdgeRef<'a>> {
        loop {
            if let Some(edge) = next_in(&mut self.edges) {
                return Some(edge);
            }
            let [block, rest @ ..] = self.blocks else {
                return None;
            };
            self.edges = Some(all_edges(block));
            self.blocks = rest;
        }
    }
}

/// All edges of a block, in slot order.
pub(crate) fn all_edges(block: &Block) -> BlockIter<'_>
    ensures lends { edges_left result ≡ map lent_of (entries_of block.now) }
    ensures in_range { All (λ edge. IsStamp edge.stamp) (edges_left result) }
{
    block.select(&EVERY)
}

/// The next edge of a block, if there is a block and it has one left.
pub(crate) fn next_in<'a>(edges: &mut Option<BlockIter<'a>>) -> Option<EdgeRef<'a>>
    ensures { YieldsFirstBy lent_edge left_in edges.old result edges.new }
{
    match edges {
        None => None,
        Some(edges) => edges.next(),
    }
}

/// The block numbers of rows that are still to be given, row by row.
#[derive(Drop)]
pub struct BlockNumbers<'a> {
    pub(crate) rows: &'a Rows,
    /// The first row that is not begun.
    pub(crate) source: usize,
    pub(crate) blocks: &'a [Arc<Block>],
}

impl<'a> BlockNumbers<'a> {
    ghost use Rattle.graph_version.specs.Lending.{numbers_left};

    /// The numbers of all blocks.
    pub(crate) fn over(rows: &'a Rows) -> BlockNumbers<'a>
        ensures { numbers_left result ≡ numbers_of (blocks_of rows.now) }
    {
        BlockNumbers {
            rows,
            source: 0,
            blocks: &[],
        }
    }
}

impl<'a> Iterator for BlockNumbers<'a> {
    ghost use Rattle.std.specs.Iterator.{YieldsFirst, item_count};
    ghost use Rattle.graph_version.specs.Lending.{numbers_left};

    type Item = u32;

    ghost next_gives = { YieldsFirst numbers_left };

    ghost remaining = { item_count numbers_left };

    fn next(&mut self) -> Option<u32> {
        loop {
            if let [block, rest @ ..] = self.blocks {
                self.blocks = rest;
                return Some(block.number());
            }
            if self.source >= self.rows.len() {
                return None;
            }
            self.blocks = self.rows.row_blocks(VertexId(self.source as u32));
            self.source += 1;
        }
    }
}
