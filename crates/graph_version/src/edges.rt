//! Edges of a version by value: all of them, or those of a row.

ghost use Rattle.std.specs.Prelude.{◌≡◌, All};
ghost use Rattle.edge_block.specs.Slots.{IsBlock};
ghost use Rattle.graph_version.specs.Rows.{row_of, blocks_of};
ghost use Rattle.edge_block.specs.Lending.{lent_edge};
ghost use Rattle.graph_version.specs.Edges.{edges_in_blocks};
ghost use Rattle.graph_version.specs.LentEdges.{lent_as_edge};

use crate::lending::{all_edges, next_in};
use crate::rows::Rows;
use edge_block::{Block, BlockIter, EdgeRef};
use graph_types::{Edge, VertexId};
use std::sync::Arc;

/// An edge that a block of this source lends, by value.
pub(crate) fn sourced(source: VertexId, lent: EdgeRef<'_>) -> Edge
    ensures { result ≡ lent_as_edge source.0 (lent_edge lent.entry) }
{
    Edge {
        kind: lent.kind,
        source,
        target: VertexId(*lent.target),
        weight: *lent.weight,
        first: *lent.first,
        recent: *lent.recent,
    }
}

/// The blocks of rows that are still to be lent, row by row.
#[derive(Drop)]
pub(crate) struct RowBlocks<'a> {
    pub(crate) rows: &'a Rows,
    /// The first row that is not begun.
    pub(crate) source: usize,
    pub(crate) blocks: &'a [Arc<Block>],
}

impl<'a> RowBlocks<'a> {
    ghost use Rattle.graph_version.specs.LentEdges.{blocks_left};

    /// All blocks.
    pub(crate) fn over(rows: &'a Rows) -> RowBlocks<'a>
        ensures { blocks_left result ≡ blocks_of rows.now }
    {
        RowBlocks {
            rows,
            source: 0,
            blocks: &[],
        }
    }

    /// The blocks of a source's row alone.
    fn of_row(rows: &'a Rows, source: VertexId) -> RowBlocks<'a>
        ensures blocks { blocks_left result ≡ row_of rows.now source.0 }
        ensures each { All IsBlock (row_of rows.now source.0) }
    {
        RowBlocks {
            rows,
            source: rows.len(),
            blocks: rows.row_blocks(source),
        }
    }
}

impl<'a> Iterator for RowBlocks<'a> {
    ghost use Rattle.std.specs.Iterator.{YieldsFirstRef, item_count};
    ghost use Rattle.graph_version.specs.LentEdges.{blocks_left};

    type Item = &'a Block;

    ghost next_gives = { YieldsFirstRef blocks_left };

    ghost remaining = { item_count blocks_left };

    fn next(&mut self) -> Option<&'a Block> {
        loop {
            if let [block, rest @ ..] = self.blocks {
                self.blocks = rest;
                return Some(block);
            }
            if self.source >= self.rows.len() {
                return None;
            }
            self.blocks = self.rows.row_blocks(VertexId(self.source as u32));
            self.source += 1;
        }
    }
}

/// Edges of a version that are still to come, by value: sources rising, blocks in row order, slots rising.
#[derive(Drop)]
pub struct EdgeIter<'a> {
    pub(crate) blocks: RowBlocks<'a>,
    /// The edges of a block, and its source.
    pub(crate) edges: Option<BlockIter<'a>>,
    pub(crate) source: VertexId,
}

impl<'a> EdgeIter<'a> {
    ghost use Rattle.graph_version.specs.LentEdges.{edges_to_come};

    /// All edges.
    pub(crate) fn over(rows: &'a Rows) -> EdgeIter<'a>
        ensures { edges_to_come result ≡ edges_in_blocks (blocks_of rows.now) }
    {
        EdgeIter {
            blocks: RowBlocks::over(rows),
            edges: None,
            source: VertexId(0),
        }
    }

    /// The edges of a source's row.
    pub(crate) fn of_row(rows: &'a Rows, source: VertexId) -> EdgeIter<'a>
        ensures edges { edges_to_come result ≡ edges_in_blocks (row_of rows.now source.0) }
        ensures each { All IsBlock (row_of rows.now source.0) }
    {
        EdgeIter {
            blocks: RowBlocks::of_row(rows, source),
            edges: None,
            source,
        }
    }
}

impl<'a> Iterator for EdgeIter<'a> {
    ghost use Rattle.std.specs.Iterator.{YieldsFirst, item_count};
    ghost use Rattle.graph_version.specs.LentEdges.{edges_to_come};

    type Item = Edge;

    ghost next_gives = { YieldsFirst edges_to_come };

    ghost remaining = { item_count edges_to_come };

    fn next(&mut self) -> Option<Edge> {
        loop {
            if let Some(edge) = next_in(&mut self.edges) {
                return Some(sourced(self.source, edge));
            }
            let block = self.blocks.next()?;
            self.source = block.source();
            self.edges = Some(all_edges(block));
        }
    }
}
