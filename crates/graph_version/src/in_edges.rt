//! The edges of a version that lead to a vertex.

ghost use Rattle.std.specs.Prelude.{◌≡◌};
ghost use Rattle.graph_version.specs.Rows.{blocks_of};
ghost use Rattle.graph_version.specs.Edges.{edges_in_blocks};
ghost use Rattle.graph_version.specs.InEdges.{edges_into};

use crate::edges::{RowBlocks, sourced};
use crate::rows::Rows;
use graph_types::{Edge, VertexId};

/// The edges of a version that lead to a vertex and are still to come, in the order of all edges. Each block has one kind and
/// lists a target once, so it has one of them at most.
#[derive(Drop)]
pub struct InEdgeIter<'a> {
    pub(crate) blocks: RowBlocks<'a>,
    pub(crate) target: VertexId,
}

impl<'a> InEdgeIter<'a> {
    ghost use Rattle.graph_version.specs.InEdges.{into_left};

    /// All edges that lead to a vertex.
    pub(crate) fn over(rows: &'a Rows, target: VertexId) -> InEdgeIter<'a>
        ensures { into_left result ≡ edges_into target.0 (edges_in_blocks (blocks_of rows.now)) }
    {
        InEdgeIter {
            blocks: RowBlocks::over(rows),
            target,
        }
    }
}

impl<'a> Iterator for InEdgeIter<'a> {
    ghost use Rattle.std.specs.Iterator.{YieldsFirst, item_count};
    ghost use Rattle.graph_version.specs.InEdges.{into_left};

    type Item = Edge;

    ghost next_gives = { YieldsFirst into_left };

    ghost remaining = { item_count into_left };

    fn next(&mut self) -> Option<Edge> {
        loop {
            let block = self.blocks.next()?;
            if let Some(edge) = block.find(self.target.0) {
                return Some(sourced(block.source(), edge));
            }
        }
    }
}
