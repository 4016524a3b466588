//! One row in columns.

ghost use Rattle.std.specs.Prelude.{◌≡◌, ◌+◌, ◌≤◌, ◌^◌, length};
ghost use Rattle.graph_version.specs.Sharing.{block_values};
ghost use Rattle.version_columns.specs.Rows.{block_edges, lent_edges_of, columns, with_edges, AreLong, WritesRow, IsRowCount, row_edges};
ghost use Rattle.version_columns.specs.Rows as rows;

use crate::views::{ColumnError, View, filter_of};
use edge_block::Block;
use graph_types::{Filter, VertexId};
use graph_version::Version;
use std::sync::Arc;

/// Writes a block's edges of a view from a place on, and tells the place behind them.
fn write_block(
    block: &Block,
    view: &Filter,
    mut at: usize,
    kinds: &mut [u32],
    targets: &mut [u32],
    weights: &mut [i64],
    firsts: &mut [u64],
    recents: &mut [u64],
) -> usize
    requires long { AreLong (length kinds.old) (columns kinds.old targets.old weights.old firsts.old recents.old) }
    requires room { at + length (block_edges view.now block.now) ≤ length kinds.old }
    ensures columns { columns kinds.new targets.new weights.new firsts.new recents.new
        ≡ with_edges at (block_edges view.now block.now) (columns kinds.old targets.old weights.old firsts.old recents.old) }
    ensures end { result ≡ at + length (block_edges view.now block.now) }
{
    for edge in block.select(view) {
        kinds[at] = edge.kind.0 as u32;
        targets[at] = *edge.target;
        weights[at] = *edge.weight;
        firsts[at] = *edge.first;
        recents[at] = *edge.recent;
        at += 1;
    }
    at
}

/// Writes the edges of a view of some blocks from a place on, and tells the place behind them.
pub(crate) fn write_blocks(
    blocks: &[Arc<Block>],
    view: &Filter,
    mut at: usize,
    kinds: &mut [u32],
    targets: &mut [u32],
    weights: &mut [i64],
    firsts: &mut [u64],
    recents: &mut [u64],
) -> usize
    requires long { AreLong (length kinds.old) (columns kinds.old targets.old weights.old firsts.old recents.old) }
    requires room { at + length (lent_edges_of view.now (block_values blocks.now)) ≤ length kinds.old }
    ensures columns { columns kinds.new targets.new weights.new firsts.new recents.new
        ≡ with_edges at (lent_edges_of view.now (block_values blocks.now)) (columns kinds.old targets.old weights.old firsts.old recents.old) }
    ensures end { result ≡ at + length (lent_edges_of view.now (block_values blocks.now)) }
{
    for block in blocks {
        at = write_block(block, view, at, kinds, targets, weights, firsts, recents);
    }
    at
}

/// How many edges of a view a block has: at most 32.
fn count_block(block: &Block, view: &Filter) -> usize
    ensures count { result ≡ length (block_edges view.now block.now) }
    ensures few { result ≤ 32 }
{
    block.select(view).count()
}

/// How many edges of a view blocks have.
pub(crate) fn count_blocks(blocks: &[Arc<Block>], view: &Filter) -> usize
    requires { length blocks.now ≤ 2 ^ 58 }
    ensures { result ≡ length (lent_edges_of view.now (block_values blocks.now)) }
{
    let mut count = 0_usize;
    for block in blocks {
        count += count_block(block, view);
    }
    count
}

/// Whether columns have a length.
pub(crate) fn are_long(
    length: usize,
    kinds: &[u32],
    targets: &[u32],
    weights: &[i64],
    firsts: &[u64],
    recents: &[u64],
) -> bool
    ensures { result ≡ rows.are_long length (columns kinds.now targets.now weights.now firsts.now recents.now) }
{
    kinds.len() == length
        && targets.len() == length
        && weights.len() == length
        && firsts.len() == length
        && recents.len() == length
}

/// Writes the edges of one source that the view lets through, in the order of its row, into columns of one length, and tells
/// how many there are. `NoKind`, `NoVertex`, or `BadLength` where the columns differ in length or have fewer places than that:
/// then nothing is written, and `count` is told. It takes no memory.
pub fn write_row(
    version: &Version,
    view: &View,
    source: u32,
    kinds: &mut [u32],
    targets: &mut [u32],
    weights: &mut [i64],
    firsts: &mut [u64],
    recents: &mut [u64],
    count: &mut u64,
) -> Result<(), ColumnError>
    ensures row { WritesRow row_edges version.now view.now source (columns kinds.old targets.old weights.old firsts.old recents.old)
        (columns kinds.new targets.new weights.new firsts.new recents.new) result }
    ensures count { IsRowCount row_edges version.now view.now source count.new }
{
    let Some(filter) = filter_of(version, view) else {
        return Err(ColumnError::NoKind);
    };
    if source as usize >= version.names().len() {
        return Err(ColumnError::NoVertex);
    }
    let blocks = version.row_blocks(VertexId(source));
    let edges = count_blocks(blocks, &filter);
    *count = edges as u64;
    let room = kinds.len();
    if !are_long(room, kinds, targets, weights, firsts, recents) || edges > room {
        return Err(ColumnError::BadLength);
    }
    let _end = write_blocks(blocks, &filter, 0, kinds, targets, weights, firsts, recents);
    Ok(())
}
