//! Degrees, edge by edge.

ghost use Rattle.std.specs.Prelude.{◌≡◌, ◌<◌, ◌≤◌, ◌+◌, ◌+ℤ◌, ◌^◌, nat_abs, length, replicate, All, IfOk};
ghost use Rattle.graph_types.specs.Answer.{degree_table};
ghost use Rattle.graph_types.specs.Degrees.{CountsEdge, HasDegreeRoom};
ghost use Rattle.graph_types.specs.Limits.{most_places};
ghost use Rattle.graph_version.specs.Sharing.{block_values};
ghost use Rattle.graph_version.specs.Versions.{content};
ghost use Rattle.graph_cores.specs.Tallies.{edge_between, shown_block, shown_edges, HasTallyRoom, Counts};

use edge_block::Block;
use graph_types::{Degree, Filter, VertexId};
use graph_version::Version;
use std::alloc::{AllocError, Global};
use std::sync::Arc;

/// The degrees of a vertex without edges.
const NONE: Degree = Degree {
    outgoing: 0,
    incoming: 0,
    out_weight: 0,
};

/// Counts an edge at its two ends.
fn count_edge(table: &mut [Degree], source: VertexId, target: u32, weight: i64)
    requires source { source.0 < length table.old }
    requires target { target < length table.old }
    requires room { All (HasDegreeRoom (nat_abs weight)) table.old }
    ensures { CountsEdge (edge_between source.0 target weight) table.old table.new }
{
    count_out(&mut table[source.0 as usize], weight);
    count_in(&mut table[target as usize]);
}

/// Counts an edge that leaves.
fn count_out(degree: &mut Degree, weight: i64)
    requires { HasDegreeRoom (nat_abs weight) degree.old }
    ensures { degree.new
        ≡ record degree.old { outgoing = degree.old.outgoing + 1; out_weight = degree.old.out_weight +ℤ weight } }
{
    degree.outgoing += 1;
    degree.out_weight += weight;
}

/// Counts an edge that enters.
fn count_in(degree: &mut Degree)
    requires { degree.old.incoming ≤ most_places }
    ensures { degree.new ≡ record degree.old { incoming = degree.old.incoming + 1 } }
{
    degree.incoming += 1;
}

/// Counts a block's edges that the filter lets through.
fn count_block(table: &mut [Degree], block: &Block, view: &Filter)
    requires { HasTallyRoom view.now (shown_block view.now block.now) table.old }
    ensures { Counts view.now (shown_block view.now block.now) table.old table.new }
{
    let source = block.source();
    for edge in block.select(view) {
        count_edge(table, source, *edge.target, *edge.weight);
    }
}

/// Counts the edges of a row that the filter lets through.
fn count_row(table: &mut [Degree], blocks: &[Arc<Block>], view: &Filter)
    requires { HasTallyRoom view.now (shown_edges view.now (block_values blocks.now)) table.old }
    ensures { Counts view.now (shown_edges view.now (block_values blocks.now)) table.old table.new }
{
    for block in blocks {
        count_block(table, block, view);
    }
}

/// Counts the edges of all rows that the filter lets through.
fn count_all(table: &mut [Degree], version: &Version, view: &Filter)
    requires { table.old ≡ replicate (length (content version.now).names) NONE }
    ensures { table.new ≡ degree_table view.now (content version.now) }
{
    for source in 0..version.names().len() {
        count_row(table, version.row_blocks(VertexId(source as u32)), view);
    }
}

/// The degrees of each vertex of a version, in number order: how many edges of the view leave it and how many enter it, a
/// loop once in each, and the sum of the weights of those that leave it.
///
/// One pass over the blocks; the table is all that takes memory. The only error is out of memory. A window that ends before it
/// begins is an empty view.
pub fn degrees(alloc: Global, version: &Version, view: &Filter) -> Result<Vec<Degree>, AllocError>
    ensures { IfOk result (λ degrees. degrees.items ≡ degree_table view.now (content version.now)) }
{
    let mut table = vec![in alloc; NONE; version.names().len()]?;
    count_all(&mut table, version, view);
    Ok(table)
}
