//! Edges in blocks.

ghost use Rattle.std.specs.Prelude.{◌≡◌, ◌≤◌, ◌<◌, ◌+◌, ℕ, List, All, IfOk, OnOk, length, map, [], slice_index_or, IsTrue, ◌↔◌};
ghost use Rattle.edge_block.specs.Slots.{empty_block, with_slots};
ghost use Rattle.graph_types.specs.declared.ids.Edge.{Edge};
ghost use Rattle.graph_version.specs.Rows.{numbers_of};
ghost use Rattle.graph_version.specs.Sharing.{block_value, block_values};
ghost use Rattle.opening_columns.specs.Edges.{AreRising, IsWithinBounds};
ghost use Rattle.opening_columns.specs.Runs.{AreAlike, AreFilled, AreRuns, IsFilled, IsRun, slots_of_run};

use edge_block::Block;
use graph_types::Edge;
use std::alloc::{AllocError, Global};
use std::sync::Arc;

/// How many edges a block takes at the most.
const SLOTS: usize = 32;

/// Whether two edges are of one source and kind.
#[inline(always)]
fn are_alike(first: &Edge, edge: &Edge) -> bool
    ensures { IsTrue result ↔ AreAlike first.now edge.now }
{
    edge.source.0 == first.source.0 && edge.kind.0 == first.kind.0
}

/// How many of the first edges one block takes: those of the first one's source and kind, 32 at the most.
fn run_length(edges: &[Edge]) -> usize
    requires { 0 < length edges.now }
    ensures some { 0 < result }
    ensures within { result ≤ length edges.now }
    ensures few { result ≤ 32 }
    ensures alike { (i : ℕ) → (d : Edge) → i < result → AreAlike (slice_index_or edges.now 0 d) (slice_index_or edges.now i d) }
    ensures most { (d : Edge) → result < 32 → result < length edges.now
        → AreAlike (slice_index_or edges.now 0 d) (slice_index_or edges.now result d) → ⊥ }
{
    let first = edges[0];
    let mut count = 1_usize;
    while count < SLOTS && count < edges.len() {
        if !are_alike(&first, &edges[count]) {
            return count;
        }
        count += 1;
    }
    count
}

/// How many edges each block takes, in order.
pub(crate) fn run_lengths(alloc: Global, edges: &[Edge]) -> Result<Vec<usize>, AllocError>
    requires rising { AreRising edges.now }
    requires range { All IsWithinBounds edges.now }
    ensures { IfOk result (λ lengths. (runs : List (List Edge)) × AreRuns edges.now runs × (map length runs ≡ lengths.items)) }
{
    let mut lengths = Vec::new(alloc);
    let mut rest = edges;
    while !rest.is_empty() {
        let (run, others) = rest.split_at(run_length(rest));
        lengths.push(run.len())?;
        rest = others;
    }
    Ok(lengths)
}

/// Puts edges into the first slots of a block without edges.
fn put_edges(block: &mut Block, edges: &[Edge])
    requires blank { block.old.slots ≡ slots_of_run [] }
    requires rising { AreRising edges.now }
    requires range { All IsWithinBounds edges.now }
    requires run { IsRun edges.now }
    ensures { block.new ≡ with_slots block.old (slots_of_run edges.now) }
{
    for edge in edges {
        block.put(edge.target.0, edge.weight, edge.first, edge.recent);
    }
}

/// Has a block have a run's edges alone.
fn fill_block(block: &mut Block, run: &[Edge])
    requires rising { AreRising run.now }
    requires range { All IsWithinBounds run.now }
    requires run { IsRun run.now }
    ensures filled { IsFilled run.now block.new }
    ensures number { block.new.number ≡ block.old.number }
{
    let first = run[0];
    block.clear_for(first.source, first.kind);
    put_edges(block, run);
}

/// The same of a shared block, or of a copy.
fn fill(block: &mut Arc<Block>, run: &[Edge]) -> Result<(), AllocError>
    requires rising { AreRising run.now }
    requires range { All IsWithinBounds run.now }
    requires run { IsRun run.now }
    ensures filled { OnOk result (IsFilled run.now (block_value block.new)) }
    ensures number { OnOk result ((block_value block.new).number ≡ (block_value block.old).number) }
{
    fill_block(Arc::make_mut(block)?, run);
    Ok(())
}

/// Gives each block as many of the edges as is told, in order.
pub(crate) fn fill_each(
    blocks: &mut [Arc<Block>],
    edges: &[Edge],
    lengths: &[usize],
) -> Result<(), AllocError>
    requires rising { AreRising edges.now }
    requires range { All IsWithinBounds edges.now }
    requires many { length lengths.now ≡ length blocks.old }
    requires runs { (runs : List (List Edge)) × AreRuns edges.now runs × (map length runs ≡ lengths.now) }
    ensures filled { OnOk result ((runs : List (List Edge)) → AreRuns edges.now runs → map length runs ≡ lengths.now
        → AreFilled runs (block_values blocks.new)) }
    ensures numbers { OnOk result (numbers_of (block_values blocks.new) ≡ numbers_of (block_values blocks.old)) }
{
    let mut rest = edges;
    for place in 0..lengths.len() {
        let (run, others) = rest.split_at(lengths[place]);
        fill(&mut blocks[place], run)?;
        rest = others;
    }
    Ok(())
}
