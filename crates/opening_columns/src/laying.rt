//! Blocks in rows.

ghost use Rattle.std.specs.Prelude.{◌≡◌, ◌≤◌, ◌<◌, ◌==◌, ℕ, [], AllPairs, IfOk, filter, length, slice_index_or};
ghost use Rattle.edge_block.specs.Slots.{BlockView};
ghost use Rattle.graph_version.specs.Rows.{Replaces, blocks_of, row_of};
ghost use Rattle.graph_version.specs.Sharing.{block_values};

use edge_block::Block;
use graph_types::VertexId;
use graph_version::{Row, Rows};
use std::alloc::{AllocError, Global};
use std::sync::Arc;

/// How many of the first blocks are of the first one's source.
fn row_length(blocks: &[Arc<Block>]) -> usize
    requires { 0 < length blocks.now }
    ensures some { 0 < result }
    ensures within { result ≤ length blocks.now }
    ensures alike { (i : ℕ) → (d : BlockView) → i < result → (slice_index_or (block_values blocks.now) i d).source
        ≡ (slice_index_or (block_values blocks.now) 0 d).source }
    ensures most { (d : BlockView) → result < length blocks.now → (slice_index_or (block_values blocks.now) result d).source
        ≡ (slice_index_or (block_values blocks.now) 0 d).source → ⊥ }
{
    let source = blocks[0].source();
    let mut count = 1_usize;
    while count < blocks.len() {
        if blocks[count].source().0 != source.0 {
            return count;
        }
        count += 1;
    }
    count
}

/// Blocks, shared.
fn shared(alloc: Global, blocks: &[Arc<Block>]) -> Result<Vec<Arc<Block>>, AllocError>
    ensures { IfOk result (λ row. block_values row.items ≡ block_values blocks.now) }
{
    let mut row = Vec::with_capacity(alloc, blocks.len())?;
    for block in blocks {
        row.push(Arc::try_clone(block)?)?;
    }
    Ok(row)
}

/// The rows with these blocks as the row of a source.
fn with_row(
    alloc: Global,
    rows: Rows,
    source: VertexId,
    blocks: &[Arc<Block>],
) -> Result<Rows, AllocError>
    ensures { IfOk result (λ more. Replaces source.0 (block_values blocks.now) rows more) }
{
    let row = Row::of(alloc, shared(alloc, blocks)?)?;
    rows.put(source, row)
}

/// The rows over blocks that come by rising sources: each source's are its row, in order.
pub(crate) fn rows_over(alloc: Global, blocks: &[Arc<Block>]) -> Result<Rows, AllocError>
    requires { AllPairs (λ a b. a.source ≤ b.source) (block_values blocks.now) }
    ensures rows { IfOk result (λ rows. (s : ℕ) → row_of rows s ≡ filter (λ b. b.source == s) (block_values blocks.now)) }
    ensures blocks { IfOk result (λ rows. blocks_of rows ≡ block_values blocks.now) }
{
    let mut rows = Rows::new(alloc);
    let mut rest = blocks;
    while !rest.is_empty() {
        let (row, others) = rest.split_at(row_length(rest));
        rows = with_row(alloc, rows, row[0].source(), row)?;
        rest = others;
    }
    Ok(rows)
}
