//! Blocks of a new pool for edges.

ghost use Rattle.std.specs.Prelude.{◌≡◌, ◌≤◌, true, All, IfOk, IfErr};
ghost use Rattle.block_reclamation.specs.Status.{most_blocks};
ghost use Rattle.block_reclamation.specs.declared.status.BlockStatus.TheVariants.{Used};
ghost use Rattle.block_pool.specs.Pools.{is_in_use_at, marked};
ghost use Rattle.graph_version.specs.Sharing.{block_values};
ghost use Rattle.opening_columns.specs.Edges.{AreRising, IsWithinBounds};
ghost use Rattle.opening_columns.specs.Openings.{AreLaidOut, RefusesEdges};

use crate::errors::OpenColumnsError;
use crate::filling::{fill_each, run_lengths};
use block_pool::{Grant, Pool};
use edge_block::Block;
use graph_types::Edge;
use std::alloc::Global;
use std::sync::Arc;

/// Blocks with edges, and the pool that they are of.
#[derive(Drop)]
pub(crate) struct LaidOut {
    pub(crate) pool: Pool,
    pub(crate) blocks: Vec<Arc<Block>>,
}

/// Notes that version 0 lists these blocks.
fn born_first(pool: &mut Pool, numbers: &[u32])
    requires { All (λ n. is_in_use_at pool.old n ≡ true) numbers.now }
    ensures { pool.new ≡ marked numbers.now (Used 0) pool.old }
{
    for number in numbers {
        pool.born(*number, 0);
    }
}

/// Puts edges into as few blocks as they need, of a new pool of so many.
pub(crate) fn laid_out(
    alloc: Global,
    blocks: u32,
    edges: &[Edge],
) -> Result<LaidOut, OpenColumnsError>
    requires least { 16 ≤ blocks }
    requires most { blocks ≤ most_blocks }
    requires rising { AreRising edges.now }
    requires range { All IsWithinBounds edges.now }
    ensures laid { IfOk result (λ r. AreLaidOut blocks edges.now (block_values r.blocks.items) r.pool) }
    ensures refused { IfErr result (RefusesEdges blocks edges.now) }
{
    let lengths = run_lengths(alloc, edges)?;
    let needed = lengths.len();
    if needed > blocks as usize {
        return Err(OpenColumnsError::PoolEmpty {
            needed: needed as u64,
            free: blocks,
        });
    }
    let mut pool = Pool::new(alloc, blocks)?;
    // So many are free, and so only memory can run out.
    let Ok(
        Grant {
            numbers,
            blocks: mut bodies,
        },
    ) = pool.grant(needed as u32)
    else {
        return Err(OpenColumnsError::OutOfMemory);
    };
    fill_each(bodies.as_mut_slice(), edges, lengths.as_slice())?;
    born_first(&mut pool, numbers.as_slice());
    Ok(LaidOut {
        pool,
        blocks: bodies,
    })
}
