//! Moves of blocks between the pool's sets, in time by their count. None of these takes memory.

ghost use Rattle.std.specs.Prelude.{◌≡◌};
ghost use Rattle.block_pool.specs.Pools.{marked, changed_numbers, retired};
ghost use Rattle.block_reclamation.specs.declared.status.BlockStatus.TheVariants.{Free, Used};
ghost use Rattle.batch_shards.specs.RowBlocks.{shared_numbers};
ghost use Rattle.desk.specs.Applying.{AreInUseOnce, AreUsedOnce};

use block_pool::Pool;
use edge_block::Block;
use std::sync::Arc;

/// Gives back what was granted, without the blocks: the one that was granted last is given back first.
pub(crate) fn give_back_numbers(pool: &mut Pool, mut numbers: Vec<u32>)
    requires { AreInUseOnce numbers.items pool.old }
    ensures { pool.new ≡ marked numbers.items Free pool.old }
{
    while let Some(number) = numbers.pop() {
        pool.give_back(number, None);
    }
}

/// Gives back what was granted, with the blocks.
pub(crate) fn give_back_blocks(pool: &mut Pool, mut blocks: Vec<Arc<Block>>)
    requires { AreInUseOnce (shared_numbers blocks.items) pool.old }
    ensures { pool.new ≡ marked (shared_numbers blocks.items) Free pool.old }
{
    while let Some(block) = blocks.pop() {
        pool.give_back(block.number(), Some(block));
    }
}

/// Notes the version that first lists these blocks.
pub(crate) fn born_blocks(pool: &mut Pool, taken: &[u32], version: u64)
    requires { AreInUseOnce taken.now pool.old }
    ensures { pool.new ≡ marked taken.now (Used version) pool.old }
{
    let mut rest = taken;
    while let [number, others @ ..] = rest {
        pool.born(*number, version);
        rest = others;
    }
}

/// Retires blocks with the number of the version that leaves them out.
pub(crate) fn retire_blocks(pool: &mut Pool, mut blocks: Vec<Arc<Block>>, version: u64)
    requires { AreUsedOnce (shared_numbers blocks.items) pool.old }
    ensures { pool.new ≡ changed_numbers (retired version) (shared_numbers blocks.items) pool.old }
{
    while let Some(block) = blocks.pop() {
        pool.retire(block, version);
    }
}

/// Moves the blocks that a version dropped and those that it didn't need: they are retired with its number, or given back.
pub(crate) fn move_blocks(
    pool: &mut Pool,
    dropped: Vec<Arc<Block>>,
    unused: Vec<Arc<Block>>,
    version: u64,
)
    requires dropped { AreUsedOnce (shared_numbers dropped.items) pool.old }
    requires unused { AreInUseOnce (shared_numbers unused.items) (changed_numbers (retired version) (shared_numbers dropped.items) pool.old) }
    ensures { pool.new ≡ marked (shared_numbers unused.items) Free (changed_numbers (retired version) (shared_numbers dropped.items) pool.old) }
{
    retire_blocks(pool, dropped, version);
    give_back_blocks(pool, unused);
}
