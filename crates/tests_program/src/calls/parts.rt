// The parts below a version: scans, blocks, names, records and the pool.

ghost use Rattle.std.specs.Prelude.{◌≡◌, ◌≤◌, length, All, IfSome, IsTrue, true};
ghost use Rattle.std.specs.Arc.{arc_value};
ghost use Rattle.graph_types.specs.Valid.{is_name};
ghost use Rattle.lane_scan.specs.Masks.{IsLaneWeight, selected};
ghost use Rattle.edge_block.specs.Slots.{has_room_for};
ghost use Rattle.edge_block.specs.declared.blocks.Block.{Block};
ghost use Rattle.block_pool.specs.Pools.{is_in_use_at, is_used_at};

use block_pool::{Grant, GrantError, Pool};
use edge_block::{Block, BlockIter, EdgeRef};
use feed_csv::{Command, Feed, FeedFault};
use graph_model::{Filter, KindId, VertexId};
use lane_scan::{bounds, equal_columns, find_target, masked_sum, window_mask};
use std::alloc::{AllocError, Global};
use std::io::Read;
use std::sync::Arc;
use vertex_names::{AddError, NameBook};

fn scans(targets: &[u32], live: u32) -> (Option<usize>, bool)
    requires { length targets.now ≤ 32 }
{
    (
        find_target(targets, live, 7),
        equal_columns(targets, targets),
    )
}

fn sums(weights: &[i64], mask: u32) -> i64
    requires few { length weights.now ≤ 32 }
    requires counted { All IsLaneWeight (selected mask weights.now) }
{
    masked_sum(weights, mask)
}

fn scans_times(times: &[u64], mask: u32) -> (u32, Option<(u64, u64)>)
    requires { length times.now ≤ 32 }
{
    (window_mask(times, mask, 10, 20), bounds(times, mask))
}

fn cleared(number: u32, source: VertexId, kind: KindId) -> (Block, bool) {
    let mut block = Block::blank(number);
    block.clear_for(source, kind);
    let is_same = block.number() == number && block.source() == source && block.kind() == kind;
    (block, is_same)
}

fn puts(block: &mut Block)
    requires { IsTrue (has_room_for 7 block.old.slots) }
{
    block.put(7, 1, 2, 3);
}

fn changes(block: &mut Block, other: &Block) -> bool {
    block.copy_from(other);
    block.take(7) && block.same_targets(other)
}

fn reads(block: &Block) -> (usize, bool, Option<(u64, u64)>) {
    (block.len(), block.is_full(), block.time_bounds())
}

fn lends<'b>(block: &'b Block, filter: &Filter) -> (Option<EdgeRef<'b>>, BlockIter<'b>) {
    (block.find(7), block.select(filter))
}

fn books(alloc: Global, limit: u32) -> NameBook {
    NameBook::new(alloc, limit)
}

fn finds_names<'b>(book: &'b NameBook, name: &str) -> (usize, Option<u32>, Option<&'b str>) {
    (book.len(), book.number(name), book.name(0))
}

fn adds(book: &mut NameBook, name: &str) -> (Result<u32, AddError>, Result<NameBook, AllocError>)
    requires { IsTrue (is_name name.now) }
{
    (book.add(name), book.share())
}

fn feeds<R: Read>(alloc: Global, reader: R) -> Feed<R> {
    Feed::over(alloc, reader)
}

fn next<R: Read>(feed: &mut Feed<R>) -> Result<Option<Command>, FeedFault> {
    feed.next()
}

fn tells(fault: FeedFault) -> (u64, &'static str) {
    (fault.at, fault.word.word())
}

fn pools(alloc: Global) -> Result<Pool, AllocError> {
    Pool::new(alloc, 16)
}

fn grants(pool: &mut Pool) -> (u32, u32, u32, Result<Grant, GrantError>) {
    (pool.free(), pool.retired(), pool.used(), pool.grant(2))
}

fn gives_back(pool: &mut Pool, number: u32, block: Option<Arc<Block>>)
    requires used { is_in_use_at pool.old number ≡ true }
    requires block { IfSome block (λ b. (arc_value {X = Block} b).number ≡ number) }
{
    pool.give_back(number, block);
}

fn notes_births(pool: &mut Pool, number: u32, version: u64)
    requires { is_in_use_at pool.old number ≡ true }
{
    pool.born(number, version);
}

fn retires(pool: &mut Pool, block: Arc<Block>, version: u64)
    requires { is_used_at pool.old (arc_value {X = Block} block).number ≡ true }
{
    pool.retire(block, version);
}
