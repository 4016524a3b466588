//! A pool: blocks that are free, in use or retired.

ghost use Rattle.std.specs.Prelude.{◌≡◌, ◌⊎◌, ◌<◌, ◌≤◌, ◌+◌, [], ◌∷◌, length, map, replicate, count_by, IfOk, OnOk, OnErr, IfErr};
ghost use Rattle.std.specs.Prelude.{IfSome, None, true, ℕ, ◌-◌, slice_index, slice_index_or, slice_set};
ghost use Rattle.std.specs.Arc.{arc_value};
ghost use Rattle.edge_block.specs.declared.blocks.Block.{Block};
ghost use Rattle.block_pool.specs.Pools.{retired, is_in_use_at, marked, changed_numbers, AreFree, is_used_at};
ghost use Rattle.block_reclamation.specs.declared.status.BlockStatus.TheVariants.{Free, Granted, Used};
ghost use Rattle.block_reclamation.specs.Status.{is_free, is_in_use, is_retired, is_reclaimable, most_blocks, recycled};
ghost use Rattle.block_pool.specs.Kept.{statuses, popped, IsNumbers, IsRoomier, IsReadyNumber, HasRoomFor};
ghost use Rattle.block_pool.specs.Paging.{HasRoom};
ghost use Rattle.block_pool.specs.Pools.{AreBodies};

use crate::numbers::Numbers;
use crate::pages::{Blank, Pages};
use block_reclamation::PinCopy;
use edge_block::Block;
use graph_types::ApplyError;
use std::alloc::{AllocError, Global};
use std::marker::Model;
use std::sync::Arc;

impl Blank for Option<Arc<Block>> {
    ghost use Rattle.std.specs.Prelude.{None};

    ghost blank = { λ _. None };

    fn blank(_place: usize) -> Option<Arc<Block>> {
        None
    }
}

/// A pool of blocks, seen as one status for each number: free, granted, used (in a version since its birth), or retired.
#[derive(Debug)]
pub struct Pool {
    alloc: Global,
    numbers: Numbers,
    /// The blocks that stand in the pool; `None` where one was granted, or was given up and is made anew at a grant.
    bodies: Pages<Option<Arc<Block>>>,
}

// Written by hand: who lets one go rests on this function, and not on how each part is let go.
impl Drop for Pool {
    fn drop(self) {
        let Pool {
            alloc: _alloc,
            numbers: _numbers,
            bodies: _bodies,
        } = self;
    }
}

impl Model for Pool {
    ghost use Rattle.std.specs.Prelude.{List, length};
    ghost use Rattle.block_reclamation.specs.declared.status.BlockStatus.{BlockStatus};
    ghost use Rattle.block_pool.specs.Kept.{statuses, IsNumbers, HasRoomFor};
    ghost use Rattle.block_pool.specs.Pools.{AreBodies};

    ghost Value = { List BlockStatus };

    ghost view = { λ p. statuses p.numbers };

    ghost invariant = { λ p. IsNumbers p.numbers × AreBodies (length p.numbers.statuses.items) p.bodies.items
        × HasRoomFor (statuses p.numbers) p.bodies.rooms };
}

/// Blocks that were granted, and their numbers in the same order.
#[derive(Debug, Drop)]
pub struct Grant {
    pub numbers: Vec<u32>,
    pub blocks: Vec<Arc<Block>>,
}

impl Pool {
    /// A pool of so many blocks, 16 to 4,293,918,719, all free. It takes some 100 bytes for each 4,096 of them. What is kept of a
    /// number takes memory at a grant, and no other call takes any.
    pub fn new(alloc: Global, blocks: u32) -> Result<Pool, AllocError>
        requires least { 16 ≤ blocks }
        requires most { blocks ≤ most_blocks }
        ensures { IfOk result (λ pool. pool ≡ replicate blocks Free) }
    {
        Ok(Pool {
            alloc,
            numbers: Numbers::all_free(alloc, blocks)?,
            bodies: Pages::new(alloc, blocks as usize)?,
        })
    }

    /// How many blocks are free.
    pub fn free(&self) -> u32
        ensures count { result ≡ count_by is_free self.now }
        ensures few { length self.now ≤ most_blocks }
    {
        self.numbers.free() as u32
    }

    /// How many blocks are retired.
    pub fn retired(&self) -> u32
        ensures count { result ≡ count_by is_retired self.now }
        ensures few { length self.now ≤ most_blocks }
    {
        self.numbers.retired() as u32
    }

    /// How many blocks are in use: granted and not given back, or in a version. With the free and the retired ones they
    /// add up to the pool.
    pub fn used(&self) -> u32
        ensures count { result ≡ count_by is_in_use self.now }
        ensures few { length self.now ≤ most_blocks }
        ensures all { count_by is_free self.now + count_by is_in_use self.now + count_by is_retired self.now ≡ length self.now }
    {
        self.numbers.used() as u32
    }

    /// Grants so many blocks, the one that was last given back first. It takes time by their count, and reads none of
    /// them. It takes memory for the grant's two lists, for the bodies of blocks that are granted for the first time or were
    /// given up, and for what is kept of the numbers: some 44 bytes a block, for 4,096 at a time.
    ///
    /// `PoolEmpty` exactly where fewer are free; `OutOfMemory` where a growth was refused. Either leaves each number
    /// as it was.
    pub fn grant(&mut self, count: u32) -> Result<Grant, ApplyError>
        ensures numbers { IfOk result (λ g. AreFree self.old g.numbers.items × (length g.numbers.items ≡ count)) }
        ensures blocks { IfOk result (λ g. map (λ b. (arc_value {X = Block} b).number) g.blocks.items ≡ g.numbers.items) }
        ensures used { IfOk result (λ g. self.new ≡ marked g.numbers.items Granted self.old) }
        ensures refused { IfErr result (λ e. (e ≡ ApplyError.OutOfMemory)
            ⊎ ((count_by is_free self.old < count) × (e ≡ ApplyError.PoolEmpty count (count_by is_free self.old)))) }
        ensures exact { count_by is_free self.old < count
            → result ≡ Err (ApplyError.PoolEmpty count (count_by is_free self.old)) }
        ensures enough { OnOk result (count ≤ count_by is_free self.old) }
        ensures unchanged { OnErr result (self.new ≡ self.old) }
    {
        self.grant_of(count, count)
    }

    /// As [`grant`](Pool::grant), where so many blocks are asked for and as many granted, which are no more.
    ///
    /// `PoolEmpty` exactly where fewer are free than are asked for.
    pub fn grant_of(&mut self, asked: u32, count: u32) -> Result<Grant, ApplyError>
        requires { count ≤ asked }
        ensures numbers { IfOk result (λ g. AreFree self.old g.numbers.items × (length g.numbers.items ≡ count)) }
        ensures blocks { IfOk result (λ g. map (λ b. (arc_value {X = Block} b).number) g.blocks.items ≡ g.numbers.items) }
        ensures used { IfOk result (λ g. self.new ≡ marked g.numbers.items Granted self.old) }
        ensures refused { IfErr result (λ e. (e ≡ ApplyError.OutOfMemory)
            ⊎ ((count_by is_free self.old < asked) × (e ≡ ApplyError.PoolEmpty asked (count_by is_free self.old)))) }
        ensures exact { count_by is_free self.old < asked
            → result ≡ Err (ApplyError.PoolEmpty asked (count_by is_free self.old)) }
        ensures enough { OnOk result (asked ≤ count_by is_free self.old) }
        ensures unchanged { OnErr result (self.new ≡ self.old) }
    {
        let free = self.free();
        if asked > free {
            return Err(ApplyError::PoolEmpty {
                needed: asked,
                free,
            });
        }
        let grant = gather(
            self.alloc,
            &mut self.numbers,
            &mut self.bodies,
            count as usize,
        )?;
        self.numbers.use_last(count as usize);
        Ok(grant)
    }

    /// Gives back what was granted and neither given back nor retired, with the block or without it. It takes no
    /// memory.
    pub fn give_back(&mut self, number: u32, block: Option<Arc<Block>>)
        requires in_use { is_in_use_at self.old number ≡ true }
        requires block { IfSome block (λ b. (arc_value {X = Block} b).number ≡ number) }
        ensures { self.new ≡ marked (number ∷ []) Free self.old }
    {
        self.numbers.give_back(number);
        self.bodies.set(number as usize, block);
    }

    /// Notes the number of the version that first lists a block since its grant. It takes no memory.
    pub fn born(&mut self, number: u32, version: u64)
        requires { is_in_use_at self.old number ≡ true }
        ensures { self.new ≡ marked (number ∷ []) (Used version) self.old }
    {
        self.numbers.born(number, version);
    }

    /// Retires a block whose birth was noted with the number of the version that left it out. It takes no memory.
    pub fn retire(&mut self, block: Arc<Block>, version: u64)
        requires { is_used_at self.old (arc_value {X = Block} block).number ≡ true }
        ensures { self.new ≡ changed_numbers (retired version) ((arc_value {X = Block} block).number ∷ []) self.old }
    {
        let number = block.number();
        self.numbers.retire(number, version);
        self.bodies.set(number as usize, Some(block));
    }

    /// Frees each retired block that the copy doesn't need, and tells how many. It takes no memory, and time by how many
    /// blocks it frees, were retired since the last call, and stood under a settled pin that the copy hasn't; not by those
    /// that pins keep.
    pub fn recycle(&mut self, copy: &PinCopy) -> u32
        ensures pool { self.new ≡ map (recycled copy.now) self.old }
        ensures count { result ≡ count_by (is_reclaimable copy.now) self.old }
    {
        self.numbers.recycle(copy)
    }

    /// Gives up the bodies of free blocks, but for so many that are granted next: a grant makes them anew. It takes time by how
    /// many it gives up, since it goes back no further than to a block that has none: mostly the blocks below were never granted.
    ///
    /// ```
    /// pool.slim(4_096);
    /// ```
    pub fn slim(&mut self, keep: usize)
        ensures { self.new ≡ self.old }
    {
        let spare = self.numbers.free_len.saturating_sub(keep);
        give_up(&self.numbers, &mut self.bodies, spare);
    }
}

/// Gives up the bodies of the first so many free numbers, the last one first, up to one that has none.
fn give_up(numbers: &Numbers, bodies: &mut Pages<Option<Arc<Block>>>, count: usize)
    requires kept { IsNumbers numbers.now }
    requires few { count ≤ numbers.now.free_len }
    requires bodies { AreBodies (length numbers.now.statuses.items) bodies.old.items }
    ensures bodies { AreBodies (length numbers.now.statuses.items) bodies.new.items }
    ensures rooms { bodies.new.rooms ≡ bodies.old.rooms }
{
    let mut place = count;
    'back: while place > 0 {
        place -= 1;
        let number = numbers.free.get(place);
        if !drop_body(bodies, number) {
            return;
        }
    }
}

/// Lets the body of a number go, if there is one.
fn drop_body(bodies: &mut Pages<Option<Arc<Block>>>, number: u32) -> bool
    requires within { number < length bodies.old.items }
    requires bodies { AreBodies (length bodies.old.items) bodies.old.items }
    ensures bodies { AreBodies (length bodies.old.items) bodies.new.items }
    ensures rooms { bodies.new.rooms ≡ bodies.old.rooms }
{
    let place = number as usize;
    bodies.has(place) && bodies.take(place).is_some()
}

/// The last `count` of the free numbers with their memory, and a block of each in that order. Where memory is refused, only
/// bodies are given up.
fn gather(
    alloc: Global,
    numbers: &mut Numbers,
    bodies: &mut Pages<Option<Arc<Block>>>,
    count: usize,
) -> Result<Grant, AllocError>
    requires kept { IsNumbers numbers.old }
    requires bodies { AreBodies (length numbers.old.statuses.items) bodies.old.items }
    requires rooms { HasRoomFor (statuses numbers.old) bodies.old.rooms }
    requires enough { count ≤ numbers.old.free_len }
    ensures kept { IsNumbers numbers.new }
    ensures same { IsRoomier numbers.old numbers.new }
    ensures bodies { AreBodies (length numbers.old.statuses.items) bodies.new.items }
    ensures rooms { HasRoomFor (statuses numbers.old) bodies.new.rooms }
    ensures numbers { IfOk result (λ g. g.numbers.items ≡ popped numbers.old.free.items numbers.old.free_len count) }
    ensures blocks { IfOk result (λ g. map (λ b. (arc_value {X = Block} b).number) g.blocks.items ≡ g.numbers.items) }
    ensures ready { OnOk result ((before : ℕ) → before < count → IsReadyNumber numbers.new before) }
    ensures taken { OnOk result ((before : ℕ) → before < count
        → HasRoom bodies.new.rooms (slice_index numbers.old.free.items (numbers.old.free_len - 1 - before))) }
{
    let mut granted = Vec::with_capacity(alloc, count)?;
    let mut blocks = Vec::with_capacity(alloc, count)?;
    for i in 0..count {
        let number = numbers.make_ready(i)?;
        bodies.make(number as usize)?;
        let body = body_of(alloc, bodies, number)?;
        blocks.push(body)?;
        granted.push(number)?;
    }
    Ok(Grant {
        numbers: granted,
        blocks,
    })
}

/// The block of a number: its body where it was kept, else a new one.
fn body_of(
    alloc: Global,
    bodies: &mut Pages<Option<Arc<Block>>>,
    number: u32,
) -> Result<Arc<Block>, AllocError>
    requires within { number < length bodies.old.items }
    requires room { HasRoom bodies.old.rooms number }
    requires own { IfSome (slice_index_or bodies.old.items number None) (λ b. (arc_value {X = Block} b).number ≡ number) }
    ensures number { IfOk result (λ b. (arc_value {X = Block} b).number ≡ number) }
    ensures bodies { bodies.new.items ≡ slice_set bodies.old.items number None }
    ensures rooms { bodies.new.rooms ≡ bodies.old.rooms }
{
    match bodies.take(number as usize) {
        Some(body) => Ok(body),
        None => Ok(Arc::new(alloc, Block::blank(number))?),
    }
}
