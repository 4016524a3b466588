//! Stacks of numbers, linked through one array.

ghost use Rattle.std.specs.Prelude.{◌≡◌, ◌<◌, ◌∷◌, ℕ, [], length, replicate, slice_set, IfOk, OnOk};
ghost use Rattle.block_pool.specs.Chains.{stack_of, below_top, AreAbsent};
ghost use Rattle.block_pool.specs.Paging.{HasRoom};

use crate::pages::Pages;
use std::alloc::{AllocError, Global};
use std::marker::Model;

/// The top of a stack, where it has one, and how many numbers it has.
#[derive(Clone, Copy, Debug)]
struct Stack {
    top: u32,
    height: u32,
}

/// So many stacks of numbers below a bound. A number's link takes memory before the number first stands in a stack.
#[derive(Debug)]
pub(crate) struct LinkedStacks {
    /// For each number that stands in a stack the one below it, and anything for a stack's last.
    below: Pages<u32>,
    stacks: Vec<Stack>,
}

// Written by hand: who lets one go rests on this function, and not on how each part is let go.
impl Drop for LinkedStacks {
    fn drop(self) {
        let LinkedStacks {
            below: _below,
            stacks: _stacks,
        } = self;
    }
}

impl Model for LinkedStacks {
    ghost use Rattle.std.specs.Prelude.{length, map};
    ghost use Rattle.block_pool.specs.Chains.{Stacks};
    ghost use Rattle.block_pool.specs.Chains.{chain_of, AreStacksWithin};

    ghost Value = { Stacks };

    ghost view = { λ s. record {
      bound = length s.below.items;
      lists = map (chain_of s.below.items) s.stacks.items;
      rooms = s.below.rooms;
    } };

    ghost invariant = { λ s. AreStacksWithin s.below.items s.stacks.items };
}

impl LinkedStacks {
    /// So many empty stacks of numbers below `bound`. It takes 8 bytes for each stack, and a little for each page of links.
    pub fn new(alloc: Global, bound: u32, stacks: u32) -> Result<LinkedStacks, AllocError>
        ensures { IfOk result (λ made. (made.bound ≡ bound) × (made.lists ≡ replicate stacks [])) }
    {
        Ok(LinkedStacks {
            below: Pages::new(alloc, bound as usize)?,
            stacks: vec![in alloc; Stack { top: 0, height: 0 }; stacks as usize]?,
        })
    }

    /// Takes the memory for a number's link, with those of its page, where it has none.
    pub fn make(&mut self, number: u32) -> Result<(), AllocError>
        requires { number < self.old.bound }
        ensures same { (self.new.bound ≡ self.old.bound) × (self.new.lists ≡ self.old.lists) }
        ensures room { OnOk result (HasRoom self.new.rooms number) }
        ensures kept { (other : ℕ) → HasRoom self.old.rooms other → HasRoom self.new.rooms other }
    {
        self.below.make(number as usize)
    }

    /// How many numbers a stack has.
    pub fn height(&self, stack: usize) -> usize
        requires { stack < length self.now.lists }
        ensures { result ≡ length (stack_of self.now.lists stack) }
    {
        self.stacks[stack].height as usize
    }

    /// Puts a number that stands in no stack, and has memory for a link, on top of one.
    pub fn push(&mut self, stack: usize, number: u32)
        requires stack { stack < length self.old.lists }
        requires number { number < self.old.bound }
        requires absent { AreAbsent number self.old.lists }
        requires room { length (stack_of self.old.lists stack) < self.old.bound }
        requires link { HasRoom self.old.rooms number }
        ensures { self.new ≡ record {
          bound = self.old.bound;
          lists = slice_set self.old.lists stack (number ∷ stack_of self.old.lists stack);
          rooms = self.old.rooms;
        } }
    {
        let old = self.stacks[stack];
        self.below.set(number as usize, old.top);
        self.stacks[stack] = Stack {
            top: number,
            height: old.height + 1,
        };
    }

    /// The number on top of a stack that isn't empty.
    pub fn top(&self, stack: usize) -> u32
        requires stack { stack < length self.now.lists }
        requires some { 0 < length (stack_of self.now.lists stack) }
        ensures { stack_of self.now.lists stack ≡ result ∷ below_top (stack_of self.now.lists stack) }
    {
        self.stacks[stack].top
    }

    /// Takes the top off a stack that isn't empty.
    pub fn pop(&mut self, stack: usize)
        requires stack { stack < length self.old.lists }
        requires some { 0 < length (stack_of self.old.lists stack) }
        ensures { self.new ≡ record {
          bound = self.old.bound;
          lists = slice_set self.old.lists stack (below_top (stack_of self.old.lists stack));
          rooms = self.old.rooms;
        } }
    {
        let old = self.stacks[stack];
        let top = self.below.get(old.top as usize);
        self.stacks[stack] = Stack {
            top,
            height: old.height - 1,
        };
    }
}
