//! Where a batch's targets may stand in a long row.
//!
//! An operation on a long row then reads few of its blocks, and not all. The row is read once, at the batch's begin.

ghost use Rattle.std.specs.Prelude.{◌≡◌, ℕ, ◌<◌, IfOk, IfSome, OnOk, MatchOption, true, length};
ghost use Rattle.std.specs.List.{list_any};
ghost use Rattle.edge_block.specs.Slots.{holds};
ghost use Rattle.batch_shards.specs.Notes.{may_stand, list_of, places_in, stands, HasMore, HasPlace, IsNoted};

use crate::row_blocks::RowBlock;
use edge_block::Block;
use graph_types::Filter;
use std::alloc::{AllocError, Global};

/// The number of no list.
const NO_LIST: u32 = u32::MAX;

/// Below this many targets the shorter table is taken.
const FEW_TARGETS: usize = 128;

/// Lists are found by as many of a target's lowest bits as these have.
const SHORT_MASK: usize = 0x3ff;

const LONG_MASK: usize = 0x3fff;

/// The view of every edge.
const EVERY_EDGE: Filter = Filter {
    kind: None,
    lo: 0,
    hi: u64::MAX,
};

/// The places of the blocks of a row that may have an edge to a target, for each target that a batch asks for.
///
/// Targets with the same lowest bits share a list. A list may name blocks that have no such target, or no longer.
#[derive(Drop)]
pub struct Notes {
    mask: usize,
    /// By a target's lowest bits, the number of its list, or `NO_LIST` where the batch asks for no such target.
    lists: Vec<u32>,
    places: Vec<Vec<usize>>,
}

impl Notes {
    /// Lists for these targets, without a place.
    fn for_targets(alloc: Global, targets: &[u32]) -> Result<Self, AllocError> {
        let mask = if targets.len() < FEW_TARGETS {
            SHORT_MASK
        } else {
            LONG_MASK
        };
        let mut notes = Notes {
            mask,
            lists: vec![in alloc; NO_LIST; mask + 1]?,
            places: Vec::new(alloc),
        };
        for target in targets {
            notes.ask_for(alloc, *target)?;
        }
        Ok(notes)
    }

    /// Begins a list for a target that has none. There are no more lists than remainders, so a number is below `NO_LIST`.
    fn ask_for(&mut self, alloc: Global, target: u32) -> Result<(), AllocError> {
        let count = self.places.len();
        if let Some(list) = self.lists.get_mut(target as usize & self.mask) {
            if *list == NO_LIST && count <= LONG_MASK {
                *list = count as u32;
                self.places.push(Vec::new(alloc))?;
            }
        }
        Ok(())
    }

    /// The notes of a row for these targets.
    pub fn of_row(alloc: Global, row: &[RowBlock], targets: &[u32]) -> Result<Self, AllocError>
        ensures { IfOk result (λ notes. IsNoted (Some notes) row.now) }
    {
        let mut notes = Notes::for_targets(alloc, targets)?;
        for (place, here) in row.iter().enumerate() {
            notes.note_block(&here.block, place)?;
        }
        Ok(notes)
    }

    /// Notes a block's targets at its place.
    fn note_block(&mut self, block: &Block, place: usize) -> Result<(), AllocError>
        ensures noted { OnOk result ((target : ℕ) → list_any (holds target) block.now.slots ≡ true
            → may_stand self.new target place ≡ true) }
        ensures more { OnOk result (HasMore self.old self.new) }
    {
        for edge in block.select(&EVERY_EDGE) {
            self.note(*edge.target, place)?;
        }
        Ok(())
    }

    /// Notes that a target may stand at a place.
    pub fn note(&mut self, target: u32, place: usize) -> Result<(), AllocError>
        ensures noted { OnOk result (may_stand self.new target place ≡ true) }
        ensures more { OnOk result (HasMore self.old self.new) }
    {
        let list = self.list_of(target);
        if list < self.places.len() {
            add_place(&mut self.places, list, place)?;
        }
        Ok(())
    }

    /// The number of a target's list.
    fn list_of(&self, target: u32) -> usize
        ensures { result ≡ list_of self.now target }
    {
        match self.lists.get(target as usize & self.mask) {
            Some(list) => *list as usize,
            None => NO_LIST as usize,
        }
    }

    /// The places at which a target may stand, or `None` where the batch doesn't ask for it.
    pub fn places_of(&self, target: u32) -> Option<&[usize]>
        ensures { IfSome result (λ places. (place : ℕ) → stands places.now place ≡ may_stand self.now target place) }
    {
        let list = self.list_of(target);
        if list < self.places.len() {
            Some(self.places[list].as_slice())
        } else {
            None
        }
    }
}

/// Adds a place to one of the lists. It stands apart, so that what passes over a target without a list is short.
fn add_place(places: &mut Vec<Vec<usize>>, list: usize, place: usize) -> Result<(), AllocError>
    requires { list < length places.old.items }
    ensures { OnOk result (HasPlace list place places.old.items places.new.items) }
{
    places[list].push(place)?;
    Ok(())
}
