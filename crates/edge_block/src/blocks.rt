//! The block and its calls.

ghost use Rattle.std.specs.Prelude.{◌≡◌, ℕ, ℤ, ◌<◌, ◌≤◌, ◌↔◌, IsTrue, [], ◌++◌, length, map, filter, not, All, MatchOption, IfSome};
ghost use Rattle.std.specs.Prelude.{OnOk};
ghost use Rattle.std.specs.Prelude.{slice_index_or, slice_set, false};
ghost use Rattle.std.specs.List.{list_any};
ghost use Rattle.graph_types.specs.Graph.{IsWeight, IsTime};
ghost use Rattle.graph_types.specs.View.{in_view, takes_kind};
ghost use Rattle.lane_scan.specs.Masks.{AreBoundsOf};
ghost use Rattle.edge_block.specs.Slots.{IsBlock, IsStamp, edges_in, edge_slot, is_free_slot, empty_block, entries_of, holds};
ghost use Rattle.edge_block.specs.Slots.{slots_since, old_in, has_before, IsOld};
ghost use Rattle.edge_block.specs.Slots.{has_room_for, put_slot, take_slot, stamp_at, targets_in, with_slots};

use crate::columns::{SLOTS, bounds_without, first_places, places_within, used_places};
use graph_types::{Filter, KindId, VertexId};
use lane_scan::{equal_columns, find_target, widened};
use std::alloc::AllocError;
use std::marker::Model;

/// How many targets are copied at once, and not one by one: for fewer a call of `memcpy` takes longer.
const RUN: usize = 8;

/// A block: a number, a source and a kind, and 32 slots, each empty or an edge.
///
/// What a search reads lies together and first: a header of the live places, the kind, the source, the number and the
/// bounds of the recent times, and then the targets. A clone is equal in everything, its number too.
#[derive(Debug, Drop)]
pub struct Block {
    /// Bit `k` is set where slot `k` has an edge.
    live: u32,
    kind: KindId,
    source: VertexId,
    number: u32,
    /// The least and the greatest recent time of the edges; where there is no edge, anything.
    times: (u64, u64),
    /// A dead place has the target 0, so that blocks with the same slots have the same column.
    targets: [u32; SLOTS],
    weights: [i64; SLOTS],
    firsts: [u64; SLOTS],
    recents: [u64; SLOTS],
}

impl Model for Block {
    ghost use Rattle.std.specs.Prelude.{ℕ, List};
    ghost use Rattle.edge_block.specs.Slots.{BlockView};
    ghost use Rattle.edge_block.specs.Columns.{slots_of, AreColumns, AreTimes};

    ghost Value = { BlockView };

    ghost view = { λ a. record {
      number = a.number;
      source = a.source.0;
      kind = a.kind.0;
      slots = slots_of a.live a.targets a.weights a.firsts a.recents;
    } };

    ghost invariant = { λ a. AreColumns a.live a.targets a.weights a.firsts a.recents × AreTimes a.live a.recents a.times };
}

// Written by hand: a derived one clones column by column, and has a way out behind each.
impl Clone for Block {
    ghost use Rattle.std.specs.Prelude.{◌≡◌, ⊤};

    ghost is_clone = { λ block copy. copy ≡ block };

    ghost is_infallible = { λ _. ⊤ };

    fn clone(&self) -> Result<Self, AllocError> {
        Ok(Block {
            live: self.live,
            kind: self.kind,
            source: self.source,
            number: self.number,
            times: self.times,
            targets: self.targets,
            weights: self.weights,
            firsts: self.firsts,
            recents: self.recents,
        })
    }
}

/// An edge that a block lends: its fields stand in the block's columns, and its source is the block's.
#[derive(Clone, Copy, Debug)]
pub struct EdgeRef<'a> {
    pub kind: KindId,
    pub target: &'a u32,
    /// From -2^40 to 2^40.
    pub weight: &'a i64,
    /// The time of its first insertion, below 2^63.
    pub first: &'a u64,
    /// The time of the last operation that touched it, below 2^63; it may be earlier than `first`.
    pub recent: &'a u64,
}

impl Block {
    ghost use Rattle.lane_scan.specs.Masks.{selected};
    ghost use Rattle.edge_block.specs.Lending.{IsEdgeTo, lent_edge, lent_in, lent_of, edges_left};

    /// A block without edges, of source 0 and kind 0.
    pub fn blank(number: u32) -> Self
        ensures { result ≡ empty_block number 0 0 }
    {
        Block {
            live: 0,
            kind: KindId(0),
            source: VertexId(0),
            number,
            times: (0, 0),
            targets: [0; SLOTS],
            weights: [0; SLOTS],
            firsts: [0; SLOTS],
            recents: [0; SLOTS],
        }
    }

    /// The number that tells the blocks of a store apart.
    pub fn number(&self) -> u32
        ensures { result ≡ self.now.number }
    {
        self.number
    }

    /// The vertex that the edges leave.
    pub fn source(&self) -> VertexId
        ensures { result.0 ≡ self.now.source }
    {
        self.source
    }

    /// The kind of the edges.
    pub fn kind(&self) -> KindId
        ensures { result.0 ≡ self.now.kind }
    {
        self.kind
    }

    /// How many slots have an edge.
    pub fn len(&self) -> usize
        ensures count { result ≡ length (edges_in self.now.slots) }
        ensures block { IsBlock self.now }
    {
        self.live.count_ones() as usize
    }

    /// Whether no slot has an edge.
    pub fn is_empty(&self) -> bool
        ensures { IsTrue result ↔ (edges_in self.now.slots ≡ []) }
    {
        self.live == 0
    }

    /// Whether no slot is free.
    pub fn is_full(&self) -> bool
        ensures { list_any is_free_slot self.now.slots ≡ not result }
    {
        self.live == u32::MAX
    }

    /// The edge to a target, where there is one.
    pub fn find(&self, target: u32) -> Option<EdgeRef<'_>>
        ensures edge { MatchOption result (stamp_at self.now.slots target ≡ None) (IsEdgeTo self.now target) }
        ensures in_range { IfSome result (λ edge. IsStamp (lent_edge edge).stamp) }
        ensures block { IsBlock self.now }
    {
        let place = find_target(&self.targets, self.live, target)?;
        Some(self.edge_at(place))
    }

    /// Empties the block, and gives it a source and a kind.
    pub fn clear_for(&mut self, source: VertexId, kind: KindId)
        ensures { self.new ≡ empty_block self.old.number source.0 kind.0 }
    {
        self.live = 0;
        self.kind = kind;
        self.source = source;
        self.targets = [0; SLOTS];
    }

    /// Takes over another block's source, kind and slots, and keeps its own number.
    pub fn copy_from(&mut self, other: &Block)
        ensures { self.new ≡ record other.now { number = self.old.number } }
    {
        self.live = other.live;
        self.kind = other.kind;
        self.source = other.source;
        self.times = other.times;
        self.targets = other.targets;
        let used = used_places(other.live);
        self.weights[..used].copy_from_slice(&other.weights[..used]);
        self.firsts[..used].copy_from_slice(&other.firsts[..used]);
        self.recents[..used].copy_from_slice(&other.recents[..used]);
    }

    /// Writes an edge over the slot of its target or, where there is none, into the lowest free slot.
    ///
    /// The target is there or a slot is free, the weight is from -2^40 to 2^40, and the times are below 2^63.
    pub fn put(&mut self, target: u32, weight: i64, first: u64, recent: u64)
        requires room { IsTrue (has_room_for target self.old.slots) }
        requires weight { IsWeight weight }
        requires first { IsTime first }
        requires recent { IsTime recent }
        ensures { self.new ≡ with_slots self.old (put_slot (edge_slot target weight first recent) self.old.slots) }
    {
        let place = self.place_for(target);
        let others = bounds_without(&self.recents, self.live, self.times, place);
        let times = widened(others, recent);
        self.times = times;
        self.targets[place] = target;
        self.weights[place] = weight;
        self.firsts[place] = first;
        self.recents[place] = recent;
        self.live |= 1 << place;
    }

    /// Takes the edge to a target out; `false` where there is none.
    pub fn take(&mut self, target: u32) -> bool
        ensures slots { self.new ≡ with_slots self.old (take_slot target self.old.slots) }
        ensures taken { result ≡ list_any (holds target) self.old.slots }
    {
        let Some(place) = find_target(&self.targets, self.live, target) else {
            return false;
        };
        let others = bounds_without(&self.recents, self.live, self.times, place);
        let times = others.unwrap_or(self.times);
        self.times = times;
        self.live &= !(1 << place);
        self.targets[place] = 0;
        true
    }

    /// Takes out the edges that were last touched before a time, and answers how many they were. It takes no memory.
    pub fn expire(&mut self, time: u64) -> u32
        ensures slots { self.new ≡ with_slots self.old (slots_since time self.old.slots) }
        ensures count { result ≡ old_in time self.old.slots }
    {
        let mut count = 0_u32;
        while let Some(target) = self.first_before(time) {
            let _taken = self.take(target);
            count = count.wrapping_add(1);
        }
        count
    }

    /// The target of an edge that was last touched before a time, where there is one.
    fn first_before(&self, time: u64) -> Option<u32>
        ensures edge { IsOld time self.now.slots result }
        ensures places { IfSome result (λ target. length self.now.slots ≡ 32) }
    {
        if time == 0 {
            return None;
        }
        let old = Filter {
            kind: None,
            lo: 0,
            hi: time - 1,
        };
        let mut edges = self.select(&old);
        let first = edges.next();
        match first {
            Some(edge) => Some(*edge.target),
            None => None,
        }
    }

    /// Whether the same slots of two blocks have edges, to the same targets.
    pub fn same_targets(&self, other: &Block) -> bool
        ensures { IsTrue result ↔ (targets_in self.now.slots ≡ targets_in other.now.slots) }
    {
        self.live == other.live && equal_columns(&self.targets, &other.targets)
    }

    /// The least and the greatest recent time, or `None` where the block has no edge.
    pub fn time_bounds(&self) -> Option<(u64, u64)>
        ensures { AreBoundsOf (map (λ edge. edge.stamp.recent) (edges_in self.now.slots)) result }
    {
        if self.live == 0 {
            None
        } else {
            Some(self.times)
        }
    }

    /// Whether an edge was last touched before a time: the header tells.
    pub fn has_before(&self, time: u64) -> bool
        ensures { result ≡ has_before time self.now.slots }
    {
        match self.time_bounds() {
            None => false,
            Some((least, _)) => least < time,
        }
    }

    /// Lends the edges of a view, in slot order: those of the filter's kind, if it names one, whose recent
    /// time is in the filter's window, both ends included.
    pub fn select(&self, view: &Filter) -> BlockIter<'_>
        ensures lends { edges_left result ≡ map lent_of (filter (in_view view.now) (entries_of self.now)) }
        ensures few { length (edges_left result) ≤ 32 }
        ensures in_range { All (λ edge. IsStamp edge.stamp) (edges_left result) }
        ensures block { IsBlock self.now }
    {
        BlockIter {
            block: self,
            mask: self.places_of(view),
        }
    }

    /// Adds the targets of a view's edges, in slot order, behind what `targets` has. Where many are at the block's first places, as
    /// in a block that nothing was taken from, they are copied at once. The only error is that memory for the list runs out; then
    /// the list may have some of them.
    pub fn list_targets(&self, view: &Filter, targets: &mut Vec<u32>) -> Result<(), AllocError>
        ensures { OnOk result (targets.new.items
            ≡ targets.old.items ++ map (λ e. e.0.target) (filter (in_view view.now) (entries_of self.now))) }
    {
        let mask = self.places_of(view);
        let used = used_places(mask & self.live);
        if used >= RUN && mask & self.live == first_places(used) {
            targets.extend_from_slice(&self.targets[..used])?;
        } else {
            for edge in (BlockIter { block: self, mask }) {
                targets.push(*edge.target)?;
            }
        }
        Ok(())
    }

    /// A mask that has, of the live places, those of a view's edges.
    fn places_of(&self, view: &Filter) -> u32
        ensures lends { map (lent_in self.now) (edges_in (selected result self.now.slots))
            ≡ map lent_of (filter (in_view view.now) (entries_of self.now)) }
        ensures few { length (map lent_of (filter (in_view view.now) (entries_of self.now))) ≤ 32 }
        ensures in_range { All (λ edge. IsStamp edge.stamp) (map lent_of (filter (in_view view.now) (entries_of self.now))) }
        ensures block { IsBlock self.now }
    {
        if takes(view, self.kind) {
            places_within(&self.recents, self.live, self.times, view.lo, view.hi)
        } else {
            0
        }
    }

    /// Where an edge to a target goes.
    fn place_for(&self, target: u32) -> usize
        requires { IsTrue (has_room_for target self.now.slots) }
        ensures within { result < 32 }
        ensures puts { (weight : ℤ) (first recent : ℕ) → put_slot (edge_slot target weight first recent) self.now.slots
            ≡ slice_set self.now.slots result (Some (edge_slot target weight first recent)) }
    {
        match find_target(&self.targets, self.live, target) {
            Some(place) => place,
            None => self.live.trailing_ones() as usize,
        }
    }

    /// What the columns have at a place.
    fn edge_at(&self, place: usize) -> EdgeRef<'_>
        requires within { place < 32 }
        requires has_edge { is_free_slot (slice_index_or self.now.slots place None) ≡ false }
        ensures kind { result.kind.0 ≡ self.now.kind }
        ensures edge { slice_index_or self.now.slots place None
            ≡ Some (edge_slot result.target.now result.weight.now result.first.now result.recent.now) }
    {
        EdgeRef {
            kind: self.kind,
            target: &self.targets[place],
            weight: &self.weights[place],
            first: &self.firsts[place],
            recent: &self.recents[place],
        }
    }
}

/// Whether the filter takes edges of a kind.
fn takes(view: &Filter, kind: KindId) -> bool
    ensures { result ≡ takes_kind view.now.kind kind.0 }
{
    match view.kind {
        None => true,
        Some(wanted) => wanted == kind,
    }
}

/// The edges of a view that a block has still to lend, in slot order.
#[derive(Clone, Debug, Drop)]
pub struct BlockIter<'a> {
    block: &'a Block,
    /// Of the places in the mask, those that are live are still to come.
    mask: u32,
}

impl<'a> Iterator for BlockIter<'a> {
    ghost use Rattle.std.specs.Iterator.{YieldsFirstBy, item_count};
    ghost use Rattle.edge_block.specs.Lending.{lent_edge, edges_left};

    type Item = EdgeRef<'a>;

    ghost next_gives = { YieldsFirstBy lent_edge edges_left };

    ghost remaining = { item_count edges_left };

    fn next(&mut self) -> Option<EdgeRef<'a>> {
        let block = self.block;
        let due = self.mask & block.live;
        if due == 0 {
            return None;
        }
        let place = due.trailing_zeros();
        self.mask = due & !(1 << place);
        Some(block.edge_at(place as usize))
    }
}
