//! The list and its calls.

ghost use Rattle.std.specs.Prelude.{◌≡◌, ◌<◌, ◌≤◌, ◌^◌, ◌++◌, ◌∷◌, [], length, slice_get, option_copied, List, IfOk};
ghost use Rattle.std.specs.Prelude.{MatchOption, OnOk, OnErr};
ghost use Rattle.graph_types.specs.declared.batches.NamedOp.{NamedOp};
ghost use Rattle.graph_version.specs.Batches.{batch_value};
ghost use Rattle.graph_version.specs.BatchHalls.{in_halls, AreHalls};

use crate::batch_hall::BatchHall;
use graph_types::Batch;
use std::alloc::{AllocError, Global};
use std::marker::Model;
use std::sync::Arc;

/// How many batches stand in one hall.
const HALL: usize = 8_192;

/// Batches in order, in halls of 8,192 that copies share.
pub struct BatchList {
    len: usize,
    halls: Vec<Arc<BatchHall>>,
}

// Written by hand: who lets one go rests on this function, and not on how each part is let go.
impl Drop for BatchList {
    fn drop(self) {
        let BatchList {
            len: _len,
            halls: _halls,
        } = self;
    }
}

impl Model for BatchList {
    ghost use Rattle.std.specs.Prelude.{◌≡◌, ◌<◌, ◌^◌, List, length};
    ghost use Rattle.graph_types.specs.declared.batches.NamedOp.{NamedOp};
    ghost use Rattle.graph_version.specs.BatchHalls.{in_halls, AreHalls};

    ghost Value = { List (List NamedOp) };

    ghost view = { λ list. in_halls list.halls.items };

    ghost invariant = { λ list. (length (in_halls list.halls.items) ≡ list.len) × AreHalls list.halls.items
        × (list.len < 2 ^ 64) };
}

impl BatchList {
    ghost use Rattle.graph_version.specs.BatchLending.{batches_left};

    /// A list without batches. It takes no memory.
    pub fn new(alloc: Global) -> BatchList
        ensures { result ≡ [] }
    {
        BatchList {
            len: 0,
            halls: Vec::new(alloc),
        }
    }

    /// How many batches there are.
    pub fn len(&self) -> usize
        ensures { result ≡ length self.now }
    {
        self.len
    }

    /// The batch at a place, if there are more batches than that.
    pub fn get(&self, place: usize) -> Option<&Batch>
        ensures batch { option_copied result ≡ slice_get self.now place }
        ensures few { length self.now < 2 ^ 64 }
    {
        self.halls.get(place / HALL)?.get(place % HALL)
    }

    /// The last batch.
    pub fn last(&self) -> Option<&Batch>
        ensures { MatchOption result (self.now ≡ []) (λ b. (others : List (List NamedOp)) × (self.now ≡ others ++ b.now ∷ [])) }
    {
        let place = self.len.checked_sub(1)?;
        self.get(place)
    }

    /// Lends the batches in order.
    pub fn iter(&self) -> BatchIter<'_>
        ensures { batches_left result ≡ self.now }
    {
        BatchIter {
            batches: self,
            place: 0,
        }
    }

    /// Adds a batch at the end: one page and the references of its group and hall are made or copied, and all else is
    /// shared. After a refused growth the list is as before.
    pub fn push(&mut self, batch: Arc<Batch>) -> Result<(), AllocError>
        requires { length self.old < 2 ^ 32 }
        ensures pushed { OnOk result (self.new ≡ self.old ++ batch_value batch ∷ []) }
        ensures unchanged { OnErr result (self.new ≡ self.old) }
    {
        let alloc = *self.halls.allocator();
        add_to_halls(alloc, &mut self.halls, self.len, batch)?;
        self.len += 1;
        Ok(())
    }

    /// An equal list, all of whose halls are shared: one reference for each 8,192 batches.
    pub fn share(&self) -> Result<BatchList, AllocError>
        ensures { IfOk result (λ copy. copy ≡ self.now) }
    {
        Ok(BatchList {
            len: self.len,
            halls: self.halls.clone()?,
        })
    }
}

/// One more batch after the last: in a new hall where all are full, and otherwise in the last hall, or in a copy
/// of it where other lists have it.
fn add_to_halls(
    alloc: Global,
    halls: &mut Vec<Arc<BatchHall>>,
    len: usize,
    batch: Arc<Batch>,
) -> Result<(), AllocError>
    requires len { length (in_halls halls.old.items) ≡ len }
    requires halls { AreHalls halls.old.items }
    ensures added { OnOk result (in_halls halls.new.items ≡ in_halls halls.old.items ++ batch_value batch ∷ []) }
    ensures unchanged { OnErr result (in_halls halls.new.items ≡ in_halls halls.old.items) }
    ensures halls { AreHalls halls.new.items }
{
    if len % HALL == 0 {
        let hall = Arc::new(alloc, BatchHall::of(alloc, batch)?)?;
        halls.push(hall)?;
        return Ok(());
    }
    Arc::make_mut(&mut halls[len / HALL])?.push(batch)
}

/// The batches of a list that are still to be lent, in order.
#[derive(Clone, Drop)]
pub struct BatchIter<'a> {
    batches: &'a BatchList,
    place: usize,
}

impl<'a> Iterator for BatchIter<'a> {
    ghost use Rattle.std.specs.Iterator.{YieldsFirstRef, item_count};
    ghost use Rattle.graph_version.specs.BatchLending.{batches_left};

    type Item = &'a Batch;

    ghost next_gives = { YieldsFirstRef batches_left };

    ghost remaining = { item_count batches_left };

    fn next(&mut self) -> Option<&'a Batch> {
        let batch = self.batches.get(self.place)?;
        self.place += 1;
        Some(batch)
    }
}
