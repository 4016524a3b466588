//! Halls of groups.

ghost use Rattle.std.specs.Prelude.{◌≡◌, ◌<◌, ◌^◌, ◌++◌, ◌∷◌, [], length, slice_get, option_copied, IfOk, OnOk, OnErr};
ghost use Rattle.graph_version.specs.Batches.{batch_value};
ghost use Rattle.graph_version.specs.BatchGroups.{in_groups, AreGroups};

use crate::batch_group::{BatchGroup, GROUP};
use graph_types::Batch;
use std::alloc::{AllocError, Global};
use std::marker::Model;
use std::sync::Arc;
use std::vec::VecCloneMethods;

/// How many groups stand in one hall.
const GROUPS: usize = 32;

/// At most 8,192 batches that follow one another, in groups of 256 that copies share.
pub(crate) struct BatchHall {
    len: usize,
    groups: Vec<Arc<BatchGroup>>,
}

// By hand, so that who lets one go need not take it apart.
impl Drop for BatchHall {
    fn drop(self) {
        let BatchHall {
            len: _len,
            groups: _groups,
        } = self;
    }
}

impl Model for BatchHall {
    ghost use Rattle.std.specs.Prelude.{◌≡◌, List, length};
    ghost use Rattle.graph_types.specs.declared.batches.NamedOp.{NamedOp};
    ghost use Rattle.graph_version.specs.BatchGroups.{in_groups, AreGroups};

    ghost Value = { List (List NamedOp) };

    ghost view = { λ hall. in_groups hall.groups.items };

    ghost invariant = { λ hall. (length (in_groups hall.groups.items) ≡ hall.len) × AreGroups hall.groups.items };
}

impl Clone for BatchHall {
    ghost is_clone = { λ hall copy. copy ≡ hall };

    // With room for all that a hall can have, so that the push behind a copy asks for no memory.
    fn clone(&self) -> Result<BatchHall, AllocError> {
        let mut groups = Vec::with_capacity(*self.groups.allocator(), GROUPS)?;
        VecCloneMethods::extend_from_slice(&mut groups, &self.groups)?;
        Ok(BatchHall {
            len: self.len,
            groups,
        })
    }
}

impl BatchHall {
    /// The hall of one batch.
    pub(crate) fn of(alloc: Global, batch: Arc<Batch>) -> Result<BatchHall, AllocError>
        ensures { IfOk result (λ hall. hall ≡ batch_value batch ∷ []) }
    {
        let mut hall = BatchHall {
            len: 0,
            groups: Vec::new(alloc),
        };
        hall.push(batch)?;
        Ok(hall)
    }

    /// The batch at a place.
    pub(crate) fn get(&self, place: usize) -> Option<&Batch>
        ensures { option_copied result ≡ slice_get self.now place }
    {
        self.groups.get(place / GROUP)?.get(place % GROUP)
    }

    /// One more batch: one group is made or copied, and every other is shared.
    pub(crate) fn push(&mut self, batch: Arc<Batch>) -> Result<(), AllocError>
        requires { length self.old < 2 ^ 32 }
        ensures pushed { OnOk result (self.new ≡ self.old ++ batch_value batch ∷ []) }
        ensures unchanged { OnErr result (self.new ≡ self.old) }
    {
        let alloc = *self.groups.allocator();
        add_to_groups(alloc, &mut self.groups, self.len, batch)?;
        self.len += 1;
        Ok(())
    }
}

/// One more batch after the last: in a new group where all are full, and otherwise in the last group, or in a copy of
/// it where other halls have it.
fn add_to_groups(
    alloc: Global,
    groups: &mut Vec<Arc<BatchGroup>>,
    len: usize,
    batch: Arc<Batch>,
) -> Result<(), AllocError>
    requires len { length (in_groups groups.old.items) ≡ len }
    requires groups { AreGroups groups.old.items }
    ensures added { OnOk result (in_groups groups.new.items ≡ in_groups groups.old.items ++ batch_value batch ∷ []) }
    ensures unchanged { OnErr result (in_groups groups.new.items ≡ in_groups groups.old.items) }
    ensures groups { AreGroups groups.new.items }
{
    if len % GROUP == 0 {
        let group = Arc::new(alloc, BatchGroup::of(alloc, batch)?)?;
        groups.push(group)?;
        return Ok(());
    }
    Arc::make_mut(&mut groups[len / GROUP])?.push(batch)
}
