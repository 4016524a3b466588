//! Halls of groups.

ghost use Rattle.std.specs.Prelude.{◌≡◌, ◌<◌, ◌≤◌, ◌*◌, [], IfOk, OnOk, MatchOption, length, replicate, slice_index_or, slice_set};
ghost use Rattle.graph_version.specs.RowGroups.{in_groups, AreGroups, filled};
ghost use Rattle.graph_version.specs.Ages.{AreYoung};

use crate::row::Row;
use crate::row_group::Group;
use std::alloc::{AllocError, Global};
use std::marker::Model;
use std::sync::Arc;

/// How many rows stand in one group.
const GROUP: usize = 1_024;

/// How many rows stand in one hall.
const HALL: usize = 65_536;

/// The rows of 65,536 sources that follow one another, in groups that versions share. Groups behind the last one that has a
/// row aren't there.
pub(crate) struct Hall {
    groups: Vec<Arc<Group>>,
}

// By hand, so that who lets one go need not take it apart.
impl Drop for Hall {
    fn drop(self) {
        let Hall { groups: _groups } = self;
    }
}

impl Model for Hall {
    ghost use Rattle.std.specs.Prelude.{◌≤◌, List, length};
    ghost use Rattle.edge_block.specs.Slots.{BlockView};
    ghost use Rattle.graph_version.specs.RowGroups.{AreGroups, filled};

    ghost Value = { List (List BlockView) };

    ghost view = { λ hall. filled hall.groups.items };

    ghost invariant = { λ hall. AreGroups hall.groups.items × (length hall.groups.items ≤ 64) };
}

impl Clone for Hall {
    ghost is_clone = { λ hall copy. copy ≡ hall };

    fn clone(&self) -> Result<Hall, AllocError> {
        Ok(Hall {
            groups: self.groups.clone()?,
        })
    }
}

impl Hall {
    /// So many empty rows. It takes no memory.
    pub(crate) fn blank(alloc: Global) -> Hall
        ensures { result ≡ replicate 65536 [] }
    {
        Hall {
            groups: Vec::new(alloc),
        }
    }

    /// The row at a place; behind the last group there is none, which is an empty one.
    pub(crate) fn row(&self, place: usize) -> Option<&Row>
        requires { place < 65536 }
        ensures { MatchOption result (slice_index_or self.now place [] ≡ []) (λ r. r.now ≡ slice_index_or self.now place []) }
    {
        match self.groups.get(place / GROUP) {
            None => None,
            Some(group) => Some(group.row(place % GROUP)),
        }
    }

    /// How many rows from a place on have no edge from before a time, as `Part::young_from`.
    pub(crate) fn young_from(&self, place: usize, time: u64) -> usize
        requires { place < 65536 }
        ensures { AreYoung time self.now place result }
    {
        match self.groups.get(place / GROUP) {
            None => HALL - place,
            Some(group) => group.young_from(place % GROUP, time),
        }
    }

    /// Writes a row at a place, into copies of its group, page and part where other versions have them.
    pub(crate) fn put(&mut self, alloc: Global, place: usize, row: Row) -> Result<(), AllocError>
        requires { place < 65536 }
        ensures rows { OnOk result (self.new ≡ slice_set self.old place row) }
        ensures length { length self.new ≡ 65536 }
    {
        add_groups(alloc, &mut self.groups, place / GROUP + 1)?;
        put_in_group(&mut self.groups, place, row)
    }
}

/// Adds groups of empty rows up to a count.
fn add_groups(alloc: Global, groups: &mut Vec<Arc<Group>>, count: usize) -> Result<(), AllocError>
    requires groups { AreGroups groups.old.items }
    requires few { length groups.old.items ≤ 64 }
    requires count { count ≤ 64 }
    ensures enough { OnOk result (count ≤ length groups.new.items) }
    ensures same { filled groups.new.items ≡ filled groups.old.items }
    ensures groups { AreGroups groups.new.items }
    ensures few { length groups.new.items ≤ 64 }
{
    while groups.len() < count {
        let group = Arc::new(alloc, Group::blank(alloc)?)?;
        groups.push(group)?;
    }
    Ok(())
}

/// Writes a row into its group, into a copy of the group where other versions have it.
fn put_in_group(groups: &mut Vec<Arc<Group>>, place: usize, row: Row) -> Result<(), AllocError>
    requires groups { AreGroups groups.old.items }
    requires few { length groups.old.items ≤ 64 }
    requires place { place < length groups.old.items * 1024 }
    ensures rows { OnOk result (in_groups groups.new.items ≡ slice_set (in_groups groups.old.items) place row) }
    ensures groups { AreGroups groups.new.items }
    ensures few { length groups.new.items ≤ 64 }
{
    Arc::make_mut(&mut groups[place / GROUP])?.put(place % GROUP, row)
}
