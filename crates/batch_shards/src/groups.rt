//! The operations of a shard by the row of their source.

ghost use Rattle.std.specs.Prelude.{◌≡◌, ◌+◌, ◌≤◌, ◌<◌, ◌^◌, ◌==◌, ℕ, IfOk, IsTrue, List, length, get_or, cond, not};
ghost use Rattle.batch_shards.specs.Shards.{AreSteps};
ghost use Rattle.batch_shards.specs.Groups.{AreStepGroups, AreExpiries, IsNextStep, LeadsToStep, is_on_row, is_expiry, is_later};
ghost use Rattle.batch_shards.specs.Spending.{AreTimesReached, IsGrouped};

use crate::shard::{Act, Step};
use std::alloc::{AllocError, Global};

/// So few operations are looked through, and need no lists.
const FEW: usize = 4;

/// The places of the operations on each row, in the batch's order.
///
/// The number of all operations stands where there is no further one.
#[derive(Drop)]
pub struct Groups {
    /// For each row, the first operation on its edges.
    pub first: Vec<usize>,
    /// For each operation on an edge, the next one on the same row.
    pub next: Vec<usize>,
    /// For each place, and for the end, the first expiry that is not before it.
    pub expiries: Vec<usize>,
    /// For each place, the greatest time of the expiries up to it.
    pub reached: Vec<u64>,
}

impl Groups {
    /// The next operation on an edge of the row, behind the one at a place, where this was the last one found.
    pub fn edge_after(&self, place: usize, edge: usize) -> usize
        requires { place < length self.now.next.items }
        ensures { result ≡ cond (place == edge) (get_or self.now.next.items place 0) edge }
    {
        if place == edge {
            self.next[place]
        } else {
            edge
        }
    }

    /// From a place on an expiry, or else the number of all operations: no expiry between them is of a time later than
    /// this one. So a row that has no edge from before that time is not changed by the expiries between.
    ///
    /// It is found by a binary search, however many expiries there are, and without one where none is left.
    pub fn later_expiry(&self, place: usize, since: u64) -> usize
        requires place { place < length self.now.expiries.items }
        requires reached { length self.now.reached.items < length self.now.expiries.items }
        ensures { (steps : List Step) → AreExpiries 0 steps self.now.expiries.items
            → AreTimesReached steps self.now.reached.items → LeadsToStep (is_later since) is_expiry steps place result }
    {
        let next = self.expiries[place];
        if next == self.reached.len() {
            return next;
        }
        let first = self
            .reached
            .as_slice()
            .partition_point(|time| *time <= since);
        self.expiries[place.max(first)]
    }
}

/// The operations on so many rows, but none where they are few.
pub fn group_steps(alloc: Global, rows: usize, steps: &[Step]) -> Result<Option<Groups>, AllocError>
    requires { AreSteps rows steps.now }
    ensures { IfOk result (IsGrouped rows steps.now) }
{
    if steps.len() <= FEW {
        return Ok(None);
    }
    Ok(Some(groups_of(alloc, rows, steps)?))
}

/// The first operation on a row's edges, or else the number of all operations.
pub fn first_edge(groups: &Option<Groups>, steps: &[Step], row: usize) -> usize
    requires { (rows : ℕ) × (row < rows) × IsGrouped rows steps.now groups.now }
    ensures { IsNextStep (is_on_row row) steps.now 0 result }
{
    match groups {
        None => edge_from(steps, row, 0),
        Some(groups) => groups.first[row],
    }
}

/// The next operation on a row's edges behind a place, where this was the next one at the place.
pub fn edge_behind(
    groups: &Option<Groups>,
    steps: &[Step],
    row: usize,
    place: usize,
    edge: usize,
) -> usize
    requires groups { (rows : ℕ) × (row < rows) × IsGrouped rows steps.now groups.now }
    requires place { place < length steps.now }
    requires edge { IsNextStep (is_on_row row) steps.now place edge }
    ensures { IsNextStep (is_on_row row) steps.now (place + 1) result }
{
    match groups {
        None => edge_from(steps, row, place + 1),
        Some(groups) => groups.edge_after(place, edge),
    }
}

/// From a place on an expiry, or else the number of all operations, as `Groups::later_expiry`.
pub fn later_expiry(groups: &Option<Groups>, steps: &[Step], place: usize, since: u64) -> usize
    requires groups { (rows : ℕ) × IsGrouped rows steps.now groups.now }
    requires place { place ≤ length steps.now }
    ensures { LeadsToStep (is_later since) is_expiry steps.now place result }
{
    match groups {
        None => expiry_from(steps, place),
        Some(groups) => groups.later_expiry(place, since),
    }
}

/// The first operation on a row's edges that is not before a place, or else the number of all operations.
fn edge_from(steps: &[Step], row: usize, place: usize) -> usize
    requires { place ≤ length steps.now }
    ensures { IsNextStep (is_on_row row) steps.now place result }
{
    let mut next = place;
    while is_off(steps, row, next) {
        next += 1;
    }
    next
}

/// Whether there is an operation at a place that is on no edge of the row.
fn is_off(steps: &[Step], row: usize, place: usize) -> bool
    ensures within { IsTrue result → place < length steps.now }
    ensures off { (s : Step) → place < length steps.now → result ≡ not (is_on_row row (get_or steps.now place s).act) }
{
    place < steps.len() && !steps[place].is_on(row)
}

/// The first expiry that is not before a place, or else the number of all operations.
fn expiry_from(steps: &[Step], place: usize) -> usize
    requires { place ≤ length steps.now }
    ensures { IsNextStep is_expiry steps.now place result }
{
    let mut next = place;
    while is_edge(steps, next) {
        next += 1;
    }
    next
}

/// Whether there is an operation at a place that is no expiry.
fn is_edge(steps: &[Step], place: usize) -> bool
    ensures within { IsTrue result → place < length steps.now }
    ensures edge { (s : Step) → place < length steps.now → result ≡ not (is_expiry (get_or steps.now place s).act) }
{
    place < steps.len() && !steps[place].is_expiry()
}

/// The operations on so many rows.
fn groups_of(alloc: Global, rows: usize, steps: &[Step]) -> Result<Groups, AllocError>
    requires { AreSteps rows steps.now }
    ensures rows { IfOk result (λ g. length g.first.items ≡ rows) }
    ensures steps { IfOk result (λ g. length g.next.items ≡ length steps.now) }
    ensures groups { IfOk result (λ g. AreStepGroups 0 steps.now g.first.items g.next.items) }
    ensures expiries { IfOk result (λ g. AreExpiries 0 steps.now g.expiries.items) }
    ensures reached { IfOk result (λ g. AreTimesReached steps.now g.reached.items) }
{
    let expiries = expiries_of(alloc, steps)?;
    let reached = reached_by(alloc, steps)?;
    let mut first = vec![in alloc; steps.len(); rows]?;
    let mut next = vec![in alloc; steps.len(); steps.len()]?;
    let mut index = steps.len();
    while index > 0 {
        index -= 1;
        match steps[index].act {
            Act::Edge(Some(place), _) => {
                let row = place.row as usize;
                next[index] = first[row];
                first[row] = index;
            }
            Act::Edge(None, _) => {}
            Act::Expire(_) => {}
        }
    }
    Ok(Groups {
        first,
        next,
        expiries,
        reached,
    })
}

/// For each place, and for the end, the first expiry that is not before it.
fn expiries_of(alloc: Global, steps: &[Step]) -> Result<Vec<usize>, AllocError>
    requires { length steps.now < 2 ^ 63 }
    ensures { IfOk result (λ v. AreExpiries 0 steps.now v.items) }
{
    let mut expiries = vec![in alloc; steps.len(); steps.len() + 1]?;
    let mut index = steps.len();
    while index > 0 {
        index -= 1;
        let behind = expiries[index + 1];
        expiries[index] = if steps[index].is_expiry() {
            index
        } else {
            behind
        };
    }
    Ok(expiries)
}

/// For each place, the greatest time of the expiries up to it.
fn reached_by(alloc: Global, steps: &[Step]) -> Result<Vec<u64>, AllocError>
    ensures { IfOk result (λ v. AreTimesReached steps.now v.items) }
{
    let mut reached = Vec::with_capacity(alloc, steps.len())?;
    let mut latest = 0_u64;
    for step in steps {
        latest = latest.max(step.expiry_time());
        reached.push(latest)?;
    }
    Ok(reached)
}

/// The targets of the operations on a row, in order, but none where they are few.
pub fn targets_of(
    alloc: Global,
    groups: &Option<Groups>,
    steps: &[Step],
    row: usize,
) -> Result<Vec<u32>, AllocError>
    requires { (rows : ℕ) × (row < rows) × IsGrouped rows steps.now groups.now }
{
    match groups {
        None => Ok(Vec::new(alloc)),
        Some(groups) => targets_in(alloc, groups, steps, row),
    }
}

/// The targets of the operations on a row, in order.
fn targets_in(
    alloc: Global,
    groups: &Groups,
    steps: &[Step],
    row: usize,
) -> Result<Vec<u32>, AllocError>
    requires groups { AreStepGroups 0 steps.now groups.now.first.items groups.now.next.items }
    requires row { row < length groups.now.first.items }
    requires steps { length groups.now.next.items ≡ length steps.now }
{
    let mut targets = Vec::new(alloc);
    let mut index = groups.first[row];
    while index < steps.len() {
        if let Act::Edge(Some(place), _) = steps[index].act {
            targets.push(place.target)?;
        }
        index = groups.next[index];
    }
    Ok(targets)
}
