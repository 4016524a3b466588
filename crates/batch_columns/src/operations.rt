//! Operations of any sort, in columns.

ghost use Rattle.std.specs.Prelude.{◌≡◌, ◌≤◌, ◌<◌, ◌&&◌, length, take, true, IsTrue, OnOk, OnErr, IfErr, MatchResult, Ok, Err};
ghost use Rattle.graph_types.specs.Limits.{most_operations};
ghost use Rattle.batch_columns.specs.Dictionaries.{IsInserted};
ghost use Rattle.batch_columns.specs.Operations.{table_of, edge_operation_at, operation_at, IsExtended, RefusesOperations};
ghost use Rattle.batch_columns.specs.Operations as specs;

use crate::bytes::{push_add, push_expire, push_insert, push_remove};
use crate::columns::{InsertError, name_at};
use graph_types::{Batch, PushError};
use std::alloc::Global;
use thiserror::Error;

/// The sorts of operations, as a column has them.
pub const INSERT: u8 = 0;

pub const ADD: u8 = 1;

pub const REMOVE: u8 = 2;

pub const EXPIRE: u8 = 3;

/// Why operations in columns were not appended.
#[derive(Clone, Copy, Debug, PartialEq, Eq, Error)]
pub enum OperationsError {
    #[error("the columns differ in length")]
    BadLength,
    #[error("{0}")]
    Refused(InsertError),
    #[error("out of memory")]
    OutOfMemory,
}

/// Operations, one at each place of six columns. Kinds, and sources and targets, are numbers in dictionaries of names: the name of
/// number n are the bytes of the text from where the name before it ends, or from 0, to below where it ends. An expiry has a time
/// alone, and a removal has neither weight nor time: what stands there in the other columns isn't looked at.
#[derive(Clone, Copy)]
pub struct Operations<'a> {
    pub kind_text: &'a [u8],
    pub kind_ends: &'a [u64],
    pub text: &'a [u8],
    pub ends: &'a [u64],
    pub sorts: &'a [u8],
    pub kinds: &'a [u32],
    pub sources: &'a [u32],
    pub targets: &'a [u32],
    pub weights: &'a [i64],
    pub times: &'a [u64],
}

/// A pushed operation's answer, as that of an operation in columns.
fn told(answer: Result<(), PushError>) -> Result<(), InsertError>
    ensures { MatchResult answer (λ done. result ≡ Ok done) (λ error. result ≡ Err (InsertError.Refused error)) }
{
    match answer {
        Ok(()) => Ok(()),
        Err(error) => Err(InsertError::Refused(error)),
    }
}

/// Appends the operation on an edge at a place, or changes nothing.
fn push_edge(
    alloc: Global,
    batch: &mut Batch,
    limit: usize,
    operations: &Operations<'_>,
    place: usize,
) -> Result<(), InsertError>
    requires limit { limit ≤ most_operations }
    requires within { place < length operations.now.sorts.now }
    requires alike { specs.are_alike (table_of operations.now) ≡ true }
    ensures { IsInserted limit (edge_operation_at (table_of operations.now) place) batch.old batch.new result }
{
    let Some(kind) = name_at(
        operations.kind_text,
        operations.kind_ends,
        operations.kinds[place],
    ) else {
        return Err(InsertError::BadNumber);
    };
    let Some(source) = name_at(operations.text, operations.ends, operations.sources[place]) else {
        return Err(InsertError::BadNumber);
    };
    let Some(target) = name_at(operations.text, operations.ends, operations.targets[place]) else {
        return Err(InsertError::BadNumber);
    };
    let (weight, time) = (operations.weights[place], operations.times[place]);
    match operations.sorts[place] {
        INSERT => told(push_insert(alloc, batch, limit, kind, source, target, weight, time)),
        ADD => told(push_add(alloc, batch, limit, kind, source, target, weight, time)),
        REMOVE => told(push_remove(alloc, batch, limit, kind, source, target)),
        _ => Err(InsertError::BadNumber),
    }
}

/// Appends the operation at a place, or changes nothing.
fn push_at(
    alloc: Global,
    batch: &mut Batch,
    limit: usize,
    operations: &Operations<'_>,
    place: usize,
) -> Result<(), InsertError>
    requires limit { limit ≤ most_operations }
    requires within { place < length operations.now.sorts.now }
    requires alike { specs.are_alike (table_of operations.now) ≡ true }
    ensures { IsInserted limit (operation_at (table_of operations.now) place) batch.old batch.new result }
{
    if operations.sorts[place] == EXPIRE {
        return told(push_expire(batch, limit, operations.times[place]));
    }
    push_edge(alloc, batch, limit, operations, place)
}

/// Whether the columns have one length.
pub fn are_alike(operations: &Operations<'_>) -> bool
    ensures { result ≡ specs.are_alike (table_of operations.now) }
{
    let count = operations.sorts.len();
    operations.kinds.len() == count
        && operations.sources.len() == count
        && operations.targets.len() == count
        && operations.weights.len() == count
        && operations.times.len() == count
}

/// Gives an empty batch room for so many operations, where there is memory for it.
fn make_room(alloc: Global, batch: &mut Batch, count: usize)
    ensures { batch.new ≡ batch.old }
{
    if batch.is_empty() {
        *batch = Batch::with_room(alloc, count);
    }
}

/// Appends the operations from a place on, until there are no more, or the batch has as many as the limit, or one is refused. Its own
/// stay in front.
fn push_from(
    alloc: Global,
    batch: &mut Batch,
    limit: usize,
    operations: &Operations<'_>,
    done: &mut u64,
) -> Result<(), OperationsError>
    requires limit { limit ≤ most_operations }
    requires alike { specs.are_alike (table_of operations.now) ≡ true }
    ensures extended { OnOk result (IsExtended limit (table_of operations.now) done.old batch.old done.new batch.new) }
    ensures refused { IfErr result (RefusesOperations limit (table_of operations.now) done.old batch.old done.new) }
    ensures own { take (length batch.old) batch.new ≡ batch.old }
{
    let count = operations.sorts.len();
    let mut place = *done as usize;
    make_room(alloc, batch, count.saturating_sub(place).min(limit));
    while batch.len() < limit && place < count {
        match push_at(alloc, batch, limit, operations, place) {
            Ok(()) => place += 1,
            Err(InsertError::Refused(PushError::OutOfMemory)) => {
                return Err(OperationsError::OutOfMemory);
            }
            Err(error) => {
                *done = place as u64;
                return Err(OperationsError::Refused(error));
            }
        }
    }
    *done = place as u64;
    Ok(())
}

/// Appends the operations from place `done` on: as many as there are, and as the batch has room for if it may have as many as the
/// limit. `done` becomes the first place that isn't in.
///
/// Where an operation is refused, `done` becomes the place of the first that is; where memory runs out it stays as it was, so that
/// the same call can be made again. The batch is as it was then.
///
/// ```
/// let mut done = 0;
/// append_operations(alloc, &mut batch, OPERATION_LIMIT, &operations, &mut done)?;
/// ```
pub fn append_operations(
    alloc: Global,
    batch: &mut Batch,
    limit: usize,
    operations: &Operations<'_>,
    done: &mut u64,
) -> Result<(), OperationsError>
    requires { limit ≤ most_operations }
    ensures extended { OnOk result (IsExtended limit (table_of operations.now) done.old batch.old done.new batch.new) }
    ensures refused { IfErr result (RefusesOperations limit (table_of operations.now) done.old batch.old done.new) }
    ensures unchanged { OnErr result (batch.new ≡ batch.old) }
{
    if !are_alike(operations) {
        return Err(OperationsError::BadLength);
    }
    let own = batch.len();
    let answer = push_from(alloc, batch, limit, operations, done);
    if answer.is_err() {
        batch.truncate(own);
    }
    answer
}
