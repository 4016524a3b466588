//! Insertions in columns, in batches.

ghost use Rattle.std.specs.Prelude.{◌≡◌, ◌⊎◌, ◌<◌, ◌≤◌, ◌+◌, ◌*◌, drop, length, count_by, true, List, IfOk, IfErr, OnErr, Some, MatchResult};
ghost use Rattle.graph_types.specs.Limits.{most_operations, operation_limit};
ghost use Rattle.graph_types.specs.declared.batches.NamedOp.{NamedOp};
ghost use Rattle.graph_version.specs.Batches.{batch_value};
ghost use Rattle.block_reclamation.specs.Status.{is_free};
ghost use Rattle.batch_columns.specs.Dictionaries.{insertion_at, insertions_from, IsInserted};
ghost use Rattle.desk_counts.specs.Counted.{none_counted, with_outcomes};
ghost use Rattle.desk_columns.specs.Feeding as specs;
ghost use Rattle.desk_columns.specs.Feeding.{columns_of, batch_length, most_parts, is_out_of_memory, BearsParts, Collects, IsFeedApplied, IsFirstRefusedRow, IsListing};
ghost use Rattle.desk_columns.specs.Feeding.{IsTried, RefusesBatch, RefusesNext, TakesFeed, TakesNext, Feeds};

use batch_apply::{KnownEnds, NameList};
use batch_columns::{InsertError, insert_numbers};
use desk::{Accepted, ApplyError};
use desk_counts::Counts;
use graph_types::{Batch, MOST_OPERATIONS, OPERATION_LIMIT, PushError};
use owned_desk::OwnedDesk;
use std::alloc::{AllocError, Global};
use std::sync::Arc;
use thiserror::Error;

/// How many times 4,096 insertions are applied at once, where as many blocks are free.
const MOST_PARTS: usize = 16;

/// Why insertions in columns were not all applied.
#[derive(Clone, Copy, Debug, PartialEq, Eq, Error)]
pub enum InsertColumnsError {
    #[error("the columns differ in length")]
    BadLength,
    #[error("{0}")]
    BadInsertion(InsertError),
    #[error("{0}")]
    Refused(ApplyError),
    #[error("out of memory")]
    OutOfMemory,
}

/// Insertions of one kind, whose vertices are numbers in a dictionary of names: the name of number n are the bytes of `text` from
/// `ends[n - 1]`, or from 0, to below `ends[n]`.
#[derive(Clone, Copy)]
pub struct Insertions<'a> {
    pub kind: &'a [u8],
    pub text: &'a [u8],
    pub ends: &'a [u64],
    pub sources: &'a [u32],
    pub targets: &'a [u32],
    pub weights: &'a [i64],
    pub times: &'a [u64],
}

/// Appends the insertion at a place, or changes nothing.
fn insert_at(
    alloc: Global,
    batch: &mut Batch,
    insertions: &Insertions<'_>,
    place: usize,
) -> Result<(), InsertError>
    requires within { place < length insertions.now.sources.now }
    requires alike { specs.are_alike_columns (columns_of insertions.now) ≡ true }
    ensures { IsInserted most_operations (insertion_at (columns_of insertions.now) place) batch.old batch.new result }
{
    insert_numbers(
        alloc,
        batch,
        MOST_OPERATIONS,
        insertions.kind,
        insertions.text,
        insertions.ends,
        insertions.sources[place],
        insertions.targets[place],
        insertions.weights[place],
        insertions.times[place],
    )
}

/// So many insertions from a place on, as a batch.
fn batch_of(
    alloc: Global,
    insertions: &Insertions<'_>,
    from: usize,
    count: usize,
) -> Result<Batch, InsertError>
    requires few { count ≤ most_operations }
    requires within { from + count ≤ length insertions.now.sources.now }
    requires alike { specs.are_alike_columns (columns_of insertions.now) ≡ true }
    ensures batch { IfOk result (λ ops. insertions_from (columns_of insertions.now) from count ≡ Some ops) }
    ensures refused { IfErr result (IsFirstRefusedRow (columns_of insertions.now) from count) }
{
    let mut batch = Batch::with_room(alloc, count);
    let mut place = from;
    while batch.len() < count {
        match insert_at(alloc, &mut batch, insertions, place) {
            Ok(()) => place += 1,
            Err(error) => return Err(error),
        }
    }
    Ok(batch)
}

/// Applies a batch, of whose ends this is known, to the desk as it is, or refuses it.
fn apply_once(
    desk: &mut OwnedDesk,
    batch: Arc<Batch>,
    listing: NameList<'_>,
) -> Result<Accepted, ApplyError>
    requires { IsListing (batch_value batch) listing }
    ensures { IsFeedApplied desk.old (batch_value batch) result desk.new }
{
    desk.apply_known(batch, &KnownEnds::Listed(listing))
}

/// Applies a batch; where too few blocks are free it collects, and tries once more with the same one.
fn apply_collecting(
    desk: &mut OwnedDesk,
    batch: Arc<Batch>,
    again: Arc<Batch>,
    listing: NameList<'_>,
) -> Result<Accepted, ApplyError>
    requires again { batch_value again ≡ batch_value batch }
    requires listed { IsListing (batch_value batch) listing }
    ensures { IsTried desk.old (batch_value batch) result desk.new }
{
    match apply_once(desk, batch, listing) {
        Ok(accepted) => Ok(accepted),
        Err(ApplyError::PoolEmpty { .. }) => {
            let _collected = desk.collect();
            apply_once(desk, again, listing)
        }
        Err(error) => Err(error),
    }
}

/// Counts what became of a batch that was accepted, and recycles the blocks that it replaced, so that the next one takes these.
fn count_and_collect(desk: &mut OwnedDesk, counts: &mut Counts, accepted: &Accepted)
    ensures counts { counts.new ≡ with_outcomes counts.old accepted.now.number accepted.now.outcomes }
    ensures collects { Collects desk.old desk.new }
{
    *counts = counts.with_all(accepted.number, accepted.outcomes.as_slice());
    let _collected = desk.collect();
}

/// Where the ends of the insertions from a place on stand in the dictionary.
fn listing_from<'a>(insertions: &Insertions<'a>, from: usize) -> NameList<'a>
    requires sources { from ≤ length insertions.now.sources.now }
    requires targets { from ≤ length insertions.now.targets.now }
    ensures sources { result.sources.now ≡ drop from insertions.now.sources.now }
    ensures targets { result.targets.now ≡ drop from insertions.now.targets.now }
{
    NameList {
        sources: &insertions.sources[from..],
        targets: &insertions.targets[from..],
        names: insertions.ends.len(),
    }
}

/// Applies the insertions of a batch of so many parts from a place on, counts them, collects, and tells how many they were.
#[tactic(auto, using(crate::proofs::Inserted::taken_of, crate::proofs::Inserted::refused_of))]
fn insert_batch(
    alloc: Global,
    desk: &mut OwnedDesk,
    insertions: &Insertions<'_>,
    from: usize,
    parts: usize,
    counts: &mut Counts,
) -> Result<usize, InsertColumnsError>
    requires few { parts ≤ most_parts }
    requires within { from ≤ length insertions.now.sources.now }
    requires alike { specs.are_alike_columns (columns_of insertions.now) ≡ true }
    ensures count { IfOk result (λ count. count ≡ batch_length parts (columns_of insertions.now) from) }
    ensures taken { IfOk result (λ count. (ops : List NamedOp) × (insertions_from (columns_of insertions.now) from count ≡ Some ops)
        × TakesFeed desk.old counts.old ops desk.new counts.new) }
    ensures refused { IfErr result (λ e. RefusesBatch parts (columns_of insertions.now) from desk.old e desk.new) }
    ensures unchanged { parts * operation_limit ≤ count_by is_free desk.old.desk.pool → OnErr result (desk.new ≡ desk.old) }
    ensures counts { OnErr result (counts.new ≡ counts.old) }
{
    let count = (parts * OPERATION_LIMIT).min(insertions.sources.len() - from);
    let batch = match batch_of(alloc, insertions, from, count) {
        Ok(batch) => batch,
        Err(error) => return Err(InsertColumnsError::BadInsertion(error)),
    };
    let Ok(batch) = Arc::new(alloc, batch) else {
        return Err(InsertColumnsError::OutOfMemory);
    };
    let Ok(again) = Arc::try_clone(&batch) else {
        return Err(InsertColumnsError::OutOfMemory);
    };
    match apply_collecting(desk, batch, again, listing_from(insertions, from)) {
        Ok(accepted) => {
            count_and_collect(desk, counts, &accepted);
            Ok(count)
        }
        Err(error) => Err(InsertColumnsError::Refused(error)),
    }
}

/// How many parts the desk takes at once of so many insertions, by its free blocks.
fn parts_for(desk: &OwnedDesk, count: usize) -> usize
    ensures { BearsParts desk.now result }
{
    let free = desk.desk().stat().free as usize;
    (free / OPERATION_LIMIT)
        .min(count.div_ceil(OPERATION_LIMIT))
        .min(MOST_PARTS)
        .max(1)
}

/// Whether a refusal says no more than that memory ran out.
fn is_out_of_memory(error: InsertColumnsError) -> bool
    ensures { result ≡ is_out_of_memory error }
{
    matches!(
        error,
        InsertColumnsError::OutOfMemory
            | InsertColumnsError::Refused(ApplyError::OutOfMemory)
            | InsertColumnsError::BadInsertion(InsertError::Refused(PushError::OutOfMemory))
    )
}

/// Applies the next insertions, and tells how many: in a batch of several parts where the desk bears it, and else of one part. Once
/// a batch of several parts was refused, and not because memory ran out, `is_small` says that all others have one part, so that as many
/// insertions as can be are in before one that is refused.
fn insert_next(
    alloc: Global,
    desk: &mut OwnedDesk,
    insertions: &Insertions<'_>,
    from: usize,
    is_small: &mut bool,
    counts: &mut Counts,
) -> Result<usize, InsertColumnsError>
    requires within { from < length insertions.now.sources.now }
    requires alike { specs.are_alike_columns (columns_of insertions.now) ≡ true }
    ensures taken { IfOk result (λ count. TakesNext (columns_of insertions.now) from count desk.old counts.old desk.new counts.new) }
    ensures refused { IfErr result (λ e. RefusesNext (columns_of insertions.now) from desk.old e desk.new) }
    ensures counts { OnErr result (counts.new ≡ counts.old) }
{
    let most = parts_for(desk, insertions.sources.len() - from);
    if most > 1 && !*is_small {
        match insert_batch(alloc, desk, insertions, from, most, counts) {
            Ok(count) => return Ok(count),
            Err(error) => {
                if is_out_of_memory(error) {
                    return Err(error);
                }
            }
        }
        *is_small = true;
    }
    insert_batch(alloc, desk, insertions, from, 1, counts)
}

/// Whether the columns have one length.
fn are_alike(insertions: &Insertions<'_>) -> bool
    ensures { result ≡ specs.are_alike_columns (columns_of insertions.now) }
{
    let count = insertions.sources.len();
    insertions.targets.len() == count
        && insertions.weights.len() == count
        && insertions.times.len() == count
}

/// Nothing is counted yet of a desk.
fn none_of(desk: &OwnedDesk) -> Counts
    ensures { result ≡ none_counted (length desk.now.desk.last.batches) }
{
    Counts::none(desk.desk().last().number())
}

/// Applies insertions batch after batch, as [`insert_columns`].
fn insert_all(
    alloc: Global,
    desk: &mut OwnedDesk,
    insertions: &Insertions<'_>,
    counts: &mut Counts,
    done: &mut u64,
) -> Result<(), InsertColumnsError>
    ensures { Feeds desk.old (columns_of insertions.now) result desk.new counts.new done.new }
{
    *counts = none_of(desk);
    *done = 0;
    if !are_alike(insertions) {
        return Err(InsertColumnsError::BadLength);
    }
    let count = insertions.sources.len();
    let mut at = 0;
    let mut is_small = false;
    while at < count {
        match insert_next(alloc, desk, insertions, at, &mut is_small, counts) {
            Ok(more) => at += more,
            Err(error) => return Err(error),
        }
        *done = at as u64;
    }
    Ok(())
}

/// For how many of a desk's free blocks the memory is kept: a quarter of the used ones, and at least 4,096.
fn spare_blocks(desk: &OwnedDesk) -> usize {
    let used = desk.desk().stat().used as usize;
    (used / 4).max(OPERATION_LIMIT)
}

/// Applies insertions in batches of up to 65,536: as many times 4,096 as there are free blocks for, or 4,096 after a collection where
/// there are fewer. Behind each batch it collects. A batch that is refused is tried again in parts of 4,096, unless memory ran out.
/// `done` tells how many insertions were applied, also after a refusal, and `counts` what became of them; the first that is refused,
/// and those of its part, are not in. In the end the memory of free blocks is given up, but for 4,096 of them, or for a quarter as
/// many as are used.
pub fn insert_columns(
    alloc: Global,
    desk: &mut OwnedDesk,
    insertions: &Insertions<'_>,
    counts: &mut Counts,
    done: &mut u64,
) -> Result<(), InsertColumnsError>
    ensures { Feeds desk.old (columns_of insertions.now) result desk.new counts.new done.new }
{
    let answer = insert_all(alloc, desk, insertions, counts, done);
    desk.slim(spare_blocks(desk));
    answer
}
