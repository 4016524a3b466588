//! What became of edges in columns.

ghost use Rattle.std.specs.Prelude.{◌≡◌, ◌≤◌, length, true};
ghost use Rattle.version_diff.specs.Columns as diff;
ghost use Rattle.version_diff.specs.Columns.{diff_columns, mark_columns, are_as_long, have_one_length, with_differences, WritesDifferences, diff_table};

use crate::pairs::VersionPair;
use crate::rows::EdgeDifference;
use crate::sources::{Found, find_differences};
use graph_types::Filter;
use std::alloc::Global;
use thiserror::Error;

/// Why nothing was written.
#[derive(Clone, Copy, Debug, PartialEq, Eq, Error)]
pub enum DiffError {
    #[error("columns differ in length, or have no room")]
    BadLength,
    #[error("out of memory")]
    OutOfMemory,
}

/// Whether columns of what edges bear have a length.
fn are_marks_long(length: usize, weights: &[i64], firsts: &[u64], recents: &[u64]) -> bool
    ensures { result ≡ diff.are_marks_long length (mark_columns weights.now firsts.now recents.now) }
{
    weights.len() == length && firsts.len() == length && recents.len() == length
}

/// Whether all columns have the length of the states.
fn are_all_long(
    length: usize,
    kinds: &[u32],
    sources: &[u32],
    targets: &[u32],
    weights_before: &[i64],
    firsts_before: &[u64],
    recents_before: &[u64],
    weights_after: &[i64],
    firsts_after: &[u64],
    recents_after: &[u64],
) -> bool
    ensures { result ≡ are_as_long length kinds.now sources.now targets.now
        (mark_columns weights_before.now firsts_before.now recents_before.now) (mark_columns weights_after.now firsts_after.now recents_after.now) }
{
    kinds.len() == length
        && sources.len() == length
        && targets.len() == length
        && are_marks_long(length, weights_before, firsts_before, recents_before)
        && are_marks_long(length, weights_after, firsts_after, recents_after)
}

/// Writes what became of edges, one after another.
fn write_each(
    differences: &[EdgeDifference],
    states: &mut [u8],
    kinds: &mut [u32],
    sources: &mut [u32],
    targets: &mut [u32],
    weights_before: &mut [i64],
    firsts_before: &mut [u64],
    recents_before: &mut [u64],
    weights_after: &mut [i64],
    firsts_after: &mut [u64],
    recents_after: &mut [u64],
)
    requires long { have_one_length (diff_columns states.old kinds.old sources.old targets.old
        (mark_columns weights_before.old firsts_before.old recents_before.old) (mark_columns weights_after.old firsts_after.old recents_after.old)) ≡ true }
    requires room { length differences.now ≤ length states.old }
    ensures { diff_columns states.new kinds.new sources.new targets.new
        (mark_columns weights_before.new firsts_before.new recents_before.new) (mark_columns weights_after.new firsts_after.new recents_after.new)
        ≡ with_differences 0 differences.now (diff_columns states.old kinds.old sources.old targets.old
        (mark_columns weights_before.old firsts_before.old recents_before.old) (mark_columns weights_after.old firsts_after.old recents_after.old)) }
{
    for (at, difference) in differences.iter().enumerate() {
        states[at] = difference.state;
        kinds[at] = difference.kind;
        sources[at] = difference.source;
        targets[at] = difference.target;
        weights_before[at] = difference.before.weight;
        firsts_before[at] = difference.before.first;
        recents_before[at] = difference.before.recent;
        weights_after[at] = difference.after.weight;
        firsts_after[at] = difference.after.first;
        recents_after[at] = difference.after.recent;
    }
}

/// Writes what became of the edges that the filter lets through, in each version by itself, of the sources from `*source` on, source
/// by source, as many whole sources as the columns hold. Of a source come first the edges that are gone, in the order of the earlier
/// row, then those that are new or changed, in the order of the later one. `count` tells how many were written, and `*source` is
/// then the first source that isn't in.
///
/// An edge that the filter lets through in one version alone counts as gone, or as new. Where there is no edge before, or after, the
/// numbers written there are 0.
///
/// `BadLength` where the columns differ in length, or where not even what became of the next source's edges fits: then `count` tells
/// how many they are. `OutOfMemory`: it takes memory for what it finds, and for copies of the references of blocks that differ.
/// `*source` and the columns stay with either.
pub fn write_differences(
    alloc: Global,
    pair: &VersionPair,
    view: &Filter,
    source: &mut u32,
    states: &mut [u8],
    kinds: &mut [u32],
    sources: &mut [u32],
    targets: &mut [u32],
    weights_before: &mut [i64],
    firsts_before: &mut [u64],
    recents_before: &mut [u64],
    weights_after: &mut [i64],
    firsts_after: &mut [u64],
    recents_after: &mut [u64],
    count: &mut u64,
) -> Result<(), DiffError>
    ensures { WritesDifferences view.now pair.now
        (diff_table source.old (diff_columns states.old kinds.old sources.old targets.old
        (mark_columns weights_before.old firsts_before.old recents_before.old) (mark_columns weights_after.old firsts_after.old recents_after.old)))
        (diff_table source.new (diff_columns states.new kinds.new sources.new targets.new
        (mark_columns weights_before.new firsts_before.new recents_before.new) (mark_columns weights_after.new firsts_after.new recents_after.new)))
        count.new result }
{
    let room = states.len();
    if !are_all_long(
        room,
        kinds,
        sources,
        targets,
        weights_before,
        firsts_before,
        recents_before,
        weights_after,
        firsts_after,
        recents_after,
    ) {
        return Err(DiffError::BadLength);
    }
    let Ok(found) = find_differences(alloc, pair, view, *source, room) else {
        return Err(DiffError::OutOfMemory);
    };
    match found {
        Found::TooLong(length) => {
            *count = length as u64;
            Err(DiffError::BadLength)
        }
        Found::Whole(differences, next) => {
            write_each(
                &differences,
                states,
                kinds,
                sources,
                targets,
                weights_before,
                firsts_before,
                recents_before,
                weights_after,
                firsts_after,
                recents_after,
            );
            *count = differences.len() as u64;
            *source = next;
            Ok(())
        }
    }
}
