//! The edges of many rows in columns.

ghost use Rattle.std.specs.Prelude.{◌≡◌, ◌-◌, ◌≤◌, length, replicate};
ghost use Rattle.version_columns.specs.Rows.{columns, AreLong, with_values, AreRowsFrom, WrittenRows, edge_columns, WritesEdges};

use crate::rows::{are_long, count_blocks, write_blocks};
use crate::views::{ColumnError, View, filter_of};
use graph_types::{Filter, VertexId};
use graph_version::Version;

/// How far rows were written: the first source that isn't in, and how many edges are.
#[derive(Clone, Copy, Debug, PartialEq, Eq)]
struct Written {
    next: u32,
    count: usize,
}

/// Writes a number at so many places from one on.
fn fill(column: &mut [u32], at: usize, end: usize, number: u32)
    requires order { at ≤ end }
    requires room { end ≤ length column.old }
    ensures { column.new ≡ with_values at (replicate (end - at) number) column.old }
{
    for place in at..end {
        column[place] = number;
    }
}

/// Writes the rows of the sources from one on, each whole, as many as there is room for.
fn write_rows(
    version: &Version,
    view: &Filter,
    source: u32,
    kinds: &mut [u32],
    sources: &mut [u32],
    targets: &mut [u32],
    weights: &mut [i64],
    firsts: &mut [u64],
    recents: &mut [u64],
) -> Written
    requires long { AreLong (length kinds.old) (columns kinds.old targets.old weights.old firsts.old recents.old) }
    requires sources { length sources.old ≡ length kinds.old }
    ensures rows { AreRowsFrom view.now version.now source result.next (length kinds.old) result.count }
    ensures written { WrittenRows view.now version.now source result.next
        (columns kinds.old targets.old weights.old firsts.old recents.old)
        (columns kinds.new targets.new weights.new firsts.new recents.new) sources.old sources.new }
{
    let vertices = version.names().len();
    let mut next = source;
    let mut count = 0;
    while (next as usize) < vertices {
        let blocks = version.row_blocks(VertexId(next));
        if count_blocks(blocks, view) > kinds.len() - count {
            break;
        }
        let end = write_blocks(
            blocks, view, count, kinds, targets, weights, firsts, recents,
        );
        fill(sources, count, end, next);
        count = end;
        next += 1;
    }
    Written { next, count }
}

/// Writes the edges that the view lets through of the sources from `*source` on, source by source, each one's whole row, as
/// many as the columns hold. `count` tells how many were written, and `*source` is then the first source that isn't in.
///
/// `NoKind`; `BadLength` where the columns differ in length, or where not even the next row that has an edge fits: then `count`
/// tells how long it is, and `*source` stays. It takes no memory.
pub fn write_edges(
    version: &Version,
    view: &View,
    source: &mut u32,
    kinds: &mut [u32],
    sources: &mut [u32],
    targets: &mut [u32],
    weights: &mut [i64],
    firsts: &mut [u64],
    recents: &mut [u64],
    count: &mut u64,
) -> Result<(), ColumnError>
    ensures { WritesEdges version.now view.now
        (edge_columns source.old sources.old (columns kinds.old targets.old weights.old firsts.old recents.old))
        (edge_columns source.new sources.new (columns kinds.new targets.new weights.new firsts.new recents.new)) count.new result }
{
    let Some(filter) = filter_of(version, view) else {
        return Err(ColumnError::NoKind);
    };
    let room = kinds.len();
    if sources.len() != room || !are_long(room, kinds, targets, weights, firsts, recents) {
        return Err(ColumnError::BadLength);
    }
    let from = *source;
    let written = write_rows(
        version, &filter, from, kinds, sources, targets, weights, firsts, recents,
    );
    if written.count == 0 && (written.next as usize) < version.names().len() {
        *count = count_blocks(version.row_blocks(VertexId(written.next)), &filter) as u64;
        return Err(ColumnError::BadLength);
    }
    *count = written.count as u64;
    *source = written.next;
    Ok(())
}
