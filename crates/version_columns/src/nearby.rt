//! The vertices that walks lead to, in columns.

ghost use Rattle.std.specs.Prelude.{◌≡◌, ◌≤◌, ℕ, length};
ghost use Rattle.version_columns.specs.Nearby.{WritesNear, WritesWithin, near_columns, with_rows};
ghost use Rattle.version_columns.specs.Nearby as specs;

use crate::views::{ColumnError, NO_NUMBER, View, filter_of};
use graph_levels::{Along, Steps, near_over};
use graph_types::VertexId;
use graph_version::{Version, VersionEdges};
use graph_walks::{Against, EitherWay, Incoming};
use std::alloc::Global;

/// Which way walks go along the edges of a version: from source to target, from target to source, or either way.
#[derive(Clone, Copy)]
pub enum Ways<'v> {
    Along(&'v Version),
    Against(&'v Incoming),
    EitherWay(&'v Incoming),
}

/// Whether all are vertices, of which there are so many.
fn are_vertices(sources: &[u32], count: usize) -> bool
    ensures { result ≡ specs.are_vertices count sources.now }
{
    for source in sources {
        if *source as usize >= count {
            return false;
        }
    }
    true
}

/// The bound on steps of a number.
fn bound_in(steps: u32) -> Option<u32>
    ensures { result ≡ specs.bound_in steps }
{
    if steps == NO_NUMBER {
        None
    } else {
        Some(steps)
    }
}

/// Writes rows to columns that have room.
fn put_rows(rows: &[(VertexId, u32)], vertices: &mut [u32], levels: &mut [u32])
    requires vertices { length rows.now ≤ length vertices.old }
    requires levels { length levels.old ≡ length vertices.old }
    ensures { near_columns vertices.new levels.new ≡ with_rows rows.now (near_columns vertices.old levels.old) }
{
    for place in 0..rows.len() {
        let row = rows[place];
        vertices[place] = row.0.0;
        levels[place] = row.1;
    }
}

/// Writes what walks over these steps reach.
fn write_near<S: Steps>(
    alloc: Global,
    steps: &S,
    sources: &[u32],
    most: Option<u32>,
    vertices: &mut [u32],
    levels: &mut [u32],
    count: &mut u64,
) -> Result<(), ColumnError>
    ensures { WritesNear (S.vertices steps.now) (S.leads steps.now) sources.now most (near_columns vertices.old levels.old)
        (near_columns vertices.new levels.new) count.new result }
{
    if !are_vertices(sources, steps.vertex_count()) {
        return Err(ColumnError::NoVertex);
    }
    if levels.len() != vertices.len() {
        return Err(ColumnError::BadLength);
    }
    let Ok(rows) = near_over(alloc, steps, sources, most) else {
        return Err(ColumnError::OutOfMemory);
    };
    *count = rows.len() as u64;
    if rows.len() > vertices.len() {
        return Err(ColumnError::BadLength);
    }
    put_rows(&rows, vertices, levels);
    Ok(())
}

/// Writes the vertices that walks of at most so many steps reach from any of the sources, or of any length where that is
/// [`NO_NUMBER`], in number order, each with the least number of steps, and tells how many these are. A source may stand more
/// than once.
///
/// `NoKind`, `NoVertex` where a source is none, `BadLength` where the columns differ in length, or have fewer places than that:
/// then nothing is written, and `count` is told. Or out of memory.
pub fn write_within(
    alloc: Global,
    ways: &Ways<'_>,
    view: &View,
    sources: &[u32],
    steps: u32,
    vertices: &mut [u32],
    levels: &mut [u32],
    count: &mut u64,
) -> Result<(), ColumnError>
    ensures { WritesWithin (specs.walked_version ways.now) (specs.step_in ways.now) view.now sources.now steps
        (near_columns vertices.old levels.old) (near_columns vertices.new levels.new) count.new result }
{
    let version = walked_version(ways);
    let Some(filter) = filter_of(version, view) else {
        return Err(ColumnError::NoKind);
    };
    let most = bound_in(steps);
    match *ways {
        Ways::Along(version) => {
            let edges = VersionEdges { version, filter };
            let along = Along { edges: &edges };
            write_near(alloc, &along, sources, most, vertices, levels, count)
        }
        Ways::Against(incoming) => {
            let against = Against { incoming, filter };
            write_near(alloc, &against, sources, most, vertices, levels, count)
        }
        Ways::EitherWay(incoming) => {
            let either = EitherWay { incoming, filter };
            write_near(alloc, &either, sources, most, vertices, levels, count)
        }
    }
}

/// The version over whose edges walks go.
fn walked_version<'v>(ways: &Ways<'v>) -> &'v Version
    ensures { result.now ≡ specs.walked_version ways.now }
{
    match *ways {
        Ways::Along(version) => version,
        Ways::Against(incoming) => incoming.version(),
        Ways::EitherWay(incoming) => incoming.version(),
    }
}
