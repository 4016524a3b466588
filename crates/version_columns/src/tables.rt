//! Tables, one value for each vertex.

ghost use Rattle.std.specs.Prelude.{◌≡◌, length, map, unwrap_or};
ghost use Rattle.graph_version.specs.Versions.{content};
ghost use Rattle.version_columns.specs.Tables.{WritesCores, WritesLabels, WritesLevels, WritesDegrees, degree_columns};
ghost use Rattle.version_columns.specs.Views.{no_number};

use crate::views::{ColumnError, NO_NUMBER, View, filter_of};
use graph_cores::{cores, degrees};
use graph_levels::{labels_over, levels};
use graph_types::{Degree, VertexId};
use graph_version::{Version, VersionEdges};
use std::alloc::Global;

/// Writes the core number of each vertex (Seidman 1983) over the view, into as many places as there are vertices.
/// `NoKind`, `BadLength`, or out of memory.
pub fn write_cores(
    alloc: Global,
    version: &Version,
    view: &View,
    column: &mut [u32],
) -> Result<(), ColumnError>
    ensures { WritesCores (content version.now) view.now column.old column.new result }
{
    let Some(filter) = filter_of(version, view) else {
        return Err(ColumnError::NoKind);
    };
    if column.len() != version.names().len() {
        return Err(ColumnError::BadLength);
    }
    let Ok(found) = cores(alloc, version, &filter) else {
        return Err(ColumnError::OutOfMemory);
    };
    column.copy_from_slice(&found);
    Ok(())
}

/// Writes for each vertex the least vertex that edges of the view join it to, whatever their direction.
/// `NoKind`, `BadLength`, or out of memory.
pub fn write_labels(
    alloc: Global,
    version: &Version,
    view: &View,
    column: &mut [u32],
) -> Result<(), ColumnError>
    ensures { WritesLabels (content version.now) view.now column.old column.new result }
{
    let Some(filter) = filter_of(version, view) else {
        return Err(ColumnError::NoKind);
    };
    if column.len() != version.names().len() {
        return Err(ColumnError::BadLength);
    }
    let edges = VersionEdges { version, filter };
    let Ok(found) = labels_over(alloc, &edges) else {
        return Err(ColumnError::OutOfMemory);
    };
    column.copy_from_slice(&found);
    Ok(())
}

/// Writes for each vertex the least number of edges of the view that lead to it from the source, or [`NO_NUMBER`].
/// `NoKind`, `NoVertex`, `BadLength`, or out of memory.
pub fn write_levels(
    alloc: Global,
    version: &Version,
    view: &View,
    source: u32,
    column: &mut [u32],
) -> Result<(), ColumnError>
    ensures { WritesLevels (content version.now) view.now source column.old column.new result }
{
    let Some(filter) = filter_of(version, view) else {
        return Err(ColumnError::NoKind);
    };
    let vertices = version.names().len();
    if source as usize >= vertices {
        return Err(ColumnError::NoVertex);
    }
    if column.len() != vertices {
        return Err(ColumnError::BadLength);
    }
    let Ok(found) = levels(alloc, version, VertexId(source), &filter) else {
        return Err(ColumnError::OutOfMemory);
    };
    put_levels(&found, column);
    Ok(())
}

/// Writes levels, and [`NO_NUMBER`] where there is none.
fn put_levels(levels: &[Option<u32>], column: &mut [u32])
    requires { length levels.now ≡ length column.old }
    ensures { column.new ≡ map (λ level. unwrap_or level no_number) levels.now }
{
    for place in 0..levels.len() {
        column[place] = levels[place].unwrap_or(NO_NUMBER);
    }
}

/// Writes for each vertex how many edges of the view leave it, how many enter it, and the sum of the weights of those that
/// leave it. `NoKind`, `BadLength`, or out of memory.
#[tactic(auto, using(graph_types::proofs::DegreeTables::degrees_long))]
pub fn write_degrees(
    alloc: Global,
    version: &Version,
    view: &View,
    outgoing: &mut [u32],
    incoming: &mut [u32],
    weights: &mut [i64],
) -> Result<(), ColumnError>
    ensures { WritesDegrees (content version.now) view.now (degree_columns outgoing.old incoming.old weights.old)
        (degree_columns outgoing.new incoming.new weights.new) result }
{
    let Some(filter) = filter_of(version, view) else {
        return Err(ColumnError::NoKind);
    };
    let vertices = version.names().len();
    if outgoing.len() != vertices || incoming.len() != vertices || weights.len() != vertices {
        return Err(ColumnError::BadLength);
    }
    let Ok(table) = degrees(alloc, version, &filter) else {
        return Err(ColumnError::OutOfMemory);
    };
    put_degrees(&table, outgoing, incoming, weights);
    Ok(())
}

/// Writes degrees column by column.
fn put_degrees(table: &[Degree], outgoing: &mut [u32], incoming: &mut [u32], weights: &mut [i64])
    requires outgoing { length outgoing.old ≡ length table.now }
    requires incoming { length incoming.old ≡ length table.now }
    requires weights { length weights.old ≡ length table.now }
    ensures outgoing { outgoing.new ≡ map (λ d. d.outgoing) table.now }
    ensures incoming { incoming.new ≡ map (λ d. d.incoming) table.now }
    ensures weights { weights.new ≡ map (λ d. d.out_weight) table.now }
{
    for place in 0..table.len() {
        let degree = table[place];
        outgoing[place] = degree.outgoing;
        incoming[place] = degree.incoming;
        weights[place] = degree.out_weight;
    }
}
