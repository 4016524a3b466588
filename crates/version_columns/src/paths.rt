//! A path, in a column.

ghost use Rattle.std.specs.Prelude.{◌≡◌, ◌<◌, ◌≤◌, ◌++◌, length, drop};
ghost use Rattle.graph_version.specs.Versions.{content};
ghost use Rattle.version_columns.specs.Paths.{WritesPath, WritesPathIn};

use crate::views::{ColumnError, View, filter_of};
use graph_types::{Filter, VertexId};
use graph_walks::{Incoming, path};
use std::alloc::Global;

/// Writes vertices to the beginning of a column.
fn put_path(path: &[u32], vertices: &mut [u32])
    requires { length path.now ≤ length vertices.old }
    ensures { vertices.new ≡ path.now ++ drop (length path.now) vertices.old }
{
    vertices[..path.len()].copy_from_slice(path);
}

/// Writes the path over the edges of a filter.
fn write_path_in(
    alloc: Global,
    incoming: &Incoming,
    filter: &Filter,
    source: u32,
    target: u32,
    vertices: &mut [u32],
    count: &mut u64,
) -> Result<(), ColumnError>
    ensures { WritesPathIn filter.now (content incoming.now) source target vertices.old vertices.new count.new result }
{
    let names = incoming.version().names().len();
    if source as usize >= names || target as usize >= names {
        return Err(ColumnError::NoVertex);
    }
    let Ok(found) = path(alloc, incoming, filter, VertexId(source), VertexId(target)) else {
        return Err(ColumnError::OutOfMemory);
    };
    let Some(path) = found else {
        *count = 0;
        return Ok(());
    };
    *count = path.len() as u64;
    if path.len() > vertices.len() {
        return Err(ColumnError::BadLength);
    }
    put_path(&path, vertices);
    Ok(())
}

/// Writes the vertices of a shortest walk along edges of the view from the source to the target, with both, as
/// [`path`](graph_walks::path) has them, and tells how many these are: 0 where no walk leads there.
///
/// `NoKind`, `NoVertex`, `BadLength` where there are fewer places than that: then nothing is written, and `count` is told. Or out
/// of memory.
pub fn write_path(
    alloc: Global,
    incoming: &Incoming,
    view: &View,
    source: u32,
    target: u32,
    vertices: &mut [u32],
    count: &mut u64,
) -> Result<(), ColumnError>
    ensures { WritesPath incoming.now view.now source target vertices.old vertices.new count.new result }
{
    let Some(filter) = filter_of(incoming.version(), view) else {
        return Err(ColumnError::NoKind);
    };
    write_path_in(alloc, incoming, &filter, source, target, vertices, count)
}
