//! The edges that lead to one vertex, in columns.

ghost use Rattle.std.specs.Prelude.{◌≡◌, ◌≤◌, length};
ghost use Rattle.version_columns.specs.Rows.{columns, in_edges, turned_edges, with_edges, AreLong, WritesRow, IsRowCount};

use crate::rows::are_long;
use crate::views::{ColumnError, View, filter_of};
use graph_types::{Edge, Filter, VertexId};
use graph_walks::{Incoming, passes};

/// How many edges a view lets through.
fn count_shown(edges: &[Edge], view: &Filter) -> usize
    ensures { result ≡ length (turned_edges view.now edges.now) }
{
    let mut count = 0;
    for edge in edges {
        if passes(view, edge) {
            count += 1;
        }
    }
    count
}

/// Writes the edges that a view lets through, each with its source, from the first place on.
fn write_shown(
    edges: &[Edge],
    view: &Filter,
    kinds: &mut [u32],
    sources: &mut [u32],
    weights: &mut [i64],
    firsts: &mut [u64],
    recents: &mut [u64],
)
    requires long { AreLong (length kinds.old) (columns kinds.old sources.old weights.old firsts.old recents.old) }
    requires room { length (turned_edges view.now edges.now) ≤ length kinds.old }
    ensures { columns kinds.new sources.new weights.new firsts.new recents.new
        ≡ with_edges 0 (turned_edges view.now edges.now) (columns kinds.old sources.old weights.old firsts.old recents.old) }
{
    let mut at = 0;
    for edge in edges {
        if passes(view, edge) {
            kinds[at] = edge.kind.0 as u32;
            sources[at] = edge.source.0;
            weights[at] = edge.weight;
            firsts[at] = edge.first;
            recents[at] = edge.recent;
            at += 1;
        }
    }
}

/// Writes the edges that lead to one vertex and that the view lets through into columns of one length, and tells how many there
/// are: their sources rise, and those of one source stand in the order of its row. They all have that target, so there is no
/// column of targets. `NoKind`, `NoVertex`, or `BadLength` where the columns differ in length or have fewer places than that: then
/// nothing is written, and `count` is told. It takes no memory.
pub fn write_in_edges(
    incoming: &Incoming,
    view: &View,
    target: u32,
    kinds: &mut [u32],
    sources: &mut [u32],
    weights: &mut [i64],
    firsts: &mut [u64],
    recents: &mut [u64],
    count: &mut u64,
) -> Result<(), ColumnError>
    ensures row { WritesRow in_edges incoming.now view.now target (columns kinds.old sources.old weights.old firsts.old recents.old)
        (columns kinds.new sources.new weights.new firsts.new recents.new) result }
    ensures count { IsRowCount in_edges incoming.now view.now target count.new }
{
    let version = incoming.version();
    let Some(filter) = filter_of(version, view) else {
        return Err(ColumnError::NoKind);
    };
    if target as usize >= version.names().len() {
        return Err(ColumnError::NoVertex);
    }
    let edges = incoming.edges_to(VertexId(target));
    let shown = count_shown(edges, &filter);
    *count = shown as u64;
    let room = kinds.len();
    if !are_long(room, kinds, sources, weights, firsts, recents) || shown > room {
        return Err(ColumnError::BadLength);
    }
    write_shown(edges, &filter, kinds, sources, weights, firsts, recents);
    Ok(())
}
