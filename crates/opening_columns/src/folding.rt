//! The edges that rows leave.

ghost use Rattle.std.specs.Prelude.{◌≡◌, ◌≤◌, ◌<◌, ◌^◌, ◌↔◌, ℕ, All, IsTrue, OnOk, IfOk, IfSome, Some, None, length, true, false};
ghost use Rattle.std.specs.FinMap.{FinMap, get, empty};
ghost use Rattle.std.specs.List.Sorted.{IsNonDecreasingBy};
ghost use Rattle.graph_types.specs.Graph.{Stamp, key_cmp, key_of, map_of, stamp_of};
ghost use Rattle.graph_types.specs.Step.{makes_names, set_at, stamp_after};
ghost use Rattle.graph_types.specs.Changes.{AreMarks, IsChange, option_stamp, stamp_in};
ghost use Rattle.graph_types.specs.Limits.{weight_limit};
ghost use Rattle.batch_columns.specs.Operations.{OperationTable, table_of, are_alike};
ghost use Rattle.opening_columns.specs.Puts.{IsPut, IsWithinWalls, after_puts, put_key, key_number};
ghost use Rattle.opening_columns.specs.Puts as specs;
ghost use Rattle.opening_columns.specs.Edges.{AreRising, AreUpTo, IsWithinBounds, IsLastOf, IsEdgeSet};

use crate::numbering::Put;
use batch_columns::Operations;
use graph_types::{Edge, EdgeChange, EdgeMarks, VertexId, change_edge};
use std::alloc::{AllocError, Global};

/// The number of a row's edge: edges by rising numbers lie by source, then by kind, then by target.
#[inline(always)]
fn number_of(put: &Put) -> u64
    ensures { result ≡ key_number (put_key put.now) }
{
    let group = u64::from(put.source) * 64 + u64::from(put.kind.0) % 64;
    group * 67_108_864 + u64::from(put.target) % 67_108_864
}

/// Sorts rows by their edges, those of one edge in their order. They leave what they left.
pub(crate) fn sort_puts(puts: &mut Vec<Put>) -> Result<(), AllocError>
    ensures rising { OnOk result (IsNonDecreasingBy (λ p. key_number (put_key p)) puts.new.items) }
    ensures same { OnOk result ((t : OperationTable) → (most : ℕ) → (edges : FinMap key_cmp Stamp)
        → after_puts t most puts.new.items edges ≡ after_puts t most puts.old.items edges) }
    ensures each { OnOk result ((t : OperationTable) → All (IsPut t) puts.old.items → All (IsPut t) puts.new.items) }
{
    puts.sort_by_key(number_of)?;
    Ok(())
}

/// What the row at a place does to its edge, under this limit of weights.
#[inline(always)]
fn change_at(columns: &Operations<'_>, most: u64, place: usize) -> EdgeChange
    requires alike { are_alike (table_of columns.now) ≡ true }
    requires within { place < length columns.now.sorts.now }
    ensures { result ≡ specs.row_change (table_of columns.now) most place }
{
    let (weight, time) = (columns.weights[place], columns.times[place]);
    if columns.sorts[place] == 0 {
        EdgeChange::Insert { weight, time, most }
    } else {
        EdgeChange::Incr {
            amount: weight,
            time,
            most,
        }
    }
}

/// Whether a row is on an edge.
#[inline(always)]
fn is_on(put: &Put, edge: &Edge) -> bool
    ensures { IsTrue result ↔ (key_of edge.now ≡ put_key put.now) }
{
    edge.source.0 == put.source && edge.kind.0 == put.kind.0 && edge.target.0 == put.target
}

/// What the last edge bears, if a row is on it.
#[inline(always)]
fn marks_before(edges: &[Edge], put: &Put) -> Option<EdgeMarks>
    requires edges { AreUpTo (put_key put.now) edges.now }
    requires walls { IsWithinWalls (put_key put.now) }
    ensures stamp { option_stamp result ≡ get (map_of edges.now) (put_key put.now) }
    ensures marks { IfSome result AreMarks }
    ensures last { IfSome result (λ _. IsLastOf edges.now (put_key put.now)) }
{
    let Some(edge) = edges.last() else {
        return None;
    };
    if !is_on(put, edge) {
        return None;
    }
    Some(EdgeMarks {
        weight: edge.weight,
        first: edge.first,
        recent: edge.recent,
    })
}

/// A row's edge with these marks.
#[inline(always)]
fn edge_of(put: &Put, marks: EdgeMarks) -> Edge
    requires { AreMarks marks }
    ensures key { key_of result ≡ put_key put.now }
    ensures stamp { stamp_of result ≡ stamp_in marks }
{
    Edge {
        kind: put.kind,
        source: VertexId(put.source),
        target: VertexId(put.target),
        weight: marks.weight,
        first: marks.first,
        recent: marks.recent,
    }
}

/// Puts an edge behind the others.
#[inline(always)]
fn add(edges: &mut Vec<Edge>, put: &Put, marks: EdgeMarks) -> Result<(), AllocError>
    requires edges { AreUpTo (put_key put.now) edges.old.items }
    requires walls { IsWithinWalls (put_key put.now) }
    requires marks { AreMarks marks }
    requires none { get (map_of edges.old.items) (put_key put.now) ≡ None }
    ensures { OnOk result (IsEdgeSet (put_key put.now) (Some (stamp_in marks)) edges.old.items edges.new.items) }
{
    edges.push(edge_of(put, marks))?;
    Ok(())
}

/// Puts an edge in the place of the last one.
#[inline(always)]
fn replace(edges: &mut Vec<Edge>, put: &Put, marks: EdgeMarks) -> Result<(), AllocError>
    requires edges { AreUpTo (put_key put.now) edges.old.items }
    requires walls { IsWithinWalls (put_key put.now) }
    requires marks { AreMarks marks }
    requires last { IsLastOf edges.old.items (put_key put.now) }
    ensures { OnOk result (IsEdgeSet (put_key put.now) (Some (stamp_in marks)) edges.old.items edges.new.items) }
{
    let _last = edges.pop();
    edges.push(edge_of(put, marks))?;
    Ok(())
}

/// Has a row's change come to the edges of rows before it, of which the last one alone may be the row's.
#[inline(always)]
fn put_in(edges: &mut Vec<Edge>, put: &Put, change: EdgeChange) -> Result<(), AllocError>
    requires edges { AreUpTo (put_key put.now) edges.old.items }
    requires walls { IsWithinWalls (put_key put.now) }
    requires change { IsChange change }
    requires makes { makes_names change ≡ true }
    ensures { OnOk result (IsEdgeSet (put_key put.now)
        (stamp_after change (get (map_of edges.old.items) (put_key put.now))) edges.old.items edges.new.items) }
{
    let before = marks_before(edges.as_slice(), put);
    let (_outcome, after) = change_edge(change, before);
    let Some(marks) = after else {
        return Ok(());
    };
    if before.is_some() {
        replace(edges, put, marks)
    } else {
        add(edges, put, marks)
    }
}

/// The edges that rows leave of none, by rising numbers; the rows come by rising numbers too.
pub(crate) fn folded(
    alloc: Global,
    columns: &Operations<'_>,
    most: u64,
    puts: &[Put],
) -> Result<Vec<Edge>, AllocError>
    requires alike { are_alike (table_of columns.now) ≡ true }
    requires most { most ≤ weight_limit }
    requires puts { All (IsPut (table_of columns.now)) puts.now }
    requires rising { IsNonDecreasingBy (λ p. key_number (put_key p)) puts.now }
    ensures map { IfOk result (λ edges. map_of edges.items ≡ after_puts (table_of columns.now) most puts.now empty) }
    ensures rising { IfOk result (λ edges. AreRising edges.items) }
    ensures range { IfOk result (λ edges. All IsWithinBounds edges.items) }
{
    let mut edges = Vec::with_capacity(alloc, puts.len())?;
    for put in puts {
        let change = change_at(columns, most, put.place as usize);
        put_in(&mut edges, put, change)?;
    }
    Ok(edges)
}
