//! Edges in a plain list: which one has a key, what it bears, and what is put in its place.

ghost use Rattle.std.specs.Prelude.{◌≡◌, ◌≤◌, ◌++◌, OnOk};
ghost use Rattle.std.specs.Option.{option_map, option_to_list};
ghost use Rattle.std.specs.List.{find};
ghost use Rattle.std.specs.FinMap.{get};
ghost use Rattle.graph_types.specs.Graph as graph;
ghost use Rattle.graph_types.specs.Limits.{most_names, most_kinds};
ghost use Rattle.graph_types.specs.Changes.{stamp_in, option_stamp};
ghost use Rattle.graph_model.specs.Drafts.{shown_key, edge_with};
ghost use Rattle.graph_types.specs.Step as step;

use graph_types::{Edge, EdgeMarks, KindId, VertexId};
use std::alloc::AllocError;

/// Which edge: its kind and its two ends.
#[derive(Clone, Copy)]
pub(crate) struct EdgeKey {
    kind: KindId,
    source: VertexId,
    target: VertexId,
}

impl EdgeKey {
    /// The key of these numbers.
    pub(crate) fn of(kind: usize, source: usize, target: usize) -> EdgeKey
        requires kind { kind ≤ most_kinds }
        requires source { source ≤ most_names }
        requires target { target ≤ most_names }
        ensures { shown_key result ≡ record { kind = kind; source = source; target = target } }
    {
        EdgeKey {
            kind: KindId(kind as u8),
            source: VertexId(source as u32),
            target: VertexId(target as u32),
        }
    }

    /// The edge with this key that bears these marks.
    fn edge(self, marks: EdgeMarks) -> Edge
        ensures { result ≡ edge_with self marks }
    {
        Edge {
            kind: self.kind,
            source: self.source,
            target: self.target,
            weight: marks.weight,
            first: marks.first,
            recent: marks.recent,
        }
    }
}

/// Whether an edge has the key.
fn has_key(edge: &Edge, key: EdgeKey) -> bool
    ensures { result ≡ graph.has_key (shown_key key) edge.now }
{
    edge.kind == key.kind && edge.source == key.source && edge.target == key.target
}

/// The first listed edge that has the key.
fn edge_at(edges: &[Edge], key: EdgeKey) -> Option<Edge>
    ensures { result ≡ find (graph.has_key (shown_key key)) edges.now }
{
    edges.iter().copied().find(|edge| has_key(edge, key))
}

/// What an edge bears.
fn marks_of(edge: &Edge) -> EdgeMarks
    ensures { stamp_in result ≡ graph.stamp_of edge.now }
{
    EdgeMarks {
        weight: edge.weight,
        first: edge.first,
        recent: edge.recent,
    }
}

/// What the first listed edge with the key bears, if there is one. It takes no memory.
#[tactic(auto, using(graph_types::proofs::EdgeLookup::found_some, graph_types::proofs::EdgeLookup::found_none))]
pub(crate) fn marks_at(edges: &[Edge], key: EdgeKey) -> Option<EdgeMarks>
    ensures { option_stamp result ≡ get (graph.map_of edges.now) (shown_key key) }
{
    match edge_at(edges, key) {
        Some(edge) => Some(marks_of(&edge)),
        None => None,
    }
}

/// Takes away the edges that have the key.
fn clear_at(edges: &mut Vec<Edge>, key: EdgeKey)
    ensures { edges.new.items ≡ graph.without (shown_key key) edges.old.items }
{
    edges.retain(|edge| !has_key(edge, key));
}

/// Takes away the edges that were last touched before a time. It takes no memory.
pub(crate) fn clear_before(edges: &mut Vec<Edge>, time: u64)
    ensures { edges.new.items ≡ step.later time edges.old.items }
{
    edges.retain(|edge| edge.recent >= time);
}

/// Takes away the edges that have the key, and adds at the end the one that bears these marks.
pub(crate) fn put_at(
    edges: &mut Vec<Edge>,
    key: EdgeKey,
    marks: Option<EdgeMarks>,
) -> Result<(), AllocError>
    ensures { OnOk result
        (edges.new.items ≡ graph.without (shown_key key) edges.old.items ++ option_to_list (option_map (edge_with key) marks)) }
{
    clear_at(edges, key);
    match marks {
        Some(marks) => Ok(edges.push(key.edge(marks))?),
        None => Ok(()),
    }
}
