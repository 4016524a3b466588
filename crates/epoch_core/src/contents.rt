//! Edges of blocks, and whether they are the edges of a content.

ghost use Rattle.std.specs.Prelude.{◌≡◌, ◌≢◌, ◌↔◌, ◌&&◌, ◌==◌, length, find, IfOk, IsTrue, AllPairs};
ghost use Rattle.std.specs.List.{list_any, list_all};
ghost use Rattle.std.specs.Option.{option_copied};
ghost use Rattle.std.specs.FinMap.{get};
ghost use Rattle.graph_types.specs.Graph.{graph_of, key_of, stamp_of, map_of};
ghost use Rattle.epoch_core.specs.Versions as specs;
ghost use Rattle.epoch_core.specs.Posting as posting;
ghost use Rattle.epoch_core.specs.Versions.{AreEdgesOf};

use graph_types::{Content, Edge, List};
use std::alloc::{AllocError, Global};

/// The edges in a block, none for a number that is out of range. It takes no memory.
pub fn edges_at(heap: &[List<Edge>], block: usize) -> &[Edge]
    ensures { result.now ≡ specs.edges_at heap.now block }
{
    match heap.get(block) {
        Some(edges) => edges.as_slice(),
        None => &[],
    }
}

/// The edges in several blocks, one block after the other.
pub(crate) fn edges_of(
    alloc: Global,
    heap: &[List<Edge>],
    blocks: &[usize],
) -> Result<Vec<Edge>, AllocError>
    ensures { IfOk result (λ v. v.items ≡ specs.edges_of heap.now blocks.now) }
{
    let mut edges = Vec::new(alloc);
    for block in blocks {
        edges.extend_from_slice(edges_at(heap, *block))?;
    }
    Ok(edges)
}

fn same_key(a: &Edge, b: &Edge) -> bool
    ensures { result ≡ posting.same_key (key_of a.now) (key_of b.now) }
{
    a.kind.0 == b.kind.0 && a.source.0 == b.source.0 && a.target.0 == b.target.0
}

fn same_stamp(a: &Edge, b: &Edge) -> bool
    ensures { result ≡ posting.same_stamp (stamp_of a.now) (stamp_of b.now) }
{
    a.weight == b.weight && a.first == b.first && a.recent == b.recent
}

/// Whether an edge of this edge's key is listed.
fn has_key_of(edges: &[Edge], edge: &Edge) -> bool
    ensures { result ≡ list_any (λ other. posting.same_key (key_of other) (key_of edge.now)) edges.now }
{
    edges.iter().any(|other| same_key(other, edge))
}

/// Whether no key stands twice. It takes no memory.
fn keys_differ(edges: &[Edge]) -> bool
    ensures { result ≡ posting.keys_differ edges.now }
{
    let mut rest = edges;
    while let [edge, others @ ..] = rest {
        if has_key_of(others, edge) {
            return false;
        }
        rest = others;
    }
    true
}

/// The first edge listed at this edge's key.
fn find_key<'a>(edges: &'a [Edge], edge: &Edge) -> Option<&'a Edge>
    ensures { option_copied result ≡ find (λ other. posting.same_key (key_of other) (key_of edge.now)) edges.now }
{
    edges.iter().find(|other| same_key(other, edge))
}

/// Whether the first edge listed at this edge's key bears what this edge bears. It takes no memory.
fn bears(edges: &[Edge], edge: &Edge) -> bool
    ensures { result ≡ posting.bears (get (map_of edges.now) (key_of edge.now)) (stamp_of edge.now) }
{
    match find_key(edges, edge) {
        Some(found) => same_stamp(found, edge),
        None => false,
    }
}

/// Whether each edge is borne by the list.
fn all_borne(listed: &[Edge], edges: &[Edge]) -> bool
    ensures { result ≡ list_all (λ edge. posting.bears (get (map_of listed.now) (key_of edge)) (stamp_of edge)) edges.now }
{
    edges.iter().all(|edge| bears(listed, edge))
}

/// Whether no key stands twice, each edge is borne by the list, and they are as many as are listed.
fn are_counted(listed: &[Edge], edges: &[Edge]) -> bool
    ensures { result ≡ (posting.keys_differ edges.now && list_all
        (λ edge. posting.bears (get (map_of listed.now) (key_of edge)) (stamp_of edge)) edges.now
        && (length edges.now == length listed.now)) }
{
    keys_differ(edges) && all_borne(listed, edges) && edges.len() == listed.len()
}

/// Whether these edges, in whatever order, are each once the edges of the content. It takes no memory.
pub(crate) fn are_edges_of(content: &Content, edges: &[Edge]) -> bool
    requires { AllPairs (λ a b. key_of a ≢ key_of b) content.now.edges }
    ensures counted { result ≡ posting.are_edges_of (graph_of content.now) edges.now }
    ensures shown { IsTrue result ↔ AreEdgesOf edges.now (graph_of content.now) }
{
    are_counted(content.edges.as_slice(), edges)
}
