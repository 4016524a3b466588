//! The arcs of a view.

ghost use Rattle.std.specs.Prelude.{◌≡◌, IfOk};
ghost use Rattle.graph_types.specs.Graph.{key_of, stamp_of};
ghost use Rattle.graph_types.specs.View.{in_view};
ghost use Rattle.graph_types.specs.Arcs as definition;

use graph_types::{Content, Edge, Filter};
use std::alloc::{AllocError, Global};

/// Source and target of each edge that the filter lets through, in the content's order. One pass over the edges.
pub(crate) fn arcs_of(
    alloc: Global,
    content: &Content,
    filter: Filter,
) -> Result<Vec<(u32, u32)>, AllocError>
    ensures { IfOk result (λ arcs. arcs.items ≡ definition.arcs_of filter content.now.edges) }
{
    let edges = content.edges.as_slice();
    edges
        .iter()
        .filter(|edge| shows(filter, edge))
        .map(|edge| (edge.source.0, edge.target.0))
        .collect(alloc)
}

/// The arcs, and then each turned.
pub(crate) fn two_way(alloc: Global, arcs: &[(u32, u32)]) -> Result<Vec<(u32, u32)>, AllocError>
    ensures { IfOk result (λ both. both.items ≡ definition.two_way arcs.now) }
{
    let turned = arcs.iter().map(|arc| (arc.1, arc.0));
    arcs.iter().copied().chain(turned).collect(alloc)
}

/// Whether the filter lets an edge through: any kind or the one it names, and a recent time in the window, both ends
/// included. It takes no memory.
pub fn shows(filter: Filter, edge: &Edge) -> bool
    ensures { result ≡ in_view filter (key_of edge.now, stamp_of edge.now) }
{
    let takes_kind = match filter.kind {
        Some(kind) => kind == edge.kind,
        None => true,
    };
    takes_kind && filter.lo <= edge.recent && edge.recent <= filter.hi
}
