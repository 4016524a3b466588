//! The links of a view: pairs of different vertices that an edge joins, each listed one way.

ghost use Rattle.std.specs.Prelude.{◌≡◌, ◌⊎◌, ◌↔◌, ℕ, length, IfOk, OnOk};
ghost use Rattle.std.specs.List.{Contains};
ghost use Rattle.graph_types.specs.Arcs.{AreWithin};
ghost use Rattle.graph_cores.specs.Peel.{both_ways, AreAllLinks, IsLinked};

use graph_version::ViewEdges;
use std::alloc::{AllocError, Global};

/// Links the source and each of the targets. A loop links nothing. Room is made once, so that no push looks for it.
fn link(links: &mut Vec<(u32, u32)>, source: u32, targets: &[u32]) -> Result<(), AllocError>
    ensures { OnOk result ((v w : ℕ) → Contains (both_ways links.new.items) (v, w)
        ↔ (Contains (both_ways links.old.items) (v, w) ⊎ IsLinked source targets.now v w)) }
{
    links.reserve(targets.len())?;
    for target in targets {
        if *target != source {
            links.push_reserved((source, *target));
        }
    }
    Ok(())
}

/// The links of the view's edges. A pair stands as often as edges join it.
pub(crate) fn list_links<E: ViewEdges>(
    alloc: Global,
    edges: &E,
) -> Result<Vec<(u32, u32)>, AllocError>
    ensures exact { IfOk result (λ links. AreAllLinks (E.filter edges.now) (E.graph edges.now) (both_ways links.items)) }
    ensures within { IfOk result (λ links. AreWithin (length (E.graph edges.now).names) links.items) }
    ensures ends { IfOk result (λ links. AreWithin (length (E.graph edges.now).names) (both_ways links.items)) }
{
    let mut links = Vec::new(alloc);
    let mut targets = Vec::new(alloc);
    for vertex in 0..edges.vertex_count() {
        let vertex = vertex as u32;
        edges.list_targets(vertex, &mut targets)?;
        link(&mut links, vertex, &targets)?;
    }
    Ok(links)
}
