//! Shortest walks.

ghost use Rattle.std.specs.Prelude.{◌≡◌, ◌<◌, ◌≤◌, ◌↔◌, ◌∷◌, ◌++◌, ℕ, List, [], Option, IfOk, IsTrue, length};
ghost use Rattle.std.specs.List.{Contains};
ghost use Rattle.std.specs.Option.{option_map};
ghost use Rattle.graph_levels.specs.Near.{AreLevelsSoFar, IsAtMost};
ghost use Rattle.graph_levels.specs.Search.{HasLevel};
ghost use Rattle.graph_walks.specs.Paths.{IsLeastAt, IsPath, IsPathIfAny, turned};
ghost use Rattle.graph_types.specs.Analyses.{LeadsTo};
ghost use Rattle.graph_version.specs.Versions.{content};

use crate::backward::Against;
use crate::incoming::Incoming;
use graph_levels::{Along, Steps, levels_up_to};
use graph_types::{Filter, VertexId};
use graph_version::VersionEdges;
use std::alloc::{AllocError, Global};

/// Whether a vertex has a level.
fn has_level(levels: &[Option<u32>], vertex: u32, level: u32) -> bool
    ensures { IsTrue result ↔ HasLevel levels.now level vertex }
{
    match levels.get(vertex as usize) {
        Some(Some(found)) => *found == level,
        _ => false,
    }
}

/// The least of some vertices that have a level, with one vertex more.
fn lesser(levels: &[Option<u32>], level: u32, least: Option<u32>, vertex: u32) -> Option<u32>
    ensures { (vertices : List ℕ) → IsLeastAt levels.now level vertices least
        → IsLeastAt levels.now level (vertices ++ vertex ∷ []) result }
{
    if !has_level(levels, vertex, level) {
        return least;
    }
    match least {
        Some(least) => Some(least.min(vertex)),
        None => Some(vertex),
    }
}

/// The least of the vertices that have a level, or another one where none has it.
fn least_at(levels: &[Option<u32>], level: u32, vertices: &[u32], other: u32) -> u32
    ensures { (u : ℕ) → Contains vertices.now u → HasLevel levels.now level u
        → Contains vertices.now result × HasLevel levels.now level result × (result ≤ u) }
{
    let mut least = None;
    for vertex in vertices {
        least = lesser(levels, level, least, *vertex);
    }
    least.unwrap_or(other)
}

/// The vertices of the walk that the levels of a search show: back from the target, each vertex is the least that is one level
/// nearer and from which a step leads to the one before. The steps are those of the search, turned.
fn walk_back<S: Steps>(
    alloc: Global,
    back: &S,
    levels: &[Option<u32>],
    source: u32,
    target: u32,
    level: u32,
) -> Result<Vec<u32>, AllocError>
    requires within { (a b : ℕ) → S.leads back.now a b → (a < S.vertices back.now) × (b < S.vertices back.now) }
    requires levels { (bound : Option ℕ)
        × AreLevelsSoFar (S.vertices back.now) (turned (S.leads back.now)) (source ∷ []) bound levels.now
        × ((k : ℕ) → k < level → IsAtMost bound k) }
    requires level { HasLevel levels.now level target }
    ensures { IfOk result (λ path. IsPath (turned (S.leads back.now)) source target path.items) }
{
    let mut path = vec![in alloc; target; level as usize + 1]?;
    let mut nearer = Vec::new(alloc);
    let mut at = target;
    let mut place = level;
    'back: while place > 0 {
        place -= 1;
        back.list_next(at, &mut nearer)?;
        at = least_at(levels, place, &nearer, at);
        path[place as usize] = at;
    }
    Ok(path)
}

/// The vertices of a shortest walk along edges of the view, from the source to the target, both with it; none where no walk leads
/// there. Of several it is the one that has, from its end on, the least vertex each time. Both are vertices of the version. The
/// only error is out of memory.
pub fn path(
    alloc: Global,
    incoming: &Incoming,
    filter: &Filter,
    source: VertexId,
    target: VertexId,
) -> Result<Option<Vec<u32>>, AllocError>
    requires source { source.0 < length (content incoming.now).names }
    requires target { target.0 < length (content incoming.now).names }
    ensures { IfOk result (λ path. IsPathIfAny (LeadsTo filter.now (content incoming.now)) source.0 target.0
        (option_map (λ vertices. vertices.items) path)) }
{
    let edges = VersionEdges {
        version: incoming.version(),
        filter: *filter,
    };
    let levels = levels_up_to(alloc, &Along { edges: &edges }, source, target)?;
    let Some(level) = levels[target.0 as usize] else {
        return Ok(None);
    };
    let back = Against {
        incoming,
        filter: *filter,
    };
    let _count = back.vertex_count();
    let vertices = walk_back(alloc, &back, &levels, source.0, target.0, level)?;
    Ok(Some(vertices))
}
