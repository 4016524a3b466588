//! Levels and labels.

ghost use Rattle.std.specs.Prelude.{◌≡◌, ◌<◌, ◌≤◌, length, map, IfOk};
ghost use Rattle.std.specs.List.{range_with_len};
ghost use Rattle.graph_types.specs.Limits.{most_names};
ghost use Rattle.graph_types.specs.Graph.{graph_of, IsContent};
ghost use Rattle.graph_types.specs.Analyses.{AreLevels, AreLabels};
ghost use Rattle.graph_types.specs.Arcs.{level_start, level_below};

use crate::arcs::{arcs_of, two_way};
use crate::settling::settle;
use graph_types::{Content, Filter, VertexId};
use std::alloc::{AllocError, Global};

/// The level of each vertex from the source, in number order: the least number of edges of a walk that the filter lets
/// through, each taken from its source to its target, and none where there is no such walk.
///
/// Each round is a pass over the edges, and there are at most as many rounds as the greatest level and one more. The only error is
/// that memory runs out for a table and a list of the view's edges.
pub fn plain_levels(
    alloc: Global,
    content: &Content,
    filter: Filter,
    source: VertexId,
) -> Result<Vec<Option<u32>>, AllocError>
    requires content { IsContent content.now }
    requires listed { source.0 < length content.now.names }
    ensures { IfOk result (λ levels. AreLevels filter (graph_of content.now) source.0 levels.items) }
{
    let count = content.names.as_slice().len();
    let arcs = arcs_of(alloc, content, filter)?;
    let mut numbers = unreached(alloc, count, source)?;
    settle(&mut numbers, &arcs, 1);
    reached(alloc, &numbers, count as u32)
}

/// 0 at the source, and the number of vertices, which no level reaches, at all others.
fn unreached(alloc: Global, count: usize, source: VertexId) -> Result<Vec<u32>, AllocError>
    requires few { count ≤ most_names }
    requires listed { source.0 < count }
    ensures { IfOk result (λ numbers. numbers.items ≡ level_start count source.0) }
{
    let mut numbers = vec![in alloc; count as u32; count]?;
    numbers[source.0 as usize] = 0;
    Ok(numbers)
}

/// Numbers below the count are levels, and others none.
fn reached(alloc: Global, numbers: &[u32], count: u32) -> Result<Vec<Option<u32>>, AllocError>
    ensures { IfOk result (λ levels. levels.items ≡ map (level_below count) numbers.now) }
{
    numbers
        .iter()
        .map(|number| if *number < count { Some(*number) } else { None })
        .collect(alloc)
}

/// The label of each vertex, in number order: the least vertex to which edges that the filter lets through join it, taken in
/// either direction.
///
/// Each round is a pass over the edges, and there are at most as many rounds as a part has vertices. The only error is that memory
/// runs out for a table and a list of the view's edges.
pub fn plain_labels(
    alloc: Global,
    content: &Content,
    filter: Filter,
) -> Result<Vec<u32>, AllocError>
    requires { IsContent content.now }
    ensures { IfOk result (λ labels. AreLabels filter (graph_of content.now) labels.items) }
{
    let count = content.names.as_slice().len();
    let arcs = arcs_of(alloc, content, filter)?;
    let arcs = two_way(alloc, &arcs)?;
    let mut numbers = vertices(alloc, count as u32)?;
    settle(&mut numbers, &arcs, 0);
    Ok(numbers)
}

/// The numbers below this one.
#[tactic(auto, using(graph_types::proofs::More::range_more))]
fn vertices(alloc: Global, count: u32) -> Result<Vec<u32>, AllocError>
    ensures { IfOk result (λ vertices. vertices.items ≡ range_with_len 0 count) }
{
    let mut vertices = Vec::with_capacity(alloc, count as usize)?;
    for vertex in 0..count {
        vertices.push(vertex)?;
    }
    Ok(vertices)
}
