//! What a search found, as a table or as rows.

ghost use Rattle.std.specs.Prelude.{◌≡◌, ◌<◌, ◌∷◌, [], None, Some, length, All, IfOk};
ghost use Rattle.graph_types.specs.Analyses.{AreLevels};
ghost use Rattle.graph_levels.specs.Reached.{TellLevels};
ghost use Rattle.graph_levels.specs.Near.{AreFoundFor, AreNear};
ghost use Rattle.graph_levels.specs.Reached.{AreRows, level_table, vertices_of};

use crate::distances::search;
use crate::steps::{Along, Steps};
use graph_types::{List, VertexId};
use graph_version::ViewEdges;
use std::alloc::{AllocError, Global};

/// Rows are handed out where they are at most one of so many vertices; a table of more takes less time than to sort them.
const FEW: usize = 16;

/// Levels from a source.
#[derive(Debug, Drop)]
pub enum Levels {
    /// The level of each vertex, in number order, and none where no walk leads there.
    Each(List<Option<u32>>),
    /// The vertices to which a walk leads, with their levels, in number order.
    Reached(List<(VertexId, u32)>),
}

/// The table of so many vertices with the levels of these.
fn table(
    alloc: Global,
    rows: &[(VertexId, u32)],
    count: usize,
) -> Result<Vec<Option<u32>>, AllocError>
    requires { All (λ v. v < count) (vertices_of rows.now) }
    ensures { IfOk result (λ levels. levels.items ≡ level_table count rows.now) }
{
    let mut levels = vec![in alloc; None; count]?;
    for row in rows {
        levels[row.0.0 as usize] = Some(row.1);
    }
    Ok(levels)
}

/// The vertices that a walk reaches from the source, each with its level, in the order in which they are found.
fn search_from<R: ViewEdges>(
    alloc: Global,
    edges: &R,
    source: VertexId,
) -> Result<Vec<(VertexId, u32)>, AllocError>
    requires { source.0 < length (R.graph edges.now).names }
    ensures levels { IfOk result (λ rows. AreLevels (R.filter edges.now) (R.graph edges.now) source.0
        (level_table (length (R.graph edges.now).names) rows.items)) }
    ensures rows { IfOk result (λ rows. AreRows (length (R.graph edges.now).names) rows.items) }
{
    let rows = search(alloc, &Along { edges }, &[source.0], None, None)?;
    Ok(rows)
}

/// The level of each vertex from the source, in number order: the least number of edges of a walk in the view, each taken
/// from its source to its target, and none where no walk leads there. The source is a vertex.
///
/// A breadth-first search: each vertex that a walk reaches is asked for its targets once. Beside what it finds it needs a bit
/// for each vertex, and one vertex's targets. The table comes after it. The only error is out of memory.
pub fn levels_over<R: ViewEdges>(
    alloc: Global,
    edges: &R,
    source: VertexId,
) -> Result<Vec<Option<u32>>, AllocError>
    requires { source.0 < length (R.graph edges.now).names }
    ensures { IfOk result (λ levels. AreLevels (R.filter edges.now) (R.graph edges.now) source.0 levels.items) }
{
    let rows = search_from(alloc, edges, source)?;
    table(alloc, &rows, edges.vertex_count())
}

/// The levels from the source, as [`levels_over`] has them, or those of the vertices alone that are reached, where these are
/// few: then it takes time and memory by what is reached, but for a bit for each vertex. The source is a vertex.
pub fn reached_over<R: ViewEdges>(
    alloc: Global,
    edges: &R,
    source: VertexId,
) -> Result<Levels, AllocError>
    requires { source.0 < length (R.graph edges.now).names }
    ensures { IfOk result (λ levels. TellLevels (R.filter edges.now) (R.graph edges.now) source.0 levels) }
{
    let mut rows = search_from(alloc, edges, source)?;
    if rows.len() > edges.vertex_count() / FEW {
        let levels = table(alloc, &rows, edges.vertex_count())?;
        return Ok(Levels::Each(List::of(levels)));
    }
    rows.sort_unstable_by_key(|row| row.0.0);
    Ok(Levels::Reached(List::of(rows)))
}

/// The vertices that a walk of at most so many steps reaches from any of the sources, or a walk of any length where there is no
/// bound, each with the least number of steps, in number order. Each source is a vertex, and may stand more than once.
///
/// It takes time and memory by the vertices that it reaches and the steps from them, but for a bit for each vertex. The only error
/// is out of memory.
pub fn near_over<S: Steps>(
    alloc: Global,
    steps: &S,
    sources: &[u32],
    most: Option<u32>,
) -> Result<Vec<(VertexId, u32)>, AllocError>
    requires { All (λ s. s < S.vertices steps.now) sources.now }
    ensures { IfOk result (λ rows. AreNear (S.vertices steps.now) (S.leads steps.now) sources.now most rows.items) }
{
    let mut found = search(alloc, steps, sources, most, None)?;
    found.sort_unstable_by_key(|row| row.0.0);
    Ok(found)
}

/// The levels of the vertices that are no farther from the source than the target is, along with those of others that were found
/// on the way; of all that a walk reaches, where none reaches the target. Source and target are vertices. The only error is out of
/// memory.
pub fn levels_up_to<S: Steps>(
    alloc: Global,
    steps: &S,
    source: VertexId,
    target: VertexId,
) -> Result<Vec<Option<u32>>, AllocError>
    requires source { source.0 < S.vertices steps.now }
    requires target { target.0 < S.vertices steps.now }
    ensures { IfOk result (λ levels. AreFoundFor (S.vertices steps.now) (S.leads steps.now) (source.0 ∷ []) None (Some target.0) levels.items) }
{
    let rows = search(alloc, steps, &[source.0], None, Some(target.0))?;
    table(alloc, &rows, steps.vertex_count())
}
