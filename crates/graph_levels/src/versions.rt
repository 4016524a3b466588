//! Levels and labels of a version.

ghost use Rattle.std.specs.Prelude.{◌≡◌, ◌<◌, ◌≤◌, ◌↔◌, length, IfOk, IfErr, OnOk};
ghost use Rattle.graph_types.specs.Analyses.{AreLevels, AreLabels};
ghost use Rattle.graph_version.specs.Versions.{content};
ghost use Rattle.graph_levels.specs.Reached.{TellLevels};
ghost use Rattle.graph_levels.specs.Reached.{vertex_numbers};
ghost use Rattle.graph_levels.specs.declared.versions.LevelError.TheVariants.{OutOfMemory};

use crate::found::{Levels, levels_over, reached_over};
use crate::parts::labels_over;
use graph_types::{Filter, VertexId};
use graph_version::{Version, VersionEdges, ViewEdges};
use std::alloc::{AllocError, Global};
use thiserror::Error;

/// Why there are no levels.
#[derive(Clone, Copy, Debug, PartialEq, Eq, Error)]
pub enum LevelError {
    #[error("the version has no such vertex")]
    NoVertex,
    #[error("out of memory")]
    OutOfMemory,
}

impl From<AllocError> for LevelError {
    ghost from_gives = { λ _ e. e ≡ OutOfMemory };

    fn from(_error: AllocError) -> LevelError {
        LevelError::OutOfMemory
    }
}

/// The level of each vertex of a version from the source, in number order: the least number of edges of a walk in the
/// view, each taken from its source to its target, and none where no walk leads there.
///
/// `NoVertex` exactly where the source is no vertex of the version, and that takes no memory; the other error is out of memory. A
/// window that ends before it begins is an empty view.
pub fn levels(
    alloc: Global,
    version: &Version,
    source: VertexId,
    view: &Filter,
) -> Result<Vec<Option<u32>>, LevelError>
    ensures levels { IfOk result (λ levels. AreLevels view.now (content version.now) source.0 levels.items) }
    ensures vertex { OnOk result (source.0 < length (content version.now).names) }
    ensures refused { IfErr result (λ error. (error ≡ LevelError.NoVertex) ↔ (length (content version.now).names ≤ source.0)) }
{
    let edges = VersionEdges {
        version,
        filter: *view,
    };
    if source.0 as usize >= edges.vertex_count() {
        return Err(LevelError::NoVertex);
    }
    Ok(levels_over(alloc, &edges, source)?)
}

/// The levels of a version from the source, as [`levels`] has them, or those of the vertices alone that are reached, where
/// these are few. It is refused as [`levels`] is.
pub fn reached(
    alloc: Global,
    version: &Version,
    source: VertexId,
    view: &Filter,
) -> Result<Levels, LevelError>
    ensures levels { IfOk result (λ levels. TellLevels view.now (content version.now) source.0 levels) }
    ensures vertex { OnOk result (source.0 < length (content version.now).names) }
    ensures refused { IfErr result (λ error. (error ≡ LevelError.NoVertex) ↔ (length (content version.now).names ≤ source.0)) }
{
    let edges = VersionEdges {
        version,
        filter: *view,
    };
    if edges.vertex_count() <= source.0 as usize {
        return Err(LevelError::NoVertex);
    }
    Ok(reached_over(alloc, &edges, source)?)
}

/// The label of each vertex of a version, in number order: the least vertex to which edges of the view join it, each taken
/// in either direction. The only error is out of memory. A window that ends before it begins is an empty view.
pub fn labels(alloc: Global, version: &Version, view: &Filter) -> Result<Vec<VertexId>, AllocError>
    ensures { IfOk result (λ labels. AreLabels view.now (content version.now) (vertex_numbers labels.items)) }
{
    let edges = VersionEdges {
        version,
        filter: *view,
    };
    let labels = labels_over(alloc, &edges)?;
    vertices(alloc, &labels)
}

/// The vertices of these numbers.
fn vertices(alloc: Global, numbers: &[u32]) -> Result<Vec<VertexId>, AllocError>
    ensures { IfOk result (λ vertices. vertex_numbers vertices.items ≡ numbers.now) }
{
    let mut vertices = Vec::with_capacity(alloc, numbers.len())?;
    for number in numbers {
        vertices.push(VertexId(*number))?;
    }
    Ok(vertices)
}
