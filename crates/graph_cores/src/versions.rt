//! Core numbers of a version.

ghost use Rattle.std.specs.Prelude.{IfOk};
ghost use Rattle.graph_types.specs.Analyses.{AreCoreNumbers};
ghost use Rattle.graph_version.specs.Versions.{content};

use crate::peeling::cores_over;
use graph_types::Filter;
use graph_version::{Version, VersionEdges};
use std::alloc::{AllocError, Global};

/// The core number of each vertex of a version, in number order, over the edges of the view: direction, kind and loops don't
/// matter. The only error is out of memory. A window that ends before it begins is an empty view.
pub fn cores(alloc: Global, version: &Version, view: &Filter) -> Result<Vec<u32>, AllocError>
    ensures { IfOk result (λ cores. AreCoreNumbers view.now (content version.now) cores.items) }
{
    let edges = VersionEdges {
        version,
        filter: *view,
    };
    cores_over(alloc, &edges)
}
