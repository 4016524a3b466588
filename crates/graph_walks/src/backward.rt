//! Steps against edges, and either way.

ghost use Rattle.graph_version.specs.Versions.{content};
ghost use Rattle.std.specs.Prelude.{length};
ghost use Rattle.graph_types.specs.Analyses.{Joins, LeadsTo};

use crate::incoming::{Incoming, push_sources};
use graph_levels::Steps;
use graph_types::{Filter, VertexId};
use graph_version::{VersionEdges, ViewEdges};
use std::alloc::AllocError;

/// Steps against the edges of a view, each from its target to its source.
#[derive(Clone, Copy)]
pub struct Against<'v> {
    pub incoming: &'v Incoming,
    pub filter: Filter,
}

impl Steps for Against<'_> {
    ghost vertices = { λ steps. length (content steps.incoming.now).names };

    ghost leads = { λ steps a b. LeadsTo steps.filter (content steps.incoming.now) b a };

    fn vertex_count(&self) -> usize {
        self.incoming.version().names().len()
    }

    fn list_next(&self, vertex: u32, next: &mut Vec<u32>) -> Result<(), AllocError> {
        next.clear();
        push_sources(&self.filter, self.incoming.edges_to(VertexId(vertex)), next)?;
        Ok(())
    }
}

/// Steps along the edges of a view, and against them.
#[derive(Clone, Copy)]
pub struct EitherWay<'v> {
    pub incoming: &'v Incoming,
    pub filter: Filter,
}

impl Steps for EitherWay<'_> {
    ghost vertices = { λ steps. length (content steps.incoming.now).names };

    ghost leads = { λ steps. Joins steps.filter (content steps.incoming.now) };

    fn vertex_count(&self) -> usize {
        self.incoming.version().names().len()
    }

    fn list_next(&self, vertex: u32, next: &mut Vec<u32>) -> Result<(), AllocError> {
        let along = VersionEdges {
            version: self.incoming.version(),
            filter: self.filter,
        };
        along.list_targets(vertex, next)?;
        push_sources(&self.filter, self.incoming.edges_to(VertexId(vertex)), next)?;
        Ok(())
    }
}
