//! Where walks go.

ghost use Rattle.std.specs.Prelude.{◌≡◌, ◌≤◌, ◌<◌, ◌↔◌, ℕ, length, OnOk};
ghost use Rattle.std.specs.List.{Contains};
ghost use Rattle.graph_types.specs.Analyses.{LeadsTo};
ghost use Rattle.graph_types.specs.Limits.{most_names};

use graph_version::ViewEdges;
use std::alloc::AllocError;

/// Where a step leads from each vertex. A search asks for no more than this.
pub trait Steps {
    /// How many vertices there are.
    ghost vertices: { Self → ℕ };

    /// Whether a step leads from one vertex to another.
    ghost leads: { Self → ℕ → ℕ → Type 0 };

    /// How many vertices there are, at most 67,108,863; their numbers are those below. Each step is between vertices.
    fn vertex_count(&self) -> usize
        ensures is { result ≡ vertices self.now }
        ensures few { result ≤ most_names }
        ensures within { (a b : ℕ) → leads self.now a b → (a < vertices self.now) × (b < vertices self.now) };

    /// Puts the vertices to which a step leads from this one in place of what `next` had, in any order, each as often as may be.
    /// None lead from a number that is no vertex. It fails if memory runs out; then the list may have anything.
    fn list_next(&self, vertex: u32, next: &mut Vec<u32>) -> Result<(), AllocError>
        ensures { OnOk result ((b : ℕ) → Contains next.new.items b ↔ leads self.now vertex b) };
}

/// Steps along the edges of a view, each from its source to its target.
pub struct Along<'e, R> {
    pub edges: &'e R,
}

// By hand, so that the edges need not be what may be let go.
impl<R> Drop for Along<'_, R> {
    fn drop(self) {
        let Along { edges: _edges } = self;
    }
}

impl<R: ViewEdges> Steps for Along<'_, R> {
    ghost vertices = { λ steps. length (R.graph steps.edges.now).names };

    ghost leads = { λ steps. LeadsTo (R.filter steps.edges.now) (R.graph steps.edges.now) };

    fn vertex_count(&self) -> usize {
        self.edges.vertex_count()
    }

    fn list_next(&self, vertex: u32, next: &mut Vec<u32>) -> Result<(), AllocError> {
        self.edges.list_targets(vertex, next)
    }
}
