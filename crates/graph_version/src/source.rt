//! Where the edges of a view come from.

ghost use Rattle.std.specs.Prelude.{◌≡◌, ◌≤◌, ◌<◌, ◌↔◌, ℕ, length, OnOk};
ghost use Rattle.std.specs.List.{Contains};
ghost use Rattle.graph_types.specs.Graph.{Graph};
ghost use Rattle.graph_types.specs.Limits.{most_names};
ghost use Rattle.graph_types.specs.Analyses.{LeadsTo};
ghost use Rattle.graph_types.specs.declared.ids.Filter.{Filter};

use std::alloc::AllocError;

/// The edges of a graph that a filter lets through, by their sources. The analyses ask for no more of a graph than this.
pub trait ViewEdges {
    /// Which edges are in the view.
    ghost filter: { Self → Filter };

    /// The graph whose edges they are.
    ghost graph: { Self → Graph };

    /// How many vertices the graph has, at most 67,108,863; their numbers are those below. Each edge of the view is
    /// between vertices of the graph.
    fn vertex_count(&self) -> usize
        ensures is { result ≡ length (graph self.now).names }
        ensures few { result ≤ most_names }
        ensures within { (a b : ℕ) → LeadsTo (filter self.now) (graph self.now) a b
            → (a < length (graph self.now).names) × (b < length (graph self.now).names) };

    /// Puts the targets of the view's edges out of this vertex in place of what `targets` had, in any order; a target
    /// may stand more than once, as parallel edges of two kinds have it. None lead out of a number that is no vertex.
    /// It fails if memory runs out; then the list may have anything.
    fn list_targets(&self, source: u32, targets: &mut Vec<u32>) -> Result<(), AllocError>
        ensures { OnOk result ((b : ℕ) → Contains targets.new.items b ↔ LeadsTo (filter self.now) (graph self.now) source b) };
}
