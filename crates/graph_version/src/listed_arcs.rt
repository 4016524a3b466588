//! A view as a plain list of arcs.

ghost use Rattle.std.specs.Prelude.{◌≡◌, ◌↔◌};
ghost use Rattle.graph_version.specs.Listed.{along, all_edges, leaves_source};

use crate::source::ViewEdges;
use std::alloc::AllocError;

/// A view that is given by its arcs: pairs of a source and a target, in any order, and as often as may be. A small source
/// of edges for tests and examples; each question passes over all arcs.
#[derive(Debug, Drop)]
pub struct ListedArcs {
    /// How many vertices there are.
    pub count: u16,
    /// An arc with an end that is no vertex counts for nothing.
    pub arcs: Vec<(u32, u32)>,
}

impl ViewEdges for ListedArcs {
    ghost filter = { λ _. all_edges };

    ghost graph = { λ edges. along edges.count edges.arcs.items };

    fn vertex_count(&self) -> usize {
        self.count as usize
    }

    fn list_targets(&self, source: u32, targets: &mut Vec<u32>) -> Result<(), AllocError> {
        targets.clear();
        for arc in &self.arcs {
            if leads_from(self.count, source, *arc) {
                targets.push(arc.1)?;
            }
        }
        Ok(())
    }
}

/// Whether an arc between so many vertices leaves this one.
fn leads_from(count: u16, source: u32, arc: (u32, u32)) -> bool
    ensures { result ≡ leaves_source count source arc }
{
    let count = count as u32;
    arc.0 == source && arc.0 < count && arc.1 < count
}
