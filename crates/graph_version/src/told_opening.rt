//! An opening of which memory has nothing.

ghost use Rattle.std.specs.Prelude.{◌≡◌, false, IfOk};
ghost use Rattle.graph_version.specs.Logs.{keeps_batches};

use crate::listed::ListedContent;
use crate::told_graph::ToldGraph;
use std::alloc::AllocError;

/// An opening that stands in the proofs alone, and the empty content.
#[derive(Drop)]
pub(crate) struct ToldOpening {
    pub(crate) graph: ToldGraph,
    pub(crate) blank: ListedContent,
    ghost limits_are: { graph.limits ≡ blank.limits },
    ghost forgets: { keeps_batches blank.limits ≡ false },
}

impl ToldOpening {
    /// The same.
    pub(crate) fn share(&self) -> Result<ToldOpening, AllocError>
        ensures graph { IfOk result (λ copy. copy.graph ≡ self.now.graph) }
    {
        Ok(ToldOpening {
            graph: self.graph.share(),
            blank: self.blank.share()?,
        })
    }
}
