//! A view of a version.

ghost use Rattle.graph_version.specs.Versions.{content};

use crate::Version;
use crate::source::ViewEdges;
use graph_types::{Filter, VertexId};
use std::alloc::AllocError;

/// The edges of a version that a filter lets through. A window that ends before it begins lets none through, nor does a
/// kind that the version doesn't have.
#[derive(Clone, Copy)]
pub struct VersionEdges<'v> {
    pub version: &'v Version,
    pub filter: Filter,
}

impl ViewEdges for VersionEdges<'_> {
    ghost filter = { λ edges. edges.filter };

    ghost graph = { λ edges. content edges.version.now };

    fn vertex_count(&self) -> usize {
        self.version.names().len()
    }

    #[inline(always)]
    fn list_targets(&self, source: u32, targets: &mut Vec<u32>) -> Result<(), AllocError> {
        targets.clear();
        for block in self.version.row_blocks(VertexId(source)) {
            block.list_targets(&self.filter, targets)?;
        }
        Ok(())
    }
}
