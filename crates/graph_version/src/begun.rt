//! Version 0 over rows that were made apart.

ghost use Rattle.std.specs.Prelude.{◌≡◌, length, IfOk};
ghost use Rattle.graph_types.specs.Graph.{graph_in};
ghost use Rattle.graph_version.specs.Begun.{graph_by, begun_over};
ghost use Rattle.graph_version.specs.Edges.{edges_in_blocks};
ghost use Rattle.graph_version.specs.Kept.{opening_graph};
ghost use Rattle.graph_version.specs.Rows.{blocks_of};
ghost use Rattle.graph_version.specs.Versions.{IsVersion};

use crate::batch_log::{BatchLog, keeps_batches};
use crate::listed::ListedContent;
use crate::opening::Opening;
use crate::rebase::{edges_in, names_in};
use crate::rows::Rows;
use crate::versions::Version;
use graph_types::{Content, Limits, List};
use std::alloc::{AllocError, Global};
use std::sync::Arc;
use vertex_names::NameBook;

/// What a version begins with: its limits, its names and kinds, and its rows.
#[derive(Drop)]
pub(crate) struct Begun {
    pub(crate) limits: Limits,
    pub(crate) names: NameBook,
    pub(crate) kinds: NameBook,
    pub(crate) rows: Rows,
}

impl Begun {
    /// Its graph as an opening: as plain lists where batches are kept, and else in the proofs alone.
    fn as_opening(&self, alloc: Global) -> Result<Opening, AllocError>
        requires { IsVersion (begun_over self.now.limits self.now.names.names self.now.kinds.names self.now.rows) }
        ensures { IfOk result (λ opening. opening_graph opening
            ≡ graph_by self.now.limits self.now.names.names self.now.kinds.names self.now.rows) }
    {
        if keeps_batches(self.limits) {
            Ok(Opening::Shared(Arc::new(alloc, self.contents(alloc)?)?))
        } else {
            Ok(Opening::told_of(alloc, self))
        }
    }

    /// Its graph as plain lists.
    fn contents(&self, alloc: Global) -> Result<ListedContent, AllocError>
        requires { IsVersion (begun_over self.now.limits self.now.names.names self.now.kinds.names self.now.rows) }
        ensures { IfOk result (λ listed. graph_in listed.limits listed.content
            ≡ graph_by self.now.limits self.now.names.names self.now.kinds.names self.now.rows) }
    {
        let content = Content {
            names: List::of(names_in(alloc, &self.names)?),
            kinds: List::of(names_in(alloc, &self.kinds)?),
            edges: List::of(edges_in(alloc, &self.rows)?),
        };
        Ok(ListedContent {
            content,
            limits: self.limits,
        })
    }
}

impl Version {
    /// Version 0 over rows: it begins with the graph of these names and kinds whose edges are those of the rows, so many, each
    /// once. It takes no memory by edges; where batches are kept, also that of the graph as plain lists.
    pub fn begun(
        alloc: Global,
        limits: Limits,
        names: NameBook,
        kinds: NameBook,
        rows: Rows,
        edges: u64,
    ) -> Result<Version, AllocError>
        requires names { names.limit ≡ limits.names }
        requires kinds { kinds.limit ≡ limits.kinds }
        requires edges { edges ≡ length (edges_in_blocks (blocks_of rows)) }
        requires version { IsVersion (begun_over limits names.names kinds.names rows) }
        ensures { IfOk result (λ version. version ≡ begun_over limits names.names kinds.names rows) }
    {
        let begun = Begun {
            limits,
            names,
            kinds,
            rows,
        };
        let opening = begun.as_opening(alloc)?;
        let Begun {
            limits,
            names,
            kinds,
            rows,
        } = begun;
        Ok(Version {
            opening,
            names,
            kinds,
            batches: BatchLog::new(alloc, keeps_batches(limits)),
            rows,
            edges,
        })
    }
}
