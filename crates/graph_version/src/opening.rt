//! What versions began with.

ghost use Rattle.std.specs.Prelude.{◌≡◌, false, true, IfOk};
ghost use Rattle.graph_types.specs.Graph.{IsContentIn, graph_in};
ghost use Rattle.graph_types.specs.Step.{empty_graph_in};
ghost use Rattle.graph_version.specs.Versions.{content as content_of};
ghost use Rattle.graph_version.specs.Begun.{graph_by};
ghost use Rattle.graph_version.specs.Kept.{opening_graph};
ghost use Rattle.graph_version.specs.Logs.{keeps_batches};

use crate::begun::Begun;
use crate::listed::ListedContent;
use crate::told_graph::ToldGraph;
use crate::told_opening::ToldOpening;
use crate::versions::Version;
use graph_types::{Content, Limits, List};
use std::alloc::{AllocError, Global};
use std::sync::Arc;

/// What a version began with, before its first batch: a content that all versions after it share. The empty one takes no
/// memory, so that each version has its own. Where batches aren't kept, it stands in the proofs alone.
#[derive(Drop)]
pub(crate) enum Opening {
    Alone(ListedContent),
    Shared(Arc<ListedContent>),
    Told(ToldOpening),
}

/// No name, no kind, no edge.
#[tactic(auto, using(graph_types::proofs::Empty::empty_content_in))]
fn blank(alloc: Global, limits: Limits) -> ListedContent
    ensures graph { graph_in limits result.content ≡ empty_graph_in limits }
    ensures limits { result.limits ≡ limits }
{
    ListedContent {
        content: Content {
            names: List::of(Vec::new(alloc)),
            kinds: List::of(Vec::new(alloc)),
            edges: List::of(Vec::new(alloc)),
        },
        limits,
    }
}

impl Opening {
    /// No name, no kind, no edge.
    pub(crate) fn empty(alloc: Global, limits: Limits) -> Opening
        ensures { opening_graph result ≡ empty_graph_in limits }
    {
        Opening::Alone(blank(alloc, limits))
    }

    /// What a version holds, in the proofs alone.
    pub(crate) fn told(alloc: Global, version: &Version, limits: Limits) -> Opening
        requires limits { limits ≡ (content_of version.now).limits }
        requires forgets { keeps_batches limits ≡ false }
        ensures { opening_graph result ≡ content_of version.now }
    {
        Opening::Told(ToldOpening {
            graph: ToldGraph::of(version),
            blank: blank(alloc, limits),
        })
    }

    /// What a version is to begin with, in the proofs alone.
    pub(crate) fn told_of(alloc: Global, begun: &Begun) -> Opening
        requires { keeps_batches begun.now.limits ≡ false }
        ensures { opening_graph result ≡ graph_by begun.now.limits begun.now.names.names begun.now.kinds.names begun.now.rows }
    {
        Opening::Told(ToldOpening {
            graph: ToldGraph::by(begun),
            blank: blank(alloc, begun.limits),
        })
    }

    /// The same for the next version.
    pub(crate) fn share(&self) -> Result<Opening, AllocError>
        ensures { IfOk result (λ opening. opening_graph opening ≡ opening_graph self.now) }
    {
        match self {
            Opening::Alone(listed) => Ok(Opening::Alone(listed.share()?)),
            Opening::Shared(listed) => Ok(Opening::Shared(Arc::try_clone(listed)?)),
            Opening::Told(told) => Ok(Opening::Told(told.share()?)),
        }
    }

    /// The content, where batches are kept, and else the empty one.
    pub(crate) fn content(&self) -> &Content
        ensures same { keeps_batches (opening_graph self.now).limits ≡ true
            → graph_in (opening_graph self.now).limits result.now ≡ opening_graph self.now }
        ensures content { IsContentIn (opening_graph self.now).limits result.now }
    {
        match self {
            Opening::Alone(listed) => &listed.content,
            Opening::Shared(listed) => &listed.content,
            Opening::Told(told) => &told.blank.content,
        }
    }

    pub(crate) fn limits(&self) -> Limits
        ensures { result ≡ (opening_graph self.now).limits }
    {
        match self {
            Opening::Alone(listed) => listed.limits,
            Opening::Shared(listed) => listed.limits,
            Opening::Told(told) => told.blank.limits,
        }
    }
}
