//! What the plain application leaves of a version's batches.

ghost use Rattle.std.specs.Prelude.{◌≡◌, IfOk, OnOk};
ghost use Rattle.graph_types.specs.Graph.{graph_of, IsContentIn};
ghost use Rattle.graph_types.specs.Limits.{standard_limits};
ghost use Rattle.graph_types.specs.Step.{empty_graph, left_by};
ghost use Rattle.graph_version.specs.BatchLending.{batches_left};

use crate::reports::DriveWord;
use graph_model::plain_apply;
use graph_types::{Batch, Content, List};
use graph_version::{BatchIter, Version};
use std::alloc::Global;

/// The content without names and edges.
#[tactic(auto, using(graph_types::proofs::Empty::empty_content_in))]
fn empty(alloc: Global) -> Content
    ensures content { IsContentIn standard_limits result }
    ensures graph { graph_of result ≡ empty_graph }
{
    Content {
        names: List::of(Vec::new(alloc)),
        kinds: List::of(Vec::new(alloc)),
        edges: List::of(Vec::new(alloc)),
    }
}

/// The batches of a version that began with nothing: its limits are the standard ones, under which they are kept.
fn kept_batches(version: &Version) -> BatchIter<'_>
    requires { version.now.opening ≡ empty_graph }
    ensures { batches_left result ≡ version.now.batches }
{
    version.batches()
}

/// The content that the version's batches leave, one after another, of the empty one.
pub(crate) fn content_of(alloc: Global, version: &Version) -> Result<Content, DriveWord>
    requires { version.now.opening ≡ empty_graph }
    ensures content { IfOk result (IsContentIn standard_limits) }
    ensures graph { IfOk result (λ content. graph_of content ≡ left_by version.now.batches empty_graph) }
{
    let mut content = empty(alloc);
    for batch in kept_batches(version) {
        let _outcomes = plain_apply(alloc, &mut content, batch)?;
    }
    Ok(content)
}
