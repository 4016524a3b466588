//! What a Post asks and sets.

ghost use Rattle.std.specs.Prelude.{◌≡◌, ◌≢◌, ◌&&◌, nat_lt, IfOk, IsTrue, IsFalse, MatchOption, MatchResult, length};
ghost use Rattle.std.specs.Option.{option_map};
ghost use Rattle.std.specs.declared.option.Option.TheVariants.{None};
ghost use Rattle.graph_types.specs.Graph.{graph_in, graph_of, IsContent, IsContentIn};
ghost use Rattle.epoch_core.specs.Blocks as definitions;
ghost use Rattle.epoch_core.specs.Versions as specs;
ghost use Rattle.epoch_core.specs.Versions.{graph_at};
ghost use Rattle.epoch_core.specs.Posting as posting;

use crate::blocks::{all_differ, all_listable, status_after};
use crate::contents::{are_edges_of, edges_of};
use crate::states::{Opening, Version};
use crate::versions::{blocks_at, content_with};
use block_reclamation::BlockStatus;
use graph_model::plain_apply_in;
use graph_types::{ApplyError, Batch, Content, Edge, Limits, List};
use std::alloc::{AllocError, Global};

/// The content of the last version, its edges read from its blocks.
fn last_content(
    alloc: Global,
    opening: &Opening,
    heap: &[List<Edge>],
    versions: &[Version],
) -> Result<Content, AllocError>
    ensures { IfOk result (λ content. content ≡ posting.last_content opening.now heap.now versions.now) }
{
    let last = versions.len() as u64;
    let edges = edges_of(alloc, heap, blocks_at(opening, versions, last))?;
    content_with(alloc, opening, versions, last, edges)
}

/// What a refused batch leaves: nothing where it meets the limit on names or on kinds; out of memory stays that.
fn left_of(refusal: ApplyError) -> Result<Option<Content>, AllocError>
    ensures { MatchResult result (λ after. (after ≡ None) × (refusal ≢ ApplyError.OutOfMemory))
        (λ _. refusal ≡ ApplyError.OutOfMemory) }
{
    match refusal {
        ApplyError::OutOfMemory => Err(AllocError),
        _ => Ok(None),
    }
}

/// What the batch leaves of the content, or `None` where it would meet the limit on names or on kinds.
#[tactic(auto, using(graph_types::proofs::LimitsKept::limits_after_all))]
fn after_batch(
    alloc: Global,
    limits: Limits,
    mut content: Content,
    batch: &Batch,
) -> Result<Option<Content>, AllocError>
    requires { IsContentIn limits content }
    ensures { IfOk result (λ after. posting.IsContentAfter limits content batch.now after) }
{
    match plain_apply_in(alloc, limits, &mut content, batch) {
        Ok(_) => Ok(Some(content)),
        Err(refusal) => left_of(refusal),
    }
}

/// Whether one more version may list these blocks: there are fewer batches than the limit, each block is granted or of the last
/// version, and none stands twice. It takes no memory.
fn may_list(
    opening: &Opening,
    status: &[BlockStatus],
    versions: &[Version],
    blocks: &[usize],
) -> bool
    ensures { result ≡ (nat_lt (length versions.now) opening.now.limits.batches && posting.all_listable status.now
        (specs.blocks_at opening.now versions.now (length versions.now)) blocks.now && definitions.all_differ blocks.now) }
{
    versions.len() < opening.limits.batches() as usize
        && all_listable(
            status,
            blocks_at(opening, versions, versions.len() as u64),
            blocks,
        )
        && all_differ(blocks)
}

/// The version of this batch and content on these blocks, or `None` where the blocks' edges aren't each once the content's.
fn version_on(
    alloc: Global,
    heap: &[List<Edge>],
    content: Content,
    batch: &Batch,
    blocks: &[usize],
) -> Result<Option<Version>, AllocError>
    requires { IsContent content }
    ensures { IfOk result (λ made. MatchOption made
        (IsFalse (posting.are_edges_of (graph_of content) (specs.edges_of heap.now blocks.now)))
        (λ version. IsTrue (posting.are_edges_of (graph_of content) (specs.edges_of heap.now blocks.now))
        × (version ≡ record { batch = batch.now; blocks = blocks.now; names = content.names; kinds = content.kinds }))) }
{
    let edges = edges_of(alloc, heap, blocks)?;
    if !are_edges_of(&content, edges.as_slice()) {
        return Ok(None);
    }
    let batch = batch.clone()?;
    let blocks = List::of(Vec::from_slice(alloc, blocks)?);
    let (names, kinds) = content.into_names();
    Ok(Some(Version {
        batch,
        blocks,
        names,
        kinds,
    }))
}

/// What posting the batch on these blocks would set, each block's status and the new version; `None` where it
/// is skipped: there are as many batches as there may be, a block is neither granted nor of the last version or stands twice, the
/// batch meets a limit, or the blocks' edges aren't each once what the batch leaves. The edges of the last version are
/// read from its blocks, which must show what the batches left. Out of memory is the only error.
pub fn plan_post(
    alloc: Global,
    opening: &Opening,
    heap: &[List<Edge>],
    status: &[BlockStatus],
    versions: &[Version],
    batch: &Batch,
    blocks: &[usize],
) -> Result<Option<(Vec<BlockStatus>, Version)>, AllocError>
    requires content { IsContentIn opening.now.limits (posting.last_content opening.now heap.now versions.now) }
    requires graph { graph_in opening.now.limits (posting.last_content opening.now heap.now versions.now)
        ≡ graph_at opening.now versions.now (length versions.now) }
    ensures { IfOk result (λ plan. posting.IsPlanOf opening.now heap.now status.now versions.now batch.now blocks.now
        (option_map (λ p. (p.0.items, p.1)) plan)) }
{
    if !may_list(opening, status, versions, blocks) {
        return Ok(None);
    }
    let last = last_content(alloc, opening, heap, versions)?;
    let Some(content) = after_batch(alloc, opening.limits, last, batch)? else {
        return Ok(None);
    };
    let Some(version) = version_on(alloc, heap, content, batch, blocks)? else {
        return Ok(None);
    };
    let number = versions.len() as u64 + 1;
    let status = status_after(alloc, number, blocks, status)?;
    Ok(Some((status, version)))
}
