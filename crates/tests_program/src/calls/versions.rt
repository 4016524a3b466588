// Versions, batches over them and answers over them, and the machine of interleavings.

ghost use Rattle.std.specs.Prelude.{◌≡◌, ◌≢◌, ◌<◌, ◌≤◌, ◌^◌, ℕ, length, false, All, AllPairs};
ghost use Rattle.std.specs.List.{sum_by};
ghost use Rattle.graph_version.specs.Batches.{batch_value};
ghost use Rattle.graph_version.specs.Rows as rows;
ghost use Rattle.graph_version.specs.Rows.{row_of};
ghost use Rattle.batch_shards.specs.RowBlocks.{shared_numbers};
ghost use Rattle.graph_version.specs.Versions.{content, is_in};
ghost use Rattle.graph_version.specs.Drafts.{IsWhole};
ghost use Rattle.graph_version.specs.Sharing.{block_values};
ghost use Rattle.graph_version.specs.Rebased.{AreCopies};
ghost use Rattle.epoch_core.specs.Opened.{IsOpening};
ghost use Rattle.batch_apply.specs.Planned.{IsPlan};

use batch_apply::{Applied, Gate, PassAll, Plan, PlanError, apply, plan};
use edge_block::{Block, EdgeRef};
use epoch_core::{Core, Event, OutOfMemory, Step, law_epoch, law_isolation, run};
use graph_cores::{cores, degrees};
use graph_levels::{LevelError, labels, levels};
use graph_model::{
    AskError, Batch, Content, Degree, Edge, Filter, KindId, List, PinCopy, Reply, VertexId,
};
use graph_version::{Version, VersionDraft};
use std::alloc::{AllocError, Global};
use std::sync::Arc;
use std::thread::Threads;
use vertex_names::NameBook;

fn begins(alloc: Global, version: &Version) -> (Version, Result<VersionDraft, AllocError>) {
    (Version::empty(alloc), VersionDraft::over(version))
}

fn lends<'v>(version: &'v Version, source: VertexId) -> (Option<EdgeRef<'v>>, &'v [Arc<Block>]) {
    (
        version.edge(KindId(0), source, VertexId(1)),
        version.row_blocks(source),
    )
}

fn counts(version: &Version) -> (u64, u64, usize, usize) {
    (
        version.number(),
        version.edge_count(),
        version.names().len(),
        version.kinds().len(),
    )
}

fn goes_through(version: &Version, source: VertexId) -> (bool, bool, bool) {
    (
        version.batches().next().is_none(),
        version.row(source).next().is_none(),
        version.blocks().next().is_none(),
    )
}

fn drafts(
    draft: VersionDraft,
    names: NameBook,
    kinds: NameBook,
    source: VertexId,
    blocks: Vec<Arc<Block>>,
) -> Result<VersionDraft, AllocError> {
    draft.set_names(names, kinds).replace_row(source, blocks)
}

fn pushes(draft: VersionDraft, batch: Arc<Batch>) -> Result<VersionDraft, AllocError>
    requires { length draft.version.batches < 2 ^ 32 }
{
    draft.push_batch(batch)
}

fn finishes(draft: VersionDraft) -> Version
    requires { IsWhole draft }
{
    draft.finish()
}

fn rebases(version: &Version, blocks: Vec<Arc<Block>>) -> (Result<Version, AllocError>, &Content)
    requires { AreCopies version.now.rows (block_values blocks.items) }
{
    (version.rebased(blocks), version.opening())
}

fn plans(alloc: Global, version: &Version, batch: &Batch) -> Result<Plan, PlanError> {
    plan(alloc, version, batch, 8)
}

fn arrives<G: Gate>(gate: &G) {
    gate.arrive(0, 1);
}

fn applies<R: Threads + Sync>(
    rt: &R,
    alloc: Global,
    version: &Version,
    plan: Plan,
    batch: Arc<Batch>,
    blocks: Vec<Arc<Block>>,
) -> Result<Applied, AllocError>
    requires plan { (workers : ℕ) × (0 < workers) × IsPlan workers (batch_value batch) (content version.now)
        (row_of version.now.rows) plan }
    requires few { length version.now.batches < (content version.now).limits.batches }
    requires blocks { sum_by (λ n. n) plan.needs.items ≤ length blocks.items }
    requires distinct { AllPairs ◌≢◌ (shared_numbers blocks.items) }
    requires unlisted { All (λ n. is_in n (rows.numbers_of (rows.blocks_of version.now.rows)) ≡ false) (shared_numbers blocks.items) }
{
    apply(rt, alloc, &PassAll, version, plan, batch, blocks)
}

type Walked = (
    Result<Vec<Option<u32>>, LevelError>,
    Result<Vec<VertexId>, AllocError>,
);

fn walks(alloc: Global, version: &Version, filter: &Filter) -> Walked {
    (
        levels(alloc, version, VertexId(0), filter),
        labels(alloc, version, filter),
    )
}

type Counted = (
    Result<Vec<u32>, AllocError>,
    Result<Vec<Degree>, AllocError>,
);

fn counts_edges(alloc: Global, version: &Version, filter: &Filter) -> Counted {
    (
        cores(alloc, version, filter),
        degrees(alloc, version, filter),
    )
}

fn machines(alloc: Global) -> Result<Core, OutOfMemory> {
    law_isolation();
    law_epoch();
    Core::new(alloc, 1, 2)
}

fn machines_over(
    alloc: Global,
    content: &Content,
    lists: &[(u32, List<Edge>)],
) -> Result<Core, OutOfMemory>
    requires { IsOpening 2 content.now lists.now }
{
    Core::opened(alloc, 1, 2, content, lists)
}

fn copied(core: &Core) -> PinCopy {
    core.copied()
}

type Stepped = (Result<Step, OutOfMemory>, Result<u32, OutOfMemory>);

fn steps(core: &mut Core, event: Event, events: &[Event]) -> Stepped {
    (core.step(event), run(core, events))
}

type Shown<'c> = (u64, Option<u64>, Option<u64>, &'c [Result<Reply, AskError>]);

fn shows(core: &Core, session: usize) -> Shown<'_>
    requires { session < length core.now.world.sessions }
{
    (
        core.floor(),
        core.held(session),
        core.pin_of(session),
        core.replies(session),
    )
}
