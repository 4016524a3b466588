//! A batch on its way: its blocks are granted, and then it is ready, while the desk is still the one of before.

ghost use Rattle.std.specs.Prelude.{◌≡◌, ◌<◌, ◌≤◌, ◌+◌, ℕ, List, length, count_by, vec_len, IfOk, IfErr, OnOk, OnErr};
ghost use Rattle.std.specs.Arc.{arc_value};
ghost use Rattle.std.specs.Coded.{codes};
ghost use Rattle.graph_types.specs.Coded.{graph_code};
ghost use Rattle.graph_types.specs.Step.{outcomes};
ghost use Rattle.graph_version.specs.Batches.{batch_value};
ghost use Rattle.graph_version.specs.declared.versions.Version.{Version};
ghost use Rattle.graph_version.specs.Differences.{DifferAt};
ghost use Rattle.graph_version.specs.Versions.{VersionView, content};
ghost use Rattle.batch_shards.specs.RowBlocks.{shared_numbers};
ghost use Rattle.batch_apply.specs.Rewritten.{IsRewritten};
ghost use Rattle.block_reclamation.specs.Status.{is_free, is_retired};
ghost use Rattle.block_reclamation.specs.declared.status.BlockStatus.TheVariants as statuses;
ghost use Rattle.block_pool.specs.Pools.{AreFree, marked};
ghost use Rattle.store_steps.specs.Acceptances.{Accepts};
ghost use Rattle.store_steps.specs.Desks.{IsDesk};
ghost use Rattle.desk.specs.Applying.{IsPrepared};
ghost use Rattle.desk.specs.Kept.{desk_in};
ghost use Rattle.desk.specs.Ready.{IsGranted, IsLoad, IsReady, old_of, ops_of};
ghost use Rattle.desk.specs.Refusals.{Refuses, IsWithin, IsPlanned};

use crate::applying::{Prepared, grant_blocks, made_of, next_number};
use crate::desks::{Desk, Parts};
use crate::entries::JournalEntry;
use crate::moves::{born_blocks, give_back_numbers, move_blocks};
use batch_apply::{Plan, Rewritten};
use block_pool::Grant;
use edge_block::Block;
use graph_types::{ApplyError, Batch, List, Outcome, VertexId};
use graph_version::{RowTable, Version};
use std::alloc::AllocError;
use std::marker::Model;
use std::sync::Arc;

/// What is needed to apply a batch to the desk's last version.
#[derive(Drop)]
pub(crate) struct Load {
    pub(crate) plan: Plan,
    pub(crate) batch: Arc<Batch>,
    /// As many fresh blocks as the plan's shards may take.
    pub(crate) blocks: Vec<Arc<Block>>,
    /// A table with the last version's rows, if there is one: the next version is made in it.
    pub(crate) table: Option<RowTable>,
}

/// A desk that has granted blocks for a batch. It ends in [`ready`](Granted::ready); where it is dropped, so is the desk.
pub(crate) struct Granted {
    parts: Box<Parts>,
    numbers: Vec<u32>,
    batch: Arc<Batch>,
}

// Written by hand: who lets one go rests on this function, and not on how each part is let go.
impl Drop for Granted {
    fn drop(self) {
        let Granted {
            parts: _parts,
            numbers: _numbers,
            batch: _batch,
        } = self;
    }
}

impl Model for Granted {
    ghost use Rattle.std.specs.Coded.{codes};
    ghost use Rattle.graph_types.specs.Coded.{graph_code};
    ghost use Rattle.graph_version.specs.Batches.{batch_value};
    ghost use Rattle.desk.specs.Ready.{GrantedView, IsGranted, old_of};

    ghost Value = { GrantedView };

    ghost coded = { Prim.hlevel (codes, graph_code) };

    ghost view = { λ g. record {
      old = old_of g.parts.value g.numbers.items;
      ops = batch_value g.batch;
      numbers = g.numbers.items;
    } };

    ghost invariant = { λ g. IsGranted g.parts.value g.numbers.items };
}

/// A desk with a batch that is ready: the next version is made, and there is room for all that its acceptance takes. It ends in
/// [`finish`](Ready::finish) or [`cancel`](Ready::cancel); where it is dropped, so is the desk.
///
/// ```
/// let ready = desk.begin(batch)?;
/// let shown = Arc::try_clone(ready.version());
/// let desk = if shown.is_ok() { ready.finish().0 } else { ready.cancel() };
/// ```
pub struct Ready {
    parts: Box<Parts>,
    numbers: Vec<u32>,
    prepared: Prepared,
}

// Written by hand: who lets one go rests on this function, and not on how each part is let go.
impl Drop for Ready {
    fn drop(self) {
        let Ready {
            parts: _parts,
            numbers: _numbers,
            prepared: _prepared,
        } = self;
    }
}

impl Model for Ready {
    ghost use Rattle.std.specs.Coded.{codes};
    ghost use Rattle.graph_types.specs.Coded.{graph_code};
    ghost use Rattle.desk.specs.Ready.{ReadyView, IsReady, ready_of};

    ghost Value = { ReadyView };

    ghost coded = { Prim.hlevel (codes, graph_code) };

    ghost view = { λ r. ready_of r.parts.value r.numbers.items r.prepared };

    ghost invariant = { λ r. IsReady r.parts.value r.numbers.items r.prepared };
}

/// The answer to an accepted batch: the number of the version that it made, and its operations' outcomes in their order.
#[derive(Drop)]
pub struct Accepted {
    pub number: u64,
    pub outcomes: List<Outcome>,
}

impl Granted {
    /// The blocks that were granted to a desk of these parts.
    pub(crate) fn of(parts: Box<Parts>, numbers: Vec<u32>, batch: Arc<Batch>) -> Granted
        requires { IsGranted parts.value numbers.items }
        ensures { result ≡ record {
          old = old_of parts.value numbers.items;
          ops = batch_value batch;
          numbers = numbers.items;
        } }
    {
        Granted {
            parts,
            numbers,
            batch,
        }
    }

    /// The desk's last version, to which the batch is applied.
    pub(crate) fn last(&self) -> &Version
        ensures { result.now ≡ self.now.old.last }
    {
        self.parts.last.version()
    }

    /// Takes what the batch left of the last version, and makes room for its acceptance. If memory runs out, for that or before,
    /// the desk comes back as it was.
    pub(crate) fn ready(self, rewritten: Result<Rewritten, AllocError>) -> Result<Ready, Desk>
        requires { IfOk rewritten (IsRewritten self.old.last self.ops self.numbers) }
        ensures begun { IfOk result (λ r. (r.old ≡ self.old) × (r.ops ≡ self.ops)) }
        ensures accepts { IfOk result (λ r. Accepts self.old self.ops r.new) }
        ensures unchanged { IfErr result (λ d. d ≡ self.old) }
    {
        let Granted {
            mut parts,
            numbers,
            batch,
        } = self;
        match made_with_room(&mut parts, rewritten, batch) {
            Ok(prepared) => Ok(Ready::of(parts, numbers, prepared)),
            Err(_refused) => Err(cancelled(parts, numbers)),
        }
    }
}

/// The desk of before.
fn cancelled(mut parts: Box<Parts>, numbers: Vec<u32>) -> Desk
    requires { IsGranted parts.value numbers.items }
    ensures { result ≡ old_of parts.value numbers.items }
{
    give_back_numbers(&mut parts.pool, numbers);
    Desk { parts }
}

/// What was made of a batch, with room for its entry, and then for as many as blocks are retired.
fn made_with_room(
    parts: &mut Parts,
    rewritten: Result<Rewritten, AllocError>,
    batch: Arc<Batch>,
) -> Result<Prepared, AllocError>
    ensures prepared { IfOk result (λ p. (v : VersionView) (numbers : List ℕ)
        → IfOk rewritten (IsRewritten v (batch_value batch) numbers) → IsPrepared v (batch_value batch) numbers p) }
    ensures room { IfOk result (λ p. count_by is_retired parts.new.pool + vec_len p.dropped + 1 ≤ parts.new.journal.room) }
    ensures same { (parts.new.opened ≡ parts.old.opened) × (parts.new.last ≡ parts.old.last) × (parts.new.pool ≡ parts.old.pool) }
    ensures journal { parts.new.journal.entries ≡ parts.old.journal.entries }
    ensures keeps { parts.new.journal.keeps ≡ parts.old.journal.keeps }
    ensures grows { parts.old.journal.room ≤ parts.new.journal.room }
{
    let rewritten = rewritten?;
    let prepared = made_of(parts.alloc, rewritten, batch)?;
    let room = parts.pool.retired() as usize + prepared.dropped.len() + 1;
    parts.journal.reserve(room)?;
    Ok(prepared)
}

/// Grants as many blocks as a batch's plan may take; or changes nothing.
pub(crate) fn grant_for(
    parts: &mut Parts,
    batch: &Arc<Batch>,
    plan: Plan,
) -> Result<(Vec<u32>, Load), ApplyError>
    requires desk { IsDesk (desk_in parts.old) }
    requires planned { (workers : ℕ) × IsPlanned (desk_in parts.old).last workers (batch_value batch.now) plan }
    ensures free { IfOk result (λ r. AreFree parts.old.pool r.0.items) }
    ensures granted { IfOk result (λ r. parts.new.pool ≡ marked r.0.items statuses.Granted parts.old.pool) }
    ensures numbers { IfOk result (λ r. r.0.items ≡ shared_numbers r.1.blocks.items) }
    ensures load { IfOk result (λ r. IsLoad (desk_in parts.old).last (batch_value batch.now) plan r.1) }
    ensures within { OnOk result (IsWithin (desk_in parts.old).last (count_by is_free parts.old.pool) (batch_value batch.now)) }
    ensures refused { IfErr result (Refuses (desk_in parts.old).last (count_by is_free parts.old.pool) (batch_value batch.now)) }
    ensures same { (parts.new.opened ≡ parts.old.opened) × (parts.new.last ≡ parts.old.last)
        × (parts.new.journal ≡ parts.old.journal) }
    ensures unchanged { OnErr result (parts.new.pool ≡ parts.old.pool) }
{
    let shared = Arc::try_clone(batch)?;
    let Grant { numbers, blocks } = grant_blocks(&mut parts.pool, batch, &plan)?;
    let load = Load {
        plan,
        batch: shared,
        blocks,
        table: parts.last.take_table(),
    };
    Ok((numbers, load))
}

impl Ready {
    /// The batch is accepted: its version is the last, and the journal has its entry. Nothing is refused: if there is no memory
    /// to bring the table of rows up to date, the desk goes on without one.
    pub fn finish(self) -> (Desk, Accepted)
        ensures desk { result.0 ≡ self.new }
        ensures number { result.1.number ≡ length self.new.last.batches }
        ensures outcomes { result.1.outcomes ≡ outcomes self.ops (content self.old.last) }
    {
        let Ready {
            mut parts,
            numbers: _numbers,
            prepared,
        } = self;
        let Prepared {
            version,
            outcomes,
            batch,
            taken,
            dropped_numbers,
            dropped,
            unused,
            sources,
        } = prepared;
        let kept = &mut *parts;
        let number = next_number(kept.last.version());
        born_blocks(&mut kept.pool, taken.as_slice(), number);
        let entry = JournalEntry::Applied {
            batch,
            taken: List::of(taken),
            dropped: List::of(dropped_numbers),
        };
        kept.journal.enter(entry);
        kept.last.follow(version, sources.as_slice());
        move_blocks(&mut kept.pool, dropped, unused, number);
        let outcomes = List::of(outcomes);
        (Desk { parts }, Accepted { number, outcomes })
    }

    /// The batch is given up: the desk is the one of before. It takes no memory.
    pub fn cancel(self) -> Desk
        ensures { result ≡ self.old }
    {
        let Ready {
            parts,
            numbers,
            prepared: _prepared,
        } = self;
        cancelled(parts, numbers)
    }

    /// The version that the batch leaves.
    pub fn version(&self) -> &Arc<Version>
        ensures { arc_value {X = Version} result.now ≡ self.now.new.last }
    {
        &self.prepared.version
    }

    /// The sources at which the batch may have changed the rows: those of all other sources are the last version's.
    ///
    /// ```
    /// let rewritten = ready.sources().len();
    /// ```
    pub fn sources(&self) -> &[VertexId]
        ensures { DifferAt result.now self.now.old.last.rows self.now.new.last.rows }
    {
        self.prepared.sources.as_slice()
    }

    /// The next version was prepared for a desk of these parts.
    fn of(parts: Box<Parts>, numbers: Vec<u32>, prepared: Prepared) -> Ready
        requires { IsReady parts.value numbers.items prepared }
        ensures old { result.old ≡ old_of parts.value numbers.items }
        ensures ops { result.ops ≡ ops_of prepared }
        ensures accepts { Accepts result.old result.ops result.new }
    {
        Ready {
            parts,
            numbers,
            prepared,
        }
    }
}
