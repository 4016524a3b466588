//! The desk.

ghost use Rattle.std.specs.Prelude.{◌≡◌, ℕ, ◌+◌, ◌<◌, ◌≤◌, ◌++◌, [], length, true, false, map, count_by};
ghost use Rattle.std.specs.Prelude.{IfOk, IfErr, OnOk, OnErr, Err};
ghost use Rattle.std.specs.Arc.{arc_value};
ghost use Rattle.std.specs.Coded.{codes};
ghost use Rattle.graph_types.specs.Coded.{graph_code};
ghost use Rattle.graph_types.specs.Step.{outcomes};
ghost use Rattle.graph_version.specs.Batches.{batch_value};
ghost use Rattle.graph_version.specs.declared.versions.Version.{Version};
ghost use Rattle.graph_version.specs.Versions.{content, empty_version, empty_version_in};
ghost use Rattle.graph_version.specs.Rebased.{IsRebased};
ghost use Rattle.graph_version.specs.Kept.{edge_total};
ghost use Rattle.graph_version.specs.Logs.{keeps_batches};
ghost use Rattle.block_reclamation.specs.Status.{is_free, is_in_use, is_retired, is_reclaimable, most_blocks};
ghost use Rattle.block_reclamation.specs.Copies.{floor_of};
ghost use Rattle.store_steps.specs.Desks.{IsDesk, IsCollected, births_in, collections};
ghost use Rattle.store_steps.specs.Dates.{AreDated};
ghost use Rattle.store_steps.specs.Opening.{IsVersionZero, opened_desk};
ghost use Rattle.store_steps.specs.Acceptances.{Accepts};
ghost use Rattle.store_steps.specs.Steps.{SimulatesAt, recycling};
ghost use Rattle.batch_apply.specs.Listed.{IsKnown};
ghost use Rattle.batch_shards.specs.RowBlocks.{shared_numbers};
ghost use Rattle.desk.specs.Ready.{IsLoad};
ghost use Rattle.desk.specs.Refusals.{Refuses, IsWithin, IsPlanned, block_count};
ghost use Rattle.desk.specs.Kept.{journal_entry};
ghost use Rattle.desk.specs.Openings.{OpensWith, RefusesOpening};

use crate::applying::plan_next;
use crate::copies::KeptCopy;
use crate::entries::JournalEntry;
use crate::errors::OpenError;
use crate::journals::Journal;
use crate::last::Last;
use crate::ready::{Accepted, Granted, Load, Ready, grant_for};
use crate::told_numbers::ToldNumbers;
use crate::zero::Zero;
use batch_apply::{KnownEnds, Plan, apply_alone_over};
use block_pool::Pool;
use block_reclamation::PinCopy;
use core::mem::replace_with;
use graph_types::{ApplyError, Batch, Limits, List};
use graph_version::Version;
use std::alloc::{AllocError, Global};
use std::marker::Model;
use std::sync::Arc;

/// What a desk is made of.
#[derive(Drop)]
pub(crate) struct Parts {
    pub(crate) alloc: Global,
    /// The numbers of version 0's blocks, from which the journal replays.
    pub(crate) opened: ToldNumbers,
    pub(crate) last: Last,
    pub(crate) pool: Pool,
    pub(crate) journal: Journal,
}

/// A desk: the last version, the pool of blocks, and the journal.
///
/// ```
/// let mut desk = Desk::open(alloc, 1_024)?;
/// let accepted = desk.apply(Arc::new(alloc, batch)?)?;
/// assert_eq!(rt; desk.stat().number, accepted.number);
/// ```
pub struct Desk {
    /// In a place of their own, so that a desk is handed on as a pointer.
    pub(crate) parts: Box<Parts>,
}

// Written by hand: who lets one go rests on this function, and not on how each part is let go.
impl Drop for Desk {
    fn drop(self) {
        let Desk { parts: _parts } = self;
    }
}

impl Model for Desk {
    ghost use Rattle.std.specs.Coded.{codes};
    ghost use Rattle.graph_types.specs.Coded.{graph_code};
    ghost use Rattle.store_steps.specs.Desks.{DeskView};
    ghost use Rattle.desk.specs.Kept.{IsKeptDesk, desk_in};

    ghost Value = { DeskView };

    ghost coded = { Prim.hlevel (codes, graph_code) };

    ghost view = { λ d. desk_in d.parts.value };

    ghost invariant = { λ d.
        IsKeptDesk (desk_in d.parts.value) d.parts.value.journal.keeps d.parts.value.journal.room };
}

/// What a collection answers: its floor, how many blocks it recycled, and how many stay retired.
#[derive(Clone, Copy, Debug, PartialEq, Eq)]
pub struct Collected {
    pub floor: u64,
    pub recycled: u32,
    pub retired: u32,
}

/// The counts of a desk: the last version's number, names and edges, and how many blocks are free, retired and used.
#[derive(Clone, Copy, Debug, PartialEq, Eq)]
pub struct Stat {
    pub number: u64,
    pub names: usize,
    pub edges: u64,
    pub free: u32,
    pub retired: u32,
    pub used: u32,
}

impl Desk {
    /// A desk without edges, with so many blocks, all free: version 0, and an empty journal. The limits are the standard ones.
    pub fn open(alloc: Global, blocks: u32) -> Result<Desk, AllocError>
        requires least { 16 ≤ blocks }
        requires most { blocks ≤ most_blocks }
        ensures { IfOk result (λ d. d ≡ opened_desk blocks empty_version) }
    {
        Desk::open_within(alloc, Limits::standard(), blocks)
    }

    /// As `open`, under these limits.
    pub fn open_within(alloc: Global, limits: Limits, blocks: u32) -> Result<Desk, AllocError>
        requires least { 16 ≤ blocks }
        requires most { blocks ≤ most_blocks }
        ensures { IfOk result (λ d. d ≡ opened_desk blocks (empty_version_in limits)) }
    {
        let zero = Zero::blank(alloc, limits, blocks)?;
        Desk::opened(alloc, blocks, zero)
    }

    /// A desk with what a version holds, for which it copies the version's blocks: version 0 begins with the version's content,
    /// its rows are laid out as the version's, and all blocks but its own are free.
    ///
    /// `PoolEmpty` exactly where the version has more blocks than the desk.
    pub fn open_over(alloc: Global, blocks: u32, version: &Version) -> Result<Desk, OpenError>
        requires least { 16 ≤ blocks }
        requires most { blocks ≤ most_blocks }
        ensures zero { IfOk result (λ d. IsVersionZero blocks d.last) }
        ensures rebased { IfOk result (λ d. IsRebased version.now d.last) }
        ensures desk { IfOk result (λ d. d ≡ opened_desk blocks d.last) }
        ensures refused { IfErr result (RefusesOpening (block_count version.now) blocks) }
        ensures exact { blocks < block_count version.now
            → result ≡ Err (OpenError.PoolEmpty (block_count version.now) blocks) }
    {
        let needed = version.block_count();
        if needed > blocks as usize {
            return Err(OpenError::PoolEmpty {
                needed,
                free: blocks,
            });
        }
        let zero = Zero::over(alloc, blocks, version)?;
        Ok(Desk::opened(alloc, blocks, zero)?)
    }

    /// The desk at its opening, over version 0.
    fn opened(alloc: Global, blocks: u32, zero: Zero) -> Result<Desk, AllocError>
        requires least { 16 ≤ blocks }
        requires zero { OpensWith blocks zero }
        ensures { IfOk result (λ d. d ≡ opened_desk blocks (arc_value {X = Version} zero.version)) }
    {
        let Zero {
            version,
            numbers,
            pool,
        } = zero;
        let keeps = version.keeps_batches();
        let parts = Parts {
            alloc,
            opened: numbers,
            last: Last::of(version),
            pool,
            journal: Journal::new(alloc, keeps),
        };
        Ok(Desk {
            parts: Box::new(alloc, parts)?,
        })
    }

    /// Grants blocks for a batch that was planned over the last version; or refuses it, and gives the desk back as it was. What is
    /// then needed to apply the batch goes to whoever does that, with workers or without; [`Granted::ready`] takes what comes of
    /// it.
    ///
    /// `PoolEmpty` where fewer blocks are free than the batch asks for, and `OutOfMemory` where a growth was refused.
    pub(crate) fn grant(
        self,
        batch: Arc<Batch>,
        plan: Plan,
    ) -> Result<(Granted, Load), (Desk, ApplyError)>
        requires planned { (workers : ℕ) × IsPlanned self.last workers (batch_value batch) plan }
        ensures granted { IfOk result (λ r. r.0
            ≡ record { old = self; ops = batch_value batch; numbers = shared_numbers r.1.blocks.items }) }
        ensures load { IfOk result (λ r. IsLoad self.last (batch_value batch) plan r.1) }
        ensures within { OnOk result (IsWithin self.last (count_by is_free self.pool) (batch_value batch)) }
        ensures refused { IfErr result (λ e. Refuses self.last (count_by is_free self.pool) (batch_value batch) e.1) }
        ensures unchanged { IfErr result (λ e. e.0 ≡ self) }
    {
        let Desk { mut parts } = self;
        match grant_for(&mut parts, &batch, plan) {
            Ok((numbers, load)) => Ok((Granted::of(parts, numbers, batch), load)),
            Err(error) => Err((Desk { parts }, error)),
        }
    }

    /// Plans a batch and makes the next version, by the caller alone, with all the memory that its acceptance takes; or refuses
    /// the batch, and gives the desk back as it was. Who wants a refused batch back keeps a shared copy of it.
    ///
    /// Refused are, in this order: a batch behind as many as the limits allow, one that would leave more vertex names than
    /// these, one that would leave more kinds, and one that asks for more blocks than are free. It is refused too if memory runs
    /// out, at any place.
    ///
    /// ```
    /// let desk = match desk.begin(batch) {
    ///     Ok(ready) => ready.finish().0,
    ///     Err((desk, _error)) => desk,
    /// };
    /// ```
    pub fn begin(self, batch: Arc<Batch>) -> Result<Ready, (Desk, ApplyError)>
        ensures begun { IfOk result (λ r. (r.old ≡ self) × (r.ops ≡ batch_value batch)) }
        ensures accepts { IfOk result (λ r. Accepts self (batch_value batch) r.new) }
        ensures within { OnOk result (IsWithin self.last (count_by is_free self.pool) (batch_value batch)) }
        ensures refused { IfErr result (λ e. Refuses self.last (count_by is_free self.pool) (batch_value batch) e.1) }
        ensures unchanged { IfErr result (λ e. e.0 ≡ self) }
    {
        self.begin_known(batch, &KnownEnds::Looked(&[]))
    }

    /// As `begin`, where this is known of the ends of the batch's operations: an end that is known isn't looked up.
    ///
    /// ```
    /// let listing = NameList { sources, targets, names: 1_000 };
    /// let begun = desk.begin_known(batch, &KnownEnds::Listed(listing));
    /// ```
    pub fn begin_known(
        self,
        batch: Arc<Batch>,
        known: &KnownEnds<'_>,
    ) -> Result<Ready, (Desk, ApplyError)>
        requires known { IsKnown (content self.last).names (batch_value batch) known.now }
        ensures begun { IfOk result (λ r. (r.old ≡ self) × (r.ops ≡ batch_value batch)) }
        ensures accepts { IfOk result (λ r. Accepts self (batch_value batch) r.new) }
        ensures within { OnOk result (IsWithin self.last (count_by is_free self.pool) (batch_value batch)) }
        ensures refused { IfErr result (λ e. Refuses self.last (count_by is_free self.pool) (batch_value batch) e.1) }
        ensures unchanged { IfErr result (λ e. e.0 ≡ self) }
    {
        let alloc = self.allocator();
        let plan = match plan_next(alloc, self.last(), &batch, known) {
            Ok(plan) => plan,
            Err(error) => return Err((self, error)),
        };
        let (granted, load) = self.grant(batch, plan)?;
        let Load {
            plan,
            batch,
            blocks,
            table,
        } = load;
        let rewritten = apply_alone_over(alloc, granted.last(), plan, batch, blocks, table);
        match granted.ready(rewritten) {
            Ok(ready) => Ok(ready),
            Err(desk) => Err((desk, ApplyError::OutOfMemory)),
        }
    }

    /// Applies a batch, by the caller alone, and accepts it; or refuses it, and leaves all as it was, as `begin` does.
    pub fn apply(&mut self, batch: Arc<Batch>) -> Result<Accepted, ApplyError>
        ensures accepted { OnOk result (Accepts self.old (batch_value batch) self.new) }
        ensures number { IfOk result (λ a. a.number ≡ length self.new.last.batches) }
        ensures outcomes { IfOk result (λ a. a.outcomes ≡ outcomes (batch_value batch) (content self.old.last)) }
        ensures within { OnOk result (IsWithin self.old.last (count_by is_free self.old.pool) (batch_value batch)) }
        ensures refused { IfErr result (Refuses self.old.last (count_by is_free self.old.pool) (batch_value batch)) }
        ensures unchanged { OnErr result (self.new ≡ self.old) }
    {
        self.apply_known(batch, &KnownEnds::Looked(&[]))
    }

    /// As `apply`, where this is known of the ends of the batch's operations, as in `begin_known`.
    ///
    /// ```
    /// let listing = NameList { sources, targets, names: 1_000 };
    /// let accepted = desk.apply_known(batch, &KnownEnds::Listed(listing))?;
    /// ```
    pub fn apply_known(
        &mut self,
        batch: Arc<Batch>,
        known: &KnownEnds<'_>,
    ) -> Result<Accepted, ApplyError>
        requires known { IsKnown (content self.old.last).names (batch_value batch) known.now }
        ensures accepted { OnOk result (Accepts self.old (batch_value batch) self.new) }
        ensures number { IfOk result (λ a. a.number ≡ length self.new.last.batches) }
        ensures outcomes { IfOk result (λ a. a.outcomes ≡ outcomes (batch_value batch) (content self.old.last)) }
        ensures within { OnOk result (IsWithin self.old.last (count_by is_free self.old.pool) (batch_value batch)) }
        ensures refused { IfErr result (Refuses self.old.last (count_by is_free self.old.pool) (batch_value batch)) }
        ensures unchanged { OnErr result (self.new ≡ self.old) }
    {
        replace_with(self, (batch, known), Desk::applied)
    }

    /// As `apply_known`, by value.
    fn applied(self, given: (Arc<Batch>, &KnownEnds<'_>)) -> (Desk, Result<Accepted, ApplyError>)
        requires known { IsKnown (content self.last).names (batch_value given.0) given.1.now }
        ensures accepted { OnOk result.1 (Accepts self (batch_value given.entry.0) result.0) }
        ensures number { IfOk result.1 (λ a. a.number ≡ length result.0.last.batches) }
        ensures outcomes { IfOk result.1 (λ a. a.outcomes ≡ outcomes (batch_value given.entry.0) (content self.last)) }
        ensures within { OnOk result.1 (IsWithin self.last (count_by is_free self.pool) (batch_value given.entry.0)) }
        ensures refused { IfErr result.1 (Refuses self.last (count_by is_free self.pool) (batch_value given.entry.0)) }
        ensures unchanged { OnErr result.1 (result.0 ≡ self) }
    {
        let (batch, known) = given;
        match self.begin_known(batch, known) {
            Ok(ready) => {
                let (desk, accepted) = ready.finish();
                (desk, Ok(accepted))
            }
            Err((desk, error)) => (desk, Err(error)),
        }
    }

    /// Recycles each retired block that the copy of the pins doesn't need; its last number is at most the desk's. It
    /// takes no memory.
    pub fn collect(&mut self, copy: &PinCopy) -> Collected
        requires { copy.now.last ≤ length self.old.last.batches }
        ensures collected { IsCollected self.old copy.now self.new }
        ensures births { (source : ℕ) → births_in self.new source ≡ births_in self.old source }
        ensures steps { SimulatesAt copy.now self.old (recycling copy.now self.old.pool) self.new }
        ensures floor { result.floor ≡ floor_of copy.now }
        ensures recycled { result.recycled ≡ count_by (is_reclaimable copy.now) self.old.pool }
        ensures retired { result.retired ≡ count_by is_retired self.new.pool }
    {
        let parts = &mut *self.parts;
        let recycled = parts.pool.recycle(copy);
        enter_collection(&mut parts.journal, copy, recycled);
        let retired = parts.pool.retired();
        Collected {
            floor: copy.floor(),
            recycled,
            retired,
        }
    }

    /// Gives up the bodies of free blocks, but for so many that are granted next, as [`Pool::slim`].
    pub fn slim(&mut self, keep: usize)
        ensures { self.new ≡ self.old }
    {
        self.parts.pool.slim(keep);
    }

    /// Ends the desk: the last version comes back, and all else is given back.
    pub fn close(self) -> Arc<Version>
        ensures { arc_value {X = Version} result ≡ self.last }
    {
        let Desk { parts } = self;
        let Parts {
            alloc: _alloc,
            opened: _opened,
            last,
            pool: _pool,
            journal: _journal,
        } = Box::into_inner(parts);
        last.into_version()
    }

    /// The last version.
    pub fn last(&self) -> &Arc<Version>
        ensures { arc_value {X = Version} result.now ≡ self.now.last }
    {
        self.parts.last.version()
    }

    /// Where the desk takes its memory.
    pub fn allocator(&self) -> Global {
        self.parts.alloc
    }

    /// How many blocks the desk has.
    pub fn blocks(&self) -> u32
        ensures count { result ≡ length self.now.pool }
        ensures limits { (16 ≤ result) × (result ≤ most_blocks) }
    {
        self.parts.pool.free() + self.parts.pool.used() + self.parts.pool.retired()
    }

    /// The counts.
    pub fn stat(&self) -> Stat
        ensures number { result.number ≡ length self.now.last.batches }
        ensures names { result.names ≡ length (content self.now.last).names }
        ensures edges { result.edges ≡ edge_total self.now.last }
        ensures free { result.free ≡ count_by is_free self.now.pool }
        ensures retired { result.retired ≡ count_by is_retired self.now.pool }
        ensures used { result.used ≡ count_by is_in_use self.now.pool }
    {
        let Parts { last, pool, .. } = &*self.parts;
        let last = last.version();
        Stat {
            number: last.number(),
            names: last.names().len(),
            edges: last.edge_count(),
            free: pool.free(),
            retired: pool.retired(),
            used: pool.used(),
        }
    }

    /// What is true of every desk, for a proof that cites it: its journal replays legally, to the last version's batches and to
    /// what each block is. So no block was born or retired with a number above the last version's, and the used blocks are those
    /// of the last version. It does nothing.
    pub fn facts(&self)
        ensures replays { IsDesk self.now }
        ensures dated { AreDated self.now.opened (length self.now.last.batches) self.now.pool }
        ensures used { count_by is_in_use self.now.pool ≡ block_count self.now.last }
    {
        let _ = &self.parts;
    }

    /// What the desk did, in order, where it keeps its batches (`Version::keeps_batches`), and else nothing. All that it did replays
    /// legally, to the last version's batches and to what each block is. So no block was born or retired with a number above the
    /// last version's, and the used blocks are those of the last version.
    pub fn journal(&self) -> &[JournalEntry]
        ensures entries { keeps_batches self.now.last.opening.limits ≡ true → map journal_entry result.now ≡ self.now.journal }
        ensures none { keeps_batches self.now.last.opening.limits ≡ false → result.now ≡ [] }
        ensures replays { IsDesk self.now }
        ensures dated { AreDated self.now.opened (length self.now.last.batches) self.now.pool }
        ensures used { count_by is_in_use self.now.pool ≡ block_count self.now.last }
    {
        self.facts();
        self.parts.journal.entries()
    }
}

/// Enters a collection that recycled a block, for which there is room.
fn enter_collection(journal: &mut Journal, copy: &PinCopy, recycled: u32)
    requires { 0 < recycled → 0 < journal.old.room }
    ensures entries { journal.new.entries ≡ journal.old.entries ++ collections copy.now recycled }
    ensures keeps { journal.new.keeps ≡ journal.old.keeps }
    ensures room { journal.old.room ≤ journal.new.room + recycled }
{
    if recycled > 0 {
        let copy = KeptCopy::of(copy);
        journal.enter(JournalEntry::Collected { copy, recycled });
    }
}
