//! The desk that posts on a shelf what it accepts.

ghost use Rattle.std.specs.Prelude.{◌≡◌, ℕ, ◌<◌, ◌≤◌, [], length, true, false, map, count_by, IsSome};
ghost use Rattle.std.specs.Prelude.{IfOk, IfErr, OnOk, OnErr};
ghost use Rattle.std.specs.Arc.{arc_value};
ghost use Rattle.std.specs.Coded.{codes};
ghost use Rattle.graph_types.specs.Coded.{graph_code};
ghost use mathlib.Core.List.{IsPrefix};
ghost use Rattle.graph_version.specs.declared.versions.Version.{Version};
ghost use Rattle.graph_version.specs.Versions.{VersionView, content};
ghost use Rattle.graph_version.specs.Kept.{edge_total};
ghost use Rattle.graph_version.specs.Logs.{keeps_batches};
ghost use Rattle.block_reclamation.specs.Status.{is_free, is_in_use, is_retired, is_reclaimable};
ghost use Rattle.block_reclamation.specs.Copies.{floor_of};
ghost use Rattle.version_shelf.specs.Shelves.{opened_shelf};
ghost use Rattle.store_steps.specs.Desks.{IsDesk, IsCollected, births_in};
ghost use Rattle.store_steps.specs.Dates.{AreDated};
ghost use Rattle.store_steps.specs.Opening.{IsVersionZero, opened_desk};
ghost use Rattle.store_steps.specs.Acceptances.{Accepts};
ghost use Rattle.store_steps.specs.Steps.{SimulatesAt, recycling};
ghost use Rattle.desk.specs.Kept.{journal_entry};
ghost use Rattle.desk.specs.Refusals.{Refuses, IsWithin, block_count};
ghost use Rattle.stream_store.specs.Applying.{IsReceipt};
ghost use Rattle.stream_store.specs.Kept.{DeskState, IsDeskState, kept_desk};

use crate::applying::post_and_finish;
use crate::config::Config;
use crate::receipts::Receipt;
use batch_apply::Gate;
use block_reclamation::PinCopy;
use desk::{ApplyError, Collected, JournalEntry, Stat};
use graph_types::Batch;
use graph_version::Version;
use std::fmt;
use std::marker::Model;
use std::sync::{Arc, Wait};
use std::thread::Threads;
use version_shelf::{ShelfWriter, Told};

/// The desk of a store: the desk that keeps the last version, the pool and the journal, how many workers apply a batch, and the
/// shelf's writer.
///
/// ```
/// let (mut desk, board, seats) = open_parts(rt, alloc, Config::new(4, 1_024, 2)?)?;
/// let receipt = desk.apply(rt, &PassAll, batch)?;
/// assert_eq!(rt; desk.stat().number, receipt.number);
/// let last = desk.close(rt);
/// ```
pub struct Desk {
    /// It is taken out while a batch is on its way, and is there again when the call returns.
    kept: Option<desk::Desk>,
    workers: usize,
    shelf: ShelfWriter,
}

// Written by hand: its counts, and neither the last version's graph nor the journal.
impl fmt::Debug for Desk {
    fn fmt<F: fmt::Write>(&self, f: &mut fmt::Formatter<F>) -> fmt::Result {
        f.debug_struct("Desk")
            .field("workers", &self.workers)
            .field("stat", &self.stat())
            .finish_non_exhaustive()
    }
}

// Written by hand: who lets one go rests on this function, and not on how each part is let go.
impl Drop for Desk {
    fn drop(self) {
        let Desk {
            kept: _kept,
            workers: _workers,
            shelf: _shelf,
        } = self;
    }
}

impl Model for Desk {
    ghost Value = { DeskState };

    ghost coded = { Prim.hlevel (codes, graph_code) };

    ghost view = { λ d. record { book = d.shelf.book; workers = d.workers; desk = kept_desk d.kept } };

    ghost invariant = { λ d.
        IsDeskState (record { book = d.shelf.book; workers = d.workers; desk = kept_desk d.kept }) d.shelf × IsSome d.kept };
}

impl Desk {
    /// The desk at its opening, with a shelf that has posted nothing. It takes no memory.
    pub(crate) fn opened(config: Config, kept: desk::Desk, shelf: ShelfWriter) -> Desk
        requires zero { (v : VersionView) × IsVersionZero config.blocks v × (kept ≡ opened_desk config.blocks v) }
        requires shelf { shelf ≡ opened_shelf shelf.book kept.last }
        ensures { result ≡ record { book = shelf.book; workers = config.workers; desk = kept } }
    {
        Desk {
            kept: Some(kept),
            workers: config.workers(),
            shelf,
        }
    }

    /// The desk that is kept.
    fn kept(&self) -> &desk::Desk
        ensures { result.now ≡ self.now.desk }
    {
        match &self.kept {
            Some(kept) => kept,
            None => unreachable!(),
        }
    }

    /// Applies a batch, and posts the version that it leaves; or refuses it, and leaves all as it was. Its workers work at
    /// once and tell `gate` of themselves; no outcome depends on how many there are.
    ///
    /// Refused are, in this order: a batch behind as many as the limits allow, one that would leave more vertex names than
    /// these, one that would leave more kinds, and one that asks for more blocks than are free. It is refused too if memory runs
    /// out, at any place.
    pub fn apply<R: Threads + Wait + Sync, G: Gate + Sync>(
        &mut self,
        rt: &R,
        gate: &G,
        batch: Batch,
    ) -> Result<Receipt, ApplyError>
        ensures accepted { OnOk result (Accepts self.old.desk batch self.new.desk) }
        ensures receipt { IfOk result (λ r. IsReceipt self.old batch self.new r.number r.outcomes r.told) }
        ensures book { self.new.book ≡ self.old.book }
        ensures workers { self.new.workers ≡ self.old.workers }
        ensures within { OnOk result (IsWithin self.old.desk.last (count_by is_free self.old.desk.pool) batch) }
        ensures refused { IfErr result (λ e. Refuses self.old.desk.last (count_by is_free self.old.desk.pool) batch e) }
        ensures unchanged { OnErr result (self.new ≡ self.old) }
        ensures used { count_by is_in_use self.old.desk.pool ≡ block_count self.old.desk.last }
    {
        let Some(kept) = self.kept.take() else {
            unreachable!()
        };
        let ready = match kept.begin_at_once(rt, gate, batch, self.workers) {
            Ok(ready) => ready,
            Err((kept, error)) => {
                self.kept = Some(kept);
                return Err(error);
            }
        };
        match post_and_finish(rt, ready, &mut self.shelf) {
            Ok((kept, receipt)) => {
                self.kept = Some(kept);
                Ok(receipt)
            }
            Err(kept) => {
                self.kept = Some(kept);
                Err(ApplyError::OutOfMemory)
            }
        }
    }

    /// Recycles each retired block that the copy of the pins doesn't need; its last number is at most the desk's. It
    /// takes no memory.
    pub fn collect(&mut self, copy: &PinCopy) -> Collected
        requires { copy.now.last ≤ length self.old.desk.last.batches }
        ensures book { self.new.book ≡ self.old.book }
        ensures workers { self.new.workers ≡ self.old.workers }
        ensures collected { IsCollected self.old.desk copy.now self.new.desk }
        ensures births { (source : ℕ) → births_in self.new.desk source ≡ births_in self.old.desk source }
        ensures steps { SimulatesAt copy.now self.old.desk (recycling copy.now self.old.desk.pool) self.new.desk }
        ensures floor { result.floor ≡ floor_of copy.now }
        ensures recycled { result.recycled ≡ count_by (is_reclaimable copy.now) self.old.desk.pool }
        ensures retired { result.retired ≡ count_by is_retired self.new.desk.pool }
    {
        match &mut self.kept {
            Some(kept) => kept.collect(copy),
            None => unreachable!(),
        }
    }

    /// Ends the desk: the last version comes back, and all else is given back. Where a desk is dropped without this, what its
    /// shelf showed last is never given back. Seats keep what they have seen, and find nothing newer. It waits for those that
    /// are looking at the shelf.
    pub fn close<R: Wait>(self, rt: &R) -> Arc<Version>
        ensures { arc_value {X = Version} result ≡ self.desk.last }
    {
        let Desk {
            kept,
            workers: _workers,
            shelf,
        } = self;
        let _shown = shelf.close(rt);
        match kept {
            Some(kept) => kept.close(),
            None => unreachable!(),
        }
    }

    /// The last version.
    pub fn last(&self) -> &Arc<Version>
        ensures { arc_value {X = Version} result.now ≡ self.now.desk.last }
    {
        self.kept().last()
    }

    /// The counts.
    pub fn stat(&self) -> Stat
        ensures number { result.number ≡ length self.now.desk.last.batches }
        ensures names { result.names ≡ length (content self.now.desk.last).names }
        ensures edges { result.edges ≡ edge_total self.now.desk.last }
        ensures free { result.free ≡ count_by is_free self.now.desk.pool }
        ensures retired { result.retired ≡ count_by is_retired self.now.desk.pool }
        ensures used { result.used ≡ count_by is_in_use self.now.desk.pool }
    {
        self.kept().stat()
    }

    /// What is true of every desk, for a proof that cites it: its journal replays legally, to the last version's batches and to
    /// what each block is. So no block was born or retired with a number above the last version's, and the used blocks are those
    /// of the last version. It does nothing.
    pub fn facts(&self)
        ensures replays { IsDesk self.now.desk }
        ensures dated { AreDated self.now.desk.opened (length self.now.desk.last.batches) self.now.desk.pool }
        ensures used { count_by is_in_use self.now.desk.pool ≡ block_count self.now.desk.last }
    {
        self.kept().facts();
    }

    /// What the desk did, in order, where it keeps its batches (`Version::keeps_batches`), and else nothing. All that it did replays
    /// legally, to the last version's batches and to what each block is. So no block was born or retired with a number above the
    /// last version's, and the used blocks are those of the last version.
    pub fn journal(&self) -> &[JournalEntry]
        ensures entries { keeps_batches self.now.desk.last.opening.limits ≡ true
            → map journal_entry result.now ≡ self.now.desk.journal }
        ensures none { keeps_batches self.now.desk.last.opening.limits ≡ false → result.now ≡ [] }
        ensures replays { IsDesk self.now.desk }
        ensures dated { AreDated self.now.desk.opened (length self.now.desk.last.batches) self.now.desk.pool }
        ensures used { count_by is_in_use self.now.desk.pool ≡ block_count self.now.desk.last }
    {
        self.kept().journal()
    }

    /// What a receipt tells, or a seat of this opening has seen, is a beginning of the posted list, which is the desk's. It
    /// changes nothing, takes no memory and waits for nobody.
    ///
    /// ```
    /// desk.confirm(session.seen());
    /// ```
    pub fn confirm(&mut self, told: &Told)
        requires { told.now.book ≡ self.old.book }
        ensures published { IsPrefix told.now.version.batches self.old.desk.last.batches }
        ensures same { self.new ≡ self.old }
    {
        self.shelf.confirm(told);
    }
}
