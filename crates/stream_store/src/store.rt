//! The store that threads share: the desk and the board behind a lock each. What a lock held when it was taken is in no
//! contract; of what a call answers the contracts say what holds whatever it held.

ghost use Rattle.std.specs.Prelude.{◌≡◌, ℕ, IfOk, IfErr, OnOk, OnErr, count_by, length};
ghost use Rattle.std.specs.Arc.{arc_value};
ghost use Rattle.std.specs.Coded.{codes};
ghost use Rattle.std.specs.Sync.Mutex.{mutex_guard_value};
ghost use mathlib.Core.List.{IsPrefix};
ghost use Rattle.graph_types.specs.Coded.{graph_code};
ghost use Rattle.graph_types.specs.Step.{empty_graph};
ghost use Rattle.graph_version.specs.declared.versions.Version.{Version};
ghost use Rattle.graph_version.specs.Versions.{content};
ghost use Rattle.graph_version.specs.Kept.{edge_total};
ghost use Rattle.block_reclamation.specs.Status.{is_free, is_in_use, is_retired, is_reclaimable};
ghost use Rattle.block_reclamation.specs.Copies.{floor_of};
ghost use Rattle.block_reclamation.specs.Board.{IsLeast};
ghost use Rattle.store_steps.specs.Desks.{IsCollected, births_in};
ghost use Rattle.store_steps.specs.Acceptances.{Accepts};
ghost use Rattle.store_steps.specs.Steps.{SimulatesAt, recycling};
ghost use Rattle.stream_store.specs.Applying.{IsReceipt};
ghost use Rattle.desk.specs.Refusals.{Refuses, IsWithin};
ghost use Rattle.stream_store.specs.Stores.{IsReceiptOf, IsRefusalOf, IsOfOpening, copied};

use crate::boards::KeptBoard;
use crate::posting::Desk;
use crate::receipts::Receipt;
use batch_apply::Gate;
use block_reclamation::{Board, PinCopy, SeatNo};
use desk::{ApplyError, Collected, Stat};
use graph_types::Batch;
use graph_version::Version;
use std::alloc::AllocError;
use std::fmt;
use std::marker::{Brand, Model, PhantomData};
use std::sync::{Arc, Mutex, MutexGuard, Wait};
use std::thread::Threads;
use version_shelf::Told;

/// Which opening a store and its seats are of. It exists in the proofs alone: whoever opens a store names its opening, and
/// so what comes out of a lock is known to be of that opening.
pub trait Naming {
    ghost use Rattle.logbook.specs.Pages.{Book};
    ghost use Rattle.graph_types.specs.Graph.{Graph};

    ghost book: { Book };

    ghost opening: { Graph };
}

impl Naming for Brand {
    ghost book = { record { number = 0; log_name = 0; cells_name = 0 } };

    ghost opening = { empty_graph };
}

/// A desk of the opening that has this name.
#[derive(Drop)]
struct NamedDesk<J: Naming> {
    desk: Desk,
    of: PhantomData<J>,
    ghost book_is: { desk.book ≡ J.book },
    ghost opening_is: { desk.desk.last.opening ≡ J.opening } by { Prim.hlevel (codes, graph_code) },
}

impl<J: Naming> NamedDesk<J> {
    /// Applies a batch, as the desk does.
    fn apply<R: Threads + Wait + Sync, G: Gate + Sync>(
        &mut self,
        rt: &R,
        gate: &G,
        batch: Batch,
    ) -> Result<Receipt, ApplyError>
        ensures accepted { OnOk result (Accepts self.old.desk.desk batch self.new.desk.desk) }
        ensures left { IfOk result (λ r. IsReceipt self.old.desk batch self.new.desk r.number r.outcomes r.told) }
        ensures workers { self.new.desk.workers ≡ self.old.desk.workers }
        ensures within { OnOk result (IsWithin self.old.desk.desk.last (count_by is_free self.old.desk.desk.pool) batch) }
        ensures refuses { IfErr result (λ e. Refuses self.old.desk.desk.last (count_by is_free self.old.desk.desk.pool) batch e) }
        ensures unchanged { OnErr result (self.new.desk ≡ self.old.desk) }
        ensures receipt { IfOk result (λ r. IsReceiptOf batch r.number r.outcomes r.told) }
        ensures opening { IfOk result (λ r. IsOfOpening J.book J.opening r.told) }
        ensures refused { IfErr result (IsRefusalOf J.opening batch) }
    {
        self.desk.facts();
        self.desk.apply(rt, gate, batch)
    }

    /// Collects by the copy of the last version's number and the pins of the board under this guard, to whose least the board's
    /// floor is raised first. Only that waits for the board: raising takes the guard, so its lock is given up before a block is
    /// recycled.
    fn collect(&mut self, board: MutexGuard<'_, KeptBoard>) -> Collected
        ensures least { IsLeast (length self.old.desk.desk.last.batches) (mutex_guard_value board.entry).pins result.floor }
        ensures collected { let copy = copied self.old.desk.desk (mutex_guard_value board.entry) in
            IsCollected self.old.desk.desk copy self.new.desk.desk }
        ensures births { (source : ℕ) → births_in self.new.desk.desk source ≡ births_in self.old.desk.desk source }
        ensures steps { let copy = copied self.old.desk.desk (mutex_guard_value board.entry) in
            SimulatesAt copy self.old.desk.desk (recycling copy self.old.desk.desk.pool) self.new.desk.desk }
        ensures workers { self.new.desk.workers ≡ self.old.desk.workers }
        ensures recycled { result.recycled
            ≡ count_by (is_reclaimable (copied self.old.desk.desk (mutex_guard_value board.entry))) self.old.desk.desk.pool }
        ensures retired { result.retired ≡ count_by is_retired self.new.desk.desk.pool }
    {
        let copy = self.copy_of(board);
        self.desk.collect(&copy)
    }

    /// The copy of the last version's number and the pins of the board under this guard, which is given up once the board's
    /// floor is raised.
    fn copy_of(&self, board: MutexGuard<'_, KeptBoard>) -> PinCopy
        ensures copied { result ≡ copied self.now.desk.desk (mutex_guard_value board.entry) }
        ensures least { IsLeast (length self.now.desk.desk.last.batches) (mutex_guard_value board.entry).pins (floor_of result) }
    {
        KeptBoard::raise(board, self.desk.last().number())
    }

    /// Confirms what was told or seen of a version of this opening, as the desk does, and answers the desk's last version, whose
    /// batches begin with that version's.
    fn confirm(&mut self, seen: &Told) -> Result<Arc<Version>, AllocError>
        requires { seen.now.book ≡ J.book }
        ensures published { IsPrefix seen.now.version.batches self.old.desk.desk.last.batches }
        ensures last { IfOk result (λ last. arc_value {X = Version} last ≡ self.old.desk.desk.last) }
        ensures begins { IfOk result (λ last. IsPrefix seen.now.version.batches (arc_value {X = Version} last).batches) }
        ensures opening { IfOk result (λ last. (arc_value {X = Version} last).opening ≡ J.opening) }
        ensures same { self.new.desk ≡ self.old.desk }
    {
        self.desk.confirm(seen);
        Arc::try_clone(self.desk.last())
    }

    /// The counts, as the desk tells them.
    fn stat(&self) -> Stat
        ensures number { result.number ≡ length self.now.desk.desk.last.batches }
        ensures names { result.names ≡ length (content self.now.desk.desk.last).names }
        ensures edges { result.edges ≡ edge_total self.now.desk.desk.last }
        ensures free { result.free ≡ count_by is_free self.now.desk.desk.pool }
        ensures retired { result.retired ≡ count_by is_retired self.now.desk.desk.pool }
        ensures used { result.used ≡ count_by is_in_use self.now.desk.desk.pool }
    {
        self.desk.stat()
    }
}

/// A store that threads share: a desk and a board, each behind a lock. Where both locks are held, the desk's was taken first.
/// `close` ends it: a store that is dropped without that keeps what its shelf showed last.
///
/// ```
/// let receipt = store.apply(rt, &PassAll, batch)?;
/// seat.learn(&receipt)?;
/// let collected = store.collect(rt);
/// let last = store.close(rt);
/// ```
#[derive(Drop)]
pub struct Store<J: Naming> {
    desk: Mutex<NamedDesk<J>>,
    board: Mutex<KeptBoard>,
}

// Written by hand: it takes no lock, so it shows nothing that a lock guards.
impl<J: Naming> fmt::Debug for Store<J> {
    fn fmt<F: fmt::Write>(&self, f: &mut fmt::Formatter<F>) -> fmt::Result {
        f.debug_struct("Store").finish_non_exhaustive()
    }
}

impl<J: Naming> Store<J> {
    /// The store of a desk and a board of one opening, which has this name.
    pub fn over(desk: Desk, board: Board) -> Store<J>
        requires book { desk.book ≡ J.book }
        requires opening { desk.desk.last.opening ≡ J.opening }
    {
        Store {
            desk: Mutex::new(NamedDesk {
                desk,
                of: PhantomData,
            }),
            board: Mutex::new(KeptBoard::of(board)),
        }
    }

    /// Applies a batch under the desk's lock, as the desk does.
    pub fn apply<R: Threads + Wait + Sync, G: Gate + Sync>(
        &self,
        rt: &R,
        gate: &G,
        batch: Batch,
    ) -> Result<Receipt, ApplyError>
        ensures receipt { IfOk result (λ r. IsReceiptOf batch r.number r.outcomes r.told) }
        ensures opening { IfOk result (λ r. IsOfOpening J.book J.opening r.told) }
        ensures refused { IfErr result (IsRefusalOf J.opening batch) }
    {
        self.desk.lock(rt).apply(rt, gate, batch)
    }

    /// Collects under the desk's lock, by the copy of the pins that the board gives under its own, which is given up before a
    /// block is recycled. It takes no memory.
    pub fn collect<R: Wait>(&self, rt: &R) -> Collected {
        let mut desk = self.desk.lock(rt);
        desk.collect(self.board.lock(rt))
    }

    /// The desk's last version, under its lock: its batches begin with those of the version that was told or seen, which is of
    /// this opening. So whoever learnt of a version or entered it finds it confirmed. `AllocError` where no shared copy of the
    /// last version is to be had; the store is as it was, either way.
    ///
    /// ```
    /// let last = store.confirm(rt, session.seen())?;
    /// assert!(rt; session.version().number() <= last.number());
    /// ```
    pub fn confirm<R: Wait>(&self, rt: &R, seen: &Told) -> Result<Arc<Version>, AllocError>
        requires { seen.now.book ≡ J.book }
        ensures published { IfOk result (λ last. IsPrefix seen.now.version.batches (arc_value {X = Version} last).batches) }
        ensures opening { IfOk result (λ last. (arc_value {X = Version} last).opening ≡ J.opening) }
    {
        self.desk.lock(rt).confirm(seen)
    }

    /// The counts of the desk, under its lock.
    pub fn stat<R: Wait>(&self, rt: &R) -> Stat {
        self.desk.lock(rt).stat()
    }

    /// Ends the store, as `Desk::close` ends its desk.
    pub fn close<R: Wait>(self, rt: &R) -> Arc<Version>
        ensures { (arc_value {X = Version} result).opening ≡ J.opening }
    {
        let Store {
            desk,
            board: _board,
        } = self;
        let NamedDesk { desk, of: _ } = desk.into_inner();
        desk.close(rt)
    }

    /// The board, locked.
    pub(crate) fn board<'a, R: Wait>(&'a self, rt: &R) -> MutexGuard<'a, KeptBoard> {
        self.board.lock(rt)
    }
}
