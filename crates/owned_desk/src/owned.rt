//! A desk with one owner, who holds versions by their numbers.

ghost use Rattle.std.specs.Prelude.{◌≡◌, ℕ, ◌+◌, length, count_by, IfOk, IfErr, OnOk, OnErr, Some};
ghost use Rattle.std.specs.Arc.{arc_value};
ghost use Rattle.graph_version.specs.Batches.{batch_value};
ghost use Rattle.batch_apply.specs.Listed.{IsKnown};
ghost use Rattle.graph_version.specs.declared.versions.Version.{Version};
ghost use Rattle.graph_version.specs.Versions.{content};
ghost use Rattle.graph_version.specs.Rebased.{IsRebased};
ghost use Rattle.block_reclamation.specs.Status.{is_free, is_retired, is_reclaimable};
ghost use Rattle.block_reclamation.specs.Board.{IsLeast};
ghost use Rattle.epoch_core.specs.Worlds.{World};
ghost use Rattle.store_steps.specs.Acceptances.{Accepts};
ghost use Rattle.store_steps.specs.Boards.{raised_board};
ghost use Rattle.store_steps.specs.Desks.{IsCollected, births_in};
ghost use Rattle.store_steps.specs.Opening.{IsVersionZero, opened_desk};
ghost use Rattle.store_steps.specs.Shown.{ShowsWorld};
ghost use Rattle.store_steps.specs.Steps.{SimulatesAt, recycling};
ghost use Rattle.owned_desk.specs.Owned.{KeepsOwned, opened_owned, owned_view, HoldsOnce, RefusesHold, IsReleased, RefusesRelease, copied};
ghost use Rattle.owned_desk.specs.Owned.{IsSeatFor, IsSeatOf, ReleasesOnce, count_at, held_pin, with_hold};
ghost use Rattle.desk.specs.Openings.{OpensWith};
ghost use Rattle.desk.specs.Refusals.{Refuses, IsWithin};
ghost use Rattle.owned_desk.specs.Machine.{Follows, FollowsHold, FollowsRelease, HeldAreSnapshots, LeavesHeldBlocks};
ghost use Rattle.owned_desk.specs.Machine.{IsNumbered, IsUnheld, ShowsMachineStart, ShowsOwned, collect_events};

use crate::applying::touch_sources;
use crate::errors::{HoldError, ReleaseError};
use crate::kept::Kept;
use crate::owned_ready::OwnedReady;
use crate::seats::seat_with;
use batch_apply::KnownEnds;
use block_reclamation::{Board, Pin, SEATS, SeatNo};
use desk::{Collected, Desk, Zero};
use graph_types::{ApplyError, Batch};
use graph_version::Version;
use std::alloc::AllocError;
use std::marker::Model;
use std::sync::Arc;

/// A desk, a board of pins, and how often each number of a version is held: 16 numbers at most, each as often as one likes. A
/// collection keeps the blocks of the versions held.
///
/// ```
/// let mut desk = OwnedDesk::open(alloc, Limits::standard(), 1_024)?;
/// desk.apply(Arc::new(alloc, batch)?)?;
/// let held = desk.hold()?;
/// let collected = desk.collect();
/// desk.release(held.hold)?;
/// ```
pub struct OwnedDesk {
    pub(crate) desk: Desk,
    pub(crate) board: Board,
    /// How often each seat's number is held.
    pub(crate) counts: [u64; SEATS],
    /// How often the desk was opened anew.
    pub(crate) opening: u64,
    /// The version of each seat's number, and what batches touched since.
    pub(crate) kept: Kept,
}

// Written by hand: who lets one go rests on this function, and not on how each part is let go.
impl Drop for OwnedDesk {
    fn drop(self) {
        let OwnedDesk {
            desk: _desk,
            board: _board,
            counts: _counts,
            opening: _opening,
            kept: _kept,
        } = self;
    }
}

impl Model for OwnedDesk {
    ghost use Rattle.std.specs.Coded.{codes};
    ghost use Rattle.graph_types.specs.Coded.{graph_code};
    ghost use Rattle.owned_desk.specs.Owned.{OwnedView, KeepsOwned, owned_view};

    ghost Value = { OwnedView };

    ghost coded = { Prim.hlevel (codes, graph_code) };

    ghost view = { λ o. owned_view o.desk o.board o.counts o.opening o.kept };

    ghost invariant = { λ o. KeepsOwned (owned_view o.desk o.board o.counts o.opening o.kept) o.kept.touched };
}

/// Which version is held, for its release: its number, and in which opening of the desk.
#[derive(Clone, Copy, Debug, PartialEq, Eq)]
pub struct Hold {
    pub opening: u64,
    pub number: u64,
}

/// A version that is held.
#[derive(Drop)]
pub struct Held {
    pub version: Arc<Version>,
    pub hold: Hold,
}

impl OwnedDesk {
    /// A desk of which nothing is held. It takes no memory.
    pub fn over(desk: Desk) -> OwnedDesk
        ensures opened { result ≡ opened_owned desk 0 }
        ensures shown { (w : World) → ShowsWorld desk w → IsUnheld w → ShowsOwned result w }
    {
        OwnedDesk::opened(desk, 0)
    }

    /// A desk at this opening, of which nothing is held.
    fn opened(desk: Desk, opening: u64) -> OwnedDesk
        ensures { result ≡ opened_owned desk opening }
    {
        // What is true of the desk, as that a number stands for one block of its last version.
        desk.facts();
        let kept = Kept::none(desk.allocator());
        OwnedDesk {
            desk,
            board: Board::new(),
            counts: [0; SEATS],
            opening,
            kept,
        }
    }

    /// The desk: its last version, its counts, its journal.
    pub fn desk(&self) -> &Desk
        ensures { result.now ≡ self.now.desk }
    {
        &self.desk
    }

    /// How often the desk was opened anew.
    pub fn opening(&self) -> u64
        ensures { result ≡ self.now.opening }
    {
        self.opening
    }

    /// As `begin`, where this is known of the ends of the batch's operations.
    pub(crate) fn begin_known(
        self,
        batch: Arc<Batch>,
        known: &KnownEnds<'_>,
    ) -> Result<OwnedReady, (OwnedDesk, ApplyError)>
        requires known { IsKnown (content self.desk.last).names (batch_value batch) known.now }
        ensures begun { IfOk result (λ r. (r.old ≡ self) × (r.ops ≡ batch_value batch)) }
        ensures accepts { IfOk result (λ r. Accepts self.desk (batch_value batch) r.new) }
        ensures within { OnOk result (IsWithin self.desk.last (count_by is_free self.desk.pool) (batch_value batch)) }
        ensures refused { IfErr result (λ e. Refuses self.desk.last (count_by is_free self.desk.pool) (batch_value batch) e.1) }
        ensures unchanged { IfErr result (λ e. e.0 ≡ self) }
    {
        let OwnedDesk {
            desk,
            board,
            counts,
            opening,
            mut kept,
        } = self;
        let ready = match desk.begin_known(batch, known) {
            Ok(ready) => ready,
            Err((desk, error)) => {
                return Err((OwnedDesk::with(desk, board, counts, opening, kept), error));
            }
        };
        match touch_sources(&mut kept, &ready) {
            Ok(()) => Ok(OwnedReady::of(ready, board, counts, opening, kept)),
            Err(_refused) => {
                let desk = OwnedDesk::with(ready.cancel(), board, counts, opening, kept);
                Err((desk, ApplyError::OutOfMemory))
            }
        }
    }

    /// The desk of an owner, with what is held.
    pub(crate) fn with(
        desk: Desk,
        board: Board,
        counts: [u64; SEATS],
        opening: u64,
        kept: Kept,
    ) -> OwnedDesk
        requires { KeepsOwned (owned_view desk board counts opening kept) kept.touched }
        ensures { result ≡ owned_view desk board counts opening kept }
    {
        OwnedDesk {
            desk,
            board,
            counts,
            opening,
            kept,
        }
    }

    /// Recycles each retired block that no version held needs, and raises the board's floor. It takes no memory.
    pub fn collect(&mut self) -> Collected
        ensures least { IsLeast (length self.old.desk.last.batches) self.old.board.pins result.floor }
        ensures collected { IsCollected self.old.desk (copied self.old.desk self.old.board) self.new.desk }
        ensures births { (source : ℕ) → births_in self.new.desk source ≡ births_in self.old.desk source }
        ensures steps { let copy = copied self.old.desk self.old.board in
            SimulatesAt copy self.old.desk (recycling copy self.old.desk.pool) self.new.desk }
        ensures board { self.new.board ≡ raised_board (length self.old.desk.last.batches) self.old.board }
        ensures held { (self.new.counts ≡ self.old.counts) × (self.new.opening ≡ self.old.opening) }
        ensures recycled { result.recycled
            ≡ count_by (is_reclaimable (copied self.old.desk self.old.board)) self.old.desk.pool }
        ensures retired { result.retired ≡ count_by is_retired self.new.desk.pool }
        ensures follows { Follows self.old (collect_events self.old) self.new }
        ensures exact { LeavesHeldBlocks self.old self.new }
        ensures snapshots { HeldAreSnapshots self.new }
    {
        let copy = self.board.raise(self.desk.last().number());
        self.desk.collect(&copy)
    }

    /// Gives up the memory of free blocks, but for so many: a batch that takes more makes their memory anew.
    ///
    /// ```
    /// desk.slim(4_096);
    /// ```
    pub fn slim(&mut self, keep: usize)
        ensures { self.new ≡ self.old }
    {
        self.desk.slim(keep);
    }

    /// Holds the last version: its number has a pin that is settled at it, and is counted. `NoSeat` where 16 other numbers are
    /// held, and `OutOfMemory` where no shared copy of the version is to be had, or no further one of its holds counted.
    ///
    /// ```
    /// let held = desk.hold()?;
    /// assert_eq!(rt; held.hold.number, held.version.number());
    /// ```
    pub fn hold(&mut self) -> Result<Held, HoldError>
        ensures held { OnOk result (HoldsOnce self.old (length self.old.desk.last.batches) self.new) }
        ensures version { IfOk result (λ h. arc_value {X = Version} h.version ≡ self.old.desk.last) }
        ensures hold { IfOk result (λ h. h.hold
            ≡ record { opening = self.old.opening; number = length self.old.desk.last.batches }) }
        ensures follows { OnOk result (FollowsHold self.old self.new) }
        ensures numbered { IfOk result (λ h. (w : World) → ShowsOwned self.new w
            → IsNumbered w h.hold.number (arc_value {X = Version} h.version)) }
        ensures refused { IfErr result (RefusesHold self.old (length self.old.desk.last.batches)) }
        ensures unchanged { OnErr result (self.new ≡ self.old) }
    {
        let number = self.desk.last().number();
        let seat = self.seat_for(number)?;
        let count = self.counts[usize::from(seat.number())];
        let Some(more) = count.checked_add(1) else {
            return Err(HoldError::OutOfMemory);
        };
        let (Ok(version), Ok(kept)) = (
            Arc::try_clone(self.desk.last()),
            Arc::try_clone(self.desk.last()),
        ) else {
            return Err(HoldError::OutOfMemory);
        };
        self.pin(seat, more, kept);
        Ok(Held {
            version,
            hold: Hold {
                opening: self.opening,
                number,
            },
        })
    }

    /// Takes one hold back; a number's pin goes with its last one. A hold of a former opening needs nothing more. `ReleaseError`
    /// where the number isn't held, or the opening never was.
    pub fn release(&mut self, hold: Hold) -> Result<(), ReleaseError>
        ensures released { OnOk result (IsReleased self.old hold self.new) }
        ensures follows { OnOk result (FollowsRelease self.old hold self.new) }
        ensures refused { OnErr result (RefusesRelease self.old hold) }
        ensures unchanged { OnErr result (self.new ≡ self.old) }
    {
        if hold.opening < self.opening {
            return Ok(());
        }
        if hold.opening > self.opening {
            return Err(ReleaseError);
        }
        let Some(seat) = seat_with(&self.board, Some(held_pin(hold.number))) else {
            return Err(ReleaseError);
        };
        self.unpin(seat);
        Ok(())
    }

    /// Opens the desk anew over what the last version holds, in the very blocks: version 0 begins with its content and is laid out
    /// as it, no batch is kept, and nothing is retired or held. Versions that were held answer on; the desk doesn't count their
    /// blocks any more, and a batch that uses such a block takes new memory for it. The error is `AllocError` if memory runs out,
    /// or if no further opening can be counted; all is as it was then.
    ///
    /// It takes memory and time by blocks, 4 bytes each, and not by edges; where batches are kept, also for the content as plain
    /// lists. The memory of free blocks is given up.
    pub fn rebase(&mut self) -> Result<(), AllocError>
        ensures zero { OnOk result (IsVersionZero (length self.old.desk.pool) self.new.desk.last) }
        ensures rebased { OnOk result (IsRebased self.old.desk.last self.new.desk.last) }
        ensures opened { OnOk result (self.new
            ≡ opened_owned (opened_desk (length self.old.desk.pool) self.new.desk.last) (self.old.opening + 1)) }
        ensures starts { OnOk result (ShowsMachineStart self.new) }
        ensures unchanged { OnErr result (self.new ≡ self.old) }
    {
        let Some(next) = self.opening.checked_add(1) else {
            return Err(AllocError);
        };
        self.desk.reopen()?;
        self.desk.facts();
        let kept = Kept::none(self.desk.allocator());
        let OwnedDesk {
            board,
            counts,
            opening,
            kept: held,
            ..
        } = self;
        *board = Board::new();
        *counts = [0; SEATS];
        *opening = next;
        *held = kept;
        Ok(())
    }

    /// Opens the desk anew over a version 0 that was made apart, of as many blocks as the desk's, as [`OwnedDesk::rebase`] does over
    /// its last version: nothing is retired or held, and versions that were held answer on. What the last version holds is given up.
    /// The error is `AllocError` if no further opening can be counted; all is as it was then. It takes no memory.
    ///
    /// ```
    /// let zero = Zero::over(alloc, desk.desk().blocks(), &other_version)?;
    /// desk.reopen_with(zero)?;
    /// ```
    pub fn reopen_with(&mut self, zero: Zero) -> Result<(), AllocError>
        requires { OpensWith (length self.old.desk.pool) zero }
        ensures opened { OnOk result (self.new
            ≡ opened_owned (opened_desk (length self.old.desk.pool) (arc_value {X = Version} zero.version)) (self.old.opening + 1)) }
        ensures starts { OnOk result (ShowsMachineStart self.new) }
        ensures unchanged { OnErr result (self.new ≡ self.old) }
    {
        let Some(next) = self.opening.checked_add(1) else {
            return Err(AllocError);
        };
        self.desk.reopen_with(zero);
        self.desk.facts();
        let kept = Kept::none(self.desk.allocator());
        let OwnedDesk {
            board,
            counts,
            opening,
            kept: held,
            ..
        } = self;
        *board = Board::new();
        *counts = [0; SEATS];
        *opening = next;
        *held = kept;
        Ok(())
    }

    /// The seat of a number that is held, or else one that is free.
    fn seat_for(&self, number: u64) -> Result<SeatNo, HoldError>
        ensures seat { IfOk result (IsSeatFor self.now number) }
        ensures refused { IfErr result (λ e. (e ≡ HoldError.NoSeat) × ((seat : ℕ) → IsSeatFor self.now number seat → ⊥)) }
    {
        if let Some(seat) = seat_with(&self.board, Some(held_pin(number))) {
            return Ok(seat);
        }
        match seat_with(&self.board, None) {
            Some(seat) => Ok(seat),
            None => Err(HoldError::NoSeat),
        }
    }

    /// Pins a seat at the last version's number, which is held so often then.
    fn pin(&mut self, seat: SeatNo, count: u64, last: Arc<Version>)
        requires seat { IsSeatFor self.old (length self.old.desk.last.batches) seat }
        requires count { count ≡ count_at self.old.counts seat + 1 }
        requires last { arc_value {X = Version} last ≡ self.old.desk.last }
        ensures { self.new
            ≡ with_hold self.old seat (Some (held_pin (length self.old.desk.last.batches))) count (Some self.old.desk.last) }
    {
        self.desk.facts();
        let number = last.number();
        self.board.pin(seat);
        self.board.settle(seat, number);
        self.counts[usize::from(seat.number())] = count;
        self.kept.put(seat, Some(last));
    }

    /// Counts a seat down, and takes its pin away at 0.
    fn unpin(&mut self, seat: SeatNo)
        requires { (number : ℕ) × IsSeatOf self.old number seat }
        ensures { (number : ℕ) → IsSeatOf self.old number seat → ReleasesOnce self.old number self.new }
    {
        let at = usize::from(seat.number());
        self.counts[at] -= 1;
        if self.counts[at] == 0 {
            self.board.unpin(seat);
            self.kept.put(seat, None);
        }
    }
}

/// The pin of a version that is held.
pub(crate) fn held_pin(number: u64) -> Pin
    ensures { result ≡ held_pin number }
{
    Pin {
        number,
        is_settled: true,
    }
}
