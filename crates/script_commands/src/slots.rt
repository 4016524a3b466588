//! The slots of a script: who holds what.

ghost use Rattle.std.specs.Prelude.{◌≡◌, ℕ, ◌<◌, ◌≤◌, All, Err, IfErr, IfOk, None, OnErr, OnOk, Some, length, map, replicate};
ghost use Rattle.std.specs.Prelude.{slice_get, slice_set};
ghost use Rattle.std.specs.List.{range_with_len};
ghost use Rattle.graph_version.specs.Versions.{IsVersion, VersionView};
ghost use Rattle.block_reclamation.specs.Board.{no_pins};
ghost use Rattle.block_reclamation.specs.Copies.{copy_of, floor_of};
ghost use Rattle.stream_store.specs.Refusals.{block_count};
ghost use Rattle.stream_store.specs.Seats.{SeatView, SessionView};
ghost use Rattle.script_commands.specs.Slots.{AreFew, AreSlotsOf, held_slots, held_of};
ghost use Rattle.script_commands.specs.States as states;

use block_reclamation::{Board, PinCopy};
use feed_csv::FeedWord;
use script_lines::Word;
use std::alloc::{AllocError, Global};
use stream_store::{Desk, Seat, Session};

/// The board, and for each slot its seat, or the session that holds a version.
#[derive(Drop)]
pub(crate) struct Slots {
    board: Board,
    // Each slot has the one or the other.
    seats: Vec<Option<Seat>>,
    sessions: Vec<Option<Session>>,
}

impl Slots {
    /// Slots that hold nothing, one for each seat.
    pub(crate) fn new(alloc: Global, board: Board, seats: Vec<Seat>) -> Result<Slots, AllocError>
        requires board { board ≡ no_pins }
        requires few { length seats.items ≤ 16 }
        requires numbers { map (λ (s : SeatView). s.number) seats.items ≡ range_with_len 0 (length seats.items) }
        ensures slots { IfOk result (λ slots. (last : VersionView) → AreSlotsOf last slots) }
        ensures few { IfOk result (λ slots. (blocks : ℕ) → AreFew blocks slots) }
        ensures none { IfOk result (λ slots. held_slots slots ≡ replicate (length seats.items) None) }
        ensures floor { IfOk result (λ slots. slots.board.floor ≡ 0) }
    {
        let mut free = Vec::new(alloc);
        let mut sessions = Vec::new(alloc);
        for seat in seats {
            free.push(Some(seat))?;
            sessions.push(None)?;
        }
        Ok(Slots {
            board,
            seats: free,
            sessions,
        })
    }

    /// The session in a slot, or why there is none.
    pub(crate) fn session(&self, slot: u8) -> Result<&Session, Word>
        ensures session { IfOk result (λ s. slice_get self.now.sessions.items slot ≡ Some (Some s.now)) }
        ensures refused { IfErr result (λ word. states.version_in (slice_get (held_slots self.now) slot) ≡ Err word) }
    {
        match self.sessions.get(usize::from(slot)) {
            None => Err(Word::Feed(FeedWord::BadSlot)),
            Some(None) => Err(Word::NotOpen),
            Some(Some(session)) => Ok(session),
        }
    }

    /// Lets a slot that holds nothing hold the desk's last version; where there is no memory for that, it holds nothing.
    pub(crate) fn acquire(&mut self, slot: u8, desk: &Desk) -> Result<(), AllocError>
        requires slots { AreSlotsOf desk.now.desk.last self.old }
        requires version { IsVersion desk.now.desk.last }
        requires free { slice_get self.old.sessions.items slot ≡ Some None }
        ensures slots { AreSlotsOf desk.now.desk.last self.new }
        ensures held { OnOk result (held_slots self.new
            ≡ slice_set (held_slots self.old) slot (Some (held_of desk.now.desk.last))) }
        ensures few { (blocks : ℕ) → block_count desk.now.desk.last ≤ blocks → AreFew blocks self.old → AreFew blocks self.new }
        ensures floor { OnOk result (self.new.board.floor ≡ self.old.board.floor) }
        ensures unchanged { OnErr result (held_slots self.new ≡ held_slots self.old) }
    {
        let slot = usize::from(slot);
        let Some(seat) = self.seats[slot].take() else {
            unreachable!()
        };
        match seat.acquire_lent(desk, &mut self.board) {
            Ok(session) => {
                self.sessions[slot] = Some(session);
                Ok(())
            }
            Err((seat, error)) => {
                self.seats[slot] = Some(seat);
                Err(error)
            }
        }
    }

    /// Lets go what a slot holds.
    pub(crate) fn release(&mut self, slot: u8)
        requires kept { (last : VersionView) × AreSlotsOf last self.old }
        requires held { (s : SessionView) × (slice_get self.old.sessions.items slot ≡ Some (Some s)) }
        ensures slots { (last : VersionView) → AreSlotsOf last self.old → AreSlotsOf last self.new }
        ensures few { (blocks : ℕ) → AreFew blocks self.old → AreFew blocks self.new }
        ensures released { (last : VersionView) → AreSlotsOf last self.old
            → held_slots self.new ≡ slice_set (held_slots self.old) slot None }
        ensures floor { self.new.board.floor ≡ self.old.board.floor }
    {
        let slot = usize::from(slot);
        let Some(session) = self.sessions[slot].take() else {
            unreachable!()
        };
        self.seats[slot] = Some(session.release_lent(&mut self.board));
    }

    /// Raises the board's floor to the least of the desk's last number and all held numbers, and answers the copy of them all.
    pub(crate) fn copy(&mut self, desk: &Desk) -> PinCopy
        requires { AreSlotsOf desk.now.desk.last self.old }
        ensures slots { AreSlotsOf desk.now.desk.last self.new }
        ensures few { (blocks : ℕ) → AreFew blocks self.old → AreFew blocks self.new }
        ensures held { held_slots self.new ≡ held_slots self.old }
        ensures copy { result ≡ copy_of (length desk.now.desk.last.batches) (states.pins_of (held_slots self.old)) }
        ensures floor { self.new.board.floor ≡ floor_of result }
    {
        let last = desk.last().number();
        self.board.raise(last)
    }
}
