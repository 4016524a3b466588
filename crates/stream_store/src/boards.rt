//! The board of a store that threads share, behind its lock, and what settling a pin leaves.
//!
//! The fields are private to this file. So whoever has the board's lock can do one thing, and gives the lock up by that: nobody
//! holds it while blocks are recycled. And a session is of the version at which its pin was settled, and of no later one.

ghost use Rattle.std.specs.Prelude.{◌≡◌, None, option_map};
ghost use Rattle.std.specs.Sync.Mutex.{mutex_guard_value};
ghost use Rattle.block_reclamation.specs.Board.{with_pin, IsLeast};
ghost use Rattle.block_reclamation.specs.Copies.{pin_at, settled, copy_of, floor_of};
ghost use Rattle.stream_store.specs.Seats.{seat_of};

use crate::seats::{PinnedSeat, Seat, Session};
use block_reclamation::{Board, PinCopy, SeatNo};
use std::marker::Model;
use std::sync::MutexGuard;

/// A board that is kept behind a lock.
#[derive(Drop)]
pub(crate) struct KeptBoard {
    board: Board,
}

impl Model for KeptBoard {
    ghost use Rattle.block_reclamation.specs.Board.{BoardState};

    ghost Value = { BoardState };

    ghost view = { λ kept. kept.board };
}

impl KeptBoard {
    pub(crate) fn of(board: Board) -> KeptBoard
        ensures { result ≡ board }
    {
        KeptBoard { board }
    }

    /// Pins a seat, and gives the lock up.
    pub(crate) fn pin(mut kept: MutexGuard<'_, KeptBoard>, seat: Seat) -> PinnedSeat
        ensures { result ≡ seat }
    {
        seat.pin_on(&mut kept.board)
    }

    /// Settles the pin of a seat that has looked at the shelf, and gives the lock up.
    pub(crate) fn settle(mut kept: MutexGuard<'_, KeptBoard>, seat: PinnedSeat) -> Session
        ensures { result ≡ record { number = seat.number; seen = seat.seen; lent = None } }
    {
        seat.settle_on(&mut kept.board)
    }

    /// Takes the pin of a session's seat away, and gives the lock up.
    pub(crate) fn release(mut kept: MutexGuard<'_, KeptBoard>, session: Session) -> Seat
        ensures { result ≡ seat_of session }
    {
        session.release_lent(&mut kept.board)
    }

    /// Raises the floor to the least of `last` and the pins, answers the copy of these, and gives the lock up.
    pub(crate) fn raise(mut kept: MutexGuard<'_, KeptBoard>, last: u64) -> PinCopy
        ensures copied { result ≡ copy_of last (mutex_guard_value kept.entry).pins }
        ensures least { IsLeast last (mutex_guard_value kept.entry).pins (floor_of result) }
    {
        kept.board.raise(last)
    }
}

/// A seat's pin was settled at this number, where it had one. Only settling makes such a value.
#[derive(Drop)]
pub(crate) struct Settled {
    number: u64,
}

impl Settled {
    /// Settles the seat's pin at a number, where it has one.
    pub(crate) fn at(board: &mut Board, seat: SeatNo, number: u64) -> Settled
        ensures number { result.number ≡ number }
        ensures settled { board.new ≡ with_pin board.old seat (option_map (settled number) (pin_at board.old.pins seat)) }
    {
        board.settle(seat, number);
        Settled { number }
    }
}
