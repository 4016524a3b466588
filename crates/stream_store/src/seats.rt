//! Seats and sessions. A session holds one version while the store goes on: acquire and release of Aspen ("Low-Latency
//! Graph Streaming using Compressed Purely-Functional Trees"; Dhulipala, Blelloch, Shun; PLDI 2019).

ghost use Rattle.std.specs.Prelude.{◌≡◌, ◌⊎◌, ℕ, List, max, length, IfOk, IfErr, OnOk, OnErr, MatchResult, Some, None, true};
ghost use Rattle.std.specs.Prelude.{Err, option_map};
ghost use Rattle.std.specs.Arc.{arc_value};
ghost use Rattle.std.specs.Coded.{codes};
ghost use Rattle.graph_types.specs.Coded.{graph_code};
ghost use Rattle.graph_types.specs.Answer.{IsAnswer};
ghost use Rattle.graph_types.specs.declared.requests.Request.TheVariants.{OneEdge};
ghost use Rattle.block_reclamation.specs.Board.{with_pin};
ghost use Rattle.block_reclamation.specs.Copies.{pin_at, unsettled, settled};
ghost use Rattle.graph_version.specs.declared.versions.Version.{Version};
ghost use Rattle.version_shelf.specs.Shelves.{Begins, IsOfOneShelf};
ghost use Rattle.version_answers.specs.Numbered.{IsNumberedAnswer};
ghost use Rattle.stream_store.specs.Seats.{SeatView, SessionView, lent_or_seen, held_version, held_graph, session_lent, seat_of};

use crate::boards::{KeptBoard, Settled};
use crate::posting::Desk;
use crate::receipts::Receipt;
use crate::store::{Naming, Store};
use block_reclamation::{Board, SeatNo};
use graph_types::{AskError, Reply, Request};
use graph_version::Version;
use std::alloc::AllocError;
use std::fmt;
use std::marker::Model;
use std::sync::{Arc, Wait};
use version_answers::{NumberedReply, answer, answer_in_numbers};
use version_shelf::{ShelfReader, Told};

/// One reader's place, without a session: its number on the board, and its reader of the shelf.
///
/// ```
/// seat.learn(&receipt)?;
/// let session = seat.pin(rt, &store).enter(rt, &store);
/// let seat = session.release(rt, &store);
/// ```
pub struct Seat {
    number: SeatNo,
    reader: ShelfReader,
}

// Written by hand: the numbers of the seat and of the version that it saw last, and not that version.
impl fmt::Debug for Seat {
    fn fmt<F: fmt::Write>(&self, f: &mut fmt::Formatter<F>) -> fmt::Result {
        f.debug_struct("Seat")
            .field("number", &self.number.number())
            .field("seen", &self.reader.newest().number())
            .finish_non_exhaustive()
    }
}

// Written by hand: who lets one go rests on this function, and not on how each part is let go.
impl Drop for Seat {
    fn drop(self) {
        let Seat {
            number: _number,
            reader: _reader,
        } = self;
    }
}

impl Model for Seat {
    ghost Value = { SeatView };

    ghost coded = { Prim.hlevel (codes, graph_code) };

    ghost view = { λ s. record { number = s.number; seen = s.reader } };
}

/// A seat of a store whose pin is set, and which hasn't entered a version since. Where it is dropped, the pin stays.
///
/// ```
/// let pinned = seat.pin(rt, &store);
/// let receipt = store.apply(rt, &PassAll, batch)?;
/// let session = pinned.enter(rt, &store);
/// ```
pub struct PinnedSeat {
    number: SeatNo,
    reader: ShelfReader,
}

// Written by hand: the same numbers. The name says that the pin is set.
impl fmt::Debug for PinnedSeat {
    fn fmt<F: fmt::Write>(&self, f: &mut fmt::Formatter<F>) -> fmt::Result {
        f.debug_struct("PinnedSeat")
            .field("number", &self.number.number())
            .field("seen", &self.reader.newest().number())
            .finish_non_exhaustive()
    }
}

// Written by hand: who lets one go rests on this function, and not on how each part is let go.
impl Drop for PinnedSeat {
    fn drop(self) {
        let PinnedSeat {
            number: _number,
            reader: _reader,
        } = self;
    }
}

impl Model for PinnedSeat {
    ghost Value = { SeatView };

    ghost coded = { Prim.hlevel (codes, graph_code) };

    ghost view = { λ s. record { number = s.number; seen = s.reader } };
}

/// A seat that holds a version. Where it is dropped, the seat's pin stays.
///
/// ```
/// match session.ask(&request) {
///     Ok(Reply::Levels(levels)) => Some(levels.as_slice().len()),
///     _ => None,
/// }
/// ```
pub struct Session {
    number: SeatNo,
    reader: ShelfReader,
    /// The version, where the desk lent it; else it is the newest that the reader saw.
    lent: Option<Arc<Version>>,
    /// The seat's pin was settled at the number of that version.
    settled: Settled,
}

// Written by hand: the number of the seat, and the version held by its number and counts.
impl fmt::Debug for Session {
    fn fmt<F: fmt::Write>(&self, f: &mut fmt::Formatter<F>) -> fmt::Result {
        f.debug_struct("Session")
            .field("seat", &self.number.number())
            .field("version", self.version())
            .finish_non_exhaustive()
    }
}

// Written by hand: who lets one go rests on this function, and not on how each part is let go.
impl Drop for Session {
    fn drop(self) {
        let Session {
            number: _number,
            reader: _reader,
            lent: _lent,
            settled: _settled,
        } = self;
    }
}

impl Model for Session {
    ghost Value = { SessionView };

    ghost coded = { Prim.hlevel (codes, graph_code) };

    ghost view = { λ s. record {
      number = s.number;
      seen = s.reader;
      lent = option_map (λ v. arc_value {X = Version} v) s.lent;
    } };

    ghost invariant = { λ s. s.settled.number
        ≡ length (lent_or_seen (option_map (λ v. arc_value {X = Version} v) s.lent) s.reader).batches };
}

impl Seat {
    pub(crate) fn of(number: SeatNo, reader: ShelfReader) -> Seat
        ensures { result ≡ record { number = number; seen = reader } }
    {
        Seat { number, reader }
    }

    /// Takes over what a receipt tells, where it is newer. The receipt and the seat are of one opening.
    pub fn learn(&mut self, receipt: &Receipt) -> Result<(), AllocError>
        requires { IsOfOneShelf receipt.now.told self.old.seen }
        ensures seen { MatchResult result (λ _. Begins self.old.seen self.new.seen × Begins receipt.now.told self.new.seen)
            (λ _. self.new ≡ self.old) }
        ensures number { self.new.number ≡ self.old.number }
    {
        self.learn_told(&receipt.told)
    }

    /// Takes over what is told of a version, by a receipt or by another seat, where it is newer. It and the seat are of one opening.
    pub fn learn_told(&mut self, told: &Told) -> Result<(), AllocError>
        requires { IsOfOneShelf told.now self.old.seen }
        ensures seen { MatchResult result (λ _. Begins self.old.seen self.new.seen × Begins told.now self.new.seen)
            (λ _. self.new ≡ self.old) }
        ensures number { self.new.number ≡ self.old.number }
    {
        self.reader.learn(told)
    }

    /// What is told of the newest version that the seat entered or learnt.
    pub fn seen(&self) -> &Told
        ensures { result.now ≡ self.now.seen }
    {
        self.reader.told()
    }

    /// Pins the seat at the present floor, under the board's lock alone. It takes no memory.
    pub fn pin<J: Naming, R: Wait>(self, rt: &R, store: &Store<J>) -> PinnedSeat
        ensures { result ≡ self }
    {
        KeptBoard::pin(store.board(rt), self)
    }

    /// Pins the seat at the floor of its board, as one that stands behind a lock of its own beside the owner of the desk.
    pub fn pin_on(self, board: &mut Board) -> PinnedSeat
        ensures seat { result ≡ self }
        ensures pinned { board.new ≡ with_pin board.old self.number (Some (unsettled board.old.floor)) }
    {
        let Seat { number, reader } = self;
        let _floor = board.pin(number);
        PinnedSeat { number, reader }
    }

    /// A session on the desk's last version, and the seat's pin at the greater of the floor and that version's number. Where
    /// no shared copy of the version is to be had, the seat comes back and the board stays as it was.
    pub fn acquire_lent(self, desk: &Desk, board: &mut Board) -> Result<Session, (Seat, AllocError)>
        ensures session { IfOk result (λ s. s ≡ session_lent self desk.now.desk.last) }
        ensures pinned { OnOk result (board.new ≡ with_pin board.old self.number
            (Some (record { number = max board.old.floor (length desk.now.desk.last.batches); is_settled = true }))) }
        ensures refused { IfErr result (λ e. e.0 ≡ self) }
        ensures unchanged { OnErr result (board.new ≡ board.old) }
    {
        let Seat { number, reader } = self;
        match Arc::try_clone(desk.last()) {
            Ok(version) => {
                board.pin(number);
                let settled = Settled::at(board, number, version.number());
                Ok(Session {
                    number,
                    reader,
                    lent: Some(version),
                    settled,
                })
            }
            Err(error) => Err((Seat { number, reader }, error)),
        }
    }
}

impl PinnedSeat {
    /// A session on the version that the shelf shows, where that is newer than all that the seat had seen, and else on the
    /// newest that it had seen; the pin is settled at that version's number, under the board's lock alone. It takes no memory
    /// but one shared copy, and where that is refused the session holds what the seat had seen.
    pub fn enter<J: Naming, R: Wait>(self, rt: &R, store: &Store<J>) -> Session
        ensures later { Begins self.seen result.seen }
        ensures held { result.lent ≡ None }
        ensures number { result.number ≡ self.number }
    {
        KeptBoard::settle(store.board(rt), self.look())
    }

    /// As `enter`, on the seat's board.
    pub fn enter_on(self, board: &mut Board) -> Session
        ensures later { Begins self.seen result.seen }
        ensures held { result.lent ≡ None }
        ensures number { result.number ≡ self.number }
        ensures settled { board.new ≡ with_pin board.old self.number
            (option_map (settled (length result.seen.version.batches)) (pin_at board.old.pins self.number)) }
    {
        self.look().settle_on(board)
    }

    /// Looks at the shelf, before any lock is taken.
    fn look(self) -> PinnedSeat
        ensures later { Begins self.seen result.seen }
        ensures number { result.number ≡ self.number }
    {
        let PinnedSeat { number, mut reader } = self;
        reader.look();
        PinnedSeat { number, reader }
    }

    /// The session on the newest version that the seat has seen; its pin is settled at that version's number.
    pub(crate) fn settle_on(self, board: &mut Board) -> Session
        ensures session { result ≡ record { number = self.number; seen = self.seen; lent = None } }
        ensures settled { board.new ≡ with_pin board.old self.number
            (option_map (settled (length self.seen.version.batches)) (pin_at board.old.pins self.number)) }
    {
        let PinnedSeat { number, reader } = self;
        let version = reader.newest().number();
        let settled = Settled::at(board, number, version);
        Session {
            number,
            reader,
            lent: None,
            settled,
        }
    }
}

impl Session {
    /// The version that the session holds.
    pub fn version(&self) -> &Version
        ensures { result.now ≡ held_version self.now }
    {
        match &self.lent {
            Some(version) => version,
            None => self.reader.newest(),
        }
    }

    /// What is told of the newest version that the session's seat entered or learnt: of the version held, but where that was lent.
    pub fn seen(&self) -> &Told
        ensures { result.now ≡ self.now.seen }
    {
        self.reader.told()
    }

    /// Lets the version go, and takes the seat's pin away, under the board's lock alone. It takes no memory.
    pub fn release<J: Naming, R: Wait>(self, rt: &R, store: &Store<J>) -> Seat
        ensures { result ≡ seat_of self }
    {
        KeptBoard::release(store.board(rt), self)
    }

    /// Lets the version go, lent or entered, and takes the seat's pin away.
    pub fn release_lent(self, board: &mut Board) -> Seat
        ensures seat { result ≡ seat_of self }
        ensures unpinned { board.new ≡ with_pin board.old self.number None }
    {
        let Session {
            number,
            reader,
            lent: _lent,
            settled: _settled,
        } = self;
        board.unpin(number);
        Seat { number, reader }
    }

    /// The answer to a request over the version that the session holds: the first refusal that holds (`BadWindow`, `NoKind`,
    /// `NoVertex`), or else the reply; `OutOfMemory` where a growth was refused, and never for one edge. It takes no lock and
    /// waits for nobody.
    pub fn ask(&self, request: &Request) -> Result<Reply, AskError>
        ensures answer { (result ≡ Err AskError.OutOfMemory) ⊎ IsAnswer request.now (held_graph self.now) result }
        ensures one_edge { (kind source target : List ℕ) → request.now ≡ OneEdge kind source target
            → IsAnswer request.now (held_graph self.now) result }
    {
        let held = self.version();
        answer(self.reader.allocator(), held, request)
    }

    /// The same answer with vertices by their numbers in that version, for which no names are copied.
    pub fn ask_in_numbers(&self, request: &Request) -> Result<NumberedReply, AskError>
        ensures answer { (result ≡ Err AskError.OutOfMemory) ⊎ IsNumberedAnswer request.now (held_graph self.now) result }
        ensures one_edge { (kind source target : List ℕ) → request.now ≡ OneEdge kind source target
            → IsNumberedAnswer request.now (held_graph self.now) result }
    {
        let held = self.version();
        answer_in_numbers(self.reader.allocator(), held, request)
    }
}
