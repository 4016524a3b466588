// The shelf, the board, and the store over them.

ghost use Rattle.std.specs.Prelude.{◌≡◌, ◌≤◌, [], length};
ghost use Rattle.std.specs.Arc.{arc_value};
ghost use Rattle.graph_version.specs.declared.versions.Version.{Version};
ghost use Rattle.version_shelf.specs.Shelves.{IsNext, IsOfOneShelf};

use batch_apply::PassAll;
use block_pool::Pool;
use graph_model::{AskError, Batch, Reply, Request};
use graph_version::Version;
use std::alloc::{AllocError, Global};
use std::sync::{Arc, Wait};
use std::thread::Threads;
use stream_store::{
    ApplyError, BadConfig, Collected, Config, Desk, JournalEntry, Naming, OpenError, Opened,
    PinnedSeat, Receipt, Seat, Session, Stat, Store, open_parts, open_parts_from,
};
use version_shelf::{Board, SeatNo, ShelfError, ShelfReader, ShelfWriter, Told, shelf};

fn shelves<R: Wait>(
    rt: &R,
    alloc: Global,
    opening: Arc<Version>,
) -> Result<(ShelfWriter, Vec<ShelfReader>), ShelfError>
    requires { (arc_value {X = Version} opening).batches ≡ [] }
{
    shelf(rt, alloc, opening, 2)
}

fn posts<R: Wait>(
    rt: &R,
    writer: &mut ShelfWriter,
    version: Arc<Version>,
) -> Result<Told, AllocError>
    requires { IsNext writer.old (arc_value {X = Version} version) }
{
    writer.post(rt, version)
}

fn enters(reader: &mut ShelfReader) -> &Arc<Version> {
    reader.enter()
}

fn learns(reader: &mut ShelfReader, told: &Told) -> Result<(), AllocError>
    requires { IsOfOneShelf told.now reader.old }
{
    reader.learn(told)
}

fn boards(seat: SeatNo) -> Board {
    let mut board = Board::new();
    board.pin(seat);
    board.settle(seat, 1);
    board.unpin(seat);
    board
}

// The floor comes with a copy of the pins, by which blocks are recycled.
fn raises(board: &mut Board, pool: &mut Pool) -> (u32, Option<SeatNo>) {
    (pool.recycle(&board.raise(1)), SeatNo::new(0))
}

type Parts = Result<(Desk, Board, Vec<Seat>), OpenError>;

fn opens<R: Wait>(rt: &R, alloc: Global, config: Config) -> (Parts, Result<Opened, OpenError>) {
    (
        open_parts(rt, alloc, config),
        Store::open(rt, alloc, config),
    )
}

fn opens_from<R: Wait>(
    rt: &R,
    alloc: Global,
    config: Config,
    version: &Version,
) -> (Parts, Result<Opened, OpenError>) {
    (
        open_parts_from(rt, alloc, config, version),
        Store::open_from(rt, alloc, config, version),
    )
}

fn tells(desk: &Desk) -> (u64, Stat, &[JournalEntry], Result<Config, BadConfig>) {
    (
        desk.last().number(),
        desk.stat(),
        desk.journal(),
        Config::new(4, 16, 2),
    )
}

// What a desk collects by: the pins at its last number.
fn desks<R: Threads + Wait + Sync>(
    rt: &R,
    desk: &mut Desk,
    board: &mut Board,
    batch: Batch,
) -> (Result<Receipt, ApplyError>, Collected) {
    let told = desk.apply(rt, &PassAll, batch);
    let copy = board.raise(desk.last().number());
    (told, desk.collect(&copy))
}

fn stores<J: Naming, R: Threads + Wait + Sync>(
    rt: &R,
    store: &Store<J>,
    batch: Batch,
) -> (Result<Receipt, ApplyError>, Collected, Stat) {
    (
        store.apply(rt, &PassAll, batch),
        store.collect(rt),
        store.stat(rt),
    )
}

fn learns_of(seat: &mut Seat, receipt: &Receipt) -> Result<(), AllocError>
    requires { IsOfOneShelf receipt.now.told seat.old.seen }
{
    seat.learn(receipt)
}

fn moves<J: Naming, R: Wait>(rt: &R, seat: Seat, store: &Store<J>) -> Seat {
    let pinned: PinnedSeat = seat.pin(rt, store);
    let session: Session = pinned.enter(rt, store);
    session.release(rt, store)
}

fn acquires_lent(
    seat: Seat,
    desk: &Desk,
    board: &mut Board,
) -> Result<Session, (Seat, AllocError)> {
    seat.acquire_lent(desk, board)
}

fn releases_lent(session: Session, board: &mut Board) -> Seat {
    session.release_lent(board)
}

fn asks<'s>(session: &'s Session, request: &Request) -> (Result<Reply, AskError>, &'s Version) {
    (session.ask(request), session.version())
}
