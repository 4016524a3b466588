//! The drive over a new store.

ghost use Rattle.std.specs.Prelude.{◌≡◌, ◌≤◌, ◌*◌, All, length, IfOk};
ghost use Rattle.graph_types.specs.Step.{empty_graph};
ghost use Rattle.stream_store.specs.Stores.{IsOfOpening, IsSeatOfOpening};
ghost use Rattle.store_drive.specs.Reports.{AreCounts, IsReaderCount, IsReport};

use crate::feeder::{Fed, FedLoad, feed};
use crate::pace::Pace;
use crate::readers::{Reading, read};
use crate::reports::{DriveCounts, DriveFault, DriveReport, DriveWord};
use crate::tally::{Tally, sum_of};
use block_reclamation::Board;
use std::alloc::Global;
use std::marker::Brand;
use std::sync::Wait;
use std::thread::{Threads, join, map_vec};
use stream_store::{Config, Desk, Naming, Seat, Store, open_parts};

/// How many workers and blocks the store has. At most 512 blocks are ever asked for.
const WORKERS: usize = 4;

const BLOCKS: u32 = 1_024;

/// What each reader counted, in their order, or why one of them broke off, which is told first.
fn tallies_of<J: Naming>(
    alloc: Global,
    readings: &[Result<Reading<J>, DriveWord>],
) -> Result<Vec<Tally>, DriveWord>
    ensures count { IfOk result (λ tallies. length tallies.items ≡ length readings.now) }
    ensures each { IfOk result (λ tallies. All (λ tally. (tally.checked ≡ 80) × (tally.wrong ≡ 0)) tallies.items) }
{
    let mut tallies = Vec::new(alloc);
    for reading in readings {
        match reading {
            Ok(reading) => tallies.push(reading.tally)?,
            Err(word) => return Err(*word),
        }
    }
    Ok(tallies)
}

/// What each reader finds, each in a thread of its own.
fn read_all<J: Naming + Send + Sync, R: Threads + Wait + Sync>(
    rt: &R,
    alloc: Global,
    store: &Store<J>,
    pace: &Pace,
    seats: Vec<Seat>,
) -> Result<Vec<Result<Reading<J>, DriveWord>>, DriveWord>
    requires { All (IsSeatOfOpening J.book empty_graph) seats.items }
    ensures { IfOk result (λ readings. length readings.items ≡ length seats.items) }
{
    let readings = map_vec(
        rt,
        seats,
        &|seat: Seat| -> Result<Reading<J>, DriveWord>
            requires { IsOfOpening J.book empty_graph seat.seen }
        { read(rt, alloc, store, pace, seat) },
    )?;
    Ok(readings)
}

/// What the readers and the feeder come to, all at once. Where no thread can be made for the readers, they begin once the feeder
/// has ended, which waits for none of them then.
fn read_and_fed<J: Naming + Send + Sync, R: Threads + Wait + Sync>(
    rt: &R,
    alloc: Global,
    store: &Store<J>,
    seats: Vec<Seat>,
) -> (
    Result<Vec<Result<Reading<J>, DriveWord>>, DriveWord>,
    Result<FedLoad<J>, DriveWord>,
)
    requires { All (IsSeatOfOpening J.book empty_graph) seats.items }
    ensures readings { IfOk result.0 (λ readings. length readings.items ≡ length seats.items) }
    ensures fed { IfOk result.1 (λ feed. length feed.earlier.items ≡ 63) }
{
    let pace = Pace::new();
    let readers = seats.len();
    join(
        rt,
        || -> Result<Vec<Result<Reading<J>, DriveWord>>, DriveWord>
            requires { All (IsSeatOfOpening J.book empty_graph) seats.items }
            ensures { IfOk result (λ readings. length readings.items ≡ length seats.items) }
        { read_all(rt, alloc, store, &pace, seats) },
        || -> Result<FedLoad<J>, DriveWord>
            ensures { IfOk result (λ feed. length feed.earlier.items ≡ 63) }
        { feed(rt, alloc, store, &pace, readers) },
    )
}

/// The number of the version that the seat acquires once it has learnt of the receipt.
fn last_number<J: Naming, R: Wait>(
    rt: &R,
    store: &Store<J>,
    fed: &Fed<J>,
    mut seat: Seat,
) -> Result<u64, DriveWord>
    requires empty { J.opening ≡ empty_graph }
    requires seat { IsOfOpening J.book empty_graph seat.seen }
    ensures { IfOk result (λ number. fed.now.receipt.number ≤ number) }
{
    seat.learn(&fed.receipt)?;
    let session = seat.pin(rt, store).enter(rt, store);
    let number = session.version().number();
    let _seat = session.release(rt, store);
    Ok(number)
}

/// The report over what the readers and the feeder came to, and over what a seat acquires that learns of the last batch.
fn report_of<J: Naming, R: Wait>(
    rt: &R,
    alloc: Global,
    store: &Store<J>,
    feed: &FedLoad<J>,
    mut readings: Vec<Result<Reading<J>, DriveWord>>,
) -> Result<DriveCounts, DriveWord>
    requires empty { J.opening ≡ empty_graph }
    requires readers { IsReaderCount (length readings.items) }
    requires fed { length feed.now.earlier.items ≡ 63 }
    ensures { IfOk result (AreCounts (length readings.items)) }
{
    let readers = readings.len();
    let tallies = tallies_of(alloc, readings.as_slice())?;
    let tally = sum_of(tallies.as_slice());
    let Some(reading) = readings.pop() else {
        unreachable!()
    };
    let last = last_number(rt, store, &feed.last, reading?.seat)?;
    let report = DriveReport {
        readers,
        batches: feed.earlier.len() as u32 + 1,
        checked: tally.checked,
        wrong: tally.wrong,
        last,
    };
    Ok(DriveCounts {
        report,
        between: tally.between,
        recycled: feed.recycled,
    })
}

/// The drive over the store of these parts, with a reader for each seat.
fn drive_over<J: Naming + Send + Sync, R: Threads + Wait + Sync>(
    rt: &R,
    alloc: Global,
    desk: Desk,
    board: Board,
    seats: Vec<Seat>,
) -> Result<DriveCounts, DriveWord>
    requires book { desk.book ≡ J.book }
    requires opening { desk.desk.last.opening ≡ J.opening }
    requires empty { J.opening ≡ empty_graph }
    requires seats { All (IsSeatOfOpening J.book empty_graph) seats.items }
    requires readers { IsReaderCount (length seats.items) }
    ensures { IfOk result (AreCounts (length seats.items)) }
{
    let store = Store::<J>::over(desk, board);
    let (readings, fed) = read_and_fed(rt, alloc, &store, seats);
    report_of(rt, alloc, &store, &fed?, readings?)
}

/// What a drive over a new store comes to.
fn drive_new<R: Threads + Wait + Sync>(
    rt: &R,
    alloc: Global,
    readers: usize,
) -> Result<DriveCounts, DriveWord>
    requires { IsReaderCount readers }
    ensures { IfOk result (AreCounts readers) }
{
    let Ok(config) = Config::new(WORKERS, BLOCKS, readers) else {
        unreachable!()
    };
    match open_parts(rt, alloc, config) {
        Ok((desk, board, seats)) => drive_over::<Brand, R>(rt, alloc, desk, board, seats),
        Err(_) => Err(DriveWord::Start),
    }
}

/// Has one thread feed 64 batches of eight operations to a new store of 4 workers and 1,024 blocks, with a collection after every
/// eighth batch, while 1 to 4 readers, each in a thread of its own, do 16 rounds: each acquires a version, asks it five requests,
/// and lets it go. Each answer, refusals by name included, is compared with that of `plain_reply` over what `plain_apply` leaves of
/// that version's own batches; one that differed would be counted as wrong, and none does. Once all threads have returned, one
/// seat learns of the last batch's receipt and acquires a version, whose number is the report's last.
///
/// A round begins once the batch was posted that is four times the number of rounds before it, and no batch is applied while a
/// reader is more than a round behind. So most of the versions that are asked lie between the first and the last. Where no thread
/// can be made, the feeder goes first and the readers follow one another.
///
/// The word of a fault is `Start` where the store was not opened, `Memory` where a growth was refused after that, and else that of
/// the batch that was refused. Each version that a reader acquires begins with the batches of all that its seat had seen.
///
/// ```
/// match drive(rt, 2) {
///     Ok(report) => report.checked == 160 && report.wrong == 0 && report.last == 64,
///     Err(fault) => fault.word() == "Memory",
/// }
/// ```
pub fn drive<A: AllocGlobal + Threads + Wait + Sync>(
    rt: &A,
    readers: usize,
) -> Result<DriveReport, DriveFault>
    requires { IsReaderCount readers }
    ensures { IfOk result (IsReport readers) }
{
    Ok(drive_counted(rt, readers)?.report)
}

/// The same drive, with how many of its answers were of versions between the first and the last, and how many blocks were freed.
///
/// ```
/// match drive_counted(rt, 2) {
///     Ok(counts) => counts.between * 2 > counts.report.checked && counts.recycled > 0,
///     Err(fault) => fault.word() == "Memory",
/// }
/// ```
pub fn drive_counted<A: AllocGlobal + Threads + Wait + Sync>(
    rt: &A,
    readers: usize,
) -> Result<DriveCounts, DriveFault>
    requires { IsReaderCount readers }
    ensures { IfOk result (AreCounts readers) }
{
    match drive_new(rt, rt.alloc(), readers) {
        Ok(counts) => Ok(counts),
        Err(word) => Err(DriveFault { word }),
    }
}
