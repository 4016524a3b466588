//! The opening of a store.

ghost use Rattle.std.specs.Prelude.{◌≡◌, ℕ, ◌<◌, ◌≤◌, [], length, map, IfOk, IfErr, Err, All};
ghost use Rattle.std.specs.List.{range_with_len};
ghost use Rattle.std.specs.Arc.{arc_value};
ghost use Rattle.block_reclamation.specs.Board.{no_pins};
ghost use Rattle.graph_version.specs.declared.versions.Version.{Version};
ghost use Rattle.graph_version.specs.Versions.{VersionView, empty_version_in};
ghost use Rattle.graph_version.specs.Rebased.{IsRebased};
ghost use Rattle.version_shelf.specs.Shelves.{opened_shelf};
ghost use Rattle.store_steps.specs.Opening.{IsVersionZero, opened_desk};
ghost use Rattle.stream_store.specs.Openings.{RefusesStore};
ghost use Rattle.desk.specs.Refusals.{block_count};
ghost use Rattle.stream_store.specs.Seats.{SeatView, HasSeen, IsNewSeatIn};

use crate::config::Config;
use crate::posting::Desk;
use crate::seats::Seat;
use block_reclamation::{Board, SeatNo};
use graph_version::Version;
use std::alloc::{AllocError, Global};
use std::sync::{Arc, Wait};
use thiserror::Error;
use version_shelf::{ShelfError, ShelfReader, ShelfWriter, shelf};

/// Why no store was opened.
#[derive(Clone, Copy, Debug, PartialEq, Eq, Error)]
pub enum OpenError {
    #[error("the version has {needed} blocks and {free} are free")]
    PoolEmpty { needed: usize, free: u32 },
    #[error("no reader's place was to be had")]
    NoReader,
    #[error("out of memory")]
    OutOfMemory,
}

impl From<AllocError> for OpenError {
    ghost use Rattle.std.specs.Prelude.{◌≡◌};
    ghost use Rattle.stream_store.specs.declared.opening.OpenError.TheVariants.{OutOfMemory};

    ghost from_gives = { λ _ e. e ≡ OutOfMemory };

    fn from(_error: AllocError) -> OpenError {
        OpenError::OutOfMemory
    }
}

impl From<desk::OpenError> for OpenError {
    ghost use Rattle.std.specs.Prelude.{◌≡◌};
    ghost use Rattle.stream_store.specs.Openings.{store_error};

    ghost from_gives = { λ error e. e ≡ store_error error };

    fn from(error: desk::OpenError) -> OpenError {
        match error {
            desk::OpenError::PoolEmpty { needed, free } => OpenError::PoolEmpty { needed, free },
            desk::OpenError::OutOfMemory => OpenError::OutOfMemory,
        }
    }
}

/// A desk, a board and the seats, numbered from 0, all of one opening: version 0, an empty journal, all blocks free, no
/// pins, and seats that have seen version 0. The store has the configuration's limits. It waits for nobody.
pub fn open_parts<R: Wait>(
    rt: &R,
    alloc: Global,
    config: Config,
) -> Result<(Desk, Board, Vec<Seat>), OpenError>
    ensures desk { IfOk result (λ r. r.0
        ≡ record { book = r.0.book; workers = config.workers; desk = opened_desk config.blocks (empty_version_in config.limits) }) }
    ensures board { IfOk result (λ r. r.1 ≡ no_pins) }
    ensures seats { IfOk result (λ r. (length r.2.items ≡ config.seats) × All (IsNewSeatIn config.limits r.0.book) r.2.items) }
    ensures numbers { IfOk result (λ r. map (λ (s : SeatView). s.number) r.2.items ≡ range_with_len 0 (length r.2.items)) }
    ensures refused { IfErr result (RefusesStore 0 config.blocks) }
{
    open_over(
        rt,
        alloc,
        config,
        desk::Desk::open_within(alloc, config.limits(), config.blocks())?,
    )
}

/// The same with what a version holds, for which it copies the version's blocks: version 0 begins with the version's
/// content under its limits, its rows are laid out as the version's, and all blocks but its own are free. It waits for nobody.
///
/// `PoolEmpty` exactly where the version has more blocks than the configuration.
pub fn open_parts_from<R: Wait>(
    rt: &R,
    alloc: Global,
    config: Config,
    version: &Version,
) -> Result<(Desk, Board, Vec<Seat>), OpenError>
    ensures zero { IfOk result (λ r. IsVersionZero config.blocks r.0.desk.last) }
    ensures rebased { IfOk result (λ r. IsRebased version.now r.0.desk.last) }
    ensures desk { IfOk result (λ r. r.0
        ≡ record { book = r.0.book; workers = config.workers; desk = opened_desk config.blocks r.0.desk.last }) }
    ensures board { IfOk result (λ r. r.1 ≡ no_pins) }
    ensures seats { IfOk result (λ r. (length r.2.items ≡ config.seats) × All (HasSeen r.0.book r.0.desk.last) r.2.items) }
    ensures numbers { IfOk result (λ r. map (λ (s : SeatView). s.number) r.2.items ≡ range_with_len 0 (length r.2.items)) }
    ensures refused { IfErr result (RefusesStore (block_count version.now) config.blocks) }
    ensures exact { config.blocks < block_count version.now
        → result ≡ Err (OpenError.PoolEmpty (block_count version.now) config.blocks) }
{
    let kept = desk::Desk::open_over(alloc, config.blocks(), version)?;
    open_over(rt, alloc, config, kept)
}

/// The parts of a store with this desk, which has just opened.
fn open_over<R: Wait>(
    rt: &R,
    alloc: Global,
    config: Config,
    kept: desk::Desk,
) -> Result<(Desk, Board, Vec<Seat>), OpenError>
    requires { (v : VersionView) × IsVersionZero config.blocks v × (kept ≡ opened_desk config.blocks v) }
    ensures desk { IfOk result (λ r. r.0 ≡ record { book = r.0.book; workers = config.workers; desk = kept }) }
    ensures board { IfOk result (λ r. r.1 ≡ no_pins) }
    ensures seats { IfOk result (λ r. (length r.2.items ≡ config.seats)
        × All (HasSeen r.0.book kept.last) r.2.items) }
    ensures numbers { IfOk result (λ r. map (λ (s : SeatView). s.number) r.2.items ≡ range_with_len 0 (length r.2.items)) }
    ensures refused { IfErr result (λ e. (needed : ℕ) → RefusesStore needed config.blocks e) }
{
    let (writer, seats) = shelf_and_seats(rt, alloc, kept.last(), config.seats())?;
    Ok((Desk::opened(config, kept, writer), Board::new(), seats))
}

/// A shelf that shows a version without batches, and so many seats that have seen it. It stands apart from `open_over`, which
/// has a pool to let go at each of its exits: that makes a proof dear.
fn shelf_and_seats<R: Wait>(
    rt: &R,
    alloc: Global,
    version: &Arc<Version>,
    count: usize,
) -> Result<(ShelfWriter, Vec<Seat>), OpenError>
    requires opening { (arc_value {X = Version} version.now).batches ≡ [] }
    requires count { (0 < count) × (count ≤ 16) }
    ensures shelf { IfOk result (λ r. r.0 ≡ opened_shelf r.0.book (arc_value {X = Version} version.now)) }
    ensures seats { IfOk result (λ r. (length r.1.items ≡ count)
        × All (HasSeen r.0.book (arc_value {X = Version} version.now)) r.1.items) }
    ensures numbers { IfOk result (λ r. map (λ (s : SeatView). s.number) r.1.items ≡ range_with_len 0 (length r.1.items)) }
    ensures refused { IfErr result (λ e. (needed blocks : ℕ) → RefusesStore needed blocks e) }
{
    let shown = Arc::try_clone(version)?;
    let (writer, readers) = match shelf(rt, alloc, shown, count) {
        Ok(parts) => parts,
        Err(ShelfError::NoReader) => return Err(OpenError::NoReader),
        Err(ShelfError::OutOfMemory) => return Err(OpenError::OutOfMemory),
    };
    let seats = seats_of(alloc, readers)?;
    Ok((writer, seats))
}

/// A seat for each reader, numbered from 0.
fn seats_of(alloc: Global, mut readers: Vec<ShelfReader>) -> Result<Vec<Seat>, AllocError>
    requires { length readers.items ≤ 16 }
    ensures seen { IfOk result (λ v. map (λ (s : SeatView). s.seen) v.items ≡ readers.items) }
    ensures numbers { IfOk result (λ v. map (λ (s : SeatView). s.number) v.items ≡ range_with_len 0 (length v.items)) }
{
    let mut seats = Vec::new(alloc);
    while !readers.is_empty() {
        let reader = readers.remove(0);
        let Some(number) = SeatNo::new(seats.len() as u8) else {
            unreachable!()
        };
        seats.push(Seat::of(number, reader))?;
    }
    Ok(seats)
}
