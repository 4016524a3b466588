//! A store that was opened and has no name yet.

ghost use Rattle.std.specs.Prelude.{◌≡◌, ◌<◌, length, map, IfOk, IfErr, Err, All};
ghost use Rattle.std.specs.List.{range_with_len};
ghost use Rattle.block_reclamation.specs.Board.{no_pins};
ghost use Rattle.graph_version.specs.Versions.{empty_version_in};
ghost use Rattle.graph_version.specs.Rebased.{IsRebased};
ghost use Rattle.store_steps.specs.Opening.{IsVersionZero, opened_desk};
ghost use Rattle.stream_store.specs.Opened.{IsOpeningOf};
ghost use Rattle.stream_store.specs.Openings.{RefusesStore};
ghost use Rattle.desk.specs.Refusals.{block_count};
ghost use Rattle.stream_store.specs.Seats.{SeatView, HasSeen, IsNewSeatIn};
ghost use Rattle.stream_store.specs.Stores.{IsSeatOfOpening};

use crate::config::Config;
use crate::opening::{OpenError, open_parts, open_parts_from};
use crate::posting::Desk;
use crate::seats::Seat;
use crate::store::{Naming, Store};
use block_reclamation::Board;
use graph_version::Version;
use std::alloc::Global;
use std::fmt;
use std::marker::{Brand, Model};
use std::sync::Wait;

/// A store that was opened, with its seats. A function that is generic in the store's name makes the two of it.
///
/// ```
/// let opened = Store::open(rt, alloc, Config::new(4, 1_024, 2)?)?;
/// let (store, seats) = opened.named::<J>();
/// ```
pub struct Opened {
    desk: Desk,
    board: Board,
    seats: Vec<Seat>,
}

// Written by hand: its desk, and how many seats there are.
impl fmt::Debug for Opened {
    fn fmt<F: fmt::Write>(&self, f: &mut fmt::Formatter<F>) -> fmt::Result {
        f.debug_struct("Opened")
            .field("desk", &self.desk)
            .field("seats", &self.seats.len())
            .finish_non_exhaustive()
    }
}

// Written by hand: who lets one go rests on this function, and not on how each part is let go.
impl Drop for Opened {
    fn drop(self) {
        let Opened {
            desk: _desk,
            board: _board,
            seats: _seats,
        } = self;
    }
}

impl Model for Opened {
    ghost use Rattle.stream_store.specs.Opened.{OpenedView, IsOpened};
    ghost use Rattle.std.specs.Coded.{codes};
    ghost use Rattle.graph_types.specs.Coded.{graph_code};

    ghost Value = { OpenedView };

    ghost coded = { Prim.hlevel (codes, graph_code) };

    ghost view = { λ o. record { desk = o.desk; board = o.board; seats = o.seats.items } };

    ghost invariant = { λ o. IsOpened (record { desk = o.desk; board = o.board; seats = o.seats.items }) };
}

impl Store<Brand> {
    /// Opens a store without edges: version 0, an empty journal, all blocks free, no pins, and seats, numbered from 0, that have
    /// seen version 0. The store has the configuration's limits. It waits for nobody.
    pub fn open<R: Wait>(rt: &R, alloc: Global, config: Config) -> Result<Opened, OpenError>
        ensures desk { IfOk result (λ o. o.desk
            ≡ record { book = o.desk.book; workers = config.workers; desk = opened_desk config.blocks (empty_version_in config.limits) }) }
        ensures board { IfOk result (λ o. o.board ≡ no_pins) }
        ensures seats { IfOk result (λ o. (length o.seats ≡ config.seats) × All (IsNewSeatIn config.limits o.desk.book) o.seats) }
        ensures numbers { IfOk result (λ o. map (λ (s : SeatView). s.number) o.seats ≡ range_with_len 0 (length o.seats)) }
        ensures refused { IfErr result (RefusesStore 0 config.blocks) }
    {
        let (desk, board, seats) = open_parts(rt, alloc, config)?;
        Ok(Opened { desk, board, seats })
    }

    /// Opens a store with what a version holds, for which it copies the version's blocks: version 0 begins with the version's
    /// content under its limits, its rows are laid out as the version's, and all blocks but its own are free. It waits for nobody.
    ///
    /// `PoolEmpty` exactly where the version has more blocks than the configuration.
    pub fn open_from<R: Wait>(
        rt: &R,
        alloc: Global,
        config: Config,
        version: &Version,
    ) -> Result<Opened, OpenError>
        ensures zero { IfOk result (λ o. IsVersionZero config.blocks o.desk.desk.last) }
        ensures rebased { IfOk result (λ o. IsRebased version.now o.desk.desk.last) }
        ensures desk { IfOk result (λ o. o.desk
            ≡ record { book = o.desk.book; workers = config.workers; desk = opened_desk config.blocks o.desk.desk.last }) }
        ensures board { IfOk result (λ o. o.board ≡ no_pins) }
        ensures seats { IfOk result (λ o. (length o.seats ≡ config.seats) × All (HasSeen o.desk.book o.desk.desk.last) o.seats) }
        ensures numbers { IfOk result (λ o. map (λ (s : SeatView). s.number) o.seats ≡ range_with_len 0 (length o.seats)) }
        ensures refused { IfErr result (RefusesStore (block_count version.now) config.blocks) }
        ensures exact { config.blocks < block_count version.now
            → result ≡ Err (OpenError.PoolEmpty (block_count version.now) config.blocks) }
    {
        let (desk, board, seats) = open_parts_from(rt, alloc, config, version)?;
        Ok(Opened { desk, board, seats })
    }
}

impl Opened {
    /// The store under a name, and its seats, which are known to be of it.
    pub fn named<J: Naming>(self) -> (Store<J>, Vec<Seat>)
        requires { IsOpeningOf J.book J.opening self }
        ensures same { result.1.items ≡ self.seats }
        ensures seats { All (IsSeatOfOpening J.book J.opening) result.1.items }
    {
        let Opened { desk, board, seats } = self;
        (Store::over(desk, board), seats)
    }
}
