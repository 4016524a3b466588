//! How large a store is.

ghost use Rattle.std.specs.Prelude.{◌≡◌, MatchResult};
ghost use Rattle.stream_store.specs.Configs.{AreSizesWithin, IsConfig, standard_config};

use graph_types::{Limits, STANDARD_SIZE};
use std::marker::Model;
use thiserror::Error;

/// A store has at most so many blocks.
const MOST_BLOCKS: u32 = 4_293_918_719;

/// How many workers apply a batch, how many blocks there are, and how many seats readers have: 1 to 8, 16 to 65,536 and
/// 1 to 16; or as many blocks as a store can have, under limits of one's own.
///
/// ```
/// let config = Config::new(4, 1_024, 2)?;
/// assert_eq!(rt; config.seats(), 2);
/// let large = Config::within(Limits::new(2_000_000, 4, 1_000_000)?, 4, 8_000_000, 2)?;
/// assert_eq!(rt; large.limits().names(), 2_000_000);
/// ```
#[derive(Clone, Copy, Debug, PartialEq, Eq)]
pub struct Config {
    workers: usize,
    blocks: u32,
    seats: usize,
    limits: Limits,
}

impl Model for Config {
    ghost use Rattle.stream_store.specs.Configs.{ConfigView, IsConfig};

    ghost Value = { ConfigView };

    ghost view = { λ c. record { workers = c.workers; blocks = c.blocks; seats = c.seats; limits = c.limits } };

    ghost invariant = { λ c. IsConfig (record { workers = c.workers; blocks = c.blocks; seats = c.seats; limits = c.limits }) };

    ghost inverse = { λ c. record { workers = c.workers; blocks = c.blocks; seats = c.seats; limits = c.limits } };
}

/// A number that is past its limits.
#[derive(Clone, Copy, Debug, PartialEq, Eq, Error)]
#[error("a number of workers, blocks or seats is past its limits")]
pub struct BadConfig;

impl Config {
    /// A configuration of so many workers, blocks and seats, where each is within its limits; the store has the standard
    /// limits.
    pub fn new(workers: usize, blocks: u32, seats: usize) -> Result<Config, BadConfig>
        ensures { MatchResult result
            (λ config. (config ≡ standard_config workers blocks seats) × AreSizesWithin workers blocks seats)
            (λ _. AreSizesWithin workers blocks seats → ⊥) }
    {
        if blocks > STANDARD_SIZE {
            return Err(BadConfig);
        }
        Config::within(Limits::standard(), workers, blocks, seats)
    }

    /// A configuration of a store under these limits: 1 to 8 workers, 16 to 4,293,918,719 blocks, and 1 to 16 seats.
    pub fn within(
        limits: Limits,
        workers: usize,
        blocks: u32,
        seats: usize,
    ) -> Result<Config, BadConfig>
        ensures { MatchResult result
            (λ config. (config ≡ record { workers = workers; blocks = blocks; seats = seats; limits = limits })
            × IsConfig config)
            (λ _. IsConfig (record { workers = workers; blocks = blocks; seats = seats; limits = limits }) → ⊥) }
    {
        // The limits tell with each of their numbers that they are within the walls.
        let _names = limits.names();
        let is_within = 1 <= workers
            && workers <= 8
            && 16 <= blocks
            && blocks <= MOST_BLOCKS
            && 1 <= seats
            && seats <= 16;
        if !is_within {
            return Err(BadConfig);
        }
        Ok(Config {
            workers,
            blocks,
            seats,
            limits,
        })
    }

    /// The number of workers.
    pub fn workers(self) -> usize
        ensures number { result ≡ self.workers }
        ensures limits { IsConfig self }
    {
        self.workers
    }

    /// The number of blocks.
    pub fn blocks(self) -> u32
        ensures number { result ≡ self.blocks }
        ensures limits { IsConfig self }
    {
        self.blocks
    }

    /// The number of seats.
    pub fn seats(self) -> usize
        ensures number { result ≡ self.seats }
        ensures limits { IsConfig self }
    {
        self.seats
    }

    /// How many names, kinds and batches there may be.
    pub fn limits(self) -> Limits
        ensures value { result ≡ self.limits }
        ensures limits { IsConfig self }
    {
        self.limits
    }
}
